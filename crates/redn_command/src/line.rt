//! Words as options with their values, and positions.

ghost use Rattle.std.specs.Prelude.{◌≡◌, ◌≢◌, ◌↔◌, List, Err, IfOk, IsTrue, false, map, string_bytes};
ghost use Rattle.clap.specs.Words.{app_of, kind_of, rule_of};
ghost use Rattle.redn_command.specs.Words.{IsLine, IsName, Line as LineValue, Part, line_of, option_text};
ghost use Rattle.redn_command.specs.Lines.{AreParts, GivesOnce, IsMatchOf, line_app, line_view, option_name, option_rule};

use crate::command::WordsFault;
use clap::error::ErrorKind;
use clap::{Arg, ArgAction, ArgMatches, Command};
use std::alloc::{AllocError, Global};

/// The options of a run.
#[derive(Clone, Copy)]
pub enum Choice {
    Schedule,
    Fair,
    Shuffle,
    Steps,
    Record,
}

/// The value of each option, if it is given.
#[derive(Clone, Copy)]
pub struct Options<'a> {
    pub schedule: Option<&'a str>,
    pub fair: Option<&'a str>,
    pub shuffle: Option<&'a str>,
    pub steps: Option<&'a str>,
    pub record: Option<&'a str>,
}

/// What stands behind a verb.
#[derive(Drop)]
pub struct Line<'a> {
    pub options: Options<'a>,
    pub positions: Vec<&'a str>,
}

/// What the positions are called in the matches.
const POSITIONS: &str = "positions";

/// Whether a word can be a file's name: it isn't empty and is no option.
fn is_name(word: &str) -> bool
    ensures { IsTrue result ↔ IsName word.now }
{
    match word.as_bytes() {
        [] => false,
        [first, ..] => *first != b'-',
    }
}

/// Whether a word is one of the options.
fn is_option(word: &str) -> bool
    ensures yes { IsTrue result → (c : Choice) × (word.now ≡ option_text c) }
    ensures no { (c : Choice) → word.now ≡ option_text c → IsTrue result }
{
    matches!(
        word,
        "--schedule" | "--fair" | "--shuffle" | "--steps" | "--record"
    )
}

/// Whether words are names and options, each with a name behind it.
fn are_parts(words: &[String]) -> bool
    ensures yes { IsTrue result → (parts : List Part) × AreParts (map string_bytes words.now) parts }
    ensures no { (parts : List Part) → AreParts (map string_bytes words.now) parts → IsTrue result }
{
    let mut wants_value = false;
    for word in words {
        if is_name(word) {
            wants_value = false;
        } else {
            if wants_value {
                return false;
            }
            if !is_option(word) {
                return false;
            }
            wants_value = true;
        }
    }
    !wants_value
}

/// The name of an option, without dashes.
fn name_of<'a>(choice: Choice) -> &'a str
    ensures { result.now ≡ option_name choice }
{
    match choice {
        Choice::Schedule => "schedule",
        Choice::Fair => "fair",
        Choice::Shuffle => "shuffle",
        Choice::Steps => "steps",
        Choice::Record => "record",
    }
}

/// An option that takes one value.
fn option_arg<'a>(alloc: Global, name: &'a str) -> Arg<'a>
    ensures rule { rule_of result ≡ option_rule name.entry.now }
    ensures local { result.global ≡ false }
{
    Arg::new(alloc, name).long(name).action(ArgAction::Set)
}

/// Options and positions, in any order. Which of them a verb takes is looked at later.
fn line_command<'a>(alloc: Global) -> Result<Command<'a>, AllocError>
    ensures { IfOk result (λ c. app_of c ≡ line_app) }
{
    let positions = Arg::new(alloc, POSITIONS).action(ArgAction::Append);
    Command::new(alloc, "redn")
        .no_binary_name(true)
        .disable_help_flag(true)
        .arg(option_arg(alloc, name_of(Choice::Schedule)))?
        .arg(option_arg(alloc, name_of(Choice::Fair)))?
        .arg(option_arg(alloc, name_of(Choice::Shuffle)))?
        .arg(option_arg(alloc, name_of(Choice::Steps)))?
        .arg(option_arg(alloc, name_of(Choice::Record)))?
        .arg(positions)
}

/// What an error of the match comes to.
fn fault_of(error: &clap::Error) -> WordsFault
    ensures { result ≡ WordsFault.Refused → kind_of error.now ≢ ErrorKind.OutOfMemory }
{
    match error.kind() {
        ErrorKind::OutOfMemory => WordsFault::Memory,
        _ => WordsFault::Refused,
    }
}

/// The options and positions of words that are parts. It is refused only where an option stands twice.
fn matches_of<'a>(alloc: Global, words: &'a [String]) -> Result<ArgMatches<'a>, WordsFault>
    ensures matches { IfOk result (λ m. (parts : List Part) → AreParts (map string_bytes words.now) parts
        → IsMatchOf (line_of parts) m) }
    ensures refused { result ≡ Err WordsFault.Refused → (parts : List Part) → AreParts (map string_bytes words.now) parts
        → ¬ GivesOnce (line_of parts) }
{
    let command = line_command(alloc).map_err(|_| WordsFault::Memory)?;
    match command.try_get_matches_from(words) {
        Ok(matches) => Ok(matches),
        Err(error) => Err(fault_of(&error)),
    }
}

/// The words behind a verb, cut into options and positions.
pub fn cut<'a>(alloc: Global, words: &'a [String]) -> Result<Line<'a>, WordsFault>
    ensures line { IfOk result (λ l. IsLine (map string_bytes words.now) (line_view l)) }
    ensures refused { result ≡ Err WordsFault.Refused → (line : LineValue)
        → IsLine (map string_bytes words.now) line → ¬ GivesOnce line }
{
    if !are_parts(words) {
        return Err(WordsFault::Refused);
    }
    let matches = matches_of(alloc, words)?;
    let options = Options {
        schedule: matches.get_str(name_of(Choice::Schedule)),
        fair: matches.get_str(name_of(Choice::Fair)),
        shuffle: matches.get_str(name_of(Choice::Shuffle)),
        steps: matches.get_str(name_of(Choice::Steps)),
        record: matches.get_str(name_of(Choice::Record)),
    };
    let positions = matches.get_strs(POSITIONS).unwrap_or(&[]);
    let positions = Vec::from_slice(alloc, positions).map_err(|_| WordsFault::Memory)?;
    Ok(Line { options, positions })
}

//! The commands by their verbs.

ghost use Rattle.std.specs.Prelude.{◌≡◌, ◌≢◌, ◌^◌, ◌<◌, ℕ, List, ◌∷◌, Err, IfOk, IfSome, IfNone, All, codes, map, string_bytes};
ghost use Rattle.std.specs.Option.{option_map};
ghost use Rattle.redn_command.specs.Words.{Assemble, Check, Command as CommandValue, Compile, Disasm, Gen, Go, HasSmallChain, IsCommand, IsMessageWord, Means, MessageWord as MessageValue, Run, RunWords, command_view, message_text, message_view, verb_of};
ghost use Rattle.redn_command.specs.Lines.{line_view};

use crate::command::{Command, MessageWord, WordsFault};
use crate::line::{Line, cut};
use crate::plan::{gives_none, owned, plan_of};
use redn_text::read_small;
use std::alloc::Global;

/// A message word.
fn message_word(alloc: Global, word: &str) -> Result<MessageWord, WordsFault>
    ensures found { IfOk result (λ m. IsMessageWord word.now (message_view m)) }
    ensures refused { result ≡ Err WordsFault.Refused → (m : MessageValue) → ¬ IsMessageWord word.now m }
{
    let Some((chain, hex)) = word.split_once('=') else {
        return Err(WordsFault::Refused);
    };
    let Some(chain) = read_small(chain.as_bytes()) else {
        return Err(WordsFault::Refused);
    };
    let hex = owned(alloc, hex)?;
    Ok(MessageWord { chain, hex })
}

fn message_words(alloc: Global, words: &[&str]) -> Result<Vec<MessageWord>, WordsFault>
    ensures words { IfOk result (λ v. map (λ s. s.now) words.now ≡ map message_text (map message_view v.items)) }
    ensures small { IfOk result (λ v. All HasSmallChain (map message_view v.items)) }
    ensures refused { result ≡ Err WordsFault.Refused → (messages : _) → All HasSmallChain messages
        → map (λ s. s.now) words.now ≢ map message_text messages }
{
    let mut messages = Vec::new(alloc);
    for word in words {
        let message = message_word(alloc, word)?;
        messages.push(message).map_err(|_| WordsFault::Memory)?;
    }
    Ok(messages)
}

/// A text of one's own, if there is one.
fn owned_option(alloc: Global, text: Option<&str>) -> Result<Option<String>, WordsFault>
    ensures text { IfOk result (λ o. option_map string_bytes o ≡ option_map (λ s. s.now) text.entry) }
    ensures refused { result ≢ Err WordsFault.Refused }
{
    match text {
        None => Ok(None),
        Some(text) => Ok(Some(owned(alloc, text)?)),
    }
}

/// `check FILE`.
fn check_of(alloc: Global, line: &Line<'_>) -> Result<Command, WordsFault>
    ensures verb { IfOk result (λ c. verb_of (command_view c) ≡ codes "check") }
    ensures means { IfOk result (λ c. Means (line_view line.now) (command_view c)) }
    ensures refused { result ≡ Err WordsFault.Refused → (file : List ℕ) → ¬ Means (line_view line.now) (Check file) }
{
    match line.positions.as_slice() {
        [file] if gives_none(line) => Ok(Command::Check {
            file: owned(alloc, file)?,
        }),
        _ => Err(WordsFault::Refused),
    }
}

/// `compile FILE IMAGE`.
fn compile_of(alloc: Global, line: &Line<'_>) -> Result<Command, WordsFault>
    ensures verb { IfOk result (λ c. verb_of (command_view c) ≡ codes "compile") }
    ensures means { IfOk result (λ c. Means (line_view line.now) (command_view c)) }
    ensures refused { result ≡ Err WordsFault.Refused → (file image : List ℕ) → ¬ Means (line_view line.now) (Compile file image) }
{
    match line.positions.as_slice() {
        [file, image] if gives_none(line) => Ok(Command::Compile {
            file: owned(alloc, file)?,
            image: owned(alloc, image)?,
        }),
        _ => Err(WordsFault::Refused),
    }
}

/// `disasm IMAGE`.
fn disasm_of(alloc: Global, line: &Line<'_>) -> Result<Command, WordsFault>
    ensures verb { IfOk result (λ c. verb_of (command_view c) ≡ codes "disasm") }
    ensures means { IfOk result (λ c. Means (line_view line.now) (command_view c)) }
    ensures refused { result ≡ Err WordsFault.Refused → (image : List ℕ) → ¬ Means (line_view line.now) (Disasm image) }
{
    match line.positions.as_slice() {
        [image] if gives_none(line) => Ok(Command::Disasm {
            image: owned(alloc, image)?,
        }),
        _ => Err(WordsFault::Refused),
    }
}

/// `assemble LISTING IMAGE`.
fn assemble_of(alloc: Global, line: &Line<'_>) -> Result<Command, WordsFault>
    ensures verb { IfOk result (λ c. verb_of (command_view c) ≡ codes "assemble") }
    ensures means { IfOk result (λ c. Means (line_view line.now) (command_view c)) }
    ensures refused { result ≡ Err WordsFault.Refused → (listing image : List ℕ) → ¬ Means (line_view line.now) (Assemble listing image) }
{
    match line.positions.as_slice() {
        [listing, image] if gives_none(line) => Ok(Command::Assemble {
            listing: owned(alloc, listing)?,
            image: owned(alloc, image)?,
        }),
        _ => Err(WordsFault::Refused),
    }
}

/// `gen NUMBER IMAGE`.
fn gen_of(alloc: Global, line: &Line<'_>) -> Result<Command, WordsFault>
    ensures verb { IfOk result (λ c. verb_of (command_view c) ≡ codes "gen") }
    ensures means { IfOk result (λ c. Means (line_view line.now) (command_view c)) }
    ensures refused { result ≡ Err WordsFault.Refused → (number : ℕ) (image : List ℕ) → ¬ Means (line_view line.now) (Gen number image) }
{
    match line.positions.as_slice() {
        [number, image] if gives_none(line) => match read_small(number.as_bytes()) {
            Some(number) => Ok(Command::Gen {
                number,
                image: owned(alloc, image)?,
            }),
            None => Err(WordsFault::Refused),
        },
        _ => Err(WordsFault::Refused),
    }
}

/// `run IMAGE`, a plan and messages.
fn run_of(alloc: Global, line: &Line<'_>) -> Result<Command, WordsFault>
    ensures verb { IfOk result (λ c. verb_of (command_view c) ≡ codes "run") }
    ensures means { IfOk result (λ c. Means (line_view line.now) (command_view c)) }
    ensures refused { result ≡ Err WordsFault.Refused → (image : List ℕ) (r : RunWords) → ¬ Means (line_view line.now) (Run image r) }
{
    let Some((image, words)) = line.positions.as_slice().split_first() else {
        return Err(WordsFault::Refused);
    };
    let plan = plan_of(alloc, line)?;
    let messages = message_words(alloc, words)?;
    let keep = owned_option(alloc, line.options.record)?;
    let image = owned(alloc, image)?;
    Ok(Command::Run {
        image,
        plan,
        keep,
        messages,
    })
}

/// `go FILE IMAGE`, a plan and messages.
fn go_of(alloc: Global, line: &Line<'_>) -> Result<Command, WordsFault>
    ensures verb { IfOk result (λ c. verb_of (command_view c) ≡ codes "go") }
    ensures means { IfOk result (λ c. Means (line_view line.now) (command_view c)) }
    ensures refused { result ≡ Err WordsFault.Refused → (file image : List ℕ) (r : RunWords) → ¬ Means (line_view line.now) (Go file image r) }
{
    let [file, image, words @ ..] = line.positions.as_slice() else {
        return Err(WordsFault::Refused);
    };
    let plan = plan_of(alloc, line)?;
    let messages = message_words(alloc, words)?;
    let keep = owned_option(alloc, line.options.record)?;
    let file = owned(alloc, file)?;
    let image = owned(alloc, image)?;
    Ok(Command::Go {
        file,
        image,
        plan,
        keep,
        messages,
    })
}

/// The command of a verb that a line means, if it means one.
fn by_verb(alloc: Global, verb: &str, line: &Line<'_>) -> Result<Command, WordsFault>
    ensures verb { IfOk result (λ c. verb_of (command_view c) ≡ verb.now) }
    ensures means { IfOk result (λ c. Means (line_view line.now) (command_view c)) }
    ensures refused { result ≡ Err WordsFault.Refused → (c : CommandValue) → verb_of c ≡ verb.now
        → ¬ Means (line_view line.now) c }
{
    match verb {
        "check" => check_of(alloc, line),
        "compile" => compile_of(alloc, line),
        "run" => run_of(alloc, line),
        "go" => go_of(alloc, line),
        "disasm" => disasm_of(alloc, line),
        "assemble" => assemble_of(alloc, line),
        "gen" => gen_of(alloc, line),
        _ => Err(WordsFault::Refused),
    }
}

/// The command that words mean, if they mean one.
pub fn command_of(alloc: Global, words: &Vec<String>) -> Result<Command, WordsFault>
    ensures command { IfOk result (λ c. IsCommand (map string_bytes words.now.items) (command_view c)) }
    ensures only { IfOk result (λ c. (d : CommandValue) → IsCommand (map string_bytes words.now.items) d
        → d ≡ command_view c) }
    ensures refused { result ≡ Err WordsFault.Refused → (c : CommandValue)
        → ¬ IsCommand (map string_bytes words.now.items) c }
{
    let Some((verb, rest)) = words.as_slice().split_first() else {
        return Err(WordsFault::Refused);
    };
    let line = cut(alloc, rest)?;
    by_verb(alloc, verb.as_str(), &line)
}

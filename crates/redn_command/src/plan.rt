//! What makes the actions of a run, by the options.

ghost use Rattle.std.specs.Prelude.{◌≡◌, ◌≢◌, ◌≤◌, ℕ, Err, IfOk, IfSome, IfNone, IsTrue, decimal, string_bytes};
ghost use Rattle.std.specs.Option.{option_map};
ghost use Rattle.redn_command.specs.Words.{GivesNone, GivesPlan, Plan as PlanValue, most_steps, plan_view};
ghost use Rattle.redn_command.specs.Lines.{keep_view, line_view};

use crate::command::{Plan, WordsFault};
use crate::limits::{MAX_RECORDED, MAX_STEPS};
use crate::line::{Line, Options};
use redn_text::read_number;
use std::alloc::Global;

/// A text of one's own.
pub fn owned(alloc: Global, text: &str) -> Result<String, WordsFault>
    ensures text { IfOk result (λ s. string_bytes s ≡ text.now) }
    ensures refused { result ≢ Err WordsFault.Refused }
{
    String::from_str(alloc, text).map_err(|_| WordsFault::Memory)
}

/// Whether no option is given.
pub fn gives_none(line: &Line<'_>) -> bool
    ensures yes { IsTrue result → GivesNone (line_view line.now) }
    ensures no { GivesNone (line_view line.now) → IsTrue result }
{
    line.options.schedule.is_none()
        && line.options.fair.is_none()
        && line.options.shuffle.is_none()
        && line.options.steps.is_none()
        && line.options.record.is_none()
}

/// The number of steps that a word gives, or none where it gives none that may be asked for.
#[tactic(auto, using(std::proofs::lemmas::Fmt::decimal_injective))]
fn steps_of(word: &str, most: u64) -> Option<u64>
    ensures found { IfSome result (λ n. word.now ≡ decimal n) }
    ensures few { IfSome result (λ n. n ≤ most) }
    ensures none { IfNone result ((n : ℕ) → n ≤ most → word.now ≢ decimal n) }
{
    match read_number(word.as_bytes()) {
        Some(steps) if steps <= most => Some(steps),
        _ => None,
    }
}

/// How many steps may be made, by whether they are recorded.
fn most_steps(keep: Option<&str>) -> u64
    ensures { result ≡ most_steps (option_map (λ s. s.now) keep.entry) }
{
    match keep {
        None => MAX_STEPS,
        Some(_) => MAX_RECORDED,
    }
}

/// The plan that the options give.
pub fn plan_of(alloc: Global, line: &Line<'_>) -> Result<Plan, WordsFault>
    ensures plan { IfOk result (λ p. GivesPlan (line_view line.now) (plan_view p) (keep_view line.now)) }
    ensures refused { result ≡ Err WordsFault.Refused → (p : PlanValue) (keep : _)
        → ¬ GivesPlan (line_view line.now) p keep }
{
    let Options {
        schedule,
        fair,
        shuffle,
        steps,
        record: keep,
    } = line.options;
    let most = most_steps(keep);
    if let Some(file) = schedule {
        if fair.is_some() || shuffle.is_some() || steps.is_some() || keep.is_some() {
            return Err(WordsFault::Refused);
        }
        let file = owned(alloc, file)?;
        return Ok(Plan::Schedule { file });
    }
    match (fair, shuffle, steps) {
        (Some(steps), None, None) => match steps_of(steps, most) {
            Some(steps) => Ok(Plan::Fair { steps }),
            None => Err(WordsFault::Refused),
        },
        (None, Some(number), Some(steps)) => {
            match (read_number(number.as_bytes()), steps_of(steps, most)) {
                (Some(number), Some(steps)) => Ok(Plan::Shuffle { number, steps }),
                _ => Err(WordsFault::Refused),
            }
        }
        _ => Err(WordsFault::Refused),
    }
}

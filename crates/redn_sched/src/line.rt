ghost use Rattle.std.specs.Prelude.{◌≡◌, ◌≢◌, ◌^◌, ◌<◌, ◌≤◌, ℕ, List, decimal, length, IfSome, IfNone};
ghost use Rattle.std.specs.List.{prefix_len};
ghost use Rattle.redn_sched.specs.ScheduleText.{pair_text, IsSkipped, IsAction, IsBad};
ghost use Rattle.redn_sched.specs.Lines.{OnSkipped, IfAction, OnBad};

use redn_text::{read_number, read_small, split_field};
use redn_words::Action;

/// What a line of a schedule means.
#[derive(Clone, Copy, Debug, PartialEq, Eq)]
pub enum Line {
    /// It is empty or a remark.
    Skipped,
    Action(Action),
    Bad,
}

/// The number of a queue, a space and an index.
fn read_pair(text: &[u8]) -> Option<(u32, u64)>
    ensures value { IfSome result (λ p. text.now ≡ pair_text p.0 p.1) }
    ensures none { IfNone result
        ((q i : ℕ) → q < 2 ^ 32 → i < 2 ^ 64 → text.now ≢ pair_text q i) }
{
    let Some((queue, index)) = split_field(text, b' ') else {
        return None;
    };
    let Some(queue) = read_small(queue) else {
        return None;
    };
    let Some(index) = read_number(index) else {
        return None;
    };
    Some((queue, index))
}

/// What a line means.
#[tactic(auto, unfolding(crate::specs::ScheduleText::action_text))]
pub fn read_line(line: &[u8]) -> Line
    ensures skipped { OnSkipped result (IsSkipped line.now) }
    ensures action { IfAction result (IsAction line.now) }
    ensures bad { OnBad result (IsBad line.now) }
{
    match line {
        [] | [b'#', ..] => Line::Skipped,
        [b'd', b' ', rest @ ..] => match read_small(rest) {
            Some(chain) => Line::Action(Action::Deliver { chain }),
            None => Line::Bad,
        },
        [b'f', b' ', rest @ ..] => match read_pair(rest) {
            Some((queue, index)) => Line::Action(Action::Fetch { queue, index }),
            None => Line::Bad,
        },
        [b's', b' ', rest @ ..] => match read_small(rest) {
            Some(queue) => Line::Action(Action::Start { queue }),
            None => Line::Bad,
        },
        [b'l', b' ', rest @ ..] => match read_pair(rest) {
            Some((queue, index)) => Line::Action(Action::Land { queue, index }),
            None => Line::Bad,
        },
        [b'c', b' ', rest @ ..] => match read_small(rest) {
            Some(queue) => Line::Action(Action::Complete { queue }),
            None => Line::Bad,
        },
        _ => Line::Bad,
    }
}

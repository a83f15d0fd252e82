ghost use Rattle.std.specs.Prelude.{◌≡◌, ◌≤◌, ◌+◌, ◌++◌, None, length, take, codes, decimal, IfOk};
ghost use Rattle.redn_sched.specs.ScheduleText.{action_text, Fits, lines_of, Reads, numbered, recorded};

use redn_text::{put_number, put_text};
use redn_words::{Action, Memory};
use std::alloc::Global;

/// Puts a line of a letter and a number.
fn put_one(buf: &mut [u8; 64], letter: &[u8], number: u64) -> usize
    requires { length letter.now ≤ 2 }
    ensures fits { result ≤ 64 }
    ensures line { take result buf.new ≡ letter.now ++ decimal number ++ codes "\n" }
{
    let at = put_text(&mut buf[..], 0, letter);
    let at = put_number(&mut buf[..], at, number);
    put_text(&mut buf[..], at, b"\n")
}

/// Puts a line of a letter and two numbers.
fn put_two(buf: &mut [u8; 64], letter: &[u8], queue: u32, index: u64) -> usize
    requires { length letter.now ≤ 2 }
    ensures fits { result ≤ 64 }
    ensures line { take result buf.new ≡ letter.now ++ decimal queue ++ codes " " ++ decimal index ++ codes "\n" }
{
    let at = put_text(&mut buf[..], 0, letter);
    let at = put_number(&mut buf[..], at, u64::from(queue));
    let at = put_text(&mut buf[..], at, b" ");
    let at = put_number(&mut buf[..], at, index);
    put_text(&mut buf[..], at, b"\n")
}

/// Writes an action's line of a schedule to the front of the buffer, newline included, and answers
/// its length. What stands behind it is open.
#[tactic(auto, unfolding(crate::specs::ScheduleText::action_text))]
pub fn action_line(a: &Action, buf: &mut [u8; 64]) -> usize
    ensures within { result ≤ 64 }
    ensures line { take result buf.new ≡ action_text a.now ++ codes "\n" }
    // The line is read back, since the action's numbers fit their types.
    ensures fits { Fits a.now }
{
    match *a {
        Action::Deliver { chain } => put_one(buf, b"d ", u64::from(chain)),
        Action::Fetch { queue, index } => put_two(buf, b"f ", queue, index),
        Action::Start { queue } => put_one(buf, b"s ", u64::from(queue)),
        Action::Land { queue, index } => put_two(buf, b"l ", queue, index),
        Action::Complete { queue } => put_one(buf, b"c ", u64::from(queue)),
    }
}

/// The text of a schedule with these actions, each on a line of its own.
pub fn schedule_text(alloc: Global, actions: &[Action]) -> Result<Vec<u8>, Memory>
    ensures text { IfOk result (λ v. v.items ≡ recorded actions.now) }
    // Read as a schedule it has these actions again, by the numbers of their lines.
    ensures reads { IfOk result (λ v. Reads 1 (lines_of v.items) (numbered 1 actions.now) None) }
{
    let mut text = Vec::new(alloc);
    let mut buf = [0; 64];
    for a in actions {
        let len = action_line(a, &mut buf);
        text.extend_from_slice(&buf[..len])?;
    }
    Ok(text)
}

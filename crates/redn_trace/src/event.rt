ghost use Rattle.std.specs.Prelude.{◌≡◌, ◌<◌, ◌≤◌, ◌+◌, ◌++◌, ◌∷◌, ◌↔◌, length, take, codes};
ghost use Rattle.redn_words.specs.declared.types.Obs.TheVariants as shows;
ghost use Rattle.redn_trace.specs.EventText.{event_text, line as line_of, field, IsPrintable, IsOfTable};

use redn_text::{put_number, put_text};
use redn_words::Obs;

/// Puts a number behind a space.
fn put_field(buf: &mut [u8; 256], at: usize, n: u64) -> usize
    requires { at + 21 ≤ 256 }
    ensures end { result ≤ at + 21 }
    ensures front { take result buf.new ≡ take at buf.old ++ field n }
{
    let at = put_text(&mut buf[..], at, b" ");
    put_number(&mut buf[..], at, n)
}

/// Writes a line of a word and numbers to the front of the buffer, and answers its length.
fn line(buf: &mut [u8; 256], word: &[u8], numbers: &[u64]) -> usize
    requires short { length word.now ≤ 9 }
    requires few { length numbers.now ≤ 9 }
    ensures fits { result ≤ 256 }
    ensures front { take result buf.new ≡ line_of word.now numbers.now }
{
    let mut at = put_text(&mut buf[..], 0, word);
    for n in numbers {
        at = put_field(buf, at, *n);
    }
    put_text(&mut buf[..], at, b"\n")
}

/// Writes the line of a reply of the first words.
fn reply_line(buf: &mut [u8; 256], chain: u64, count: usize, words: &[u64; 8]) -> usize
    requires { count ≤ 8 }
    ensures fits { result ≤ 256 }
    ensures front { take result buf.new ≡ line_of (codes "reply") (chain ∷ take count words.now) }
{
    let mut numbers = [chain; 9];
    numbers[1..].copy_from_slice(words);
    line(buf, b"reply", &numbers[..1 + count])
}

/// Writes the line of an event in a table.
#[tactic(auto, unfolding(crate::specs::EventText::event_text))]
fn table_line(o: &Obs, buf: &mut [u8; 256]) -> usize
    requires { IsOfTable o.now }
    ensures fits { result ≤ 256 }
    ensures some { 0 < result }
    ensures front { take result buf.new ≡ event_text o.now }
{
    match *o {
        Obs::Load {
            chain,
            var,
            table,
            offset,
            word,
        } => {
            let (chain, var, table) = (u64::from(chain), u64::from(var), u64::from(table));
            line(buf, b"load", &[chain, var, table, offset, word])
        }
        Obs::Look {
            chain,
            table,
            offset,
            word,
        } => {
            let (chain, table) = (u64::from(chain), u64::from(table));
            line(buf, b"look", &[chain, table, offset, word])
        }
        Obs::Store {
            chain,
            table,
            offset,
            word,
        } => {
            let (chain, table) = (u64::from(chain), u64::from(table));
            line(buf, b"store", &[chain, table, offset, word])
        }
        Obs::Fault {
            chain,
            table,
            offset,
        } => line(buf, b"fault", &[u64::from(chain), u64::from(table), offset]),
        _ => unreachable!(),
    }
}

/// Writes an event's line to the front of the buffer, newline included, and answers its length: 0
/// for `Nothing`. What stands behind it is open.
#[tactic(auto, unfolding(crate::specs::EventText::event_text))]
pub fn event_line(o: &Obs, buf: &mut [u8; 256]) -> usize
    requires { IsPrintable o.now }
    ensures fits { result ≤ 256 }
    ensures front { take result buf.new ≡ event_text o.now }
    ensures nothing { (result ≡ 0) ↔ (o.now ≡ shows.Nothing) }
{
    match *o {
        Obs::Nothing => 0,
        Obs::Set { chain, var, word } => {
            line(buf, b"set", &[u64::from(chain), u64::from(var), word])
        }
        Obs::Load { .. } | Obs::Look { .. } | Obs::Store { .. } | Obs::Fault { .. } => {
            table_line(o, buf)
        }
        Obs::Reply {
            chain,
            count,
            words,
        } => reply_line(buf, u64::from(chain), count as usize, &words),
        Obs::Stale { queue, index } => line(buf, b"stale", &[u64::from(queue), index]),
        Obs::Undefined { queue, index } => line(buf, b"undefined", &[u64::from(queue), index]),
        Obs::Refused { queue, index } => line(buf, b"refused", &[u64::from(queue), index]),
        Obs::Odd { queue, index } => line(buf, b"odd", &[u64::from(queue), index]),
    }
}

//! Schedules that are read in pieces.

ghost use Rattle.std.specs.Prelude.{◌<◌, ◌≤◌, length};

use redn_sched::{Got, ScheduleReader};
use redn_words::{Action, Memory};
use std::alloc::Global;
use std::test::Fail;

/// Nine lines, of which the last one lacks its newline.
const TEXT: &[u8] = b"d 0\n# a remark that is longer than any action's line could be\nf 0 12\n\n\
    s 4294967295\nl 0 18446744073709551615\nc 0\n#\nd 15";

const READ: [Got; 6] = [
    Got::Action {
        line: 1,
        action: Action::Deliver { chain: 0 },
    },
    Got::Action {
        line: 3,
        action: Action::Fetch {
            queue: 0,
            index: 12,
        },
    },
    Got::Action {
        line: 5,
        action: Action::Start { queue: u32::MAX },
    },
    Got::Action {
        line: 6,
        action: Action::Land {
            queue: 0,
            index: u64::MAX,
        },
    },
    Got::Action {
        line: 7,
        action: Action::Complete { queue: 0 },
    },
    Got::Action {
        line: 9,
        action: Action::Deliver { chain: 15 },
    },
];

/// A text whose third line is bad.
const BAD: &[u8] = b"f 7 1\n\ns 01\ns 1\n";

/// The bad line is told again, and the rest isn't read.
const READ_TO_BAD: [Got; 4] = [
    Got::Action {
        line: 1,
        action: Action::Fetch { queue: 7, index: 1 },
    },
    Got::Bad { line: 3 },
    Got::Bad { line: 3 },
    Got::Bad { line: 3 },
];

/// What a reader tells of a text that comes in pieces of so many bytes at most.
fn told(alloc: Global, text: &[u8], size: usize) -> Result<Vec<Got>, Memory>
    requires size { 0 < size }
    requires short { length text.now ≤ 10000 }
{
    let mut reader = ScheduleReader::new();
    let mut got = Vec::new(alloc);
    let mut rest = text;
    while !rest.is_empty() {
        let fed = reader.feed(&rest[..size.min(rest.len())]);
        if fed.got != Got::More {
            got.push(fed.got)?;
        }
        if fed.taken == 0 {
            break;
        }
        rest = &rest[fed.taken..];
    }
    let last = reader.finish();
    if last != Got::More {
        got.push(last)?;
    }
    Ok(got)
}

#[test]
fn pieces_are_read_as_the_whole_text(rt: HostRuntime) -> Result<(), Fail> {
    for size in 1..TEXT.len() + 1 {
        let got = told(rt.alloc(), TEXT, size)?;
        assert_eq!(rt; got.as_slice(), READ.as_slice(), "{size}");
    }
    for size in 1..BAD.len() + 1 {
        let got = told(rt.alloc(), BAD, size)?;
        assert_eq!(rt; got.as_slice(), READ_TO_BAD.as_slice(), "{size}");
    }
    Ok(())
}

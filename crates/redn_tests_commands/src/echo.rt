//! A chain that replies its argument.

use crate::case::{Case, NOTHING, each_does};
use redn_top::Status;
use std::test::Fail;

pub const ECHO: &[u8] = b"chain echo { arg k; reply k; }";

/// The argument is 42.
pub const MESSAGE: &str = "0=000000000000002a";

/// There is one block. Its ring, of queue 1, has 10 slots: the argument is taken in the first four, the
/// reply's word is put in the next five, and the last one sends. The two slots of queue 0 wait for the
/// message and open the first four.
pub const IN_ORDER: &[u8] = b"d 0\nf 0 0\ns 0\nf 0 1\ns 0\n\
    f 1 0\ns 1\nl 1 0\nc 1\nf 1 1\ns 1\nl 1 1\nc 1\nf 1 2\ns 1\nf 1 3\ns 1\n\
    f 1 4\ns 1\nl 1 4\nc 1\nf 1 5\ns 1\nl 1 5\nc 1\nf 1 6\ns 1\nl 1 6\nc 1\nf 1 7\ns 1\nf 1 8\ns 1\n\
    f 1 9\ns 1\nl 1 9\n";

/// All that may be fetched is fetched at once, the last first, and requests land backwards.
const PREFETCHED: &[u8] = b"f 0 1\nf 0 0\nd 0\ns 0\ns 0\n\
    f 1 3\nf 1 2\nf 1 1\nf 1 0\ns 1\ns 1\nl 1 1\nl 1 0\nc 1\nc 1\ns 1\ns 1\n\
    f 1 8\nf 1 7\nf 1 6\nf 1 5\nf 1 4\ns 1\ns 1\ns 1\nl 1 6\nl 1 5\nl 1 4\nc 1\nc 1\nc 1\ns 1\ns 1\n\
    f 1 9\ns 1\nl 1 9\n";

pub const FILES: &[(&str, &[u8])] = &[("e.redn", ECHO), ("s.txt", IN_ORDER)];

/// The bytes of the image: 32 of the header, 32 for each of 4 regions and 2 queues, 16 for the
/// message place, 64 for each of 12 slots, and 152 of words: 104, then 16 for the ring, and 8 for each of
/// two hidden words, a variable and an argument.
pub const IMAGE_BYTES: usize = 1160;

pub const SCHEDULED: &[&str] = &["go", "e.redn", "e.img", "--schedule", "s.txt"];

pub const FAIR: &[&str] = &["go", "e.redn", "e.img", "--fair", "1000"];

/// `go` by the schedule.
pub const BY_SCHEDULE: Case<'static> = Case {
    files: FILES,
    words: SCHEDULED,
    messages: &[MESSAGE],
    printed: b"set 0 0 42\nreply 0 42\nend schedule\n",
    written: Some(IMAGE_BYTES),
    ..NOTHING
};

/// `go` by the fair rules.
pub const BY_RULES: Case<'static> = Case {
    files: FILES,
    words: FAIR,
    messages: &[MESSAGE],
    printed: b"set 0 0 42\nreply 0 42\nend quiet\n",
    written: Some(IMAGE_BYTES),
    ..NOTHING
};

const RUNS: &[Case] = &[
    BY_SCHEDULE,
    Case {
        files: &[("e.redn", ECHO), ("s.txt", PREFETCHED)],
        ..BY_SCHEDULE
    },
    BY_RULES,
    // The number of steps and the message stand anywhere behind the verb.
    Case {
        words: &["go", "--fair", "1000", "e.redn", "e.img"],
        ..BY_RULES
    },
    Case {
        words: &["go", "e.redn", "--fair", "1000", "e.img"],
        ..BY_RULES
    },
    Case {
        words: &["go", "e.redn", "e.img", MESSAGE, "--fair", "1000"],
        messages: &[],
        ..BY_RULES
    },
    // Without a message there is nothing to print.
    Case {
        messages: &[],
        printed: b"end quiet\n",
        ..BY_RULES
    },
    Case {
        words: &["go", "e.redn", "e.img", "--fair", "4000000"],
        messages: &[],
        printed: b"end quiet\n",
        ..BY_RULES
    },
    // The run is cut.
    Case {
        words: &["go", "e.redn", "e.img", "--fair", "0"],
        printed: b"end steps\n",
        ..BY_RULES
    },
    Case {
        words: &["go", "e.redn", "e.img", "--fair", "1"],
        printed: b"end steps\n",
        ..BY_RULES
    },
    // What `compile` writes is run. Digits of a message may be capital letters.
    Case {
        words: &["compile", "e.redn", "e.img"],
        messages: &[],
        printed: b"",
        ..BY_RULES
    },
    Case {
        before: &[&["compile", "e.redn", "e.img"]],
        words: &["run", "e.img", "--schedule", "s.txt"],
        messages: &["0=000000000000002A"],
        ..BY_SCHEDULE
    },
    // An action that isn't possible ends the run at its line, and so does a line that is bad. The image
    // is written before a line is read.
    Case {
        files: &[("e.redn", ECHO), ("s.txt", b"d 0\ns 0\n")],
        status: Status::Step { line: 2 },
        printed: b"",
        ..BY_SCHEDULE
    },
    Case {
        files: &[
            ("e.redn", ECHO),
            (
                "s.txt",
                b"# the message comes twice\nd 0\n\nf 0 0\ns 0\nf 0 1\ns 0\nf 1 0\ns 1\nl 1 0\nd 0",
            ),
        ],
        status: Status::Step { line: 11 },
        printed: b"set 0 0 42\n",
        ..BY_SCHEDULE
    },
    Case {
        files: &[("e.redn", ECHO), ("s.txt", b"d 0\nx\n")],
        status: Status::Schedule { line: 2 },
        printed: b"",
        ..BY_SCHEDULE
    },
];

#[test]
fn echo_replies_its_argument(rt: HostRuntime) -> Result<(), Fail> {
    each_does(&rt, rt.alloc(), RUNS)
}

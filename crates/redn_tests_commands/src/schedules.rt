//! Schedules: those of the fair rules and of draws, which are recorded, and lines that end a run. The
//! fair ones were worked out by hand, and the drawn ones from the rules by another program.

use crate::case::{Case, NOTHING, each_does, obey, store_of};
use crate::echo::{BY_RULES, BY_SCHEDULE, FILES, IMAGE_BYTES, MESSAGE};
use redn_top::Status;
use std::alloc::Global;
use std::process::Abort;
use std::test::Fail;

/// An image of a listing, which is run by the fair rules.
const BY_FAIR_RULES: Case<'static> = Case {
    before: &[&["assemble", "e.lst", "e.img"]],
    words: &["run", "e.img", "--fair", "100", "--record", "r.txt"],
    printed: b"end quiet\n",
    ..NOTHING
};

/// The bytes of an image with one queue, two receive places and 272 bytes of memory, and what each
/// other queue takes.
const ONE_QUEUE: usize = 32 + 32 + 2 * 16 + 272;

const QUEUE: usize = 32;

const FAIR: &[Case] = &[
    // Chains come in turn.
    Case {
        files: &[(
            "e.lst",
            b"redn 1\nmemory 272\nqueue 0 0 managed 0 1 1\nqueue 1 1 managed 64 1 1\nreceive 0 256 0\n\
            receive 1 264 0\nslot 0 0 noop 0 0 0 0 0 0 0 0 0\nslot 1 0 noop 0 0 0 0 0 0 0 0 0\nend\n",
        )],
        written: Some(ONE_QUEUE + QUEUE),
        record: Some(b"f 0 0\nf 1 0\ns 0\ns 1\nl 0 0\nl 1 0\nc 0\nc 1\n"),
        ..BY_FAIR_RULES
    },
    // A chain without queues takes its message.
    Case {
        files: &[(
            "e.lst",
            b"redn 1\nmemory 272\nqueue 0 1 managed 0 1 1\nreceive 0 256 8\nreceive 1 264 0\n\
            slot 0 0 noop 0 0 0 0 0 0 0 0 0\nend\n",
        )],
        messages: &["0=0000000000000000"],
        written: Some(ONE_QUEUE),
        record: Some(b"d 0\nf 0 0\ns 0\nl 0 0\nc 0\n"),
        ..BY_FAIR_RULES
    },
    // A stopped queue is passed over.
    Case {
        files: &[(
            "e.lst",
            b"redn 1\nmemory 272\nqueue 0 0 managed 0 1 1\nqueue 1 0 managed 64 1 1\nreceive 0 256 0\n\
            receive 1 264 0\nslot 0 0 ?9 0 0 0 0 0 0 0 0 0\nslot 1 0 noop 0 0 0 0 0 0 0 0 0\nend\n",
        )],
        printed: b"undefined 0 0\nend quiet\n",
        written: Some(ONE_QUEUE + QUEUE),
        record: Some(b"f 0 0\ns 0\nf 1 0\ns 1\nl 1 0\nc 1\n"),
        ..BY_FAIR_RULES
    },
    // The WAIT of chain 1 starts after its message, which comes when the chain is first taken.
    Case {
        files: &[(
            "e.lst",
            b"redn 1\nmemory 272\nqueue 0 0 managed 0 1 1\nqueue 1 1 managed 64 1 1\nreceive 0 256 0\n\
            receive 1 264 8\nslot 0 0 noop 0 0 0 0 0 0 0 0 0\nslot 1 0 wait 0 0 0 0 0 0 65537 1 0\n\
            end\n",
        )],
        messages: &["1=0000000000000000"],
        written: Some(ONE_QUEUE + QUEUE),
        record: Some(b"f 0 0\nd 1\ns 0\nf 1 0\nl 0 0\ns 1\nc 0\n"),
        ..BY_FAIR_RULES
    },
    // Chain 0 has the queues 0 and 2, and chain 1 has queue 1. A queue is kept until it has nothing to do.
    Case {
        files: &[(
            "e.lst",
            b"redn 1\nmemory 272\nqueue 0 0 managed 0 1 1\nqueue 1 1 managed 64 1 1\n\
            queue 2 0 managed 128 2 2\nreceive 0 256 0\nreceive 1 264 0\n\
            slot 0 0 noop 0 0 0 0 0 0 0 0 0\nslot 1 0 noop 0 0 0 0 0 0 0 0 0\n\
            slot 2 0 noop 0 0 0 0 0 0 0 0 0\nslot 2 1 noop 0 0 0 0 0 0 0 0 0\nend\n",
        )],
        written: Some(ONE_QUEUE + 2 * QUEUE),
        record: Some(
            b"f 0 0\nf 1 0\ns 0\ns 1\nl 0 0\nl 1 0\nc 0\nc 1\n\
            f 2 0\ns 2\nl 2 0\nc 2\nf 2 1\ns 2\nl 2 1\nc 2\n",
        ),
        ..BY_FAIR_RULES
    },
    // The first request of queue 1 opens queue 0, which follows when queue 1 has nothing to do.
    Case {
        files: &[(
            "e.lst",
            b"redn 1\nmemory 272\nqueue 0 0 managed 0 1 0\nqueue 1 0 managed 64 2 2\nreceive 0 256 0\n\
            receive 1 264 0\nslot 0 0 noop 0 0 0 0 0 0 0 0 0\nslot 1 0 enable 0 0 0 0 0 0 0 1 0\n\
            slot 1 1 noop 0 0 0 0 0 0 0 0 0\nend\n",
        )],
        written: Some(ONE_QUEUE + QUEUE),
        record: Some(b"f 1 0\ns 1\nf 1 1\ns 1\nl 1 1\nc 1\nf 0 0\ns 0\nl 0 0\nc 0\n"),
        ..BY_FAIR_RULES
    },
    // The schedule is cut at its number.
    Case {
        files: &[(
            "e.lst",
            b"redn 1\nmemory 272\nqueue 0 0 managed 0 1 1\nreceive 0 256 0\nreceive 1 264 0\n\
            slot 0 0 noop 0 0 0 0 0 0 0 0 0\nend\n",
        )],
        words: &["run", "e.img", "--fair", "2", "--record", "r.txt"],
        printed: b"end steps\n",
        written: Some(ONE_QUEUE),
        record: Some(b"f 0 0\ns 0\n"),
        ..BY_FAIR_RULES
    },
];

#[test]
fn the_fair_rules_choose(rt: HostRuntime) -> Result<(), Fail> {
    each_does(&rt, rt.alloc(), FAIR)
}

/// Chain 0 has the queues 0 and 2, chain 1 has queue 1, and each has a message. All rings lie on the
/// same four slots.
const DRAWN: Case<'static> = Case {
    files: &[(
        "e.lst",
        b"redn 1\nmemory 272\nqueue 0 0 managed 0 4 4\nqueue 1 1 managed 0 4 4\n\
            queue 2 0 managed 0 2 2\nreceive 0 256 8\nreceive 1 264 8\n\
            slot 0 0 noop 0 0 0 0 0 0 0 0 0\nslot 0 1 noop 0 0 0 0 0 0 0 0 0\n\
            slot 0 2 noop 0 0 0 0 0 0 0 0 0\nslot 0 3 noop 0 0 0 0 0 0 0 0 0\n\
            slot 1 0 noop 0 0 0 0 0 0 0 0 0\nslot 1 1 noop 0 0 0 0 0 0 0 0 0\n\
            slot 1 2 noop 0 0 0 0 0 0 0 0 0\nslot 1 3 noop 0 0 0 0 0 0 0 0 0\n\
            slot 2 0 noop 0 0 0 0 0 0 0 0 0\nslot 2 1 noop 0 0 0 0 0 0 0 0 0\nend\n",
    )],
    before: &[&["assemble", "e.lst", "e.img"]],
    messages: &["0=0000000000000000", "1=0000000000000000"],
    printed: b"end steps\n",
    written: Some(ONE_QUEUE + 2 * QUEUE),
    ..NOTHING
};

const FORTY_DRAWN: &[Case] = &[
    Case {
        words: &[
            "run",
            "e.img",
            "--shuffle",
            "0",
            "--steps",
            "40",
            "--record",
            "r.txt",
        ],
        record: Some(
            b"d 1\nf 1 0\nf 1 0\nf 0 3\nd 0\nf 1 3\nf 0 2\nf 0 0\nf 1 2\nf 1 1\nf 0 0\ns 1\n\
            l 1 0\ns 1\ns 1\nl 1 1\ns 0\nf 1 3\nf 0 1\ns 0\nf 0 2\nl 1 2\nc 1\ns 1\ns 0\nf 0 3\n\
            l 1 3\nc 1\nl 0 0\nf 0 3\ns 0\nc 1\nc 1\nc 0\nl 0 1\nl 0 2\nl 0 3\nc 0\nc 0\nc 0\n",
        ),
        ..DRAWN
    },
    Case {
        words: &[
            "run",
            "e.img",
            "--shuffle",
            "1",
            "--steps",
            "40",
            "--record",
            "r.txt",
        ],
        record: Some(
            b"d 0\nf 0 0\nf 0 0\nf 0 3\nf 1 0\nf 1 1\ns 0\nf 0 1\nf 0 1\ns 0\nf 1 2\nl 0 0\n\
            d 1\nf 0 2\nf 1 3\ns 1\nl 0 1\nc 0\ns 0\nl 0 2\ns 1\ns 0\ns 1\nl 0 3\ns 1\nc 0\nc 0\n\
            l 1 0\nc 0\nl 1 1\nc 1\nf 2 1\nl 1 3\nc 1\nf 2 0\nf 2 0\nl 1 2\nc 1\nc 1\nf 2 0\n",
        ),
        ..DRAWN
    },
    Case {
        words: &[
            "run",
            "e.img",
            "--shuffle",
            "18446744073709551615",
            "--steps",
            "40",
            "--record",
            "r.txt",
        ],
        record: Some(
            b"f 0 3\nf 1 3\nf 0 2\nf 1 2\nf 0 1\nf 1 1\nd 0\nf 0 0\nd 1\ns 0\nf 1 0\nf 1 0\n\
            f 1 0\nf 1 0\ns 0\ns 0\nf 0 3\nl 0 2\nl 0 0\nf 0 3\nf 0 3\ns 0\nf 1 0\nl 0 3\ns 1\n\
            c 0\nl 0 1\nl 1 0\nc 0\nf 1 1\nf 1 1\nf 1 1\ns 1\nc 0\nc 0\nf 2 1\nf 2 0\ns 2\nf 1 2\n\
            c 1\n",
        ),
        ..DRAWN
    },
    // A record keeps each fetch that is repeated: those of the two slots of the entry of `echo`.
    Case {
        files: FILES,
        before: &[],
        words: &[
            "go",
            "e.redn",
            "e.img",
            "--shuffle",
            "4",
            "--steps",
            "12",
            "--record",
            "r.txt",
        ],
        messages: &[],
        printed: b"end quiet\n",
        written: Some(IMAGE_BYTES),
        record: Some(b"f 0 0\nf 0 0\nf 0 0\nf 0 0\nf 0 1\n"),
        ..NOTHING
    },
];

#[test]
fn actions_are_drawn(rt: HostRuntime) -> Result<(), Fail> {
    each_does(&rt, rt.alloc(), FORTY_DRAWN)
}

/// A record of a run of `echo` is run again.
const AGAIN: Case<'static> = Case {
    words: &["run", "e.img", "--schedule", "a.txt"],
    ..BY_SCHEDULE
};

const RECORDED: &[Case] = &[
    Case {
        before: &[&[
            "go", "e.redn", "e.img", "--fair", "1000", "--record", "a.txt", MESSAGE,
        ]],
        ..AGAIN
    },
    Case {
        words: &[
            "go",
            "e.redn",
            "e.img",
            "--shuffle",
            "1",
            "--steps",
            "100000",
        ],
        ..BY_RULES
    },
    Case {
        before: &[&[
            "go",
            "e.redn",
            "e.img",
            "--shuffle",
            "1",
            "--steps",
            "100000",
            "--record",
            "a.txt",
            MESSAGE,
        ]],
        ..AGAIN
    },
    Case {
        words: &[
            "go",
            "e.redn",
            "e.img",
            "--steps",
            "100000",
            "--shuffle",
            "18446744073709551615",
        ],
        ..BY_RULES
    },
    Case {
        before: &[&[
            "go",
            "e.redn",
            "e.img",
            "--record",
            "a.txt",
            "--steps",
            "100000",
            "--shuffle",
            "18446744073709551615",
            MESSAGE,
        ]],
        ..AGAIN
    },
];

#[test]
fn a_record_is_run_again(rt: HostRuntime) -> Result<(), Fail> {
    each_does(&rt, rt.alloc(), RECORDED)
}

/// The first request replies, the second one is never opened.
const ONE_REPLY: &[u8] = b"redn 1\nmemory 192\nregion 1 0 code 0 4 0 128\n\
    region 2 0 control 0 0 128 64\nqueue 0 0 managed 0 2 1\nreceive 0 0 0\n\
    slot 0 0 send 0 2 0 8 0 8 0 0 1\nslot 0 1 noop 0 2 0 8 0 8 0 0 1\n\
    data 128 0005000000000000\ndata 136 0000000000000007\nend\n";

/// A line and its action, which is bad or isn't possible, end a run where they are reached.
const ENDING: [(&[u8], Status, &[u8]); 5] = [
    (
        b"f 0 0\ns 0\nl 0 0\nf 0 1\n",
        Status::Step { line: 4 },
        b"reply 0 7\n",
    ),
    (b"f 0 0\nx", Status::Schedule { line: 2 }, b""),
    (
        b"f 0 0\ns 0\nl 0 0\n\n# \ns 00\nx",
        Status::Schedule { line: 6 },
        b"reply 0 7\n",
    ),
    (b"x\ns 0\n", Status::Schedule { line: 1 }, b""),
    (b"s 0\nx\n", Status::Step { line: 1 }, b""),
];

fn each_ends_a_run(
    rt: &impl Abort,
    alloc: Global,
    schedules: &[(&[u8], Status, &[u8])],
) -> Result<(), Fail> {
    for (schedule, status, text) in schedules {
        let mut store = store_of(alloc, &[("e.lst", ONE_REPLY), ("s.txt", *schedule)], &[])?;
        obey(alloc, &["assemble", "e.lst", "e.img"], &[], &mut store, &[])?;
        let words = ["run", "e.img", "--schedule", "s.txt"];
        let (told, printed) = obey(alloc, &words, &[], &mut store, &[])?;
        assert_eq!(rt; told, *status);
        assert_eq!(rt; printed.as_slice(), *text);
    }
    Ok(())
}

#[test]
fn a_line_ends_a_run_where_it_is_reached(rt: HostRuntime) -> Result<(), Fail> {
    each_ends_a_run(&rt, rt.alloc(), &ENDING)
}

/// Chain 0 stores its argument into a table and replies it, and chain 1 loads that word and replies it.
const STORE_AND_LOAD: &[u8] = b"redn 1\nmemory 944\nregion 1 0 vars 0 4 896 8\n\
    region 2 0 control 0 4 904 8\nregion 3 0 message 0 0 912 8\nregion 4 0 table 0 6 920 8\n\
    region 5 1 vars 0 1 928 8\nregion 6 1 control 0 4 936 8\nregion 7 1 table 0 2 920 8\n\
    queue 0 0 ordinary 0 8 8\nqueue 1 1 ordinary 512 6 6\nreceive 0 912 8\nreceive 1 0 0\n\
    slot 0 0 wait 0 0 0 0 0 0 65536 1 0\nslot 0 1 write 0 3 1 0 0 8 0 0 1\n\
    slot 0 2 wait 0 0 0 0 0 0 0 1 0\nslot 0 3 write 0 1 4 0 0 8 0 0 1\n\
    slot 0 4 wait 0 0 0 0 0 0 0 2 0\nslot 0 5 write 0 1 2 0 0 8 0 0 1\n\
    slot 0 6 wait 0 0 0 0 0 0 0 3 0\nslot 0 7 send 0 2 0 0 0 8 0 0 1\n\
    slot 1 0 wait 0 0 0 0 0 0 65537 1 0\nslot 1 1 read 0 5 7 0 0 8 0 0 1\n\
    slot 1 2 wait 0 0 0 0 0 0 1 1 0\nslot 1 3 write 0 5 6 0 0 8 0 0 1\n\
    slot 1 4 wait 0 0 0 0 0 0 1 2 0\nslot 1 5 send 0 6 0 0 0 8 0 0 1\nend\n";

/// First what chain 0 does, request by request, and then what chain 1 does.
const STORES_FIRST: &[u8] =
    b"d 0\nf 0 0\ns 0\nf 0 1\ns 0\nl 0 1\nc 0\nf 0 2\ns 0\nf 0 3\ns 0\nl 0 3\nc 0\n\
    f 0 4\ns 0\nf 0 5\ns 0\nl 0 5\nc 0\nf 0 6\ns 0\nf 0 7\ns 0\nl 0 7\n\
    d 1\nf 1 0\ns 1\nf 1 1\ns 1\nl 1 1\nc 1\nf 1 2\ns 1\nf 1 3\ns 1\nl 1 3\nc 1\nf 1 4\ns 1\nf 1 5\ns 1\n\
    l 1 5\n";

const LOADS_FIRST: &[u8] =
    b"d 1\nf 1 0\ns 1\nf 1 1\ns 1\nl 1 1\nc 1\nf 1 2\ns 1\nf 1 3\ns 1\nl 1 3\nc 1\n\
    f 1 4\ns 1\nf 1 5\ns 1\nl 1 5\n\
    d 0\nf 0 0\ns 0\nf 0 1\ns 0\nl 0 1\nc 0\nf 0 2\ns 0\nf 0 3\ns 0\nl 0 3\nc 0\nf 0 4\ns 0\nf 0 5\ns 0\n\
    l 0 5\nc 0\nf 0 6\ns 0\nf 0 7\ns 0\nl 0 7\n";

const STORED_AND_LOADED: Case<'static> = Case {
    before: &[&["assemble", "e.lst", "e.img"]],
    words: &["run", "e.img", "--schedule", "s.txt"],
    messages: &["0=0000000000000007", "1="],
    written: Some(32 + 7 * 32 + 2 * 32 + 2 * 16 + 944),
    ..NOTHING
};

const ORDERS: &[Case] = &[
    Case {
        files: &[("e.lst", STORE_AND_LOAD), ("s.txt", STORES_FIRST)],
        printed: b"set 0 0 7\nstore 0 0 0 7\nreply 0 7\nload 1 0 0 0 7\nreply 1 7\nend schedule\n",
        ..STORED_AND_LOADED
    },
    Case {
        files: &[("e.lst", STORE_AND_LOAD), ("s.txt", LOADS_FIRST)],
        printed: b"load 1 0 0 0 0\nreply 1 0\nset 0 0 7\nstore 0 0 0 7\nreply 0 7\nend schedule\n",
        ..STORED_AND_LOADED
    },
];

#[test]
fn two_schedules_may_give_two_runs(rt: HostRuntime) -> Result<(), Fail> {
    each_does(&rt, rt.alloc(), ORDERS)
}

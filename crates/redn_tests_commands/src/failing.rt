//! Calls of the store and the sink that fail, and files that aren't there.

use crate::case::{Case, NOTHING, each_does};
use crate::echo::{BY_RULES, BY_SCHEDULE, ECHO, FAIR, FILES, IN_ORDER, MESSAGE, SCHEDULED};
use redn_top::Status;
use std::test::Fail;

const RECORDED: &[&str] = &[
    "go", "e.redn", "e.img", "--fair", "1000", "--record", "r.txt",
];

const NOT_READ: Case<'static> = Case {
    status: Status::ReadFailed,
    printed: b"",
    written: None,
    ..BY_SCHEDULE
};

const NOT_WRITTEN: Case<'static> = Case {
    status: Status::WriteFailed,
    printed: b"",
    written: None,
    ..BY_SCHEDULE
};

/// The sink takes a half of the line that fails.
const CUT_BY_SCHEDULE: Case<'static> = Case {
    status: Status::WriteFailed,
    ..BY_SCHEDULE
};

const CUT_BY_RULES: Case<'static> = Case {
    status: Status::WriteFailed,
    ..BY_RULES
};

const FAILING: &[Case] = &[
    Case {
        store_fails: &[0],
        ..NOT_READ
    },
    Case {
        store_fails: &[1],
        ..NOT_READ
    },
    Case {
        store_fails: &[2],
        ..NOT_WRITTEN
    },
    Case {
        sink_fails: &[0],
        printed: b"set 0",
        ..CUT_BY_SCHEDULE
    },
    Case {
        sink_fails: &[1],
        printed: b"set 0 0 42\nreply",
        ..CUT_BY_SCHEDULE
    },
    Case {
        sink_fails: &[2],
        printed: b"set 0 0 42\nreply 0 42\nend sc",
        ..CUT_BY_SCHEDULE
    },
    Case {
        words: FAIR,
        store_fails: &[0],
        ..NOT_READ
    },
    Case {
        words: FAIR,
        store_fails: &[1],
        ..NOT_WRITTEN
    },
    Case {
        sink_fails: &[0],
        printed: b"set 0",
        ..CUT_BY_RULES
    },
    Case {
        sink_fails: &[1],
        printed: b"set 0 0 42\nreply",
        ..CUT_BY_RULES
    },
    Case {
        sink_fails: &[2],
        printed: b"set 0 0 42\nreply 0 42\nend q",
        ..CUT_BY_RULES
    },
    // No record is written, and what was printed stays.
    Case {
        words: RECORDED,
        store_fails: &[2],
        status: Status::WriteFailed,
        ..BY_RULES
    },
    Case {
        words: RECORDED,
        sink_fails: &[2],
        printed: b"set 0 0 42\nreply 0 42\nend q",
        ..CUT_BY_RULES
    },
    // There are no such calls.
    Case {
        store_fails: &[2],
        sink_fails: &[3],
        ..BY_RULES
    },
    Case {
        words: &["compile", "e.redn", "e.img"],
        messages: &[],
        store_fails: &[1],
        ..NOT_WRITTEN
    },
];

#[test]
fn the_call_that_failed_is_told(rt: HostRuntime) -> Result<(), Fail> {
    each_does(&rt, rt.alloc(), FAILING)
}

const MISSING: Case<'static> = Case {
    words: SCHEDULED,
    messages: &[MESSAGE],
    status: Status::Missing,
    ..NOTHING
};

const LACKING: &[Case] = &[
    Case {
        files: &[("e.redn", ECHO)],
        ..MISSING
    },
    Case {
        files: &[("s.txt", IN_ORDER)],
        ..MISSING
    },
    Case {
        files: &[("other", IN_ORDER)],
        ..MISSING
    },
    Case {
        files: FILES,
        words: &["disasm", "e.img"],
        messages: &[],
        ..MISSING
    },
];

#[test]
fn a_missing_file_is_told(rt: HostRuntime) -> Result<(), Fail> {
    each_does(&rt, rt.alloc(), LACKING)
}

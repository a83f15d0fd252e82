//! Sources that are printed again, and those that are refused.

use crate::case::{Case, NOTHING, does, each_does, obey, store_of};
use crate::echo::{BY_SCHEDULE, IN_ORDER};
use redn_top::{Status, TextFault};
use std::alloc::{AllocError, Global};
use std::fmt::Write;
use std::process::Abort;
use std::test::Fail;

const CHECK: Case<'static> = Case {
    words: &["check", "e.redn"],
    ..NOTHING
};

const CANONICAL: &[u8] = b"chain c { arg a ; arg b ; if a ~ b { if a == b { reply 2 ; } \
    else { reply 1 ; } } else { reply 0 ; } }\n";

const PRINTED: &[Case] = &[
    Case {
        files: &[(
            "e.redn",
            b"chain c { arg a; arg b; # two tests\n if a ~ b { if a == b { reply 2; } \
            else { reply 0x1; } } else { reply 00; } }",
        )],
        printed: CANONICAL,
        ..CHECK
    },
    Case {
        files: &[("e.redn", CANONICAL)],
        printed: CANONICAL,
        ..CHECK
    },
];

#[test]
fn the_canonical_text_is_printed_again_unchanged(rt: HostRuntime) -> Result<(), Fail> {
    each_does(&rt, rt.alloc(), PRINTED)
}

/// `check` of a text answers this. It prints only what it has accepted.
fn answers(rt: &impl Abort, alloc: Global, text: &[u8], status: Status) -> Result<(), Fail> {
    let mut store = store_of(alloc, &[("e.redn", text)], &[])?;
    let (told, printed) = obey(alloc, &["check", "e.redn"], &[], &mut store, &[])?;
    assert_eq!(rt; told, status);
    assert_eq!(rt; printed.is_empty(), status != Status::Done);
    Ok(())
}

/// Texts without a tree, and the byte that is told.
const NO_TREE: [(&[u8], u64); 5] = [
    (b"", 0),
    (b"chain c { reply 1 }", 18),
    (b"chain c { x = 18446744073709551616; }", 14),
    (b"chain c { reply 1 1; }", 18),
    (b"table t[8] ro;", 14),
];

/// Trees that break a rule: its number, the place in bytes, and what was seen.
const BROKEN_RULES: [(&[u8], u8, u32, u64); 16] = [
    (b"chain c { reply x; }", 1, 16, 0),
    (b"chain c { var x; x = t[0]; reply x; }", 1, 21, 0),
    (b"chain c { arg a; var a; reply a; }", 2, 21, 0),
    (b"table t[8] ro; chain c { t[0] = 1; reply 1; }", 3, 25, 0),
    (b"chain c { break; }", 4, 10, 0),
    (b"chain c { }", 5, 10, 0),
    (b"chain c { reply 1; reply 2; }", 6, 19, 0),
    (b"chain c { loop { loop { break; } } }", 7, 10, 0),
    (
        b"table t[16] ro; chain c { var x; lookup x = t[x] key 1 probes 1; reply x; }",
        8,
        40,
        0,
    ),
    (
        b"chain c { arg a; arg b; arg c; arg d; arg e; arg f; arg g; arg h; arg i; reply a; }",
        10,
        70,
        9,
    ),
    (b"table t[9] ro; chain c { reply 1; }", 12, 8, 9),
    (b"table t[0] ro; chain c { reply 1; }", 12, 8, 0),
    (b"table t[8] ro = { 1, 2 }; chain c { reply 1; }", 12, 21, 8),
    (b"chain c { repeat 0 { break; } reply 1; }", 13, 17, 0),
    (
        b"table t[16] ro; chain c { var x; lookup x = t[0] key 1 probes 5; reply x; }",
        13,
        62,
        5,
    ),
    (b"chain c { reply 1, 2, 3, 4, 5, 6, 7, 8, 9; }", 13, 40, 9),
];

fn each_has_no_tree(rt: &impl Abort, alloc: Global, texts: &[(&[u8], u64)]) -> Result<(), Fail> {
    for (text, at) in texts {
        answers(rt, alloc, text, Status::Text(TextFault::Byte { at: *at }))?;
    }
    Ok(())
}

fn each_breaks_a_rule(
    rt: &impl Abort,
    alloc: Global,
    texts: &[(&[u8], u8, u32, u64)],
) -> Result<(), Fail> {
    for (text, rule, at, seen) in texts {
        let (rule, at, seen) = (*rule, *at, *seen);
        answers(rt, alloc, text, Status::Program { rule, at, seen })?;
    }
    Ok(())
}

#[test]
fn sources_are_refused_with_their_place(rt: HostRuntime) -> Result<(), Fail> {
    each_has_no_tree(&rt, rt.alloc(), &NO_TREE)?;
    each_breaks_a_rule(&rt, rt.alloc(), &BROKEN_RULES)
}

/// A source is refused before a line of the schedule is read, and nothing is written.
const BEFORE_THE_SCHEDULE: &[Case] = &[
    Case {
        files: &[
            ("e.redn", b"chain echo { arg k; reply k }"),
            ("s.txt", b"x"),
        ],
        status: Status::Text(TextFault::Byte { at: 28 }),
        printed: b"",
        written: None,
        ..BY_SCHEDULE
    },
    Case {
        files: &[
            ("e.redn", b"chain echo { arg k; reply j; }"),
            ("s.txt", b"x"),
        ],
        status: Status::Program {
            rule: 1,
            at: 26,
            seen: 0,
        },
        printed: b"",
        written: None,
        ..BY_SCHEDULE
    },
];

#[test]
fn a_source_is_refused_before_its_schedule(rt: HostRuntime) -> Result<(), Fail> {
    each_does(&rt, rt.alloc(), BEFORE_THE_SCHEDULE)
}

/// A text so many times.
pub fn repeated(alloc: Global, text: &str, times: u32) -> Result<String, AllocError> {
    let mut all = String::new(alloc);
    for _ in 0..times {
        all.push_str(text)?;
    }
    Ok(all)
}

#[test]
fn blocks_are_nested_64_deep_at_most(rt: HostRuntime) -> Result<(), Fail> {
    let alloc = rt.alloc();
    let opened = repeated(alloc, "if 1 ~ 1 { ", 64)?;
    let closed = repeated(alloc, "} ", 64)?;
    let nested = format!(in alloc; "chain c {{ {opened}{closed}reply 1; }}")?;
    answers(&rt, alloc, nested.as_bytes(), Status::Done)?;
    let deeper = format!(in alloc; "chain c {{ {opened}if 1 ~ 1 {{ ")?;
    let status = Status::Text(TextFault::Nesting { at: 723 });
    answers(&rt, alloc, deeper.as_bytes(), status)
}

const SIXTEEN_CHAINS: &[u8] =
    b"chain c10 { reply 1; } chain c11 { reply 1; } chain c12 { reply 1; } chain c13 { reply 1; } chain c14 { reply 1; } \
    chain c15 { reply 1; } chain c16 { reply 1; } chain c17 { reply 1; } chain c18 { reply 1; } chain c19 { reply 1; } \
    chain c20 { reply 1; } chain c21 { reply 1; } chain c22 { reply 1; } chain c23 { reply 1; } chain c24 { reply 1; } \
    chain c25 { reply 1; } ";

const A_SEVENTEENTH: &[u8] = b"chain c26 { reply 1; } ";

/// A chain of the variables from `v100` on, up to the one before this.
fn variables(alloc: Global, end: u32) -> Result<String, Fail> {
    let mut text = String::from_str(alloc, "chain c { ")?;
    for name in 100..end {
        write!(text, "var v{name}; ")?;
    }
    text.push_str("reply 1; }")?;
    Ok(text)
}

#[test]
fn sixteen_chains_and_256_variables_are_the_most(rt: HostRuntime) -> Result<(), Fail> {
    let alloc = rt.alloc();
    answers(&rt, alloc, SIXTEEN_CHAINS, Status::Done)?;
    let mut chains = Vec::from_slice(alloc, SIXTEEN_CHAINS)?;
    chains.extend_from_slice(A_SEVENTEENTH)?;
    let (rule, at, seen) = (9, 374, 17);
    answers(&rt, alloc, &chains, Status::Program { rule, at, seen })?;
    answers(&rt, alloc, variables(alloc, 356)?.as_bytes(), Status::Done)?;
    let (rule, at, seen) = (11, 2574, 257);
    let variables = variables(alloc, 357)?;
    answers(
        &rt,
        alloc,
        variables.as_bytes(),
        Status::Program { rule, at, seen },
    )
}

/// A chain of so many moves and a reply.
pub fn moves(alloc: Global, count: u32) -> Result<String, AllocError> {
    let moves = repeated(alloc, "x = 1; ", count)?;
    format!(in alloc; "chain c {{ var x; {moves}reply x; }}")
}

#[test]
fn a_file_weighs_4096_at_most(rt: HostRuntime) -> Result<(), Fail> {
    let alloc = rt.alloc();
    answers(&rt, alloc, moves(alloc, 4095)?.as_bytes(), Status::Done)?;
    let (rule, at, seen) = (14, 17 + 7 * 4096, 4097);
    let heavy = moves(alloc, 4096)?;
    answers(
        &rt,
        alloc,
        heavy.as_bytes(),
        Status::Program { rule, at, seen },
    )
}

#[test]
fn a_source_above_its_limit_is_too_long(rt: HostRuntime) -> Result<(), Fail> {
    let alloc = rt.alloc();
    let text = vec![in alloc; b' '; 1_048_577]?;
    let (seen, limit) = (1_048_577, 1_048_576);
    let status = Status::Long { seen, limit };
    answers(&rt, alloc, &text, status)?;
    let no_tree = Status::Text(TextFault::Byte { at: limit });
    answers(&rt, alloc, &text[1..], no_tree)?;
    let case = Case {
        files: &[("e.redn", &text), ("s.txt", IN_ORDER)],
        status,
        printed: b"",
        written: None,
        ..BY_SCHEDULE
    };
    does(&rt, alloc, &case)
}

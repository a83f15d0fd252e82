//! Words that are no command.

use crate::case::{obey, store_of};
use crate::echo::FILES;
use redn_top::Status;
use std::alloc::Global;
use std::process::Abort;
use std::test::Fail;

const REFUSED: [&[&str]; 32] = [
    &[],
    &["list", "e.redn"],
    &["check"],
    &["check", ""],
    &["check", "-e.redn"],
    &["check", "--help"],
    &["check", "--", "e.redn"],
    &["check", "e.redn", "e.redn"],
    &["check", "e.redn", "--fair", "1"],
    &["compile", "e.redn"],
    &["gen", "5"],
    &["gen", "01", "e.img"],
    &["gen", "4294967296", "e.img"],
    &["run", "e.img"],
    &["run", "--fair", "1"],
    &["run", "e.img", "--fair", "1", "--fair", "2"],
    &["run", "e.img", "--fair", "1", "--schedule", "s.txt"],
    &["run", "e.img", "--fair=1"],
    &["run", "e.img", "--fair", "-1"],
    &["run", "e.img", "--fair"],
    &["run", "e.img", "--fair", "007"],
    &["run", "e.img", "--fair", "4000001"],
    &["run", "e.img", "--fair", "500001", "--record", "r.txt"],
    &["run", "e.img", "--steps", "5"],
    &["run", "e.img", "--fair", "5", "--steps", "5"],
    &["run", "e.img", "--shuffle", "1"],
    &[
        "run",
        "e.img",
        "--shuffle",
        "18446744073709551616",
        "--steps",
        "5",
    ],
    &[
        "go",
        "e.redn",
        "e.img",
        "--schedule",
        "s.txt",
        "--record",
        "r.txt",
    ],
    &["go", "e.redn", "e.img", "--schedule", "s.txt", "00=00"],
    &["go", "e.redn", "e.img", "--schedule", "s.txt", "0"],
    &[
        "go",
        "e.redn",
        "e.img",
        "--schedule",
        "s.txt",
        "4294967296=00",
    ],
    &[
        "go",
        "",
        "e.img",
        "--schedule",
        "s.txt",
        "0=000000000000002a",
    ],
];

fn each_is_refused(rt: &impl Abort, alloc: Global, lists: &[&[&str]]) -> Result<(), Fail> {
    for words in lists {
        let mut store = store_of(alloc, FILES, &[])?;
        let (status, printed) = obey(alloc, words, &[], &mut store, &[])?;
        assert_eq!(rt; status, Status::Words, "{words:?}");
        assert!(rt; printed.is_empty(), "{words:?}");
        assert!(rt; store.get("e.img").is_none(), "{words:?}");
    }
    Ok(())
}

#[test]
fn other_words_are_refused(rt: HostRuntime) -> Result<(), Fail> {
    each_is_refused(&rt, rt.alloc(), &REFUSED)
}

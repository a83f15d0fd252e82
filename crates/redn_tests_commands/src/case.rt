//! A command over a store and a sink in memory, and what comes of it.

use redn_outside::{MemSink, MemStore};
use redn_top::{Status, redn};
use redn_words::Memory;
use std::alloc::Global;
use std::process::Abort;
use std::test::Fail;

/// A row of a table: what a command is given, and what it does then.
#[derive(Drop)]
pub struct Case<'a> {
    /// What the store holds at first: names and bytes.
    pub files: &'a [(&'a str, &'a [u8])],
    /// Commands that run first, each of which does its work.
    pub before: &'a [&'a [&'a str]],
    pub words: &'a [&'a str],
    /// The words of messages, which stand behind the others.
    pub messages: &'a [&'a str],
    /// The numbers of the calls of the store that fail.
    pub store_fails: &'a [u64],
    /// The numbers of the calls of the sink that fail.
    pub sink_fails: &'a [u64],
    pub status: Status,
    pub printed: &'a [u8],
    /// How many bytes stand under `e.img` then.
    pub written: Option<usize>,
    /// What stands under `r.txt` then.
    pub record: Option<&'a [u8]>,
}

/// A command that is given nothing and does nothing: other rows say what they have beside it.
pub const NOTHING: Case<'static> = Case {
    files: &[],
    before: &[],
    words: &[],
    messages: &[],
    store_fails: &[],
    sink_fails: &[],
    status: Status::Done,
    printed: b"",
    written: None,
    record: None,
};

/// The status of a command. It stands apart so that its many clauses are read by no other proof.
fn status_of(
    alloc: Global,
    words: &Vec<String>,
    store: &mut MemStore,
    out: &mut MemSink,
) -> Status {
    redn(alloc, words, store, out)
}

/// The words of a command, and those of its messages.
fn words_of(alloc: Global, words: &[&str], messages: &[&str]) -> Result<Vec<String>, Memory> {
    let mut list = Vec::new(alloc);
    for word in words {
        list.push(String::from_str(alloc, word)?)?;
    }
    for word in messages {
        list.push(String::from_str(alloc, word)?)?;
    }
    Ok(list)
}

/// The status of a command over a store, and what it prints. Some calls of the sink fail.
pub fn obey(
    alloc: Global,
    words: &[&str],
    messages: &[&str],
    store: &mut MemStore,
    sink_fails: &[u64],
) -> Result<(Status, Vec<u8>), Memory> {
    let list = words_of(alloc, words, messages)?;
    let mut out = MemSink::new(alloc, Vec::from_slice(alloc, sink_fails)?, 200_000)?;
    let status = status_of(alloc, &list, store, &mut out);
    Ok((status, Vec::from_slice(alloc, out.written())?))
}

/// A store of these files, some calls of which fail.
pub fn store_of(alloc: Global, files: &[(&str, &[u8])], fails: &[u64]) -> Result<MemStore, Memory> {
    let mut store = MemStore::new(alloc, Vec::from_slice(alloc, fails)?);
    for (name, bytes) in files {
        store.add(name, bytes)?;
    }
    Ok(store)
}

/// Runs the command over a store that holds its files.
pub fn does(rt: &impl Abort, alloc: Global, case: &Case) -> Result<(), Fail> {
    let (words, messages) = (case.words, case.messages);
    let mut store = store_of(alloc, case.files, case.store_fails)?;
    for earlier in case.before {
        let (status, _) = obey(alloc, earlier, &[], &mut store, &[])?;
        assert_eq!(rt; status, Status::Done, "{earlier:?}");
    }
    let (status, printed) = obey(alloc, words, messages, &mut store, case.sink_fails)?;
    assert_eq!(rt; status, case.status, "{words:?} {messages:?}");
    assert_eq!(rt; printed.as_slice(), case.printed, "{words:?} {messages:?}");
    let written = store.get("e.img").map(|bytes| bytes.len());
    assert_eq!(rt; written, case.written, "{words:?} {messages:?}");
    assert_eq!(rt; store.get("r.txt"), case.record, "{words:?} {messages:?}");
    Ok(())
}

/// Runs each command over a store of its own.
pub fn each_does(rt: &impl Abort, alloc: Global, cases: &[Case]) -> Result<(), Fail> {
    for case in cases {
        does(rt, alloc, case)?;
    }
    Ok(())
}

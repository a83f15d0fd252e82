//! The program: its words, files and streams are those of the process.
#![tactic(auto)]

use redn_outside::{StdSink, StdStore};
use redn_top::{Status, redn, status_code, status_line};
use std::env;
use std::io::{ErrorKind, Write};
use std::process::ExitCode;
use std::rt::Env;

/// The words behind the program's name, or the status where they can't be had.
fn words_of(rt: &(impl Env + AllocGlobal)) -> Result<Vec<String>, Status> {
    match env::args(rt) {
        Ok(args) => args.skip(1).collect(rt.alloc()).map_err(|_| Status::Memory),
        Err(e) if e.kind() == ErrorKind::OutOfMemory => Err(Status::Memory),
        // They aren't text.
        Err(_) => Err(Status::Words),
    }
}

fn main(rt: HostRuntime) -> ExitCode {
    let status = match words_of(&rt) {
        Ok(words) => {
            let mut store = StdStore::new(&rt);
            let mut out = StdSink::new(&rt);
            redn(rt.alloc(), &words, &mut store, &mut out)
        }
        Err(status) => status,
    };
    let mut line = [0; 128];
    let len = status_line(&status, &mut line);
    // Where standard error can't be written, the status alone tells how the command ended.
    let _ = rt.stderr().write_all(&line[..len]);
    ExitCode::from(status_code(&status))
}

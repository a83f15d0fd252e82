ghost use Rattle.std.specs.Prelude.{◌≡◌, None, false, is_ok, if◌then◌else◌};
ghost use Rattle.redn_outside.specs.Counts.{one_more, NeverFalls};

use crate::sink::{Failed, Sink};
use std::io;
use std::io::ErrorKind;
use std::marker::Model;

/// Standard output. It does not tell what was written.
#[derive(Drop)]
pub struct StdSink<'a, R: Print> {
    rt: &'a R,
    faults: u64,
}

impl<'a, R: Print> Model for StdSink<'a, R> {
    ghost use Rattle.std.specs.Prelude.{ℕ};

    ghost Value = { ℕ };

    ghost view = { λ a. a.faults };
}

impl<'a, R: Print> StdSink<'a, R> {
    /// A sink over the standard output of a runtime, with no fault counted.
    pub fn new(rt: &'a R) -> StdSink<'a, R>
        ensures { result ≡ 0 }
    {
        StdSink { rt, faults: 0 }
    }
}

impl<'a, R: Print> Sink for StdSink<'a, R> {
    ghost seen = { λ s. record { told = None; faults = s; reliable = false } };

    fn put(&mut self, bytes: &[u8]) -> Result<(), Failed>
        // It counts its faults.
        ensures after { self.new ≡ (if is_ok result then self.old else one_more self.old) }
        ensures count { NeverFalls self.old self.new }
    {
        let faults = self.faults;
        match write_whole(self.rt, bytes) {
            Ok(()) => Ok(()),
            Err(_) => {
                self.faults = faults.saturating_add(1);
                Err(Failed)
            }
        }
    }
}

// A write that takes nothing of the bytes that are left is a fault.
fn write_whole<R: Print>(rt: &R, bytes: &[u8]) -> io::Result<()> {
    let mut left = bytes;
    while !left.is_empty() {
        let n = rt.write_some(left)?;
        if n == 0 {
            return Err(io::Error::from(ErrorKind::WriteZero));
        }
        left = &left[n..];
    }
    Ok(())
}

ghost use Rattle.std.specs.Prelude.{◌≡◌, ◌+◌, ◌-◌, ◌^◌, ◌<◌, ◌≤◌, None, false, length, IfOk};
ghost use Rattle.redn_outside.specs.Counts.{NeverFalls};
ghost use Rattle.redn_outside.specs.Reads as reads;
ghost use Rattle.redn_outside.specs.StoreCounts.{no_answers, counts_after_read, counts_after_write, ReadCountsNeverFall};

use crate::counts::StoreCounts;
use crate::store::{ReadFault, Store, WriteFault};
use std::alloc::Global;
use std::io::{ErrorKind, Read, Write};
use std::marker::Model;
use std::rt::Files;
use std::{fs, io};

const CHUNK: usize = 8192;

/// The files of the system. It tells neither what they hold nor which calls it answered.
#[derive(Drop)]
pub struct StdStore<'a, R: Files> {
    rt: &'a R,
    counts: StoreCounts,
}

impl<'a, R: Files> Model for StdStore<'a, R> {
    ghost use Rattle.redn_outside.specs.declared.counts.StoreCounts.{StoreCounts};

    ghost Value = { StoreCounts };

    ghost view = { λ a. a.counts };
}

impl<'a, R: Files> StdStore<'a, R> {
    /// A store over the files of a runtime, with each count at 0.
    pub fn new(rt: &'a R) -> StdStore<'a, R>
        ensures { result ≡ no_answers }
    {
        StdStore {
            rt,
            counts: StoreCounts::new(),
        }
    }
}

impl<'a, R: Files> Store for StdStore<'a, R> {
    ghost seen = { λ s. record { told = None; calls = None; counts = s; reliable = false } };

    fn read(&mut self, alloc: Global, name: &str, limit: u64) -> Result<Vec<u8>, ReadFault>
        requires { limit < 2 ^ 64 - 1 }
        ensures at_most_limit { IfOk result (λ bytes. length bytes.items ≤ limit) }
        ensures seen { reads.IfLong result (λ seen. seen ≡ limit + 1) }

        // It counts its answer.
        ensures after { self.new ≡ counts_after_read self.old result }
        ensures counts { ReadCountsNeverFall self.old self.new }
    {
        let answer = read_file(self.rt, alloc, name, limit);
        self.counts.count_read(&answer);
        answer
    }

    fn write(&mut self, _alloc: Global, name: &str, bytes: &[u8]) -> Result<(), WriteFault>
        // It counts its answer.
        ensures after { self.new ≡ counts_after_write self.old result }
        ensures count { NeverFalls self.old.write_faults self.new.write_faults }
    {
        let answer = write_file(self.rt, name, bytes).map_err(|_| WriteFault::Failed);
        self.counts.count_write(&answer);
        answer
    }
}

// Only the opening says that there is no such file. A read that gives nothing is the end. Memory is
// taken for no more than a byte past the limit.
fn read_file<R: Files>(rt: &R, alloc: Global, name: &str, limit: u64) -> Result<Vec<u8>, ReadFault>
    requires { limit < 2 ^ 64 - 1 }
    ensures at_most_limit { IfOk result (λ bytes. length bytes.items ≤ limit) }
    ensures seen { reads.IfLong result (λ seen. seen ≡ limit + 1) }
{
    let mut file = match fs::open(rt, name) {
        Ok(file) => file,
        Err(e) if e.kind() == ErrorKind::NotFound => return Err(ReadFault::Missing),
        Err(_) => return Err(ReadFault::Failed),
    };
    let mut bytes = Vec::new(alloc);
    let mut chunk = [0u8; CHUNK];
    while bytes.len() as u64 <= limit {
        let left = limit + 1 - bytes.len() as u64;
        let most = left.min(CHUNK as u64) as usize;
        let n = file
            .read(&mut chunk[..most])
            .map_err(|_| ReadFault::Failed)?;
        if n == 0 {
            return Ok(bytes);
        }
        if bytes.capacity() - bytes.len() < n {
            let more = left.min(bytes.len().max(CHUNK) as u64) as usize;
            bytes.reserve_exact(more).map_err(|_| ReadFault::Memory)?;
        }
        bytes
            .extend_from_slice(&chunk[..n])
            .map_err(|_| ReadFault::Memory)?;
    }
    Err(ReadFault::Long { seen: limit + 1 })
}

// A write that takes nothing of the bytes that are left is a fault.
fn write_file<R: Files>(rt: &R, name: &str, bytes: &[u8]) -> io::Result<()> {
    let mut file = fs::create(rt, name)?;
    let mut left = bytes;
    while !left.is_empty() {
        let n = file.write(left)?;
        if n == 0 {
            return Err(io::Error::from(ErrorKind::WriteZero));
        }
        left = &left[n..];
    }
    Ok(())
}

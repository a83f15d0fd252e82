ghost use Rattle.std.specs.Prelude.{◌≡◌, ◌+◌, ◌-◌, ◌^◌, ◌<◌, ◌≤◌, ◌↔◌, [], None, Some, Err, length, IfOk, OnOk, OnErr, IsSomeAnd};
ghost use Rattle.std.specs.Option.{option_copied};
ghost use Rattle.redn_outside.specs.Counts.{NeverFalls};
ghost use Rattle.redn_outside.specs.Files.{file_at, with_file, files_in, OthersStay};
ghost use Rattle.redn_outside.specs.Reads as reads;
ghost use Rattle.redn_outside.specs.StoreCounts.{ReadCountsNeverFall};
ghost use Rattle.redn_outside.specs.StoreState.{empty_store, NextFails, after_read, after_write, fails_nowhere};

use crate::counts::StoreCounts;
use crate::store::{ReadFault, Store, WriteFault};
use redn_words::Memory;
use std::alloc::Global;
use std::collections::BTreeMap;
use std::marker::Model;

/// A store in memory, whose calls fail where they are told to. It tells what it holds, and not
/// which calls it answered; a `Journal` over it tells both.
#[derive(Debug, Drop)]
pub struct MemStore {
    alloc: Global,
    files: BTreeMap<String, Vec<u8>>,
    fail: Vec<u64>,
    calls: u64,
    counts: StoreCounts,
}

impl Model for MemStore {
    ghost use Rattle.redn_outside.specs.StoreState.{StoreState, store_state_code};

    ghost Value = { StoreState };

    ghost coded = { store_state_code };

    ghost use Rattle.redn_outside.specs.StoreView.{store_view};

    ghost view = { store_view };
}

impl MemStore {
    /// Holds nothing. `fail` lists the numbers of the calls that fail, counted from 0 over reads
    /// and writes. A call that wants memory has no number, and numbers end at the greatest `u64`.
    pub fn new(alloc: Global, fail: Vec<u64>) -> MemStore
        ensures { result ≡ empty_store fail.items }
    {
        MemStore {
            alloc,
            files: BTreeMap::new(alloc),
            fail,
            calls: 0,
            counts: StoreCounts::new(),
        }
    }

    /// Puts a file, in place of what is held under the name. It is no call of the store.
    pub fn add(&mut self, name: &str, bytes: &[u8]) -> Result<(), Memory>
        ensures ok { OnOk result
            (self.new ≡ record self.old { files = with_file name.now bytes.now self.old.files }) }
        ensures err { OnErr result (self.new ≡ self.old) }
    {
        put_file(self.alloc, &mut self.files, name, bytes)
    }

    /// The file under a name.
    pub fn get(&self, name: &str) -> Option<&[u8]>
        ensures { option_copied result ≡ file_at self.now.files name.now }
    {
        match self.files.get(name) {
            Some(bytes) => Some(bytes.as_slice()),
            None => None,
        }
    }
}

fn put_file(
    alloc: Global,
    files: &mut BTreeMap<String, Vec<u8>>,
    name: &str,
    bytes: &[u8],
) -> Result<(), Memory>
    ensures ok { OnOk result (files_in files.new ≡ with_file name.now bytes.now (files_in files.old)) }
    ensures err { OnErr result (files_in files.new ≡ files_in files.old) }
{
    let copy = Vec::from_slice(alloc, bytes).map_err(|_| Memory)?;
    let key = String::from_str(alloc, name).map_err(|_| Memory)?;
    match files.insert(key, copy) {
        Ok(_) => Ok(()),
        Err(_) => Err(Memory),
    }
}

impl Store for MemStore {
    ghost seen = { λ s. record { told = Some s.files; calls = None; counts = s.counts; reliable = fails_nowhere s.fail } };

    fn read(&mut self, alloc: Global, name: &str, limit: u64) -> Result<Vec<u8>, ReadFault>
        requires { limit < 2 ^ 64 - 1 }

        // A call whose number is listed fails, and no other.
        ensures failed { (result ≡ Err ReadFault.Failed) ↔ NextFails self.old }

        // Any other call answers by what is held under the name, or wants memory.
        ensures ok { IfOk result (λ bytes. ¬ NextFails self.old ×
            (file_at self.old.files name.now ≡ Some bytes.items) × (length bytes.items ≤ limit)) }
        ensures missing { (result ≡ Err ReadFault.Missing) ↔
            (¬ NextFails self.old × (file_at self.old.files name.now ≡ None)) }
        ensures long { (result ≡ Err (ReadFault.Long (limit + 1))) ↔ (¬ NextFails self.old ×
            IsSomeAnd (file_at self.old.files name.now) (λ bytes. limit < length bytes)) }
        ensures seen { reads.IfLong result (λ seen. seen ≡ limit + 1) }

        // It counts its answer, and changes nothing else.
        ensures after { self.new ≡ after_read self.old result }
        ensures counts { ReadCountsNeverFall self.old.counts self.new.counts }
    {
        let answer = if self.fail.contains(&self.calls) {
            Err(ReadFault::Failed)
        } else {
            match self.get(name) {
                None => Err(ReadFault::Missing),
                Some(bytes) if bytes.len() as u64 > limit => {
                    Err(ReadFault::Long { seen: limit + 1 })
                }
                Some(bytes) => Vec::from_slice(alloc, bytes).map_err(|_| ReadFault::Memory),
            }
        };
        if !matches!(answer, Err(ReadFault::Memory)) {
            self.calls = self.calls.saturating_add(1);
        }
        self.counts.count_read(&answer);
        answer
    }

    fn write(&mut self, alloc: Global, name: &str, bytes: &[u8]) -> Result<(), WriteFault>
        // A call whose number is listed fails, and no other.
        ensures failed { (result ≡ Err WriteFault.Failed) ↔ NextFails self.old }

        // Only with `Ok` it changes what is held, and only under the name.
        ensures after { self.new ≡ after_write self.old name.now bytes.now result }
        ensures others_stay { OthersStay name.now (Some self.old.files) (Some self.new.files) }
        ensures count { NeverFalls self.old.counts.write_faults self.new.counts.write_faults }
    {
        let answer = if self.fail.contains(&self.calls) {
            Err(WriteFault::Failed)
        } else {
            put_file(alloc, &mut self.files, name, bytes).map_err(|_| WriteFault::Memory)
        };
        if !matches!(answer, Err(WriteFault::Memory)) {
            self.calls = self.calls.saturating_add(1);
        }
        self.counts.count_write(&answer);
        answer
    }
}

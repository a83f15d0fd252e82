ghost use Rattle.std.specs.Prelude.{◌≡◌, ◌+◌, ◌-◌, ◌^◌, ◌<◌, ◌≤◌, None, Some, length, IfOk, IfSome, OnOk, IsSomeAnd};
ghost use Rattle.std.specs.Option.{option_map};

use std::alloc::Global;

/// Why a read gives no bytes.
#[derive(Clone, Copy, Debug, PartialEq, Eq)]
pub enum ReadFault {
    /// The store could not read.
    Failed,
    /// No file is held under the name.
    Missing,
    /// The file is longer than the limit. `seen` is the limit plus 1.
    Long { seen: u64 },
    /// Want of memory.
    Memory,
}

/// Why a write did not write.
#[derive(Clone, Copy, Debug, PartialEq, Eq)]
pub enum WriteFault {
    /// The store could not write.
    Failed,
    /// Want of memory.
    Memory,
}

/// A call of a store that was answered. One that wanted memory is none.
#[derive(Debug, Drop)]
pub enum StoreCall {
    /// The file under a name was read, of at most `limit` bytes.
    Read { name: String, limit: u64 },
    /// A file was written under a name.
    Write { name: String },
}

/// Files under names.
///
/// A store counts its failed reads, its failed writes, the files that were too long and those that
/// were missing. Each count is a `u64` that never falls and stays at its greatest value.
pub trait Store {
    ghost use Rattle.redn_outside.specs.Calls.{and_calls, calls_of_read, calls_of_write};
    ghost use Rattle.redn_outside.specs.Files.{file_at, with_file};
    ghost use Rattle.redn_outside.specs.Seen.{StoreSeen, KeepsFiles, KeepsOthers, ReadFailed, WriteFailed, MissingRose, LongRose};
    ghost use Rattle.redn_outside.specs.Reads as reads;
    ghost use Rattle.redn_outside.specs.Writes as writes;

    // What it holds and which calls it answered, where it tells, its counts, and whether no call
    // of it ever fails.
    ghost seen: { Self → StoreSeen };

    /// The file under a name, of at most `limit` bytes.
    fn read(&mut self, alloc: Global, name: &str, limit: u64) -> Result<Vec<u8>, ReadFault>
        requires { limit < 2 ^ 64 - 1 }

        // Whatever it answers.
        ensures stays { KeepsFiles (seen self.old) (seen self.new) }
        ensures calls { (seen self.new).calls
            ≡ and_calls (calls_of_read name.now limit result) (seen self.old).calls }

        // Each answer and its cause.
        ensures at_most_limit { IfOk result (λ bytes. length bytes.items ≤ limit) }
        ensures held { IfOk result (λ bytes. IfSome (seen self.old).told
            (λ files. file_at files name.now ≡ Some bytes.items)) }
        ensures failed { reads.OnFailed result (ReadFailed (seen self.old) (seen self.new)) }
        ensures missing { reads.OnMissing result (MissingRose (seen self.old) (seen self.new)) }
        ensures not_held { reads.OnMissing result (IfSome (seen self.old).told
            (λ files. file_at files name.now ≡ None)) }
        ensures long { reads.IfLong result (λ _. LongRose (seen self.old) (seen self.new)) }
        ensures seen_bytes { reads.IfLong result (λ seen. seen ≡ limit + 1) }
        ensures longer { reads.IfLong result (λ _. IfSome (seen self.old).told
            (λ files. IsSomeAnd (file_at files name.now) (λ bytes. limit < length bytes))) }
        ensures memory { reads.OnMemory result (self.new ≡ self.old) };

    /// Puts the bytes under the name, in place of what is held there.
    fn write(&mut self, alloc: Global, name: &str, bytes: &[u8]) -> Result<(), WriteFault>
        // Whatever it answers.
        ensures stays { KeepsOthers name.now (seen self.old) (seen self.new) }
        ensures calls { (seen self.new).calls
            ≡ and_calls (calls_of_write name.now result) (seen self.old).calls }

        // Each answer and its cause. After `Failed` it is open what is held under the name.
        ensures ok { OnOk result ((seen self.new).told
            ≡ option_map (with_file name.now bytes.now) (seen self.old).told) }
        ensures failed { writes.OnFailed result (WriteFailed (seen self.old) (seen self.new)) }
        ensures memory { writes.OnMemory result (self.new ≡ self.old) };
}

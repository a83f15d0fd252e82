ghost use Rattle.std.specs.Prelude.{◌≡◌};

use crate::store::{ReadFault, WriteFault};

/// How often a store answered what. A count stays at its greatest value.
#[derive(Clone, Copy, Debug)]
pub struct StoreCounts {
    pub read_faults: u64,
    pub write_faults: u64,
    pub long_answers: u64,
    pub missing_answers: u64,
}

impl StoreCounts {
    ghost use Rattle.redn_outside.specs.Counts.{NeverFalls};
    ghost use Rattle.redn_outside.specs.StoreCounts.{no_answers, counts_after_read, counts_after_write, ReadCountsNeverFall};

    pub(crate) fn new() -> StoreCounts
        ensures { result ≡ no_answers }
    {
        StoreCounts {
            read_faults: 0,
            write_faults: 0,
            long_answers: 0,
            missing_answers: 0,
        }
    }

    pub(crate) fn count_read<T>(&mut self, answer: &Result<T, ReadFault>)
        ensures after { self.new ≡ counts_after_read self.old answer.now }
        ensures counts { ReadCountsNeverFall self.old self.new }
    {
        let StoreCounts {
            read_faults,
            long_answers,
            missing_answers,
            ..
        } = *self;
        match answer {
            Ok(_) | Err(ReadFault::Memory) => {}
            Err(ReadFault::Failed) => self.read_faults = read_faults.saturating_add(1),
            Err(ReadFault::Missing) => self.missing_answers = missing_answers.saturating_add(1),
            Err(ReadFault::Long { .. }) => self.long_answers = long_answers.saturating_add(1),
        }
    }

    pub(crate) fn count_write(&mut self, answer: &Result<(), WriteFault>)
        ensures after { self.new ≡ counts_after_write self.old answer.now }
        ensures count { NeverFalls self.old.write_faults self.new.write_faults }
    {
        let write_faults = self.write_faults;
        if let Err(WriteFault::Failed) = answer {
            self.write_faults = write_faults.saturating_add(1);
        }
    }
}

ghost use Rattle.std.specs.Prelude.{◌≡◌, ◌-◌, ◌^◌, ◌<◌, [], Some, map};
ghost use Rattle.redn_outside.specs.StoreState.{fails_nowhere};
ghost use Rattle.redn_outside.specs.Calls.{call_view};
ghost use Rattle.redn_outside.specs.StoreCounts.{AreCounts};

use crate::mem_store::MemStore;
use crate::store::{ReadFault, Store, StoreCall, WriteFault};
use std::alloc::Global;
use std::marker::Model;

/// A store in memory that also tells which calls it answered.
#[derive(Debug, Drop)]
pub struct Journal {
    store: MemStore,
    calls: Vec<StoreCall>,
}

impl Model for Journal {
    ghost use Rattle.redn_outside.specs.JournalState.{JournalState, journal_state_code};

    ghost Value = { JournalState };

    ghost coded = { journal_state_code };

    ghost use Rattle.redn_outside.specs.JournalView.{journal_view, journal_invariant};

    ghost view = { journal_view };

    ghost invariant = { journal_invariant };
}

impl Journal {
    /// A journal of a store's calls from now on.
    pub fn new(alloc: Global, store: MemStore) -> Journal
        requires { AreCounts store.counts }
        ensures { result ≡ record { store = store; calls = [] } }
    {
        Journal {
            store,
            calls: Vec::new(alloc),
        }
    }

    /// The calls that were answered, the first one first.
    pub fn calls(&self) -> &[StoreCall]
        ensures { map call_view result.now ≡ self.now.calls }
    {
        self.calls.as_slice()
    }
}

impl Store for Journal {
    ghost seen = { λ s. record { told = Some s.store.files; calls = Some s.calls; counts = s.store.counts; reliable = fails_nowhere s.store.fail } };

    fn read(&mut self, alloc: Global, name: &str, limit: u64) -> Result<Vec<u8>, ReadFault> {
        // Room comes first: nothing is read where it is wanting.
        self.calls.reserve(1).map_err(|_| ReadFault::Memory)?;
        let copy = String::from_str(alloc, name).map_err(|_| ReadFault::Memory)?;
        let call = StoreCall::Read { name: copy, limit };
        self.calls.push(call).map_err(|_| ReadFault::Memory)?;
        match self.store.read(alloc, name, limit) {
            Ok(bytes) => Ok(bytes),
            Err(ReadFault::Memory) => {
                let _call = self.calls.pop();
                Err(ReadFault::Memory)
            }
            Err(ReadFault::Failed) => Err(ReadFault::Failed),
            Err(ReadFault::Missing) => Err(ReadFault::Missing),
            Err(ReadFault::Long { seen }) => Err(ReadFault::Long { seen }),
        }
    }

    fn write(&mut self, alloc: Global, name: &str, bytes: &[u8]) -> Result<(), WriteFault> {
        // Room comes first: nothing is written where it is wanting.
        self.calls.reserve(1).map_err(|_| WriteFault::Memory)?;
        let copy = String::from_str(alloc, name).map_err(|_| WriteFault::Memory)?;
        let call = StoreCall::Write { name: copy };
        self.calls.push(call).map_err(|_| WriteFault::Memory)?;
        let answer = self.store.write(alloc, name, bytes);
        if let Err(WriteFault::Memory) = answer {
            let _call = self.calls.pop();
        }
        answer
    }
}

//! The state of a program whose chains step one at a time.

ghost use Rattle.std.specs.Prelude.{◌≡◌, ◌<◌, ◌↔◌, ℕ, length, [], true, false, IfOk, OnOk, Some, slice_get};
ghost use Rattle.std.specs.Option.{option_map};
ghost use Rattle.redn_kernel.specs.Program.{IsSound};
ghost use Rattle.redn_kernel.specs.Source.{source_start, source_step, is_running};
ghost use Rattle.redn_source.specs.Answered.{HasEnded, IsWaiting, answer_of};
ghost use Rattle.redn_source.specs.Starting.{misfits};
ghost use Rattle.redn_source.specs.declared.start.StartFault.TheVariants as fault;

use crate::run::Run;
use crate::start::{StartFault, first_misfit, first_runs, first_tables};
use redn_kernel::Program;
use redn_words::{Messages, Obs};
use std::alloc::Global;
use std::marker::Model;

/// What a chain's step answers.
#[derive(Clone, Copy, Debug, PartialEq, Eq)]
pub enum SourceAnswer {
    Event(Obs),
    /// The step showed nothing.
    Silent,
    /// The chain had ended.
    Ended,
    /// The chain has no message.
    Waiting,
}

/// The answer where a chain runs.
fn answer(shown: Obs) -> SourceAnswer
    ensures { result ≡ answer_of shown }
{
    match shown {
        Obs::Nothing => SourceAnswer::Silent,
        event => SourceAnswer::Event(event),
    }
}

/// The state that some steps of a program's chains have reached.
#[derive(Debug, Drop)]
pub struct SourceState<'a> {
    tables: Vec<Vec<u8>>,
    chains: Vec<Run<'a>>,
}

impl<'a> Model for SourceState<'a> {
    ghost use Rattle.redn_kernel.specs.Source.{Source};

    ghost Value = { Source };

    ghost use Rattle.std.specs.Coded.{codes};
    ghost use Rattle.redn_kernel.specs.contracts.types.Kernel as statement;

    ghost coded = { Prim.hlevel (codes, statement.the_row.coded) };

    ghost use Rattle.redn_source.specs.StateView.{state_view, IsState};

    ghost view = { state_view };

    ghost invariant = { IsState };
}

impl<'a> SourceState<'a> {
    /// The first state of a program with a message, or none, for each chain. A message has 8 bytes
    /// for each argument, else the least chain whose message hasn't is told.
    ///
    /// All memory that the state needs is taken here: its later calls take none.
    pub fn start(
        alloc: Global,
        p: &'a Program,
        ms: &Messages,
    ) -> Result<SourceState<'a>, StartFault>
        requires sound { IsSound p.now }
        requires each { length ms.now ≡ length p.now.chains }
        ensures state { IfOk result (λ s. s ≡ source_start p.now ms.now) }
        ensures chains { IfOk result (λ s. length s.chains ≡ length p.now.chains) }
        ensures tables { IfOk result (λ s. length s.tables ≡ length p.now.tables) }
        ensures fits { OnOk result (misfits 0 p.now.chains ms.now ≡ []) }
        ensures message { (c g w : ℕ) → (result ≡ Err (fault.Message c g w))
            ↔ (slice_get (misfits 0 p.now.chains ms.now) 0 ≡ Some (fault.Message c g w)) }
    {
        let chains = p.chains.as_slice();
        if let Some(fault) = first_misfit(chains, &ms.list) {
            return Err(fault);
        }
        let tables = first_tables(alloc, p.tables.as_slice())?;
        let chains = first_runs(alloc, chains, &ms.list)?;
        Ok(SourceState { tables, chains })
    }

    /// Makes one step of a chain that runs: it does its first thing. A chain that has ended, or has
    /// no message, changes nothing.
    pub fn source_step(&mut self, chain: u16) -> SourceAnswer
        requires { chain < length self.old.chains }
        ensures after { self.new ≡ (source_step self.old chain).0 }
        ensures chains { length self.new.chains ≡ length self.old.chains }
        ensures tables { length self.new.tables ≡ length self.old.tables }
        ensures shown { is_running self.old chain ≡ true
            → result ≡ answer_of (source_step self.old chain).1 }
        ensures ended { (result ≡ SourceAnswer.Ended) ↔ HasEnded (slice_get self.old.chains chain) }
        ensures waiting { (result ≡ SourceAnswer.Waiting)
            ↔ IsWaiting (slice_get self.old.chains chain) }
    {
        let run = &self.chains[chain as usize];
        if run.ended {
            return SourceAnswer::Ended;
        }
        if run.message.is_none() {
            return SourceAnswer::Waiting;
        }
        let shown = self.chains[chain as usize].step(chain, &mut self.tables);
        answer(shown)
    }

    /// The variables of a chain.
    pub fn variables(&self, chain: u16) -> &[u64]
        requires { chain < length self.now.chains }
        ensures { option_map (λ t. t.vars) (slice_get self.now.chains chain) ≡ Some result.now }
    {
        self.chains[chain as usize].vars.as_slice()
    }

    /// The bytes of a table.
    pub fn table(&self, table: u16) -> &[u8]
        requires { table < length self.now.tables }
        ensures { slice_get self.now.tables table ≡ Some result.now }
    {
        self.tables[table as usize].as_slice()
    }
}

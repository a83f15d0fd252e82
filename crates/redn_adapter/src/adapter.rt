ghost use Rattle.std.specs.Prelude.{◌≡◌, ◌+◌, ◌*◌, ◌%◌, ◌^◌, ◌<◌, ◌≤◌, ◌↔◌, ℕ, length, true, false, IsSome, slice_get, IfOk, OnOk, []};
ghost use Rattle.std.specs.FinMap as finite;
ghost use Rattle.redn_words.specs.Steps.{fetch_possible, land_possible, complete_possible, past_head, flown};
ghost use Rattle.redn_adapter.specs.Running.{stopped_if};
ghost use Rattle.redn_words.specs.Words.{with_bytes_at};
ghost use Rattle.redn_words.specs.States.{slot_of};
ghost use Rattle.redn_adapter.specs.Opening.{misfits, opened};

use crate::busy::{first_busy, note};
use crate::chain::Chain;
use crate::opening::{OpenFault, first_chains, first_misfit, first_queues, registered};
use redn_exec::{Landing, land};
use redn_image::Image;
use redn_marks::Marks;
use redn_queue::Queue;
use redn_region::Regions;
use redn_words::{
    Action, Class, MAX_MEMORY, Messages, Obs, QueueRow, RECEIVE_BASE, Receive, Request,
};
use redn_wqe::{class, decode};
use std::alloc::Global;
use std::marker::Model;

/// The bytes of the slot of an index.
pub fn slot_at(memory: &[u8], row: &QueueRow, index: u64) -> [u8; 64]
    requires some { 0 < row.now.slots }
    requires inside { row.now.base + 64 * row.now.slots ≤ length memory.now }
    requires size { length memory.now ≤ MAX_MEMORY }
    ensures { result ≡ slot_of memory.now row.now index }
{
    let at = (row.base + 64 * (index % row.slots)) as usize;
    let mut copy = [0; 64];
    copy.copy_from_slice(&memory[at..at + 64]);
    copy
}

/// Puts some bytes at a place.
fn write_at(memory: &mut [u8], at: u64, bytes: &[u8])
    requires inside { at + length bytes.now ≤ length memory.old }
    requires size { length memory.old ≤ MAX_MEMORY }
    ensures { memory.new ≡ with_bytes_at memory.old at bytes.now }
{
    let at = at as usize;
    memory[at..at + bytes.len()].copy_from_slice(bytes);
}

/// An emulated adapter: the state that its steps have reached, and how many they were.
#[derive(Drop)]
pub struct Adapter {
    pub(crate) regions: Regions,
    pub(crate) receives: Vec<Receive>,
    pub(crate) memory: Vec<u8>,
    pub(crate) queues: Vec<Queue>,
    pub(crate) busy: Marks,
    pub(crate) chains: Vec<Chain>,
    pub(crate) steps: u64,
}

impl Model for Adapter {
    ghost use Rattle.redn_adapter.specs.Running.{Running};

    ghost Value = { Running };

    ghost use Rattle.std.specs.Coded.{codes};
    ghost use Rattle.redn_words.specs.States.{copies_code};

    ghost coded = { Prim.hlevel (codes, copies_code) };

    ghost use Rattle.redn_adapter.specs.AdapterView.{adapter_view, IsAdapter};

    ghost view = { adapter_view };

    ghost invariant = { IsAdapter };
}

fn can_fetch(u: &Queue, index: u64) -> bool
    ensures { result ≡ fetch_possible index u.now }
{
    !u.stopped() && u.head() <= index && index < u.limit() && index - u.head() < u.row().slots
}

fn can_land(u: &Queue, index: u64) -> bool
    ensures { result ≡ land_possible index u.now }
{
    !u.stopped() && u.flying(index).is_some()
}

pub fn can_complete(u: &Queue) -> bool
    ensures { result ≡ complete_possible u.now }
{
    !u.stopped() && u.oldest_landed()
}

impl Adapter {
    ghost use Rattle.std.specs.Option.{option_map, option_copied};
    ghost use Rattle.std.specs.List.{All};
    ghost use Rattle.redn_words.specs.Laws.{row_at};
    ghost use Rattle.redn_words.specs.InOrder.{IsInside};
    ghost use Rattle.redn_adapter.specs.Quiet.{IsQuiet, is_active, has_message};
    ghost use Rattle.redn_adapter.specs.Busy.{HasActive};
    ghost use Rattle.redn_words.specs.Steps.{possible, after, shown, step, start_possible, deliver_possible, class_of, counter_of, may_start, may_raise, refused_start};
    ghost use Rattle.redn_words.specs.declared.types.Action.TheVariants as act;
    ghost use Rattle.redn_adapter.specs.Running.{stepped, next_of, Runs, HeadIsHeld, HasRoom, aside, raised_after, flown_after, started_after, started_shown, CanStart};
    ghost use Rattle.redn_adapter.specs.AdapterView.{IsRing};
    ghost use Rattle.redn_adapter.specs.Keeping.{KeepsShape, LandsRefused};

    /// The steps made since the adapter was opened.
    pub fn steps(&self) -> u64
        ensures { result ≡ self.now.steps }
    {
        self.steps
    }

    /// The bytes of its memory.
    pub fn memory(&self) -> &[u8]
        ensures { result.now ≡ self.now.state.memory }
    {
        &self.memory
    }

    /// How many chains it has. Each queue is one of theirs.
    pub fn chain_count(&self) -> u32
        ensures count { result ≡ length self.now.state.chains }
        ensures places { result ≡ length self.now.state.receives }
        ensures few { result ≤ 16 }
        ensures domains { All (λ u. u.row.domain < result) self.now.state.queues }
    {
        self.chains.len() as u32
    }

    /// How many queues it has.
    pub fn queue_count(&self) -> u32
        ensures count { result ≡ length self.now.state.queues }
        ensures few { result ≤ 65535 }
    {
        self.queues.len() as u32
    }

    /// A queue, by its number.
    pub fn queue(&self, q: u32) -> Option<&Queue>
        ensures { option_copied result ≡ slice_get self.now.state.queues q }
    {
        self.queues.get(q as usize)
    }

    /// A queue's row of the image.
    pub fn row(&self, q: u32) -> Option<&QueueRow>
        ensures { option_copied result ≡ row_at self.now.state.queues q }
    {
        Some(self.queues.get(q as usize)?.row())
    }

    /// Some queues of a chain, in no order. The chain's others have nothing useful to do.
    pub fn busy(&self, chain: u32) -> &[u32]
        ensures { HasActive self.now.state chain result.now }
    {
        self.busy.of(chain)
    }

    /// Whether a chain's message is to come.
    pub fn pending(&self, chain: u32) -> bool
        ensures { result ≡ has_message (slice_get self.now.state.chains chain) }
    {
        match self.chains.get(chain as usize) {
            Some(chain) => chain.pending().is_some(),
            None => false,
        }
    }

    /// Whether an action may be the next one.
    pub fn possible(&self, a: Action) -> bool
        ensures { result ≡ possible self.now.state a }
    {
        match a {
            Action::Deliver { chain } => self.deliver_possible(chain),
            Action::Fetch { queue, index } => self.fetch_possible(queue, index),
            Action::Start { queue } => self.start_possible(queue),
            Action::Land { queue, index } => self.land_possible(queue, index),
            Action::Complete { queue } => self.complete_possible(queue),
        }
    }

    /// Makes one step and tells what it shows, or leaves all as it was where the action isn't
    /// possible.
    pub fn step(&mut self, a: Action) -> Option<Obs>
        requires { self.old.steps < 2 ^ 62 }
        ensures shown { result ≡ option_map (λ p. p.1) (step self.old.state a) }
        ensures after { self.new ≡ stepped self.old (step self.old.state a) }

        // Whatever the image: rows and the length of memory stay, and a refused landing changes no
        // byte of memory.
        ensures keeps { KeepsShape self.old.state self.new.state }
        ensures refused { (q i : ℕ) → a ≡ act.Land q i → LandsRefused self.old.state q i
            → self.new.state.memory ≡ self.old.state.memory }
    {
        self.lies_inside();
        self.make(a)
    }

    /// Regions and messages lie in memory. A call does nothing.
    fn lies_inside(&self)
        ensures { IsInside self.now.state }
    {
        let _ = self.memory.len();
    }

    /// The step by its action.
    fn make(&mut self, a: Action) -> Option<Obs>
        requires { self.old.steps < 2 ^ 62 }
        ensures shown { result ≡ option_map (λ p. p.1) (step self.old.state a) }
        ensures after { self.new ≡ stepped self.old (step self.old.state a) }
    {
        match a {
            Action::Deliver { chain } => self.deliver(chain),
            Action::Fetch { queue, index } => self.fetch(queue, index),
            Action::Start { queue } => self.start(queue),
            Action::Land { queue, index } => self.land(queue, index),
            Action::Complete { queue } => self.complete(queue),
        }
    }

    #[tactic(auto, unfolding(redn_words::specs::Steps::possible))]
    fn fetch_possible(&self, queue: u32, index: u64) -> bool
        ensures { result ≡ possible self.now.state (act.Fetch queue index) }
    {
        match self.queues.get(queue as usize) {
            Some(u) => can_fetch(u, index),
            None => false,
        }
    }

    pub(crate) fn may_deliver(&self, c: usize) -> bool
        ensures { result ≡ deliver_possible (slice_get self.now.state.receives c) (slice_get self.now.state.chains c) }
    {
        match (self.receives.get(c), self.chains.get(c)) {
            (Some(_), Some(chain)) => chain.pending().is_some(),
            _ => false,
        }
    }

    #[tactic(auto, unfolding(redn_words::specs::Steps::possible))]
    fn deliver_possible(&self, chain: u32) -> bool
        ensures { result ≡ possible self.now.state (act.Deliver chain) }
    {
        self.may_deliver(chain as usize)
    }

    #[tactic(auto, unfolding(redn_words::specs::Steps::possible))]
    fn land_possible(&self, queue: u32, index: u64) -> bool
        ensures { result ≡ possible self.now.state (act.Land queue index) }
    {
        match self.queues.get(queue as usize) {
            Some(u) => can_land(u, index),
            None => false,
        }
    }

    #[tactic(auto, unfolding(redn_words::specs::Steps::possible))]
    fn complete_possible(&self, queue: u32) -> bool
        ensures { result ≡ possible self.now.state (act.Complete queue) }
    {
        match self.queues.get(queue as usize) {
            Some(u) => can_complete(u),
            None => false,
        }
    }

    #[tactic(auto, unfolding(redn_words::specs::Steps::possible, redn_words::specs::Steps::after, redn_words::specs::Steps::shown))]
    fn fetch(&mut self, queue: u32, index: u64) -> Option<Obs>
        requires { self.old.steps < 2 ^ 62 }
        ensures shown { result ≡ option_map (λ p. p.1) (step self.old.state (act.Fetch queue index)) }
        ensures after { self.new ≡ stepped self.old (step self.old.state (act.Fetch queue index)) }
    {
        let u = self.queues.get(queue as usize)?;
        if !can_fetch(u, index) {
            return None;
        }
        let copy = slot_at(&self.memory, u.row(), index);
        self.queues[queue as usize].hold(index, &copy);
        self.steps += 1;
        Some(Obs::Nothing)
    }

    #[tactic(auto, unfolding(redn_words::specs::Steps::possible, redn_words::specs::Steps::after, redn_words::specs::Steps::shown))]
    fn complete(&mut self, queue: u32) -> Option<Obs>
        requires { self.old.steps < 2 ^ 62 }
        ensures shown { result ≡ option_map (λ p. p.1) (step self.old.state (act.Complete queue)) }
        ensures after { self.new ≡ stepped self.old (step self.old.state (act.Complete queue)) }
    {
        let u = self.queues.get(queue as usize)?;
        if !can_complete(u) {
            return None;
        }
        let u = &mut self.queues[queue as usize];
        u.complete();
        note(&mut self.busy, queue, u);
        self.steps += 1;
        Some(Obs::Nothing)
    }

    #[tactic(auto, unfolding(redn_words::specs::Steps::possible, redn_words::specs::Steps::after, redn_words::specs::Steps::shown))]
    fn deliver(&mut self, chain: u32) -> Option<Obs>
        requires { self.old.steps < 2 ^ 62 }
        ensures shown { result ≡ option_map (λ p. p.1) (step self.old.state (act.Deliver chain)) }
        ensures after { self.new ≡ stepped self.old (step self.old.state (act.Deliver chain)) }
    {
        let c = chain as usize;
        let base = self.receives.get(c)?.base;
        let bytes = self.chains.get(c)?.pending()?;
        write_at(&mut self.memory, base, bytes);
        self.chains[c].mark_delivered();
        self.steps += 1;
        Some(Obs::Nothing)
    }

    #[tactic(auto, unfolding(redn_words::specs::Steps::possible, redn_words::specs::Steps::after, redn_words::specs::Steps::shown))]
    fn land(&mut self, queue: u32, index: u64) -> Option<Obs>
        requires { self.old.steps < 2 ^ 62 }
        ensures shown { result ≡ option_map (λ p. p.1) (step self.old.state (act.Land queue index)) }
        ensures after { self.new ≡ stepped self.old (step self.old.state (act.Land queue index)) }
    {
        let q = queue as usize;
        let u = self.queues.get(q)?;
        if u.stopped() {
            return None;
        }
        let domain = u.row().domain;
        let r = decode(u.flying(index)?);
        self.steps += 1;
        match land(&mut self.memory, &self.regions, domain, queue, index, &r) {
            Landing::Done(shown) => {
                self.queues[q].mark_landed(index);
                Some(shown)
            }
            Landing::Refused(shown) => {
                self.queues[q].stop();
                Some(shown)
            }
        }
    }
}

/// Opens an image with a message, or none, for each chain: the first state, before any step. A
/// message has as many bytes as its place, else the least chain whose message hasn't is told.
///
/// All memory that an adapter needs is taken here: its later calls take none.
pub fn open(alloc: Global, i: Image, ms: Messages) -> Result<Adapter, OpenFault>
    requires { length ms ≡ length i.receives }
    ensures state { IfOk result (λ a. a ≡ opened i ms) }
    ensures fits { OnOk result (misfits 0 i.receives ms ≡ []) }
    ensures message { (c g w : ℕ) → (result ≡ Err (OpenFault.Message c g w))
        ↔ (slice_get (misfits 0 i.receives ms) 0 ≡ Some (OpenFault.Message c g w)) }
{
    let Image {
        regions,
        queues: rows,
        receives,
        memory,
    } = i;
    let Messages { list } = ms;
    if let Some(fault) = first_misfit(&receives, &list) {
        return Err(fault);
    }
    let regions = registered(alloc, regions)?;
    let queues = first_queues(alloc, &rows)?;
    let chains = first_chains(alloc, list)?;
    let busy = first_busy(alloc, chains.len() as u32, &queues)?;
    Ok(Adapter {
        regions,
        receives,
        memory,
        queues,
        busy,
        chains,
        steps: 0,
    })
}

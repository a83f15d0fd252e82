ghost use Rattle.std.specs.Prelude.{◌≡◌, ◌+◌, ◌-◌, ◌%◌, ◌^◌, ◌<◌, ◌≤◌, length, true, false, IsSome, slice_get};
ghost use Rattle.std.specs.Option.{option_map};
ghost use Rattle.std.specs.FinMap as finite;
ghost use Rattle.redn_words.specs.Steps.{possible, step, start_possible, counter_of, may_start, may_raise, refused_start, past_head, flown};
ghost use Rattle.redn_words.specs.declared.types.Action.TheVariants as act;
ghost use Rattle.redn_adapter.specs.Running.{stepped, stopped_if, Runs, HeadIsHeld, HasRoom, aside, raised_after, flown_after, started_after, started_shown, CanStart};

use crate::adapter::{Adapter, slot_at};
use crate::busy::note;
use redn_queue::Queue;
use redn_words::{Class, Obs, RECEIVE_BASE, Request};
use redn_wqe::{class, decode};

/// The copy of head goes into flight.
fn launch(u: &mut Queue, copy: [u8; 64])
    requires runs { u.old.stopped ≡ false }
    requires held { IsSome (finite.get u.old.held u.old.head) }
    requires room { length u.old.flights < u.old.row.slots }
    ensures { u.new ≡ flown (past_head u.old) u.old.head copy }
{
    let index = u.head();
    u.take_head();
    u.fly(index, copy);
}

/// The copy of head leaves, and the queue may stop at it.
fn pass(u: &mut Queue, stops: bool)
    requires runs { u.old.stopped ≡ false }
    requires held { IsSome (finite.get u.old.held u.old.head) }
    ensures { u.new ≡ stopped_if stops u.old }
{
    u.take_head();
    if stops {
        u.stop();
    }
}

impl Adapter {
    #[tactic(auto, unfolding(redn_words::specs::Steps::counter_of))]
    fn counter(&self, domain: u16, number: u64) -> Option<u64>
        ensures { result ≡ counter_of self.now.state domain number }
    {
        if number < RECEIVE_BASE {
            match self.queues.get(number as usize) {
                Some(u) if u.row().domain == domain => Some(u.counter()),
                _ => None,
            }
        } else if number - RECEIVE_BASE == domain as u64 {
            match self.chains.get(domain as usize) {
                Some(chain) => Some(chain.received()),
                None => None,
            }
        } else {
            None
        }
    }

    #[tactic(auto, unfolding(redn_words::specs::Steps::may_start))]
    fn may_start(&self, u: &Queue, r: &Request, class: Class) -> bool
        ensures { result ≡ may_start self.now.state u.now r.now class }
    {
        match class {
            Class::Flies => u.flights() < u.row().slots,
            Class::Passes => match self.counter(u.row().domain, r.first) {
                Some(count) => r.second <= count,
                None => true,
            },
            Class::Raises | Class::Undefined => true,
        }
    }

    pub(crate) fn can_start(&self, u: &Queue) -> bool
        ensures { result ≡ start_possible self.now.state u.now }
    {
        if u.stopped() {
            return false;
        }
        let Some(copy) = u.held(u.head()) else {
            return false;
        };
        let r = decode(copy);
        self.may_start(u, &r, class(&r))
    }

    #[tactic(auto, unfolding(redn_words::specs::Steps::possible))]
    pub(crate) fn start_possible(&self, queue: u32) -> bool
        ensures { result ≡ possible self.now.state (act.Start queue) }
    {
        match self.queues.get(queue as usize) {
            Some(u) => self.can_start(u),
            None => false,
        }
    }

    fn may_raise(&self, domain: u16, number: u64) -> bool
        ensures { result ≡ may_raise domain (slice_get self.now.state.queues number) }
    {
        match self.queues.get(number as usize) {
            Some(u) => u.row().managed && u.row().domain == domain,
            None => false,
        }
    }

    /// The head of a queue starts, and the queue may stop at it.
    fn start_aside(&mut self, queue: u32, stops: bool)
        requires here { queue < length self.old.state.queues }
        requires runs { Runs (slice_get self.old.state.queues queue) }
        requires held { HeadIsHeld (slice_get self.old.state.queues queue) }
        requires few { self.old.steps < 2 ^ 62 }
        ensures { self.new ≡ aside self.old queue stops }
    {
        let u = &mut self.queues[queue as usize];
        pass(u, stops);
        note(&mut self.busy, queue, u);
        self.steps += 1;
    }

    /// The head of a queue starts and raises another queue's limit.
    fn start_enable(&mut self, queue: u32, number: u64, limit: u64)
        requires here { queue < length self.old.state.queues }
        requires there { number < length self.old.state.queues }
        requires runs { Runs (slice_get self.old.state.queues queue) }
        requires held { HeadIsHeld (slice_get self.old.state.queues queue) }
        requires few { self.old.steps < 2 ^ 62 }
        ensures { self.new ≡ raised_after self.old queue number limit }
    {
        let u = &mut self.queues[queue as usize];
        u.take_head();
        note(&mut self.busy, queue, u);
        let raised = &mut self.queues[number as usize];
        raised.raise(limit);
        note(&mut self.busy, number as u32, raised);
        self.steps += 1;
    }

    /// The head of a queue goes into flight.
    fn start_flight(&mut self, queue: u32, copy: [u8; 64])
        requires here { queue < length self.old.state.queues }
        requires runs { Runs (slice_get self.old.state.queues queue) }
        requires held { HeadIsHeld (slice_get self.old.state.queues queue) }
        requires room { HasRoom (slice_get self.old.state.queues queue) }
        requires few { self.old.steps < 2 ^ 62 }
        ensures { self.new ≡ flown_after self.old queue copy }
    {
        launch(&mut self.queues[queue as usize], copy);
        self.steps += 1;
    }

    /// Whether a start names a counter or a queue that its domain may not.
    fn refuses(&self, domain: u16, r: &Request, class: Class) -> bool
        ensures { result ≡ refused_start self.now.state domain r.now class }
    {
        match class {
            Class::Passes => self.counter(domain, r.first).is_none(),
            Class::Raises => !self.may_raise(domain, r.first),
            Class::Flies | Class::Undefined => false,
        }
    }

    /// What the start of a copy of a queue's head shows.
    fn start_shown(&self, queue: u32, copy: &[u8; 64], r: &Request, class: Class) -> Obs
        requires { queue < length self.now.state.queues }
        ensures { result ≡ started_shown self.now.state queue copy.now r.now class }
    {
        let u = &self.queues[queue as usize];
        let (row, index) = (u.row(), u.head());
        if *copy != slot_at(&self.memory, row, index) {
            return Obs::Stale { queue, index };
        }
        if class == Class::Undefined {
            return Obs::Undefined { queue, index };
        }
        if self.refuses(row.domain, r, class) {
            return Obs::Refused { queue, index };
        }
        Obs::Nothing
    }

    /// The head of a queue starts, of which this is the copy.
    #[tactic(auto, unfolding(redn_words::specs::Steps::started, redn_words::specs::Steps::may_start))]
    fn leave(&mut self, queue: u32, copy: [u8; 64], r: &Request, class: Class)
        requires here { queue < length self.old.state.queues }
        requires runs { Runs (slice_get self.old.state.queues queue) }
        requires held { HeadIsHeld (slice_get self.old.state.queues queue) }
        requires can { CanStart self.old.state queue r.now class }
        requires few { self.old.steps < 2 ^ 62 }
        ensures { self.new ≡ started_after self.old queue copy r.now class }
    {
        let domain = self.queues[queue as usize].row().domain;
        let stops = self.refuses(domain, r, class);
        match class {
            Class::Flies => self.start_flight(queue, copy),
            Class::Raises if !stops => self.start_enable(queue, r.first, r.second),
            Class::Passes | Class::Raises => self.start_aside(queue, stops),
            Class::Undefined => self.start_aside(queue, true),
        }
    }

    #[tactic(auto, unfolding(redn_words::specs::Steps::possible))]
    pub(crate) fn start(&mut self, queue: u32) -> Option<Obs>
        requires { self.old.steps < 2 ^ 62 }
        ensures shown { result ≡ option_map (λ p. p.1) (step self.old.state (act.Start queue)) }
        ensures after { self.new ≡ stepped self.old (step self.old.state (act.Start queue)) }
    {
        let u = self.queues.get(queue as usize)?;
        if u.stopped() {
            return None;
        }
        let held = u.held(u.head())?;
        let r = decode(held);
        let class = class(&r);
        if !self.may_start(u, &r, class) {
            return None;
        }
        let shown = self.start_shown(queue, held, &r, class);
        let copy = *held;
        self.leave(queue, copy, &r, class);
        Some(shown)
    }
}

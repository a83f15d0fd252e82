ghost use Rattle.std.specs.Prelude.{◌≡◌, ◌↔◌, ◌+◌, ◌-◌, ◌<◌, ◌≤◌, ◌&&◌, nat_le, nat_lt, ℕ, suc, true, length, None, IfOk, IfSome, slice_get};
ghost use Rattle.std.specs.Option.{option_map};
ghost use Rattle.std.specs.List.{find, range_with_len};
ghost use Rattle.redn_words.specs.Steps.{after, is_useful, possible};
ghost use Rattle.redn_words.specs.declared.types.Action.{Action};
ghost use Rattle.redn_adapter.specs.Quiet.{IsQuiet};
ghost use Rattle.redn_sched.specs.MadeView.{moved, followed_by};
ghost use Rattle.redn_sched.specs.ChainTurns.{IsTurnOf};
ghost use Rattle.redn_sched.specs.MadeSchedules.{cyclically, first_cursors, chain_acts, fair_next, fair_from};

use crate::turns::{Turn, chain_turn, first_cursors};
use redn_adapter::Adapter;
use redn_words::{Action, Memory};
use std::alloc::Global;
use std::marker::Model;

/// The fair schedule of an adapter: chains in turn, and of each chain one queue until that queue
/// has nothing useful to do.
#[derive(Drop)]
pub struct Fair {
    /// The number from which on the next chain is looked for.
    chain: u32,
    /// Of each chain the number from which on its next queue is.
    queues: Vec<u32>,
}

impl Model for Fair {
    ghost use Rattle.redn_sched.specs.MadeSchedules.{Cursors};

    ghost Value = { Cursors };

    ghost use Rattle.redn_sched.specs.MadeView.{fair_view, IsFair};

    ghost view = { fair_view };

    ghost invariant = { IsFair };
}

impl Fair {
    /// The schedule before its first action.
    pub fn new(alloc: Global, a: &Adapter) -> Result<Self, Memory>
        ensures { IfOk result (λ f. f ≡ first_cursors a.now.state) }
    {
        let queues = first_cursors(alloc, a)?;
        Ok(Fair { chain: 0, queues })
    }

    /// The first of some chains that may be taken, and what it does.
    fn first_acting(&self, a: &Adapter, from: u32, to: u32) -> Option<(u32, Turn)>
        requires there { to ≤ length self.now.queues }
        ensures chain { option_map (λ p. p.0) result ≡ find (chain_acts a.now.state) (range_with_len from (to - from)) }
        ensures turn { IsTurnOf a.now.state self.now.queues result }
        ensures below { IfSome result (λ p. p.0 < to) }
    {
        for chain in from..to {
            if let Some(turn) = chain_turn(a, chain, self.queues[chain as usize]) {
                return Some((chain, turn));
            }
        }
        None
    }

    /// The first chain from the cursor on, and then from the least on, that may be taken, and what it does.
    fn acting_chain(&self, a: &Adapter, count: u32) -> Option<(u32, Turn)>
        requires many { length self.now.queues ≡ length a.now.state.chains }
        requires count { count ≡ length a.now.state.chains }
        ensures chain { option_map (λ p. p.0) result ≡ find (chain_acts a.now.state)
            (cyclically self.now.chain (range_with_len 0 (length a.now.state.chains))) }
        ensures turn { IsTurnOf a.now.state self.now.queues result }
        ensures there { IfSome result (λ p. p.0 < length a.now.state.chains) }
    {
        match self.first_acting(a, self.chain, count) {
            Some(found) => Some(found),
            None => self.first_acting(a, 0, self.chain),
        }
    }

    /// The next action of an adapter with so many chains. Nothing changes where there is none.
    fn take(&mut self, a: &Adapter, count: u32) -> Option<Action>
        requires many { length self.old.queues ≡ length a.now.state.chains }
        requires count { count ≡ length a.now.state.chains }
        ensures action { result ≡ option_map (λ p. p.0) (fair_next a.now.state self.old) }
        ensures cursors { self.new ≡ moved self.old (fair_next a.now.state self.old) }
    {
        let (chain, turn) = self.acting_chain(a, count)?;
        self.chain = chain + 1;
        self.queues[chain as usize] = turn.cursor;
        Some(turn.action)
    }

    /// The next action, or none where no useful action is possible. The adapter is the one that the
    /// schedule was made for, or one with as many chains. Takes no memory.
    pub fn next_fair(&mut self, a: &Adapter) -> Option<Action>
        requires { length self.old.queues ≡ length a.now.state.chains }
        ensures action { result ≡ option_map (λ p. p.0) (fair_next a.now.state self.old) }
        ensures cursors { self.new ≡ moved self.old (fair_next a.now.state self.old) }
        ensures possible { IfSome result (λ act. possible a.now.state act ≡ true) }
        ensures useful { IfSome result (λ act. is_useful a.now.state act ≡ true) }
        ensures quiet { (result ≡ None) ↔ IsQuiet a.now.state }
        ensures list { (n : ℕ) → fair_from (suc n) a.now.state self.old
            ≡ followed_by result (λ act. fair_from n (after a.now.state act) self.new) }
        ensures stays { (act : Action) → length self.new.queues ≡ length (after a.now.state act).chains }
    {
        self.take(a, a.chain_count())
    }
}

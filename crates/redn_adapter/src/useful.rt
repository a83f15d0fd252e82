ghost use Rattle.std.specs.Prelude.{◌≡◌, ◌↔◌, ◌<◌, ℕ, length, true, false, slice_get};
ghost use Rattle.std.specs.List.{All};
ghost use Rattle.redn_words.specs.Steps.{possible};
ghost use Rattle.redn_words.specs.declared.types.Action.TheVariants as act;
ghost use Rattle.redn_adapter.specs.Quiet.{IsQuiet, is_active};

use crate::adapter::{Adapter, can_complete};
use redn_queue::Queue;

impl Adapter {
    /// Whether no useful action is possible: nothing is left to do but to fetch again what is held.
    pub fn quiet(&self) -> bool
        ensures { (result ≡ true) ↔ IsQuiet self.now.state }
    {
        self.delivers_none() && self.all_idle()
    }

    /// Whether no chain's message may be delivered.
    fn delivers_none(&self) -> bool
        ensures { (result ≡ true) ↔ ((c : ℕ) → possible self.now.state (act.Deliver c) ≡ false) }
    {
        for c in 0..self.chains.len() {
            if self.may_deliver(c) {
                return false;
            }
        }
        true
    }

    /// Whether no queue has a useful action that is possible.
    fn all_idle(&self) -> bool
        ensures { (result ≡ true) ↔ All (λ u. is_active self.now.state u ≡ false) self.now.state.queues }
    {
        for u in &self.queues {
            if self.is_active(u) {
                return false;
            }
        }
        true
    }

    /// Whether a queue has a useful action that is possible.
    fn is_active(&self, u: &Queue) -> bool
        ensures { result ≡ is_active self.now.state u.now }
    {
        can_complete(u)
            || !u.stopped() && u.oldest_unlanded().is_some()
            || self.can_start(u)
            || u.least_unheld().is_some()
    }
}

ghost use Rattle.std.specs.Prelude.{◌≡◌, ◌↔◌, ℕ, suc, true, length, None, IfOk, IfSome, All, ◌<◌, map};
ghost use Rattle.std.specs.Option.{option_map};
ghost use Rattle.redn_words.specs.Steps.{after, possible};
ghost use Rattle.redn_words.specs.declared.types.Action.{Action};
ghost use Rattle.redn_adapter.specs.Quiet.{IsQuiet};
ghost use Rattle.redn_sched.specs.MadeView.{followed_by};
ghost use Rattle.redn_sched.specs.Shuffles.{behind, drawn, acting, first_shuffling, shuffled_next, shuffled_from};
ghost use Rattle.redn_sched.specs.ShuffleView.{shuffled_on};

use crate::choices::Choices;
use crate::turns::{active_queue, chain_acts, first_cursors};
use arrayvec::ArrayVec;
use redn_adapter::Adapter;
use redn_words::{Action, Memory};
use std::alloc::Global;
use std::marker::Model;

/// The shuffled schedule of an adapter: a chain is drawn of those that may be taken, and then one of
/// its actions that are possible.
#[derive(Drop)]
pub struct Shuffle {
    z: u64,
    /// Of each chain the number from which on its next queue is looked for.
    queues: Vec<u32>,
}

impl Model for Shuffle {
    ghost use Rattle.redn_sched.specs.Shuffles.{Shuffling};

    ghost Value = { Shuffling };

    ghost use Rattle.redn_sched.specs.ShuffleView.{shuffle_view};

    ghost view = { shuffle_view };
}

/// The number behind z.
#[tactic(auto, unfolding(crate::specs::Shuffles::behind))]
fn behind(z: u64) -> u64
    ensures { result ≡ behind z }
{
    z.wrapping_mul(6364136223846793005)
        .wrapping_add(1442695040888963407)
}

/// What z draws from a list, or none from an empty one.
fn drawn<T: Copy>(z: u64, list: &[T]) -> Option<T>
    ensures { result ≡ drawn z list.now }
{
    if list.is_empty() {
        return None;
    }
    let place = (behind(z) >> 33) as usize % list.len();
    Some(list[place])
}

/// The chains that may be taken, by rising number.
fn acting_chains(a: &Adapter) -> ArrayVec<u32, 16>
    ensures chains { result.items ≡ acting a.now.state }
    ensures domains { All (λ u. u.row.domain < length a.now.state.chains) a.now.state.queues }
{
    let mut chains = ArrayVec::new();
    for chain in 0..a.chain_count() {
        if chain_acts(a, chain) {
            chains.push(chain);
        }
    }
    chains
}

impl Shuffle {
    /// The schedule of a number before its first action.
    pub fn new(alloc: Global, a: &Adapter, number: u64) -> Result<Self, Memory>
        ensures { IfOk result (λ f. f ≡ first_shuffling a.now.state number) }
    {
        let queues = first_cursors(alloc, a)?;
        Ok(Shuffle { z: number, queues })
    }

    /// The next action. Nothing changes where there is none.
    fn take(&mut self, a: &Adapter) -> Option<Action>
        requires { length self.old.queues ≡ length a.now.state.chains }
        ensures action { result ≡ option_map (λ p. p.0) (shuffled_next a.now.state self.old) }
        ensures now { self.new ≡ shuffled_on self.old (shuffled_next a.now.state self.old) }
        ensures domains { All (λ u. u.row.domain < length a.now.state.chains) a.now.state.queues }
    {
        let chains = acting_chains(a);
        let chain = drawn(self.z, chains.as_slice())?;
        let queue = active_queue(a, chain, self.queues[chain as usize]);
        let z = behind(self.z);
        let choices = Choices::of(a, chain, queue);
        let action = drawn(z, choices.as_slice())?;
        self.z = behind(z);
        if let Some(queue) = queue {
            self.queues[chain as usize] = queue;
        }
        Some(action)
    }

    /// The next action, or none where no useful action is possible. The adapter is the one that the
    /// schedule was made for, or one with as many chains. Takes no memory.
    pub fn next_shuffled(&mut self, a: &Adapter) -> Option<Action>
        requires { length self.old.queues ≡ length a.now.state.chains }
        ensures action { result ≡ option_map (λ p. p.0) (shuffled_next a.now.state self.old) }
        ensures now { self.new ≡ shuffled_on self.old (shuffled_next a.now.state self.old) }
        ensures possible { IfSome result (λ act. possible a.now.state act ≡ true) }
        ensures quiet { (result ≡ None) ↔ IsQuiet a.now.state }
        ensures list { (n : ℕ) → shuffled_from (suc n) a.now.state self.old
            ≡ followed_by result (λ act. shuffled_from n (after a.now.state act) self.new) }
        ensures stays { (act : Action) → length self.new.queues ≡ length (after a.now.state act).chains }
    {
        self.take(a)
    }
}

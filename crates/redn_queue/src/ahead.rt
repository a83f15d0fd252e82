ghost use Rattle.std.specs.Prelude.{◌≡◌, ◌+◌, ◌-◌, ◌^◌, ◌<◌, ◌≤◌, ◌&&◌, ℕ, Bool, length, max, IsSome, IfSome, IfOk, Some, None, nat_lt, replicate, reverse, ◌++◌, true, false};
ghost use Rattle.std.specs.VecDeque.{deque_capacity, deque_len};
ghost use Rattle.std.specs.Option.{option_map};
ghost use Rattle.std.specs.Borrow.{Bor};
ghost use Rattle.std.specs.List.{All, find, range_with_len};
ghost use Rattle.std.specs.FinMap as finite;
ghost use Rattle.redn_queue.specs.Pools.{copies_in};
ghost use Rattle.redn_queue.specs.Covers.{Covers, FirstPasses, LastPasses};
ghost use Rattle.redn_queue.specs.Windows.{empty_window, lacks, is_held};

use std::alloc::{AllocError, Global};
use std::collections::VecDeque;
use std::marker::Model;

/// The held copies of a ring's indexes from head on.
#[derive(Drop)]
pub struct Ahead {
    head: u64,
    // Place k has the copy of index head + k.
    places: VecDeque<Option<[u8; 64]>>,
    // No index from this one on was ever held.
    untouched: u64,
    // Rising indexes below it, among which are all that aren't held. The first and the last aren't.
    gaps: VecDeque<u64>,
}

impl Model for Ahead {
    ghost use Rattle.redn_queue.specs.Windows.{Window};

    ghost Value = { Window };

    ghost use Rattle.std.specs.Coded.{codes};
    ghost use Rattle.redn_words.specs.States.{copies_code};

    ghost coded = { Prim.hlevel (codes, copies_code) };

    ghost use Rattle.redn_queue.specs.AheadView.{ahead_view, IsWindow};

    ghost view = { ahead_view };

    ghost invariant = { IsWindow };
}

impl Ahead {
    /// No copies, with places for so many.
    pub fn new(alloc: Global, slots: usize) -> Result<Self, AllocError>
        ensures { IfOk result (λ a. a ≡ empty_window slots) }
    {
        let places = empty_places(alloc, slots)?;
        let gaps = VecDeque::with_capacity(alloc, slots)?;
        Ok(Ahead {
            head: 0,
            places,
            untouched: 0,
            gaps,
        })
    }

    pub fn head(&self) -> u64
        ensures { result ≡ self.now.head }
    {
        self.head
    }

    /// The held copy of an index.
    pub fn get(&self, index: u64) -> Option<&[u8; 64]>
        ensures { option_map (λ copy. copy.now) result ≡ finite.get self.now.copies index }
    {
        if index < self.head {
            return None;
        }
        self.places.get((index - self.head) as usize)?.as_ref()
    }

    /// The held copy of the index is this one from now on.
    pub fn hold(&mut self, index: u64, copy: &[u8; 64])
        requires from_head { self.old.head ≤ index }
        requires within { index < self.old.head + self.old.slots }
        requires room { index < 2 ^ 64 - 1 }
        ensures { self.new ≡ record self.old { untouched = max self.old.untouched (index + 1); copies = finite.insert self.old.copies index copy.now } }
    {
        let place = (index - self.head) as usize;
        self.places[place] = Some(*copy);
        link(&mut self.gaps, self.untouched, index);
        self.untouched = self.untouched.max(index + 1);
        drop_first_held(&mut self.gaps, self.head, &self.places);
        drop_last_held(&mut self.gaps, self.head, &self.places);
    }

    /// The copy of head, which leaves.
    pub fn take(&mut self) -> [u8; 64]
        requires { IsSome (finite.get self.old.copies self.old.head) }
        ensures copy { finite.get self.old.copies self.old.head ≡ Some result }
        ensures left { self.new ≡ record self.old { head = self.old.head + 1; copies = finite.remove self.old.copies self.old.head } }
    {
        let Some(copy) = self.places[0] else {
            unreachable!()
        };
        self.places[0] = None;
        self.places.rotate_left(1);
        self.head += 1;
        copy
    }

    /// The least index from head on that isn't held, be it beyond the places.
    fn least_gap(&self) -> u64
        ensures low { self.now.head ≤ result }
        ensures held { (i : ℕ) → self.now.head ≤ i → i < result → lacks self.now.copies i ≡ false }
        ensures gap { lacks self.now.copies result ≡ true }
    {
        match self.gaps.front() {
            Some(index) => *index,
            None => self.untouched,
        }
    }

    /// The least index below a limit that has a place and isn't held.
    pub fn least(&self, limit: u64) -> Option<u64>
        ensures { result ≡ find (λ i. nat_lt i limit && lacks self.now.copies i) (range_with_len self.now.head self.now.slots) }
    {
        let index = self.least_gap();
        if index < limit && index - self.head < self.places.len() as u64 {
            Some(index)
        } else {
            None
        }
    }

    /// The greatest one.
    pub fn greatest(&self, limit: u64) -> Option<u64>
        requires { self.now.untouched ≤ limit }
        ensures { result ≡ find (λ i. nat_lt i limit && lacks self.now.copies i) (reverse (range_with_len self.now.head self.now.slots)) }
    {
        let end = limit.min(self.head.saturating_add(self.places.len() as u64));
        if self.untouched < end {
            return Some(end - 1);
        }
        self.gaps.back().copied()
    }
}

/// Adds the numbers of a range, if it has any.
fn link(gaps: &mut VecDeque<u64>, from: u64, to: u64)
    requires room { length gaps.old.items + (to - from) ≤ deque_capacity gaps.old }
    ensures covers { (test : ℕ → Bool) (low : ℕ) → low ≤ from → Covers test low from gaps.old.items
        → Covers test low (max from to) gaps.new.items }
    ensures capacity { deque_capacity gaps.new ≡ deque_capacity gaps.old }
{
    for index in from..to {
        gaps.push_back_reserved(index);
    }
}

/// Whether a copy is held of an index, if there is one.
fn is_filled(index: Option<&u64>, head: u64, places: &VecDeque<Option<[u8; 64]>>) -> bool
    requires low { IfSome index (λ i. head ≤ i.now) }
    requires high { IfSome index (λ i. i.now < head + length places.now.items) }
    ensures { result ≡ is_held (copies_in head places.now.items) (option_map (λ (i : Bor ℕ). i.now) index.entry) }
{
    match index {
        Some(index) => places[(*index - head) as usize].is_some(),
        None => false,
    }
}

/// Held indexes leave from the front.
fn drop_first_held(gaps: &mut VecDeque<u64>, head: u64, places: &VecDeque<Option<[u8; 64]>>)
    requires low { All (λ i. head ≤ i) gaps.old.items }
    requires high { All (λ i. i < head + length places.now.items) gaps.old.items }
    ensures covers { (low high : ℕ) → Covers (lacks (copies_in head places.now.items)) low high gaps.old.items
        → Covers (lacks (copies_in head places.now.items)) low high gaps.new.items }
    ensures first { FirstPasses (lacks (copies_in head places.now.items)) gaps.new.items }
    ensures capacity { deque_capacity gaps.new ≡ deque_capacity gaps.old }
{
    while is_filled(gaps.front(), head, places) {
        gaps.pop_front();
    }
}

/// Held indexes leave from the back.
fn drop_last_held(gaps: &mut VecDeque<u64>, head: u64, places: &VecDeque<Option<[u8; 64]>>)
    requires low { All (λ i. head ≤ i) gaps.old.items }
    requires high { All (λ i. i < head + length places.now.items) gaps.old.items }
    requires first { FirstPasses (lacks (copies_in head places.now.items)) gaps.old.items }
    ensures covers { (low high : ℕ) → Covers (lacks (copies_in head places.now.items)) low high gaps.old.items
        → Covers (lacks (copies_in head places.now.items)) low high gaps.new.items }
    ensures first { FirstPasses (lacks (copies_in head places.now.items)) gaps.new.items }
    ensures last { LastPasses (lacks (copies_in head places.now.items)) gaps.new.items }
    ensures capacity { deque_capacity gaps.new ≡ deque_capacity gaps.old }
{
    while is_filled(gaps.back(), head, places) {
        gaps.pop_back();
    }
}

fn empty_places(alloc: Global, count: usize) -> Result<VecDeque<Option<[u8; 64]>>, AllocError>
    ensures { IfOk result (λ q. q.items ≡ replicate count None) }
{
    let mut places = VecDeque::with_capacity(alloc, count)?;
    for _ in 0..count {
        places.push_back(None)?;
    }
    Ok(places)
}

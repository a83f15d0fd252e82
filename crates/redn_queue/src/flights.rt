ghost use Rattle.std.specs.Prelude.{◌≡◌, ◌≢◌, ◌+◌, ◌-◌, ◌%◌, ◌^◌, ◌<◌, ◌≤◌, ◌&&◌, ◌==◌, ◌∷◌, ◌++◌, [], ℕ, length, map, not, true, false, IsSome, IfSome, IfOk, OnErr, MatchOption, Some, None, slice_get, reverse};
ghost use Rattle.std.specs.VecDeque.{deque_capacity};
ghost use Rattle.std.specs.Option.{option_map, option_copied};
ghost use Rattle.std.specs.Borrow.{Bor};
ghost use Rattle.std.specs.List.{All, find, position};
ghost use Rattle.redn_words.specs.Steps.{flying_in, with_landed, is_landed};
ghost use Rattle.redn_words.specs.InOrder.{IsRising, AllBelow};
ghost use Rattle.redn_queue.specs.Places.{StandsAt};
ghost use Rattle.redn_queue.specs.Covers.{Covers, FirstPasses, LastPasses};
ghost use Rattle.redn_queue.specs.InFlight.{place_from, waits_at, is_over, IsOldest, IsNewest, AllLanded};
ghost use Rattle.redn_queue.specs.Telling.{is_unlanded};

use redn_words::Flight;
use std::alloc::{AllocError, Global};
use std::collections::VecDeque;
use std::marker::Model;

/// The requests in flight, the oldest first.
#[derive(Drop)]
pub struct Flights {
    list: VecDeque<Flight>,
    // Requests are numbered as they fly, modulo 2^64. The oldest one, or else the next, has this
    // number.
    first: u64,
    // Rising numbers, among which are those of all that are unlanded. The first and the last are
    // of such.
    unlanded: VecDeque<u64>,
}

impl Model for Flights {
    ghost use Rattle.redn_queue.specs.InFlight.{InFlight};

    ghost Value = { InFlight };

    ghost use Rattle.redn_queue.specs.FlightsView.{flights_view, IsInFlight};

    ghost view = { flights_view };

    ghost invariant = { IsInFlight };
}

impl Flights {
    /// None, with room for so many.
    pub fn new(alloc: Global, room: usize) -> Result<Self, AllocError>
        ensures { IfOk result (λ f. f ≡ record { room = room; list = [] }) }
    {
        let list = VecDeque::with_capacity(alloc, room)?;
        let unlanded = VecDeque::with_capacity(alloc, room)?;
        Ok(Flights {
            list,
            first: 0,
            unlanded,
        })
    }

    pub fn len(&self) -> u64
        ensures { result ≡ length self.now.list }
    {
        self.list.len() as u64
    }

    /// Whether there is an oldest one, and it has landed.
    pub fn oldest_landed(&self) -> bool
        ensures { result ≡ is_landed (slice_get self.now.list 0) }
    {
        match self.list.front() {
            Some(flight) => flight.landed,
            None => false,
        }
    }

    /// A request goes into flight, last.
    pub fn push(&mut self, index: u64, copy: [u8; 64])
        requires room { length self.old.list < self.old.room }
        requires last { AllBelow index self.old.list }
        ensures { self.new ≡ record self.old { list = self.old.list ++ record { index = index; copy = copy; landed = false } ∷ [] } }
    {
        let number = self.first.wrapping_add(self.list.len() as u64);
        self.unlanded.push_back_reserved(number);
        self.list.push_back_reserved(Flight {
            index,
            copy,
            landed: false,
        });
    }

    /// The oldest one, which has landed, leaves.
    pub fn pop(&mut self) -> Flight
        requires { is_landed (slice_get self.old.list 0) ≡ true }
        ensures first { self.old.list ≡ result ∷ self.new.list }
        ensures room { self.new.room ≡ self.old.room }
    {
        let Some(flight) = self.list.pop_front() else {
            unreachable!()
        };
        self.first = self.first.wrapping_add(1);
        flight
    }

    /// The place of the oldest unlanded one.
    fn oldest_place(&self) -> Option<usize>
        ensures { MatchOption result (AllLanded self.now.list) (IsOldest self.now.list) }
    {
        let number = self.unlanded.front()?;
        Some(number.wrapping_sub(self.first) as usize)
    }

    /// The place of the newest unlanded one.
    fn newest_place(&self) -> Option<usize>
        ensures { MatchOption result (AllLanded self.now.list) (IsNewest self.now.list) }
    {
        let number = self.unlanded.back()?;
        Some(number.wrapping_sub(self.first) as usize)
    }

    /// The index of the oldest unlanded one.
    pub fn oldest_unlanded(&self) -> Option<u64>
        ensures { result ≡ option_map (λ f. f.index) (find is_unlanded self.now.list) }
    {
        let place = self.oldest_place()?;
        Some(self.list[place].index)
    }

    /// The index of the newest unlanded one.
    pub fn newest_unlanded(&self) -> Option<u64>
        ensures { result ≡ option_map (λ f. f.index) (find is_unlanded (reverse self.now.list)) }
    {
        let place = self.newest_place()?;
        Some(self.list[place].index)
    }

    /// Whether this is the place of the unlanded request of the index.
    fn flies_at(&self, index: u64, place: Option<usize>) -> bool
        requires { IfSome place (λ k. (k < length self.now.list) × (waits_at self.now.list k ≡ true)) }
        ensures { result ≡ true → place ≡ position (λ f. f.index == index && not f.landed) self.now.list }
    {
        match place {
            Some(place) => self.list[place].index == index,
            None => false,
        }
    }

    /// The place of the unlanded request of an index: mostly the oldest one, or the newest.
    fn place_of(&self, index: u64) -> Option<usize>
        ensures { result ≡ position (λ f. f.index == index && not f.landed) self.now.list }
    {
        let oldest = self.oldest_place();
        if self.flies_at(index, oldest) {
            return oldest;
        }
        let newest = self.newest_place();
        if self.flies_at(index, newest) {
            return newest;
        }
        unlanded_place(&self.list, index)
    }

    /// The copy of the unlanded request of an index.
    pub fn get(&self, index: u64) -> Option<&[u8; 64]>
        ensures { option_copied result ≡ option_map (λ f. f.copy) (flying_in index self.now.list) }
    {
        let place = self.place_of(index)?;
        Some(&self.list[place].copy)
    }

    /// The unlanded request of the index has landed.
    pub fn mark_landed(&mut self, index: u64)
        requires { IsSome (flying_in index self.old.list) }
        ensures { self.new ≡ record self.old { list = with_landed index self.old.list } }
    {
        let Some(place) = self.place_of(index) else {
            unreachable!()
        };
        self.list[place].landed = true;
        drop_first_landed(&mut self.unlanded, self.first, &self.list);
        drop_last_landed(&mut self.unlanded, self.first, &self.list);
    }
}

/// Whether the request of a number, if there is one, has landed.
fn has_landed(number: Option<&u64>, first: u64, list: &VecDeque<Flight>) -> bool
    requires { IfSome number (λ n. place_from first n.now < length list.now.items) }
    ensures { result ≡ is_over list.now.items first (option_map (λ (n : Bor ℕ). n.now) number.entry) }
{
    match number {
        Some(number) => list[number.wrapping_sub(first) as usize].landed,
        None => false,
    }
}

/// Numbers of requests that have landed leave from the front.
fn drop_first_landed(unlanded: &mut VecDeque<u64>, first: u64, list: &VecDeque<Flight>)
    requires { All (λ k. k < length list.now.items) (map (place_from first) unlanded.old.items) }
    ensures covers { (high : ℕ) → Covers (waits_at list.now.items) 0 high (map (place_from first) unlanded.old.items)
        → Covers (waits_at list.now.items) 0 high (map (place_from first) unlanded.new.items) }
    ensures oldest { FirstPasses (waits_at list.now.items) (map (place_from first) unlanded.new.items) }
    ensures capacity { deque_capacity unlanded.new ≡ deque_capacity unlanded.old }
{
    while has_landed(unlanded.front(), first, list) {
        unlanded.pop_front();
    }
}

/// Numbers of requests that have landed leave from the back.
fn drop_last_landed(unlanded: &mut VecDeque<u64>, first: u64, list: &VecDeque<Flight>)
    requires below { All (λ k. k < length list.now.items) (map (place_from first) unlanded.old.items) }
    requires oldest { FirstPasses (waits_at list.now.items) (map (place_from first) unlanded.old.items) }
    ensures covers { (high : ℕ) → Covers (waits_at list.now.items) 0 high (map (place_from first) unlanded.old.items)
        → Covers (waits_at list.now.items) 0 high (map (place_from first) unlanded.new.items) }
    ensures oldest { FirstPasses (waits_at list.now.items) (map (place_from first) unlanded.new.items) }
    ensures newest { LastPasses (waits_at list.now.items) (map (place_from first) unlanded.new.items) }
    ensures capacity { deque_capacity unlanded.new ≡ deque_capacity unlanded.old }
{
    while has_landed(unlanded.back(), first, list) {
        unlanded.pop_back();
    }
}

/// The place of the request of an index, whether it has landed or not.
fn search(flights: &VecDeque<Flight>, index: u64) -> Result<usize, usize>
    requires { IsRising flights.now.items }
    ensures found { IfOk result (λ place. StandsAt index flights.now.items place) }
    ensures absent { OnErr result (All (λ f. f.index ≢ index) flights.now.items) }
{
    flights.binary_search_by_key(&index, |f| f.index)
}

/// The place of the unlanded request of an index.
fn unlanded_place(flights: &VecDeque<Flight>, index: u64) -> Option<usize>
    requires { IsRising flights.now.items }
    ensures { result ≡ position (λ f. f.index == index && not f.landed) flights.now.items }
{
    let Ok(place) = search(flights, index) else {
        return None;
    };
    if flights[place].landed {
        None
    } else {
        Some(place)
    }
}

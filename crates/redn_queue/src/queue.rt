ghost use Rattle.std.specs.Prelude.{◌≡◌, ◌+◌, ◌-◌, ◌^◌, ◌<◌, ◌≤◌, ◌%◌, length, true, false, IsSome, IfOk, Some, slice_get};
ghost use Rattle.std.specs.Option.{option_map, option_copied};
ghost use Rattle.std.specs.FinMap as finite;
ghost use Rattle.redn_words.specs.Requests.{decoded};
ghost use Rattle.redn_words.specs.States.{fresh_queue};
ghost use Rattle.redn_words.specs.Steps.{fetch_possible, land_possible, complete_possible, fetched, past_head, flown, landed_at, completed, raised, stopped, flying, is_landed};
ghost use Rattle.redn_words.specs.InOrder.{AllBelow};
ghost use Rattle.redn_queue.specs.Telling.{least_unheld, greatest_unheld, oldest_unlanded, newest_unlanded};

use crate::ahead::Ahead;
use crate::flights::Flights;
use redn_words::{Memory, QueueRow};
use redn_wqe::{decode, is_signalled};
use std::alloc::Global;
use std::marker::Model;

/// One queue of an adapter. Indexes count the slots of its ring, and go on past its end.
#[derive(Drop)]
pub struct Queue {
    row: QueueRow,
    ahead: Ahead,
    limit: u64,
    flights: Flights,
    counter: u64,
    stopped: bool,
}

impl Model for Queue {
    ghost use Rattle.redn_words.specs.States.{Queue as QueueState};

    ghost Value = { QueueState };

    ghost use Rattle.std.specs.Coded.{codes};
    ghost use Rattle.redn_words.specs.States.{copies_code};

    ghost coded = { Prim.hlevel (codes, copies_code) };

    ghost use Rattle.redn_queue.specs.QueueView.{queue_view, IsQueue};

    ghost view = { queue_view };

    ghost invariant = { IsQueue };
}

impl Queue {
    /// An empty queue with room for as many held copies, and as many requests in flight, as it has
    /// slots. All its memory is taken here.
    pub fn new(alloc: Global, row: &QueueRow) -> Result<Self, Memory>
        ensures { IfOk result (λ queue. queue ≡ fresh_queue row.now) }
    {
        let slots = row.slots as usize;
        let ahead = Ahead::new(alloc, slots)?;
        let flights = Flights::new(alloc, slots)?;
        Ok(Queue {
            row: *row,
            ahead,
            limit: row.limit,
            flights,
            counter: 0,
            stopped: false,
        })
    }

    /// The row of the image, which no action changes.
    pub fn row(&self) -> &QueueRow
        ensures { result.now ≡ self.now.row }
    {
        &self.row
    }

    /// The index of the next request to start.
    pub fn head(&self) -> u64
        ensures { result ≡ self.now.head }
    {
        self.ahead.head()
    }

    /// The first index that isn't fetched yet, until an ENABLE raises it.
    pub fn limit(&self) -> u64
        ensures { result ≡ self.now.limit }
    {
        self.limit
    }

    /// How many signalled requests have completed.
    pub fn counter(&self) -> u64
        ensures { result ≡ self.now.counter }
    {
        self.counter
    }

    /// Whether the queue takes no action any more.
    pub fn stopped(&self) -> bool
        ensures { result ≡ self.now.stopped }
    {
        self.stopped
    }

    /// The held copy of the index is this one from now on, also where one was held.
    pub fn hold(&mut self, index: u64, copy: &[u8; 64])
        requires { fetch_possible index self.old ≡ true }
        ensures { self.new ≡ fetched self.old index copy.now }
    {
        self.ahead.hold(index, copy);
    }

    /// The held copy of an index.
    pub fn held(&self, index: u64) -> Option<&[u8; 64]>
        ensures { option_copied result ≡ finite.get self.now.held index }
    {
        self.ahead.get(index)
    }

    /// The least index that may be fetched and isn't held.
    pub fn least_unheld(&self) -> Option<u64>
        ensures { result ≡ least_unheld self.now }
    {
        if self.stopped {
            return None;
        }
        self.ahead.least(self.limit)
    }

    /// The greatest index that may be fetched and isn't held.
    pub fn greatest_unheld(&self) -> Option<u64>
        ensures { result ≡ greatest_unheld self.now }
    {
        if self.stopped {
            return None;
        }
        self.ahead.greatest(self.limit)
    }

    /// The held copy of head, which leaves. Head rises by 1.
    pub fn take_head(&mut self) -> [u8; 64]
        requires runs { self.old.stopped ≡ false }
        requires held { IsSome (finite.get self.old.held self.old.head) }
        ensures copy { finite.get self.old.held self.old.head ≡ Some result }
        ensures left { self.new ≡ past_head self.old }
        // Requests in flight are of indexes that started.
        ensures below { AllBelow self.old.head self.new.flights }
    {
        self.ahead.take()
    }

    /// A request goes into flight, last.
    pub fn fly(&mut self, index: u64, copy: [u8; 64])
        requires runs { self.old.stopped ≡ false }
        requires room { length self.old.flights < self.old.row.slots }
        requires started { index < self.old.head }
        requires last { AllBelow index self.old.flights }
        ensures { self.new ≡ flown self.old index copy }
    {
        self.flights.push(index, copy);
    }

    /// How many requests are in flight.
    pub fn flights(&self) -> u64
        ensures { result ≡ length self.now.flights }
    {
        self.flights.len()
    }

    /// The copy of the unlanded request of an index in flight.
    pub fn flying(&self, index: u64) -> Option<&[u8; 64]>
        ensures { option_copied result ≡ option_map (λ f. f.copy) (flying self.now index) }
    {
        self.flights.get(index)
    }

    /// Whether a request is in flight, and the oldest has landed.
    pub fn oldest_landed(&self) -> bool
        ensures { result ≡ is_landed (slice_get self.now.flights 0) }
    {
        self.flights.oldest_landed()
    }

    /// The index of the oldest unlanded request in flight.
    pub fn oldest_unlanded(&self) -> Option<u64>
        ensures { result ≡ oldest_unlanded self.now }
    {
        self.flights.oldest_unlanded()
    }

    /// The index of the newest unlanded request in flight.
    pub fn newest_unlanded(&self) -> Option<u64>
        ensures { result ≡ newest_unlanded self.now }
    {
        self.flights.newest_unlanded()
    }

    /// The request of the index has landed.
    pub fn mark_landed(&mut self, index: u64)
        requires { land_possible index self.old ≡ true }
        ensures { self.new ≡ landed_at self.old index }
    {
        self.flights.mark_landed(index);
    }

    /// The oldest request in flight leaves, and is counted if it is signalled.
    pub fn complete(&mut self)
        requires possible { complete_possible self.old ≡ true }
        requires room { self.old.counter < 2 ^ 64 - 1 }
        ensures { self.new ≡ completed self.old self.old.flights }
    {
        let flight = self.flights.pop();
        self.counter += signals(&flight.copy);
    }

    /// The limit becomes the larger of the old one and this one.
    pub fn raise(&mut self, limit: u64)
        ensures { self.new ≡ raised self.old limit }
    {
        self.limit = self.limit.max(limit);
    }

    /// The queue takes no action from now on.
    pub fn stop(&mut self)
        ensures { self.new ≡ stopped self.old }
    {
        self.stopped = true;
    }
}

/// 1 where the request is signalled, else 0.
fn signals(copy: &[u8; 64]) -> u64
    ensures value { result ≡ (decoded copy.now).flags % 2 }
    ensures small { result ≤ 1 }
{
    u64::from(is_signalled(&decode(copy)))
}

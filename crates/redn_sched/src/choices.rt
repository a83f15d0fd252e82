ghost use Rattle.std.specs.Prelude.{◌≡◌, ◌<◌, ◌≤◌, ◌+◌, ◌++◌, ◌∷◌, [], length, filter};
ghost use Rattle.redn_words.specs.Steps.{possible};
ghost use Rattle.redn_sched.specs.MadeSchedules.{land_of, fetch_of};
ghost use Rattle.redn_sched.specs.Shuffles.{another, candidates, held_head, in_order};

use redn_adapter::Adapter;
use redn_queue::Queue;
use redn_words::Action;
use std::marker::Model;

/// Actions of which one is drawn, in their order.
#[derive(Drop)]
pub struct Choices {
    list: [Action; 8],
    len: usize,
}

impl Model for Choices {
    ghost use Rattle.std.specs.Prelude.{◌≤◌, List, take};
    ghost use Rattle.redn_words.specs.declared.types.Action.{Action};

    ghost Value = { List Action };

    ghost view = { λ c. take c.len c.list };

    ghost invariant = { λ c. c.len ≤ 8 };
}

/// The second of two indexes, where it is another.
fn another(first: Option<u64>, second: Option<u64>) -> Option<u64>
    ensures { result ≡ another first second }
{
    match first {
        Some(_) if first == second => None,
        _ => second,
    }
}

/// Head, where it is held.
fn held_head(u: &Queue) -> Option<u64>
    ensures { result ≡ held_head u.now }
{
    let head = u.head();
    if u.held(head).is_some() {
        Some(head)
    } else {
        None
    }
}

impl Choices {
    fn new() -> Self
        ensures { result ≡ [] }
    {
        Choices {
            list: [Action::Deliver { chain: 0 }; 8],
            len: 0,
        }
    }

    /// The actions.
    pub fn as_slice(&self) -> &[Action]
        ensures { result.now ≡ self.now }
    {
        &self.list[..self.len]
    }

    /// Adds an action where it is possible.
    fn offer(&mut self, a: &Adapter, action: Action)
        requires { length self.old < 8 }
        ensures list { self.new ≡ self.old ++ filter (possible a.now.state) (action ∷ []) }
        ensures more { length self.new ≤ length self.old + 1 }
    {
        if a.possible(action) {
            self.list[self.len] = action;
            self.len += 1;
        }
    }

    /// Adds the landing of an index, if there is one.
    fn offer_land(&mut self, a: &Adapter, queue: u32, index: Option<u64>)
        requires { length self.old < 8 }
        ensures list { self.new ≡ self.old ++ filter (possible a.now.state) (land_of queue index) }
        ensures more { length self.new ≤ length self.old + 1 }
    {
        if let Some(index) = index {
            self.offer(a, Action::Land { queue, index });
        }
    }

    /// Adds the fetch of an index, if there is one.
    fn offer_fetch(&mut self, a: &Adapter, queue: u32, index: Option<u64>)
        requires { length self.old < 8 }
        ensures list { self.new ≡ self.old ++ filter (possible a.now.state) (fetch_of queue index) }
        ensures more { length self.new ≤ length self.old + 1 }
    {
        if let Some(index) = index {
            self.offer(a, Action::Fetch { queue, index });
        }
    }

    /// Adds what may be drawn of a queue.
    fn offer_queue(&mut self, a: &Adapter, queue: u32, u: &Queue)
        requires { length self.old ≤ 1 }
        ensures { self.new ≡ self.old ++ filter (possible a.now.state) (in_order queue u.now) }
    {
        let (oldest, least) = (u.oldest_unlanded(), u.least_unheld());
        self.offer(a, Action::Complete { queue });
        self.offer_land(a, queue, oldest);
        self.offer_land(a, queue, another(oldest, u.newest_unlanded()));
        self.offer(a, Action::Start { queue });
        self.offer_fetch(a, queue, least);
        self.offer_fetch(a, queue, another(least, u.greatest_unheld()));
        self.offer_fetch(a, queue, held_head(u));
    }

    /// What may be drawn of a chain and its active queue.
    pub fn of(a: &Adapter, chain: u32, queue: Option<u32>) -> Self
        ensures { result ≡ candidates a.now.state chain queue }
    {
        let mut choices = Choices::new();
        choices.offer(a, Action::Deliver { chain });
        let Some(queue) = queue else {
            return choices;
        };
        if let Some(u) = a.queue(queue) {
            choices.offer_queue(a, queue, u);
        }
        choices
    }
}

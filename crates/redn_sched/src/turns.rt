ghost use Rattle.std.specs.Prelude.{◌≡◌, ◌+◌, ◌-◌, ◌%◌, ◌^◌, ◌<◌, length, replicate, IfOk};
ghost use Rattle.std.specs.Option.{option_map};
ghost use Rattle.std.specs.List.{find};
ghost use Rattle.redn_sched.specs.MadeSchedules.{queues_of, cyclically, queue_action, queue_acts, chain_acts};
ghost use Rattle.redn_sched.specs.Nearest.{distance, is_nearer, nearest};
ghost use Rattle.redn_sched.specs.ChainTurns.{IsTurn, turn_at, chain_turn};

use redn_adapter::Adapter;
use redn_words::Action;
use std::alloc::{AllocError, Global};

/// What a chain does next.
#[derive(Clone, Copy)]
pub struct Turn {
    pub action: Action,
    /// The number from which on its next queue is looked for then.
    pub cursor: u32,
}

/// Of each chain of an adapter the number from which on its next queue is looked for, before the first
/// action.
pub fn first_cursors(alloc: Global, a: &Adapter) -> Result<Vec<u32>, AllocError>
    ensures { IfOk result (λ v. v.items ≡ replicate (length a.now.state.chains) 0) }
{
    let mut cursors = Vec::new(alloc);
    for _ in 0..a.chain_count() {
        cursors.push(0)?;
    }
    Ok(cursors)
}

/// The first of a queue's actions in turn that is possible: the oldest request completes, the oldest
/// unlanded one lands, head starts, the least index that isn't held is fetched. A stopped queue has none.
#[tactic(auto, unfolding(redn_words::specs::Steps::possible))]
pub fn queue_action(a: &Adapter, queue: u32) -> Option<Action>
    ensures { result ≡ queue_action a.now.state queue }
{
    let u = a.queue(queue)?;
    if u.stopped() {
        return None;
    }
    if u.oldest_landed() {
        return Some(Action::Complete { queue });
    }
    if let Some(index) = u.oldest_unlanded() {
        return Some(Action::Land { queue, index });
    }
    let start = Action::Start { queue };
    if a.possible(start) {
        return Some(start);
    }
    let index = u.least_unheld()?;
    Some(Action::Fetch { queue, index })
}

/// How far a queue comes behind a cursor, where those below the cursor come after all others.
fn distance(cursor: u32, queue: u32) -> u32
    ensures { result ≡ distance cursor queue }
{
    queue.wrapping_sub(cursor)
}

/// Whether a queue comes before the one that was found so far, or none was.
fn is_nearer(cursor: u32, queue: u32, first: Option<Turn>) -> bool
    ensures { result ≡ is_nearer cursor queue (option_map (λ t. t.cursor) first) }
{
    match first {
        Some(turn) => distance(cursor, queue) < distance(cursor, turn.cursor),
        None => true,
    }
}

/// What a queue does next, where it does something and comes before the one that was found so far; else
/// what that one does.
fn nearest(a: &Adapter, cursor: u32, queue: u32, first: Option<Turn>) -> Option<Turn>
    ensures queue { option_map (λ t. t.cursor) result ≡ nearest a.now.state cursor queue (option_map (λ t. t.cursor) first) }
    ensures turn { IsTurn a.now.state first → IsTurn a.now.state result }
{
    if !is_nearer(cursor, queue, first) {
        return first;
    }
    match queue_action(a, queue) {
        Some(action) => Some(Turn {
            action,
            cursor: queue,
        }),
        None => first,
    }
}

/// What the first of a chain's queues does, from a number on and then from the least on, that has a useful
/// action. Only busy queues are looked at.
fn active_turn(a: &Adapter, chain: u32, cursor: u32) -> Option<Turn>
    ensures { result ≡ turn_at a.now.state (find (queue_acts a.now.state) (cyclically cursor (queues_of a.now.state chain))) }
{
    let mut first = None;
    for queue in a.busy(chain) {
        first = nearest(a, cursor, *queue, first);
    }
    first
}

/// That queue.
pub fn active_queue(a: &Adapter, chain: u32, cursor: u32) -> Option<u32>
    ensures { result ≡ find (queue_acts a.now.state) (cyclically cursor (queues_of a.now.state chain)) }
{
    Some(active_turn(a, chain, cursor)?.cursor)
}

/// What a chain does next: its message comes, or else its active queue acts.
pub fn chain_turn(a: &Adapter, chain: u32, cursor: u32) -> Option<Turn>
    ensures { result ≡ chain_turn a.now.state chain cursor }
{
    let action = Action::Deliver { chain };
    if a.possible(action) {
        return Some(Turn { action, cursor });
    }
    active_turn(a, chain, cursor)
}

/// Whether a chain may be taken.
pub fn chain_acts(a: &Adapter, chain: u32) -> bool
    ensures { result ≡ chain_acts a.now.state chain }
{
    chain_turn(a, chain, 0).is_some()
}

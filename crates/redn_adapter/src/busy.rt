ghost use Rattle.std.specs.Prelude.{◌≡◌, ◌<◌, ◌≤◌, length, map, slice_set, IfOk};
ghost use Rattle.std.specs.List.{All};
ghost use Rattle.redn_adapter.specs.Busy.{KeepsBusy, is_busy};

use redn_marks::Marks;
use redn_queue::Queue;
use std::alloc::{AllocError, Global};

/// Whether a queue may have something useful to do.
fn is_busy(u: &Queue) -> bool
    ensures { result ≡ is_busy u.now }
{
    !u.stopped() && (u.head() < u.limit() || u.held(u.head()).is_some() || 0 < u.flights())
}

/// Marks a queue that is busy, or takes its mark away.
pub fn note(busy: &mut Marks, queue: u32, u: &Queue)
    requires { queue < length busy.old.group }
    ensures { busy.new ≡ record busy.old { marked = slice_set busy.old.marked queue (is_busy u.now) } }
{
    busy.set(queue, is_busy(u));
}

/// Of each queue its chain.
fn chains_of(alloc: Global, queues: &[Queue]) -> Result<Vec<u16>, AllocError>
    ensures { IfOk result (λ v. v.items ≡ map (λ u. u.row.domain) queues.now) }
{
    queues.iter().map(|u| u.row().domain).collect(alloc)
}

/// The marks of some queues, of which each is one of so many chains'.
pub fn first_busy(alloc: Global, chains: u32, queues: &[Queue]) -> Result<Marks, AllocError>
    requires few { length queues.now ≤ 65535 }
    requires domains { All (λ u. u.row.domain < chains) queues.now }
    ensures { IfOk result (λ m. KeepsBusy m chains queues.now) }
{
    let mut busy = Marks::new(alloc, chains, chains_of(alloc, queues)?)?;
    for (queue, u) in queues.iter().enumerate() {
        note(&mut busy, queue as u32, u);
    }
    Ok(busy)
}

ghost use Rattle.std.specs.Prelude.{◌≡◌, ◌+◌, ◌-◌, ◌^◌, ◌<◌, ◌≤◌, ℕ, false, length, vec_len, map, IfOk, IfErr, slice_get};
ghost use Rattle.redn_words.specs.Access.{EndsBy};
ghost use Rattle.redn_region.specs.Rows.{repeats};
ghost use Rattle.std.specs.Option.{option_map};
ghost use Rattle.redn_words.specs.States.{fresh_queue, fresh_chain};
ghost use Rattle.redn_words.specs.Misfits.{misfit as misfit_of};
ghost use Rattle.redn_adapter.specs.Opening.{misfits};

use crate::chain::Chain;
use redn_queue::Queue;
use redn_region::{Regions, RegionsFault};
use redn_words::{Memory, QueueRow, Receive, Region};
use std::alloc::{AllocError, Global};

/// Why an image isn't opened: a chain's message has `got` bytes where its place has `want`, or want
/// of memory.
#[derive(Clone, Copy, Debug, PartialEq, Eq)]
pub enum OpenFault {
    Message { chain: u16, got: u64, want: u64 },
    Memory,
}

impl From<AllocError> for OpenFault {
    ghost use Rattle.std.specs.Prelude.{◌≡◌};
    ghost use Rattle.redn_adapter.specs.declared.opening.OpenFault.TheVariants.{Memory};

    ghost from_gives = { λ _ e. e ≡ Memory };

    fn from(_e: AllocError) -> Self {
        OpenFault::Memory
    }
}

impl From<Memory> for OpenFault {
    ghost use Rattle.std.specs.Prelude.{◌≡◌};
    ghost use Rattle.redn_adapter.specs.declared.opening.OpenFault.TheVariants.{Memory};

    ghost from_gives = { λ _ e. e ≡ Memory };

    fn from(_e: Memory) -> Self {
        OpenFault::Memory
    }
}

/// The index of the regions of an image, whose keys all differ.
pub fn registered(alloc: Global, rows: Vec<Region>) -> Result<Regions, OpenFault>
    requires few { vec_len rows ≤ 4096 }
    requires ends { EndsBy (2 ^ 64 - 1) rows.items }
    requires distinct { (i : ℕ) → repeats rows.items i ≡ false }
    ensures rows { IfOk result (λ regions. regions ≡ rows.items) }
    ensures want { IfErr result (λ e. e ≡ OpenFault.Memory) }
{
    match Regions::new(alloc, rows) {
        Ok(regions) => Ok(regions),
        Err(RegionsFault::Repeated { .. }) => unreachable!(),
        Err(RegionsFault::Memory) => Err(OpenFault::Memory),
    }
}

/// A chain's message, as a fault where it doesn't fit its place.
fn misfit(chain: u16, place: &Receive, message: &Option<Vec<u8>>) -> Option<OpenFault>
    ensures { result
        ≡ slice_get (misfit_of OpenFault.Message chain place.now.len (option_map (λ v. v.items) message.now)) 0 }
{
    let got = message.as_ref()?.len() as u64;
    let want = place.len;
    if got == want {
        return None;
    }
    Some(OpenFault::Message { chain, got, want })
}

/// The first message that doesn't fit its place, as the fault that it is.
pub fn first_misfit(places: &[Receive], messages: &[Option<Vec<u8>>]) -> Option<OpenFault>
    requires each { length messages.now ≡ length places.now }
    requires few { length places.now ≤ 2 ^ 16 }
    ensures { result
        ≡ slice_get (misfits 0 places.now (map (option_map (λ v. v.items)) messages.now)) 0 }
{
    for (k, place) in places.iter().enumerate() {
        let fault = misfit(k as u16, place, &messages[k]);
        if fault.is_some() {
            return fault;
        }
    }
    None
}

pub fn first_queues(alloc: Global, rows: &[QueueRow]) -> Result<Vec<Queue>, Memory>
    ensures { IfOk result (λ v. v.items ≡ map fresh_queue rows.now) }
{
    let mut queues = Vec::with_capacity(alloc, rows.len())?;
    for row in rows {
        queues.push(Queue::new(alloc, row)?)?;
    }
    Ok(queues)
}

pub fn first_chains(alloc: Global, messages: Vec<Option<Vec<u8>>>) -> Result<Vec<Chain>, AllocError>
    ensures { IfOk result (λ v. v.items
        ≡ map fresh_chain (map (option_map (λ m. m.items)) messages.items)) }
{
    let mut chains = Vec::with_capacity(alloc, messages.len())?;
    for message in messages {
        chains.push(Chain::new(message))?;
    }
    Ok(chains)
}

ghost use Rattle.std.specs.Prelude.{◌≡◌, ℕ, IfOk};
ghost use Rattle.redn_recycle.specs.Lapped.{MayGoRound, ring_of, lapped_segments};

use crate::places::Places;
use redn_segment::Ring;
use redn_words::Memory;
use std::alloc::Global;

/// The ring with laps: each segment with two lap requests, a WAIT and an ENABLE, and all slot numbers
/// by their new places. A last segment that has a SEND gets none of these, and then the first
/// segment has one lap request alone, that on the ring's descriptor.
pub fn with_laps(alloc: Global, r: Ring) -> Result<Ring, Memory>
    requires { MayGoRound r.segments.items r.ring }
    ensures ring { IfOk result (λ lapped. lapped.ring ≡ r.ring) }
    ensures segments { (domain base : ℕ) → IfOk result (λ lapped. lapped.segments.items
        ≡ lapped_segments r.ring (ring_of r.segments.items r.ring domain base)) }
{
    let places = Places::new(alloc, r)?;
    let mut segments = Vec::new(alloc);
    for j in 0..places.count() {
        segments.push(places.segment(alloc, j)?)?;
    }
    Ok(Ring {
        ring: places.ring(),
        segments,
    })
}

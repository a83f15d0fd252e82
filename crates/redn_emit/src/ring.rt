//! A block's ring before it gets its laps.

ghost use Rattle.std.specs.Prelude.{◌≡◌, ◌+◌, ◌<◌, ◌≤◌, ◌^◌, ◌++◌, true, length, IfOk};
ghost use Rattle.redn_graph.specs.Slots.{block_slots};
ghost use Rattle.redn_segment.specs.Building.{drafts_of};
ghost use Rattle.redn_block.specs.Blocks.{BlockFits, block_segments};
ghost use Rattle.redn_emit.specs.Layout.{ring_slots, first_limit, with_its_laps};
ghost use Rattle.redn_emit.specs.Kept.{are_near};

use redn_block::block_ring;
use redn_graph::Block;
use redn_recycle::with_laps;
use redn_segment::{Ring, Segment};
use redn_words::Memory;
use std::alloc::Global;
use std::marker::Model;

/// A ring without laps and with them; how many slots it has then, and the limit that opens its first
/// segment.
#[derive(Drop)]
pub struct RingPlan {
    plain: Ring,
    lapped: Vec<Segment>,
    slots: u32,
    opens: u32,
}

impl Model for RingPlan {
    ghost use Rattle.redn_emit.specs.Layout.{Plain};
    ghost use Rattle.redn_emit.specs.Kept.{IsRingPlan};

    ghost Value = { Plain };

    ghost view = { λ p. record { number = p.plain.ring; segments = p.plain.segments.items } };

    ghost invariant = { λ p. IsRingPlan (record { number = p.plain.ring; segments = p.plain.segments.items }) p.lapped.items p.slots p.opens };
}

/// How many drafts some segments have.
fn count(segments: &[Segment]) -> u32
    requires { length (drafts_of segments.now) < 2 ^ 32 }
    ensures { result ≡ length (drafts_of segments.now) }
{
    let mut drafts = 0;
    for segment in segments {
        drafts += segment.drafts.len() as u32;
    }
    drafts
}

fn copied(alloc: Global, ring: &Ring) -> Result<Ring, Memory>
    ensures number { IfOk result (λ r. r.ring ≡ ring.now.ring) }
    ensures segments { IfOk result (λ r. r.segments.items ≡ ring.now.segments.items) }
{
    let mut segments = Vec::new(alloc);
    for segment in &ring.segments {
        let drafts = Vec::from_slice(alloc, &segment.drafts)?;
        segments.push(Segment { drafts })?;
    }
    Ok(Ring {
        ring: ring.ring,
        segments,
    })
}

impl RingPlan {
    /// The ring of a block under a number, where the ring of block 0 has the number `first`.
    pub fn new(alloc: Global, first: u32, number: u32, block: &Block) -> Result<RingPlan, Memory>
        requires small { block_slots block.now ≤ 65536 }
        requires fits { BlockFits (2 ^ 32) first block.now }
        ensures { IfOk result (λ r. r ≡ record { number = number; segments = block_segments first number block.now }) }
    {
        let plain = block_ring(alloc, first, number, block)?;
        let Ring {
            ring: _,
            segments: lapped,
        } = with_laps(alloc, copied(alloc, &plain)?)?;
        let slots = count(&lapped);
        let opens = lapped[0].drafts.len() as u32;
        Ok(RingPlan {
            plain,
            lapped,
            slots,
            opens,
        })
    }

    pub fn number(&self) -> u32
        ensures { result ≡ self.now.number }
    {
        self.plain.ring
    }

    /// How many slots the ring has with laps.
    pub fn slots(&self) -> u32
        ensures { result ≡ ring_slots self.now }
    {
        self.slots
    }

    /// The limit that opens the first segment.
    pub fn opens(&self) -> u32
        ensures { result ≡ first_limit self.now }
    {
        self.opens
    }

    pub fn segments(&self) -> &[Segment]
        ensures { result.now ≡ self.now.segments }
    {
        &self.plain.segments
    }

    /// The segments with laps.
    pub fn with_its_laps(&self) -> &[Segment]
        ensures laps { result.now ≡ with_its_laps self.now }
        ensures near { are_near result.now ≡ true }
    {
        &self.lapped
    }
}

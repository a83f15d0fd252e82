//! The law of a block's segments. A call does nothing.

ghost use Rattle.redn_proof_block.specs.Stages.{SegmentsFollow};

/// From the beginning of a block on, its segments make the graph's steps, whatever tables each of them
/// sees: each shows what the steps show that it makes, and behind the last one the block is over.
pub fn segments_follow()
    ensures { SegmentsFollow }
{}

//! Laws of blocks in rings with laps. A call of one does nothing.

ghost use Rattle.redn_proof_ring.specs.RingLaws.{BlocksPromise, BlocksAreScript};

/// Laid-out rings with the opcodes that their slots can have, what the runs of their segments tell,
/// and the states at which they are entered, from which no plain run is bad.
pub trait HasBlocks {
    ghost use Rattle.redn_proof_ring.specs.RingLaws.{Blocks};

    ghost blocks: { Blocks };
}

/// The drafts of such blocks promise what is asked of them, so their windows follow one another.
pub fn blocks_promise<B: HasBlocks>()
    ensures promises { BlocksPromise B.blocks }
    ensures script { BlocksAreScript B.blocks }
{}

//! The law of segments with lap requests. A call does nothing.

ghost use Rattle.redn_proof_block.specs.Laps.{LapsChangeNothing};

/// From states that mirror one another, the plain run of a segment with its lap requests goes through,
/// shows and leaves what that of its drafts alone does, over whatever tables.
pub fn laps_change_nothing()
    ensures { LapsChangeNothing }
{}

//! Laws of rings with laps. A call of one does nothing.

ghost use Rattle.redn_proof_ring.specs.LapLaws.{LapsAreScript, LapsGoOn, LayoutsAreLaid};

/// The rings of a chain as they are laid out in memory, what the states before their segments mean,
/// and what their drafts promise of these.
pub trait LaidOut {
    ghost use Rattle.redn_proof_ring.specs.Plans.{Plan, IsLaid};
    ghost use Rattle.redn_proof_ring.specs.Turns.{Meaning, Promises};

    ghost plan: { Plan };

    ghost laid: { IsLaid plan };

    ghost meaning: { Meaning plan };

    ghost promises: { Promises plan meaning };
}

/// The windows of such rings follow one another, lap after lap and ring after ring.
pub fn laps_are_script<L: LaidOut>()
    ensures script { LapsAreScript L.plan L.meaning }
    ensures goes_on { LapsGoOn L.plan L.meaning }
{}

/// Rings that get their laps by `with_laps` are laid out as this asks, wherever their spaces lie apart.
pub fn layouts_are_laid()
    ensures { LayoutsAreLaid }
{}

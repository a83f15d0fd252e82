//! Laws of drafts that are placed in memory, each a clause of a function that does nothing.

ghost use Rattle.redn_proof_landing.specs.LandingLaws as laws;

/// A placed draft lands as its plain step says.
pub fn placed_drafts_land()
    ensures { laws.DraftsLand }
{}

/// The window of a placed segment whose footprints lie apart is orderly. When all its drafts have
/// landed, in whatever order, memory shows what they put one after the other.
pub fn placed_segments_open()
    ensures orderly { laws.SegmentsOrderly }
    ensures shows { laws.SegmentsShow }
{}

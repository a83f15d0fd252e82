//! Laws on schedules. A call of one does nothing.

ghost use Rattle.redn_sched.specs.Laws.{BeginningsAreRead, EachTextIsRead, EachTextIsReadOnce, MadeRunsEndWhole};

/// Each text has its actions, up to its first bad line or to its end.
#[tactic(auto, using(crate::proofs::Readings::each_text))]
pub fn each_text_is_read()
    ensures { EachTextIsRead }
{}

/// A text has its actions in one way.
#[tactic(auto, using(crate::proofs::Readings::each_text_once))]
pub fn each_text_is_read_once()
    ensures { EachTextIsReadOnce }
{}

/// A text begins with some actions exactly where it has these, and perhaps more.
#[tactic(auto, using(crate::proofs::Readings::beginnings))]
pub fn beginnings_are_read()
    ensures { BeginningsAreRead }
{}

/// A run by the fair rules or by draws that makes fewer steps than it may ends where nothing useful
/// is left to do.
pub fn made_runs_end_whole()
    ensures { MadeRunsEndWhole }
{}

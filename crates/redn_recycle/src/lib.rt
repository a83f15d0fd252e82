//! Rings that run again and again: each lap raises the counts and limits of the next. To the segments
//! of a ring come a WAIT and an ENABLE between each two, and requests that raise the operands of these
//! for the next lap.
#![tactic(auto)]

mod laps;
mod places;

pub use laps::with_laps;

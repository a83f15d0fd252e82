//! Drafts that are placed in memory: how their requests land, and what a segment of them leaves.
//! The law: a placed draft lands as its plain step says. When all drafts of a segment whose footprints
//! lie apart have landed, in whatever order, memory shows what they put one after the other.
#![tactic(auto)]

mod laws;

pub use laws::{placed_drafts_land, placed_segments_open};

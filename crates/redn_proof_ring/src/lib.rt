//! Rings with laps, as they are laid out in memory, and the drafts of blocks in them.
//! The law of laps: rings that get their laps by `with_laps` are laid out as is asked here, wherever
//! their spaces lie apart, and their windows follow one another, lap after lap and ring after ring.
//! The law of rings: the drafts of a block promise what rings with laps ask of theirs.
#![tactic(auto)]

mod lap_laws;
mod ring_laws;

pub use lap_laws::{LaidOut, laps_are_script, layouts_are_laid};
pub use ring_laws::{HasBlocks, blocks_promise};

//! Blocks of graphs in rings: what laps leave as it is, one round of a block, and the course of a
//! chain from block to block.
//! The law of laps: a segment's plain run with lap requests goes through, shows and leaves what that
//! of its drafts alone does, by other numbers of slots.
//! The law of rounds: the segments of a block make the steps of its graph, whatever tables each sees.
//! The law of courses: from their entry on, a chain's rings make the graph's steps, and lead to the
//! ring of the block where the graph goes on. So their windows follow one another.
#![tactic(auto)]

mod course_laws;
mod laps_laws;
mod round_laws;

pub use course_laws::courses_allow;
pub use laps_laws::laps_change_nothing;
pub use round_laws::segments_follow;

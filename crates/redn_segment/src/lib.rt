//! Drafts of work requests, whose places are still names, and rings of them. A draft gets its place
//! only where its ring is laid out, so what is proved of a template holds wherever it is appended.
//! The laws: two templates, one after the other, are one that does both, with all counts, events and
//! rights. Other numbers for slots, of which no two are one, change no plain run.
#![tactic(auto)]

mod builder;
mod drafts;
mod footprints;
mod laws;
mod types;

pub use builder::RingBuilder;
pub use drafts::{
    CAS_WORD, READ_WORD, WRITE_WORD, add_to, choose, clear, compare_high, compare_low, copy, field,
    fill_high, fill_low, read_table, segment, swap_in, turnable,
};
pub use footprints::footprints_apart;
pub use laws::{runs_renumbered, templates_in_turn};
pub use types::{Draft, Field48, Ring, Segment, Site, SlotRef, Space};

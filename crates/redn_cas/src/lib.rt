//! Templates of tests, which choose the next ring by compare-and-swap: of two words, of their low 48
//! bits, or of a key in a table, whose value is then loaded.
//! The law: it is compare-and-swap that chooses. With a NOOP in place of each, a test goes on at the
//! same ring from every state.
#![tactic(auto)]

mod laws;
mod tests_of;

pub use laws::cas_chooses;
pub use tests_of::{probe_template, test48_template, test64_template};

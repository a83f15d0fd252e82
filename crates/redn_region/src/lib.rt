//! The registered regions of memory, and which accesses they allow.
#![tactic(auto)]

mod access;
mod regions;

pub use regions::{Regions, RegionsFault};

//! The landing of a request in flight: what it does to memory, and what it shows.
#![tactic(auto)]

mod landing;
mod shown;
mod sides;

pub use landing::{Landing, land};

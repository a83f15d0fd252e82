//! The rings of a chain as the compiled form of its graph.
//! The law: the rings of an image's chains, side by side, run as the graphs do. What they show is what
//! the graphs' steps show, and their windows cost at most what these steps bring.
#![tactic(auto)]

mod laws;

pub use laws::{
    ChainRings, ImageRings, layings_form, parts_pay, rings_promise, rings_side, shelves_hold,
    steps_show,
};

//! Where an image of graphs places its chains, and what such an image does.
//! The law of places: each placed chain is laid out as rings with laps ask, apart from all others, with
//! the rights that its drafts need, and memory begins as its rings ask before lap 0.
//! The law of images: the chains of such an image stand side by side as rings of these graphs. So the
//! image does what the graphs do, and what the program says where each graph follows its chain.
#![tactic(auto)]

mod image_laws;
mod place_laws;

pub use image_laws::{
    emitted_are_faithful, emitted_are_faithful_to_graphs, emitted_fit, emitted_stand_together,
    segments_in_any_order,
};
pub use place_laws::{
    Meant, all_begin, all_granted, all_have_graphs, all_laid, all_queues_stand, begins_ready,
    chains_lie_apart,
};

//! A block of a graph as a ring of drafts: the templates of its instructions, one after the other, and
//! then the one of its end. The contract says that the ring does what the block does, and which words
//! the block needs.
#![tactic(auto)]

mod blocks;
mod words;

pub use blocks::block_ring;
pub use words::block_words;

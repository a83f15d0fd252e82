//! The generated file of a number: a large valid source file, and a message for each of its chains.
#![tactic(auto)]

mod file;
mod messages;
mod number;
mod part;
mod runs;

pub use file::gen_file;
pub use messages::gen_messages;
pub use runs::each_chain_replies;

//! From the tokens of a source text to its tree.
#![tactic(auto)]

mod chain;
mod fault;
mod file;
mod laws;
mod list;
mod phrase;
mod reader;
mod statement;
mod table;

pub use fault::ParseFault;
pub use file::parse;
pub use laws::has_one_tree;

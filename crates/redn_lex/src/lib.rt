//! From a source text to its tokens.
#![tactic(auto)]

mod fault;
mod front;
mod tokens;

pub use fault::LexFault;
pub use tokens::lex;

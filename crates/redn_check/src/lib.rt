//! The rules of a source file, and the program that an accepted file is.
#![tactic(auto)]

mod fault;
mod flow;
mod limits;
mod names;
mod number;
mod rules;
mod scope;
mod statements;
mod weight;

pub use fault::CheckFault;
pub use rules::check;

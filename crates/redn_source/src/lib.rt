//! The state of a program whose chains step one at a time: the meaning of the source language, made to run.
#![tactic(auto)]

mod run;
mod start;
mod state;
mod task;
mod weight;

pub use start::StartFault;
pub use state::{SourceAnswer, SourceState};

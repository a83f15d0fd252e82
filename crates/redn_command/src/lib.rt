//! The words of a command.
#![tactic(auto)]

mod command;
mod limits;
mod line;
mod plan;
mod verbs;

pub use command::{Command, MessageWord, Plan, WordsFault};
pub use limits::{MAX_RECORDED, MAX_STEPS};
pub use verbs::command_of;

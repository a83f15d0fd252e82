//! The commands, over any store of files and any sink for what is printed.
#![tactic(auto)]

mod laws;
mod limits;
mod messages;
mod reading;
mod run;
mod source;
mod status;
mod top;

pub use laws::{accepted_words_are_messages, listed_files_come_back, quiet_runs_have_ended};
pub use redn_command::{Command, MessageWord, Plan, WordsFault, command_of};
pub use status::{ImageFault, MessageFault, Status, TextFault, status_code, status_line};
pub use top::redn;

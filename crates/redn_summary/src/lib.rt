//! The summary of a fair run of the generated file.
#![tactic(auto)]

mod run;
mod text;

pub use text::summary;

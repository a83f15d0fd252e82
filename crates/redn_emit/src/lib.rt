//! The image of a program: blocks as rings, and where everything lies.
#![tactic(auto)]

mod bytes;
mod chain;
mod constants;
mod image;
mod memory;
mod requests;
mod ring;
mod rows;
mod table;
mod words;

pub use image::emit;

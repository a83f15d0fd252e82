//! From a program to an image that does what the program says under every order in which an
//! adapter may fetch, start, land and complete its requests.
#![tactic(auto)]

mod image;
mod numbers;
mod units;

pub use image::compile;
pub use units::units_are_runs;

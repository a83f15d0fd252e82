#![tactic(auto)]

mod image;
mod laws;
mod numbers;
mod read;
mod rules;
mod write;

pub use image::{Image, RuleFault, image_of, image_of_kept};
pub use laws::an_image_has_one_spelling;
pub use read::{ImageFault, read_image};
pub use write::write_image;

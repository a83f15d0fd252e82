//! The listing of an image, and the image of a listing.
#![tactic(auto)]

mod assembler;
mod fields;
mod filling;
mod formats;
mod holding;
mod laws;
mod lines;
mod rows;
mod write;

pub use assembler::{ListFault, assemble};
pub use laws::{a_listing_means_its_image, a_text_has_one_meaning};
pub use write::listing;

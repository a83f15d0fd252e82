//! Small tools for texts: numbers, fields with a separator between, lines, and a buffer that is filled from its front.
#![tactic(auto)]

mod buffer;
mod field;
mod line;
mod number;

pub use buffer::{put_number, put_text};
pub use field::split_field;
pub use line::{line_len, next_line};
pub use number::{read_number, read_small};

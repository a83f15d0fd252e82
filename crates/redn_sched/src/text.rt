//! What the text of a schedule comes to.

use redn_words::Action;

/// An action, and the number of its line, counted from 1.
#[derive(Clone, Copy, Debug, PartialEq, Eq)]
pub struct Numbered {
    pub line: u64,
    pub action: Action,
}

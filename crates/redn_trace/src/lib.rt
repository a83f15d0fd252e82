#![tactic(auto)]

mod event;
mod laws;

pub use event::event_line;
pub use laws::each_event_has_a_line;

//! One queue of an adapter: what is held of its ring, what is in flight, and where it stands.
#![tactic(auto)]

mod ahead;
mod flights;
mod queue;

pub use queue::Queue;

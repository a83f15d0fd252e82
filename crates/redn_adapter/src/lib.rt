#![tactic(auto)]

mod adapter;
mod busy;
mod chain;
mod laws;
mod opening;
mod starting;
mod useful;

pub use adapter::{Adapter, open};
pub use laws::starts_are_stale_exactly_where;
pub use opening::OpenFault;

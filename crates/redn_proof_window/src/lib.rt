//! The windows of managed rings: a window is what an ENABLE has opened of a ring.
//! The law: in every order of an adapter's actions, and whatever else acts in between, a window keeps
//! its private bytes as if its requests landed in the order of their slots. A chain that keeps to a
//! script goes from window to window as the script says.
#![tactic(auto)]

mod laws;

pub use laws::{Scripted, a_chain_in_any_order, a_window_in_any_order, gates_in_any_order};

//! All chains of an image, side by side: each is a machine, and machines take turns.
//! The law of chains: in every order of an adapter's actions, what is shown and left is what the
//! machines do, one turn after the other. So an image in compiled form does what its program says.
//! The law of graphs: a graph is a machine, whose silent steps see no table; an image whose rings run
//! as the graphs do does what the graphs do, and what its program says where each follows its chain.
#![tactic(auto)]

mod chain_laws;
mod graph_laws;

pub use chain_laws::{Chains, Compiled, chains_in_any_order, compiled_is_faithful};
pub use graph_laws::{GraphImage, graphs_are_faithful, graphs_are_machines};

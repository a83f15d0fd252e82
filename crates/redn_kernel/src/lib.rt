//! Programs whose variables, tables and chains are numbers, and what their chains do.
#![tactic(auto)]

mod types;

pub use types::{Cell, ChainInit, Core, Kernel, Program, TableInit, Word, cell_for};

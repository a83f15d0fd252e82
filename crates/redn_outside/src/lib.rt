#![tactic(auto)]

mod counts;
mod journal;
mod mem_sink;
mod mem_store;
mod sink;
mod std_sink;
mod std_store;
mod store;

pub use journal::Journal;
pub use mem_sink::MemSink;
pub use mem_store::MemStore;
pub use sink::{Failed, Sink};
pub use std_sink::StdSink;
pub use std_store::StdStore;
pub use store::{ReadFault, Store, StoreCall, WriteFault};

#[cfg(test)]
mod tests;

//! Tests of what lies below the commands: images and their listings, the adapter and its queues,
//! schedules that come in pieces, and the steps of the source. The crate holds tests alone.
#![tactic(auto)]

#[cfg(test)]
mod adapter;
#[cfg(test)]
mod images;
#[cfg(test)]
mod listings;
#[cfg(test)]
mod requests;
#[cfg(test)]
mod schedules;

//! Tests of the commands over a store and a sink in memory: what each answers, prints and writes,
//! and what programs and schedules do. The crate holds tests alone.
#![tactic(auto)]

#[cfg(test)]
mod case;
#[cfg(test)]
mod echo;
#[cfg(test)]
mod failing;
#[cfg(test)]
mod images;
#[cfg(test)]
mod programs;
#[cfg(test)]
mod schedules;
#[cfg(test)]
mod source;
#[cfg(test)]
mod sources;
#[cfg(test)]
mod statuses;
#[cfg(test)]
mod words;

//! The storage with which a program starts: all bytes are spaces, those of record areas too, and then the VALUE of each
//! item is moved to each of its occurrences, in the order of the items.
#![tactic(auto)]

mod literals;
mod occurrences;
mod receiving;
mod scale;
mod sending;
mod starting;
#[cfg(test)]
mod tests;
mod values;

pub use starting::start;

//! The years of a portfolio in their modes, found by place.
#![tactic(auto)]

mod index;
#[cfg(test)]
mod tests;

pub use index::YearIndex;

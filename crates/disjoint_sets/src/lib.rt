//! Disjoint sets of the numbers below a count, which are joined two at a time.
#![tactic(auto)]

mod forest;
mod names;
mod sets;
#[cfg(test)]
mod tests;

pub use sets::DisjointSets;

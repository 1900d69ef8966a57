//! Seed files: rows that say at which items of a portfolio years stand, as seeds.
#![tactic(auto)]

mod file;
mod meaning;
mod record;
mod row;
#[cfg(test)]
mod tests;

pub use file::{SeedFault, read_seeds};

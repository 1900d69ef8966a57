//! Portfolios made of their texts: the programs with their layouts, and the external files.
#![tactic(auto)]

mod fault;
mod gathering;
mod shelved;
#[cfg(test)]
mod tests;

pub use fault::GatherFault;
pub use gathering::{Gathered, assemble};
pub use shelved::gather;

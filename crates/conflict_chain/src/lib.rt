//! Conflicts: bytes that bear unlike labels, each label with the chain of reasons that leads to it.
#![tactic(auto)]

mod chain;
mod clash;
mod follows;
mod gives;
mod named;
mod order;
mod reasons;
mod spans;
#[cfg(test)]
mod tests;

pub use chain::{Chain, ChainStep, Conflict, Why, check_chain};
pub use clash::conflicts;
pub use reasons::each_fact_has_a_chain;

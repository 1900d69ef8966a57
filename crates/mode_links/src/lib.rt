//! Which years of a portfolio must keep the same mode: the rules by which a year of four digits, or one of two in a window,
//! hands its mode on.
#![tactic(auto)]

mod bridges;
mod conditions;
mod statements;
#[cfg(test)]
mod tests;
mod whole;

pub use bridges::{Bridge, bridge_of};
pub use whole::links_of;

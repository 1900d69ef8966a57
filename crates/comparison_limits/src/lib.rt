//! What stands against a conversion in comparisons, condition-names and sums: years whose order would be another one, and
//! years of unlike modes that meet.
#![tactic(auto)]

mod all;
mod orders;
mod ranges;
mod unlike;

pub use all::add_comparison_limits;

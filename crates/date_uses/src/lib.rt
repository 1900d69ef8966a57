//! How the statements and entries of a portfolio use its data: moves, comparisons, sums, values, and each place that they name.
#![tactic(auto)]

mod conditions;
mod entries;
mod places;
mod statements;
#[cfg(test)]
mod tests;
mod uses;
mod whole;

pub use places::{operand_used, place_used};
pub use uses::{DateUse, MoveKind, UseForm, Used, UsedPlace};
pub use whole::uses_of;

//! Where the statements of a program stand in its text, by their numbers.
#![tactic(auto)]

mod left;
mod parts;
mod places;
#[cfg(test)]
mod tests;

pub use parts::{Part, parts_of};
pub use places::{statement_at, statement_origin};

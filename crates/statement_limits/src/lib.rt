//! What stands against a conversion at statements: references that part a year, texts that are used as numbers, and sums of
//! which an operand is neither a year nor plain.
#![tactic(auto)]

mod cuts;
mod limits;
mod numerals;
mod places;
mod roles;
mod sums;

pub use limits::add_statement_limits;

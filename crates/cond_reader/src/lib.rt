//! Reads operands, identifiers, arithmetic expressions and conditions of ISO 1989:1985 from the words of a program,
//! as the longest of the readings that the grammar has.
#![tactic(auto)]

mod chars;
mod cond;
mod expr;
mod fault;
mod kind;
mod place;
mod read;
mod relation;
mod symbol;
mod table;
#[cfg(test)]
mod tests;
mod text;

pub use chars::whole;
pub use fault::UnitFault;
pub use kind::{CondNames, Kind, kinds_of};
pub use read::{read_condition, read_expr};
pub use symbol::{Symbol, same_symbol};
pub use table::value_of;
pub use text::{Found, Reader, copied};

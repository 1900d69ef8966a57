//! The rules on the use of identifiers and operands (the identifiers of ISO 1989:1985, sections on uniqueness of
//! reference and on the operands of statements; which forms stand is this project's choice): names that mean nothing
//! or several things, subscripts and references that leave their item, and operands that don't fit where they stand.
//! A fault stands at a statement, an entry or a SELECT; the one that comes first is named.
#![tactic(auto)]

mod cond;
mod expr;
mod fault;
mod name;
mod operand;
mod place;
mod rule;
mod sort;
#[cfg(test)]
mod tests;

pub use cond::condition_fault;
pub use expr::{all_numbers, expr_fault, relation_right};
pub use fault::{NameKind, Trouble, UseFault, shape_fault, sooner};
pub use name::{name_fault, worse};
pub use operand::{operand_fault, operand_if_fault};
pub use place::{place_fault, place_if_fault, place_name_fault, place_right};
pub use rule::{compares_right, is_status, moves_right, receives_number};
pub use sort::{Sort, sort_of, sort_of_place};

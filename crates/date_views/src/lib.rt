//! The digits of dates in storage, and the rules that a move, a comparison, a sum or a use of one or two operands
//! gives: which bytes and digits are alike, and which are plain.
#![tactic(auto)]

mod moves;
mod registers;
mod side;
mod sums;
#[cfg(test)]
mod tests;
mod uses;
mod view;

pub use moves::{add_comparison, add_copy, add_move};
pub use registers::add_register;
pub use side::{Field, Side, area_side, side_of, whole_side};
pub use sums::{add_difference, add_sum};
pub use uses::{add_item, add_plain_bytes, add_use};
pub use view::{digit_places, runs_of};

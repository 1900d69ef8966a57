//! Exact arithmetic on decimal numbers as the meaning of programs has it: sums, differences, products and
//! quotients with their scales, results at a receiver's scale, size errors, remainders and comparisons.
//!
//! Numbers have 128 bits and scales up to 38. A number that leaves these is a fault, and so is a divisor of 0.
#![tactic(auto)]

mod arithmetic;
mod comparing;
mod fault;
mod narrow;
mod outcome;
mod result;

pub use arithmetic::{add, divide, multiply, negate, subtract};
pub use comparing::{cmp_repeated, number_cmp, repeated_cmp, text_cmp};
pub use fault::ArithmeticFault;
pub use outcome::{Outcome, by_phrase, division_outcome, remainder, simple_outcome};
pub use result::{at_scale, too_big};

#[cfg(test)]
mod tests;

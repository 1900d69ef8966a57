//! Numbers in bytes as the meaning of programs has them: what an item holds, what a receiver stores, what an
//! edited item shows, and the digits of a number as a text.
//!
//! Numbers of the code are an `i128` with a scale; those of the definitions are a sign and a list of digits.
//! Neither a value nor what a receiver stores depends on leading zeros or on the sign of zero, so that nothing
//! is lost.
#![tactic(auto)]

mod classes;
mod digits;
mod editing;
mod reading;
mod storing;

pub use classes::{is_alphabetic, is_digits, is_numeric};
pub use digits::{put_digits, shown_number};
pub use editing::store_edited;
pub use reading::{read_number, text_number};
pub use storing::{at_point, store_number, stored_value};

#[cfg(test)]
mod tests;

//! The numbers that DISPLAY, PACKED-DECIMAL and BINARY items of ISO 1989:1985 hold, read and written by their form.
//!
//! The standard leaves the bytes to the implementor. Here a DISPLAY digit is its ASCII character, and a minus that
//! stands over a digit adds 40 hexadecimal to it. A packed number has two digits in a byte and its sign in the last
//! half-byte. A binary number has 2, 4 or 8 bytes, the most significant first.
#![tactic(auto)]

mod binary;
mod display;
mod form;
mod packed;

pub use binary::{get_binary, put_binary};
pub use display::{get_display, put_display};
pub use form::{BadDigits, NumForm, Scaled, SignPlace};
pub use packed::{get_packed, put_packed};

#[cfg(test)]
mod tests;

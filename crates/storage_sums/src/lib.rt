//! Arithmetic over the storage of a running program: operands as numbers, expressions, and COMPUTE, as which all
//! arithmetic statements are read (ISO 1989:1985, Nucleus: arithmetic expressions; the COMPUTE statement).
#![tactic(auto)]

mod chain;
mod computing;
mod faults;
#[cfg(test)]
mod tests;
mod values;
mod writing;

pub use computing::compute;
pub use values::{operand_value, value};

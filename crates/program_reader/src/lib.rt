//! Reads whole programs of COBOL (ISO 1989:1985) from their expanded words, unit by unit: the words up to and with a
//! period.
#![tactic(auto)]

mod cond_entry;
mod data;
mod division;
mod entry;
mod fault;
mod file;
mod procedure;
mod read;
mod reading;
mod select;
mod term;
#[cfg(test)]
mod tests;
mod text;
mod unit;
mod unit_fault;

pub use fault::{ReadFault, Refused, RefusedKind};
pub use read::read_program;

//! The rules on the use of names and operands in a whole program: each name that a statement, an entry or a SELECT
//! uses means exactly one thing of the kind that may stand there, and each use has a meaning. Of several faults the
//! one that comes first in the text is named.
#![tactic(auto)]

mod beside;
mod check;
mod control;
mod data;
mod file;
mod form;
mod names;
mod overlap;
mod simple;
#[cfg(test)]
mod tests;

pub use check::check_uses;

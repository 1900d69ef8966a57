//! Texts of programs and copybooks with some of their words edited: the lines of edited words are laid anew, and all other
//! lines stay as they are.
#![tactic(auto)]

mod changes;
mod clash;
mod expansion;
mod fault;
mod line;
mod reach;
mod row;
mod stretch;
#[cfg(test)]
mod tests;
mod text;
mod whole;

pub use fault::EditFault;
pub use whole::apply;

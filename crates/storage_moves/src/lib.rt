//! Moves over the storage of a running program, and what DISPLAY shows (ISO 1989:1985, Nucleus: the MOVE and DISPLAY
//! statements).
#![tactic(auto)]

mod moves;
mod sending;
mod showing;
mod storing;
#[cfg(test)]
mod tests;

pub use moves::{move_group, move_item, move_record};
pub use sending::send;
pub use showing::show_item;

//! Where a run of a program goes on: what is left to do, and the open PERFORMs (ISO 1989:1985, Nucleus: the PERFORM, GO
//! TO and IF statements). What is a step of its own, and that only the newest open PERFORM is looked at where a range
//! ends, is this project's choice.
//!
//! Nothing of a program is copied: what is left of it are slices of its trees. Storage has no part here. Whoever runs a
//! program takes the next task off a position, does with storage what the task says, and tells the position how it went.
#![tactic(auto)]

mod labels;
mod position;
mod task;
#[cfg(test)]
mod tests;
mod turns;

pub use labels::Labels;
pub use position::Position;
pub use task::{Body, Loop, Stage, Task};

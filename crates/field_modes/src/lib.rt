//! Moves between a year that stays in a window and one that gets its century, written anew by way of areas of their own.
#![tactic(auto)]

mod crossed;
mod crossing;
mod moves;

pub use moves::bridge;

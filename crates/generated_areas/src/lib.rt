//! The areas that a program needs when it gets its years with their century: for the dates that it accepts, and for moves
//! between a year in a window and one with a century.
#![tactic(auto)]

mod area;
mod bridged;
mod dates;
mod needs;
#[cfg(test)]
mod tests;

pub use area::GeneratedArea;
pub use bridged::{is_unlike, is_windowed, used_digits};
pub use dates::accepts_year;
pub use needs::generated_areas;

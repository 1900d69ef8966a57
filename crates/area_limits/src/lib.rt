//! What the lengths of areas after the conversion, and the names that a program has, stand against.
#![tactic(auto)]

mod extents;
mod full;
mod grown;
mod taken;
#[cfg(test)]
mod tests;
mod whole;

pub use whole::add_area_limits;

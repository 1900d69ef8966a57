//! The modes of years: which are windowed, and with which pivot. The set of each window group is the least one that holds
//! the years of its items and is closed under the links of the rules.
#![tactic(auto)]

mod digits;
mod index;
mod links;
mod marks;
mod modes;
#[cfg(test)]
mod tests;

pub use modes::{WindowGroup, YearMode, window_modes};

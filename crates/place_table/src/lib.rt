//! The places of a running program. Each place of its text is resolved when it is first met, and kept.
#![tactic(auto)]

mod known;
mod naming;
mod numbers;
mod places;
mod same;
#[cfg(test)]
mod tests;
mod view;

pub use places::Places;
pub use view::{NamedView, View};

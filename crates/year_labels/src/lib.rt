//! What the bytes of dates are called, the rules that pass labels from byte to byte, and the labelling that
//! an analysis gives.
#![tactic(auto)]

mod label;
mod labelling;
mod order;
mod rule;
mod stretch;
#[cfg(test)]
mod tests;
mod twins;

pub use label::{Fact, Label, Role, Seed, unlike};
pub use labelling::Labelling;
pub use rule::{Rule, RuleForm, RuleInst, View};
pub use stretch::Stretch;

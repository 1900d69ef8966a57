//! The rules that a portfolio gives its dates: which bytes and digits are alike, and which are plain, by each statement
//! and entry of its programs, each table, and each file.
#![tactic(auto)]

mod fits;
mod pictures;
mod programs;
mod tables;
#[cfg(test)]
mod tests;
mod whole;

pub use fits::is_fit;
pub use pictures::add_pictures;
pub use tables::{add_files, add_tables};
pub use whole::rules_of;
pub use year_labels::{Fact, Label, Labelling, Role, Rule, RuleForm, RuleInst, Seed, View, unlike};

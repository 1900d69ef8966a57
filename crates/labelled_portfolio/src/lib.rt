//! The way from a manifest to its labelled portfolio: texts, seeds, windows, rules, labels and conflicts.
#![tactic(auto)]

mod labelled;
mod labels;
mod refusal;
mod seeded;

pub use labelled::{Labelled, label_portfolio};
pub use labels::{Labels, labels_of};
pub use refusal::Refusal;
pub use seeded::{Seeded, seed_portfolio};

//! What the texts of a portfolio read as: their words, and from these its programs with their layouts.
#![tactic(auto)]

mod line;
mod member;
mod program;
mod progress;

pub use line::{Source, TextWords, read_texts};
pub use member::{Members, read_members};

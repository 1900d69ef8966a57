//! The words that literals, entries and references want to have after a conversion, and the edits that give them.
#![tactic(auto)]

mod chosen;
mod entries;
mod grown;
mod literals;
mod positions;
mod references;
#[cfg(test)]
mod tests;
mod whole;
mod wish;

pub use chosen::is_same;
pub use literals::literal_at;
pub use whole::word_edits;
pub use wish::wanted_word;

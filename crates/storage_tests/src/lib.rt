//! Comparisons and conditions over the storage of a running program (ISO 1989:1985, Nucleus: conditional expressions).
#![tactic(auto)]

mod compared;
mod comparing;
mod digits;
mod joint;
mod named;
mod seen;
mod side;
mod testing;

pub use comparing::compare_items;
pub use testing::test;

#[cfg(test)]
mod tests;

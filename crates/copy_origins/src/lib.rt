//! COPY statements of ISO 1989:1985, replaced by their books' words, which keep their origins.
#![tactic(auto)]

mod books;
mod expansion;
mod pairs;
mod replacing;
mod sign;
mod statement;
#[cfg(test)]
mod tests;

pub use books::{Book, Books, CopyFault, Expanded};
pub use expansion::expand;

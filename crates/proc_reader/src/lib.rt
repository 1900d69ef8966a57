//! Reads the sentences of the procedure division of ISO 1989:1985 from the words of a program, as the trees of
//! their statements.
//!
//! Which statement stands where is decided by its words: once a word has begun a statement, that statement is
//! read, or the words have no reading. So reading goes through the words once.
#![tactic(auto)]

mod arithmetic;
mod evaluate;
mod files;
mod keyword;
mod moves;
mod nested;
mod perform;
mod read;
mod sentence;
mod simple;
mod spot;
#[cfg(test)]
mod tests;
mod tree;
mod word;

pub use keyword::{Keyword, keyword_of, keywords_of, same_keyword};
pub use read::read_sentence;
pub use sentence::Sentences;
pub use spot::{Spot, Stop};

//! What can stand against a conversion: limits, with their place in the texts and what shows them, and the first of many.
#![tactic(auto)]

mod first;
mod limit;
mod rank;
#[cfg(test)]
mod tests;

pub use first::first_limit;
pub use limit::{Kept, Limit, LimitKind, add_number_limit, add_place_limit, add_word_limit};

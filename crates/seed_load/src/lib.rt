//! The seeds of a portfolio, as a shelf holds them.
#![tactic(auto)]

mod load;
mod refusal;

pub use load::{bytes_of, load_seeds};
pub use refusal::SeedRefusal;

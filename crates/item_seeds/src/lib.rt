//! What a user says of an item, as seeds: that a year of two digits stands at one of its digits, or that no year
//! stands in it; and which item its written name means.
#![tactic(auto)]

mod fact;
mod name;
#[cfg(test)]
mod tests;

pub use fact::{plain_seeds, year_seeds};
pub use name::named_item;

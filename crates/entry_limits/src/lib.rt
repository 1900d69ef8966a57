//! The limits of a conversion that stand at data description entries: years of which a byte is missing or that an item parts,
//! years of a form that an item doesn't take, pictures that grow too long, and years to which window groups give unlike pivots.
#![tactic(auto)]

mod covering;
mod items;
mod pictures;
#[cfg(test)]
mod tests;
mod whole;

pub use whole::add_entry_limits;

//! The years in storage that a labelling says: two bytes, or the bytes of a packed number; and the bytes that are left of a
//! year of which only a part stands there.
#![tactic(auto)]

mod lone;
#[cfg(test)]
mod tests;
mod year;
mod years;

pub use lone::find_lone_bytes;
pub use year::{Year, YearKind};
pub use years::find_years;

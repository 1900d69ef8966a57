//! How the records of each area grow when its years get their century: the table of its cuts, and where its bytes and spans
//! stand afterwards.
#![tactic(auto)]

mod build;
mod fit;
mod images;
mod laws;
mod lengths;
mod table;
#[cfg(test)]
mod tests;

pub use fit::are_fit;
pub use images::{Images, images_of};
pub use laws::alike_spans_grow_alike;
pub use lengths::area_lengths;

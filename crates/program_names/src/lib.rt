//! What a program of a portfolio must keep beside its own layout: the bytes of all areas have a bound, and a
//! program, and in a program a file, a file description, a section or a paragraph, has a name of its own.
#![tactic(auto)]

mod area;
mod origin;
mod repeat;

pub use area::{MOST_BYTES, check_areas};
pub use repeat::check_names;

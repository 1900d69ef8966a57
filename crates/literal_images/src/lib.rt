//! What becomes of literals: the new word of a literal that meets a year that gets its century, and the limits of literals.
#![tactic(auto)]

mod image;
mod limits;
mod meeting;
mod numbers;
mod packed;
mod texts;

pub use image::{NewWord, literal_image};
pub use limits::add_literal_limits;
pub use meeting::{Meeting, meeting_of};

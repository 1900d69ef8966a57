//! The PICTURE that an item has after conversion, how many digits it has and how it is printed.
#![tactic(auto)]

mod grown;
mod image;
mod printed;
#[cfg(test)]
mod tests;

pub use image::picture_image;
pub use printed::{count_digits, print_runs};

//! PICTURE strings of ISO 1989:1985: what they say, how they are printed, and two digits more.
//!
//! Of the strings of that standard these are read: texts `X`, numbers of `S`, `9` and `V`, and items edited by
//! `Z`, `,`, `/`, `B`, `0`, `.` and a trailing `-`. A symbol with a count stands for that many of it.
#![tactic(auto)]

mod fault;
mod inserting;
mod printing;
mod reading;
mod shape;

pub use fault::PicFault;
pub use inserting::insert_digits;
pub use printing::print_picture;
pub use reading::read_picture;

#[cfg(test)]
mod tests;

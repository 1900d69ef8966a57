//! The files of a running program: each of its SELECTs with the number of its external file, with the area of its
//! records, and with the item of its status. Names are looked up once, when a program is made ready; then a file is
//! found by its name in the program, or by the area in which its records stand.
#![tactic(auto)]

mod channel;
mod channels;
mod numbers;
#[cfg(test)]
mod tests;

pub use channel::Channel;
pub use channels::Channels;

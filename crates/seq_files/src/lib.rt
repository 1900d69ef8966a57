//! The sequential files of a trial run, in memory: what they hold, how they are open, and the status of each call
//! (ISO 1989:1985, Sequential I-O). Files are named by their numbers in the portfolio, and a file is the bytes of
//! its records, one after the other without separators. Contracts see a store as the disks of the meaning of
//! programs.
#![tactic(auto)]

mod held;
mod status;
mod store;
#[cfg(test)]
mod tests;

pub use status::Status;
pub use store::Store;

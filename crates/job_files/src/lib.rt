//! The data files of a run of a job: they are read from a shelf into memory before it, and written under another folder
//! after it.
#![tactic(auto)]

mod loaded;
mod number;
mod read;
mod refusal;
#[cfg(test)]
mod tests;
mod written;

pub use loaded::load_files;
pub use refusal::{DataRefusal, WriteFault};
pub use written::{write_file, write_files};

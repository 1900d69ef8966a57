//! The outside of the converter: files by their names, and a sink of bytes. Each stands behind a trait,
//! with a form in memory whose contents contracts tell and whose calls can be made to fail, and a form
//! over the machine, of whose contents nothing is told.
#![tactic(auto)]

mod calls;
mod errors;
mod folder;
mod memory_shelf;
mod memory_sink;
mod open_file;
mod std_sink;
#[cfg(test)]
mod tests;
mod traits;

pub use errors::{ShelfErr, SinkErr};
pub use folder::FolderShelf;
pub use memory_shelf::MemoryShelf;
pub use memory_sink::MemorySink;
pub use std_sink::StdSink;
pub use traits::{Shelf, Sink};

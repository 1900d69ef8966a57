//! Names in byte order: which are there, and what each stands for.
#![tactic(auto)]

mod names;
mod table;
#[cfg(test)]
mod tests;

pub use names::Names;
pub use table::NameTable;

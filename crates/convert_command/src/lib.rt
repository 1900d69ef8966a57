//! The form `convert M OUT` of the command line: the converted portfolio of a manifest is written, or what stands against it
//! is printed.
#![tactic(auto)]

mod command;
mod data_line;
mod page;
mod said;
#[cfg(test)]
mod tests;
mod write;

pub use command::report_conversion;

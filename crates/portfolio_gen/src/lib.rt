//! A portfolio made from a number: two programs, of which one selects employees by their date of hire and the other
//! prints them, and a file of so many employees. All of it is this project's choice.
#![tactic(auto)]

mod employees;
mod generate;
mod sources;
#[cfg(test)]
mod tests;

pub use generate::{Made, make};

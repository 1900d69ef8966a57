//! Records whose years are moved by a number of years, on either side of a conversion: with two digits a year,
//! or with four.
#![tactic(auto)]

mod bytes;
mod cut;
mod fault;
mod packed;
mod pair;
mod record;
mod side;
mod task;
#[cfg(test)]
mod tests;

pub use fault::{AgeFault, AgeKind};
pub use record::{age_image_record, age_record};
pub use side::Side;
pub use task::Task;

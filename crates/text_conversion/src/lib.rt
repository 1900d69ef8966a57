//! The texts of a portfolio after its conversion, or what stands against it.
#![tactic(auto)]

mod clash;
mod conversion;
mod convert;

pub use conversion::{Conversion, convert_portfolio};
pub use convert::convert_texts;

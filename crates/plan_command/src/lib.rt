//! The form `plan M` of the command line: what a conversion would change in the pictures of a portfolio, or what stands
//! against it.
#![tactic(auto)]

mod command;

pub use command::{report_limit, report_plan};

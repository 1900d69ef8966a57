//! The external files of a portfolio: which programs use them, by which record areas, and how long their records are.
#![tactic(auto)]

mod fault;
mod known;
mod record;
mod selected;
mod table;
mod whole;

pub use fault::FileFault;
pub use whole::files_of;

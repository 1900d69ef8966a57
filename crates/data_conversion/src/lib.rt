//! The data files of a portfolio that is converted: each is checked before anything is written, and its image is written
//! under another folder.
#![tactic(auto)]

mod check;
mod cuts;
mod fault;
mod write;

pub use check::check_data;
pub use fault::DataFault;
pub use write::convert_data;

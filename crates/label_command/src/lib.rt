//! The form `label-one SRC ITEM` of the command line: the labels of one program, where the first two
//! digits of one of its items are a year.
#![tactic(auto)]

mod command;
mod labels;
mod print;
mod refusal;

pub use command::label_one;

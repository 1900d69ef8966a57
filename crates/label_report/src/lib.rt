//! The form `label M` of the command line: the labels of the portfolio of a manifest, or its conflicts.
#![tactic(auto)]

mod command;

pub use command::{conflicts_text, report_labels};

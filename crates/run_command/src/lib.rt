//! The form `run M JOB YYMMDD BOUND OUT` of the command line: a job runs over the portfolio of a manifest, what it showed
//! and how its programs ended is printed, and the files that then stand are written.
#![tactic(auto)]

mod answer;
mod job;
mod prepare;
mod prepared;
mod refusal;
mod report;
#[cfg(test)]
mod tests;
mod word;

pub use report::report_run;
pub use word::{read_bound, read_day};

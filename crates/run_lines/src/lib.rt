//! What a run of a job prints: a line for each piece that was shown, and a line for each program that was begun.
#![tactic(auto)]

mod ended;
mod lines;
#[cfg(test)]
mod tests;

pub use ended::{STILL_RUNNING, job_status};
pub use lines::job_lines;

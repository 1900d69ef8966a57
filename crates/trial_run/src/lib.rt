//! Jobs: programs run one after the other, a statement a step (ISO 1989:1985, Nucleus and Sequential I-O). What is a
//! step of its own, and which faults end a job, is this project's choice.
#![tactic(auto)]

mod branches;
mod day;
mod end;
mod files;
mod forms;
mod halt;
mod job;
mod performs;
mod plan;
mod program;
mod progress;
mod run;
mod step;
#[cfg(test)]
mod tests;
mod unit;
mod whole;

pub use day::Day;
pub use end::{End, FaultKind};
pub use job::{Job, JobEnd, Shown};
pub use whole::run_job;

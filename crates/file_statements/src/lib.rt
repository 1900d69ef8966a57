//! OPEN, CLOSE, READ and WRITE of a running program: the file's part, the record area, the status item, INTO and FROM
//! (ISO 1989:1985, Sequential I-O). After a fault what was done before it stays done. A file that the store hasn't, and
//! a record that is longer than its area or than those of its file, are want of memory; no sound portfolio has them.
#![tactic(auto)]

mod calls;
mod done;
mod fault;
mod moved;
#[cfg(test)]
mod tests;
mod told;
mod unit;

pub use calls::{close, open, read, write};
pub use fault::StepFault;
pub use unit::RunUnit;

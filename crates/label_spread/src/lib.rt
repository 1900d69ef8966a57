//! The least labelling that has the facts of the seeds and is closed under the rules.
#![tactic(auto)]

mod bytes;
mod closure;
mod fact_set;
mod forms;
mod known;
mod packed;
mod roles;
mod slots;
mod sums;
#[cfg(test)]
mod tests;

pub use bytes::{fact_at, holds_power, index_in};
pub use closure::{derive, spread};
pub use roles::{label_for, power_limit};
pub use slots::{Slot, index_rules, slots_at};

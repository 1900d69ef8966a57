//! The reports of an analysis: which bytes hold years, and which contradict each other.
#![tactic(auto)]

mod conflicts;
#[cfg(test)]
mod item_tests;
mod items;
mod labels;
mod limit;
mod names;
mod places;
mod plan;
mod rows;
#[cfg(test)]
mod tests;

pub use conflicts::conflict_rows;
pub use labels::label_rows;
pub use limit::limit_line;
pub use plan::plan_rows;

//! The labels of a portfolio that changes: after each mend the labels are the least ones of the programs and seeds of
//! that time, as computed from nothing, and the mend tells which labels came and which went. Labels are told by the names
//! of their areas, so they can be compared although programs or areas were added before them.
#![tactic(auto)]

mod live;
mod named;
mod names;

pub use live::{Change, LiveLabels};
pub use named::NamedFact;
pub use names::AreaName;

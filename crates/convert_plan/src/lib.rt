//! The plan of a conversion: the mode of each year, where each byte stands afterwards, and the first limit that stands against
//! it.
#![tactic(auto)]

mod groups;
mod limits;
mod making;
mod modes;
mod numbers;
mod plan;

pub use making::{PlanFault, make_plan};
pub use plan::{PairMode, Plan};

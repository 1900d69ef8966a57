//! The windows of a portfolio: the groups of items whose years stay in two digits.
#![tactic(auto)]

mod fault;
mod group;
mod item;
mod name;
mod window;

pub use fault::WindowFault;
pub use group::windows_of;
pub use window::{Window, Windows};

//! Where the items of a program stand in storage: the tree that the levels of its data description entries
//! make, the place and form of each item, and what a data name means.
#![tactic(auto)]

mod check;
mod fault;
mod find;
mod found;
mod index;
mod item;
mod lay;
mod measure;
mod names;
mod number;
mod portfolio;
mod rules;
mod sections;
#[cfg(test)]
mod tests;
mod tree;
mod values;
mod whole;

pub use fault::LayoutFault;
pub use found::Found;
pub use item::{Area, Class, CondItem, Item, Layout, Step};
pub use portfolio::{FileArea, FileUse, ItemRef, Portfolio};
pub use whole::lay_out;

//! Conditions and differences of years that keep their two digits, written anew so that they go by the hundred years that
//! begin with a pivot.
#![tactic(auto)]

mod condition;
mod difference;
mod expression;
mod form;
mod order;
mod relation;
mod rewriting;
mod site;
#[cfg(test)]
mod tests;

pub use rewriting::window;

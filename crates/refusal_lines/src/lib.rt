//! What is printed where a manifest, its portfolio, its seeds or its windows are refused, and the status that goes with
//! it.
#![tactic(auto)]

mod answer;
mod line;
mod name;
mod status;
mod word;

pub use answer::{refuse, refuse_manifest};
pub use line::{manifest_line, portfolio_line, seeds_line, window_line};
pub use name::{seeds_name, text_name};

//! The manifest of a converted portfolio.
#![tactic(auto)]

#[cfg(test)]
mod tests;
mod text;

pub use text::converted_manifest;

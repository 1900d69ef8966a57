//! Manifests as a shelf holds them: their bytes, their tree, and what they say.
#![tactic(auto)]

mod folder;
mod open;
mod refusal;
#[cfg(test)]
mod tests;

pub use folder::folder_of;
pub use open::{Opened, open_manifest};
pub use refusal::ManifestRefusal;

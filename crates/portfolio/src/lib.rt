//! A portfolio as its manifest describes it: which texts it has, which data files, and which jobs.
#![tactic(auto)]

mod collect;
mod fault;
mod key;
mod manifest;
mod name;
mod read;
mod repeat;
mod shape;
#[cfg(test)]
mod tests;
mod tree;

pub use fault::{ManifestFault, ManifestKind};
pub use manifest::{Manifest, Named, NamedJob, WindowGroup};
pub use name::is_shelf_name;
pub use read::read_manifest;

//! The storage of a running program, and where its places are. Names are resolved once, to `Access`es; at each use
//! of one its subscripts and its reference are read from the storage and checked.
#![tactic(auto)]

mod access;
mod fault;
mod fitting;
mod forms;
mod pictures;
mod reaching;
mod resolving;
mod storage;
#[cfg(test)]
mod tests;

pub use access::{Access, Bound, Cut, NamedAccess, NumberItem};
pub use fault::RunFault;
pub use fitting::layout_fits;
pub use forms::item_form;
pub use resolving::{resolve, resolve_named};
pub use storage::Storage;

//! The small types that every crate of the converter shares: lists, words and their places in texts,
//! bytes and their places in storage, pictures, texts and edits.
#![tactic(auto)]

mod edit;
mod list;
mod memory;
mod picture;
mod place;
#[cfg(test)]
mod tests;
mod text;
mod twin;
mod word;

pub use edit::{Edit, Edits, WordPlace, join_edits};
pub use list::{Bytes, List};
pub use memory::Memory;
pub use picture::{PicClass, Picture, Run};
pub use place::{AreaId, BytePlace, Span};
pub use text::{Text, TextRole, Texts};
pub use twin::Twin;
pub use word::{FileId, Origin, Word, WordKind};

//! Words of statements that are written anew: the words of a program with edits of some in place, new words, the entries of
//! areas that a program gets, and the text statements of a program with their receivers.
#![tactic(auto)]

mod areas;
mod edited;
mod group;
mod new_words;
#[cfg(test)]
mod tests;

pub use areas::add_areas;
pub use edited::{EditedWords, add_edited, add_stretch, word_at};
pub use group::{add_alone, add_head, add_receiver, group_end, next_group, receiver_end};
pub use new_words::{add_text, add_word, procedure_at};

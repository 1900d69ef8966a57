use data_layout::Layout;
use statement_words::EditedWords;
use year_index::YearIndex;

/// A program that is written anew: its words with the edits of single words, its layout, the years of its portfolio and the
/// pivot of the day.
#[derive(Clone, Copy)]
pub(crate) struct OldProgram<'a> {
    pub(crate) source: EditedWords<'a>,
    pub(crate) layout: &'a Layout,
    pub(crate) index: &'a YearIndex,
    pub(crate) day: u8,
}

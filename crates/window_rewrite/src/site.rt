use data_layout::Layout;
use statement_words::EditedWords;
use year_index::YearIndex;

/// A program that is written anew: its words with the edits that they have already, its layout, and the years of its
/// portfolio.
#[derive(Clone, Copy)]
pub(crate) struct Site<'a> {
    pub(crate) source: EditedWords<'a>,
    pub(crate) layout: &'a Layout,
    pub(crate) index: &'a YearIndex,
}

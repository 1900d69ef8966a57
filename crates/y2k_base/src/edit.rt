ghost use Rattle.std.specs.Prelude.{◌≡◌, not, IfOk};
ghost use Rattle.std.specs.List.{filter, list_any};
ghost use Rattle.std.specs.List.Sorted.{IsStableByKey};
ghost use Rattle.y2k_base.specs.Edits.{word_of, is_edited_by, AreInOrder, AreJoined, place_cmp, is_of};

use crate::{List, Memory, Origin, Word};
use std::alloc::Global;

/// Words that stand in place of one word of a program's expanded text: of the word at `position`, whose
/// origin is `at`. Programs and positions count from 0.
#[derive(Debug)]
pub struct Edit {
    pub program: u32,
    pub position: u32,
    pub at: Origin,
    pub words: List<Word>,
}

/// Edits of the programs of a portfolio.
#[derive(Debug, Drop)]
pub struct Edits {
    pub list: List<Edit>,
}

/// A word of a program, by its position in the program's expanded text.
#[derive(Clone, Copy, Debug, PartialEq, Eq, PartialOrd, Ord)]
pub struct WordPlace {
    pub program: u32,
    pub position: u32,
}

impl Drop for Edit {
    fn drop(self) {
        let Edit {
            program: _,
            position: _,
            at: _,
            words: _words,
        } = self;
    }
}

impl Edit {
    /// The word that the edit is of.
    pub fn word(&self) -> WordPlace
        ensures { result ≡ word_of self.now }
    {
        WordPlace {
            program: self.program,
            position: self.position,
        }
    }
}

/// All edits of `second`, and those of `first` whose words `second` leaves alone, by program and then
/// position. Edits of one word keep their order. The second list is in this order already.
pub fn join_edits(alloc: Global, first: Edits, second: Edits) -> Result<Edits, Memory>
    requires { AreInOrder second.list }
    ensures { IfOk result (λ joined. AreJoined first.list second.list joined.list) }
{
    let mut second = second.list.into_vec();
    let mut joined = left_alone(alloc, first.list.into_vec(), &second)?;
    joined.append(&mut second)?;
    put_in_order(&mut joined)?;
    Ok(Edits {
        list: List::from_vec(joined),
    })
}

/// The edits of words that the others leave alone.
fn left_alone(alloc: Global, edits: Vec<Edit>, others: &[Edit]) -> Result<Vec<Edit>, Memory>
    requires { AreInOrder others.now }
    ensures { IfOk result (λ kept. kept.items ≡ filter (λ e. not (is_edited_by others.now e)) edits.items) }
{
    let mut kept = Vec::new(alloc);
    for edit in edits {
        if !is_edited(others, edit.word()) {
            kept.push(edit)?;
        }
    }
    Ok(kept)
}

/// Whether one of the edits is of the word.
fn is_edited(edits: &[Edit], word: WordPlace) -> bool
    requires { AreInOrder edits.now }
    ensures { result ≡ list_any (is_of word) edits.now }
{
    edits
        .binary_search_by_key(&word, |edit| edit.word())
        .is_ok()
}

fn put_in_order(edits: &mut Vec<Edit>) -> Result<(), Memory>
    ensures sorted { IfOk result (λ _. AreInOrder edits.new.items) }
    ensures stable { IfOk result (λ _. IsStableByKey word_of place_cmp edits.old.items edits.new.items) }
{
    edits.sort_by_key(|edit| edit.word())?;
    Ok(())
}

ghost use Rattle.std.specs.Prelude.{◌≡◌, ◌≤◌, ◌-◌, ◌++◌, true, false, length, option_map, slice_get, OnOk};
ghost use Rattle.std.specs.Option.{option_to_list};
ghost use Rattle.std.specs.List.Sorted.{IsPartitionPoint};
ghost use Rattle.y2k_base.specs.Edits.{AreInOrder, edits_of, is_of};
ghost use Rattle.statement_words.specs.Edited as spec;
ghost use Rattle.statement_words.specs.Edited.{comes_before, first_of};

use std::alloc::Global;
use y2k_base::{Edit, List, Memory, Twin, Word, WordPlace};

/// The words of a program, some of them edited. The edits may be those of a whole portfolio, by program, then position.
#[derive(Clone, Copy)]
pub struct EditedWords<'a> {
    pub program: u32,
    pub words: &'a [Word],
    pub edits: &'a [Edit],
}

/// How many edits are of words before that one.
fn count_before(edits: &[Edit], word: WordPlace) -> usize
    requires { AreInOrder edits.now }
    ensures within { result ≤ length edits.now }
    ensures point { IsPartitionPoint (λ edit. comes_before word edit ≡ true) (λ edit. comes_before word edit ≡ false) edits.now result }
{
    edits.partition_point(|edit| edit.word() < word)
}

fn is_of(edit: &Edit, word: WordPlace) -> bool
    ensures { result ≡ is_of word edit.now }
{
    edit.program == word.program && edit.position == word.position
}

/// The first edit of a word.
fn edit_of<'a>(edits: &'a [Edit], word: WordPlace) -> Option<&'a Edit>
    requires { AreInOrder edits.now }
    ensures { option_map (λ edit. edit.now) result ≡ first_of (edits_of word edits.now) }
{
    match edits.get(count_before(edits, word)) {
        None => None,
        Some(edit) => { if is_of(edit, word) { Some(edit) } else { None } }
    }
}

fn add_words(alloc: Global, into: &mut List<Word>, words: &[Word]) -> Result<(), Memory>
    ensures { OnOk result (into.new ≡ into.old ++ words.now) }
{
    let mut rest = words;
    while let [word, more @ ..] = rest {
        into.push(word.twin(alloc)?)?;
        rest = more;
    }
    Ok(())
}

/// The word at a position, if there is one.
pub fn word_at(words: &[Word], position: u32) -> Option<&Word>
    ensures { option_map (λ word. word.now) result ≡ slice_get words.now position }
{
    match words.get(position as usize) {
        None => None,
        Some(word) => Some(word),
    }
}

/// Adds the word at a position, if there is one.
fn add_own_word(
    alloc: Global,
    into: &mut List<Word>,
    words: &[Word],
    position: u32,
) -> Result<(), Memory>
    ensures { OnOk result (into.new ≡ into.old ++ option_to_list (slice_get words.now position)) }
{
    match word_at(words, position) {
        None => Ok(()),
        Some(word) => {
            into.push(word.twin(alloc)?)?;
            Ok(())
        }
    }
}

/// Adds the words that stand in place of the one at a position.
fn add_at(
    alloc: Global,
    into: &mut List<Word>,
    source: EditedWords,
    position: u32,
) -> Result<(), Memory>
    requires { AreInOrder source.edits.now }
    ensures { OnOk result (into.new ≡ into.old ++ spec.words_at source.entry.program source.entry.words.now source.entry.edits.now position) }
{
    let word = WordPlace {
        program: source.program,
        position,
    };
    match edit_of(source.edits, word) {
        None => {
            add_own_word(alloc, into, source.words, position)?;
            Ok(())
        }
        Some(edit) => {
            add_words(alloc, into, edit.words.items())?;
            Ok(())
        }
    }
}

#[tactic(auto, using(crate::proofs::Stretches::edited_step, crate::proofs::Stretches::edited_none))]
/// Adds the words from position `from` on up to `end`, edited. Of several edits of one word the first counts.
pub fn add_edited(
    alloc: Global,
    into: &mut List<Word>,
    source: EditedWords,
    from: u32,
    end: u32,
) -> Result<(), Memory>
    requires { AreInOrder source.edits.now }
    ensures { OnOk result (into.new ≡ into.old ++ spec.between source.entry.program source.entry.words.now source.entry.edits.now from end) }
{
    let mut position = from;
    while position < end {
        add_at(alloc, into, source, position)?;
        position += 1;
    }
    Ok(())
}

/// Adds an edit of the word at a position, if there is one.
fn add_edit(
    edits: &mut List<Edit>,
    program: u32,
    words: &[Word],
    position: u32,
    new: List<Word>,
) -> Result<(), Memory>
    ensures { OnOk result (edits.new ≡ edits.old ++ spec.edit_at program words.now position new) }
{
    match word_at(words, position) {
        None => Ok(()),
        Some(word) => {
            edits.push(Edit {
                program,
                position,
                at: word.origin,
                words: new,
            })?;
            Ok(())
        }
    }
}

#[tactic(auto, using(crate::proofs::Stretches::removals_step, crate::proofs::Stretches::removals_none))]
/// Adds edits that take away the words from position `from` on up to `end`.
fn add_removals(
    alloc: Global,
    edits: &mut List<Edit>,
    program: u32,
    words: &[Word],
    from: u32,
    end: u32,
) -> Result<(), Memory>
    ensures { OnOk result (edits.new ≡ edits.old ++ spec.removals program words.now from (end - from)) }
{
    let mut position = from;
    while position < end {
        add_edit(edits, program, words, position, List::new(alloc))?;
        position += 1;
    }
    Ok(())
}

#[tactic(auto, using(crate::proofs::Stretches::stretch_step, crate::proofs::Stretches::stretch_none))]
/// Adds the edits that write the words from position `at` up to `end` anew: the first gets all the new words, and each further
/// one none. A position past the program's last word gets no edit.
pub fn add_stretch(
    alloc: Global,
    edits: &mut List<Edit>,
    program: u32,
    words: &[Word],
    at: u32,
    end: u32,
    new: List<Word>,
) -> Result<(), Memory>
    ensures { OnOk result (edits.new ≡ edits.old ++ spec.stretch program words.now at end new) }
{
    if at < end {
        add_edit(edits, program, words, at, new)?;
        add_removals(alloc, edits, program, words, at + 1, end)?;
        Ok(())
    } else {
        Ok(())
    }
}

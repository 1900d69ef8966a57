ghost use Rattle.std.specs.Prelude.{◌≡◌, ◌++◌, ◌∷◌, [], MatchOption, Some, None, slice_get, IfOk, OnOk};
ghost use Rattle.word_wishes.specs.Wishes as spec;

use literal_images::NewWord;
use std::alloc::Global;
use y2k_base::{Bytes, Edit, List, Memory, Twin, Word, WordKind};

/// The words of the program of that number.
#[derive(Clone, Copy)]
pub(crate) struct ProgramWords<'a> {
    pub(crate) number: u32,
    pub(crate) words: &'a [Word],
}

/// The word at a position.
fn word_at(words: &[Word], position: u32) -> Option<&Word>
    ensures { MatchOption result (slice_get words.now position ≡ None) (λ word. slice_get words.now position ≡ Some word.now) }
{
    words.get(position as usize)
}

/// A word in place of another.
fn instead(old: &Word, kind: WordKind, text: Bytes) -> Word
    ensures { result ≡ spec.instead old.now kind text }
{
    Word {
        text,
        kind,
        origin: old.origin,
    }
}

/// The word that a literal has after the conversion: its new word, or `None` for the old one.
pub fn wanted_word(alloc: Global, old: &Word, new: &Option<NewWord>) -> Result<Word, Memory>
    ensures { IfOk result (λ word. word ≡ spec.wanted_word old.now new.now) }
{
    match new {
        None => {
            let word = old.twin(alloc)?;
            Ok(word)
        }
        Some(NewWord::Number(text)) => {
            let text = text.twin(alloc)?;
            Ok(instead(old, WordKind::Number, text))
        }
        Some(NewWord::Literal(text)) => {
            let text = text.twin(alloc)?;
            Ok(instead(old, WordKind::Literal, text))
        }
    }
}

/// Adds the wish for a word at a position.
fn add_wish(
    alloc: Global,
    wishes: &mut List<Edit>,
    program: u32,
    position: u32,
    word: Word,
) -> Result<(), Memory>
    ensures { OnOk result (wishes.new ≡ wishes.old ++ spec.wish program position word ∷ []) }
{
    let at = word.origin;
    let mut words = List::new(alloc);
    words.push(word)?;
    wishes.push(Edit {
        program,
        position,
        at,
        words,
    })?;
    Ok(())
}

/// Adds what a literal wants at a position, if a word stands there.
pub(crate) fn add_wanted(
    alloc: Global,
    wishes: &mut List<Edit>,
    source: ProgramWords,
    position: u32,
    new: &Option<NewWord>,
) -> Result<(), Memory>
    ensures { OnOk result (wishes.new ≡ wishes.old ++ spec.wanted source.entry.number source.entry.words.now position new.now) }
{
    match word_at(source.words, position) {
        None => Ok(()),
        Some(old) => {
            let word = wanted_word(alloc, old, new)?;
            add_wish(alloc, wishes, source.number, position, word)?;
            Ok(())
        }
    }
}

/// Adds a word of that kind at a position, if a word stands there.
pub(crate) fn add_instead(
    alloc: Global,
    wishes: &mut List<Edit>,
    source: ProgramWords,
    position: u32,
    kind: WordKind,
    text: Bytes,
) -> Result<(), Memory>
    ensures { OnOk result (wishes.new ≡ wishes.old ++ spec.wanted_instead source.entry.number source.entry.words.now position kind text) }
{
    match word_at(source.words, position) {
        None => Ok(()),
        Some(old) => {
            let word = instead(old, kind, text);
            add_wish(alloc, wishes, source.number, position, word)?;
            Ok(())
        }
    }
}

/// Adds a number at a position, if there is one.
pub(crate) fn add_number_if(
    alloc: Global,
    wishes: &mut List<Edit>,
    source: ProgramWords,
    position: u32,
    number: Option<Bytes>,
) -> Result<(), Memory>
    ensures { OnOk result (wishes.new ≡ wishes.old ++ spec.wanted_number source.entry.number source.entry.words.now position number) }
{
    match number {
        None => Ok(()),
        Some(text) => {
            add_instead(alloc, wishes, source, position, WordKind::Number, text)?;
            Ok(())
        }
    }
}

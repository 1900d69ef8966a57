ghost use Rattle.std.specs.Prelude.{◌≡◌, ◌+◌, ◌++◌, [], map, None, Some, IfOk, OnOk};
ghost use Rattle.fixed_format.specs.Shown.{text_lines, text_words};
ghost use Rattle.source_edit.specs.Changes.{changed};
ghost use Rattle.source_edit.specs.Rows as spec;

use crate::changes::Changes;
use crate::line::copy_of;
use fixed_format::Lines;
use std::alloc::Global;
use y2k_base::{Bytes, List, Memory, Word, WordKind};

/// A word of a text, and the words that are to stand in its place if it is edited.
pub struct Placed {
    pub word: Word,
    pub change: Option<List<Word>>,
}

/// A line of a text with its line end, and the words that begin on it.
pub struct Row {
    pub line: Bytes,
    pub words: List<Placed>,
}

impl Drop for Placed {
    fn drop(self) {
        let Placed {
            word: _word,
            change: _change,
        } = self;
    }
}

impl Drop for Row {
    fn drop(self) {
        let Row {
            line: _line,
            words: _words,
        } = self;
    }
}

/// The same word.
pub fn word_copy(alloc: Global, word: &Word) -> Result<Word, Memory>
    ensures { IfOk result (λ copy. copy ≡ word.now) }
{
    Ok(Word {
        text: copy_of(alloc, word.text.items())?,
        kind: word.kind,
        origin: word.origin,
    })
}

/// Adds the same words.
fn add_words(alloc: Global, words: &[Word], into: &mut List<Word>) -> Result<(), Memory>
    ensures { OnOk result (into.new ≡ into.old ++ words.now) }
{
    let mut rest = words;
    while let [word, more @ ..] = rest {
        into.push(word_copy(alloc, word)?)?;
        rest = more;
    }
    Ok(())
}

/// The same words.
pub fn copied(alloc: Global, words: &[Word]) -> Result<List<Word>, Memory>
    ensures { IfOk result (λ copies. copies ≡ words.now) }
{
    let mut copies = List::new(alloc);
    add_words(alloc, words, &mut copies)?;
    Ok(copies)
}

/// The word with the words of its edit.
fn place_of(alloc: Global, word: &Word, changes: &Changes) -> Result<Placed, Memory>
    ensures { IfOk result (λ p. p ≡ spec.placed (changed changes.now) word.now) }
{
    match changes.at(word.origin) {
        Some(words) => Ok(Placed {
            word: word_copy(alloc, word)?,
            change: Some(copied(alloc, words)?),
        }),
        None => Ok(Placed {
            word: word_copy(alloc, word)?,
            change: None,
        }),
    }
}

pub fn is_picture(kind: WordKind) -> bool
    ensures { result ≡ spec.is_picture kind }
{
    match kind {
        WordKind::Picture => true,
        WordKind::Name | WordKind::Number | WordKind::Literal | WordKind::Mark => false,
    }
}

impl Placed {
    /// The cell of the word on its line, from 0 at column 8.
    pub fn cell(&self) -> usize
        ensures { result ≡ spec.cell self.now }
    {
        (self.word.origin.column as usize).saturating_sub(8)
    }

    /// Adds the words that are to stand in the place of the word.
    pub fn add_to(&self, alloc: Global, into: &mut List<Word>) -> Result<(), Memory>
        ensures { OnOk result (into.new ≡ into.old ++ spec.gives self.now) }
    {
        match &self.change {
            Some(words) => {
                add_words(alloc, words.items(), into)?;
                Ok(())
            }
            None => {
                into.push(word_copy(alloc, &self.word)?)?;
                Ok(())
            }
        }
    }
}

/// The words at the front that begin on this line, and the words behind them.
fn on_line<'a>(
    alloc: Global,
    number: u32,
    words: &'a [Word],
    changes: &Changes,
) -> Result<(List<Placed>, &'a [Word]), Memory>
    ensures own { IfOk result (λ r. r.0 ≡ map (spec.placed (changed changes.now)) (spec.on_line number words.now)) }
    ensures rest { IfOk result (λ r. r.1.now ≡ spec.behind_line number words.now) }
{
    let mut own = List::new(alloc);
    let mut rest = words;
    while let [word, more @ ..] = rest {
        if word.origin.line != number {
            return Ok((own, rest));
        }
        own.push(place_of(alloc, word, changes)?)?;
        rest = more;
    }
    Ok((own, rest))
}

fn next(number: u32) -> Result<u32, Memory>
    ensures { IfOk result (λ next. next ≡ number + 1) }
{
    match number.checked_add(1) {
        Some(next) => Ok(next),
        None => Err(Memory),
    }
}

/// The lines of a text, each with the words that begin on it.
pub fn rows_of(alloc: Global, lines: &Lines, changes: &Changes) -> Result<List<Row>, Memory>
    ensures { IfOk result (λ rows. (rows ≡ spec.rows_from (changed changes.now) 1 (text_lines lines.now) (text_words lines.now)) × (spec.left_over 1 (text_lines lines.now) (text_words lines.now) ≡ [])) }
{
    let mut rows = List::new(alloc);
    let mut number = 1;
    let mut rest = lines.words();
    while let Some(line) = lines.line(number) {
        let (words, more) = on_line(alloc, number, rest, changes)?;
        rows.push(Row {
            line: copy_of(alloc, line)?,
            words,
        })?;
        number = next(number)?;
        rest = more;
    }
    if rest.is_empty() {
        Ok(rows)
    } else {
        Err(Memory)
    }
}

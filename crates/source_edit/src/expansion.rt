//! What programs read as before and after their texts are edited.

ghost use Rattle.std.specs.Prelude.{◌≡◌, ◌++◌, ◌+◌, [], None, Some, IfOk, OnOk};
ghost use Rattle.std.specs.Option.{option_map_or};
ghost use Rattle.source_edit.specs.Changes.{replaced};
ghost use Rattle.source_edit.specs.Clashes as clashes;
ghost use Rattle.source_edit.specs.Expansions as spec;

use crate::changes::Replacements;
use crate::clash::{are_alike, clash, first_difference, same_count, text_at};
use crate::line::copy_of;
use crate::row::{copied, word_copy};
use copy_origins::{Book, Books, CopyFault, expand};
use fixed_format::{LineFault, read_lines};
use plan_limits::Limit;
use std::alloc::Global;
use y2k_base::{FileId, List, Memory, Origin, Text, TextRole, Word, WordPlace};

/// The text of a program, which is the file of that number, with its words if its lines have no fault.
pub struct Source {
    pub file: FileId,
    pub words: Option<List<Word>>,
}

/// The words of texts: the copybooks whose lines have no fault, and the programs.
pub struct Sources {
    pub books: Books,
    pub programs: List<Source>,
}

impl Drop for Source {
    fn drop(self) {
        let Source {
            file: _,
            words: _words,
        } = self;
    }
}

impl Drop for Sources {
    fn drop(self) {
        let Sources {
            books: _books,
            programs: _programs,
        } = self;
    }
}

/// The words of a text, if its lines have no fault.
fn words_of(alloc: Global, text: &[u8], file: FileId) -> Result<Option<List<Word>>, Memory>
    ensures { IfOk result (λ words. words ≡ spec.words_read file text.now) }
{
    match read_lines(alloc, text, file) {
        Ok(lines) => {
            let words = copied(alloc, lines.words())?;
            Ok(Some(words))
        }
        Err(LineFault::At { kind: _, at: _ }) => Ok(None),
        Err(LineFault::Memory) => Err(Memory),
    }
}

impl Sources {
    fn add_book(
        &mut self,
        alloc: Global,
        key: &[u8],
        words: Option<List<Word>>,
    ) -> Result<(), Memory>
        ensures { OnOk result (self.new ≡ spec.with_book self.old key.now words) }
    {
        match words {
            Some(words) => {
                let key = copy_of(alloc, key)?;
                self.books.list.push(Book { key, words })?;
                Ok(())
            }
            None => Ok(()),
        }
    }

    fn add(&mut self, alloc: Global, text: &Text, file: FileId) -> Result<(), Memory>
        ensures { OnOk result (self.new ≡ spec.with_text self.old file text.now) }
    {
        let words = words_of(alloc, text.bytes.items(), file)?;
        match text.role {
            TextRole::Program => {
                self.programs.push(Source { file, words })?;
                Ok(())
            }
            TextRole::Book => {
                self.add_book(alloc, text.key.items(), words)?;
                Ok(())
            }
        }
    }
}

/// The words of texts, the first of which is the file of number 0.
pub fn sources_of(alloc: Global, texts: &[Text]) -> Result<Sources, Memory>
    ensures { IfOk result (λ sources. sources ≡ spec.sources_of texts.now) }
{
    let mut sources = Sources {
        books: Books {
            list: List::new(alloc),
        },
        programs: List::new(alloc),
    };
    let mut number = 0u32;
    let mut rest = texts;
    while let [text, more @ ..] = rest {
        sources.add(alloc, text, FileId(number))?;
        number = next(number)?;
        rest = more;
    }
    Ok(sources)
}

/// The number after this one; past the last number of u32 is want of memory.
pub fn next(number: u32) -> Result<u32, Memory>
    ensures { IfOk result (λ next. next ≡ number + 1) }
{
    match number.checked_add(1) {
        Some(next) => Ok(next),
        None => Err(Memory),
    }
}

/// What words expand to, if they have an expansion.
fn expansion_of_words(
    alloc: Global,
    words: &[Word],
    books: &Books,
) -> Result<Option<List<Word>>, Memory>
    ensures { IfOk result (spec.Expands words.now books.now.list) }
{
    match expand(alloc, words, books) {
        Ok(expanded) => Ok(Some(expanded.words)),
        Err(CopyFault::Memory) => Err(Memory),
        Err(CopyFault::CopyShape(_)) => Ok(None),
        Err(CopyFault::CopyMissing(_)) => Ok(None),
        Err(CopyFault::NestedCopy(_)) => Ok(None),
    }
}

/// What a program reads as with its copybooks, if it has an expansion.
fn expansion_of(alloc: Global, source: &Source, books: &Books) -> Result<Option<List<Word>>, Memory>
    ensures { IfOk result (spec.ReadsWith source.now.words books.now.list) }
{
    match &source.words {
        None => Ok(None),
        Some(words) => match expansion_of_words(alloc, words.items(), books) {
            Ok(expanded) => Ok(expanded),
            Err(_) => Err(Memory),
        },
    }
}

/// Adds words at the origin of the word that they stand for.
fn add_at(
    alloc: Global,
    words: &[Word],
    origin: Origin,
    into: &mut List<Word>,
) -> Result<(), Memory>
    ensures { OnOk result (into.new ≡ into.old ++ spec.standing origin words.now) }
{
    let mut rest = words;
    while let [word, more @ ..] = rest {
        into.push(Word {
            text: copy_of(alloc, word.text.items())?,
            kind: word.kind,
            origin,
        })?;
        rest = more;
    }
    Ok(())
}

/// Adds what stands for the word at a position of a program.
fn add_edited(
    alloc: Global,
    word: &Word,
    place: WordPlace,
    replacements: &Replacements,
    into: &mut List<Word>,
) -> Result<(), Memory>
    ensures { OnOk result (into.new ≡ into.old ++ spec.stands word.now (replaced replacements.now place)) }
{
    match replacements.at(place) {
        Some(words) => {
            add_at(alloc, words, word.origin, into)?;
            Ok(())
        }
        None => {
            into.push(word_copy(alloc, word)?)?;
            Ok(())
        }
    }
}

/// What a program is to read as: its words with those of its edits in place, each at the origin of the word that it stands for.
fn edited_expansion(
    alloc: Global,
    program: u32,
    words: &[Word],
    replacements: &Replacements,
) -> Result<List<Word>, Memory>
    ensures { IfOk result (λ edited. edited ≡ spec.edited (replaced replacements.now) program 0 words.now) }
{
    let mut edited = List::new(alloc);
    let mut position = 0u32;
    let mut rest = words;
    while let [word, more @ ..] = rest {
        let place = WordPlace { program, position };
        add_edited(alloc, word, place, replacements, &mut edited)?;
        position = next(position)?;
        rest = more;
    }
    Ok(edited)
}

/// The origin of the last word, or else the begin of the text.
fn last_origin(words: &[Word], file: FileId) -> Origin
    ensures { result ≡ spec.last_origin words.now file }
{
    match words.last() {
        Some(last) => last.origin,
        None => Origin {
            file,
            line: 1,
            column: 1,
        },
    }
}

/// The origin of the word at that index, or else that of the last word of the original.
fn origin_at(edited: &[Word], index: usize, original: &[Word], file: FileId) -> Origin
    ensures { result ≡ spec.origin_at edited.now index original.now file }
{
    match edited.get(index) {
        Some(word) => word.origin,
        None => last_origin(original, file),
    }
}

/// Adds the clash of a program that reads as other words than it is to read as.
fn add_difference(
    alloc: Global,
    file: FileId,
    original: &[Word],
    edited: &[Word],
    read: &[Word],
    into: &mut List<Limit>,
) -> Result<(), Memory>
    ensures { OnOk result (into.new ≡ into.old ++ spec.difference file original.now edited.now read.now) }
{
    if !are_alike(edited, read) {
        let at = origin_at(edited, same_count(edited, read), original, file);
        into.push(first_difference(alloc, at, edited, read)?)?;
    }
    Ok(())
}

/// Adds the clash of a program whose new text reads as these words, or as none, where that isn't what it is to read as.
fn add_clash(
    alloc: Global,
    file: FileId,
    original: &[Word],
    edited: &[Word],
    read: &Option<List<Word>>,
    into: &mut List<Limit>,
) -> Result<(), Memory>
    ensures { OnOk result (into.new ≡ into.old ++ spec.clash_between file original.now edited.now read.now) }
{
    match read {
        None => {
            let at = origin_at(edited, 0, original, file);
            into.push(clash(at, text_at(alloc, edited, 0)?, List::new(alloc)))?;
            Ok(())
        }
        Some(words) => {
            add_difference(alloc, file, original, edited, words.items(), into)?;
            Ok(())
        }
    }
}

/// A program before and after its text is edited, with its copybooks.
#[derive(Clone, Copy)]
pub struct Pair<'a> {
    pub source: &'a Source,
    pub books: &'a Books,
    pub new_source: &'a Source,
    pub new_books: &'a Books,
}

/// Adds the clash of a program, if it has one.
fn add_program_clash(
    alloc: Global,
    program: u32,
    replacements: &Replacements,
    pair: Pair,
    into: &mut List<Limit>,
) -> Result<(), Memory>
    ensures { OnOk result (spec.AddsClash (replaced replacements.now) program pair.entry.source.now pair.entry.books.now.list pair.entry.new_source.now pair.entry.new_books.now.list into.old into.new) }
{
    match expansion_of(alloc, pair.source, pair.books)? {
        None => Err(Memory),
        Some(original) => {
            let edited = edited_expansion(alloc, program, original.items(), replacements)?;
            let read = expansion_of(alloc, pair.new_source, pair.new_books)?;
            add_clash(
                alloc,
                pair.source.file,
                original.items(),
                edited.items(),
                &read,
                into,
            )?;
            Ok(())
        }
    }
}

/// The clashes of the programs whose new texts read as other words than they are to read as.
pub fn program_clashes(
    alloc: Global,
    replacements: &Replacements,
    old: &Sources,
    new: &Sources,
) -> Result<List<Limit>, Memory>
    ensures { IfOk result (λ clashes. spec.AreProgramClashes (replaced replacements.now) old.now.books.list new.now.books.list 0 old.now.programs new.now.programs clashes) }
{
    let mut clashes = List::new(alloc);
    let mut program = 0u32;
    let mut rest = old.programs.items();
    let mut others = new.programs.items();
    while let [source, more @ ..] = rest {
        let [other, later @ ..] = others else {
            return Err(Memory);
        };
        let pair = Pair {
            source,
            books: &old.books,
            new_source: other,
            new_books: &new.books,
        };
        add_program_clash(alloc, program, replacements, pair, &mut clashes)?;
        program = next(program)?;
        rest = more;
        others = later;
    }
    Ok(clashes)
}

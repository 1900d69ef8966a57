ghost use Rattle.std.specs.Prelude.{◌≡◌, ◌+◌, [], IfOk, IfErr, OnOk};
ghost use Rattle.fixed_format.specs.Columns.{lines};
ghost use Rattle.fixed_format.specs.Joined.{faults_in};
ghost use Rattle.program_texts.specs.Texts as spec;

use copy_origins::{Book, Books};
use fixed_format::{LineFault, LineKind, read_lines};
use program_reader::{ReadFault, Refused, RefusedKind};
use std::alloc::Global;
use y2k_base::{FileId, List, Memory, Text, TextRole, Twin, Word};

/// The words of a program's text, which is the file of that number.
pub struct Source {
    pub file: FileId,
    pub words: List<Word>,
}

/// The words of texts: the copybooks, and the texts of programs, each in the order of the texts.
pub struct TextWords {
    pub books: Books,
    pub sources: List<Source>,
}

impl Drop for Source {
    fn drop(self) {
        let Source {
            file: _,
            words: _words,
        } = self;
    }
}

impl Drop for TextWords {
    fn drop(self) {
        let TextWords {
            books: _books,
            sources: _sources,
        } = self;
    }
}

impl TextWords {
    /// The words of no texts. It takes no memory.
    pub fn new(alloc: Global) -> TextWords
        ensures { result ≡ spec.no_words }
    {
        TextWords {
            books: Books {
                list: List::new(alloc),
            },
            sources: List::new(alloc),
        }
    }

    /// Adds the words of a text, which is the file of that number, or names the first fault of its lines.
    pub fn add(&mut self, alloc: Global, number: u32, text: &Text) -> Result<(), ReadFault>
        ensures ok { OnOk result (self.new ≡ spec.with_text self.old number text.now) }
        ensures whole { OnOk result (faults_in (lines text.now.bytes) ≡ []) }
        ensures fault { IfErr result (spec.IsRefusedText number text.now) }
    {
        match read_lines(alloc, text.bytes.items(), FileId(number)) {
            Ok(lines) => {
                let words = copied(alloc, lines.words())?;
                self.add_words(alloc, number, text, words)?;
                Ok(())
            }
            Err(LineFault::At { kind, at }) => Err(ReadFault::Refused(Refused {
                kind: kind_of(kind),
                at,
            })),
            Err(LineFault::Memory) => Err(ReadFault::Memory),
        }
    }

    fn add_words(
        &mut self,
        alloc: Global,
        number: u32,
        text: &Text,
        words: List<Word>,
    ) -> Result<(), Memory>
        ensures { OnOk result (self.new ≡ spec.with_words self.old number text.now words) }
    {
        match text.role {
            TextRole::Book => {
                let key = text.key.twin(alloc)?;
                self.books.list.push(Book { key, words })?;
                Ok(())
            }
            TextRole::Program => {
                let file = FileId(number);
                self.sources.push(Source { file, words })?;
                Ok(())
            }
        }
    }
}

fn copied(alloc: Global, words: &[Word]) -> Result<List<Word>, Memory>
    ensures { IfOk result (λ copies. copies ≡ words.now) }
{
    let mut copies = List::new(alloc);
    for word in words {
        copies.push(word.twin(alloc)?)?;
    }
    Ok(copies)
}

fn kind_of(kind: LineKind) -> RefusedKind
    ensures { result ≡ spec.kind_of kind }
{
    match kind {
        LineKind::BadByte => RefusedKind::BadByte,
        LineKind::LineLong => RefusedKind::LineLong,
        LineKind::OpenLiteral => RefusedKind::OpenLiteral,
        LineKind::BadContinuation => RefusedKind::BadContinuation,
        LineKind::WordLong => RefusedKind::WordLong,
    }
}

/// The words of texts, the first of which is the file of number 0, or the first fault in the lines of the first
/// text that has one. More texts than u32 can number are want of memory.
pub fn read_texts(alloc: Global, texts: &[Text]) -> Result<TextWords, ReadFault>
    ensures words { IfOk result (λ read. read ≡ spec.words_of texts.now) }
    ensures whole { OnOk result (spec.AreWhole texts.now) }
    ensures fault { IfErr result (spec.HasLineFault texts.now) }
{
    let mut read = TextWords::new(alloc);
    let mut number = 0;
    let mut rest = texts;
    while let [text, more @ ..] = rest {
        read.add(alloc, number, text)?;
        number = next(number)?;
        rest = more;
    }
    Ok(read)
}

pub fn next(number: u32) -> Result<u32, Memory>
    ensures { IfOk result (λ next. next ≡ number + 1) }
{
    match number.checked_add(1) {
        Some(next) => Ok(next),
        None => Err(Memory),
    }
}

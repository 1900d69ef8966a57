ghost use Rattle.std.specs.Prelude.{◌≡◌};

use crate::expr::Operand;
use crate::place::Place;
use crate::statement::Statement;
use decimal_bytes::SignPlace;
use std::alloc::Global;
use y2k_base::{Bytes, List, Memory, Picture, Twin, Word};

/// A program as read from its expanded words. The positions `at`, `end` and `picture_at` of its tree are
/// positions in `words`, from 0.
pub struct Program {
    pub id: Bytes,
    pub words: List<Word>,
    pub selects: List<Select>,
    pub files: List<FileEntry>,
    pub storage: List<Entry>,
    pub paragraphs: List<Paragraph>,
}

/// A SELECT entry: the name of the file in the program, the external name that ASSIGN gives it, and the
/// item of FILE STATUS.
pub struct Select {
    pub name: Bytes,
    pub external: Bytes,
    pub status: Option<Place>,
    pub at: u32,
}

/// An FD with its record entries. `contains` is the number of RECORD CONTAINS.
pub struct FileEntry {
    pub name: Bytes,
    pub contains: Option<Operand>,
    pub entries: List<Entry>,
    pub at: u32,
}

/// A data description entry. Its name is `None` where it is FILLER or has none; `picture_at` is the position
/// of its character-string, and `ranges` are the values of a condition-name.
pub struct Entry {
    pub level: u8,
    pub name: Option<Bytes>,
    pub redefines: Option<Bytes>,
    pub occurs: Option<u32>,
    pub picture: Option<Picture>,
    pub picture_at: u32,
    pub usage: Usage,
    pub sign: SignPlace,
    pub value: Option<Operand>,
    pub ranges: List<Range>,
    pub at: u32,
}

/// A value of a condition-name, or with THRU the values between two.
pub struct Range {
    pub low: Operand,
    pub high: Option<Operand>,
}

/// How a number stands in storage.
#[derive(Clone, Copy, Debug, PartialEq, Eq)]
pub enum Usage {
    Display,
    Packed,
    Binary,
}

/// A paragraph or a section of the procedure division, with its own sentences.
pub struct Paragraph {
    pub name: Bytes,
    pub section: bool,
    pub sentences: List<Sentence>,
    pub at: u32,
}

/// The statements up to a period.
pub struct Sentence {
    pub statements: List<Statement>,
}

impl Sentence {
    pub fn into_statements(self) -> List<Statement>
        ensures { result ≡ self.statements }
    {
        let Sentence { statements } = self;
        statements
    }
}

impl Paragraph {
    pub fn into_sentences(self) -> List<Sentence>
        ensures { result ≡ self.sentences }
    {
        let Paragraph {
            name: _name,
            section: _,
            sentences,
            at: _,
        } = self;
        sentences
    }
}

impl Drop for Program {
    fn drop(self) {
        let Program {
            id: _id,
            words: _words,
            selects: _selects,
            files: _files,
            storage: _storage,
            paragraphs: _paragraphs,
        } = self;
    }
}

impl Drop for Select {
    fn drop(self) {
        let Select {
            name: _name,
            external: _external,
            status: _status,
            at: _,
        } = self;
    }
}

impl Drop for FileEntry {
    fn drop(self) {
        let FileEntry {
            name: _name,
            contains: _contains,
            entries: _entries,
            at: _,
        } = self;
    }
}

impl Drop for Entry {
    fn drop(self) {
        let Entry {
            level: _,
            name: _name,
            redefines: _redefines,
            occurs: _,
            picture: _picture,
            picture_at: _,
            usage: _,
            sign: _,
            value: _value,
            ranges: _ranges,
            at: _,
        } = self;
    }
}

impl Drop for Range {
    fn drop(self) {
        let Range {
            low: _low,
            high: _high,
        } = self;
    }
}

impl Drop for Paragraph {
    fn drop(self) {
        let Paragraph {
            name: _name,
            section: _,
            sentences: _sentences,
            at: _,
        } = self;
    }
}

impl Drop for Sentence {
    fn drop(self) {
        let Sentence {
            statements: _statements,
        } = self;
    }
}

impl Twin for Program {
    fn twin(&self, alloc: Global) -> Result<Program, Memory> {
        Ok(Program {
            id: self.id.twin(alloc)?,
            words: self.words.twin(alloc)?,
            selects: self.selects.twin(alloc)?,
            files: self.files.twin(alloc)?,
            storage: self.storage.twin(alloc)?,
            paragraphs: self.paragraphs.twin(alloc)?,
        })
    }
}

impl Twin for Select {
    fn twin(&self, alloc: Global) -> Result<Select, Memory> {
        Ok(Select {
            name: self.name.twin(alloc)?,
            external: self.external.twin(alloc)?,
            status: self.status.twin(alloc)?,
            at: self.at,
        })
    }
}

impl Twin for FileEntry {
    fn twin(&self, alloc: Global) -> Result<FileEntry, Memory> {
        Ok(FileEntry {
            name: self.name.twin(alloc)?,
            contains: self.contains.twin(alloc)?,
            entries: self.entries.twin(alloc)?,
            at: self.at,
        })
    }
}

impl Twin for Entry {
    fn twin(&self, alloc: Global) -> Result<Entry, Memory> {
        Ok(Entry {
            level: self.level,
            name: self.name.twin(alloc)?,
            redefines: self.redefines.twin(alloc)?,
            occurs: self.occurs,
            picture: self.picture.twin(alloc)?,
            picture_at: self.picture_at,
            usage: self.usage,
            sign: self.sign,
            value: self.value.twin(alloc)?,
            ranges: self.ranges.twin(alloc)?,
            at: self.at,
        })
    }
}

impl Twin for Range {
    fn twin(&self, alloc: Global) -> Result<Range, Memory> {
        Ok(Range {
            low: self.low.twin(alloc)?,
            high: self.high.twin(alloc)?,
        })
    }
}

impl Twin for Paragraph {
    fn twin(&self, alloc: Global) -> Result<Paragraph, Memory> {
        Ok(Paragraph {
            name: self.name.twin(alloc)?,
            section: self.section,
            sentences: self.sentences.twin(alloc)?,
            at: self.at,
        })
    }
}

impl Twin for Sentence {
    fn twin(&self, alloc: Global) -> Result<Sentence, Memory> {
        Ok(Sentence {
            statements: self.statements.twin(alloc)?,
        })
    }
}

ghost use Rattle.std.specs.Prelude.{◌≡◌, ◌⊎◌, ◌<◌, ◌↔◌, IsTrue, IfOk};

use crate::{Bytes, Memory, Twin};
use std::alloc::Global;

/// A text of the portfolio, by its number from 0.
#[derive(Clone, Copy, Debug, PartialEq, Eq, PartialOrd, Ord)]
pub struct FileId(pub u32);

/// Where a word begins in a text. Lines and columns count from 1.
#[derive(Clone, Copy, Debug, PartialEq, Eq, PartialOrd, Ord)]
pub struct Origin {
    pub file: FileId,
    pub line: u32,
    pub column: u32,
}

/// What kind of word a word is.
#[derive(Clone, Copy, Debug, PartialEq, Eq)]
pub enum WordKind {
    Name,
    Number,
    Literal,
    Picture,
    Mark,
}

/// A word of a text, in capitals, but for a literal, whose text is what its marks enclose.
#[derive(Debug)]
pub struct Word {
    pub text: Bytes,
    pub kind: WordKind,
    pub origin: Origin,
}

impl Origin {
    /// Whether this place comes first, by file, then line, then column.
    pub fn before(self, other: Origin) -> bool
        ensures { IsTrue result ↔ (self.file.0 < other.file.0
            ⊎ ((self.file.0 ≡ other.file.0) × (self.line < other.line
            ⊎ ((self.line ≡ other.line) × (self.column < other.column))))) }
    {
        if self.file != other.file {
            self.file.0 < other.file.0
        } else if self.line != other.line {
            self.line < other.line
        } else {
            self.column < other.column
        }
    }
}

impl Word {
    /// Whether kind and text are equal.
    pub fn same_text(&self, other: &Word) -> bool
        ensures { IsTrue result ↔ ((self.now.kind ≡ other.now.kind) × (self.now.text ≡ other.now.text)) }
    {
        self.kind == other.kind && self.text.items() == other.text.items()
    }
}

impl Drop for Word {
    fn drop(self) {
        let Word {
            text: _text,
            kind: _,
            origin: _,
        } = self;
    }
}

impl Twin for FileId {
    fn twin(&self, _: Global) -> Result<FileId, Memory> {
        Ok(*self)
    }
}

impl Twin for WordKind {
    fn twin(&self, _: Global) -> Result<WordKind, Memory> {
        Ok(*self)
    }
}

impl Twin for Origin {
    fn twin(&self, _: Global) -> Result<Origin, Memory> {
        Ok(*self)
    }
}

impl Twin for Word {
    fn twin(&self, alloc: Global) -> Result<Word, Memory> {
        Ok(Word {
            text: self.text.twin(alloc)?,
            kind: self.kind,
            origin: self.origin,
        })
    }
}

use std::alloc::Global;
use y2k_base::{Bytes, List, Memory, Twin};

/// An identifier: a data name with its qualifiers, its subscripts, and the part of it that is meant where
/// a reference modification stands. `at` is the position of its first word in the program's words, and
/// `end` is one past its last.
pub struct Place {
    /// The data name, and then the groups that qualify it, from the innermost on.
    pub names: List<Bytes>,
    pub subs: List<Sub>,
    pub cut: Option<Part>,
    pub at: u32,
    pub end: u32,
}

/// A subscript, or a bound of a reference modification: a number as written, or a data name with its
/// qualifiers, from the innermost on.
pub enum Sub {
    Number { value: u32, at: u32 },
    Name(List<Bytes>),
}

/// A reference modification `(start:length)`. Starts count from 1, and a length that isn't written reaches
/// to the end of the item.
pub struct Part {
    pub start: Sub,
    pub length: Option<Sub>,
}

impl Drop for Sub {
    fn drop(self) {
        match self {
            Sub::Number { value: _, at: _ } => {}
            Sub::Name(_names) => {}
        }
    }
}

impl Drop for Part {
    fn drop(self) {
        let Part {
            start: _start,
            length: _length,
        } = self;
    }
}

impl Drop for Place {
    fn drop(self) {
        let Place {
            names: _names,
            subs: _subs,
            cut: _cut,
            at: _,
            end: _,
        } = self;
    }
}

impl Twin for Sub {
    fn twin(&self, alloc: Global) -> Result<Sub, Memory> {
        match self {
            Sub::Number { value, at } => Ok(Sub::Number {
                value: *value,
                at: *at,
            }),
            Sub::Name(names) => Ok(Sub::Name(names.twin(alloc)?)),
        }
    }
}

impl Twin for Part {
    fn twin(&self, alloc: Global) -> Result<Part, Memory> {
        Ok(Part {
            start: self.start.twin(alloc)?,
            length: self.length.twin(alloc)?,
        })
    }
}

impl Twin for Place {
    fn twin(&self, alloc: Global) -> Result<Place, Memory> {
        Ok(Place {
            names: self.names.twin(alloc)?,
            subs: self.subs.twin(alloc)?,
            cut: self.cut.twin(alloc)?,
            at: self.at,
            end: self.end,
        })
    }
}

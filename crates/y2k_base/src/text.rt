ghost use Rattle.std.specs.Prelude.{◌≡◌, IfOk};

use crate::{Bytes, List, Memory, Twin};
use std::alloc::Global;

/// Whether a text is a program, or a copybook that programs take in by COPY.
#[derive(Clone, Copy, Debug, PartialEq, Eq)]
pub enum TextRole {
    Program,
    Book,
}

/// A text of a portfolio. A name is as the manifest writes it; the key of a copybook is what COPY names it
/// by, and that of a program is empty.
#[derive(Debug)]
pub struct Text {
    pub name: Bytes,
    pub key: Bytes,
    pub role: TextRole,
    pub bytes: Bytes,
}

/// The texts of a portfolio: the copybooks in byte order of their keys, then the programs in the order of
/// the manifest. `FileId(k)` is the k-th of them, from 0.
#[derive(Debug, Drop)]
pub struct Texts {
    pub list: List<Text>,
}

impl Drop for Text {
    fn drop(self) {
        let Text {
            name: _name,
            key: _key,
            role: _,
            bytes: _bytes,
        } = self;
    }
}

impl Twin for Text {
    fn twin(&self, alloc: Global) -> Result<Text, Memory> {
        Ok(Text {
            name: self.name.twin(alloc)?,
            key: self.key.twin(alloc)?,
            role: self.role,
            bytes: self.bytes.twin(alloc)?,
        })
    }
}

impl Twin for Texts {
    fn twin(&self, alloc: Global) -> Result<Texts, Memory> {
        Ok(Texts {
            list: self.list.twin(alloc)?,
        })
    }
}

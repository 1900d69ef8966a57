ghost use Rattle.std.specs.Prelude.{◌≡◌, IfOk};

use crate::item::Layout;
use cobol_syntax::Program;
use std::alloc::Global;
use y2k_base::{AreaId, Bytes, List, Memory, Twin};

/// An external file: its external name, its name on the shelf, the length of its records, and the record
/// areas of the programs that use it.
pub struct FileUse {
    pub external: Bytes,
    pub name: Bytes,
    pub length: u32,
    pub areas: List<FileArea>,
}

/// The record area of a file in one program, which is given by its number.
#[derive(Clone, Copy, Debug, PartialEq, Eq)]
pub struct FileArea {
    pub program: u32,
    pub area: AreaId,
}

/// The programs with their layouts, in the same order, and the external files.
pub struct Portfolio {
    pub programs: List<Program>,
    pub layouts: List<Layout>,
    pub files: List<FileUse>,
}

/// An item of a program of the portfolio, both by their numbers from 0.
#[derive(Clone, Copy, Debug, PartialEq, Eq)]
pub struct ItemRef {
    pub program: u32,
    pub item: u32,
}

impl Drop for FileUse {
    fn drop(self) {
        let FileUse {
            external: _external,
            name: _name,
            length: _,
            areas: _areas,
        } = self;
    }
}

impl Drop for Portfolio {
    fn drop(self) {
        let Portfolio {
            programs: _programs,
            layouts: _layouts,
            files: _files,
        } = self;
    }
}

impl Twin for FileArea {
    fn twin(&self, _: Global) -> Result<FileArea, Memory> {
        Ok(*self)
    }
}

impl Twin for FileUse {
    fn twin(&self, alloc: Global) -> Result<FileUse, Memory> {
        Ok(FileUse {
            external: self.external.twin(alloc)?,
            name: self.name.twin(alloc)?,
            length: self.length,
            areas: self.areas.twin(alloc)?,
        })
    }
}

ghost use Rattle.std.specs.Prelude.{◌≡◌, IfOk};

use crate::{List, Memory, Twin};
use std::alloc::Global;

/// What a picture describes: a text, a number, or a number edited for print.
#[derive(Clone, Copy, Debug, PartialEq, Eq)]
pub enum PicClass {
    Text,
    Number,
    Edited,
}

/// A symbol of a picture, in capitals, and how often it stands in a row.
#[derive(Clone, Copy, Debug, PartialEq, Eq)]
pub struct Run {
    pub symbol: u8,
    pub count: u32,
}

/// A picture: its class, and its symbols from the left. Equal neighbours are one run.
#[derive(Debug)]
pub struct Picture {
    pub class: PicClass,
    pub runs: List<Run>,
}

impl Drop for Picture {
    fn drop(self) {
        let Picture {
            class: _,
            runs: _runs,
        } = self;
    }
}

impl Twin for PicClass {
    fn twin(&self, _: Global) -> Result<PicClass, Memory> {
        Ok(*self)
    }
}

impl Twin for Run {
    fn twin(&self, _: Global) -> Result<Run, Memory> {
        Ok(*self)
    }
}

impl Twin for Picture {
    fn twin(&self, alloc: Global) -> Result<Picture, Memory> {
        Ok(Picture {
            class: self.class,
            runs: self.runs.twin(alloc)?,
        })
    }
}

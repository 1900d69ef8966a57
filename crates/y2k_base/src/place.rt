ghost use Rattle.std.specs.Prelude.{◌≡◌, IfOk};

use crate::{Memory, Twin};
use std::alloc::Global;

/// A storage area of the portfolio, by its number from 0.
#[derive(Clone, Copy, Debug, PartialEq, Eq, PartialOrd, Ord)]
pub struct AreaId(pub u32);

/// One byte of an area. Offsets count from 0.
#[derive(Clone, Copy, Debug, PartialEq, Eq, PartialOrd, Ord)]
pub struct BytePlace {
    pub area: AreaId,
    pub offset: u32,
}

/// Consecutive bytes of an area.
#[derive(Clone, Copy, Debug, PartialEq, Eq)]
pub struct Span {
    pub area: AreaId,
    pub offset: u32,
    pub length: u32,
}

impl Twin for AreaId {
    fn twin(&self, _: Global) -> Result<AreaId, Memory> {
        Ok(*self)
    }
}

impl Twin for BytePlace {
    fn twin(&self, _: Global) -> Result<BytePlace, Memory> {
        Ok(*self)
    }
}

impl Twin for Span {
    fn twin(&self, _: Global) -> Result<Span, Memory> {
        Ok(*self)
    }
}

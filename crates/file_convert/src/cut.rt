ghost use Rattle.std.specs.Prelude.{◌≡◌};
ghost use Rattle.year_image.specs.Piece.{width, grown_width, grown_size};
ghost use Rattle.file_convert.specs.Cuts.{piece_of, pieces, IsInOrder};

use std::alloc::Global;
use y2k_base::{List, Memory, Twin};

/// What a cut covers: a year of two bytes, or a packed number of this many digits (two a byte, and the sign in
/// the last half-byte: this project's choice) whose year has its units digit at this power of ten.
#[derive(Clone, Copy, PartialEq, Eq, Debug)]
pub enum CutKind {
    Pair,
    Packed { digits: u8, unit: u8 },
}

/// A year in a record, from this offset on. A cut with a pivot belongs to a window of a hundred years: it is
/// checked and not changed.
#[derive(Clone, Copy, PartialEq, Eq, Debug)]
pub struct Cut {
    pub offset: u32,
    pub kind: CutKind,
    pub pivot: Option<u8>,
}

/// The years of records of this length, from left to right. The calls that take them ask for a length from 1
/// to 65,535, for cuts in order that don't overlap and end within it, for packed years within their digits and
/// at most 18 digits in an image, and for pivots from 1 to 99.
pub struct Cuts {
    pub length: u32,
    pub list: List<Cut>,
}

impl Drop for Cuts {
    fn drop(self) {
        let Cuts {
            length: _,
            list: _list,
        } = self;
    }
}

impl Twin for Cut {
    fn twin(&self, _: Global) -> Result<Cut, Memory> {
        Ok(*self)
    }
}

impl Twin for Cuts {
    fn twin(&self, alloc: Global) -> Result<Cuts, Memory> {
        Ok(Cuts {
            length: self.length,
            list: self.list.twin(alloc)?,
        })
    }
}

impl Cut {
    /// How many bytes it covers.
    pub(crate) fn width(&self) -> usize
        ensures { result ≡ width (piece_of self.now) }
    {
        match self.kind {
            CutKind::Pair => 2,
            CutKind::Packed { digits, unit: _ } => digits as usize / 2 + 1,
        }
    }

    /// How many bytes its image has.
    pub(crate) fn grown_width(&self) -> usize
        ensures { result ≡ grown_width (piece_of self.now) }
    {
        match self.kind {
            CutKind::Pair => match self.pivot {
                None => 4,
                Some(_) => 2,
            },
            CutKind::Packed { digits, unit: _ } => match self.pivot {
                None => digits as usize / 2 + 2,
                Some(_) => digits as usize / 2 + 1,
            },
        }
    }
}

impl Cuts {
    /// How many bytes the image of a record has. It takes no memory.
    pub fn image_length(&self) -> u32
        requires { IsInOrder self.now }
        ensures { result ≡ grown_size (pieces self.now) }
    {
        let mut total = self.length;
        for cut in self.list.items() {
            total += (cut.grown_width() - cut.width()) as u32;
        }
        total
    }
}

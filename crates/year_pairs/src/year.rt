ghost use Rattle.std.specs.Prelude.{◌≡◌, ◌<◌, ◌≤◌};
ghost use Rattle.year_pairs.specs.Years.{width, label_at, place_after};

use std::alloc::Global;
use y2k_base::{BytePlace, Memory, Twin};
use year_labels::Label;

/// How a year stands in storage: as two bytes, or in a packed number of so many digits, its units digit at the power
/// `unit` of ten. A packed number has two digits a byte from the right, and its sign in the last half-byte.
#[derive(Clone, Copy, Debug, PartialEq, Eq)]
pub enum YearKind {
    Pair,
    Packed { digits: u8, unit: u8 },
}

/// A year in storage, from this byte on.
#[derive(Clone, Copy, Debug, PartialEq, Eq)]
pub struct Year {
    pub place: BytePlace,
    pub kind: YearKind,
}

impl Twin for Year {
    fn twin(&self, _: Global) -> Result<Year, Memory> {
        Ok(*self)
    }
}

impl YearKind {
    /// How many bytes the year has; all those of a packed number are its.
    pub fn width(self) -> u8
        ensures { result ≡ width self }
    {
        match self {
            YearKind::Pair => 2,
            YearKind::Packed { digits, unit: _ } => digits / 2 + 1,
        }
    }

    /// The label of the byte of that index.
    pub fn label_at(self, index: u8) -> Label
        ensures { result ≡ label_at self index }
    {
        match self {
            YearKind::Pair => {
                if index == 0 {
                    Label::Tens
                } else {
                    Label::Units
                }
            }
            YearKind::Packed { digits, unit } => Label::Packed {
                digits,
                unit,
                byte: index,
            },
        }
    }
}

/// The byte so many bytes behind this one.
pub(crate) fn place_after(place: BytePlace, count: u8) -> BytePlace
    requires { place.offset ≤ 65535 }
    ensures { result ≡ place_after place count }
{
    BytePlace {
        area: place.area,
        offset: place.offset + u32::from(count),
    }
}

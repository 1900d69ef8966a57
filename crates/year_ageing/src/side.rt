ghost use Rattle.std.specs.Prelude.{◌≡◌};
ghost use Rattle.year_image.specs.Piece.{width, grown_width};
ghost use Rattle.file_convert.specs.Cuts.{piece_of};
ghost use Rattle.year_ageing.specs.Years as spec;

use file_convert::{Cut, CutKind};

/// Which side of a conversion records are of.
#[derive(Clone, Copy, PartialEq, Eq, Debug)]
pub enum Side {
    /// Two digits a year.
    Old,
    /// Four digits a year, but for those in a window.
    New,
}

/// How many digits more a year has there.
pub(crate) fn extra(side: Side, pivot: Option<u8>) -> u8
    ensures { result ≡ spec.extra side pivot }
{
    match side {
        Side::Old => 0,
        Side::New => match pivot {
            None => 2,
            Some(_) => 0,
        },
    }
}

/// How many bytes a cut covers.
pub(crate) fn side_width(side: Side, cut: &Cut) -> u32
    ensures { result ≡ spec.side_width side (piece_of cut.now) }
{
    match side {
        Side::Old => old_width(cut),
        Side::New => new_width(cut),
    }
}

fn old_width(cut: &Cut) -> u32
    ensures { result ≡ width (piece_of cut.now) }
{
    match cut.kind {
        CutKind::Pair => 2,
        CutKind::Packed { digits, unit: _ } => digits as u32 / 2 + 1,
    }
}

fn new_width(cut: &Cut) -> u32
    ensures { result ≡ grown_width (piece_of cut.now) }
{
    match cut.kind {
        CutKind::Pair => match cut.pivot {
            None => 4,
            Some(_) => 2,
        },
        CutKind::Packed { digits, unit: _ } => match cut.pivot {
            None => digits as u32 / 2 + 2,
            Some(_) => digits as u32 / 2 + 1,
        },
    }
}

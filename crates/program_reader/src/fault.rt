ghost use Rattle.std.specs.Prelude.{◌≡◌};
ghost use Rattle.program_reader.specs.declared.fault.ReadFault.TheVariants as fault;

use std::convert::From;
use y2k_base::{Memory, Origin};

/// Why a text is no program: the kinds of this crate, those of the crates below it and those of the crates
/// above it that say why a program can't stand.
#[derive(Clone, Copy, Debug, PartialEq, Eq)]
pub enum RefusedKind {
    BadByte,
    LineLong,
    OpenLiteral,
    BadContinuation,
    WordLong,
    CopyShape,
    CopyMissing,
    NestedCopy,
    /// A unit, the words up to and with a period, that has no reading; or a unit is missing.
    UnitShape,
    /// The same for a unit in which more than 64 words open a level.
    NestDeep,
    PictureFull,
    PictureShape,
    TooManyDigits,
    LayoutShape,
    AreaFull,
    NameTwice,
    NameUnknown,
    UseShape,
}

/// Why a text is no program, and the place of the word at fault.
#[derive(Clone, Copy, Debug, PartialEq, Eq)]
pub struct Refused {
    pub kind: RefusedKind,
    pub at: Origin,
}

/// Why no program was read.
#[derive(Clone, Copy, Debug, PartialEq, Eq)]
pub enum ReadFault {
    /// The words are no program.
    Refused(Refused),
    /// No memory was left.
    Memory,
}

impl From<Memory> for ReadFault {
    ghost from_gives = { λ _ e. e ≡ fault.Memory };

    fn from(_: Memory) -> ReadFault {
        ReadFault::Memory
    }
}

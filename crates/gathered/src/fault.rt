ghost use Rattle.std.specs.Prelude.{◌≡◌};
ghost use Rattle.gathered.specs.declared.fault.GatherFault.TheVariants as fault;

use program_reader::Refused;
use std::convert::From;
use thiserror::Error;
use y2k_base::{Bytes, Memory};

/// Why texts are no portfolio.
#[derive(Debug, Drop, Error)]
pub enum GatherFault {
    /// A text is no program, or a program can't stand.
    #[error("a program is refused")]
    Refused(Refused),
    /// The text of that name isn't on the shelf.
    #[error("a text is missing")]
    Missing(Bytes),
    /// With the text of that name the bytes of all texts would pass their bound.
    #[error("the texts are too large")]
    TooLarge(Bytes),
    /// The external name isn't known, is selected twice in a program, or is known and selected by no program. Of
    /// several the least in byte order.
    #[error("an external file is unknown")]
    FileUnknown(Bytes),
    /// The records of the file of that external name have another length in one program than in another. Of several
    /// the least in byte order.
    #[error("the records of a file have several lengths")]
    RecordLengths(Bytes),
    /// The shelf failed at that name.
    #[error("the shelf failed")]
    Shelf(Bytes),
    /// There was no memory left.
    #[error("out of memory")]
    Memory,
}

impl From<Memory> for GatherFault {
    ghost from_gives = { λ _ e. e ≡ fault.Memory };

    fn from(_: Memory) -> GatherFault {
        GatherFault::Memory
    }
}

ghost use Rattle.std.specs.Prelude.{◌≡◌};
ghost use Rattle.file_convert.specs.Faults.{fault_of};

use shelf::ShelfErr;
use thiserror::Error;
use y2k_base::{Bytes, Memory};

/// Why a file was not converted.
#[derive(Debug, Error)]
pub enum ConvertFault {
    /// A record is not tame, the one of this number from 1 on: its first cut that is not begins at this offset
    /// and has these bytes.
    #[error("record {row} is not tame at offset {offset}")]
    Untame { row: u64, offset: u32, bytes: Bytes },
    /// All whole records are tame, and this many bytes are left over.
    #[error("{left} bytes are left over")]
    PartialRecord { left: u32 },
    /// A call of the shelf failed, one that writes or one that reads.
    #[error("the shelf failed")]
    Shelf { written: bool },
    /// There was no memory left.
    #[error("out of memory")]
    Memory,
}

impl Drop for ConvertFault {
    fn drop(self) {
        match self {
            ConvertFault::Untame {
                row: _,
                offset: _,
                bytes: _bytes,
            } => {}
            ConvertFault::PartialRecord { left: _ } => {}
            ConvertFault::Shelf { written: _ } => {}
            ConvertFault::Memory => {}
        }
    }
}

impl From<Memory> for ConvertFault {
    ghost use Rattle.file_convert.specs.declared.fault.ConvertFault.TheVariants as faults;

    ghost from_gives = { λ _ fault. fault ≡ faults.Memory };

    fn from(_: Memory) -> ConvertFault {
        ConvertFault::Memory
    }
}

/// The fault of a call of the shelf, of one that writes or of one that reads.
pub(crate) fn shelf_fault(error: ShelfErr, written: bool) -> ConvertFault
    ensures { result ≡ fault_of error written }
{
    match error {
        ShelfErr::Failed => ConvertFault::Shelf { written },
        ShelfErr::Memory => ConvertFault::Memory,
    }
}

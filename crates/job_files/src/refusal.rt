ghost use Rattle.std.specs.Prelude.{◌≡◌};

use std::convert::From;
use thiserror::Error;
use y2k_base::{Bytes, Memory};

/// Why the data files of a run were not loaded.
#[derive(Debug, Error)]
pub enum DataRefusal {
    /// The file, named as the manifest writes it, has more bytes than a data file may have.
    #[error("a data file is too large")]
    TooLarge(Bytes),
    /// So many bytes are left over behind the whole records of the file of that external name.
    #[error("{left} bytes are left over")]
    PartialRecord { external: Bytes, left: u32 },
    /// The shelf failed at that name.
    #[error("the shelf failed")]
    Shelf(Bytes),
    /// There was no memory left.
    #[error("out of memory")]
    Memory,
}

/// Why the files of a run were not all written.
#[derive(Debug, Error)]
pub enum WriteFault {
    /// The shelf failed at that name.
    #[error("the shelf failed")]
    Shelf(Bytes),
    /// There was no memory left.
    #[error("out of memory")]
    Memory,
}

impl Drop for DataRefusal {
    fn drop(self) {
        match self {
            DataRefusal::TooLarge(_name) => {}
            DataRefusal::PartialRecord {
                external: _external,
                left: _,
            } => {}
            DataRefusal::Shelf(_name) => {}
            DataRefusal::Memory => {}
        }
    }
}

impl Drop for WriteFault {
    fn drop(self) {
        match self {
            WriteFault::Shelf(_name) => {}
            WriteFault::Memory => {}
        }
    }
}

impl From<Memory> for DataRefusal {
    ghost use Rattle.job_files.specs.declared.refusal.DataRefusal.TheVariants as refusals;

    ghost from_gives = { λ _ refusal. refusal ≡ refusals.Memory };

    fn from(_: Memory) -> DataRefusal {
        DataRefusal::Memory
    }
}

impl From<Memory> for WriteFault {
    ghost use Rattle.job_files.specs.declared.refusal.WriteFault.TheVariants as faults;

    ghost from_gives = { λ _ fault. fault ≡ faults.Memory };

    fn from(_: Memory) -> WriteFault {
        WriteFault::Memory
    }
}

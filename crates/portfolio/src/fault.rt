ghost use Rattle.std.specs.Prelude.{◌≡◌};
ghost use Rattle.portfolio.specs.Faults.{IsRefusal};
ghost use Rattle.portfolio.specs.declared.fault.ManifestFault.TheVariants.{Memory as NoMemory};

use crate::collect::copied;
use std::alloc::Global;
use std::convert::From;
use y2k_base::{Bytes, Memory};

/// Why a table is no manifest, in the order in which faults are looked for: each kind over all keys before
/// the next one. The order is this project's choice.
#[derive(Clone, Copy, Debug, PartialEq, Eq)]
pub enum ManifestKind {
    /// `version`, `pivot` or `programs` isn't there.
    MissingKey,
    /// The value of a key is of another type, or out of its range.
    BadValue,
    /// A file name at the key is none that a file may have.
    BadName,
    /// The key is none of a manifest's.
    UnknownKey,
    /// Two of the texts, the seeds and the data files have one name.
    NameTwice,
}

/// The first fault of a manifest, or want of memory.
pub enum ManifestFault {
    /// The key is that of the value at fault; of `NameTwice` it is the name.
    At { kind: ManifestKind, key: Bytes },
    Memory,
}

impl Drop for ManifestFault {
    fn drop(self) {
        match self {
            ManifestFault::At { kind: _, key: _key } => {}
            ManifestFault::Memory => {}
        }
    }
}

impl From<Memory> for ManifestFault {
    ghost from_gives = { λ _ f. f ≡ NoMemory };

    fn from(_: Memory) -> ManifestFault {
        ManifestFault::Memory
    }
}

/// The fault of this kind at this key; where there is no memory for the key, want of memory.
pub fn refusal(alloc: Global, kind: ManifestKind, key: &[u8]) -> ManifestFault
    ensures { IsRefusal kind key.now result }
{
    match copied(alloc, key) {
        Ok(key) => ManifestFault::At { kind, key },
        Err(_) => ManifestFault::Memory,
    }
}

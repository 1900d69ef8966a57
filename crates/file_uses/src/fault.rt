ghost use Rattle.std.specs.Prelude.{◌≡◌};
ghost use Rattle.file_uses.specs.declared.fault.FileFault.TheVariants as fault;

use std::convert::From;
use y2k_base::{Bytes, Memory};

/// Why the files of a portfolio can't stand, with the external name, of several the least in byte order.
#[derive(Debug, Drop)]
pub enum FileFault {
    /// The name isn't known, is selected twice in a program, or is known and selected by no program.
    Unknown(Bytes),
    /// The records of the file have another length in one program than in another.
    Lengths(Bytes),
    /// There was no memory left.
    Memory,
}

impl From<Memory> for FileFault {
    ghost from_gives = { λ _ e. e ≡ fault.Memory };

    fn from(_: Memory) -> FileFault {
        FileFault::Memory
    }
}

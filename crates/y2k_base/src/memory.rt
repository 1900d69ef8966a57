ghost use Rattle.std.specs.Prelude.{◌≡◌};

use std::alloc::{AllocError, AllocFailed};
use std::convert::From;

/// There was no memory left.
#[derive(Clone, Copy, Debug, PartialEq, Eq)]
pub struct Memory;

impl From<AllocError> for Memory {
    ghost from_gives = { λ _ m. m ≡ record {} };

    fn from(_: AllocError) -> Memory {
        Memory
    }
}

impl<T: Drop> From<AllocFailed<T>> for Memory {
    ghost from_gives = { λ _ m. m ≡ record {} };

    fn from(_: AllocFailed<T>) -> Memory {
        Memory
    }
}

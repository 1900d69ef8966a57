ghost use Rattle.std.specs.Prelude.{◌≡◌};
ghost use Rattle.window_items.specs.declared.fault.WindowFault.TheVariants as fault;

use std::convert::From;
use y2k_base::{Bytes, Memory};

/// Why a manifest's groups are no windows of a portfolio.
pub enum WindowFault {
    /// The item means no item of the portfolio, as the manifest writes it. Of several the first.
    Unknown(Bytes),
    /// There was no memory left.
    Memory,
}

impl Drop for WindowFault {
    fn drop(self) {
        match self {
            WindowFault::Unknown(_text) => {}
            WindowFault::Memory => {}
        }
    }
}

impl From<Memory> for WindowFault {
    ghost from_gives = { λ _ e. e ≡ fault.Memory };

    fn from(_: Memory) -> WindowFault {
        WindowFault::Memory
    }
}

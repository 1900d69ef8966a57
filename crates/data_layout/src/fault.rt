use std::convert::From;
use y2k_base::{Memory, Origin};

/// Why a program has no layout: an entry that breaks a rule of its form, an area of over 65,535 bytes, or a
/// second equal name, each with the first word of its entry or of its FD; or there was no memory left.
#[derive(Clone, Copy, Debug, PartialEq, Eq)]
pub enum LayoutFault {
    LayoutShape(Origin),
    AreaFull(Origin),
    NameTwice(Origin),
    Memory,
}

impl From<Memory> for LayoutFault {
    ghost use Rattle.std.specs.Prelude.{◌≡◌};
    ghost use Rattle.data_layout.specs.declared.fault.LayoutFault.TheVariants as fault;

    ghost from_gives = { λ _ e. e ≡ fault.Memory };

    fn from(_: Memory) -> LayoutFault {
        LayoutFault::Memory
    }
}

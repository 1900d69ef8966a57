ghost use Rattle.std.specs.Prelude.{◌≡◌, ◌≢◌, ℕ, List, IfOk, IfErr, OnErr};
ghost use Rattle.value_moves.specs.declared.sent.Sent.TheVariants as sent;

use crate::amount::Amount;
use y2k_base::Bytes;

/// What a sender gives: bytes, a number, or a byte that fills the receiver.
pub enum Sent {
    Bytes(Bytes),
    Amount(Amount),
    Fill(u8),
}

impl Drop for Sent {
    fn drop(self) {
        match self {
            Sent::Bytes(_bytes) => {}
            Sent::Amount(_) => {}
            Sent::Fill(_) => {}
        }
    }
}

impl Sent {
    /// The bytes that are sent, or else what is.
    pub fn into_bytes(self) -> Result<Bytes, Sent>
        ensures bytes { IfOk result (λ bytes. self ≡ sent.Bytes bytes) }
        ensures same { IfErr result (λ same. same ≡ self) }
        ensures other { OnErr result ((bytes : List ℕ) → self ≢ sent.Bytes bytes) }
    {
        match self {
            Sent::Bytes(bytes) => Ok(bytes),
            same => Err(same),
        }
    }
}

/// What a sender looks at in a receiver. Numbers and edited items are aligned at the point.
#[derive(Clone, Copy, Debug, PartialEq, Eq)]
pub enum Receiver {
    Group,
    Text,
    Aligned,
}

/// Why a sender gives nothing: its bytes hold no number, or memory is wanting.
#[derive(Clone, Copy, Debug, PartialEq, Eq)]
pub enum MoveFault {
    Data,
    Memory,
}

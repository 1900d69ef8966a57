ghost use Rattle.std.specs.Prelude.{◌≡◌, IfOk};
ghost use Rattle.decimal_bytes.specs.Signed.{with_sign};

use std::alloc::Global;
use y2k_base::{Memory, Twin};

/// A decimal number: `number` divided by 10 to the `scale`.
#[derive(Clone, Copy, Debug, PartialEq, Eq)]
pub struct Scaled {
    pub number: i128,
    pub scale: u8,
}

impl Scaled {
    pub(crate) fn new(minus: bool, magnitude: u64, scale: u8) -> Scaled
        ensures number { result.number ≡ with_sign minus magnitude }
        ensures scale { result.scale ≡ scale }
    {
        let magnitude = i128::from(magnitude);
        Scaled {
            number: if minus { -magnitude } else { magnitude },
            scale,
        }
    }
}

/// Where a signed DISPLAY number has its sign: over the digit at one end, or in a byte of its own there.
/// Packed and binary numbers have their sign in one place only, and don't look at this.
#[derive(Clone, Copy, Debug, PartialEq, Eq)]
pub enum SignPlace {
    Trailing,
    Leading,
    TrailingSeparate,
    LeadingSeparate,
}

/// The form of a number: how many digits it has, how many of them follow the point, whether it has a sign,
/// and where.
#[derive(Clone, Copy, Debug, PartialEq, Eq)]
pub struct NumForm {
    pub digits: u8,
    pub scale: u8,
    pub signed: bool,
    pub sign: SignPlace,
}

/// The bytes hold no number.
#[derive(Clone, Copy, Debug, PartialEq, Eq)]
pub struct BadDigits;

impl Twin for Scaled {
    fn twin(&self, _: Global) -> Result<Scaled, Memory> {
        Ok(*self)
    }
}

impl Twin for SignPlace {
    fn twin(&self, _: Global) -> Result<SignPlace, Memory> {
        Ok(*self)
    }
}

impl Twin for NumForm {
    fn twin(&self, _: Global) -> Result<NumForm, Memory> {
        Ok(*self)
    }
}

ghost use Rattle.std.specs.Prelude.{◌<◌, ◌^◌, unsigned_abs};

use decimal_bytes::Scaled;

/// A number that bytes or a literal hold.
#[derive(Clone, Copy)]
pub struct Amount {
    pub number: Scaled,
    ghost small: { unsigned_abs number.number < 10 ^ 19 },
}

ghost use Rattle.std.specs.Prelude.{◌≡◌, ◌≢◌, ◌^◌, pos, neg_ℤ, ◌*ℤ◌};
ghost use Rattle.program_meaning.specs.Answer.{Gives, and_then};
ghost use Rattle.program_meaning.specs.Arithmetic as exact;
ghost use Rattle.number_bytes.specs.Held.{read_scaled};
ghost use Rattle.exact_arithmetic.specs.Answers.{number_answer, scaled_answer};

use crate::ArithmeticFault;
use crate::narrow::{difference, negated, product, quotient, raised, scaled_up, sum};
use decimal_bytes::Scaled;

/// The scale of a quotient.
const QUOTIENT_SCALE: u8 = 10;

/// The sum, at the greater scale.
pub fn add(left: Scaled, right: Scaled) -> Result<Scaled, ArithmeticFault>
    ensures { scaled_answer result ≡ exact.add (read_scaled left) (read_scaled right) }
{
    let scale = left.scale.max(right.scale);
    match raised(scale, left) {
        Ok(x) => match raised(scale, right) {
            Ok(y) => at_scale_of(scale, sum(x, y)),
            Err(fault) => Err(fault),
        },
        Err(fault) => Err(fault),
    }
}

/// The difference, at the greater scale.
pub fn subtract(left: Scaled, right: Scaled) -> Result<Scaled, ArithmeticFault>
    ensures { scaled_answer result ≡ exact.subtract (read_scaled left) (read_scaled right) }
{
    let scale = left.scale.max(right.scale);
    match raised(scale, left) {
        Ok(x) => match raised(scale, right) {
            Ok(y) => at_scale_of(scale, difference(x, y)),
            Err(fault) => Err(fault),
        },
        Err(fault) => Err(fault),
    }
}

/// The product, at the sum of the scales, which is at most 38.
pub fn multiply(left: Scaled, right: Scaled) -> Result<Scaled, ArithmeticFault>
    ensures { scaled_answer result ≡ exact.multiply (read_scaled left) (read_scaled right) }
{
    match left.scale.checked_add(right.scale) {
        Some(scale) if scale <= 38 => at_scale_of(scale, product(left.number, right.number)),
        _ => Err(ArithmeticFault::Wide),
    }
}

/// The quotient, at scale 10 and cut toward zero. A divisor of 0 is a fault.
pub fn divide(left: Scaled, right: Scaled) -> Result<Scaled, ArithmeticFault>
    ensures { scaled_answer result ≡ exact.divide (read_scaled left) (read_scaled right) }
{
    if right.number == 0 {
        return Err(ArithmeticFault::Zero);
    }
    let lifted = u16::from(QUOTIENT_SCALE) + u16::from(right.scale);
    let scale = u16::from(left.scale);
    if scale <= lifted {
        divide_lifted(left.number, lifted - scale, right.number)
    } else {
        divide_by_lifted(left.number, right.number, scale - lifted)
    }
}

/// A quotient whose dividend is first multiplied by a power of ten.
fn divide_lifted(dividend: i128, digits: u16, divisor: i128) -> Result<Scaled, ArithmeticFault>
    requires { divisor ≢ pos 0 }
    ensures { scaled_answer result ≡ and_then (exact.narrow (dividend *ℤ pos (10 ^ digits))) (λ x. exact.narrow_at 10 (exact.quotient x divisor)) }
{
    match scaled_up(dividend, digits) {
        Ok(lifted) => at_scale_of(QUOTIENT_SCALE, quotient(lifted, divisor)),
        Err(fault) => Err(fault),
    }
}

/// A quotient whose divisor is first multiplied by a power of ten.
fn divide_by_lifted(dividend: i128, divisor: i128, digits: u16) -> Result<Scaled, ArithmeticFault>
    requires { divisor ≢ pos 0 }
    ensures { scaled_answer result ≡ and_then (exact.narrow (divisor *ℤ pos (10 ^ digits))) (λ y. exact.narrow_at 10 (exact.quotient dividend y)) }
{
    match scaled_up(divisor, digits) {
        Ok(lifted) => at_scale_of(QUOTIENT_SCALE, quotient(dividend, lifted)),
        Err(fault) => Err(fault),
    }
}

/// The number with the other sign.
pub fn negate(number: Scaled) -> Result<Scaled, ArithmeticFault>
    ensures { scaled_answer result ≡ exact.narrow_at number.scale (neg_ℤ number.number) }
{
    at_scale_of(number.scale, negated(number.number))
}

/// A number at a scale, if there is one.
fn at_scale_of(scale: u8, number: Result<i128, ArithmeticFault>) -> Result<Scaled, ArithmeticFault>
    ensures { scaled_answer result ≡ and_then (number_answer number) (λ n. Gives (exact.scaled n scale)) }
{
    match number {
        Ok(number) => Ok(Scaled { number, scale }),
        Err(fault) => Err(fault),
    }
}

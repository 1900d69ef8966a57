ghost use Rattle.std.specs.Prelude.{◌≡◌, ◌≢◌, ◌≤◌, ◌<◌, ◌^◌, pos, neg_ℤ, ◌+ℤ◌, ◌*ℤ◌, unsigned_abs};
ghost use Rattle.program_meaning.specs.Arithmetic.{narrow, raised as raised_number, quotient as cut_quotient};
ghost use Rattle.number_bytes.specs.Held.{read_scaled};
ghost use Rattle.exact_arithmetic.specs.Answers.{number_answer};

use crate::ArithmeticFault;
use decimal_bytes::Scaled;

/// The number of the same value at a scale that isn't less.
pub(crate) fn raised(scale: u8, number: Scaled) -> Result<i128, ArithmeticFault>
    ensures { number_answer result ≡ raised_number scale (read_scaled number) }
{
    scaled_up(number.number, u16::from(scale.saturating_sub(number.scale)))
}

/// A number times a power of ten.
pub(crate) fn scaled_up(number: i128, digits: u16) -> Result<i128, ArithmeticFault>
    ensures { number_answer result ≡ narrow (number *ℤ pos (10 ^ digits)) }
{
    if number == 0 {
        return Ok(0);
    }
    if digits > 38 {
        return Err(ArithmeticFault::Wide);
    }
    product(number, power_of_ten(digits) as i128)
}

pub(crate) fn power_of_ten(exponent: u16) -> u128
    requires { exponent ≤ 38 }
    ensures value { result ≡ 10 ^ exponent }
    ensures positive { 0 < result }
    ensures small { result ≤ 10 ^ 38 }
{
    10u128.pow(u32::from(exponent))
}

pub(crate) fn sum(left: i128, right: i128) -> Result<i128, ArithmeticFault>
    ensures { number_answer result ≡ narrow (left +ℤ right) }
{
    match left.checked_add(right) {
        Some(sum) => Ok(sum),
        None => Err(ArithmeticFault::Wide),
    }
}

pub(crate) fn difference(left: i128, right: i128) -> Result<i128, ArithmeticFault>
    ensures { number_answer result ≡ narrow (left +ℤ neg_ℤ right) }
{
    match left.checked_sub(right) {
        Some(difference) => Ok(difference),
        None => Err(ArithmeticFault::Wide),
    }
}

pub(crate) fn product(left: i128, right: i128) -> Result<i128, ArithmeticFault>
    ensures { number_answer result ≡ narrow (left *ℤ right) }
{
    match left.checked_mul(right) {
        Some(product) => Ok(product),
        None => Err(ArithmeticFault::Wide),
    }
}

pub(crate) fn negated(number: i128) -> Result<i128, ArithmeticFault>
    ensures { number_answer result ≡ narrow (neg_ℤ number) }
{
    match number.checked_neg() {
        Some(negated) => Ok(negated),
        None => Err(ArithmeticFault::Wide),
    }
}

/// A quotient cut toward zero.
pub(crate) fn quotient(left: i128, right: i128) -> Result<i128, ArithmeticFault>
    requires { right ≢ pos 0 }
    ensures { number_answer result ≡ narrow (cut_quotient left right) }
{
    match left.checked_div(right) {
        Some(quotient) => Ok(quotient),
        None => Err(ArithmeticFault::Wide),
    }
}

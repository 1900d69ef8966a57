ghost use Rattle.std.specs.Prelude.{◌≡◌, ℕ, ◌+◌, ◌/◌, ◌^◌, ◌<◌, ◌≤◌, cond, nat_le};
ghost use Rattle.program_meaning.specs.Number.{with_sign};
ghost use Rattle.program_meaning.specs.Arithmetic as exact;
ghost use Rattle.number_bytes.specs.Held.{read_form, read_scaled};
ghost use Rattle.exact_arithmetic.specs.Answers.{number_answer};

use crate::ArithmeticFault;
use crate::narrow::{power_of_ten, raised};
use decimal_bytes::{NumForm, Scaled};

/// A result at a receiver's scale: cut to it, or rounded half away from zero.
pub fn at_scale(number: Scaled, rounded: bool, scale: u8) -> Result<i128, ArithmeticFault>
    ensures { number_answer result ≡ exact.at_scale rounded scale (read_scaled number) }
{
    if number.scale <= scale {
        raised(scale, number)
    } else {
        Ok(shortened(number.number, number.scale - scale, rounded))
    }
}

/// A number without its last digits.
fn shortened(number: i128, digits: u8, rounded: bool) -> i128
    requires { 1 ≤ digits }
    ensures { result ≡ cond rounded (exact.rounded_to (10 ^ digits) number) (exact.cut_to (10 ^ digits) number) }
{
    if rounded {
        signed(number < 0, rounded_off(number.unsigned_abs(), digits))
    } else {
        signed(number < 0, cut_off(number.unsigned_abs(), digits))
    }
}

fn signed(minus: bool, magnitude: u128) -> i128
    requires { magnitude < 2 ^ 127 }
    ensures { result ≡ with_sign minus magnitude }
{
    let number = magnitude as i128;
    if minus { -number } else { number }
}

fn rounded_off(magnitude: u128, digits: u8) -> u128
    requires magnitude { magnitude ≤ 2 ^ 127 }
    requires digits { 1 ≤ digits }
    ensures value { result ≡ (magnitude + 10 ^ digits / 2) / 10 ^ digits }
    ensures small { result < 2 ^ 127 }
{
    if digits > 38 {
        return 0;
    }
    let power = power_of_ten(u16::from(digits));
    (magnitude + power / 2) / power
}

fn cut_off(magnitude: u128, digits: u8) -> u128
    requires magnitude { magnitude ≤ 2 ^ 127 }
    requires digits { 1 ≤ digits }
    ensures value { result ≡ magnitude / 10 ^ digits }
    ensures small { result < 2 ^ 127 }
{
    if digits > 38 {
        return 0;
    }
    magnitude / power_of_ten(u16::from(digits))
}

/// Whether a number at a receiver's scale has more integer digits than the receiver.
pub fn too_big(number: i128, form: NumForm) -> bool
    ensures { result ≡ exact.too_big (read_form form) number }
{
    has_more_digits(number.unsigned_abs(), form.digits)
}

fn has_more_digits(magnitude: u128, digits: u8) -> bool
    requires { magnitude ≤ 2 ^ 127 }
    ensures { result ≡ nat_le (10 ^ digits) magnitude }
{
    if digits > 38 {
        return false;
    }
    power_of_ten(u16::from(digits)) <= magnitude
}

ghost use Rattle.std.specs.Prelude.{◌≡◌, ◌&&◌, ℕ, ◌-◌, ◌*◌, ◌/◌, ◌%◌, ◌^◌, ◌<◌, ◌≤◌, ◌==◌, cond, nat_le, length, unsigned_abs};
ghost use Rattle.decimal_bytes.specs.Display.{display_length};
ghost use Rattle.decimal_bytes.specs.Packed.{packed_length};
ghost use Rattle.decimal_bytes.specs.Binary.{binary_length};
ghost use Rattle.byte_lists.specs.Digit.{decimal};
ghost use Rattle.program_meaning.specs.Number as meant;
ghost use Rattle.program_meaning.specs.Number.{with_sign, is_minus, number_bytes};
ghost use Rattle.program_meaning.specs.Kind as kind;
ghost use Rattle.program_meaning.specs.Moves.{stored_number, literal_number};
ghost use Rattle.program_meaning.specs.Arithmetic as exact;
ghost use Rattle.tree_reading.specs.Reading.{read_usage};
ghost use Rattle.number_bytes.specs.Held.{read_form, read_scaled, number_length, IsExactly};
ghost use Rattle.number_bytes.specs.Stored.{moved_value};

use cobol_syntax::Usage;
use decimal_bytes::{NumForm, Scaled, put_binary, put_display, put_packed};

/// A number at the scale of a receiver: the digits after it are cut, or zeros filled in. A receiver of any kind
/// stores of the result what it stores of the number.
pub fn at_point(number: Scaled, scale: u8) -> i128
    requires small { unsigned_abs number.number < 10 ^ 19 }
    requires at_most_18 { scale ≤ 18 }
    ensures value { result ≡ moved_value scale (read_scaled number) }
    ensures stored { (k : kind.Kind) (d : meant.Decimal) → (kind.form_of k).scale ≡ scale → IsExactly d number →
        stored_number k d ≡ exact.result_bytes k result }
    ensures literal { (k : kind.Kind) (digits : ℕ) → (kind.form_of k).scale ≡ scale → unsigned_abs number.number < 10 ^ digits →
        stored_number k (literal_number number.number number.scale digits) ≡ exact.result_bytes k result }
{
    let magnitude = moved(number.number.unsigned_abs(), number.scale, scale);
    signed(number.number < 0, magnitude)
}

/// What a receiver keeps of a number at its scale: its low digits, and its sign if the receiver has one.
pub fn stored_value(number: i128, form: NumForm) -> i128
    requires at_most_18 { form.digits ≤ 18 }
    ensures value { result ≡ exact.stored_value (read_form form) number }
    ensures fits { unsigned_abs result < 10 ^ form.digits }
{
    let low = number.unsigned_abs() % power_of_ten(form.digits);
    signed(form.signed && number < 0, low)
}

/// Stores a number, which is at the scale of the receiver, into the bytes of the receiver. High digits are cut, an
/// unsigned receiver takes no sign, and zero is stored as plus.
pub fn store_number(number: i128, usage: Usage, form: NumForm, into: &mut [u8])
    requires some_digits { 1 ≤ form.digits }
    requires at_most_18 { form.digits ≤ 18 }
    requires length { length into.old ≡ number_length usage form }
    ensures { into.new ≡ exact.result_bytes (kind.Number (read_usage usage) (read_form form)) number }
{
    let stored = stored_value(number, form);
    match usage {
        Usage::Display => write_display(stored, form, into),
        Usage::Packed => write_packed(stored, form, into),
        Usage::Binary => write_binary(stored, form, into),
    }
}

fn write_display(number: i128, form: NumForm, into: &mut [u8])
    requires some_digits { 1 ≤ form.digits }
    requires at_most_18 { form.digits ≤ 18 }
    requires length { length into.old ≡ display_length form }
    requires fits { unsigned_abs number < 10 ^ form.digits }
    ensures { into.new ≡ number_bytes meant.Display (read_form form) (form.signed && is_minus number)
        (decimal form.digits (unsigned_abs number)) }
{
    put_display(number, form, into);
}

fn write_packed(number: i128, form: NumForm, into: &mut [u8])
    requires some_digits { 1 ≤ form.digits }
    requires at_most_18 { form.digits ≤ 18 }
    requires length { length into.old ≡ packed_length form }
    requires fits { unsigned_abs number < 10 ^ form.digits }
    ensures { into.new ≡ number_bytes meant.Packed (read_form form) (form.signed && is_minus number)
        (decimal form.digits (unsigned_abs number)) }
{
    put_packed(number, form, into);
}

fn write_binary(number: i128, form: NumForm, into: &mut [u8])
    requires some_digits { 1 ≤ form.digits }
    requires at_most_18 { form.digits ≤ 18 }
    requires length { length into.old ≡ binary_length form }
    requires fits { unsigned_abs number < 10 ^ form.digits }
    ensures { into.new ≡ number_bytes meant.Binary (read_form form) (form.signed && is_minus number)
        (decimal form.digits (unsigned_abs number)) }
{
    put_binary(number, form, into);
}

/// The number of a sign and a magnitude.
fn signed(minus: bool, magnitude: u128) -> i128
    requires { magnitude < 2 ^ 127 }
    ensures { result ≡ with_sign minus magnitude }
{
    let number = magnitude as i128;
    if minus { -number } else { number }
}

/// A magnitude at another scale.
fn moved(magnitude: u128, from: u8, to: u8) -> u128
    requires small { magnitude < 10 ^ 19 }
    requires at_most_18 { to ≤ 18 }
    ensures value { result ≡ cond (nat_le from to) (magnitude * 10 ^ (to - from)) (magnitude / 10 ^ (from - to)) }
    ensures small { result < 10 ^ 37 }
{
    if from <= to {
        magnitude * power_of_ten(to - from)
    } else {
        quotient(magnitude, usize::from(from - to))
    }
}

/// A magnitude without its last digits.
pub(crate) fn quotient(magnitude: u128, digits: usize) -> u128
    ensures { result ≡ magnitude / 10 ^ digits }
{
    if digits > 38 {
        0
    } else {
        magnitude / power_of_ten(digits as u8)
    }
}

/// Whether the last digits of a magnitude are all 0.
pub(crate) fn ends_in_zeros(magnitude: u128, digits: usize) -> bool
    ensures { result ≡ (magnitude % 10 ^ digits == 0) }
{
    if digits > 38 {
        magnitude == 0
    } else {
        magnitude % power_of_ten(digits as u8) == 0
    }
}

fn power_of_ten(exponent: u8) -> u128
    requires { exponent ≤ 38 }
    ensures value { result ≡ 10 ^ exponent }
    ensures positive { 0 < result }
{
    10u128.pow(u32::from(exponent))
}

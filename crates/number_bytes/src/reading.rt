ghost use Rattle.std.specs.Prelude.{◌≡◌, ◌≤◌, ◌<◌, ◌^◌, length, false, None, IfOk, IfErr, unsigned_abs};
ghost use Rattle.decimal_bytes.specs.declared.form.SignPlace.TheVariants.{Trailing};
ghost use Rattle.decimal_bytes.specs.Display.{display_length};
ghost use Rattle.decimal_bytes.specs.Packed.{packed_length};
ghost use Rattle.decimal_bytes.specs.Binary.{binary_length};
ghost use Rattle.program_meaning.specs.Number.{number_in, display_number, packed_number, binary_number};
ghost use Rattle.tree_reading.specs.Reading.{read_usage};
ghost use Rattle.number_bytes.specs.Held.{read_form, number_length, IsHeld, integer_in};

use cobol_syntax::Usage;
use decimal_bytes::{BadDigits, NumForm, Scaled, SignPlace, get_binary, get_display, get_packed};

/// The number that the bytes of an item hold. A packed number has its sign in an unsigned item too, and a binary
/// one its two's complement. An unsigned DISPLAY item has no sign, so that a byte from 70 to 79 hexadecimal makes
/// it hold no number.
pub fn read_number(bytes: &[u8], usage: Usage, form: NumForm) -> Result<Scaled, BadDigits>
    requires some_digits { 1 ≤ form.digits }
    requires at_most_18 { form.digits ≤ 18 }
    requires length { length bytes.now ≡ number_length usage form }
    ensures held { IfOk result (IsHeld (number_in (read_usage usage) (read_form form) bytes.now)) }
    ensures scale { IfOk result (λ x. x.scale ≡ form.scale) }
    ensures small { IfOk result (λ x. unsigned_abs x.number < 10 ^ 19) }
    ensures bad { IfErr result (λ e. number_in (read_usage usage) (read_form form) bytes.now ≡ None) }
{
    match usage {
        Usage::Display => read_display(bytes, form),
        Usage::Packed => read_packed(bytes, form),
        Usage::Binary => Ok(read_binary(bytes, form)),
    }
}

/// The unsigned integer that a text of 1 to 18 digits writes.
pub fn text_number(bytes: &[u8]) -> Result<Scaled, BadDigits>
    ensures held { IfOk result (IsHeld (integer_in bytes.now)) }
    ensures scale { IfOk result (λ x. x.scale ≡ 0) }
    ensures small { IfOk result (λ x. unsigned_abs x.number < 10 ^ 19) }
    ensures bad { IfErr result (λ e. integer_in bytes.now ≡ None) }
{
    if bytes.is_empty() || bytes.len() > 18 {
        return Err(BadDigits);
    }
    match read_display(bytes, integer_form(bytes.len() as u8)) {
        Ok(number) => Ok(number),
        Err(fault) => Err(fault),
    }
}

fn integer_form(digits: u8) -> NumForm
    ensures { result ≡ record { digits = digits; scale = 0; signed = false; sign = Trailing } }
{
    NumForm {
        digits,
        scale: 0,
        signed: false,
        sign: SignPlace::Trailing,
    }
}

fn read_display(bytes: &[u8], form: NumForm) -> Result<Scaled, BadDigits>
    requires some_digits { 1 ≤ form.digits }
    requires at_most_18 { form.digits ≤ 18 }
    requires length { length bytes.now ≡ display_length form }
    ensures held { IfOk result (IsHeld (display_number (read_form form) bytes.now)) }
    ensures scale { IfOk result (λ x. x.scale ≡ form.scale) }
    ensures small { IfOk result (λ x. unsigned_abs x.number < 10 ^ 19) }
    ensures bad { IfErr result (λ e. display_number (read_form form) bytes.now ≡ None) }
{
    match get_display(bytes, form) {
        Ok(number) => Ok(number),
        Err(fault) => Err(fault),
    }
}

fn read_packed(bytes: &[u8], form: NumForm) -> Result<Scaled, BadDigits>
    requires some_digits { 1 ≤ form.digits }
    requires at_most_18 { form.digits ≤ 18 }
    requires length { length bytes.now ≡ packed_length form }
    ensures held { IfOk result (IsHeld (packed_number (read_form form) bytes.now)) }
    ensures scale { IfOk result (λ x. x.scale ≡ form.scale) }
    ensures small { IfOk result (λ x. unsigned_abs x.number < 10 ^ 19) }
    ensures bad { IfErr result (λ e. packed_number (read_form form) bytes.now ≡ None) }
{
    match get_packed(bytes, form) {
        Ok(number) => Ok(number),
        Err(fault) => Err(fault),
    }
}

fn read_binary(bytes: &[u8], form: NumForm) -> Scaled
    requires some_digits { 1 ≤ form.digits }
    requires at_most_18 { form.digits ≤ 18 }
    requires length { length bytes.now ≡ binary_length form }
    ensures held { IsHeld (binary_number (read_form form) bytes.now) result }
    ensures scale { result.scale ≡ form.scale }
    ensures small { unsigned_abs result.number < 10 ^ 19 }
{
    get_binary(bytes, form)
}

ghost use Rattle.std.specs.Prelude.{◌≡◌, ◌≤◌, length};
ghost use Rattle.byte_lists.specs.Digit.{all_digits};
ghost use Rattle.program_meaning.specs.Kind as kind;
ghost use Rattle.program_meaning.specs.Compare.{is_alphabetic as all_letters, is_letter_or_space as letter_or_space, is_numeric_text};
ghost use Rattle.tree_reading.specs.Reading.{read_usage};
ghost use Rattle.number_bytes.specs.Held.{read_form, number_length};

use crate::reading::read_number;
use cobol_syntax::Usage;
use decimal_bytes::NumForm;

/// Whether an item that is a number is NUMERIC: all of its bytes are digits, or they hold a number of its form. So
/// a packed item of the bytes 31 32 is, since these are digits of a text.
pub fn is_numeric(bytes: &[u8], usage: Usage, form: NumForm) -> bool
    requires some_digits { 1 ≤ form.digits }
    requires at_most_18 { form.digits ≤ 18 }
    requires length { length bytes.now ≡ number_length usage form }
    ensures { result ≡ is_numeric_text (kind.Number (read_usage usage) (read_form form)) bytes.now }
{
    is_digits(bytes) || read_number(bytes, usage, form).is_ok()
}

/// Whether each byte is a digit, which makes a text or a group NUMERIC.
pub fn is_digits(bytes: &[u8]) -> bool
    ensures { result ≡ all_digits 48 bytes.now }
{
    for byte in bytes {
        if !byte.is_ascii_digit() {
            return false;
        }
    }
    true
}

/// Whether each byte is a letter or a space.
pub fn is_alphabetic(bytes: &[u8]) -> bool
    ensures { result ≡ all_letters bytes.now }
{
    for byte in bytes {
        if !is_letter_or_space(*byte) {
            return false;
        }
    }
    true
}

fn is_letter_or_space(byte: u8) -> bool
    ensures { result ≡ letter_or_space byte }
{
    matches!(byte, b' ' | b'A'..=b'Z' | b'a'..=b'z')
}

ghost use Rattle.std.specs.Prelude.{◌≡◌, ◌+◌, ◌/◌, ◌%◌, ◌≤◌, ◌∷◌, [], length, Some, None, IfSome, pos};
ghost use Rattle.byte_lists.specs.Digit.{is_digit};
ghost use Rattle.byte_lists.specs.Part.{with_part};
ghost use Rattle.year_image.specs.Image.{above, tame_pair, two_digits, doubled};
ghost use Rattle.year_image.specs.Piece.{Pair};
ghost use Rattle.year_ageing.specs.Years as spec;

use crate::bytes::{copy_at, is_one_byte};

/// Whether a year is not below the pivot of its window.
pub(crate) fn is_above(pivot: Option<u8>, year: u8) -> bool
    ensures { result ≡ above pivot year }
{
    match pivot {
        None => true,
        Some(first) => first <= year,
    }
}

/// The first year of a window, and 0 where there is none.
pub(crate) fn lowest(pivot: Option<u8>) -> u8
    ensures { result ≡ spec.lowest pivot }
{
    match pivot {
        None => 0,
        Some(first) => first,
    }
}

/// A year moved, where it stays from the lowest to 99.
pub(crate) fn moved(low: u8, years: i8, year: u8) -> Option<u8>
    ensures moved { result ≡ spec.moved low years year }
    ensures small { IfSome result (λ new. new ≤ 99) }
{
    let sum = year as i16 + years as i16;
    if sum < low as i16 || sum > 99 {
        None
    } else {
        Some(sum as u8)
    }
}

fn is_digit_code(byte: u8) -> bool
    ensures { result ≡ is_digit 48 byte }
{
    byte >= 48 && byte <= 57
}

/// The year that two digits at that place give.
pub(crate) fn text_year(bytes: &[u8], at: usize) -> Option<u8>
    requires { at + 2 ≤ length bytes.now }
    ensures { result ≡ spec.text_year at bytes.now }
{
    let tens = bytes[at];
    let units = bytes[at + 1];
    if is_digit_code(tens) && is_digit_code(units) {
        Some((tens - 48) * 10 + (units - 48))
    } else {
        None
    }
}

/// Writes a year of two digits at that place.
pub(crate) fn set_text_year(bytes: &mut [u8], at: usize, year: u8)
    requires small { year ≤ 99 }
    requires room { at + 2 ≤ length bytes.old }
    ensures { bytes.new ≡ with_part bytes.old at ((48 + year / 10) ∷ (48 + year % 10) ∷ []) }
{
    copy_at(bytes, at, &[48 + year / 10, 48 + year % 10]);
}

/// Whether the two bytes are one that is no digit.
fn is_doubled(bytes: &[u8]) -> bool
    requires { length bytes.now ≡ 2 }
    ensures { result ≡ doubled 48 bytes.now }
{
    !is_digit_code(bytes[0]) && bytes[1] == bytes[0]
}

fn holds_two_digits(bytes: &[u8]) -> bool
    requires { length bytes.now ≡ 2 }
    ensures { result ≡ two_digits 48 bytes.now }
{
    is_digit_code(bytes[0]) && is_digit_code(bytes[1])
}

pub(crate) fn pair_is_tame(pivot: Option<u8>, bytes: &[u8]) -> bool
    requires { length bytes.now ≡ 2 }
    ensures { result ≡ tame_pair 48 pivot bytes.now }
{
    if holds_two_digits(bytes) {
        is_above(pivot, (bytes[0] - 48) * 10 + (bytes[1] - 48))
    } else {
        is_doubled(bytes)
    }
}

/// Whether four bytes are the image of a tame pair.
pub(crate) fn pair_is_image(bytes: &[u8]) -> bool
    requires { length bytes.now ≡ 4 }
    ensures { result ≡ spec.is_image (Pair None) bytes.now }
{
    if is_digit_code(bytes[2]) && is_digit_code(bytes[3]) {
        bytes[0] == 49 && bytes[1] == 57
    } else {
        !is_digit_code(bytes[0]) && is_one_byte(bytes)
    }
}

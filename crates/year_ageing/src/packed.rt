ghost use Rattle.std.specs.Prelude.{◌≡◌, ◌+◌, ◌*◌, ◌/◌, ◌%◌, ◌==◌, ◌&&◌, ◌||◌, ◌<◌, ◌≤◌, ◌∷◌, [], length, slice_index, None};
ghost use Rattle.byte_lists.specs.HalfBytes.{halves, joined};
ghost use Rattle.byte_lists.specs.Part.{with_part};
ghost use Rattle.year_image.specs.Piece.{Packed};
ghost use Rattle.year_image.specs.Packing.{is_packed, year_at};
ghost use Rattle.year_image.specs.Image.{tame_packed};
ghost use Rattle.year_ageing.specs.Years as spec;

use crate::bytes::{copy_at, is_one_byte};
use crate::pair::is_above;

/// The half-byte at that place, from 0 on.
fn half_at(bytes: &[u8], at: usize) -> u8
    requires { at < 2 * length bytes.now }
    ensures half { result ≡ slice_index (halves bytes.now) at }
    ensures small { result < 16 }
{
    if at % 2 == 0 {
        bytes[at / 2] / 16
    } else {
        bytes[at / 2] % 16
    }
}

/// Writes the half-byte at that place.
fn set_half(bytes: &mut [u8], at: usize, half: u8)
    requires place { at < 2 * length bytes.old }
    requires small { half < 16 }
    ensures { halves bytes.new ≡ with_part (halves bytes.old) at (half ∷ []) }
{
    let byte = bytes[at / 2];
    if at % 2 == 0 {
        copy_at(bytes, at / 2, &[half * 16 + byte % 16]);
    } else {
        copy_at(bytes, at / 2, &[byte / 16 * 16 + half]);
    }
}

/// Writes a year at that half-byte.
fn set_half_year(bytes: &mut [u8], at: usize, year: u8)
    requires place { at + 2 ≤ 2 * length bytes.old }
    requires small { year ≤ 99 }
    ensures { bytes.new ≡ joined (with_part (halves bytes.old) at (year / 10 ∷ year % 10 ∷ [])) }
{
    set_half(bytes, at, year / 10);
    set_half(bytes, at + 1, year % 10);
}

/// Whether bytes are a valid packed number with sign C or F.
fn holds_packed(digits: u8, bytes: &[u8]) -> bool
    requires { length bytes.now ≡ digits / 2 + 1 }
    ensures { result ≡ is_packed digits bytes.now }
{
    let last = digits as usize / 2 * 2 + 1;
    for at in 0..last {
        if half_at(bytes, at) > 9 {
            return false;
        }
    }
    let first = half_at(bytes, 0);
    let sign = half_at(bytes, last);
    has_packed_ends(digits, first, sign)
}

/// Whether the first half-byte of a packed number may stand before that many digits, and the last is C or F.
fn has_packed_ends(digits: u8, first: u8, sign: u8) -> bool
    ensures { result ≡ ((digits % 2 == 1 || first == 0) && (sign == 12 || sign == 15)) }
{
    (digits % 2 == 1 || first == 0) && (sign == 12 || sign == 15)
}

/// The half-byte at which the year begins.
fn year_place(digits: u8, unit: u8) -> usize
    requires { unit + 2 ≤ digits }
    ensures place { result ≡ year_at digits unit }
    ensures inside { result + 2 ≤ digits / 2 * 2 + 1 }
{
    digits as usize / 2 * 2 - 1 - unit as usize
}

/// The year of a valid packed number.
pub(crate) fn packed_year(digits: u8, unit: u8, bytes: &[u8]) -> Option<u8>
    requires fits { unit + 2 ≤ digits }
    requires long { length bytes.now ≡ digits / 2 + 1 }
    ensures { result ≡ spec.packed_year digits unit bytes.now }
{
    if !holds_packed(digits, bytes) {
        return None;
    }
    let at = year_place(digits, unit);
    Some(half_at(bytes, at) * 10 + half_at(bytes, at + 1))
}

/// Writes the year of a packed number.
pub(crate) fn set_packed_year(digits: u8, unit: u8, bytes: &mut [u8], year: u8)
    requires fits { unit + 2 ≤ digits }
    requires long { length bytes.old ≡ digits / 2 + 1 }
    requires small { year ≤ 99 }
    ensures { bytes.new ≡ joined (with_part (halves bytes.old) (year_at digits unit) (year / 10 ∷ year % 10 ∷ [])) }
{
    set_half_year(bytes, year_place(digits, unit), year);
}

pub(crate) fn packed_is_tame(digits: u8, unit: u8, pivot: Option<u8>, bytes: &[u8]) -> bool
    requires fits { unit + 2 ≤ digits }
    requires long { length bytes.now ≡ digits / 2 + 1 }
    ensures { result ≡ tame_packed digits unit pivot bytes.now }
{
    if !holds_packed(digits, bytes) {
        return is_one_byte(bytes);
    }
    let at = digits as usize / 2 * 2 - 1 - unit as usize;
    let tens = half_at(bytes, at);
    let units = half_at(bytes, at + 1);
    if is_above(pivot, tens * 10 + units) {
        return true;
    }
    is_one_byte(bytes)
}

/// Whether bytes are the image of a tame packed number.
pub(crate) fn packed_is_image(digits: u8, unit: u8, bytes: &[u8]) -> bool
    requires fits { unit + 2 ≤ digits }
    requires few { digits ≤ 16 }
    requires long { length bytes.now ≡ digits / 2 + 2 }
    ensures { result ≡ spec.is_image (Packed digits unit None) bytes.now }
{
    if holds_packed(digits + 2, bytes) {
        let at = year_place(digits, unit);
        half_at(bytes, at) == 1 && half_at(bytes, at + 1) == 9
    } else {
        is_one_byte(bytes)
    }
}

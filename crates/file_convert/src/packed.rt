ghost use Rattle.std.specs.Prelude.{◌≡◌, ◌+◌, ◌*◌, ◌/◌, ◌%◌, ◌==◌, ◌&&◌, ◌||◌, ◌<◌, ◌≤◌, length, slice_index};
ghost use Rattle.byte_lists.specs.HalfBytes.{halves};
ghost use Rattle.year_image.specs.Packing.{is_packed, grow_packed};
ghost use Rattle.year_image.specs.Image.{tame_packed};
ghost use Rattle.byte_lists.specs.Part.{with_part};

use crate::bytes::{copy_at, is_one_byte};
use crate::pair::is_above;

/// The half-byte at that place, from 0 on.
fn half_at(bytes: &[u8], at: usize) -> u8
    requires { at < 2 * length bytes.now }
    ensures half { result ≡ slice_index (halves bytes.now) at }
    ensures small { result < 16 }
{
    if at % 2 == 0 {
        bytes[at / 2] / 16
    } else {
        bytes[at / 2] % 16
    }
}

/// Whether bytes are a valid packed number with sign C or F.
fn holds_packed(digits: u8, bytes: &[u8]) -> bool
    requires { length bytes.now ≡ digits / 2 + 1 }
    ensures { result ≡ is_packed digits bytes.now }
{
    let last = digits as usize / 2 * 2 + 1;
    for at in 0..last {
        if half_at(bytes, at) > 9 {
            return false;
        }
    }
    let first = half_at(bytes, 0);
    let sign = half_at(bytes, last);
    has_packed_ends(digits, first, sign)
}

/// Whether the first half-byte of a packed number may stand before that many digits, and the last is C or F.
fn has_packed_ends(digits: u8, first: u8, sign: u8) -> bool
    ensures { result ≡ ((digits % 2 == 1 || first == 0) && (sign == 12 || sign == 15)) }
{
    (digits % 2 == 1 || first == 0) && (sign == 12 || sign == 15)
}

pub(crate) fn packed_is_tame(digits: u8, unit: u8, pivot: Option<u8>, bytes: &[u8]) -> bool
    requires fits { unit + 2 ≤ digits }
    requires long { length bytes.now ≡ digits / 2 + 1 }
    ensures { result ≡ tame_packed digits unit pivot bytes.now }
{
    if !holds_packed(digits, bytes) {
        return is_one_byte(bytes);
    }
    let at = digits as usize / 2 * 2 - 1 - unit as usize;
    let tens = half_at(bytes, at);
    let units = half_at(bytes, at + 1);
    if is_above(pivot, tens * 10 + units) {
        return true;
    }
    is_one_byte(bytes)
}

/// Writes the image of a packed number.
pub(crate) fn write_packed(digits: u8, unit: u8, bytes: &[u8], into: &mut [u8], at: usize)
    requires fits { unit + 2 ≤ digits }
    requires long { length bytes.now ≡ digits / 2 + 1 }
    requires room { at + length bytes.now + 1 ≤ length into.old }
    ensures { into.new ≡ with_part into.old at (grow_packed digits unit bytes.now) }
{
    if holds_packed(digits, bytes) {
        let year = digits as usize / 2 * 2 - 1 - unit as usize;
        let front = year / 2;
        copy_at(into, at, &bytes[..front]);
        if year % 2 == 0 {
            copy_at(into, at + front, &[25]);
            copy_at(into, at + front + 1, &bytes[front..]);
        } else {
            let split = bytes[front];
            copy_at(into, at + front, &[split / 16 * 16 + 1, 144 + split % 16]);
            copy_at(into, at + front + 2, &bytes[front + 1..]);
        }
    } else {
        copy_at(into, at, &[bytes[0]]);
        copy_at(into, at + 1, bytes);
    }
}

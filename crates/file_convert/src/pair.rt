ghost use Rattle.std.specs.Prelude.{◌≡◌, ◌+◌, ◌≤◌, length, None};
ghost use Rattle.byte_lists.specs.Digit.{is_digit};
ghost use Rattle.year_image.specs.Image.{above, grow, tame_pair, two_digits, doubled};
ghost use Rattle.year_image.specs.Piece.{Pair};
ghost use Rattle.byte_lists.specs.Part.{with_part};

use crate::bytes::copy_at;

/// Whether a year is not below the pivot of its window.
pub(crate) fn is_above(pivot: Option<u8>, year: u8) -> bool
    ensures { result ≡ above pivot year }
{
    match pivot {
        None => true,
        Some(first) => first <= year,
    }
}

fn is_digit_code(byte: u8) -> bool
    ensures { result ≡ is_digit 48 byte }
{
    byte >= 48 && byte <= 57
}

fn holds_two_digits(bytes: &[u8]) -> bool
    requires { length bytes.now ≡ 2 }
    ensures { result ≡ two_digits 48 bytes.now }
{
    is_digit_code(bytes[0]) && is_digit_code(bytes[1])
}

/// Whether the two bytes are one that is no digit.
fn is_doubled(bytes: &[u8]) -> bool
    requires { length bytes.now ≡ 2 }
    ensures { result ≡ doubled 48 bytes.now }
{
    !is_digit_code(bytes[0]) && bytes[1] == bytes[0]
}

pub(crate) fn pair_is_tame(pivot: Option<u8>, bytes: &[u8]) -> bool
    requires { length bytes.now ≡ 2 }
    ensures { result ≡ tame_pair 48 pivot bytes.now }
{
    if holds_two_digits(bytes) {
        is_above(pivot, (bytes[0] - 48) * 10 + (bytes[1] - 48))
    } else {
        is_doubled(bytes)
    }
}

/// Writes the image of a pair.
pub(crate) fn write_pair(bytes: &[u8], into: &mut [u8], at: usize)
    requires long { length bytes.now ≡ 2 }
    requires room { at + 4 ≤ length into.old }
    ensures { into.new ≡ with_part into.old at (grow 48 (Pair None) bytes.now) }
{
    let first = bytes[0];
    let second = bytes[1];
    if holds_two_digits(bytes) {
        copy_at(into, at, &[49, 57, first, second]);
    } else {
        copy_at(into, at, &[first, first, first, second]);
    }
}

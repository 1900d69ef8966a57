ghost use Rattle.std.specs.Prelude.{◌≡◌, true, false};
ghost use Rattle.cond_reader.specs.Chars as spec;
ghost use Rattle.cond_reader.specs.Scans as scan;

use decimal_bytes::Scaled;

/// The most digits that a number has.
const DIGITS_OF_A_NUMBER: u8 = 18;
/// A number with fewer than 18 digits is below this.
const LARGE: u64 = 100_000_000_000_000_000;

/// A number of digits alone, at most 4,294,967,295.
pub fn whole(text: &[u8]) -> Option<u32>
    ensures { result ≡ spec.whole text.now }
{
    match text {
        [] => None,
        _ => digits(text),
    }
}

/// The value of digits; none where another byte stands among them, or where it is too large.
fn digits(mut text: &[u8]) -> Option<u32>
    ensures { result ≡ scan.digits 0 text.entry.now }
{
    let mut value = 0u64;
    while let [digit, rest @ ..] = text {
        if !digit.is_ascii_digit() {
            return None;
        }
        value = 10 * value + u64::from(*digit - b'0');
        if value > 4_294_967_295 {
            return None;
        }
        text = rest;
    }
    Some(value as u32)
}

/// The same, by going over the characters once.
fn unsigned(mut text: &[u8]) -> Option<(u64, u8, u8)>
    ensures { result ≡ scan.unsigned false 0 0 0 text.entry.now }
{
    let mut number = 0u64;
    let mut digits = 0u8;
    let mut scale = 0u8;
    let mut is_fraction = false;
    while let [first, rest @ ..] = text {
        if *first == b'.' {
            if is_fraction {
                return None;
            }
            is_fraction = true;
        } else {
            if !first.is_ascii_digit() || digits >= DIGITS_OF_A_NUMBER || number >= LARGE {
                return None;
            }
            number = 10 * number + u64::from(*first - b'0');
            digits += 1;
            if is_fraction {
                scale += 1;
            }
        }
        text = rest;
    }
    if digits == 0 || is_fraction && scale == 0 {
        None
    } else {
        Some((number, digits, scale))
    }
}

/// The number without its point, its digits and its digits after the point. A point has digits after it.
fn decimal(text: &[u8]) -> Option<(u64, u8, u8)>
    ensures { result ≡ spec.decimal text.now }
{
    unsigned(text)
}

/// The value of a number without its sign, with the sign that was read.
#[tactic(auto, unfolding(crate::specs::Chars::signed))]
fn signed(is_negative: bool, text: &[u8]) -> Option<(Scaled, u8)>
    ensures { result ≡ spec.signed is_negative text.now }
{
    let (number, digits, scale) = decimal(text)?;
    let number = i128::from(number);
    let number = if is_negative { 0 - number } else { number };
    Some((Scaled { number, scale }, digits))
}

/// The value of a number as it is written, an optional sign and at most 18 digits with at most one point, and how
/// many digits it has.
#[tactic(auto, unfolding(crate::specs::Chars::numeral))]
pub fn numeral(text: &[u8]) -> Option<(Scaled, u8)>
    ensures { result ≡ spec.numeral text.now }
{
    match text {
        [b'-', rest @ ..] => signed(true, rest),
        [b'+', rest @ ..] => signed(false, rest),
        _ => signed(false, text),
    }
}

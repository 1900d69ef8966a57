ghost use Rattle.std.specs.Prelude.{◌≡◌, ◌^◌, ◌&&◌, nat_le, nat_lt, Some, None, slice_get, IfOk, MatchOption};
ghost use Rattle.window_dates.specs.Literals as spec;

use date_uses::Used;
use date_views::Field;
use y2k_base::{Memory, Word};

fn is_digit(byte: u8) -> bool
    ensures { result ≡ spec.is_digit byte }
{
    b'0' <= byte && byte <= b'9'
}

fn are_digits(bytes: &[u8]) -> bool
    ensures { result ≡ spec.are_digits bytes.now }
{
    let mut rest = bytes;
    while let [byte, more @ ..] = rest {
        if !is_digit(*byte) {
            return false;
        }
        rest = more;
    }
    true
}

fn is_digits(bytes: &[u8]) -> bool
    ensures { result ≡ spec.is_digits bytes.now }
{
    match bytes {
        [] => false,
        [_, ..] => are_digits(bytes),
    }
}

fn word_text(words: &[Word], at: u32) -> Option<&[u8]>
    ensures { MatchOption result (spec.word_text (slice_get words.now at) ≡ None) (λ text. spec.word_text (slice_get words.now at) ≡ Some text.now) }
{
    match words.get(at as usize) {
        None => None,
        Some(word) => Some(word.text.items()),
    }
}

/// What a literal of a program with these words has: a number its word, a text what its marks enclose. A figurative constant
/// is no literal.
pub fn literal_text<'a>(words: &'a [Word], operand: &'a Used) -> Option<&'a [u8]>
    ensures { MatchOption result (spec.literal_text words.now operand.now ≡ None) (λ text. spec.literal_text words.now operand.now ≡ Some text.now) }
{
    match operand {
        Used::Place(_) => None,
        Used::Number {
            value: _,
            digits: _,
            at,
        } => word_text(words, *at),
        Used::Text { bytes, at: _ } => Some(bytes.items()),
        Used::Figure { byte: _, at: _ } => None,
    }
}

/// Whether an operand is a number without sign and point, or a text of one or more digits.
pub fn is_digits_literal(words: &[Word], operand: &Used) -> bool
    ensures { result ≡ spec.is_digits_literal words.now operand.now }
{
    match literal_text(words, operand) {
        None => false,
        Some(text) => is_digits(text),
    }
}

fn power_of_ten(exponent: u8) -> Result<u64, Memory>
    ensures { IfOk result (λ power. power ≡ 10 ^ exponent) }
{
    if exponent > 18 {
        return Err(Memory);
    }
    Ok(10u64.pow(u32::from(exponent)))
}

fn is_between(low: u128, value: u128, high: u128) -> bool
    ensures { result ≡ (nat_le low value && nat_lt value high) }
{
    low <= value && value < high
}

/// Numbers have at most 18 digits.
fn is_value_in_window(pivot: u8, digits: u8, value: u128) -> Result<bool, Memory>
    ensures { IfOk result (λ is. is ≡ spec.is_value_in_window pivot digits value) }
{
    let lower = power_of_ten(digits.saturating_sub(2))?;
    let high = power_of_ten(digits)?;
    let low = u128::from(pivot) * u128::from(lower);
    Ok(is_between(low, value, u128::from(high)))
}

fn digit_of(byte: u8) -> u32
    ensures { result ≡ spec.digit_of byte }
{
    u32::from(byte.saturating_sub(b'0'))
}

fn are_in_window(pivot: u8, text: &[u8]) -> bool
    ensures { result ≡ spec.are_in_window pivot text.now }
{
    match text {
        [] => false,
        [_] => false,
        [tens, units, ..] => u32::from(pivot) <= digit_of(*tens) * 10 + digit_of(*units),
    }
}

fn is_word_in_window(words: &[Word], at: u32, pivot: u8) -> bool
    ensures { result ≡ spec.is_text_in_window pivot (spec.word_text (slice_get words.now at)) }
{
    match word_text(words, at) {
        None => false,
        Some(text) => are_in_window(pivot, text),
    }
}

/// Whether a literal of digits that is compared with a field, or is a value of it, lies in the hundred years that begin with
/// the pivot: by its value where it and the field are numbers, and else by its first two digits.
pub fn is_in_window(
    words: &[Word],
    pivot: u8,
    field: &Field,
    operand: &Used,
) -> Result<bool, Memory>
    ensures { IfOk result (λ is. is ≡ spec.is_in_window words.now pivot field.now operand.now) }
{
    match operand {
        Used::Place(_) => Ok(false),
        Used::Number {
            value,
            digits: _,
            at,
        } => {
            if field.kind.is_number() {
                let is = is_value_in_window(pivot, field.digits, value.number.unsigned_abs())?;
                Ok(is)
            } else {
                Ok(is_word_in_window(words, *at, pivot))
            }
        }
        Used::Text { bytes, at: _ } => Ok(are_in_window(pivot, bytes.items())),
        Used::Figure { byte: _, at: _ } => Ok(false),
    }
}

ghost use Rattle.std.specs.Prelude.{◌≡◌, ◌⊎◌, length, replicate};
ghost use Rattle.std.specs.Ordering.{nat_cmp};
ghost use Rattle.std.specs.Cmp.Lexicographic.{slice_cmp};
ghost use Rattle.program_meaning.specs.Compare as compare;
ghost use Rattle.number_bytes.specs.Held.{read_scaled};
ghost use Rattle.exact_arithmetic.specs.Answers.{order_answer};

use crate::ArithmeticFault;
use crate::narrow::raised;
use decimal_bytes::Scaled;
use std::cmp::Ordering;

/// The order of two numbers, both raised to the greater scale.
pub fn number_cmp(left: Scaled, right: Scaled) -> Result<Ordering, ArithmeticFault>
    ensures { order_answer result ≡ compare.number_cmp (read_scaled left) (read_scaled right) }
{
    let scale = left.scale.max(right.scale);
    match raised(scale, left) {
        Ok(x) => match raised(scale, right) {
            Ok(y) => Ok(x.cmp(&y)),
            Err(fault) => Err(fault),
        },
        Err(fault) => Err(fault),
    }
}

/// The order of two texts, the shorter filled with spaces.
pub fn text_cmp(left: &[u8], right: &[u8]) -> Ordering
    ensures { result ≡ compare.bytes_cmp (compare.Whole left.now) (compare.Whole right.now) }
{
    let common = left.len().min(right.len());
    match left[..common].cmp(&right[..common]) {
        Ordering::Equal => rest_cmp(&left[common..], &right[common..]),
        Ordering::Less => Ordering::Less,
        Ordering::Greater => Ordering::Greater,
    }
}

/// The order of what is left of two texts, of which one has ended.
fn rest_cmp(left: &[u8], right: &[u8]) -> Ordering
    requires { (length left.now ≡ 0) ⊎ (length right.now ≡ 0) }
    ensures { result ≡ compare.bytes_cmp (compare.Whole left.now) (compare.Whole right.now) }
{
    if right.is_empty() {
        cmp_repeated(left, b' ')
    } else {
        repeated_cmp(b' ', right)
    }
}

/// The order of a text and of a byte as often as the text is long.
pub fn cmp_repeated(left: &[u8], byte: u8) -> Ordering
    ensures { result ≡ compare.bytes_cmp (compare.Whole left.now) (compare.Repeated byte) }
{
    cmp_run(left, byte)
}

/// The order of a byte, as often as a text is long, and of the text.
pub fn repeated_cmp(byte: u8, right: &[u8]) -> Ordering
    ensures { result ≡ compare.bytes_cmp (compare.Repeated byte) (compare.Whole right.now) }
{
    run_cmp(byte, right)
}

fn cmp_run(left: &[u8], byte: u8) -> Ordering
    ensures { result ≡ slice_cmp nat_cmp left.now (replicate (length left.now) byte) }
{
    for next in left {
        if *next != byte {
            return next.cmp(&byte);
        }
    }
    Ordering::Equal
}

fn run_cmp(byte: u8, right: &[u8]) -> Ordering
    ensures { result ≡ slice_cmp nat_cmp (replicate (length right.now) byte) right.now }
{
    for next in right {
        if *next != byte {
            return byte.cmp(next);
        }
    }
    Ordering::Equal
}

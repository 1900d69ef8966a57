ghost use Rattle.std.specs.Prelude.{◌≡◌, true, length, unsigned_abs, IfOk};
ghost use Rattle.byte_lists.specs.Digit.{all_digits, decimal, aligned, codes};
ghost use Rattle.program_meaning.specs.Number as meant;
ghost use Rattle.program_meaning.specs.Moves as moves;
ghost use Rattle.number_bytes.specs.Stored.{shown};

use std::alloc::Global;
use y2k_base::{Bytes, List, Memory};

/// The last digits of a number as a text without its sign, as many as there are bytes. So an integer moved to a
/// text gives the digits of its picture, and a literal those that are written.
pub fn put_digits(number: i128, into: &mut [u8])
    ensures digits { into.new ≡ codes (decimal (length into.old) (unsigned_abs number)) }
    ensures aligned { (d : meant.Decimal) → all_digits 0 d.digits ≡ true → meant.value_of d ≡ number →
        into.new ≡ codes (aligned (length into.old) d.digits) }
{
    put_magnitude(number.unsigned_abs(), into);
}

fn put_magnitude(magnitude: u128, into: &mut [u8])
    ensures { into.new ≡ codes (decimal (length into.old) magnitude) }
{
    let mut rest = magnitude;
    let length = into.len();
    for place in 0..length {
        into[length - 1 - place] = b'0' + (rest % 10) as u8;
        rest /= 10;
    }
}

/// What DISPLAY shows of a number: so many digits, after a `-` if the number is below 0.
pub fn shown_number(alloc: Global, number: i128, digits: u8) -> Result<Bytes, Memory>
    ensures shown { IfOk result (λ text. text ≡ shown number digits) }
    ensures meant { IfOk result (λ text. (form : meant.NumForm) (d : meant.Decimal) → form.digits ≡ digits →
        all_digits 0 d.digits ≡ true → meant.value_of d ≡ number → text ≡ moves.shown_number form d) }
{
    match shown_text(alloc, number, digits) {
        Ok(text) => Ok(text),
        Err(memory) => Err(memory),
    }
}

fn shown_text(alloc: Global, number: i128, digits: u8) -> Result<Bytes, Memory>
    ensures { IfOk result (λ text. text ≡ shown number digits) }
{
    let start = usize::from(number < 0);
    let mut text = vec![in alloc; b'-'; start + digits as usize]?;
    put_digits(number, &mut text[start..]);
    Ok(List::from_vec(text))
}

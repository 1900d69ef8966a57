ghost use Rattle.std.specs.Prelude.{◌≡◌, ◌+◌, ◌*◌, ◌/◌, ◌%◌, ◌==◌, ◌&&◌, ◌||◌, ◌++◌, ◌∷◌, [], slice_index, IfOk, OnOk};
ghost use Rattle.byte_lists.specs.Digit as digit;
ghost use Rattle.byte_lists.specs.HalfBytes as half_bytes;
ghost use Rattle.year_image.specs.Packing as spec;

use crate::numbers::{behind, front};
use std::alloc::Global;
use y2k_base::{Bytes, List, Memory};

/// The half-bytes of bytes, the high one of each first.
fn halves(alloc: Global, bytes: &[u8]) -> Result<Bytes, Memory>
    ensures { IfOk result (λ text. text ≡ half_bytes.halves bytes.now) }
{
    let mut text = List::new(alloc);
    let mut rest = bytes;
    while let [byte, more @ ..] = rest {
        text.push(*byte / 16)?;
        text.push(*byte % 16)?;
        rest = more;
    }
    Ok(text)
}

fn joined_pair(high: u8, low: u8) -> Result<u8, Memory>
    ensures { IfOk result (λ byte. byte ≡ high * 16 + low) }
{
    match high.checked_mul(16) {
        None => Err(Memory),
        Some(high) => match high.checked_add(low) {
            None => Err(Memory),
            Some(byte) => Ok(byte),
        },
    }
}

/// The bytes of half-bytes.
fn joined(alloc: Global, halves: &[u8]) -> Result<Bytes, Memory>
    ensures { IfOk result (λ text. text ≡ half_bytes.joined halves.now) }
{
    let mut text = List::new(alloc);
    let mut rest = halves;
    while let [high, more @ ..] = rest {
        match more {
            [] => return Ok(text),
            [low, others @ ..] => {
                text.push(joined_pair(*high, *low)?)?;
                rest = others;
            }
        }
    }
    Ok(text)
}

fn all_digits(halves: &[u8]) -> bool
    ensures { result ≡ digit.all_digits 0 halves.now }
{
    let mut rest = halves;
    while let [half, more @ ..] = rest {
        if *half > 9 {
            return false;
        }
        rest = more;
    }
    true
}

/// The byte of that number, or 0 where there is none.
pub(crate) fn byte_at(bytes: &[u8], at: usize) -> u8
    ensures { result ≡ slice_index bytes.now at }
{
    match bytes.get(at) {
        Some(byte) => *byte,
        None => 0,
    }
}

/// Whether the first half-byte of a packed number may stand before that many digits, and the last is C or F.
fn has_packed_ends(digits: u8, first: u8, sign: u8) -> bool
    ensures { result ≡ ((digits % 2 == 1 || first == 0) && (sign == 12 || sign == 15)) }
{
    (digits % 2 == 1 || first == 0) && (sign == 12 || sign == 15)
}

/// Whether half-bytes are those of a packed number of so many digits with sign C or F.
#[tactic(auto, using(crate::proofs::Years::is_packed_is))]
fn is_packed(alloc: Global, digits: u8, bytes: &[u8]) -> Result<bool, Memory>
    ensures { IfOk result (λ is. is ≡ spec.is_packed digits bytes.now) }
{
    let halves = halves(alloc, bytes)?;
    let last = digits as usize / 2 * 2 + 1;
    let first = byte_at(halves.items(), 0);
    let sign = byte_at(halves.items(), last);
    let digits_first = all_digits(front(halves.items(), last));
    let ends = has_packed_ends(digits, first, sign);
    Ok(digits_first && ends)
}

/// The half-byte at which the year of a packed number begins.
fn year_at(digits: u8, unit: u8) -> u8
    ensures { result ≡ spec.year_at digits unit }
{
    (digits / 2 * 2).saturating_sub(1).saturating_sub(unit)
}

fn with_century(alloc: Global, at: usize, halves: &[u8]) -> Result<Bytes, Memory>
    ensures { IfOk result (λ text. text ≡ spec.with_century at halves.now) }
{
    let mut text = List::new(alloc);
    text.append(front(halves, at))?;
    text.append(&[1, 9])?;
    text.append(behind(halves, at))?;
    Ok(text)
}

/// A packed number with 1 and 9 above its year.
fn packed_image(alloc: Global, digits: u8, unit: u8, bytes: &[u8]) -> Result<Bytes, Memory>
    ensures { IfOk result (λ text. text ≡
        half_bytes.joined (spec.with_century (spec.year_at digits unit) (half_bytes.halves bytes.now))) }
{
    let halves = halves(alloc, bytes)?;
    let at = year_at(digits, unit);
    let longer = with_century(alloc, at as usize, halves.items())?;
    let text = joined(alloc, longer.items())?;
    Ok(text)
}

/// Adds the first of the bytes, and then all of them.
fn add_with_first(text: &mut Bytes, bytes: &[u8]) -> Result<(), Memory>
    ensures { OnOk result (text.new ≡ text.old ++ slice_index bytes.now 0 ∷ bytes.now) }
{
    text.push(byte_at(bytes, 0))?;
    text.append(bytes)?;
    Ok(())
}

/// Adds the image of the bytes of a packed number with a year; where they hold none, the first of them stands once more.
#[tactic(auto, using(crate::proofs::Years::grow_packed_yes, crate::proofs::Years::grow_packed_no))]
pub(crate) fn add_grown_packed(
    alloc: Global,
    text: &mut Bytes,
    digits: u8,
    unit: u8,
    bytes: &[u8],
) -> Result<(), Memory>
    ensures { OnOk result (text.new ≡ text.old ++ spec.grow_packed digits unit bytes.now) }
{
    if is_packed(alloc, digits, bytes)? {
        let image = packed_image(alloc, digits, unit, bytes)?;
        text.append(image.items())?;
        Ok(())
    } else {
        add_with_first(text, bytes)?;
        Ok(())
    }
}

fn all_equal(byte: u8, bytes: &[u8]) -> bool
    ensures { result ≡ spec.all_equal byte bytes.now }
{
    let mut rest = bytes;
    while let [other, more @ ..] = rest {
        if *other != byte {
            return false;
        }
        rest = more;
    }
    true
}

/// Whether the bytes are a packed number of so many digits, or one byte repeated.
pub(crate) fn is_tame_packed(alloc: Global, digits: u8, bytes: &[u8]) -> Result<bool, Memory>
    ensures { IfOk result (λ is. is ≡ (spec.is_packed digits bytes.now || spec.all_equal (slice_index bytes.now 0) bytes.now)) }
{
    let packed = is_packed(alloc, digits, bytes)?;
    let equal = all_equal(byte_at(bytes, 0), bytes);
    Ok(packed || equal)
}

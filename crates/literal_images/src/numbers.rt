ghost use Rattle.std.specs.Prelude.{◌≡◌, ◌++◌, length, take, drop, replicate, IfOk, OnOk};
ghost use Rattle.byte_lists.specs.Digit.{codes, decimal};
ghost use Rattle.literal_images.specs.Numbers as spec;

use crate::meeting::{Meeting, places};
use date_uses::Used;
use date_views::Field;
use decimal_bytes::Scaled;
use operand_kinds::Kind;
use std::alloc::Global;
use window_modes::YearMode;
use y2k_base::{Bytes, List, Memory, Span};
use year_labels::View;
use year_pairs::YearKind;

fn put_magnitude(magnitude: u128, into: &mut [u8])
    ensures { into.new ≡ codes (decimal (length into.old) magnitude) }
{
    let mut rest = magnitude;
    let length = into.len();
    for place in 0..length {
        into[length - 1 - place] = b'0' + (rest % 10) as u8;
        rest /= 10;
    }
}

/// The digits of a number literal as they are written, without sign and point.
pub(crate) fn written(alloc: Global, value: Scaled, digits: u8) -> Result<Bytes, Memory>
    ensures { IfOk result (λ text. text ≡ spec.written value digits) }
{
    let mut text = vec![in alloc; b'0'; digits as usize]?;
    put_magnitude(value.number.unsigned_abs(), &mut text);
    Ok(List::from_vec(text))
}

/// At most so many bytes from the front.
pub(crate) fn front(bytes: &[u8], count: usize) -> &[u8]
    ensures { result.now ≡ take count bytes.now }
{
    if count < bytes.len() {
        &bytes[..count]
    } else {
        bytes
    }
}

/// The bytes behind so many.
pub(crate) fn behind(bytes: &[u8], count: usize) -> &[u8]
    ensures { result.now ≡ drop count bytes.now }
{
    if count < bytes.len() {
        &bytes[count..]
    } else {
        &[]
    }
}

pub(crate) fn copied(alloc: Global, bytes: &[u8]) -> Result<Bytes, Memory>
    ensures { IfOk result (λ copy. copy ≡ bytes.now) }
{
    let mut copy = List::new(alloc);
    copy.append(bytes)?;
    Ok(copy)
}

pub(crate) fn single(alloc: Global, byte: u8) -> Result<Bytes, Memory>
    ensures { IfOk result (λ bytes. bytes ≡ replicate 1 byte) }
{
    let bytes = vec![in alloc; byte; 1]?;
    Ok(List::from_vec(bytes))
}

fn written_whole(alloc: Global, value: Scaled, digits: u8) -> Result<Bytes, Memory>
    ensures { IfOk result (λ text. text ≡ spec.written_whole value digits) }
{
    let text = written(alloc, value, digits)?;
    let count = digits.saturating_sub(value.scale);
    let whole = copied(alloc, front(text.items(), count as usize))?;
    Ok(whole)
}

fn written_fraction(alloc: Global, value: Scaled, digits: u8) -> Result<Bytes, Memory>
    ensures { IfOk result (λ text. text ≡ spec.written_fraction value digits) }
{
    let text = written(alloc, value, digits)?;
    let count = digits.saturating_sub(value.scale);
    let fraction = copied(alloc, behind(text.items(), count as usize))?;
    Ok(fraction)
}

/// The digits before the point; a text is an integer.
fn whole(alloc: Global, literal: &Used) -> Result<Bytes, Memory>
    ensures { IfOk result (λ text. text ≡ spec.whole literal.now) }
{
    match literal {
        Used::Place(_) => Ok(List::new(alloc)),
        Used::Number {
            value,
            digits,
            at: _,
        } => {
            let text = written_whole(alloc, *value, *digits)?;
            Ok(text)
        }
        Used::Text { bytes, at: _ } => {
            let text = copied(alloc, bytes.items())?;
            Ok(text)
        }
        Used::Figure { byte, at: _ } => {
            let text = single(alloc, *byte)?;
            Ok(text)
        }
    }
}

/// The digits after the point.
fn fraction(alloc: Global, literal: &Used) -> Result<Bytes, Memory>
    ensures { IfOk result (λ text. text ≡ spec.fraction literal.now) }
{
    match literal {
        Used::Place(_) => Ok(List::new(alloc)),
        Used::Number {
            value,
            digits,
            at: _,
        } => {
            let text = written_fraction(alloc, *value, *digits)?;
            Ok(text)
        }
        Used::Text { bytes: _, at: _ } => Ok(List::new(alloc)),
        Used::Figure { byte: _, at: _ } => Ok(List::new(alloc)),
    }
}

/// The last so many digits, filled up with zeros in front.
fn lined_up(alloc: Global, count: usize, digits: &[u8]) -> Result<Bytes, Memory>
    ensures { IfOk result (λ text. text ≡ spec.lined_up count digits.now) }
{
    let zeros = vec![in alloc; b'0'; count.saturating_sub(digits.len())]?;
    let mut text = List::from_vec(zeros);
    text.append(behind(digits, digits.len().saturating_sub(count)))?;
    Ok(text)
}

/// The first so many bytes, filled up with a byte behind.
pub(crate) fn fitted(alloc: Global, byte: u8, count: usize, bytes: &[u8]) -> Result<Bytes, Memory>
    ensures { IfOk result (λ text. text ≡ spec.fitted byte count bytes.now) }
{
    let rest = vec![in alloc; byte; count.saturating_sub(bytes.len())]?;
    let mut text = copied(alloc, front(bytes, count))?;
    text.append(&rest)?;
    Ok(text)
}

fn scale_of(kind: Kind) -> u8
    ensures { result ≡ spec.scale_of kind }
{
    match kind {
        Kind::Group => 0,
        Kind::Text => 0,
        Kind::Edited { form } => form.scale,
        Kind::Number { usage: _, form } => form.scale,
    }
}

fn unit_of_pair(kind: YearKind, power: Option<u8>) -> Option<u8>
    ensures { result ≡ spec.unit_of_pair kind power }
{
    match kind {
        YearKind::Pair => power,
        YearKind::Packed { digits: _, unit: _ } => None,
    }
}

fn unit_of_packed(kind: YearKind) -> Option<u8>
    ensures { result ≡ spec.unit_of_packed kind }
{
    match kind {
        YearKind::Pair => None,
        YearKind::Packed { digits: _, unit } => Some(unit),
    }
}

fn power_at(powers: &[Option<u8>], index: u32) -> Option<u8>
    ensures { result ≡ spec.power_at powers.now index }
{
    match powers.get(index as usize) {
        Some(power) => *power,
        None => None,
    }
}

/// Where the second byte of a year stands in a span.
fn second_in(span: Span, mode: &YearMode) -> Result<u32, Memory>
    ensures { IfOk result (λ index. index ≡ spec.second_in span mode.now) }
{
    match mode.year.place.offset.checked_add(1) {
        Some(offset) => Ok(offset.saturating_sub(span.offset)),
        None => Err(Memory),
    }
}

/// The power of the units digit of a year, where the view shows it.
fn unit_in(view: &View, mode: &YearMode) -> Result<Option<u8>, Memory>
    ensures { IfOk result (λ unit. unit ≡ spec.unit_in view.now mode.now) }
{
    match view {
        View::Bytes { span, powers } => {
            let index = second_in(*span, mode)?;
            let power = power_at(powers.items(), index);
            Ok(unit_of_pair(mode.year.kind, power))
        }
        View::Packed { span: _, digits: _ } => Ok(unit_of_packed(mode.year.kind)),
        View::Plain => Ok(None),
    }
}

fn add_unit(units: &mut Bytes, unit: Option<u8>) -> Result<(), Memory>
    ensures { OnOk result (units.new ≡ units.old ++ spec.unit_list unit) }
{
    match unit {
        None => Ok(()),
        Some(unit) => {
            units.push(unit)?;
            Ok(())
        }
    }
}

/// The powers of the units digits of the years that the view shows.
pub(crate) fn units(alloc: Global, view: &View, modes: &[YearMode]) -> Result<Bytes, Memory>
    ensures { IfOk result (λ units. units ≡ spec.units view.now modes.now) }
{
    let mut units = List::new(alloc);
    let mut rest = modes;
    while let [mode, more @ ..] = rest {
        let unit = unit_in(view, mode)?;
        add_unit(&mut units, unit)?;
        rest = more;
    }
    Ok(units)
}

/// Whether the digit of that power is the tens digit of one of the years.
fn is_tens(units: &[u8], power: usize) -> bool
    ensures { result ≡ spec.is_tens units.now power }
{
    let mut rest = units;
    while let [unit, more @ ..] = rest {
        if power == *unit as usize + 1 {
            return true;
        }
        rest = more;
    }
    false
}

fn add_century(digits: &mut Bytes, tens: bool) -> Result<(), Memory>
    ensures { OnOk result (digits.new ≡ digits.old ++ spec.century tens) }
{
    if tens {
        digits.append(b"19")?;
    }
    Ok(())
}

/// The digits with 1 and 9 before the tens digit of each year.
fn with_centuries(alloc: Global, units: &[u8], digits: &[u8]) -> Result<Bytes, Memory>
    ensures { IfOk result (λ text. text ≡ spec.with_centuries units.now digits.now) }
{
    let mut text = List::new(alloc);
    let mut rest = digits;
    while let [digit, more @ ..] = rest {
        add_century(&mut text, is_tens(units, more.len()))?;
        text.push(*digit)?;
        rest = more;
    }
    Ok(text)
}

fn without_zeros(digits: &[u8]) -> &[u8]
    ensures { result.now ≡ spec.without_zeros digits.now }
{
    let mut rest = digits;
    while let [digit, more @ ..] = rest {
        if *digit != b'0' {
            return rest;
        }
        rest = more;
    }
    rest
}

fn add_fraction(text: &mut Bytes, fraction: &[u8]) -> Result<(), Memory>
    ensures { OnOk result (text.new ≡ text.old ++ spec.behind_point fraction.now) }
{
    match fraction {
        [] => Ok(()),
        [_, ..] => {
            text.push(b'.')?;
            text.append(fraction)?;
            Ok(())
        }
    }
}

/// The digits of a literal before the point: aligned at it, and with their centuries.
pub(crate) fn new_whole(
    alloc: Global,
    meeting: Meeting,
    literal: &Used,
    field: &Field,
    units: &[u8],
) -> Result<Bytes, Memory>
    ensures { IfOk result (λ text. text ≡ spec.new_whole meeting literal.now field.now units.now) }
{
    let digits = whole(alloc, literal)?;
    let count = places(meeting, field.digits as usize, digits.len());
    let aligned = lined_up(alloc, count, digits.items())?;
    let text = with_centuries(alloc, units, aligned.items())?;
    Ok(text)
}

fn new_fraction(
    alloc: Global,
    meeting: Meeting,
    literal: &Used,
    field: &Field,
) -> Result<Bytes, Memory>
    ensures { IfOk result (λ text. text ≡ spec.new_fraction meeting literal.now field.now) }
{
    let digits = fraction(alloc, literal)?;
    let count = places(meeting, scale_of(field.kind) as usize, digits.len());
    let text = fitted(alloc, b'0', count, digits.items())?;
    Ok(text)
}

/// A number literal with its centuries, as it is printed.
pub(crate) fn new_number(
    alloc: Global,
    meeting: Meeting,
    literal: &Used,
    field: &Field,
    units: &[u8],
) -> Result<Bytes, Memory>
    ensures { IfOk result (λ text. text ≡ spec.new_number meeting literal.now field.now units.now) }
{
    let whole = new_whole(alloc, meeting, literal, field, units)?;
    let fraction = new_fraction(alloc, meeting, literal, field)?;
    let mut text = copied(alloc, without_zeros(whole.items()))?;
    add_fraction(&mut text, fraction.items())?;
    Ok(text)
}

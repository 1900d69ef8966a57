ghost use Rattle.std.specs.Prelude.{◌≡◌, IfOk};
ghost use Rattle.byte_lists.specs.Digit as digit;
ghost use Rattle.literal_images.specs.Images as spec;
ghost use Rattle.literal_images.specs.Texts as texts;

use crate::meeting::{Meeting, expanded_in, has_image, is_by_value, is_text};
use crate::numbers::{new_number, new_whole, units};
use crate::texts::{are_tame, given, grown, trimmed};
use date_uses::Used;
use date_views::{Field, Side};
use std::alloc::Global;
use window_modes::YearMode;
use y2k_base::{Bytes, Memory, Span};
use year_index::YearIndex;

/// The word that stands for a literal after conversion: a number as it is printed, or what the marks of a literal enclose.
#[derive(Debug)]
pub enum NewWord {
    Number(Bytes),
    Literal(Bytes),
}

impl Drop for NewWord {
    fn drop(self) {
        match self {
            NewWord::Number(_text) => {}
            NewWord::Literal(_text) => {}
        }
    }
}

/// The word of a literal whose digits meet those of years.
fn value_word(
    alloc: Global,
    meeting: Meeting,
    literal: &Used,
    field: &Field,
    units: &[u8],
) -> Result<NewWord, Memory>
    ensures { IfOk result (λ word. word ≡ spec.value_word meeting literal.now field.now units.now) }
{
    if is_text(literal) {
        let text = new_whole(alloc, meeting, literal, field, units)?;
        Ok(NewWord::Literal(text))
    } else {
        let text = new_number(alloc, meeting, literal, field, units)?;
        Ok(NewWord::Number(text))
    }
}

fn image_by_value(
    alloc: Global,
    meeting: Meeting,
    literal: &Used,
    field: &Field,
    units: &[u8],
) -> Result<Option<NewWord>, Memory>
    ensures { IfOk result (λ word. word ≡ spec.image_by_value meeting literal.now field.now units.now) }
{
    match units {
        [] => Ok(None),
        [_, ..] => {
            let word = value_word(alloc, meeting, literal, field, units)?;
            Ok(Some(word))
        }
    }
}

/// The bytes of a literal where it meets a field, with those of each year grown.
fn grown_text(
    alloc: Global,
    meeting: Meeting,
    literal: &Used,
    span: Span,
    modes: &[YearMode],
) -> Result<Bytes, Memory>
    ensures { IfOk result (λ text. text ≡ texts.grown meeting literal.now span modes.now) }
{
    let bytes = given(alloc, meeting, literal, span)?;
    let text = grown(alloc, span, modes, bytes.items())?;
    Ok(text)
}

fn new_text(
    alloc: Global,
    meeting: Meeting,
    literal: &Used,
    span: Span,
    modes: &[YearMode],
) -> Result<Bytes, Memory>
    ensures { IfOk result (λ text. text ≡ texts.new_text meeting literal.now span modes.now) }
{
    let whole = grown_text(alloc, meeting, literal, span, modes)?;
    let text = trimmed(alloc, whole.items())?;
    Ok(text)
}

fn image_by_bytes(
    alloc: Global,
    meeting: Meeting,
    literal: &Used,
    field: &Field,
    modes: &[YearMode],
) -> Result<Option<NewWord>, Memory>
    ensures { IfOk result (λ word. word ≡ spec.image_by_bytes meeting literal.now field.now modes.now) }
{
    match modes {
        [] => Ok(None),
        [_, ..] => {
            let text = new_text(alloc, meeting, literal, field.span, modes)?;
            Ok(Some(NewWord::Literal(text)))
        }
    }
}

/// The new word of a literal by the years that it meets in a field.
fn image_in(
    alloc: Global,
    meeting: Meeting,
    literal: &Used,
    field: &Field,
    modes: &[YearMode],
) -> Result<Option<NewWord>, Memory>
    ensures { IfOk result (λ word. word ≡ spec.image_in meeting literal.now field.now modes.now) }
{
    if is_by_value(meeting, literal, field.kind) {
        let units = units(alloc, &field.view, modes)?;
        let word = image_by_value(alloc, meeting, literal, field, units.items())?;
        Ok(word)
    } else {
        let word = image_by_bytes(alloc, meeting, literal, field, modes)?;
        Ok(word)
    }
}

/// The new word of a literal that meets a field, or `None` where it meets no year that gets its century.
pub(crate) fn image_at(
    alloc: Global,
    index: &YearIndex,
    meeting: Meeting,
    literal: &Used,
    field: &Field,
) -> Result<Option<NewWord>, Memory>
    ensures { IfOk result (λ word. word ≡ spec.image_at index.now meeting literal.now field.now) }
{
    if has_image(literal) {
        let modes = expanded_in(alloc, index, field.span)?;
        let word = image_in(alloc, meeting, literal, field, modes.items())?;
        Ok(word)
    } else {
        Ok(None)
    }
}

fn image_beside(
    alloc: Global,
    index: &YearIndex,
    meeting: Meeting,
    literal: &Used,
    side: &Option<Side>,
) -> Result<Option<NewWord>, Memory>
    ensures { IfOk result (λ word. word ≡ spec.image_beside index.now meeting literal.now side.now) }
{
    match side {
        None => Ok(None),
        Some(Side::Known(field)) => {
            let word = image_at(alloc, index, meeting, literal, field)?;
            Ok(word)
        }
        Some(Side::Moving { most: _ }) => Ok(None),
    }
}

/// The new word of a literal that meets an operand: with the years of the operand grown, and cut and filled as the
/// operand gets it. It is `None` where the literal meets no year that gets its century, and where the operand is no item or
/// reference of which the text tells the bytes. The new word may be the old one.
pub fn literal_image(
    alloc: Global,
    index: &YearIndex,
    meeting: Meeting,
    literal: &Used,
    operand: &Used,
) -> Result<Option<NewWord>, Memory>
    ensures { IfOk result (λ word. word ≡ spec.image index.now meeting literal.now operand.now) }
{
    match operand {
        Used::Place(place) => {
            let word = image_beside(alloc, index, meeting, literal, &place.side)?;
            Ok(word)
        }
        Used::Number {
            value: _,
            digits: _,
            at: _,
        } => Ok(None),
        Used::Text { bytes: _, at: _ } => Ok(None),
        Used::Figure { byte: _, at: _ } => Ok(None),
    }
}

fn is_negative(literal: &Used) -> bool
    ensures { result ≡ spec.is_negative literal.now }
{
    match literal {
        Used::Place(_) => false,
        Used::Number {
            value,
            digits: _,
            at: _,
        } => value.number < 0,
        Used::Text { bytes: _, at: _ } => false,
        Used::Figure { byte: _, at: _ } => false,
    }
}

fn all_digits(bytes: &[u8]) -> bool
    ensures { result ≡ digit.all_digits 48 bytes.now }
{
    let mut rest = bytes;
    while let [byte, more @ ..] = rest {
        if *byte < b'0' || *byte > b'9' {
            return false;
        }
        rest = more;
    }
    true
}

/// Whether it is a text with a byte that is no digit.
fn is_no_number(literal: &Used) -> bool
    ensures { result ≡ spec.is_no_number literal.now }
{
    match literal {
        Used::Place(_) => false,
        Used::Number {
            value: _,
            digits: _,
            at: _,
        } => false,
        Used::Text { bytes, at: _ } => !all_digits(bytes.items()),
        Used::Figure { byte: _, at: _ } => false,
    }
}

/// Whether a byte is there that may not stand in a literal.
fn has_control(bytes: &[u8]) -> bool
    ensures { result ≡ spec.has_control bytes.now }
{
    let mut rest = bytes;
    while let [byte, more @ ..] = rest {
        if *byte < 32 {
            return true;
        }
        rest = more;
    }
    false
}

fn is_tame(
    alloc: Global,
    meeting: Meeting,
    literal: &Used,
    span: Span,
    modes: &[YearMode],
) -> Result<bool, Memory>
    ensures { IfOk result (λ is. is ≡ texts.is_tame meeting literal.now span modes.now) }
{
    let bytes = given(alloc, meeting, literal, span)?;
    let is = are_tame(alloc, span, modes, bytes.items())?;
    Ok(is)
}

fn is_bad_text(
    alloc: Global,
    meeting: Meeting,
    literal: &Used,
    field: &Field,
    modes: &[YearMode],
) -> Result<bool, Memory>
    ensures { IfOk result (λ is. is ≡ spec.is_bad_text meeting literal.now field.now modes.now) }
{
    let tame = is_tame(alloc, meeting, literal, field.span, modes)?;
    let text = grown_text(alloc, meeting, literal, field.span, modes)?;
    Ok(!tame || has_control(text.items()))
}

/// Whether a literal that meets the years of a field can't stand there.
pub(crate) fn is_bad(
    alloc: Global,
    meeting: Meeting,
    literal: &Used,
    field: &Field,
    modes: &[YearMode],
) -> Result<bool, Memory>
    ensures { IfOk result (λ is. is ≡ spec.is_bad meeting literal.now field.now modes.now) }
{
    if is_negative(literal) {
        Ok(true)
    } else if is_by_value(meeting, literal, field.kind) {
        Ok(is_no_number(literal))
    } else {
        let is = is_bad_text(alloc, meeting, literal, field, modes)?;
        Ok(is)
    }
}

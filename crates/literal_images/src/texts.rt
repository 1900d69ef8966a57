ghost use Rattle.std.specs.Prelude.{◌≡◌, ◌+◌, ◌-◌, ◌++◌, ◌&&◌, length, take, drop, reverse, IfOk, OnOk};
ghost use Rattle.byte_lists.specs.Digit.{is_digit};
ghost use Rattle.year_image.specs.Image as image;
ghost use Rattle.year_image.specs.Piece.{width};
ghost use Rattle.year_pairs.specs.declared.year.YearKind.TheVariants as kinds;
ghost use Rattle.literal_images.specs.Texts as spec;

use crate::meeting::{Meeting, places};
use crate::numbers::{behind, copied, fitted, front, written};
use crate::packed::{add_grown_packed, byte_at, is_tame_packed};
use date_uses::Used;
use std::alloc::Global;
use window_modes::YearMode;
use y2k_base::{Bytes, List, Memory, Span};
use year_pairs::YearKind;

fn repeated(alloc: Global, byte: u8, count: u32) -> Result<Bytes, Memory>
    ensures { IfOk result (λ text. text ≡ spec.repeated byte count) }
{
    let bytes = vec![in alloc; byte; count as usize]?;
    Ok(List::from_vec(bytes))
}

/// The bytes of a literal: a number has its digits, and ZERO is as long as the field.
fn bytes_of(alloc: Global, literal: &Used, count: u32) -> Result<Bytes, Memory>
    ensures { IfOk result (λ text. text ≡ spec.bytes_of literal.now count) }
{
    match literal {
        Used::Place(_) => Ok(List::new(alloc)),
        Used::Number {
            value,
            digits,
            at: _,
        } => {
            let text = written(alloc, *value, *digits)?;
            Ok(text)
        }
        Used::Text { bytes, at: _ } => {
            let text = copied(alloc, bytes.items())?;
            Ok(text)
        }
        Used::Figure { byte, at: _ } => {
            let text = repeated(alloc, *byte, count)?;
            Ok(text)
        }
    }
}

/// The bytes of a literal as they come to a field.
pub(crate) fn given(
    alloc: Global,
    meeting: Meeting,
    literal: &Used,
    span: Span,
) -> Result<Bytes, Memory>
    ensures { IfOk result (λ text. text ≡ spec.given meeting literal.now span) }
{
    let bytes = bytes_of(alloc, literal, span.length)?;
    let count = places(meeting, span.length as usize, bytes.len());
    let text = fitted(alloc, b' ', count, bytes.items())?;
    Ok(text)
}

fn is_digit(byte: u8) -> bool
    ensures { result ≡ is_digit 48 byte }
{
    byte >= b'0' && byte <= b'9'
}

fn is_two_digits(bytes: &[u8]) -> bool
    ensures { result ≡ image.two_digits 48 bytes.now }
{
    is_digit(byte_at(bytes, 0)) && is_digit(byte_at(bytes, 1))
}

fn is_doubled(bytes: &[u8]) -> bool
    ensures { result ≡ image.doubled 48 bytes.now }
{
    !is_digit(byte_at(bytes, 0)) && byte_at(bytes, 1) == byte_at(bytes, 0)
}

#[tactic(auto, using(crate::proofs::Years::century_yes, crate::proofs::Years::century_no))]
fn add_century(text: &mut Bytes, bytes: &[u8]) -> Result<(), Memory>
    ensures { OnOk result (text.new ≡ text.old ++ image.century 48 bytes.now) }
{
    if is_two_digits(bytes) {
        text.append(&[49, 57])?;
        Ok(())
    } else {
        let first = byte_at(bytes, 0);
        text.append(&[first, first])?;
        Ok(())
    }
}

/// Adds the image of the bytes of a year.
fn add_grown(alloc: Global, text: &mut Bytes, kind: YearKind, bytes: &[u8]) -> Result<(), Memory>
    ensures { OnOk result (text.new ≡ text.old ++ image.grow 48 (spec.piece_at kind) bytes.now) }
{
    match kind {
        YearKind::Pair => {
            add_century(text, bytes)?;
            text.append(bytes)?;
            Ok(())
        }
        YearKind::Packed { digits, unit } => {
            add_grown_packed(alloc, text, digits, unit, bytes)?;
            Ok(())
        }
    }
}

#[tactic(auto, using(crate::proofs::Years::tame_pair_is))]
fn is_tame_pair(bytes: &[u8]) -> bool
    ensures { result ≡ image.tame 48 (spec.piece_at kinds.Pair) bytes.now }
{
    is_two_digits(bytes) || is_doubled(bytes)
}

/// Whether the bytes are those that a year may have.
#[tactic(auto, using(crate::proofs::Years::tame_packed_is))]
fn is_tame(alloc: Global, kind: YearKind, bytes: &[u8]) -> Result<bool, Memory>
    ensures { IfOk result (λ is. is ≡ image.tame 48 (spec.piece_at kind) bytes.now) }
{
    match kind {
        YearKind::Pair => Ok(is_tame_pair(bytes)),
        YearKind::Packed { digits, unit: _ } => {
            let is = is_tame_packed(alloc, digits, bytes)?;
            Ok(is)
        }
    }
}

fn width(kind: YearKind) -> u8
    ensures { result ≡ width (spec.piece_at kind) }
{
    match kind {
        YearKind::Pair => 2,
        YearKind::Packed { digits, unit: _ } => digits / 2 + 1,
    }
}

fn start_in(span: Span, mode: &YearMode) -> u32
    ensures { result ≡ spec.start_in span mode.now }
{
    mode.year.place.offset.saturating_sub(span.offset)
}

/// How many bytes lie between that one and the year.
fn gap_before(span: Span, at: u32, mode: &YearMode) -> u32
    ensures { result ≡ spec.start_in span mode.now - at }
{
    start_in(span, mode).saturating_sub(at)
}

fn end_in(span: Span, mode: &YearMode) -> Result<u32, Memory>
    ensures { IfOk result (λ end. end ≡ spec.start_in span mode.now + width (spec.piece_of mode.now)) }
{
    match start_in(span, mode).checked_add(u32::from(width(mode.year.kind))) {
        None => Err(Memory),
        Some(end) => Ok(end),
    }
}

/// The bytes of a year behind so many others.
fn year_behind(bytes: &[u8], gap: u32, kind: YearKind) -> &[u8]
    ensures { result.now ≡ take (width (spec.piece_at kind)) (drop gap bytes.now) }
{
    front(behind(bytes, gap as usize), width(kind) as usize)
}

/// What comes behind it.
fn rest_behind(bytes: &[u8], gap: u32, kind: YearKind) -> &[u8]
    ensures { result.now ≡ drop (width (spec.piece_at kind)) (drop gap bytes.now) }
{
    behind(behind(bytes, gap as usize), width(kind) as usize)
}

/// The bytes with those of each year grown.
pub(crate) fn grown(
    alloc: Global,
    span: Span,
    modes: &[YearMode],
    bytes: &[u8],
) -> Result<Bytes, Memory>
    ensures { IfOk result (λ text. text ≡ image.image 48 (spec.pieces span (length bytes.now) modes.now) bytes.now) }
{
    let mut text = List::new(alloc);
    let mut at = 0;
    let mut rest = bytes;
    let mut years = modes;
    while let [mode, more @ ..] = years {
        let gap = gap_before(span, at, mode);
        text.append(front(rest, gap as usize))?;
        let kind = mode.year.kind;
        add_grown(alloc, &mut text, kind, year_behind(rest, gap, kind))?;
        rest = rest_behind(rest, gap, kind);
        at = end_in(span, mode)?;
        years = more;
    }
    text.append(rest)?;
    Ok(text)
}

/// Whether the bytes of each year are those that a year may have.
pub(crate) fn are_tame(
    alloc: Global,
    span: Span,
    modes: &[YearMode],
    bytes: &[u8],
) -> Result<bool, Memory>
    ensures { IfOk result (λ are. are ≡ spec.are_tame (spec.pieces span (length bytes.now) modes.now) bytes.now) }
{
    let mut at = 0;
    let mut rest = bytes;
    let mut years = modes;
    while let [mode, more @ ..] = years {
        let gap = gap_before(span, at, mode);
        let kind = mode.year.kind;
        if !is_tame(alloc, kind, year_behind(rest, gap, kind))? {
            return Ok(false);
        }
        rest = rest_behind(rest, gap, kind);
        at = end_in(span, mode)?;
        years = more;
    }
    Ok(true)
}

fn without_last_spaces(mut text: &[u8]) -> &[u8]
    ensures { result.now ≡ reverse (spec.without_spaces (reverse text.now)) }
{
    while let [front @ .., last] = text
        && *last == b' '
    {
        text = front;
    }
    text
}

/// The text without spaces at its end, but with at least one byte.
pub(crate) fn trimmed(alloc: Global, text: &[u8]) -> Result<Bytes, Memory>
    ensures { IfOk result (λ bytes. bytes ≡ spec.trimmed text.now) }
{
    match text {
        [] => Ok(List::new(alloc)),
        [first, more @ ..] => {
            let mut bytes = List::new(alloc);
            bytes.push(*first)?;
            bytes.append(without_last_spaces(more))?;
            Ok(bytes)
        }
    }
}

ghost use Rattle.std.specs.Prelude.{◌≡◌, ◌↔◌, ◌<◌, ◌≤◌, ℕ, ◌∷◌, [], IsTrue, IfSome, IfNone, OnOk, Contains, length};
ghost use Rattle.year_labels.specs.Facts.{place_in, fact_in};
ghost use Rattle.year_labels.specs.Forms.{IsPlaced, IsCopied};
ghost use Rattle.year_labels.specs.Roles.{HoldsPower};
ghost use Rattle.label_spread.specs.Steps.{Adds, Reacts, IsInSpan};

use crate::known::Known;
use y2k_base::{BytePlace, Memory, Span};
use year_labels::{Fact, Label};

/// Which byte of the span the place is.
pub fn index_in(span: Span, place: BytePlace) -> Option<u32>
    ensures found { IfSome result (λ i. (i < span.length) × (place ≡ place_in span i)) }
    ensures none { IfNone result (IsInSpan span place → ⊥) }
{
    if place.area != span.area || place.offset < span.offset {
        return None;
    }
    let index = place.offset - span.offset;
    if index < span.length {
        Some(index)
    } else {
        None
    }
}

/// Whether the place is a byte of the span.
pub(crate) fn is_in_span(span: Span, place: BytePlace) -> bool
    ensures { IsTrue result ↔ IsInSpan span place }
{
    match index_in(span, place) {
        Some(_) => true,
        None => false,
    }
}

pub(crate) fn place_at(span: Span, index: u32) -> BytePlace
    requires placed { IsPlaced span }
    requires within { index < span.length }
    ensures { result ≡ place_in span index }
{
    BytePlace {
        area: span.area,
        offset: span.offset + index,
    }
}

/// That the byte of that index of the span bears the label.
pub fn fact_at(span: Span, index: u32, label: Label) -> Fact
    requires placed { IsPlaced span }
    requires within { index < span.length }
    ensures { result ≡ fact_in span index label }
{
    let place = place_at(span, index);
    Fact { place, label }
}

/// Adds that the byte bears the label.
pub(crate) fn insert_at(
    span: Span,
    index: u32,
    label: Label,
    known: &mut Known,
) -> Result<(), Memory>
    requires placed { IsPlaced span }
    requires within { index < span.length }
    ensures { OnOk result (Adds (λ _ f. f ≡ fact_in span index label) known.old known.new) }
{
    let fact = fact_at(span, index, label);
    known.insert(fact)?;
    Ok(())
}

/// Gives the label of that byte of the one span to the same byte of the other.
pub(crate) fn copy_label(from: Span, to: Span, fact: Fact, known: &mut Known) -> Result<(), Memory>
    requires placed { IsPlaced to }
    requires equal { from.length ≡ to.length }
    requires there { Contains known.old fact }
    ensures { OnOk result (Reacts (IsCopied from to) fact known.old known.new) }
{
    match index_in(from, fact.place) {
        Some(index) => {
            insert_at(to, index, fact.label, known)?;
            Ok(())
        }
        None => Ok(()),
    }
}

/// Labels the bytes that hold a digit of that power.
pub(crate) fn label_bytes(
    span: Span,
    powers: &[Option<u8>],
    power: u8,
    label: Label,
    known: &mut Known,
) -> Result<(), Memory>
    requires placed { IsPlaced span }
    requires equal { length powers.now ≡ span.length }
    ensures { OnOk result (Adds (λ _ f. (i : ℕ) × HoldsPower powers.now i power × (f ≡ fact_in span i label)) known.old known.new) }
{
    for i in 0..powers.len() {
        label_byte(span, powers, i, power, label, known)?;
    }
    Ok(())
}

fn label_byte(
    span: Span,
    powers: &[Option<u8>],
    index: usize,
    power: u8,
    label: Label,
    known: &mut Known,
) -> Result<(), Memory>
    requires placed { IsPlaced span }
    requires equal { length powers.now ≡ span.length }
    requires within { index < length powers.now }
    ensures { OnOk result (Adds (λ _ f. HoldsPower powers.now index power × (f ≡ fact_in span index label)) known.old known.new) }
{
    if holds_power(powers, index, power) {
        insert_at(span, index as u32, label, known)?;
        Ok(())
    } else {
        Ok(())
    }
}

/// Whether a byte that holds a digit of that power bears the label.
pub(crate) fn any_byte_bears(
    known: &Known,
    span: Span,
    powers: &[Option<u8>],
    power: u8,
    label: Label,
) -> bool
    requires placed { IsPlaced span }
    requires equal { length powers.now ≡ span.length }
    ensures { IsTrue result ↔ ((i : ℕ) × HoldsPower powers.now i power × Contains known.now (fact_in span i label)) }
{
    for i in 0..powers.len() {
        if byte_bears(known, span, powers, i, power, label) {
            return true;
        }
    }
    false
}

fn byte_bears(
    known: &Known,
    span: Span,
    powers: &[Option<u8>],
    index: usize,
    power: u8,
    label: Label,
) -> bool
    requires placed { IsPlaced span }
    requires equal { length powers.now ≡ span.length }
    requires within { index < length powers.now }
    ensures { IsTrue result ↔ (HoldsPower powers.now index power × Contains known.now (fact_in span index label)) }
{
    if holds_power(powers, index, power) {
        let fact = fact_at(span, index as u32, label);
        known.has(fact)
    } else {
        false
    }
}

/// Whether the byte of that index holds the digit of that power.
pub fn holds_power(powers: &[Option<u8>], index: usize, power: u8) -> bool
    ensures { IsTrue result ↔ HoldsPower powers.now index power }
{
    match power_at(powers, index) {
        Some(held) => held == power,
        None => false,
    }
}

fn power_at(powers: &[Option<u8>], index: usize) -> Option<u8>
    ensures found { IfSome result (λ power. HoldsPower powers.now index power) }
    ensures none { IfNone result ((power : ℕ) → HoldsPower powers.now index power → ⊥) }
{
    match powers.get(index) {
        Some(power) => *power,
        None => None,
    }
}

/// One more than the highest power.
pub(crate) fn bytes_limit(powers: &[Option<u8>]) -> u16
    ensures small { result ≤ 256 }
    ensures above { (i : ℕ) (power : ℕ) → HoldsPower powers.now i power → power < result }
{
    let mut limit = 0;
    for i in 0..powers.len() {
        limit = higher(limit, power_at(powers, i));
    }
    limit
}

fn higher(limit: u16, power: Option<u8>) -> u16
    requires { limit ≤ 256 }
    ensures small { result ≤ 256 }
    ensures before { limit ≤ result }
    ensures above { IfSome power (λ p. p < result) }
{
    match power {
        Some(power) => limit.max(u16::from(power) + 1),
        None => limit,
    }
}

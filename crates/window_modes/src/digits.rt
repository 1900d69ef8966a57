ghost use Rattle.std.specs.Prelude.{◌≡◌, ◌↔◌, ◌/◌, ◌+◌, ◌<◌, ℕ, IsTrue, IfOk, OnOk, IfSome, IfNone, length};
ghost use Rattle.year_labels.specs.Forms.{IsFitView};
ghost use Rattle.year_labels.specs.Roles.{HoldsPower};
ghost use Rattle.year_labels.specs.declared.rule.View.TheVariants as views;
ghost use Rattle.window_modes.specs.Work.{IsIndexOf, AreDigitsOf, AddsDigits, IsPairDigit, IsPairPower, IsPackedDigit};
ghost use Rattle.window_modes.specs.Modes.{OfYear};
ghost use Rattle.window_modes.specs.Links.{start};
ghost use Rattle.year_pairs.specs.declared.year.YearKind.TheVariants as kinds;

use crate::index::{YearByte, bytes_in};
use label_spread::index_in;
use std::alloc::Global;
use std::collections::BTreeSet;
use y2k_base::{List, Memory, Span};
use year_labels::View;
use year_pairs::{Year, YearKind};

/// That a digit of the year of that number stands at that power.
#[derive(Clone, Copy, Debug, PartialEq, Eq)]
pub(crate) struct YearDigit {
    pub power: u16,
    pub year: usize,
}

/// The digits of years that stand in a view.
pub(crate) fn digits_of(
    alloc: Global,
    years: &[Year],
    bytes: &BTreeSet<YearByte>,
    view: &View,
) -> Result<Vec<YearDigit>, Memory>
    requires fit { IsFitView view.now }
    requires indexed { IsIndexOf years.now bytes.now.keys }
    ensures { IfOk result (λ digits. AreDigitsOf years.now view.now digits.items) }
{
    match view {
        View::Bytes { span, powers } => {
            let digits = digits_of_bytes(alloc, years, bytes, *span, powers)?;
            Ok(digits)
        }
        View::Packed { span, digits } => {
            let digits = digits_of_packed(alloc, years, bytes, *span, *digits)?;
            Ok(digits)
        }
        View::Plain => Ok(Vec::new(alloc)),
    }
}

fn digits_of_bytes(
    alloc: Global,
    years: &[Year],
    bytes: &BTreeSet<YearByte>,
    span: Span,
    powers: &List<Option<u8>>,
) -> Result<Vec<YearDigit>, Memory>
    requires equal { length powers.now ≡ span.length }
    requires indexed { IsIndexOf years.now bytes.now.keys }
    ensures { IfOk result (λ digits. AreDigitsOf years.now (views.Bytes span powers.now) digits.items) }
{
    let mut digits = Vec::new(alloc);
    let found = bytes_in(alloc, bytes, span)?;
    for i in 0..found.len() {
        let byte = found[i];
        add_pair_digit(years, span, powers.items(), byte, &mut digits)?;
    }
    Ok(digits)
}

/// Adds the digit in that byte, where it is one of a pair.
fn add_pair_digit(
    years: &[Year],
    span: Span,
    powers: &[Option<u8>],
    byte: YearByte,
    digits: &mut Vec<YearDigit>,
) -> Result<(), Memory>
    ensures { OnOk result (AddsDigits (IsPairDigit years.now span powers.now byte) digits.old.items digits.new.items) }
{
    match power_of_pair(years, span, powers, byte) {
        Some(power) => {
            let power = u16::from(power);
            let year = byte.year;
            digits.push(YearDigit { power, year })?;
            Ok(())
        }
        None => Ok(()),
    }
}

/// The power of the digit in that byte, where it is one of a pair.
fn power_of_pair(years: &[Year], span: Span, powers: &[Option<u8>], byte: YearByte) -> Option<u8>
    ensures found { IfSome result (λ power. IsPairPower years.now span powers.now byte power) }
    ensures none { IfNone result ((power : ℕ) → IsPairPower years.now span powers.now byte power → ⊥) }
{
    if is_pair(years, byte.year) {
        match index_in(span, byte.place) {
            Some(index) => power_at(powers, index),
            None => None,
        }
    } else {
        None
    }
}

fn power_at(powers: &[Option<u8>], index: u32) -> Option<u8>
    ensures found { IfSome result (λ power. HoldsPower powers.now index power) }
    ensures none { IfNone result ((power : ℕ) → HoldsPower powers.now index power → ⊥) }
{
    match powers.get(index as usize) {
        Some(power) => *power,
        None => None,
    }
}

fn is_pair(years: &[Year], number: usize) -> bool
    ensures { IsTrue result ↔ OfYear years.now number (λ y. y.kind ≡ kinds.Pair) }
{
    match years.get(number) {
        Some(year) => year.kind == YearKind::Pair,
        None => false,
    }
}

fn digits_of_packed(
    alloc: Global,
    years: &[Year],
    bytes: &BTreeSet<YearByte>,
    span: Span,
    count: u8,
) -> Result<Vec<YearDigit>, Memory>
    requires indexed { IsIndexOf years.now bytes.now.keys }
    ensures { IfOk result (λ digits. AreDigitsOf years.now (views.Packed span count) digits.items) }
{
    let mut digits = Vec::new(alloc);
    let first = Span {
        area: span.area,
        offset: span.offset,
        length: 1,
    };
    let found = bytes_in(alloc, bytes, first)?;
    for i in 0..found.len() {
        let byte = found[i];
        add_packed_digits(years, span, count, byte, &mut digits)?;
    }
    Ok(digits)
}

/// Adds the two digits of the year, where it is that of a packed number of so many digits that begins with the span.
fn add_packed_digits(
    years: &[Year],
    span: Span,
    count: u8,
    byte: YearByte,
    digits: &mut Vec<YearDigit>,
) -> Result<(), Memory>
    ensures { OnOk result (AddsDigits (IsPackedDigit years.now span count byte) digits.old.items digits.new.items) }
{
    match unit_of(years, span, count, byte.year) {
        Some(unit) => {
            let power = u16::from(unit);
            let year = byte.year;
            digits.push(YearDigit { power, year })?;
            digits.push(YearDigit {
                power: power + 1,
                year,
            })?;
            Ok(())
        }
        None => Ok(()),
    }
}

/// The power of the units digit of the year, where it is that of a packed number of so many digits that begins with the
/// span.
fn unit_of(years: &[Year], span: Span, count: u8, number: usize) -> Option<u8>
    ensures found { IfSome result (λ unit. OfYear years.now number (λ y. (y.place ≡ start span) × (y.kind ≡ kinds.Packed count unit))) }
    ensures none { IfNone result ((unit : ℕ) → OfYear years.now number (λ y. (y.place ≡ start span) × (y.kind ≡ kinds.Packed count unit)) → ⊥) }
{
    match years.get(number) {
        Some(year) => unit_in(*year, span, count),
        None => None,
    }
}

fn unit_in(year: Year, span: Span, count: u8) -> Option<u8>
    ensures found { IfSome result (λ unit. (year.place ≡ start span) × (year.kind ≡ kinds.Packed count unit)) }
    ensures none { IfNone result ((unit : ℕ) → year.place ≡ start span → year.kind ≡ kinds.Packed count unit → ⊥) }
{
    if year.place.area != span.area || year.place.offset != span.offset {
        return None;
    }
    match year.kind {
        YearKind::Pair => None,
        YearKind::Packed { digits, unit } => { if digits == count { Some(unit) } else { None } }
    }
}

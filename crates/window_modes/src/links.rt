ghost use Rattle.std.specs.Prelude.{◌≡◌, ◌/◌, ◌+◌, ◌<◌, ℕ, OnOk, All, Contains, length};
ghost use Rattle.year_labels.specs.Facts.{place_in};
ghost use Rattle.year_labels.specs.Forms.{IsFit, IsFitView, IsPlaced};
ghost use Rattle.window_modes.specs.declared.index.YearByte.{YearByte as AnyByte};
ghost use Rattle.window_modes.specs.declared.digits.YearDigit.{YearDigit as AnyDigit};
ghost use Rattle.window_modes.specs.Links.{AreAligned, AreTwins, AreOperands, IsLink, IsLinked};
ghost use Rattle.window_modes.specs.Work.{IsIndexOf, Joins, Between, byte_at};

use crate::digits::{YearDigit, digits_of};
use crate::index::{YearByte, bytes_in};
use disjoint_sets::DisjointSets;
use label_spread::index_in;
use std::alloc::Global;
use std::collections::BTreeSet;
use y2k_base::{Memory, Span};
use year_labels::{RuleForm, View};
use year_pairs::Year;

/// Joins the years that the rules link.
pub(crate) fn join_links(
    alloc: Global,
    years: &[Year],
    bytes: &BTreeSet<YearByte>,
    links: &[RuleForm],
    sets: &mut DisjointSets,
) -> Result<(), Memory>
    requires fit { All IsFit links.now }
    requires indexed { IsIndexOf years.now bytes.now.keys }
    requires long { length sets.old ≡ length years.now }
    ensures { OnOk result (Joins (Between years.now (IsLinked links.now)) sets.old sets.new) }
{
    for form in links {
        join_link(alloc, years, bytes, form, sets)?;
    }
    Ok(())
}

fn join_link(
    alloc: Global,
    years: &[Year],
    bytes: &BTreeSet<YearByte>,
    form: &RuleForm,
    sets: &mut DisjointSets,
) -> Result<(), Memory>
    requires fit { IsFit form.now }
    requires indexed { IsIndexOf years.now bytes.now.keys }
    requires long { length sets.old ≡ length years.now }
    ensures { OnOk result (Joins (Between years.now (IsLink form.now)) sets.old sets.new) }
{
    match form {
        RuleForm::Give { .. } => Ok(()),
        RuleForm::GiveDigit { .. } => Ok(()),
        RuleForm::Alike { a, b } => {
            join_twins(alloc, years, bytes, *a, *b, sets)?;
            Ok(())
        }
        RuleForm::Digits { a, b } => {
            join_aligned(alloc, years, bytes, a, b, sets)?;
            Ok(())
        }
        RuleForm::Fill { .. } => Ok(()),
        RuleForm::Sum { a, b, c } => {
            join_operands(alloc, years, bytes, a, b, c, sets)?;
            Ok(())
        }
        RuleForm::Difference { a, b, c } => {
            join_operands(alloc, years, bytes, a, b, c, sets)?;
            Ok(())
        }
    }
}

/// Joins the years of any two of the operands.
fn join_operands(
    alloc: Global,
    years: &[Year],
    bytes: &BTreeSet<YearByte>,
    a: &View,
    b: &View,
    c: &View,
    sets: &mut DisjointSets,
) -> Result<(), Memory>
    requires a { IsFitView a.now }
    requires b { IsFitView b.now }
    requires c { IsFitView c.now }
    requires indexed { IsIndexOf years.now bytes.now.keys }
    requires long { length sets.old ≡ length years.now }
    ensures { OnOk result (Joins (Between years.now (AreOperands a.now b.now c.now)) sets.old sets.new) }
{
    join_aligned(alloc, years, bytes, a, b, sets)?;
    join_aligned(alloc, years, bytes, a, c, sets)?;
    join_aligned(alloc, years, bytes, b, c, sets)?;
    Ok(())
}

/// Joins the years with a digit at the same power of the two views.
fn join_aligned(
    alloc: Global,
    years: &[Year],
    bytes: &BTreeSet<YearByte>,
    a: &View,
    b: &View,
    sets: &mut DisjointSets,
) -> Result<(), Memory>
    requires a { IsFitView a.now }
    requires b { IsFitView b.now }
    requires indexed { IsIndexOf years.now bytes.now.keys }
    requires long { length sets.old ≡ length years.now }
    ensures { OnOk result (Joins (Between years.now (AreAligned a.now b.now)) sets.old sets.new) }
{
    let these = digits_of(alloc, years, bytes, a)?;
    let those = digits_of(alloc, years, bytes, b)?;
    join_digits(&these, &those, sets);
    Ok(())
}

fn join_digits(these: &[YearDigit], those: &[YearDigit], sets: &mut DisjointSets)
    requires these { (d : AnyDigit) → Contains these.now d → d.year < length sets.old }
    requires those { (d : AnyDigit) → Contains those.now d → d.year < length sets.old }
    ensures { Joins (λ i j. (d : AnyDigit) × Contains these.now d × ((e : AnyDigit) × Contains those.now e × ((d.power ≡ e.power) × (i ≡ d.year) × (j ≡ e.year)))) sets.old sets.new }
{
    for i in 0..these.len() {
        join_digit(these[i], those, sets);
    }
}

fn join_digit(digit: YearDigit, those: &[YearDigit], sets: &mut DisjointSets)
    requires this { digit.year < length sets.old }
    requires those { (d : AnyDigit) → Contains those.now d → d.year < length sets.old }
    ensures { Joins (λ i j. (e : AnyDigit) × Contains those.now e × ((digit.power ≡ e.power) × (i ≡ digit.year) × (j ≡ e.year))) sets.old sets.new }
{
    for i in 0..those.len() {
        join_two(digit, those[i], sets);
    }
}

fn join_two(digit: YearDigit, other: YearDigit, sets: &mut DisjointSets)
    requires first { digit.year < length sets.old }
    requires second { other.year < length sets.old }
    ensures { Joins (λ i j. (digit.power ≡ other.power) × (i ≡ digit.year) × (j ≡ other.year)) sets.old sets.new }
{
    if digit.power == other.power {
        sets.join(digit.year, other.year);
    }
}

/// Joins the years with the same byte of the two spans.
fn join_twins(
    alloc: Global,
    years: &[Year],
    bytes: &BTreeSet<YearByte>,
    a: Span,
    b: Span,
    sets: &mut DisjointSets,
) -> Result<(), Memory>
    requires placed { IsPlaced b }
    requires equal { a.length ≡ b.length }
    requires indexed { IsIndexOf years.now bytes.now.keys }
    requires long { length sets.old ≡ length years.now }
    ensures { OnOk result (Joins (Between years.now (AreTwins a b)) sets.old sets.new) }
{
    let found = bytes_in(alloc, bytes, a)?;
    for i in 0..found.len() {
        let byte = found[i];
        join_twin(alloc, years, bytes, a, b, byte, sets)?;
    }
    Ok(())
}

/// Joins the year of that byte of the one span with those of the same byte of the other.
fn join_twin(
    alloc: Global,
    years: &[Year],
    bytes: &BTreeSet<YearByte>,
    a: Span,
    b: Span,
    byte: YearByte,
    sets: &mut DisjointSets,
) -> Result<(), Memory>
    requires placed { IsPlaced b }
    requires equal { a.length ≡ b.length }
    requires indexed { IsIndexOf years.now bytes.now.keys }
    requires long { length sets.old ≡ length years.now }
    requires within { byte.year < length sets.old }
    ensures { OnOk result (Joins (λ i j. (i ≡ byte.year) × (k : ℕ) × (k < a.length) × (byte.place ≡ place_in a k) × Contains bytes.now.keys (byte_at (place_in b k) j)) sets.old sets.new) }
{
    match index_in(a, byte.place) {
        Some(index) => {
            let twin = Span {
                area: b.area,
                offset: b.offset + index,
                length: 1,
            };
            let found = bytes_in(alloc, bytes, twin)?;
            join_bytes(byte.year, &found, sets);
            Ok(())
        }
        None => Ok(()),
    }
}

fn join_bytes(year: usize, found: &[YearByte], sets: &mut DisjointSets)
    requires this { year < length sets.old }
    requires those { (b : AnyByte) → Contains found.now b → b.year < length sets.old }
    ensures { Joins (λ i j. (b : AnyByte) × Contains found.now b × ((i ≡ year) × (j ≡ b.year))) sets.old sets.new }
{
    for i in 0..found.len() {
        let byte = found[i];
        join_years(year, byte.year, sets);
    }
}

fn join_years(first: usize, second: usize, sets: &mut DisjointSets)
    requires first { first < length sets.old }
    requires second { second < length sets.old }
    ensures { Joins (λ i j. (i ≡ first) × (j ≡ second)) sets.old sets.new }
{
    sets.join(first, second);
}

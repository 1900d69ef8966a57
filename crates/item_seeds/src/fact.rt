ghost use Rattle.std.specs.Prelude.{◌≡◌, ◌+◌, true, replicate, slice_get, IfOk};
ghost use Rattle.data_layout.specs.declared.item.Class.TheVariants as class;
ghost use Rattle.item_seeds.specs.Seeds as spec;

use cobol_syntax::Usage;
use data_layout::{Class, Item};
use date_views::{digit_places, runs_of};
use decimal_bytes::{NumForm, SignPlace};
use std::alloc::Global;
use y2k_base::{BytePlace, List, Memory, Span};
use year_labels::{Fact, Label, Seed};

/// What a row says of a byte of a span.
fn seed(row: u32, span: Span, at: u32, label: Label) -> Result<Seed, Memory>
    ensures { IfOk result (λ seed. seed ≡ spec.seed row span at label) }
{
    match span.offset.checked_add(at) {
        Some(offset) => {
            let place = BytePlace {
                area: span.area,
                offset,
            };
            let fact = Fact { place, label };
            Ok(Seed { fact, row })
        }
        None => Err(Memory),
    }
}

fn is_leading_separate(sign: SignPlace) -> bool
    ensures { result ≡ spec.is_leading_separate sign }
{
    match sign {
        SignPlace::Trailing => false,
        SignPlace::Leading => false,
        SignPlace::TrailingSeparate => false,
        SignPlace::LeadingSeparate => true,
    }
}

fn all_places(alloc: Global, count: u32) -> Result<List<bool>, Memory>
    ensures { IfOk result (λ places. places ≡ replicate count true) }
{
    let mut places = List::new(alloc);
    for _ in 0..count {
        places.push(true)?;
    }
    Ok(places)
}

fn number_places(alloc: Global, item: &Item) -> Result<List<bool>, Memory>
    ensures { IfOk result (λ places. places ≡ spec.places_of class.Number item.now) }
{
    let mut places = List::new(alloc);
    if item.form.signed && is_leading_separate(item.form.sign) {
        places.push(false)?;
    }
    let digits = digit_places(alloc, runs_of(&item.picture))?;
    places.append(digits.items())?;
    Ok(places)
}

/// For each byte of an item in DISPLAY usage, whether it counts as a digit.
fn places_of(alloc: Global, item: &Item) -> Result<List<bool>, Memory>
    ensures { IfOk result (λ places. places ≡ spec.places_of item.now.class item.now) }
{
    match item.class {
        Class::Group => all_places(alloc, item.span.length),
        Class::Text => all_places(alloc, item.span.length),
        Class::Edited => digit_places(alloc, runs_of(&item.picture)),
        Class::Number => number_places(alloc, item),
    }
}

/// The offsets of the digits.
fn offsets_of(alloc: Global, places: &[bool]) -> Result<List<u32>, Memory>
    ensures { IfOk result (λ offsets. offsets ≡ spec.offsets_from 0 places.now) }
{
    let mut offsets = List::new(alloc);
    let mut at = 0_u32;
    let mut rest = places;
    while let [digit, more @ ..] = rest {
        if *digit {
            offsets.push(at)?;
        }
        at = next(at)?;
        rest = more;
    }
    Ok(offsets)
}

fn next(number: u32) -> Result<u32, Memory>
    ensures { IfOk result (λ next. next ≡ number + 1) }
{
    match number.checked_add(1) {
        Some(next) => Ok(next),
        None => Err(Memory),
    }
}

fn offset_at(offsets: &[u32], index: u32) -> Option<u32>
    ensures { result ≡ slice_get offsets.now index }
{
    match offsets.get(index as usize) {
        Some(offset) => Some(*offset),
        None => None,
    }
}

/// A year whose tens and units stand in these two bytes, if there are both.
fn pair(
    alloc: Global,
    row: u32,
    span: Span,
    tens: Option<u32>,
    units: Option<u32>,
) -> Result<Option<List<Seed>>, Memory>
    ensures { IfOk result (λ seeds. seeds ≡ spec.pair row span tens units) }
{
    match (tens, units) {
        (Some(tens), Some(units)) => {
            let mut seeds = List::new(alloc);
            seeds.push(seed(row, span, tens, Label::Tens)?)?;
            seeds.push(seed(row, span, units, Label::Units)?)?;
            Ok(Some(seeds))
        }
        (Some(_), None) => Ok(None),
        (None, _) => Ok(None),
    }
}

fn byte_year(alloc: Global, row: u32, item: &Item, digit: u32) -> Result<Option<List<Seed>>, Memory>
    ensures { IfOk result (λ seeds. seeds ≡ spec.byte_year row item.now.span (spec.offsets_from 0 (spec.places_of item.now.class item.now)) digit) }
{
    let places = places_of(alloc, item)?;
    let offsets = offsets_of(alloc, places.items())?;
    let tens = offset_at(offsets.items(), digit.saturating_sub(1));
    let units = offset_at(offsets.items(), digit);
    pair(alloc, row, item.span, tens, units)
}

/// The first bytes of a packed number, with a year whose units digit stands at that power.
fn packed_bytes(
    alloc: Global,
    row: u32,
    span: Span,
    digits: u8,
    unit: u8,
) -> Result<List<Seed>, Memory>
    ensures { IfOk result (λ seeds. seeds ≡ spec.packed_bytes row span digits unit span.length) }
{
    let mut seeds = List::new(alloc);
    for at in 0..span.length {
        match u8::try_from(at) {
            Ok(byte) => seeds.push(seed(row, span, at, Label::Packed { digits, unit, byte })?)?,
            Err(_) => return Err(Memory),
        }
    }
    Ok(seeds)
}

/// The power of the units digit of a year in a packed number, if both its digits are integer digits.
fn packed_unit(form: NumForm, digit: u32) -> Option<u8>
    ensures { result ≡ spec.packed_unit form digit }
{
    let before = u64::from(digit) + (1 + u64::from(form.scale));
    if before <= u64::from(form.digits) {
        Some(form.digits - before as u8)
    } else {
        None
    }
}

fn packed_year(
    alloc: Global,
    row: u32,
    item: &Item,
    digit: u32,
) -> Result<Option<List<Seed>>, Memory>
    ensures { IfOk result (λ seeds. seeds ≡ spec.packed_year row item.now.span item.now.form digit) }
{
    match packed_unit(item.form, digit) {
        Some(unit) => {
            let seeds = packed_bytes(alloc, row, item.span, item.form.digits, unit)?;
            Ok(Some(seeds))
        }
        None => Ok(None),
    }
}

/// The seeds of a year whose tens digit is that one, counted from 1 from the left: a digit of a number or an edited item,
/// a byte of a text or a group. None where the item lacks one of the two digits, where one of a packed number stands after
/// the point, and for a BINARY item. They name the row that says so.
pub fn year_seeds(
    alloc: Global,
    item: &Item,
    digit: u32,
    row: u32,
) -> Result<Option<List<Seed>>, Memory>
    ensures { IfOk result (λ seeds. seeds ≡ spec.year_seeds item.now digit row) }
{
    match item.usage {
        Usage::Display => byte_year(alloc, row, item, digit),
        Usage::Packed => packed_year(alloc, row, item, digit),
        Usage::Binary => Ok(None),
    }
}

fn plain_bytes(alloc: Global, row: u32, span: Span) -> Result<List<Seed>, Memory>
    ensures { IfOk result (λ seeds. seeds ≡ spec.plain_bytes row span span.length) }
{
    let mut seeds = List::new(alloc);
    for at in 0..span.length {
        seeds.push(seed(row, span, at, Label::Plain)?)?;
    }
    Ok(seeds)
}

/// The seeds that say that no year stands in an item: each byte is plain. None for a BINARY item.
pub fn plain_seeds(alloc: Global, item: &Item, row: u32) -> Result<Option<List<Seed>>, Memory>
    ensures { IfOk result (λ seeds. seeds ≡ spec.plain_seeds item.now row) }
{
    match item.usage {
        Usage::Display => Ok(Some(plain_bytes(alloc, row, item.span)?)),
        Usage::Packed => Ok(Some(plain_bytes(alloc, row, item.span)?)),
        Usage::Binary => Ok(None),
    }
}

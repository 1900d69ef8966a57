ghost use Rattle.std.specs.Prelude.{◌≡◌, ◌+◌, ◌-◌, ◌*◌, ◌^◌, ◌<◌, ◌≤◌, IsTrue, IfSome, IfNone, cond, nat_le, length, map, slice_index_or};
ghost use Rattle.decimal_bytes.specs.Display as display;
ghost use Rattle.layout_reading.specs.Kinds as kinds_read;
ghost use Rattle.layout_reading.specs.Reading.{read_area, first_area};
ghost use Rattle.number_bytes.specs.Held as numbers;
ghost use Rattle.number_bytes.specs.Stored.{symbols};
ghost use Rattle.operand_kinds.specs.Kinds as kinds;
ghost use Rattle.storage_places.specs.Fits as spec;
ghost use Rattle.storage_places.specs.Fits.{IsNumber, IsEdited, KindFits, ItemFits, LayoutFits, farthest};
ghost use Rattle.storage_places.specs.Held.{IsWithin};

use crate::pictures::{is_form_of, places};
use cobol_syntax::Usage;
use data_layout::{Area, Item, Layout, Step};
use decimal_bytes::{NumForm, SignPlace};
use operand_kinds::{Kind, kind_of_item};
use y2k_base::{AreaId, Picture, Run, Span};

/// Whether all items lie in the areas of their layout with all their occurrences, and have as many bytes as their
/// pictures say. It is so in each layout that breaks no rule of the data division.
pub fn layout_fits(layout: &Layout) -> bool
    ensures fits { IsTrue result → LayoutFits layout.now }
    ensures all { LayoutFits layout.now → IsTrue result }
{
    let areas = layout.areas.items();
    let mut rest = layout.items.items();
    while let [item, more @ ..] = rest {
        if !item_fits(areas, item) {
            return false;
        }
        rest = more;
    }
    true
}

fn item_fits(areas: &[Area], item: &Item) -> bool
    ensures fits { IsTrue result → ItemFits (first_area areas.now) (map read_area areas.now) item.now }
    ensures all { ItemFits (first_area areas.now) (map read_area areas.now) item.now → IsTrue result }
{
    match last_span(item.span, item.steps.items()) {
        Some(last) => {
            is_within(areas, item.span)
                && is_within(areas, last)
                && kind_fits(kind_of_item(item), &item.picture, item.span.length)
        }
        None => false,
    }
}

/// The last occurrence, if it ends within 32 bits.
fn last_span(span: Span, steps: &[Step]) -> Option<Span>
    ensures last { IfSome result (λ last. last ≡ spec.last_span span steps.now) }
    ensures short { IfSome result (λ last. span.offset + farthest steps.now + span.length < 2 ^ 32) }
    ensures long { IfNone result (2 ^ 32 ≤ span.offset + farthest steps.now + span.length) }
{
    match farthest(steps) {
        Some(behind) => {
            let offset = u64::from(span.offset) + u64::from(behind);
            if offset + u64::from(span.length) > u64::from(u32::MAX) {
                return None;
            }
            Some(Span {
                area: span.area,
                offset: offset as u32,
                length: span.length,
            })
        }
        None => None,
    }
}

/// How far the last occurrence begins behind the first, if that is within 32 bits.
fn farthest(steps: &[Step]) -> Option<u32>
    ensures some { IfSome result (λ behind. behind ≡ farthest steps.now) }
    ensures none { IfNone result (2 ^ 32 ≤ farthest steps.now) }
{
    let mut behind = 0u32;
    let mut rest = steps;
    while let [step, more @ ..] = rest {
        let bytes = u64::from(step.count.saturating_sub(1)) * u64::from(step.size);
        if bytes > u64::from(u32::MAX - behind) {
            return None;
        }
        behind += bytes as u32;
        rest = more;
    }
    Some(behind)
}

/// Whether a span lies in these areas.
fn is_within(areas: &[Area], span: Span) -> bool
    ensures within { IsTrue result → IsWithin (first_area areas.now) (map read_area areas.now) span }
    ensures all { IsWithin (first_area areas.now) (map read_area areas.now) span → IsTrue result }
{
    match area_length(areas, span.area) {
        Some(length) => u64::from(span.offset) + u64::from(span.length) <= u64::from(length),
        None => false,
    }
}

/// How many bytes an area of the program has.
fn area_length(areas: &[Area], id: AreaId) -> Option<u32>
    ensures after { IfSome result (λ bytes. first_area areas.now ≤ id.0) }
    ensures before { IfSome result (λ bytes. id.0 - first_area areas.now < length (map read_area areas.now)) }
    ensures bytes { IfSome result (λ bytes. bytes ≡ slice_index_or (map read_area areas.now) (id.0 - first_area areas.now) 0) }
    ensures none { IfNone result (first_area areas.now ≤ id.0 → id.0 - first_area areas.now < length (map read_area areas.now) → ⊥) }
{
    match areas {
        [] => None,
        [first, ..] => {
            if id.0 < first.id.0 {
                return None;
            }
            match areas.get((id.0 - first.id.0) as usize) {
                Some(area) => Some(area.length),
                None => None,
            }
        }
    }
}

/// Whether an item of a kind has as many bytes as its picture says.
fn kind_fits(kind: Kind, picture: &Option<Picture>, bytes: u32) -> bool
    ensures fits { IsTrue result → KindFits kind picture.now bytes }
    ensures all { KindFits kind picture.now bytes → IsTrue result }
{
    match kind {
        Kind::Group => true,
        Kind::Text => true,
        Kind::Edited { form } => is_edited(form, picture, bytes),
        Kind::Number { usage, form } => is_number(usage, form, bytes),
    }
}

fn is_edited(form: NumForm, picture: &Option<Picture>, bytes: u32) -> bool
    ensures edited { IsTrue result → IsEdited form picture.now bytes }
    ensures all { IsEdited form picture.now bytes → IsTrue result }
{
    let runs = runs_of(picture);
    form.digits <= 18 && places(runs) == Some(bytes) && is_form_of(form, runs)
}

/// The runs of a picture; none where there is no picture.
fn runs_of(picture: &Option<Picture>) -> &[Run]
    ensures { symbols result.now ≡ kinds_read.symbols picture.now }
{
    match picture {
        Some(picture) => picture.runs.items(),
        None => &[],
    }
}

fn is_number(usage: Usage, form: NumForm, bytes: u32) -> bool
    ensures number { IsTrue result → IsNumber usage form bytes }
    ensures all { IsNumber usage form bytes → IsTrue result }
{
    1 <= form.digits
        && form.digits <= 18
        && form.scale <= form.digits
        && bytes == number_length(usage, form)
}

/// How many bytes a number of a usage and form has.
fn number_length(usage: Usage, form: NumForm) -> u32
    ensures { result ≡ numbers.number_length usage form }
{
    let digits = u32::from(form.digits);
    match usage {
        Usage::Display => digits + u32::from(form.signed && is_separate(form.sign)),
        Usage::Packed => digits / 2 + 1,
        Usage::Binary => binary_length(digits),
    }
}

fn is_separate(sign: SignPlace) -> bool
    ensures { result ≡ display.is_separate sign }
{
    match sign {
        SignPlace::Trailing => false,
        SignPlace::Leading => false,
        SignPlace::TrailingSeparate => true,
        SignPlace::LeadingSeparate => true,
    }
}

fn binary_length(digits: u32) -> u32
    ensures { result ≡ cond (nat_le digits 4) 2 (cond (nat_le digits 9) 4 8) }
{
    if digits <= 4 {
        2
    } else if digits <= 9 {
        4
    } else {
        8
    }
}

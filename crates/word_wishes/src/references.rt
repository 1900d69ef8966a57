ghost use Rattle.std.specs.Prelude.{◌≡◌, ◌++◌, MatchOption, Some, None, slice_get, OnOk};
ghost use Rattle.word_wishes.specs.declared.positions.Sought.TheVariants as sought;
ghost use Rattle.word_wishes.specs.Positions.{position_from, start_before, length_behind};
ghost use Rattle.word_wishes.specs.References as spec;

use crate::grown::new_number;
use crate::positions::{Sought, length_behind, position_from, start_before};
use crate::wish::{ProgramWords, add_number_if};
use data_layout::Item;
use date_uses::{Used, UsedPlace};
use date_views::Side;
use std::alloc::Global;
use y2k_base::{Edit, List, Memory, Span};
use year_index::YearIndex;

/// A reference modification of which the text tells the bytes, of an item by its number. `at` is the position of its first
/// word.
#[derive(Clone, Copy, Debug, PartialEq, Eq)]
struct Reference {
    item: u32,
    span: Span,
    at: u32,
}

fn known_span(side: &Option<Side>) -> Option<Span>
    ensures { result ≡ spec.known_span side.now }
{
    match side {
        None => None,
        Some(Side::Known(field)) => Some(field.span),
        Some(Side::Moving { most: _ }) => None,
    }
}

fn reference_with(item: Option<u32>, span: Option<Span>, at: u32) -> Option<Reference>
    ensures { result ≡ spec.reference_with item span at }
{
    match item {
        None => None,
        Some(item) => match span {
            None => None,
            Some(span) => Some(Reference { item, span, at }),
        },
    }
}

fn reference_in(place: &UsedPlace) -> Option<Reference>
    ensures { result ≡ spec.reference_in place.now }
{
    if place.cut {
        reference_with(place.item, known_span(&place.side), place.at)
    } else {
        None
    }
}

fn reference_of(operand: &Used) -> Option<Reference>
    ensures { result ≡ spec.reference_of operand.now }
{
    match operand {
        Used::Place(place) => reference_in(place),
        Used::Number { .. } => None,
        Used::Text { .. } => None,
        Used::Figure { .. } => None,
    }
}

/// The bytes of an item before a part of it.
fn span_before(item: Span, part: Span) -> Span
    ensures { result ≡ spec.span_before item part }
{
    Span {
        area: item.area,
        offset: item.offset,
        length: part.offset.saturating_sub(item.offset),
    }
}

/// Adds the new start of a reference to an item.
fn add_start(
    alloc: Global,
    wishes: &mut List<Edit>,
    index: &YearIndex,
    source: ProgramWords,
    colon: u32,
    before: Span,
) -> Result<(), Memory>
    ensures { OnOk result (wishes.new ≡ wishes.old ++ spec.start_wishes index.now source.entry.number source.entry.words.now before (start_before colon)) }
{
    match start_before(colon) {
        None => Ok(()),
        Some(position) => {
            let number = new_number(alloc, index, before, 1)?;
            add_number_if(alloc, wishes, source, position, number)?;
            Ok(())
        }
    }
}

/// Adds the new length of a reference, if it is written.
fn add_length(
    alloc: Global,
    wishes: &mut List<Edit>,
    index: &YearIndex,
    source: ProgramWords,
    colon: u32,
    part: Span,
) -> Result<(), Memory>
    ensures { OnOk result (wishes.new ≡ wishes.old ++ spec.length_wishes index.now source.entry.number source.entry.words.now part (length_behind source.entry.words.now colon)) }
{
    match length_behind(source.words, colon)? {
        None => Ok(()),
        Some(position) => {
            let number = new_number(alloc, index, part, 0)?;
            add_number_if(alloc, wishes, source, position, number)?;
            Ok(())
        }
    }
}

/// Adds the new numbers of a reference to a part of an item.
fn add_bounds(
    alloc: Global,
    wishes: &mut List<Edit>,
    index: &YearIndex,
    source: ProgramWords,
    at: u32,
    item: Span,
    part: Span,
) -> Result<(), Memory>
    ensures { OnOk result (wishes.new ≡ wishes.old ++ spec.bounds_wishes index.now source.entry.number source.entry.words.now item part (position_from sought.Colon source.entry.words.now at)) }
{
    match position_from(source.words, at, Sought::Colon)? {
        None => Ok(()),
        Some(colon) => {
            let before = span_before(item, part);
            add_start(alloc, wishes, index, source, colon, before)?;
            add_length(alloc, wishes, index, source, colon, part)?;
            Ok(())
        }
    }
}

fn item_at(items: &[Item], number: u32) -> Option<&Item>
    ensures { MatchOption result (slice_get items.now number ≡ None) (λ item. slice_get items.now number ≡ Some item.now) }
{
    items.get(number as usize)
}

fn add_reference_to(
    alloc: Global,
    wishes: &mut List<Edit>,
    index: &YearIndex,
    source: ProgramWords,
    items: &[Item],
    reference: Reference,
) -> Result<(), Memory>
    ensures { OnOk result (wishes.new ≡ wishes.old ++ spec.reference_over index.now source.entry.number source.entry.words.now reference (slice_get items.now reference.item)) }
{
    match item_at(items, reference.item) {
        None => Ok(()),
        Some(item) => {
            let at = reference.at;
            let part = reference.span;
            add_bounds(alloc, wishes, index, source, at, item.span, part)?;
            Ok(())
        }
    }
}

/// Adds the new numbers of a reference, if the operand is one of which the text tells the bytes.
pub(crate) fn add_reference(
    alloc: Global,
    wishes: &mut List<Edit>,
    index: &YearIndex,
    source: ProgramWords,
    items: &[Item],
    operand: &Used,
) -> Result<(), Memory>
    ensures { OnOk result (wishes.new ≡ wishes.old ++ spec.reference_wishes index.now source.entry.number source.entry.words.now items.now operand.now) }
{
    match reference_of(operand) {
        None => Ok(()),
        Some(reference) => {
            add_reference_to(alloc, wishes, index, source, items, reference)?;
            Ok(())
        }
    }
}

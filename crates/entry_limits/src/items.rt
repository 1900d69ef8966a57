ghost use Rattle.std.specs.Prelude.{◌≡◌, ◌++◌, ◌-◌, IfOk, OnOk};
ghost use Rattle.year_labels.specs.Facts as facts;
ghost use Rattle.year_pairs.specs.Years as pairs;
ghost use Rattle.picture.specs.Inserting as pictures;
ghost use Rattle.entry_limits.specs.Items as spec;

use crate::covering::origin_at;
use crate::pictures::add_picture;
use cobol_syntax::Usage;
use data_layout::{Class, Item};
use date_views::runs_of;
use plan_limits::{Limit, LimitKind, add_place_limit};
use std::alloc::Global;
use window_modes::YearMode;
use y2k_base::{BytePlace, List, Memory, Origin, Run, Span, Word};
use year_index::YearIndex;
use year_pairs::{Year, YearKind};

fn place_behind(place: BytePlace, count: u32) -> Result<BytePlace, Memory>
    ensures { IfOk result (λ behind. behind ≡ pairs.place_after place count) }
{
    match place.offset.checked_add(count) {
        None => Err(Memory),
        Some(offset) => Ok(BytePlace {
            area: place.area,
            offset,
        }),
    }
}

fn first_of(span: Span) -> BytePlace
    ensures { result ≡ facts.place_in span 0 }
{
    BytePlace {
        area: span.area,
        offset: span.offset,
    }
}

fn behind(span: Span) -> Result<BytePlace, Memory>
    ensures { IfOk result (λ place. place ≡ facts.place_in span span.length) }
{
    let place = place_behind(first_of(span), span.length)?;
    Ok(place)
}

fn add_edge(limits: &mut List<Limit>, at: Origin, across: Option<YearMode>) -> Result<(), Memory>
    ensures { OnOk result (limits.new ≡ limits.old ++ spec.edge_limit at across) }
{
    match across {
        None => Ok(()),
        Some(mode) => {
            add_place_limit(limits, LimitKind::SplitYear, at, mode.year.place)?;
            Ok(())
        }
    }
}

/// Adds the years inside which the item begins or ends.
fn add_edges(
    limits: &mut List<Limit>,
    index: &YearIndex,
    at: Origin,
    span: Span,
) -> Result<(), Memory>
    ensures { OnOk result (limits.new ≡ limits.old ++ spec.edge_limits index.now at span) }
{
    let end = behind(span)?;
    add_edge(limits, at, index.year_across(first_of(span)))?;
    add_edge(limits, at, index.year_across(end))?;
    Ok(())
}

fn add_mixed(limits: &mut List<Limit>, at: Origin, place: BytePlace) -> Result<(), Memory>
    ensures { OnOk result (limits.new ≡ limits.old ++ spec.mixed at place) }
{
    add_place_limit(limits, LimitKind::ShapeMix, at, place)?;
    Ok(())
}

fn is_pair(kind: YearKind) -> bool
    ensures { result ≡ spec.is_pair kind }
{
    match kind {
        YearKind::Pair => true,
        YearKind::Packed { digits: _, unit: _ } => false,
    }
}

fn is_packed_of(digits: u8, kind: YearKind) -> bool
    ensures { result ≡ spec.is_packed_of digits kind }
{
    match kind {
        YearKind::Pair => false,
        YearKind::Packed {
            digits: own,
            unit: _,
        } => own == digits,
    }
}

fn is_of_item(item: &Item, year: Year) -> bool
    ensures { result ≡ spec.is_of_item item.now year }
{
    year.place.offset == item.span.offset && is_packed_of(item.form.digits, year.kind)
}

fn takes_byte(symbol: u8) -> bool
    ensures { result ≡ pictures.takes_byte symbol }
{
    !(symbol == b'S' || symbol == b'V')
}

/// The symbol of a byte of a picture.
fn symbol_at(at: u32, runs: &[Run]) -> u8
    ensures { result ≡ pictures.symbol_at at runs.now }
{
    let mut left = at;
    let mut rest = runs;
    while let [run, more @ ..] = rest {
        if takes_byte(run.symbol) {
            if left < run.count {
                return run.symbol;
            }
            left -= run.count;
        }
        rest = more;
    }
    0
}

fn is_nine(item: &Item, place: BytePlace) -> bool
    ensures { result ≡ spec.is_nine item.now place }
{
    let at = place.offset.saturating_sub(item.span.offset);
    symbol_at(at, runs_of(&item.picture)) == b'9'
}

fn add_digit(
    limits: &mut List<Limit>,
    at: Origin,
    item: &Item,
    place: BytePlace,
) -> Result<(), Memory>
    ensures { OnOk result (limits.new ≡ limits.old ++ spec.digit_limit at item.now place) }
{
    add_unless(is_nine(item, place), limits, at, place)?;
    Ok(())
}

fn add_edited_pair(
    limits: &mut List<Limit>,
    at: Origin,
    item: &Item,
    place: BytePlace,
) -> Result<(), Memory>
    ensures { OnOk result (limits.new ≡ limits.old ++ (spec.digit_limit at item.now place ++ spec.digit_limit at item.now (pairs.place_after place 1))) }
{
    let units = place_behind(place, 1)?;
    add_digit(limits, at, item, place)?;
    add_digit(limits, at, item, units)?;
    Ok(())
}

fn add_edited(limits: &mut List<Limit>, at: Origin, item: &Item, year: Year) -> Result<(), Memory>
    ensures { OnOk result (limits.new ≡ limits.old ++ spec.edited_limits at item.now year) }
{
    if is_pair(year.kind) {
        add_edited_pair(limits, at, item, year.place)?;
        Ok(())
    } else {
        add_mixed(limits, at, year.place)?;
        Ok(())
    }
}

fn add_unless(
    taken: bool,
    limits: &mut List<Limit>,
    at: Origin,
    place: BytePlace,
) -> Result<(), Memory>
    ensures { OnOk result (limits.new ≡ limits.old ++ spec.mixed_unless taken at place) }
{
    if taken {
        Ok(())
    } else {
        add_mixed(limits, at, place)?;
        Ok(())
    }
}

fn add_number(limits: &mut List<Limit>, at: Origin, item: &Item, year: Year) -> Result<(), Memory>
    ensures { OnOk result (limits.new ≡ limits.old ++ spec.number_limits item.now.usage at item.now year) }
{
    match item.usage {
        Usage::Display => {
            add_unless(is_pair(year.kind), limits, at, year.place)?;
            Ok(())
        }
        Usage::Packed => {
            add_unless(is_of_item(item, year), limits, at, year.place)?;
            Ok(())
        }
        Usage::Binary => Ok(()),
    }
}

/// Adds a year of a form that the item doesn't take.
fn add_form(limits: &mut List<Limit>, at: Origin, item: &Item, year: Year) -> Result<(), Memory>
    ensures { OnOk result (limits.new ≡ limits.old ++ spec.form_limits item.now.class at item.now year) }
{
    match item.class {
        Class::Group => Ok(()),
        Class::Text => Ok(()),
        Class::Edited => {
            add_edited(limits, at, item, year)?;
            Ok(())
        }
        Class::Number => {
            add_number(limits, at, item, year)?;
            Ok(())
        }
    }
}

fn add_shapes(
    limits: &mut List<Limit>,
    at: Origin,
    item: &Item,
    modes: &[YearMode],
) -> Result<(), Memory>
    ensures { OnOk result (limits.new ≡ limits.old ++ spec.shape_limits at item.now modes.now) }
{
    let mut rest = modes;
    while let [mode, more @ ..] = rest {
        add_form(limits, at, item, mode.year)?;
        rest = more;
    }
    Ok(())
}

fn add_item(
    alloc: Global,
    limits: &mut List<Limit>,
    index: &YearIndex,
    at: Origin,
    item: &Item,
) -> Result<(), Memory>
    ensures { OnOk result (limits.new ≡ limits.old ++ spec.item_limits index.now at item.now) }
{
    add_edges(limits, index, at, item.span)?;
    add_shapes(limits, at, item, index.years_in(item.span))?;
    add_picture(alloc, limits, index, at, item)?;
    Ok(())
}

/// Adds the limits of the items of a program.
pub(crate) fn add_items(
    alloc: Global,
    limits: &mut List<Limit>,
    index: &YearIndex,
    words: &[Word],
    items: &[Item],
) -> Result<(), Memory>
    ensures { OnOk result (limits.new ≡ limits.old ++ spec.items_limits index.now words.now items.now) }
{
    let mut rest = items;
    while let [item, more @ ..] = rest {
        add_item(alloc, limits, index, origin_at(words, item.entry_at), item)?;
        rest = more;
    }
    Ok(())
}

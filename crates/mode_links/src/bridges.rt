ghost use Rattle.std.specs.Prelude.{◌≡◌, ◌+◌, ◌-◌, ◌&&◌, IfOk, IfSome};
ghost use Rattle.data_layout.specs.Index.{IsReady};
ghost use Rattle.year_labels.specs.declared.label.Label.TheVariants as labels;
ghost use Rattle.year_labels.specs.Facts as facts;
ghost use Rattle.year_pairs.specs.Years as pairs;
ghost use Rattle.date_views.specs.Sides as sides;
ghost use Rattle.statement_rules.specs.Names as names;
ghost use Rattle.mode_links.specs.Bridges as spec;

use cobol_syntax::{Operand, Place, Sub, Usage};
use data_layout::Layout;
use date_views::{Field, Side, side_of};
use decimal_bytes::NumForm;
use operand_kinds::Kind;
use statement_rules::{is_name, operand_side};
use std::alloc::Global;
use y2k_base::{BytePlace, Memory, Span};
use year_labels::{Label, Labelling, View};
use year_pairs::{Year, YearKind};

/// The years of a bridged move: that in the first two digits of the sender, and that at the same powers of the receiver.
/// Where their modes are unlike, the move is written anew.
#[derive(Clone, Copy, Debug, PartialEq, Eq)]
pub struct Bridge {
    pub sent: Year,
    pub received: Year,
}

fn both(first: bool, second: bool) -> bool
    ensures { result ≡ (first && second) }
{
    first && second
}

fn place_behind(place: BytePlace, count: u32) -> Result<BytePlace, Memory>
    ensures { IfOk result (λ behind. behind ≡ pairs.place_after place count) }
{
    match place.offset.checked_add(count) {
        None => Err(Memory),
        Some(offset) => Ok(BytePlace {
            area: place.area,
            offset,
        }),
    }
}

fn first_of(span: Span) -> BytePlace
    ensures { result ≡ facts.place_in span 0 }
{
    BytePlace {
        area: span.area,
        offset: span.offset,
    }
}

fn place_in(span: Span, index: u32) -> Result<BytePlace, Memory>
    ensures { IfOk result (λ place. place ≡ facts.place_in span index) }
{
    let place = place_behind(first_of(span), index)?;
    Ok(place)
}

fn bears(labelling: &Labelling, place: BytePlace, label: Label) -> bool
    ensures { result ≡ spec.bears labelling.now place label }
{
    labelling.has(place, label)
}

fn bears_its_label(labelling: &Labelling, year: Year, index: u8) -> Result<bool, Memory>
    ensures { IfOk result (λ is. is ≡ spec.bears labelling.now (pairs.place_after year.place index) (pairs.label_at year.kind index)) }
{
    let place = place_behind(year.place, u32::from(index))?;
    let is = bears(labelling, place, year.kind.label_at(index));
    Ok(is)
}

/// Whether each byte of the year bears its label.
fn stands(labelling: &Labelling, year: Year) -> Result<bool, Memory>
    ensures { IfOk result (λ is. is ≡ spec.stands labelling.now year) }
{
    let mut all = true;
    for index in 0..year.kind.width() {
        all = both(all, bears_its_label(labelling, year, index)?);
    }
    Ok(all)
}

fn begins_at(labelling: &Labelling, span: Span, index: u32) -> Result<bool, Memory>
    ensures { IfOk result (λ is. is ≡ spec.bears labelling.now (facts.place_in span index) labels.Tens) }
{
    let place = place_in(span, index)?;
    let is = bears(labelling, place, Label::Tens);
    Ok(is)
}

/// Whether no year of two bytes begins in so many bytes behind the first of a span.
fn begins_none(labelling: &Labelling, span: Span, count: u32) -> Result<bool, Memory>
    ensures { IfOk result (λ is. is ≡ spec.begins_none labelling.now span count) }
{
    let mut none = true;
    for index in 0..count {
        none = both(none, !begins_at(labelling, span, index + 1)?);
    }
    Ok(none)
}

fn is_power(power: u8, digit: Option<u8>) -> bool
    ensures { result ≡ spec.is_power power digit }
{
    match digit {
        None => false,
        Some(other) => other == power,
    }
}

fn starts_with(power: u8, powers: &[Option<u8>]) -> bool
    ensures { result ≡ spec.starts_with power powers.now }
{
    match powers {
        [] => false,
        [digit, ..] => is_power(power, *digit),
    }
}

fn next_index(index: u32) -> Result<u32, Memory>
    ensures { IfOk result (λ next. next ≡ index + 1) }
{
    match index.checked_add(1) {
        None => Err(Memory),
        Some(next) => Ok(next),
    }
}

fn pair_in(span: Span, index: u32) -> Result<Year, Memory>
    ensures { IfOk result (λ year. year ≡ spec.pair_in span index) }
{
    let place = place_in(span, index)?;
    Ok(Year {
        place,
        kind: YearKind::Pair,
    })
}

/// Two bytes of a span whose digits have these two powers, the higher one first.
fn pair_of(high: u8, low: u8, span: Span, powers: &[Option<u8>]) -> Result<Option<Year>, Memory>
    ensures { IfOk result (λ year. year ≡ spec.pair_from high low span 0 powers.now) }
{
    let mut index = 0;
    let mut rest = powers;
    while let [digit, more @ ..] = rest {
        if is_power(high, *digit) && starts_with(low, more) {
            let year = pair_in(span, index)?;
            return Ok(Some(year));
        }
        index = next_index(index)?;
        rest = more;
    }
    Ok(None)
}

/// The year that would have the two highest of so many digits of a view.
fn year_at(digits: u8, view: &View) -> Result<Option<Year>, Memory>
    ensures { IfOk result (λ year. year ≡ spec.year_at digits view.now) }
{
    let high = digits.saturating_sub(1);
    let low = digits.saturating_sub(2);
    match view {
        View::Bytes { span, powers } => {
            let year = pair_of(high, low, *span, powers.items())?;
            Ok(year)
        }
        View::Packed { span, digits } => {
            let kind = YearKind::Packed {
                digits: *digits,
                unit: low,
            };
            let place = first_of(*span);
            Ok(Some(Year { place, kind }))
        }
        View::Plain => Ok(None),
    }
}

fn standing(labelling: &Labelling, year: Option<Year>) -> Result<Option<Year>, Memory>
    ensures { IfOk result (λ found. found ≡ spec.standing labelling.now year) }
{
    match year {
        None => Ok(None),
        Some(year) => {
            if stands(labelling, year)? {
                Ok(Some(year))
            } else {
                Ok(None)
            }
        }
    }
}

/// The year that has the two highest of so many digits of a view, if there is one.
fn year_of(labelling: &Labelling, digits: u8, view: &View) -> Result<Option<Year>, Memory>
    ensures { IfOk result (λ year. year ≡ spec.year_of labelling.now digits view.now) }
{
    if digits < 2 {
        return Ok(None);
    }
    let year = year_at(digits, view)?;
    let year = standing(labelling, year)?;
    Ok(year)
}

fn is_sending(usage: Usage, form: NumForm) -> bool
    ensures { result ≡ spec.is_sending usage form }
{
    match usage {
        Usage::Display => form.scale == 0 && !form.signed,
        Usage::Packed => form.scale == 0,
        Usage::Binary => false,
    }
}

fn is_sender(kind: Kind) -> bool
    ensures { result ≡ spec.is_sender kind }
{
    match kind {
        Kind::Group => false,
        Kind::Text => false,
        Kind::Edited { form: _ } => false,
        Kind::Number { usage, form } => is_sending(usage, form),
    }
}

/// Whether one of the subscripts is a data name.
fn has_name(subs: &[Sub]) -> bool
    ensures { result ≡ spec.has_name subs.now }
{
    let mut rest = subs;
    while let [sub, more @ ..] = rest {
        if is_name(sub) {
            return true;
        }
        rest = more;
    }
    false
}

fn bridge_to(sent: Option<Year>, received: Option<Year>) -> Option<Bridge>
    ensures { result ≡ spec.bridge_to sent received }
{
    match sent {
        None => None,
        Some(sent) => match received {
            None => None,
            Some(received) => Some(Bridge { sent, received }),
        },
    }
}

fn bridge_of_fields(labelling: &Labelling, a: &Field, b: &Field) -> Result<Option<Bridge>, Memory>
    ensures { IfOk result (λ bridge. bridge ≡ spec.bridge_of_fields labelling.now a.now b.now) }
{
    let behind = a.span.length.saturating_sub(1);
    if begins_none(labelling, a.span, behind)? {
        let sent = year_of(labelling, a.digits, &a.view)?;
        let received = year_of(labelling, a.digits, &b.view)?;
        Ok(bridge_to(sent, received))
    } else {
        Ok(None)
    }
}

fn may_bridge(a: &Field, b: &Field, subs: &[Sub]) -> bool
    ensures { result ≡ spec.may_bridge a.now b.now subs.now }
{
    is_sender(a.kind) && (b.kind.is_aligned() && !has_name(subs))
}

fn bridge_if(
    labelling: &Labelling,
    a: &Field,
    b: &Field,
    subs: &[Sub],
) -> Result<Option<Bridge>, Memory>
    ensures { IfOk result (λ bridge. bridge ≡ spec.bridge_if labelling.now a.now b.now subs.now) }
{
    if may_bridge(a, b, subs) {
        let bridge = bridge_of_fields(labelling, a, b)?;
        Ok(bridge)
    } else {
        Ok(None)
    }
}

fn bridge_from(
    labelling: &Labelling,
    a: &Field,
    to: &Option<Side>,
    subs: &[Sub],
) -> Result<Option<Bridge>, Memory>
    ensures { IfOk result (λ bridge. bridge ≡ spec.bridge_from labelling.now a.now to.now subs.now) }
{
    match to {
        None => Ok(None),
        Some(Side::Known(b)) => {
            let bridge = bridge_if(labelling, a, b, subs)?;
            Ok(bridge)
        }
        Some(Side::Moving { most: _ }) => Ok(None),
    }
}

/// The years of a move between two sides, the second with these subscripts, if it is bridged.
pub(crate) fn bridge_between(
    labelling: &Labelling,
    from: &Option<Side>,
    to: &Option<Side>,
    subs: &[Sub],
) -> Result<Option<Bridge>, Memory>
    ensures { IfOk result (λ bridge. bridge ≡ spec.bridge labelling.now from.now to.now subs.now) }
{
    match from {
        None => Ok(None),
        Some(Side::Known(a)) => {
            let bridge = bridge_from(labelling, a, to, subs)?;
            Ok(bridge)
        }
        Some(Side::Moving { most: _ }) => Ok(None),
    }
}

fn find_bridge(
    alloc: Global,
    layout: &Layout,
    labelling: &Labelling,
    from: &Operand,
    to: &Place,
) -> Result<Option<Bridge>, Memory>
    requires { IsReady layout.now }
    ensures { IfOk result (λ bridge. bridge ≡ spec.bridge labelling.now (names.operand_side layout.now from.now) (sides.side_of layout.now to.now) to.now.subs) }
{
    let sender = operand_side(alloc, layout, from)?;
    let receiver = side_of(alloc, layout, to)?;
    let bridge = bridge_between(labelling, &sender, &receiver, to.subs.items())?;
    Ok(bridge)
}

/// The years of a MOVE statement that is bridged, or `None` where it isn't. Only such a move may have a sender and a receiver
/// whose years have unlike modes. A byte that 32 bits can't address is want of memory.
pub fn bridge_of(
    alloc: Global,
    layout: &Layout,
    labelling: &Labelling,
    from: &Operand,
    to: &Place,
) -> Result<Option<Bridge>, Memory>
    requires { IsReady layout.now }
    ensures bridge { IfOk result (λ bridge. bridge ≡ spec.bridge labelling.now (names.operand_side layout.now from.now) (sides.side_of layout.now to.now) to.now.subs) }
    ensures years { IfOk result (λ bridge. IfSome bridge (spec.AreStanding labelling.now)) }
{
    let bridge = find_bridge(alloc, layout, labelling, from, to)?;
    Ok(bridge)
}

ghost use Rattle.std.specs.Prelude.{◌≡◌, ◌+◌, ◌++◌, IfOk, OnOk, slice_get};
ghost use Rattle.statement_limits.specs.Numerals as spec;

use data_layout::Item;
use date_uses::{MoveKind, Used, UsedPlace};
use date_views::Side;
use operand_kinds::Kind;
use plan_limits::{Limit, LimitKind, add_number_limit, add_place_limit};
use window_modes::YearMode;
use y2k_base::{List, Memory, Origin, Span, Word};
use year_index::YearIndex;
use year_pairs::YearKind;

fn is_text(kind: Kind) -> bool
    ensures { result ≡ spec.is_text kind }
{
    match kind {
        Kind::Group => false,
        Kind::Text => true,
        Kind::Edited { form: _ } => false,
        Kind::Number { usage: _, form: _ } => false,
    }
}

/// Whether what is moved is aligned where its receiver is a number: INTO and FROM move bytes.
fn moves_values(kind: MoveKind) -> bool
    ensures { result ≡ spec.moves_values kind }
{
    match kind {
        MoveKind::Statement => true,
        MoveKind::Varying => true,
        MoveKind::Into => false,
        MoveKind::From => false,
    }
}

fn is_aligned_side(side: &Option<Side>) -> bool
    ensures { result ≡ spec.is_aligned_side side.now }
{
    match side {
        None => false,
        Some(side) => side.kind().is_aligned(),
    }
}

/// Whether it is a number or an edited item.
fn receives_numbers(used: &Used) -> bool
    ensures { result ≡ spec.receives_numbers used.now }
{
    match used {
        Used::Place(place) => is_aligned_side(&place.side),
        Used::Number {
            value: _,
            digits: _,
            at: _,
        } => false,
        Used::Text { bytes: _, at: _ } => false,
        Used::Figure { byte: _, at: _ } => false,
    }
}

/// The bytes of a text whose bounds are known.
fn text_span(side: &Option<Side>) -> Option<Span>
    ensures { result ≡ spec.text_span side.now }
{
    match side {
        None => None,
        Some(Side::Known(field)) => {
            if is_text(field.kind) {
                Some(field.span)
            } else {
                None
            }
        }
        Some(Side::Moving { most: _ }) => None,
    }
}

fn origin_at(words: &[Word], at: u32) -> Option<Origin>
    ensures { result ≡ spec.origin_of (slice_get words.now at) }
{
    match words.get(at as usize) {
        None => None,
        Some(word) => Some(word.origin),
    }
}

fn entry_of(words: &[Word], items: &[Item], number: u32) -> Option<Origin>
    ensures { result ≡ spec.entry_of words.now (slice_get items.now number) }
{
    match items.get(number as usize) {
        None => None,
        Some(item) => origin_at(words, item.entry_at),
    }
}

fn entry_at(words: &[Word], items: &[Item], number: Option<u32>) -> Option<Origin>
    ensures { result ≡ spec.entry_at words.now items.now number }
{
    match number {
        None => None,
        Some(number) => entry_of(words, items, number),
    }
}

/// Where the limits of a text stand: at the entry of its item, or for a reference at the statement.
fn text_origin(words: &[Word], items: &[Item], at: Origin, place: &UsedPlace) -> Option<Origin>
    ensures { result ≡ spec.text_origin words.now items.now at place.now }
{
    if place.cut {
        Some(at)
    } else {
        entry_at(words, items, place.item)
    }
}

fn is_packed(kind: YearKind) -> bool
    ensures { result ≡ spec.is_packed kind }
{
    match kind {
        YearKind::Pair => false,
        YearKind::Packed { digits: _, unit: _ } => true,
    }
}

fn add_mixed(limits: &mut List<Limit>, at: Origin, mode: YearMode) -> Result<(), Memory>
    ensures { OnOk result (limits.new ≡ limits.old ++ spec.mixed at mode) }
{
    if is_packed(mode.year.kind) {
        add_place_limit(limits, LimitKind::ShapeMix, at, mode.year.place)?;
        Ok(())
    } else {
        Ok(())
    }
}

/// Adds the packed ones of the years of a text.
fn add_all_mixed(limits: &mut List<Limit>, at: Origin, modes: &[YearMode]) -> Result<(), Memory>
    ensures { OnOk result (limits.new ≡ limits.old ++ spec.all_mixed at modes.now) }
{
    let mut rest = modes;
    while let [mode, more @ ..] = rest {
        add_mixed(limits, at, *mode)?;
        rest = more;
    }
    Ok(())
}

/// How many digits a year gets.
fn century_of(pivot: Option<u8>) -> u64
    ensures { result ≡ spec.century_of pivot }
{
    match pivot {
        None => 2,
        Some(_) => 0,
    }
}

fn sum_of(left: u64, right: u64) -> Result<u64, Memory>
    ensures { IfOk result (λ sum. sum ≡ left + right) }
{
    match left.checked_add(right) {
        None => Err(Memory),
        Some(sum) => Ok(sum),
    }
}

/// How many digits a text of that length has once the years in it have their centuries.
fn digits_after(length: u32, modes: &[YearMode]) -> Result<u64, Memory>
    ensures { IfOk result (λ digits. digits ≡ length + spec.centuries modes.now) }
{
    let mut digits = u64::from(length);
    let mut rest = modes;
    while let [mode, more @ ..] = rest {
        digits = sum_of(digits, century_of(mode.pivot))?;
        rest = more;
    }
    Ok(digits)
}

fn add_too_long(limits: &mut List<Limit>, at: Origin, digits: u64) -> Result<(), Memory>
    ensures { OnOk result (limits.new ≡ limits.old ++ spec.too_long at digits) }
{
    if digits > 18 {
        add_number_limit(limits, LimitKind::TooManyDigits, at, digits)?;
        Ok(())
    } else {
        Ok(())
    }
}

fn add_numeral_limits(
    limits: &mut List<Limit>,
    index: &YearIndex,
    at: Origin,
    span: Span,
) -> Result<(), Memory>
    ensures { OnOk result (limits.new ≡ limits.old ++ spec.numeral_limits index.now at span) }
{
    let modes = index.years_in(span);
    add_all_mixed(limits, at, modes)?;
    let digits = digits_after(span.length, modes)?;
    add_too_long(limits, at, digits)?;
    Ok(())
}

fn add_numeral_if(
    limits: &mut List<Limit>,
    index: &YearIndex,
    at: Option<Origin>,
    span: Option<Span>,
) -> Result<(), Memory>
    ensures { OnOk result (limits.new ≡ limits.old ++ spec.numeral_if index.now at span) }
{
    match at {
        None => Ok(()),
        Some(at) => match span {
            None => Ok(()),
            Some(span) => {
                add_numeral_limits(limits, index, at, span)?;
                Ok(())
            }
        },
    }
}

fn add_sender_limits(
    limits: &mut List<Limit>,
    index: &YearIndex,
    words: &[Word],
    items: &[Item],
    at: Origin,
    from: &Used,
) -> Result<(), Memory>
    ensures { OnOk result (limits.new ≡ limits.old ++ spec.sender_limits index.now words.now items.now at from.now) }
{
    match from {
        Used::Place(place) => {
            let at = text_origin(words, items, at, place);
            let span = text_span(&place.side);
            add_numeral_if(limits, index, at, span)?;
            Ok(())
        }
        Used::Number {
            value: _,
            digits: _,
            at: _,
        } => Ok(()),
        Used::Text { bytes: _, at: _ } => Ok(()),
        Used::Figure { byte: _, at: _ } => Ok(()),
    }
}

/// Adds the limits of a text that is moved to a number or an edited item.
pub(crate) fn add_move_limits(
    limits: &mut List<Limit>,
    index: &YearIndex,
    words: &[Word],
    items: &[Item],
    at: Origin,
    kind: MoveKind,
    from: &Used,
    to: &Used,
) -> Result<(), Memory>
    ensures { OnOk result (limits.new ≡ limits.old ++ spec.move_limits index.now words.now items.now at kind from.now to.now) }
{
    if moves_values(kind) && receives_numbers(to) {
        add_sender_limits(limits, index, words, items, at, from)?;
        Ok(())
    } else {
        Ok(())
    }
}

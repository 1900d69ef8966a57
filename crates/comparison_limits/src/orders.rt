ghost use Rattle.std.specs.Prelude.{◌≡◌, ◌++◌, ◌&&◌, IfOk, OnOk, Some, None, MatchOption};
ghost use Rattle.window_dates.specs.Operands as operands;
ghost use Rattle.window_dates.specs.Windows as windows;
ghost use Rattle.comparison_limits.specs.Orders as spec;

use cobol_syntax::Rel;
use date_uses::Used;
use plan_limits::{Limit, LimitKind, add_place_limit, add_word_limit};
use std::alloc::Global;
use window_dates::{
    WindowedYear, compares_values, field_of, is_digits_literal, is_in_window, is_windowed,
    lead_year, window_of, years_of,
};
use window_modes::YearMode;
use y2k_base::{List, Memory, Origin, Word};
use year_index::YearIndex;
use year_pairs::YearKind;

/// Whether the relation is one of order.
pub(crate) fn is_order(rel: Rel) -> bool
    ensures { result ≡ spec.is_order rel }
{
    match rel {
        Rel::Equal => false,
        Rel::Less => true,
        Rel::Greater => true,
    }
}

fn is_run(kind: YearKind) -> bool
    ensures { result ≡ spec.is_run kind }
{
    match kind {
        YearKind::Pair => false,
        YearKind::Packed { digits: _, unit: _ } => true,
    }
}

fn is_expanded_run(mode: YearMode) -> bool
    ensures { result ≡ spec.is_expanded_run mode }
{
    is_run(mode.year.kind) && !is_windowed(mode)
}

fn add_run(limits: &mut List<Limit>, at: Origin, mode: YearMode) -> Result<(), Memory>
    ensures { OnOk result (limits.new ≡ limits.old ++ spec.run_limit at mode) }
{
    if is_expanded_run(mode) {
        add_place_limit(limits, LimitKind::PackedOrder, at, mode.year.place)?;
        Ok(())
    } else {
        Ok(())
    }
}

fn add_runs(limits: &mut List<Limit>, at: Origin, years: &[YearMode]) -> Result<(), Memory>
    ensures { OnOk result (limits.new ≡ limits.old ++ spec.runs_limits at years.now) }
{
    let mut rest = years;
    while let [mode, more @ ..] = rest {
        add_run(limits, at, *mode)?;
        rest = more;
    }
    Ok(())
}

/// Adds each expanded packed year of an operand that is put in order by its bytes.
pub(crate) fn add_operand_runs(
    limits: &mut List<Limit>,
    index: &YearIndex,
    at: Origin,
    operand: &Used,
) -> Result<(), Memory>
    ensures { OnOk result (limits.new ≡ limits.old ++ spec.operand_runs index.now at operand.now) }
{
    add_runs(limits, at, years_of(index, operand))?;
    Ok(())
}

fn add_packed(
    limits: &mut List<Limit>,
    index: &YearIndex,
    at: Origin,
    left: &Used,
    right: &Used,
) -> Result<(), Memory>
    ensures { OnOk result (limits.new ≡ limits.old ++ spec.packed_limits index.now at left.now right.now) }
{
    if compares_values(left, right) {
        return Ok(());
    }
    add_operand_runs(limits, index, at, left)?;
    add_operand_runs(limits, index, at, right)?;
    Ok(())
}

fn is_place(operand: &Used) -> bool
    ensures { result ≡ spec.is_place operand.now }
{
    match operand {
        Used::Place(_) => true,
        Used::Number {
            value: _,
            digits: _,
            at: _,
        } => false,
        Used::Text { bytes: _, at: _ } => false,
        Used::Figure { byte: _, at: _ } => false,
    }
}

/// Whether an operand is a literal of digits, or a place whose first two digits or bytes are its only year.
fn is_shaped(words: &[Word], index: &YearIndex, operand: &Used) -> bool
    ensures { result ≡ spec.is_shaped words.now index.now operand.now }
{
    if is_place(operand) {
        lead_year(index, operand).is_some()
    } else {
        is_digits_literal(words, operand)
    }
}

fn are_shaped(words: &[Word], index: &YearIndex, left: &Used, right: &Used) -> bool
    ensures { result ≡ (spec.is_shaped words.now index.now left.now && spec.is_shaped words.now index.now right.now) }
{
    is_shaped(words, index, left) && is_shaped(words, index, right)
}

fn add_shape(
    limits: &mut List<Limit>,
    words: &[Word],
    index: &YearIndex,
    at: Origin,
    left: &Used,
    right: &Used,
    year: WindowedYear,
) -> Result<(), Memory>
    ensures { OnOk result (limits.new ≡ limits.old ++ spec.shape_limit words.now index.now at left.now right.now year) }
{
    if are_shaped(words, index, left, right) {
        Ok(())
    } else {
        add_place_limit(limits, LimitKind::WindowShape, at, year.year.place)?;
        Ok(())
    }
}

fn word_of<'a>(words: &'a [Word], operand: &Used) -> Option<&'a Word>
    ensures { MatchOption result (spec.word_of words.now operand.now ≡ None) (λ word. spec.word_of words.now operand.now ≡ Some word.now) }
{
    match operand {
        Used::Place(_) => None,
        Used::Number {
            value: _,
            digits: _,
            at,
        } => words.get(*at as usize),
        Used::Text { bytes: _, at } => words.get(*at as usize),
        Used::Figure { byte: _, at } => words.get(*at as usize),
    }
}

/// Adds a limit at the word of a literal or of a figurative constant, which shows it.
pub(crate) fn add_word(
    alloc: Global,
    limits: &mut List<Limit>,
    kind: LimitKind,
    words: &[Word],
    operand: &Used,
) -> Result<(), Memory>
    ensures { OnOk result (limits.new ≡ limits.old ++ spec.word_limits kind (spec.word_of words.now operand.now)) }
{
    match word_of(words, operand) {
        None => Ok(()),
        Some(word) => {
            add_word_limit(alloc, limits, kind, word.origin, word.text.items())?;
            Ok(())
        }
    }
}

fn is_in_field(words: &[Word], pivot: u8, place: &Used, literal: &Used) -> Result<bool, Memory>
    ensures { IfOk result (λ is. is ≡ spec.is_in_field words.now pivot (operands.field_of place.now) literal.now) }
{
    match field_of(place) {
        None => Ok(false),
        Some(field) => {
            let is = is_in_window(words, pivot, field, literal)?;
            Ok(is)
        }
    }
}

/// Whether a literal of digits that is compared with a place, or is a value of it, lies in the hundred years of the pivot.
pub(crate) fn is_inside(
    words: &[Word],
    pivot: u8,
    place: &Used,
    literal: &Used,
) -> Result<bool, Memory>
    ensures { IfOk result (λ is. is ≡ spec.is_inside words.now pivot place.now literal.now) }
{
    if is_digits_literal(words, literal) {
        let is = is_in_field(words, pivot, place, literal)?;
        Ok(is)
    } else {
        Ok(false)
    }
}

fn may_be_outside(words: &[Word], place: &Used, literal: &Used) -> bool
    ensures { result ≡ spec.may_be_outside words.now place.now literal.now }
{
    is_place(place) && is_digits_literal(words, literal)
}

fn is_outside(words: &[Word], pivot: u8, place: &Used, literal: &Used) -> Result<bool, Memory>
    ensures { IfOk result (λ is. is ≡ spec.is_outside words.now pivot place.now literal.now) }
{
    if may_be_outside(words, place, literal) {
        let is = is_in_field(words, pivot, place, literal)?;
        Ok(!is)
    } else {
        Ok(false)
    }
}

fn add_outside(
    alloc: Global,
    limits: &mut List<Limit>,
    words: &[Word],
    pivot: u8,
    place: &Used,
    literal: &Used,
) -> Result<(), Memory>
    ensures { OnOk result (limits.new ≡ limits.old ++ spec.outside_limits words.now pivot place.now literal.now) }
{
    if is_outside(words, pivot, place, literal)? {
        let kind = LimitKind::LiteralOutsideWindow;
        add_word(alloc, limits, kind, words, literal)?;
        Ok(())
    } else {
        Ok(())
    }
}

fn add_windowed_order(
    alloc: Global,
    limits: &mut List<Limit>,
    words: &[Word],
    index: &YearIndex,
    at: Origin,
    left: &Used,
    right: &Used,
) -> Result<(), Memory>
    ensures { OnOk result (limits.new ≡ limits.old ++ spec.windowed_order words.now index.now at left.now right.now (windows.window_of index.now left.now right.now)) }
{
    match window_of(index, left, right) {
        None => Ok(()),
        Some(year) => {
            add_shape(limits, words, index, at, left, right, year)?;
            add_outside(alloc, limits, words, year.pivot, left, right)?;
            add_outside(alloc, limits, words, year.pivot, right, left)?;
            Ok(())
        }
    }
}

/// Adds the limits of two operands of which the one is below or above the other.
pub(crate) fn add_order(
    alloc: Global,
    limits: &mut List<Limit>,
    words: &[Word],
    index: &YearIndex,
    at: Origin,
    left: &Used,
    right: &Used,
) -> Result<(), Memory>
    ensures { OnOk result (limits.new ≡ limits.old ++ spec.order_limits words.now index.now at left.now right.now) }
{
    add_packed(limits, index, at, left, right)?;
    add_windowed_order(alloc, limits, words, index, at, left, right)?;
    Ok(())
}

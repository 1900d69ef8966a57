ghost use Rattle.std.specs.Prelude.{◌≡◌, ◌++◌, OnOk};
ghost use Rattle.window_dates.specs.Windows as windows;
ghost use Rattle.comparison_limits.specs.Unlike as spec;

use date_uses::Used;
use mode_links::Bridge;
use plan_limits::{Limit, LimitKind, add_number_limit, add_place_limit};
use window_dates::{WindowedYear, compares_values, window_part, years_of};
use window_modes::YearMode;
use y2k_base::{BytePlace, List, Memory, Origin};
use year_index::YearIndex;

/// How two years that meet are unlike: only one of them is windowed, or both are by unlike pivots.
#[derive(Clone, Copy, Debug, PartialEq, Eq)]
pub(crate) enum Contrast {
    Modes,
    Pivots,
}

fn are_mixed(pivot: Option<u8>, other: Option<u8>) -> bool
    ensures { result ≡ spec.are_mixed pivot other }
{
    match pivot {
        None => match other {
            None => false,
            Some(_) => true,
        },
        Some(_) => match other {
            None => true,
            Some(_) => false,
        },
    }
}

fn are_apart(pivot: Option<u8>, other: Option<u8>) -> bool
    ensures { result ≡ spec.are_apart pivot other }
{
    match pivot {
        None => false,
        Some(pivot) => match other {
            None => false,
            Some(other) => pivot != other,
        },
    }
}

fn are_unlike(contrast: Contrast, pivot: Option<u8>, other: Option<u8>) -> bool
    ensures { result ≡ spec.are_unlike contrast pivot other }
{
    match contrast {
        Contrast::Modes => are_mixed(pivot, other),
        Contrast::Pivots => are_apart(pivot, other),
    }
}

fn has_unlike(contrast: Contrast, pivot: Option<u8>, years: &[YearMode]) -> bool
    ensures { result ≡ spec.has_unlike contrast pivot years.now }
{
    let mut rest = years;
    while let [mode, more @ ..] = rest {
        if are_unlike(contrast, pivot, mode.pivot) {
            return true;
        }
        rest = more;
    }
    false
}

/// The first of some years that has an unlike one among others. A number has at most nine years.
fn first_unlike(contrast: Contrast, years: &[YearMode], others: &[YearMode]) -> Option<YearMode>
    ensures { result ≡ spec.first_unlike contrast years.now others.now }
{
    let mut rest = years;
    while let [mode, more @ ..] = rest {
        if has_unlike(contrast, mode.pivot, others) {
            return Some(*mode);
        }
        rest = more;
    }
    None
}

fn kind_of(contrast: Contrast) -> LimitKind
    ensures { result ≡ spec.kind_of contrast }
{
    match contrast {
        Contrast::Modes => LimitKind::MixedCompare,
        Contrast::Pivots => LimitKind::PivotClash,
    }
}

fn add_contrast(
    limits: &mut List<Limit>,
    contrast: Contrast,
    index: &YearIndex,
    at: Origin,
    left: &Used,
    right: &Used,
) -> Result<(), Memory>
    ensures { OnOk result (limits.new ≡ limits.old ++ spec.contrast_limits contrast index.now at left.now right.now) }
{
    match first_unlike(contrast, years_of(index, left), years_of(index, right)) {
        None => Ok(()),
        Some(mode) => {
            add_place_limit(limits, kind_of(contrast), at, mode.year.place)?;
            Ok(())
        }
    }
}

/// Adds the limits of two numbers in any relation.
pub(crate) fn add_numbers(
    limits: &mut List<Limit>,
    index: &YearIndex,
    at: Origin,
    left: &Used,
    right: &Used,
) -> Result<(), Memory>
    ensures { OnOk result (limits.new ≡ limits.old ++ spec.number_limits index.now at left.now right.now) }
{
    if compares_values(left, right) {
        add_contrast(limits, Contrast::Modes, index, at, left, right)?;
        add_contrast(limits, Contrast::Pivots, index, at, left, right)?;
        Ok(())
    } else {
        Ok(())
    }
}

fn pivot_at(index: &YearIndex, place: BytePlace) -> Option<u8>
    ensures { result ≡ spec.pivot_at index.now place }
{
    match index.year_at(place) {
        None => None,
        Some(mode) => mode.pivot,
    }
}

fn add_bridged(
    limits: &mut List<Limit>,
    index: &YearIndex,
    at: Origin,
    bridge: Bridge,
) -> Result<(), Memory>
    ensures { OnOk result (limits.new ≡ limits.old ++ spec.bridged_limits index.now at bridge) }
{
    let sent = pivot_at(index, bridge.sent.place);
    let received = pivot_at(index, bridge.received.place);
    if are_apart(sent, received) {
        add_place_limit(limits, LimitKind::PivotClash, at, bridge.received.place)?;
        Ok(())
    } else {
        Ok(())
    }
}

/// Adds the limit of the two years of a move that is bridged.
pub(crate) fn add_bridge(
    limits: &mut List<Limit>,
    index: &YearIndex,
    at: Origin,
    bridge: &Option<Bridge>,
) -> Result<(), Memory>
    ensures { OnOk result (limits.new ≡ limits.old ++ spec.bridge_limits index.now at bridge.now) }
{
    match bridge {
        None => Ok(()),
        Some(bridge) => {
            add_bridged(limits, index, at, *bridge)?;
            Ok(())
        }
    }
}

fn first_of(year: Option<WindowedYear>, other: Option<WindowedYear>) -> Option<WindowedYear>
    ensures { result ≡ windows.first_of year other }
{
    match year {
        None => other,
        Some(year) => Some(year),
    }
}

fn sum_window(index: &YearIndex, to: &Used, left: &Used, right: &Used) -> Option<WindowedYear>
    ensures { result ≡ spec.sum_window index.now to.now left.now right.now }
{
    let operand = first_of(window_part(index, left), window_part(index, right));
    first_of(window_part(index, to), operand)
}

/// Adds the limit of a sum or a difference, with a size phrase or without one.
pub(crate) fn add_size(
    limits: &mut List<Limit>,
    index: &YearIndex,
    at: Origin,
    to: &Used,
    left: &Used,
    right: &Used,
    size: bool,
) -> Result<(), Memory>
    ensures { OnOk result (limits.new ≡ limits.old ++ spec.size_limits index.now at to.now left.now right.now size) }
{
    if !size {
        return Ok(());
    }
    match sum_window(index, to, left, right) {
        None => Ok(()),
        Some(year) => {
            add_number_limit(
                limits,
                LimitKind::SizeErrorInWindow,
                at,
                u64::from(year.pivot),
            )?;
            Ok(())
        }
    }
}

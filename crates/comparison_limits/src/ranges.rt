ghost use Rattle.std.specs.Prelude.{◌≡◌, ◌++◌, ◌&&◌, IfOk, OnOk};
ghost use Rattle.window_dates.specs.Operands as operands;
ghost use Rattle.window_dates.specs.Windows as windows;
ghost use Rattle.comparison_limits.specs.Orders as orders;
ghost use Rattle.comparison_limits.specs.Ranges as spec;

use crate::orders::{add_operand_runs, add_word, is_inside};
use date_uses::Used;
use plan_limits::{Limit, LimitKind};
use std::alloc::Global;
use window_dates::{compares_values, lead_year, window_in};
use y2k_base::{List, Memory, Origin, Word};
use year_index::YearIndex;

fn are_values(item: &Used, low: &Used, high: &Used) -> bool
    ensures { result ≡ (operands.compares_values item.now low.now && operands.compares_values item.now high.now) }
{
    compares_values(item, low) && compares_values(item, high)
}

fn add_packed_range(
    limits: &mut List<Limit>,
    index: &YearIndex,
    at: Origin,
    item: &Used,
    low: &Used,
    high: &Used,
) -> Result<(), Memory>
    ensures { OnOk result (limits.new ≡ limits.old ++ spec.packed_range index.now at item.now low.now high.now) }
{
    if are_values(item, low, high) {
        Ok(())
    } else {
        add_operand_runs(limits, index, at, item)?;
        Ok(())
    }
}

fn are_inside(
    words: &[Word],
    pivot: u8,
    item: &Used,
    low: &Used,
    high: &Used,
) -> Result<bool, Memory>
    ensures { IfOk result (λ are. are ≡ (orders.is_inside words.now pivot item.now low.now && orders.is_inside words.now pivot item.now high.now)) }
{
    if is_inside(words, pivot, item, low)? {
        let is = is_inside(words, pivot, item, high)?;
        Ok(is)
    } else {
        Ok(false)
    }
}

fn is_kept(
    words: &[Word],
    index: &YearIndex,
    pivot: u8,
    item: &Used,
    low: &Used,
    high: &Used,
) -> Result<bool, Memory>
    ensures { IfOk result (λ is. is ≡ spec.is_kept words.now index.now pivot item.now low.now high.now) }
{
    match lead_year(index, item) {
        None => Ok(false),
        Some(_) => {
            let are = are_inside(words, pivot, item, low, high)?;
            Ok(are)
        }
    }
}

fn add_windowed_range(
    alloc: Global,
    limits: &mut List<Limit>,
    words: &[Word],
    index: &YearIndex,
    item: &Used,
    low: &Used,
    high: &Used,
) -> Result<(), Memory>
    ensures { OnOk result (limits.new ≡ limits.old ++ spec.windowed_range words.now index.now item.now low.now high.now (windows.window_in index.now item.now)) }
{
    match window_in(index, item) {
        None => Ok(()),
        Some(year) => {
            if is_kept(words, index, year.pivot, item, low, high)? {
                Ok(())
            } else {
                add_word(alloc, limits, LimitKind::RangeAcrossPivot, words, low)?;
                Ok(())
            }
        }
    }
}

/// Adds the limits of the values of a condition-name from one to another; a single value has none.
pub(crate) fn add_range(
    alloc: Global,
    limits: &mut List<Limit>,
    words: &[Word],
    index: &YearIndex,
    at: Origin,
    item: &Used,
    low: &Used,
    high: &Option<Used>,
) -> Result<(), Memory>
    ensures { OnOk result (limits.new ≡ limits.old ++ spec.range_limits words.now index.now at item.now low.now high.now) }
{
    match high {
        None => Ok(()),
        Some(high) => {
            add_packed_range(limits, index, at, item, low, high)?;
            add_windowed_range(alloc, limits, words, index, item, low, high)?;
            Ok(())
        }
    }
}

/// Adds the limits of a test for digits or for letters.
pub(crate) fn add_class(
    limits: &mut List<Limit>,
    index: &YearIndex,
    at: Origin,
    of: &Used,
    numeric: bool,
) -> Result<(), Memory>
    ensures { OnOk result (limits.new ≡ limits.old ++ spec.class_limits index.now at of.now numeric) }
{
    if numeric {
        Ok(())
    } else {
        add_operand_runs(limits, index, at, of)?;
        Ok(())
    }
}

ghost use Rattle.std.specs.Prelude.{◌≡◌, ◌++◌, slice_get, OnOk};
ghost use Rattle.comparison_limits.specs.Limits as spec;
ghost use Rattle.comparison_limits.specs.Unlike as unlike;

use crate::orders::{add_order, is_order};
use crate::ranges::{add_class, add_range};
use crate::unlike::{add_bridge, add_numbers, add_size};
use cobol_syntax::{Program, Rel};
use date_uses::{DateUse, UseForm, Used};
use plan_limits::Limit;
use std::alloc::Global;
use y2k_base::{List, Memory, Origin, Word};
use year_index::YearIndex;

fn add_order_if(
    alloc: Global,
    limits: &mut List<Limit>,
    words: &[Word],
    index: &YearIndex,
    at: Origin,
    left: &Used,
    rel: Rel,
    right: &Used,
) -> Result<(), Memory>
    ensures { OnOk result (limits.new ≡ limits.old ++ spec.order_if words.now index.now at left.now rel right.now) }
{
    if is_order(rel) {
        add_order(alloc, limits, words, index, at, left, right)?;
        Ok(())
    } else {
        Ok(())
    }
}

fn add_comparison(
    alloc: Global,
    limits: &mut List<Limit>,
    words: &[Word],
    index: &YearIndex,
    at: Origin,
    left: &Used,
    rel: Rel,
    right: &Used,
) -> Result<(), Memory>
    ensures { OnOk result (limits.new ≡ limits.old ++ (spec.order_if words.now index.now at left.now rel right.now ++ unlike.number_limits index.now at left.now right.now)) }
{
    add_order_if(alloc, limits, words, index, at, left, rel, right)?;
    add_numbers(limits, index, at, left, right)?;
    Ok(())
}

fn add_form(
    alloc: Global,
    limits: &mut List<Limit>,
    words: &[Word],
    index: &YearIndex,
    at: Origin,
    form: &UseForm,
) -> Result<(), Memory>
    ensures { OnOk result (limits.new ≡ limits.old ++ spec.form_limits words.now index.now at form.now) }
{
    match form {
        UseForm::Move {
            kind: _,
            from: _,
            to: _,
            bridge,
        } => {
            add_bridge(limits, index, at, bridge)?;
            Ok(())
        }
        UseForm::Accept { to: _, from: _ } => Ok(()),
        UseForm::Compare { left, rel, right } => {
            add_comparison(alloc, limits, words, index, at, left, *rel, right)?;
            Ok(())
        }
        UseForm::Class { of, numeric } => {
            add_class(limits, index, at, of, *numeric)?;
            Ok(())
        }
        UseForm::Sum {
            to,
            left,
            right,
            size,
        } => {
            add_size(limits, index, at, to, left, right, *size)?;
            Ok(())
        }
        UseForm::Difference {
            to,
            left,
            right,
            size,
        } => {
            add_size(limits, index, at, to, left, right, *size)?;
            Ok(())
        }
        UseForm::Value { item: _, of: _ } => Ok(()),
        UseForm::Range { item, low, high } => {
            add_range(alloc, limits, words, index, at, item, low, high)?;
            Ok(())
        }
        UseForm::Mention { of: _ } => Ok(()),
    }
}

fn words_of(programs: &[Program], number: u32) -> &[Word]
    ensures { result.now ≡ spec.words_of (slice_get programs.now number) }
{
    match programs.get(number as usize) {
        None => &[],
        Some(program) => program.words.items(),
    }
}

/// Adds the limits of the uses of a portfolio's programs that compare, add, subtract, or move by a bridge.
pub fn add_comparison_limits(
    alloc: Global,
    limits: &mut List<Limit>,
    programs: &[Program],
    index: &YearIndex,
    uses: &[DateUse],
) -> Result<(), Memory>
    ensures { OnOk result (limits.new ≡ limits.old ++ spec.comparison_limits programs.now index.now uses.now) }
{
    let mut rest = uses;
    while let [date_use, more @ ..] = rest {
        let words = words_of(programs, date_use.program);
        add_form(alloc, limits, words, index, date_use.at, &date_use.form)?;
        rest = more;
    }
    Ok(())
}

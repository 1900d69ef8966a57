ghost use Rattle.std.specs.Prelude.{◌≡◌, ◌++◌, ◌∷◌, [], IfOk, OnOk, MatchOption, Some, None, slice_get};
ghost use Rattle.data_layout.specs.Index.{IsReady};
ghost use Rattle.data_layout.specs.Sizes as sizes;
ghost use Rattle.date_uses.specs.Entries as spec;

use crate::places::{Spot, add_use, item_used, operand_used, operand_used_if, spot_of};
use crate::uses::{DateUse, UseForm};
use cobol_syntax::{Entry, FileEntry, Operand, Program, Range};
use data_layout::{CondItem, Item, Layout};
use std::alloc::Global;
use y2k_base::{List, Memory, Word};

/// The level of condition-names.
const NAMED: u8 = 88;

fn is_named(entry: &Entry) -> bool
    ensures { result ≡ sizes.is_named entry.now }
{
    entry.level == NAMED
}

fn number_after(number: u32, entry: &Entry) -> Result<u32, Memory>
    ensures { IfOk result (λ next. next ≡ spec.number_after number entry.now) }
{
    if is_named(entry) {
        return Ok(number);
    }
    match number.checked_add(1) {
        None => Err(Memory),
        Some(next) => Ok(next),
    }
}

fn item_of(layout: &Layout, number: u32) -> Option<&Item>
    ensures { MatchOption result (slice_get layout.now.items number ≡ None) (λ item. slice_get layout.now.items number ≡ Some item.now) }
{
    layout.items.items().get(number as usize)
}

/// Adds the VALUE of the item of this number.
fn add_value(
    alloc: Global,
    uses: &mut List<DateUse>,
    program: u32,
    words: &[Word],
    layout: &Layout,
    number: u32,
    value: &Option<Operand>,
) -> Result<(), Memory>
    requires { IsReady layout.now }
    ensures { OnOk result (uses.new ≡ uses.old ++ spec.value_use program words.now layout.now number (slice_get layout.now.items number) value.now) }
{
    match item_of(layout, number) {
        None => Ok(()),
        Some(item) => match value {
            None => Ok(()),
            Some(value) => {
                let spot = spot_of(program, words, item.entry_at);
                let item = item_used(alloc, number, item)?;
                let of = operand_used(alloc, layout, value)?;
                add_use(uses, spot, UseForm::Value { item, of })?;
                Ok(())
            }
        },
    }
}

fn add_entry(
    alloc: Global,
    uses: &mut List<DateUse>,
    program: u32,
    words: &[Word],
    layout: &Layout,
    number: u32,
    entry: &Entry,
) -> Result<(), Memory>
    requires { IsReady layout.now }
    ensures { OnOk result (uses.new ≡ uses.old ++ spec.entry_use program words.now layout.now number entry.now) }
{
    if is_named(entry) {
        Ok(())
    } else {
        add_value(alloc, uses, program, words, layout, number, &entry.value)?;
        Ok(())
    }
}

/// Adds the VALUEs of entries whose first item has this number, and gives the number of the item behind them.
fn add_entries(
    alloc: Global,
    uses: &mut List<DateUse>,
    program: u32,
    words: &[Word],
    layout: &Layout,
    first: u32,
    entries: &[Entry],
) -> Result<u32, Memory>
    requires { IsReady layout.now }
    ensures uses { OnOk result (uses.new ≡ uses.old ++ spec.entries_uses program words.now layout.now first entries.now) }
    ensures next { IfOk result (λ next. next ≡ spec.number_behind first entries.now) }
{
    let mut number = first;
    let mut rest = entries;
    while let [entry, more @ ..] = rest {
        add_entry(alloc, uses, program, words, layout, number, entry)?;
        number = number_after(number, entry)?;
        rest = more;
    }
    Ok(number)
}

fn add_files(
    alloc: Global,
    uses: &mut List<DateUse>,
    program: u32,
    words: &[Word],
    layout: &Layout,
    first: u32,
    files: &[FileEntry],
) -> Result<u32, Memory>
    requires { IsReady layout.now }
    ensures uses { OnOk result (uses.new ≡ uses.old ++ spec.files_uses program words.now layout.now first files.now) }
    ensures next { IfOk result (λ next. next ≡ spec.number_behind_files first files.now) }
{
    let mut number = first;
    let mut rest = files;
    while let [file, more @ ..] = rest {
        let entries = file.entries.items();
        number = add_entries(alloc, uses, program, words, layout, number, entries)?;
        rest = more;
    }
    Ok(number)
}

/// Adds the VALUEs of a program.
pub(crate) fn add_values(
    alloc: Global,
    uses: &mut List<DateUse>,
    number: u32,
    program: &Program,
    layout: &Layout,
) -> Result<(), Memory>
    requires { IsReady layout.now }
    ensures { OnOk result (uses.new ≡ uses.old ++ spec.values_uses number program.now layout.now) }
{
    let words = program.words.items();
    let files = program.files.items();
    let storage = program.storage.items();
    let first = add_files(alloc, uses, number, words, layout, 0, files)?;
    add_entries(alloc, uses, number, words, layout, first, storage)?;
    Ok(())
}

/// Adds a value, or the values between two, for which the condition-name of an item holds.
fn add_range(
    alloc: Global,
    uses: &mut List<DateUse>,
    layout: &Layout,
    spot: Spot,
    number: u32,
    item: &Item,
    range: &Range,
) -> Result<(), Memory>
    requires { IsReady layout.now }
    ensures { OnOk result (uses.new ≡ uses.old ++ spec.range_use layout.now spot number item.now range.now ∷ []) }
{
    let item = item_used(alloc, number, item)?;
    let low = operand_used(alloc, layout, &range.low)?;
    let high = operand_used_if(alloc, layout, &range.high)?;
    add_use(uses, spot, UseForm::Range { item, low, high })?;
    Ok(())
}

fn add_ranges(
    alloc: Global,
    uses: &mut List<DateUse>,
    layout: &Layout,
    spot: Spot,
    number: u32,
    item: &Item,
    ranges: &[Range],
) -> Result<(), Memory>
    requires { IsReady layout.now }
    ensures { OnOk result (uses.new ≡ uses.old ++ spec.ranges_uses layout.now spot number item.now ranges.now) }
{
    let mut rest = ranges;
    while let [range, more @ ..] = rest {
        add_range(alloc, uses, layout, spot, number, item, range)?;
        rest = more;
    }
    Ok(())
}

fn add_cond(
    alloc: Global,
    uses: &mut List<DateUse>,
    program: u32,
    words: &[Word],
    layout: &Layout,
    cond: &CondItem,
) -> Result<(), Memory>
    requires { IsReady layout.now }
    ensures { OnOk result (uses.new ≡ uses.old ++ spec.cond_uses program words.now layout.now cond.now) }
{
    match item_of(layout, cond.item) {
        None => Ok(()),
        Some(item) => {
            let spot = spot_of(program, words, cond.entry_at);
            let ranges = cond.ranges.items();
            add_ranges(alloc, uses, layout, spot, cond.item, item, ranges)?;
            Ok(())
        }
    }
}

/// Adds the values of condition-names.
pub(crate) fn add_conds(
    alloc: Global,
    uses: &mut List<DateUse>,
    program: u32,
    words: &[Word],
    layout: &Layout,
    conds: &[CondItem],
) -> Result<(), Memory>
    requires { IsReady layout.now }
    ensures { OnOk result (uses.new ≡ uses.old ++ spec.conds_uses program words.now layout.now conds.now) }
{
    let mut rest = conds;
    while let [cond, more @ ..] = rest {
        add_cond(alloc, uses, program, words, layout, cond)?;
        rest = more;
    }
    Ok(())
}

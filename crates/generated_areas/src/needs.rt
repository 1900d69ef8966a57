ghost use Rattle.std.specs.Prelude.{◌≡◌, ◌++◌, IfOk, OnOk};
ghost use Rattle.std.specs.List.{list_any};
ghost use Rattle.generated_areas.specs.Needs as spec;

use crate::area::GeneratedArea;
use crate::bridged::{BridgedMove, add_bridged};
use crate::dates::accepts_year;
use date_uses::DateUse;
use std::alloc::Global;
use y2k_base::{List, Memory};
use year_index::YearIndex;

fn is_accepting(index: &YearIndex, program: u32, unit: u8, use_of: &DateUse) -> Result<bool, Memory>
    ensures { IfOk result (λ is. is ≡ spec.is_accepting index.now program unit use_of.now) }
{
    if use_of.program == program {
        let accepts = accepts_year(index, unit, &use_of.form)?;
        Ok(accepts)
    } else {
        Ok(false)
    }
}

/// Whether the program accepts a year that gets its century, with its units digit at that power.
fn is_accepted(index: &YearIndex, program: u32, unit: u8, uses: &[DateUse]) -> Result<bool, Memory>
    ensures { IfOk result (λ is. is ≡ list_any (spec.is_accepting index.now program unit) uses.now) }
{
    let mut rest = uses;
    while let [first, more @ ..] = rest {
        if is_accepting(index, program, unit, first)? {
            return Ok(true);
        }
        rest = more;
    }
    Ok(false)
}

fn add_date_areas(
    areas: &mut List<GeneratedArea>,
    index: &YearIndex,
    program: u32,
    uses: &[DateUse],
) -> Result<(), Memory>
    ensures { OnOk result (areas.new ≡ areas.old ++ spec.date_areas index.now program uses.now) }
{
    if is_accepted(index, program, 4, uses)? {
        areas.append(&[GeneratedArea::Date, GeneratedArea::FullDate])?;
        Ok(())
    } else {
        Ok(())
    }
}

fn add_day_areas(
    areas: &mut List<GeneratedArea>,
    index: &YearIndex,
    program: u32,
    uses: &[DateUse],
) -> Result<(), Memory>
    ensures { OnOk result (areas.new ≡ areas.old ++ spec.day_areas index.now program uses.now) }
{
    if is_accepted(index, program, 3, uses)? {
        areas.append(&[GeneratedArea::Day, GeneratedArea::FullDay])?;
        Ok(())
    } else {
        Ok(())
    }
}

fn add_bridged_by(
    moves: &mut List<BridgedMove>,
    index: &YearIndex,
    program: u32,
    use_of: &DateUse,
) -> Result<(), Memory>
    ensures { OnOk result (moves.new ≡ moves.old ++ spec.bridged_by index.now program use_of.now) }
{
    if use_of.program == program {
        add_bridged(moves, index, &use_of.form)?;
        Ok(())
    } else {
        Ok(())
    }
}

/// The bridged moves of a program whose years have unlike modes.
fn bridged_moves(
    alloc: Global,
    index: &YearIndex,
    program: u32,
    uses: &[DateUse],
) -> Result<List<BridgedMove>, Memory>
    ensures { IfOk result (λ moves. moves ≡ spec.bridged_moves index.now program uses.now) }
{
    let mut moves = List::new(alloc);
    let mut rest = uses;
    while let [first, more @ ..] = rest {
        add_bridged_by(&mut moves, index, program, first)?;
        rest = more;
    }
    Ok(moves)
}

fn has_digits(digits: u8, bridged: BridgedMove) -> bool
    ensures { result ≡ spec.has_digits digits bridged }
{
    bridged.digits == digits
}

fn is_widened(digits: u8, bridged: BridgedMove) -> bool
    ensures { result ≡ spec.is_widened digits bridged }
{
    bridged.digits == digits && bridged.windowed
}

fn any_has_digits(digits: u8, moves: &[BridgedMove]) -> bool
    ensures { result ≡ list_any (spec.has_digits digits) moves.now }
{
    let mut rest = moves;
    while let [first, more @ ..] = rest {
        if has_digits(digits, *first) {
            return true;
        }
        rest = more;
    }
    false
}

fn any_is_widened(digits: u8, moves: &[BridgedMove]) -> bool
    ensures { result ≡ list_any (spec.is_widened digits) moves.now }
{
    let mut rest = moves;
    while let [first, more @ ..] = rest {
        if is_widened(digits, *first) {
            return true;
        }
        rest = more;
    }
    false
}

fn add_short_area(
    areas: &mut List<GeneratedArea>,
    moves: &[BridgedMove],
    digits: u8,
) -> Result<(), Memory>
    ensures { OnOk result (areas.new ≡ areas.old ++ spec.short_area moves.now digits) }
{
    if any_has_digits(digits, moves) {
        areas.push(GeneratedArea::Short(digits))?;
        Ok(())
    } else {
        Ok(())
    }
}

fn add_long_area(
    areas: &mut List<GeneratedArea>,
    moves: &[BridgedMove],
    digits: u8,
) -> Result<(), Memory>
    ensures { OnOk result (areas.new ≡ areas.old ++ spec.long_area moves.now digits) }
{
    if any_is_widened(digits, moves) {
        areas.push(GeneratedArea::Long(digits))?;
        Ok(())
    } else {
        Ok(())
    }
}

/// Adds the areas for moves of fewer than so many digits, by increasing digits.
fn add_areas_below(
    areas: &mut List<GeneratedArea>,
    moves: &[BridgedMove],
    most: u8,
) -> Result<(), Memory>
    ensures { OnOk result (areas.new ≡ areas.old ++ spec.areas_below moves.now most) }
{
    for digits in 0..most {
        add_short_area(areas, moves, digits)?;
        add_long_area(areas, moves, digits)?;
    }
    Ok(())
}

/// The areas that a program, by its number, needs besides its own when its years get their century: those for the dates that
/// it accepts, those for days, and those for its bridged moves between unlike modes, by increasing digits. Of the uses those
/// of other programs don't matter.
pub fn generated_areas(
    alloc: Global,
    program: u32,
    index: &YearIndex,
    uses: &[DateUse],
) -> Result<List<GeneratedArea>, Memory>
    ensures { IfOk result (λ areas. areas ≡ spec.needs index.now program uses.now) }
{
    let moves = bridged_moves(alloc, index, program, uses)?;
    let mut areas = List::new(alloc);
    add_date_areas(&mut areas, index, program, uses)?;
    add_day_areas(&mut areas, index, program, uses)?;
    add_areas_below(&mut areas, moves.items(), 19)?;
    Ok(areas)
}

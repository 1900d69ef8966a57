ghost use Rattle.std.specs.Prelude.{◌≡◌, ◌+◌, ◌++◌, length, map, IfOk, OnOk};
ghost use Rattle.convert_plan.specs.Numbers as spec;

use data_layout::{FileUse, Layout};
use date_uses::DateUse;
use generated_areas::{GeneratedArea, generated_areas};
use std::alloc::Global;
use y2k_base::{AreaId, List, Memory};
use year_index::YearIndex;

/// The areas that each program gets besides its own.
pub(crate) fn needed_areas(
    alloc: Global,
    layouts: &[Layout],
    index: &YearIndex,
    uses: &[DateUse],
) -> Result<List<List<GeneratedArea>>, Memory>
    ensures { IfOk result (λ needed. needed ≡ spec.needs_from index.now uses.now 0 layouts.now) }
{
    let mut needed = List::new(alloc);
    let mut program = 0_u32;
    let mut rest = layouts;
    while let [_, more @ ..] = rest {
        let areas = generated_areas(alloc, program, index, uses)?;
        needed.push(areas)?;
        program = next_number(program, 1)?;
        rest = more;
    }
    Ok(needed)
}

fn next_number(number: u32, count: u32) -> Result<u32, Memory>
    ensures { IfOk result (λ next. next ≡ number + count) }
{
    match number.checked_add(count) {
        Some(next) => Ok(next),
        None => Err(Memory),
    }
}

fn count_of(length: usize) -> Result<u32, Memory>
    ensures { IfOk result (λ count. count ≡ length) }
{
    match u32::try_from(length) {
        Ok(count) => Ok(count),
        Err(_) => Err(Memory),
    }
}

/// The number of each area after conversion.
pub(crate) fn area_numbers(
    alloc: Global,
    layouts: &[Layout],
    needed: &[List<GeneratedArea>],
) -> Result<List<u32>, Memory>
    ensures { IfOk result (λ numbers. numbers ≡ spec.numbers_from 0 layouts.now needed.now) }
{
    let mut numbers = List::new(alloc);
    let mut next = 0_u32;
    let mut layouts_left = layouts;
    let mut needed_left = needed;
    while let [layout, layouts_after @ ..] = layouts_left {
        match needed_left {
            [areas, needed_after @ ..] => {
                let own = count_of(layout.areas.len())?;
                add_numbers(&mut numbers, next, own)?;
                let behind = next_number(next, own)?;
                let more = count_of(areas.len())?;
                next = next_number(behind, more)?;
                layouts_left = layouts_after;
                needed_left = needed_after;
            }
            [] => return Ok(numbers),
        }
    }
    Ok(numbers)
}

/// Adds so many numbers from this one on.
fn add_numbers(numbers: &mut List<u32>, first: u32, count: u32) -> Result<(), Memory>
    ensures { OnOk result (numbers.new ≡ numbers.old ++ spec.count_from first count) }
{
    let mut next = first;
    let mut left = count;
    while left > 0 {
        numbers.push(next)?;
        next = next_number(next, 1)?;
        left -= 1;
    }
    Ok(())
}

/// The record area of each file.
pub(crate) fn record_areas(alloc: Global, files: &[FileUse]) -> Result<List<Option<AreaId>>, Memory>
    ensures { IfOk result (λ areas. areas ≡ map spec.record_area files.now) }
{
    let mut areas = List::new(alloc);
    let mut rest = files;
    while let [file, more @ ..] = rest {
        areas.push(record_area(file))?;
        rest = more;
    }
    Ok(areas)
}

fn record_area(file: &FileUse) -> Option<AreaId>
    ensures { result ≡ spec.record_area file.now }
{
    match file.areas.items() {
        [area, ..] => Some(area.area),
        [] => None,
    }
}

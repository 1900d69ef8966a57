ghost use Rattle.std.specs.Prelude.{◌≡◌, ◌+◌, ◌++◌, ◌&&◌, nat_le, nat_lt, map, IfOk, OnOk};
ghost use Rattle.area_limits.specs.Extents as extents;
ghost use Rattle.area_limits.specs.Full as spec;

use crate::extents::{area_length, area_origin};
use crate::grown::plus;
use data_layout::{Area, Item};
use generated_areas::GeneratedArea;
use plan_limits::{Limit, LimitKind, add_number_limit};
use y2k_base::{List, Memory, Origin, Word};
use year_index::YearIndex;

/// The most bytes that an area has.
const MOST_OF_AREA: u64 = 65_535;

/// The most bytes that all areas of a portfolio have together.
const MOST_OF_ALL: u64 = 4_000_000;

/// Whether all areas pass their bound with an area of that length, and didn't before it.
fn is_first_past(before: u64, sum: u64) -> bool
    ensures { result ≡ (nat_le before 4000000 && nat_lt 4000000 sum) }
{
    before <= MOST_OF_ALL && MOST_OF_ALL < sum
}

fn add_own(limits: &mut List<Limit>, at: Origin, length: u64) -> Result<(), Memory>
    ensures { OnOk result (limits.new ≡ limits.old ++ spec.own_limits (record { at = at; length = length })) }
{
    if MOST_OF_AREA < length {
        add_number_limit(limits, LimitKind::AreaFull, at, length)?;
        Ok(())
    } else {
        Ok(())
    }
}

fn add_sum(limits: &mut List<Limit>, at: Origin, before: u64, length: u64) -> Result<(), Memory>
    ensures { OnOk result (limits.new ≡ limits.old ++ spec.sum_limits before (record { at = at; length = length })) }
{
    let sum = plus(before, length)?;
    if is_first_past(before, sum) {
        add_number_limit(limits, LimitKind::AreaFull, at, sum)?;
        Ok(())
    } else {
        Ok(())
    }
}

/// Adds the limits of an area with which those before it have so many bytes.
fn add_full(limits: &mut List<Limit>, at: Origin, before: u64, length: u64) -> Result<(), Memory>
    ensures { OnOk result (limits.new ≡ limits.old ++ spec.extent_limits before (record { at = at; length = length })) }
{
    add_own(limits, at, length)?;
    add_sum(limits, at, before, length)?;
    Ok(())
}

/// Adds the limits of an area of that length, and looks for its entry only where there are some.
fn add_if_full(
    limits: &mut List<Limit>,
    before: u64,
    length: u64,
    index: &YearIndex,
    words: &[Word],
    items: &[Item],
    area: &Area,
) -> Result<(), Memory>
    requires { length ≡ extents.area_length index.now area.now }
    ensures { OnOk result (limits.new ≡ limits.old ++ spec.extent_limits before (extents.area_extent index.now words.now items.now area.now)) }
{
    let sum = plus(before, length)?;
    if MOST_OF_AREA < length {
        let at = area_origin(index, words, items, area)?;
        add_full(limits, at, before, length)?;
        Ok(())
    } else if is_first_past(before, sum) {
        let at = area_origin(index, words, items, area)?;
        add_full(limits, at, before, length)?;
        Ok(())
    } else {
        Ok(())
    }
}

/// Adds the limits of an area, and gives how many bytes the areas up to it have.
fn add_area(
    limits: &mut List<Limit>,
    before: u64,
    index: &YearIndex,
    words: &[Word],
    items: &[Item],
    area: &Area,
) -> Result<u64, Memory>
    ensures sum { IfOk result (λ sum. sum ≡ before + extents.area_length index.now area.now) }
    ensures limits { OnOk result (limits.new ≡ limits.old ++ spec.extent_limits before (extents.area_extent index.now words.now items.now area.now)) }
{
    let length = area_length(index, area)?;
    add_if_full(limits, before, length, index, words, items, area)?;
    let sum = plus(before, length)?;
    Ok(sum)
}

/// Adds the limits of the areas of a program, and gives how many bytes the areas up to them have.
pub(crate) fn add_own_areas(
    limits: &mut List<Limit>,
    before: u64,
    index: &YearIndex,
    words: &[Word],
    items: &[Item],
    areas: &[Area],
) -> Result<u64, Memory>
    ensures sum { IfOk result (λ sum. sum ≡ before + spec.lengths (map (extents.area_extent index.now words.now items.now) areas.now)) }
    ensures limits { OnOk result (limits.new ≡ limits.old ++ spec.full_limits before (map (extents.area_extent index.now words.now items.now) areas.now)) }
{
    let mut sum = before;
    let mut rest = areas;
    while let [area, more @ ..] = rest {
        sum = add_area(limits, sum, index, words, items, area)?;
        rest = more;
    }
    Ok(sum)
}

/// Adds the limits of generated areas, and gives how many bytes the areas up to them have.
pub(crate) fn add_generated_areas(
    limits: &mut List<Limit>,
    before: u64,
    at: Origin,
    areas: &[GeneratedArea],
) -> Result<u64, Memory>
    ensures sum { IfOk result (λ sum. sum ≡ before + spec.lengths (map (extents.generated_extent at) areas.now)) }
    ensures limits { OnOk result (limits.new ≡ limits.old ++ spec.full_limits before (map (extents.generated_extent at) areas.now)) }
{
    let mut sum = before;
    let mut rest = areas;
    while let [area, more @ ..] = rest {
        let length = u64::from(area.digits());
        add_full(limits, at, sum, length)?;
        sum = plus(sum, length)?;
        rest = more;
    }
    Ok(sum)
}

ghost use Rattle.std.specs.Prelude.{◌≡◌, IfOk, IfErr, map};
ghost use Rattle.number_bytes.specs.Held.{read_scaled};
ghost use Rattle.place_table.specs.Tables.{layout_of, IsStorageOf, Gave, Failed};
ghost use Rattle.place_table.specs.Views.{HasGrown};
ghost use Rattle.program_meaning.specs.Answer.{Gives};
ghost use Rattle.program_meaning.specs.Compare as meant;
ghost use Rattle.program_meaning.specs.Layout.{Layout, cond_of};
ghost use Rattle.program_meaning.specs.Storage as storages;
ghost use Rattle.storage_places.specs.Held.{held};
ghost use Rattle.storage_places.specs.Meets.{Meets};
ghost use Rattle.tree_reading.specs.Reading.{read_place, read_operand, operand_if, read_values};
ghost use Rattle.storage_tests.specs.Seen.{seen, IsThere};

use crate::compared::{cmp_whole, operand_compared};
use crate::comparing::ordered;
use crate::seen::{bytes_of, number_at};
use crate::side::{both_numbers, kind_side, operand_side};
use cobol_syntax::{Operand, Place, Range};
use decimal_bytes::Scaled;
use place_table::{Places, View};
use std::cmp::Ordering;
use storage_places::{RunFault, Storage};

/// Whether the item of a condition-name has one of the values of the name.
pub(crate) fn name_holds(
    places: &mut Places<'_>,
    storage: &Storage,
    place: &Place,
) -> Result<bool, RunFault>
    requires storage { IsStorageOf (layout_of places.old) storage.now }
    ensures ok { IfOk result (Gave (layout_of places.old)
        (λ l. meant.condition_name l (held storage.now) (read_place place.now) (cond_of l (read_place place.now).names))) }
    ensures err { IfErr result (Failed (layout_of places.old)
        (λ l. meant.condition_name l (held storage.now) (read_place place.now) (cond_of l (read_place place.now).names))) }
    ensures grown { HasGrown places.old places.new }
{
    let named = places.named(storage, place)?;
    let ranges = places.ranges(named.name);
    let holds = has_value(places, storage, named.view, ranges)?;
    Ok(holds)
}

/// Whether an item has one of these values, from the left up to the first that it has.
fn has_value(
    places: &mut Places<'_>,
    storage: &Storage,
    view: View,
    ranges: &[Range],
) -> Result<bool, RunFault>
    requires storage { IsStorageOf (layout_of places.old) storage.now }
    requires there { IsThere storage.now view }
    ensures ok { IfOk result (Gave (layout_of places.old) (λ l. meant.has_value l (held storage.now) (seen storage.now view) (map read_values ranges.now))) }
    ensures err { IfErr result (Failed (layout_of places.old) (λ l. meant.has_value l (held storage.now) (seen storage.now view) (map read_values ranges.now))) }
    ensures grown { HasGrown places.old places.new }
{
    let mut rest = ranges;
    while let [range, others @ ..] = rest {
        if is_value(places, storage, view, range)? {
            return Ok(true);
        }
        rest = others;
    }
    Ok(false)
}

/// Whether an item has a value, or one of the values from one to another.
fn is_value(
    places: &mut Places<'_>,
    storage: &Storage,
    view: View,
    range: &Range,
) -> Result<bool, RunFault>
    requires storage { IsStorageOf (layout_of places.old) storage.now }
    requires there { IsThere storage.now view }
    ensures ok { IfOk result (Gave (layout_of places.old)
        (λ l. meant.is_value l (held storage.now) (seen storage.now view) (read_operand range.now.low) (operand_if range.now.high))) }
    ensures err { IfErr result (Failed (layout_of places.old)
        (λ l. meant.is_value l (held storage.now) (seen storage.now view) (read_operand range.now.low) (operand_if range.now.high))) }
    ensures grown { HasGrown places.old places.new }
{
    let low = compare_view(places, storage, view, &range.low)?;
    match &range.high {
        None => Ok(low.is_eq()),
        Some(high) => {
            if low.is_lt() {
                return Ok(false);
            }
            let high = compare_view(places, storage, view, high)?;
            Ok(high.is_le())
        }
    }
}

/// How an item stands to a value: two numbers by value, all else by bytes.
fn compare_view(
    places: &mut Places<'_>,
    storage: &Storage,
    view: View,
    operand: &Operand,
) -> Result<Ordering, RunFault>
    requires storage { IsStorageOf (layout_of places.old) storage.now }
    requires there { IsThere storage.now view }
    ensures ok { IfOk result (Gave (layout_of places.old) (λ l. meant.compare_view l (held storage.now) (seen storage.now view) (read_operand operand.now))) }
    ensures err { IfErr result (Failed (layout_of places.old) (λ l. meant.compare_view l (held storage.now) (seen storage.now view) (read_operand operand.now))) }
    ensures grown { HasGrown places.old places.new }
{
    let side = operand_side(places, operand)?;
    if both_numbers(kind_side(view.kind), side) {
        let order = compare_number(storage, view, operand)?;
        return Ok(order);
    }
    let other = operand_compared(places, storage, operand)?;
    Ok(cmp_whole(bytes_of(storage, view.span), &other))
}

/// How the number of an item stands to a literal, or to ZERO.
fn compare_number(storage: &Storage, view: View, operand: &Operand) -> Result<Ordering, RunFault>
    requires there { IsThere storage.now view }
    ensures ok { IfOk result (λ order. (l : Layout) → meant.view_number_cmp l (held storage.now) (seen storage.now view) (read_operand operand.now) ≡ Gives order) }
    ensures err { IfErr result (λ fault. (l : Layout) → Meets (meant.view_number_cmp l (held storage.now) (seen storage.now view) (read_operand operand.now)) fault) }
{
    let number = number_at(storage, view)?;
    let order = ordered(number, constant(operand))?;
    Ok(order)
}

/// The number of a literal; ZERO is 0.
fn constant(operand: &Operand) -> Scaled
    ensures { (l : Layout) (store : storages.Storage) → read_scaled result ≡ meant.constant_number l store (read_operand operand.now) }
{
    match operand {
        Operand::Number {
            value,
            digits: _,
            at: _,
        } => *value,
        Operand::Place(_) => Scaled {
            number: 0,
            scale: 0,
        },
        Operand::Text { bytes: _, at: _ } => Scaled {
            number: 0,
            scale: 0,
        },
        Operand::Figure { byte: _, at: _ } => Scaled {
            number: 0,
            scale: 0,
        },
    }
}

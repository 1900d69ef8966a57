ghost use Rattle.std.specs.Prelude.{◌≡◌, IfOk, IfErr};
ghost use Rattle.std.specs.declared.cmp.Ordering.{Ordering};
ghost use Rattle.exact_arithmetic.specs.Answers.{fault_of};
ghost use Rattle.number_bytes.specs.Held.{read_scaled};
ghost use Rattle.place_table.specs.Tables.{layout_of, IsStorageOf, Gave, Failed};
ghost use Rattle.place_table.specs.Views.{HasGrown};
ghost use Rattle.program_meaning.specs.Answer.{Answer, Gives, Fails};
ghost use Rattle.program_meaning.specs.Compare as meant;
ghost use Rattle.storage_places.specs.Held.{held};
ghost use Rattle.storage_places.specs.Meets.{Meets};
ghost use Rattle.tree_reading.specs.Reading.{read_expr};

use crate::compared::{bytes_cmp, expr_compared};
use crate::side::{both_numbers, expr_side};
use cobol_syntax::Expr;
use decimal_bytes::Scaled;
use exact_arithmetic::{ArithmeticFault, number_cmp};
use place_table::Places;
use std::alloc::Global;
use std::cmp::Ordering;
use storage_places::{RunFault, Storage};
use storage_sums::value;

/// How two sides of a relation stand to each other: two numbers by value, all else by bytes.
pub fn compare_items(
    alloc: Global,
    places: &mut Places<'_>,
    storage: &Storage,
    left: &Expr,
    right: &Expr,
) -> Result<Ordering, RunFault>
    requires storage { IsStorageOf (layout_of places.old) storage.now }
    ensures ok { IfOk result (Gave (layout_of places.old) (λ l. meant.compare l (held storage.now) (read_expr left.now) (read_expr right.now))) }
    ensures err { IfErr result (Failed (layout_of places.old) (λ l. meant.compare l (held storage.now) (read_expr left.now) (read_expr right.now))) }
    ensures grown { HasGrown places.old places.new }
{
    let left_side = expr_side(places, left)?;
    let right_side = expr_side(places, right)?;
    if both_numbers(left_side, right_side) {
        let order = compare_numbers(alloc, places, storage, left, right)?;
        return Ok(order);
    }
    let order = compare_bytes(places, storage, left, right)?;
    Ok(order)
}

fn compare_numbers(
    alloc: Global,
    places: &mut Places<'_>,
    storage: &Storage,
    left: &Expr,
    right: &Expr,
) -> Result<Ordering, RunFault>
    requires storage { IsStorageOf (layout_of places.old) storage.now }
    ensures ok { IfOk result (Gave (layout_of places.old) (λ l. meant.compare_numbers l (held storage.now) (read_expr left.now) (read_expr right.now))) }
    ensures err { IfErr result (Failed (layout_of places.old) (λ l. meant.compare_numbers l (held storage.now) (read_expr left.now) (read_expr right.now))) }
    ensures grown { HasGrown places.old places.new }
{
    let left = value(alloc, places, storage, left)?;
    let right = value(alloc, places, storage, right)?;
    let order = ordered(left, right)?;
    Ok(order)
}

fn compare_bytes(
    places: &mut Places<'_>,
    storage: &Storage,
    left: &Expr,
    right: &Expr,
) -> Result<Ordering, RunFault>
    requires storage { IsStorageOf (layout_of places.old) storage.now }
    ensures ok { IfOk result (Gave (layout_of places.old) (λ l. meant.compare_bytes l (held storage.now) (read_expr left.now) (read_expr right.now))) }
    ensures err { IfErr result (Failed (layout_of places.old) (λ l. meant.compare_bytes l (held storage.now) (read_expr left.now) (read_expr right.now))) }
    ensures grown { HasGrown places.old places.new }
{
    let left = expr_compared(places, storage, left)?;
    let right = expr_compared(places, storage, right)?;
    Ok(bytes_cmp(&left, &right))
}

/// How two numbers stand to each other.
pub(crate) fn ordered(left: Scaled, right: Scaled) -> Result<Ordering, RunFault>
    ensures ok { IfOk result (λ order. meant.number_cmp (read_scaled left) (read_scaled right) ≡ Gives order) }
    ensures err { IfErr result (Meets (meant.number_cmp (read_scaled left) (read_scaled right))) }
{
    match number_cmp(left, right) {
        Ok(order) => Ok(order),
        Err(fault) => Err(run_fault(fault)),
    }
}

fn run_fault(fault: ArithmeticFault) -> RunFault
    ensures { (a : Answer Ordering) → a ≡ Fails (fault_of fault) → Meets a result }
{
    match fault {
        ArithmeticFault::Wide => RunFault::Wide,
        ArithmeticFault::Zero => RunFault::Zero,
    }
}

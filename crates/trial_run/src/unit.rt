ghost use Rattle.std.specs.Prelude.{◌≡◌, IfOk, IfErr, OnOk, OnErr, map};
ghost use Rattle.file_statements.specs.Units.{IsUnitOf};
ghost use Rattle.number_bytes.specs.Held.{read_scaled};
ghost use Rattle.program_meaning.specs.Answer.{Gives};
ghost use Rattle.program_meaning.specs.Arithmetic as sums;
ghost use Rattle.program_meaning.specs.Compare as compared;
ghost use Rattle.program_meaning.specs.Moves as moves;
ghost use Rattle.storage_places.specs.Held.{held};
ghost use Rattle.tree_reading.specs.Reading.{read_operand, read_place, read_expr, read_condition, place_if};
ghost use Rattle.trial_run.specs.Halts.{FailsBy};
ghost use Rattle.trial_run.specs.Plans.{program_of};

use crate::halt::Halt;
use crate::plan::Plan;
use cobol_syntax::{Condition, Expr, Operand, Place};
use decimal_bytes::Scaled;
use file_statements::RunUnit;
use storage_moves::{move_item, show_item};
use y2k_base::{Bytes, List};

/// Moves an operand to a place.
pub(crate) fn store(
    plan: &Plan<'_>,
    unit: &mut RunUnit<'_>,
    from: &Operand,
    to: &Place,
) -> Result<(), Halt>
    requires unit { IsUnitOf plan.now.layout.now unit.old }
    ensures gives { OnOk result (moves.move (program_of plan.now).layout (held unit.old.storage) (read_operand from.now) (read_place to.now) ≡ Gives (held unit.new.storage)) }
    ensures fails { IfErr result (FailsBy (moves.move (program_of plan.now).layout (held unit.old.storage) (read_operand from.now) (read_place to.now))) }
    ensures same { OnErr result (held unit.new.storage ≡ held unit.old.storage) }
    ensures files { unit.new.store ≡ unit.old.store }
    ensures unit { IsUnitOf plan.now.layout.now unit.new }
{
    match move_item(plan.alloc, &mut unit.places, &mut unit.storage, from, to) {
        Ok(()) => Ok(()),
        Err(fault) => Err(Halt::of_run(fault)),
    }
}

/// Computes an expression into a place, and the remainder of a division into another. Answers whether a size error
/// came.
pub(crate) fn calculate(
    plan: &Plan<'_>,
    unit: &mut RunUnit<'_>,
    to: &Place,
    rounded: bool,
    expr: &Expr,
    rest: &Option<Place>,
    phrase: bool,
) -> Result<bool, Halt>
    requires unit { IsUnitOf plan.now.layout.now unit.old }
    ensures gives { IfOk result (λ error.
        sums.compute (program_of plan.now).layout (held unit.old.storage) (read_place to.now) rounded (read_expr expr.now) (place_if rest.now) phrase ≡ Gives (error, held unit.new.storage)) }
    ensures fails { IfErr result (FailsBy (sums.compute (program_of plan.now).layout (held unit.old.storage) (read_place to.now) rounded (read_expr expr.now) (place_if rest.now) phrase)) }
    ensures same { OnErr result (held unit.new.storage ≡ held unit.old.storage) }
    ensures files { unit.new.store ≡ unit.old.store }
    ensures unit { IsUnitOf plan.now.layout.now unit.new }
{
    match storage_sums::compute(
        plan.alloc,
        &mut unit.places,
        &mut unit.storage,
        to,
        rounded,
        expr,
        rest,
        phrase,
    ) {
        Ok(error) => Ok(error),
        Err(fault) => Err(Halt::of_run(fault)),
    }
}

/// Whether a condition holds.
pub(crate) fn holds(
    plan: &Plan<'_>,
    unit: &mut RunUnit<'_>,
    condition: &Condition,
) -> Result<bool, Halt>
    requires unit { IsUnitOf plan.now.layout.now unit.old }
    ensures gives { IfOk result (λ holds. compared.test (program_of plan.now).layout (held unit.old.storage) (read_condition condition.now) ≡ Gives holds) }
    ensures fails { IfErr result (FailsBy (compared.test (program_of plan.now).layout (held unit.old.storage) (read_condition condition.now))) }
    ensures storage { unit.new.storage ≡ unit.old.storage }
    ensures files { unit.new.store ≡ unit.old.store }
    ensures unit { IsUnitOf plan.now.layout.now unit.new }
{
    match storage_tests::test(plan.alloc, &mut unit.places, &unit.storage, condition) {
        Ok(holds) => Ok(holds),
        Err(fault) => Err(Halt::of_run(fault)),
    }
}

/// The number that an operand is.
pub(crate) fn number(
    plan: &Plan<'_>,
    unit: &mut RunUnit<'_>,
    operand: &Operand,
) -> Result<Scaled, Halt>
    requires unit { IsUnitOf plan.now.layout.now unit.old }
    ensures gives { IfOk result (λ x. sums.operand_value (program_of plan.now).layout (held unit.old.storage) (read_operand operand.now) ≡ Gives (read_scaled x)) }
    ensures fails { IfErr result (FailsBy (sums.operand_value (program_of plan.now).layout (held unit.old.storage) (read_operand operand.now))) }
    ensures storage { unit.new.storage ≡ unit.old.storage }
    ensures files { unit.new.store ≡ unit.old.store }
    ensures unit { IsUnitOf plan.now.layout.now unit.new }
{
    match storage_sums::operand_value(&mut unit.places, &unit.storage, operand) {
        Ok(number) => Ok(number),
        Err(fault) => Err(Halt::of_run(fault)),
    }
}

/// The parts that DISPLAY shows.
pub(crate) fn show(
    plan: &Plan<'_>,
    unit: &mut RunUnit<'_>,
    operands: &[Operand],
) -> Result<List<Bytes>, Halt>
    requires unit { IsUnitOf plan.now.layout.now unit.old }
    ensures gives { IfOk result (λ parts. moves.show_all (program_of plan.now).layout (held unit.old.storage) (map read_operand operands.now) ≡ Gives parts) }
    ensures fails { IfErr result (FailsBy (moves.show_all (program_of plan.now).layout (held unit.old.storage) (map read_operand operands.now))) }
    ensures storage { unit.new.storage ≡ unit.old.storage }
    ensures files { unit.new.store ≡ unit.old.store }
    ensures unit { IsUnitOf plan.now.layout.now unit.new }
{
    let mut parts = List::new(plan.alloc);
    let mut rest = operands;
    while let [operand, more @ ..] = rest {
        match show_one(plan, unit, operand) {
            Ok(part) => parts.push(part)?,
            Err(halt) => return Err(halt),
        }
        rest = more;
    }
    Ok(parts)
}

/// The part that DISPLAY shows of an operand.
fn show_one(plan: &Plan<'_>, unit: &mut RunUnit<'_>, operand: &Operand) -> Result<Bytes, Halt>
    requires unit { IsUnitOf plan.now.layout.now unit.old }
    ensures gives { IfOk result (λ part. moves.show (program_of plan.now).layout (held unit.old.storage) (read_operand operand.now) ≡ Gives part) }
    ensures fails { IfErr result (FailsBy (moves.show (program_of plan.now).layout (held unit.old.storage) (read_operand operand.now))) }
    ensures storage { unit.new.storage ≡ unit.old.storage }
    ensures files { unit.new.store ≡ unit.old.store }
    ensures unit { IsUnitOf plan.now.layout.now unit.new }
{
    match show_item(plan.alloc, &mut unit.places, &unit.storage, operand) {
        Ok(part) => Ok(part),
        Err(fault) => Err(Halt::of_run(fault)),
    }
}

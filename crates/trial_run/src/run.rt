ghost use Rattle.std.specs.Prelude.{◌≡◌, IfOk, IfErr, OnOk, OnErr};
ghost use Rattle.program_meaning.specs.Answer.{Gives};
ghost use Rattle.program_meaning.specs.Arithmetic as sums;
ghost use Rattle.program_meaning.specs.Compare as compared;
ghost use Rattle.program_meaning.specs.Moves as moves;
ghost use Rattle.program_meaning.specs.Step.{with_storage};
ghost use Rattle.number_bytes.specs.Held.{read_scaled};
ghost use Rattle.tree_reading.specs.Reading.{read_operand, read_place, read_expr, read_condition, place_if};
ghost use Rattle.trial_run.specs.Halts.{FailsBy};
ghost use Rattle.trial_run.specs.Plans.{program_of};
ghost use Rattle.trial_run.specs.Runs.{IsRunOf, world_of, storage_of};

use crate::end::FaultKind;
use crate::halt::Halt;
use crate::job::Shown;
use crate::plan::Plan;
use crate::unit;
use cobol_syntax::{Condition, Expr, Operand, Place, StatementId};
use decimal_bytes::Scaled;
use file_statements::RunUnit;
use run_control::Position;
use y2k_base::List;

/// A running program: where it is, what it works on, and what was shown.
pub(crate) struct Run<'a> {
    pub(crate) position: Position<'a>,
    pub(crate) unit: RunUnit<'a>,
    pub(crate) shown: List<Shown>,
}

impl Drop for Run<'_> {
    fn drop(self) {
        let Run {
            position: _position,
            unit: _unit,
            shown: _shown,
        } = self;
    }
}

/// Whether a run goes on after a statement, or a STOP RUN has ended it.
#[derive(Clone, Copy)]
pub(crate) enum Moved {
    On,
    Stopped,
}

/// What a step has come to.
#[derive(Clone, Copy)]
pub(crate) enum Stepped {
    On,
    Stopped,
    Failed { kind: FaultKind, at: StatementId },
}

impl<'a> Run<'a> {
    /// Moves an operand to a place.
    pub(crate) fn store(&mut self, plan: &Plan<'a>, from: &Operand, to: &Place) -> Result<(), Halt>
        requires run { IsRunOf plan.now self.old }
        ensures gives { OnOk result (moves.move (program_of plan.now).layout (storage_of self.old) (read_operand from.now) (read_place to.now) ≡ Gives (storage_of self.new)) }
        ensures fails { IfErr result (FailsBy (moves.move (program_of plan.now).layout (storage_of self.old) (read_operand from.now) (read_place to.now))) }
        ensures world { OnOk result (world_of self.new ≡ with_storage (world_of self.old) (storage_of self.new)) }
        ensures same { OnErr result (world_of self.new ≡ world_of self.old) }
        ensures position { self.new.position ≡ self.old.position }
        ensures run { IsRunOf plan.now self.new }
    {
        unit::store(plan, &mut self.unit, from, to)?;
        Ok(())
    }

    /// Computes an expression into a place. Answers whether a size error came.
    pub(crate) fn calculate(
        &mut self,
        plan: &Plan<'a>,
        to: &Place,
        rounded: bool,
        expr: &Expr,
        rest: &Option<Place>,
        phrase: bool,
    ) -> Result<bool, Halt>
        requires run { IsRunOf plan.now self.old }
        ensures gives { IfOk result (λ error. sums.compute (program_of plan.now).layout (storage_of self.old) (read_place to.now) rounded (read_expr expr.now) (place_if rest.now) phrase ≡ Gives (error, storage_of self.new)) }
        ensures fails { IfErr result (FailsBy (sums.compute (program_of plan.now).layout (storage_of self.old) (read_place to.now) rounded (read_expr expr.now) (place_if rest.now) phrase)) }
        ensures world { OnOk result (world_of self.new ≡ with_storage (world_of self.old) (storage_of self.new)) }
        ensures same { OnErr result (world_of self.new ≡ world_of self.old) }
        ensures position { self.new.position ≡ self.old.position }
        ensures run { IsRunOf plan.now self.new }
    {
        let error = unit::calculate(plan, &mut self.unit, to, rounded, expr, rest, phrase)?;
        Ok(error)
    }

    /// Whether a condition holds.
    pub(crate) fn holds(&mut self, plan: &Plan<'a>, condition: &Condition) -> Result<bool, Halt>
        requires run { IsRunOf plan.now self.old }
        ensures gives { IfOk result (λ holds. compared.test (program_of plan.now).layout (storage_of self.old) (read_condition condition.now) ≡ Gives holds) }
        ensures fails { IfErr result (FailsBy (compared.test (program_of plan.now).layout (storage_of self.old) (read_condition condition.now))) }
        ensures same { world_of self.new ≡ world_of self.old }
        ensures position { self.new.position ≡ self.old.position }
        ensures run { IsRunOf plan.now self.new }
    {
        let holds = unit::holds(plan, &mut self.unit, condition)?;
        Ok(holds)
    }

    /// The number that an operand is.
    pub(crate) fn number(&mut self, plan: &Plan<'a>, operand: &Operand) -> Result<Scaled, Halt>
        requires run { IsRunOf plan.now self.old }
        ensures gives { IfOk result (λ x. sums.operand_value (program_of plan.now).layout (storage_of self.old) (read_operand operand.now) ≡ Gives (read_scaled x)) }
        ensures fails { IfErr result (FailsBy (sums.operand_value (program_of plan.now).layout (storage_of self.old) (read_operand operand.now))) }
        ensures same { world_of self.new ≡ world_of self.old }
        ensures position { self.new.position ≡ self.old.position }
        ensures run { IsRunOf plan.now self.new }
    {
        let number = unit::number(plan, &mut self.unit, operand)?;
        Ok(number)
    }
}

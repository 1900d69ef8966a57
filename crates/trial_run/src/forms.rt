ghost use Rattle.std.specs.Prelude.{◌≡◌, IfErr, OnOk, cond, map};
ghost use Rattle.program_meaning.specs.Tree as tree;
ghost use Rattle.tree_reading.specs.Reading.{read_operand, read_place, read_expr, read_condition, read_register, read_statements, read_id, place_if};
ghost use Rattle.trial_run.specs.Branches.{branch_if};
ghost use Rattle.trial_run.specs.Plans.{IsPlan};
ghost use Rattle.trial_run.specs.Runs.{IsRunOf, Went, Fell, doing};

use crate::branches::{has_size, list_by_size};
use crate::halt::Halt;
use crate::job::Shown;
use crate::plan::Plan;
use crate::run::Run;
use crate::unit;
use cobol_syntax::{Branch, Condition, Expr, Operand, Place, Register, Statement, StatementId};
use y2k_base::List;

impl<'a> Run<'a> {
    /// MOVE.
    pub(crate) fn do_move(
        &mut self,
        plan: &Plan<'a>,
        id: StatementId,
        from: &Operand,
        to: &Place,
    ) -> Result<(), Halt>
        requires run { IsRunOf plan.now self.old }
        ensures ok { OnOk result (Went plan.now self.old self.new (doing (read_id id) (tree.Move (read_operand from.now) (read_place to.now)))) }
        ensures err { IfErr result (Fell plan.now self.old self.new (read_id id) (doing (read_id id) (tree.Move (read_operand from.now) (read_place to.now)))) }
        ensures run { IsRunOf plan.now self.new }
    {
        self.store(plan, from, to)?;
        Ok(())
    }

    /// ACCEPT, which is a MOVE of what the system gives.
    pub(crate) fn do_accept(
        &mut self,
        plan: &Plan<'a>,
        id: StatementId,
        to: &Place,
        from: Register,
    ) -> Result<(), Halt>
        requires run { IsRunOf plan.now self.old }
        ensures ok { OnOk result (Went plan.now self.old self.new (doing (read_id id) (tree.Accept (read_place to.now) (read_register from)))) }
        ensures err { IfErr result (Fell plan.now self.old self.new (read_id id) (doing (read_id id) (tree.Accept (read_place to.now) (read_register from)))) }
        ensures run { IsRunOf plan.now self.new }
    {
        let operand = plan.day.register(from);
        self.store(plan, &operand, to)?;
        Ok(())
    }

    /// COMPUTE, which is all arithmetic.
    pub(crate) fn do_compute(
        &mut self,
        plan: &Plan<'a>,
        id: StatementId,
        to: &Place,
        rounded: bool,
        value: &Expr,
        rest: &Option<Place>,
        size: &'a Option<Branch>,
    ) -> Result<(), Halt>
        requires run { IsRunOf plan.now self.old }
        ensures ok { OnOk result (Went plan.now self.old self.new (doing (read_id id) (tree.Compute (read_place to.now) rounded (read_expr value.now) (place_if rest.now) (branch_if size.now)))) }
        ensures err { IfErr result (Fell plan.now self.old self.new (read_id id) (doing (read_id id) (tree.Compute (read_place to.now) rounded (read_expr value.now) (place_if rest.now) (branch_if size.now)))) }
        ensures run { IsRunOf plan.now self.new }
    {
        let error = self.calculate(plan, to, rounded, value, rest, has_size(size))?;
        self.position.begin(list_by_size(size, error))?;
        Ok(())
    }

    /// IF.
    pub(crate) fn do_if(
        &mut self,
        plan: &Plan<'a>,
        id: StatementId,
        test: &Condition,
        body: &'a List<Statement>,
        other: &'a List<Statement>,
    ) -> Result<(), Halt>
        requires run { IsRunOf plan.now self.old }
        ensures ok { OnOk result (Went plan.now self.old self.new (doing (read_id id) (tree.If (read_condition test.now) (read_statements body.now) (read_statements other.now)))) }
        ensures err { IfErr result (Fell plan.now self.old self.new (read_id id) (doing (read_id id) (tree.If (read_condition test.now) (read_statements body.now) (read_statements other.now)))) }
        ensures run { IsRunOf plan.now self.new }
    {
        let holds = self.holds(plan, test)?;
        self.position.begin(list_by_test(holds, body, other))?;
        Ok(())
    }

    /// NEXT SENTENCE.
    pub(crate) fn do_next_sentence(&mut self, plan: &Plan<'a>, id: StatementId) -> Result<(), Halt>
        requires run { IsRunOf plan.now self.old }
        ensures ok { OnOk result (Went plan.now self.old self.new (doing (read_id id) tree.NextSentence)) }
        ensures err { IfErr result (Fell plan.now self.old self.new (read_id id) (doing (read_id id) tree.NextSentence)) }
        ensures run { IsRunOf plan.now self.new }
    {
        self.position.next_sentence()?;
        Ok(())
    }

    /// GO TO.
    pub(crate) fn do_go_to(
        &mut self,
        plan: &Plan<'a>,
        id: StatementId,
        name: &[u8],
    ) -> Result<(), Halt>
        requires plan { IsPlan plan.now }
        requires run { IsRunOf plan.now self.old }
        ensures ok { OnOk result (Went plan.now self.old self.new (doing (read_id id) (tree.GoTo name.now))) }
        ensures err { IfErr result (Fell plan.now self.old self.new (read_id id) (doing (read_id id) (tree.GoTo name.now))) }
        ensures run { IsRunOf plan.now self.new }
    {
        self.position.go_to(&plan.labels, name)?;
        Ok(())
    }

    /// DISPLAY.
    pub(crate) fn do_show(
        &mut self,
        plan: &Plan<'a>,
        id: StatementId,
        operands: &[Operand],
    ) -> Result<(), Halt>
        requires run { IsRunOf plan.now self.old }
        ensures ok { OnOk result (Went plan.now self.old self.new (doing (read_id id) (tree.Show (map read_operand operands.now)))) }
        ensures err { IfErr result (Fell plan.now self.old self.new (read_id id) (doing (read_id id) (tree.Show (map read_operand operands.now)))) }
        ensures run { IsRunOf plan.now self.new }
    {
        let parts = unit::show(plan, &mut self.unit, operands)?;
        self.shown.push(Shown { at: id, parts })?;
        Ok(())
    }
}

/// The statements of an IF that run.
fn list_by_test<'a>(
    holds: bool,
    body: &'a List<Statement>,
    other: &'a List<Statement>,
) -> &'a [Statement]
    ensures { read_statements result.now ≡ cond holds (read_statements body.now) (read_statements other.now) }
{
    if holds { body.items() } else { other.items() }
}

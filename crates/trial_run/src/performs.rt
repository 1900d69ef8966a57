ghost use Rattle.std.specs.Prelude.{◌≡◌, IfOk, IfErr, OnOk, None};
ghost use Rattle.program_meaning.specs.State as state;
ghost use Rattle.program_meaning.specs.Step as meant;
ghost use Rattle.program_meaning.specs.Step.{act_task};
ghost use Rattle.program_meaning.specs.Tree as tree;
ghost use Rattle.run_control.specs.Held.{read_body, read_loop, read_stage};
ghost use Rattle.tree_reading.specs.Reading.{read_operand, read_place, read_expr, read_id, read_control, read_vary};
ghost use Rattle.trial_run.specs.Plans.{IsPlan};
ghost use Rattle.trial_run.specs.Runs.{IsRunOf, Went, Fell};

use crate::halt::Halt;
use crate::plan::Plan;
use crate::run::Run;
use cobol_syntax::{Control, Expr, Operand, Place, StatementId, Vary};
use run_control::{Body, Loop, Stage};
use sqlite_items::Boxed;
use std::alloc::Global;
use y2k_base::{Memory, Twin};

impl<'a> Run<'a> {
    /// PERFORM.
    pub(crate) fn do_perform(
        &mut self,
        plan: &Plan<'a>,
        id: StatementId,
        what: Body<'a>,
        control: &'a Control,
    ) -> Result<(), Halt>
        requires plan { IsPlan plan.now }
        requires run { IsRunOf plan.now self.old }
        ensures ok { OnOk result (Went plan.now self.old self.new (λ program day. meant.perform program day (read_id id) (read_body what.entry) (read_control control.now))) }
        ensures err { IfErr result (Fell plan.now self.old self.new (read_id id) (λ program day. meant.perform program day (read_id id) (read_body what.entry) (read_control control.now))) }
        ensures run { IsRunOf plan.now self.new }
    {
        match control {
            Control::Once => {
                self.position.turn(&plan.labels, what)?;
                Ok(())
            }
            Control::Times(count) => {
                self.perform_times(plan, id, what, count)?;
                Ok(())
            }
            Control::Until { after, test, vary } => {
                let perform = Loop::of(id, what, *after, test, vary);
                self.position.perform_until(&plan.labels, perform)?;
                Ok(())
            }
        }
    }

    /// PERFORM with TIMES.
    fn perform_times(
        &mut self,
        plan: &Plan<'a>,
        id: StatementId,
        what: Body<'a>,
        count: &Operand,
    ) -> Result<(), Halt>
        requires plan { IsPlan plan.now }
        requires run { IsRunOf plan.now self.old }
        ensures ok { OnOk result (Went plan.now self.old self.new (λ program day. meant.perform program day (read_id id) (read_body what.entry) (tree.Times (read_operand count.now)))) }
        ensures err { IfErr result (Fell plan.now self.old self.new (read_id id) (λ program day. meant.perform program day (read_id id) (read_body what.entry) (tree.Times (read_operand count.now)))) }
        ensures run { IsRunOf plan.now self.new }
    {
        let turns = self.number(plan, count)?;
        self.position
            .perform_times(&plan.labels, id, what, turns.number)?;
        Ok(())
    }

    /// A further turn under TIMES.
    pub(crate) fn do_turn(
        &mut self,
        plan: &Plan<'a>,
        id: StatementId,
        what: Body<'a>,
        left: u128,
    ) -> Result<(), Halt>
        requires plan { IsPlan plan.now }
        requires run { IsRunOf plan.now self.old }
        ensures ok { OnOk result (Went plan.now self.old self.new (λ program day. act_task program day (state.Turn (read_id id) (read_body what.entry) left))) }
        ensures err { IfErr result (Fell plan.now self.old self.new (read_id id) (λ program day. act_task program day (state.Turn (read_id id) (read_body what.entry) left))) }
        ensures run { IsRunOf plan.now self.new }
    {
        self.position.turn_again(&plan.labels, id, what, left)?;
        Ok(())
    }

    /// What a loop does next.
    pub(crate) fn do_stage(
        &mut self,
        plan: &Plan<'a>,
        stage: Stage<'a>,
        perform: Loop<'a>,
    ) -> Result<(), Halt>
        requires plan { IsPlan plan.now }
        requires run { IsRunOf plan.now self.old }
        ensures ok { OnOk result (Went plan.now self.old self.new (λ program day. act_task program day (read_stage stage.entry perform.entry))) }
        ensures err { IfErr result (Fell plan.now self.old self.new (read_id perform.entry.id) (λ program day. act_task program day (read_stage stage.entry perform.entry))) }
        ensures run { IsRunOf plan.now self.new }
    {
        match stage {
            Stage::Set(vary) => {
                self.set(plan, perform, vary)?;
                Ok(())
            }
            Stage::Advance(vary) => {
                self.advance(plan, perform, vary)?;
                Ok(())
            }
            Stage::Test => {
                self.test(plan, perform)?;
                Ok(())
            }
        }
    }

    /// The setting of VARYING, which is a MOVE.
    fn set(&mut self, plan: &Plan<'a>, perform: Loop<'a>, vary: &Vary) -> Result<(), Halt>
        requires plan { IsPlan plan.now }
        requires run { IsRunOf plan.now self.old }
        ensures ok { OnOk result (Went plan.now self.old self.new (λ program day. act_task program day (state.Set (read_loop perform.entry) (read_vary vary.now)))) }
        ensures err { IfErr result (Fell plan.now self.old self.new (read_id perform.entry.id) (λ program day. act_task program day (state.Set (read_loop perform.entry) (read_vary vary.now)))) }
        ensures run { IsRunOf plan.now self.new }
    {
        self.store(plan, &vary.from, &vary.item)?;
        self.position.after_setting(&plan.labels, perform)?;
        Ok(())
    }

    /// The stepping of VARYING, which is an ADD to its item.
    fn advance(&mut self, plan: &Plan<'a>, perform: Loop<'a>, vary: &Vary) -> Result<(), Halt>
        requires plan { IsPlan plan.now }
        requires run { IsRunOf plan.now self.old }
        ensures ok { OnOk result (Went plan.now self.old self.new (λ program day. act_task program day (state.Advance (read_loop perform.entry) (read_vary vary.now)))) }
        ensures err { IfErr result (Fell plan.now self.old self.new (read_id perform.entry.id) (λ program day. act_task program day (state.Advance (read_loop perform.entry) (read_vary vary.now)))) }
        ensures run { IsRunOf plan.now self.new }
    {
        let sum = sum_of(plan.alloc, &vary.by, &vary.item)?;
        self.calculate(plan, &vary.item, false, &sum, &None, false)?;
        self.position.after_stepping(&plan.labels, perform)?;
        Ok(())
    }

    /// The test of UNTIL.
    fn test(&mut self, plan: &Plan<'a>, perform: Loop<'a>) -> Result<(), Halt>
        requires plan { IsPlan plan.now }
        requires run { IsRunOf plan.now self.old }
        ensures ok { OnOk result (Went plan.now self.old self.new (λ program day. act_task program day (state.Test (read_loop perform.entry)))) }
        ensures err { IfErr result (Fell plan.now self.old self.new (read_id perform.entry.id) (λ program day. act_task program day (state.Test (read_loop perform.entry)))) }
        ensures run { IsRunOf plan.now self.new }
    {
        let holds = self.holds(plan, perform.test)?;
        self.position.after_test(&plan.labels, perform, holds)?;
        Ok(())
    }
}

/// An operand and an item, added.
fn sum_of(alloc: Global, by: &Operand, item: &Place) -> Result<Expr, Memory>
    ensures { IfOk result (λ sum. read_expr sum ≡ tree.Add (tree.One (read_operand by.now)) (tree.One (tree.At (read_place item.now)))) }
{
    let left = Boxed::new(alloc, Expr::One(by.twin(alloc)?))?;
    let right = Boxed::new(alloc, Expr::One(Operand::Place(item.twin(alloc)?)))?;
    Ok(Expr::Add(left, right))
}

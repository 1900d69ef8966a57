ghost use Rattle.std.specs.Prelude.{IfOk, IfErr};
ghost use Rattle.program_meaning.specs.State as state;
ghost use Rattle.program_meaning.specs.Step.{act_task, step};
ghost use Rattle.run_control.specs.Held.{read_task, read_body, read_stage};
ghost use Rattle.tree_reading.specs.Reading.{read_id, read_form, read_statement};
ghost use Rattle.trial_run.specs.Plans.{IsPlan, program_of, day_of};
ghost use Rattle.trial_run.specs.Runs.{IsRunOf, Fell, HasMoved, HasStepped, led, doing, state_of};

use crate::halt::Halt;
use crate::plan::Plan;
use crate::run::{Moved, Run, Stepped};
use cobol_syntax::{Form, Statement, StatementId};
use run_control::{Body, Loop, Stage, Task};
use y2k_base::Memory;

impl<'a> Run<'a> {
    /// One simple statement, one whole condition, or the entry of a PERFORM.
    fn do_form(&mut self, plan: &Plan<'a>, id: StatementId, form: &'a Form) -> Result<Moved, Halt>
        requires plan { IsPlan plan.now }
        requires run { IsRunOf plan.now self.old }
        ensures ok { IfOk result (HasMoved (led plan.now self.old (doing (read_id id) (read_form form.now))) self.new) }
        ensures err { IfErr result (Fell plan.now self.old self.new (read_id id) (doing (read_id id) (read_form form.now))) }
        ensures run { IsRunOf plan.now self.new }
    {
        match form {
            Form::Move { from, to } => {
                self.do_move(plan, id, from, to)?;
                Ok(Moved::On)
            }
            Form::Compute {
                to,
                rounded,
                value,
                rest,
                size,
            } => {
                self.do_compute(plan, id, to, *rounded, value, rest, size)?;
                Ok(Moved::On)
            }
            Form::If { test, yes, other } => {
                self.do_if(plan, id, test, yes, other)?;
                Ok(Moved::On)
            }
            Form::NextSentence => {
                self.do_next_sentence(plan, id)?;
                Ok(Moved::On)
            }
            Form::GoTo { name } => {
                self.do_go_to(plan, id, name.items())?;
                Ok(Moved::On)
            }
            Form::Stop => Ok(Moved::Stopped),
            Form::Nothing => Ok(Moved::On),
            Form::Perform {
                range,
                body,
                control,
            } => {
                self.do_perform(plan, id, Body::of(range, body), control)?;
                Ok(Moved::On)
            }
            Form::Open { mode, file } => {
                self.do_open(plan, id, *mode, file.items())?;
                Ok(Moved::On)
            }
            Form::Close { file } => {
                self.do_close(plan, id, file.items())?;
                Ok(Moved::On)
            }
            Form::Read { file, into, end } => {
                self.do_read(plan, id, file.items(), into, end)?;
                Ok(Moved::On)
            }
            Form::Write {
                name,
                from,
                advance: _,
            } => {
                self.do_write(plan, id, name, from)?;
                Ok(Moved::On)
            }
            Form::Accept { to, from } => {
                self.do_accept(plan, id, to, *from)?;
                Ok(Moved::On)
            }
            Form::Show { operands } => {
                self.do_show(plan, id, operands.items())?;
                Ok(Moved::On)
            }
        }
    }

    /// A statement, at whose id its fault is met.
    fn act_statement(
        &mut self,
        plan: &Plan<'a>,
        statement: &'a Statement,
    ) -> Result<Stepped, Memory>
        requires plan { IsPlan plan.now }
        requires run { IsRunOf plan.now self.old }
        ensures step { IfOk result (HasStepped (led plan.now self.old (λ program day. act_task program day (state.Do (read_statement statement.now)))) self.new) }
        ensures run { IsRunOf plan.now self.new }
    {
        match self.do_form(plan, statement.id, &statement.form) {
            Ok(Moved::On) => Ok(Stepped::On),
            Ok(Moved::Stopped) => Ok(Stepped::Stopped),
            Err(Halt::Fault(kind)) => Ok(Stepped::Failed {
                kind,
                at: statement.id,
            }),
            Err(Halt::Memory) => Err(Memory),
        }
    }

    /// A further turn under TIMES.
    fn act_turn(
        &mut self,
        plan: &Plan<'a>,
        id: StatementId,
        what: Body<'a>,
        left: u128,
    ) -> Result<Stepped, Memory>
        requires plan { IsPlan plan.now }
        requires run { IsRunOf plan.now self.old }
        ensures step { IfOk result (HasStepped (led plan.now self.old (λ program day. act_task program day (state.Turn (read_id id) (read_body what.entry) left))) self.new) }
        ensures run { IsRunOf plan.now self.new }
    {
        match self.do_turn(plan, id, what, left) {
            Ok(()) => Ok(Stepped::On),
            Err(Halt::Fault(kind)) => Ok(Stepped::Failed { kind, at: id }),
            Err(Halt::Memory) => Err(Memory),
        }
    }

    /// What a loop does next.
    fn act_stage(
        &mut self,
        plan: &Plan<'a>,
        stage: Stage<'a>,
        perform: Loop<'a>,
    ) -> Result<Stepped, Memory>
        requires plan { IsPlan plan.now }
        requires run { IsRunOf plan.now self.old }
        ensures step { IfOk result (HasStepped (led plan.now self.old (λ program day. act_task program day (read_stage stage.entry perform.entry))) self.new) }
        ensures run { IsRunOf plan.now self.new }
    {
        match self.do_stage(plan, stage, perform) {
            Ok(()) => Ok(Stepped::On),
            Err(Halt::Fault(kind)) => Ok(Stepped::Failed {
                kind,
                at: perform.id,
            }),
            Err(Halt::Memory) => Err(Memory),
        }
    }

    /// What takes the step.
    fn act(&mut self, plan: &Plan<'a>, task: Task<'a>) -> Result<Stepped, Memory>
        requires plan { IsPlan plan.now }
        requires run { IsRunOf plan.now self.old }
        ensures step { IfOk result (HasStepped (led plan.now self.old (λ program day. act_task program day (read_task task.entry))) self.new) }
        ensures run { IsRunOf plan.now self.new }
    {
        match task {
            Task::Do(statement) => self.act_statement(plan, statement),
            Task::Turn { id, what, left } => self.act_turn(plan, id, what, left),
            Task::Loop(stage, perform) => self.act_stage(plan, stage, perform),
        }
    }

    /// One step.
    pub(crate) fn step(&mut self, plan: &Plan<'a>) -> Result<Stepped, Memory>
        requires plan { IsPlan plan.now }
        requires run { IsRunOf plan.now self.old }
        ensures step { IfOk result (HasStepped (step (program_of plan.now) (day_of plan.now) (state_of self.old)) self.new) }
        ensures run { IsRunOf plan.now self.new }
    {
        match self.position.next_task()? {
            None => Ok(Stepped::Stopped),
            Some(task) => self.act(plan, task),
        }
    }
}

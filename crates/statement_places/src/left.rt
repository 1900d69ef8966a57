ghost use Rattle.std.specs.Prelude.{◌≡◌, ◌≤◌, ◌+◌, ◌*◌, ◌++◌, [], length, OnOk, IfOk};
ghost use Rattle.statement_places.specs.Left.{left, work};
ghost use Rattle.statement_places.specs.Statements as spec;
ghost use Rattle.statement_places.specs.Parts as parts;

use cobol_syntax::{Branch, Form, Statement};
use std::alloc::Global;
use y2k_base::Memory;

/// The statements that are left to look at: lists of them, the next one last. In a chain of IF, each in the ELSE of the
/// one before, there are never more than a few.
pub(crate) struct Left<'a> {
    pub(crate) lists: Vec<&'a [Statement]>,
}

impl Drop for Left<'_> {
    fn drop(self) {
        let Left { lists: _lists } = self;
    }
}

impl<'a> Left<'a> {
    /// Nothing. It takes no memory.
    pub(crate) fn none(alloc: Global) -> Left<'a>
        ensures left { left result ≡ [] }
        ensures parts { parts.left result ≡ [] }
    {
        Left {
            lists: Vec::new(alloc),
        }
    }

    /// Puts statements in front.
    pub(crate) fn push(&mut self, list: &'a [Statement]) -> Result<(), Memory>
        ensures left { OnOk result (left self.new ≡ spec.of_statements list.now ++ left self.old) }
        ensures parts { OnOk result (parts.left self.new ≡ parts.of_statements list.now ++ parts.left self.old) }
        ensures work { OnOk result (work self.new ≤ work self.old + (1 + 3 * length (spec.of_statements list.now))) }
    {
        if list.is_empty() {
            return Ok(());
        }
        self.lists.push(list)?;
        Ok(())
    }

    /// Puts two lists in front.
    fn push_two(&mut self, first: &'a [Statement], second: &'a [Statement]) -> Result<(), Memory>
        ensures left { OnOk result (left self.new ≡ (spec.of_statements first.now ++ spec.of_statements second.now) ++ left self.old) }
        ensures parts { OnOk result (parts.left self.new ≡ (parts.of_statements first.now ++ parts.of_statements second.now) ++ parts.left self.old) }
        ensures work { OnOk result (work self.new ≤ work self.old + (2 + 3 * length (spec.of_statements first.now ++ spec.of_statements second.now))) }
    {
        self.push(second)?;
        self.push(first)?;
        Ok(())
    }

    /// Puts the statements of a phrase in front, if there is one.
    fn push_branch(&mut self, branch: &'a Option<Branch>) -> Result<(), Memory>
        ensures left { OnOk result (left self.new ≡ spec.branch_if branch.now ++ left self.old) }
        ensures parts { OnOk result (parts.left self.new ≡ parts.branch_if branch.now ++ parts.left self.old) }
        ensures work { OnOk result (work self.new ≤ work self.old + (2 + 3 * length (spec.branch_if branch.now))) }
    {
        match branch {
            None => Ok(()),
            Some(branch) => {
                self.push_two(branch.yes.items(), branch.no.items())?;
                Ok(())
            }
        }
    }

    /// Puts the statements within a statement in front.
    pub(crate) fn push_within(&mut self, form: &'a Form) -> Result<(), Memory>
        ensures left { OnOk result (left self.new ≡ spec.within form.now ++ left self.old) }
        ensures parts { OnOk result (parts.left self.new ≡ (parts.given form.now).within ++ parts.left self.old) }
        ensures work { OnOk result (work self.new ≤ work self.old + (2 + 3 * length (spec.within form.now))) }
    {
        match form {
            Form::If { yes, other, .. } => {
                self.push_two(yes.items(), other.items())?;
                Ok(())
            }
            Form::Perform { body, .. } => {
                self.push(body.items())?;
                Ok(())
            }
            Form::Compute { size, .. } => {
                self.push_branch(size)?;
                Ok(())
            }
            Form::Read { end, .. } => {
                self.push_branch(end)?;
                Ok(())
            }
            Form::Move { .. } => Ok(()),
            Form::NextSentence => Ok(()),
            Form::GoTo { .. } => Ok(()),
            Form::Stop => Ok(()),
            Form::Nothing => Ok(()),
            Form::Open { .. } => Ok(()),
            Form::Close { .. } => Ok(()),
            Form::Write { .. } => Ok(()),
            Form::Accept { .. } => Ok(()),
            Form::Show { .. } => Ok(()),
        }
    }

    /// Where the first statement with this number begins. What stands before it is no longer left.
    pub(crate) fn find(&mut self, number: u32) -> Result<Option<u32>, Memory>
        ensures { IfOk result (λ at. at ≡ spec.place_in number (left self.old)) }
    {
        while let Some(list) = self.lists.pop() {
            match list {
                [] => {}
                [statement, more @ ..] => {
                    if statement.id.number == number {
                        return Ok(Some(statement.at));
                    }
                    self.push(more)?;
                    self.push_within(&statement.form)?;
                }
            }
        }
        Ok(None)
    }
}

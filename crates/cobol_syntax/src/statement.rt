ghost use Rattle.std.specs.Prelude.{◌≡◌, ◌≢◌, ◌∷◌, ◌++◌, [], ℕ, List, Option, IfOk, IfErr, OnErr, IfSome};
ghost use Rattle.cobol_syntax.specs.declared.place.Place.{Place};
ghost use Rattle.cobol_syntax.specs.declared.expr.Operand.{Operand};
ghost use Rattle.cobol_syntax.specs.declared.cond.Condition.{Condition};
ghost use Rattle.cobol_syntax.specs.declared.statement.NamePair.{NamePair};
ghost use Rattle.cobol_syntax.specs.declared.statement.Control.{Control};
ghost use Rattle.cobol_syntax.specs.declared.statement.Branch.{Branch, out-Branch};
ghost use Rattle.cobol_syntax.specs.declared.statement.Form.TheVariants as form;
ghost use Rattle.cobol_syntax.specs.declared.statement.Statement.{Statement, out-Statement};
ghost use Rattle.cobol_syntax.specs.Chains.{linked, chain};

use crate::cond::Condition;
use crate::expr::{Expr, Operand};
use crate::place::Place;
use std::alloc::Global;
use y2k_base::{Bytes, List, Memory, Twin};

/// A statement of a portfolio: its program, and its number there, both from 0. Reading numbers statements in
/// text order. A statement that is rewritten keeps the id of the one that it stands for.
#[derive(Clone, Copy, Debug, PartialEq, Eq)]
pub struct StatementId {
    pub program: u32,
    pub number: u32,
}

/// A statement. `at` is the position of its first word in the program's words, and `end` is one past its
/// last.
#[cycle(statement)]
pub struct Statement {
    pub id: StatementId,
    pub at: u32,
    pub end: u32,
    pub form: Form,
}

/// What a statement does. `Nothing` is CONTINUE or EXIT.
#[cycle(statement)]
pub enum Form {
    Move {
        from: Operand,
        to: Place,
    },
    Compute {
        to: Place,
        rounded: bool,
        value: Expr,
        /// The item of REMAINDER.
        rest: Option<Place>,
        size: Option<Branch>,
    },
    If {
        test: Condition,
        yes: List<Statement>,
        other: List<Statement>,
    },
    NextSentence,
    GoTo {
        name: Bytes,
    },
    Stop,
    Nothing,
    Perform {
        range: Option<NamePair>,
        body: List<Statement>,
        control: Control,
    },
    Open {
        mode: Mode,
        file: Bytes,
    },
    Close {
        file: Bytes,
    },
    Read {
        file: Bytes,
        into: Option<Place>,
        end: Option<Branch>,
    },
    Write {
        name: Bytes,
        from: Option<Operand>,
        /// The operand of ADVANCING.
        advance: Option<Operand>,
    },
    Accept {
        to: Place,
        from: Register,
    },
    Show {
        operands: List<Operand>,
    },
}

/// The two lists of a condition that a statement may end in: `yes` is that of ON SIZE ERROR or AT END, and
/// `no` that of NOT ON SIZE ERROR or NOT AT END.
#[cycle(statement)]
pub struct Branch {
    pub yes: List<Statement>,
    pub no: List<Statement>,
}

/// The first and the last paragraph or section that PERFORM runs through. They are equal without THRU.
pub struct NamePair {
    pub first: Bytes,
    pub last: Bytes,
}

/// How often PERFORM runs. `after` is true for WITH TEST AFTER.
pub enum Control {
    Once,
    Times(Operand),
    Until {
        after: bool,
        test: Condition,
        vary: Option<Vary>,
    },
}

/// VARYING an item from a value by a step.
pub struct Vary {
    pub item: Place,
    pub from: Operand,
    pub by: Operand,
}

/// How a file is opened.
#[derive(Clone, Copy, Debug, PartialEq, Eq)]
pub enum Mode {
    Input,
    Output,
    Extend,
}

/// What ACCEPT takes from the system.
#[derive(Clone, Copy, Debug, PartialEq, Eq)]
pub enum Register {
    Date,
    Day,
    Time,
}

impl Statement {
    /// What the statement does.
    pub fn into_form(self) -> Form
        ensures { result ≡ (out-Statement self).form }
    {
        let Statement {
            id: _,
            at: _,
            end: _,
            form,
        } = self;
        form
    }
}

impl Branch {
    /// The statements of the branch, `yes` and then `no`.
    pub fn into_lists(self) -> (List<Statement>, List<Statement>)
        ensures first { result.0 ≡ (out-Branch self).yes }
        ensures second { result.1 ≡ (out-Branch self).no }
    {
        let Branch { yes, no } = self;
        (yes, no)
    }
}

impl Form {
    /// The operand and the item of a MOVE.
    pub fn into_move(self) -> Result<(Operand, Place), Form>
        ensures parts { IfOk result (λ parts. self ≡ form.Move (parts.0) (parts.1)) }
        ensures same { IfErr result (λ same. same ≡ self) }
        ensures other { OnErr result ((from : Operand) (to : Place) → self ≢ form.Move from to) }
    {
        match self {
            Form::Move { from, to } => Ok((from, to)),
            same => Err(same),
        }
    }

    /// The condition of an IF, and the statements of its two branches.
    pub fn into_if(self) -> Result<(Condition, List<Statement>, List<Statement>), Form>
        ensures parts { IfOk result (λ parts. self ≡ form.If (parts.0) (parts.1) (parts.2)) }
        ensures same { IfErr result (λ same. same ≡ self) }
        ensures other { OnErr result ((test : Condition) (first second : List Statement) → self ≢ form.If test first second) }
    {
        match self {
            Form::If { test, yes, other } => Ok((test, yes, other)),
            same => Err(same),
        }
    }

    /// The range, the statements and the control of a PERFORM.
    pub fn into_perform(self) -> Result<(Option<NamePair>, List<Statement>, Control), Form>
        ensures parts { IfOk result (λ parts. self ≡ form.Perform (parts.0) (parts.1) (parts.2)) }
        ensures same { IfErr result (λ same. same ≡ self) }
        ensures other { OnErr result ((range : Option NamePair) (body : List Statement) (control : Control) → self ≢ form.Perform range body control) }
    {
        match self {
            Form::Perform {
                range,
                body,
                control,
            } => Ok((range, body, control)),
            same => Err(same),
        }
    }

    /// The file, the item and the branch of a READ.
    pub fn into_read(self) -> Result<(Bytes, Option<Place>, Option<Branch>), Form>
        ensures parts { IfOk result (λ parts. self ≡ form.Read (parts.0) (parts.1) (parts.2)) }
        ensures same { IfErr result (λ same. same ≡ self) }
        ensures other { OnErr result ((file : List ℕ) (into : Option Place) (end : Option Branch) → self ≢ form.Read file into end) }
    {
        match self {
            Form::Read { file, into, end } => Ok((file, into, end)),
            same => Err(same),
        }
    }
}

impl Drop for NamePair {
    fn drop(self) {
        let NamePair {
            first: _first,
            last: _last,
        } = self;
    }
}

impl Drop for Vary {
    fn drop(self) {
        let Vary {
            item: _item,
            from: _from,
            by: _by,
        } = self;
    }
}

impl Drop for Control {
    fn drop(self) {
        match self {
            Control::Once => {}
            Control::Times(_operand) => {}
            Control::Until {
                after: _,
                test: _test,
                vary: _vary,
            } => {}
        }
    }
}

impl Drop for Statement {
    #[cycle(statement_drop)]
    fn drop(self) {
        let Statement {
            id: _,
            at: _,
            end: _,
            form: _form,
        } = self;
    }
}

impl Drop for Form {
    #[cycle(statement_drop)]
    fn drop(self) {
        match self {
            Form::Move {
                from: _from,
                to: _to,
            } => {}
            Form::Compute {
                to: _to,
                rounded: _,
                value: _value,
                rest: _rest,
                size: _size,
            } => {}
            Form::If {
                test: _test,
                yes,
                other,
            } => {
                drop(yes);
                drop_statements(other);
            }
            Form::NextSentence => {}
            Form::GoTo { name: _name } => {}
            Form::Stop => {}
            Form::Nothing => {}
            Form::Perform {
                range: _range,
                body,
                control: _control,
            } => drop(body),
            Form::Open {
                mode: _,
                file: _file,
            } => {}
            Form::Close { file: _file } => {}
            Form::Read {
                file: _file,
                into: _into,
                end: _end,
            } => {}
            Form::Write {
                name: _name,
                from: _from,
                advance: _advance,
            } => {}
            Form::Accept { to: _to, from: _ } => {}
            Form::Show {
                operands: _operands,
            } => {}
        }
    }
}

/// The statements before the last one, and the last one; of none, none.
fn without_last(list: List<Statement>) -> Result<(List<Statement>, Statement), List<Statement>>
    ensures parts { IfOk result (λ parts. list ≡ parts.0 ++ parts.1 ∷ []) }
    ensures same { IfErr result (λ same. same ≡ list) }
{
    let mut items = list.into_vec();
    match items.pop() {
        None => Err(List::from_vec(items)),
        Some(last) => Ok((List::from_vec(items), last)),
    }
}

/// Lets statements go. Where the last one is an IF it goes on with the statements of its ELSE by a loop, since
/// chains of those can be as long as a program.
#[cycle(statement_drop)]
#[tactic(auto, using(crate::proofs::Chains::depth_ends))]
fn drop_statements(mut list: List<Statement>) {
    loop {
        match without_last(list) {
            Err(none) => {
                drop(none);
                return;
            }
            Ok((before, last)) => {
                drop(before);
                match last.into_form().into_if() {
                    Err(form) => {
                        drop(form);
                        return;
                    }
                    Ok((test, yes, other)) => {
                        drop(test);
                        drop(yes);
                        list = other;
                    }
                }
            }
        }
    }
}

impl Drop for Branch {
    #[cycle(statement_drop)]
    fn drop(self) {
        let Branch { yes, no } = self;
        drop(yes);
        drop(no);
    }
}

impl Twin for NamePair {
    fn twin(&self, alloc: Global) -> Result<NamePair, Memory> {
        Ok(NamePair {
            first: self.first.twin(alloc)?,
            last: self.last.twin(alloc)?,
        })
    }
}

impl Twin for Vary {
    fn twin(&self, alloc: Global) -> Result<Vary, Memory> {
        Ok(Vary {
            item: self.item.twin(alloc)?,
            from: self.from.twin(alloc)?,
            by: self.by.twin(alloc)?,
        })
    }
}

impl Twin for Control {
    fn twin(&self, alloc: Global) -> Result<Control, Memory> {
        match self {
            Control::Once => Ok(Control::Once),
            Control::Times(operand) => Ok(Control::Times(operand.twin(alloc)?)),
            Control::Until { after, test, vary } => Ok(Control::Until {
                after: *after,
                test: test.twin(alloc)?,
                vary: vary.twin(alloc)?,
            }),
        }
    }
}

impl Twin for Statement {
    #[cycle(statement_twin)]
    fn twin(&self, alloc: Global) -> Result<Statement, Memory> {
        Ok(Statement {
            id: self.id,
            at: self.at,
            end: self.end,
            form: self.form.twin(alloc)?,
        })
    }
}

impl Twin for Form {
    #[cycle(statement_twin)]
    fn twin(&self, alloc: Global) -> Result<Form, Memory> {
        match self {
            Form::Move { from, to } => Ok(Form::Move {
                from: from.twin(alloc)?,
                to: to.twin(alloc)?,
            }),
            Form::Compute {
                to,
                rounded,
                value,
                rest,
                size,
            } => Ok(Form::Compute {
                to: to.twin(alloc)?,
                rounded: *rounded,
                value: value.twin(alloc)?,
                rest: rest.twin(alloc)?,
                size: twin_branch(size, alloc)?,
            }),
            Form::If { test, yes, other } => Ok(Form::If {
                test: test.twin(alloc)?,
                yes: twin_statements(yes, alloc)?,
                other: twin_statements(other, alloc)?,
            }),
            Form::NextSentence => Ok(Form::NextSentence),
            Form::GoTo { name } => Ok(Form::GoTo {
                name: name.twin(alloc)?,
            }),
            Form::Stop => Ok(Form::Stop),
            Form::Nothing => Ok(Form::Nothing),
            Form::Perform {
                range,
                body,
                control,
            } => Ok(Form::Perform {
                range: range.twin(alloc)?,
                body: twin_statements(body, alloc)?,
                control: control.twin(alloc)?,
            }),
            Form::Open { mode, file } => Ok(Form::Open {
                mode: *mode,
                file: file.twin(alloc)?,
            }),
            Form::Close { file } => Ok(Form::Close {
                file: file.twin(alloc)?,
            }),
            Form::Read { file, into, end } => Ok(Form::Read {
                file: file.twin(alloc)?,
                into: into.twin(alloc)?,
                end: twin_branch(end, alloc)?,
            }),
            Form::Write {
                name,
                from,
                advance,
            } => Ok(Form::Write {
                name: name.twin(alloc)?,
                from: from.twin(alloc)?,
                advance: advance.twin(alloc)?,
            }),
            Form::Accept { to, from } => Ok(Form::Accept {
                to: to.twin(alloc)?,
                from: *from,
            }),
            Form::Show { operands } => Ok(Form::Show {
                operands: operands.twin(alloc)?,
            }),
        }
    }
}

impl Twin for Branch {
    #[cycle(statement_twin)]
    fn twin(&self, alloc: Global) -> Result<Branch, Memory> {
        Ok(Branch {
            yes: twin_statements(&self.yes, alloc)?,
            no: twin_statements(&self.no, alloc)?,
        })
    }
}

/// An IF that stands alone in its list, without the statements of its ELSE.
struct Link {
    id: StatementId,
    at: u32,
    end: u32,
    test: Condition,
    yes: List<Statement>,
}

impl Drop for Link {
    fn drop(self) {
        let Link {
            id: _,
            at: _,
            end: _,
            test: _test,
            yes: _yes,
        } = self;
    }
}

impl Link {
    /// The IF with the statements of its ELSE.
    fn into_statement(self, other: List<Statement>) -> Statement
        ensures { result ≡ linked self other }
    {
        let Link {
            id,
            at,
            end,
            test,
            yes,
        } = self;
        let form = Form::If { test, yes, other };
        Statement { id, at, end, form }
    }
}

/// The links as a chain of IF, tied from the last one on.
#[tactic(auto, using(crate::proofs::Chains::tied_last))]
fn tied(
    alloc: Global,
    links: List<Link>,
    mut rest: List<Statement>,
) -> Result<List<Statement>, Memory>
    ensures { IfOk result (λ list. list ≡ chain links rest) }
{
    let mut links = links.into_vec();
    while let Some(link) = links.pop() {
        let statement = link.into_statement(rest);
        rest = List::new(alloc);
        rest.push(statement)?;
    }
    Ok(rest)
}

/// The statement that stands alone in a list.
fn only(list: &List<Statement>) -> Option<&Statement>
    ensures { IfSome result (λ one. list.now ≡ one.now ∷ []) }
{
    match list.items() {
        [one, more @ ..] => { if more.is_empty() { Some(one) } else { None } }
        [] => None,
    }
}

/// The statements again. It goes down a chain of IF by a loop.
#[cycle(statement_twin)]
#[tactic(auto, using(crate::proofs::Chains::tied_last))]
fn twin_statements(list: &List<Statement>, alloc: Global) -> Result<List<Statement>, Memory>
    ensures { IfOk result (λ copy. copy ≡ list.now) }
{
    let mut links = List::new(alloc);
    let mut rest = list;
    loop {
        match only(rest) {
            None => break,
            Some(one) => match &one.form {
                Form::If { test, yes, other } => {
                    links.push(Link {
                        id: one.id,
                        at: one.at,
                        end: one.end,
                        test: test.twin(alloc)?,
                        yes: twin_statements(yes, alloc)?,
                    })?;
                    rest = other;
                }
                _ => break,
            },
        }
    }
    tied(alloc, links, twin_each(rest, alloc)?)
}

/// Each of the statements again.
#[cycle(statement_twin)]
fn twin_each(list: &List<Statement>, alloc: Global) -> Result<List<Statement>, Memory>
    ensures { IfOk result (λ copy. copy ≡ list.now) }
{
    let mut copy = List::new(alloc);
    for item in list.items() {
        copy.push(item.twin(alloc)?)?;
    }
    Ok(copy)
}

/// The branch again, if there is one.
#[cycle(statement_twin)]
fn twin_branch(branch: &Option<Branch>, alloc: Global) -> Result<Option<Branch>, Memory>
    ensures { IfOk result (λ copy. copy ≡ branch.now) }
{
    match branch {
        None => Ok(None),
        Some(branch) => Ok(Some(branch.twin(alloc)?)),
    }
}

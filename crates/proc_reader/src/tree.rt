ghost use Rattle.std.specs.Prelude.{◌≡◌, ◌+◌, [], ◌∷◌, ◌++◌, length, IfOk};
ghost use Rattle.proc_reader.specs.Trees as spec;

use cobol_syntax::{Branch, CondForm, Condition, Expr, Form, Operand, Rel, Statement, StatementId};
use sqlite_items::Boxed;
use std::alloc::Global;
use y2k_base::{List, Memory, Twin};

/// How an operand enters a computed value: not at all, as the value plus it, it minus the value, the value times
/// it, it by the value, or the value by it.
#[derive(Clone, Copy, Debug, PartialEq, Eq)]
pub enum Joining {
    Alone,
    Add,
    Subtract,
    Multiply,
    Divide,
    DivideBy,
}

/// The expression of a value and an operand.
#[tactic(auto, unfolding(crate::specs::Trees::joined))]
pub fn joined(
    alloc: Global,
    joining: Joining,
    value: Expr,
    operand: Operand,
) -> Result<Expr, Memory>
    ensures { IfOk result (λ e. e ≡ spec.joined joining value operand) }
{
    let operand = Expr::One(operand);
    match joining {
        Joining::Alone => Ok(value),
        Joining::Add => Ok(Expr::Add(Boxed::new(alloc, value)?, Boxed::new(alloc, operand)?)),
        Joining::Subtract => Ok(Expr::Sub(Boxed::new(alloc, operand)?, Boxed::new(alloc, value)?)),
        Joining::Multiply => Ok(Expr::Mul(Boxed::new(alloc, value)?, Boxed::new(alloc, operand)?)),
        Joining::Divide => Ok(Expr::Div(Boxed::new(alloc, operand)?, Boxed::new(alloc, value)?)),
        Joining::DivideBy => Ok(Expr::Div(Boxed::new(alloc, value)?, Boxed::new(alloc, operand)?)),
    }
}

/// The condition that a value equals an operand, at the operand's own words.
#[tactic(auto, unfolding(crate::specs::Trees::equality))]
pub fn equality(
    alloc: Global,
    subject: &Expr,
    operand: Operand,
    at: u32,
    end: u32,
) -> Result<Condition, Memory>
    ensures { IfOk result (λ c. c ≡ spec.equality subject.now operand at end) }
{
    let left = subject.twin(alloc)?;
    let right = Expr::One(operand);
    let form = CondForm::Relation {
        left,
        rel: Rel::Equal,
        right,
    };
    Ok(Condition { at, end, form })
}

/// The condition that one of two holds.
#[tactic(auto, unfolding(crate::specs::Trees::either))]
pub fn either(alloc: Global, left: Condition, right: Condition) -> Result<Condition, Memory>
    ensures { IfOk result (λ c. c ≡ spec.either left right) }
{
    let at = left.at;
    let end = right.end;
    let left = Boxed::new(alloc, left)?;
    let right = Boxed::new(alloc, right)?;
    let form = CondForm::Or(left, right);
    Ok(Condition { at, end, form })
}

/// A statement.
#[tactic(auto, unfolding(crate::specs::Trees::statement))]
pub fn statement(program: u32, number: u32, at: u32, end: u32, form: Form) -> Statement
    ensures { result ≡ spec.statement program number at end form }
{
    let id = StatementId { program, number };
    Statement { id, at, end, form }
}

/// The branch of two lists, if one of them is written.
#[tactic(auto, unfolding(crate::specs::Trees::branch))]
pub fn branch(
    alloc: Global,
    first: Option<List<Statement>>,
    second: Option<List<Statement>>,
) -> Option<Branch>
    ensures { result ≡ spec.branch first second }
{
    match first {
        None => match second {
            None => None,
            Some(no) => {
                let yes = List::new(alloc);
                Some(Branch { yes, no })
            }
        },
        Some(yes) => match second {
            None => {
                let no = List::new(alloc);
                Some(Branch { yes, no })
            }
            Some(no) => Some(Branch { yes, no }),
        },
    }
}

/// An empty list with room for so many items: statements are large, and most lists of them have one.
pub fn with_room<T>(alloc: Global, count: usize) -> Result<List<T>, Memory>
    ensures { IfOk result (λ list. list ≡ []) }
{
    let items = Vec::with_capacity(alloc, count)?;
    Ok(List::from_vec(items))
}

/// A list of one item.
pub fn alone<T: Drop>(alloc: Global, item: T) -> Result<List<T>, Memory>
    ensures { IfOk result (λ list. list ≡ item ∷ []) }
{
    let mut list = with_room(alloc, 1)?;
    list.push(item)?;
    Ok(list)
}

/// The statements of one list and then those of another.
pub fn appended(first: List<Statement>, second: List<Statement>) -> Result<List<Statement>, Memory>
    ensures { IfOk result (λ list. list ≡ first ++ second) }
{
    let mut all = first.into_vec();
    let mut more = second.into_vec();
    all.append(&mut more)?;
    Ok(List::from_vec(all))
}

/// The number after this many others. Programs have fewer statements than words, and so no number that this
/// could not give; where there were one, it is as if memory were wanting.
pub fn number_after(number: u32, count: usize) -> Result<u32, Memory>
    ensures { IfOk result (λ n. n ≡ number + count) }
{
    match u32::try_from(count) {
        Err(_) => Err(Memory),
        Ok(count) => match number.checked_add(count) {
            None => Err(Memory),
            Some(next) => Ok(next),
        },
    }
}

/// Statements that are read from one text statement, numbered one after the other.
pub fn numbered(
    alloc: Global,
    program: u32,
    at: u32,
    end: u32,
    first: u32,
    forms: List<Form>,
) -> Result<List<Statement>, Memory>
    ensures { IfOk result (λ list. list ≡ spec.numbered program at end first forms) }
{
    let mut statements = with_room(alloc, 1)?;
    for form in forms.into_vec() {
        let number = number_after(first, statements.len())?;
        statements.push(statement(program, number, at, end, form))?;
    }
    Ok(statements)
}

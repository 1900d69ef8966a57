ghost use Rattle.std.specs.Prelude.{◌≡◌, IfOk, MatchOption, Some, None};
ghost use Rattle.std.specs.List.{AllByRecursion};
ghost use Rattle.cobol_syntax.specs.declared.expr.Expr.{size-Expr};
ghost use Rattle.program_meaning.specs.Tree as tree;
ghost use Rattle.storage_sums.specs.Chains.{chained, IsBelow, division};
ghost use Rattle.tree_reading.specs.Reading.{read_operand, read_expr};

use cobol_syntax::{Expr, Operand};
use std::alloc::Global;
use y2k_base::Memory;

/// A sign, or an operator with its second operand.
#[derive(Clone, Copy)]
pub(crate) enum Term<'a> {
    Minus,
    Add(&'a Expr),
    Sub(&'a Expr),
    Mul(&'a Expr),
    Div(&'a Expr),
}

/// An expression as the first operand of all and the operations on it, of which the last is done first.
pub(crate) struct Chain<'a> {
    pub(crate) terms: Vec<Term<'a>>,
    pub(crate) first: &'a Operand,
}

/// Takes an expression apart by a loop, since a sum can have as many terms as a program has words.
pub(crate) fn chain_of(alloc: Global, expr: &Expr) -> Result<Chain<'_>, Memory>
    ensures chain { IfOk result (λ chain. chained chain.terms.items (tree.One (read_operand chain.first.now)) ≡ read_expr expr.now) }
    ensures below { IfOk result (λ chain. AllByRecursion (IsBelow (size-Expr expr.now)) chain.terms.items) }
{
    let mut terms = Vec::new(alloc);
    let mut rest = expr;
    loop {
        match rest {
            Expr::One(first) => return Ok(Chain { terms, first }),
            Expr::Minus(inner) => {
                terms.push(Term::Minus)?;
                rest = inner.get();
            }
            Expr::Add(left, right) => {
                terms.push(Term::Add(right.get()))?;
                rest = left.get();
            }
            Expr::Sub(left, right) => {
                terms.push(Term::Sub(right.get()))?;
                rest = left.get();
            }
            Expr::Mul(left, right) => {
                terms.push(Term::Mul(right.get()))?;
                rest = left.get();
            }
            Expr::Div(left, right) => {
                terms.push(Term::Div(right.get()))?;
                rest = left.get();
            }
        }
    }
}

/// The dividend and the divisor of a division.
pub(crate) fn division_of(expr: &Expr) -> Option<(&Expr, &Expr)>
    ensures { MatchOption result (division (read_expr expr.now) ≡ None)
        (λ both. division (read_expr expr.now) ≡ Some (read_expr both.0.now, read_expr both.1.now)) }
{
    match expr {
        Expr::One(_) => None,
        Expr::Minus(_) => None,
        Expr::Add(_, _) => None,
        Expr::Sub(_, _) => None,
        Expr::Mul(_, _) => None,
        Expr::Div(dividend, divisor) => Some((dividend.get(), divisor.get())),
    }
}

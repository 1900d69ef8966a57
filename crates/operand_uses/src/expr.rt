ghost use Rattle.std.specs.Prelude.{◌≡◌};
ghost use Rattle.data_layout.specs.Index.{IsReady};
ghost use Rattle.operand_uses.specs.Order as order;
ghost use Rattle.operand_uses.specs.Exprs as spec;

use crate::fault::{UseFault, sooner};
use crate::operand::operand_fault;
use crate::rule::compares_right;
use crate::sort::{Sort, sort_of};
use cobol_syntax::Expr;
use data_layout::Layout;

/// What is wrong with the identifiers in an expression.
pub fn expr_fault(layout: &Layout, owner: u32, value: &Expr) -> Option<UseFault>
    requires { IsReady layout.now }
    ensures { result ≡ spec.expr_fault layout.now owner value.now }
{
    match value {
        Expr::One(operand) => operand_fault(layout, owner, operand),
        Expr::Minus(inner) => expr_fault(layout, owner, inner.get()),
        Expr::Add(left, right) => sooner(
            expr_fault(layout, owner, left.get()),
            expr_fault(layout, owner, right.get()),
        ),
        Expr::Sub(left, right) => sooner(
            expr_fault(layout, owner, left.get()),
            expr_fault(layout, owner, right.get()),
        ),
        Expr::Mul(left, right) => sooner(
            expr_fault(layout, owner, left.get()),
            expr_fault(layout, owner, right.get()),
        ),
        Expr::Div(left, right) => sooner(
            expr_fault(layout, owner, left.get()),
            expr_fault(layout, owner, right.get()),
        ),
    }
}

/// Whether all operands of an expression are numbers.
pub fn all_numbers(layout: &Layout, value: &Expr) -> bool
    requires { IsReady layout.now }
    ensures { result ≡ spec.all_numbers layout.now value.now }
{
    match value {
        Expr::One(operand) => sort_of(layout, operand).counts(),
        Expr::Minus(inner) => all_numbers(layout, inner.get()),
        Expr::Add(left, right) => {
            all_numbers(layout, left.get()) && all_numbers(layout, right.get())
        }
        Expr::Sub(left, right) => {
            all_numbers(layout, left.get()) && all_numbers(layout, right.get())
        }
        Expr::Mul(left, right) => {
            all_numbers(layout, left.get()) && all_numbers(layout, right.get())
        }
        Expr::Div(left, right) => {
            all_numbers(layout, left.get()) && all_numbers(layout, right.get())
        }
    }
}

/// What an expression without an operator and a sign is.
fn single(layout: &Layout, value: &Expr) -> Option<Sort>
    requires { IsReady layout.now }
    ensures { result ≡ spec.single layout.now value.now }
{
    match value {
        Expr::One(operand) => Some(sort_of(layout, operand)),
        Expr::Minus(_) => None,
        Expr::Add(_, _) => None,
        Expr::Sub(_, _) => None,
        Expr::Mul(_, _) => None,
        Expr::Div(_, _) => None,
    }
}

fn sides_right(left: Option<Sort>, right: Option<Sort>, numbers: bool) -> bool
    ensures { result ≡ spec.sides_right left right numbers }
{
    match left {
        None => numbers,
        Some(left) => match right {
            None => numbers,
            Some(right) => compares_right(left, right),
        },
    }
}

/// Whether the sides of a relation may be compared.
pub fn relation_right(layout: &Layout, left: &Expr, right: &Expr) -> bool
    requires { IsReady layout.now }
    ensures { result ≡ spec.relation_right layout.now left.now right.now }
{
    sides_right(
        single(layout, left),
        single(layout, right),
        all_numbers(layout, left) && all_numbers(layout, right),
    )
}

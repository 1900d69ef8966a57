ghost use Rattle.std.specs.Prelude.{◌≡◌};
ghost use Rattle.data_layout.specs.Index.{IsReady};
ghost use Rattle.operand_uses.specs.Order as order;
ghost use Rattle.operand_uses.specs.Conditions as spec;
ghost use Rattle.operand_uses.specs.Exprs as exprs;

use crate::expr::{all_numbers, expr_fault, relation_right};
use crate::fault::{UseFault, shape_fault, sooner};
use crate::place::{named_fault, place_fault};
use cobol_syntax::{CondForm, Condition, Expr};
use data_layout::Layout;

fn relation_fault(layout: &Layout, owner: u32, left: &Expr, right: &Expr) -> Option<UseFault>
    requires { IsReady layout.now }
    ensures { result ≡ order.sooner (exprs.expr_fault layout.now owner left.now) (order.sooner (exprs.expr_fault layout.now owner right.now) (order.shape_fault owner (exprs.relation_right layout.now left.now right.now))) }
{
    let first = expr_fault(layout, owner, left);
    let second = expr_fault(layout, owner, right);
    let shape = shape_fault(owner, relation_right(layout, left, right));
    sooner(first, sooner(second, shape))
}

fn sign_fault(layout: &Layout, owner: u32, of: &Expr) -> Option<UseFault>
    requires { IsReady layout.now }
    ensures { result ≡ order.sooner (exprs.expr_fault layout.now owner of.now) (order.shape_fault owner (exprs.all_numbers layout.now of.now)) }
{
    sooner(
        expr_fault(layout, owner, of),
        shape_fault(owner, all_numbers(layout, of)),
    )
}

/// What is wrong in a condition of the statement that begins at `owner`.
pub fn condition_fault(layout: &Layout, owner: u32, condition: &Condition) -> Option<UseFault>
    requires { IsReady layout.now }
    ensures { result ≡ spec.condition_fault layout.now owner condition.now }
{
    match &condition.form {
        CondForm::Relation {
            left,
            rel: _,
            right,
        } => relation_fault(layout, owner, left, right),
        CondForm::Class { of, numeric: _ } => place_fault(layout, owner, of),
        CondForm::Sign { of, sign: _ } => sign_fault(layout, owner, of),
        CondForm::Named(place) => named_fault(layout, owner, place),
        CondForm::Not(inner) => condition_fault(layout, owner, inner.get()),
        CondForm::And(left, right) => sooner(
            condition_fault(layout, owner, left.get()),
            condition_fault(layout, owner, right.get()),
        ),
        CondForm::Or(left, right) => sooner(
            condition_fault(layout, owner, left.get()),
            condition_fault(layout, owner, right.get()),
        ),
    }
}

ghost use Rattle.std.specs.Prelude.{◌≡◌, ◌++◌, IfOk, OnOk, MatchOption, Some, None};
ghost use Rattle.data_layout.specs.Index.{IsReady};
ghost use Rattle.statement_rules.specs.Trees.{tree_of};
ghost use Rattle.date_uses.specs.Conditions as spec;

use crate::places::{Spot, add_mention, add_operand_mention, add_use, operand_used, place_used};
use crate::uses::{DateUse, UseForm};
use cobol_syntax::{CondForm, Condition, Expr, Operand, Place, Rel};
use data_layout::Layout;
use statement_rules::single;
use std::alloc::Global;
use y2k_base::{List, Memory};

/// Adds each place of an expression.
pub(crate) fn add_mentions(
    alloc: Global,
    uses: &mut List<DateUse>,
    layout: &Layout,
    spot: Spot,
    expr: &Expr,
) -> Result<(), Memory>
    requires { IsReady layout.now }
    ensures { OnOk result (uses.new ≡ uses.old ++ spec.tree_mentions layout.now spot (tree_of expr.now)) }
{
    match expr {
        Expr::One(operand) => {
            add_operand_mention(alloc, uses, layout, spot, operand)?;
            Ok(())
        }
        Expr::Minus(inner) => {
            add_mentions(alloc, uses, layout, spot, inner.get())?;
            Ok(())
        }
        Expr::Add(left, right) => {
            add_mentions(alloc, uses, layout, spot, left.get())?;
            add_mentions(alloc, uses, layout, spot, right.get())?;
            Ok(())
        }
        Expr::Sub(left, right) => {
            add_mentions(alloc, uses, layout, spot, left.get())?;
            add_mentions(alloc, uses, layout, spot, right.get())?;
            Ok(())
        }
        Expr::Mul(left, right) => {
            add_mentions(alloc, uses, layout, spot, left.get())?;
            add_mentions(alloc, uses, layout, spot, right.get())?;
            Ok(())
        }
        Expr::Div(left, right) => {
            add_mentions(alloc, uses, layout, spot, left.get())?;
            add_mentions(alloc, uses, layout, spot, right.get())?;
            Ok(())
        }
    }
}

/// The operands that two expressions without an operator or a sign are.
fn pair_of<'a>(left: &'a Expr, right: &'a Expr) -> Option<(&'a Operand, &'a Operand)>
    ensures { MatchOption result (spec.pair (tree_of left.now) (tree_of right.now) ≡ None) (λ two. spec.pair (tree_of left.now) (tree_of right.now) ≡ Some (two.0.now, two.1.now)) }
{
    match single(left) {
        None => None,
        Some(one) => match single(right) {
            None => None,
            Some(other) => Some((one, other)),
        },
    }
}

/// Adds a comparison, if neither side has an operator or a sign.
fn add_compared(
    alloc: Global,
    uses: &mut List<DateUse>,
    layout: &Layout,
    spot: Spot,
    left: &Expr,
    rel: Rel,
    right: &Expr,
) -> Result<(), Memory>
    requires { IsReady layout.now }
    ensures { OnOk result (uses.new ≡ uses.old ++ spec.compared layout.now spot rel (spec.pair (tree_of left.now) (tree_of right.now))) }
{
    match pair_of(left, right) {
        None => Ok(()),
        Some((one, other)) => {
            let left = operand_used(alloc, layout, one)?;
            let right = operand_used(alloc, layout, other)?;
            add_use(uses, spot, UseForm::Compare { left, rel, right })?;
            Ok(())
        }
    }
}

fn add_relation(
    alloc: Global,
    uses: &mut List<DateUse>,
    layout: &Layout,
    spot: Spot,
    left: &Expr,
    rel: Rel,
    right: &Expr,
) -> Result<(), Memory>
    requires { IsReady layout.now }
    ensures { OnOk result (uses.new ≡ uses.old ++ spec.relation_uses layout.now spot rel (tree_of left.now) (tree_of right.now)) }
{
    add_compared(alloc, uses, layout, spot, left, rel, right)?;
    add_mentions(alloc, uses, layout, spot, left)?;
    add_mentions(alloc, uses, layout, spot, right)?;
    Ok(())
}

fn add_class(
    alloc: Global,
    uses: &mut List<DateUse>,
    layout: &Layout,
    spot: Spot,
    place: &Place,
    numeric: bool,
) -> Result<(), Memory>
    requires { IsReady layout.now }
    ensures { OnOk result (uses.new ≡ uses.old ++ spec.class_uses layout.now spot place.now numeric) }
{
    let of = place_used(alloc, layout, place)?;
    add_use(uses, spot, UseForm::Class { of, numeric })?;
    add_mention(alloc, uses, layout, spot, place)?;
    Ok(())
}

/// Adds the uses of a condition.
pub(crate) fn add_condition(
    alloc: Global,
    uses: &mut List<DateUse>,
    layout: &Layout,
    spot: Spot,
    condition: &Condition,
) -> Result<(), Memory>
    requires { IsReady layout.now }
    ensures { OnOk result (uses.new ≡ uses.old ++ spec.condition_uses layout.now spot condition.now) }
{
    match &condition.form {
        CondForm::Relation { left, rel, right } => {
            add_relation(alloc, uses, layout, spot, left, *rel, right)?;
            Ok(())
        }
        CondForm::Class { of, numeric } => {
            add_class(alloc, uses, layout, spot, of, *numeric)?;
            Ok(())
        }
        CondForm::Sign { of, sign: _ } => {
            add_mentions(alloc, uses, layout, spot, of)?;
            Ok(())
        }
        CondForm::Named(place) => {
            add_mention(alloc, uses, layout, spot, place)?;
            Ok(())
        }
        CondForm::Not(inner) => {
            add_condition(alloc, uses, layout, spot, inner.get())?;
            Ok(())
        }
        CondForm::And(left, right) => {
            add_condition(alloc, uses, layout, spot, left.get())?;
            add_condition(alloc, uses, layout, spot, right.get())?;
            Ok(())
        }
        CondForm::Or(left, right) => {
            add_condition(alloc, uses, layout, spot, left.get())?;
            add_condition(alloc, uses, layout, spot, right.get())?;
            Ok(())
        }
    }
}

/// The sum `to = left + right`.
fn sum_of(
    alloc: Global,
    layout: &Layout,
    to: &Place,
    size: bool,
    left: &Operand,
    right: &Operand,
) -> Result<UseForm, Memory>
    requires { IsReady layout.now }
    ensures { IfOk result (λ form. form ≡ spec.sum layout.now to.now size (left.now, right.now)) }
{
    Ok(UseForm::Sum {
        to: place_used(alloc, layout, to)?,
        left: operand_used(alloc, layout, left)?,
        right: operand_used(alloc, layout, right)?,
        size,
    })
}

/// The difference `to = left - right`.
fn difference_of(
    alloc: Global,
    layout: &Layout,
    to: &Place,
    size: bool,
    left: &Operand,
    right: &Operand,
) -> Result<UseForm, Memory>
    requires { IsReady layout.now }
    ensures { IfOk result (λ form. form ≡ spec.difference layout.now to.now size (left.now, right.now)) }
{
    Ok(UseForm::Difference {
        to: place_used(alloc, layout, to)?,
        left: operand_used(alloc, layout, left)?,
        right: operand_used(alloc, layout, right)?,
        size,
    })
}

/// Adds the sum of two expressions, if neither has an operator or a sign.
fn add_sum(
    alloc: Global,
    uses: &mut List<DateUse>,
    layout: &Layout,
    spot: Spot,
    to: &Place,
    size: bool,
    left: &Expr,
    right: &Expr,
) -> Result<(), Memory>
    requires { IsReady layout.now }
    ensures { OnOk result (uses.new ≡ uses.old ++ spec.summed layout.now spot to.now size (spec.pair (tree_of left.now) (tree_of right.now))) }
{
    match pair_of(left, right) {
        None => Ok(()),
        Some((one, other)) => {
            let form = sum_of(alloc, layout, to, size, one, other)?;
            add_use(uses, spot, form)?;
            Ok(())
        }
    }
}

/// Adds the difference of two expressions, if neither has an operator or a sign.
fn add_difference(
    alloc: Global,
    uses: &mut List<DateUse>,
    layout: &Layout,
    spot: Spot,
    to: &Place,
    size: bool,
    left: &Expr,
    right: &Expr,
) -> Result<(), Memory>
    requires { IsReady layout.now }
    ensures { OnOk result (uses.new ≡ uses.old ++ spec.subtracted layout.now spot to.now size (spec.pair (tree_of left.now) (tree_of right.now))) }
{
    match pair_of(left, right) {
        None => Ok(()),
        Some((one, other)) => {
            let form = difference_of(alloc, layout, to, size, one, other)?;
            add_use(uses, spot, form)?;
            Ok(())
        }
    }
}

/// Adds what arithmetic stores in a receiver, if it is a sum or a difference of two operands; `size` says that the statement
/// has a size phrase.
pub(crate) fn add_value(
    alloc: Global,
    uses: &mut List<DateUse>,
    layout: &Layout,
    spot: Spot,
    to: &Place,
    size: bool,
    value: &Expr,
) -> Result<(), Memory>
    requires { IsReady layout.now }
    ensures { OnOk result (uses.new ≡ uses.old ++ spec.value_uses layout.now spot to.now size (tree_of value.now)) }
{
    match value {
        Expr::One(_) => Ok(()),
        Expr::Minus(_) => Ok(()),
        Expr::Add(left, right) => {
            add_sum(alloc, uses, layout, spot, to, size, left.get(), right.get())?;
            Ok(())
        }
        Expr::Sub(left, right) => {
            add_difference(alloc, uses, layout, spot, to, size, left.get(), right.get())?;
            Ok(())
        }
        Expr::Mul(_, _) => Ok(()),
        Expr::Div(_, _) => Ok(()),
    }
}

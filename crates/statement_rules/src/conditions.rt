ghost use Rattle.std.specs.Prelude.{◌≡◌, ◌++◌, OnOk, MatchOption, Some, None};
ghost use Rattle.data_layout.specs.Index.{IsReady};
ghost use Rattle.statement_rules.specs.Trees.{tree_of, single as single_of};
ghost use Rattle.statement_rules.specs.Conditions as spec;

use crate::names::{add_operand, add_operand_use, add_place, add_use_if, operand_side};
use cobol_syntax::{CondForm, Condition, Expr, Operand, Place};
use data_layout::Layout;
use date_views::{Side, add_comparison, add_difference, add_sum, side_of};
use std::alloc::Global;
use y2k_base::{List, Memory, Origin};
use year_labels::RuleInst;

/// The operand that an expression without an operator or a sign is.
pub fn single(expr: &Expr) -> Option<&Operand>
    ensures { MatchOption result (single_of (tree_of expr.now) ≡ None) (λ x. single_of (tree_of expr.now) ≡ Some x.now) }
{
    match expr {
        Expr::One(operand) => Some(operand),
        Expr::Minus(_) => None,
        Expr::Add(_, _) => None,
        Expr::Sub(_, _) => None,
        Expr::Mul(_, _) => None,
        Expr::Div(_, _) => None,
    }
}

/// Adds that every item of an expression is plain.
fn add_plain(
    alloc: Global,
    rules: &mut List<RuleInst>,
    layout: &Layout,
    at: Origin,
    expr: &Expr,
) -> Result<(), Memory>
    requires { IsReady layout.now }
    ensures { OnOk result (rules.new ≡ rules.old ++ spec.plain_tree layout.now at (tree_of expr.now)) }
{
    match expr {
        Expr::One(operand) => {
            add_operand_use(alloc, rules, layout, at, operand)?;
            Ok(())
        }
        Expr::Minus(inner) => {
            add_plain(alloc, rules, layout, at, inner.get())?;
            Ok(())
        }
        Expr::Add(left, right) => {
            add_plain(alloc, rules, layout, at, left.get())?;
            add_plain(alloc, rules, layout, at, right.get())?;
            Ok(())
        }
        Expr::Sub(left, right) => {
            add_plain(alloc, rules, layout, at, left.get())?;
            add_plain(alloc, rules, layout, at, right.get())?;
            Ok(())
        }
        Expr::Mul(left, right) => {
            add_plain(alloc, rules, layout, at, left.get())?;
            add_plain(alloc, rules, layout, at, right.get())?;
            Ok(())
        }
        Expr::Div(left, right) => {
            add_plain(alloc, rules, layout, at, left.get())?;
            add_plain(alloc, rules, layout, at, right.get())?;
            Ok(())
        }
    }
}

fn add_comparison_if(
    alloc: Global,
    rules: &mut List<RuleInst>,
    at: Origin,
    left: &Option<Side>,
    right: &Option<Side>,
) -> Result<(), Memory>
    ensures { OnOk result (rules.new ≡ rules.old ++ spec.compare_if at left.now right.now) }
{
    match left {
        None => Ok(()),
        Some(left) => {
            match right {
                None => Ok(()),
                Some(right) => {
                    add_comparison(alloc, rules, at, left, right)?;
                    Ok(())
                }
            }
        }
    }
}

fn add_compared(
    alloc: Global,
    rules: &mut List<RuleInst>,
    layout: &Layout,
    at: Origin,
    left: &Operand,
    right: &Operand,
) -> Result<(), Memory>
    requires { IsReady layout.now }
    ensures { OnOk result (rules.new ≡ rules.old ++ spec.compared layout.now at left.now right.now) }
{
    add_operand(alloc, rules, layout, at, left)?;
    add_operand(alloc, rules, layout, at, right)?;
    let left = operand_side(alloc, layout, left)?;
    let right = operand_side(alloc, layout, right)?;
    add_comparison_if(alloc, rules, at, &left, &right)?;
    Ok(())
}

/// Adds that every item of both expressions is plain.
fn add_both_plain(
    alloc: Global,
    rules: &mut List<RuleInst>,
    layout: &Layout,
    at: Origin,
    left: &Expr,
    right: &Expr,
) -> Result<(), Memory>
    requires { IsReady layout.now }
    ensures { OnOk result (rules.new ≡ rules.old ++ (spec.plain_tree layout.now at (tree_of left.now) ++ spec.plain_tree layout.now at (tree_of right.now))) }
{
    add_plain(alloc, rules, layout, at, left)?;
    add_plain(alloc, rules, layout, at, right)?;
    Ok(())
}

fn add_relation(
    alloc: Global,
    rules: &mut List<RuleInst>,
    layout: &Layout,
    at: Origin,
    left: &Expr,
    right: &Expr,
) -> Result<(), Memory>
    requires { IsReady layout.now }
    ensures { OnOk result (rules.new ≡ rules.old ++ spec.relation_rules layout.now at (tree_of left.now) (tree_of right.now)) }
{
    match single(left) {
        None => {
            add_both_plain(alloc, rules, layout, at, left, right)?;
            Ok(())
        }
        Some(one) => {
            match single(right) {
                None => {
                    add_both_plain(alloc, rules, layout, at, left, right)?;
                    Ok(())
                }
                Some(other) => {
                    add_compared(alloc, rules, layout, at, one, other)?;
                    Ok(())
                }
            }
        }
    }
}

/// Adds the rules of a condition of the statement at that place.
pub(crate) fn add_condition(
    alloc: Global,
    rules: &mut List<RuleInst>,
    layout: &Layout,
    at: Origin,
    condition: &Condition,
) -> Result<(), Memory>
    requires { IsReady layout.now }
    ensures { OnOk result (rules.new ≡ rules.old ++ spec.condition_rules layout.now at condition.now) }
{
    match &condition.form {
        CondForm::Relation {
            left,
            rel: _,
            right,
        } => {
            add_relation(alloc, rules, layout, at, left, right)?;
            Ok(())
        }
        CondForm::Class { of, numeric: _ } => {
            add_place(alloc, rules, layout, at, of)?;
            Ok(())
        }
        CondForm::Sign { of, sign: _ } => {
            add_plain(alloc, rules, layout, at, of)?;
            Ok(())
        }
        CondForm::Named(place) => {
            add_place(alloc, rules, layout, at, place)?;
            Ok(())
        }
        CondForm::Not(inner) => {
            add_condition(alloc, rules, layout, at, inner.get())?;
            Ok(())
        }
        CondForm::And(left, right) => {
            add_condition(alloc, rules, layout, at, left.get())?;
            add_condition(alloc, rules, layout, at, right.get())?;
            Ok(())
        }
        CondForm::Or(left, right) => {
            add_condition(alloc, rules, layout, at, left.get())?;
            add_condition(alloc, rules, layout, at, right.get())?;
            Ok(())
        }
    }
}

/// Adds that all items of arithmetic are plain, the receiver too.
fn add_other_value(
    alloc: Global,
    rules: &mut List<RuleInst>,
    layout: &Layout,
    at: Origin,
    to: &Place,
    value: &Expr,
) -> Result<(), Memory>
    requires { IsReady layout.now }
    ensures { OnOk result (rules.new ≡ rules.old ++ spec.other_value layout.now at to.now (tree_of value.now)) }
{
    let receiver = side_of(alloc, layout, to)?;
    add_use_if(alloc, rules, at, &receiver)?;
    add_plain(alloc, rules, layout, at, value)?;
    Ok(())
}

/// Adds the rules of a sum of two operands, `to = left + right`.
fn add_sum_of(
    alloc: Global,
    rules: &mut List<RuleInst>,
    layout: &Layout,
    at: Origin,
    to: &Place,
    left: &Operand,
    right: &Operand,
) -> Result<(), Memory>
    requires { IsReady layout.now }
    ensures { OnOk result (rules.new ≡ rules.old ++ spec.summed layout.now at to.now left.now right.now) }
{
    add_operand(alloc, rules, layout, at, left)?;
    add_operand(alloc, rules, layout, at, right)?;
    let left = operand_side(alloc, layout, left)?;
    let right = operand_side(alloc, layout, right)?;
    let receiver = side_of(alloc, layout, to)?;
    add_sum(alloc, rules, at, &left, &right, &receiver)?;
    Ok(())
}

/// Adds the rules of a difference of two operands, `to = left - right`.
fn add_difference_of(
    alloc: Global,
    rules: &mut List<RuleInst>,
    layout: &Layout,
    at: Origin,
    to: &Place,
    left: &Operand,
    right: &Operand,
) -> Result<(), Memory>
    requires { IsReady layout.now }
    ensures { OnOk result (rules.new ≡ rules.old ++ spec.subtracted layout.now at to.now left.now right.now) }
{
    add_operand(alloc, rules, layout, at, left)?;
    add_operand(alloc, rules, layout, at, right)?;
    let left = operand_side(alloc, layout, left)?;
    let right = operand_side(alloc, layout, right)?;
    let receiver = side_of(alloc, layout, to)?;
    add_difference(alloc, rules, at, &right, &left, &receiver)?;
    Ok(())
}

fn add_sum_value(
    alloc: Global,
    rules: &mut List<RuleInst>,
    layout: &Layout,
    at: Origin,
    to: &Place,
    value: &Expr,
    left: &Expr,
    right: &Expr,
) -> Result<(), Memory>
    requires { IsReady layout.now }
    ensures { OnOk result (rules.new ≡ rules.old ++ spec.sum_value layout.now at to.now (tree_of value.now) (single_of (tree_of left.now)) (single_of (tree_of right.now))) }
{
    match single(left) {
        None => {
            add_other_value(alloc, rules, layout, at, to, value)?;
            Ok(())
        }
        Some(one) => {
            match single(right) {
                None => {
                    add_other_value(alloc, rules, layout, at, to, value)?;
                    Ok(())
                }
                Some(other) => {
                    add_sum_of(alloc, rules, layout, at, to, one, other)?;
                    Ok(())
                }
            }
        }
    }
}

fn add_difference_value(
    alloc: Global,
    rules: &mut List<RuleInst>,
    layout: &Layout,
    at: Origin,
    to: &Place,
    value: &Expr,
    left: &Expr,
    right: &Expr,
) -> Result<(), Memory>
    requires { IsReady layout.now }
    ensures { OnOk result (rules.new ≡ rules.old ++ spec.difference_value layout.now at to.now (tree_of value.now) (single_of (tree_of left.now)) (single_of (tree_of right.now))) }
{
    match single(left) {
        None => {
            add_other_value(alloc, rules, layout, at, to, value)?;
            Ok(())
        }
        Some(one) => {
            match single(right) {
                None => {
                    add_other_value(alloc, rules, layout, at, to, value)?;
                    Ok(())
                }
                Some(other) => {
                    add_difference_of(alloc, rules, layout, at, to, one, other)?;
                    Ok(())
                }
            }
        }
    }
}

/// Adds the rules of what arithmetic stores in a receiver.
pub(crate) fn add_value(
    alloc: Global,
    rules: &mut List<RuleInst>,
    layout: &Layout,
    at: Origin,
    to: &Place,
    value: &Expr,
) -> Result<(), Memory>
    requires { IsReady layout.now }
    ensures { OnOk result (rules.new ≡ rules.old ++ spec.value_rules layout.now at to.now (tree_of value.now)) }
{
    match value {
        Expr::One(_) => {
            add_other_value(alloc, rules, layout, at, to, value)?;
            Ok(())
        }
        Expr::Minus(_) => {
            add_other_value(alloc, rules, layout, at, to, value)?;
            Ok(())
        }
        Expr::Add(left, right) => {
            add_sum_value(alloc, rules, layout, at, to, value, left.get(), right.get())?;
            Ok(())
        }
        Expr::Sub(left, right) => {
            add_difference_value(alloc, rules, layout, at, to, value, left.get(), right.get())?;
            Ok(())
        }
        Expr::Mul(_, _) => {
            add_other_value(alloc, rules, layout, at, to, value)?;
            Ok(())
        }
        Expr::Div(_, _) => {
            add_other_value(alloc, rules, layout, at, to, value)?;
            Ok(())
        }
    }
}

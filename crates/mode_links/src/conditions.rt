ghost use Rattle.std.specs.Prelude.{◌≡◌, ◌++◌, OnOk, Some};
ghost use Rattle.data_layout.specs.Index.{IsReady};
ghost use Rattle.statement_rules.specs.Trees.{tree_of, single as single_of};
ghost use Rattle.mode_links.specs.Conditions as spec;

use cobol_syntax::{CondForm, Condition, Expr, Operand, Place};
use data_layout::Layout;
use date_views::{Side, add_copy, add_difference, add_sum, side_of};
use operand_kinds::compares_values;
use statement_rules::{operand_side, single};
use std::alloc::Global;
use y2k_base::{List, Memory, Origin};
use year_labels::RuleInst;

/// Adds the link of a comparison, which is one where it goes by bytes.
fn add_compared(
    alloc: Global,
    links: &mut List<RuleInst>,
    at: Origin,
    left: &Side,
    right: &Side,
) -> Result<(), Memory>
    ensures { OnOk result (links.new ≡ links.old ++ spec.compared at left.now right.now) }
{
    if compares_values(left.kind(), right.kind()) {
        Ok(())
    } else {
        add_copy(alloc, links, at, left, right)?;
        Ok(())
    }
}

fn add_compared_if(
    alloc: Global,
    links: &mut List<RuleInst>,
    at: Origin,
    left: &Option<Side>,
    right: &Option<Side>,
) -> Result<(), Memory>
    ensures { OnOk result (links.new ≡ links.old ++ spec.compared_if at left.now right.now) }
{
    match left {
        None => Ok(()),
        Some(left) => {
            match right {
                None => Ok(()),
                Some(right) => {
                    add_compared(alloc, links, at, left, right)?;
                    Ok(())
                }
            }
        }
    }
}

fn add_operands(
    alloc: Global,
    links: &mut List<RuleInst>,
    layout: &Layout,
    at: Origin,
    left: &Operand,
    right: &Operand,
) -> Result<(), Memory>
    requires { IsReady layout.now }
    ensures { OnOk result (links.new ≡ links.old ++ spec.related layout.now at (Some left.now) (Some right.now)) }
{
    let left = operand_side(alloc, layout, left)?;
    let right = operand_side(alloc, layout, right)?;
    add_compared_if(alloc, links, at, &left, &right)?;
    Ok(())
}

fn add_relation(
    alloc: Global,
    links: &mut List<RuleInst>,
    layout: &Layout,
    at: Origin,
    left: &Expr,
    right: &Expr,
) -> Result<(), Memory>
    requires { IsReady layout.now }
    ensures { OnOk result (links.new ≡ links.old ++ spec.related layout.now at (single_of (tree_of left.now)) (single_of (tree_of right.now))) }
{
    match single(left) {
        None => Ok(()),
        Some(one) => {
            match single(right) {
                None => Ok(()),
                Some(other) => {
                    add_operands(alloc, links, layout, at, one, other)?;
                    Ok(())
                }
            }
        }
    }
}

/// Adds the links of a condition of the statement at that place.
pub(crate) fn add_condition(
    alloc: Global,
    links: &mut List<RuleInst>,
    layout: &Layout,
    at: Origin,
    condition: &Condition,
) -> Result<(), Memory>
    requires { IsReady layout.now }
    ensures { OnOk result (links.new ≡ links.old ++ spec.condition_links layout.now at condition.now) }
{
    match &condition.form {
        CondForm::Relation {
            left,
            rel: _,
            right,
        } => {
            add_relation(alloc, links, layout, at, left, right)?;
            Ok(())
        }
        CondForm::Class { of: _, numeric: _ } => Ok(()),
        CondForm::Sign { of: _, sign: _ } => Ok(()),
        CondForm::Named(_) => Ok(()),
        CondForm::Not(inner) => {
            add_condition(alloc, links, layout, at, inner.get())?;
            Ok(())
        }
        CondForm::And(left, right) => {
            add_condition(alloc, links, layout, at, left.get())?;
            add_condition(alloc, links, layout, at, right.get())?;
            Ok(())
        }
        CondForm::Or(left, right) => {
            add_condition(alloc, links, layout, at, left.get())?;
            add_condition(alloc, links, layout, at, right.get())?;
            Ok(())
        }
    }
}

/// Adds the link of a sum of two operands, `to = left + right`.
fn add_sum_of(
    alloc: Global,
    links: &mut List<RuleInst>,
    layout: &Layout,
    at: Origin,
    to: &Place,
    left: &Operand,
    right: &Operand,
) -> Result<(), Memory>
    requires { IsReady layout.now }
    ensures { OnOk result (links.new ≡ links.old ++ spec.summed layout.now at to.now (Some left.now) (Some right.now)) }
{
    let left = operand_side(alloc, layout, left)?;
    let right = operand_side(alloc, layout, right)?;
    let receiver = side_of(alloc, layout, to)?;
    add_sum(alloc, links, at, &left, &right, &receiver)?;
    Ok(())
}

/// Adds the link of a difference of two operands, `to = left - right`.
fn add_difference_of(
    alloc: Global,
    links: &mut List<RuleInst>,
    layout: &Layout,
    at: Origin,
    to: &Place,
    left: &Operand,
    right: &Operand,
) -> Result<(), Memory>
    requires { IsReady layout.now }
    ensures { OnOk result (links.new ≡ links.old ++ spec.subtracted layout.now at to.now (Some left.now) (Some right.now)) }
{
    let left = operand_side(alloc, layout, left)?;
    let right = operand_side(alloc, layout, right)?;
    let receiver = side_of(alloc, layout, to)?;
    add_difference(alloc, links, at, &right, &left, &receiver)?;
    Ok(())
}

fn add_sum_value(
    alloc: Global,
    links: &mut List<RuleInst>,
    layout: &Layout,
    at: Origin,
    to: &Place,
    left: &Expr,
    right: &Expr,
) -> Result<(), Memory>
    requires { IsReady layout.now }
    ensures { OnOk result (links.new ≡ links.old ++ spec.summed layout.now at to.now (single_of (tree_of left.now)) (single_of (tree_of right.now))) }
{
    match single(left) {
        None => Ok(()),
        Some(one) => {
            match single(right) {
                None => Ok(()),
                Some(other) => {
                    add_sum_of(alloc, links, layout, at, to, one, other)?;
                    Ok(())
                }
            }
        }
    }
}

fn add_difference_value(
    alloc: Global,
    links: &mut List<RuleInst>,
    layout: &Layout,
    at: Origin,
    to: &Place,
    left: &Expr,
    right: &Expr,
) -> Result<(), Memory>
    requires { IsReady layout.now }
    ensures { OnOk result (links.new ≡ links.old ++ spec.subtracted layout.now at to.now (single_of (tree_of left.now)) (single_of (tree_of right.now))) }
{
    match single(left) {
        None => Ok(()),
        Some(one) => {
            match single(right) {
                None => Ok(()),
                Some(other) => {
                    add_difference_of(alloc, links, layout, at, to, one, other)?;
                    Ok(())
                }
            }
        }
    }
}

/// Adds the link of what arithmetic stores in a receiver.
pub(crate) fn add_value(
    alloc: Global,
    links: &mut List<RuleInst>,
    layout: &Layout,
    at: Origin,
    to: &Place,
    value: &Expr,
) -> Result<(), Memory>
    requires { IsReady layout.now }
    ensures { OnOk result (links.new ≡ links.old ++ spec.value_links layout.now at to.now (tree_of value.now)) }
{
    match value {
        Expr::One(_) => Ok(()),
        Expr::Minus(_) => Ok(()),
        Expr::Add(left, right) => {
            add_sum_value(alloc, links, layout, at, to, left.get(), right.get())?;
            Ok(())
        }
        Expr::Sub(left, right) => {
            add_difference_value(alloc, links, layout, at, to, left.get(), right.get())?;
            Ok(())
        }
        Expr::Mul(_, _) => Ok(()),
        Expr::Div(_, _) => Ok(()),
    }
}

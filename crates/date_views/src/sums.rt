ghost use Rattle.std.specs.Prelude.{◌≡◌, ◌++◌, IfOk, OnOk};
ghost use Rattle.date_views.specs.Sums as spec;

use crate::side::{Field, Side};
use crate::uses::add_use;
use cobol_syntax::Usage;
use decimal_bytes::NumForm;
use operand_kinds::Kind;
use std::alloc::Global;
use y2k_base::{List, Memory, Origin, Twin};
use year_labels::{Rule, RuleForm, RuleInst, View};

fn may_show_years(usage: Usage, form: NumForm) -> bool
    ensures { result ≡ spec.may_show_years usage form }
{
    match usage {
        Usage::Display => !form.signed,
        Usage::Packed => true,
        Usage::Binary => false,
    }
}

/// Whether it is an integer of two digits, unsigned DISPLAY or packed.
fn takes_part(kind: Kind) -> bool
    ensures { result ≡ spec.takes_part kind }
{
    match kind {
        Kind::Group => false,
        Kind::Text => false,
        Kind::Edited { form: _ } => false,
        Kind::Number { usage, form } => {
            (form.digits == 2 && form.scale == 0) && may_show_years(usage, form)
        }
    }
}

fn part_of_field(alloc: Global, field: &Field) -> Result<View, Memory>
    ensures { IfOk result (λ view. view ≡ spec.field_part field.now) }
{
    if takes_part(field.kind) {
        let view = field.view.twin(alloc)?;
        Ok(view)
    } else {
        Ok(View::Plain)
    }
}

/// How an operand takes part in a sum; a literal is no side.
fn part(alloc: Global, side: &Option<Side>) -> Result<View, Memory>
    ensures { IfOk result (λ view. view ≡ spec.part side.now) }
{
    match side {
        None => Ok(View::Plain),
        Some(Side::Known(field)) => {
            let view = part_of_field(alloc, field)?;
            Ok(view)
        }
        Some(Side::Moving { most: _ }) => Ok(View::Plain),
    }
}

fn stands_aside(side: &Side) -> bool
    ensures { result ≡ spec.stands_aside side.now }
{
    match side {
        Side::Known(field) => !takes_part(field.kind),
        Side::Moving { most: _ } => false,
    }
}

/// Adds that an item that doesn't take part as it is, is plain.
fn add_aside(
    alloc: Global,
    rules: &mut List<RuleInst>,
    rule: Rule,
    at: Origin,
    side: &Option<Side>,
) -> Result<(), Memory>
    ensures { OnOk result (rules.new ≡ rules.old ++ spec.aside rule at side.now) }
{
    match side {
        None => Ok(()),
        Some(side) => {
            if stands_aside(side) {
                add_use(alloc, rules, rule, at, side)?;
                Ok(())
            } else {
                Ok(())
            }
        }
    }
}

fn add_all_aside(
    alloc: Global,
    rules: &mut List<RuleInst>,
    rule: Rule,
    at: Origin,
    a: &Option<Side>,
    b: &Option<Side>,
    c: &Option<Side>,
) -> Result<(), Memory>
    ensures { OnOk result (rules.new ≡ rules.old ++ spec.all_aside rule at a.now b.now c.now) }
{
    add_aside(alloc, rules, rule, at, a)?;
    add_aside(alloc, rules, rule, at, b)?;
    add_aside(alloc, rules, rule, at, c)?;
    Ok(())
}

/// Adds the rules of `c = a + b`, where a literal is no side. Those of VARYING's BY are the same, with the item as `c`
/// and `a`.
pub fn add_sum(
    alloc: Global,
    rules: &mut List<RuleInst>,
    at: Origin,
    a: &Option<Side>,
    b: &Option<Side>,
    c: &Option<Side>,
) -> Result<(), Memory>
    ensures { OnOk result (rules.new ≡ rules.old ++ spec.sum_rules at a.now b.now c.now) }
{
    add_all_aside(alloc, rules, Rule::Add, at, a, b, c)?;
    let form = RuleForm::Sum {
        a: part(alloc, a)?,
        b: part(alloc, b)?,
        c: part(alloc, c)?,
    };
    rules.push(RuleInst {
        rule: Rule::Add,
        at,
        form,
    })?;
    Ok(())
}

/// Adds the rules of `c = b - a`, where a literal is no side.
pub fn add_difference(
    alloc: Global,
    rules: &mut List<RuleInst>,
    at: Origin,
    a: &Option<Side>,
    b: &Option<Side>,
    c: &Option<Side>,
) -> Result<(), Memory>
    ensures { OnOk result (rules.new ≡ rules.old ++ spec.difference_rules at a.now b.now c.now) }
{
    add_all_aside(alloc, rules, Rule::Subtract, at, a, b, c)?;
    let form = RuleForm::Difference {
        a: part(alloc, a)?,
        b: part(alloc, b)?,
        c: part(alloc, c)?,
    };
    rules.push(RuleInst {
        rule: Rule::Subtract,
        at,
        form,
    })?;
    Ok(())
}

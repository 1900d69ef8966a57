ghost use Rattle.std.specs.Prelude.{◌≡◌, ◌++◌, ◌∷◌, [], OnOk};
ghost use Rattle.date_views.specs.Moves as spec;
ghost use Rattle.date_views.specs.Uses as uses;
ghost use Rattle.year_labels.specs.declared.rule.Rule.TheVariants as rule_names;
ghost use Rattle.year_labels.specs.declared.rule.RuleForm.TheVariants as forms;

use crate::moves::add_fill;
use crate::side::{Field, Side};
use crate::uses::front;
use crate::view::all_digits;
use cobol_syntax::Register;
use std::alloc::Global;
use y2k_base::{List, Memory, Origin, Twin};
use year_labels::{Role, Rule, RuleForm, RuleInst, View};

/// YYMMDD, YYDDD, and a time without a year.
fn register_digits(from: Register) -> u8
    ensures { result ≡ spec.register_digits from }
{
    match from {
        Register::Date => 6,
        Register::Day => 5,
        Register::Time => 8,
    }
}

/// The role of a digit of a number whose year has its units digit at that power.
fn year_role(unit: u8, power: u8) -> Role
    ensures { result ≡ spec.year_role unit power }
{
    if u32::from(power) == u32::from(unit) + 1 {
        Role::Tens
    } else if power == unit {
        Role::Units
    } else {
        Role::Plain
    }
}

fn register_role(from: Register, power: u8) -> Role
    ensures { result ≡ spec.register_role from power }
{
    match from {
        Register::Date => year_role(4, power),
        Register::Day => year_role(3, power),
        Register::Time => Role::Plain,
    }
}

fn add_role(
    alloc: Global,
    rules: &mut List<RuleInst>,
    at: Origin,
    view: &View,
    power: u8,
    role: Role,
) -> Result<(), Memory>
    ensures { OnOk result (rules.new ≡ rules.old ++ uses.inst rule_names.Register at (forms.GiveDigit view.now power role) ∷ []) }
{
    let form = RuleForm::GiveDigit {
        view: view.twin(alloc)?,
        power,
        role,
    };
    rules.push(RuleInst {
        rule: Rule::Register,
        at,
        form,
    })?;
    Ok(())
}

/// Adds the roles of so many digits of a register, from the units on.
fn add_given(
    alloc: Global,
    rules: &mut List<RuleInst>,
    at: Origin,
    from: Register,
    view: &View,
    digits: u8,
) -> Result<(), Memory>
    ensures { OnOk result (rules.new ≡ rules.old ++ spec.given at from view.now digits) }
{
    for power in 0..digits {
        add_role(alloc, rules, at, view, power, register_role(from, power))?;
    }
    Ok(())
}

fn add_register_field(
    alloc: Global,
    rules: &mut List<RuleInst>,
    at: Origin,
    from: Register,
    b: &Field,
    digits: u8,
) -> Result<(), Memory>
    ensures { OnOk result (rules.new ≡ rules.old ++ spec.register_field at from b.now digits) }
{
    if b.kind.is_aligned() {
        add_given(alloc, rules, at, from, &b.view, digits)?;
        add_fill(alloc, rules, Rule::Fill, at, &b.view, digits)?;
        Ok(())
    } else {
        let part = front(b.span, u32::from(digits));
        let view = all_digits(alloc, part, digits)?;
        add_given(alloc, rules, at, from, &view, digits)?;
        Ok(())
    }
}

/// Adds the rules of ACCEPT FROM DATE, DAY or TIME. A reference that may stand anywhere gets nothing by it.
pub fn add_register(
    alloc: Global,
    rules: &mut List<RuleInst>,
    at: Origin,
    from: Register,
    to: &Side,
) -> Result<(), Memory>
    ensures { OnOk result (rules.new ≡ rules.old ++ spec.register_rules at from to.now) }
{
    match to {
        Side::Known(b) => {
            add_register_field(alloc, rules, at, from, b, register_digits(from))?;
            Ok(())
        }
        Side::Moving { most: _ } => Ok(()),
    }
}

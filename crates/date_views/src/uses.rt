ghost use Rattle.std.specs.Prelude.{◌≡◌, ◌≤◌, ◌-◌, ◌++◌, ◌∷◌, [], OnOk};
ghost use Rattle.date_views.specs.Uses as spec;
ghost use Rattle.year_labels.specs.declared.label.Role.TheVariants as roles;
ghost use Rattle.year_labels.specs.declared.rule.Rule.TheVariants as rule_names;
ghost use Rattle.year_labels.specs.declared.rule.RuleForm.TheVariants as forms;

use crate::side::Side;
use crate::view::{decimal_view, each_byte, runs_of};
use cobol_syntax::Usage;
use data_layout::Item;
use decimal_bytes::NumForm;
use operand_kinds::{Kind, kind_of_item};
use std::alloc::Global;
use y2k_base::{List, Memory, Origin, Run, Span, Twin};
use year_labels::{Role, Rule, RuleForm, RuleInst, View};

pub(crate) fn is_plain(view: &View) -> bool
    ensures { result ≡ spec.is_plain view.now }
{
    match view {
        View::Bytes { span: _, powers: _ } => false,
        View::Packed { span: _, digits: _ } => false,
        View::Plain => true,
    }
}

/// At most so many bytes from the front.
pub(crate) fn front(span: Span, most: u32) -> Span
    ensures { result ≡ spec.front span most }
{
    Span {
        area: span.area,
        offset: span.offset,
        length: if span.length < most {
            span.length
        } else {
            most
        },
    }
}

/// Adds that all bytes of a span are plain.
pub fn add_plain_bytes(
    alloc: Global,
    rules: &mut List<RuleInst>,
    rule: Rule,
    at: Origin,
    span: Span,
) -> Result<(), Memory>
    ensures { OnOk result (rules.new ≡ rules.old ++ spec.plain_bytes rule at span) }
{
    let view = each_byte(alloc, span)?;
    let form = RuleForm::GiveDigit {
        view,
        power: 0,
        role: Role::Plain,
    };
    rules.push(RuleInst { rule, at, form })?;
    Ok(())
}

fn add_plain_digits(
    alloc: Global,
    rules: &mut List<RuleInst>,
    rule: Rule,
    at: Origin,
    view: &View,
) -> Result<(), Memory>
    ensures { OnOk result (rules.new ≡ rules.old ++ spec.plain_digits rule at view.now) }
{
    if is_plain(view) {
        return Ok(());
    }
    let form = RuleForm::Digits {
        a: View::Plain,
        b: view.twin(alloc)?,
    };
    rules.push(RuleInst { rule, at, form })?;
    Ok(())
}

/// Adds that an operand is plain: each digit of a number or an edited item, each byte of anything else.
pub fn add_use(
    alloc: Global,
    rules: &mut List<RuleInst>,
    rule: Rule,
    at: Origin,
    side: &Side,
) -> Result<(), Memory>
    ensures { OnOk result (rules.new ≡ rules.old ++ spec.use_rules rule at side.now) }
{
    match side {
        Side::Known(field) => {
            if field.kind.is_aligned() {
                add_plain_digits(alloc, rules, rule, at, &field.view)?;
                Ok(())
            } else {
                add_plain_bytes(alloc, rules, rule, at, field.span)?;
                Ok(())
            }
        }
        Side::Moving { most: _ } => Ok(()),
    }
}

fn add_plain_digit(
    alloc: Global,
    rules: &mut List<RuleInst>,
    at: Origin,
    view: &View,
    power: u8,
) -> Result<(), Memory>
    ensures { OnOk result (rules.new ≡ rules.old ++ spec.inst rule_names.Digits at (forms.GiveDigit view.now power roles.Plain) ∷ []) }
{
    let form = RuleForm::GiveDigit {
        view: view.twin(alloc)?,
        power,
        role: Role::Plain,
    };
    rules.push(RuleInst {
        rule: Rule::Digits,
        at,
        form,
    })?;
    Ok(())
}

fn add_plain_powers(
    alloc: Global,
    rules: &mut List<RuleInst>,
    at: Origin,
    view: &View,
    low: u8,
    high: u8,
) -> Result<(), Memory>
    requires { low ≤ high }
    ensures { OnOk result (rules.new ≡ rules.old ++ spec.plain_powers at view.now low (high - low)) }
{
    for power in low..high {
        add_plain_digit(alloc, rules, at, view, power)?;
    }
    Ok(())
}

/// Adds that the digits of the powers from `low` on and below `high` are plain.
pub(crate) fn add_plain_between(
    alloc: Global,
    rules: &mut List<RuleInst>,
    at: Origin,
    view: &View,
    low: u8,
    high: u8,
) -> Result<(), Memory>
    requires { low ≤ high }
    ensures { OnOk result (rules.new ≡ rules.old ++ spec.plain_between at view.now low high) }
{
    if is_plain(view) {
        return Ok(());
    }
    add_plain_powers(alloc, rules, at, view, low, high)?;
    Ok(())
}

fn add_decimals(
    alloc: Global,
    rules: &mut List<RuleInst>,
    at: Origin,
    form: NumForm,
    runs: &[Run],
    span: Span,
) -> Result<(), Memory>
    ensures { OnOk result (rules.new ≡ rules.old ++ spec.decimal_rules at form runs.now span) }
{
    if form.scale == 0 {
        return Ok(());
    }
    let view = decimal_view(alloc, form, runs, span)?;
    let form = RuleForm::GiveDigit {
        view,
        power: 0,
        role: Role::Plain,
    };
    rules.push(RuleInst {
        rule: Rule::Plain,
        at,
        form,
    })?;
    Ok(())
}

fn add_number(
    alloc: Global,
    rules: &mut List<RuleInst>,
    at: Origin,
    usage: Usage,
    form: NumForm,
    runs: &[Run],
    span: Span,
) -> Result<(), Memory>
    ensures { OnOk result (rules.new ≡ rules.old ++ spec.number_rules at usage form runs.now span) }
{
    match usage {
        Usage::Display => {
            if form.signed {
                add_plain_bytes(alloc, rules, Rule::Plain, at, span)?;
                Ok(())
            } else {
                add_decimals(alloc, rules, at, form, runs, span)?;
                Ok(())
            }
        }
        Usage::Packed => {
            if form.scale == 0 {
                Ok(())
            } else {
                add_plain_bytes(alloc, rules, Rule::Plain, at, span)?;
                Ok(())
            }
        }
        Usage::Binary => {
            add_plain_bytes(alloc, rules, Rule::Plain, at, span)?;
            Ok(())
        }
    }
}

/// Adds what is plain of an item wherever it is used: the bytes of signed DISPLAY numbers, of binary numbers and of
/// packed numbers with decimals, and digits after the point.
pub fn add_item(
    alloc: Global,
    rules: &mut List<RuleInst>,
    at: Origin,
    item: &Item,
) -> Result<(), Memory>
    ensures { OnOk result (rules.new ≡ rules.old ++ spec.item_rules at item.now) }
{
    let runs = runs_of(&item.picture);
    match kind_of_item(item) {
        Kind::Group => Ok(()),
        Kind::Text => Ok(()),
        Kind::Edited { form } => {
            add_decimals(alloc, rules, at, form, runs, item.span)?;
            Ok(())
        }
        Kind::Number { usage, form } => {
            add_number(alloc, rules, at, usage, form, runs, item.span)?;
            Ok(())
        }
    }
}

ghost use Rattle.std.specs.Prelude.{◌≡◌, ◌-◌, ◌++◌, ◌∷◌, [], min, OnOk};
ghost use Rattle.date_views.specs.Moves as spec;
ghost use Rattle.date_views.specs.Uses as uses;
ghost use Rattle.year_labels.specs.declared.rule.Rule.TheVariants as rule_names;
ghost use Rattle.year_labels.specs.declared.rule.RuleForm.TheVariants as forms;
ghost use Rattle.date_views.specs.declared.side.Side.TheVariants as sides;

use crate::side::{Field, Side};
use crate::uses::{add_plain_between, add_plain_bytes, front, is_plain};
use crate::view::all_digits;
use operand_kinds::{compares_values, copies_bytes};
use std::alloc::Global;
use y2k_base::{List, Memory, Origin, Span, Twin};
use year_labels::{Rule, RuleForm, RuleInst, View};

/// Adds that byte i of both sides is alike, up to the shorter, and that a reference that may stand anywhere makes plain
/// each byte that it may meet. This is the rule of READ INTO and WRITE FROM, of other copies, and of comparisons by bytes.
pub fn add_copy(
    alloc: Global,
    rules: &mut List<RuleInst>,
    at: Origin,
    from: &Side,
    to: &Side,
) -> Result<(), Memory>
    ensures { OnOk result (rules.new ≡ rules.old ++ spec.copy_rules at from.now to.now) }
{
    match from {
        Side::Known(a) => {
            add_copy_of(alloc, rules, at, a.span, to)?;
            Ok(())
        }
        Side::Moving { most } => {
            add_met(alloc, rules, at, to, *most)?;
            Ok(())
        }
    }
}

fn add_copy_of(
    alloc: Global,
    rules: &mut List<RuleInst>,
    at: Origin,
    from: Span,
    to: &Side,
) -> Result<(), Memory>
    ensures { OnOk result (rules.new ≡ rules.old ++ spec.span_rules at from to.now) }
{
    match to {
        Side::Known(b) => {
            let form = RuleForm::Alike {
                a: front(from, b.span.length),
                b: front(b.span, from.length),
            };
            rules.push(RuleInst {
                rule: Rule::Bytes,
                at,
                form,
            })?;
            Ok(())
        }
        Side::Moving { most } => {
            add_plain_bytes(alloc, rules, Rule::Bytes, at, front(from, *most))?;
            Ok(())
        }
    }
}

/// Adds that the bytes are plain that a reference of at most so many bytes may meet.
fn add_met(
    alloc: Global,
    rules: &mut List<RuleInst>,
    at: Origin,
    to: &Side,
    most: u32,
) -> Result<(), Memory>
    ensures { OnOk result (rules.new ≡ rules.old ++ spec.copy_rules at (sides.Moving most) to.now) }
{
    match to {
        Side::Known(b) => {
            add_plain_bytes(alloc, rules, Rule::Bytes, at, front(b.span, most))?;
            Ok(())
        }
        Side::Moving { most: _ } => Ok(()),
    }
}

/// Adds that the digits of one power are alike.
fn add_alike(
    alloc: Global,
    rules: &mut List<RuleInst>,
    at: Origin,
    a: &View,
    a_digits: u8,
    b: &View,
    b_digits: u8,
) -> Result<(), Memory>
    ensures { OnOk result (rules.new ≡ rules.old ++ spec.alike at a.now a_digits b.now b_digits) }
{
    if is_plain(a) {
        add_plain_between(alloc, rules, at, b, 0, a_digits)?;
        return Ok(());
    }
    if is_plain(b) {
        add_plain_between(alloc, rules, at, a, 0, b_digits)?;
        return Ok(());
    }
    let form = RuleForm::Digits {
        a: a.twin(alloc)?,
        b: b.twin(alloc)?,
    };
    rules.push(RuleInst {
        rule: Rule::Digits,
        at,
        form,
    })?;
    Ok(())
}

/// Adds that each digit of a year at that power or above is plain.
pub(crate) fn add_fill(
    alloc: Global,
    rules: &mut List<RuleInst>,
    rule: Rule,
    at: Origin,
    view: &View,
    from: u8,
) -> Result<(), Memory>
    ensures { OnOk result (rules.new ≡ rules.old ++ uses.inst rule at (forms.Fill view.now from) ∷ []) }
{
    let form = RuleForm::Fill {
        view: view.twin(alloc)?,
        from,
    };
    rules.push(RuleInst { rule, at, form })?;
    Ok(())
}

fn add_aligned(
    alloc: Global,
    rules: &mut List<RuleInst>,
    at: Origin,
    a: &Field,
    b: &Field,
) -> Result<(), Memory>
    ensures { OnOk result (rules.new ≡ rules.old ++ spec.aligned_rules at a.now b.now) }
{
    add_alike(alloc, rules, at, &a.view, a.digits, &b.view, b.digits)?;
    add_fill(alloc, rules, Rule::Fill, at, &b.view, a.digits)?;
    Ok(())
}

fn add_spelled(
    alloc: Global,
    rules: &mut List<RuleInst>,
    at: Origin,
    a: &Field,
    b: &Field,
) -> Result<(), Memory>
    ensures { OnOk result (rules.new ≡ rules.old ++ spec.spelled_rules at a.now b.now) }
{
    let part = front(b.span, u32::from(a.digits));
    let view = all_digits(alloc, part, a.digits)?;
    add_alike(alloc, rules, at, &a.view, a.digits, &view, a.digits)?;
    Ok(())
}

fn add_moving(
    alloc: Global,
    rules: &mut List<RuleInst>,
    at: Origin,
    b: &Field,
    digits: u8,
) -> Result<(), Memory>
    ensures { OnOk result (rules.new ≡ rules.old ++ spec.moving_rules at b.now digits) }
{
    add_plain_between(alloc, rules, at, &b.view, 0, digits)?;
    add_fill(alloc, rules, Rule::Fill, at, &b.view, digits)?;
    Ok(())
}

/// The smaller of the two.
fn least(digits: u8, most: u32) -> u8
    ensures { result ≡ min digits most }
{
    match u8::try_from(most) {
        Ok(most) => if digits < most { digits } else { most },
        Err(_) => digits,
    }
}

/// The digits that are left below so many high ones.
fn below(digits: u8, most: u32) -> u8
    ensures { result ≡ digits - most }
{
    match u8::try_from(most) {
        Ok(most) => digits.saturating_sub(most),
        Err(_) => 0,
    }
}

/// Adds the rules of a move that isn't a copy of bytes.
fn add_digits(
    alloc: Global,
    rules: &mut List<RuleInst>,
    at: Origin,
    from: &Side,
    to: &Side,
) -> Result<(), Memory>
    ensures { OnOk result (rules.new ≡ rules.old ++ spec.digit_rules at from.now to.now) }
{
    match from {
        Side::Known(a) => {
            add_digits_of(alloc, rules, at, a, to)?;
            Ok(())
        }
        Side::Moving { most } => {
            add_digits_met(alloc, rules, at, *most, to)?;
            Ok(())
        }
    }
}

fn add_digits_of(
    alloc: Global,
    rules: &mut List<RuleInst>,
    at: Origin,
    a: &Field,
    to: &Side,
) -> Result<(), Memory>
    ensures { OnOk result (rules.new ≡ rules.old ++ spec.digit_rules at (sides.Known a.now) to.now) }
{
    match to {
        Side::Known(b) => {
            if b.kind.is_aligned() {
                add_aligned(alloc, rules, at, a, b)?;
                Ok(())
            } else {
                add_spelled(alloc, rules, at, a, b)?;
                Ok(())
            }
        }
        Side::Moving { most } => {
            add_plain_between(alloc, rules, at, &a.view, below(a.digits, *most), a.digits)?;
            Ok(())
        }
    }
}

fn add_digits_met(
    alloc: Global,
    rules: &mut List<RuleInst>,
    at: Origin,
    most: u32,
    to: &Side,
) -> Result<(), Memory>
    ensures { OnOk result (rules.new ≡ rules.old ++ spec.digit_rules at (sides.Moving most) to.now) }
{
    match to {
        Side::Known(b) => {
            add_moving(alloc, rules, at, b, least(b.digits, most))?;
            Ok(())
        }
        Side::Moving { most: _ } => Ok(()),
    }
}

/// Adds the rules of a move of an item or a reference to another. Those of VARYING's FROM are the same.
pub fn add_move(
    alloc: Global,
    rules: &mut List<RuleInst>,
    at: Origin,
    from: &Side,
    to: &Side,
) -> Result<(), Memory>
    ensures { OnOk result (rules.new ≡ rules.old ++ spec.move_rules at from.now to.now) }
{
    if copies_bytes(from.kind(), to.kind()) {
        add_copy(alloc, rules, at, from, to)?;
        Ok(())
    } else {
        add_digits(alloc, rules, at, from, to)?;
        Ok(())
    }
}

/// Adds the rules of two numbers that are compared by value.
fn add_values(
    alloc: Global,
    rules: &mut List<RuleInst>,
    at: Origin,
    a: &Field,
    b: &Field,
) -> Result<(), Memory>
    ensures { OnOk result (rules.new ≡ rules.old ++ spec.value_rules at (sides.Known a.now) (sides.Known b.now)) }
{
    add_alike(alloc, rules, at, &a.view, a.digits, &b.view, b.digits)?;
    add_fill(alloc, rules, Rule::Excess, at, &a.view, b.digits)?;
    add_fill(alloc, rules, Rule::Excess, at, &b.view, a.digits)?;
    Ok(())
}

fn add_value_of(
    alloc: Global,
    rules: &mut List<RuleInst>,
    at: Origin,
    a: &Field,
    right: &Side,
) -> Result<(), Memory>
    ensures { OnOk result (rules.new ≡ rules.old ++ spec.value_rules at (sides.Known a.now) right.now) }
{
    match right {
        Side::Known(b) => {
            add_values(alloc, rules, at, a, b)?;
            Ok(())
        }
        Side::Moving { most: _ } => Ok(()),
    }
}

fn add_value(
    alloc: Global,
    rules: &mut List<RuleInst>,
    at: Origin,
    left: &Side,
    right: &Side,
) -> Result<(), Memory>
    ensures { OnOk result (rules.new ≡ rules.old ++ spec.value_rules at left.now right.now) }
{
    match left {
        Side::Known(a) => {
            add_value_of(alloc, rules, at, a, right)?;
            Ok(())
        }
        Side::Moving { most: _ } => Ok(()),
    }
}

/// Adds the rules of a comparison of two items or references: by value where both are numbers, and else by bytes.
pub fn add_comparison(
    alloc: Global,
    rules: &mut List<RuleInst>,
    at: Origin,
    left: &Side,
    right: &Side,
) -> Result<(), Memory>
    ensures { OnOk result (rules.new ≡ rules.old ++ spec.compare_rules at left.now right.now) }
{
    if compares_values(left.kind(), right.kind()) {
        add_value(alloc, rules, at, left, right)?;
        Ok(())
    } else {
        add_copy(alloc, rules, at, left, right)?;
        Ok(())
    }
}

ghost use Rattle.std.specs.Prelude.{◌≡◌, ◌⊎◌, ◌↔◌, ◌<◌, ◌+◌, ◌/◌, ℕ, ◌≤◌, true, false, IsTrue, Contains, length};
ghost use Rattle.year_labels.specs.declared.label.Role.TheVariants as roles;
ghost use Rattle.year_labels.specs.Facts.{fact_in};
ghost use Rattle.year_labels.specs.Forms.{IsPlaced, IsFitView, HasYearDigit};
ghost use Rattle.year_labels.specs.Operands.{Is};
ghost use Rattle.year_labels.specs.Roles.{HoldsPower, HasRole, HasPackedRole};
ghost use Rattle.label_spread.specs.Steps.{label_on};
ghost use Rattle.conflict_chain.specs.Named.{named, IsFactOf};

use crate::ChainStep;
use label_spread::{fact_at, holds_power, label_for};
use y2k_base::Span;
use year_labels::{Fact, Label, Role, View};

/// Whether one of the named steps has the fact.
pub(crate) fn has(steps: &[ChainStep], from: &[u32], fact: Fact) -> bool
    ensures { IsTrue result ↔ Contains (named steps.now from.now) fact }
{
    for i in 0..from.len() {
        if is_fact_of(steps, from[i], fact) {
            return true;
        }
    }
    false
}

/// Whether the step of that number has the fact.
fn is_fact_of(steps: &[ChainStep], number: u32, fact: Fact) -> bool
    ensures { IsTrue result ↔ IsFactOf steps.now number fact }
{
    match steps.get(number as usize) {
        Some(step) => step.fact == fact,
        None => false,
    }
}

/// Whether the named facts say that the digit of that power has the role.
pub(crate) fn has_role(
    steps: &[ChainStep],
    from: &[u32],
    view: &View,
    power: u8,
    role: Role,
) -> bool
    requires { IsFitView view.now }
    ensures { IsTrue result ↔ HasRole (named steps.now from.now) view.now power role }
{
    match view {
        View::Bytes { span, powers } => {
            let label = label_for(role);
            any_byte_bears(steps, from, *span, powers.items(), power, label)
        }
        View::Packed { span, digits } => has_packed_role(steps, from, *span, *digits, power, role),
        View::Plain => role == Role::Plain,
    }
}

fn any_byte_bears(
    steps: &[ChainStep],
    from: &[u32],
    span: Span,
    powers: &[Option<u8>],
    power: u8,
    label: Label,
) -> bool
    requires placed { IsPlaced span }
    requires equal { length powers.now ≡ span.length }
    ensures { IsTrue result ↔ ((i : ℕ) × HoldsPower powers.now i power × Contains (named steps.now from.now) (fact_in span i label)) }
{
    for i in 0..powers.len() {
        if byte_bears(steps, from, span, powers, i, power, label) {
            return true;
        }
    }
    false
}

fn byte_bears(
    steps: &[ChainStep],
    from: &[u32],
    span: Span,
    powers: &[Option<u8>],
    index: usize,
    power: u8,
    label: Label,
) -> bool
    requires placed { IsPlaced span }
    requires equal { length powers.now ≡ span.length }
    requires within { index < length powers.now }
    ensures { IsTrue result ↔ (HoldsPower powers.now index power × Contains (named steps.now from.now) (fact_in span index label)) }
{
    if holds_power(powers, index, power) {
        let fact = fact_at(span, index as u32, label);
        has(steps, from, fact)
    } else {
        false
    }
}

/// Whether a byte of the number bears the label that a byte of its place has beside this one.
fn any_bears(steps: &[ChainStep], from: &[u32], span: Span, label: Label) -> bool
    requires placed { IsPlaced span }
    requires short { span.length ≤ 256 }
    ensures { IsTrue result ↔ ((k : ℕ) × (k < span.length) × Contains (named steps.now from.now) (fact_in span k (label_on label k))) }
{
    for k in 0..span.length {
        if bears(steps, from, span, k, label) {
            return true;
        }
    }
    false
}

fn bears(steps: &[ChainStep], from: &[u32], span: Span, index: u32, label: Label) -> bool
    requires placed { IsPlaced span }
    requires within { index < span.length }
    requires short { index < 256 }
    ensures { IsTrue result ↔ Contains (named steps.now from.now) (fact_in span index (label_on label index)) }
{
    let mark = label_beside(label, index);
    let fact = fact_at(span, index, mark);
    has(steps, from, fact)
}

fn label_beside(label: Label, index: u32) -> Label
    requires { index < 256 }
    ensures { result ≡ label_on label index }
{
    match label {
        Label::Tens => Label::Tens,
        Label::Units => Label::Units,
        Label::Plain => Label::Plain,
        Label::Packed { digits, unit, .. } => Label::Packed {
            digits,
            unit,
            byte: index as u8,
        },
    }
}

fn has_packed_role(
    steps: &[ChainStep],
    from: &[u32],
    span: Span,
    digits: u8,
    power: u8,
    role: Role,
) -> bool
    requires placed { IsPlaced span }
    requires format { span.length ≡ digits / 2 + 1 }
    ensures { IsTrue result ↔ HasPackedRole (named steps.now from.now) span digits power role }
{
    match role {
        Role::Tens => has_tens(steps, from, span, digits, power),
        Role::Units => has_units(steps, from, span, digits, power),
        Role::Plain => has_plain(steps, from, span, digits, power),
    }
}

pub(crate) fn has_tens(steps: &[ChainStep], from: &[u32], span: Span, digits: u8, power: u8) -> bool
    requires placed { IsPlaced span }
    requires format { span.length ≡ digits / 2 + 1 }
    ensures { IsTrue result ↔ HasPackedRole (named steps.now from.now) span digits power roles.Tens }
{
    if power == 0 {
        false
    } else {
        let unit = power - 1;
        let byte = 0;
        any_bears(steps, from, span, Label::Packed { digits, unit, byte })
    }
}

pub(crate) fn has_units(
    steps: &[ChainStep],
    from: &[u32],
    span: Span,
    digits: u8,
    power: u8,
) -> bool
    requires placed { IsPlaced span }
    requires format { span.length ≡ digits / 2 + 1 }
    ensures { IsTrue result ↔ HasPackedRole (named steps.now from.now) span digits power roles.Units }
{
    let unit = power;
    let byte = 0;
    any_bears(steps, from, span, Label::Packed { digits, unit, byte })
}

fn has_plain(steps: &[ChainStep], from: &[u32], span: Span, digits: u8, power: u8) -> bool
    requires placed { IsPlaced span }
    requires format { span.length ≡ digits / 2 + 1 }
    ensures { IsTrue result ↔ HasPackedRole (named steps.now from.now) span digits power roles.Plain }
{
    if power < digits {
        any_bears(steps, from, span, Label::Plain)
    } else {
        false
    }
}

/// Whether a digit of a year stands at that power.
pub(crate) fn has_year_digit(steps: &[ChainStep], from: &[u32], view: &View, power: u8) -> bool
    requires { IsFitView view.now }
    ensures { IsTrue result ↔ HasYearDigit (named steps.now from.now) view.now power }
{
    has_role(steps, from, view, power, Role::Tens)
        || has_role(steps, from, view, power, Role::Units)
}

/// Whether the number is a year or, if that is asked, plain.
pub(crate) fn is_such(steps: &[ChainStep], from: &[u32], view: &View, year: bool) -> bool
    requires { IsFitView view.now }
    ensures { IsTrue result ↔ Is (named steps.now from.now) view.now year }
{
    if year {
        is_year(steps, from, view)
    } else {
        is_plain(steps, from, view)
    }
}

fn is_year(steps: &[ChainStep], from: &[u32], view: &View) -> bool
    requires { IsFitView view.now }
    ensures { IsTrue result ↔ Is (named steps.now from.now) view.now true }
{
    has_role(steps, from, view, 1, Role::Tens) || has_role(steps, from, view, 0, Role::Units)
}

fn is_plain(steps: &[ChainStep], from: &[u32], view: &View) -> bool
    requires { IsFitView view.now }
    ensures { IsTrue result ↔ Is (named steps.now from.now) view.now false }
{
    has_role(steps, from, view, 1, Role::Plain) || has_role(steps, from, view, 0, Role::Plain)
}

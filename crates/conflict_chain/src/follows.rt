ghost use Rattle.std.specs.Prelude.{◌≡◌, ◌⊎◌, ◌↔◌, ◌<◌, ◌≤◌, ℕ, IsTrue};
ghost use Rattle.year_labels.specs.declared.label.Role.TheVariants as roles;
ghost use Rattle.year_labels.specs.declared.rule.RuleForm.TheVariants as forms;
ghost use Rattle.year_labels.specs.Forms.{IsFit, IsFitView, IsPlaced, IsCopied, IsPassed, IsFilled, IsByRows, Follows};
ghost use Rattle.year_labels.specs.Operands.{Holds, HoldsIf, Fires, IsByRow, operand as the_operand};
ghost use Rattle.label_spread.specs.Steps.{IsPassedAs, IsPassedAt, IsFilledAt, MayFill};
ghost use Rattle.conflict_chain.specs.Named.{named};

use crate::ChainStep;
use crate::gives::{gives, makes};
use crate::named::{has, has_role, has_year_digit, is_such};
use case_tables::{ADD_ROWS, Row, SUB_ROWS, Test, Who};
use label_spread::{fact_at, index_in, power_limit};
use y2k_base::Span;
use year_labels::{Fact, Role, RuleForm, View};

/// Whether the fact follows by the rule from the facts of the steps with these numbers.
pub(crate) fn follows(form: &RuleForm, steps: &[ChainStep], from: &[u32], fact: Fact) -> bool
    requires { IsFit form.now }
    ensures { IsTrue result ↔ Follows form.now (named steps.now from.now) fact }
{
    match form {
        RuleForm::Give { fact: given } => fact == *given,
        RuleForm::GiveDigit { view, power, role } => {
            gives(steps, from, view, *power, *role, fact)
        }
        RuleForm::Alike { a, b } => are_alike(steps, from, *a, *b, fact),
        RuleForm::Digits { a, b } => is_passed_either(steps, from, a, b, fact),
        RuleForm::Fill { view, from: least } => is_filled(steps, from, view, *least, fact),
        RuleForm::Sum { a, b, c } => is_sum(steps, from, a, b, c, fact),
        RuleForm::Difference { a, b, c } => is_difference(steps, from, a, b, c, fact),
    }
}

/// Whether the fact follows where the bytes of two spans are alike.
fn are_alike(steps: &[ChainStep], from: &[u32], a: Span, b: Span, fact: Fact) -> bool
    requires a { IsPlaced a }
    requires b { IsPlaced b }
    requires equal { a.length ≡ b.length }
    ensures { IsTrue result ↔ (IsCopied a b (named steps.now from.now) fact ⊎ IsCopied b a (named steps.now from.now) fact) }
{
    is_copied(steps, from, a, b, fact) || is_copied(steps, from, b, a, fact)
}

/// Whether a byte of the one span bears the label that the same byte of the other has by this fact.
fn is_copied(steps: &[ChainStep], from: &[u32], a: Span, b: Span, fact: Fact) -> bool
    requires placed { IsPlaced a }
    requires equal { a.length ≡ b.length }
    ensures { IsTrue result ↔ IsCopied a b (named steps.now from.now) fact }
{
    match index_in(b, fact.place) {
        Some(index) => {
            let there = fact_at(a, index, fact.label);
            has(steps, from, there)
        }
        None => false,
    }
}

fn is_passed_either(steps: &[ChainStep], from: &[u32], a: &View, b: &View, fact: Fact) -> bool
    requires a { IsFitView a.now }
    requires b { IsFitView b.now }
    ensures { IsTrue result ↔ (IsPassed a.now b.now (named steps.now from.now) fact ⊎ IsPassed b.now a.now (named steps.now from.now) fact) }
{
    is_passed(steps, from, a, b, fact) || is_passed(steps, from, b, a, fact)
}

/// Whether giving a role of a digit of the one view to the digit of the same power of the other gives the fact.
fn is_passed(steps: &[ChainStep], from: &[u32], a: &View, b: &View, fact: Fact) -> bool
    requires a { IsFitView a.now }
    requires b { IsFitView b.now }
    ensures { IsTrue result ↔ IsPassed a.now b.now (named steps.now from.now) fact }
{
    let limit = power_limit(b);
    for power in 0..limit {
        if is_passed_at(steps, from, a, b, power as u8, fact) {
            return true;
        }
    }
    false
}

fn is_passed_at(
    steps: &[ChainStep],
    from: &[u32],
    a: &View,
    b: &View,
    power: u8,
    fact: Fact,
) -> bool
    requires a { IsFitView a.now }
    requires b { IsFitView b.now }
    ensures { IsTrue result ↔ IsPassedAt a.now b.now power (named steps.now from.now) fact }
{
    is_passed_as(steps, from, a, b, power, Role::Tens, fact)
        || is_passed_as(steps, from, a, b, power, Role::Units, fact)
        || is_passed_as(steps, from, a, b, power, Role::Plain, fact)
}

fn is_passed_as(
    steps: &[ChainStep],
    from: &[u32],
    a: &View,
    b: &View,
    power: u8,
    role: Role,
    fact: Fact,
) -> bool
    requires a { IsFitView a.now }
    requires b { IsFitView b.now }
    ensures { IsTrue result ↔ IsPassedAs a.now b.now power role (named steps.now from.now) fact }
{
    has_role(steps, from, a, power, role) && gives(steps, from, b, power, role, fact)
}

/// Whether making a digit of a year plain, at that power or above, gives the fact.
fn is_filled(steps: &[ChainStep], from: &[u32], view: &View, least: u8, fact: Fact) -> bool
    requires { IsFitView view.now }
    ensures { IsTrue result ↔ IsFilled view.now least (named steps.now from.now) fact }
{
    let limit = power_limit(view);
    for power in 0..limit {
        if is_filled_at(steps, from, view, least, power as u8, fact) {
            return true;
        }
    }
    false
}

fn is_filled_at(
    steps: &[ChainStep],
    from: &[u32],
    view: &View,
    least: u8,
    power: u8,
    fact: Fact,
) -> bool
    requires { IsFitView view.now }
    ensures { IsTrue result ↔ IsFilledAt view.now least power (named steps.now from.now) fact }
{
    may_fill(steps, from, view, least, power) && gives(steps, from, view, power, Role::Plain, fact)
}

fn may_fill(steps: &[ChainStep], from: &[u32], view: &View, least: u8, power: u8) -> bool
    requires { IsFitView view.now }
    ensures { IsTrue result ↔ MayFill (named steps.now from.now) view.now least power }
{
    if power < least {
        false
    } else {
        has_year_digit(steps, from, view, power)
    }
}

fn is_sum(steps: &[ChainStep], from: &[u32], a: &View, b: &View, c: &View, fact: Fact) -> bool
    requires a { IsFitView a.now }
    requires b { IsFitView b.now }
    requires c { IsFitView c.now }
    ensures { IsTrue result ↔ Follows (forms.Sum a.now b.now c.now) (named steps.now from.now) fact }
{
    is_by_rows(steps, from, &ADD_ROWS.rows, a, b, c, fact)
}

fn is_difference(
    steps: &[ChainStep],
    from: &[u32],
    a: &View,
    b: &View,
    c: &View,
    fact: Fact,
) -> bool
    requires a { IsFitView a.now }
    requires b { IsFitView b.now }
    requires c { IsFitView c.now }
    ensures { IsTrue result ↔ Follows (forms.Difference a.now b.now c.now) (named steps.now from.now) fact }
{
    is_by_rows(steps, from, &SUB_ROWS.rows, a, b, c, fact)
}

/// Whether the fact follows by one of the rows.
fn is_by_rows(
    steps: &[ChainStep],
    from: &[u32],
    rows: &[Row],
    a: &View,
    b: &View,
    c: &View,
    fact: Fact,
) -> bool
    requires a { IsFitView a.now }
    requires b { IsFitView b.now }
    requires c { IsFitView c.now }
    ensures { IsTrue result ↔ IsByRows rows.now a.now b.now c.now (named steps.now from.now) fact }
{
    for i in 0..rows.len() {
        if is_by_row(steps, from, rows[i], a, b, c, fact) {
            return true;
        }
    }
    false
}

fn is_by_row(
    steps: &[ChainStep],
    from: &[u32],
    row: Row,
    a: &View,
    b: &View,
    c: &View,
    fact: Fact,
) -> bool
    requires a { IsFitView a.now }
    requires b { IsFitView b.now }
    requires c { IsFitView c.now }
    ensures { IsTrue result ↔ IsByRow a.now b.now c.now row (named steps.now from.now) fact }
{
    if fires(steps, from, row, a, b, c) {
        let to = operand(a, b, c, row.gives.who);
        makes(steps, from, to, row.gives.year, fact)
    } else {
        false
    }
}

/// Whether the tests of the row hold.
fn fires(steps: &[ChainStep], from: &[u32], row: Row, a: &View, b: &View, c: &View) -> bool
    requires a { IsFitView a.now }
    requires b { IsFitView b.now }
    requires c { IsFitView c.now }
    ensures { IsTrue result ↔ Fires a.now b.now c.now row (named steps.now from.now) }
{
    if holds(steps, from, row.if1, a, b, c) {
        holds_if(steps, from, row.if2, a, b, c)
    } else {
        false
    }
}

fn holds(steps: &[ChainStep], from: &[u32], test: Test, a: &View, b: &View, c: &View) -> bool
    requires a { IsFitView a.now }
    requires b { IsFitView b.now }
    requires c { IsFitView c.now }
    ensures { IsTrue result ↔ Holds a.now b.now c.now test (named steps.now from.now) }
{
    let of = operand(a, b, c, test.who);
    is_such(steps, from, of, test.year)
}

fn holds_if(
    steps: &[ChainStep],
    from: &[u32],
    test: Option<Test>,
    a: &View,
    b: &View,
    c: &View,
) -> bool
    requires a { IsFitView a.now }
    requires b { IsFitView b.now }
    requires c { IsFitView c.now }
    ensures { IsTrue result ↔ HoldsIf a.now b.now c.now test (named steps.now from.now) }
{
    match test {
        Some(test) => holds(steps, from, test, a, b, c),
        None => true,
    }
}

fn operand<'a>(a: &'a View, b: &'a View, c: &'a View, who: Who) -> &'a View
    requires a { IsFitView a.now }
    requires b { IsFitView b.now }
    requires c { IsFitView c.now }
    ensures fit { IsFitView result.now }
    ensures value { result.now ≡ the_operand a.now b.now c.now who }
{
    match who {
        Who::A => a,
        Who::B => b,
        Who::C => c,
    }
}

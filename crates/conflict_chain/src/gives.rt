ghost use Rattle.std.specs.Prelude.{◌≡◌, ◌⊎◌, ◌↔◌, ◌<◌, ◌+◌, ◌/◌, ℕ, ◌≤◌, true, false, IsTrue, length, List as Items};
ghost use Rattle.year_labels.specs.declared.label.Fact.{Fact as AnyFact};
ghost use Rattle.year_labels.specs.declared.label.Role.TheVariants as roles;
ghost use Rattle.year_labels.specs.declared.label.Label.TheVariants as labels;
ghost use Rattle.year_labels.specs.Facts.{fact_in};
ghost use Rattle.year_labels.specs.Forms.{IsPlaced, IsFitView};
ghost use Rattle.year_labels.specs.Operands.{Makes};
ghost use Rattle.year_labels.specs.Roles.{HoldsPower, HasPackedYear, Gives, GivesPacked, MayBePlain, IsPackedYear, IsPlainByte, IsHalfYear};
ghost use Rattle.conflict_chain.specs.Named.{named};

use crate::ChainStep;
use crate::named::{has_tens, has_units};
use label_spread::{fact_at, holds_power, index_in, label_for};
use y2k_base::Span;
use year_labels::{Fact, Label, Role, View};

/// Whether giving the role to the digit of that power gives the fact, where the named facts are known.
pub(crate) fn gives(
    steps: &[ChainStep],
    from: &[u32],
    view: &View,
    power: u8,
    role: Role,
    fact: Fact,
) -> bool
    requires { IsFitView view.now }
    ensures { IsTrue result ↔ Gives (named steps.now from.now) view.now power role fact }
{
    match view {
        View::Bytes { span, powers } => {
            let label = label_for(role);
            labels_byte(*span, powers.items(), power, label, fact)
        }
        View::Packed { span, digits } => {
            gives_packed(steps, from, *span, *digits, power, role, fact)
        }
        View::Plain => false,
    }
}

/// Whether the fact is that a byte that holds a digit of that power bears the label.
fn labels_byte(span: Span, powers: &[Option<u8>], power: u8, label: Label, fact: Fact) -> bool
    requires placed { IsPlaced span }
    requires equal { length powers.now ≡ span.length }
    ensures { IsTrue result ↔ ((i : ℕ) × HoldsPower powers.now i power × (fact ≡ fact_in span i label)) }
{
    match index_in(span, fact.place) {
        Some(index) => { fact.label == label && holds_power(powers, index as usize, power) }
        None => false,
    }
}

fn gives_packed(
    steps: &[ChainStep],
    from: &[u32],
    span: Span,
    digits: u8,
    power: u8,
    role: Role,
    fact: Fact,
) -> bool
    requires placed { IsPlaced span }
    requires format { span.length ≡ digits / 2 + 1 }
    ensures { IsTrue result ↔ GivesPacked (named steps.now from.now) span digits power role fact }
{
    match role {
        Role::Tens => gives_tens(span, digits, power, fact),
        Role::Units => gives_units(span, digits, power, fact),
        Role::Plain => gives_plain(steps, from, span, digits, power, fact),
    }
}

fn gives_tens(span: Span, digits: u8, power: u8, fact: Fact) -> bool
    requires placed { IsPlaced span }
    requires format { span.length ≡ digits / 2 + 1 }
    ensures { (known : Items AnyFact) → IsTrue result ↔ GivesPacked known span digits power roles.Tens fact }
{
    if power >= digits {
        false
    } else if power == 0 {
        is_half_year(span, digits, power, Label::Tens, fact)
    } else {
        is_packed_year(span, digits, power - 1, fact)
    }
}

fn gives_units(span: Span, digits: u8, power: u8, fact: Fact) -> bool
    requires placed { IsPlaced span }
    requires format { span.length ≡ digits / 2 + 1 }
    ensures { (known : Items AnyFact) → IsTrue result ↔ GivesPacked known span digits power roles.Units fact }
{
    if power >= digits {
        false
    } else if power == digits - 1 {
        is_half_year(span, digits, power, Label::Units, fact)
    } else {
        is_packed_year(span, digits, power, fact)
    }
}

fn gives_plain(
    steps: &[ChainStep],
    from: &[u32],
    span: Span,
    digits: u8,
    power: u8,
    fact: Fact,
) -> bool
    requires placed { IsPlaced span }
    requires format { span.length ≡ digits / 2 + 1 }
    ensures { IsTrue result ↔ GivesPacked (named steps.now from.now) span digits power roles.Plain fact }
{
    is_plain_byte(span, fact) && may_be_plain(steps, from, span, digits, power)
}

/// Whether giving Plain to the digit of that power makes the number plain.
fn may_be_plain(steps: &[ChainStep], from: &[u32], span: Span, digits: u8, power: u8) -> bool
    requires placed { IsPlaced span }
    requires format { span.length ≡ digits / 2 + 1 }
    ensures { IsTrue result ↔ MayBePlain (named steps.now from.now) span digits power }
{
    if power >= digits {
        false
    } else if digits == 2 {
        true
    } else {
        has_packed_year(steps, from, span, digits, power)
    }
}

/// Whether a digit of a year stands at that power.
fn has_packed_year(steps: &[ChainStep], from: &[u32], span: Span, digits: u8, power: u8) -> bool
    requires placed { IsPlaced span }
    requires format { span.length ≡ digits / 2 + 1 }
    ensures { IsTrue result ↔ HasPackedYear (named steps.now from.now) span digits power }
{
    has_tens(steps, from, span, digits, power) || has_units(steps, from, span, digits, power)
}

/// Whether the fact is that a byte of the number is one of a year with its units digit at that power.
fn is_packed_year(span: Span, digits: u8, unit: u8, fact: Fact) -> bool
    requires placed { IsPlaced span }
    requires format { span.length ≡ digits / 2 + 1 }
    ensures { IsTrue result ↔ IsPackedYear span digits unit fact }
{
    match index_in(span, fact.place) {
        Some(index) => {
            let byte = index as u8;
            fact.label == (Label::Packed { digits, unit, byte })
        }
        None => false,
    }
}

/// Whether the fact is that a byte of the number is plain.
fn is_plain_byte(span: Span, fact: Fact) -> bool
    ensures { IsTrue result ↔ IsPlainByte span fact }
{
    match index_in(span, fact.place) {
        Some(_) => fact.label == Label::Plain,
        None => false,
    }
}

/// Whether the fact is that the byte of the digit of that power bears the label.
fn is_half_year(span: Span, digits: u8, power: u8, label: Label, fact: Fact) -> bool
    requires placed { IsPlaced span }
    requires format { span.length ≡ digits / 2 + 1 }
    requires digit { power < digits }
    ensures { IsTrue result ↔ IsHalfYear span digits power label fact }
{
    let byte = (digits / 2 * 2 - power) / 2;
    fact == fact_at(span, u32::from(byte), label)
}

/// Whether making the number a year or, if that is asked, plain gives the fact.
pub(crate) fn makes(steps: &[ChainStep], from: &[u32], view: &View, year: bool, fact: Fact) -> bool
    requires { IsFitView view.now }
    ensures { IsTrue result ↔ Makes (named steps.now from.now) view.now year fact }
{
    if year {
        makes_year(steps, from, view, fact)
    } else {
        makes_plain(steps, from, view, fact)
    }
}

fn makes_year(steps: &[ChainStep], from: &[u32], view: &View, fact: Fact) -> bool
    requires { IsFitView view.now }
    ensures { IsTrue result ↔ Makes (named steps.now from.now) view.now true fact }
{
    gives(steps, from, view, 1, Role::Tens, fact) || gives(steps, from, view, 0, Role::Units, fact)
}

fn makes_plain(steps: &[ChainStep], from: &[u32], view: &View, fact: Fact) -> bool
    requires { IsFitView view.now }
    ensures { IsTrue result ↔ Makes (named steps.now from.now) view.now false fact }
{
    gives(steps, from, view, 1, Role::Plain, fact) || gives(steps, from, view, 0, Role::Plain, fact)
}

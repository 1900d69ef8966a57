ghost use Rattle.std.specs.Prelude.{◌≡◌, ◌↔◌, ◌<◌, ◌≤◌, ◌+◌, ◌/◌, ℕ, IsTrue, OnOk, Contains};
ghost use Rattle.year_labels.specs.Facts.{fact_in};
ghost use Rattle.year_labels.specs.Forms.{IsPlaced};
ghost use Rattle.year_labels.specs.Roles.{HasPackedRole, GivesPacked, MayBePlain, HasPackedYear, IsPackedYear, IsHalfYear};
ghost use Rattle.year_labels.specs.declared.label.Role.TheVariants as roles;
ghost use Rattle.label_spread.specs.Steps.{Adds, label_on};

use crate::bytes::{fact_at, insert_at};
use crate::known::Known;
use y2k_base::{Memory, Span};
use year_labels::{Label, Role};

/// The label of the byte of that index of a number whose first byte bears the label.
fn label_for(label: Label, index: u32) -> Label
    requires { index < 256 }
    ensures { result ≡ label_on label index }
{
    match label {
        Label::Tens => Label::Tens,
        Label::Units => Label::Units,
        Label::Plain => Label::Plain,
        Label::Packed { digits, unit, .. } => Label::Packed {
            digits,
            unit,
            byte: index as u8,
        },
    }
}

/// Whether a byte of the number bears the label.
fn any_bears(known: &Known, span: Span, label: Label) -> bool
    requires placed { IsPlaced span }
    requires short { span.length ≤ 256 }
    ensures { IsTrue result ↔ ((k : ℕ) × (k < span.length) × Contains known.now (fact_in span k (label_on label k))) }
{
    for k in 0..span.length {
        if bears(known, span, k, label) {
            return true;
        }
    }
    false
}

/// Whether the byte of that index of the number bears the label.
fn bears(known: &Known, span: Span, index: u32, label: Label) -> bool
    requires placed { IsPlaced span }
    requires within { index < span.length }
    requires short { index < 256 }
    ensures { IsTrue result ↔ Contains known.now (fact_in span index (label_on label index)) }
{
    let mark = label_for(label, index);
    let fact = fact_at(span, index, mark);
    known.has(fact)
}

/// Labels each byte of the number.
fn label_each(span: Span, label: Label, known: &mut Known) -> Result<(), Memory>
    requires placed { IsPlaced span }
    requires short { span.length ≤ 256 }
    ensures { OnOk result (Adds (λ _ f. (k : ℕ) × (k < span.length) × (f ≡ fact_in span k (label_on label k))) known.old known.new) }
{
    for k in 0..span.length {
        label_one(span, k, label, known)?;
    }
    Ok(())
}

/// Labels the byte of that index of the number.
fn label_one(span: Span, index: u32, label: Label, known: &mut Known) -> Result<(), Memory>
    requires placed { IsPlaced span }
    requires within { index < span.length }
    requires short { index < 256 }
    ensures { OnOk result (Adds (λ _ f. f ≡ fact_in span index (label_on label index)) known.old known.new) }
{
    let mark = label_for(label, index);
    insert_at(span, index, mark, known)?;
    Ok(())
}

/// Whether the digit of that power of a packed number has the role.
pub(crate) fn has_packed_role(known: &Known, span: Span, digits: u8, power: u8, role: Role) -> bool
    requires placed { IsPlaced span }
    requires format { span.length ≡ digits / 2 + 1 }
    ensures { IsTrue result ↔ HasPackedRole known.now span digits power role }
{
    match role {
        Role::Tens => has_tens(known, span, digits, power),
        Role::Units => has_units(known, span, digits, power),
        Role::Plain => has_plain(known, span, digits, power),
    }
}

fn has_tens(known: &Known, span: Span, digits: u8, power: u8) -> bool
    requires placed { IsPlaced span }
    requires format { span.length ≡ digits / 2 + 1 }
    ensures { IsTrue result ↔ HasPackedRole known.now span digits power roles.Tens }
{
    if power == 0 {
        false
    } else {
        let unit = power - 1;
        any_bears(
            known,
            span,
            Label::Packed {
                digits,
                unit,
                byte: 0,
            },
        )
    }
}

fn has_units(known: &Known, span: Span, digits: u8, power: u8) -> bool
    requires placed { IsPlaced span }
    requires format { span.length ≡ digits / 2 + 1 }
    ensures { IsTrue result ↔ HasPackedRole known.now span digits power roles.Units }
{
    any_bears(
        known,
        span,
        Label::Packed {
            digits,
            unit: power,
            byte: 0,
        },
    )
}

fn has_plain(known: &Known, span: Span, digits: u8, power: u8) -> bool
    requires placed { IsPlaced span }
    requires format { span.length ≡ digits / 2 + 1 }
    ensures { IsTrue result ↔ HasPackedRole known.now span digits power roles.Plain }
{
    if power < digits {
        any_bears(known, span, Label::Plain)
    } else {
        false
    }
}

/// Gives the role to the digit of that power of a packed number.
pub(crate) fn give_packed(
    span: Span,
    digits: u8,
    power: u8,
    role: Role,
    known: &mut Known,
) -> Result<(), Memory>
    requires placed { IsPlaced span }
    requires format { span.length ≡ digits / 2 + 1 }
    ensures { OnOk result (Adds (λ xs. GivesPacked xs span digits power role) known.old known.new) }
{
    match role {
        Role::Tens => {
            give_tens(span, digits, power, known)?;
            Ok(())
        }
        Role::Units => {
            give_units(span, digits, power, known)?;
            Ok(())
        }
        Role::Plain => {
            give_plain(span, digits, power, known)?;
            Ok(())
        }
    }
}

fn give_tens(span: Span, digits: u8, power: u8, known: &mut Known) -> Result<(), Memory>
    requires placed { IsPlaced span }
    requires format { span.length ≡ digits / 2 + 1 }
    ensures { OnOk result (Adds (λ xs. GivesPacked xs span digits power roles.Tens) known.old known.new) }
{
    if power >= digits {
        Ok(())
    } else if power == 0 {
        label_digit(span, digits, power, Label::Tens, known)?;
        Ok(())
    } else {
        label_year(span, digits, power - 1, known)?;
        Ok(())
    }
}

fn give_units(span: Span, digits: u8, power: u8, known: &mut Known) -> Result<(), Memory>
    requires placed { IsPlaced span }
    requires format { span.length ≡ digits / 2 + 1 }
    ensures { OnOk result (Adds (λ xs. GivesPacked xs span digits power roles.Units) known.old known.new) }
{
    if power >= digits {
        Ok(())
    } else if power == digits - 1 {
        label_digit(span, digits, power, Label::Units, known)?;
        Ok(())
    } else {
        label_year(span, digits, power, known)?;
        Ok(())
    }
}

fn give_plain(span: Span, digits: u8, power: u8, known: &mut Known) -> Result<(), Memory>
    requires placed { IsPlaced span }
    requires format { span.length ≡ digits / 2 + 1 }
    ensures { OnOk result (Adds (λ xs. GivesPacked xs span digits power roles.Plain) known.old known.new) }
{
    if may_be_plain(known, span, digits, power) {
        label_each(span, Label::Plain, known)?;
        Ok(())
    } else {
        Ok(())
    }
}

/// Whether giving Plain to the digit of that power makes the number plain.
fn may_be_plain(known: &Known, span: Span, digits: u8, power: u8) -> bool
    requires placed { IsPlaced span }
    requires format { span.length ≡ digits / 2 + 1 }
    ensures { IsTrue result ↔ MayBePlain known.now span digits power }
{
    if power >= digits {
        false
    } else if digits == 2 {
        true
    } else {
        has_packed_year(known, span, digits, power)
    }
}

/// Whether a digit of a year stands at that power.
fn has_packed_year(known: &Known, span: Span, digits: u8, power: u8) -> bool
    requires placed { IsPlaced span }
    requires format { span.length ≡ digits / 2 + 1 }
    ensures { IsTrue result ↔ HasPackedYear known.now span digits power }
{
    if has_tens(known, span, digits, power) {
        true
    } else {
        has_units(known, span, digits, power)
    }
}

/// Labels each byte as one of a number whose year has its units digit at that power.
fn label_year(span: Span, digits: u8, unit: u8, known: &mut Known) -> Result<(), Memory>
    requires placed { IsPlaced span }
    requires format { span.length ≡ digits / 2 + 1 }
    ensures { OnOk result (Adds (λ _. IsPackedYear span digits unit) known.old known.new) }
{
    let label = Label::Packed {
        digits,
        unit,
        byte: 0,
    };
    label_each(span, label, known)?;
    Ok(())
}

/// Labels the byte of the digit of that power.
fn label_digit(
    span: Span,
    digits: u8,
    power: u8,
    label: Label,
    known: &mut Known,
) -> Result<(), Memory>
    requires placed { IsPlaced span }
    requires format { span.length ≡ digits / 2 + 1 }
    requires digit { power < digits }
    ensures { OnOk result (Adds (λ _. IsHalfYear span digits power label) known.old known.new) }
{
    let byte = (digits / 2 * 2 - power) / 2;
    insert_at(span, u32::from(byte), label, known)?;
    Ok(())
}

ghost use Rattle.std.specs.Prelude.{◌≡◌, ◌↔◌, ◌<◌, ◌≤◌, ℕ, List, IsTrue, OnOk};
ghost use Rattle.y2k_base.specs.declared.place.BytePlace.{BytePlace};
ghost use Rattle.year_labels.specs.declared.label.Fact.{Fact};
ghost use Rattle.year_labels.specs.declared.label.Role.{Role as AnyRole};
ghost use Rattle.year_labels.specs.declared.label.Role.TheVariants as roles;
ghost use Rattle.year_labels.specs.declared.rule.RuleForm.TheVariants as forms;
ghost use Rattle.year_labels.specs.Roles.{HasRole, Gives, label_of};
ghost use Rattle.year_labels.specs.Forms.{IsFitView, IsPassed, IsFilled, HasYearDigit, Follows};
ghost use Rattle.label_spread.specs.Steps.{Adds, IsPassedAs, IsPassedAt, IsFilledAt, MayFill, IsInView};

use crate::bytes::{any_byte_bears, bytes_limit, is_in_span, label_bytes};
use crate::known::Known;
use crate::packed::{give_packed, has_packed_role};
use y2k_base::{BytePlace, Memory};
use year_labels::{Label, Role, View};

/// The label of a byte that holds just a digit of that role.
pub fn label_for(role: Role) -> Label
    ensures { result ≡ label_of role }
{
    match role {
        Role::Tens => Label::Tens,
        Role::Units => Label::Units,
        Role::Plain => Label::Plain,
    }
}

/// Whether the digit of that power has the role.
pub(crate) fn has_role(known: &Known, view: &View, power: u8, role: Role) -> bool
    requires { IsFitView view.now }
    ensures { IsTrue result ↔ HasRole known.now view.now power role }
{
    match view {
        View::Bytes { span, powers } => {
            let label = label_for(role);
            any_byte_bears(known, *span, powers.items(), power, label)
        }
        View::Packed { span, digits } => has_packed_role(known, *span, *digits, power, role),
        View::Plain => role == Role::Plain,
    }
}

/// Gives the role to the digit of that power.
pub(crate) fn give_role(view: &View, power: u8, role: Role, known: &mut Known) -> Result<(), Memory>
    requires { IsFitView view.now }
    ensures { OnOk result (Adds (λ xs. Gives xs view.now power role) known.old known.new) }
{
    match view {
        View::Bytes { span, powers } => {
            let label = label_for(role);
            label_bytes(*span, powers.items(), power, label, known)?;
            Ok(())
        }
        View::Packed { span, digits } => {
            give_packed(*span, *digits, power, role, known)?;
            Ok(())
        }
        View::Plain => Ok(()),
    }
}

/// A power above those of all digits of the view.
pub fn power_limit(view: &View) -> u16
    ensures small { result ≤ 256 }
    ensures above { (known : List Fact) (power : ℕ) (role : AnyRole) (f : Fact) → Gives known view.now power role f → power < result }
{
    match view {
        View::Bytes { powers, .. } => bytes_limit(powers.items()),
        View::Packed { digits, .. } => u16::from(*digits),
        View::Plain => 0,
    }
}

/// Gives the roles of each view to the other.
pub(crate) fn pass_both(a: &View, b: &View, known: &mut Known) -> Result<(), Memory>
    requires a { IsFitView a.now }
    requires b { IsFitView b.now }
    ensures { OnOk result (Adds (Follows (forms.Digits a.now b.now)) known.old known.new) }
{
    pass_roles(a, b, known)?;
    pass_roles(b, a, known)?;
    Ok(())
}

/// Gives each role of a digit of the one view to the digit of the same power of the other.
fn pass_roles(from: &View, to: &View, known: &mut Known) -> Result<(), Memory>
    requires from { IsFitView from.now }
    requires to { IsFitView to.now }
    ensures { OnOk result (Adds (IsPassed from.now to.now) known.old known.new) }
{
    let limit = power_limit(to);
    for power in 0..limit {
        pass_power(from, to, power as u8, known)?;
    }
    Ok(())
}

/// Gives each role of the digit of that power.
fn pass_power(from: &View, to: &View, power: u8, known: &mut Known) -> Result<(), Memory>
    requires from { IsFitView from.now }
    requires to { IsFitView to.now }
    ensures { OnOk result (Adds (IsPassedAt from.now to.now power) known.old known.new) }
{
    pass_role(from, to, power, Role::Tens, known)?;
    pass_role(from, to, power, Role::Units, known)?;
    pass_role(from, to, power, Role::Plain, known)?;
    Ok(())
}

/// Gives the role of the digit of that power, where it has it.
fn pass_role(from: &View, to: &View, power: u8, role: Role, known: &mut Known) -> Result<(), Memory>
    requires from { IsFitView from.now }
    requires to { IsFitView to.now }
    ensures { OnOk result (Adds (IsPassedAs from.now to.now power role) known.old known.new) }
{
    if has_role(known, from, power, role) {
        give_role(to, power, role, known)?;
        Ok(())
    } else {
        Ok(())
    }
}

/// Makes each digit of a year plain that stands at that power or above.
pub(crate) fn fill(view: &View, from: u8, known: &mut Known) -> Result<(), Memory>
    requires { IsFitView view.now }
    ensures { OnOk result (Adds (IsFilled view.now from) known.old known.new) }
{
    let limit = power_limit(view);
    for power in 0..limit {
        fill_power(view, from, power as u8, known)?;
    }
    Ok(())
}

/// Makes the digit of that power plain, where it is one of those.
fn fill_power(view: &View, from: u8, power: u8, known: &mut Known) -> Result<(), Memory>
    requires { IsFitView view.now }
    ensures { OnOk result (Adds (IsFilledAt view.now from power) known.old known.new) }
{
    if may_fill(known, view, from, power) {
        give_role(view, power, Role::Plain, known)?;
        Ok(())
    } else {
        Ok(())
    }
}

/// Whether a digit of a year stands at that power, and it is not below the other.
fn may_fill(known: &Known, view: &View, from: u8, power: u8) -> bool
    requires { IsFitView view.now }
    ensures { IsTrue result ↔ MayFill known.now view.now from power }
{
    if power < from {
        false
    } else {
        has_year_digit(known, view, power)
    }
}

fn has_year_digit(known: &Known, view: &View, power: u8) -> bool
    requires { IsFitView view.now }
    ensures { IsTrue result ↔ HasYearDigit known.now view.now power }
{
    has_role(known, view, power, Role::Tens) || has_role(known, view, power, Role::Units)
}

/// Whether the place is a byte of the view.
pub(crate) fn is_in_view(view: &View, place: BytePlace) -> bool
    ensures { IsTrue result ↔ IsInView view.now place }
{
    match view {
        View::Bytes { span, .. } => is_in_span(*span, place),
        View::Packed { span, .. } => is_in_span(*span, place),
        View::Plain => false,
    }
}

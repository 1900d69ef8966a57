ghost use Rattle.std.specs.Prelude.{◌≡◌, ◌⊎◌, ◌↔◌, IsTrue, OnOk, Contains};
ghost use Rattle.year_labels.specs.declared.rule.RuleForm.TheVariants as forms;
ghost use Rattle.year_labels.specs.Forms.{IsFit, IsFitView, Follows};
ghost use Rattle.label_spread.specs.Steps.{Adds, Starts, Reacts, FollowsAlike, FollowsWhole, Touches, IsInView};

use crate::bytes::copy_label;
use crate::known::Known;
use crate::roles::{fill, give_role, is_in_view, pass_both};
use crate::sums::fire_rows;
use case_tables::{ADD_ROWS, SUB_ROWS};
use y2k_base::{BytePlace, Memory};
use year_labels::{Fact, RuleForm, View};

/// Adds what the rule gives from nothing.
pub(crate) fn start(form: &RuleForm, known: &mut Known) -> Result<(), Memory>
    requires { IsFit form.now }
    ensures { OnOk result (Starts (Follows form.now) known.old known.new) }
{
    apply(form, known)?;
    Ok(())
}

/// Adds what follows by the rule where this fact is one of those that it follows from.
pub(crate) fn react(form: &RuleForm, fact: Fact, known: &mut Known) -> Result<(), Memory>
    requires fit { IsFit form.now }
    requires there { Contains known.old fact }
    ensures { OnOk result (Reacts (Follows form.now) fact known.old known.new) }
{
    react_alike(form, fact, known)?;
    react_whole(form, fact, known)?;
    Ok(())
}

/// Copies the label of the fact, where the rule is that bytes are alike.
fn react_alike(form: &RuleForm, fact: Fact, known: &mut Known) -> Result<(), Memory>
    requires fit { IsFit form.now }
    requires there { Contains known.old fact }
    ensures { OnOk result (Reacts (FollowsAlike form.now) fact known.old known.new) }
{
    match form {
        RuleForm::Alike { a, b } => {
            copy_label(*a, *b, fact, known)?;
            copy_label(*b, *a, fact, known)?;
            Ok(())
        }
        _ => Ok(()),
    }
}

/// Applies any other rule, where the fact is about a byte of one of its digits.
fn react_whole(form: &RuleForm, fact: Fact, known: &mut Known) -> Result<(), Memory>
    requires fit { IsFit form.now }
    requires there { Contains known.old fact }
    ensures { OnOk result (Reacts (FollowsWhole form.now) fact known.old known.new) }
{
    if touches(form, fact.place) {
        apply(form, known)?;
        Ok(())
    } else {
        Ok(())
    }
}

/// Whether the byte is one of those whose digits the rule looks at.
fn touches(form: &RuleForm, place: BytePlace) -> bool
    ensures { IsTrue result ↔ Touches form.now place }
{
    match form {
        RuleForm::Give { .. } => false,
        RuleForm::GiveDigit { view, .. } => is_in_view(view, place),
        RuleForm::Alike { .. } => false,
        RuleForm::Digits { a, b } => is_in_either(a, b, place),
        RuleForm::Fill { view, .. } => is_in_view(view, place),
        RuleForm::Sum { a, b, c } => is_in_any(a, b, c, place),
        RuleForm::Difference { a, b, c } => is_in_any(a, b, c, place),
    }
}

fn is_in_either(a: &View, b: &View, place: BytePlace) -> bool
    ensures { IsTrue result ↔ (IsInView a.now place ⊎ IsInView b.now place) }
{
    is_in_view(a, place) || is_in_view(b, place)
}

fn is_in_any(a: &View, b: &View, c: &View, place: BytePlace) -> bool
    ensures { IsTrue result ↔ (IsInView a.now place ⊎ (IsInView b.now place ⊎ IsInView c.now place)) }
{
    is_in_view(a, place) || is_in_either(b, c, place)
}

/// Adds what follows from the known facts by a rule that isn't one of alike bytes.
fn apply(form: &RuleForm, known: &mut Known) -> Result<(), Memory>
    requires { IsFit form.now }
    ensures { OnOk result (Adds (FollowsWhole form.now) known.old known.new) }
{
    match form {
        RuleForm::Give { fact } => {
            known.insert(*fact)?;
            Ok(())
        }
        RuleForm::GiveDigit { view, power, role } => {
            give_role(view, *power, *role, known)?;
            Ok(())
        }
        RuleForm::Alike { .. } => Ok(()),
        RuleForm::Digits { a, b } => {
            pass_both(a, b, known)?;
            Ok(())
        }
        RuleForm::Fill { view, from } => {
            fill(view, *from, known)?;
            Ok(())
        }
        RuleForm::Sum { a, b, c } => {
            apply_sum(a, b, c, known)?;
            Ok(())
        }
        RuleForm::Difference { a, b, c } => {
            apply_difference(a, b, c, known)?;
            Ok(())
        }
    }
}

fn apply_sum(a: &View, b: &View, c: &View, known: &mut Known) -> Result<(), Memory>
    requires a { IsFitView a.now }
    requires b { IsFitView b.now }
    requires c { IsFitView c.now }
    ensures { OnOk result (Adds (Follows (forms.Sum a.now b.now c.now)) known.old known.new) }
{
    fire_rows(a, b, c, &ADD_ROWS, known)?;
    Ok(())
}

fn apply_difference(a: &View, b: &View, c: &View, known: &mut Known) -> Result<(), Memory>
    requires a { IsFitView a.now }
    requires b { IsFitView b.now }
    requires c { IsFitView c.now }
    ensures { OnOk result (Adds (Follows (forms.Difference a.now b.now c.now)) known.old known.new) }
{
    fire_rows(a, b, c, &SUB_ROWS, known)?;
    Ok(())
}

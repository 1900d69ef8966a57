ghost use Rattle.std.specs.Prelude.{◌↔◌, IsTrue, All};
ghost use Rattle.year_labels.specs.Forms.{IsFit, IsFitView, IsPlaced};

use y2k_base::Span;
use year_labels::{RuleForm, RuleInst, View};

fn is_placed(span: Span) -> bool
    ensures { IsTrue result ↔ IsPlaced span }
{
    u64::from(span.offset) + u64::from(span.length) <= 1 << 32
}

fn is_fit_view(view: &View) -> bool
    ensures { IsTrue result ↔ IsFitView view.now }
{
    match view {
        View::Bytes { span, powers } => { is_placed(*span) && powers.len() == span.length as usize }
        View::Packed { span, digits } => {
            is_placed(*span) && span.length == u32::from(*digits) / 2 + 1
        }
        View::Plain => true,
    }
}

/// Whether the spans and views of a rule are such as spreading labels asks for.
pub fn is_fit(form: &RuleForm) -> bool
    ensures { IsTrue result ↔ IsFit form.now }
{
    match form {
        RuleForm::Give { fact: _ } => true,
        RuleForm::GiveDigit {
            view,
            power: _,
            role: _,
        } => is_fit_view(view),
        RuleForm::Alike { a, b } => is_placed(*a) && (is_placed(*b) && a.length == b.length),
        RuleForm::Digits { a, b } => is_fit_view(a) && is_fit_view(b),
        RuleForm::Fill { view, from: _ } => is_fit_view(view),
        RuleForm::Sum { a, b, c } => is_fit_view(a) && (is_fit_view(b) && is_fit_view(c)),
        RuleForm::Difference { a, b, c } => is_fit_view(a) && (is_fit_view(b) && is_fit_view(c)),
    }
}

/// Whether the spans and views of all rules are such as spreading labels asks for.
pub(crate) fn are_fit(rules: &[RuleInst]) -> bool
    ensures { IsTrue result → All (λ r. IsFit r.form) rules.now }
{
    for inst in rules {
        if !is_fit(&inst.form) {
            return false;
        }
    }
    true
}

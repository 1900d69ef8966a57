use std::alloc::Global;
use y2k_base::{BytePlace, Memory, Span};
use year_labels::{RuleForm, View};

/// The bytes whose facts a rule gives or looks at.
pub(crate) fn spans_of(alloc: Global, form: &RuleForm) -> Result<Vec<Span>, Memory> {
    let mut spans = Vec::new(alloc);
    match form {
        RuleForm::Give { fact } => spans.push(byte_of(fact.place))?,
        RuleForm::GiveDigit { view, .. } => add_view(view, &mut spans)?,
        RuleForm::Alike { a, b } => {
            spans.push(*a)?;
            spans.push(*b)?;
        }
        RuleForm::Digits { a, b } => {
            add_view(a, &mut spans)?;
            add_view(b, &mut spans)?;
        }
        RuleForm::Fill { view, .. } => add_view(view, &mut spans)?,
        RuleForm::Sum { a, b, c } | RuleForm::Difference { a, b, c } => {
            add_view(a, &mut spans)?;
            add_view(b, &mut spans)?;
            add_view(c, &mut spans)?;
        }
    }
    Ok(spans)
}

fn add_view(view: &View, spans: &mut Vec<Span>) -> Result<(), Memory> {
    match view {
        View::Bytes { span, .. } => spans.push(*span)?,
        View::Packed { span, .. } => spans.push(*span)?,
        View::Plain => {}
    }
    Ok(())
}

fn byte_of(place: BytePlace) -> Span {
    Span {
        area: place.area,
        offset: place.offset,
        length: 1,
    }
}

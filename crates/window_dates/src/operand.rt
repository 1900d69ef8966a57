ghost use Rattle.std.specs.Prelude.{◌≡◌, Some, None, MatchOption};
ghost use Rattle.window_dates.specs.Operands as spec;

use cobol_syntax::Usage;
use date_uses::Used;
use date_views::{Field, Side};
use operand_kinds::Kind;
use window_modes::YearMode;
use y2k_base::Span;
use year_index::YearIndex;
use year_pairs::{Year, YearKind};

fn side_field(side: &Option<Side>) -> Option<&Field>
    ensures { MatchOption result (spec.side_field side.now ≡ None) (λ field. spec.side_field side.now ≡ Some field.now) }
{
    match side {
        None => None,
        Some(Side::Known(field)) => Some(field),
        Some(Side::Moving { most: _ }) => None,
    }
}

/// What an operand takes of storage, or `None` for a literal and for a place whose bytes can't be told.
pub fn field_of(operand: &Used) -> Option<&Field>
    ensures { MatchOption result (spec.field_of operand.now ≡ None) (λ field. spec.field_of operand.now ≡ Some field.now) }
{
    match operand {
        Used::Place(place) => side_field(&place.side),
        Used::Number {
            value: _,
            digits: _,
            at: _,
        } => None,
        Used::Text { bytes: _, at: _ } => None,
        Used::Figure { byte: _, at: _ } => None,
    }
}

/// The years that an operand has a byte of, in order of places.
pub fn years_of<'a>(index: &'a YearIndex, operand: &Used) -> &'a [YearMode]
    ensures { result.now ≡ spec.years_of index.now operand.now }
{
    match field_of(operand) {
        None => &[],
        Some(field) => index.years_in(field.span),
    }
}

fn is_number_side(side: &Option<Side>) -> bool
    ensures { result ≡ spec.is_number_side side.now }
{
    match side {
        None => false,
        Some(side) => side.kind().is_number(),
    }
}

fn is_number(operand: &Used) -> bool
    ensures { result ≡ spec.is_number operand.now }
{
    match operand {
        Used::Place(place) => is_number_side(&place.side),
        Used::Number {
            value: _,
            digits: _,
            at: _,
        } => true,
        Used::Text { bytes: _, at: _ } => false,
        Used::Figure { byte: _, at: _ } => false,
    }
}

fn is_zero(operand: &Used) -> bool
    ensures { result ≡ spec.is_zero operand.now }
{
    match operand {
        Used::Place(_) => false,
        Used::Number {
            value: _,
            digits: _,
            at: _,
        } => false,
        Used::Text { bytes: _, at: _ } => false,
        Used::Figure { byte, at: _ } => *byte == b'0',
    }
}

/// Whether two operands are compared by their values, and not by their bytes.
pub fn compares_values(left: &Used, right: &Used) -> bool
    ensures { result ≡ spec.compares_values left.now right.now }
{
    (is_number(left) && (is_number(right) || is_zero(right))) || (is_zero(left) && is_number(right))
}

fn is_packed_usage(usage: Usage) -> bool
    ensures { result ≡ spec.is_packed_usage usage }
{
    match usage {
        Usage::Display => false,
        Usage::Packed => true,
        Usage::Binary => false,
    }
}

fn is_packed(kind: Kind) -> bool
    ensures { result ≡ spec.is_packed kind }
{
    match kind {
        Kind::Group => false,
        Kind::Text => false,
        Kind::Edited { form: _ } => false,
        Kind::Number { usage, form: _ } => is_packed_usage(usage),
    }
}

fn has_lead_kind(field: &Field, kind: YearKind) -> bool
    ensures { result ≡ spec.has_lead_kind field.now kind }
{
    match kind {
        YearKind::Pair => !is_packed(field.kind),
        YearKind::Packed { digits, unit } => {
            is_packed(field.kind)
                && (digits == field.digits && u32::from(unit) + 2 == u32::from(field.digits))
        }
    }
}

fn begins(span: Span, year: Year) -> bool
    ensures { result ≡ spec.begins span year }
{
    year.place.area.0 == span.area.0 && year.place.offset == span.offset
}

fn leads(field: &Field, year: Year) -> bool
    ensures { result ≡ spec.leads field.now year }
{
    begins(field.span, year) && has_lead_kind(field, year.kind)
}

fn only_lead(field: &Field, years: &[YearMode]) -> Option<YearMode>
    ensures { result ≡ spec.only_lead field.now years.now }
{
    match years {
        [] => None,
        [mode] => {
            if leads(field, mode.year) {
                Some(*mode)
            } else {
                None
            }
        }
        [_, _, ..] => None,
    }
}

/// The year in the first two digits or bytes of an operand, if that is its only one.
pub fn lead_year(index: &YearIndex, operand: &Used) -> Option<YearMode>
    ensures { result ≡ spec.lead_year index.now operand.now }
{
    match field_of(operand) {
        None => None,
        Some(field) => only_lead(field, index.years_in(field.span)),
    }
}

ghost use Rattle.std.specs.Prelude.{◌≡◌, Some, None, MatchOption};
ghost use Rattle.date_views.specs.Sums as sums;
ghost use Rattle.window_dates.specs.Operands as operands;
ghost use Rattle.window_dates.specs.Windows as spec;

use crate::operand::{field_of, years_of};
use cobol_syntax::Usage;
use date_uses::Used;
use date_views::Field;
use decimal_bytes::NumForm;
use operand_kinds::Kind;
use window_modes::YearMode;
use y2k_base::BytePlace;
use year_index::YearIndex;
use year_pairs::Year;

/// A year of the hundred years that begin with 1900 and the pivot.
#[derive(Clone, Copy, Debug, PartialEq, Eq)]
pub struct WindowedYear {
    pub year: Year,
    pub pivot: u8,
}

/// Whether the year keeps its two digits; any other gets its century.
pub fn is_windowed(mode: YearMode) -> bool
    ensures { result ≡ spec.is_windowed mode }
{
    match mode.pivot {
        None => false,
        Some(_) => true,
    }
}

/// The year with its pivot, where it has one.
pub fn windowed(mode: YearMode) -> Option<WindowedYear>
    ensures { result ≡ spec.windowed mode }
{
    match mode.pivot {
        None => None,
        Some(pivot) => Some(WindowedYear {
            year: mode.year,
            pivot,
        }),
    }
}

fn first_windowed(years: &[YearMode]) -> Option<WindowedYear>
    ensures { result ≡ spec.first_windowed years.now }
{
    let mut rest = years;
    while let [mode, more @ ..] = rest {
        match windowed(*mode) {
            None => rest = more,
            Some(year) => return Some(year),
        }
    }
    None
}

fn stands_before(a: BytePlace, b: BytePlace) -> bool
    ensures { result ≡ spec.stands_before a b }
{
    a.area.0 < b.area.0 || (a.area.0 == b.area.0 && a.offset < b.offset)
}

fn lesser(year: Option<WindowedYear>, other: Option<WindowedYear>) -> Option<WindowedYear>
    ensures { result ≡ spec.lesser year other }
{
    match year {
        None => other,
        Some(year) => match other {
            None => Some(year),
            Some(other) => {
                if stands_before(other.year.place, year.year.place) {
                    Some(other)
                } else {
                    Some(year)
                }
            }
        },
    }
}

/// The first windowed year of an operand, by place.
pub fn window_in(index: &YearIndex, operand: &Used) -> Option<WindowedYear>
    ensures { result ≡ spec.window_in index.now operand.now }
{
    first_windowed(years_of(index, operand))
}

/// The first windowed year of two operands, by place.
pub fn window_of(index: &YearIndex, left: &Used, right: &Used) -> Option<WindowedYear>
    ensures { result ≡ spec.window_of index.now left.now right.now }
{
    lesser(window_in(index, left), window_in(index, right))
}

fn may_show_years(usage: Usage, form: NumForm) -> bool
    ensures { result ≡ sums.may_show_years usage form }
{
    match usage {
        Usage::Display => !form.signed,
        Usage::Packed => true,
        Usage::Binary => false,
    }
}

fn takes_part(kind: Kind) -> bool
    ensures { result ≡ sums.takes_part kind }
{
    match kind {
        Kind::Group => false,
        Kind::Text => false,
        Kind::Edited { form: _ } => false,
        Kind::Number { usage, form } => {
            (form.digits == 2 && form.scale == 0) && may_show_years(usage, form)
        }
    }
}

fn part_of(field: &Field) -> Option<&Field>
    ensures { MatchOption result (spec.part_field (Some field.now) ≡ None) (λ part. spec.part_field (Some field.now) ≡ Some part.now) }
{
    if takes_part(field.kind) {
        Some(field)
    } else {
        None
    }
}

fn part_field(operand: &Used) -> Option<&Field>
    ensures { MatchOption result (spec.part_field (operands.field_of operand.now) ≡ None) (λ field. spec.part_field (operands.field_of operand.now) ≡ Some field.now) }
{
    match field_of(operand) {
        None => None,
        Some(field) => part_of(field),
    }
}

/// The windowed year that an operand of a sum or a difference is. Only an integer of two digits, unsigned DISPLAY or packed,
/// may be one.
pub fn window_part(index: &YearIndex, operand: &Used) -> Option<WindowedYear>
    ensures { result ≡ spec.window_part index.now operand.now }
{
    match part_field(operand) {
        None => None,
        Some(field) => first_windowed(index.years_in(field.span)),
    }
}

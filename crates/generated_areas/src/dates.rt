ghost use Rattle.std.specs.Prelude.{◌≡◌, ◌+◌, ◌&&◌, IfOk};
ghost use Rattle.year_labels.specs.Facts as facts;
ghost use Rattle.mode_links.specs.Bridges as bridges;
ghost use Rattle.generated_areas.specs.Dates as spec;

use cobol_syntax::Register;
use date_uses::{UseForm, Used};
use date_views::{Field, Side};
use std::alloc::Global;
use window_modes::YearMode;
use y2k_base::{BytePlace, Memory, Span};
use year_index::YearIndex;
use year_labels::View;
use year_pairs::YearKind;

/// The power of the units digit of the year in a register.
fn year_power(from: Register) -> Option<u8>
    ensures { result ≡ spec.year_power from }
{
    match from {
        Register::Date => Some(4),
        Register::Day => Some(3),
        Register::Time => None,
    }
}

fn is_power(power: u8, digit: Option<u8>) -> bool
    ensures { result ≡ bridges.is_power power digit }
{
    match digit {
        None => false,
        Some(other) => other == power,
    }
}

fn place_in(span: Span, index: u32) -> Result<BytePlace, Memory>
    ensures { IfOk result (λ place. place ≡ facts.place_in span index) }
{
    match span.offset.checked_add(index) {
        None => Err(Memory),
        Some(offset) => Ok(BytePlace {
            area: span.area,
            offset,
        }),
    }
}

fn next_index(index: u32) -> Result<u32, Memory>
    ensures { IfOk result (λ next. next ≡ index + 1) }
{
    match index.checked_add(1) {
        None => Err(Memory),
        Some(next) => Ok(next),
    }
}

/// The byte of a span that has the digit of that power.
fn digit_in(power: u8, span: Span, powers: &[Option<u8>]) -> Result<Option<BytePlace>, Memory>
    ensures { IfOk result (λ place. place ≡ spec.digit_from power span 0 powers.now) }
{
    let mut index = 0;
    let mut rest = powers;
    while let [digit, more @ ..] = rest {
        if is_power(power, *digit) {
            let place = place_in(span, index)?;
            return Ok(Some(place));
        }
        index = next_index(index)?;
        rest = more;
    }
    Ok(None)
}

/// The byte with which a year begins that has its units digit at that power.
fn first_in_view(unit: u8, view: &View) -> Result<Option<BytePlace>, Memory>
    ensures { IfOk result (λ place. place ≡ spec.first_in_view unit view.now) }
{
    match view {
        View::Bytes { span, powers } => match unit.checked_add(1) {
            None => Err(Memory),
            Some(power) => {
                let place = digit_in(power, *span, powers.items())?;
                Ok(place)
            }
        },
        View::Packed { span, digits: _ } => {
            let place = place_in(*span, 0)?;
            Ok(Some(place))
        }
        View::Plain => Ok(None),
    }
}

fn first_byte(unit: u8, field: &Field) -> Result<Option<BytePlace>, Memory>
    ensures { IfOk result (λ place. place ≡ spec.first_byte unit field.now) }
{
    if field.kind.is_aligned() {
        let place = first_in_view(unit, &field.view)?;
        Ok(place)
    } else {
        let place = place_in(field.span, 0)?;
        Ok(Some(place))
    }
}

fn has_unit(unit: u8, kind: YearKind) -> bool
    ensures { result ≡ spec.has_unit unit kind }
{
    match kind {
        YearKind::Pair => true,
        YearKind::Packed {
            digits: _,
            unit: power,
        } => power == unit,
    }
}

/// Whether the year gets its century, and begins with the byte.
fn is_expanded(unit: u8, place: BytePlace, mode: Option<YearMode>) -> bool
    ensures { result ≡ spec.is_expanded unit place mode }
{
    match mode {
        None => false,
        Some(mode) => {
            mode.pivot.is_none()
                && (mode.year.place.offset == place.offset && has_unit(unit, mode.year.kind))
        }
    }
}

fn expanded_at(index: &YearIndex, unit: u8, place: Option<BytePlace>) -> bool
    ensures { result ≡ spec.expanded_at index.now unit place }
{
    match place {
        None => false,
        Some(place) => is_expanded(unit, place, index.year_at(place)),
    }
}

fn gives_side(index: &YearIndex, unit: u8, side: &Option<Side>) -> Result<bool, Memory>
    ensures { IfOk result (λ gives. gives ≡ spec.gives_side index.now unit side.now) }
{
    match side {
        None => Ok(false),
        Some(Side::Known(field)) => {
            let place = first_byte(unit, field)?;
            Ok(expanded_at(index, unit, place))
        }
        Some(Side::Moving { most: _ }) => Ok(false),
    }
}

fn gives_used(index: &YearIndex, unit: u8, to: &Used) -> Result<bool, Memory>
    ensures { IfOk result (λ gives. gives ≡ spec.gives_used index.now unit to.now) }
{
    match to {
        Used::Place(place) => {
            let gives = gives_side(index, unit, &place.side)?;
            Ok(gives)
        }
        Used::Number { .. } => Ok(false),
        Used::Text { .. } => Ok(false),
        Used::Figure { .. } => Ok(false),
    }
}

fn accepts_from(index: &YearIndex, unit: u8, to: &Used, from: Register) -> Result<bool, Memory>
    ensures { IfOk result (λ accepts. accepts ≡ (bridges.is_power unit (spec.year_power from) && spec.gives_used index.now unit to.now)) }
{
    if is_power(unit, year_power(from)) {
        let gives = gives_used(index, unit, to)?;
        Ok(gives)
    } else {
        Ok(false)
    }
}

/// Whether the use accepts a year that gets its century, with its units digit at that power.
pub fn accepts_year(index: &YearIndex, unit: u8, form: &UseForm) -> Result<bool, Memory>
    ensures { IfOk result (λ accepts. accepts ≡ spec.accepts_year index.now unit form.now) }
{
    match form {
        UseForm::Move { .. } => Ok(false),
        UseForm::Accept { to, from } => {
            let accepts = accepts_from(index, unit, to, *from)?;
            Ok(accepts)
        }
        UseForm::Compare { .. } => Ok(false),
        UseForm::Class { .. } => Ok(false),
        UseForm::Sum { .. } => Ok(false),
        UseForm::Difference { .. } => Ok(false),
        UseForm::Value { .. } => Ok(false),
        UseForm::Range { .. } => Ok(false),
        UseForm::Mention { .. } => Ok(false),
    }
}

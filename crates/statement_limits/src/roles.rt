ghost use Rattle.std.specs.Prelude.{◌≡◌, ◌↔◌, ◌&&◌, true, false, IsTrue, IfOk};
ghost use Rattle.year_labels.specs.Facts as facts;
ghost use Rattle.year_labels.specs.Operands.{Is};
ghost use Rattle.year_labels.specs.Roles as known;
ghost use Rattle.year_labels.specs.declared.label.Label.TheVariants as labels;
ghost use Rattle.year_labels.specs.declared.label.Role.TheVariants as roles;
ghost use Rattle.mode_links.specs.Bridges as bridges;
ghost use Rattle.statement_limits.specs.Roles as spec;

use crate::places::{either, next_index, place_in};
use y2k_base::{BytePlace, Memory, Span};
use year_labels::{Label, Labelling, Role, View};

fn bears(labelling: &Labelling, place: BytePlace, label: Label) -> bool
    ensures { result ≡ bridges.bears labelling.now place label }
{
    labelling.has(place, label)
}

fn bears_in(labelling: &Labelling, span: Span, index: u32, label: Label) -> Result<bool, Memory>
    ensures { IfOk result (λ is. is ≡ bridges.bears labelling.now (facts.place_in span index) label) }
{
    let place = place_in(span, index)?;
    let is = bears(labelling, place, label);
    Ok(is)
}

fn is_power(power: u8, digit: Option<u8>) -> bool
    ensures { result ≡ bridges.is_power power digit }
{
    match digit {
        None => false,
        Some(other) => other == power,
    }
}

fn bears_at_power(
    labelling: &Labelling,
    span: Span,
    label: Label,
    power: u8,
    index: u32,
    digit: Option<u8>,
) -> Result<bool, Memory>
    ensures { IfOk result (λ is. is ≡ (bridges.is_power power digit && bridges.bears labelling.now (facts.place_in span index) label)) }
{
    if is_power(power, digit) {
        let is = bears_in(labelling, span, index, label)?;
        Ok(is)
    } else {
        Ok(false)
    }
}

/// Whether the byte of the digit of that power bears the label.
fn digit_bears(
    labelling: &Labelling,
    span: Span,
    label: Label,
    power: u8,
    powers: &[Option<u8>],
) -> Result<bool, Memory>
    ensures { IfOk result (λ is. is ≡ spec.digit_bears labelling.now span label power 0 powers.now) }
{
    let mut index = 0;
    let mut rest = powers;
    while let [digit, more @ ..] = rest {
        if bears_at_power(labelling, span, label, power, index, *digit)? {
            return Ok(true);
        }
        index = next_index(index)?;
        rest = more;
    }
    Ok(false)
}

/// Whether a byte of a packed number bears the label that it has in a year. A byte past those that labels count is want of
/// memory.
fn byte_has_year(
    labelling: &Labelling,
    span: Span,
    digits: u8,
    unit: u8,
    index: u32,
) -> Result<bool, Memory>
    ensures { IfOk result (λ is. is ≡ bridges.bears labelling.now (facts.place_in span index) (labels.Packed digits unit index)) }
{
    match u8::try_from(index) {
        Err(_) => Err(Memory),
        Ok(byte) => {
            let label = Label::Packed { digits, unit, byte };
            let is = bears_in(labelling, span, index, label)?;
            Ok(is)
        }
    }
}

/// Whether a byte of a packed number bears the label that it has in a year with its units digit at that power.
fn year_bears(labelling: &Labelling, span: Span, digits: u8, unit: u8) -> Result<bool, Memory>
    ensures { IfOk result (λ is. is ≡ spec.year_bears labelling.now span digits unit span.length) }
{
    let mut any = false;
    for index in 0..span.length {
        any = either(any, byte_has_year(labelling, span, digits, unit, index)?);
    }
    Ok(any)
}

fn plain_bears(labelling: &Labelling, span: Span) -> Result<bool, Memory>
    ensures { IfOk result (λ is. is ≡ spec.plain_bears labelling.now span span.length) }
{
    let mut any = false;
    for index in 0..span.length {
        any = either(any, bears_in(labelling, span, index, Label::Plain)?);
    }
    Ok(any)
}

fn has_packed_tens(labelling: &Labelling, span: Span, digits: u8, power: u8) -> Result<bool, Memory>
    ensures { IfOk result (λ is. is ≡ spec.has_packed_role labelling.now span digits power roles.Tens) }
{
    match power.checked_sub(1) {
        None => Ok(false),
        Some(unit) => {
            let is = year_bears(labelling, span, digits, unit)?;
            Ok(is)
        }
    }
}

fn has_packed_plain(
    labelling: &Labelling,
    span: Span,
    digits: u8,
    power: u8,
) -> Result<bool, Memory>
    ensures { IfOk result (λ is. is ≡ spec.has_packed_role labelling.now span digits power roles.Plain) }
{
    if power < digits {
        let is = plain_bears(labelling, span)?;
        Ok(is)
    } else {
        Ok(false)
    }
}

fn has_packed_role(
    labelling: &Labelling,
    span: Span,
    digits: u8,
    power: u8,
    role: Role,
) -> Result<bool, Memory>
    ensures { IfOk result (λ is. is ≡ spec.has_packed_role labelling.now span digits power role) }
{
    match role {
        Role::Tens => {
            let is = has_packed_tens(labelling, span, digits, power)?;
            Ok(is)
        }
        Role::Units => {
            let is = year_bears(labelling, span, digits, power)?;
            Ok(is)
        }
        Role::Plain => {
            let is = has_packed_plain(labelling, span, digits, power)?;
            Ok(is)
        }
    }
}

fn is_plain_role(role: Role) -> bool
    ensures { result ≡ spec.is_plain_role role }
{
    match role {
        Role::Tens => false,
        Role::Units => false,
        Role::Plain => true,
    }
}

fn label_of(role: Role) -> Label
    ensures { result ≡ known.label_of role }
{
    match role {
        Role::Tens => Label::Tens,
        Role::Units => Label::Units,
        Role::Plain => Label::Plain,
    }
}

/// Whether the digit of that power has the role.
fn has_role(labelling: &Labelling, view: &View, power: u8, role: Role) -> Result<bool, Memory>
    ensures { IfOk result (λ is. is ≡ spec.has_role labelling.now view.now power role) }
{
    match view {
        View::Bytes { span, powers } => {
            let is = digit_bears(labelling, *span, label_of(role), power, powers.items())?;
            Ok(is)
        }
        View::Packed { span, digits } => {
            let is = has_packed_role(labelling, *span, *digits, power, role)?;
            Ok(is)
        }
        View::Plain => Ok(is_plain_role(role)),
    }
}

/// Whether a number of two digits is a year, as a sum reads it.
#[tactic(auto, using(crate::proofs::Tested::year_is))]
pub(crate) fn is_year(labelling: &Labelling, view: &View) -> Result<bool, Memory>
    ensures value { IfOk result (λ is. is ≡ spec.is_year labelling.now view.now) }
    ensures same { IfOk result (λ is. IsTrue is ↔ Is labelling.now view.now true) }
{
    let tens = has_role(labelling, view, 1, Role::Tens)?;
    let units = has_role(labelling, view, 0, Role::Units)?;
    Ok(either(tens, units))
}

/// Whether a number of two digits is plain, as a sum reads it.
#[tactic(auto, using(crate::proofs::Tested::plain_is_plain))]
pub(crate) fn is_plain(labelling: &Labelling, view: &View) -> Result<bool, Memory>
    ensures value { IfOk result (λ is. is ≡ spec.is_plain labelling.now view.now) }
    ensures same { IfOk result (λ is. IsTrue is ↔ Is labelling.now view.now false) }
{
    let high = has_role(labelling, view, 1, Role::Plain)?;
    let low = has_role(labelling, view, 0, Role::Plain)?;
    Ok(either(high, low))
}

ghost use Rattle.std.specs.Prelude.{◌≡◌, ◌++◌, Some, IfOk, OnOk, replicate};
ghost use Rattle.date_views.specs.Views as spec;

use cobol_syntax::Usage;
use decimal_bytes::NumForm;
use operand_kinds::Kind;
use std::alloc::Global;
use y2k_base::{AreaId, List, Memory, Picture, Run, Span};
use year_labels::View;

fn is_digit(symbol: u8) -> bool
    ensures { result ≡ spec.is_digit symbol }
{
    symbol == b'9' || symbol == b'Z'
}

fn is_unseen(symbol: u8) -> bool
    ensures { result ≡ spec.is_unseen symbol }
{
    symbol == b'S' || symbol == b'V'
}

fn add_places(places: &mut List<bool>, count: u32, digit: bool) -> Result<(), Memory>
    ensures { OnOk result (places.new ≡ places.old ++ replicate count digit) }
{
    for _ in 0..count {
        places.push(digit)?;
    }
    Ok(())
}

fn add_run(places: &mut List<bool>, run: Run) -> Result<(), Memory>
    ensures { OnOk result (places.new ≡ places.old ++ spec.run_places run) }
{
    if is_digit(run.symbol) {
        add_places(places, run.count, true)?;
        Ok(())
    } else if is_unseen(run.symbol) {
        Ok(())
    } else {
        add_places(places, run.count, false)?;
        Ok(())
    }
}

/// For each byte of a picture, whether it is a digit.
pub fn digit_places(alloc: Global, runs: &[Run]) -> Result<List<bool>, Memory>
    ensures { IfOk result (λ places. places ≡ spec.digit_places runs.now) }
{
    let mut places = List::new(alloc);
    let mut rest = runs;
    while let [run, more @ ..] = rest {
        add_run(&mut places, *run)?;
        rest = more;
    }
    Ok(places)
}

fn power_at(left: u8, digit: bool) -> Option<u8>
    ensures { result ≡ spec.power_at left digit }
{
    if digit && left > 0 {
        Some(left - 1)
    } else {
        None
    }
}

fn left_after(left: u8, digit: bool) -> u8
    ensures { result ≡ spec.left_after left digit }
{
    if digit { left.saturating_sub(1) } else { left }
}

/// The powers of bytes of which some are digits, so many of them before the point.
fn powers(alloc: Global, digits: u8, places: &[bool]) -> Result<List<Option<u8>>, Memory>
    ensures { IfOk result (λ powers. powers ≡ spec.powers digits places.now) }
{
    let mut powers = List::new(alloc);
    let mut left = digits;
    let mut rest = places;
    while let [digit, more @ ..] = rest {
        powers.push(power_at(left, *digit))?;
        left = left_after(left, *digit);
        rest = more;
    }
    Ok(powers)
}

fn decimal_at(left: u8, digit: bool) -> Option<u8>
    ensures { result ≡ spec.decimal_at left digit }
{
    if digit && left == 0 { Some(0) } else { None }
}

/// The digits that follow so many integer digits.
fn decimals(alloc: Global, digits: u8, places: &[bool]) -> Result<List<Option<u8>>, Memory>
    ensures { IfOk result (λ decimals. decimals ≡ spec.decimals digits places.now) }
{
    let mut decimals = List::new(alloc);
    let mut left = digits;
    let mut rest = places;
    while let [digit, more @ ..] = rest {
        decimals.push(decimal_at(left, *digit))?;
        left = left_after(left, *digit);
        rest = more;
    }
    Ok(decimals)
}

/// Whether its bytes have offsets of 32 bits.
pub(crate) fn is_placed(span: Span) -> bool
    ensures { result ≡ spec.is_placed span }
{
    u64::from(span.offset) + u64::from(span.length) <= 1 << 32
}

fn nothing(alloc: Global) -> View
    ensures { result ≡ spec.nothing }
{
    View::Bytes {
        span: Span {
            area: AreaId(0),
            offset: 0,
            length: 0,
        },
        powers: List::new(alloc),
    }
}

/// The bytes with these powers.
fn over(alloc: Global, span: Span, powers: List<Option<u8>>) -> View
    ensures { result ≡ spec.over span powers }
{
    if is_placed(span) && powers.len() == span.length as usize {
        View::Bytes { span, powers }
    } else {
        nothing(alloc)
    }
}

fn packed(alloc: Global, span: Span, digits: u8) -> View
    ensures { result ≡ spec.packed span digits }
{
    if is_placed(span) && span.length == u32::from(digits) / 2 + 1 {
        View::Packed { span, digits }
    } else {
        nothing(alloc)
    }
}

/// Each byte a digit, the first of a number of so many digits.
pub(crate) fn all_digits(alloc: Global, span: Span, digits: u8) -> Result<View, Memory>
    ensures { IfOk result (λ view. view ≡ spec.all_digits span digits) }
{
    let mut places = List::new(alloc);
    add_places(&mut places, span.length, true)?;
    let powers = powers(alloc, digits, places.items())?;
    Ok(over(alloc, span, powers))
}

/// Each byte for itself, as the digit of power 0.
pub(crate) fn each_byte(alloc: Global, span: Span) -> Result<View, Memory>
    ensures { IfOk result (λ view. view ≡ spec.each_byte span) }
{
    let mut powers = List::new(alloc);
    for _ in 0..span.length {
        powers.push(Some(0))?;
    }
    Ok(over(alloc, span, powers))
}

pub fn runs_of(picture: &Option<Picture>) -> &[Run]
    ensures { result.now ≡ spec.runs_of picture.now }
{
    match picture {
        Some(picture) => picture.runs.items(),
        None => &[],
    }
}

pub(crate) fn integer_digits(form: NumForm) -> u8
    ensures { result ≡ spec.integer_digits form }
{
    form.digits.saturating_sub(form.scale)
}

fn text_digits(bytes: u32) -> u8
    ensures { result ≡ spec.text_digits bytes }
{
    match u8::try_from(bytes) {
        Ok(digits) => if digits <= 18 { digits } else { 0 },
        Err(_) => 0,
    }
}

fn text_view(alloc: Global, span: Span) -> Result<View, Memory>
    ensures { IfOk result (λ view. view ≡ spec.text_view span) }
{
    if span.length <= 18 {
        let view = all_digits(alloc, span, text_digits(span.length))?;
        Ok(view)
    } else {
        Ok(nothing(alloc))
    }
}

/// A digit a byte, as the picture has them.
fn picture_view(alloc: Global, form: NumForm, runs: &[Run], span: Span) -> Result<View, Memory>
    ensures { IfOk result (λ view. view ≡ spec.picture_view form runs.now span) }
{
    let places = digit_places(alloc, runs)?;
    let powers = powers(alloc, integer_digits(form), places.items())?;
    Ok(over(alloc, span, powers))
}

/// The digits after the point, each for itself.
pub(crate) fn decimal_view(
    alloc: Global,
    form: NumForm,
    runs: &[Run],
    span: Span,
) -> Result<View, Memory>
    ensures { IfOk result (λ view. view ≡ spec.decimal_view form runs.now span) }
{
    let places = digit_places(alloc, runs)?;
    let powers = decimals(alloc, integer_digits(form), places.items())?;
    Ok(over(alloc, span, powers))
}

fn number_view(
    alloc: Global,
    usage: Usage,
    form: NumForm,
    runs: &[Run],
    span: Span,
) -> Result<View, Memory>
    ensures { IfOk result (λ view. view ≡ spec.number_view usage form runs.now span) }
{
    match usage {
        Usage::Display => {
            if form.signed {
                Ok(View::Plain)
            } else {
                let view = picture_view(alloc, form, runs, span)?;
                Ok(view)
            }
        }
        Usage::Packed => {
            if form.scale == 0 {
                Ok(packed(alloc, span, form.digits))
            } else {
                Ok(View::Plain)
            }
        }
        Usage::Binary => Ok(View::Plain),
    }
}

/// The digits of an item or of a part of one.
pub(crate) fn view_of(alloc: Global, kind: Kind, runs: &[Run], span: Span) -> Result<View, Memory>
    ensures { IfOk result (λ view. view ≡ spec.view_of kind runs.now span) }
{
    match kind {
        Kind::Group => Ok(nothing(alloc)),
        Kind::Text => {
            let view = text_view(alloc, span)?;
            Ok(view)
        }
        Kind::Edited { form } => {
            let view = picture_view(alloc, form, runs, span)?;
            Ok(view)
        }
        Kind::Number { usage, form } => {
            let view = number_view(alloc, usage, form, runs, span)?;
            Ok(view)
        }
    }
}

/// How many integer digits something of that kind and of so many bytes has.
pub(crate) fn digits_of(kind: Kind, bytes: u32) -> u8
    ensures { result ≡ spec.digits_of kind bytes }
{
    match kind {
        Kind::Group => 0,
        Kind::Text => text_digits(bytes),
        Kind::Edited { form } => integer_digits(form),
        Kind::Number { usage: _, form } => integer_digits(form),
    }
}

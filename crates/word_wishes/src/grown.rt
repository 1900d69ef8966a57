ghost use Rattle.std.specs.Prelude.{◌≡◌, ◌+◌, decimal, IfOk};
ghost use Rattle.word_wishes.specs.Grown as spec;

use std::alloc::Global;
use window_modes::YearMode;
use y2k_base::{Bytes, List, Memory, Span};
use year_index::YearIndex;
use year_pairs::YearKind;

/// How many bytes the century takes.
fn century_bytes(kind: YearKind) -> u64
    ensures { result ≡ spec.century_bytes kind }
{
    match kind {
        YearKind::Pair => 2,
        YearKind::Packed { digits: _, unit: _ } => 1,
    }
}

/// How many bytes a year grows.
fn growth(mode: YearMode) -> u64
    ensures { result ≡ spec.growth mode }
{
    if mode.pivot.is_some() {
        0
    } else {
        century_bytes(mode.year.kind)
    }
}

fn plus(first: u64, second: u64) -> Result<u64, Memory>
    ensures { IfOk result (λ sum. sum ≡ first + second) }
{
    match first.checked_add(second) {
        None => Err(Memory),
        Some(sum) => Ok(sum),
    }
}

fn growths(modes: &[YearMode]) -> Result<u64, Memory>
    ensures { IfOk result (λ sum. sum ≡ spec.growths modes.now) }
{
    let mut sum = 0;
    let mut rest = modes;
    while let [mode, more @ ..] = rest {
        sum = plus(sum, growth(*mode))?;
        rest = more;
    }
    Ok(sum)
}

/// Whether a span gets longer.
pub(crate) fn grows(index: &YearIndex, span: Span) -> Result<bool, Memory>
    ensures { IfOk result (λ grows. grows ≡ spec.grows index.now span) }
{
    let more = growths(index.years_in(span))?;
    Ok(0 < more)
}

/// How many bytes a span has after the conversion, and so many more.
fn number_behind(index: &YearIndex, span: Span, more: u64) -> Result<u64, Memory>
    ensures { IfOk result (λ number. number ≡ spec.number_behind index.now span more) }
{
    let sum = growths(index.years_in(span))?;
    let length = plus(u64::from(span.length), sum)?;
    let number = plus(length, more)?;
    Ok(number)
}

fn number_text(alloc: Global, number: u64) -> Result<Bytes, Memory>
    ensures { IfOk result (λ text. text ≡ decimal number) }
{
    let text = number.to_string(alloc)?;
    let mut bytes = List::new(alloc);
    bytes.append(text.as_bytes())?;
    Ok(bytes)
}

/// How many bytes a span has after the conversion, and so many more, in digits; `None` where the span doesn't get longer.
pub(crate) fn new_number(
    alloc: Global,
    index: &YearIndex,
    span: Span,
    more: u64,
) -> Result<Option<Bytes>, Memory>
    ensures { IfOk result (λ text. text ≡ spec.new_number index.now span more) }
{
    if grows(index, span)? {
        let number = number_behind(index, span, more)?;
        let text = number_text(alloc, number)?;
        Ok(Some(text))
    } else {
        Ok(None)
    }
}

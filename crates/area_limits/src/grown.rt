ghost use Rattle.std.specs.Prelude.{◌≡◌, ◌+◌, IfOk};
ghost use Rattle.area_limits.specs.Grown as spec;

use window_modes::YearMode;
use y2k_base::{Memory, Span};
use year_index::YearIndex;
use year_pairs::YearKind;

/// How many bytes the century takes.
fn century_bytes(kind: YearKind) -> u64
    ensures { result ≡ spec.century_bytes kind }
{
    match kind {
        YearKind::Pair => 2,
        YearKind::Packed { digits: _, unit: _ } => 1,
    }
}

/// How many bytes a year grows.
fn growth(mode: YearMode) -> u64
    ensures { result ≡ spec.growth mode }
{
    if mode.pivot.is_some() {
        0
    } else {
        century_bytes(mode.year.kind)
    }
}

pub(crate) fn plus(first: u64, second: u64) -> Result<u64, Memory>
    ensures { IfOk result (λ sum. sum ≡ first + second) }
{
    match first.checked_add(second) {
        None => Err(Memory),
        Some(sum) => Ok(sum),
    }
}

fn growths(modes: &[YearMode]) -> Result<u64, Memory>
    ensures { IfOk result (λ sum. sum ≡ spec.growths modes.now) }
{
    let mut sum = 0;
    let mut rest = modes;
    while let [mode, more @ ..] = rest {
        sum = plus(sum, growth(*mode))?;
        rest = more;
    }
    Ok(sum)
}

/// How many bytes a span has after the conversion.
pub(crate) fn grown(index: &YearIndex, span: Span) -> Result<u64, Memory>
    ensures { IfOk result (λ length. length ≡ spec.grown index.now span) }
{
    let sum = growths(index.years_in(span))?;
    let length = plus(u64::from(span.length), sum)?;
    Ok(length)
}

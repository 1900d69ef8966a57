ghost use Rattle.std.specs.Prelude.{◌≡◌, ◌+◌, ◌<◌, ◌≤◌, ◌↔◌, IsTrue, All};
ghost use Rattle.year_pairs.specs.Years.{AreInOrder, EndsBefore, width};
ghost use Rattle.file_convert.specs.Cuts.{IsFitting, IsPivot, grown_digits, piece_at};
ghost use Rattle.plan_images.specs.Tables.{AreFit, IsLength, IsPlaced, kind_of, years_of};

use window_modes::YearMode;
use year_pairs::{Year, YearKind};

/// Whether `images_of` takes areas of these lengths, by their numbers, with these years.
pub fn are_fit(lengths: &[u32], modes: &[YearMode]) -> bool
    ensures { IsTrue result ↔ AreFit lengths.now modes.now }
{
    are_bounded(lengths) && are_placed(lengths, modes) && are_in_order(modes)
}

fn are_bounded(lengths: &[u32]) -> bool
    ensures { IsTrue result ↔ All IsLength lengths.now }
{
    for i in 0..lengths.len() {
        if !is_length(lengths[i]) {
            return false;
        }
    }
    true
}

fn is_length(length: u32) -> bool
    ensures { IsTrue result ↔ IsLength length }
{
    1 <= length && length <= 65535
}

fn are_placed(lengths: &[u32], modes: &[YearMode]) -> bool
    ensures { IsTrue result ↔ All (IsPlaced lengths.now) modes.now }
{
    for i in 0..modes.len() {
        if !is_placed(lengths, modes[i]) {
            return false;
        }
    }
    true
}

fn is_placed(lengths: &[u32], mode: YearMode) -> bool
    ensures { IsTrue result ↔ IsPlaced lengths.now mode }
{
    let number = mode.year.place.area.0 as usize;
    if number < lengths.len() {
        ends_by(mode.year, lengths[number]) && is_fitting(mode.year.kind, mode.pivot)
    } else {
        false
    }
}

fn ends_by(year: Year, length: u32) -> bool
    ensures { IsTrue result ↔ (year.place.offset + width year.kind ≤ length) }
{
    u64::from(year.place.offset) + u64::from(year.kind.width()) <= u64::from(length)
}

fn is_fitting(kind: YearKind, pivot: Option<u8>) -> bool
    ensures { IsTrue result ↔ IsFitting (piece_at (kind_of kind) pivot) }
{
    match kind {
        YearKind::Pair => is_pivot(pivot),
        YearKind::Packed { digits, unit } => {
            has_year(digits, unit) && has_room(digits, pivot) && is_pivot(pivot)
        }
    }
}

/// Whether the year stands within the digits of a packed number.
fn has_year(digits: u8, unit: u8) -> bool
    ensures { IsTrue result ↔ (unit + 2 ≤ digits) }
{
    u32::from(unit) + 2 <= u32::from(digits)
}

/// Whether the image of a packed number is not too long.
fn has_room(digits: u8, pivot: Option<u8>) -> bool
    ensures { IsTrue result ↔ (grown_digits digits pivot ≤ 18) }
{
    match pivot {
        Some(_) => digits <= 18,
        None => u32::from(digits) + 2 <= 18,
    }
}

fn is_pivot(pivot: Option<u8>) -> bool
    ensures { IsTrue result ↔ IsPivot pivot }
{
    match pivot {
        Some(pivot) => 1 <= pivot && pivot <= 99,
        None => true,
    }
}

/// Whether each year ends before the next begins.
fn are_in_order(modes: &[YearMode]) -> bool
    ensures { IsTrue result ↔ AreInOrder (years_of modes.now) }
{
    for i in 1..modes.len() {
        if !ends_before(modes[i - 1].year, modes[i].year) {
            return false;
        }
    }
    true
}

fn ends_before(first: Year, second: Year) -> bool
    ensures { IsTrue result ↔ EndsBefore first second }
{
    if first.place.area == second.place.area {
        ends_by(first, second.place.offset)
    } else {
        first.place.area.0 < second.place.area.0
    }
}

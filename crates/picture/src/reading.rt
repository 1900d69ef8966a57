ghost use Rattle.std.specs.Prelude.{◌≡◌, ◌+◌, ◌^◌, ◌<◌, [], ◌∷◌, ◌++◌, Some, None, length, MatchOption, IfSome, IfOk, IfErr};
ghost use Rattle.picture.specs.Places.{run_places, places, digit_count, AreMerged};
ghost use Rattle.picture.specs.Faults.{IsReading, HasReadFault, IsOnlyReading, HasShapeFault, AreRunsOf, HasNoRuns};
ghost use Rattle.picture.specs.Scanning.{with_digit, count_at, part_at};

use super::{PicFault, shape};
use std::alloc::Global;
use y2k_base::{List, Memory, Picture, Run};

/// How many characters a picture string may have.
pub(crate) const MAX_LENGTH: usize = 30;

/// How many digits a picture may have.
pub(crate) const MAX_DIGITS: u64 = 18;

/// The picture that a string, in capitals, reads as.
///
/// At most one picture is read from a string, and no string with a reading is refused but for its length of over
/// 30 characters or for over 18 digits, where each `Z` of an edited item is one.
pub fn read_picture(alloc: Global, text: &[u8]) -> Result<Picture, PicFault>
    ensures picture { IfOk result (IsReading text.now) }
    ensures only { IfOk result (IsOnlyReading text.now) }
    ensures fault { IfErr result (HasReadFault text.now) }
{
    if text.len() > MAX_LENGTH {
        return Err(PicFault::PictureFull);
    }
    let picture = reading(alloc, text)?;
    if digits(picture.runs.items()) > MAX_DIGITS {
        return Err(PicFault::TooManyDigits);
    }
    Ok(picture)
}

/// The picture that a text of any length reads as, with any number of digits.
pub(crate) fn reading(alloc: Global, text: &[u8]) -> Result<Picture, PicFault>
    ensures picture { IfOk result (IsOnlyReading text.now) }
    ensures fault { IfErr result (HasShapeFault text.now) }
{
    let runs = read_runs(alloc, text)?;
    let Some(class) = shape::class(runs.items()) else {
        return Err(PicFault::PictureShape);
    };
    Ok(Picture { class, runs })
}

/// How many digits a picture with these runs has.
pub(crate) fn digits(runs: &[Run]) -> u64
    requires { length (places runs.now) < 2 ^ 32 }
    ensures { result ≡ digit_count (places runs.now) }
{
    let mut digits = 0u64;
    for run in runs {
        if run.symbol == b'9' || run.symbol == b'Z' {
            digits += u64::from(run.count);
        }
    }
    digits
}

/// The runs that a text spells.
fn read_runs(alloc: Global, text: &[u8]) -> Result<List<Run>, PicFault>
    ensures runs { IfOk result (AreRunsOf text.now) }
    ensures fault { IfErr result (HasNoRuns text.now) }
{
    let Some((mut last, mut rest)) = part(text) else {
        return Err(PicFault::PictureShape);
    };
    let mut runs = List::new(alloc);
    let mut total = last.count;
    while !rest.is_empty() {
        let Some((run, after)) = part(rest) else {
            return Err(PicFault::PictureShape);
        };
        let Some(more) = total.checked_add(run.count) else {
            return Err(PicFault::PictureShape);
        };
        last = add(&mut runs, last, run)?;
        rest = after;
        total = more;
    }
    runs.push(last)?;
    Ok(runs)
}

/// Adds a run after the last one, which is kept apart from the others, and gives the new last one.
fn add(runs: &mut List<Run>, last: Run, run: Run) -> Result<Run, Memory>
    requires fits { last.count + run.count < 2 ^ 32 }
    requires some { 0 < run.count }
    requires merged { AreMerged (runs.old ++ last ∷ []) }
    ensures places { IfOk result (λ next. places (runs.new ++ next ∷ []) ≡ places (runs.old ++ last ∷ []) ++ run_places run) }
    ensures merged { IfOk result (λ next. AreMerged (runs.new ++ next ∷ [])) }
{
    if run.symbol == last.symbol {
        return Ok(Run {
            symbol: last.symbol,
            count: last.count + run.count,
        });
    }
    runs.push(last)?;
    Ok(run)
}

/// The part that a text begins with, and the text after it.
pub(crate) fn part(text: &[u8]) -> Option<(Run, &[u8])>
    ensures found { MatchOption result (part_at text.now ≡ None) (λ x. part_at text.now ≡ Some (x.0, x.1.now)) }
    ensures shorter { MatchOption result (Unit {0}) (λ x. length x.1.now < length text.now) }
    ensures count { MatchOption result (Unit {0}) (λ x. (0 < x.0.count) × (x.0.count < 2 ^ 32)) }
{
    let (&symbol, after) = text.split_first()?;
    if symbol == b'(' {
        return None;
    }
    match after.split_first() {
        Some((b'(', digits)) => {
            let (count, after) = count(digits)?;
            Some((Run { symbol, count }, after))
        }
        _ => Some((Run { symbol, count: 1 }, after)),
    }
}

/// The count up to a closing parenthesis, and the text after that.
fn count(text: &[u8]) -> Option<(u32, &[u8])>
    ensures found { MatchOption result (count_at 0 text.now ≡ None) (λ x. count_at 0 text.now ≡ Some (x.0, x.1.now)) }
    ensures shorter { MatchOption result (Unit {0}) (λ x. length x.1.now < length text.now) }
    ensures count { MatchOption result (Unit {0}) (λ x. (0 < x.0) × (x.0 < 2 ^ 32)) }
{
    let mut count = 0u32;
    for (i, byte) in text.iter().enumerate() {
        if *byte == b')' {
            return if count > 0 {
                Some((count, &text[i + 1..]))
            } else {
                None
            };
        }
        count = longer(count, *byte)?;
    }
    None
}

/// The count with a decimal digit more.
fn longer(count: u32, byte: u8) -> Option<u32>
    ensures value { result ≡ with_digit count byte }
    ensures small { IfSome result (λ n. n < 2 ^ 32) }
{
    if !byte.is_ascii_digit() {
        return None;
    }
    count.checked_mul(10)?.checked_add(u32::from(byte - b'0'))
}

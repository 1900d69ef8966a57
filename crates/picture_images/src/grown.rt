ghost use Rattle.std.specs.Prelude.{◌≡◌, ◌+◌, ◌≤◌, IfOk};
ghost use Rattle.picture.specs.Inserting.{takes_byte};
ghost use Rattle.picture_images.specs.Images as spec;

use std::alloc::Global;
use window_modes::YearMode;
use y2k_base::{BytePlace, List, Memory, PicClass, Run, Span};
use year_index::YearIndex;
use year_pairs::YearKind;

fn add(a: u32, b: u32) -> Result<u32, Memory>
    ensures { IfOk result (λ sum. sum ≡ a + b) }
{
    a.checked_add(b).ok_or(Memory)
}

/// Whether the year gets its century.
fn is_expanded(mode: YearMode) -> bool
    ensures { result ≡ spec.is_expanded mode.pivot }
{
    match mode.pivot {
        Some(_) => false,
        None => true,
    }
}

fn is_packed(kind: YearKind) -> bool
    ensures { result ≡ spec.is_packed kind }
{
    match kind {
        YearKind::Pair => false,
        YearKind::Packed { digits: _, unit: _ } => true,
    }
}

fn places_for_packed(class: PicClass) -> u32
    ensures { result ≡ spec.places_for_packed class }
{
    match class {
        PicClass::Text => 1,
        PicClass::Number | PicClass::Edited => 0,
    }
}

/// How many places an expanded year gives a picture of that class.
fn places_for(class: PicClass, kind: YearKind) -> u32
    ensures { result ≡ spec.places_for class kind }
{
    match kind {
        YearKind::Pair => 2,
        YearKind::Packed { digits: _, unit: _ } => places_for_packed(class),
    }
}

/// How many a year gives that begins at that offset or behind it.
fn places_from(class: PicClass, offset: u32, mode: YearMode) -> u32
    ensures { result ≡ spec.places_from class offset mode }
{
    if is_expanded(mode) && offset <= mode.year.place.offset {
        places_for(class, mode.year.kind)
    } else {
        0
    }
}

/// How many the years give that begin in the span.
fn places_in(class: PicClass, index: &YearIndex, span: Span) -> Result<u32, Memory>
    ensures { IfOk result (λ more. more ≡ spec.places_in class index.now span) }
{
    let mut more = 0;
    for mode in index.years_in(span) {
        more = add(more, places_from(class, span.offset, *mode))?;
    }
    Ok(more)
}

fn lengthened(run: Run, more: u32) -> Result<Run, Memory>
    ensures { IfOk result (λ longer. longer ≡ spec.lengthened run more) }
{
    let count = add(run.count, more)?;
    Ok(Run {
        symbol: run.symbol,
        count,
    })
}

/// Whether a symbol takes a byte.
fn takes_byte(symbol: u8) -> bool
    ensures { result ≡ takes_byte symbol }
{
    !matches!(symbol, b'S' | b'V')
}

/// A run of a DISPLAY item, with the places for the years that begin in its bytes.
fn run_image(class: PicClass, index: &YearIndex, start: BytePlace, run: Run) -> Result<Run, Memory>
    ensures { IfOk result (λ image. image ≡ spec.run_image class index.now start run) }
{
    if !takes_byte(run.symbol) {
        return Ok(run);
    }
    let span = Span {
        area: start.area,
        offset: start.offset,
        length: run.count,
    };
    let more = places_in(class, index, span)?;
    let longer = lengthened(run, more)?;
    Ok(longer)
}

/// The place behind the bytes of a run.
fn behind(start: BytePlace, run: Run) -> Result<BytePlace, Memory>
    ensures { IfOk result (λ place. place ≡ spec.behind start run) }
{
    if !takes_byte(run.symbol) {
        return Ok(start);
    }
    let offset = add(start.offset, run.count)?;
    Ok(BytePlace {
        area: start.area,
        offset,
    })
}

/// The runs of a DISPLAY item that begins at that place.
pub(crate) fn display_image(
    alloc: Global,
    class: PicClass,
    index: &YearIndex,
    start: BytePlace,
    runs: &[Run],
) -> Result<List<Run>, Memory>
    ensures { IfOk result (λ image. image ≡ spec.display_image class index.now start runs.now) }
{
    let mut image = List::new(alloc);
    let mut at = start;
    let mut rest = runs;
    while let [run, more @ ..] = rest {
        image.push(run_image(class, index, at, *run)?)?;
        at = behind(at, *run)?;
        rest = more;
    }
    Ok(image)
}

/// Whether the year is an expanded one of a packed number.
fn is_expanded_number(mode: YearMode) -> bool
    ensures { result ≡ spec.is_expanded_number mode }
{
    is_expanded(mode) && is_packed(mode.year.kind)
}

/// How many digits a packed number gets that has these bytes.
fn digits_in(index: &YearIndex, span: Span) -> u32
    ensures small { result ≤ 2 }
    ensures digits { result ≡ spec.digits_in index.now span }
{
    for mode in index.years_in(span) {
        if is_expanded_number(*mode) {
            return 2;
        }
    }
    0
}

fn packed_run(run: Run, more: u32) -> Result<Run, Memory>
    ensures { IfOk result (λ longer. longer ≡ spec.packed_run more run) }
{
    if run.symbol == b'9' {
        let longer = lengthened(run, more)?;
        Ok(longer)
    } else {
        Ok(run)
    }
}

/// The runs of a packed number with these bytes.
pub(crate) fn packed_image(
    alloc: Global,
    index: &YearIndex,
    span: Span,
    runs: &[Run],
) -> Result<List<Run>, Memory>
    ensures { IfOk result (λ image. image ≡ spec.packed_image index.now span runs.now) }
{
    let more = digits_in(index, span);
    let mut image = List::new(alloc);
    for run in runs {
        image.push(packed_run(*run, more)?)?;
    }
    Ok(image)
}

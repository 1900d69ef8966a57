ghost use Rattle.std.specs.Prelude.{◌≡◌, ◌∷◌, [], ◌++◌, ◌-◌, false, replicate, IfOk, OnOk};
ghost use Rattle.line_layout.specs.Layout as spec;

use std::alloc::Global;
use y2k_base::{Bytes, List, Memory};

/// The lines that are full, the one that is written, and how many bytes it may have.
#[derive(Debug, Drop)]
pub struct Page {
    pub lines: List<Bytes>,
    pub line: Bytes,
    pub limit: usize,
}

/// The cells that are left up to column 72.
pub fn room(page: &Page) -> usize
    ensures { result ≡ spec.room page.now }
{
    page.limit.saturating_sub(page.line.items().len())
}

/// Adds so many blanks.
fn extend_blanks(count: usize, line: &mut Bytes) -> Result<(), Memory>
    ensures { OnOk result (line.new ≡ line.old ++ replicate count 32) }
{
    for _i in 0..count {
        line.push(b' ')?;
    }
    Ok(())
}

/// Puts bytes at the end of the last line.
pub fn put(bytes: &[u8], page: &mut Page) -> Result<(), Memory>
    ensures { OnOk result (page.new ≡ spec.put bytes.now page.old) }
{
    page.line.append(bytes)?;
    Ok(())
}

pub fn put_byte(byte: u8, page: &mut Page) -> Result<(), Memory>
    ensures { OnOk result (page.new ≡ spec.put (byte ∷ []) page.old) }
{
    page.line.push(byte)?;
    Ok(())
}

pub fn put_blanks(count: usize, page: &mut Page) -> Result<(), Memory>
    ensures { OnOk result (page.new ≡ spec.put (replicate count 32) page.old) }
{
    extend_blanks(count, &mut page.line)?;
    Ok(())
}

/// The start of a line: its indicator for column 7, and blanks up to the column.
fn margin(alloc: Global, indicator: u8, column: usize) -> Result<Bytes, Memory>
    ensures { IfOk result (λ line. line ≡ indicator ∷ replicate (column - 8) 32) }
{
    let mut line = List::new(alloc);
    line.push(indicator)?;
    extend_blanks(column.saturating_sub(8), &mut line)?;
    Ok(line)
}

/// Begins a new line.
pub fn open(alloc: Global, indicator: u8, column: usize, page: Page) -> Result<Page, Memory>
    ensures { IfOk result (λ new. new ≡ spec.opened indicator column page) }
{
    let line = margin(alloc, indicator, column)?;
    let mut lines = page.lines;
    lines.push(page.line)?;
    Ok(Page {
        lines,
        line,
        limit: 66,
    })
}

fn begins_twice(bytes: &[u8]) -> bool
    ensures { result ≡ spec.begins_twice bytes.now }
{
    match bytes {
        [] | [_] => false,
        [a, b, ..] => *a == b'"' && *b == b'"',
    }
}

fn is_inner(inside: bool, byte: u8) -> bool
    ensures { result ≡ spec.is_inner inside byte }
{
    byte == b'"' && !inside
}

/// Whether the byte at this place is the first of two quotation marks that stand for one.
fn is_half(place: usize, bytes: &[u8]) -> bool
    ensures { result ≡ spec.is_half false place bytes.now }
{
    let mut inside = false;
    let mut left = place;
    let mut rest = bytes;
    while let [first, more @ ..] = rest {
        if left == 0 {
            return !inside && begins_twice(rest);
        }
        inside = is_inner(inside, *first);
        left -= 1;
        rest = more;
    }
    false
}

/// Whether a line that ends with the byte at this place of a quoted literal would part a doubled mark.
pub fn parts_mark(place: usize, bytes: &[u8]) -> bool
    ensures { result ≡ spec.parts_mark place bytes.now }
{
    match bytes {
        [] => false,
        [_, rest @ ..] => {
            if place == 0 {
                false
            } else {
                is_half(place - 1, rest)
            }
        }
    }
}

/// The column at which a literal begins on a new line.
fn fresh_column(text: &[u8]) -> usize
    ensures { result ≡ spec.fresh_column text.now }
{
    if parts_mark(60, text) { 13 } else { 12 }
}

/// The column of the mark after which the rest of a literal goes on.
fn next_column(rest: &[u8]) -> usize
    ensures { result ≡ spec.next_column rest.now }
{
    if is_half(59, rest) { 13 } else { 12 }
}

/// Begins a continuation line, up to its mark.
fn go_on(alloc: Global, rest: &[u8], page: Page) -> Result<Page, Memory>
    ensures { IfOk result (λ new. new ≡ spec.put (34 ∷ []) (spec.opened 45 (spec.next_column rest.now) page)) }
{
    let mut next = open(alloc, b'-', next_column(rest), page)?;
    put_byte(b'"', &mut next)?;
    Ok(next)
}

/// Puts the first byte of what is left of a literal, on a new line where this one is full.
fn fill_one(alloc: Global, first: u8, rest: &[u8], page: Page) -> Result<Page, Memory>
    ensures { IfOk result (λ new. new ≡ spec.filled_one first rest.now page) }
{
    if room(&page) > 0 {
        let mut here = page;
        put_byte(first, &mut here)?;
        Ok(here)
    } else {
        let mut next = go_on(alloc, rest, page)?;
        put_byte(first, &mut next)?;
        Ok(next)
    }
}

/// Puts a quoted literal, each line of it up to column 72.
fn fill(alloc: Global, text: &[u8], page: Page) -> Result<Page, Memory>
    ensures { IfOk result (λ new. new ≡ spec.filled text.now page) }
{
    let mut current = page;
    let mut rest = text;
    while let [first, more @ ..] = rest {
        current = fill_one(alloc, *first, rest, current)?;
        rest = more;
    }
    Ok(current)
}

fn with_blanks(gap: usize, text: &[u8], page: Page) -> Result<Page, Memory>
    ensures { IfOk result (λ new. new ≡ spec.put text.now (spec.put (replicate gap 32) page)) }
{
    let mut here = page;
    put_blanks(gap, &mut here)?;
    put(text, &mut here)?;
    Ok(here)
}

pub fn on_new_line(alloc: Global, column: usize, text: &[u8], page: Page) -> Result<Page, Memory>
    ensures { IfOk result (λ new. new ≡ spec.put text.now (spec.opened 32 column page)) }
{
    let mut next = open(alloc, b' ', column, page)?;
    put(text, &mut next)?;
    Ok(next)
}

/// Puts a word that is no literal after its blanks, or on a new line at column 12.
pub fn with_word(alloc: Global, gap: usize, text: &[u8], page: Page) -> Result<Page, Memory>
    ensures { IfOk result (λ new. new ≡ spec.with_word gap text.now page) }
{
    if text.len() <= room(&page).saturating_sub(gap) {
        with_blanks(gap, text, page)
    } else {
        on_new_line(alloc, 12, text, page)
    }
}

fn fill_here(alloc: Global, gap: usize, text: &[u8], page: Page) -> Result<Page, Memory>
    ensures { IfOk result (λ new. new ≡ spec.filled text.now (spec.put (replicate gap 32) page)) }
{
    let mut here = page;
    put_blanks(gap, &mut here)?;
    fill(alloc, text, here)
}

fn fill_below(alloc: Global, text: &[u8], page: Page) -> Result<Page, Memory>
    ensures { IfOk result (λ new. new ≡ spec.filled text.now (spec.opened 32 (spec.fresh_column text.now) page)) }
{
    let next = open(alloc, b' ', fresh_column(text), page)?;
    fill(alloc, text, next)
}

/// Whether a literal that doesn't fit may begin after its blanks.
fn can_begin(gap: usize, text: &[u8], page: &Page) -> bool
    ensures { result ≡ spec.can_begin gap text.now page.now }
{
    let cells = room(page);
    if gap < cells {
        !parts_mark(cells - gap - 1, text)
    } else {
        false
    }
}

/// Puts a quoted literal after its blanks where it fits, or its parts up to column 72 of each line.
pub fn with_literal(alloc: Global, gap: usize, text: &[u8], page: Page) -> Result<Page, Memory>
    ensures { IfOk result (λ new. new ≡ spec.with_literal gap text.now page) }
{
    if text.len() <= room(&page).saturating_sub(gap) {
        with_blanks(gap, text, page)
    } else if can_begin(gap, text, &page) {
        fill_here(alloc, gap, text, page)
    } else {
        fill_below(alloc, text, page)
    }
}

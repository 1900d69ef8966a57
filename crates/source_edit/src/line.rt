//! The columns of one line.

ghost use Rattle.std.specs.Prelude.{◌≡◌, ◌-◌, ◌++◌, length, take, drop, reverse, replicate, slice_get, IfOk, OnOk};
ghost use Rattle.fixed_format.specs.Columns as columns;
ghost use Rattle.source_edit.specs.Lines as spec;

use std::alloc::Global;
use y2k_base::{Bytes, List, Memory};

/// Whether the byte stands last.
fn ends_with(line: &[u8], byte: u8) -> bool
    ensures { result ≡ columns.is_byte byte (slice_get line.now (length line.now - 1)) }
{
    match line.last() {
        Some(last) => *last == byte,
        None => false,
    }
}

fn without_last(line: &[u8], byte: u8) -> &[u8]
    ensures { result.now ≡ columns.without_last byte line.now }
{
    if ends_with(line, byte) {
        &line[..line.len() - 1]
    } else {
        line
    }
}

/// Whether the line ends with a line feed.
pub fn has_feed(line: &[u8]) -> bool
    ensures { result ≡ spec.has_feed line.now }
{
    ends_with(line, b'\n')
}

/// The line without its line end: a line feed, and a carriage return before it or at the end of the text.
pub fn body(line: &[u8]) -> &[u8]
    ensures { result.now ≡ columns.body line.now }
{
    without_last(without_last(line, b'\n'), b'\r')
}

/// The first so many bytes.
pub fn front(bytes: &[u8], count: usize) -> &[u8]
    ensures { result.now ≡ take count bytes.now }
{
    if bytes.len() > count {
        &bytes[..count]
    } else {
        bytes
    }
}

/// The bytes after so many.
pub fn after(bytes: &[u8], count: usize) -> &[u8]
    ensures { result.now ≡ drop count bytes.now }
{
    if bytes.len() > count {
        &bytes[count..]
    } else {
        &bytes[bytes.len()..]
    }
}

/// The line end.
pub fn line_end(line: &[u8]) -> &[u8]
    ensures { result.now ≡ spec.line_end line.now }
{
    after(line, body(line).len())
}

fn without_last_spaces(mut cells: &[u8]) -> &[u8]
    ensures { result.now ≡ reverse (spec.dropped_by columns.is_space (reverse cells.now)) }
{
    while let [before @ .., last] = cells
        && *last == b' '
    {
        cells = before;
    }
    cells
}

/// The bytes without the spaces at their end.
pub fn trimmed(bytes: &[u8]) -> &[u8]
    ensures { result.now ≡ spec.without_spaces bytes.now }
{
    without_last_spaces(bytes)
}

fn is_gap(byte: u8) -> bool
    ensures { result ≡ spec.is_gap byte }
{
    byte == b' ' || byte == b',' || byte == b';'
}

fn without_last_gaps(mut cells: &[u8]) -> &[u8]
    ensures { result.now ≡ reverse (spec.dropped_by spec.is_gap (reverse cells.now)) }
{
    while let [before @ .., last] = cells
        && is_gap(*last)
    {
        cells = before;
    }
    cells
}

/// The bytes without the spaces, commas and semicolons at their end.
pub fn without_gaps(bytes: &[u8]) -> &[u8]
    ensures { result.now ≡ spec.trimmed_by spec.is_gap bytes.now }
{
    without_last_gaps(bytes)
}

/// The cells of columns 8 to 72, without spaces at the end.
pub fn cells(line: &[u8]) -> &[u8]
    ensures { result.now ≡ spec.cells_of line.now }
{
    trimmed(after(front(body(line), 72), 7))
}

/// How many spaces stand first.
fn blanks(cells: &[u8]) -> usize
    ensures { result ≡ columns.blanks cells.now }
{
    let mut rest = cells;
    let mut count = 0usize;
    while let [first, after @ ..] = rest {
        if *first != b' ' {
            return count;
        }
        count += 1;
        rest = after;
    }
    count
}

/// How many cells of columns 8 to 72 stand before the text of the line.
pub fn text_cell(line: &[u8]) -> usize
    ensures { result ≡ spec.text_cell line.now }
{
    blanks(cells(line))
}

/// The byte in column 7.
fn indicator(line: &[u8]) -> u8
    ensures { result ≡ columns.indicator (columns.body line.now) }
{
    match body(line).get(6) {
        Some(byte) => *byte,
        None => b' ',
    }
}

fn is_comment_indicator(byte: u8) -> bool
    ensures { result ≡ columns.is_comment_indicator byte }
{
    match byte {
        b'*' | b'/' | b'D' | b'd' => true,
        _ => false,
    }
}

/// Whether a line holds no part of a word, and a word may go on behind it: a comment line, or a continuation without text.
pub fn is_passed(line: &[u8]) -> bool
    ensures { result ≡ spec.is_passed line.now }
{
    is_comment_indicator(indicator(line)) || (indicator(line) == b'-' && cells(line).is_empty())
}

/// Whether a line is a continuation with text.
pub fn is_continuation(line: &[u8]) -> bool
    ensures { result ≡ spec.is_continuation line.now }
{
    indicator(line) == b'-' && !cells(line).is_empty()
}

fn is_separator(byte: u8) -> bool
    ensures { result ≡ spec.is_separator byte }
{
    byte == b',' || byte == b';'
}

/// Whether the text of a line begins with a comma or a semicolon.
pub fn begins_with_separator(line: &[u8]) -> bool
    ensures { result ≡ spec.begins_with_separator line.now }
{
    match cells(line).get(text_cell(line)) {
        Some(first) => is_separator(*first),
        None => false,
    }
}

/// The same bytes.
pub fn copy_of(alloc: Global, bytes: &[u8]) -> Result<Bytes, Memory>
    ensures { IfOk result (λ copy. copy ≡ bytes.now) }
{
    let mut copy = List::new(alloc);
    copy.append(bytes)?;
    Ok(copy)
}

/// The bytes of both, one after the other.
pub fn joined(alloc: Global, first: &[u8], second: &[u8]) -> Result<Bytes, Memory>
    ensures { IfOk result (λ both. both ≡ first.now ++ second.now) }
{
    let mut both = List::new(alloc);
    both.append(first)?;
    both.append(second)?;
    Ok(both)
}

fn add_blanks(line: &mut Bytes, count: usize) -> Result<(), Memory>
    ensures { OnOk result (line.new ≡ line.old ++ replicate count 32) }
{
    for _i in 0..count {
        line.push(b' ')?;
    }
    Ok(())
}

/// So many blanks and the bytes.
pub fn indented(alloc: Global, count: usize, bytes: &[u8]) -> Result<Bytes, Memory>
    ensures { IfOk result (λ line. line ≡ replicate count 32 ++ bytes.now) }
{
    let mut line = List::new(alloc);
    add_blanks(&mut line, count)?;
    line.append(bytes)?;
    Ok(line)
}

/// The bytes with blanks up to a length.
pub fn filled(alloc: Global, length: usize, bytes: &[u8]) -> Result<Bytes, Memory>
    ensures { IfOk result (λ line. line ≡ spec.filled length bytes.now) }
{
    let mut line = List::new(alloc);
    line.append(bytes)?;
    add_blanks(&mut line, length.saturating_sub(bytes.len()))?;
    Ok(line)
}

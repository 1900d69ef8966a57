//! A row with an edited word and the rows that are joined to it, laid anew.

ghost use Rattle.std.specs.Prelude.{◌≡◌, ◌++◌, ◌≤◌, map, flat_map, replicate, take, drop, length, IfOk, OnOk};
ghost use Rattle.line_layout.specs.Layout.{laid};
ghost use Rattle.line_layout.specs.Spelling as spelling;
ghost use Rattle.line_layout.specs.Spelling.{is_tight_before, is_tight_after};
ghost use Rattle.fixed_format.specs.Columns.{body};
ghost use Rattle.source_edit.specs.Lines.{has_feed};
ghost use Rattle.source_edit.specs.Rows as rows;
ghost use Rattle.source_edit.specs.Stretches as spec;

use crate::line::{
    after, body, copy_of, filled, front, has_feed, indented, is_passed, joined, line_end, trimmed,
    without_gaps,
};
use crate::row::{Placed, Row, is_picture};
use line_layout::lay;
use std::alloc::Global;
use y2k_base::{Bytes, List, Memory, Word, WordKind};

/// How many words stand before the first edited one.
fn unedited(words: &[Placed]) -> usize
    ensures value { result ≡ spec.unedited words.now }
    ensures bound { result ≤ length words.now }
{
    let mut rest = words;
    let mut count = 0usize;
    while let [placed, more @ ..] = rest {
        if placed.change.is_some() {
            return count;
        }
        count += 1;
        rest = more;
    }
    count
}

/// Whether one of the words of a row is edited.
pub fn is_edited(row: &Row) -> bool
    ensures { result ≡ spec.is_edited row.now }
{
    unedited(row.words.items()) < row.words.len()
}

/// Adds the words that are to stand in place of these.
fn add_new(alloc: Global, words: &[Placed], into: &mut List<Word>) -> Result<(), Memory>
    ensures { OnOk result (into.new ≡ into.old ++ rows.new_of words.now) }
{
    let mut rest = words;
    while let [placed, more @ ..] = rest {
        placed.add_to(alloc, into)?;
        rest = more;
    }
    Ok(())
}

pub fn add_new_of_rows(alloc: Global, joined: &[Row], into: &mut List<Word>) -> Result<(), Memory>
    ensures { OnOk result (into.new ≡ into.old ++ rows.new_of_rows joined.now) }
{
    let mut rest = joined;
    while let [row, more @ ..] = rest {
        add_new(alloc, row.words.items(), into)?;
        rest = more;
    }
    Ok(())
}

/// The words that are laid anew: from the first edited one of a row on, to the end of the rows joined to it.
fn new_words(alloc: Global, words: &[Placed], joined: &[Row]) -> Result<List<Word>, Memory>
    ensures { IfOk result (λ new. new ≡ rows.new_of words.now ++ rows.new_of_rows joined.now) }
{
    let mut new = List::new(alloc);
    add_new(alloc, words, &mut new)?;
    add_new_of_rows(alloc, joined, &mut new)?;
    Ok(new)
}

/// What stands before the first edited word on its line.
#[derive(Clone, Copy)]
pub enum Before {
    Nothing,
    /// A mark behind which no blank stands.
    Opening,
    /// A PICTURE word, with how many bytes stand before it and how many it has.
    Picture { from: usize, count: usize },
    Other,
}

fn is_mark(kind: WordKind) -> bool
    ensures { result ≡ spelling.is_mark kind }
{
    match kind {
        WordKind::Mark => true,
        WordKind::Name | WordKind::Number | WordKind::Literal | WordKind::Picture => false,
    }
}

/// Whether the word is a mark after which no blank stands.
fn is_opening(word: &Word) -> bool
    ensures { result ≡ is_tight_after word.now }
{
    let text = word.text.items();
    is_mark(word.kind) && (text == b"(".as_slice() || text == b":".as_slice())
}

/// Whether the word is a mark before which no blank stands.
fn is_closing(word: &Word) -> bool
    ensures { result ≡ is_tight_before word.now }
{
    let text = word.text.items();
    is_mark(word.kind)
        && (text == b".".as_slice() || (text == b")".as_slice() || text == b":".as_slice()))
}

fn before_word(placed: &Placed) -> Before
    ensures { result ≡ spec.before_word placed.now }
{
    if is_picture(placed.word.kind) {
        Before::Picture {
            from: (placed.word.origin.column as usize).saturating_sub(1),
            count: placed.word.text.len(),
        }
    } else if is_opening(&placed.word) {
        Before::Opening
    } else {
        Before::Other
    }
}

/// What stands before a first edited word: the last of these words, or the end of one that goes on from a row before.
fn before_of(goes_on: bool, words: &[Placed]) -> Before
    ensures { result ≡ spec.before_of goes_on words.now }
{
    match words.last() {
        Some(last) => before_word(last),
        None => {
            if goes_on {
                Before::Other
            } else {
                Before::Nothing
            }
        }
    }
}

fn begins_tight(words: &[Word]) -> bool
    ensures { result ≡ spec.begins_tight words.now }
{
    match words {
        [] => false,
        [first, ..] => is_closing(first),
    }
}

fn ends_blank(bytes: &[u8]) -> bool
    ensures { result ≡ spec.ends_blank bytes.now }
{
    match bytes.last() {
        None => true,
        Some(last) => *last == b' ',
    }
}

/// The bytes with a blank at their end.
fn parted(alloc: Global, bytes: &[u8]) -> Result<Bytes, Memory>
    ensures { IfOk result (λ line. line ≡ spec.parted bytes.now) }
{
    if ends_blank(bytes) {
        copy_of(alloc, bytes)
    } else {
        joined(alloc, bytes, b" ")
    }
}

/// What stays of a line before the new words, the first of which stands close to the word before or not: what stood before the first
/// edited word, with a blank more where that stood close to a word that is parted from what comes, and up to the word before where a
/// mark comes that no blank stands before.
fn kept(alloc: Global, is_tight: bool, before: Before, old: &[u8]) -> Result<Bytes, Memory>
    ensures { IfOk result (λ line. line ≡ spec.kept is_tight before old.now) }
{
    match before {
        Before::Nothing => copy_of(alloc, old),
        Before::Opening => if is_tight {
            copy_of(alloc, without_gaps(old))
        } else {
            copy_of(alloc, old)
        },
        Before::Picture { from, count } => if is_tight {
            joined(alloc, front(old, from), front(after(old, from), count))
        } else {
            parted(alloc, old)
        },
        Before::Other => if is_tight {
            copy_of(alloc, without_gaps(old))
        } else {
            parted(alloc, old)
        },
    }
}

/// Adds laid lines but the first, from column 1 on.
fn add_later(alloc: Global, laid: &[Bytes], lines: &mut List<Bytes>) -> Result<(), Memory>
    ensures { OnOk result (lines.new ≡ lines.old ++ map (λ l. replicate 6 32 ++ l) laid.now) }
{
    let mut rest = laid;
    while let [line, more @ ..] = rest {
        lines.push(indented(alloc, 6, line.items())?)?;
        rest = more;
    }
    Ok(())
}

/// Adds laid lines from column 1 on, where these bytes stand before the first.
fn add_behind(
    alloc: Global,
    before: &[u8],
    laid: &[Bytes],
    lines: &mut List<Bytes>,
) -> Result<(), Memory>
    ensures { OnOk result (lines.new ≡ lines.old ++ spec.behind before.now laid.now) }
{
    match laid {
        [] => Ok(()),
        [first, later @ ..] => {
            lines.push(joined(alloc, before, first.items())?)?;
            add_later(alloc, later, lines)?;
            Ok(())
        }
    }
}

/// Lays words from a column on; none past column 72 or before column 8 can be asked for.
fn laid_from(alloc: Global, words: &[Word], column: usize) -> Result<List<Bytes>, Memory>
    requires { column ≤ 72 }
    ensures { IfOk result (λ lines. lines ≡ laid column words.now) }
{
    if column < 8 {
        return Err(Memory);
    }
    match lay(alloc, words, column as u32) {
        Ok(laid) => Ok(laid.lines),
        Err(_) => Err(Memory),
    }
}

/// The words laid behind what stays of their first line, or from column 12 of the next one where column 72 is passed.
fn laid_behind(alloc: Global, before: &[u8], words: &[Word]) -> Result<List<Bytes>, Memory>
    ensures { IfOk result (λ lines. lines ≡ spec.laid_behind before.now words.now) }
{
    let mut lines = List::new(alloc);
    if before.len() < 72 {
        let laid = laid_from(alloc, words, before.len() + 1)?;
        add_behind(alloc, before, laid.items(), &mut lines)?;
        Ok(lines)
    } else {
        let laid = laid_from(alloc, words, 12)?;
        lines.push(copy_of(alloc, before)?)?;
        add_behind(alloc, b"           ", laid.items(), &mut lines)?;
        Ok(lines)
    }
}

/// A new line with what the old one has from column 73 on.
fn with_margin(alloc: Global, old: &[u8], line: &[u8]) -> Result<Bytes, Memory>
    ensures { IfOk result (λ new. new ≡ spec.with_margin old.now line.now) }
{
    let mut whole = filled(alloc, 72, line)?;
    whole.append(after(old, 72))?;
    Ok(whole)
}

/// A new line with columns 1 to 6 of the old one.
fn with_sequence(alloc: Global, old: &[u8], line: &[u8]) -> Result<Bytes, Memory>
    ensures { IfOk result (λ new. new ≡ spec.with_sequence old.now line.now) }
{
    let mut whole = filled(alloc, 6, front(old, 6))?;
    whole.append(after(line, 6))?;
    Ok(whole)
}

fn add_feed(end: &[u8], out: &mut Bytes) -> Result<(), Memory>
    ensures { OnOk result (out.new ≡ out.old ++ spec.with_feed end.now) }
{
    out.append(end)?;
    if !has_feed(end) {
        out.push(b'\n')?;
    }
    Ok(())
}

/// Adds a new line without the spaces at its end, with its line end.
fn add_line(end: &[u8], line: &[u8], out: &mut Bytes) -> Result<(), Memory>
    ensures { OnOk result (out.new ≡ out.old ++ spec.ended end.now line.now) }
{
    out.append(trimmed(line))?;
    add_feed(end, out)?;
    Ok(())
}

fn add_lines(end: &[u8], lines: &[Bytes], out: &mut Bytes) -> Result<(), Memory>
    ensures { OnOk result (out.new ≡ out.old ++ flat_map (spec.ended end.now) lines.now) }
{
    let mut rest = lines;
    while let [line, more @ ..] = rest {
        add_line(end, line.items(), out)?;
        rest = more;
    }
    Ok(())
}

/// The first new line and those behind it.
fn first_lines(alloc: Global, old: &[u8], first: &[u8], later: &[Bytes]) -> Result<Bytes, Memory>
    ensures { IfOk result (λ out. out ≡ spec.first_lines old.now first.now later.now) }
{
    let line = with_margin(alloc, body(old), first)?;
    let mut out = List::new(alloc);
    add_line(line_end(old), line.items(), &mut out)?;
    add_lines(line_end(old), later, &mut out)?;
    Ok(out)
}

/// The new lines that stand in place of an old one, whose line end they have. The first has the old one's sequence area and what it
/// had from column 73 on. Where the first is left out, the next has these.
fn new_lines(alloc: Global, left_out: bool, old: &[u8], lines: &[Bytes]) -> Result<Bytes, Memory>
    ensures { IfOk result (λ out. out ≡ spec.new_lines left_out old.now lines.now) }
{
    match lines {
        [] => Ok(List::new(alloc)),
        [first, later @ ..] => if left_out {
            second_lines(alloc, old, later)
        } else {
            first_lines(alloc, old, first.items(), later)
        },
    }
}

/// The new lines where the first is left out.
fn second_lines(alloc: Global, old: &[u8], lines: &[Bytes]) -> Result<Bytes, Memory>
    ensures { IfOk result (λ out. out ≡ spec.second_lines old.now lines.now) }
{
    match lines {
        [] => Ok(List::new(alloc)),
        [next, later @ ..] => {
            let line = with_sequence(alloc, body(old), next.items())?;
            first_lines(alloc, old, line.items(), later)
        }
    }
}

fn is_nothing(before: Before) -> bool
    ensures { result ≡ spec.is_nothing before }
{
    match before {
        Before::Nothing => true,
        Before::Opening => false,
        Before::Picture { from: _, count: _ } => false,
        Before::Other => false,
    }
}

/// Whether no word stands on the first of the lines behind so many bytes.
fn is_bare(count: usize, lines: &[Bytes]) -> bool
    ensures { result ≡ spec.is_bare count lines.now }
{
    match lines {
        [] => true,
        [first, ..] => trimmed(after(first.items(), count)).is_empty(),
    }
}

/// Adds the lines among these that hold no part of a word.
fn add_passed(rows: &[Row], out: &mut Bytes) -> Result<(), Memory>
    ensures { OnOk result (out.new ≡ out.old ++ spec.passed rows.now) }
{
    let mut rest = rows;
    while let [row, more @ ..] = rest {
        add_if_passed(row.line.items(), out)?;
        rest = more;
    }
    Ok(())
}

fn add_if_passed(line: &[u8], out: &mut Bytes) -> Result<(), Memory>
    ensures { OnOk result (out.new ≡ out.old ++ spec.passed_line line.now) }
{
    if is_passed(line) {
        out.append(line)?;
    }
    Ok(())
}

fn last_line<'a>(line: &'a [u8], joined: &'a [Row]) -> &'a [u8]
    ensures { result.now ≡ spec.last_line line.now joined.now }
{
    match joined.last() {
        None => line,
        Some(last) => last.line.items(),
    }
}

/// Lines with the end of the last old one where that has no line feed.
fn closed(alloc: Global, last: &[u8], lines: Bytes) -> Result<Bytes, Memory>
    ensures { IfOk result (λ whole. whole ≡ spec.closed last.now lines) }
{
    if has_feed(last) {
        Ok(lines)
    } else {
        joined(alloc, body(lines.items()), line_end(last))
    }
}

/// The lines of words laid anew behind what stays of an old line. A line left without words is left out.
fn relaid(
    alloc: Global,
    before: Before,
    old: &[u8],
    stays: &[u8],
    words: &[Word],
) -> Result<Bytes, Memory>
    ensures { IfOk result (λ out. out ≡ spec.relaid before old.now stays.now words.now) }
{
    let lines = laid_behind(alloc, stays, words)?;
    let left_out = is_nothing(before) && is_bare(stays.len(), lines.items());
    new_lines(alloc, left_out, old, lines.items())
}

/// The same behind what stood before the first edited word.
fn relaid_from(
    alloc: Global,
    before: Before,
    old: &[u8],
    front: &[u8],
    words: &[Word],
) -> Result<Bytes, Memory>
    ensures { IfOk result (λ out. out ≡ spec.relaid_from before old.now front.now words.now) }
{
    let stays = kept(alloc, begins_tight(words), before, front)?;
    relaid(alloc, before, old, stays.items(), words)
}

/// The column of the first of the words.
fn column(words: &[Placed]) -> usize
    ensures { result ≡ spec.column words.now }
{
    match words {
        [] => 0,
        [first, ..] => first.word.origin.column as usize,
    }
}

fn stretch_with(
    alloc: Global,
    goes_on: bool,
    line: &[u8],
    before: &[Placed],
    words: &[Placed],
    joined: &[Row],
) -> Result<Bytes, Memory>
    ensures { IfOk result (λ out. out ≡ spec.stretch_with goes_on line.now before.now words.now joined.now) }
{
    let new = new_words(alloc, words, joined)?;
    let stood = front(body(line), column(words).saturating_sub(1));
    let mut out = relaid_from(alloc, before_of(goes_on, before), line, stood, new.items())?;
    add_passed(joined, &mut out)?;
    closed(alloc, last_line(line, joined), out)
}

/// The lines of a row from its first edited word on with the rows joined to it, then those of them that hold no part of a word.
/// A word may go on from a row before to this one.
pub fn stretch(alloc: Global, goes_on: bool, row: &Row, joined: &[Row]) -> Result<Bytes, Memory>
    ensures { IfOk result (λ out. out ≡ spec.stretch goes_on row.now joined.now) }
{
    let words = row.words.items();
    let count = unedited(words);
    stretch_with(
        alloc,
        goes_on,
        row.line.items(),
        &words[..count],
        &words[count..],
        joined,
    )
}

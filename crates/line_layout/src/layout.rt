ghost use Rattle.std.specs.Prelude.{◌≡◌, ◌≤◌, true, IfOk, IfErr};
ghost use Rattle.line_layout.specs.Spelling.{first_full};
ghost use Rattle.line_layout.specs.Layout as spec;
ghost use Rattle.line_layout.specs.Reading.{ReadsAs};
ghost use Rattle.line_layout.specs.Width.{KeepsWidth};

use crate::page::{Page, on_new_line, put_blanks, with_literal, with_word};
use crate::spelling::{
    begins_area_a, first_full, is_literal, is_tight_after, is_tight_before, opens_comment, quoted,
};
use std::alloc::Global;
use std::convert::From;
use y2k_base::{Bytes, List, Memory, Origin, Word};

/// Lines of fixed reference format: the first from the column on at which it was asked for, and each
/// later one from its indicator in column 7 on. None has a line end. Where each word that is no
/// literal has 1 to 61 characters, none goes past column 72.
#[derive(Debug, Drop)]
pub struct LaidLines {
    pub lines: List<Bytes>,
}

/// Why words aren't laid.
#[derive(Clone, Copy, Debug, PartialEq, Eq)]
pub enum LayFault {
    /// The literal there is the first with more than 160 characters (ISO 1989:1985 has at most 160).
    LiteralFull(Origin),
    /// There was no memory left.
    Memory,
}

impl From<Memory> for LayFault {
    ghost use Rattle.line_layout.specs.declared.layout.LayFault.TheVariants as fault;

    ghost from_gives = { λ _ e. e ≡ fault.Memory };

    fn from(_: Memory) -> LayFault {
        LayFault::Memory
    }
}

/// The blanks between a word and the one before it.
fn gap(is_tight: bool, word: &Word) -> usize
    ensures { result ≡ spec.gap is_tight word.now }
{
    if is_tight || is_tight_before(word) {
        0
    } else {
        1
    }
}

fn literal_placed(alloc: Global, gap: usize, content: &[u8], page: Page) -> Result<Page, Memory>
    ensures { IfOk result (λ new. new ≡ spec.with_literal gap (spec.quoted content.now) page) }
{
    let text = quoted(alloc, content)?;
    with_literal(alloc, gap, text.items(), page)
}

/// Puts a word; `rest` are the words after it.
fn placed(
    alloc: Global,
    is_first: bool,
    is_tight: bool,
    word: &Word,
    rest: &[Word],
    page: Page,
) -> Result<Page, Memory>
    ensures { IfOk result (λ new. new ≡ spec.placed is_first is_tight word.now rest.now page) }
{
    if !is_first && begins_area_a(word, rest) {
        on_new_line(alloc, 8, word.text.items(), page)
    } else if is_literal(word.kind) {
        literal_placed(alloc, gap(is_tight, word), word.text.items(), page)
    } else {
        with_word(alloc, gap(is_tight, word), word.text.items(), page)
    }
}

/// The blanks before the first word: those of the five comment words never begin before column 12.
fn first_blanks(column: u32, words: &[Word]) -> usize
    ensures { result ≡ spec.first_blanks column words.now }
{
    match words {
        [] => 0,
        [first, ..] => {
            if opens_comment(first) {
                12usize.saturating_sub(column as usize)
            } else {
                0
            }
        }
    }
}

fn first_page(alloc: Global, column: u32, words: &[Word]) -> Result<Page, Memory>
    ensures { IfOk result (λ page. page ≡ spec.first_page column words.now) }
{
    let mut page = Page {
        lines: List::new(alloc),
        line: List::new(alloc),
        limit: 73usize.saturating_sub(column as usize),
    };
    put_blanks(first_blanks(column, words), &mut page)?;
    Ok(page)
}

fn all_placed(alloc: Global, words: &[Word], page: Page) -> Result<Page, Memory>
    ensures { IfOk result (λ new. new ≡ spec.all_placed true true words.now page) }
{
    let mut current = page;
    let mut rest = words;
    let mut is_first = true;
    let mut is_tight = true;
    while let [word, more @ ..] = rest {
        current = placed(alloc, is_first, is_tight, word, more, current)?;
        is_first = false;
        is_tight = is_tight_after(word);
        rest = more;
    }
    Ok(current)
}

fn lines_of(page: Page) -> Result<List<Bytes>, Memory>
    ensures { IfOk result (λ lines. lines ≡ spec.lines_of page) }
{
    let mut lines = page.lines;
    lines.push(page.line)?;
    Ok(lines)
}

fn laid(alloc: Global, words: &[Word], column: u32) -> Result<List<Bytes>, Memory>
    ensures { IfOk result (λ lines. lines ≡ spec.laid column words.now) }
{
    let first = first_page(alloc, column, words)?;
    let page = all_placed(alloc, words, first)?;
    lines_of(page)
}

/// Lays words on lines, the first from `column` on. Columns count from 1.
///
/// A word stands one blank after the word before; no blank stands before `.`, `)` and `:`, and none
/// after `(` and `:`. A word that would go past column 72 begins a new line at column 12. Before the
/// words WORKING-STORAGE and PROCEDURE, and before 01 with a name that begins with `Y2K-`, a new line
/// begins at column 8, unless the word is the first. A first word that begins a comment (AUTHOR,
/// INSTALLATION, DATE-WRITTEN, DATE-COMPILED or SECURITY) stands at column 12 or later.
///
/// A literal stands between quotation marks, with each quotation mark in it written twice. One that
/// doesn't fit fills its line up to column 72 and goes on after a mark at column 12 of a line with
/// `-` in column 7. Where the first half of a doubled mark would fall in column 72, the literal
/// begins on a new line, or the mark of the line that goes on stands at column 13. Continuation is that
/// of ISO 1989:1985; where lines begin and end is this project's choice.
///
/// The lines, joined as continuation lines are, hold the words in order, each as it is written: so
/// far the contract. A reader of fixed format cuts them into the same words, up to their origins, where
///
/// - each word has the form that the reader gives words of its kind;
/// - each word after PIC or PICTURE and an optional IS is a PICTURE word;
/// - no other word is one, but that the first of the words may be one, or the second after a first
///   IS: the lines are then read as those after PIC are;
/// - no PICTURE word ends in a point, comma or semicolon;
/// - a PICTURE word that is `IS`, or that begins with `IS` and a character other than a letter, digit
///   or hyphen, stands right after a name `IS`;
/// - no `)` or `:` follows a PICTURE word;
/// - no `)`, `:` or `.` follows a period that follows a PICTURE word;
/// - no number right after `:` begins with a sign or a point.
pub fn lay(alloc: Global, words: &[Word], column: u32) -> Result<LaidLines, LayFault>
    requires low { 8 ≤ column }
    requires high { column ≤ 72 }
    ensures ok { IfOk result (λ laid. (first_full words.now ≡ None) × (laid.lines ≡ spec.laid column words.now)) }
    ensures reads { IfOk result (λ laid. ReadsAs words.now column laid.lines) }
    ensures width { IfOk result (λ laid. KeepsWidth words.now column laid.lines) }
    ensures err { IfErr result (spec.HasLayFault words.now) }
{
    match first_full(words) {
        Some(at) => Err(LayFault::LiteralFull(at)),
        None => {
            let lines = laid(alloc, words, column)?;
            Ok(LaidLines { lines })
        }
    }
}

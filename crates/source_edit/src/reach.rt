//! Lines that are joined because a word goes on from one to the next.

ghost use Rattle.std.specs.Prelude.{◌≡◌};
ghost use Rattle.source_edit.specs.Rows as spec;

use crate::line::{begins_with_separator, cells, is_continuation, is_passed, text_cell};
use crate::row::{Placed, Row, is_picture};

/// Whether a word begins where the text of the line begins.
fn begins_word(line: &[u8], words: &[Placed]) -> bool
    ensures { result ≡ spec.begins_word line.now words.now }
{
    match words {
        [] => false,
        [first, ..] => first.cell() == text_cell(line),
    }
}

/// Whether a word goes on from a line before to this one, where so many characters of a PICTURE word are still to come: its first
/// character begins no word, and is no comma or semicolon that parts words.
pub fn is_joined(carry: usize, row: &Row) -> bool
    ensures { result ≡ spec.is_joined carry row.now }
{
    let line = row.line.items();
    is_continuation(line)
        && (!begins_word(line, row.words.items()) && (carry > 0 || !begins_with_separator(line)))
}

/// How many characters of a PICTURE word that begins on a line are still to come behind it.
fn carried_by(line: &[u8], placed: &Placed) -> usize
    ensures { result ≡ spec.carried_by line.now placed.now }
{
    if is_picture(placed.word.kind) {
        let here = cells(line).len().saturating_sub(placed.cell());
        placed.word.text.len().saturating_sub(here)
    } else {
        0
    }
}

/// How many characters of a PICTURE word that goes on are still to come behind a line.
fn carried(carry: usize, line: &[u8], words: &[Placed]) -> usize
    ensures { result ≡ spec.carried carry line.now (spec.last_of words.now) }
{
    match words.last() {
        None => carry.saturating_sub(cells(line).len().saturating_sub(text_cell(line))),
        Some(last) => carried_by(line, last),
    }
}

/// How many characters of a PICTURE word that goes on are still to come behind a row.
pub fn carry_after(carry: usize, row: &Row) -> usize
    ensures { result ≡ spec.carry_after carry row.now }
{
    carried(carry, row.line.items(), row.words.items())
}

/// How many of the rows go with the row before them: those up to the last one on which a word goes on.
#[tactic(auto, using(crate::proofs::Reaching::from_front))]
pub fn reach(carry: usize, rows: &[Row]) -> usize
    ensures { result ≡ spec.reach carry rows.now }
{
    let mut rest = rows;
    let mut carry = carry;
    let mut seen = 0usize;
    let mut last = 0usize;
    while let [row, more @ ..] = rest {
        seen += 1;
        if is_joined(carry, row) {
            carry = carry_after(carry, row);
            last = seen;
        } else if !is_passed(row.line.items()) {
            return last;
        }
        rest = more;
    }
    last
}

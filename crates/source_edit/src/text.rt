ghost use Rattle.std.specs.Prelude.{◌≡◌, ◌++◌, take, true, IfOk, OnOk};
ghost use Rattle.source_edit.specs.Changes.{changed};
ghost use Rattle.source_edit.specs.Rows.{new_of_rows};
ghost use Rattle.source_edit.specs.Stretches as spec;
ghost use Rattle.source_edit.specs.Edited as edited;

use crate::changes::Changes;
use crate::clash::are_alike;
use crate::line::copy_of;
use crate::reach::{carry_after, is_joined, reach};
use crate::row::{Row, rows_of};
use crate::stretch::{add_new_of_rows, is_edited, stretch};
use fixed_format::{LineFault, read_lines};
use std::alloc::Global;
use y2k_base::{Bytes, FileId, List, Memory, Word};

/// The rows up to a count.
fn first_rows(rows: &[Row], count: usize) -> &[Row]
    ensures { result.now ≡ take count rows.now }
{
    if count < rows.len() {
        &rows[..count]
    } else {
        rows
    }
}

/// Writes a row, or the stretch that begins with it, and gives how many of the next rows are written with it.
fn turn(
    alloc: Global,
    row: &Row,
    more: &[Row],
    carry: usize,
    out: &mut Bytes,
) -> Result<usize, Memory>
    ensures count { IfOk result (λ n. n ≡ spec.covered_by carry row.now more.now) }
    ensures out { OnOk result (out.new ≡ out.old ++ spec.turned carry row.now more.now) }
{
    if is_edited(row) {
        let count = reach(carry_after(carry, row), more);
        let lines = stretch(alloc, is_joined(carry, row), row, first_rows(more, count))?;
        out.append(lines.items())?;
        Ok(count)
    } else {
        out.append(row.line.items())?;
        Ok(0)
    }
}

/// A row that an earlier one covers or not.
fn row_turn(
    alloc: Global,
    covered: usize,
    row: &Row,
    more: &[Row],
    carry: usize,
    out: &mut Bytes,
) -> Result<usize, Memory>
    ensures count { IfOk result (λ n. n ≡ spec.covered_after covered carry row.now more.now) }
    ensures out { OnOk result (out.new ≡ out.old ++ spec.turned_after covered carry row.now more.now) }
{
    if covered > 0 {
        Ok(covered - 1)
    } else {
        match turn(alloc, row, more, carry, out) {
            Ok(count) => Ok(count),
            Err(_) => Err(Memory),
        }
    }
}

/// The text of rows: the lines of rows without an edited word as they are, and the others laid anew.
fn written(alloc: Global, rows: &[Row]) -> Result<Bytes, Memory>
    ensures { IfOk result (λ text. text ≡ spec.written 0 0 rows.now) }
{
    let mut out = List::new(alloc);
    let mut covered = 0usize;
    let mut carry = 0usize;
    let mut rest = rows;
    while let [row, more @ ..] = rest {
        covered = row_turn(alloc, covered, row, more, carry, &mut out)?;
        carry = carry_after(carry, row);
        rest = more;
    }
    Ok(out)
}

/// A text with its words edited, and whether it reads as these words.
#[derive(Drop)]
pub struct EditedText {
    pub bytes: Bytes,
    pub reads: bool,
}

/// Whether a text reads as the words.
fn reads_as(alloc: Global, text: &[u8], file: FileId, words: &[Word]) -> Result<bool, Memory>
    ensures { IfOk result (λ reads. reads ≡ true → edited.ReadsAs file words.now text.now) }
{
    match read_lines(alloc, text, file) {
        Ok(lines) => Ok(are_alike(words, lines.words())),
        Err(LineFault::At { kind: _, at: _ }) => Ok(false),
        Err(LineFault::Memory) => Err(Memory),
    }
}

/// The text of rows, and whether it reads as their edited words.
fn edited_rows(alloc: Global, file: FileId, rows: &[Row]) -> Result<EditedText, Memory>
    ensures bytes { IfOk result (λ new. new.bytes ≡ spec.written 0 0 rows.now) }
    ensures reads { IfOk result (λ new. new.reads ≡ true → edited.ReadsAs file (new_of_rows rows.now) new.bytes) }
{
    let bytes = written(alloc, rows)?;
    let mut words = List::new(alloc);
    add_new_of_rows(alloc, rows, &mut words)?;
    let reads = reads_as(alloc, bytes.items(), file, words.items())?;
    Ok(EditedText { bytes, reads })
}

/// A text without a fault in its lines with its words edited.
pub fn edited_text(
    alloc: Global,
    text: &[u8],
    file: FileId,
    changes: &Changes,
) -> Result<EditedText, Memory>
    ensures laid { IfOk result (λ new. edited.IsEditedText (changed changes.now) file text.now new.bytes) }
    ensures reads { IfOk result (λ new. new.reads ≡ true → edited.ReadsAs file (edited.edited_words (changed changes.now) file text.now) new.bytes) }
{
    match read_lines(alloc, text, file) {
        Ok(lines) => {
            let rows = rows_of(alloc, &lines, changes)?;
            edited_rows(alloc, file, rows.items())
        }
        Err(_) => Err(Memory),
    }
}

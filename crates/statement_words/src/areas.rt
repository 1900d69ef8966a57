ghost use Rattle.std.specs.Prelude.{◌≡◌, ◌++◌, slice_get, IfOk, OnOk};
ghost use Rattle.picture.specs.Printing.{printed};
ghost use Rattle.statement_words.specs.Areas as spec;

use crate::edited::word_at;
use crate::new_words::{add_text, add_word, has_storage, procedure_at};
use generated_areas::GeneratedArea;
use picture_images::print_runs;
use std::alloc::Global;
use y2k_base::{Bytes, Edit, List, Memory, Origin, Run, Word, WordKind};

/// The PICTURE of an area.
fn picture_of(alloc: Global, area: GeneratedArea) -> Result<Bytes, Memory>
    ensures { IfOk result (λ text. text ≡ printed (spec.area_runs area)) }
{
    let runs = [Run {
        symbol: b'9',
        count: area.digits(),
    }];
    print_runs(alloc, &runs)
}

/// Adds the entry of an area.
fn add_entry(
    alloc: Global,
    into: &mut List<Word>,
    area: GeneratedArea,
    at: Origin,
) -> Result<(), Memory>
    ensures { OnOk result (into.new ≡ into.old ++ spec.entry at area) }
{
    let name = area.name(alloc)?;
    let picture = picture_of(alloc, area)?;
    add_word(alloc, into, WordKind::Number, b"01", at)?;
    add_word(alloc, into, WordKind::Name, name.items(), at)?;
    add_word(alloc, into, WordKind::Name, b"PIC", at)?;
    add_word(alloc, into, WordKind::Picture, picture.items(), at)?;
    add_word(alloc, into, WordKind::Mark, b".", at)?;
    Ok(())
}

fn add_entries(
    alloc: Global,
    into: &mut List<Word>,
    areas: &[GeneratedArea],
    at: Origin,
) -> Result<(), Memory>
    ensures { OnOk result (into.new ≡ into.old ++ spec.entries at areas.now) }
{
    let mut rest = areas;
    while let [area, more @ ..] = rest {
        add_entry(alloc, into, *area, at)?;
        rest = more;
    }
    Ok(())
}

/// Adds the header of the working storage section where the program has none.
fn add_header(
    alloc: Global,
    into: &mut List<Word>,
    words: &[Word],
    at: Origin,
) -> Result<(), Memory>
    ensures { OnOk result (into.new ≡ into.old ++ spec.header at words.now) }
{
    if has_storage(words) {
        Ok(())
    } else {
        add_text(alloc, into, "WORKING-STORAGE SECTION .", at)?;
        Ok(())
    }
}

/// The words that stand in place of PROCEDURE at that origin.
fn area_words(
    alloc: Global,
    words: &[Word],
    areas: &[GeneratedArea],
    at: Origin,
) -> Result<List<Word>, Memory>
    ensures { IfOk result (λ new. new ≡ spec.area_words at words.now areas.now) }
{
    let mut new = List::new(alloc);
    add_header(alloc, &mut new, words, at)?;
    add_entries(alloc, &mut new, areas, at)?;
    add_word(alloc, &mut new, WordKind::Name, b"PROCEDURE", at)?;
    Ok(new)
}

/// Adds the edit of the word at a position that puts the areas in front of it.
fn add_areas_at_word(
    alloc: Global,
    edits: &mut List<Edit>,
    program: u32,
    words: &[Word],
    areas: &[GeneratedArea],
    position: u32,
) -> Result<(), Memory>
    ensures { OnOk result (edits.new ≡ edits.old ++ spec.areas_at_word program words.now areas.now position (slice_get words.now position)) }
{
    match word_at(words, position) {
        None => Ok(()),
        Some(word) => {
            let new = area_words(alloc, words, areas, word.origin)?;
            edits.push(Edit {
                program,
                position,
                at: word.origin,
                words: new,
            })?;
            Ok(())
        }
    }
}

fn add_areas_at(
    alloc: Global,
    edits: &mut List<Edit>,
    program: u32,
    words: &[Word],
    areas: &[GeneratedArea],
    position: Option<u32>,
) -> Result<(), Memory>
    ensures { OnOk result (edits.new ≡ edits.old ++ spec.areas_at program words.now areas.now position) }
{
    match position {
        None => Ok(()),
        Some(position) => {
            add_areas_at_word(alloc, edits, program, words, areas, position)?;
            Ok(())
        }
    }
}

/// Adds the edit at the word PROCEDURE of a program that puts the entries of these areas in front of it, in their order, behind
/// a header of the working storage section where the program has none. No areas give no edit.
pub fn add_areas(
    alloc: Global,
    edits: &mut List<Edit>,
    program: u32,
    words: &[Word],
    areas: &[GeneratedArea],
) -> Result<(), Memory>
    ensures { OnOk result (edits.new ≡ edits.old ++ spec.areas_edits program words.now areas.now) }
{
    match areas {
        [] => Ok(()),
        [_, ..] => {
            add_areas_at(alloc, edits, program, words, areas, procedure_at(words))?;
            Ok(())
        }
    }
}

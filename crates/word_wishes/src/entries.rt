ghost use Rattle.std.specs.Prelude.{◌≡◌, ◌++◌, OnOk};
ghost use Rattle.data_layout.specs.Index.{IsReady};
ghost use Rattle.word_wishes.specs.declared.positions.Sought.TheVariants as sought;
ghost use Rattle.word_wishes.specs.Positions.{position_from};
ghost use Rattle.word_wishes.specs.Entries as spec;

use crate::grown::{grows, new_number};
use crate::positions::{Sought, position_from};
use crate::references::add_reference;
use crate::wish::{ProgramWords, add_instead, add_number_if};
use cobol_syntax::{FileEntry, Operand, Place, Program, Select};
use data_layout::{Area, Item, Layout};
use date_uses::place_used;
use picture_images::{picture_image, print_runs};
use statement_rules::area_span;
use std::alloc::Global;
use y2k_base::{Edit, List, Memory, Picture, WordKind};
use year_index::YearIndex;

/// Adds a PICTURE of the entry that begins there.
fn add_picture_at(
    alloc: Global,
    wishes: &mut List<Edit>,
    source: ProgramWords,
    at: u32,
    picture: &Picture,
) -> Result<(), Memory>
    ensures { OnOk result (wishes.new ≡ wishes.old ++ spec.picture_at source.entry.number source.entry.words.now picture.now (position_from sought.Picture source.entry.words.now at)) }
{
    match position_from(source.words, at, Sought::Picture)? {
        None => Ok(()),
        Some(position) => {
            let text = print_runs(alloc, picture.runs.items())?;
            add_instead(alloc, wishes, source, position, WordKind::Picture, text)?;
            Ok(())
        }
    }
}

fn add_picture_if(
    alloc: Global,
    wishes: &mut List<Edit>,
    source: ProgramWords,
    at: u32,
    picture: &Option<Picture>,
) -> Result<(), Memory>
    ensures { OnOk result (wishes.new ≡ wishes.old ++ spec.picture_if source.entry.number source.entry.words.now at picture.now) }
{
    match picture {
        None => Ok(()),
        Some(picture) => {
            add_picture_at(alloc, wishes, source, at, picture)?;
            Ok(())
        }
    }
}

/// Adds the new PICTURE of an item that gets longer.
fn add_picture(
    alloc: Global,
    wishes: &mut List<Edit>,
    index: &YearIndex,
    source: ProgramWords,
    item: &Item,
) -> Result<(), Memory>
    ensures { OnOk result (wishes.new ≡ wishes.old ++ spec.picture_wishes index.now source.entry.number source.entry.words.now item.now) }
{
    if grows(index, item.span)? {
        let picture = picture_image(alloc, item, index)?;
        add_picture_if(alloc, wishes, source, item.entry_at, &picture)?;
        Ok(())
    } else {
        Ok(())
    }
}

/// Adds the new PICTUREs of items.
fn add_pictures(
    alloc: Global,
    wishes: &mut List<Edit>,
    index: &YearIndex,
    source: ProgramWords,
    items: &[Item],
) -> Result<(), Memory>
    ensures { OnOk result (wishes.new ≡ wishes.old ++ spec.pictures_wishes index.now source.entry.number source.entry.words.now items.now) }
{
    let mut rest = items;
    while let [item, more @ ..] = rest {
        add_picture(alloc, wishes, index, source, item)?;
        rest = more;
    }
    Ok(())
}

/// The position of a number.
fn number_at(number: &Operand) -> Option<u32>
    ensures { result ≡ spec.number_at number.now }
{
    match number {
        Operand::Place(_) => None,
        Operand::Number {
            value: _,
            digits: _,
            at,
        } => Some(*at),
        Operand::Text { bytes: _, at: _ } => None,
        Operand::Figure { byte: _, at: _ } => None,
    }
}

/// The position of the number of RECORD CONTAINS.
fn contains_at(file: &FileEntry) -> Option<u32>
    ensures { result ≡ spec.number_at_if file.now.contains }
{
    match &file.contains {
        None => None,
        Some(number) => number_at(number),
    }
}

/// Adds the new number of RECORD CONTAINS for a file with its record area.
fn add_contains(
    alloc: Global,
    wishes: &mut List<Edit>,
    index: &YearIndex,
    source: ProgramWords,
    file: &FileEntry,
    area: &Area,
) -> Result<(), Memory>
    ensures { OnOk result (wishes.new ≡ wishes.old ++ spec.contains_wishes index.now source.entry.number source.entry.words.now file.now area.now) }
{
    match contains_at(file) {
        None => Ok(()),
        Some(position) => {
            let number = new_number(alloc, index, area_span(area), 0)?;
            add_number_if(alloc, wishes, source, position, number)?;
            Ok(())
        }
    }
}

/// Adds the new numbers of RECORD CONTAINS. The record areas of the files come first among the areas.
fn add_files(
    alloc: Global,
    wishes: &mut List<Edit>,
    index: &YearIndex,
    source: ProgramWords,
    files: &[FileEntry],
    areas: &[Area],
) -> Result<(), Memory>
    ensures { OnOk result (wishes.new ≡ wishes.old ++ spec.files_wishes index.now source.entry.number source.entry.words.now files.now areas.now) }
{
    let mut files_left = files;
    let mut areas_left = areas;
    while let [file, more @ ..] = files_left {
        match areas_left {
            [] => return Ok(()),
            [area, others @ ..] => {
                add_contains(alloc, wishes, index, source, file, area)?;
                files_left = more;
                areas_left = others;
            }
        }
    }
    Ok(())
}

fn add_status(
    alloc: Global,
    wishes: &mut List<Edit>,
    index: &YearIndex,
    source: ProgramWords,
    layout: &Layout,
    status: &Option<Place>,
) -> Result<(), Memory>
    requires { IsReady layout.now }
    ensures { OnOk result (wishes.new ≡ wishes.old ++ spec.status_wishes index.now source.entry.number source.entry.words.now layout.now status.now) }
{
    match status {
        None => Ok(()),
        Some(place) => {
            let used = place_used(alloc, layout, place)?;
            let items = layout.items.items();
            add_reference(alloc, wishes, index, source, items, &used)?;
            Ok(())
        }
    }
}

/// Adds the new numbers of the references in FILE STATUS.
fn add_selects(
    alloc: Global,
    wishes: &mut List<Edit>,
    index: &YearIndex,
    source: ProgramWords,
    layout: &Layout,
    selects: &[Select],
) -> Result<(), Memory>
    requires { IsReady layout.now }
    ensures { OnOk result (wishes.new ≡ wishes.old ++ spec.selects_wishes index.now source.entry.number source.entry.words.now layout.now selects.now) }
{
    let mut rest = selects;
    while let [select, more @ ..] = rest {
        add_status(alloc, wishes, index, source, layout, &select.status)?;
        rest = more;
    }
    Ok(())
}

/// Adds what the entries of a program want: its FILE STATUS references, its RECORD CONTAINS and its PICTUREs.
pub(crate) fn add_entries(
    alloc: Global,
    wishes: &mut List<Edit>,
    index: &YearIndex,
    number: u32,
    program: &Program,
    layout: &Layout,
) -> Result<(), Memory>
    requires { IsReady layout.now }
    ensures { OnOk result (wishes.new ≡ wishes.old ++ spec.entries_wishes index.now number program.now layout.now) }
{
    let source = ProgramWords {
        number,
        words: program.words.items(),
    };
    let selects = program.selects.items();
    let files = program.files.items();
    let areas = layout.areas.items();
    add_selects(alloc, wishes, index, source, layout, selects)?;
    add_files(alloc, wishes, index, source, files, areas)?;
    add_pictures(alloc, wishes, index, source, layout.items.items())?;
    Ok(())
}

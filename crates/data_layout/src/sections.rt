ghost use Rattle.std.specs.Prelude.{◌≡◌, ◌+◌, ◌++◌, ◌∷◌, [], length, IfOk, IfSome, IfNone, None};
ghost use Rattle.data_layout.specs.Tree.{parts_of};
ghost use Rattle.data_layout.specs.Items as items;
ghost use Rattle.data_layout.specs.Sections as spec;
ghost use Rattle.data_layout.specs.Index.{IsReady};

use crate::item::{Area, Layout};
use crate::lay::{Around, Sheet, cond_of, lay_item, lay_parts, narrow};
use crate::measure::{bytes_of, measure};
use crate::tree::{NAMED, SINGLE, first_within, rank};
use cobol_syntax::{Entry, FileEntry, Program};
use std::alloc::Global;
use y2k_base::{AreaId, List, Memory, Twin};

/// Whose area comes next in working storage, and those of the last 01 and the last 77 that redefine nothing.
#[derive(Clone, Copy)]
pub(crate) struct Owners {
    next: AreaId,
    common: AreaId,
    single: AreaId,
}

fn greater(first: u128, second: u128) -> u128
    ensures { result ≡ spec.greater first second }
{
    if first <= second { second } else { first }
}

/// The greatest length of the items of a section.
pub(crate) fn greatest(entries: &[Entry]) -> Result<u128, Memory>
    ensures { IfOk result (λ bytes. bytes ≡ spec.greatest 0 (spec.tops entries.now)) }
{
    let mut most = 0;
    let mut rest = entries;
    while let Some((entry, inner)) = first_within(rest, 0) {
        let (of_parts, after) = measure(inner, rank(entry.level))?;
        most = most_with(most, entry, of_parts)?;
        rest = after;
    }
    Ok(most)
}

fn most_with(most: u128, entry: &Entry, of_parts: u128) -> Result<u128, Memory>
    ensures { IfOk result (λ bytes. bytes ≡ spec.most_with most entry.now of_parts) }
{
    if entry.level == NAMED {
        Ok(most)
    } else {
        let bytes = bytes_of(entry, of_parts)?;
        Ok(greater(most, bytes))
    }
}

fn next_area(id: AreaId) -> Result<AreaId, Memory>
    ensures { IfOk result (λ next. next ≡ spec.next_area id) }
{
    match id.0.checked_add(1) {
        Some(next) => Ok(AreaId(next)),
        None => Err(Memory),
    }
}

fn record_area(alloc: Global, id: AreaId) -> Around
    ensures { result ≡ spec.record_area id }
{
    Around {
        area: id,
        parent: None,
        steps: List::new(alloc),
        alike: true,
    }
}

fn own_area(alloc: Global, id: AreaId) -> Around
    ensures { result ≡ spec.own_area id }
{
    Around {
        area: id,
        parent: None,
        steps: List::new(alloc),
        alike: false,
    }
}

fn file_area(alloc: Global, id: AreaId, file: &FileEntry) -> Result<Area, Memory>
    ensures { IfOk result (λ area. area ≡ spec.file_area id file.now) }
{
    let length = narrow(greatest(file.entries.items())?)?;
    let name = file.name.twin(alloc)?;
    Ok(Area {
        id,
        name: Some(name),
        file: true,
        length,
    })
}

/// Lays the records of a file.
fn lay_file(alloc: Global, sheet: &mut Sheet, id: AreaId, file: &FileEntry) -> Result<(), Memory>
    ensures items { IfOk result (λ _. sheet.new.items ≡ sheet.old.items ++ items.items (spec.record_area id) (length sheet.old.items) 0 0 (spec.tops file.now.entries)) }
    ensures conds { IfOk result (λ _. sheet.new.conds ≡ sheet.old.conds ++ items.conds None (length sheet.old.items) (spec.tops file.now.entries)) }
{
    let around = record_area(alloc, id);
    lay_parts(alloc, sheet, &around, 0, file.entries.items(), 0)?;
    Ok(())
}

/// The first file and those after it.
pub(crate) fn first_file(files: &[FileEntry]) -> Option<(&FileEntry, &[FileEntry])>
    ensures some { IfSome result (λ first. files.now ≡ first.0.now ∷ first.1.now) }
    ensures none { IfNone result (files.now ≡ []) }
{
    match files {
        [] => None,
        [file, more @ ..] => Some((file, more)),
    }
}

/// Lays the files, the first in that area. Gives the area after theirs.
fn lay_files(
    alloc: Global,
    sheet: &mut Sheet,
    areas: &mut List<Area>,
    first: AreaId,
    files: &[FileEntry],
) -> Result<AreaId, Memory>
    ensures items { IfOk result (λ _. sheet.new.items ≡ sheet.old.items ++ spec.files_items first (length sheet.old.items) files.now) }
    ensures conds { IfOk result (λ _. sheet.new.conds ≡ sheet.old.conds ++ spec.files_conds (length sheet.old.items) files.now) }
    ensures areas { IfOk result (λ _. areas.new ≡ areas.old ++ spec.files_areas first files.now) }
    ensures next { IfOk result (λ next. next ≡ spec.after_files first files.now) }
    ensures count { IfOk result (λ _. length sheet.new.items ≡ length sheet.old.items + spec.files_count files.now) }
{
    let mut id = first;
    let mut rest = files;
    while let Some((file, more)) = first_file(rest) {
        areas.push(file_area(alloc, id, file)?)?;
        lay_file(alloc, sheet, id, file)?;
        id = next_area(id)?;
        rest = more;
    }
    Ok(id)
}

/// Whose area the item of an entry has.
fn area_for(owners: Owners, entry: &Entry) -> AreaId
    ensures { result ≡ spec.area_for owners entry.now }
{
    if entry.redefines.is_some() {
        if entry.level == SINGLE {
            owners.single
        } else {
            owners.common
        }
    } else {
        owners.next
    }
}

fn next_for(owners: Owners, entry: &Entry) -> Result<AreaId, Memory>
    ensures { IfOk result (λ next. next ≡ spec.next_for owners entry.now) }
{
    if entry.redefines.is_some() {
        Ok(owners.next)
    } else {
        let next = next_area(owners.next)?;
        Ok(next)
    }
}

fn owners_after(owners: Owners, entry: &Entry) -> Result<Owners, Memory>
    ensures { IfOk result (λ after. after ≡ spec.owners_after owners entry.now) }
{
    let next = next_for(owners, entry)?;
    let own = area_for(owners, entry);
    if entry.level == SINGLE {
        Ok(Owners {
            next,
            common: owners.common,
            single: own,
        })
    } else {
        Ok(Owners {
            next,
            common: own,
            single: owners.single,
        })
    }
}

/// The area of an item of working storage that redefines nothing.
fn add_area(
    alloc: Global,
    areas: &mut List<Area>,
    id: AreaId,
    entry: &Entry,
    inner: &[Entry],
) -> Result<(), Memory>
    ensures { IfOk result (λ _. areas.new ≡ areas.old ++ spec.own_areas id entry.now (parts_of entry.now inner.now)) }
{
    if entry.redefines.is_some() {
        return Ok(());
    }
    let (of_parts, _) = measure(inner, rank(entry.level))?;
    let length = narrow(bytes_of(entry, of_parts)?)?;
    let name = entry.name.twin(alloc)?;
    areas.push(Area {
        id,
        name,
        file: false,
        length,
    })?;
    Ok(())
}

/// Lays working storage.
fn lay_storage(
    alloc: Global,
    sheet: &mut Sheet,
    areas: &mut List<Area>,
    first: Owners,
    entries: &[Entry],
) -> Result<(), Memory>
    ensures items { IfOk result (λ _. sheet.new.items ≡ sheet.old.items ++ spec.storage_items first (length sheet.old.items) (spec.tops entries.now)) }
    ensures conds { IfOk result (λ _. sheet.new.conds ≡ sheet.old.conds ++ items.conds None (length sheet.old.items) (spec.tops entries.now)) }
    ensures areas { IfOk result (λ _. areas.new ≡ areas.old ++ spec.storage_areas first (spec.tops entries.now)) }
{
    let mut owners = first;
    let mut rest = entries;
    while let Some((entry, inner)) = first_within(rest, 0) {
        if entry.level == NAMED {
            sheet.conds.push(cond_of(alloc, None, entry)?)?;
            rest = inner;
        } else {
            add_area(alloc, areas, owners.next, entry, inner)?;
            let around = own_area(alloc, area_for(owners, entry));
            let (_, after) = lay_item(alloc, sheet, &around, 0, entry, inner)?;
            owners = owners_after(owners, entry)?;
            rest = after;
        }
    }
    Ok(())
}

/// The layout of a program whose areas are numbered from that one on.
pub(crate) fn lay_program(alloc: Global, program: &Program, first: AreaId) -> Result<Layout, Memory>
    ensures layout { IfOk result (spec.IsLayout first program.now) }
    ensures ready { IfOk result IsReady }
{
    let mut sheet = Sheet {
        items: List::new(alloc),
        conds: List::new(alloc),
    };
    let mut areas = List::new(alloc);
    let next = lay_files(alloc, &mut sheet, &mut areas, first, program.files.items())?;
    let owners = Owners {
        next,
        common: next,
        single: next,
    };
    lay_storage(
        alloc,
        &mut sheet,
        &mut areas,
        owners,
        program.storage.items(),
    )?;
    let layout = sheet.into_layout(alloc, areas)?;
    Ok(layout)
}

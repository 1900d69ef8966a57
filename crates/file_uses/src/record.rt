ghost use Rattle.std.specs.Prelude.{◌≡◌, ◌+◌, ◌++◌, ◌∷◌, [], ℕ, IfOk, OnOk, IfSome, IfNone};
ghost use Rattle.name_tables.specs.Table.{held, with_value};
ghost use Rattle.file_uses.specs.Records as spec;

use cobol_syntax::{Program, Select};
use data_layout::{Area, FileArea, Layout};
use name_tables::NameTable;
use std::alloc::Global;
use y2k_base::{AreaId, Bytes, List, Memory, Twin};

/// A record area of an external file in one program, and the length of the records there.
pub(crate) struct FileRecord {
    pub(crate) external: Bytes,
    pub(crate) place: FileArea,
    pub(crate) length: u32,
}

impl Drop for FileRecord {
    fn drop(self) {
        let FileRecord {
            external: _external,
            place: _,
            length: _,
        } = self;
    }
}

/// The record area of a file description.
#[derive(Clone, Copy)]
pub(crate) struct RecordArea {
    area: AreaId,
    length: u32,
}

fn put_area<'a>(areas: &mut NameTable<'a, RecordArea>, area: &'a Area) -> Result<(), Memory>
    ensures { OnOk result (held areas.new ≡ spec.with_area (held areas.old) area.now) }
{
    if area.file {
        match &area.name {
            Some(name) => {
                let record = RecordArea {
                    area: area.id,
                    length: area.length,
                };
                areas.put(name.items(), record)?;
                Ok(())
            }
            None => Ok(()),
        }
    } else {
        Ok(())
    }
}

/// The record areas of a program by the names of their file descriptions.
fn areas_of<'a>(alloc: Global, areas: &'a [Area]) -> Result<NameTable<'a, RecordArea>, Memory>
    ensures { IfOk result (λ table. held table ≡ spec.areas_in areas.now) }
{
    let mut table = NameTable::new(alloc);
    let mut rest = areas;
    while let [area, more @ ..] = rest {
        put_area(&mut table, area)?;
        rest = more;
    }
    Ok(table)
}

/// Adds the record area of a file that a program selects.
fn add_record(
    alloc: Global,
    records: &mut List<FileRecord>,
    program: u32,
    select: &Select,
    area: Option<RecordArea>,
) -> Result<(), Memory>
    ensures { OnOk result (records.new ≡ records.old ++ spec.record_of program select.now area) }
{
    match area {
        Some(record) => {
            let external = select.external.twin(alloc)?;
            records.push(FileRecord {
                external,
                place: FileArea {
                    program,
                    area: record.area,
                },
                length: record.length,
            })?;
            Ok(())
        }
        None => Ok(()),
    }
}

#[tactic(auto, using(crate::proofs::Appended::append_again))]
fn add_records(
    alloc: Global,
    records: &mut List<FileRecord>,
    program: u32,
    selects: &[Select],
    areas: &NameTable<'_, RecordArea>,
) -> Result<(), Memory>
    ensures { OnOk result (records.new ≡ records.old ++ spec.records_in program (held areas.now) selects.now) }
{
    let mut rest = selects;
    while let [select, more @ ..] = rest {
        add_record(
            alloc,
            records,
            program,
            select,
            areas.get(select.name.items()),
        )?;
        rest = more;
    }
    Ok(())
}

fn add_program(
    alloc: Global,
    records: &mut List<FileRecord>,
    number: u32,
    program: &Program,
    layout: &Layout,
) -> Result<(), Memory>
    ensures { OnOk result (records.new ≡ records.old ++ spec.records_of number program.now layout.now) }
{
    let areas = areas_of(alloc, layout.areas.items())?;
    add_records(alloc, records, number, program.selects.items(), &areas)?;
    Ok(())
}

/// The record areas of all external files, in the order of the programs and their SELECT entries.
#[tactic(auto, using(crate::proofs::Appended::append_again))]
pub(crate) fn records_of(
    alloc: Global,
    programs: &[Program],
    layouts: &[Layout],
) -> Result<List<FileRecord>, Memory>
    ensures { IfOk result (λ records. records ≡ spec.records_from 0 programs.now layouts.now) }
{
    let mut records = List::new(alloc);
    let mut number = 0;
    let mut rest = programs;
    let mut rest_layouts = layouts;
    while let Some((program, layout, more, more_layouts)) = first_two(rest, rest_layouts) {
        add_program(alloc, &mut records, number, program, layout)?;
        number = next(number)?;
        rest = more;
        rest_layouts = more_layouts;
    }
    Ok(records)
}

fn first_two<'a>(
    programs: &'a [Program],
    layouts: &'a [Layout],
) -> Option<(&'a Program, &'a Layout, &'a [Program], &'a [Layout])>
    ensures programs { IfSome result (λ first. programs.now ≡ first.0.now ∷ first.2.now) }
    ensures layouts { IfSome result (λ first. layouts.now ≡ first.1.now ∷ first.3.now) }
    ensures none { IfNone result ((number : ℕ) → spec.records_from number programs.now layouts.now ≡ []) }
{
    match programs {
        [] => None,
        [program, more @ ..] => match layouts {
            [] => None,
            [layout, more_layouts @ ..] => Some((program, layout, more, more_layouts)),
        },
    }
}

fn next(number: u32) -> Result<u32, Memory>
    ensures { IfOk result (λ next. next ≡ number + 1) }
{
    match number.checked_add(1) {
        Some(next) => Ok(next),
        None => Err(Memory),
    }
}

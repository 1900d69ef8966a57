ghost use Rattle.std.specs.Prelude.{◌≡◌, IfOk, IfErr, OnOk, MatchOption};
ghost use Rattle.name_tables.specs.Names.{named, no_names, NonePasses, IsLeast};
ghost use Rattle.file_uses.specs.Names as names;
ghost use Rattle.file_uses.specs.Names.{list_of, known_by, with_names};
ghost use Rattle.file_uses.specs.Records as areas;
ghost use Rattle.file_uses.specs.Table.{IsTable};
ghost use Rattle.file_uses.specs.Files as spec;

use crate::fault::FileFault;
use crate::known::KnownFiles;
use crate::record::{FileRecord, records_of};
use crate::selected::unknown_files;
use crate::table::FileTable;
use cobol_syntax::Program;
use data_layout::{FileUse, Layout};
use name_tables::Names;
use portfolio::Named;
use std::alloc::Global;
use y2k_base::{Bytes, List, Memory};

/// The external files that programs with these layouts use, in the order of their first SELECT entries. `files` are
/// the names that are known, with the names of their files; where there are none, each external name is known and its
/// own file's name. The record areas of a file go by the programs and their SELECT entries.
pub fn files_of(
    alloc: Global,
    programs: &[Program],
    layouts: &[Layout],
    files: Option<&[Named]>,
) -> Result<List<FileUse>, FileFault>
    ensures files { IfOk result (λ list. list ≡ spec.files_of (list_of files.entry) programs.now layouts.now) }
    ensures known { OnOk result (NonePasses (spec.unknown_files (list_of files.entry) programs.now)) }
    ensures lengths { OnOk result (NonePasses (spec.unlike_files (list_of files.entry) programs.now layouts.now)) }
    ensures fault { IfErr result (spec.HasFileFault (list_of files.entry) programs.now layouts.now) }
{
    let known = KnownFiles::of(alloc, files)?;
    match check_known(alloc, programs, &known, files) {
        Ok(()) => match alike_files(alloc, programs, layouts, &known) {
            Ok(list) => Ok(list),
            Err(FileFault::Lengths(name)) => Err(FileFault::Lengths(name)),
            Err(_) => Err(FileFault::Memory),
        },
        Err(FileFault::Unknown(name)) => Err(FileFault::Unknown(name)),
        Err(_) => Err(FileFault::Memory),
    }
}

fn check_known(
    alloc: Global,
    programs: &[Program],
    known: &KnownFiles<'_>,
    files: Option<&[Named]>,
) -> Result<(), FileFault>
    ensures right { OnOk result (NonePasses (names.unknown_by (known_by known.now) (list_of files.entry) programs.now)) }
    ensures fault { IfErr result (spec.IsUnknown (names.unknown_by (known_by known.now) (list_of files.entry) programs.now)) }
{
    let faults = unknown_files(alloc, programs, known, files)?;
    match least_of(alloc, &faults) {
        Ok(None) => Ok(()),
        Ok(Some(name)) => Err(FileFault::Unknown(name)),
        Err(_) => Err(FileFault::Memory),
    }
}

/// The files, each with records of one length.
fn alike_files(
    alloc: Global,
    programs: &[Program],
    layouts: &[Layout],
    known: &KnownFiles<'_>,
) -> Result<List<FileUse>, FileFault>
    ensures files { IfOk result (λ list. list ≡ spec.files_by (names.name_by known.now) programs.now layouts.now) }
    ensures lengths { OnOk result (NonePasses (spec.unlike_by (names.name_by known.now) programs.now layouts.now)) }
    ensures fault { IfErr result (spec.AreUnlike (spec.unlike_by (names.name_by known.now) programs.now layouts.now)) }
{
    let records = records_of(alloc, programs, layouts)?;
    let table = FileTable::of(alloc, known, records.items())?;
    match check_lengths(alloc, &table, records.items()) {
        Ok(()) => Ok(table.into_files()),
        Err(FileFault::Lengths(name)) => Err(FileFault::Lengths(name)),
        Err(_) => Err(FileFault::Memory),
    }
}

fn check_lengths(alloc: Global, table: &FileTable, records: &[FileRecord]) -> Result<(), FileFault>
    requires { IsTable table.now }
    ensures right { OnOk result (NonePasses (with_names no_names (areas.unlike table.now.files.items records.now))) }
    ensures fault { IfErr result (spec.AreUnlike (with_names no_names (areas.unlike table.now.files.items records.now))) }
{
    let faults = table.unlike(alloc, records)?;
    match least_of(alloc, &faults) {
        Ok(None) => Ok(()),
        Ok(Some(name)) => Err(FileFault::Lengths(name)),
        Err(_) => Err(FileFault::Memory),
    }
}

/// The least of these names in byte order.
fn least_of(alloc: Global, names: &Names) -> Result<Option<Bytes>, Memory>
    ensures { IfOk result (λ least. MatchOption least (NonePasses (named names.now)) (IsLeast (named names.now))) }
{
    match names.least() {
        Some(name) => {
            let mut copy = List::new(alloc);
            copy.append(name)?;
            Ok(Some(copy))
        }
        None => Ok(None),
    }
}

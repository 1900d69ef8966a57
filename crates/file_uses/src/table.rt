ghost use Rattle.std.specs.Prelude.{◌≡◌, ◌<◌, ◌++◌, ◌∷◌, [], length, None, slice_get, option_map, IfOk, OnOk, IfSome};
ghost use Rattle.file_uses.specs.Records as spec;
ghost use Rattle.name_tables.specs.Names.{named, no_names};
ghost use Rattle.file_uses.specs.Names.{name_by, with_names};
ghost use Rattle.data_layout.specs.declared.portfolio.FileUse.{FileUse};
ghost use Rattle.file_uses.specs.Table.{IsTable, added_at, index_of};

use crate::known::KnownFiles;
use crate::record::FileRecord;
use data_layout::{FileArea, FileUse};
use indexmap::IndexSet;
use name_tables::Names;
use std::alloc::Global;
use y2k_base::{Bytes, List, Memory, Twin};

/// External files in the order of their first sight, with their names in this order.
#[derive(Drop)]
pub(crate) struct FileTable {
    names: IndexSet<Vec<u8>>,
    files: Vec<FileUse>,
}

fn bytes_of(alloc: Global, bytes: &[u8]) -> Result<Bytes, Memory>
    ensures { IfOk result (λ copy. copy ≡ bytes.now) }
{
    let mut copy = List::new(alloc);
    copy.append(bytes)?;
    Ok(copy)
}

fn new_file(alloc: Global, known: &KnownFiles<'_>, found: &FileRecord) -> Result<FileUse, Memory>
    ensures { IfOk result (λ file. file ≡ spec.new_file (name_by known.now) found.now) }
{
    let mut areas = List::new(alloc);
    areas.push(found.place)?;
    Ok(FileUse {
        external: found.external.twin(alloc)?,
        name: bytes_of(alloc, known.name_of(found.external.items()))?,
        length: found.length,
        areas,
    })
}

fn add_area(files: &mut Vec<FileUse>, index: usize, area: FileArea) -> Result<(), Memory>
    requires { index < length files.old.items }
    ensures { OnOk result (files.new.items ≡ added_at files.old.items index area) }
{
    files[index].areas.push(area)?;
    Ok(())
}

fn length_at(files: &Vec<FileUse>, index: usize) -> Option<u32>
    ensures { result ≡ option_map (λ (file : FileUse). file.length) (slice_get files.now.items index) }
{
    match files.get(index) {
        Some(file) => Some(file.length),
        None => None,
    }
}

impl FileTable {
    fn new(alloc: Global) -> FileTable
        ensures table { IsTable result }
        ensures files { result.files.items ≡ [] }
    {
        FileTable {
            names: IndexSet::new(alloc),
            files: Vec::new(alloc),
        }
    }

    /// The table of records, in their order.
    pub(crate) fn of(
        alloc: Global,
        known: &KnownFiles<'_>,
        records: &[FileRecord],
    ) -> Result<FileTable, Memory>
        ensures table { IfOk result IsTable }
        ensures files { IfOk result (λ table. table.files.items ≡ spec.with_records (name_by known.now) [] records.now) }
    {
        let mut table = FileTable::new(alloc);
        let mut rest = records;
        while let [found, more @ ..] = rest {
            table.add(alloc, known, found)?;
            rest = more;
        }
        Ok(table)
    }

    fn index_of(&self, external: &[u8]) -> Option<usize>
        requires { IsTable self.now }
        ensures index { result ≡ index_of self.now.files.items external.now }
        ensures within { IfSome result (λ index. index < length self.now.files.items) }
    {
        self.names.get_index_of(external)
    }

    /// Adds a record area to the file of its external name, which goes last where it wasn't there.
    fn add(
        &mut self,
        alloc: Global,
        known: &KnownFiles<'_>,
        found: &FileRecord,
    ) -> Result<(), Memory>
        requires { IsTable self.old }
        ensures table { OnOk result (IsTable self.new) }
        ensures files { OnOk result (self.new.files.items ≡ spec.with_record (name_by known.now) self.old.files.items found.now) }
    {
        match self.index_of(found.external.items()) {
            Some(index) => {
                add_area(&mut self.files, index, found.place)?;
                Ok(())
            }
            None => {
                let file = new_file(alloc, known, found)?;
                self.add_file(alloc, file)?;
                Ok(())
            }
        }
    }

    fn add_file(&mut self, alloc: Global, file: FileUse) -> Result<(), Memory>
        requires table { IsTable self.old }
        requires absent { index_of self.old.files.items file.external ≡ None }
        ensures table { OnOk result (IsTable self.new) }
        ensures files { OnOk result (self.new.files.items ≡ self.old.files.items ++ file ∷ []) }
    {
        let mut name = Vec::new(alloc);
        name.extend_from_slice(file.external.items())?;
        self.names.insert(name)?;
        self.files.push(file)?;
        Ok(())
    }

    /// How long the records of a file are where it is seen first.
    fn length_of(&self, external: &[u8]) -> Option<u32>
        requires { IsTable self.now }
        ensures { result ≡ spec.length_in self.now.files.items external.now }
    {
        match self.index_of(external) {
            Some(index) => length_at(&self.files, index),
            None => None,
        }
    }

    fn has_length(&self, found: &FileRecord) -> bool
        requires { IsTable self.now }
        ensures { result ≡ spec.has_length self.now.files.items found.now }
    {
        match self.length_of(found.external.items()) {
            Some(length) => length == found.length,
            None => true,
        }
    }

    /// The external names of records that have another length than that of their file.
    pub(crate) fn unlike(&self, alloc: Global, records: &[FileRecord]) -> Result<Names, Memory>
        requires { IsTable self.now }
        ensures { IfOk result (λ names. named names ≡ with_names no_names (spec.unlike self.now.files.items records.now)) }
    {
        let mut names = Names::new(alloc);
        let mut rest = records;
        while let [found, more @ ..] = rest {
            if !self.has_length(found) {
                names.add(alloc, found.external.items())?;
            }
            rest = more;
        }
        Ok(names)
    }

    pub(crate) fn into_files(self) -> List<FileUse>
        ensures { result ≡ self.files.items }
    {
        let FileTable {
            names: _names,
            files,
        } = self;
        List::from_vec(files)
    }
}

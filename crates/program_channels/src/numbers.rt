ghost use Rattle.std.specs.Prelude.{◌≡◌, ℕ, List, IfOk, map};
ghost use Rattle.name_tables.specs.Table.{held};
ghost use Rattle.layout_reading.specs.Reading.{externals};
ghost use Rattle.tree_reading.specs.Reading.{read_file};
ghost use Rattle.program_meaning.specs.Portfolio.{index_of, file_names};
ghost use Rattle.program_channels.specs.Numbers.{number_in, numbers_of_files, numbers_of_entries};

use cobol_syntax::FileEntry;
use data_layout::FileUse;
use name_tables::NameTable;
use std::alloc::Global;
use y2k_base::Memory;

/// The numbers of names. A name that isn't there has the number after the last one. A number past 32 bits is want of
/// memory.
#[derive(Drop)]
pub(crate) struct Numbers<'a> {
    table: NameTable<'a, u32>,
    count: u32,
}

impl<'a> Numbers<'a> {
    /// The numbers of the external names; of several of one name the first.
    pub(crate) fn of_files(alloc: Global, files: &'a [FileUse]) -> Result<Numbers<'a>, Memory>
        ensures { IfOk result (λ numbers. (name : List ℕ) → number_in numbers name ≡ index_of name (externals files.now)) }
    {
        let table = file_table(alloc, files)?;
        match u32::try_from(files.len()) {
            Ok(count) => Ok(Numbers { table, count }),
            Err(_) => Err(Memory),
        }
    }

    /// The numbers of the FDs; of several of one name the first.
    pub(crate) fn of_entries(alloc: Global, entries: &'a [FileEntry]) -> Result<Numbers<'a>, Memory>
        ensures { IfOk result (λ numbers. (name : List ℕ) → number_in numbers name ≡ index_of name (file_names (map read_file entries.now))) }
    {
        let table = entry_table(alloc, entries)?;
        match u32::try_from(entries.len()) {
            Ok(count) => Ok(Numbers { table, count }),
            Err(_) => Err(Memory),
        }
    }

    pub(crate) fn number(&self, name: &[u8]) -> u32
        ensures { result ≡ number_in self.now name.now }
    {
        match self.table.get(name) {
            Some(number) => number,
            None => self.count,
        }
    }
}

fn file_table<'a>(alloc: Global, files: &'a [FileUse]) -> Result<NameTable<'a, u32>, Memory>
    ensures { IfOk result (λ table. held table ≡ numbers_of_files 0 files.now) }
{
    let mut table = NameTable::new(alloc);
    let mut i = files.len();
    while i > 0 {
        i -= 1;
        match u32::try_from(i) {
            Ok(number) => table.put(files[i].external.items(), number)?,
            Err(_) => return Err(Memory),
        }
    }
    Ok(table)
}

fn entry_table<'a>(alloc: Global, entries: &'a [FileEntry]) -> Result<NameTable<'a, u32>, Memory>
    ensures { IfOk result (λ table. held table ≡ numbers_of_entries 0 entries.now) }
{
    let mut table = NameTable::new(alloc);
    let mut i = entries.len();
    while i > 0 {
        i -= 1;
        match u32::try_from(i) {
            Ok(number) => table.put(entries[i].name.items(), number)?,
            Err(_) => return Err(Memory),
        }
    }
    Ok(table)
}

ghost use Rattle.std.specs.Prelude.{◌≡◌, ◌+◌, ◌++◌, ◌∷◌, [], IfOk, IfErr, IfSome, IfNone, OnOk, IsTrue, ◌↔◌, map};
ghost use Rattle.std.specs.List.{AllByRecursion};
ghost use Rattle.csv.specs.Records.{fields_of};
ghost use Rattle.data_layout.specs.Index.{IsReady};
ghost use Rattle.seed_file.specs.Rows.{header};
ghost use Rattle.seed_file.specs.Seeds as spec;
ghost use Rattle.seed_file.specs.declared.file.SeedFault.TheVariants as fault;

use crate::meaning::seeds_of;
use crate::record::records_of;
use crate::row::{SeedRow, four_fields, row_of};
use csv::ByteRecord;
use data_layout::Portfolio;
use std::alloc::Global;
use std::convert::From;
use y2k_base::{List, Memory};
use year_labels::Seed;

/// The first row of a seed file that is at fault, by its number. Rows are counted from 1 as the records of the file, the
/// header among them; an empty line is none.
#[derive(Clone, Copy, Debug, PartialEq, Eq)]
pub enum SeedFault {
    /// It is no row, or the first row isn't the header.
    RowShape(u32),
    /// Its item isn't known, is BINARY, or lacks the two digits of a year there.
    SeedUnknown(u32),
    /// There was no memory left.
    Memory,
}

impl From<Memory> for SeedFault {
    ghost from_gives = { λ _ e. e ≡ fault.Memory };

    fn from(_: Memory) -> SeedFault {
        SeedFault::Memory
    }
}

/// The seeds of the rows that were read so far, and the number of the next row.
pub(crate) struct Found {
    pub(crate) seeds: List<Seed>,
    pub(crate) number: u32,
}

impl Drop for Found {
    fn drop(self) {
        let Found {
            seeds: _seeds,
            number: _,
        } = self;
    }
}

/// The seeds of a seed file, which is CSV with the header `program,item,kind,digit`, in the order of its rows. Of one
/// row its shape is looked at first.
pub fn read_seeds(
    alloc: Global,
    text: &[u8],
    portfolio: &Portfolio,
) -> Result<List<Seed>, SeedFault>
    requires { AllByRecursion IsReady portfolio.now.layouts }
    ensures seeds { IfOk result (spec.IsSeedFile portfolio.now text.now) }
    ensures fault { IfErr result (spec.HasSeedFault portfolio.now text.now) }
{
    match records_of(alloc, text) {
        Ok(records) => match seeds_of_records(alloc, records.as_slice(), portfolio) {
            Ok(seeds) => Ok(seeds),
            Err(fault) => Err(fault),
        },
        Err(_) => Err(SeedFault::Memory),
    }
}

fn seeds_of_records(
    alloc: Global,
    records: &[ByteRecord],
    portfolio: &Portfolio,
) -> Result<List<Seed>, SeedFault>
    requires { AllByRecursion IsReady portfolio.now.layouts }
    ensures seeds { IfOk result (spec.AreFileSeeds portfolio.now (map fields_of records.now)) }
    ensures fault { IfErr result (spec.IsFaultOfFile portfolio.now (map fields_of records.now)) }
{
    match first_of(records) {
        Some((first, more)) => match seeds_under(alloc, first, more, portfolio) {
            Ok(seeds) => Ok(seeds),
            Err(fault) => Err(fault),
        },
        None => Err(SeedFault::RowShape(1)),
    }
}

fn first_of(records: &[ByteRecord]) -> Option<(&ByteRecord, &[ByteRecord])>
    ensures some { IfSome result (λ first. records.now ≡ first.0.now ∷ first.1.now) }
    ensures none { IfNone result (records.now ≡ []) }
{
    match records {
        [] => None,
        [first, more @ ..] => Some((first, more)),
    }
}

/// The seeds of the records after the first, which must be the header.
fn seeds_under(
    alloc: Global,
    first: &ByteRecord,
    records: &[ByteRecord],
    portfolio: &Portfolio,
) -> Result<List<Seed>, SeedFault>
    requires { AllByRecursion IsReady portfolio.now.layouts }
    ensures seeds { IfOk result (spec.AreFileSeeds portfolio.now (fields_of first.now ∷ map fields_of records.now)) }
    ensures fault { IfErr result (spec.IsFaultOfFile portfolio.now (fields_of first.now ∷ map fields_of records.now)) }
{
    if is_header(first) {
        match seeds_of_rows(alloc, records, portfolio) {
            Ok(seeds) => Ok(seeds),
            Err(fault) => Err(fault),
        }
    } else {
        Err(SeedFault::RowShape(1))
    }
}

fn is_header(fields: &ByteRecord) -> bool
    ensures { IsTrue result ↔ (fields_of fields.now ≡ header) }
{
    match four_fields(fields) {
        Some((program, item, kind, digit)) => {
            program == b"program".as_slice()
                && item == b"item".as_slice()
                && kind == b"kind".as_slice()
                && digit == b"digit".as_slice()
        }
        None => false,
    }
}

/// The seeds of the rows after the header.
fn seeds_of_rows(
    alloc: Global,
    records: &[ByteRecord],
    portfolio: &Portfolio,
) -> Result<List<Seed>, SeedFault>
    requires { AllByRecursion IsReady portfolio.now.layouts }
    ensures seeds { IfOk result (spec.AreSeeds portfolio.now 2 (map fields_of records.now)) }
    ensures fault { IfErr result (spec.IsFaultOfRows portfolio.now 2 (map fields_of records.now)) }
{
    let mut found = Found::new(alloc);
    let mut rest = records;
    while let Some((first, more)) = first_of(rest) {
        match found.add(alloc, first, portfolio) {
            Ok(()) => rest = more,
            Err(fault) => return Err(fault),
        }
    }
    Ok(found.into_seeds())
}

impl Found {
    /// No row is read but the header. It takes no memory.
    fn new(alloc: Global) -> Found
        ensures { result ≡ record { seeds = []; number = 2 } }
    {
        Found {
            seeds: List::new(alloc),
            number: 2,
        }
    }

    fn into_seeds(self) -> List<Seed>
        ensures { result ≡ self.seeds }
    {
        let Found { seeds, number: _ } = self;
        seeds
    }

    /// Adds the seeds of the next row.
    fn add(
        &mut self,
        alloc: Global,
        fields: &ByteRecord,
        portfolio: &Portfolio,
    ) -> Result<(), SeedFault>
        requires { AllByRecursion IsReady portfolio.now.layouts }
        ensures added { OnOk result (spec.IsAdded portfolio.now (fields_of fields.now) self.old self.new) }
        ensures fault { IfErr result (spec.IsFaultOfRow portfolio.now self.old.number (fields_of fields.now)) }
    {
        match row_of(alloc, fields) {
            Ok(Some(row)) => match self.add_row(alloc, &row, portfolio) {
                Ok(()) => Ok(()),
                Err(fault) => Err(fault),
            },
            Ok(None) => Err(SeedFault::RowShape(self.number)),
            Err(_) => Err(SeedFault::Memory),
        }
    }

    fn add_row(
        &mut self,
        alloc: Global,
        row: &SeedRow,
        portfolio: &Portfolio,
    ) -> Result<(), SeedFault>
        requires { AllByRecursion IsReady portfolio.now.layouts }
        ensures added { OnOk result (spec.AreAdded (spec.seeds_of portfolio.now self.old.number row.now) self.old self.new) }
        ensures fault { IfErr result (spec.IsUnknown (spec.seeds_of portfolio.now self.old.number row.now) self.old.number) }
    {
        match seeds_of(alloc, portfolio, self.number, row) {
            Ok(Some(seeds)) => match self.add_seeds(seeds.items()) {
                Ok(()) => Ok(()),
                Err(_) => Err(SeedFault::Memory),
            },
            Ok(None) => Err(SeedFault::SeedUnknown(self.number)),
            Err(_) => Err(SeedFault::Memory),
        }
    }

    fn add_seeds(&mut self, seeds: &[Seed]) -> Result<(), Memory>
        ensures { OnOk result (self.new ≡ spec.with_seeds self.old seeds.now) }
    {
        self.seeds.append(seeds)?;
        self.number = next(self.number)?;
        Ok(())
    }
}

fn next(number: u32) -> Result<u32, Memory>
    ensures { IfOk result (λ next. next ≡ number + 1) }
{
    match number.checked_add(1) {
        Some(next) => Ok(next),
        None => Err(Memory),
    }
}

ghost use Rattle.std.specs.Prelude.{◌≡◌, IfOk};
ghost use Rattle.data_conversion.specs.Faults as spec;

use file_convert::ConvertFault;
use shelf::ShelfErr;
use std::alloc::Global;
use thiserror::Error;
use y2k_base::{Bytes, List, Memory};

/// Why the data files of a portfolio are not converted.
#[derive(Debug, Error)]
pub enum DataFault {
    /// The file, named as the manifest writes it, has more bytes than a data file may have.
    #[error("a data file is too large")]
    TooLarge(Bytes),
    /// A record of the file of that external name is not tame, the one of this number from 1 on: its first year that is not
    /// begins at this offset and has these bytes.
    #[error("record {row} is not tame at offset {offset}")]
    Untame {
        external: Bytes,
        row: u64,
        offset: u32,
        bytes: Bytes,
    },
    /// All whole records of the file of that external name are tame, and so many bytes are left over.
    #[error("{left} bytes are left over")]
    PartialRecord {
        external: Bytes,
        left: u32,
    },
    /// The shelf failed at that name.
    #[error("the shelf failed")]
    Shelf(Bytes),
    /// There was no memory left.
    #[error("out of memory")]
    Memory,
}

impl Drop for DataFault {
    fn drop(self) {
        match self {
            DataFault::TooLarge(_name) => {}
            DataFault::Untame {
                external: _external,
                row: _,
                offset: _,
                bytes: _bytes,
            } => {}
            DataFault::PartialRecord {
                external: _external,
                left: _,
            } => {}
            DataFault::Shelf(_name) => {}
            DataFault::Memory => {}
        }
    }
}

impl From<Memory> for DataFault {
    ghost use Rattle.data_conversion.specs.declared.fault.DataFault.TheVariants as faults;

    ghost from_gives = { λ _ fault. fault ≡ faults.Memory };

    fn from(_: Memory) -> DataFault {
        DataFault::Memory
    }
}

/// The fault of a file that is too large, by its name in the manifest.
pub(crate) fn too_large(alloc: Global, name: &[u8]) -> DataFault
    ensures { spec.IsTooLarge name.now result }
{
    match copied(alloc, name) {
        Ok(name) => DataFault::TooLarge(name),
        Err(_) => DataFault::Memory,
    }
}

/// The fault of a call of the shelf at that name.
pub(crate) fn shelf_fault(alloc: Global, error: ShelfErr, name: &str) -> DataFault
    ensures { spec.IsShelfFault error name.now result }
{
    match error {
        ShelfErr::Failed => failed_at(alloc, name),
        ShelfErr::Memory => DataFault::Memory,
    }
}

fn failed_at(alloc: Global, name: &str) -> DataFault
    ensures { spec.IsFailed name.now result }
{
    match copied(alloc, name.as_bytes()) {
        Ok(name) => DataFault::Shelf(name),
        Err(_) => DataFault::Memory,
    }
}

/// The fault of the file of that external name, which is read under one name and written under another.
pub(crate) fn file_fault(
    alloc: Global,
    external: &[u8],
    name: &str,
    to: &str,
    fault: &ConvertFault,
) -> DataFault
    ensures { spec.IsFileFault external.now name.now to.now fault.now result }
{
    match fault {
        ConvertFault::Untame { row, offset, bytes } => {
            untame(alloc, external, *row, *offset, bytes.items())
        }
        ConvertFault::PartialRecord { left } => partial_record(alloc, external, *left),
        ConvertFault::Shelf { written } => failed_at(alloc, name_in_call(*written, name, to)),
        ConvertFault::Memory => DataFault::Memory,
    }
}

/// The name in a call, of one that writes or of one that reads.
fn name_in_call<'a>(written: bool, name: &'a str, to: &'a str) -> &'a str
    ensures { result.now ≡ spec.name_in_call written name.now to.now }
{
    if written { to } else { name }
}

fn untame(alloc: Global, external: &[u8], row: u64, offset: u32, bytes: &[u8]) -> DataFault
    ensures { spec.IsUntame external.now row offset bytes.now result }
{
    match copied(alloc, external) {
        Ok(external) => match copied(alloc, bytes) {
            Ok(bytes) => DataFault::Untame {
                external,
                row,
                offset,
                bytes,
            },
            Err(_) => DataFault::Memory,
        },
        Err(_) => DataFault::Memory,
    }
}

fn partial_record(alloc: Global, external: &[u8], left: u32) -> DataFault
    ensures { spec.IsPartialRecord external.now left result }
{
    match copied(alloc, external) {
        Ok(external) => DataFault::PartialRecord { external, left },
        Err(_) => DataFault::Memory,
    }
}

fn copied(alloc: Global, bytes: &[u8]) -> Result<Bytes, Memory>
    ensures { IfOk result (λ copy. copy ≡ bytes.now) }
{
    let mut copy = List::new(alloc);
    copy.append(bytes)?;
    Ok(copy)
}

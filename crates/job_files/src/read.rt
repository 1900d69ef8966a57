ghost use Rattle.std.specs.Prelude.{◌≡◌, ◌≤◌, ◌++◌, IfOk, IfErr, IsErrOf, string_bytes};
ghost use Rattle.shelf.specs.Causes.{Rose};
ghost use Rattle.job_files.specs.Loaded as spec;

use shelf::{Shelf, ShelfErr};
use std::alloc::Global;
use std::str;
use y2k_base::{Bytes, List, Memory};

/// The most bytes that a data file has. This project's choice.
const MOST_BYTES: u64 = 256_000_000;

/// Why a data file was not read.
#[derive(Clone, Copy, Debug, PartialEq, Eq)]
pub(crate) enum ReadFault {
    /// The file has more than `MOST_BYTES`.
    TooLarge,
    /// The shelf failed.
    Shelf,
    /// There was no memory left.
    Memory,
}

/// The bytes of a data file, if it is there.
pub(crate) fn read_file<S: Shelf>(
    alloc: Global,
    name: &str,
    shelf: &mut S,
) -> Result<Option<Bytes>, ReadFault>
    ensures bytes { IfOk result (spec.HasBytes (S.told shelf.old) name.now) }
    ensures fault { IfErr result (spec.HasReadFault (S.told shelf.old) name.now) }
    ensures failed { IsErrOf result ReadFault.Shelf → Rose (S.faults shelf.old) (S.faults shelf.new) }
    ensures later { S.faults shelf.old ≤ S.faults shelf.new }
    ensures same { S.told shelf.new ≡ S.told shelf.old }
{
    let size = match shelf.size(name) {
        Ok(Some(size)) => size,
        Ok(None) => return Ok(None),
        Err(error) => return Err(fault_of(error)),
    };
    if size > MOST_BYTES {
        return Err(ReadFault::TooLarge);
    }
    let mut bytes = match vec![in alloc; 0u8; size as usize] {
        Ok(bytes) => bytes,
        Err(_) => return Err(ReadFault::Memory),
    };
    match shelf.read(name, 0, &mut bytes) {
        Ok(count) => {
            bytes.truncate(count);
            Ok(Some(List::from_vec(bytes)))
        }
        Err(error) => Err(fault_of(error)),
    }
}

fn fault_of(error: ShelfErr) -> ReadFault
    ensures failed { result ≡ ReadFault.Shelf → error ≡ ShelfErr.Failed }
    ensures outside { result ≡ ReadFault.TooLarge → ⊥ }
{
    match error {
        ShelfErr::Failed => ReadFault::Shelf,
        ShelfErr::Memory => ReadFault::Memory,
    }
}

/// The name of a data file on the shelf.
pub(crate) fn shelf_name(alloc: Global, folder: &str, name: &[u8]) -> Result<String, Memory>
    ensures { IfOk result (λ whole. string_bytes whole ≡ folder.now ++ name.now) }
{
    match str::from_utf8(name) {
        Ok(name) => {
            let whole = format!(in alloc; "{folder}{name}")?;
            Ok(whole)
        }
        Err(_) => Err(Memory),
    }
}

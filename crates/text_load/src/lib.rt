//! Whole texts, read from a shelf within the bound on the bytes of a portfolio's texts.
#![tactic(auto)]

ghost use Rattle.std.specs.Prelude.{◌≡◌, ◌≤◌, IfOk, IfErr, IsErrOf};
ghost use Rattle.shelf.specs.Causes.{Rose};
ghost use Rattle.text_load.specs.Texts.{HasText, HasLoadFault, IsOutside};

use shelf::{Shelf, ShelfErr};
use std::alloc::Global;
use y2k_base::{Bytes, List};

/// The most bytes that the manifest, the seeds and the source texts of a portfolio have together. This
/// project's choice.
pub const MOST_BYTES: u64 = 4_000_000;

/// Why a text was not loaded.
#[derive(Clone, Copy, Debug, PartialEq, Eq)]
pub enum LoadFault {
    /// The shelf has no file of that name.
    Missing,
    /// With this text the bytes of the texts would pass `MOST_BYTES`.
    TooLarge,
    /// The shelf failed.
    Shelf,
    /// There was no memory left.
    Memory,
}

/// All the bytes of a text, where `used` bytes of other texts count with them.
pub fn load<S: Shelf>(
    alloc: Global,
    name: &str,
    used: u64,
    shelf: &mut S,
) -> Result<Bytes, LoadFault>
    ensures ok { IfOk result (λ bytes. HasText name.now used bytes (S.told shelf.old)) }
    ensures cause { IfErr result (HasLoadFault name.now used (S.told shelf.old)) }
    ensures failed { IsErrOf result LoadFault.Shelf → Rose (S.faults shelf.old) (S.faults shelf.new) }
    ensures later { S.faults shelf.old ≤ S.faults shelf.new }
    ensures same { S.told shelf.new ≡ S.told shelf.old }
{
    let size = match shelf.size(name) {
        Ok(Some(size)) => size,
        Ok(None) => return Err(LoadFault::Missing),
        Err(error) => return Err(fault_of(error)),
    };
    if used.saturating_add(size) > MOST_BYTES {
        return Err(LoadFault::TooLarge);
    }
    let mut bytes = match vec![in alloc; 0u8; size as usize] {
        Ok(bytes) => bytes,
        Err(_) => return Err(LoadFault::Memory),
    };
    match shelf.read(name, 0, &mut bytes) {
        Ok(count) => {
            bytes.truncate(count);
            Ok(List::from_vec(bytes))
        }
        Err(error) => Err(fault_of(error)),
    }
}

fn fault_of(error: ShelfErr) -> LoadFault
    ensures failed { result ≡ LoadFault.Shelf → error ≡ ShelfErr.Failed }
    ensures outside { IsOutside result }
{
    match error {
        ShelfErr::Failed => LoadFault::Shelf,
        ShelfErr::Memory => LoadFault::Memory,
    }
}

ghost use Rattle.std.specs.Prelude.{◌≡◌, IfOk};
ghost use Rattle.source_edit.specs.Faults as spec;

use crate::line::copy_of;
use plan_limits::{Kept, Limit};
use std::alloc::Global;
use std::convert::From;
use y2k_base::{Bytes, Memory, Origin};

/// Why texts aren't edited.
#[derive(Debug)]
pub enum EditFault {
    /// The word at that origin would have to become two words that differ: in two of its edits, or in what a program is to read and
    /// what its edited text would read as. A word that isn't there is empty.
    CopyClash {
        at: Origin,
        first: Bytes,
        second: Bytes,
    },
    /// There was no memory left.
    Memory,
}

impl Drop for EditFault {
    fn drop(self) {
        match self {
            EditFault::CopyClash {
                at: _,
                first: _first,
                second: _second,
            } => {}
            EditFault::Memory => {}
        }
    }
}

impl From<Memory> for EditFault {
    ghost use Rattle.source_edit.specs.declared.fault.EditFault.TheVariants as fault;

    ghost from_gives = { λ _ e. e ≡ fault.Memory };

    fn from(_: Memory) -> EditFault {
        EditFault::Memory
    }
}

/// A clash as a fault. The limit is a clash of two words.
pub fn fault_of(alloc: Global, limit: &Limit) -> EditFault
    ensures { spec.IsFaultOf limit.now result }
{
    match words_of(alloc, limit) {
        Ok(fault) => fault,
        Err(_) => EditFault::Memory,
    }
}

fn words_of(alloc: Global, limit: &Limit) -> Result<EditFault, Memory>
    ensures { IfOk result (spec.IsFaultOf limit.now) }
{
    match &limit.kept {
        Kept::Words(first, second) => Ok(EditFault::CopyClash {
            at: limit.at,
            first: copy_of(alloc, first.items())?,
            second: copy_of(alloc, second.items())?,
        }),
        Kept::Word(_) => Err(Memory),
        Kept::Number(_) => Err(Memory),
        Kept::Place(_) => Err(Memory),
    }
}

ghost use Rattle.std.specs.Prelude.{◌≡◌};
ghost use Rattle.file_statements.specs.declared.fault.StepFault.TheVariants as step;
ghost use Rattle.file_statements.specs.Faults as spec;

use storage_places::RunFault;
use y2k_base::Memory;

/// Why a statement of a run can't be done: bytes that hold no number are used as one; a subscript or a reference leaves
/// its item; a divisor is 0 and there is no size phrase; a number leaves 128 bits or a scale passes 38; a file call
/// failed and the file has no status item; or want of memory.
#[derive(Clone, Copy, Debug, PartialEq, Eq)]
pub enum StepFault {
    Data,
    Range,
    Zero,
    Wide,
    File,
    Memory,
}

impl From<Memory> for StepFault {
    ghost from_gives = { λ _ fault. fault ≡ step.Memory };

    fn from(_: Memory) -> StepFault {
        StepFault::Memory
    }
}

/// The same fault of a statement.
pub(crate) fn step_fault(fault: RunFault) -> StepFault
    ensures { result ≡ spec.step_fault fault }
{
    match fault {
        RunFault::Data => StepFault::Data,
        RunFault::Range => StepFault::Range,
        RunFault::Zero => StepFault::Zero,
        RunFault::Wide => StepFault::Wide,
        RunFault::Memory => StepFault::Memory,
    }
}

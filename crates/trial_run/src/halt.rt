ghost use Rattle.std.specs.Prelude.{◌≡◌};
ghost use Rattle.trial_run.specs.declared.halt.Halt.TheVariants as halt;
ghost use Rattle.trial_run.specs.Halts.{halt_of_run, halt_of_step};

use crate::end::FaultKind;
use file_statements::StepFault;
use std::convert::From;
use storage_places::RunFault;
use y2k_base::Memory;

/// Why a statement wasn't done: a fault of the run, or want of memory.
#[derive(Clone, Copy, Debug, PartialEq, Eq)]
pub(crate) enum Halt {
    Fault(FaultKind),
    Memory,
}

impl From<Memory> for Halt {
    ghost from_gives = { λ _ h. h ≡ halt.Memory };

    fn from(_: Memory) -> Halt {
        Halt::Memory
    }
}

impl Halt {
    pub(crate) fn of_run(fault: RunFault) -> Halt
        ensures { result ≡ halt_of_run fault }
    {
        match fault {
            RunFault::Data => Halt::Fault(FaultKind::Data),
            RunFault::Range => Halt::Fault(FaultKind::Range),
            RunFault::Zero => Halt::Fault(FaultKind::Zero),
            RunFault::Wide => Halt::Fault(FaultKind::Wide),
            RunFault::Memory => Halt::Memory,
        }
    }

    pub(crate) fn of_step(fault: StepFault) -> Halt
        ensures { result ≡ halt_of_step fault }
    {
        match fault {
            StepFault::Data => Halt::Fault(FaultKind::Data),
            StepFault::Range => Halt::Fault(FaultKind::Range),
            StepFault::Zero => Halt::Fault(FaultKind::Zero),
            StepFault::Wide => Halt::Fault(FaultKind::Wide),
            StepFault::File => Halt::Fault(FaultKind::File),
            StepFault::Memory => Halt::Memory,
        }
    }
}

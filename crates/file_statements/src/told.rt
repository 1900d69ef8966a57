ghost use Rattle.std.specs.Prelude.{◌≡◌, ◌||◌, ◌==◌, false, cond, pos, IfOk, IfErr};
ghost use Rattle.program_channels.specs.Channel.{status_of};
ghost use Rattle.program_meaning.specs.Moves as moves;
ghost use Rattle.program_meaning.specs.Step as meant;
ghost use Rattle.program_meaning.specs.Tree.{Number};
ghost use Rattle.seq_files.specs.Codes.{code};
ghost use Rattle.tree_reading.specs.Reading.{read_operand, read_place};
ghost use Rattle.file_statements.specs.Calls.{Tells, Breaks};
ghost use Rattle.file_statements.specs.Units.{IsUnitOf, layout_of};

use crate::fault::{StepFault, step_fault};
use crate::unit::RunUnit;
use cobol_syntax::{Operand, Place};
use decimal_bytes::Scaled;
use seq_files::Status;
use std::alloc::Global;
use storage_moves::move_item;

/// Tells the status of a file call: its digits go to the status item. Without one a call that failed ends the run, but
/// for one that met the end where there is an AT END.
pub(crate) fn tell(
    alloc: Global,
    unit: &mut RunUnit<'_>,
    item: Option<&Place>,
    end: bool,
    status: Status,
) -> Result<Status, StepFault>
    requires unit { IsUnitOf (layout_of unit.old) unit.old }
    ensures ok { IfOk result (Tells (layout_of unit.old) unit.old unit.new
        (λ p day w. meant.told p.layout (status_of item.entry) end (code status) w)) }
    ensures err { IfErr result (Breaks (layout_of unit.old) unit.old unit.new
        (λ p day w. meant.told p.layout (status_of item.entry) end (code status) w)) }
    ensures unit { IsUnitOf (layout_of unit.old) unit.new }
{
    match item {
        Some(item) => store_status(alloc, unit, item, status),
        None => {
            if is_good(status, end) {
                Ok(status)
            } else {
                Err(StepFault::File)
            }
        }
    }
}

/// Whether a run goes on after a status that has no item.
fn is_good(status: Status, end: bool) -> bool
    ensures { result ≡ (code status == 0 || cond end (code status == 10) false) }
{
    match status {
        Status::S00 => true,
        Status::S10 => end,
        Status::S35 => false,
        Status::S41 => false,
        Status::S42 => false,
        Status::S46 => false,
        Status::S47 => false,
        Status::S48 => false,
    }
}

/// Moves the digits of a status to its item.
fn store_status(
    alloc: Global,
    unit: &mut RunUnit<'_>,
    item: &Place,
    status: Status,
) -> Result<Status, StepFault>
    requires unit { IsUnitOf (layout_of unit.old) unit.old }
    ensures ok { IfOk result (Tells (layout_of unit.old) unit.old unit.new
        (λ p day w. meant.stored_by (code status) w (moves.move p.layout w.storage (Number (pos (code status)) 0 2) (read_place item.now)))) }
    ensures err { IfErr result (Breaks (layout_of unit.old) unit.old unit.new
        (λ p day w. meant.stored_by (code status) w (moves.move p.layout w.storage (Number (pos (code status)) 0 2) (read_place item.now)))) }
    ensures unit { IsUnitOf (layout_of unit.old) unit.new }
{
    let digits = digits_of(status);
    match move_item(alloc, &mut unit.places, &mut unit.storage, &digits, item) {
        Ok(()) => Ok(status),
        Err(fault) => Err(step_fault(fault)),
    }
}

/// The two digits of a status.
fn digits_of(status: Status) -> Operand
    ensures { read_operand result ≡ Number (pos (code status)) 0 2 }
{
    Operand::Number {
        value: Scaled {
            number: i128::from(status.code()),
            scale: 0,
        },
        digits: 2,
        at: 0,
    }
}

ghost use Rattle.std.specs.Prelude.{false, IfOk, IfErr};
ghost use Rattle.layout_reading.specs.Reading.{read_span, first_area};
ghost use Rattle.program_channels.specs.Channel.{read_channel};
ghost use Rattle.program_channels.specs.Channels.{HasRecord};
ghost use Rattle.program_meaning.specs.Files as files;
ghost use Rattle.program_meaning.specs.Step as meant;
ghost use Rattle.program_meaning.specs.Step.{disk_of};
ghost use Rattle.seq_files.specs.Disks.{read_mode};
ghost use Rattle.storage_places.specs.Fits.{area_lengths};
ghost use Rattle.storage_places.specs.Held.{IsWithin};
ghost use Rattle.tree_reading.specs.Reading.{place_if, operand_if};
ghost use Rattle.file_statements.specs.Calls.{Tells, Breaks};
ghost use Rattle.file_statements.specs.Units.{IsUnitOf, layout_of};

use crate::done::{close_file, open_file, read_file, write_file};
use crate::fault::StepFault;
use crate::moved::{move_from, move_into};
use crate::told::tell;
use crate::unit::RunUnit;
use cobol_syntax::{Mode, Operand, Place};
use program_channels::Channel;
use seq_files::Status;
use std::alloc::Global;
use y2k_base::Span;

/// OPEN of a file, with its status item.
pub fn open(
    alloc: Global,
    unit: &mut RunUnit<'_>,
    channel: Channel<'_>,
    mode: Mode,
) -> Result<Status, StepFault>
    requires unit { IsUnitOf (layout_of unit.old) unit.old }
    requires channel { HasRecord (layout_of unit.old) channel }
    ensures ok { IfOk result (Tells (layout_of unit.old) unit.old unit.new
        (λ p day w. meant.call p day w (read_channel channel.entry) (files.open_file (disk_of w (read_channel channel.entry)) (read_mode mode)) false)) }
    ensures err { IfErr result (Breaks (layout_of unit.old) unit.old unit.new
        (λ p day w. meant.call p day w (read_channel channel.entry) (files.open_file (disk_of w (read_channel channel.entry)) (read_mode mode)) false)) }
    ensures unit { IsUnitOf (layout_of unit.old) unit.new }
{
    let status = open_file(unit, channel, mode)?;
    tell(alloc, unit, channel.status, false, status)
}

/// CLOSE of a file, with its status item.
pub fn close(
    alloc: Global,
    unit: &mut RunUnit<'_>,
    channel: Channel<'_>,
) -> Result<Status, StepFault>
    requires unit { IsUnitOf (layout_of unit.old) unit.old }
    requires channel { HasRecord (layout_of unit.old) channel }
    ensures ok { IfOk result (Tells (layout_of unit.old) unit.old unit.new
        (λ p day w. meant.call p day w (read_channel channel.entry) (files.close_file (disk_of w (read_channel channel.entry))) false)) }
    ensures err { IfErr result (Breaks (layout_of unit.old) unit.old unit.new
        (λ p day w. meant.call p day w (read_channel channel.entry) (files.close_file (disk_of w (read_channel channel.entry))) false)) }
    ensures unit { IsUnitOf (layout_of unit.old) unit.new }
{
    let status = close_file(unit, channel)?;
    tell(alloc, unit, channel.status, false, status)
}

/// READ of the next record: the file's part, the record area, the status item, and then INTO. `end` says that there is an
/// AT END.
pub fn read(
    alloc: Global,
    unit: &mut RunUnit<'_>,
    channel: Channel<'_>,
    into: &Option<Place>,
    end: bool,
) -> Result<Status, StepFault>
    requires unit { IsUnitOf (layout_of unit.old) unit.old }
    requires channel { HasRecord (layout_of unit.old) channel }
    ensures ok { IfOk result (Tells (layout_of unit.old) unit.old unit.new
        (λ p day w. meant.read_record p day w (place_if into.now) end (read_channel channel.entry))) }
    ensures err { IfErr result (Breaks (layout_of unit.old) unit.old unit.new
        (λ p day w. meant.read_record p day w (place_if into.now) end (read_channel channel.entry))) }
    ensures unit { IsUnitOf (layout_of unit.old) unit.new }
{
    let status = read_file(alloc, unit, channel)?;
    let told = tell(alloc, unit, channel.status, end, status)?;
    move_into(alloc, unit, channel, into, told)
}

/// WRITE of a record that has this span: first FROM, then the file's part, then the status item.
pub fn write(
    alloc: Global,
    unit: &mut RunUnit<'_>,
    channel: Channel<'_>,
    span: Span,
    from: &Option<Operand>,
) -> Result<Status, StepFault>
    requires unit { IsUnitOf (layout_of unit.old) unit.old }
    requires channel { HasRecord (layout_of unit.old) channel }
    requires span { IsWithin (first_area (layout_of unit.old).areas) (area_lengths (layout_of unit.old)) span }
    ensures ok { IfOk result (Tells (layout_of unit.old) unit.old unit.new
        (λ p day w. meant.write_from p day (read_channel channel.entry) (read_span (first_area (layout_of unit.old).areas) span)
        (meant.from_operand p day w (operand_if from.now) (read_span (first_area (layout_of unit.old).areas) span)))) }
    ensures err { IfErr result (Breaks (layout_of unit.old) unit.old unit.new
        (λ p day w. meant.write_from p day (read_channel channel.entry) (read_span (first_area (layout_of unit.old).areas) span)
        (meant.from_operand p day w (operand_if from.now) (read_span (first_area (layout_of unit.old).areas) span)))) }
    ensures unit { IsUnitOf (layout_of unit.old) unit.new }
{
    move_from(alloc, unit, from, span)?;
    let status = write_file(unit, channel, span)?;
    tell(alloc, unit, channel.status, false, status)
}

ghost use Rattle.std.specs.Prelude.{◌≡◌, Some, IfOk, IfErr, OnOk};
ghost use Rattle.layout_reading.specs.Reading.{read_span, first_area};
ghost use Rattle.program_channels.specs.Channel.{read_channel};
ghost use Rattle.program_channels.specs.Channels.{HasRecord};
ghost use Rattle.program_meaning.specs.Moves as moves;
ghost use Rattle.program_meaning.specs.Step as meant;
ghost use Rattle.program_meaning.specs.Step.{Told};
ghost use Rattle.program_meaning.specs.Storage as areas;
ghost use Rattle.seq_files.specs.Codes.{code};
ghost use Rattle.seq_files.specs.declared.status.Status.TheVariants as status;
ghost use Rattle.storage_places.specs.Fits.{area_lengths};
ghost use Rattle.storage_places.specs.Held.{held, first, IsWithin};
ghost use Rattle.tree_reading.specs.Reading.{place_if, operand_if, read_place, read_operand};
ghost use Rattle.file_statements.specs.Calls.{Tells, Breaks};
ghost use Rattle.file_statements.specs.Units.{IsUnitOf, layout_of};

use crate::fault::{StepFault, step_fault};
use crate::unit::RunUnit;
use cobol_syntax::{Operand, Place};
use program_channels::Channel;
use seq_files::Status;
use std::alloc::Global;
use storage_moves::{move_group, move_record};
use storage_places::Storage;
use y2k_base::{Bytes, List, Memory, Span};

/// INTO, after a READ with this status.
pub(crate) fn move_into(
    alloc: Global,
    unit: &mut RunUnit<'_>,
    channel: Channel<'_>,
    into: &Option<Place>,
    status: Status,
) -> Result<Status, StepFault>
    requires unit { IsUnitOf (layout_of unit.old) unit.old }
    requires channel { HasRecord (layout_of unit.old) channel }
    ensures ok { IfOk result (Tells (layout_of unit.old) unit.old unit.new
        (λ p day w. meant.into_place p.layout (read_channel channel.entry) (place_if into.now) (Told (code status) w))) }
    ensures err { IfErr result (Breaks (layout_of unit.old) unit.old unit.new
        (λ p day w. meant.into_place p.layout (read_channel channel.entry) (place_if into.now) (Told (code status) w))) }
    ensures unit { IsUnitOf (layout_of unit.old) unit.new }
{
    match into {
        Some(place) => move_at(alloc, unit, channel, place, status),
        None => Ok(status),
    }
}

/// INTO of a place.
fn move_at(
    alloc: Global,
    unit: &mut RunUnit<'_>,
    channel: Channel<'_>,
    place: &Place,
    status: Status,
) -> Result<Status, StepFault>
    requires unit { IsUnitOf (layout_of unit.old) unit.old }
    requires channel { HasRecord (layout_of unit.old) channel }
    ensures ok { IfOk result (Tells (layout_of unit.old) unit.old unit.new
        (λ p day w. meant.into_place p.layout (read_channel channel.entry) (Some (read_place place.now)) (Told (code status) w))) }
    ensures err { IfErr result (Breaks (layout_of unit.old) unit.old unit.new
        (λ p day w. meant.into_place p.layout (read_channel channel.entry) (Some (read_place place.now)) (Told (code status) w))) }
    ensures unit { IsUnitOf (layout_of unit.old) unit.new }
{
    match status {
        Status::S00 => move_area(alloc, unit, channel, place),
        Status::S10 => Ok(Status::S10),
        Status::S35 => Ok(Status::S35),
        Status::S41 => Ok(Status::S41),
        Status::S42 => Ok(Status::S42),
        Status::S46 => Ok(Status::S46),
        Status::S47 => Ok(Status::S47),
        Status::S48 => Ok(Status::S48),
    }
}

/// Moves the whole record area, as from a group.
fn move_area(
    alloc: Global,
    unit: &mut RunUnit<'_>,
    channel: Channel<'_>,
    place: &Place,
) -> Result<Status, StepFault>
    requires unit { IsUnitOf (layout_of unit.old) unit.old }
    requires channel { HasRecord (layout_of unit.old) channel }
    ensures ok { IfOk result (Tells (layout_of unit.old) unit.old unit.new
        (λ p day w. meant.stored_by 0 w (moves.move_group p.layout w.storage (areas.read w.storage (meant.record_span w (read_channel channel.entry))) (read_place place.now)))) }
    ensures err { IfErr result (Breaks (layout_of unit.old) unit.old unit.new
        (λ p day w. meant.stored_by 0 w (moves.move_group p.layout w.storage (areas.read w.storage (meant.record_span w (read_channel channel.entry))) (read_place place.now)))) }
    ensures unit { IsUnitOf (layout_of unit.old) unit.new }
{
    let record = copy_of(alloc, &unit.storage, channel.span)?;
    match move_group(
        alloc,
        &mut unit.places,
        &mut unit.storage,
        record.items(),
        place,
    ) {
        Ok(()) => Ok(Status::S00),
        Err(fault) => Err(step_fault(fault)),
    }
}

/// A copy of the bytes of a span. One that leaves the areas of the program is want of memory.
fn copy_of(alloc: Global, storage: &Storage, span: Span) -> Result<Bytes, Memory>
    ensures { IfOk result (λ copy. copy ≡ areas.read (held storage.now) (read_span (first storage.now) span)) }
{
    match storage.bytes(span) {
        Some(bytes) => {
            let mut copy = List::new(alloc);
            copy.append(bytes)?;
            Ok(copy)
        }
        None => Err(Memory),
    }
}

/// FROM, before a WRITE of the record that has this span.
pub(crate) fn move_from(
    alloc: Global,
    unit: &mut RunUnit<'_>,
    from: &Option<Operand>,
    span: Span,
) -> Result<(), StepFault>
    requires unit { IsUnitOf (layout_of unit.old) unit.old }
    requires span { IsWithin (first_area (layout_of unit.old).areas) (area_lengths (layout_of unit.old)) span }
    ensures ok { OnOk result (Tells (layout_of unit.old) unit.old unit.new
        (λ p day w. meant.from_operand p day w (operand_if from.now) (read_span (first_area (layout_of unit.old).areas) span)) status.S00) }
    ensures err { IfErr result (Breaks (layout_of unit.old) unit.old unit.new
        (λ p day w. meant.from_operand p day w (operand_if from.now) (read_span (first_area (layout_of unit.old).areas) span))) }
    ensures unit { IsUnitOf (layout_of unit.old) unit.new }
{
    match from {
        Some(operand) => move_operand(alloc, unit, operand, span),
        None => Ok(()),
    }
}

/// FROM of an operand.
fn move_operand(
    alloc: Global,
    unit: &mut RunUnit<'_>,
    from: &Operand,
    span: Span,
) -> Result<(), StepFault>
    requires unit { IsUnitOf (layout_of unit.old) unit.old }
    requires span { IsWithin (first_area (layout_of unit.old).areas) (area_lengths (layout_of unit.old)) span }
    ensures ok { OnOk result (Tells (layout_of unit.old) unit.old unit.new
        (λ p day w. meant.stored_by 0 w (moves.move_record p.layout w.storage (read_operand from.now) (read_span (first_area (layout_of unit.old).areas) span))) status.S00) }
    ensures err { IfErr result (Breaks (layout_of unit.old) unit.old unit.new
        (λ p day w. meant.stored_by 0 w (moves.move_record p.layout w.storage (read_operand from.now) (read_span (first_area (layout_of unit.old).areas) span)))) }
    ensures unit { IsUnitOf (layout_of unit.old) unit.new }
{
    match move_record(alloc, &mut unit.places, &mut unit.storage, from, span) {
        Ok(()) => Ok(()),
        Err(fault) => Err(step_fault(fault)),
    }
}

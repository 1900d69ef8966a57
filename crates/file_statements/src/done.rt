ghost use Rattle.std.specs.Prelude.{◌≡◌, ◌-◌, ◌<◌, ◌≤◌, IsTrue, IfOk, OnOk, length};
ghost use Rattle.layout_reading.specs.Reading.{read_span, first_area};
ghost use Rattle.program_channels.specs.Channel.{read_channel};
ghost use Rattle.program_channels.specs.Channels.{HasRecord};
ghost use Rattle.program_meaning.specs.Files as files;
ghost use Rattle.program_meaning.specs.Files.{disk_at};
ghost use Rattle.program_meaning.specs.Storage.{read};
ghost use Rattle.seq_files.specs.Disks.{read_mode, disks};
ghost use Rattle.storage_places.specs.Held.{held, first, lengths, IsWithin};
ghost use Rattle.file_statements.specs.Done.{HasDone, recorded};
ghost use Rattle.file_statements.specs.Units.{IsUnitOf, layout_of};

use crate::unit::RunUnit;
use cobol_syntax::Mode;
use program_channels::Channel;
use seq_files::{Status, Store};
use std::alloc::Global;
use storage_places::Storage;
use y2k_base::{Memory, Span};

/// OPEN without its status item. A number past those of the store is want of memory, here and in the other three.
pub(crate) fn open_file(
    unit: &mut RunUnit<'_>,
    channel: Channel<'_>,
    mode: Mode,
) -> Result<Status, Memory>
    requires unit { IsUnitOf (layout_of unit.old) unit.old }
    ensures done { IfOk result (HasDone (read_channel channel.entry)
        (files.open_file (disk_at (disks unit.old.store) channel.entry.file) (read_mode mode)) unit.old unit.new) }
    ensures unit { IsUnitOf (layout_of unit.old) unit.new }
{
    if unit.store.record_length(channel.file).is_none() {
        return Err(Memory);
    }
    Ok(unit.store.open(channel.file, mode))
}

/// CLOSE without its status item.
pub(crate) fn close_file(unit: &mut RunUnit<'_>, channel: Channel<'_>) -> Result<Status, Memory>
    requires unit { IsUnitOf (layout_of unit.old) unit.old }
    ensures done { IfOk result (HasDone (read_channel channel.entry)
        (files.close_file (disk_at (disks unit.old.store) channel.entry.file)) unit.old unit.new) }
    ensures unit { IsUnitOf (layout_of unit.old) unit.new }
{
    if unit.store.record_length(channel.file).is_none() {
        return Err(Memory);
    }
    Ok(unit.store.close(channel.file))
}

/// READ without its status item and INTO: at 00 the record stands at the start of its area. A record longer than its
/// area is want of memory.
pub(crate) fn read_file(
    alloc: Global,
    unit: &mut RunUnit<'_>,
    channel: Channel<'_>,
) -> Result<Status, Memory>
    requires unit { IsUnitOf (layout_of unit.old) unit.old }
    requires channel { HasRecord (layout_of unit.old) channel }
    ensures done { IfOk result (HasDone (read_channel channel.entry)
        (files.read_file (disk_at (disks unit.old.store) channel.entry.file)) unit.old unit.new) }
    ensures unit { IsUnitOf (layout_of unit.old) unit.new }
{
    let span = record_span(unit, channel)?;
    let mut record = vec![in alloc; b' '; span.length as usize]?;
    let status = unit.store.read(channel.file, record.as_mut_slice());
    put_record(&mut unit.storage, span, record.as_slice(), status);
    Ok(status)
}

/// Where a record of the file stands in its area.
fn record_span(unit: &RunUnit<'_>, channel: Channel<'_>) -> Result<Span, Memory>
    requires unit { IsUnitOf (layout_of unit.now) unit.now }
    requires channel { HasRecord (layout_of unit.now) channel }
    ensures area { IfOk result (λ span. span.area.0 - first unit.now.storage ≡ channel.entry.area) }
    ensures start { IfOk result (λ span. span.offset ≡ 0) }
    ensures length { IfOk result (λ span. span.length ≡ (disk_at (disks unit.now.store) channel.entry.file).length) }
    ensures there { OnOk result (channel.entry.file < length (disks unit.now.store)) }
    ensures within { IfOk result (IsWithin (first unit.now.storage) (lengths (held unit.now.storage))) }
{
    match unit.store.record_length(channel.file) {
        Some(length) => {
            let span = Span {
                area: channel.span.area,
                offset: 0,
                length,
            };
            if unit.storage.bytes(span).is_none() {
                return Err(Memory);
            }
            Ok(span)
        }
        None => Err(Memory),
    }
}

/// Sets the record that was read.
fn put_record(storage: &mut Storage, span: Span, row: &[u8], status: Status)
    requires within { IsWithin (first storage.old) (lengths (held storage.old)) span }
    requires length { length row.now ≡ span.length }
    ensures held { held storage.new ≡ recorded status (held storage.old) (read_span (first storage.old) span) row.now }
    ensures first { first storage.new ≡ first storage.old }
    ensures lengths { lengths (held storage.new) ≡ lengths (held storage.old) }
{
    if status.code() == 0 {
        storage.set(span, row);
    }
}

/// WRITE without FROM and its status item. A record that is longer than those of the file is want of memory.
pub(crate) fn write_file(
    unit: &mut RunUnit<'_>,
    channel: Channel<'_>,
    span: Span,
) -> Result<Status, Memory>
    requires unit { IsUnitOf (layout_of unit.old) unit.old }
    ensures done { IfOk result (HasDone (read_channel channel.entry)
        (files.write_file (disk_at (disks unit.old.store) channel.entry.file) (read (held unit.old.storage) (read_span (first_area (layout_of unit.old).areas) span)))
        unit.old unit.new) }
    ensures unit { IsUnitOf (layout_of unit.old) unit.new }
{
    if !has_room(&unit.store, channel.file, span.length) {
        return Err(Memory);
    }
    match unit.storage.bytes(span) {
        Some(bytes) => unit.store.write(channel.file, bytes),
        None => Err(Memory),
    }
}

/// Whether a record of this length has room in those of a file.
fn has_room(store: &Store, file: u32, bytes: u32) -> bool
    ensures there { IsTrue result → file < length (disks store.now) }
    ensures room { IsTrue result → bytes ≤ (disk_at (disks store.now) file).length }
{
    match store.record_length(file) {
        Some(length) => bytes <= length,
        None => false,
    }
}

ghost use Rattle.std.specs.Prelude.{◌≡◌, OnOk, OnErr, IfErr};
ghost use Rattle.layout_reading.specs.Reading.{read_span, first_area};
ghost use Rattle.place_table.specs.Tables.{layout_of, IsStorageOf, Gave, Failed};
ghost use Rattle.place_table.specs.Views.{HasGrown};
ghost use Rattle.program_meaning.specs.Moves as meant;
ghost use Rattle.storage_places.specs.Fits.{area_lengths};
ghost use Rattle.storage_places.specs.Held.{held, IsWithin};
ghost use Rattle.tree_reading.specs.Reading.{read_operand, read_place};
ghost use Rattle.value_moves.specs.Given.{IsSent};

use crate::sending::{receiver_of, send};
use crate::storing::{store, store_copy, store_text};
use cobol_syntax::{Operand, Place};
use place_table::Places;
use std::alloc::Global;
use storage_places::{RunFault, Storage};
use value_moves::{Receiver, Sent};
use y2k_base::Span;

/// Moves an operand to a place. After a fault the storage is unchanged.
pub fn move_item(
    alloc: Global,
    places: &mut Places<'_>,
    storage: &mut Storage,
    from: &Operand,
    to: &Place,
) -> Result<(), RunFault>
    requires storage { IsStorageOf (layout_of places.old) storage.old }
    ensures ok { OnOk result (Gave (layout_of places.old) (λ l. meant.move l (held storage.old) (read_operand from.now) (read_place to.now)) (held storage.new)) }
    ensures err { IfErr result (Failed (layout_of places.old) (λ l. meant.move l (held storage.old) (read_operand from.now) (read_place to.now))) }
    ensures stays { OnErr result (held storage.new ≡ held storage.old) }
    ensures storage { IsStorageOf (layout_of places.old) storage.new }
    ensures grown { HasGrown places.old places.new }
{
    let kind = places.kind(to)?;
    let sent = send(alloc, places, storage, from, receiver_of(kind))?;
    deliver(alloc, places, storage, sent, to)?;
    Ok(())
}

/// Moves bytes to a place, as a group gives them.
pub fn move_group(
    alloc: Global,
    places: &mut Places<'_>,
    storage: &mut Storage,
    from: &[u8],
    to: &Place,
) -> Result<(), RunFault>
    requires storage { IsStorageOf (layout_of places.old) storage.old }
    ensures ok { OnOk result (Gave (layout_of places.old) (λ l. meant.move_group l (held storage.old) from.now (read_place to.now)) (held storage.new)) }
    ensures err { IfErr result (Failed (layout_of places.old) (λ l. meant.move_group l (held storage.old) from.now (read_place to.now))) }
    ensures stays { OnErr result (held storage.new ≡ held storage.old) }
    ensures storage { IsStorageOf (layout_of places.old) storage.new }
    ensures grown { HasGrown places.old places.new }
{
    let view = places.view(storage, to)?;
    match store_copy(alloc, storage, from, view.span) {
        Ok(_) => Ok(()),
        Err(_) => Err(RunFault::Memory),
    }
}

/// Moves an operand to bytes of the program's areas, as to a group.
pub fn move_record(
    alloc: Global,
    places: &mut Places<'_>,
    storage: &mut Storage,
    from: &Operand,
    to: Span,
) -> Result<(), RunFault>
    requires storage { IsStorageOf (layout_of places.old) storage.old }
    requires within { IsWithin (first_area (layout_of places.old).areas) (area_lengths (layout_of places.old)) to }
    ensures ok { OnOk result (Gave (layout_of places.old) (λ l. meant.move_record l (held storage.old) (read_operand from.now) (read_span (first_area (layout_of places.old).areas) to)) (held storage.new)) }
    ensures err { IfErr result (Failed (layout_of places.old) (λ l. meant.move_record l (held storage.old) (read_operand from.now) (read_span (first_area (layout_of places.old).areas) to))) }
    ensures stays { OnErr result (held storage.new ≡ held storage.old) }
    ensures storage { IsStorageOf (layout_of places.old) storage.new }
    ensures grown { HasGrown places.old places.new }
{
    let sent = send(alloc, places, storage, from, Receiver::Group)?;
    match store_text(alloc, storage, sent, to) {
        Ok(_) => Ok(()),
        Err(_) => Err(RunFault::Memory),
    }
}

/// Stores what is sent where a place is, which is looked up last.
fn deliver(
    alloc: Global,
    places: &mut Places<'_>,
    storage: &mut Storage,
    sent: Sent,
    to: &Place,
) -> Result<(), RunFault>
    requires storage { IsStorageOf (layout_of places.old) storage.old }
    ensures ok { OnOk result ((m : meant.Sent) → IsSent sent m →
        Gave (layout_of places.old) (λ l. meant.deliver l (held storage.old) (read_place to.now) m) (held storage.new)) }
    ensures err { IfErr result (λ fault. (m : meant.Sent) →
        Failed (layout_of places.old) (λ l. meant.deliver l (held storage.old) (read_place to.now) m) fault) }
    ensures stays { OnErr result (held storage.new ≡ held storage.old) }
    ensures storage { IsStorageOf (layout_of places.old) storage.new }
    ensures grown { HasGrown places.old places.new }
{
    let view = places.view(storage, to)?;
    match store(alloc, places, storage, sent, view) {
        Ok(_) => Ok(()),
        Err(_) => Err(RunFault::Memory),
    }
}

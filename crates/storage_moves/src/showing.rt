ghost use Rattle.std.specs.Prelude.{◌≡◌, ◌≤◌, Option, IfOk, IfErr, length};
ghost use Rattle.number_bytes.specs.Held.{read_form, number_length};
ghost use Rattle.place_table.specs.Tables.{layout_of, IsStorageOf, Gave, Failed};
ghost use Rattle.place_table.specs.Views.{HasGrown};
ghost use Rattle.program_meaning.specs.Answer.{Gives};
ghost use Rattle.program_meaning.specs.Moves as meant;
ghost use Rattle.program_meaning.specs.Tree as tree;
ghost use Rattle.storage_moves.specs.Given.{BytesFit, shown_value};
ghost use Rattle.storage_places.specs.Held.{held};
ghost use Rattle.storage_places.specs.Meets.{MayMeet};
ghost use Rattle.storage_places.specs.Reached.{kind_with};
ghost use Rattle.storage_places.specs.declared.fault.RunFault.TheVariants as faults;
ghost use Rattle.tree_reading.specs.Reading.{read_operand, read_place, read_usage};
ghost use Rattle.y2k_base.specs.declared.picture.Picture.{Picture};

use crate::storing::copy_of;
use cobol_syntax::{Operand, Place, Usage};
use decimal_bytes::NumForm;
use number_bytes::{read_number, shown_number};
use operand_kinds::Kind;
use place_table::Places;
use std::alloc::Global;
use storage_places::{RunFault, Storage};
use y2k_base::{Bytes, Memory};

/// The part that DISPLAY shows of an operand.
pub fn show_item(
    alloc: Global,
    places: &mut Places<'_>,
    storage: &Storage,
    operand: &Operand,
) -> Result<Bytes, RunFault>
    requires storage { IsStorageOf (layout_of places.old) storage.now }
    ensures ok { IfOk result (Gave (layout_of places.old) (λ l. meant.show l (held storage.now) (read_operand operand.now))) }
    ensures err { IfErr result (Failed (layout_of places.old) (λ l. meant.show l (held storage.now) (read_operand operand.now))) }
    ensures grown { HasGrown places.old places.new }
{
    match operand {
        Operand::Place(place) => show_place(alloc, places, storage, place),
        Operand::Number {
            value,
            digits,
            at: _,
        } => shown(shown_number(alloc, value.number, *digits)),
        Operand::Text { bytes, at: _ } => shown(copy_of(alloc, bytes.items())),
        Operand::Figure { byte, at: _ } => shown(copy_of(alloc, &[*byte])),
    }
}

/// What is shown of the bytes of a place.
fn show_place(
    alloc: Global,
    places: &mut Places<'_>,
    storage: &Storage,
    place: &Place,
) -> Result<Bytes, RunFault>
    requires storage { IsStorageOf (layout_of places.old) storage.now }
    ensures ok { IfOk result (Gave (layout_of places.old) (λ l. meant.show l (held storage.now) (tree.At (read_place place.now)))) }
    ensures err { IfErr result (Failed (layout_of places.old) (λ l. meant.show l (held storage.now) (tree.At (read_place place.now)))) }
    ensures grown { HasGrown places.old places.new }
{
    let view = places.view(storage, place)?;
    match storage.bytes(view.span) {
        Some(bytes) => show_bytes(alloc, bytes, view.kind),
        None => Err(RunFault::Memory),
    }
}

/// What is shown of bytes of a kind.
fn show_bytes(alloc: Global, bytes: &[u8], kind: Kind) -> Result<Bytes, RunFault>
    requires fits { BytesFit kind (length bytes.now) }
    ensures ok { IfOk result (λ text. (picture : Option Picture) → meant.shown_bytes (kind_with kind picture) bytes.now ≡ Gives text) }
    ensures err { IfErr result (λ fault. (picture : Option Picture) → MayMeet (meant.shown_bytes (kind_with kind picture) bytes.now) fault) }
{
    match kind {
        Kind::Group => shown(copy_of(alloc, bytes)),
        Kind::Text => shown(copy_of(alloc, bytes)),
        Kind::Edited { form: _ } => shown(copy_of(alloc, bytes)),
        Kind::Number { usage, form } => match usage {
            Usage::Display => shown(copy_of(alloc, bytes)),
            Usage::Packed => show_value(alloc, bytes, usage, form),
            Usage::Binary => show_value(alloc, bytes, usage, form),
        },
    }
}

/// What is shown of a number that isn't in DISPLAY usage.
fn show_value(alloc: Global, bytes: &[u8], usage: Usage, form: NumForm) -> Result<Bytes, RunFault>
    requires some_digits { 1 ≤ form.digits }
    requires at_most_18 { form.digits ≤ 18 }
    requires length { length bytes.now ≡ number_length usage form }
    ensures ok { IfOk result (λ text. shown_value (read_usage usage) (read_form form) bytes.now ≡ Gives text) }
    ensures err { IfErr result (MayMeet (shown_value (read_usage usage) (read_form form) bytes.now)) }
{
    match read_number(bytes, usage, form) {
        Ok(number) => match shown_number(alloc, number.number, form.digits) {
            Ok(text) => Ok(text),
            Err(_) => Err(RunFault::Memory),
        },
        Err(_) => Err(RunFault::Data),
    }
}

/// The same with want of memory as a fault of a run.
fn shown(text: Result<Bytes, Memory>) -> Result<Bytes, RunFault>
    ensures ok { IfOk result (λ bytes. text ≡ Ok bytes) }
    ensures memory { IfErr result (λ fault. fault ≡ faults.Memory) }
{
    match text {
        Ok(text) => Ok(text),
        Err(_) => Err(RunFault::Memory),
    }
}

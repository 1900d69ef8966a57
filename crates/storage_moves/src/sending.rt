ghost use Rattle.std.specs.Prelude.{◌≡◌, ◌↔◌, ◌^◌, ◌<◌, ◌≤◌, IfOk, IfErr, IsTrue, Option, cond, length, unsigned_abs};
ghost use Rattle.cobol_syntax.specs.declared.program.Program.{Program};
ghost use Rattle.layout_reading.specs.Kinds.{IsReadAs};
ghost use Rattle.layout_reading.specs.Reading.{read_layout};
ghost use Rattle.place_table.specs.Tables.{layout_of, IsStorageOf};
ghost use Rattle.place_table.specs.Views.{HasGrown};
ghost use Rattle.program_meaning.specs.Answer.{Answer, Gives};
ghost use Rattle.program_meaning.specs.Kind as kinds;
ghost use Rattle.program_meaning.specs.Moves as meant;
ghost use Rattle.program_meaning.specs.Tree as tree;
ghost use Rattle.storage_moves.specs.Given.{IsGivenTo, FailsTo, Tells, BytesFit};
ghost use Rattle.storage_places.specs.Held.{held};
ghost use Rattle.storage_places.specs.Reached.{kind_with};
ghost use Rattle.tree_reading.specs.Reading.{read_operand, read_place};
ghost use Rattle.value_moves.specs.Given as values;
ghost use Rattle.value_moves.specs.Given.{IsFor, Answers};
ghost use Rattle.value_moves.specs.declared.sent.Receiver as receiver;
ghost use Rattle.y2k_base.specs.declared.picture.Picture.{Picture};

use cobol_syntax::{Operand, Place};
use decimal_bytes::Scaled;
use operand_kinds::Kind;
use place_table::Places;
use std::alloc::Global;
use storage_places::{RunFault, Storage};
use value_moves::{
    MoveFault, Receiver, Sent, send_figure, send_group, send_literal, send_number, send_text,
};

/// What an operand gives to a receiver.
pub fn send(
    alloc: Global,
    places: &mut Places<'_>,
    storage: &Storage,
    from: &Operand,
    to: Receiver,
) -> Result<Sent, RunFault>
    requires storage { IsStorageOf (layout_of places.old) storage.now }
    ensures ok { IfOk result (IsGivenTo (layout_of places.old) (held storage.now) (read_operand from.now) to) }
    ensures err { IfErr result (FailsTo (layout_of places.old) (held storage.now) (read_operand from.now) to) }
    ensures suits { IfOk result (IsFor to) }
    ensures grown { HasGrown places.old places.new }
{
    match from {
        Operand::Place(place) => send_place(alloc, places, storage, place, to),
        Operand::Number {
            value,
            digits,
            at: _,
        } => send_written(alloc, *value, *digits, to),
        Operand::Text { bytes, at: _ } => told(send_text(alloc, bytes.items(), to)),
        Operand::Figure { byte, at: _ } => Ok(send_figure(*byte, to)),
    }
}

/// What the bytes of a place give to a receiver.
fn send_place(
    alloc: Global,
    places: &mut Places<'_>,
    storage: &Storage,
    from: &Place,
    to: Receiver,
) -> Result<Sent, RunFault>
    requires storage { IsStorageOf (layout_of places.old) storage.now }
    ensures ok { IfOk result (IsGivenTo (layout_of places.old) (held storage.now) (tree.At (read_place from.now)) to) }
    ensures err { IfErr result (FailsTo (layout_of places.old) (held storage.now) (tree.At (read_place from.now)) to) }
    ensures suits { IfOk result (IsFor to) }
    ensures grown { HasGrown places.old places.new }
{
    let view = places.view(storage, from)?;
    match storage.bytes(view.span) {
        Some(bytes) => send_bytes(alloc, bytes, view.kind, to),
        None => Err(RunFault::Memory),
    }
}

/// What bytes of a kind give to a receiver.
fn send_bytes(alloc: Global, bytes: &[u8], kind: Kind, to: Receiver) -> Result<Sent, RunFault>
    requires fits { BytesFit kind (length bytes.now) }
    ensures told { (picture : Option Picture) (k : kinds.Kind) → values.receiver_of k ≡ to →
        Tells result (meant.sent_bytes (kind_with kind picture) k bytes.now) }
    ensures suits { IfOk result (IsFor to) }
{
    match kind {
        Kind::Group => told(send_group(alloc, bytes)),
        Kind::Text => told(send_text(alloc, bytes, to)),
        Kind::Edited { form: _ } => told(send_text(alloc, bytes, to)),
        Kind::Number { usage, form } => told(send_number(alloc, bytes, usage, form, to)),
    }
}

/// What a number literal gives to a receiver. In a program that was read it has at most 18 digits, which write its
/// number; any other is answered by want of memory.
fn send_written(alloc: Global, value: Scaled, digits: u8, to: Receiver) -> Result<Sent, RunFault>
    ensures told { (k : kinds.Kind) → values.receiver_of k ≡ to → Tells result (Gives (cond (kinds.is_numeric k)
        (meant.Amount (meant.literal_number value.number value.scale digits)) (meant.Bytes (meant.literal_text value.number digits)))) }
    ensures suits { IfOk result (IsFor to) }
{
    if digits > 18 || !has_digits(value.number, digits) {
        return Err(RunFault::Memory);
    }
    told(send_literal(alloc, value, digits, to))
}

/// Whether so many digits write a number.
fn has_digits(number: i128, digits: u8) -> bool
    requires at_most_18 { digits ≤ 18 }
    ensures fits { IsTrue result ↔ unsigned_abs number < 10 ^ digits }
{
    number.unsigned_abs() < 10u128.pow(u32::from(digits))
}

/// The same with the faults of a run.
fn told(sent: Result<Sent, MoveFault>) -> Result<Sent, RunFault>
    ensures told { (answer : Answer meant.Sent) → Answers sent answer → Tells result answer }
    ensures suits { (to : receiver.Receiver) → IfOk sent (IsFor to) → IfOk result (IsFor to) }
{
    match sent {
        Ok(sent) => Ok(sent),
        Err(MoveFault::Data) => Err(RunFault::Data),
        Err(MoveFault::Memory) => Err(RunFault::Memory),
    }
}

/// What a sender looks at in a receiver of a kind.
pub(crate) fn receiver_of(kind: Kind) -> Receiver
    ensures { (k : kinds.Kind) → IsReadAs kind k → values.receiver_of k ≡ result }
{
    match kind {
        Kind::Group => Receiver::Group,
        Kind::Text => Receiver::Text,
        Kind::Edited { form: _ } => Receiver::Aligned,
        Kind::Number { usage: _, form: _ } => Receiver::Aligned,
    }
}

ghost use Rattle.std.specs.Prelude.{◌≡◌, ◌≤◌, ◌&&◌, cond, IfOk, IfErr, OnErr, Some, length};
ghost use Rattle.number_bytes.specs.Held.{read_form};
ghost use Rattle.number_bytes.specs.Stored.{symbols};
ghost use Rattle.exact_arithmetic.specs.Answers.{read_outcome};
ghost use Rattle.place_table.specs.Tables.{layout_of, IsStorageOf, Gave, Failed};
ghost use Rattle.place_table.specs.Views.{HasGrown};
ghost use Rattle.program_meaning.specs.Arithmetic as meant;
ghost use Rattle.program_meaning.specs.Kind as meaning;
ghost use Rattle.program_meaning.specs.Storage as storages;
ghost use Rattle.storage_places.specs.Fits.{IsNumber};
ghost use Rattle.storage_places.specs.Held.{held, first, lengths, IsWithin};
ghost use Rattle.storage_sums.specs.Stores.{kind_shown, ShownFits, IsStored, AreStored, stored_in, stored_if};
ghost use Rattle.tree_reading.specs.Reading.{read_place, place_if, read_usage};

use cobol_syntax::{Place, Usage};
use decimal_bytes::NumForm;
use exact_arithmetic::Outcome;
use number_bytes::{store_edited, store_number};
use operand_kinds::Kind;
use place_table::Places;
use std::alloc::Global;
use storage_places::{RunFault, Storage};
use y2k_base::{Bytes, List, Memory, Run, Span};

/// Bytes for a receiver.
pub(crate) struct Stored {
    pub(crate) span: Span,
    pub(crate) bytes: Bytes,
}

impl Drop for Stored {
    fn drop(self) {
        let Stored {
            span: _,
            bytes: _bytes,
        } = self;
    }
}

/// Writes the numbers of an outcome to its receivers, which are looked for before anything is written. With a size
/// error and a phrase they stay. Answers whether there is a size error.
pub(crate) fn write(
    alloc: Global,
    places: &mut Places<'_>,
    storage: &mut Storage,
    phrase: bool,
    to: &Place,
    rest: &Option<Place>,
    outcome: Outcome,
) -> Result<bool, RunFault>
    requires storage { IsStorageOf (layout_of places.old) storage.old }
    ensures ok { IfOk result (λ error. Gave (layout_of places.old)
        (λ l. meant.written l (held storage.old) phrase (read_place to.now) (place_if rest.now) (read_outcome outcome)) (error, held storage.new)) }
    ensures err { IfErr result (Failed (layout_of places.old)
        (λ l. meant.written l (held storage.old) phrase (read_place to.now) (place_if rest.now) (read_outcome outcome))) }
    ensures stays { OnErr result (held storage.new ≡ held storage.old) }
    ensures storage { IsStorageOf (layout_of places.old) storage.new }
    ensures grown { HasGrown places.old places.new }
{
    let receiver = received(alloc, places, storage, to, outcome.result)?;
    let rest = received_rest(alloc, places, storage, rest, outcome.rest)?;
    put_unless(storage, both(outcome.is_error, phrase), &receiver, &rest);
    Ok(outcome.is_error)
}

fn both(first: bool, second: bool) -> bool
    ensures { result ≡ (first && second) }
{
    first && second
}

/// Sets the bytes of both receivers, or none.
fn put_unless(storage: &mut Storage, stays: bool, receiver: &Stored, rest: &Option<Stored>)
    requires stored { IsStored (first storage.old) (lengths (held storage.old)) receiver.now }
    requires rest { AreStored (first storage.old) (lengths (held storage.old)) rest.now }
    ensures held { held storage.new ≡ cond stays (held storage.old) (stored_if (first storage.old) rest.now (stored_in (first storage.old) (held storage.old) receiver.now)) }
    ensures first { first storage.new ≡ first storage.old }
    ensures lengths { lengths (held storage.new) ≡ lengths (held storage.old) }
{
    if !stays {
        put(storage, receiver);
        put_if(storage, rest);
    }
}

fn put(storage: &mut Storage, stored: &Stored)
    requires stored { IsStored (first storage.old) (lengths (held storage.old)) stored.now }
    ensures held { held storage.new ≡ stored_in (first storage.old) (held storage.old) stored.now }
    ensures first { first storage.new ≡ first storage.old }
    ensures lengths { lengths (held storage.new) ≡ lengths (held storage.old) }
{
    storage.set(stored.span, stored.bytes.items());
}

fn put_if(storage: &mut Storage, stored: &Option<Stored>)
    requires stored { AreStored (first storage.old) (lengths (held storage.old)) stored.now }
    ensures held { held storage.new ≡ stored_if (first storage.old) stored.now (held storage.old) }
    ensures first { first storage.new ≡ first storage.old }
    ensures lengths { lengths (held storage.new) ≡ lengths (held storage.old) }
{
    match stored {
        Some(stored) => put(storage, stored),
        None => {}
    }
}

/// The bytes for the receiver of REMAINDER.
fn received_rest(
    alloc: Global,
    places: &mut Places<'_>,
    storage: &Storage,
    rest: &Option<Place>,
    number: i128,
) -> Result<Option<Stored>, RunFault>
    requires storage { IsStorageOf (layout_of places.old) storage.now }
    ensures ok { IfOk result (λ stored. (s : storages.Storage) → Gave (layout_of places.old)
        (λ l. meant.written_rest l (held storage.now) (place_if rest.now) number s) (stored_if (first storage.now) stored s)) }
    ensures err { IfErr result (λ fault. (s : storages.Storage) → Failed (layout_of places.old)
        (λ l. meant.written_rest l (held storage.now) (place_if rest.now) number s) fault) }
    ensures stored { IfOk result (AreStored (first storage.now) (lengths (held storage.now))) }
    ensures grown { HasGrown places.old places.new }
{
    match rest {
        None => Ok(None),
        Some(place) => {
            let stored = received(alloc, places, storage, place, number)?;
            Ok(Some(stored))
        }
    }
}

/// The bytes of a number for a receiver.
fn received(
    alloc: Global,
    places: &mut Places<'_>,
    storage: &Storage,
    place: &Place,
    number: i128,
) -> Result<Stored, RunFault>
    requires storage { IsStorageOf (layout_of places.old) storage.now }
    ensures ok { IfOk result (λ stored. (s : storages.Storage) → Gave (layout_of places.old)
        (λ l. meant.written_rest l (held storage.now) (Some (read_place place.now)) number s) (stored_in (first storage.now) s stored)) }
    ensures err { IfErr result (λ fault. (s : storages.Storage) → Failed (layout_of places.old)
        (λ l. meant.written_rest l (held storage.now) (Some (read_place place.now)) number s) fault) }
    ensures stored { IfOk result (IsStored (first storage.now) (lengths (held storage.now))) }
    ensures grown { HasGrown places.old places.new }
{
    let view = places.view(storage, place)?;
    match result_bytes(
        alloc,
        view.kind,
        places.picture(view),
        view.span.length,
        number,
    ) {
        Ok(bytes) => Ok(cut_to(view.span, bytes)),
        Err(_) => Err(RunFault::Memory),
    }
}

/// Bytes from the beginning of a span on.
fn cut_to(span: Span, bytes: Bytes) -> Stored
    requires { length bytes ≤ span.length }
    ensures span { result.span ≡ record span { length = length bytes } }
    ensures bytes { result.bytes ≡ bytes }
{
    let length = bytes.len() as u32;
    Stored {
        span: Span {
            area: span.area,
            offset: span.offset,
            length,
        },
        bytes,
    }
}

/// The bytes of a number, which is at the scale of its receiver. A group or a text has no digits, and gets none.
fn result_bytes(
    alloc: Global,
    kind: Kind,
    picture: &[Run],
    count: u32,
    number: i128,
) -> Result<Bytes, Memory>
    requires fits { ShownFits kind (symbols picture.now) count }
    ensures bytes { IfOk result (λ bytes. bytes ≡ meant.result_bytes (kind_shown kind (symbols picture.now)) number) }
    ensures length { IfOk result (λ bytes. length bytes ≤ count) }
{
    match kind {
        Kind::Group => Ok(List::new(alloc)),
        Kind::Text => Ok(List::new(alloc)),
        Kind::Edited { form: _ } => edited_bytes(alloc, picture, count, number),
        Kind::Number { usage, form } => number_bytes(alloc, usage, form, count, number),
    }
}

fn edited_bytes(alloc: Global, picture: &[Run], count: u32, number: i128) -> Result<Bytes, Memory>
    requires { count ≡ length (symbols picture.now) }
    ensures bytes { IfOk result (λ bytes. bytes ≡ meant.result_bytes (meaning.Edited (symbols picture.now)) number) }
    ensures length { IfOk result (λ bytes. length bytes ≡ count) }
{
    let mut bytes = vec![in alloc; 0u8; count as usize]?;
    store_edited(number, picture, &mut bytes);
    Ok(List::from_vec(bytes))
}

fn number_bytes(
    alloc: Global,
    usage: Usage,
    form: NumForm,
    count: u32,
    number: i128,
) -> Result<Bytes, Memory>
    requires { IsNumber usage form count }
    ensures bytes { IfOk result (λ bytes. bytes ≡ meant.result_bytes (meaning.Number (read_usage usage) (read_form form)) number) }
    ensures length { IfOk result (λ bytes. length bytes ≡ count) }
{
    let mut bytes = vec![in alloc; 0u8; count as usize]?;
    store_number(number, usage, form, &mut bytes);
    Ok(List::from_vec(bytes))
}

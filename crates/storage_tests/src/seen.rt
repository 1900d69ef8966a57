ghost use Rattle.std.specs.Prelude.{◌≡◌, IfOk, IfErr, length};
ghost use Rattle.number_bytes.specs.Held.{read_scaled};
ghost use Rattle.place_table.specs.Tables.{layout_of, IsStorageOf, Failed};
ghost use Rattle.place_table.specs.Views.{HasGrown};
ghost use Rattle.program_meaning.specs.Answer.{Gives};
ghost use Rattle.program_meaning.specs.Storage as meant;
ghost use Rattle.storage_places.specs.Held.{held, first, lengths, IsWithin};
ghost use Rattle.storage_places.specs.Meets.{Meets};
ghost use Rattle.layout_reading.specs.Reading.{read_span};
ghost use Rattle.tree_reading.specs.Reading.{read_place};
ghost use Rattle.storage_tests.specs.Seen.{seen_number, IsThere, IsSeen};

use cobol_syntax::Place;
use decimal_bytes::Scaled;
use number_bytes::read_number;
use operand_kinds::Kind;
use place_table::{Places, View};
use storage_places::{RunFault, Storage};
use y2k_base::Span;

/// Where a place is.
pub(crate) fn see(
    places: &mut Places<'_>,
    storage: &Storage,
    place: &Place,
) -> Result<View, RunFault>
    requires storage { IsStorageOf (layout_of places.old) storage.now }
    ensures seen { IfOk result (IsSeen (layout_of places.old) storage.now (λ l. meant.view l (held storage.now) (read_place place.now))) }
    ensures err { IfErr result (Failed (layout_of places.old) (λ l. meant.view l (held storage.now) (read_place place.now))) }
    ensures grown { HasGrown places.old places.new }
{
    let view = places.view(storage, place)?;
    Ok(view)
}

/// The bytes of a span of the storage.
pub(crate) fn bytes_of(storage: &Storage, span: Span) -> &[u8]
    requires within { IsWithin (first storage.now) (lengths (held storage.now)) span }
    ensures bytes { result.now ≡ meant.read (held storage.now) (read_span (first storage.now) span) }
    ensures length { length result.now ≡ span.length }
{
    match storage.bytes(span) {
        Some(bytes) => bytes,
        None => &[],
    }
}

/// The number that a place holds.
pub(crate) fn number_at(storage: &Storage, view: View) -> Result<Scaled, RunFault>
    requires there { IsThere storage.now view }
    ensures ok { IfOk result (λ x. seen_number storage.now view ≡ Gives (read_scaled x)) }
    ensures err { IfErr result (Meets (seen_number storage.now view)) }
{
    match view.kind {
        Kind::Group => Err(RunFault::Data),
        Kind::Text => Err(RunFault::Data),
        Kind::Edited { form: _ } => Err(RunFault::Data),
        Kind::Number { usage, form } => match read_number(
            bytes_of(storage, view.span),
            usage,
            form,
        ) {
            Ok(number) => Ok(number),
            Err(_) => Err(RunFault::Data),
        },
    }
}

ghost use Rattle.std.specs.Prelude.{◌≡◌, ◌≤◌, ◌<◌, IfOk, OnOk, OnErr, length, replicate};
ghost use Rattle.byte_lists.specs.Text.{copied};
ghost use Rattle.layout_reading.specs.Reading.{read_span};
ghost use Rattle.number_bytes.specs.Held.{read_form};
ghost use Rattle.number_bytes.specs.Stored.{symbols};
ghost use Rattle.place_table.specs.Views.{count, picture_at};
ghost use Rattle.program_meaning.specs.Kind as kind;
ghost use Rattle.program_meaning.specs.Kind.{digits_after};
ghost use Rattle.program_meaning.specs.Moves as meant;
ghost use Rattle.program_meaning.specs.Storage.{write};
ghost use Rattle.storage_moves.specs.Stored.{view_at, stored};
ghost use Rattle.storage_places.specs.Fits.{KindFits, IsNumber};
ghost use Rattle.storage_places.specs.Held.{held, first, lengths, IsWithin};
ghost use Rattle.storage_places.specs.Reached.{kind_with};
ghost use Rattle.tree_reading.specs.Reading.{read_usage};
ghost use Rattle.value_moves.specs.Given.{IsSent};

use cobol_syntax::Usage;
use decimal_bytes::NumForm;
use operand_kinds::Kind;
use place_table::{Places, View};
use std::alloc::Global;
use storage_places::Storage;
use value_moves::{Sent, fit_text, receive_edited, receive_number};
use y2k_base::{Bytes, List, Memory, Run, Span};

/// Stores what is sent where a place is.
pub(crate) fn store(
    alloc: Global,
    places: &Places<'_>,
    storage: &mut Storage,
    sent: Sent,
    view: View,
) -> Result<(), Memory>
    requires within { IsWithin (first storage.old) (lengths (held storage.old)) view.span }
    requires fits { KindFits view.kind (picture_at places.now view.number) view.span.length }
    requires here { view.number < count places.now }
    ensures held { OnOk result ((m : meant.Sent) → IsSent sent m → held storage.new
        ≡ stored (held storage.old) (view_at (first storage.old) (kind_with view.kind (picture_at places.now view.number)) view.span) m) }
    ensures stays { OnErr result (held storage.new ≡ held storage.old) }
    ensures first { first storage.new ≡ first storage.old }
    ensures lengths { lengths (held storage.new) ≡ lengths (held storage.old) }
{
    match view.kind {
        Kind::Group => store_text(alloc, storage, sent, view.span),
        Kind::Text => store_text(alloc, storage, sent, view.span),
        Kind::Edited { form } => {
            let picture = places.picture(view);
            store_edited(alloc, storage, &sent, form.scale, picture, view.span)
        }
        Kind::Number { usage, form } => {
            store_number(storage, &sent, usage, form, view.span);
            Ok(())
        }
    }
}

/// Stores what is sent in a group or a text.
pub(crate) fn store_text(
    alloc: Global,
    storage: &mut Storage,
    sent: Sent,
    span: Span,
) -> Result<(), Memory>
    requires within { IsWithin (first storage.old) (lengths (held storage.old)) span }
    ensures text { OnOk result ((m : meant.Sent) → IsSent sent m →
        held storage.new ≡ stored (held storage.old) (view_at (first storage.old) kind.Text span) m) }
    ensures group { OnOk result ((m : meant.Sent) → IsSent sent m →
        held storage.new ≡ stored (held storage.old) (view_at (first storage.old) kind.Group span) m) }
    ensures stays { OnErr result (held storage.new ≡ held storage.old) }
    ensures first { first storage.new ≡ first storage.old }
    ensures lengths { lengths (held storage.new) ≡ lengths (held storage.old) }
{
    match sent.into_bytes() {
        Ok(bytes) => store_bytes(storage, bytes, span),
        Err(other) => store_other(alloc, storage, &other, span),
    }
}

/// Stores a byte that fills, or what else is sent, in a group or a text. A number has no digits there.
fn store_other(alloc: Global, storage: &mut Storage, sent: &Sent, span: Span) -> Result<(), Memory>
    requires within { IsWithin (first storage.old) (lengths (held storage.old)) span }
    ensures text { OnOk result ((m : meant.Sent) → IsSent sent.now m →
        held storage.new ≡ stored (held storage.old) (view_at (first storage.old) kind.Text span) m) }
    ensures group { OnOk result ((m : meant.Sent) → IsSent sent.now m →
        held storage.new ≡ stored (held storage.old) (view_at (first storage.old) kind.Group span) m) }
    ensures stays { OnErr result (held storage.new ≡ held storage.old) }
    ensures first { first storage.new ≡ first storage.old }
    ensures lengths { lengths (held storage.new) ≡ lengths (held storage.old) }
{
    match sent {
        Sent::Bytes(bytes) => store_copy(alloc, storage, bytes.items(), span),
        Sent::Fill(byte) => store_fill(alloc, storage, *byte, span),
        Sent::Amount(_) => Ok(()),
    }
}

/// Stores a copy of a text, cut or filled with spaces.
pub(crate) fn store_copy(
    alloc: Global,
    storage: &mut Storage,
    from: &[u8],
    span: Span,
) -> Result<(), Memory>
    requires within { IsWithin (first storage.old) (lengths (held storage.old)) span }
    ensures held { OnOk result (held storage.new
        ≡ write (held storage.old) (read_span (first storage.old) span) (copied span.length from.now)) }
    ensures stays { OnErr result (held storage.new ≡ held storage.old) }
    ensures first { first storage.new ≡ first storage.old }
    ensures lengths { lengths (held storage.new) ≡ lengths (held storage.old) }
{
    let text = copy_of(alloc, from)?;
    store_bytes(storage, text, span)?;
    Ok(())
}

/// Stores a text, cut or filled with spaces.
fn store_bytes(storage: &mut Storage, text: Bytes, span: Span) -> Result<(), Memory>
    requires within { IsWithin (first storage.old) (lengths (held storage.old)) span }
    ensures held { OnOk result (held storage.new
        ≡ write (held storage.old) (read_span (first storage.old) span) (copied span.length text)) }
    ensures stays { OnErr result (held storage.new ≡ held storage.old) }
    ensures first { first storage.new ≡ first storage.old }
    ensures lengths { lengths (held storage.new) ≡ lengths (held storage.old) }
{
    let text = fit_text(text, span.length as usize)?;
    storage.set(span, text.items());
    Ok(())
}

pub(crate) fn copy_of(alloc: Global, bytes: &[u8]) -> Result<Bytes, Memory>
    ensures { IfOk result (λ copy. copy ≡ bytes.now) }
{
    let mut copy = Vec::new(alloc);
    copy.extend_from_slice(bytes)?;
    Ok(List::from_vec(copy))
}

/// Fills bytes with one byte.
fn store_fill(alloc: Global, storage: &mut Storage, byte: u8, span: Span) -> Result<(), Memory>
    requires within { IsWithin (first storage.old) (lengths (held storage.old)) span }
    ensures held { OnOk result (held storage.new
        ≡ write (held storage.old) (read_span (first storage.old) span) (replicate span.length byte)) }
    ensures stays { OnErr result (held storage.new ≡ held storage.old) }
    ensures first { first storage.new ≡ first storage.old }
    ensures lengths { lengths (held storage.new) ≡ lengths (held storage.old) }
{
    let text = vec![in alloc; byte; span.length as usize]?;
    storage.set(span, &text);
    Ok(())
}

/// Stores what is sent in an edited item with so many digits after the point.
fn store_edited(
    alloc: Global,
    storage: &mut Storage,
    sent: &Sent,
    scale: u8,
    picture: &[Run],
    span: Span,
) -> Result<(), Memory>
    requires within { IsWithin (first storage.old) (lengths (held storage.old)) span }
    requires scale { scale ≡ digits_after (symbols picture.now) }
    requires at_most_18 { scale ≤ 18 }
    requires places { span.length ≡ length (symbols picture.now) }
    ensures held { OnOk result ((m : meant.Sent) → IsSent sent.now m →
        held storage.new ≡ stored (held storage.old) (view_at (first storage.old) (kind.Edited (symbols picture.now)) span) m) }
    ensures stays { OnErr result (held storage.new ≡ held storage.old) }
    ensures first { first storage.new ≡ first storage.old }
    ensures lengths { lengths (held storage.new) ≡ lengths (held storage.old) }
{
    let mut text = vec![in alloc; b' '; span.length as usize]?;
    receive_edited(sent, scale, picture, &mut text);
    storage.set(span, &text);
    Ok(())
}

/// Stores what is sent in a number. None has more than 18 digits and a sign.
fn store_number(storage: &mut Storage, sent: &Sent, usage: Usage, form: NumForm, span: Span)
    requires within { IsWithin (first storage.old) (lengths (held storage.old)) span }
    requires number { IsNumber usage form span.length }
    ensures held { (m : meant.Sent) → IsSent sent.now m → held storage.new
        ≡ stored (held storage.old) (view_at (first storage.old) (kind.Number (read_usage usage) (read_form form)) span) m }
    ensures first { first storage.new ≡ first storage.old }
    ensures lengths { lengths (held storage.new) ≡ lengths (held storage.old) }
{
    let mut all = [b'0'; 19];
    let bytes = &mut all[..span.length as usize];
    receive_number(sent, usage, form, bytes);
    storage.set(span, bytes);
}

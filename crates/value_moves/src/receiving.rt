ghost use Rattle.std.specs.Prelude.{◌≡◌, ◌≤◌, ◌^◌, length, replicate, slice_index_or, IfOk};
ghost use Rattle.byte_lists.specs.Text.{copied};
ghost use Rattle.program_meaning.specs.Kind as kind;
ghost use Rattle.program_meaning.specs.Kind.{digits_after};
ghost use Rattle.program_meaning.specs.Moves as meant;
ghost use Rattle.tree_reading.specs.Reading.{read_usage};
ghost use Rattle.number_bytes.specs.Held.{read_form, number_length};
ghost use Rattle.number_bytes.specs.Stored.{symbols};
ghost use Rattle.value_moves.specs.Given.{IsFor, IsSent};
ghost use Rattle.value_moves.specs.declared.sent.Receiver.TheVariants as receiver;

use crate::sent::Sent;
use cobol_syntax::Usage;
use decimal_bytes::NumForm;
use number_bytes::{at_point, store_edited, store_number};
use y2k_base::{Bytes, List, Memory, Run};

/// What a group or a text makes of what is sent to it: a copy from the left, cut or filled with spaces.
pub fn receive_text(sent: &Sent, into: &mut [u8])
    requires { IsFor receiver.Text sent.now }
    ensures text { (m : meant.Sent) → IsSent sent.now m → into.new ≡ meant.received kind.Text (length into.old) m }
    ensures group { (m : meant.Sent) → IsSent sent.now m → into.new ≡ meant.received kind.Group (length into.old) m }
{
    match sent {
        Sent::Bytes(bytes) => copy_text(bytes.items(), into),
        Sent::Fill(byte) => fill(*byte, into),
        Sent::Amount(_) => {}
    }
}

/// What a number makes of what is sent to it.
pub fn receive_number(sent: &Sent, usage: Usage, form: NumForm, into: &mut [u8])
    requires some_digits { 1 ≤ form.digits }
    requires at_most_18 { form.digits ≤ 18 }
    requires scale { form.scale ≤ 18 }
    requires length { length into.old ≡ number_length usage form }
    ensures { (m : meant.Sent) → IsSent sent.now m →
        into.new ≡ meant.received (kind.Number (read_usage usage) (read_form form)) (length into.old) m }
{
    match sent {
        Sent::Bytes(bytes) => copy_text(bytes.items(), into),
        Sent::Amount(amount) => store_number(
            at_point(amount.number, form.scale),
            usage,
            form,
            into,
        ),
        Sent::Fill(byte) => fill(*byte, into),
    }
}

/// What an edited item with so many digits after the point makes of what is sent to it.
pub fn receive_edited(sent: &Sent, scale: u8, picture: &[Run], into: &mut [u8])
    requires scale { scale ≡ digits_after (symbols picture.now) }
    requires at_most_18 { scale ≤ 18 }
    requires length { length into.old ≡ length (symbols picture.now) }
    ensures { (m : meant.Sent) → IsSent sent.now m →
        into.new ≡ meant.received (kind.Edited (symbols picture.now)) (length into.old) m }
{
    match sent {
        Sent::Bytes(bytes) => copy_text(bytes.items(), into),
        Sent::Amount(amount) => store_edited(at_point(amount.number, scale), picture, into),
        Sent::Fill(byte) => fill(*byte, into),
    }
}

/// A text cut or filled with spaces, as `copy_text` copies it.
pub fn fit_text(text: Bytes, length: usize) -> Result<Bytes, Memory>
    ensures { IfOk result (λ fitted. fitted ≡ copied length text) }
{
    let mut bytes = text.into_vec();
    bytes.resize(length, b' ')?;
    Ok(List::from_vec(bytes))
}

/// Copies a text from the left, cut or filled with spaces.
pub fn copy_text(from: &[u8], into: &mut [u8])
    ensures { into.new ≡ copied (length into.old) from.now }
{
    for i in 0..into.len() {
        into[i] = byte_at(from, i);
    }
}

/// The byte at a place of a text with spaces behind it.
fn byte_at(text: &[u8], place: usize) -> u8
    ensures { result ≡ slice_index_or text.now place 32 }
{
    if place < text.len() {
        text[place]
    } else {
        b' '
    }
}

/// Fills with a byte.
pub fn fill(byte: u8, into: &mut [u8])
    ensures { into.new ≡ replicate (length into.old) byte }
{
    for i in 0..into.len() {
        into[i] = byte;
    }
}

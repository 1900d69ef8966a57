ghost use Rattle.std.specs.Prelude.{◌≡◌, ◌≤◌, ◌<◌, ◌^◌, ℕ, true, cond, length, unsigned_abs, IfOk};
ghost use Rattle.byte_lists.specs.Digit.{all_digits, decimal, aligned, codes};
ghost use Rattle.program_meaning.specs.Answer.{Gives};
ghost use Rattle.program_meaning.specs.Number as held;
ghost use Rattle.program_meaning.specs.Kind as kind;
ghost use Rattle.program_meaning.specs.Moves as meant;
ghost use Rattle.tree_reading.specs.Reading.{read_usage};
ghost use Rattle.number_bytes.specs.Held.{read_form, number_length};
ghost use Rattle.value_moves.specs.Given.{receiver_of, IsFor, IsSent, Answers};
ghost use Rattle.value_moves.specs.declared.sent.Receiver.{Receiver};
ghost use Rattle.value_moves.specs.declared.sent.Receiver.TheVariants as receiver;

use crate::amount::Amount;
use crate::sent::{MoveFault, Receiver, Sent};
use cobol_syntax::Usage;
use decimal_bytes::{NumForm, Scaled};
use number_bytes::{put_digits, read_number, text_number};
use std::alloc::Global;
use y2k_base::{Bytes, List, Memory};

/// What a group gives to any receiver: its bytes.
pub fn send_group(alloc: Global, bytes: &[u8]) -> Result<Sent, MoveFault>
    ensures given { Answers result (Gives (meant.Bytes bytes.now)) }
    ensures suits { IfOk result (λ sent. (to : Receiver) → IsFor to sent) }
{
    match copied(alloc, bytes) {
        Ok(copy) => Ok(Sent::Bytes(copy)),
        Err(_) => Err(MoveFault::Memory),
    }
}

/// What a text or an edited item gives. To a number or an edited item it is an unsigned integer, else its bytes.
pub fn send_text(alloc: Global, bytes: &[u8], to: Receiver) -> Result<Sent, MoveFault>
    ensures given { (k : kind.Kind) → receiver_of k ≡ to → Answers result (meant.sent_text (kind.is_numeric k) bytes.now) }
    ensures suits { IfOk result (IsFor to) }
{
    match to {
        Receiver::Aligned => text_amount(bytes),
        Receiver::Group => send_group(alloc, bytes),
        Receiver::Text => send_group(alloc, bytes),
    }
}

fn text_amount(bytes: &[u8]) -> Result<Sent, MoveFault>
    ensures { Answers result (meant.text_amount bytes.now) }
{
    match text_number(bytes) {
        Ok(number) => Ok(Sent::Amount(Amount { number })),
        Err(_) => Err(MoveFault::Data),
    }
}

/// What a number gives. To a group it gives its bytes, and so it does to a text where it is an unsigned DISPLAY
/// integer; any other number gives a text the digits of its picture.
pub fn send_number(
    alloc: Global,
    bytes: &[u8],
    usage: Usage,
    form: NumForm,
    to: Receiver,
) -> Result<Sent, MoveFault>
    requires some_digits { 1 ≤ form.digits }
    requires at_most_18 { form.digits ≤ 18 }
    requires length { length bytes.now ≡ number_length usage form }
    ensures given { (k : kind.Kind) → receiver_of k ≡ to →
        Answers result (meant.sent_number (read_usage usage) (read_form form) k bytes.now) }
    ensures suits { IfOk result (IsFor to) }
{
    match to {
        Receiver::Group => send_group(alloc, bytes),
        Receiver::Text => number_text(alloc, bytes, usage, form),
        Receiver::Aligned => number_amount(bytes, usage, form),
    }
}

fn number_amount(bytes: &[u8], usage: Usage, form: NumForm) -> Result<Sent, MoveFault>
    requires some_digits { 1 ≤ form.digits }
    requires at_most_18 { form.digits ≤ 18 }
    requires length { length bytes.now ≡ number_length usage form }
    ensures { Answers result (meant.amount_in (read_usage usage) (read_form form) bytes.now) }
{
    match read_number(bytes, usage, form) {
        Ok(number) => Ok(Sent::Amount(Amount { number })),
        Err(_) => Err(MoveFault::Data),
    }
}

fn number_text(alloc: Global, bytes: &[u8], usage: Usage, form: NumForm) -> Result<Sent, MoveFault>
    requires some_digits { 1 ≤ form.digits }
    requires at_most_18 { form.digits ≤ 18 }
    requires length { length bytes.now ≡ number_length usage form }
    ensures given { Answers result (meant.sent_number (read_usage usage) (read_form form) kind.Text bytes.now) }
    ensures suits { IfOk result (IsFor receiver.Text) }
{
    if is_plain(usage, form) {
        send_group(alloc, bytes)
    } else {
        picture_digits(alloc, bytes, usage, form)
    }
}

/// Whether a number is an unsigned DISPLAY integer.
fn is_plain(usage: Usage, form: NumForm) -> bool
    ensures { result ≡ kind.is_plain (read_usage usage) (read_form form) }
{
    match usage {
        Usage::Display => !form.signed && form.scale == 0,
        Usage::Packed => false,
        Usage::Binary => false,
    }
}

fn picture_digits(
    alloc: Global,
    bytes: &[u8],
    usage: Usage,
    form: NumForm,
) -> Result<Sent, MoveFault>
    requires some_digits { 1 ≤ form.digits }
    requires at_most_18 { form.digits ≤ 18 }
    requires length { length bytes.now ≡ number_length usage form }
    ensures given { Answers result (meant.digits_in_picture (read_usage usage) (read_form form) bytes.now) }
    ensures suits { IfOk result (IsFor receiver.Text) }
{
    match read_number(bytes, usage, form) {
        Ok(number) => match digits_of(alloc, number.number, form.digits) {
            Ok(digits) => Ok(Sent::Bytes(digits)),
            Err(_) => Err(MoveFault::Memory),
        },
        Err(_) => Err(MoveFault::Data),
    }
}

/// What a number literal with so many digits gives: to a group or a text these digits.
pub fn send_literal(
    alloc: Global,
    number: Scaled,
    digits: u8,
    to: Receiver,
) -> Result<Sent, MoveFault>
    requires at_most_18 { digits ≤ 18 }
    requires fits { unsigned_abs number.number < 10 ^ digits }
    ensures given { (k : kind.Kind) → receiver_of k ≡ to → Answers result (Gives (cond (kind.is_numeric k)
        (meant.Amount (meant.literal_number number.number number.scale digits)) (meant.Bytes (meant.literal_text number.number digits)))) }
    ensures suits { IfOk result (IsFor to) }
{
    match to {
        Receiver::Aligned => literal_amount(number, digits),
        Receiver::Group => literal_text(alloc, number, digits),
        Receiver::Text => literal_text(alloc, number, digits),
    }
}

fn literal_amount(number: Scaled, digits: u8) -> Result<Sent, MoveFault>
    requires at_most_18 { digits ≤ 18 }
    requires fits { unsigned_abs number.number < 10 ^ digits }
    ensures { Answers result (Gives (meant.Amount (meant.literal_number number.number number.scale digits))) }
{
    Ok(Sent::Amount(Amount { number }))
}

fn literal_text(alloc: Global, number: Scaled, digits: u8) -> Result<Sent, MoveFault>
    ensures given { Answers result (Gives (meant.Bytes (meant.literal_text number.number digits))) }
    ensures suits { IfOk result (λ sent. (to : Receiver) → IsFor to sent) }
{
    match digits_of(alloc, number.number, digits) {
        Ok(digits) => Ok(Sent::Bytes(digits)),
        Err(_) => Err(MoveFault::Memory),
    }
}

/// What a figure gives: ZERO is the number 0 to a number or an edited item, which no other figure is sent to.
pub fn send_figure(byte: u8, to: Receiver) -> Sent
    ensures given { (k : kind.Kind) → receiver_of k ≡ to →
        IsSent result (cond (kind.is_numeric k) (meant.Amount meant.nothing) (meant.Fill byte)) }
    ensures suits { IsFor to result }
{
    match to {
        Receiver::Aligned => Sent::Amount(Amount {
            number: Scaled {
                number: 0,
                scale: 0,
            },
        }),
        Receiver::Group => Sent::Fill(byte),
        Receiver::Text => Sent::Fill(byte),
    }
}

fn copied(alloc: Global, bytes: &[u8]) -> Result<Bytes, Memory>
    ensures { IfOk result (λ copy. copy ≡ bytes.now) }
{
    let mut copy = Vec::new(alloc);
    copy.extend_from_slice(bytes)?;
    Ok(List::from_vec(copy))
}

/// The last digits of a number, as a text.
fn digits_of(alloc: Global, number: i128, digits: u8) -> Result<Bytes, Memory>
    ensures plain { IfOk result (λ text. text ≡ codes (decimal digits (unsigned_abs number))) }
    ensures aligned { IfOk result (λ text. (d : held.Decimal) → all_digits 0 d.digits ≡ true → held.value_of d ≡ number →
        text ≡ codes (aligned digits d.digits)) }
{
    let mut text = vec![in alloc; b'0'; digits as usize]?;
    put_digits(number, &mut text);
    Ok(List::from_vec(text))
}

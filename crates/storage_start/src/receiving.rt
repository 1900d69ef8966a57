ghost use Rattle.std.specs.Prelude.{◌≡◌, IfOk, IsTrue, length};
ghost use Rattle.std.specs.List.{AllByRecursion};
ghost use Rattle.layout_reading.specs.Kinds.{read_kind, symbols};
ghost use Rattle.number_bytes.specs.Stored as stored;
ghost use Rattle.operand_kinds.specs.Kinds.{kind_of_item};
ghost use Rattle.program_meaning.specs.Moves as meant;
ghost use Rattle.storage_places.specs.Fits.{KindFits};
ghost use Rattle.storage_start.specs.Receivable.{IsReceivable};
ghost use Rattle.value_moves.specs.Given.{receiver_of, IsFor, IsSent};

use crate::scale::scale_of;
use data_layout::{Class, Item, Layout};
use std::alloc::Global;
use value_moves::{Sent, receive_edited, receive_number, receive_text};
use y2k_base::{Memory, Picture, Run};

/// Whether no item of a layout has more than 18 digits after its point. It is so in each layout that breaks no rule of the
/// data division.
pub(crate) fn are_receivable(layout: &Layout) -> bool
    ensures receive { IsTrue result → AllByRecursion IsReceivable layout.now.items }
    ensures all { AllByRecursion IsReceivable layout.now.items → IsTrue result }
{
    let mut rest = layout.items.items();
    while let [item, more @ ..] = rest {
        if !is_receivable(item) {
            return false;
        }
        rest = more;
    }
    true
}

fn is_receivable(item: &Item) -> bool
    ensures receives { IsTrue result → IsReceivable item.now }
    ensures all { IsReceivable item.now → IsTrue result }
{
    match item.class {
        Class::Group => true,
        Class::Text => true,
        Class::Edited => scale_of(runs_of(&item.picture)).is_some(),
        Class::Number => item.form.scale <= 18,
    }
}

/// What an item makes of what is sent to it.
pub(crate) fn received(alloc: Global, item: &Item, sent: &Sent) -> Result<Vec<u8>, Memory>
    requires kind { KindFits (kind_of_item item.now) item.now.picture item.now.span.length }
    requires receives { IsReceivable item.now }
    requires suits { IsFor (receiver_of (read_kind item.now)) sent.now }
    ensures received { IfOk result (λ bytes. (m : meant.Sent) → IsSent sent.now m →
        bytes.items ≡ meant.received (read_kind item.now) item.now.span.length m) }
    ensures length { IfOk result (λ bytes. length bytes.items ≡ item.now.span.length) }
{
    let mut bytes = vec![in alloc; b' '; item.span.length as usize]?;
    receive(item, sent, &mut bytes);
    Ok(bytes)
}

fn receive(item: &Item, sent: &Sent, into: &mut [u8])
    requires kind { KindFits (kind_of_item item.now) item.now.picture (length into.old) }
    requires receives { IsReceivable item.now }
    requires suits { IsFor (receiver_of (read_kind item.now)) sent.now }
    ensures received { (m : meant.Sent) → IsSent sent.now m → into.new ≡ meant.received (read_kind item.now) (length into.old) m }
    ensures length { length into.new ≡ length into.old }
{
    match item.class {
        Class::Group => receive_text(sent, into),
        Class::Text => receive_text(sent, into),
        Class::Edited => {
            let picture = runs_of(&item.picture);
            match scale_of(picture) {
                Some(scale) => receive_edited(sent, scale, picture, into),
                None => unreachable!(),
            }
        }
        Class::Number => receive_number(sent, item.usage, item.form, into),
    }
}

fn runs_of(picture: &Option<Picture>) -> &[Run]
    ensures { stored.symbols result.now ≡ symbols picture.now }
{
    match picture {
        Some(picture) => picture.runs.items(),
        None => &[],
    }
}

ghost use Rattle.std.specs.Prelude.{◌≡◌, slice_get};
ghost use Rattle.data_layout.specs.Index.{IsReady};
ghost use Rattle.operand_kinds.specs.Kinds as spec;

use crate::kind::{Kind, kind_of_item};
use crate::reach::{Reach, bytes_reached};
use cobol_syntax::{Part, Place};
use data_layout::{Found, Layout, Step};
use y2k_base::{Bytes, List};

/// A place as its program's layout shows it: the number of its item, what it is, and which bytes it takes.
#[derive(Clone, Copy, Debug, PartialEq, Eq)]
pub struct Seen {
    pub item: u32,
    pub kind: Kind,
    pub reach: Reach,
}

/// What a place is, where its name means one item; subscripts are not looked at.
pub fn see(layout: &Layout, place: &Place) -> Option<Seen>
    requires { IsReady layout.now }
    ensures { result ≡ spec.seen layout.now place.now }
{
    match layout.find(place.names.items()) {
        Found::Item(number) => see_item(layout, number, &place.cut),
        Found::Named(_) => None,
        Found::Unknown => None,
        Found::Twice => None,
    }
}

fn see_item(layout: &Layout, number: u32, cut: &Option<Part>) -> Option<Seen>
    ensures { result ≡ spec.seen_item cut.now number (slice_get layout.now.items number) }
{
    match layout.items.items().get(number as usize) {
        Some(item) => Some(Seen {
            item: number,
            kind: kind_of_part(cut, kind_of_item(item)),
            reach: bytes_reached(cut, item.span.length),
        }),
        None => None,
    }
}

fn kind_of_part(cut: &Option<Part>, whole: Kind) -> Kind
    ensures { result ≡ spec.kind_of_part cut.now whole }
{
    match cut {
        None => whole,
        Some(_) => Kind::Text,
    }
}

/// Whether a name may give a subscript, or the start or length of a reference: an integer item in no table.
pub fn is_subscript(layout: &Layout, names: &[Bytes]) -> bool
    requires { IsReady layout.now }
    ensures { result ≡ spec.is_subscript layout.now names.now }
{
    match layout.find(names) {
        Found::Item(number) => is_single_integer(layout, number),
        Found::Named(_) => false,
        Found::Unknown => false,
        Found::Twice => false,
    }
}

fn is_single_integer(layout: &Layout, number: u32) -> bool
    ensures { result ≡ spec.is_single_integer (slice_get layout.now.items number) }
{
    match layout.items.items().get(number as usize) {
        Some(item) => kind_of_item(item).is_integer() && has_no_steps(&item.steps),
        None => false,
    }
}

fn has_no_steps(steps: &List<Step>) -> bool
    ensures { result ≡ spec.has_no_steps steps.now }
{
    match steps.items() {
        [] => true,
        [_, ..] => false,
    }
}

ghost use Rattle.std.specs.Prelude.{◌≡◌, slice_get};
ghost use Rattle.data_layout.specs.Index.{IsReady};
ghost use Rattle.operand_uses.specs.Order as order;
ghost use Rattle.operand_uses.specs.Places as spec;

use crate::fault::{NameKind, UseFault, shape_fault, sooner};
use crate::name::{fault_at, worse, wrong_cond, wrong_item};
use cobol_syntax::{Part, Place, Sub};
use data_layout::{Found, Item, Layout, Step};
use operand_kinds::is_subscript;

fn wrong_sub(layout: &Layout, sub: &Sub) -> Option<NameKind>
    requires { IsReady layout.now }
    ensures { result ≡ spec.wrong_sub layout.now sub.now }
{
    match sub {
        Sub::Number { value: _, at: _ } => None,
        Sub::Name(names) => wrong_item(layout.find(names.items())),
    }
}

fn wrong_sub_if(layout: &Layout, sub: &Option<Sub>) -> Option<NameKind>
    requires { IsReady layout.now }
    ensures { result ≡ spec.wrong_sub_if layout.now sub.now }
{
    match sub {
        None => None,
        Some(sub) => wrong_sub(layout, sub),
    }
}

fn wrong_cut(layout: &Layout, cut: &Option<Part>) -> Option<NameKind>
    requires { IsReady layout.now }
    ensures { result ≡ spec.wrong_cut layout.now cut.now }
{
    match cut {
        None => None,
        Some(part) => worse(
            wrong_sub(layout, &part.start),
            wrong_sub_if(layout, &part.length),
        ),
    }
}

fn wrong_subs(layout: &Layout, own: Option<NameKind>, subs: &[Sub]) -> Option<NameKind>
    requires { IsReady layout.now }
    ensures { result ≡ spec.wrong_subs layout.now own subs.now }
{
    let mut wrong = own;
    for sub in subs {
        wrong = worse(wrong, wrong_sub(layout, sub));
    }
    wrong
}

fn wrong_names(layout: &Layout, own: Option<NameKind>, place: &Place) -> Option<NameKind>
    requires { IsReady layout.now }
    ensures { result ≡ spec.wrong_names layout.now own place.now }
{
    worse(
        wrong_subs(layout, own, place.subs.items()),
        wrong_cut(layout, &place.cut),
    )
}

/// Whether a subscript, or a bound of a reference, is from 1 to the most that it may be, or of an integer item.
fn is_bound(layout: &Layout, most: u32, sub: &Sub) -> bool
    requires { IsReady layout.now }
    ensures { result ≡ spec.is_bound layout.now most sub.now }
{
    match sub {
        Sub::Number { value, at: _ } => 1 <= *value && *value <= most,
        Sub::Name(names) => is_subscript(layout, names.items()),
    }
}

/// Whether there is a subscript for each OCCURS, which may stand there.
fn subscripts_right(layout: &Layout, steps: &[Step], subs: &[Sub]) -> bool
    requires { IsReady layout.now }
    ensures { result ≡ spec.subscripts_right layout.now steps.now subs.now }
{
    let mut tables = steps;
    for sub in subs {
        match tables {
            [] => return false,
            [step, more @ ..] => {
                if !is_bound(layout, step.count, sub) {
                    return false;
                }
                tables = more;
            }
        }
    }
    has_no_steps(tables)
}

fn has_no_steps(steps: &[Step]) -> bool
    ensures { result ≡ spec.has_no_steps steps.now }
{
    match steps {
        [] => true,
        [_, ..] => false,
    }
}

/// How many bytes a reference may have that starts there.
fn room(bytes: u32, start: &Sub) -> u32
    ensures { result ≡ spec.room bytes start.now }
{
    match start {
        Sub::Number { value, at: _ } => bytes.saturating_sub(value.saturating_sub(1)),
        Sub::Name(_) => bytes,
    }
}

fn length_right(layout: &Layout, most: u32, length: &Option<Sub>) -> bool
    requires { IsReady layout.now }
    ensures { result ≡ spec.length_right layout.now most length.now }
{
    match length {
        None => true,
        Some(length) => is_bound(layout, most, length),
    }
}

fn cut_right(layout: &Layout, bytes: u32, cut: &Option<Part>) -> bool
    requires { IsReady layout.now }
    ensures { result ≡ spec.cut_right layout.now bytes cut.now }
{
    match cut {
        None => true,
        Some(part) => {
            is_bound(layout, bytes, &part.start)
                && length_right(layout, room(bytes, &part.start), &part.length)
        }
    }
}

fn item_right(layout: &Layout, place: &Place, item: &Item) -> bool
    requires { IsReady layout.now }
    ensures { result ≡ spec.item_right layout.now place.now (Some item.now) }
{
    subscripts_right(layout, item.steps.items(), place.subs.items())
        && cut_right(layout, item.span.length, &place.cut)
}

fn found_right(layout: &Layout, place: &Place, found: Found) -> bool
    requires { IsReady layout.now }
    ensures { result ≡ spec.found_right layout.now place.now found }
{
    match found {
        Found::Item(number) => match layout.items.items().get(number as usize) {
            Some(item) => item_right(layout, place, item),
            None => true,
        },
        Found::Named(_) => true,
        Found::Unknown => true,
        Found::Twice => true,
    }
}

/// What is wrong with the names of an identifier that is to mean an item: its own and those of its subscripts and
/// reference.
pub fn place_name_fault(layout: &Layout, owner: u32, place: &Place) -> Option<UseFault>
    requires { IsReady layout.now }
    ensures { result ≡ spec.place_name_fault layout.now owner place.now }
{
    let own = wrong_item(layout.find(place.names.items()));
    fault_at(owner, place.at, wrong_names(layout, own, place))
}

/// Whether the subscripts and the reference of an identifier fit its item.
pub fn place_right(layout: &Layout, place: &Place) -> bool
    requires { IsReady layout.now }
    ensures { result ≡ spec.place_right layout.now place.now }
{
    found_right(layout, place, layout.find(place.names.items()))
}

/// What is wrong with an identifier that is to mean an item.
pub fn place_fault(layout: &Layout, owner: u32, place: &Place) -> Option<UseFault>
    requires { IsReady layout.now }
    ensures { result ≡ spec.place_fault layout.now owner place.now }
{
    sooner(
        place_name_fault(layout, owner, place),
        shape_fault(owner, place_right(layout, place)),
    )
}

/// The same, if there is one.
pub fn place_if_fault(layout: &Layout, owner: u32, place: &Option<Place>) -> Option<UseFault>
    requires { IsReady layout.now }
    ensures { result ≡ spec.place_if_fault layout.now owner place.now }
{
    match place {
        None => None,
        Some(place) => place_fault(layout, owner, place),
    }
}

fn cond_right(layout: &Layout, place: &Place, number: u32) -> bool
    requires { IsReady layout.now }
    ensures { result ≡ spec.cond_right layout.now place.now (slice_get layout.now.conds number) }
{
    match layout.conds.items().get(number as usize) {
        Some(cond) => cond_item_right(layout, place, cond.item),
        None => true,
    }
}

fn cond_item_right(layout: &Layout, place: &Place, number: u32) -> bool
    requires { IsReady layout.now }
    ensures { result ≡ spec.cond_item_right layout.now place.now (slice_get layout.now.items number) }
{
    match layout.items.items().get(number as usize) {
        Some(item) => subscripts_right(layout, item.steps.items(), place.subs.items()),
        None => true,
    }
}

fn named_right(layout: &Layout, place: &Place, found: Found) -> bool
    requires { IsReady layout.now }
    ensures { result ≡ spec.named_right layout.now place.now found }
{
    match found {
        Found::Item(_) => true,
        Found::Named(number) => cond_right(layout, place, number),
        Found::Unknown => true,
        Found::Twice => true,
    }
}

/// What is wrong with an identifier that is to mean a condition-name.
pub fn named_fault(layout: &Layout, owner: u32, place: &Place) -> Option<UseFault>
    requires { IsReady layout.now }
    ensures { result ≡ spec.named_fault layout.now owner place.now }
{
    let found = layout.find(place.names.items());
    let wrong = wrong_names(layout, wrong_cond(found), place);
    sooner(
        fault_at(owner, place.at, wrong),
        shape_fault(owner, named_right(layout, place, found)),
    )
}

ghost use Rattle.std.specs.Prelude.{◌≡◌, ◌≢◌, Some, IfOk, IfSome, option_map, slice_get};
ghost use Rattle.std.specs.List.{AllByRecursion};
ghost use Rattle.data_layout.specs.Index.{IsReady};
ghost use Rattle.layout_reading.specs.Names.{unnamed};
ghost use Rattle.layout_reading.specs.Numbered.{AreNumbered};
ghost use Rattle.layout_reading.specs.Reading.{first_area};
ghost use Rattle.operand_kinds.specs.Kinds as kinds;
ghost use Rattle.storage_places.specs.Fits.{Fits, LayoutFits, area_lengths};
ghost use Rattle.storage_places.specs.Means.{StandsFor, NamesFor, IsWord, SubIsWord, LengthIsWord, CutIsWord};
ghost use Rattle.storage_places.specs.Resolved as spec;
ghost use Rattle.storage_places.specs.Resolved.{access_of};

use crate::access::{Access, Bound, Cut, NamedAccess, NumberItem};
use cobol_syntax::{Part, Place, Sub};
use data_layout::{Class, CondItem, Found, Item, Layout};
use operand_kinds::{Kind, kind_of_item};
use std::alloc::Global;
use y2k_base::{Bytes, List, Memory, Twin};

/// A place with its names resolved. There is none where one of its names means no item, several things or a
/// condition-name, or where the item of a subscript or a reference isn't a number.
pub fn resolve(alloc: Global, layout: &Layout, place: &Place) -> Result<Option<Access>, Memory>
    requires ready { IsReady layout.now }
    requires numbered { AreNumbered (first_area layout.now.areas) layout.now.areas }
    ensures access { IfOk result (λ access. access ≡ access_of layout.now place.now) }
    ensures means { IfOk result (λ access. IfSome access (StandsFor layout.now place.now)) }
    ensures fits { LayoutFits layout.now → IfOk result (λ access. IfSome access (Fits (first_area layout.now.areas) (area_lengths layout.now))) }
{
    match item_named(layout, place.names.items()) {
        Some(item) => access_to(alloc, layout, item, place),
        None => Ok(None),
    }
}

/// The item of a condition-name, at the subscripts of a place that means the name. There is none where the name means
/// no condition-name, or several things, or where a subscript's name means no number.
pub fn resolve_named(
    alloc: Global,
    layout: &Layout,
    place: &Place,
) -> Result<Option<NamedAccess>, Memory>
    requires ready { IsReady layout.now }
    requires numbered { AreNumbered (first_area layout.now.areas) layout.now.areas }
    ensures access { IfOk result (λ named. named ≡ spec.named_of layout.now place.now) }
    ensures means { IfOk result (λ named. IfSome named (NamesFor layout.now place.now)) }
    ensures fits { LayoutFits layout.now → IfOk result (λ named. IfSome named (λ a. Fits (first_area layout.now.areas) (area_lengths layout.now) a.access)) }
{
    are_words(place.names.items());
    match layout.find(place.names.items()) {
        Found::Named(number) => named_access(alloc, layout, number, place),
        Found::Item(_) => Ok(None),
        Found::Unknown => Ok(None),
        Found::Twice => Ok(None),
    }
}

fn named_access(
    alloc: Global,
    layout: &Layout,
    number: u32,
    place: &Place,
) -> Result<Option<NamedAccess>, Memory>
    requires { IsReady layout.now }
    ensures access { IfOk result (λ named. named ≡ spec.named_if layout.now place.now number (slice_get layout.now.conds number)) }
    ensures subs { IfOk result (λ named. IfSome named (λ a. AllByRecursion SubIsWord place.now.subs)) }
    ensures cut { IfOk result (λ named. IfSome named (λ a. CutIsWord place.now.cut)) }
{
    match layout.conds.items().get(number as usize) {
        Some(cond) => numbered_access(alloc, layout, number, cond, place),
        None => Ok(None),
    }
}

fn numbered_access(
    alloc: Global,
    layout: &Layout,
    number: u32,
    cond: &CondItem,
    place: &Place,
) -> Result<Option<NamedAccess>, Memory>
    requires { IsReady layout.now }
    ensures access { IfOk result (λ named. named ≡ spec.named_if layout.now place.now number (Some cond.now)) }
    ensures subs { IfOk result (λ named. IfSome named (λ a. AllByRecursion SubIsWord place.now.subs)) }
    ensures cut { IfOk result (λ named. IfSome named (λ a. CutIsWord place.now.cut)) }
{
    match layout.items.items().get(cond.item as usize) {
        Some(item) => match access_to(alloc, layout, item, place)? {
            Some(access) => Ok(Some(NamedAccess {
                name: number,
                access,
            })),
            None => Ok(None),
        },
        None => Ok(None),
    }
}

/// The item that a name means.
pub(crate) fn item_named<'a>(layout: &'a Layout, names: &[Bytes]) -> Option<&'a Item>
    requires { IsReady layout.now }
    ensures item { option_map (λ item. item.now) result ≡ spec.item_named layout.now names.now }
    ensures words { IsWord names.now }
{
    are_words(names);
    match layout.find(names) {
        Found::Item(number) => layout.items.items().get(number as usize),
        Found::Named(_) => None,
        Found::Unknown => None,
        Found::Twice => None,
    }
}

/// A name is bytes, so it isn't that of FILLER.
fn are_words(names: &[Bytes])
    ensures { IsWord names.now }
{
    match names {
        [] => {}
        [name, ..] => is_word(name.items()),
    }
}

fn is_word(name: &[u8])
    ensures { name.now ≢ unnamed }
{
    let _bytes = name;
}

fn access_to(
    alloc: Global,
    layout: &Layout,
    item: &Item,
    place: &Place,
) -> Result<Option<Access>, Memory>
    requires { IsReady layout.now }
    ensures access { IfOk result (λ access. access ≡ spec.access_if layout.now place.now (Some item.now)) }
    ensures subs { IfOk result (λ access. IfSome access (λ a. AllByRecursion SubIsWord place.now.subs)) }
    ensures cut { IfOk result (λ access. IfSome access (λ a. CutIsWord place.now.cut)) }
{
    match bounds_of(alloc, layout, place.subs.items())? {
        Some(subs) => access_with(alloc, item, &place.cut, subs, cut_of(layout, &place.cut)),
        None => Ok(None),
    }
}

fn access_with(
    alloc: Global,
    item: &Item,
    part: &Option<Part>,
    subs: List<Bound>,
    cut: Option<Option<Cut>>,
) -> Result<Option<Access>, Memory>
    ensures { IfOk result (λ access. access ≡ spec.access_with item.now part.now (Some subs) cut) }
{
    match cut {
        Some(cut) => Ok(Some(Access {
            kind: kind_of_part(part, kind_of_item(item)),
            picture: item.picture.twin(alloc)?,
            span: item.span,
            steps: item.steps.twin(alloc)?,
            subs,
            cut,
        })),
        None => Ok(None),
    }
}

fn kind_of_part(part: &Option<Part>, whole: Kind) -> Kind
    ensures { result ≡ kinds.kind_of_part part.now whole }
{
    match part {
        None => whole,
        Some(_) => Kind::Text,
    }
}

fn bounds_of(alloc: Global, layout: &Layout, subs: &[Sub]) -> Result<Option<List<Bound>>, Memory>
    requires { IsReady layout.now }
    ensures bounds { IfOk result (λ bounds. bounds ≡ spec.bounds_of layout.now subs.now) }
    ensures words { IfOk result (λ bounds. IfSome bounds (λ bs. AllByRecursion SubIsWord subs.now)) }
{
    let mut bounds = List::new(alloc);
    let mut rest = subs;
    while let [sub, more @ ..] = rest {
        match bound_of(layout, sub) {
            Some(bound) => bounds.push(bound)?,
            None => return Ok(None),
        }
        rest = more;
    }
    Ok(Some(bounds))
}

fn cut_of(layout: &Layout, cut: &Option<Part>) -> Option<Option<Cut>>
    requires { IsReady layout.now }
    ensures cut { result ≡ spec.cut_of layout.now cut.now }
    ensures words { CutIsWord cut.now }
{
    match cut {
        None => Some(None),
        Some(part) => cut_with(
            bound_of(layout, &part.start),
            length_of(layout, &part.length),
        ),
    }
}

fn cut_with(start: Option<Bound>, length: Option<Option<Bound>>) -> Option<Option<Cut>>
    ensures { result ≡ spec.cut_with start length }
{
    match start {
        Some(start) => match length {
            Some(length) => Some(Some(Cut { start, length })),
            None => None,
        },
        None => None,
    }
}

fn length_of(layout: &Layout, length: &Option<Sub>) -> Option<Option<Bound>>
    requires { IsReady layout.now }
    ensures length { result ≡ spec.length_of layout.now length.now }
    ensures words { LengthIsWord length.now }
{
    match length {
        None => Some(None),
        Some(sub) => match bound_of(layout, sub) {
            Some(bound) => Some(Some(bound)),
            None => None,
        },
    }
}

fn bound_of(layout: &Layout, sub: &Sub) -> Option<Bound>
    requires { IsReady layout.now }
    ensures bound { result ≡ spec.bound_of layout.now sub.now }
    ensures words { SubIsWord sub.now }
{
    match sub {
        Sub::Number { value, at: _ } => Some(Bound::Literal(*value)),
        Sub::Name(names) => match item_named(layout, names.items()) {
            Some(item) => bound_by(item),
            None => None,
        },
    }
}

fn bound_by(item: &Item) -> Option<Bound>
    ensures { result ≡ spec.bound_by item.now.class item.now }
{
    match item.class {
        Class::Group => None,
        Class::Text => None,
        Class::Edited => None,
        Class::Number => Some(Bound::Number(NumberItem {
            span: item.span,
            usage: item.usage,
            form: item.form,
        })),
    }
}

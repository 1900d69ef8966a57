ghost use Rattle.std.specs.Prelude.{◌≡◌, ◌+◌, ◌++◌, ◌∷◌, length, IfOk, Some};
ghost use Rattle.data_layout.specs.Tree as tree;
ghost use Rattle.data_layout.specs.Tree.{within, forest, parts_of, GoesOn};
ghost use Rattle.data_layout.specs.Sizes as sizes;
ghost use Rattle.data_layout.specs.Items as spec;
ghost use Rattle.data_layout.specs.Index.{IsReady, IsIndexOf};

use crate::index::Index;
use crate::item::{Area, Class, CondItem, Item, Layout, Step};
use crate::measure::{adds, measure, once};
use crate::number::{form_of, sum};
use crate::tree::{NAMED, first_within, rank};
use cobol_syntax::Entry;
use std::alloc::Global;
use y2k_base::{AreaId, Bytes, List, Memory, PicClass, Picture, Span, Twin};

/// How many numbers of 32 bits there are.
const MANY: usize = 4_294_967_296;

/// What lies round an item: its area, its group, and each OCCURS. `alike` is true where the items side by
/// side all start alike, as the records of a file do.
pub(crate) struct Around {
    pub(crate) area: AreaId,
    pub(crate) parent: Option<u32>,
    pub(crate) steps: List<Step>,
    pub(crate) alike: bool,
}

/// What has been laid so far.
pub(crate) struct Sheet {
    pub(crate) items: List<Item>,
    pub(crate) conds: List<CondItem>,
}

impl Drop for Around {
    fn drop(self) {
        let Around {
            area: _,
            parent: _,
            steps: _steps,
            alike: _,
        } = self;
    }
}

impl Drop for Sheet {
    fn drop(self) {
        let Sheet {
            items: _items,
            conds: _conds,
        } = self;
    }
}

impl Sheet {
    /// The layout with these areas and an index of its names, if its items and condition-names have numbers of
    /// 32 bits.
    pub(crate) fn into_layout(self, alloc: Global, areas: List<Area>) -> Result<Layout, Memory>
        ensures items { IfOk result (λ layout. layout.items ≡ self.items) }
        ensures conds { IfOk result (λ layout. layout.conds ≡ self.conds) }
        ensures areas { IfOk result (λ layout. layout.areas ≡ areas) }
        ensures ready { IfOk result IsReady }
    {
        let index = self.index(alloc)?;
        let Sheet { items, conds } = self;
        Ok(Layout {
            items,
            conds,
            areas,
            index,
        })
    }

    fn index(&self, alloc: Global) -> Result<Index, Memory>
        ensures { IfOk result (IsIndexOf self.now.items self.now.conds) }
    {
        if self.items.len() < MANY && self.conds.len() < MANY {
            let index = Index::of(alloc, self.items.items(), self.conds.items())?;
            Ok(index)
        } else {
            Err(Memory)
        }
    }
}

/// The number, if it fits.
pub(crate) fn narrow(number: u128) -> Result<u32, Memory>
    ensures { IfOk result (λ narrow. narrow ≡ number) }
{
    match u32::try_from(number) {
        Ok(narrow) => Ok(narrow),
        Err(_) => Err(Memory),
    }
}

fn number_of(index: usize) -> Result<u32, Memory>
    ensures { IfOk result (λ number. number ≡ index) }
{
    match u32::try_from(index) {
        Ok(number) => Ok(number),
        Err(_) => Err(Memory),
    }
}

fn picture_class(class: PicClass) -> Class
    ensures { result ≡ spec.picture_class class }
{
    match class {
        PicClass::Text => Class::Text,
        PicClass::Number => Class::Number,
        PicClass::Edited => Class::Edited,
    }
}

fn class_of(picture: &Option<Picture>) -> Class
    ensures { result ≡ spec.class_of picture.now }
{
    match picture {
        Some(picture) => picture_class(picture.class),
        None => Class::Group,
    }
}

/// Each OCCURS round an item, its own last.
fn steps_of(
    alloc: Global,
    around: &List<Step>,
    occurs: Option<u32>,
    bytes: u32,
) -> Result<List<Step>, Memory>
    ensures { IfOk result (λ steps. steps ≡ spec.steps_of around.now occurs bytes) }
{
    let mut steps = around.twin(alloc)?;
    match occurs {
        Some(count) => {
            steps.push(Step { size: bytes, count })?;
            Ok(steps)
        }
        None => Ok(steps),
    }
}

/// The item of an entry, of so many bytes at an offset.
fn item_of(
    alloc: Global,
    around: &Around,
    start: u128,
    entry: &Entry,
    bytes: u32,
) -> Result<Item, Memory>
    ensures { IfOk result (λ item. item ≡ spec.item_of around.now start entry.now bytes) }
{
    let offset = narrow(start)?;
    let form = form_of(&entry.picture, entry.sign)?;
    Ok(Item {
        name: entry.name.twin(alloc)?,
        level: entry.level,
        parent: around.parent,
        span: Span {
            area: around.area,
            offset,
            length: bytes,
        },
        class: class_of(&entry.picture),
        usage: entry.usage,
        form,
        picture: entry.picture.twin(alloc)?,
        steps: steps_of(alloc, &around.steps, entry.occurs, bytes)?,
        entry_at: entry.at,
    })
}

/// What lies round the parts of an item.
fn inside(
    alloc: Global,
    around: &Around,
    number: u32,
    entry: &Entry,
    bytes: u32,
) -> Result<Around, Memory>
    ensures { IfOk result (λ inner. inner ≡ spec.inside around.now number entry.now bytes) }
{
    Ok(Around {
        area: around.area,
        parent: Some(number),
        steps: steps_of(alloc, &around.steps, entry.occurs, bytes)?,
        alike: false,
    })
}

fn name_or_none(alloc: Global, name: &Option<Bytes>) -> Result<Bytes, Memory>
    ensures { IfOk result (λ bytes. bytes ≡ spec.name_or_none name.now) }
{
    match name {
        Some(name) => Ok(name.twin(alloc)?),
        None => Ok(List::new(alloc)),
    }
}

fn number_or_first(parent: Option<u32>) -> u32
    ensures { result ≡ spec.number_or_first parent }
{
    match parent {
        Some(number) => number,
        None => 0,
    }
}

/// The condition-name of an entry.
pub(crate) fn cond_of(alloc: Global, parent: Option<u32>, entry: &Entry) -> Result<CondItem, Memory>
    ensures { IfOk result (λ cond. cond ≡ spec.cond_of parent entry.now) }
{
    Ok(CondItem {
        name: name_or_none(alloc, &entry.name)?,
        item: number_or_first(parent),
        ranges: entry.ranges.twin(alloc)?,
        entry_at: entry.at,
    })
}

/// Where an item starts, if what redefines nothing starts at `next`, and the last that did at `object`.
fn start_of(around: &Around, entry: &Entry, next: u128, object: u128) -> u128
    ensures { result ≡ spec.start_of around.now entry.now next object }
{
    if around.alike || entry.redefines.is_some() {
        object
    } else {
        next
    }
}

/// Lays the item of an entry and its parts, which `inner` begins with. Gives what the item adds to the bytes of
/// its group, and the entries after its parts.
#[cycle(lay)]
pub(crate) fn lay_item<'a>(
    alloc: Global,
    sheet: &mut Sheet,
    around: &Around,
    start: u128,
    entry: &Entry,
    inner: &'a [Entry],
) -> Result<(u128, &'a [Entry]), Memory>
    ensures adds { IfOk result (λ laid. laid.0 ≡ sizes.adds entry.now (sizes.total (parts_of entry.now inner.now))) }
    ensures items { IfOk result (λ _. sheet.new.items ≡ sheet.old.items ++ spec.item_of around.now start entry.now (sizes.size entry.now (parts_of entry.now inner.now)) ∷ spec.items (spec.inside around.now (length sheet.old.items) entry.now (sizes.size entry.now (parts_of entry.now inner.now))) (length sheet.old.items + 1) start start (parts_of entry.now inner.now)) }
    ensures conds { IfOk result (λ _. sheet.new.conds ≡ sheet.old.conds ++ spec.conds (Some (length sheet.old.items)) (length sheet.old.items + 1) (parts_of entry.now inner.now)) }
    ensures rest { IfOk result (λ laid. GoesOn (tree.rank entry.now.level) inner.now laid.1.now) }
{
    let (of_parts, _) = measure(inner, rank(entry.level))?;
    let bytes = narrow(once(entry, of_parts)?)?;
    let number = number_of(sheet.items.len())?;
    sheet
        .items
        .push(item_of(alloc, around, start, entry, bytes)?)?;
    let within = inside(alloc, around, number, entry, bytes)?;
    let rest = lay_parts(alloc, sheet, &within, start, inner, rank(entry.level))?;
    let added = adds(entry, of_parts)?;
    Ok((added, rest))
}

/// Lays the items of the entries that lie within the rank, from `start` on. Gives the entries after them.
#[cycle(lay)]
pub(crate) fn lay_parts<'a>(
    alloc: Global,
    sheet: &mut Sheet,
    around: &Around,
    start: u128,
    entries: &'a [Entry],
    around_rank: u8,
) -> Result<&'a [Entry], Memory>
    ensures items { IfOk result (λ _. sheet.new.items ≡ sheet.old.items ++ spec.items around.now (length sheet.old.items) start start (within around_rank (forest entries.now))) }
    ensures conds { IfOk result (λ _. sheet.new.conds ≡ sheet.old.conds ++ spec.conds around.now.parent (length sheet.old.items) (within around_rank (forest entries.now))) }
    ensures rest { IfOk result (λ rest. GoesOn around_rank entries.now rest.now) }
{
    let mut rest = entries;
    let mut next = start;
    let mut object = start;
    while let Some((entry, inner)) = first_within(rest, around_rank) {
        if entry.level == NAMED {
            sheet.conds.push(cond_of(alloc, around.parent, entry)?)?;
            rest = inner;
        } else {
            object = start_of(around, entry, next, object);
            let (added, after) = lay_item(alloc, sheet, around, object, entry, inner)?;
            next = sum(next, added)?;
            rest = after;
        }
    }
    Ok(rest)
}

ghost use Rattle.std.specs.Prelude.{◌≡◌, ◌<◌, ◌∷◌, [], length, slice_get, IfSome, IfNone};
ghost use Rattle.data_layout.specs.Find as spec;
ghost use Rattle.data_layout.specs.Find.{IsPlace};
ghost use Rattle.data_layout.specs.Index as index;
ghost use Rattle.data_layout.specs.Index.{IsReady};

use crate::found::Found;
use crate::item::{Area, Class, Item, Layout};
use y2k_base::{AreaId, Bytes, Span};

fn is_group(class: Class) -> bool
    ensures { result ≡ spec.is_group class }
{
    match class {
        Class::Group => true,
        Class::Text => false,
        Class::Edited => false,
        Class::Number => false,
    }
}

fn has_name(own: &Option<Bytes>, name: &Bytes) -> bool
    ensures { result ≡ spec.has_name own.now name.now }
{
    match own {
        Some(own) => own.items() == name.items(),
        None => false,
    }
}

/// Whether the name is that of the file with this area.
fn is_file(areas: &[Area], id: AreaId, name: &Bytes) -> bool
    ensures { result ≡ spec.is_file areas.now id name.now }
{
    let mut rest = areas;
    while let [area, more @ ..] = rest {
        if (area.id.0 == id.0 && area.file) && has_name(&area.name, name) {
            return true;
        }
        rest = more;
    }
    false
}

fn ends(areas: &[Area], id: AreaId, qualifiers: &[Bytes]) -> bool
    ensures { result ≡ spec.ends areas.now id qualifiers.now }
{
    match qualifiers {
        [] => true,
        [name] => is_file(areas, id, name),
        [_, _, ..] => false,
    }
}

/// Whether the item of that number is a group of this name.
fn is_group_named(items: &[Item], number: u32, name: &Bytes) -> bool
    ensures { result ≡ spec.has_name (spec.group_name (slice_get items.now number)) name.now }
{
    match items.get(number as usize) {
        Some(item) => {
            if is_group(item.class) {
                has_name(&item.name, name)
            } else {
                false
            }
        }
        None => false,
    }
}

/// The qualifiers that are left after an item: the next is its own, if it is a group of that name.
fn left_after<'a>(items: &[Item], number: u32, qualifiers: &'a [Bytes]) -> &'a [Bytes]
    ensures { result.now ≡ spec.left_after (spec.group_name (slice_get items.now number)) qualifiers.now }
{
    match qualifiers {
        [] => qualifiers,
        [name, more @ ..] => {
            if is_group_named(items, number, name) {
                more
            } else {
                qualifiers
            }
        }
    }
}

fn holder_of(items: &[Item], number: u32) -> Option<u32>
    ensures { result ≡ spec.holder_of (slice_get items.now number) }
{
    match items.get(number as usize) {
        Some(item) => item.parent,
        None => None,
    }
}

fn area_of(items: &[Item], number: u32) -> AreaId
    ensures { result ≡ spec.area_of (slice_get items.now number) }
{
    match items.get(number as usize) {
        Some(item) => item.span.area,
        None => AreaId(0),
    }
}

/// Whether the groups from this one outwards and the file have the qualifiers, in their order.
fn is_in(
    items: &[Item],
    areas: &[Area],
    id: AreaId,
    holder: Option<u32>,
    qualifiers: &[Bytes],
) -> bool
    ensures { result ≡ spec.is_in (length items.now) items.now areas.now id holder qualifiers.now }
{
    let mut outer = holder;
    let mut left = qualifiers;
    for _turn in 0..items.len() {
        match outer {
            None => {
                let outermost = ends(areas, id, left);
                return outermost;
            }
            Some(number) => {
                left = left_after(items, number, left);
                outer = holder_of(items, number);
            }
        }
    }
    let last = ends(areas, id, left);
    last
}

fn first_thing(things: &[Found]) -> Option<(Found, &[Found])>
    ensures some { IfSome result (λ first. things.now ≡ first.0 ∷ first.1.now) }
    ensures none { IfNone result (things.now ≡ []) }
{
    match things {
        [] => None,
        [thing, more @ ..] => Some((*thing, more)),
    }
}

impl Layout {
    /// How many items there are.
    pub fn count(&self) -> u32
        requires { IsReady self.now }
        ensures { result ≡ length self.now.items }
    {
        self.items.len() as u32
    }

    /// Where the first occurrence of the item stands.
    pub fn place(&self, item: u32) -> Span
        requires { item < length self.now.items }
        ensures { IsPlace self.now item result }
    {
        self.items.items()[item as usize].span
    }

    /// What a data name means: `names` are the name and its qualifiers, from the innermost on.
    pub fn find(&self, names: &[Bytes]) -> Found
        requires { IsReady self.now }
        ensures { result ≡ spec.meaning self.now names.now }
    {
        match names {
            [] => Found::Unknown,
            [name, qualifiers @ ..] => self.find_name(name, qualifiers),
        }
    }

    fn find_name(&self, name: &Bytes, qualifiers: &[Bytes]) -> Found
        requires { IsReady self.now }
        ensures { result ≡ spec.meaning self.now (name.now ∷ qualifiers.now) }
    {
        let things = self.index.of_name(name);
        let found = self.among(things, qualifiers);
        found
    }

    /// The one of these things that has the qualifiers.
    fn among(&self, things: &[Found], qualifiers: &[Bytes]) -> Found
        ensures { result ≡ index.among self.now qualifiers.now things.now }
    {
        let mut found = Found::Unknown;
        let mut rest = things;
        while let Some((thing, more)) = first_thing(rest) {
            let one = self.qualified(thing, qualifiers);
            found = found.with(one);
            rest = more;
        }
        found
    }

    fn qualified(&self, thing: Found, qualifiers: &[Bytes]) -> Found
        ensures { result ≡ index.qualified self.now qualifiers.now thing }
    {
        match thing {
            Found::Item(number) => {
                if self.item_in(number, qualifiers) {
                    thing
                } else {
                    Found::Unknown
                }
            }
            Found::Named(number) => {
                if self.cond_in(number, qualifiers) {
                    thing
                } else {
                    Found::Unknown
                }
            }
            Found::Unknown => Found::Unknown,
            Found::Twice => Found::Unknown,
        }
    }

    fn item_in(&self, number: u32, qualifiers: &[Bytes]) -> bool
        ensures { result ≡ index.item_in self.now qualifiers.now (slice_get self.now.items number) }
    {
        let items = self.items.items();
        match items.get(number as usize) {
            Some(item) => is_in(
                items,
                self.areas.items(),
                item.span.area,
                item.parent,
                qualifiers,
            ),
            None => false,
        }
    }

    fn cond_in(&self, number: u32, qualifiers: &[Bytes]) -> bool
        ensures { result ≡ index.cond_in self.now qualifiers.now (slice_get self.now.conds number) }
    {
        let items = self.items.items();
        match self.conds.items().get(number as usize) {
            Some(cond) => {
                let id = area_of(items, cond.item);
                is_in(items, self.areas.items(), id, Some(cond.item), qualifiers)
            }
            None => false,
        }
    }
}

ghost use Rattle.std.specs.Prelude.{◌≡◌, ◌+◌, ◌<◌, IfOk};
ghost use Rattle.data_layout.specs.Rules as spec;
ghost use Rattle.data_layout.specs.Tree.{within, forest};

use crate::number::{is_signed, runs_of};
use crate::tree::{NAMED, SINGLE, first_within};
use crate::values::keeps;
use cobol_syntax::{Entry, Operand, Usage};
use decimal_bytes::SignPlace;
use std::alloc::Global;
use y2k_base::{Bytes, Memory, PicClass, Picture, Twin};

const MOST_BYTES: u128 = 65_535;

const MOST_OCCURRENCES: u32 = 65_535;

const ZERO: u8 = b'0';

/// What lies round an entry: nothing, a 77, the file section, a redefinition, an item with a VALUE, and how
/// many OCCURS.
#[derive(Clone, Copy)]
pub(crate) struct Setting {
    pub(crate) top: bool,
    single: bool,
    file: bool,
    redefined: bool,
    valued: bool,
    repeats: u32,
}

/// An item that redefines nothing, with the bytes of all its occurrences.
pub(crate) struct Object {
    level: u8,
    name: Option<Bytes>,
    bytes: u128,
}

/// The last 77 side by side that redefines nothing, and the last other item that does.
pub(crate) struct Objects {
    common: Option<Object>,
    single: Option<Object>,
}

impl Drop for Object {
    fn drop(self) {
        let Object {
            level: _,
            name: _name,
            bytes: _,
        } = self;
    }
}

impl Drop for Objects {
    fn drop(self) {
        let Objects {
            common: _common,
            single: _single,
        } = self;
    }
}

fn is_level(level: u8) -> bool
    ensures { result ≡ spec.is_level level }
{
    (1 <= level && level <= 49) || level == SINGLE
}

fn stands_right(setting: Setting, level: u8) -> bool
    ensures { result ≡ spec.stands_right setting level }
{
    if setting.top {
        level == 1 || (level == SINGLE && !setting.file)
    } else {
        !(level == 1 || level == SINGLE)
    }
}

fn has_level(setting: Setting, entry: &Entry) -> bool
    ensures { result ≡ spec.has_level setting entry.now }
{
    is_level(entry.level) && (stands_right(setting, entry.level) && !setting.single)
}

/// Whether one of the entries within the rank is an item.
pub(crate) fn holds_items(entries: &[Entry], around: u8) -> bool
    ensures { result ≡ spec.holds_items (within around (forest entries.now)) }
{
    let mut rest = entries;
    while let Some((entry, inner)) = first_within(rest, around) {
        if entry.level != NAMED {
            return true;
        }
        rest = inner;
    }
    false
}

fn same(first: bool, second: bool) -> bool
    ensures { result ≡ spec.same first second }
{
    if first { second } else { !second }
}

fn has_picture(entry: &Entry, items: bool) -> bool
    ensures { result ≡ spec.has_picture entry.now items }
{
    same(entry.picture.is_some(), entry.level == SINGLE || !items)
}

fn same_name(own: &Option<Bytes>, name: &Bytes) -> bool
    ensures { result ≡ spec.same_name own.now name.now }
{
    match own {
        Some(own) => own.items() == name.items(),
        None => false,
    }
}

fn is_object(object: &Option<Object>, level: u8, name: &Bytes) -> bool
    ensures { result ≡ spec.is_object object.now level name.now }
{
    match object {
        Some(object) => object.level == level && same_name(&object.name, name),
        None => false,
    }
}

impl Objects {
    pub(crate) fn none() -> Objects
        ensures { result ≡ spec.no_objects }
    {
        Objects {
            common: None,
            single: None,
        }
    }

    fn of(&self, level: u8) -> &Option<Object>
        ensures { result.now ≡ spec.object_of self.now level }
    {
        if level == SINGLE {
            &self.single
        } else {
            &self.common
        }
    }

    /// The objects with an item more.
    pub(crate) fn after(self, alloc: Global, entry: &Entry, bytes: u128) -> Result<Objects, Memory>
        ensures { IfOk result (λ after. after ≡ spec.objects_after self entry.now bytes) }
    {
        if entry.redefines.is_some() {
            return Ok(self);
        }
        let object = Object {
            level: entry.level,
            name: entry.name.twin(alloc)?,
            bytes,
        };
        Ok(self.with(object))
    }

    fn with(self, object: Object) -> Objects
        ensures { result ≡ spec.with_object self object }
    {
        let Objects { common, single } = self;
        if object.level == SINGLE {
            Objects {
                common,
                single: Some(object),
            }
        } else {
            Objects {
                common: Some(object),
                single,
            }
        }
    }
}

fn redefines_right(setting: Setting, objects: &Objects, entry: &Entry) -> bool
    ensures { result ≡ spec.redefines_right setting objects.now entry.now.level entry.now.redefines }
{
    match &entry.redefines {
        Some(name) => {
            is_object(objects.of(entry.level), entry.level, name)
                && !(setting.file && entry.level == 1)
        }
        None => true,
    }
}

fn occurs_right(setting: Setting, level: u8, occurs: Option<u32>) -> bool
    ensures { result ≡ spec.occurs_right setting level occurs }
{
    match occurs {
        Some(count) => {
            !(level == 1 || level == SINGLE)
                && ((1 <= count && count <= MOST_OCCURRENCES) && setting.repeats <= 2)
        }
        None => true,
    }
}

fn is_class_number(class: PicClass) -> bool
    ensures { result ≡ spec.is_class_number class }
{
    match class {
        PicClass::Text => false,
        PicClass::Number => true,
        PicClass::Edited => false,
    }
}

fn is_class_text(class: PicClass) -> bool
    ensures { result ≡ spec.is_class_text class }
{
    match class {
        PicClass::Text => true,
        PicClass::Number => false,
        PicClass::Edited => false,
    }
}

fn is_number(picture: &Option<Picture>) -> bool
    ensures { result ≡ spec.is_number picture.now }
{
    match picture {
        Some(picture) => is_class_number(picture.class),
        None => false,
    }
}

/// Whether this is the picture of a text, or a group.
fn is_text(picture: &Option<Picture>) -> bool
    ensures { result ≡ spec.is_text picture.now }
{
    match picture {
        Some(picture) => is_class_text(picture.class),
        None => true,
    }
}

fn is_value_of(picture: &Option<Picture>, value: &Operand) -> Result<bool, Memory>
    ensures { IfOk result (λ is. is ≡ spec.is_value_of picture.now value.now) }
{
    match value {
        Operand::Place(_) => Ok(false),
        Operand::Number { value, .. } => {
            let kept = keeps(runs_of(picture), *value)?;
            Ok(!is_text(picture) && kept)
        }
        Operand::Text { .. } => Ok(is_text(picture)),
        Operand::Figure { byte, .. } => Ok(is_text(picture) || *byte == ZERO),
    }
}

fn may_have_value(setting: Setting, entry: &Entry) -> bool
    ensures { result ≡ spec.may_have_value setting entry.now }
{
    !(setting.file || (setting.redefined || (entry.redefines.is_some() || setting.valued)))
}

fn value_right(setting: Setting, entry: &Entry) -> Result<bool, Memory>
    ensures { IfOk result (λ right. right ≡ spec.value_right setting entry.now entry.now.value) }
{
    match &entry.value {
        Some(value) => {
            let of_kind = is_value_of(&entry.picture, value)?;
            Ok(may_have_value(setting, entry) && of_kind)
        }
        None => Ok(true),
    }
}

fn is_display(usage: Usage) -> bool
    ensures { result ≡ spec.is_display usage }
{
    match usage {
        Usage::Display => true,
        Usage::Packed => false,
        Usage::Binary => false,
    }
}

fn usage_right(entry: &Entry) -> bool
    ensures { result ≡ spec.usage_right entry.now }
{
    is_display(entry.usage) || is_number(&entry.picture)
}

fn is_trailing(place: SignPlace) -> bool
    ensures { result ≡ spec.is_trailing place }
{
    match place {
        SignPlace::Trailing => true,
        SignPlace::Leading => false,
        SignPlace::TrailingSeparate => false,
        SignPlace::LeadingSeparate => false,
    }
}

fn sign_right(entry: &Entry) -> bool
    ensures { result ≡ spec.sign_right entry.now }
{
    is_trailing(entry.sign)
        || (is_display(entry.usage)
            && (is_number(&entry.picture) && is_signed(runs_of(&entry.picture))))
}

/// Whether the entry keeps the rules that rest on no length. `items` says whether it has parts that are items.
pub(crate) fn keeps_rules(
    setting: Setting,
    objects: &Objects,
    entry: &Entry,
    items: bool,
) -> Result<bool, Memory>
    ensures { IfOk result (λ kept. kept ≡ spec.keeps_rules setting objects.now entry.now items) }
{
    let value = value_right(setting, entry)?;
    Ok(
        has_level(setting, entry)
            && (has_picture(entry, items)
                && (redefines_right(setting, objects, entry)
                    && (occurs_right(setting, entry.level, entry.occurs)
                        && (value && (usage_right(entry) && sign_right(entry)))))),
    )
}

fn fits_object(object: &Option<Object>, bytes: u128) -> bool
    ensures { result ≡ spec.fits_object object.now bytes }
{
    match object {
        Some(object) => bytes <= object.bytes,
        None => true,
    }
}

fn redefinition_fits(objects: &Objects, entry: &Entry, bytes: u128) -> bool
    ensures { result ≡ spec.redefinition_fits objects.now entry.now bytes }
{
    !entry.redefines.is_some() || fits_object(objects.of(entry.level), bytes)
}

fn operand_fits(value: &Operand, bytes: u128) -> bool
    ensures { result ≡ spec.operand_fits value.now bytes }
{
    match value {
        Operand::Place(_) => true,
        Operand::Number { .. } => true,
        Operand::Text { bytes: text, .. } => text.len() as u128 <= bytes,
        Operand::Figure { .. } => true,
    }
}

fn value_fits(value: &Option<Operand>, bytes: u128) -> bool
    ensures { result ≡ spec.value_fits value.now bytes }
{
    match value {
        Some(value) => operand_fits(value, bytes),
        None => true,
    }
}

/// Whether the entry keeps the rules that rest on the bytes of one occurrence, and of all.
pub(crate) fn keeps_lengths(objects: &Objects, entry: &Entry, one: u128, all: u128) -> bool
    ensures { result ≡ spec.keeps_lengths objects.now entry.now one all }
{
    redefinition_fits(objects, entry, all) && value_fits(&entry.value, one)
}

/// Whether an item that lies in no other has no more bytes than an area may.
pub(crate) fn fits_area(setting: Setting, all: u128) -> bool
    ensures { result ≡ spec.fits_area setting all }
{
    !setting.top || all <= MOST_BYTES
}

impl Setting {
    /// What lies round the entries of a section.
    pub(crate) fn section(file: bool) -> Setting
        ensures { result ≡ spec.section file }
    {
        Setting {
            top: true,
            single: false,
            file,
            redefined: false,
            valued: false,
            repeats: 0,
        }
    }

    /// What lies round the parts of an item.
    pub(crate) fn inside(self, entry: &Entry) -> Result<Setting, Memory>
        ensures { IfOk result (λ inner. inner ≡ spec.setting_in self entry.now) }
    {
        let repeats = repeats_with(self.repeats, entry.occurs.is_some())?;
        Ok(Setting {
            top: false,
            single: entry.level == SINGLE,
            file: self.file,
            redefined: self.redefined || entry.redefines.is_some(),
            valued: self.valued || entry.value.is_some(),
            repeats,
        })
    }
}

fn repeats_with(repeats: u32, again: bool) -> Result<u32, Memory>
    ensures { IfOk result (λ count. count ≡ spec.repeats_with repeats again) }
{
    if again {
        match repeats.checked_add(1) {
            Some(count) => Ok(count),
            None => Err(Memory),
        }
    } else {
        Ok(repeats)
    }
}

fn is_number_of(number: i128, bytes: u128) -> bool
    ensures { result ≡ spec.is_number_of number bytes }
{
    !(number < 0) && number.unsigned_abs() == bytes
}

/// Whether RECORD CONTAINS has the greatest length.
pub(crate) fn contains_right(contains: &Option<Operand>, most: u128) -> bool
    ensures { result ≡ spec.contains_right contains.now most }
{
    match contains {
        Some(contains) => is_length(contains, most),
        None => true,
    }
}

fn is_length(contains: &Operand, most: u128) -> bool
    ensures { result ≡ spec.is_length contains.now most }
{
    match contains {
        Operand::Place(_) => false,
        Operand::Number { value, .. } => value.scale == 0 && is_number_of(value.number, most),
        Operand::Text { .. } => false,
        Operand::Figure { .. } => false,
    }
}

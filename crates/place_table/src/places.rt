ghost use Rattle.place_table.specs.Known.{IsSound, AreKnown};
ghost use Rattle.place_table.specs.Props as known_props;

use crate::known::{Known, Meaning};
use crate::naming::resolve_name;
use crate::numbers::Numbers;
use crate::same::same_place;
use crate::view::{NamedView, View};
use cobol_syntax::{Place, Range};
use data_layout::Layout;
use decimal_bytes::NumForm;
use operand_kinds::Kind;
use std::alloc::Global;
use storage_places::{Access, RunFault, Storage, item_form, resolve};
use y2k_base::{Memory, Run, Twin};

/// The places of a running program. Each is resolved when it is first met, and found again by its position in the
/// program's words. A place that names nothing, or several things, is answered by want of memory: no sound program
/// has one.
pub struct Places<'a> {
    alloc: Global,
    layout: &'a Layout,
    known: Vec<Known>,
    numbers: Numbers,
    ghost sound: { IsSound layout.now } by { known_props.sound-prop layout.now },
    ghost meant: { AreKnown layout.now known.items } by { known_props.all-known-prop layout.now known.items },
}

impl Drop for Places<'_> {
    fn drop(self) {
        let Places {
            alloc: _,
            layout: _,
            known: _known,
            numbers: _numbers,
        } = self;
    }
}

impl<'a> Places<'a> {
    ghost use Rattle.std.specs.Prelude.{◌≡◌, ◌≤◌, ◌<◌, IfOk, IfErr, IfSome, IsTrue, map, option_map, Some};
    ghost use Rattle.data_layout.specs.Index.{IsReady};
    ghost use Rattle.layout_reading.specs.Kinds as kinds;
    ghost use Rattle.layout_reading.specs.Kinds.{IsReadAs};
    ghost use Rattle.layout_reading.specs.Numbered.{AreNumbered};
    ghost use Rattle.layout_reading.specs.Reading.{read_layout, first_area};
    ghost use Rattle.number_bytes.specs.Held.{read_form};
    ghost use Rattle.number_bytes.specs.Stored.{symbols};
    ghost use Rattle.cobol_syntax.specs.declared.program.Program.{Program};
    ghost use Rattle.program_meaning.specs.Arithmetic.{receiver_form};
    ghost use Rattle.program_meaning.specs.Storage as meant;
    ghost use Rattle.storage_places.specs.Fits.{Fits, LayoutFits, KindFits, area_lengths};
    ghost use Rattle.storage_places.specs.Meets.{Meets};
    ghost use Rattle.storage_places.specs.Reached.{span_at};
    ghost use Rattle.storage_places.specs.Held.{held, IsWithin};
    ghost use Rattle.storage_places.specs.declared.fault.RunFault.TheVariants.{Memory as WantOfMemory};
    ghost use Rattle.tree_reading.specs.Reading.{read_place, read_values};
    ghost use Rattle.place_table.specs.declared.known.Known.{Known};
    ghost use Rattle.place_table.specs.declared.known.Meaning.TheVariants as meanings;
    ghost use Rattle.place_table.specs.Known.{IsMeant};
    ghost use Rattle.place_table.specs.Tables.{layout_of, known_at, IsStorageOf, Gave, Failed, IsFound, IsItemAt, IsNameAt};
    ghost use Rattle.place_table.specs.Views.{count, picture_at, read_view, HasGrown, IsViewOf, ranges_at, named_view};

    /// The places of a program with this layout. None is met yet.
    pub fn of(alloc: Global, layout: &'a Layout) -> Places<'a>
        requires ready { IsReady layout.now }
        requires numbered { AreNumbered (first_area layout.now.areas) layout.now.areas }
        requires fits { LayoutFits layout.now }
        ensures { layout_of result ≡ layout.now }
    {
        Places {
            alloc,
            layout,
            known: Vec::new(alloc),
            numbers: Numbers::new(alloc),
        }
    }

    /// What a place is taken as, before it is read.
    pub fn kind(&mut self, place: &Place) -> Result<Kind, RunFault>
        ensures kind { IfOk result (λ k. (program : Program) →
            IsReadAs k (meant.kind_of (read_layout program (layout_of self.old)) (read_place place.now))) }
        ensures memory { IfErr result (λ fault. fault ≡ WantOfMemory) }
        ensures grown { HasGrown self.old self.new }
    {
        match self.item_number(place) {
            Ok(number) => Ok(self.access(number).kind),
            Err(Memory) => Err(RunFault::Memory),
        }
    }

    /// The form of the item that a place means: of a number, or of an edited item; none has no digits.
    pub fn form(&mut self, place: &Place) -> Result<NumForm, RunFault>
        ensures form { IfOk result (λ form. (store : meant.Storage) →
            Gave (layout_of self.old) (λ l. receiver_form l store (read_place place.now)) (read_form form)) }
        ensures digits { IfOk result (λ form. form.digits ≤ 18) }
        ensures scale { IfOk result (λ form. form.scale ≤ 18) }
        ensures memory { IfErr result (λ fault. fault ≡ WantOfMemory) }
        ensures grown { HasGrown self.old self.new }
    {
        match self.item_number(place) {
            Ok(number) => self.item_form(number),
            Err(Memory) => Err(RunFault::Memory),
        }
    }

    /// Where a place is now. `Data` and `Range` come where its subscripts and its reference, read from the left and
    /// checked one by one, are at fault.
    pub fn view(&mut self, storage: &Storage, place: &Place) -> Result<View, RunFault>
        requires storage { IsStorageOf (layout_of self.old) storage.now }
        ensures ok { IfOk result (λ v. Gave (layout_of self.old) (λ l. meant.view l (held storage.now) (read_place place.now)) (read_view self.new v)) }
        ensures err { IfErr result (Failed (layout_of self.old) (λ l. meant.view l (held storage.now) (read_place place.now))) }
        ensures within { IfOk result (λ v. IsWithin (first_area (layout_of self.old).areas) (area_lengths (layout_of self.old)) v.span) }
        ensures fits { IfOk result (λ v. KindFits v.kind (picture_at self.new v.number) v.span.length) }
        ensures here { IfOk result (λ v. v.number < count self.new) }
        ensures grown { HasGrown self.old self.new }
    {
        match self.item_number(place) {
            Ok(number) => self.view_of(storage, number),
            Err(Memory) => Err(RunFault::Memory),
        }
    }

    /// Where the item of a condition-name is now, at the subscripts of a place that means the name.
    pub fn named(&mut self, storage: &Storage, place: &Place) -> Result<NamedView, RunFault>
        requires storage { IsStorageOf (layout_of self.old) storage.now }
        ensures ok { IfOk result (λ n. Gave (layout_of self.old) (λ l. named_view l (held storage.now) (read_place place.now))
            (read_view self.new n.view, map read_values (ranges_at (layout_of self.old) n.name))) }
        ensures err { IfErr result (Failed (layout_of self.old) (λ l. named_view l (held storage.now) (read_place place.now))) }
        ensures within { IfOk result (λ n. IsWithin (first_area (layout_of self.old).areas) (area_lengths (layout_of self.old)) n.view.span) }
        ensures fits { IfOk result (λ n. KindFits n.view.kind (picture_at self.new n.view.number) n.view.span.length) }
        ensures here { IfOk result (λ n. n.view.number < count self.new) }
        ensures grown { HasGrown self.old self.new }
    {
        match self.name_number(place) {
            Ok((name, number)) => match self.view_of(storage, number) {
                Ok(view) => Ok(NamedView { name, view }),
                Err(fault) => Err(fault),
            },
            Err(Memory) => Err(RunFault::Memory),
        }
    }

    /// The values of the condition-name with this number.
    pub fn ranges(&self, name: u32) -> &'a [Range]
        ensures { result.now ≡ ranges_at (layout_of self.now) name }
    {
        match self.layout.conds.items().get(name as usize) {
            Some(cond) => cond.ranges.items(),
            None => &[],
        }
    }

    /// The picture of an edited item.
    pub fn picture(&self, view: View) -> &[Run]
        requires here { view.number < count self.now }
        ensures { symbols result.now ≡ kinds.symbols (picture_at self.now view.number) }
    {
        match &self.access(view.number).picture {
            Some(picture) => picture.runs.items(),
            None => &[],
        }
    }

    /// Where the place with this number is now.
    fn view_of(&self, storage: &Storage, number: u32) -> Result<View, RunFault>
        requires here { number < count self.now }
        requires storage { IsStorageOf (layout_of self.now) storage.now }
        ensures ok { IfOk result (IsViewOf self.now (held storage.now) number) }
        ensures err { IfErr result (λ fault. (known : Known) → known_at self.now number ≡ Some known
            → Meets (span_at (first_area (layout_of self.now).areas) (held storage.now) known.access) fault) }
        ensures within { IfOk result (λ v. IsWithin (first_area (layout_of self.now).areas) (area_lengths (layout_of self.now)) v.span) }
        ensures fits { IfOk result (λ v. KindFits v.kind (picture_at self.now v.number) v.span.length) }
        ensures here { IfOk result (λ v. v.number < count self.now) }
    {
        let access = self.access(number);
        let span = storage.span_at(access)?;
        Ok(View {
            kind: access.kind,
            span,
            number,
        })
    }

    /// What the place with this number is resolved to.
    fn access(&self, number: u32) -> &Access
        requires here { number < count self.now }
        ensures is { option_map (λ k. k.access) (known_at self.now number) ≡ Some result.now }
        ensures fits { Fits (first_area (layout_of self.now).areas) (area_lengths (layout_of self.now)) result.now }
    {
        &self.known[number as usize].access
    }

    /// The form of the item with this number.
    fn item_form(&self, number: u32) -> Result<NumForm, RunFault>
        requires here { number < count self.now }
        ensures form { IfOk result (λ form. option_map (λ k. k.meaning) (known_at self.now number) ≡ Some (meanings.Item form)) }
        ensures memory { IfErr result (λ fault. fault ≡ WantOfMemory) }
    {
        match self.known[number as usize].meaning {
            Meaning::Item { form } => Ok(form),
            Meaning::Name { number: _ } => Err(RunFault::Memory),
        }
    }

    /// The number of a place that means an item. It is resolved if it isn't known.
    fn item_number(&mut self, place: &Place) -> Result<u32, Memory>
        ensures item { IfOk result (IsItemAt self.new place.now) }
        ensures grown { HasGrown self.old self.new }
    {
        match self.known_item(place) {
            Some(number) => Ok(number),
            None => self.add_item(place),
        }
    }

    fn known_item(&self, place: &Place) -> Option<u32>
        ensures { IfSome result (IsItemAt self.now place.now) }
    {
        match self.find(place) {
            Some(number) => match self.known[number as usize].meaning {
                Meaning::Item { form: _ } => Some(number),
                Meaning::Name { number: _ } => None,
            },
            None => None,
        }
    }

    fn add_item(&mut self, place: &Place) -> Result<u32, Memory>
        ensures item { IfOk result (IsItemAt self.new place.now) }
        ensures grown { HasGrown self.old self.new }
    {
        let form = match item_form(self.layout, place) {
            Some(form) => form,
            None => return Err(Memory),
        };
        match resolve(self.alloc, self.layout, place)? {
            Some(access) => self.add(place, Meaning::Item { form }, access),
            None => Err(Memory),
        }
    }

    /// The condition-name that a place means, and the number of the place. It is resolved if it isn't known.
    fn name_number(&mut self, place: &Place) -> Result<(u32, u32), Memory>
        ensures item { IfOk result (λ n. IsNameAt self.new place.now n.0 n.1) }
        ensures grown { HasGrown self.old self.new }
    {
        match self.known_name(place) {
            Some(numbers) => Ok(numbers),
            None => self.add_name(place),
        }
    }

    fn known_name(&self, place: &Place) -> Option<(u32, u32)>
        ensures { IfSome result (λ n. IsNameAt self.now place.now n.0 n.1) }
    {
        match self.find(place) {
            Some(number) => match self.known[number as usize].meaning {
                Meaning::Item { form: _ } => None,
                Meaning::Name { number: name } => Some((name, number)),
            },
            None => None,
        }
    }

    fn add_name(&mut self, place: &Place) -> Result<(u32, u32), Memory>
        ensures item { IfOk result (λ n. IsNameAt self.new place.now n.0 n.1) }
        ensures grown { HasGrown self.old self.new }
    {
        match resolve_name(self.alloc, self.layout, place)? {
            Some((name, access)) => {
                let number = self.add(place, Meaning::Name { number: name }, access)?;
                Ok((name, number))
            }
            None => Err(Memory),
        }
    }

    /// The number of a place, if it is known.
    fn find(&self, place: &Place) -> Option<u32>
        ensures { IfSome result (IsFound self.now place.now) }
    {
        match self.numbers.get(place.at) {
            Some(number) => {
                if self.is_at(number, place) {
                    Some(number)
                } else {
                    None
                }
            }
            None => None,
        }
    }

    /// Whether the place with this number reads as this one.
    fn is_at(&self, number: u32, place: &Place) -> bool
        ensures { IsTrue result → IsFound self.now place.now number }
    {
        match self.known_at(number) {
            Some(known) => same_place(&known.place, place),
            None => false,
        }
    }

    fn known_at(&self, number: u32) -> Option<&Known>
        ensures { option_map (λ known. known.now) result ≡ known_at self.now number }
    {
        self.known.get(number as usize)
    }

    /// Adds a place that is resolved, and gives its number.
    fn add(&mut self, place: &Place, meaning: Meaning, access: Access) -> Result<u32, Memory>
        requires meant { IsMeant (layout_of self.old) place.now meaning access }
        requires fits { Fits (first_area (layout_of self.old).areas) (area_lengths (layout_of self.old)) access }
        ensures known { IfOk result (λ n. known_at self.new n ≡ Some (record { place = place.now; meaning = meaning; access = access })) }
        ensures grown { HasGrown self.old self.new }
    {
        let number = u32::try_from(self.known.len()).map_err(|_| Memory)?;
        let place = place.twin(self.alloc)?;
        let at = place.at;
        self.known.push(Known {
            place,
            meaning,
            access,
        })?;
        self.numbers.put(at, number)?;
        Ok(number)
    }
}

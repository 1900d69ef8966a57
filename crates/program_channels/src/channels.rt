ghost use Rattle.std.specs.Prelude.{◌≡◌, ℕ, List, IfOk, IfSome, OnOk, map, slice_get};
ghost use Rattle.std.specs.List.{AllByRecursion};
ghost use Rattle.std.specs.Option.{option_map};
ghost use Rattle.std.proofs.Props.{props};
ghost use Rattle.name_tables.specs.Table.{held};
ghost use Rattle.layout_reading.specs.Reading.{read_channels};
ghost use Rattle.program_meaning.specs.Step.{channel_of, channel_at};
ghost use Rattle.program_channels.specs.Channel.{read_channel, IsWhole};
ghost use Rattle.program_channels.specs.Tables.{placed, with_place, first_named, first_placed, channels_by};
ghost use Rattle.program_channels.specs.Numbers.{number_in};

use crate::channel;
use crate::channel::Channel;
use crate::numbers::Numbers;
use cobol_syntax::{Program, Select};
use data_layout::{FileUse, Layout};
use name_tables::NameTable;
use std::alloc::Global;
use std::collections::BTreeMap;
use y2k_base::Memory;

/// The files of a program in the order of their SELECTs, to be found by their names and by the areas of their records.
pub struct Channels<'a> {
    list: Vec<Channel<'a>>,
    /// Of whose areas the spans are.
    layout: &'a Layout,
    /// The places in the list of the first file of each name and of each area.
    names: NameTable<'a, usize>,
    areas: BTreeMap<u32, usize>,
    ghost whole: { AllByRecursion (IsWhole layout.now.areas) list.items } by { Prim.hlevel props },
    ghost named: { (name : List ℕ) → held names name ≡ first_named 0 list.items name } by { Prim.hlevel props },
    ghost at: { (area : ℕ) → placed areas area ≡ first_placed 0 list.items area } by { Prim.hlevel props },
}

impl Drop for Channels<'_> {
    fn drop(self) {
        let Channels {
            list: _list,
            layout: _,
            names: _names,
            areas: _areas,
        } = self;
    }
}

impl<'a> Channels<'a> {
    ghost use Rattle.program_channels.specs.Channels.{channels_of, layout_of, HasRecord};

    /// The files of a program of a portfolio with these external files. A number past 32 bits is want of memory.
    pub fn of(
        alloc: Global,
        files: &[FileUse],
        program: &'a Program,
        layout: &'a Layout,
    ) -> Result<Channels<'a>, Memory>
        ensures channels { IfOk result (λ channels. channels_of channels ≡ read_channels files.now program.now) }
        ensures layout { IfOk result (λ channels. layout_of channels ≡ layout.now) }
    {
        let list = list_of(alloc, files, program, layout)?;
        let names = names_of(alloc, &list)?;
        let areas = areas_of(alloc, &list)?;
        Ok(Channels {
            list,
            layout,
            names,
            areas,
        })
    }

    /// The file of that name.
    pub fn find(&self, name: &[u8]) -> Option<Channel<'a>>
        ensures found { option_map read_channel result ≡ channel_of name.now (channels_of self.now) }
        ensures record { IfSome result (HasRecord (layout_of self.now)) }
    {
        match self.names.get(name) {
            Some(at) => self.channel(at),
            None => None,
        }
    }

    /// The file whose records stand in that area of the program.
    pub fn at_area(&self, area: u32) -> Option<Channel<'a>>
        ensures found { option_map read_channel result ≡ channel_at area (channels_of self.now) }
        ensures record { IfSome result (HasRecord (layout_of self.now)) }
    {
        match self.areas.get(&area) {
            Some(at) => self.channel(*at),
            None => None,
        }
    }

    fn channel(&self, at: usize) -> Option<Channel<'a>>
        ensures found { option_map read_channel result ≡ slice_get (channels_of self.now) at }
        ensures record { IfSome result (HasRecord (layout_of self.now)) }
    {
        match self.list.get(at) {
            Some(channel) => Some(*channel),
            None => None,
        }
    }
}

/// The files of the SELECTs, in their order.
fn list_of<'a>(
    alloc: Global,
    files: &[FileUse],
    program: &'a Program,
    layout: &Layout,
) -> Result<Vec<Channel<'a>>, Memory>
    ensures read { IfOk result (λ list. map read_channel list.items ≡ read_channels files.now program.now) }
    ensures whole { IfOk result (λ list. AllByRecursion (IsWhole layout.now.areas) list.items) }
{
    let file_numbers = Numbers::of_files(alloc, files)?;
    let area_numbers = Numbers::of_entries(alloc, program.files.items())?;
    let list = list_by(
        alloc,
        program.selects.items(),
        &file_numbers,
        &area_numbers,
        layout,
    )?;
    Ok(list)
}

fn list_by<'a>(
    alloc: Global,
    selects: &'a [Select],
    files: &Numbers<'_>,
    areas: &Numbers<'_>,
    layout: &Layout,
) -> Result<Vec<Channel<'a>>, Memory>
    ensures read { IfOk result (λ list. map read_channel list.items ≡ channels_by (number_in files.now) (number_in areas.now) selects.now) }
    ensures whole { IfOk result (λ list. AllByRecursion (IsWhole layout.now.areas) list.items) }
{
    let mut list = Vec::with_capacity(alloc, selects.len())?;
    for i in 0..selects.len() {
        let select = &selects[i];
        let file = files.number(select.external.items());
        let area = areas.number(select.name.items());
        list.push(channel::channel_of(select, file, area, layout)?)?;
    }
    Ok(list)
}

fn names_of<'a>(alloc: Global, list: &[Channel<'a>]) -> Result<NameTable<'a, usize>, Memory>
    ensures { IfOk result (λ names. held names ≡ first_named 0 list.now) }
{
    let mut names = NameTable::new(alloc);
    let mut i = list.len();
    while i > 0 {
        i -= 1;
        names.put(list[i].name, i)?;
    }
    Ok(names)
}

fn areas_of(alloc: Global, list: &[Channel<'_>]) -> Result<BTreeMap<u32, usize>, Memory>
    ensures { IfOk result (λ areas. placed areas ≡ first_placed 0 list.now) }
{
    let mut areas = BTreeMap::new(alloc);
    let mut i = list.len();
    while i > 0 {
        i -= 1;
        put_area(&mut areas, list[i].area, i)?;
    }
    Ok(areas)
}

fn put_area(areas: &mut BTreeMap<u32, usize>, area: u32, at: usize) -> Result<(), Memory>
    ensures { OnOk result (placed areas.new ≡ with_place (placed areas.old) area at) }
{
    areas.insert(area, at)?;
    Ok(())
}

ghost use Rattle.std.specs.Prelude.{◌≡◌, ◌+◌, ◌++◌, [], IfOk, IfSome, OnOk};
ghost use Rattle.name_tables.specs.Table.{held, with_value};
ghost use Rattle.label_update.specs.Names as spec;

use cobol_syntax::Program;
use data_layout::{Area, Layout, Portfolio};
use name_tables::NameTable;
use std::alloc::Global;
use y2k_base::{AreaId, Bytes, List, Memory, Twin};

/// The name of an area: the program, its own name in the program (FILLER where it has none), and which of the areas of
/// this name in the program it is, from 1.
#[derive(Debug)]
pub struct AreaName {
    pub program: Bytes,
    pub name: Bytes,
    pub turn: u32,
}

impl Drop for AreaName {
    fn drop(self) {
        let AreaName {
            program: _program,
            name: _name,
            turn: _,
        } = self;
    }
}

impl Twin for AreaName {
    fn twin(&self, alloc: Global) -> Result<AreaName, Memory> {
        Ok(AreaName {
            program: self.program.twin(alloc)?,
            name: self.name.twin(alloc)?,
            turn: self.turn,
        })
    }
}

/// The names of all areas of a portfolio, by their numbers.
pub(crate) fn area_names(alloc: Global, portfolio: &Portfolio) -> Result<List<AreaName>, Memory>
    ensures { IfOk result (λ names. names ≡ spec.names_of portfolio.now) }
{
    let names = names_in(alloc, portfolio.programs.items(), portfolio.layouts.items())?;
    Ok(names)
}

fn names_in(
    alloc: Global,
    programs: &[Program],
    layouts: &[Layout],
) -> Result<List<AreaName>, Memory>
    ensures { IfOk result (λ names. names ≡ spec.names_in programs.now layouts.now) }
{
    let mut names = List::new(alloc);
    let mut programs_left = programs;
    let mut layouts_left = layouts;
    while let [program, programs_after @ ..] = programs_left {
        match layouts_left {
            [layout, layouts_after @ ..] => {
                add_names(alloc, &mut names, &program.id, layout.areas.items())?;
                programs_left = programs_after;
                layouts_left = layouts_after;
            }
            [] => return Ok(names),
        }
    }
    Ok(names)
}

/// Adds the areas of a program.
fn add_names(
    alloc: Global,
    names: &mut List<AreaName>,
    program: &Bytes,
    areas: &[Area],
) -> Result<(), Memory>
    ensures { OnOk result (names.new ≡ names.old ++ spec.names_after program.now [] areas.now) }
{
    let mut turns = NameTable::new(alloc);
    for i in 0..areas.len() {
        let area = &areas[i];
        let turn = next_turn(&mut turns, name_text(&area.name))?;
        let name = area_name(alloc, program, area, turn)?;
        names.push(name)?;
    }
    Ok(())
}

/// Counts an area of that name, and answers which of them it is. More than 32 bits can tell are too many.
fn next_turn<'a>(turns: &mut NameTable<'a, u32>, name: &'a [u8]) -> Result<u32, Memory>
    ensures turn { IfOk result (λ turn. turn ≡ spec.turn_in (held turns.old name.now) + 1) }
    ensures counted { IfOk result (λ turn. held turns.new ≡ with_value (held turns.old) name.now turn) }
{
    match one_more(turns.get(name)) {
        Some(turn) => {
            turns.put(name, turn)?;
            Ok(turn)
        }
        None => Err(Memory),
    }
}

fn one_more(turn: Option<u32>) -> Option<u32>
    ensures { IfSome result (λ more. more ≡ spec.turn_in turn + 1) }
{
    match turn {
        Some(turn) => turn.checked_add(1),
        None => Some(1),
    }
}

fn area_name(alloc: Global, program: &Bytes, area: &Area, turn: u32) -> Result<AreaName, Memory>
    ensures { IfOk result (λ name. name ≡ record { program = program.now; name = spec.name_text area.now.name; turn = turn }) }
{
    let program = program.twin(alloc)?;
    let name = copied(alloc, name_text(&area.name))?;
    Ok(AreaName {
        program,
        name,
        turn,
    })
}

fn copied(alloc: Global, bytes: &[u8]) -> Result<Bytes, Memory>
    ensures { IfOk result (λ copy. copy ≡ bytes.now) }
{
    let mut copy = List::new(alloc);
    copy.append(bytes)?;
    Ok(copy)
}

fn name_text(name: &Option<Bytes>) -> &[u8]
    ensures { result.now ≡ spec.name_text name.now }
{
    match name {
        Some(name) => name.items(),
        None => "FILLER".as_bytes(),
    }
}

/// The name of an area by its number. One past the last is FILLER of no program.
pub(crate) fn name_at(alloc: Global, names: &[AreaName], area: AreaId) -> Result<AreaName, Memory>
    ensures { IfOk result (λ name. name ≡ spec.name_at names.now area) }
{
    match names.get(area.0 as usize) {
        Some(name) => name.twin(alloc),
        None => no_name(alloc),
    }
}

fn no_name(alloc: Global) -> Result<AreaName, Memory>
    ensures { IfOk result (λ name. name ≡ spec.no_name) }
{
    let program = List::new(alloc);
    let name = copied(alloc, "FILLER".as_bytes())?;
    Ok(AreaName {
        program,
        name,
        turn: 0,
    })
}

ghost use Rattle.std.specs.Prelude.{◌≡◌, ◌++◌, map, IfOk, OnOk, slice_get};
ghost use Rattle.reports.specs.Names as spec;

use cobol_syntax::Program;
use data_layout::{Area, Layout, Portfolio};
use std::alloc::Global;
use y2k_base::{AreaId, Bytes, List, Memory};

/// The name of an area, and that of its program.
pub(crate) struct AreaName {
    pub(crate) program: Bytes,
    pub(crate) area: Bytes,
}

impl Drop for AreaName {
    fn drop(self) {
        let AreaName {
            program: _program,
            area: _area,
        } = self;
    }
}

/// The names of all areas of a portfolio, by their numbers.
pub(crate) fn area_names(alloc: Global, portfolio: &Portfolio) -> Result<List<AreaName>, Memory>
    ensures { IfOk result (λ names. names ≡ spec.names_of portfolio.now) }
{
    let names = names_in(alloc, portfolio.programs.items(), portfolio.layouts.items())?;
    Ok(names)
}

fn names_in(
    alloc: Global,
    programs: &[Program],
    layouts: &[Layout],
) -> Result<List<AreaName>, Memory>
    ensures { IfOk result (λ names. names ≡ spec.names_in programs.now layouts.now) }
{
    let mut names = List::new(alloc);
    let mut programs_left = programs;
    let mut layouts_left = layouts;
    while let [program, programs_after @ ..] = programs_left {
        match layouts_left {
            [layout, layouts_after @ ..] => {
                add_names(alloc, &mut names, &program.id, layout.areas.items())?;
                programs_left = programs_after;
                layouts_left = layouts_after;
            }
            [] => return Ok(names),
        }
    }
    Ok(names)
}

/// Adds the areas of a program.
fn add_names(
    alloc: Global,
    names: &mut List<AreaName>,
    program: &Bytes,
    areas: &[Area],
) -> Result<(), Memory>
    ensures { OnOk result (names.new ≡ names.old ++ map (spec.area_name program.now) areas.now) }
{
    for i in 0..areas.len() {
        let name = area_name(alloc, program, &areas[i])?;
        names.push(name)?;
    }
    Ok(())
}

fn area_name(alloc: Global, program: &Bytes, area: &Area) -> Result<AreaName, Memory>
    ensures { IfOk result (λ name. name ≡ spec.area_name program.now area.now) }
{
    let program = copied(alloc, program.items())?;
    let area = copied(alloc, name_text(&area.name))?;
    Ok(AreaName { program, area })
}

fn copied(alloc: Global, bytes: &[u8]) -> Result<Bytes, Memory>
    ensures { IfOk result (λ copy. copy ≡ bytes.now) }
{
    let mut copy = List::new(alloc);
    copy.append(bytes)?;
    Ok(copy)
}

pub(crate) fn name_text(name: &Option<Bytes>) -> &[u8]
    ensures { result.now ≡ spec.name_text name.now }
{
    match name {
        Some(name) => name.items(),
        None => "FILLER".as_bytes(),
    }
}

/// The name of the program of an area, and its own.
pub(crate) fn name_at(names: &[AreaName], area: AreaId) -> (&[u8], &[u8])
    ensures program { result.0.now ≡ (spec.name_at names.now area).program }
    ensures area { result.1.now ≡ (spec.name_at names.now area).area }
{
    match names.get(area.0 as usize) {
        Some(name) => (name.program.items(), name.area.items()),
        None => (&[], "FILLER".as_bytes()),
    }
}

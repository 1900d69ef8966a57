ghost use Rattle.std.specs.Prelude.{◌≡◌, ◌<◌, ◌∷◌, [], ◌++◌, IfOk, OnOk, All, length, map, slice_set, slice_index_or};
ghost use Rattle.file_convert.specs.Cuts.{IsInOrder};
ghost use Rattle.plan_images.specs.Edges.{IsSound, cuts_of};
ghost use Rattle.plan_images.specs.Tables.{AreFit, AreTables, cut_of as the_cut_of, kind_of as the_kind_of, with_cut, empty};

use crate::table::Table;
use file_convert::{Cut, CutKind, Cuts};
use std::alloc::Global;
use window_modes::YearMode;
use y2k_base::{List, Memory};
use year_pairs::YearKind;

fn kind_of(kind: YearKind) -> CutKind
    ensures { result ≡ the_kind_of kind }
{
    match kind {
        YearKind::Pair => CutKind::Pair,
        YearKind::Packed { digits, unit } => CutKind::Packed { digits, unit },
    }
}

fn cut_of(mode: YearMode) -> Cut
    ensures { result ≡ the_cut_of mode }
{
    Cut {
        offset: mode.year.place.offset,
        kind: kind_of(mode.year.kind),
        pivot: mode.pivot,
    }
}

/// The cuts of the areas of these lengths: each year goes to its area.
pub(crate) fn cuts_of_areas(
    alloc: Global,
    lengths: &[u32],
    modes: &[YearMode],
) -> Result<Vec<Cuts>, Memory>
    requires { AreFit lengths.now modes.now }
    ensures { IfOk result (λ tables. AreTables lengths.now modes.now tables.items) }
{
    let mut tables = empty_tables(alloc, lengths)?;
    for i in 0..modes.len() {
        add_year(&mut tables, modes[i])?;
    }
    Ok(tables)
}

/// Tables without cuts.
fn empty_tables(alloc: Global, lengths: &[u32]) -> Result<Vec<Cuts>, Memory>
    ensures { IfOk result (λ tables. tables.items ≡ map empty lengths.now) }
{
    let mut tables = Vec::new(alloc);
    for i in 0..lengths.len() {
        let length = lengths[i];
        let list = List::new(alloc);
        tables.push(Cuts { length, list })?;
    }
    Ok(tables)
}

/// Adds the cut of a year behind those of its area.
fn add_year(tables: &mut Vec<Cuts>, mode: YearMode) -> Result<(), Memory>
    requires { mode.year.place.area.0 < length tables.old.items }
    ensures { OnOk result (tables.new.items ≡ with_cut tables.old.items mode.year.place.area.0 (the_cut_of mode)) }
{
    let table = &mut tables[mode.year.place.area.0 as usize];
    table.list.push(cut_of(mode))?;
    Ok(())
}

/// The tables with their sums.
pub(crate) fn tables_of(alloc: Global, cuts: Vec<Cuts>) -> Result<Vec<Table>, Memory>
    requires { All IsInOrder cuts.items }
    ensures same { IfOk result (λ tables. cuts_of tables.items ≡ cuts.items) }
    ensures sound { IfOk result (λ tables. All IsSound tables.items) }
{
    let mut tables = Vec::new(alloc);
    for cuts in cuts {
        let table = Table::new(alloc, cuts)?;
        tables.push(table)?;
    }
    Ok(tables)
}

ghost use Rattle.std.specs.Prelude.{◌≡◌, ◌++◌, OnOk};
ghost use Rattle.entry_limits.specs.Covering as entries;
ghost use Rattle.entry_limits.specs.Whole as spec;

use crate::covering::AreaEntries;
use crate::items::add_items;
use cobol_syntax::Program;
use data_layout::Layout;
use plan_limits::{Limit, LimitKind, add_place_limit};
use std::alloc::Global;
use window_modes::YearMode;
use y2k_base::{AreaId, BytePlace, List, Memory, Origin};
use year_index::YearIndex;
use year_labels::Fact;

fn add_if(
    limits: &mut List<Limit>,
    kind: LimitKind,
    place: BytePlace,
    at: Option<Origin>,
) -> Result<(), Memory>
    ensures { OnOk result (limits.new ≡ limits.old ++ spec.limit_if kind place at) }
{
    match at {
        None => Ok(()),
        Some(at) => {
            add_place_limit(limits, kind, at, place)?;
            Ok(())
        }
    }
}

/// Adds a limit of a byte at the first entry that covers it.
fn add_byte(
    limits: &mut List<Limit>,
    kind: LimitKind,
    near: &AreaEntries,
    place: BytePlace,
    programs: &[Program],
    layouts: &[Layout],
) -> Result<(), Memory>
    requires area { near.now.area ≡ place.area }
    requires entries { entries.AreEntries programs.now layouts.now near.now }
    ensures { OnOk result (limits.new ≡ limits.old ++ spec.byte_limit kind programs.now layouts.now place) }
{
    add_if(limits, kind, place, near.first(place))?;
    Ok(())
}

fn add_lone(
    alloc: Global,
    limits: &mut List<Limit>,
    programs: &[Program],
    layouts: &[Layout],
    lone: &[Fact],
) -> Result<(), Memory>
    ensures { OnOk result (limits.new ≡ limits.old ++ spec.lone_limits programs.now layouts.now lone.now) }
{
    let mut near = AreaEntries::of(alloc, AreaId(0), programs, layouts)?;
    let mut rest = lone;
    while let [fact, more @ ..] = rest {
        let place = fact.place;
        near = near.moved(alloc, place.area, programs, layouts)?;
        add_byte(
            limits,
            LimitKind::SplitYear,
            &near,
            place,
            programs,
            layouts,
        )?;
        rest = more;
    }
    Ok(())
}

fn add_clashes(
    alloc: Global,
    limits: &mut List<Limit>,
    programs: &[Program],
    layouts: &[Layout],
    modes: &[YearMode],
) -> Result<(), Memory>
    ensures { OnOk result (limits.new ≡ limits.old ++ spec.clash_limits programs.now layouts.now modes.now) }
{
    let mut near = AreaEntries::of(alloc, AreaId(0), programs, layouts)?;
    let mut rest = modes;
    while let [mode, more @ ..] = rest {
        if mode.clash {
            let place = mode.year.place;
            near = near.moved(alloc, place.area, programs, layouts)?;
            add_byte(
                limits,
                LimitKind::PivotClash,
                &near,
                place,
                programs,
                layouts,
            )?;
        }
        rest = more;
    }
    Ok(())
}

fn add_programs(
    alloc: Global,
    limits: &mut List<Limit>,
    index: &YearIndex,
    programs: &[Program],
    layouts: &[Layout],
) -> Result<(), Memory>
    ensures { OnOk result (limits.new ≡ limits.old ++ spec.programs_limits index.now programs.now layouts.now) }
{
    let mut programs_left = programs;
    let mut layouts_left = layouts;
    while let [program, more @ ..] = programs_left {
        match layouts_left {
            [] => return Ok(()),
            [layout, others @ ..] => {
                let words = program.words.items();
                add_items(alloc, limits, index, words, layout.items.items())?;
                programs_left = more;
                layouts_left = others;
            }
        }
    }
    Ok(())
}

/// Adds the limits that stand at entries, where these bytes of years lack a neighbour: the years of which a byte is missing,
/// those that an item parts, those of a form that an item doesn't take, pictures of over 18 digits or 30 characters, and the
/// years that groups with unlike pivots have.
/// A byte that 32 bits can't address is want of memory. It goes over the entries once for each area with a lone byte or a
/// clash, and over those of the area for each such byte.
pub fn add_entry_limits(
    alloc: Global,
    limits: &mut List<Limit>,
    programs: &[Program],
    layouts: &[Layout],
    lone: &[Fact],
    index: &YearIndex,
) -> Result<(), Memory>
    ensures { OnOk result (limits.new ≡ limits.old ++ spec.entry_limits programs.now layouts.now lone.now index.now) }
{
    add_lone(alloc, limits, programs, layouts, lone)?;
    add_programs(alloc, limits, index, programs, layouts)?;
    add_clashes(alloc, limits, programs, layouts, index.modes())?;
    Ok(())
}

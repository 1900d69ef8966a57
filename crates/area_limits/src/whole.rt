ghost use Rattle.std.specs.Prelude.{◌≡◌, ◌+◌, ◌++◌, IfOk, OnOk};
ghost use Rattle.generated_areas.specs.Needs.{needs};
ghost use Rattle.area_limits.specs.Extents as extents;
ghost use Rattle.area_limits.specs.Full as full;
ghost use Rattle.area_limits.specs.Whole as spec;

use crate::extents::procedure_origin;
use crate::full::{add_generated_areas, add_own_areas};
use crate::taken::add_taken;
use cobol_syntax::Program;
use data_layout::Layout;
use date_uses::DateUse;
use generated_areas::{GeneratedArea, generated_areas};
use plan_limits::Limit;
use std::alloc::Global;
use y2k_base::{List, Memory};
use year_index::YearIndex;

/// Adds the limits of the areas of a program, its own and these that are generated, and gives how many bytes the areas up to
/// them have.
#[tactic(auto, using(crate::proofs::Apart::full_apart, crate::proofs::Apart::lengths_apart))]
fn add_areas(
    limits: &mut List<Limit>,
    before: u64,
    index: &YearIndex,
    program: &Program,
    layout: &Layout,
    generated: &[GeneratedArea],
) -> Result<u64, Memory>
    ensures sum { IfOk result (λ sum. sum ≡ before + full.lengths (extents.own_extents index.now program.now layout.now ++ extents.generated_extents program.now generated.now)) }
    ensures limits { OnOk result (limits.new ≡ limits.old ++ full.full_limits before (extents.own_extents index.now program.now layout.now ++ extents.generated_extents program.now generated.now)) }
{
    let words = program.words.items();
    let items = layout.items.items();
    let own = add_own_areas(limits, before, index, words, items, layout.areas.items())?;
    let sum = add_generated_areas(limits, own, procedure_origin(words), generated)?;
    Ok(sum)
}

/// Adds the limits of the program of that number, and gives how many bytes the areas up to its last have.
fn add_program(
    alloc: Global,
    limits: &mut List<Limit>,
    before: u64,
    number: u32,
    program: &Program,
    layout: &Layout,
    index: &YearIndex,
    uses: &[DateUse],
) -> Result<u64, Memory>
    ensures sum { IfOk result (λ sum. sum ≡ before + full.lengths (extents.extents index.now uses.now number program.now layout.now)) }
    ensures limits { OnOk result (limits.new ≡ limits.old ++ spec.program_limits index.now uses.now before number program.now layout.now) }
{
    let generated = generated_areas(alloc, number, index, uses)?;
    let sum = add_areas(limits, before, index, program, layout, generated.items())?;
    add_taken(alloc, limits, program.words.items(), generated.items())?;
    Ok(sum)
}

fn next_number(number: u32) -> Result<u32, Memory>
    ensures { IfOk result (λ next. next ≡ number + 1) }
{
    match number.checked_add(1) {
        None => Err(Memory),
        Some(next) => Ok(next),
    }
}

/// Adds that an area is too long after the conversion, that all areas together are, and that a program has a name of the
/// areas that are generated for it.
pub fn add_area_limits(
    alloc: Global,
    limits: &mut List<Limit>,
    programs: &[Program],
    layouts: &[Layout],
    index: &YearIndex,
    uses: &[DateUse],
) -> Result<(), Memory>
    ensures { OnOk result (limits.new ≡ limits.old ++ spec.area_limits programs.now layouts.now index.now uses.now) }
{
    let mut sum = 0;
    let mut number = 0;
    let mut programs_left = programs;
    let mut layouts_left = layouts;
    while let [program, more @ ..] = programs_left {
        match layouts_left {
            [] => return Ok(()),
            [layout, others @ ..] => {
                sum = add_program(alloc, limits, sum, number, program, layout, index, uses)?;
                number = next_number(number)?;
                programs_left = more;
                layouts_left = others;
            }
        }
    }
    Ok(())
}

ghost use Rattle.std.specs.Prelude.{◌≡◌, ◌+◌, ◌++◌, ◌∷◌, ◌<◌, ◌≤◌, [], drop, length, map, IfOk, OnOk};
ghost use Rattle.std.specs.List.{AllByRecursion, filter};
ghost use Rattle.y2k_base.specs.Edits.{AreInOrder};
ghost use Rattle.data_layout.specs.Index.{IsReady};
ghost use Rattle.statement_places.specs.Parts.{seen};
ghost use Rattle.statement_words.specs.Groups.{groups};
ghost use Rattle.expand_rewrite.specs.Old.{known};
ghost use Rattle.expand_rewrite.specs.Expanded as expanded;
ghost use Rattle.expand_rewrite.specs.Expanded.{scene};
ghost use Rattle.expand_rewrite.specs.Statements as spec;

use crate::accepts::add_accept;
use crate::moves::add_moves;
use crate::old::OldProgram;
use cobol_syntax::Program;
use convert_plan::Plan;
use data_layout::{Layout, Portfolio};
use generated_areas::GeneratedArea;
use statement_places::{Part, parts_of};
use statement_words::{EditedWords, add_areas, next_group};
use std::alloc::Global;
use y2k_base::{Edit, List, Memory};

/// Adds the edits of a text statement with one receiver.
fn add_single(
    alloc: Global,
    edits: &mut List<Edit>,
    program: OldProgram,
    part: Part,
) -> Result<(), Memory>
    requires ready { IsReady program.layout.now }
    requires ordered { AreInOrder program.source.edits.now }
    ensures { OnOk result (edits.new ≡ edits.old ++ spec.single_edits (known program.entry) (seen part.entry)) }
{
    match part {
        Part::Move { .. } => Ok(()),
        Part::Compute { .. } => Ok(()),
        Part::Accept { at, end, to, from } => {
            add_accept(alloc, edits, program, at, end, to, from)?;
            Ok(())
        }
        Part::Test { .. } => Ok(()),
    }
}

/// Adds the edits of a text statement with several receivers, of which that is the first part.
fn add_several(
    alloc: Global,
    edits: &mut List<Edit>,
    program: OldProgram,
    part: Part,
    group: &[Part],
) -> Result<(), Memory>
    requires ready { IsReady program.layout.now }
    requires ordered { AreInOrder program.source.edits.now }
    ensures { OnOk result (edits.new ≡ edits.old ++ spec.several_edits (known program.entry) (seen part.entry) (map seen group.now)) }
{
    match part {
        Part::Move { at, from, .. } => {
            add_moves(alloc, edits, program, at, from, group)?;
            Ok(())
        }
        Part::Compute { .. } => Ok(()),
        Part::Accept { .. } => Ok(()),
        Part::Test { .. } => Ok(()),
    }
}

/// Adds the edits of a text statement.
fn add_group(
    alloc: Global,
    edits: &mut List<Edit>,
    program: OldProgram,
    group: &[Part],
) -> Result<(), Memory>
    requires ready { IsReady program.layout.now }
    requires ordered { AreInOrder program.source.edits.now }
    ensures { OnOk result (edits.new ≡ edits.old ++ spec.group_edits (known program.entry) (map seen group.now)) }
{
    match group {
        [] => Ok(()),
        [part] => {
            add_single(alloc, edits, program, *part)?;
            Ok(())
        }
        [part, _, ..] => {
            add_several(alloc, edits, program, *part, group)?;
            Ok(())
        }
    }
}

/// The parts from that index on.
fn parts_from<'a, 'b>(parts: &'b [Part<'a>], from: usize) -> &'b [Part<'a>]
    requires { from ≤ length parts.now }
    ensures { result.now ≡ drop from parts.now }
{
    &parts[from..]
}

/// Adds the edits of the text statement of the part at that index, and gives the index of the part behind it.
fn add_from(
    alloc: Global,
    edits: &mut List<Edit>,
    program: OldProgram,
    parts: &[Part],
    from: usize,
) -> Result<usize, Memory>
    requires ready { IsReady program.layout.now }
    requires ordered { AreInOrder program.source.edits.now }
    requires within { from < length parts.now }
    ensures next { IfOk result (λ next. (from < next) × (next ≤ length parts.now)) }
    ensures edits { IfOk result (λ next. edits.new ++ spec.groups_edits (known program.entry) (groups (map seen (drop next parts.now))) ≡ edits.old ++ spec.groups_edits (known program.entry) (groups (map seen (drop from parts.now)))) }
{
    match next_group(parts_from(parts, from)) {
        None => Err(Memory),
        Some((group, more)) => {
            add_group(alloc, edits, program, group)?;
            Ok(parts.len() - more.len())
        }
    }
}

/// Adds the edits of text statements.
fn add_groups(
    alloc: Global,
    edits: &mut List<Edit>,
    program: OldProgram,
    parts: &[Part],
) -> Result<(), Memory>
    requires ready { IsReady program.layout.now }
    requires ordered { AreInOrder program.source.edits.now }
    ensures { OnOk result (edits.new ≡ edits.old ++ spec.groups_edits (known program.entry) (groups (map seen parts.now))) }
{
    let mut from = 0;
    while from < parts.len() {
        from = add_from(alloc, edits, program, parts, from)?;
    }
    Ok(())
}

/// Whether it is an area of dates or days that are accepted.
fn is_of_accept(area: GeneratedArea) -> bool
    ensures { result ≡ spec.is_of_accept area }
{
    match area {
        GeneratedArea::Date => true,
        GeneratedArea::FullDate => true,
        GeneratedArea::Day => true,
        GeneratedArea::FullDay => true,
        GeneratedArea::Short(_) => false,
        GeneratedArea::Long(_) => false,
    }
}

fn add_if_of_accept(kept: &mut List<GeneratedArea>, area: GeneratedArea) -> Result<(), Memory>
    ensures { OnOk result (kept.new ≡ kept.old ++ filter spec.is_of_accept (area ∷ [])) }
{
    if is_of_accept(area) {
        kept.push(area)?;
        Ok(())
    } else {
        Ok(())
    }
}

/// Those of the areas that are for dates or days that are accepted.
fn areas_of_accepts(alloc: Global, areas: &[GeneratedArea]) -> Result<List<GeneratedArea>, Memory>
    ensures { IfOk result (λ kept. kept ≡ filter spec.is_of_accept areas.now) }
{
    let mut kept = List::new(alloc);
    let mut rest = areas;
    while let [area, more @ ..] = rest {
        add_if_of_accept(&mut kept, *area)?;
        rest = more;
    }
    Ok(kept)
}

/// Adds the edits of the statements of a program that needs these areas.
fn add_program(
    alloc: Global,
    edits: &mut List<Edit>,
    program: OldProgram,
    tree: &Program,
    needed: &[GeneratedArea],
) -> Result<(), Memory>
    requires ready { IsReady program.layout.now }
    requires ordered { AreInOrder program.source.edits.now }
    ensures { OnOk result (edits.new ≡ edits.old ++ spec.program_edits (known program.entry) tree.now needed.now) }
{
    let source = program.source;
    let areas = areas_of_accepts(alloc, needed)?;
    let parts = parts_of(alloc, tree)?;
    add_areas(alloc, edits, source.program, source.words, areas.items())?;
    add_groups(alloc, edits, program, parts.as_slice())?;
    Ok(())
}

fn areas_at<'a>(needed: &'a [List<GeneratedArea>], number: u32) -> &'a [GeneratedArea]
    ensures { result.now ≡ spec.areas_at needed.now number }
{
    match needed.get(number as usize) {
        None => &[],
        Some(areas) => areas.items(),
    }
}

/// Adds the edits of the statements of the program of that number, with its layout.
fn add_numbered(
    alloc: Global,
    edits: &mut List<Edit>,
    plan: &Plan,
    words: &[Edit],
    number: u32,
    tree: &Program,
    layout: &Layout,
) -> Result<(), Memory>
    requires ready { IsReady layout.now }
    requires ordered { AreInOrder words.now }
    ensures { OnOk result (edits.new ≡ edits.old ++ spec.numbered_edits (scene plan.now words.now) number tree.now layout.now) }
{
    let source = EditedWords {
        program: number,
        words: tree.words.items(),
        edits: words,
    };
    let program = OldProgram {
        source,
        layout,
        index: plan.index(),
        day: plan.day(),
    };
    let needed = areas_at(plan.needed(), number);
    add_program(alloc, edits, program, tree, needed)?;
    Ok(())
}

fn next_number(number: u32) -> Result<u32, Memory>
    ensures { IfOk result (λ next. next ≡ number + 1) }
{
    match number.checked_add(1) {
        None => Err(Memory),
        Some(next) => Ok(next),
    }
}

/// Adds the edits of the statements of programs, the first of which has this number.
fn add_programs(
    alloc: Global,
    edits: &mut List<Edit>,
    plan: &Plan,
    words: &[Edit],
    first: u32,
    programs: &[Program],
    layouts: &[Layout],
) -> Result<(), Memory>
    requires ready { AllByRecursion IsReady layouts.now }
    requires ordered { AreInOrder words.now }
    ensures { OnOk result (edits.new ≡ edits.old ++ spec.programs_edits (scene plan.now words.now) first programs.now layouts.now) }
{
    let mut number = first;
    let mut programs_left = programs;
    let mut layouts_left = layouts;
    while let [program, more @ ..] = programs_left {
        match layouts_left {
            [] => return Ok(()),
            [layout, others @ ..] => {
                add_numbered(alloc, edits, plan, words, number, program, layout)?;
                number = next_number(number)?;
                programs_left = more;
                layouts_left = others;
            }
        }
    }
    Ok(())
}

/// The edits of the statements of a portfolio that are written anew, and of the areas that its programs get for the dates and
/// days that they accept. `words` are the edits of single words.
pub(crate) fn statement_edits(
    alloc: Global,
    portfolio: &Portfolio,
    plan: &Plan,
    words: &[Edit],
) -> Result<List<Edit>, Memory>
    requires ready { AllByRecursion IsReady portfolio.now.layouts }
    requires ordered { AreInOrder words.now }
    ensures { IfOk result (λ edits. edits ≡ expanded.statement_edits plan.now portfolio.now words.now) }
{
    let programs = portfolio.programs.items();
    let layouts = portfolio.layouts.items();
    let mut edits = List::new(alloc);
    add_programs(alloc, &mut edits, plan, words, 0, programs, layouts)?;
    Ok(edits)
}

ghost use Rattle.std.specs.Prelude.{◌≡◌, ◌<◌, ◌≤◌, ◌+◌, ◌++◌, length, drop, map, slice_get, IfOk, OnOk};
ghost use Rattle.std.specs.List.{AllByRecursion, list_any};
ghost use Rattle.std.specs.List.Sorted.{IsStableByKey};
ghost use Rattle.y2k_base.specs.Edits.{AreInOrder, word_of, place_cmp};
ghost use Rattle.data_layout.specs.Index.{IsReady};
ghost use Rattle.statement_places.specs.Parts.{seen};
ghost use Rattle.statement_words.specs.Groups.{groups};
ghost use Rattle.field_modes.specs.Bridged as spec;

use crate::crossed::add_crossed;
use crate::crossing::{Crossing, any_crosses, part_crossing};
use cobol_syntax::Program;
use convert_plan::Plan;
use data_layout::{Layout, Portfolio};
use generated_areas::GeneratedArea;
use statement_places::{Part, parts_of};
use statement_words::{EditedWords, add_alone, add_areas, add_stretch, next_group, word_at};
use std::alloc::Global;
use y2k_base::{Edit, Edits, List, Memory, Origin, Word};

/// Adds the words of one part of a text statement that crosses.
fn add_crossed_part(
    alloc: Global,
    into: &mut List<Word>,
    source: EditedWords,
    group: &[Part],
    part: Part,
    crossing: Crossing,
    at: Origin,
) -> Result<(), Memory>
    requires { AreInOrder source.edits.now }
{
    match part {
        Part::Move { to, .. } => {
            add_crossed(alloc, into, source, group, to, crossing, at)?;
            Ok(())
        }
        Part::Compute { .. } => {
            add_alone(alloc, into, source, group, part)?;
            Ok(())
        }
        Part::Accept { .. } => {
            add_alone(alloc, into, source, group, part)?;
            Ok(())
        }
        Part::Test { of: _ } => {
            add_alone(alloc, into, source, group, part)?;
            Ok(())
        }
    }
}

/// Adds the words of one part of a text statement: crossed where it crosses, else alone.
fn add_written(
    alloc: Global,
    into: &mut List<Word>,
    source: EditedWords,
    group: &[Part],
    part: Part,
    crossing: Option<Crossing>,
    at: Origin,
) -> Result<(), Memory>
    requires { AreInOrder source.edits.now }
{
    match crossing {
        None => {
            add_alone(alloc, into, source, group, part)?;
            Ok(())
        }
        Some(crossing) => {
            add_crossed_part(alloc, into, source, group, part, crossing, at)?;
            Ok(())
        }
    }
}

/// Adds the words of the parts that are left of a text statement.
fn add_all_written(
    alloc: Global,
    into: &mut List<Word>,
    plan: &Plan,
    layout: &Layout,
    source: EditedWords,
    group: &[Part],
    at: Origin,
) -> Result<(), Memory>
    requires ready { IsReady layout.now }
    requires order { AreInOrder source.edits.now }
{
    let mut rest = group;
    while let [part, more @ ..] = rest {
        let crossing = part_crossing(alloc, plan, layout, *part)?;
        add_written(alloc, into, source, group, *part, crossing, at)?;
        rest = more;
    }
    Ok(())
}

/// Adds the edits that write a text statement anew between two positions.
fn add_rewritten(
    alloc: Global,
    new: &mut List<Edit>,
    plan: &Plan,
    layout: &Layout,
    source: EditedWords,
    group: &[Part],
    at: u32,
    end: u32,
) -> Result<(), Memory>
    requires ready { IsReady layout.now }
    requires order { AreInOrder source.edits.now }
{
    match word_at(source.words, at) {
        None => Ok(()),
        Some(word) => {
            let mut words = List::new(alloc);
            add_all_written(alloc, &mut words, plan, layout, source, group, word.origin)?;
            add_stretch(alloc, new, source.program, source.words, at, end, words)?;
            Ok(())
        }
    }
}

/// Adds the edits of a text statement that begins with that part, if one of its parts crosses.
fn add_crossing_group(
    alloc: Global,
    new: &mut List<Edit>,
    plan: &Plan,
    layout: &Layout,
    source: EditedWords,
    group: &[Part],
    first: Part,
) -> Result<(), Memory>
    requires ready { IsReady layout.now }
    requires order { AreInOrder source.edits.now }
{
    match first {
        Part::Move { at, end, .. } => {
            if any_crosses(alloc, plan, layout, group)? {
                add_rewritten(alloc, new, plan, layout, source, group, at, end)?;
                Ok(())
            } else {
                Ok(())
            }
        }
        Part::Compute { .. } => Ok(()),
        Part::Accept { .. } => Ok(()),
        Part::Test { of: _ } => Ok(()),
    }
}

fn add_group(
    alloc: Global,
    new: &mut List<Edit>,
    plan: &Plan,
    layout: &Layout,
    source: EditedWords,
    group: &[Part],
) -> Result<(), Memory>
    requires ready { IsReady layout.now }
    requires order { AreInOrder source.edits.now }
{
    match group {
        [] => Ok(()),
        [first, ..] => {
            add_crossing_group(alloc, new, plan, layout, source, group, *first)?;
            Ok(())
        }
    }
}

/// Adds the edits of the text statement of the part at that index, and answers the index of the next one.
fn add_next_group(
    alloc: Global,
    new: &mut List<Edit>,
    plan: &Plan,
    layout: &Layout,
    source: EditedWords,
    parts: &[Part],
    from: usize,
) -> Result<usize, Memory>
    requires ready { IsReady layout.now }
    requires order { AreInOrder source.edits.now }
    requires within { from < length parts.now }
{
    match next_group(&parts[from..]) {
        None => Ok(parts.len()),
        Some((group, more)) => {
            add_group(alloc, new, plan, layout, source, group)?;
            Ok(parts.len() - more.len())
        }
    }
}

/// Adds the edits of the text statements that have these parts.
fn add_groups(
    alloc: Global,
    new: &mut List<Edit>,
    plan: &Plan,
    layout: &Layout,
    source: EditedWords,
    parts: &[Part],
) -> Result<(), Memory>
    requires ready { IsReady layout.now }
    requires order { AreInOrder source.edits.now }
{
    let mut from = 0;
    for _ in 0..parts.len() {
        if from < parts.len() {
            from = add_next_group(alloc, new, plan, layout, source, parts, from)?;
        }
    }
    Ok(())
}

/// Whether the area is for a move that crosses.
fn is_for_moves(area: GeneratedArea) -> bool {
    match area {
        GeneratedArea::Date => false,
        GeneratedArea::FullDate => false,
        GeneratedArea::Day => false,
        GeneratedArea::FullDay => false,
        GeneratedArea::Short(_) => true,
        GeneratedArea::Long(_) => true,
    }
}

fn any_is_for_moves(areas: &[GeneratedArea]) -> bool {
    let mut rest = areas;
    while let [area, more @ ..] = rest {
        if is_for_moves(*area) {
            return true;
        }
        rest = more;
    }
    false
}

/// Adds the edit that puts in all areas of a program where some are for moves that cross.
fn add_needed(
    alloc: Global,
    new: &mut List<Edit>,
    program: u32,
    words: &[Word],
    areas: &[GeneratedArea],
) -> Result<(), Memory> {
    if any_is_for_moves(areas) {
        add_areas(alloc, new, program, words, areas)?;
        Ok(())
    } else {
        Ok(())
    }
}

/// Adds the edits of the program of this number.
fn add_program(
    alloc: Global,
    new: &mut List<Edit>,
    plan: &Plan,
    number: u32,
    program: &Program,
    layout: &Layout,
    areas: &[GeneratedArea],
    edits: &[Edit],
) -> Result<(), Memory>
    requires ready { IsReady layout.now }
    requires order { AreInOrder edits.now }
{
    let words = program.words.items();
    let source = EditedWords {
        program: number,
        words,
        edits,
    };
    let parts = parts_of(alloc, program)?;
    add_needed(alloc, new, number, words, areas)?;
    add_groups(alloc, new, plan, layout, source, parts.as_slice())?;
    Ok(())
}

/// The areas of the program of this number.
fn areas_of<'a>(needed: &'a [List<GeneratedArea>], number: u32) -> &'a [GeneratedArea] {
    match needed.get(number as usize) {
        None => &[],
        Some(areas) => areas.items(),
    }
}

fn next_number(number: u32) -> Result<u32, Memory> {
    match number.checked_add(1) {
        None => Err(Memory),
        Some(next) => Ok(next),
    }
}

/// Adds the edits of programs, the first of which has this number, with their layouts.
fn add_programs(
    alloc: Global,
    new: &mut List<Edit>,
    plan: &Plan,
    first: u32,
    programs: &[Program],
    layouts: &[Layout],
    edits: &[Edit],
) -> Result<(), Memory>
    requires ready { AllByRecursion IsReady layouts.now }
    requires order { AreInOrder edits.now }
{
    let mut number = first;
    let mut programs_left = programs;
    let mut layouts_left = layouts;
    while let [program, more @ ..] = programs_left {
        match layouts_left {
            [] => return Ok(()),
            [layout, others @ ..] => {
                let areas = areas_of(plan.needed(), number);
                add_program(alloc, new, plan, number, program, layout, areas, edits)?;
                number = next_number(number)?;
                programs_left = more;
                layouts_left = others;
            }
        }
    }
    Ok(())
}

fn put_in_order(edits: &mut Vec<Edit>) -> Result<(), Memory>
    ensures sorted { IfOk result (λ _. AreInOrder edits.new.items) }
    ensures stable { IfOk result (λ _. IsStableByKey word_of place_cmp edits.old.items edits.new.items) }
{
    edits.sort_by_key(|edit| edit.word())?;
    Ok(())
}

/// The edits that write anew each MOVE between a year in a window and one with its century, and those that put in the areas that
/// these moves need, by program, then position. Where a text statement has one such MOVE all of it is written anew: its words
/// carry the edits made before. A program whose number 32 bits can't say is want of memory.
pub fn bridge(
    alloc: Global,
    portfolio: &Portfolio,
    plan: &Plan,
    edits: &Edits,
) -> Result<Edits, Memory>
    requires ready { AllByRecursion IsReady portfolio.now.layouts }
    requires order { AreInOrder edits.now.list }
    ensures ordered { IfOk result (λ edits. AreInOrder edits.list) }
{
    let programs = portfolio.programs.items();
    let layouts = portfolio.layouts.items();
    let mut new = List::new(alloc);
    add_programs(
        alloc,
        &mut new,
        plan,
        0,
        programs,
        layouts,
        edits.list.items(),
    )?;
    let mut list = new.into_vec();
    put_in_order(&mut list)?;
    Ok(Edits {
        list: List::from_vec(list),
    })
}

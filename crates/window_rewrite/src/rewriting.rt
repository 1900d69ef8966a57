ghost use Rattle.std.specs.Prelude.{◌≡◌, ◌<◌, ◌+◌, ◌++◌, length, map, IfOk, OnOk};
ghost use Rattle.std.specs.List.{AllByRecursion};
ghost use Rattle.std.specs.List.Sorted.{IsStableByKey};
ghost use Rattle.y2k_base.specs.Edits.{AreInOrder, word_of, place_cmp};
ghost use Rattle.data_layout.specs.Index.{IsReady};
ghost use Rattle.statement_places.specs.Parts.{seen};
ghost use Rattle.statement_words.specs.Groups.{groups};
ghost use Rattle.window_rewrite.specs.Old.{old_of};
ghost use Rattle.window_rewrite.specs.Windows as spec;

use crate::condition::add_test;
use crate::difference::add_computations;
use crate::site::Site;
use cobol_syntax::Program;
use convert_plan::Plan;
use data_layout::{Layout, Portfolio};
use statement_places::{Part, parts_of};
use statement_words::{EditedWords, next_group};
use std::alloc::Global;
use y2k_base::{Edit, Edits, List, Memory};
use year_index::YearIndex;

/// Adds the edits of a text statement or a condition, of which this is the first part.
fn add_part(
    alloc: Global,
    edits: &mut List<Edit>,
    site: Site,
    group: &[Part],
    first: Part,
) -> Result<(), Memory>
    requires ready { IsReady site.layout.now }
    requires ordered { AreInOrder site.source.edits.now }
    ensures { OnOk result (edits.new ≡ edits.old ++ spec.part_edits (old_of site.entry) (map seen group.now) (seen first.entry)) }
{
    match first {
        Part::Move { .. } => Ok(()),
        Part::Compute { at, end, .. } => {
            add_computations(alloc, edits, site, group, at, end)?;
            Ok(())
        }
        Part::Accept { .. } => Ok(()),
        Part::Test { of } => {
            add_test(alloc, edits, site, of)?;
            Ok(())
        }
    }
}

fn add_group(
    alloc: Global,
    edits: &mut List<Edit>,
    site: Site,
    group: &[Part],
) -> Result<(), Memory>
    requires ready { IsReady site.layout.now }
    requires ordered { AreInOrder site.source.edits.now }
    ensures { OnOk result (edits.new ≡ edits.old ++ spec.group_edits (old_of site.entry) (map seen group.now)) }
{
    match group {
        [] => Ok(()),
        [first, ..] => {
            add_part(alloc, edits, site, group, *first)?;
            Ok(())
        }
    }
}

/// Adds the edits of the text statement of the part at that index, and answers the index of the next one.
fn add_at(
    alloc: Global,
    edits: &mut List<Edit>,
    site: Site,
    parts: &[Part],
    from: usize,
) -> Result<usize, Memory>
    requires ready { IsReady site.layout.now }
    requires ordered { AreInOrder site.source.edits.now }
    requires within { from < length parts.now }
{
    match next_group(&parts[from..]) {
        None => Ok(parts.len()),
        Some((group, more)) => {
            add_group(alloc, edits, site, group)?;
            Ok(parts.len() - more.len())
        }
    }
}

/// Adds the edits of text statements.
fn add_groups(
    alloc: Global,
    edits: &mut List<Edit>,
    site: Site,
    parts: &[Part],
) -> Result<(), Memory>
    requires ready { IsReady site.layout.now }
    requires ordered { AreInOrder site.source.edits.now }
{
    let mut from = 0;
    for _ in 0..parts.len() {
        if from < parts.len() {
            from = add_at(alloc, edits, site, parts, from)?;
        }
    }
    Ok(())
}

/// Adds the edits of the program of that number.
fn add_program(
    alloc: Global,
    edits: &mut List<Edit>,
    index: &YearIndex,
    expanded: &[Edit],
    number: u32,
    program: &Program,
    layout: &Layout,
) -> Result<(), Memory>
    requires ready { IsReady layout.now }
    requires ordered { AreInOrder expanded.now }
{
    let source = EditedWords {
        program: number,
        words: program.words.items(),
        edits: expanded,
    };
    let site = Site {
        source,
        layout,
        index,
    };
    let parts = parts_of(alloc, program)?;
    add_groups(alloc, edits, site, parts.as_slice())?;
    Ok(())
}

fn next_number(number: u32) -> Result<u32, Memory>
    ensures { IfOk result (λ next. next ≡ number + 1) }
{
    match number.checked_add(1) {
        None => Err(Memory),
        Some(next) => Ok(next),
    }
}

/// Adds the edits of programs with their layouts, the first of which has this number.
fn add_programs(
    alloc: Global,
    edits: &mut List<Edit>,
    index: &YearIndex,
    expanded: &[Edit],
    first: u32,
    programs: &[Program],
    layouts: &[Layout],
) -> Result<(), Memory>
    requires ready { AllByRecursion IsReady layouts.now }
    requires ordered { AreInOrder expanded.now }
{
    let mut number = first;
    let mut programs_left = programs;
    let mut layouts_left = layouts;
    while let [program, more @ ..] = programs_left {
        match layouts_left {
            [] => return Ok(()),
            [layout, others @ ..] => {
                add_program(alloc, edits, index, expanded, number, program, layout)?;
                number = next_number(number)?;
                programs_left = more;
                layouts_left = others;
            }
        }
    }
    Ok(())
}

fn put_in_order(edits: &mut Vec<Edit>) -> Result<(), Memory>
    ensures sorted { IfOk result (λ _. AreInOrder edits.new.items) }
    ensures stable { IfOk result (λ _. IsStableByKey word_of place_cmp edits.old.items edits.new.items) }
{
    edits.sort_by_key(|edit| edit.word())?;
    Ok(())
}

fn in_order(edits: List<Edit>) -> Result<List<Edit>, Memory>
    ensures ordered { IfOk result AreInOrder }
    ensures stable { IfOk result (λ list. IsStableByKey word_of place_cmp edits list) }
{
    let mut edits = edits.into_vec();
    put_in_order(&mut edits)?;
    Ok(List::from_vec(edits))
}

/// The edits by which the orders and the differences of years that keep their two digits go by their windows, in order of
/// words. It asks for the plan that was made for the portfolio, and for the edits that give the other years their century:
/// the words that are written anew have what these made of them.
pub fn window(
    alloc: Global,
    portfolio: &Portfolio,
    plan: &Plan,
    expanded: &Edits,
) -> Result<Edits, Memory>
    requires ready { AllByRecursion IsReady portfolio.now.layouts }
    requires ordered { AreInOrder expanded.now.list }
    ensures ordered { IfOk result (λ edits. AreInOrder edits.list) }
{
    let mut edits = List::new(alloc);
    add_programs(
        alloc,
        &mut edits,
        plan.index(),
        expanded.list.items(),
        0,
        portfolio.programs.items(),
        portfolio.layouts.items(),
    )?;
    let list = in_order(edits)?;
    Ok(Edits { list })
}

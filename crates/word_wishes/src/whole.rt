ghost use Rattle.std.specs.Prelude.{◌≡◌, ◌+◌, ◌++◌, MatchOption, Some, None, slice_get, IfOk, OnOk};
ghost use Rattle.std.specs.List.{AllByRecursion};
ghost use Rattle.data_layout.specs.Index.{IsReady};
ghost use Rattle.word_wishes.specs.Whole as spec;

use crate::chosen::chosen_edits;
use crate::entries::add_entries;
use crate::literals::{add_compared, add_literal, add_range};
use crate::references::add_reference;
use crate::wish::ProgramWords;
use cobol_syntax::Program;
use data_layout::{Item, Layout, Portfolio};
use date_uses::{DateUse, UseForm, uses_of};
use literal_images::{Meeting, meeting_of};
use std::alloc::Global;
use y2k_base::{Edit, Edits, List, Memory};
use year_index::YearIndex;
use year_labels::Labelling;

/// Adds what a use in a program wants.
fn add_form(
    alloc: Global,
    wishes: &mut List<Edit>,
    index: &YearIndex,
    source: ProgramWords,
    items: &[Item],
    form: &UseForm,
) -> Result<(), Memory>
    ensures { OnOk result (wishes.new ≡ wishes.old ++ spec.form_wishes index.now source.entry.number source.entry.words.now items.now form.now) }
{
    match form {
        UseForm::Move {
            kind,
            from,
            to,
            bridge: _,
        } => {
            let meeting = meeting_of(*kind);
            add_literal(alloc, wishes, index, source, meeting, from, to)?;
            Ok(())
        }
        UseForm::Accept { .. } => Ok(()),
        UseForm::Compare {
            left,
            rel: _,
            right,
        } => {
            add_compared(alloc, wishes, index, source, left, right)?;
            Ok(())
        }
        UseForm::Class { .. } => Ok(()),
        UseForm::Sum { .. } => Ok(()),
        UseForm::Difference { .. } => Ok(()),
        UseForm::Value { item, of } => {
            let meeting = Meeting::Moved;
            add_literal(alloc, wishes, index, source, meeting, of, item)?;
            Ok(())
        }
        UseForm::Range { item, low, high } => {
            add_range(alloc, wishes, index, source, item, low, high)?;
            Ok(())
        }
        UseForm::Mention { of } => {
            add_reference(alloc, wishes, index, source, items, of)?;
            Ok(())
        }
    }
}

fn layout_at(layouts: &[Layout], number: u32) -> Option<&Layout>
    ensures { MatchOption result (slice_get layouts.now number ≡ None) (λ layout. slice_get layouts.now number ≡ Some layout.now) }
{
    layouts.get(number as usize)
}

fn program_at(programs: &[Program], number: u32) -> Option<&Program>
    ensures { MatchOption result (slice_get programs.now number ≡ None) (λ program. slice_get programs.now number ≡ Some program.now) }
{
    programs.get(number as usize)
}

/// Adds what a use in that program wants, which has its layout among these.
fn add_in_program(
    alloc: Global,
    wishes: &mut List<Edit>,
    index: &YearIndex,
    program: &Program,
    layouts: &[Layout],
    use_of: &DateUse,
) -> Result<(), Memory>
    ensures { OnOk result (wishes.new ≡ wishes.old ++ spec.in_layout index.now use_of.now program.now (slice_get layouts.now use_of.now.program)) }
{
    match layout_at(layouts, use_of.program) {
        None => Ok(()),
        Some(layout) => {
            let source = ProgramWords {
                number: use_of.program,
                words: program.words.items(),
            };
            let items = layout.items.items();
            add_form(alloc, wishes, index, source, items, &use_of.form)?;
            Ok(())
        }
    }
}

/// Adds what a use wants.
fn add_use(
    alloc: Global,
    wishes: &mut List<Edit>,
    index: &YearIndex,
    portfolio: &Portfolio,
    use_of: &DateUse,
) -> Result<(), Memory>
    ensures { OnOk result (wishes.new ≡ wishes.old ++ spec.use_wishes index.now portfolio.now use_of.now) }
{
    match program_at(portfolio.programs.items(), use_of.program) {
        None => Ok(()),
        Some(program) => {
            let layouts = portfolio.layouts.items();
            add_in_program(alloc, wishes, index, program, layouts, use_of)?;
            Ok(())
        }
    }
}

/// Adds what uses want.
fn add_uses(
    alloc: Global,
    wishes: &mut List<Edit>,
    index: &YearIndex,
    portfolio: &Portfolio,
    uses: &[DateUse],
) -> Result<(), Memory>
    ensures { OnOk result (wishes.new ≡ wishes.old ++ spec.uses_wishes index.now portfolio.now uses.now) }
{
    let mut rest = uses;
    while let [first, more @ ..] = rest {
        add_use(alloc, wishes, index, portfolio, first)?;
        rest = more;
    }
    Ok(())
}

fn next_number(number: u32) -> Result<u32, Memory>
    ensures { IfOk result (λ next. next ≡ number + 1) }
{
    match number.checked_add(1) {
        None => Err(Memory),
        Some(next) => Ok(next),
    }
}

/// Adds what the entries of programs want, the first of which has this number.
fn add_programs(
    alloc: Global,
    wishes: &mut List<Edit>,
    index: &YearIndex,
    first: u32,
    programs: &[Program],
    layouts: &[Layout],
) -> Result<(), Memory>
    requires { AllByRecursion IsReady layouts.now }
    ensures { OnOk result (wishes.new ≡ wishes.old ++ spec.programs_wishes index.now first programs.now layouts.now) }
{
    let mut number = first;
    let mut programs_left = programs;
    let mut layouts_left = layouts;
    while let [program, more @ ..] = programs_left {
        match layouts_left {
            [] => return Ok(()),
            [layout, others @ ..] => {
                add_entries(alloc, wishes, index, number, program, layout)?;
                number = next_number(number)?;
                programs_left = more;
                layouts_left = others;
            }
        }
    }
    Ok(())
}

/// All that is wished in a portfolio.
fn wishes_of(
    alloc: Global,
    portfolio: &Portfolio,
    index: &YearIndex,
    labelling: &Labelling,
) -> Result<List<Edit>, Memory>
    requires { AllByRecursion IsReady portfolio.now.layouts }
    ensures { IfOk result (λ wishes. wishes ≡ spec.wishes labelling.now index.now portfolio.now) }
{
    let programs = portfolio.programs.items();
    let layouts = portfolio.layouts.items();
    let mut wishes = List::new(alloc);
    add_programs(alloc, &mut wishes, index, 0, programs, layouts)?;
    let uses = uses_of(alloc, portfolio, labelling)?;
    add_uses(alloc, &mut wishes, index, portfolio, uses.items())?;
    Ok(wishes)
}

/// The edits of single words of a portfolio whose years are those of the index: new PICTUREs of items, new numbers of RECORD
/// CONTAINS and of references, and new literals. A literal that meets several operands with different words gets an edit for
/// each of the words, the one that it has included.
pub fn word_edits(
    alloc: Global,
    portfolio: &Portfolio,
    index: &YearIndex,
    labelling: &Labelling,
) -> Result<Edits, Memory>
    requires { AllByRecursion IsReady portfolio.now.layouts }
    ensures { IfOk result (λ edits. spec.AreWordEdits labelling.now index.now portfolio.now edits.list) }
{
    let wishes = wishes_of(alloc, portfolio, index, labelling)?;
    let list = chosen_edits(alloc, portfolio.programs.items(), wishes)?;
    Ok(Edits { list })
}

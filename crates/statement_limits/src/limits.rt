ghost use Rattle.std.specs.Prelude.{◌≡◌, ◌++◌, OnOk, slice_get, MatchOption, Some, None};
ghost use Rattle.statement_limits.specs.Limits as spec;

use crate::cuts::add_split_limits;
use crate::numerals::add_move_limits;
use crate::sums::add_sum_limits;
use cobol_syntax::Program;
use data_layout::{Item, Layout};
use date_uses::{DateUse, UseForm};
use plan_limits::Limit;
use std::alloc::Global;
use y2k_base::{List, Memory, Origin, Word};
use year_index::YearIndex;
use year_labels::Labelling;

fn add_form_limits(
    alloc: Global,
    limits: &mut List<Limit>,
    words: &[Word],
    items: &[Item],
    labelling: &Labelling,
    index: &YearIndex,
    at: Origin,
    form: &UseForm,
) -> Result<(), Memory>
    ensures { OnOk result (limits.new ≡ limits.old ++ spec.form_limits words.now items.now labelling.now index.now at form.now) }
{
    match form {
        UseForm::Move {
            kind,
            from,
            to,
            bridge: _,
        } => {
            add_move_limits(limits, index, words, items, at, *kind, from, to)?;
            Ok(())
        }
        UseForm::Accept { to: _, from: _ } => Ok(()),
        UseForm::Compare {
            left: _,
            rel: _,
            right: _,
        } => Ok(()),
        UseForm::Class { of: _, numeric: _ } => Ok(()),
        UseForm::Sum {
            to,
            left,
            right,
            size: _,
        } => {
            add_sum_limits(alloc, limits, labelling, words, at, to, left, right)?;
            Ok(())
        }
        UseForm::Difference {
            to,
            left,
            right,
            size: _,
        } => {
            add_sum_limits(alloc, limits, labelling, words, at, to, left, right)?;
            Ok(())
        }
        UseForm::Value { item: _, of: _ } => Ok(()),
        UseForm::Range {
            item: _,
            low: _,
            high: _,
        } => Ok(()),
        UseForm::Mention { of } => {
            add_split_limits(limits, index, at, of)?;
            Ok(())
        }
    }
}

fn program_at<'a>(programs: &'a [Program], number: u32) -> Option<&'a Program>
    ensures { MatchOption result (slice_get programs.now number ≡ None) (λ program. slice_get programs.now number ≡ Some program.now) }
{
    programs.get(number as usize)
}

fn layout_at<'a>(layouts: &'a [Layout], number: u32) -> Option<&'a Layout>
    ensures { MatchOption result (slice_get layouts.now number ≡ None) (λ layout. slice_get layouts.now number ≡ Some layout.now) }
{
    layouts.get(number as usize)
}

fn add_limits_with(
    alloc: Global,
    limits: &mut List<Limit>,
    program: &Program,
    layout: &Layout,
    labelling: &Labelling,
    index: &YearIndex,
    one: &DateUse,
) -> Result<(), Memory>
    ensures { OnOk result (limits.new ≡ limits.old ++ spec.limits_among (Some program.now) (Some layout.now) labelling.now index.now one.now) }
{
    let words = program.words.items();
    let items = layout.items.items();
    add_form_limits(
        alloc, limits, words, items, labelling, index, one.at, &one.form,
    )?;
    Ok(())
}

/// Adds the limits of a use in a program, if there is a layout of its number.
fn add_program_limits(
    alloc: Global,
    limits: &mut List<Limit>,
    program: &Program,
    layouts: &[Layout],
    labelling: &Labelling,
    index: &YearIndex,
    one: &DateUse,
) -> Result<(), Memory>
    ensures { OnOk result (limits.new ≡ limits.old ++ spec.limits_among (Some program.now) (slice_get layouts.now one.now.program) labelling.now index.now one.now) }
{
    match layout_at(layouts, one.program) {
        None => Ok(()),
        Some(layout) => {
            add_limits_with(alloc, limits, program, layout, labelling, index, one)?;
            Ok(())
        }
    }
}

fn add_use_limits(
    alloc: Global,
    limits: &mut List<Limit>,
    programs: &[Program],
    layouts: &[Layout],
    labelling: &Labelling,
    index: &YearIndex,
    one: &DateUse,
) -> Result<(), Memory>
    ensures { OnOk result (limits.new ≡ limits.old ++ spec.use_limits programs.now layouts.now labelling.now index.now one.now) }
{
    match program_at(programs, one.program) {
        None => Ok(()),
        Some(program) => {
            add_program_limits(alloc, limits, program, layouts, labelling, index, one)?;
            Ok(())
        }
    }
}

/// Adds the limits that stand at statements: each reference with bounds written as numbers that parts a year, each text that
/// is used as a number and has a byte of a packed year or would pass 18 digits, and of each sum or difference with a year the
/// operands that are neither a year nor plain.
pub fn add_statement_limits(
    alloc: Global,
    limits: &mut List<Limit>,
    programs: &[Program],
    layouts: &[Layout],
    labelling: &Labelling,
    index: &YearIndex,
    uses: &[DateUse],
) -> Result<(), Memory>
    ensures { OnOk result (limits.new ≡ limits.old ++ spec.statement_limits programs.now layouts.now labelling.now index.now uses.now) }
{
    let mut rest = uses;
    while let [one, more @ ..] = rest {
        add_use_limits(alloc, limits, programs, layouts, labelling, index, one)?;
        rest = more;
    }
    Ok(())
}

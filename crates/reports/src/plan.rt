ghost use Rattle.std.specs.Prelude.{◌≡◌, ◌++◌, IfOk, OnOk, drop, slice_get};
ghost use Rattle.std.specs.List.{flat_map};
ghost use Rattle.std.specs.Option.{option_map};
ghost use Rattle.picture_images.specs.Images.{picture_image};
ghost use Rattle.reports.specs.Plans as spec;
ghost use Rattle.reports.specs.Rows.{IsBetweenRows, row_text, rows_text, written};

use crate::items::{ItemStart, elementary_items, picture_from, push_header, push_item};
use crate::rows::Rows;
use cobol_syntax::Program;
use convert_plan::Plan;
use data_layout::{Item, Layout, Portfolio};
use picture_images::{picture_image, print_runs};
use std::alloc::Global;
use window_modes::YearMode;
use y2k_base::{Bytes, List, Memory, Text, Texts};
use year_index::YearIndex;

/// The report of a plan, as CSV: the header `program,item,at,mode,old,new`, and a row for each elementary item that has a
/// year, in order of places: its name, or FILLER, the place of its level number, whether all its years stay in windows or
/// one gets its century, its PICTURE word, and the one that stands there after conversion. A reader of CSV finds exactly
/// these rows in the text. The form of the rows is this project's choice.
pub fn plan_rows(
    alloc: Global,
    texts: &Texts,
    portfolio: &Portfolio,
    plan: &Plan,
) -> Result<Bytes, Memory>
    ensures { IfOk result (spec.IsPlanReport texts.now portfolio.now plan.now.index) }
{
    let text = report(alloc, texts, portfolio, plan.index())?;
    Ok(text)
}

fn report(
    alloc: Global,
    texts: &Texts,
    portfolio: &Portfolio,
    index: &YearIndex,
) -> Result<Bytes, Memory>
    ensures { IfOk result (spec.IsPlanReport texts.now portfolio.now index.now) }
{
    let starts = elementary_items(alloc, portfolio.layouts.items())?;
    let text = table_text(alloc, texts, portfolio, index, starts.as_slice())?;
    Ok(text)
}

/// The text of the header and of the rows of items in this order.
fn table_text(
    alloc: Global,
    texts: &Texts,
    portfolio: &Portfolio,
    index: &YearIndex,
    starts: &[ItemStart],
) -> Result<Bytes, Memory>
    ensures { IfOk result (λ text. text ≡ rows_text (spec.plan_table texts.now.list portfolio.now index.now starts.now)) }
{
    let mut rows = Rows::new(alloc);
    push_header(&mut rows)?;
    push_starts(
        alloc,
        &mut rows,
        texts.list.items(),
        portfolio,
        index,
        starts,
    )?;
    let text = rows.into_bytes()?;
    Ok(text)
}

fn push_starts(
    alloc: Global,
    rows: &mut Rows,
    texts: &[Text],
    portfolio: &Portfolio,
    index: &YearIndex,
    starts: &[ItemStart],
) -> Result<(), Memory>
    requires between { IsBetweenRows rows.old }
    ensures between { OnOk result (IsBetweenRows rows.new) }
    ensures rows { OnOk result (written rows.new ≡ written rows.old ++ rows_text (flat_map (spec.rows_at texts.now portfolio.now index.now) starts.now)) }
{
    for i in 0..starts.len() {
        push_start(alloc, rows, texts, portfolio, index, starts[i])?;
    }
    Ok(())
}

fn push_start(
    alloc: Global,
    rows: &mut Rows,
    texts: &[Text],
    portfolio: &Portfolio,
    index: &YearIndex,
    start: ItemStart,
) -> Result<(), Memory>
    requires between { IsBetweenRows rows.old }
    ensures between { OnOk result (IsBetweenRows rows.new) }
    ensures rows { OnOk result (written rows.new ≡ written rows.old ++ rows_text (spec.rows_at texts.now portfolio.now index.now start)) }
{
    let programs = portfolio.programs.items();
    let layouts = portfolio.layouts.items();
    match programs.get(start.program) {
        Some(program) => match item_at(layouts, start) {
            Some(item) => push_changed(alloc, rows, texts, program, index, item),
            None => Ok(()),
        },
        None => Ok(()),
    }
}

fn item_at(layouts: &[Layout], start: ItemStart) -> Option<&Item>
    ensures { option_map (λ item. item.now) result ≡ spec.item_at layouts.now start }
{
    match layouts.get(start.program) {
        Some(layout) => layout.items.items().get(start.item),
        None => None,
    }
}

/// Writes the row of an item, if it has a year.
fn push_changed(
    alloc: Global,
    rows: &mut Rows,
    texts: &[Text],
    program: &Program,
    index: &YearIndex,
    item: &Item,
) -> Result<(), Memory>
    requires between { IsBetweenRows rows.old }
    ensures between { OnOk result (IsBetweenRows rows.new) }
    ensures rows { OnOk result (written rows.new ≡ written rows.old ++ rows_text (spec.rows_of texts.now program.now index.now item.now)) }
{
    let years = index.years_in(item.span);
    if years.is_empty() {
        return Ok(());
    }
    let windowed = are_windowed(years);
    push_row(alloc, rows, texts, program, index, item, windowed)?;
    Ok(())
}

/// Writes the row of an item whose years all stay in windows, or not all.
fn push_row(
    alloc: Global,
    rows: &mut Rows,
    texts: &[Text],
    program: &Program,
    index: &YearIndex,
    item: &Item,
    windowed: bool,
) -> Result<(), Memory>
    requires between { IsBetweenRows rows.old }
    ensures between { OnOk result (IsBetweenRows rows.new) }
    ensures row { OnOk result (written rows.new ≡ written rows.old ++ row_text (spec.row_by texts.now program.now index.now item.now windowed)) }
{
    if windowed {
        push_windowed(alloc, rows, texts, program, item)
    } else {
        push_expanded(alloc, rows, texts, program, index, item)
    }
}

fn push_windowed(
    alloc: Global,
    rows: &mut Rows,
    texts: &[Text],
    program: &Program,
    item: &Item,
) -> Result<(), Memory>
    requires between { IsBetweenRows rows.old }
    ensures between { OnOk result (IsBetweenRows rows.new) }
    ensures row { OnOk result (written rows.new ≡ written rows.old ++ row_text (spec.windowed_row texts.now program.now item.now)) }
{
    let old = picture_from(program.words.items(), item.entry_at);
    push_item(alloc, rows, texts, program, item, "windowed", old)
}

fn push_expanded(
    alloc: Global,
    rows: &mut Rows,
    texts: &[Text],
    program: &Program,
    index: &YearIndex,
    item: &Item,
) -> Result<(), Memory>
    requires between { IsBetweenRows rows.old }
    ensures between { OnOk result (IsBetweenRows rows.new) }
    ensures row { OnOk result (written rows.new ≡ written rows.old ++ row_text (spec.expanded_row texts.now program.now index.now item.now)) }
{
    let new = new_picture(alloc, item, index)?;
    push_item(alloc, rows, texts, program, item, "expanded", new.items())
}

/// The PICTURE of an item after conversion, as it is written.
fn new_picture(alloc: Global, item: &Item, index: &YearIndex) -> Result<Bytes, Memory>
    ensures { IfOk result (λ text. text ≡ spec.picture_text (picture_image index.now item.now)) }
{
    match picture_image(alloc, item, index)? {
        Some(picture) => print_runs(alloc, picture.runs.items()),
        None => Ok(List::new(alloc)),
    }
}

fn are_windowed(years: &[YearMode]) -> bool
    ensures { result ≡ spec.are_windowed years.now }
{
    let mut rest = years;
    while let [year, more @ ..] = rest {
        if year.pivot.is_none() {
            return false;
        }
        rest = more;
    }
    true
}

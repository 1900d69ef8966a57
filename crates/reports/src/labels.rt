ghost use Rattle.std.specs.Prelude.{◌≡◌, ◌++◌, map, decimal, IfOk, OnOk, string_bytes};
ghost use Rattle.reports.specs.Labels as spec;
ghost use Rattle.reports.specs.Rows.{IsBetweenRows, ReadsAs, row_text, rows_text, written};

use crate::names::{AreaName, area_names, name_at};
use crate::rows::Rows;
use data_layout::Portfolio;
use std::alloc::{AllocError, Global};
use y2k_base::{Bytes, Memory};
use year_labels::{Fact, Label, Labelling};

/// The report of a labelling, as CSV: the header `program,area,offset,label`, and a row for each fact in order of
/// areas, of bytes (from 0) and of labels. `T` and `U` are the tens and the units digit of a year, `P` is a byte that
/// may hold no year digit, and `Kn.y.k` is byte k of a packed number of n digits whose year has its units digit at
/// power y of ten. The area of a number is that of this index among the areas of all programs, as where programs are
/// laid out one after the other; one without a name is FILLER. A reader of CSV finds exactly these rows in the text. The
/// form of the rows is this project's choice.
#[tactic(auto, using(crate::proofs::Again::labels_again))]
pub fn label_rows(
    alloc: Global,
    portfolio: &Portfolio,
    labelling: &Labelling,
) -> Result<Bytes, Memory>
    ensures text { IfOk result (λ text. text ≡ spec.label_report portfolio.now labelling.now) }
    ensures again { IfOk result (λ text. ReadsAs text (spec.label_table portfolio.now labelling.now)) }
{
    let text = report(alloc, portfolio, labelling)?;
    Ok(text)
}

fn report(alloc: Global, portfolio: &Portfolio, labelling: &Labelling) -> Result<Bytes, Memory>
    ensures { IfOk result (λ text. text ≡ spec.label_report portfolio.now labelling.now) }
{
    let names = area_names(alloc, portfolio)?;
    let mut rows = Rows::new(alloc);
    push_header(&mut rows)?;
    push_labels(alloc, &mut rows, names.items(), labelling)?;
    let text = rows.into_bytes()?;
    Ok(text)
}

fn push_header(rows: &mut Rows) -> Result<(), Memory>
    requires between { IsBetweenRows rows.old }
    ensures between { OnOk result (IsBetweenRows rows.new) }
    ensures row { OnOk result (written rows.new ≡ written rows.old ++ row_text spec.label_header) }
{
    rows.push(&[
        "program".as_bytes(),
        "area".as_bytes(),
        "offset".as_bytes(),
        "label".as_bytes(),
    ])
}

fn push_labels(
    alloc: Global,
    rows: &mut Rows,
    names: &[AreaName],
    labelling: &Labelling,
) -> Result<(), Memory>
    requires between { IsBetweenRows rows.old }
    ensures between { OnOk result (IsBetweenRows rows.new) }
    ensures rows { OnOk result (written rows.new ≡ written rows.old ++ rows_text (map (spec.label_row names.now) labelling.now)) }
{
    for i in 0..labelling.count() {
        match labelling.at(i) {
            Some(fact) => push_label(alloc, rows, names, fact)?,
            None => return Ok(()),
        }
    }
    Ok(())
}

fn push_label(alloc: Global, rows: &mut Rows, names: &[AreaName], fact: Fact) -> Result<(), Memory>
    requires between { IsBetweenRows rows.old }
    ensures between { OnOk result (IsBetweenRows rows.new) }
    ensures row { OnOk result (written rows.new ≡ written rows.old ++ row_text (spec.label_row names.now fact)) }
{
    let (program, area) = name_at(names, fact.place.area);
    let offset = decimal_text(alloc, fact.place.offset as usize)?;
    let label = label_text(alloc, fact.label)?;
    rows.push(&[program, area, offset.as_bytes(), label.as_bytes()])
}

pub(crate) fn decimal_text(alloc: Global, number: usize) -> Result<String, AllocError>
    ensures { IfOk result (λ text. string_bytes text ≡ decimal number) }
{
    format!(in alloc; "{number}")
}

pub(crate) fn label_text(alloc: Global, label: Label) -> Result<String, AllocError>
    ensures { IfOk result (λ text. string_bytes text ≡ spec.label_text label) }
{
    match label {
        Label::Tens => String::from_str(alloc, "T"),
        Label::Units => String::from_str(alloc, "U"),
        Label::Plain => String::from_str(alloc, "P"),
        Label::Packed { digits, unit, byte } => format!(in alloc; "K{digits}.{unit}.{byte}"),
    }
}

ghost use Rattle.std.specs.Prelude.{◌≡◌, ◌+◌, ◌↔◌, ◌≤◌, ◌∷◌, [], ◌++◌, IfOk, OnOk, IfSome, IfNone, IsTrue, Contains};
ghost use Rattle.year_labels.specs.Facts.{IsClean};
ghost use Rattle.year_pairs.specs.declared.year.Year.{Year as AnyYear};
ghost use Rattle.year_pairs.specs.declared.year.YearKind.{YearKind as AnyKind};
ghost use Rattle.year_pairs.specs.Years.{AreInAreas, AreYearsOf, AreYearsUpTo, IsAdded, IsYear, byte_of, label_at};

use crate::year::place_after;
use crate::{Year, YearKind};
use std::alloc::Global;
use y2k_base::{List, Memory};
use year_labels::{Fact, Label, Labelling};

/// The years of a labelling, in order of places.
pub fn find_years(alloc: Global, labelling: &Labelling) -> Result<List<Year>, Memory>
    requires clean { IsClean labelling.now }
    requires placed { AreInAreas labelling.now }
    ensures { IfOk result (AreYearsOf labelling.now) }
{
    let mut years = List::new(alloc);
    for index in 0..labelling.count() {
        add_year_at(labelling, index, &mut years)?;
    }
    Ok(years)
}

/// Adds the year that begins at the fact of that index, if one does.
fn add_year_at(labelling: &Labelling, index: usize, years: &mut List<Year>) -> Result<(), Memory>
    requires clean { IsClean labelling.now }
    requires placed { AreInAreas labelling.now }
    requires before { AreYearsUpTo labelling.now index years.old }
    ensures { OnOk result (AreYearsUpTo labelling.now (index + 1) years.new) }
{
    match labelling.at(index) {
        Some(fact) => {
            add_year(labelling, fact, years)?;
            Ok(())
        }
        None => Ok(()),
    }
}

fn add_year(labelling: &Labelling, fact: Fact, years: &mut List<Year>) -> Result<(), Memory>
    requires clean { IsClean labelling.now }
    requires placed { AreInAreas labelling.now }
    requires there { Contains labelling.now fact }
    ensures { OnOk result (IsAdded labelling.now fact years.old years.new) }
{
    match year_from(labelling, fact) {
        Some(year) => {
            years.push(year)?;
            Ok(())
        }
        None => Ok(()),
    }
}

/// The year whose first byte this is.
fn year_from(labelling: &Labelling, fact: Fact) -> Option<Year>
    requires placed { AreInAreas labelling.now }
    requires there { Contains labelling.now fact }
    ensures found { IfSome result (λ year. IsYear labelling.now year × (fact ≡ byte_of year 0)) }
    ensures none { IfNone result ((year : AnyYear) → IsYear labelling.now year → fact ≡ byte_of year 0 → ⊥) }
{
    match kind_begun(fact.label) {
        Some(kind) => {
            let place = fact.place;
            let year = Year { place, kind };
            if is_whole(labelling, year) {
                Some(year)
            } else {
                None
            }
        }
        None => None,
    }
}

/// The kind of a year whose first byte bears the label.
fn kind_begun(label: Label) -> Option<YearKind>
    ensures found { IfSome result (λ kind. label ≡ label_at kind 0) }
    ensures none { IfNone result ((kind : AnyKind) → label ≡ label_at kind 0 → ⊥) }
{
    match label {
        Label::Tens => Some(YearKind::Pair),
        Label::Packed {
            digits,
            unit,
            byte: 0,
        } => Some(YearKind::Packed { digits, unit }),
        _ => None,
    }
}

/// Whether each byte of the year bears its label.
fn is_whole(labelling: &Labelling, year: Year) -> bool
    requires { year.place.offset ≤ 65535 }
    ensures { IsTrue result ↔ IsYear labelling.now year }
{
    for index in 0..year.kind.width() {
        if !bears(labelling, year, index) {
            return false;
        }
    }
    true
}

/// Whether the byte of that index of the year bears its label.
fn bears(labelling: &Labelling, year: Year, index: u8) -> bool
    requires { year.place.offset ≤ 65535 }
    ensures { IsTrue result ↔ Contains labelling.now (byte_of year index) }
{
    let place = place_after(year.place, index);
    labelling.has(place, year.kind.label_at(index))
}

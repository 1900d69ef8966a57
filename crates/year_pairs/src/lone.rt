ghost use Rattle.std.specs.Prelude.{◌≡◌, ◌⊎◌, ◌+◌, ◌-◌, ◌/◌, ◌<◌, ◌≤◌, ◌↔◌, [], IfOk, OnOk, IsTrue, Contains};
ghost use Rattle.year_labels.specs.Facts.{IsClean, fact_of};
ghost use Rattle.year_labels.specs.declared.label.Label.TheVariants as labels;
ghost use Rattle.year_pairs.specs.Years.{AreInAreas, place_after, place_before};
ghost use Rattle.year_pairs.specs.Lone.{AreLoneBytesOf, AreLoneUpTo, AreCovered, IsAddedAlone, HasNext, HasFront, HasNeighbours};

use crate::year::place_after;
use std::alloc::Global;
use y2k_base::{BytePlace, List, Memory};
use year_labels::{Fact, Label, Labelling};

/// The bytes with the label of a year beside which a byte of that year is missing, in order of places. Where there is none,
/// each byte with such a label is one of a whole year.
pub fn find_lone_bytes(alloc: Global, labelling: &Labelling) -> Result<List<Fact>, Memory>
    requires { AreInAreas labelling.now }
    ensures lone { IfOk result (AreLoneBytesOf labelling.now) }
    ensures covered { IfOk result (λ lone. lone ≡ [] → AreCovered labelling.now) }
{
    let mut lone = List::new(alloc);
    for index in 0..labelling.count() {
        add_lone_at(labelling, index, &mut lone)?;
    }
    Ok(lone)
}

/// Adds the fact of that index, if a neighbour is missing.
fn add_lone_at(labelling: &Labelling, index: usize, lone: &mut List<Fact>) -> Result<(), Memory>
    requires placed { AreInAreas labelling.now }
    requires before { AreLoneUpTo labelling.now index lone.old }
    ensures { OnOk result (AreLoneUpTo labelling.now (index + 1) lone.new) }
{
    match labelling.at(index) {
        Some(fact) => {
            add_lone(labelling, fact, lone)?;
            Ok(())
        }
        None => Ok(()),
    }
}

fn add_lone(labelling: &Labelling, fact: Fact, lone: &mut List<Fact>) -> Result<(), Memory>
    requires placed { AreInAreas labelling.now }
    requires there { Contains labelling.now fact }
    ensures { OnOk result (IsAddedAlone labelling.now fact lone.old lone.new) }
{
    if has_neighbours(labelling, fact) {
        Ok(())
    } else {
        lone.push(fact)?;
        Ok(())
    }
}

fn has_neighbours(labelling: &Labelling, fact: Fact) -> bool
    requires { fact.place.offset ≤ 65535 }
    ensures { IsTrue result ↔ HasNeighbours labelling.now fact }
{
    has_next(labelling, fact) && has_front(labelling, fact)
}

/// Whether the byte behind belongs to the year, where the year goes on.
fn has_next(labelling: &Labelling, fact: Fact) -> bool
    requires { fact.place.offset ≤ 65535 }
    ensures { IsTrue result ↔ HasNext labelling.now fact.place fact.label }
{
    match fact.label {
        Label::Tens => labelling.has(place_after(fact.place, 1), Label::Units),
        Label::Units => true,
        Label::Plain => true,
        Label::Packed { digits, unit, byte } => {
            goes_on(labelling, fact.place, digits, unit, byte)
        }
    }
}

/// Whether the byte behind that byte of a packed number is its next one, if it has one.
fn goes_on(labelling: &Labelling, place: BytePlace, digits: u8, unit: u8, byte: u8) -> bool
    requires { place.offset ≤ 65535 }
    ensures { IsTrue result ↔ HasNext labelling.now place (labels.Packed digits unit byte) }
{
    let last = digits / 2;
    if byte < last {
        let byte = byte + 1;
        let next = Label::Packed { digits, unit, byte };
        labelling.has(place_after(place, 1), next)
    } else {
        byte == last
    }
}

/// Whether the byte in front belongs to the year, unless the year begins here.
fn has_front(labelling: &Labelling, fact: Fact) -> bool
    ensures { IsTrue result ↔ HasFront labelling.now fact.place fact.label }
{
    match fact.label {
        Label::Tens => true,
        Label::Units => stands_before(labelling, fact.place, Label::Tens),
        Label::Plain => true,
        Label::Packed { digits, unit, byte } => {
            comes_from(labelling, fact.place, digits, unit, byte)
        }
    }
}

/// Whether the byte in front of that byte of a packed number is the one before it, if there is one.
fn comes_from(labelling: &Labelling, place: BytePlace, digits: u8, unit: u8, byte: u8) -> bool
    ensures { IsTrue result ↔ HasFront labelling.now place (labels.Packed digits unit byte) }
{
    if byte == 0 {
        true
    } else {
        let byte = byte - 1;
        stands_before(labelling, place, Label::Packed { digits, unit, byte })
    }
}

/// Whether the byte in front bears the label.
fn stands_before(labelling: &Labelling, place: BytePlace, label: Label) -> bool
    ensures { IsTrue result ↔ ((1 ≤ place.offset) × Contains labelling.now (fact_of (place_before place) label)) }
{
    if place.offset == 0 {
        return false;
    }
    let before = BytePlace {
        area: place.area,
        offset: place.offset - 1,
    };
    labelling.has(before, label)
}

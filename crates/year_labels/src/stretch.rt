ghost use Rattle.std.specs.Prelude.{◌≡◌, ◌↔◌, ◌+◌, ◌++◌, ◌∷◌, [], List as Items, IsTrue, IfOk, OnOk, Contains, slice_get, Some};
ghost use Rattle.std.specs.declared.cmp.Ordering.TheVariants.{Less};
ghost use Rattle.year_labels.specs.declared.label.Fact.{Fact as AnyFact};
ghost use Rattle.year_labels.specs.Order.{fact_cmp, IsAscending};
ghost use Rattle.year_labels.specs.Stretches.{AreStretchesOf, AreRead, IsContinuedBy, byte_of as the_byte_of};

use crate::{Fact, Label};
use std::alloc::Global;
use y2k_base::{AreaId, BytePlace, List, Memory};

/// Consecutive bytes of an area that bear the same labels: `length` of them, from offset `first`. The labels are in
/// the order of a labelling.
#[derive(Debug)]
pub struct Stretch {
    pub area: AreaId,
    pub first: u32,
    pub length: u32,
    pub labels: List<Label>,
}

impl Drop for Stretch {
    fn drop(self) {
        let Stretch {
            area: _,
            first: _,
            length: _,
            labels: _labels,
        } = self;
    }
}

impl Stretch {
    /// The stretch with one more label.
    fn with_label(self, label: Label) -> Result<Stretch, Memory>
        ensures { IfOk result (λ more. more ≡ record { area = self.area; first = self.first; length = self.length; labels = self.labels ++ label ∷ [] }) }
    {
        let Stretch {
            area,
            first,
            length,
            mut labels,
        } = self;
        labels.push(label)?;
        Ok(Stretch {
            area,
            first,
            length,
            labels,
        })
    }

    /// The stretch and the byte behind it. All the bytes of an area whose offsets have 32 bits are too many.
    fn longer(self) -> Result<Stretch, Memory>
        ensures { IfOk result (λ more. more ≡ record { area = self.area; first = self.first; length = self.length + 1; labels = self.labels }) }
    {
        let Stretch {
            area,
            first,
            length,
            labels,
        } = self;
        match length.checked_add(1) {
            Some(length) => Ok(Stretch {
                area,
                first,
                length,
                labels,
            }),
            None => Err(Memory),
        }
    }
}

/// The longest stretches of the facts, in order of places.
pub(crate) fn stretches_of(alloc: Global, facts: &[Fact]) -> Result<Vec<Stretch>, Memory>
    requires { IsAscending facts.now }
    ensures { IfOk result (λ stretches. AreStretchesOf facts.now stretches.items) }
{
    match facts.first() {
        Some(first) => read_from(alloc, *first, facts),
        None => Ok(Vec::new(alloc)),
    }
}

/// The stretches of facts of which this is the first.
fn read_from(alloc: Global, first: Fact, facts: &[Fact]) -> Result<Vec<Stretch>, Memory>
    requires ordered { IsAscending facts.now }
    requires first { slice_get facts.now 0 ≡ Some first }
    ensures { IfOk result (λ stretches. AreStretchesOf facts.now stretches.items) }
{
    let mut stretches = Vec::new(alloc);
    let mut byte = byte_of(alloc, first)?;
    for i in 1..facts.len() {
        byte = read_fact(alloc, &mut stretches, byte, facts[i])?;
    }
    add_byte(&mut stretches, byte)?;
    Ok(stretches)
}

/// Reads the next fact: of the byte that is being read, or of a later one.
fn read_fact(
    alloc: Global,
    stretches: &mut Vec<Stretch>,
    byte: Stretch,
    fact: Fact,
) -> Result<Stretch, Memory>
    ensures { IfOk result (λ next. (facts : Items AnyFact) → AreRead facts stretches.old.items byte → ((f : AnyFact) → Contains facts f → fact_cmp f fact ≡ Less) → AreRead (facts ++ fact ∷ []) stretches.new.items next) }
{
    if is_at(&byte, fact.place) {
        let next = byte.with_label(fact.label)?;
        Ok(next)
    } else {
        add_byte(stretches, byte)?;
        let next = byte_of(alloc, fact)?;
        Ok(next)
    }
}

fn is_at(byte: &Stretch, place: BytePlace) -> bool
    ensures { IsTrue result ↔ ((byte.now.area ≡ place.area) × (byte.now.first ≡ place.offset)) }
{
    byte.area == place.area && byte.first == place.offset
}

/// A stretch of one byte that bears one label.
fn byte_of(alloc: Global, fact: Fact) -> Result<Stretch, Memory>
    ensures { IfOk result (λ byte. byte ≡ the_byte_of fact) }
{
    let mut labels = List::new(alloc);
    labels.push(fact.label)?;
    Ok(Stretch {
        area: fact.place.area,
        first: fact.place.offset,
        length: 1,
        labels,
    })
}

/// Adds a byte that has been read behind the stretches before it.
fn add_byte(stretches: &mut Vec<Stretch>, byte: Stretch) -> Result<(), Memory>
    ensures { OnOk result ((facts : Items AnyFact) → AreRead facts stretches.old.items byte → AreStretchesOf facts stretches.new.items) }
{
    match stretches.pop() {
        Some(last) => {
            join_byte(stretches, last, byte)?;
            Ok(())
        }
        None => {
            stretches.push(byte)?;
            Ok(())
        }
    }
}

/// Adds the last stretch and the byte behind it, as one stretch where they may be one.
fn join_byte(stretches: &mut Vec<Stretch>, last: Stretch, byte: Stretch) -> Result<(), Memory>
    ensures { OnOk result ((facts : Items AnyFact) → AreRead facts (stretches.old.items ++ last ∷ []) byte → AreStretchesOf facts stretches.new.items) }
{
    if is_continued_by(&last, &byte) {
        let longer = last.longer()?;
        stretches.push(longer)?;
        Ok(())
    } else {
        stretches.push(last)?;
        stretches.push(byte)?;
        Ok(())
    }
}

fn is_continued_by(last: &Stretch, byte: &Stretch) -> bool
    ensures { IsTrue result ↔ IsContinuedBy last.now byte.now }
{
    touches(last, byte) && are_same(last.labels.items(), byte.labels.items())
}

fn touches(last: &Stretch, byte: &Stretch) -> bool
    ensures { IsTrue result ↔ ((last.now.area ≡ byte.now.area) × (last.now.first + last.now.length ≡ byte.now.first)) }
{
    last.area == byte.area
        && u64::from(last.first) + u64::from(last.length) == u64::from(byte.first)
}

fn are_same(first: &[Label], second: &[Label]) -> bool
    ensures { IsTrue result ↔ (first.now ≡ second.now) }
{
    if first.len() != second.len() {
        return false;
    }
    for i in 0..first.len() {
        if first[i] != second[i] {
            return false;
        }
    }
    true
}

ghost use Rattle.std.specs.Prelude.{◌≡◌, ◌↔◌, IsTrue, IfOk, Contains, length, slice_get, List as Items, Some, None, MatchOption};
ghost use Rattle.year_labels.specs.declared.stretch.Stretch.{Stretch as AnyStretch};
ghost use Rattle.year_labels.specs.Stretches.{AreStretchesOf};
ghost use Rattle.year_labels.specs.Order.{IsAscending};
ghost use Rattle.year_labels.specs.Facts.{IsClean, fact_of};

use crate::order::{insert_key_of, is_there, keys_of};
use crate::stretch::stretches_of;
use crate::{Fact, Label, Stretch};
use std::alloc::Global;
use std::collections::BTreeSet;
use std::marker::Model;
use y2k_base::{BytePlace, List, Memory};

/// Facts, each once, ordered by area, by offset, and by label: `Tens`, `Units`, `Plain`, and `Packed` by
/// digits, unit and byte.
#[derive(Debug, Drop)]
pub struct Labelling {
    facts: Vec<Fact>,
    stretches: Vec<Stretch>,
}

impl Model for Labelling {
    ghost use Rattle.std.specs.Prelude.{List};
    ghost use Rattle.year_labels.specs.declared.label.Fact.{Fact};

    ghost Value = { List Fact };

    ghost use Rattle.year_labels.specs.Order.{IsAscending};
    ghost use Rattle.year_labels.specs.Stretches.{AreStretchesOf};

    ghost view = { λ a. a.facts.items };

    ghost invariant = { λ a. IsAscending a.facts.items × AreStretchesOf a.facts.items a.stretches.items };
}

impl Labelling {
    /// The labelling of the facts, which may come in any order and several times.
    pub fn new(alloc: Global, facts: List<Fact>) -> Result<Labelling, Memory>
        ensures ordered { IfOk result IsAscending }
        ensures same { IfOk result (λ l. (f : _) → Contains l f ↔ Contains facts f) }
    {
        let mut sorted = BTreeSet::new(alloc);
        let items = facts.items();
        for i in 0..items.len() {
            let fact = items[i];
            insert_key_of(&mut sorted, fact)?;
        }
        let facts = keys_of(alloc, sorted)?;
        let stretches = stretches_of(alloc, &facts)?;
        Ok(Labelling { facts, stretches })
    }

    /// Whether the byte bears the label.
    pub fn has(&self, place: BytePlace, label: Label) -> bool
        ensures { IsTrue result ↔ Contains self.now (fact_of place label) }
    {
        is_there(&self.facts, Fact { place, label })
    }

    /// The fact of that index, or `None` past the end.
    pub fn at(&self, index: usize) -> Option<Fact>
        ensures ordered { IsAscending self.now }
        ensures value { result ≡ slice_get self.now index }
    {
        self.facts.get(index).copied()
    }

    /// How many facts there are.
    pub fn count(&self) -> usize
        ensures { result ≡ length self.now }
    {
        self.facts.len()
    }

    /// The stretch of that index, in order of places, or `None` past the end.
    pub fn stretch(&self, index: usize) -> Option<&Stretch>
        ensures { (stretches : Items AnyStretch) × AreStretchesOf self.now stretches × MatchOption result (slice_get stretches index ≡ None) (λ found. slice_get stretches index ≡ Some found.now) }
    {
        self.stretches.get(index)
    }

    /// Whether no byte bears unlike labels.
    pub fn clean(&self) -> bool
        ensures { IsTrue result ↔ IsClean self.now }
    {
        have_places_of_their_own(&self.facts)
    }
}

/// Whether no two neighbours are of one place.
fn have_places_of_their_own(facts: &[Fact]) -> bool
    requires { IsAscending facts.now }
    ensures { IsTrue result ↔ IsClean facts.now }
{
    for i in 1..facts.len() {
        let before = facts[i - 1];
        let fact = facts[i];
        if are_of_one_place(before, fact) {
            return false;
        }
    }
    true
}

fn are_of_one_place(first: Fact, second: Fact) -> bool
    ensures { IsTrue result ↔ (first.place ≡ second.place) }
{
    first.place == second.place
}

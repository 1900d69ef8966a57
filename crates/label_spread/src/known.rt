ghost use Rattle.std.specs.Prelude.{◌≡◌, ◌↔◌, ◌<◌, ◌^◌, ◌++◌, ◌∷◌, [], IsTrue, OnOk, Contains, IfSome, slice_get};
ghost use Rattle.label_spread.specs.Steps.{Adds};

use crate::fact_set::FactSet;
use std::alloc::Global;
use std::marker::Model;
use y2k_base::{List, Memory};
use year_labels::Fact;

/// The facts found so far, each once, in the order in which they were found, with an index of them.
#[derive(Drop)]
pub(crate) struct Known {
    facts: Vec<Fact>,
    index: FactSet,
}

impl Model for Known {
    ghost use Rattle.std.specs.Prelude.{List};
    ghost use Rattle.year_labels.specs.declared.label.Fact.{Fact};

    ghost Value = { List Fact };

    ghost use Rattle.label_spread.specs.FactSets.{HasJust};

    ghost view = { λ a. a.facts.items };

    ghost invariant = { λ a. HasJust a.index a.facts.items };
}

impl Known {
    pub(crate) fn new(alloc: Global) -> Known
        ensures { result ≡ [] }
    {
        Known {
            facts: Vec::new(alloc),
            index: FactSet::new(alloc),
        }
    }

    /// The fact that was found as the one of that index.
    pub(crate) fn at(&self, index: usize) -> Option<Fact>
        ensures value { result ≡ slice_get self.now index }
        ensures small { IfSome result (λ _. index < 2 ^ 63) }
    {
        self.facts.get(index).copied()
    }

    pub(crate) fn has(&self, fact: Fact) -> bool
        ensures { IsTrue result ↔ Contains self.now fact }
    {
        self.index.has(fact)
    }

    /// Adds the fact, unless it is there.
    pub(crate) fn insert(&mut self, fact: Fact) -> Result<(), Memory>
        ensures { OnOk result (Adds (λ _ f. f ≡ fact) self.old self.new) }
    {
        if self.has(fact) {
            Ok(())
        } else {
            self.push(fact)?;
            Ok(())
        }
    }

    fn push(&mut self, fact: Fact) -> Result<(), Memory>
        ensures { OnOk result (self.new ≡ self.old ++ fact ∷ []) }
    {
        self.facts.reserve(1)?;
        self.index.insert(fact)?;
        self.facts.push_reserved(fact);
        Ok(())
    }

    pub(crate) fn into_list(self) -> List<Fact>
        ensures { result ≡ self }
    {
        List::from_vec(self.facts)
    }
}

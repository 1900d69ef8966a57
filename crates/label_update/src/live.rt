ghost use Rattle.std.specs.Prelude.{◌≡◌, IfOk, OnOk, OnErr};
ghost use Rattle.std.specs.List.{AllByRecursion};
ghost use Rattle.data_layout.specs.Index.{IsReady};
ghost use Rattle.date_types.specs.Whole as whole;
ghost use Rattle.year_labels.specs.Derivation.{AreDerivable, IsLeast};
ghost use Rattle.year_labels.specs.Order.{IsAscending};
ghost use Rattle.label_update.specs.Live as spec;

use crate::named::{NamedFact, named_facts};
use data_layout::Portfolio;
use date_types::rules_of;
use label_spread::spread;
use std::alloc::Global;
use std::collections::BTreeSet;
use y2k_base::{List, Memory, Twin};
use year_labels::{Labelling, Seed};

/// The labels of a portfolio with its seeds, which can be mended to those of a changed one.
#[derive(Drop)]
pub struct LiveLabels {
    labelling: Labelling,
    named: BTreeSet<NamedFact>,
}

/// Which labels came and which went, each list in order.
pub struct Change {
    pub added: List<NamedFact>,
    pub removed: List<NamedFact>,
}

impl Drop for Change {
    fn drop(self) {
        let Change {
            added: _added,
            removed: _removed,
        } = self;
    }
}

impl LiveLabels {
    /// The labels of the portfolio with these seeds.
    pub fn new(alloc: Global, portfolio: &Portfolio, seeds: &[Seed]) -> Result<LiveLabels, Memory>
        requires { AllByRecursion IsReady portfolio.now.layouts }
        ensures { IfOk result (spec.IsLive portfolio.now seeds.now) }
    {
        let labelling = least_labels(alloc, portfolio, seeds)?;
        let named = named_facts(alloc, portfolio, &labelling)?;
        Ok(LiveLabels { labelling, named })
    }

    /// Makes the labels those of this portfolio with these seeds, and tells what changed. Whatever came before, the
    /// labels are then the least ones, as computed from nothing; this body does compute them from nothing. After want
    /// of memory they are as they were.
    pub fn mend(
        &mut self,
        alloc: Global,
        portfolio: &Portfolio,
        seeds: &[Seed],
    ) -> Result<Change, Memory>
        requires { AllByRecursion IsReady portfolio.now.layouts }
        ensures live { OnOk result (spec.IsLive portfolio.now seeds.now self.new) }
        ensures change { IfOk result (spec.IsChange (spec.named_in self.old) (spec.named_in self.new)) }
        ensures unchanged { OnErr result (self.new ≡ self.old) }
    {
        let mended = LiveLabels::new(alloc, portfolio, seeds)?;
        let added = without(alloc, &mended.named, &self.named)?;
        let removed = without(alloc, &self.named, &mended.named)?;
        *self = mended;
        Ok(Change { added, removed })
    }

    /// The labels, by the numbers of the areas in the last portfolio. It takes no memory.
    pub fn labelling(&self) -> &Labelling
        ensures { result.now ≡ spec.labels_in self.now }
    {
        &self.labelling
    }
}

/// The least labelling that holds the seeds and is closed under the rules of the portfolio.
fn least_labels(alloc: Global, portfolio: &Portfolio, seeds: &[Seed]) -> Result<Labelling, Memory>
    requires { AllByRecursion IsReady portfolio.now.layouts }
    ensures derivable { IfOk result (AreDerivable seeds.now (whole.rules portfolio.now)) }
    ensures least { IfOk result (IsLeast seeds.now (whole.rules portfolio.now)) }
    ensures ordered { IfOk result IsAscending }
{
    let rules = rules_of(alloc, portfolio)?;
    let labelling = spread(alloc, seeds, rules.items())?;
    Ok(labelling)
}

/// Those of the first that aren't among the second.
fn without(
    alloc: Global,
    facts: &BTreeSet<NamedFact>,
    others: &BTreeSet<NamedFact>,
) -> Result<List<NamedFact>, Memory>
    ensures { IfOk result (spec.IsWithout facts.now.keys others.now.keys) }
{
    let mut kept = List::new(alloc);
    for fact in facts.difference(others) {
        let copy = fact.twin(alloc)?;
        kept.push(copy)?;
    }
    Ok(kept)
}

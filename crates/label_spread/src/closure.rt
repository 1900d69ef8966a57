ghost use Rattle.std.specs.Prelude.{◌≡◌, [], IfOk, OnOk, Contains, All};
ghost use Rattle.year_labels.specs.declared.label.Fact.{Fact as AnyFact};
ghost use Rattle.year_labels.specs.Order.{IsAscending};
ghost use Rattle.year_labels.specs.Forms.{IsFit};
ghost use Rattle.year_labels.specs.Derivation.{AreDerivable, IsLeast, IsDerivation, IsClosed, IsSeedFact, FollowsByOne};
ghost use Rattle.label_spread.specs.Steps.{Adds, Starts, Reacts, ReactsBy, Closes};
ghost use Rattle.label_spread.specs.Slots.{IsIndexOf};
ghost use Rattle.label_spread.specs.Only.{HaveOneList};

use crate::forms::{react, start};
use crate::known::Known;
use crate::slots::{Slot, index_rules, slots_at};
use std::alloc::Global;
use std::collections::BTreeSet;
use y2k_base::{List, Memory};
use year_labels::{Fact, Labelling, RuleInst, Seed};

/// The least labelling that has the facts of the seeds and is closed under the rules. Its stretches are the only ones
/// with their properties.
pub fn spread(alloc: Global, seeds: &[Seed], rules: &[RuleInst]) -> Result<Labelling, Memory>
    requires { All (λ r. IsFit r.form) rules.now }
    ensures derivable { IfOk result (AreDerivable seeds.now rules.now) }
    ensures least { IfOk result (IsLeast seeds.now rules.now) }
    ensures ordered { IfOk result IsAscending }
    ensures stretched { IfOk result HaveOneList }
{
    let facts = derive(alloc, seeds, rules)?;
    let labelling = Labelling::new(alloc, facts)?;
    Ok(labelling)
}

/// The facts of that labelling in the order in which they were found: each is that of a seed, or follows from
/// those before it. What follows in few steps stands before what follows in many.
pub fn derive(alloc: Global, seeds: &[Seed], rules: &[RuleInst]) -> Result<List<Fact>, Memory>
    requires { All (λ r. IsFit r.form) rules.now }
    ensures derivation { IfOk result (IsDerivation seeds.now rules.now) }
    ensures closed { IfOk result (IsClosed seeds.now rules.now) }
{
    let mut known = Known::new(alloc);
    insert_seeds(seeds, &mut known)?;
    start_all(rules, &mut known)?;
    let slots = index_rules(alloc, rules)?;
    close(alloc, rules, &slots, &mut known)?;
    Ok(known.into_list())
}

/// Adds the facts of the seeds.
fn insert_seeds(seeds: &[Seed], known: &mut Known) -> Result<(), Memory>
    ensures { OnOk result (Adds (λ _. IsSeedFact seeds.now) known.old known.new) }
{
    for i in 0..seeds.len() {
        let seed = seeds[i];
        insert_seed(seed, known)?;
    }
    Ok(())
}

fn insert_seed(seed: Seed, known: &mut Known) -> Result<(), Memory>
    ensures { OnOk result (Adds (λ _ f. f ≡ seed.fact) known.old known.new) }
{
    known.insert(seed.fact)?;
    Ok(())
}

/// Adds what the rules give from nothing.
fn start_all(rules: &[RuleInst], known: &mut Known) -> Result<(), Memory>
    requires { All (λ r. IsFit r.form) rules.now }
    ensures { OnOk result (Starts (FollowsByOne rules.now) known.old known.new) }
{
    for rule in rules {
        start(&rule.form, known)?;
    }
    Ok(())
}

/// Takes the known facts one after the other and adds what follows by each, until all have been taken.
fn close(
    alloc: Global,
    rules: &[RuleInst],
    slots: &BTreeSet<Slot>,
    known: &mut Known,
) -> Result<(), Memory>
    requires fit { All (λ r. IsFit r.form) rules.now }
    requires indexed { IsIndexOf rules.now slots.now.keys }
    requires started { (f : AnyFact) → FollowsByOne rules.now [] f → Contains known.old f }
    ensures { OnOk result (Closes (FollowsByOne rules.now) known.old known.new) }
{
    let mut next = 0;
    while let Some(fact) = known.at(next) {
        react_all(alloc, rules, slots, fact, known)?;
        next += 1;
    }
    Ok(())
}

/// Adds what follows by the rules where this fact is one of those that it follows from.
fn react_all(
    alloc: Global,
    rules: &[RuleInst],
    slots: &BTreeSet<Slot>,
    fact: Fact,
    known: &mut Known,
) -> Result<(), Memory>
    requires fit { All (λ r. IsFit r.form) rules.now }
    requires indexed { IsIndexOf rules.now slots.now.keys }
    requires there { Contains known.old fact }
    ensures { OnOk result (Reacts (FollowsByOne rules.now) fact known.old known.new) }
{
    let found = slots_at(alloc, slots, fact.place)?;
    for i in 0..found.len() {
        let slot = found[i];
        react_by(rules, slot.rule, fact, known)?;
    }
    Ok(())
}

/// Adds what follows by the rule of that index.
fn react_by(rules: &[RuleInst], index: usize, fact: Fact, known: &mut Known) -> Result<(), Memory>
    requires fit { All (λ r. IsFit r.form) rules.now }
    requires there { Contains known.old fact }
    ensures { OnOk result (ReactsBy rules.now index fact known.old known.new) }
{
    match rules.get(index) {
        Some(rule) => {
            react(&rule.form, fact, known)?;
            Ok(())
        }
        None => Ok(()),
    }
}

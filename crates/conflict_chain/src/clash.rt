ghost use Rattle.std.specs.Prelude.{◌≡◌, ◌↔◌, ◌<◌, ◌+◌, ◌-◌, ◌^◌, IsTrue, IfOk, OnOk, IfSome, IfNone, All};
ghost use Rattle.year_labels.specs.Derivation.{AreDerivable};
ghost use Rattle.year_labels.specs.Facts.{fact_of};
ghost use Rattle.year_labels.specs.Forms.{IsFit};
ghost use Rattle.year_labels.specs.Order.{IsAscending};
ghost use Rattle.conflict_chain.specs.Chains.{IsChain};
ghost use Rattle.conflict_chain.specs.Conflicts.{AreConflictsOf};
ghost use Rattle.conflict_chain.specs.Clashes.{AreOfOneByte, IsLaterOne, AreFirstTwo, AreConflictsUpTo};

use crate::Conflict;
use crate::order::Order;
use std::alloc::Global;
use y2k_base::{BytePlace, List, Memory};
use year_labels::{Fact, Label, Labelling, RuleInst, Seed};

/// A byte that bears unlike labels, and the two least of them.
#[derive(Clone, Copy, Debug, PartialEq, Eq)]
struct Clash {
    place: BytePlace,
    first: Label,
    second: Label,
}

/// One conflict for each byte with unlike labels, in order of places, with its two least labels. Its chains are
/// short: each has only the steps that it needs, and takes what was found first. Each chain is checked before it is
/// given. The check can't fail on the labelling of these seeds and rules, but that is not proved: the answer would be
/// `Memory`.
pub fn conflicts(
    alloc: Global,
    seeds: &[Seed],
    rules: &[RuleInst],
    labelling: &Labelling,
) -> Result<List<Conflict>, Memory>
    requires fit { All (λ r. IsFit r.form) rules.now }
    requires labelled { AreDerivable seeds.now rules.now labelling.now }
    ensures { IfOk result (AreConflictsOf seeds.now rules.now labelling.now) }
{
    let mut list = List::new(alloc);
    if labelling.clean() {
        return Ok(list);
    }
    let mut order = Order::new(alloc, seeds, rules)?;
    for index in 0..labelling.count() {
        add_at(alloc, seeds, rules, labelling, index, &mut order, &mut list)?;
    }
    Ok(list)
}

/// Adds the conflict whose least label is the fact of that index, if there is one.
fn add_at(
    alloc: Global,
    seeds: &[Seed],
    rules: &[RuleInst],
    labelling: &Labelling,
    index: usize,
    order: &mut Order,
    list: &mut List<Conflict>,
) -> Result<(), Memory>
    requires fit { All (λ r. IsFit r.form) rules.now }
    requires small { index < 2 ^ 64 - 1 }
    requires before { AreConflictsUpTo seeds.now rules.now labelling.now index list.old }
    ensures { OnOk result (AreConflictsUpTo seeds.now rules.now labelling.now (index + 1) list.new) }
{
    match clash_at(labelling, index) {
        Some(clash) => {
            let conflict = conflict_of(alloc, seeds, rules, clash, order)?;
            list.push(conflict)?;
            Ok(())
        }
        None => Ok(()),
    }
}

/// The conflict of the clash, with a chain for each of its labels.
fn conflict_of(
    alloc: Global,
    seeds: &[Seed],
    rules: &[RuleInst],
    clash: Clash,
    order: &mut Order,
) -> Result<Conflict, Memory>
    requires fit { All (λ r. IsFit r.form) rules.now }
    ensures place { IfOk result (λ c. c.place ≡ clash.place) }
    ensures first { IfOk result (λ c. c.first ≡ clash.first) }
    ensures second { IfOk result (λ c. c.second ≡ clash.second) }
    ensures chain1 { IfOk result (λ c. IsChain seeds.now rules.now c.chain1.steps (fact_of clash.place clash.first)) }
    ensures chain2 { IfOk result (λ c. IsChain seeds.now rules.now c.chain2.steps (fact_of clash.place clash.second)) }
{
    let Clash {
        place,
        first,
        second,
    } = clash;
    let label = first;
    let chain1 = order.chain_to(alloc, seeds, rules, Fact { place, label })?;
    let label = second;
    let chain2 = order.chain_to(alloc, seeds, rules, Fact { place, label })?;
    Ok(Conflict {
        place,
        first,
        second,
        chain1,
        chain2,
    })
}

/// The clash of the fact of that index and the next, if they are the first two of one byte.
fn clash_at(labelling: &Labelling, index: usize) -> Option<Clash>
    requires { index < 2 ^ 64 - 1 }
    ensures ordered { IsAscending labelling.now }
    ensures found { IfSome result (λ clash. AreFirstTwo labelling.now index clash.place clash.first clash.second) }
    ensures none { IfNone result (AreOfOneByte labelling.now index → IsLaterOne labelling.now index) }
{
    let first = labelling.at(index);
    let second = labelling.at(index + 1);
    if is_later_one(labelling, index) {
        return None;
    }
    match first {
        Some(first) => match second {
            Some(second) => clash_of(first, second),
            None => None,
        },
        None => None,
    }
}

/// The clash of two facts, if they are of one byte.
fn clash_of(first: Fact, second: Fact) -> Option<Clash>
    ensures first { IfSome result (λ clash. first ≡ fact_of clash.place clash.first) }
    ensures second { IfSome result (λ clash. second ≡ fact_of clash.place clash.second) }
    ensures none { IfNone result (first.place ≡ second.place → ⊥) }
{
    if first.place == second.place {
        Some(Clash {
            place: first.place,
            first: first.label,
            second: second.label,
        })
    } else {
        None
    }
}

/// Whether the fact before that index is of the same byte.
fn is_later_one(labelling: &Labelling, index: usize) -> bool
    requires { index < 2 ^ 64 - 1 }
    ensures { IsTrue result ↔ IsLaterOne labelling.now index }
{
    if index == 0 {
        false
    } else {
        are_of_one_byte(labelling, index - 1)
    }
}

/// Whether the fact of that index and the next are of one byte.
fn are_of_one_byte(labelling: &Labelling, index: usize) -> bool
    requires { index < 2 ^ 64 - 1 }
    ensures { IsTrue result ↔ AreOfOneByte labelling.now index }
{
    match labelling.at(index) {
        Some(first) => match labelling.at(index + 1) {
            Some(second) => first.place == second.place,
            None => false,
        },
        None => false,
    }
}

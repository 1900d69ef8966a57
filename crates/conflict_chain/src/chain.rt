ghost use Rattle.std.specs.Prelude.{◌≡◌, ◌↔◌, ◌<◌, ℕ, IsTrue, All, length, slice_index_or};
ghost use Rattle.year_labels.specs.Forms.{IsFit};
ghost use Rattle.conflict_chain.specs.declared.chain.ChainStep.{ChainStep as AnyStep};
ghost use Rattle.conflict_chain.specs.Chains.{IsChain, IsSeedOf, IsByRule, AreEarlier, HasReason, AreReasoned, AreUnlike, EndsWith};

use crate::follows::follows;
use y2k_base::{BytePlace, List};
use year_labels::{Fact, Label, RuleInst, Seed};

/// Why a step holds: the row of the seed that has its fact, or the index of the rule that it follows by.
#[derive(Clone, Copy, Debug, PartialEq, Eq)]
pub enum Why {
    Seed(u32),
    Rule(u32),
}

/// A fact, why it holds, and the numbers of the steps before it that it follows from, from 0. Those of a seed
/// don't matter.
#[derive(Debug)]
pub struct ChainStep {
    pub fact: Fact,
    pub why: Why,
    pub from: List<u32>,
}

impl Drop for ChainStep {
    fn drop(self) {
        let ChainStep {
            fact: _,
            why: _,
            from: _from,
        } = self;
    }
}

/// How a fact comes from seeds by rules.
#[derive(Debug, Drop)]
pub struct Chain {
    pub steps: List<ChainStep>,
}

/// A byte with two unlike labels, and a chain for each.
#[derive(Debug, Drop)]
pub struct Conflict {
    pub place: BytePlace,
    pub first: Label,
    pub second: Label,
    pub chain1: Chain,
    pub chain2: Chain,
}

/// Whether each step of the chain is the fact of a seed of the row that it names or follows by the rule that it names
/// from the earlier steps that it names, no fact stands twice, and the last step is this fact. It takes no memory.
pub fn check_chain(seeds: &[Seed], rules: &[RuleInst], chain: &Chain, fact: Fact) -> bool
    requires { All (λ r. IsFit r.form) rules.now }
    ensures { IsTrue result ↔ IsChain seeds.now rules.now chain.now.steps fact }
{
    let steps = chain.steps.items();
    are_reasoned(seeds, rules, steps) && are_unlike(steps) && ends_with(steps, fact)
}

/// Whether each step has its reason.
fn are_reasoned(seeds: &[Seed], rules: &[RuleInst], steps: &[ChainStep]) -> bool
    requires { All (λ r. IsFit r.form) rules.now }
    ensures { IsTrue result ↔ AreReasoned seeds.now rules.now steps.now }
{
    for i in 0..steps.len() {
        if !has_reason(seeds, rules, &steps[..i], &steps[i]) {
            return false;
        }
    }
    true
}

fn has_reason(seeds: &[Seed], rules: &[RuleInst], earlier: &[ChainStep], step: &ChainStep) -> bool
    requires { All (λ r. IsFit r.form) rules.now }
    ensures { IsTrue result ↔ HasReason seeds.now rules.now earlier.now step.now.why step.now.from step.now.fact }
{
    match step.why {
        Why::Seed(row) => is_seed(seeds, row, step.fact),
        Why::Rule(index) => is_by_rule(rules, index, earlier, step.from.items(), step.fact),
    }
}

/// Whether a seed of that row has the fact.
fn is_seed(seeds: &[Seed], row: u32, fact: Fact) -> bool
    ensures { IsTrue result ↔ IsSeedOf seeds.now row fact }
{
    for i in 0..seeds.len() {
        if seeds[i] == (Seed { fact, row }) {
            return true;
        }
    }
    false
}

/// Whether the fact follows by the rule of that index from the steps with these numbers.
fn is_by_rule(
    rules: &[RuleInst],
    index: u32,
    earlier: &[ChainStep],
    from: &[u32],
    fact: Fact,
) -> bool
    requires { All (λ r. IsFit r.form) rules.now }
    ensures { IsTrue result ↔ IsByRule rules.now index earlier.now from.now fact }
{
    match rules.get(index as usize) {
        Some(rule) => are_earlier(from, earlier.len()) && follows(&rule.form, earlier, from, fact),
        None => false,
    }
}

/// Whether these are numbers of the first so many steps.
fn are_earlier(from: &[u32], count: usize) -> bool
    ensures { IsTrue result ↔ AreEarlier from.now count }
{
    for i in 0..from.len() {
        if from[i] as usize >= count {
            return false;
        }
    }
    true
}

/// Whether no fact stands twice.
fn are_unlike(steps: &[ChainStep]) -> bool
    ensures { IsTrue result ↔ AreUnlike steps.now }
{
    for i in 0..steps.len() {
        if stands_before(steps, i) {
            return false;
        }
    }
    true
}

/// Whether a step before that one has its fact.
fn stands_before(steps: &[ChainStep], index: usize) -> bool
    requires { index < length steps.now }
    ensures { IsTrue result ↔ ((k : ℕ) × (k < index) × ((d : AnyStep) → (slice_index_or steps.now k d).fact ≡ (slice_index_or steps.now index d).fact)) }
{
    for k in 0..index {
        if have_one_fact(&steps[k], &steps[index]) {
            return true;
        }
    }
    false
}

fn have_one_fact(first: &ChainStep, second: &ChainStep) -> bool
    ensures { IsTrue result ↔ (first.now.fact ≡ second.now.fact) }
{
    first.fact == second.fact
}

/// Whether the last step is this fact.
fn ends_with(steps: &[ChainStep], fact: Fact) -> bool
    ensures { IsTrue result ↔ EndsWith steps.now fact }
{
    match steps.last() {
        Some(step) => step.fact == fact,
        None => false,
    }
}

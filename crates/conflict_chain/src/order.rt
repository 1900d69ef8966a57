ghost use Rattle.std.specs.Prelude.{IfOk, IfSome, OnOk, All, Contains};
ghost use Rattle.year_labels.specs.Forms.{IsFit};
ghost use Rattle.conflict_chain.specs.Chains.{IsChain};

use crate::follows::follows;
use crate::spans::spans_of;
use crate::{Chain, ChainStep, Why, check_chain};
use label_spread::{Slot, derive, index_in, index_rules, slots_at};
use std::alloc::Global;
use std::collections::{BTreeMap, BTreeSet};
use y2k_base::{BytePlace, List, Memory, Span};
use year_labels::{Fact, Label, RuleForm, RuleInst, Seed};

/// Why a fact holds, and the numbers of the facts that it follows from, rising.
#[derive(Drop)]
struct Reason {
    why: Why,
    from: Vec<u32>,
}

/// The facts of a labelling, numbered in the order in which they were found, with the reasons that have been asked
/// for so far.
#[derive(Drop)]
pub(crate) struct Order {
    facts: Vec<ChainStep>,
    numbers: BTreeMap<Fact, u32>,
    seeded: BTreeMap<Fact, u32>,
    slots: BTreeSet<Slot>,
    reasons: BTreeMap<u32, Reason>,
}

impl Order {
    pub(crate) fn new(alloc: Global, seeds: &[Seed], rules: &[RuleInst]) -> Result<Order, Memory>
        requires { All (λ r. IsFit r.form) rules.now }
    {
        let found = derive(alloc, seeds, rules)?;
        let mut order = Order {
            facts: Vec::new(alloc),
            numbers: BTreeMap::new(alloc),
            seeded: seeded_by(alloc, seeds)?,
            slots: index_rules(alloc, rules)?,
            reasons: BTreeMap::new(alloc),
        };
        let found = found.items();
        for i in 0..found.len() {
            order.add_fact(alloc, found[i])?;
        }
        Ok(order)
    }

    /// Gives the fact the next number, unless it has one.
    fn add_fact(&mut self, alloc: Global, fact: Fact) -> Result<(), Memory> {
        if self.numbers.contains_key(&fact) {
            return Ok(());
        }
        let number = u32::try_from(self.facts.len()).map_err(|_| Memory)?;
        self.numbers.insert(fact, number)?;
        self.facts.push(ChainStep {
            fact,
            why: Why::Seed(0),
            from: List::new(alloc),
        })?;
        Ok(())
    }

    /// The chain to the fact that has only the steps that it needs. It is checked before it is given, against the
    /// seeds of its own facts, so that this takes no longer where there are many others. Each fact of the labelling
    /// has a reason among the facts found before it, so the checks and look-ups here never fail; that they don't is
    /// not proved, and the answer would be `Memory`.
    pub(crate) fn chain_to(
        &mut self,
        alloc: Global,
        seeds: &[Seed],
        rules: &[RuleInst],
        fact: Fact,
    ) -> Result<Chain, Memory>
        requires { All (λ r. IsFit r.form) rules.now }
        ensures { IfOk result (λ chain. IsChain seeds.now rules.now chain.steps fact) }
    {
        let numbers = self.needed_for(alloc, seeds, rules, fact)?;
        let used = self.seeds_of(alloc, seeds, &numbers)?;
        let chain = self.chain_of(alloc, &numbers)?;
        if check_chain(used.as_slice(), rules, &chain, fact) {
            Ok(chain)
        } else {
            Err(Memory)
        }
    }

    /// A seed of each of these facts that has one.
    fn seeds_of(&self, alloc: Global, seeds: &[Seed], numbers: &[u32]) -> Result<Vec<Seed>, Memory>
        ensures { IfOk result (λ used. All (λ seed. Contains seeds.now seed) used.items) }
    {
        let mut used = Vec::new(alloc);
        for i in 0..numbers.len() {
            let fact = self.fact_at(numbers[i])?;
            self.add_seed(seeds, fact, &mut used)?;
        }
        Ok(used)
    }

    fn add_seed(&self, seeds: &[Seed], fact: Fact, used: &mut Vec<Seed>) -> Result<(), Memory>
        requires { All (λ seed. Contains seeds.now seed) used.old.items }
        ensures { OnOk result (All (λ seed. Contains seeds.now seed) used.new.items) }
    {
        match self.seed_of(seeds, fact) {
            Some(seed) => {
                used.push(seed)?;
                Ok(())
            }
            None => Ok(()),
        }
    }

    /// The first seed of the fact, if there is one.
    fn seed_of(&self, seeds: &[Seed], fact: Fact) -> Option<Seed>
        ensures { IfSome result (λ seed. Contains seeds.now seed) }
    {
        match self.seeded.get(&fact) {
            Some(index) => seed_at(seeds, *index as usize),
            None => None,
        }
    }

    /// The numbers, rising, of the facts that the fact needs, and its own.
    fn needed_for(
        &mut self,
        alloc: Global,
        seeds: &[Seed],
        rules: &[RuleInst],
        fact: Fact,
    ) -> Result<Vec<u32>, Memory>
        requires { All (λ r. IsFit r.form) rules.now }
    {
        let mut needed = BTreeSet::new(alloc);
        needed.insert(self.number_of(fact)?)?;
        let mut numbers = Vec::new(alloc);
        for _ in 0..self.facts.len() {
            let number = match needed.pop_last() {
                Some(number) => number,
                None => break,
            };
            self.find_reason(alloc, seeds, rules, number)?;
            self.add_needed(number, &mut needed)?;
            numbers.push(number)?;
        }
        numbers.reverse();
        Ok(numbers)
    }

    fn number_of(&self, fact: Fact) -> Result<u32, Memory> {
        match self.numbers.get(&fact) {
            Some(number) => Ok(*number),
            None => Err(Memory),
        }
    }

    fn fact_at(&self, number: u32) -> Result<Fact, Memory> {
        match self.facts.get(number as usize) {
            Some(step) => Ok(step.fact),
            None => Err(Memory),
        }
    }

    /// Adds the numbers of the facts that the fact of that number follows from.
    fn add_needed(&self, number: u32, needed: &mut BTreeSet<u32>) -> Result<(), Memory> {
        match self.reasons.get(&number) {
            Some(reason) => {
                for i in 0..reason.from.len() {
                    needed.insert(reason.from[i])?;
                }
                Ok(())
            }
            None => Err(Memory),
        }
    }

    /// The chain of the facts of these numbers, which are rising.
    fn chain_of(&self, alloc: Global, numbers: &[u32]) -> Result<Chain, Memory> {
        let mut steps = List::new(alloc);
        for i in 0..numbers.len() {
            let step = self.step_of(alloc, numbers, numbers[i])?;
            steps.push(step)?;
        }
        Ok(Chain { steps })
    }

    /// The step of the fact of that number, where the steps of a chain are these numbers'.
    fn step_of(&self, alloc: Global, numbers: &[u32], number: u32) -> Result<ChainStep, Memory> {
        let fact = self.fact_at(number)?;
        match self.reasons.get(&number) {
            Some(reason) => {
                let why = reason.why;
                let from = places_in(alloc, numbers, &reason.from)?;
                Ok(ChainStep { fact, why, from })
            }
            None => Err(Memory),
        }
    }

    /// Finds the reason of the fact of that number, unless that was done before.
    fn find_reason(
        &mut self,
        alloc: Global,
        seeds: &[Seed],
        rules: &[RuleInst],
        number: u32,
    ) -> Result<(), Memory>
        requires { All (λ r. IsFit r.form) rules.now }
    {
        if self.reasons.contains_key(&number) {
            return Ok(());
        }
        let reason = self.reason_of(alloc, seeds, rules, number)?;
        self.reasons.insert(number, reason)?;
        Ok(())
    }

    /// A seed of the fact of that number, or else the rule whose last premise was found first.
    fn reason_of(
        &self,
        alloc: Global,
        seeds: &[Seed],
        rules: &[RuleInst],
        number: u32,
    ) -> Result<Reason, Memory>
        requires { All (λ r. IsFit r.form) rules.now }
    {
        let fact = self.fact_at(number)?;
        if let Some(seed) = self.seed_of(seeds, fact) {
            let why = Why::Seed(seed.row);
            let from = Vec::new(alloc);
            return Ok(Reason { why, from });
        }
        let slots = slots_at(alloc, &self.slots, fact.place)?;
        let mut best = None;
        for i in 0..slots.len() {
            match self.reason_by(alloc, rules, slots[i].rule, number, fact)? {
                Some(reason) => best = Some(earlier(best, reason)),
                None => {}
            }
        }
        match best {
            Some(reason) => Ok(reason),
            None => Err(Memory),
        }
    }

    /// That the fact follows by the rule of that index from those before it, if it does.
    fn reason_by(
        &self,
        alloc: Global,
        rules: &[RuleInst],
        index: usize,
        number: u32,
        fact: Fact,
    ) -> Result<Option<Reason>, Memory>
        requires { All (λ r. IsFit r.form) rules.now }
    {
        match rules.get(index) {
            Some(rule) => {
                let grounds = self.grounds(alloc, &rule.form, number, fact.place)?;
                if follows(&rule.form, &self.facts, &grounds, fact) {
                    let from = self.least_grounds(alloc, &rule.form, grounds, fact)?;
                    let why = Why::Rule(u32::try_from(index).map_err(|_| Memory)?);
                    Ok(Some(Reason { why, from }))
                } else {
                    Ok(None)
                }
            }
            None => Ok(None),
        }
    }

    /// The numbers, rising, of the facts before that one which the rule looks at for a fact of the byte.
    fn grounds(
        &self,
        alloc: Global,
        form: &RuleForm,
        number: u32,
        place: BytePlace,
    ) -> Result<Vec<u32>, Memory> {
        let mut found = BTreeSet::new(alloc);
        match form {
            RuleForm::Alike { a, b } => {
                self.add_twin(*a, *b, place, number, &mut found)?;
                self.add_twin(*b, *a, place, number, &mut found)?;
            }
            _ => {
                let spans = spans_of(alloc, form)?;
                for i in 0..spans.len() {
                    self.add_span(spans[i], number, &mut found)?;
                }
            }
        }
        let grounds = found.into_iter().collect(alloc)?;
        Ok(grounds)
    }

    /// Leaves out each ground, from the last on, without which the fact still follows.
    fn least_grounds(
        &self,
        alloc: Global,
        form: &RuleForm,
        grounds: Vec<u32>,
        fact: Fact,
    ) -> Result<Vec<u32>, Memory>
        requires { IsFit form.now }
    {
        let mut kept = grounds;
        for at in (0..kept.len()).rev() {
            let fewer = without(alloc, &kept, at)?;
            if follows(form, &self.facts, &fewer, fact) {
                kept = fewer;
            }
        }
        Ok(kept)
    }

    fn add_span(&self, span: Span, number: u32, found: &mut BTreeSet<u32>) -> Result<(), Memory> {
        for index in 0..span.length {
            self.add_byte(span, index, number, found)?;
        }
        Ok(())
    }

    /// Adds the facts of the byte of the first span that stands where this one does in the second.
    fn add_twin(
        &self,
        first: Span,
        second: Span,
        place: BytePlace,
        number: u32,
        found: &mut BTreeSet<u32>,
    ) -> Result<(), Memory> {
        match index_in(second, place) {
            Some(index) => self.add_byte(first, index, number, found),
            None => Ok(()),
        }
    }

    /// Adds the numbers below that one of the facts of that byte of the span.
    fn add_byte(
        &self,
        span: Span,
        index: u32,
        number: u32,
        found: &mut BTreeSet<u32>,
    ) -> Result<(), Memory> {
        let offset = match span.offset.checked_add(index) {
            Some(offset) => offset,
            None => return Ok(()),
        };
        let area = span.area;
        let place = BytePlace { area, offset };
        let low = Fact {
            place,
            label: Label::Tens,
        };
        let (digits, unit, byte) = (255, 255, 255);
        let high = Fact {
            place,
            label: Label::Packed { digits, unit, byte },
        };
        for (_, other) in self.numbers.range(low..=high) {
            if *other < number {
                found.insert(*other)?;
            }
        }
        Ok(())
    }
}

/// The index of the first seed of each fact that has one.
fn seeded_by(alloc: Global, seeds: &[Seed]) -> Result<BTreeMap<Fact, u32>, Memory> {
    let mut seeded = BTreeMap::new(alloc);
    for i in 0..seeds.len() {
        let fact = seeds[i].fact;
        if !seeded.contains_key(&fact) {
            let index = u32::try_from(i).map_err(|_| Memory)?;
            seeded.insert(fact, index)?;
        }
    }
    Ok(seeded)
}

fn seed_at(seeds: &[Seed], index: usize) -> Option<Seed>
    ensures { IfSome result (λ seed. Contains seeds.now seed) }
{
    if index < seeds.len() {
        Some(seeds[index])
    } else {
        None
    }
}

/// Where the first numbers stand among the others, which are rising.
fn places_in(alloc: Global, numbers: &[u32], named: &[u32]) -> Result<List<u32>, Memory> {
    let mut places = List::new(alloc);
    for i in 0..named.len() {
        match numbers.binary_search(&named[i]) {
            Ok(at) => places.push(u32::try_from(at).map_err(|_| Memory)?)?,
            Err(_) => return Err(Memory),
        }
    }
    Ok(places)
}

/// The numbers but that of the index.
fn without(alloc: Global, numbers: &[u32], index: usize) -> Result<Vec<u32>, Memory> {
    let mut others = Vec::new(alloc);
    for i in 0..numbers.len() {
        if i != index {
            others.push(numbers[i])?;
        }
    }
    Ok(others)
}

/// The reason whose last premise was found first; of two such the first.
fn earlier(best: Option<Reason>, reason: Reason) -> Reason {
    match best {
        None => reason,
        Some(best) => {
            if reason.from.last() < best.from.last() {
                reason
            } else {
                best
            }
        }
    }
}

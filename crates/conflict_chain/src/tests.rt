ghost use Rattle.std.specs.Prelude.{◌≡◌, IfOk, All};
ghost use Rattle.year_labels.specs.Forms.{IsFit, IsFitView};

use crate::{Chain, ChainStep, Conflict, Why, check_chain, conflicts};
use label_spread::spread;
use std::alloc::Global;
use std::test::Fail;
use y2k_base::{AreaId, BytePlace, FileId, List, Origin, Span};
use year_labels::{Fact, Label, Rule, RuleForm, RuleInst, Seed, View};

fn fact(area: u32, offset: u32, label: Label) -> Fact {
    let area = AreaId(area);
    let place = BytePlace { area, offset };
    Fact { place, label }
}

fn seed(fact: Fact, row: u32) -> Seed {
    Seed { fact, row }
}

fn step(alloc: Global, fact: Fact, why: Why, named: &[u32]) -> Result<ChainStep, Fail> {
    let mut from = List::new(alloc);
    from.append(named)?;
    Ok(ChainStep { fact, why, from })
}

fn rule(form: RuleForm) -> RuleInst
    ensures { result.form ≡ form }
{
    let at = Origin {
        file: FileId(0),
        line: 9,
        column: 12,
    };
    RuleInst {
        rule: Rule::Bytes,
        at,
        form,
    }
}

fn span(area: u32, length: u32) -> Span
    ensures { result ≡ record { area = record { 0 = area }; offset = 0; length = length } }
{
    Span {
        area: AreaId(area),
        offset: 0,
        length,
    }
}

/// A rule that this many bytes of two areas are alike.
fn alike(first: u32, second: u32, length: u32) -> RuleInst
    ensures { IsFit result.form }
{
    let a = span(first, length);
    let b = span(second, length);
    rule(RuleForm::Alike { a, b })
}

fn give(fact: Fact) -> RuleInst
    ensures { IsFit result.form }
{
    rule(RuleForm::Give { fact })
}

/// Rules by which the bytes of the areas 0, 1 and 2 are alike.
fn rules(alloc: Global) -> Result<Vec<RuleInst>, Fail>
    ensures { IfOk result (λ rules. All (λ r. IsFit r.form) rules.items) }
{
    let mut rules = Vec::new(alloc);
    rules.push(alike(0, 1, 2))?;
    rules.push(alike(1, 2, 2))?;
    Ok(rules)
}

/// Whether these steps, which are a fact, a reason and numbers each, are a chain to the fact.
fn is_chain(alloc: Global, steps: &[(Fact, Why, &[u32])], last: Fact) -> Result<bool, Fail> {
    let mut list = List::new(alloc);
    for i in 0..steps.len() {
        let (fact, why, named) = steps[i];
        list.push(step(alloc, fact, why, named)?)?;
    }
    let seeds = [seed(fact(0, 0, Label::Tens), 2)];
    let rules = rules(alloc)?;
    let chain = Chain { steps: list };
    Ok(check_chain(&seeds, rules.as_slice(), &chain, last))
}

#[test]
fn a_chain_from_a_seed_over_two_moves(rt: HostRuntime) -> Result<(), Fail> {
    let alloc = rt.alloc();
    let first = fact(0, 0, Label::Tens);
    let second = fact(1, 0, Label::Tens);
    let third = fact(2, 0, Label::Tens);
    let start = (first, Why::Seed(2), [].as_slice());
    let to_second = (second, Why::Rule(0), [0].as_slice());
    let to_third = (third, Why::Rule(1), [1].as_slice());
    assert!(rt; is_chain(alloc, &[start], first)?);
    assert!(rt; is_chain(alloc, &[start, to_second], second)?);
    assert!(rt; is_chain(alloc, &[start, to_second, to_third], third)?);
    Ok(())
}

#[test]
fn what_is_no_chain(rt: HostRuntime) -> Result<(), Fail> {
    let alloc = rt.alloc();
    let first = fact(0, 0, Label::Tens);
    let second = fact(1, 0, Label::Tens);
    let third = fact(2, 0, Label::Tens);
    let start = (first, Why::Seed(2), [].as_slice());
    let to_second = (second, Why::Rule(0), [0].as_slice());
    assert!(rt; !is_chain(alloc, &[], first)?);
    assert!(rt; !is_chain(alloc, &[(first, Why::Seed(3), &[])], first)?);
    assert!(rt; !is_chain(alloc, &[(first, Why::Rule(0), &[])], first)?);
    assert!(rt; !is_chain(alloc, &[(first, Why::Rule(2), &[])], first)?);
    assert!(rt; !is_chain(alloc, &[start, to_second], first)?);
    assert!(rt; !is_chain(alloc, &[start, start], first)?);
    assert!(rt; !is_chain(alloc, &[start, (third, Why::Rule(1), &[0])], third)?);
    assert!(rt; !is_chain(alloc, &[start, (second, Why::Rule(0), &[])], second)?);
    assert!(rt; !is_chain(alloc, &[start, (second, Why::Rule(0), &[0, 7])], second)?);
    Ok(())
}

/// A conflict that is looked for: the byte of an area, its two labels, and how many steps their chains have.
#[derive(Clone, Copy)]
struct Wanted {
    area: u32,
    offset: u32,
    first: Label,
    second: Label,
    steps1: usize,
    steps2: usize,
}

fn is_conflict(seeds: &[Seed], rules: &[RuleInst], conflict: &Conflict, wanted: Wanted) -> bool
    requires { All (λ r. IsFit r.form) rules.now }
{
    let first = fact(wanted.area, wanted.offset, wanted.first);
    let second = fact(wanted.area, wanted.offset, wanted.second);
    conflict.place == first.place
        && conflict.first == wanted.first
        && conflict.second == wanted.second
        && conflict.chain1.steps.len() == wanted.steps1
        && conflict.chain2.steps.len() == wanted.steps2
        && check_chain(seeds, rules, &conflict.chain1, first)
        && check_chain(seeds, rules, &conflict.chain2, second)
}

/// Whether these seeds and rules have just these conflicts, in order, with valid chains.
fn conflict_as(
    alloc: Global,
    seeds: &[Seed],
    rules: &[RuleInst],
    wanted: &[Wanted],
) -> Result<bool, Fail>
    requires { All (λ r. IsFit r.form) rules.now }
{
    let labelling = spread(alloc, seeds, rules)?;
    let list = conflicts(alloc, seeds, rules, &labelling)?;
    let list = list.items();
    if list.len() != wanted.len() {
        return Ok(false);
    }
    for i in 0..list.len() {
        if !is_conflict(seeds, rules, &list[i], wanted[i]) {
            return Ok(false);
        }
    }
    Ok(true)
}

/// That a byte at offset 60 of the area is the tens digit of a year and plain.
fn tens_and_plain(area: u32, steps1: usize, steps2: usize) -> Wanted {
    Wanted {
        area,
        offset: 60,
        first: Label::Tens,
        second: Label::Plain,
        steps1,
        steps2,
    }
}

#[test]
fn what_is_clean_has_no_conflict(rt: HostRuntime) -> Result<(), Fail> {
    let alloc = rt.alloc();
    let seeds = [
        seed(fact(0, 0, Label::Tens), 2),
        seed(fact(0, 1, Label::Units), 2),
    ];
    let rules = rules(alloc)?;
    assert!(rt; conflict_as(alloc, &seeds, rules.as_slice(), &[])?);
    Ok(())
}

#[test]
fn of_three_labels_the_two_least(rt: HostRuntime) -> Result<(), Fail> {
    let alloc = rt.alloc();
    let seeds = [
        seed(fact(0, 0, Label::Plain), 4),
        seed(fact(0, 0, Label::Units), 3),
        seed(fact(0, 0, Label::Tens), 2),
    ];
    let wanted = Wanted {
        area: 0,
        offset: 0,
        first: Label::Tens,
        second: Label::Units,
        steps1: 1,
        steps2: 1,
    };
    assert!(rt; conflict_as(alloc, &seeds, &[], &[wanted])?);
    Ok(())
}

/// A view of an unsigned item of six digits, which is the first area.
fn six_digits(alloc: Global) -> Result<View, Fail>
    ensures { IfOk result IsFitView }
{
    let mut powers = List::new(alloc);
    powers.append(&[Some(5), Some(4), Some(3), Some(2), Some(1), Some(0)])?;
    let span = span(0, 6);
    Ok(View::Bytes { span, powers })
}

#[test]
fn a_shorter_item_is_moved_to_a_date(rt: HostRuntime) -> Result<(), Fail> {
    let alloc = rt.alloc();
    let view = six_digits(alloc)?;
    let mut rules = Vec::new(alloc);
    rules.push(rule(RuleForm::Fill { view, from: 4 }))?;
    let seeds = [
        seed(fact(0, 0, Label::Tens), 2),
        seed(fact(0, 1, Label::Units), 2),
    ];
    let tens = Wanted {
        area: 0,
        offset: 0,
        first: Label::Tens,
        second: Label::Plain,
        steps1: 1,
        steps2: 2,
    };
    let units = Wanted {
        area: 0,
        offset: 1,
        first: Label::Units,
        second: Label::Plain,
        steps1: 1,
        steps2: 2,
    };
    assert!(rt; conflict_as(alloc, &seeds, rules.as_slice(), &[tens, units])?);
    Ok(())
}

/// The seeds of fifty dates of six bytes in the first area.
fn fifty_dates(alloc: Global) -> Result<Vec<Seed>, Fail> {
    let mut seeds = Vec::new(alloc);
    for item in 0..50 {
        seeds.push(seed(fact(0, item * 6, Label::Tens), item + 2))?;
        seeds.push(seed(fact(0, item * 6 + 1, Label::Units), item + 2))?;
    }
    Ok(seeds)
}

#[test]
fn the_chains_of_a_moved_group_are_short(rt: HostRuntime) -> Result<(), Fail> {
    let alloc = rt.alloc();
    let seeds = fifty_dates(alloc)?;
    let mut rules = Vec::new(alloc);
    rules.push(alike(0, 1, 300))?;
    rules.push(alike(1, 2, 300))?;
    rules.push(alike(2, 0, 300))?;
    rules.push(give(fact(2, 60, Label::Plain)))?;
    let wanted = [
        tens_and_plain(0, 1, 2),
        tens_and_plain(1, 2, 2),
        tens_and_plain(2, 2, 1),
    ];
    assert!(rt; conflict_as(alloc, seeds.as_slice(), rules.as_slice(), &wanted)?);
    Ok(())
}

/// Rules by which the heading in area 1 is moved to the reports 2 to 4, each of which is moved to the next.
fn heading_rules(alloc: Global) -> Result<Vec<RuleInst>, Fail>
    ensures { IfOk result (λ rules. All (λ r. IsFit r.form) rules.items) }
{
    let mut rules = Vec::new(alloc);
    for report in 2..5 {
        rules.push(alike(1, report, 66))?;
        rules.push(alike(report, report + 1, 66))?;
    }
    rules.push(alike(0, 1, 66))?;
    rules.push(give(fact(4, 60, Label::Plain)))?;
    Ok(rules)
}

#[test]
fn the_chains_over_a_heading_of_several_reports_are_short(rt: HostRuntime) -> Result<(), Fail> {
    let alloc = rt.alloc();
    let seeds = [seed(fact(0, 60, Label::Tens), 2)];
    let rules = heading_rules(alloc)?;
    let wanted = [
        tens_and_plain(0, 1, 3),
        tens_and_plain(1, 2, 2),
        tens_and_plain(2, 3, 3),
        tens_and_plain(3, 3, 2),
        tens_and_plain(4, 3, 1),
        tens_and_plain(5, 4, 2),
    ];
    assert!(rt; conflict_as(alloc, &seeds, rules.as_slice(), &wanted)?);
    Ok(())
}

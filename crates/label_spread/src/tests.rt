ghost use Rattle.std.specs.Prelude.{◌≡◌, IfOk, All};
ghost use Rattle.year_labels.specs.Forms.{IsFit, IsFitView};

use crate::spread;
use std::alloc::Global;
use std::test::Fail;
use y2k_base::{AreaId, BytePlace, FileId, List, Origin, Span};
use year_labels::{Fact, Label, Role, Rule, RuleForm, RuleInst, Seed, View};

fn fact(area: u32, offset: u32, label: Label) -> Fact {
    let area = AreaId(area);
    let place = BytePlace { area, offset };
    Fact { place, label }
}

fn plain(area: u32, offset: u32) -> Fact {
    fact(area, offset, Label::Plain)
}

/// A year in packed digits, at that byte of the second area.
fn packed_year(digits: u8, unit: u8, byte: u8) -> Fact {
    let label = Label::Packed { digits, unit, byte };
    fact(1, u32::from(byte), label)
}

/// The two digits of a year at the begin of the area.
fn year(area: u32) -> [Fact; 2] {
    [fact(area, 0, Label::Tens), fact(area, 1, Label::Units)]
}

fn span(area: u32, length: u32) -> Span
    ensures { result ≡ record { area = record { 0 = area }; offset = 0; length = length } }
{
    Span {
        area: AreaId(area),
        offset: 0,
        length,
    }
}

/// A view of an unsigned item of the area, a digit a byte.
fn digits(alloc: Global, area: u32, count: u8) -> Result<View, Fail>
    ensures { IfOk result IsFitView }
{
    let mut powers = List::new(alloc);
    for i in 0..count {
        powers.push(Some(count - 1 - i))?;
    }
    let span = span(area, u32::from(count));
    Ok(View::Bytes { span, powers })
}

/// A view of a packed item, which is the second area.
fn packed(digits: u8) -> View
    ensures { IsFitView result }
{
    let span = span(1, u32::from(digits) / 2 + 1);
    View::Packed { span, digits }
}

fn rule(form: RuleForm) -> RuleInst
    ensures { result.form ≡ form }
{
    let at = Origin {
        file: FileId(0),
        line: 1,
        column: 12,
    };
    RuleInst {
        rule: Rule::Digits,
        at,
        form,
    }
}

fn seeds(alloc: Global, facts: &[Fact]) -> Result<Vec<Seed>, Fail> {
    let mut seeds = Vec::new(alloc);
    for fact in facts {
        seeds.push(Seed {
            fact: *fact,
            row: 2,
        })?;
    }
    Ok(seeds)
}

/// Whether the rules give just these facts from the seeds.
fn give(alloc: Global, rules: &[RuleInst], given: &[Fact], facts: &[Fact]) -> Result<bool, Fail>
    requires { All (λ r. IsFit r.form) rules.now }
{
    let seeds = seeds(alloc, given)?;
    let labelling = spread(alloc, seeds.as_slice(), rules)?;
    for fact in facts {
        if !labelling.has(fact.place, fact.label) {
            return Ok(false);
        }
    }
    Ok(labelling.count() == facts.len())
}

/// Whether the one rule gives just these facts.
fn gives(alloc: Global, form: RuleForm, given: &[Fact], facts: &[Fact]) -> Result<bool, Fail>
    requires { IsFit form }
{
    let mut rules = Vec::new(alloc);
    rules.push(rule(form))?;
    give(alloc, rules.as_slice(), given, facts)
}

#[test]
fn a_move_gives_the_year_of_its_sender(rt: HostRuntime) -> Result<(), Fail> {
    let alloc = rt.alloc();
    let a = digits(alloc, 0, 6)?;
    let b = digits(alloc, 1, 6)?;
    let facts = [year(0)[0], year(0)[1], year(1)[0], year(1)[1]];
    assert!(rt; gives(alloc, RuleForm::Digits { a, b }, &year(0), &facts)?);
    Ok(())
}

#[test]
fn a_packed_item_has_the_year_on_all_its_bytes(rt: HostRuntime) -> Result<(), Fail> {
    let alloc = rt.alloc();
    let a = digits(alloc, 0, 6)?;
    let b = packed(6);
    let facts = [
        year(0)[0],
        year(0)[1],
        packed_year(6, 4, 0),
        packed_year(6, 4, 1),
        packed_year(6, 4, 2),
        packed_year(6, 4, 3),
    ];
    assert!(rt; gives(alloc, RuleForm::Digits { a, b }, &year(0), &facts)?);
    Ok(())
}

/// Moves of six bytes from the first area of each pair to the second.
fn moves(alloc: Global, pairs: &[(u32, u32)]) -> Result<Vec<RuleInst>, Fail>
    ensures { IfOk result (λ rules. All (λ r. IsFit r.form) rules.items) }
{
    let mut rules = Vec::new(alloc);
    for i in 0..pairs.len() {
        let (from, to) = pairs[i];
        let a = span(from, 6);
        let b = span(to, 6);
        rules.push(rule(RuleForm::Alike { a, b }))?;
    }
    Ok(rules)
}

#[test]
fn labels_do_not_support_each_other(rt: HostRuntime) -> Result<(), Fail> {
    let alloc = rt.alloc();
    let with = moves(alloc, &[(0, 1), (1, 2), (2, 1)])?;
    let facts = [
        year(0)[0],
        year(0)[1],
        year(1)[0],
        year(1)[1],
        year(2)[0],
        year(2)[1],
    ];
    assert!(rt; give(alloc, with.as_slice(), &year(0), &facts)?);
    let without = moves(alloc, &[(1, 2), (2, 1)])?;
    assert!(rt; give(alloc, without.as_slice(), &year(0), &year(0))?);
    Ok(())
}

/// The third area is the second less the first, all of two digits.
fn difference(alloc: Global) -> Result<RuleForm, Fail>
    ensures { IfOk result IsFit }
{
    let a = digits(alloc, 0, 2)?;
    let b = digits(alloc, 1, 2)?;
    let c = digits(alloc, 2, 2)?;
    Ok(RuleForm::Difference { a, b, c })
}

#[test]
fn the_operands_of_a_sum_and_of_a_difference(rt: HostRuntime) -> Result<(), Fail> {
    let alloc = rt.alloc();
    let [a0, a1] = year(0);
    let [b0, b1] = year(1);
    let [c0, c1] = year(2);
    let a = digits(alloc, 0, 2)?;
    let b = digits(alloc, 1, 2)?;
    let c = digits(alloc, 2, 2)?;
    let sum_facts = [a0, a1, plain(1, 0), plain(1, 1), c0, c1];
    assert!(rt; gives(alloc, RuleForm::Sum { a, b, c }, &[a0], &sum_facts)?);
    let difference_facts = [a0, a1, b0, b1, plain(2, 0), plain(2, 1)];
    assert!(rt; gives(alloc, difference(alloc)?, &[a0], &difference_facts)?);
    assert!(rt; gives(alloc, difference(alloc)?, &[], &[])?);
    Ok(())
}

/// The digit of that power of a packed item is made plain.
fn make_plain(digits: u8, power: u8) -> RuleForm
    ensures { IsFit result }
{
    RuleForm::GiveDigit {
        view: packed(digits),
        power,
        role: Role::Plain,
    }
}

#[test]
fn plain_is_given_to_a_packed_item_with_a_year_there(rt: HostRuntime) -> Result<(), Fail> {
    let alloc = rt.alloc();
    let both = [plain(1, 0), plain(1, 1)];
    assert!(rt; gives(alloc, make_plain(2, 0), &[], &both)?);
    assert!(rt; gives(alloc, make_plain(3, 0), &[], &[])?);
    let year = packed_year(3, 0, 1);
    assert!(rt; gives(alloc, make_plain(3, 1), &[year], &[year, both[0], both[1]])?);
    assert!(rt; gives(alloc, make_plain(3, 2), &[year], &[year])?);
    Ok(())
}

#[test]
fn a_year_past_the_digits_of_the_sender_is_plain(rt: HostRuntime) -> Result<(), Fail> {
    let alloc = rt.alloc();
    let [tens, units] = year(0);
    let facts = [tens, units, plain(0, 0), plain(0, 1)];
    for (from, count) in [(4, 4), (5, 3), (6, 2)] {
        let view = digits(alloc, 0, 6)?;
        let fill = RuleForm::Fill { view, from };
        assert!(rt; gives(alloc, fill, &[tens, units], &facts[..count])?);
    }
    Ok(())
}

ghost use Rattle.std.specs.Prelude.{◌≡◌, ◌++◌, ◌+◌, ◌∷◌, [], decimal, codes, IfOk, OnOk, string_bytes, slice_get};
ghost use Rattle.reports.specs.Conflicts as spec;
ghost use Rattle.reports.specs.Rows.{IsBetweenRows, ReadsAs, row_text, rows_text, written};

use crate::labels::{decimal_text, label_text};
use crate::names::{AreaName, area_names, name_at};
use crate::places::push_place;
use crate::rows::Rows;
use conflict_chain::{ChainStep, Conflict, Why};
use data_layout::Portfolio;
use std::alloc::{AllocError, Global};
use y2k_base::{Bytes, List, Memory, Text, Texts};
use year_labels::{Rule, RuleInst};

/// What the fields of a step are looked up in.
#[derive(Clone, Copy)]
pub(crate) struct Sources<'a> {
    names: &'a [AreaName],
    texts: &'a [Text],
    rules: &'a [RuleInst],
    /// The name of the seed file.
    seeds: &'a str,
}

/// Which step of which side of which conflict a step is, each counted from 1.
#[derive(Clone, Copy, Debug, PartialEq, Eq)]
struct StepNumber {
    conflict: usize,
    side: usize,
    step: usize,
}

/// Why a step holds, and where that stands.
struct Reason {
    rule: Bytes,
    at: Bytes,
}

impl Drop for Reason {
    fn drop(self) {
        let Reason {
            rule: _rule,
            at: _at,
        } = self;
    }
}

/// The report of conflicts, as CSV: the header `conflict,side,step,program,area,offset,label,rule,at`, and a row for
/// each step of the two chains of each conflict, in order. Conflicts, sides and the steps of a side count from 1. The
/// next four fields are those of a row of `label_rows`. `rule` is the name of the rule by which the step follows, and
/// `at` its place FILE:LINE:COLUMN; for a seed they are `seed` and FILE:ROW with the name of the seed file. What a chain
/// names and isn't there prints as nothing. A reader of CSV finds exactly these rows in the text. The form of the rows is
/// this project's choice.
#[tactic(auto, using(crate::proofs::Again::conflicts_again))]
pub fn conflict_rows(
    alloc: Global,
    texts: &Texts,
    portfolio: &Portfolio,
    rules: &[RuleInst],
    list: &[Conflict],
    seeds: &str,
) -> Result<Bytes, Memory>
    ensures text { IfOk result (λ text. text ≡ spec.conflict_report texts.now portfolio.now rules.now list.now seeds.now) }
    ensures again { IfOk result (λ text. ReadsAs text (spec.conflict_table texts.now portfolio.now rules.now list.now seeds.now)) }
{
    let text = report(alloc, texts, portfolio, rules, list, seeds)?;
    Ok(text)
}

fn report(
    alloc: Global,
    texts: &Texts,
    portfolio: &Portfolio,
    rules: &[RuleInst],
    list: &[Conflict],
    seeds: &str,
) -> Result<Bytes, Memory>
    ensures { IfOk result (λ text. text ≡ spec.conflict_report texts.now portfolio.now rules.now list.now seeds.now) }
{
    let names = area_names(alloc, portfolio)?;
    let sources = Sources {
        names: names.items(),
        texts: texts.list.items(),
        rules,
        seeds,
    };
    let mut rows = Rows::new(alloc);
    push_header(&mut rows)?;
    push_conflicts(alloc, &mut rows, &sources, list)?;
    let text = rows.into_bytes()?;
    Ok(text)
}

fn push_header(rows: &mut Rows) -> Result<(), Memory>
    requires between { IsBetweenRows rows.old }
    ensures between { OnOk result (IsBetweenRows rows.new) }
    ensures row { OnOk result (written rows.new ≡ written rows.old ++ row_text spec.conflict_header) }
{
    rows.push(&[
        "conflict".as_bytes(),
        "side".as_bytes(),
        "step".as_bytes(),
        "program".as_bytes(),
        "area".as_bytes(),
        "offset".as_bytes(),
        "label".as_bytes(),
        "rule".as_bytes(),
        "at".as_bytes(),
    ])
}

fn push_conflicts(
    alloc: Global,
    rows: &mut Rows,
    sources: &Sources,
    list: &[Conflict],
) -> Result<(), Memory>
    requires between { IsBetweenRows rows.old }
    ensures between { OnOk result (IsBetweenRows rows.new) }
    ensures rows { OnOk result (written rows.new ≡ written rows.old ++ rows_text (spec.rows_from (spec.known_of sources.now) 1 list.now)) }
{
    for i in 0..list.len() {
        push_sides(alloc, rows, sources, i + 1, &list[i])?;
    }
    Ok(())
}

/// The two sides of a conflict.
fn push_sides(
    alloc: Global,
    rows: &mut Rows,
    sources: &Sources,
    number: usize,
    conflict: &Conflict,
) -> Result<(), Memory>
    requires between { IsBetweenRows rows.old }
    ensures between { OnOk result (IsBetweenRows rows.new) }
    ensures rows { OnOk result (written rows.new ≡ written rows.old ++ rows_text (spec.both_rows (spec.known_of sources.now) number conflict.now)) }
{
    let first = conflict.chain1.steps.items();
    push_side(alloc, rows, sources, number, 1, first)?;
    let second = conflict.chain2.steps.items();
    push_side(alloc, rows, sources, number, 2, second)
}

fn push_side(
    alloc: Global,
    rows: &mut Rows,
    sources: &Sources,
    conflict: usize,
    side: usize,
    steps: &[ChainStep],
) -> Result<(), Memory>
    requires between { IsBetweenRows rows.old }
    ensures between { OnOk result (IsBetweenRows rows.new) }
    ensures rows { OnOk result (written rows.new ≡ written rows.old ++ rows_text (spec.side_rows (spec.known_of sources.now) conflict side 1 steps.now)) }
{
    for i in 0..steps.len() {
        let number = StepNumber {
            conflict,
            side,
            step: i + 1,
        };
        push_step(alloc, rows, sources, number, &steps[i])?;
    }
    Ok(())
}

fn push_step(
    alloc: Global,
    rows: &mut Rows,
    sources: &Sources,
    number: StepNumber,
    step: &ChainStep,
) -> Result<(), Memory>
    requires between { IsBetweenRows rows.old }
    ensures between { OnOk result (IsBetweenRows rows.new) }
    ensures row { OnOk result (written rows.new ≡ written rows.old ++ row_text (spec.step_row (spec.known_of sources.now) number.conflict number.side number.step step.now)) }
{
    let conflict = decimal_text(alloc, number.conflict)?;
    let side = decimal_text(alloc, number.side)?;
    let count = decimal_text(alloc, number.step)?;
    let (program, area) = name_at(sources.names, step.fact.place.area);
    let offset = decimal_text(alloc, step.fact.place.offset as usize)?;
    let label = label_text(alloc, step.fact.label)?;
    let reason = reason_of(alloc, sources, step.why)?;
    rows.push(&[
        conflict.as_bytes(),
        side.as_bytes(),
        count.as_bytes(),
        program,
        area,
        offset.as_bytes(),
        label.as_bytes(),
        reason.rule.items(),
        reason.at.items(),
    ])
}

fn reason_of(alloc: Global, sources: &Sources, why: Why) -> Result<Reason, Memory>
    ensures { IfOk result (λ reason. reason.rule ∷ reason.at ∷ [] ≡ spec.why_fields (spec.known_of sources.now) why) }
{
    match why {
        Why::Seed(row) => seed_reason(alloc, sources.seeds, row),
        Why::Rule(index) => rule_reason(alloc, sources.texts, sources.rules, index),
    }
}

fn seed_reason(alloc: Global, seeds: &str, row: u32) -> Result<Reason, Memory>
    ensures { IfOk result (λ reason. reason.rule ∷ reason.at ∷ [] ≡ spec.seed_fields seeds.now row) }
{
    let mut rule = List::new(alloc);
    rule.append("seed".as_bytes())?;
    let mut at = List::new(alloc);
    at.append(seeds.as_bytes())?;
    let rest = after_seeds(alloc, row)?;
    at.append(rest.as_bytes())?;
    Ok(Reason { rule, at })
}

fn after_seeds(alloc: Global, row: u32) -> Result<String, AllocError>
    ensures { IfOk result (λ text. string_bytes text ≡ codes ":" ++ decimal row) }
{
    format!(in alloc; ":{row}")
}

fn rule_reason(
    alloc: Global,
    texts: &[Text],
    rules: &[RuleInst],
    index: u32,
) -> Result<Reason, Memory>
    ensures { IfOk result (λ reason. reason.rule ∷ reason.at ∷ [] ≡ spec.rule_fields texts.now (slice_get rules.now index)) }
{
    let mut rule = List::new(alloc);
    let mut at = List::new(alloc);
    if let Some(inst) = rules.get(index as usize) {
        rule.append(rule_text(inst.rule).as_bytes())?;
        push_place(alloc, &mut at, texts, inst.at)?;
    }
    Ok(Reason { rule, at })
}

fn rule_text(rule: Rule) -> &'static str
    ensures { result.now ≡ spec.rule_text rule }
{
    match rule {
        Rule::Register => "register",
        Rule::Occurs => "occurs",
        Rule::File => "file",
        Rule::Origin => "origin",
        Rule::Bytes => "bytes",
        Rule::Digits => "digits",
        Rule::Fill => "fill",
        Rule::Excess => "excess",
        Rule::Add => "add",
        Rule::Subtract => "subtract",
        Rule::Plain => "plain",
    }
}

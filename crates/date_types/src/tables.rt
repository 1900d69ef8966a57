ghost use Rattle.std.specs.Prelude.{◌≡◌, ◌++◌, ◌∷◌, [], IfOk, OnOk, MatchOption, Some, None};
ghost use Rattle.date_types.specs.Alike.{AreOccurrencesAlike};
ghost use Rattle.date_types.specs.Tables as spec;
ghost use Rattle.statement_rules.specs.Statements.{origin_of};

use cobol_syntax::Program;
use data_layout::{FileArea, FileUse, Item, Layout, Portfolio, Step};
use statement_rules::origin_at;
use y2k_base::{AreaId, FileId, List, Memory, Origin, Span, Word};
use year_labels::{Rule, RuleForm, RuleInst};

fn outer_steps(items: &[Item], parent: Option<u32>) -> usize
    ensures { result ≡ spec.outer_steps items.now parent }
{
    match parent {
        None => 0,
        Some(group) => match items.get(group as usize) {
            None => 0,
            Some(item) => item.steps.len(),
        },
    }
}

/// The OCCURS of the item's own entry, if it has one.
fn own_step(items: &[Item], item: &Item) -> Option<Step>
    ensures { result ≡ spec.own_step items.now item.now }
{
    let outer = outer_steps(items, item.parent);
    item.steps.items().get(outer).copied()
}

fn repeats(span: Span, step: Step) -> bool
    ensures { result ≡ spec.repeats span step }
{
    step.count > 1
        && u64::from(span.offset) + u64::from(step.count) * u64::from(step.size) <= 1 << 32
}

fn word_of(number: u64) -> Result<u32, Memory>
    ensures { IfOk result (λ word. word ≡ number) }
{
    match u32::try_from(number) {
        Ok(word) => Ok(word),
        Err(_) => Err(Memory),
    }
}

fn all_but_one(span: Span, step: Step, first: u32) -> Result<Span, Memory>
    ensures { IfOk result (λ part. part ≡ spec.all_but_one span step first) }
{
    let before = u64::from(first) * u64::from(step.size);
    let length = u64::from(step.count.saturating_sub(1)) * u64::from(step.size);
    match u64::from(span.offset).checked_add(before) {
        None => Err(Memory),
        Some(offset) => Ok(Span {
            area: span.area,
            offset: word_of(offset)?,
            length: word_of(length)?,
        }),
    }
}

/// Adds that any two occurrences are alike.
fn add_occurrences(
    rules: &mut List<RuleInst>,
    at: Origin,
    span: Span,
    step: Step,
) -> Result<(), Memory>
    ensures rules { OnOk result (rules.new ≡ rules.old ++ spec.table_inst at span step ∷ []) }
    ensures alike { OnOk result (AreOccurrencesAlike rules.new span step) }
{
    add_next(rules, at, span, step)?;
    Ok(())
}

/// Adds that each occurrence and the next are alike.
fn add_next(rules: &mut List<RuleInst>, at: Origin, span: Span, step: Step) -> Result<(), Memory>
    ensures { OnOk result (rules.new ≡ rules.old ++ spec.table_inst at span step ∷ []) }
{
    let form = RuleForm::Alike {
        a: all_but_one(span, step, 0)?,
        b: all_but_one(span, step, 1)?,
    };
    rules.push(RuleInst {
        rule: Rule::Occurs,
        at,
        form,
    })?;
    Ok(())
}

fn add_table_of(
    rules: &mut List<RuleInst>,
    at: Origin,
    span: Span,
    step: Option<Step>,
) -> Result<(), Memory>
    ensures { OnOk result (rules.new ≡ rules.old ++ spec.table_rule at span step) }
{
    match step {
        None => Ok(()),
        Some(step) => {
            if repeats(span, step) {
                add_occurrences(rules, at, span, step)?;
                Ok(())
            } else {
                Ok(())
            }
        }
    }
}

/// Adds that the occurrences of each item with OCCURS are alike.
pub fn add_tables(rules: &mut List<RuleInst>, words: &[Word], items: &[Item]) -> Result<(), Memory>
    ensures { OnOk result (rules.new ≡ rules.old ++ spec.table_rules items.now words.now items.now) }
{
    let mut rest = items;
    while let [item, more @ ..] = rest {
        let at = origin_at(words, item.entry_at);
        add_table_of(rules, at, item.span, own_step(items, item))?;
        rest = more;
    }
    Ok(())
}

/// The first item of an area.
fn first_in(area: AreaId, items: &[Item]) -> Option<&Item>
    ensures { MatchOption result (spec.first_in area items.now ≡ None) (λ item. spec.first_in area items.now ≡ Some item.now) }
{
    let mut rest = items;
    while let [item, more @ ..] = rest {
        if item.span.area.0 == area.0 {
            return Some(item);
        }
        rest = more;
    }
    None
}

fn nowhere() -> Origin
    ensures { result ≡ origin_of None }
{
    Origin {
        file: FileId(0),
        line: 0,
        column: 0,
    }
}

fn entry_of(program: &Program, layout: &Layout, area: AreaId) -> Origin
    ensures { result ≡ spec.entry_of program.now.words (spec.first_in area layout.now.items) }
{
    match first_in(area, layout.items.items()) {
        None => nowhere(),
        Some(item) => origin_at(program.words.items(), item.entry_at),
    }
}

/// The entry of the first record of a record area.
fn area_entry(portfolio: &Portfolio, place: FileArea) -> Origin
    ensures { result ≡ spec.area_entry portfolio.now place }
{
    match portfolio.programs.items().get(place.program as usize) {
        None => nowhere(),
        Some(program) => match portfolio.layouts.items().get(place.program as usize) {
            None => nowhere(),
            Some(layout) => entry_of(program, layout, place.area),
        },
    }
}

fn record_of(place: FileArea, bytes: u32) -> Span
    ensures { result ≡ spec.record_of place bytes }
{
    Span {
        area: place.area,
        offset: 0,
        length: bytes,
    }
}

fn add_same(
    rules: &mut List<RuleInst>,
    portfolio: &Portfolio,
    bytes: u32,
    first: FileArea,
    later: FileArea,
) -> Result<(), Memory>
    ensures { OnOk result (rules.new ≡ rules.old ++ spec.same_file portfolio.now bytes first later ∷ []) }
{
    let form = RuleForm::Alike {
        a: record_of(first, bytes),
        b: record_of(later, bytes),
    };
    rules.push(RuleInst {
        rule: Rule::File,
        at: area_entry(portfolio, later),
        form,
    })?;
    Ok(())
}

fn add_later(
    rules: &mut List<RuleInst>,
    portfolio: &Portfolio,
    bytes: u32,
    first: FileArea,
    uses: &[FileArea],
) -> Result<(), Memory>
    ensures { OnOk result (rules.new ≡ rules.old ++ spec.later_rules portfolio.now bytes first uses.now) }
{
    let mut rest = uses;
    while let [later, more @ ..] = rest {
        add_same(rules, portfolio, bytes, first, *later)?;
        rest = more;
    }
    Ok(())
}

fn add_file(
    rules: &mut List<RuleInst>,
    portfolio: &Portfolio,
    bytes: u32,
    areas: &[FileArea],
) -> Result<(), Memory>
    ensures { OnOk result (rules.new ≡ rules.old ++ spec.file_rule portfolio.now bytes areas.now) }
{
    match areas {
        [] => Ok(()),
        [first, uses @ ..] => {
            add_later(rules, portfolio, bytes, *first, uses)?;
            Ok(())
        }
    }
}

/// Adds that the records of one file are alike in all programs.
pub fn add_files(
    rules: &mut List<RuleInst>,
    portfolio: &Portfolio,
    files: &[FileUse],
) -> Result<(), Memory>
    ensures { OnOk result (rules.new ≡ rules.old ++ spec.file_rules portfolio.now files.now) }
{
    let mut rest = files;
    while let [file, more @ ..] = rest {
        add_file(rules, portfolio, file.length, file.areas.items())?;
        rest = more;
    }
    Ok(())
}

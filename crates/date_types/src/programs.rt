ghost use Rattle.std.specs.Prelude.{◌≡◌, ◌++◌, OnOk};
ghost use Rattle.std.specs.List.{AllByRecursion};
ghost use Rattle.data_layout.specs.Index.{IsReady};
ghost use Rattle.date_types.specs.Programs as spec;

use crate::tables::add_tables;
use cobol_syntax::{Paragraph, Place, Program, Select, Sentence};
use data_layout::{Item, Layout};
use date_views::add_item;
use statement_rules::{add_place_use, add_statements, origin_at};
use std::alloc::Global;
use year_labels::RuleInst;
use y2k_base::{List, Memory, Origin, Word};

/// Adds what is plain of each item wherever it is used.
fn add_items(
    alloc: Global,
    rules: &mut List<RuleInst>,
    words: &[Word],
    items: &[Item],
) -> Result<(), Memory>
    ensures { OnOk result (rules.new ≡ rules.old ++ spec.items_rules words.now items.now) }
{
    let mut rest = items;
    while let [item, more @ ..] = rest {
        add_item(alloc, rules, origin_at(words, item.entry_at), item)?;
        rest = more;
    }
    Ok(())
}

fn add_status(
    alloc: Global,
    rules: &mut List<RuleInst>,
    layout: &Layout,
    at: Origin,
    status: &Option<Place>,
) -> Result<(), Memory>
    requires { IsReady layout.now }
    ensures { OnOk result (rules.new ≡ rules.old ++ spec.status_rules layout.now at status.now) }
{
    match status {
        None => Ok(()),
        Some(place) => {
            add_place_use(alloc, rules, layout, at, place)?;
            Ok(())
        }
    }
}

/// Adds that the items of FILE STATUS are plain.
fn add_selects(
    alloc: Global,
    rules: &mut List<RuleInst>,
    layout: &Layout,
    words: &[Word],
    selects: &[Select],
) -> Result<(), Memory>
    requires { IsReady layout.now }
    ensures { OnOk result (rules.new ≡ rules.old ++ spec.selects_rules layout.now words.now selects.now) }
{
    let mut rest = selects;
    while let [select, more @ ..] = rest {
        let at = origin_at(words, select.at);
        add_status(alloc, rules, layout, at, &select.status)?;
        rest = more;
    }
    Ok(())
}

fn add_sentences(
    alloc: Global,
    rules: &mut List<RuleInst>,
    layout: &Layout,
    words: &[Word],
    sentences: &[Sentence],
) -> Result<(), Memory>
    requires { IsReady layout.now }
    ensures { OnOk result (rules.new ≡ rules.old ++ spec.sentences_rules layout.now words.now sentences.now) }
{
    let mut rest = sentences;
    while let [sentence, more @ ..] = rest {
        add_statements(alloc, rules, layout, words, &sentence.statements)?;
        rest = more;
    }
    Ok(())
}

fn add_paragraphs(
    alloc: Global,
    rules: &mut List<RuleInst>,
    layout: &Layout,
    words: &[Word],
    paragraphs: &[Paragraph],
) -> Result<(), Memory>
    requires { IsReady layout.now }
    ensures { OnOk result (rules.new ≡ rules.old ++ spec.paragraphs_rules layout.now words.now paragraphs.now) }
{
    let mut rest = paragraphs;
    while let [paragraph, more @ ..] = rest {
        add_sentences(alloc, rules, layout, words, paragraph.sentences.items())?;
        rest = more;
    }
    Ok(())
}

/// Adds the rules of a program with its layout.
fn add_program(
    alloc: Global,
    rules: &mut List<RuleInst>,
    program: &Program,
    layout: &Layout,
) -> Result<(), Memory>
    requires { IsReady layout.now }
    ensures { OnOk result (rules.new ≡ rules.old ++ spec.program_rules program.now layout.now) }
{
    let words = program.words.items();
    add_items(alloc, rules, words, layout.items.items())?;
    add_tables(rules, words, layout.items.items())?;
    add_selects(alloc, rules, layout, words, program.selects.items())?;
    add_paragraphs(alloc, rules, layout, words, program.paragraphs.items())?;
    Ok(())
}

/// Adds the rules of all programs, in order.
pub(crate) fn add_programs(
    alloc: Global,
    rules: &mut List<RuleInst>,
    programs: &[Program],
    layouts: &[Layout],
) -> Result<(), Memory>
    requires { AllByRecursion IsReady layouts.now }
    ensures { OnOk result (rules.new ≡ rules.old ++ spec.programs_rules programs.now layouts.now) }
{
    let mut programs_left = programs;
    let mut layouts_left = layouts;
    while let [program, more @ ..] = programs_left {
        match layouts_left {
            [] => return Ok(()),
            [layout, others @ ..] => {
                add_program(alloc, rules, program, layout)?;
                programs_left = more;
                layouts_left = others;
            }
        }
    }
    Ok(())
}

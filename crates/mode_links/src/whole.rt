ghost use Rattle.std.specs.Prelude.{◌≡◌, ◌++◌, IsTrue, IfOk, OnOk, All};
ghost use Rattle.std.specs.List.{AllByRecursion};
ghost use Rattle.data_layout.specs.Index.{IsReady};
ghost use Rattle.year_labels.specs.Forms.{IsFit};
ghost use Rattle.mode_links.specs.Whole as spec;

use crate::statements::add_statements;
use cobol_syntax::{Paragraph, Program, Sentence};
use data_layout::{Layout, Portfolio};
use date_types::{add_files, add_pictures, add_tables, is_fit};
use std::alloc::Global;
use y2k_base::{List, Memory, Twin, Word};
use year_labels::{Labelling, Rule, RuleForm, RuleInst};

fn add_sentences(
    alloc: Global,
    links: &mut List<RuleInst>,
    labelling: &Labelling,
    layout: &Layout,
    words: &[Word],
    sentences: &[Sentence],
) -> Result<(), Memory>
    requires { IsReady layout.now }
    ensures { OnOk result (links.new ≡ links.old ++ spec.sentences_links labelling.now layout.now words.now sentences.now) }
{
    let mut rest = sentences;
    while let [sentence, more @ ..] = rest {
        add_statements(alloc, links, labelling, layout, words, &sentence.statements)?;
        rest = more;
    }
    Ok(())
}

fn add_paragraphs(
    alloc: Global,
    links: &mut List<RuleInst>,
    labelling: &Labelling,
    layout: &Layout,
    words: &[Word],
    paragraphs: &[Paragraph],
) -> Result<(), Memory>
    requires { IsReady layout.now }
    ensures { OnOk result (links.new ≡ links.old ++ spec.paragraphs_links labelling.now layout.now words.now paragraphs.now) }
{
    let mut rest = paragraphs;
    while let [paragraph, more @ ..] = rest {
        let sentences = paragraph.sentences.items();
        add_sentences(alloc, links, labelling, layout, words, sentences)?;
        rest = more;
    }
    Ok(())
}

/// Adds the links of the tables and the statements of a program with its layout.
fn add_program(
    alloc: Global,
    links: &mut List<RuleInst>,
    labelling: &Labelling,
    program: &Program,
    layout: &Layout,
) -> Result<(), Memory>
    requires { IsReady layout.now }
    ensures { OnOk result (links.new ≡ links.old ++ spec.program_links labelling.now program.now layout.now) }
{
    let words = program.words.items();
    let paragraphs = program.paragraphs.items();
    add_tables(links, words, layout.items.items())?;
    add_paragraphs(alloc, links, labelling, layout, words, paragraphs)?;
    Ok(())
}

fn add_programs(
    alloc: Global,
    links: &mut List<RuleInst>,
    labelling: &Labelling,
    programs: &[Program],
    layouts: &[Layout],
) -> Result<(), Memory>
    requires { AllByRecursion IsReady layouts.now }
    ensures { OnOk result (links.new ≡ links.old ++ spec.programs_links labelling.now programs.now layouts.now) }
{
    let mut programs_left = programs;
    let mut layouts_left = layouts;
    while let [program, more @ ..] = programs_left {
        match layouts_left {
            [] => return Ok(()),
            [layout, others @ ..] => {
                add_program(alloc, links, labelling, program, layout)?;
                programs_left = more;
                layouts_left = others;
            }
        }
    }
    Ok(())
}

/// The rules among which the links are.
fn linking_rules(
    alloc: Global,
    portfolio: &Portfolio,
    labelling: &Labelling,
) -> Result<List<RuleInst>, Memory>
    requires { AllByRecursion IsReady portfolio.now.layouts }
    ensures { IfOk result (λ rules. rules ≡ spec.linking_rules labelling.now portfolio.now) }
{
    let programs = portfolio.programs.items();
    let layouts = portfolio.layouts.items();
    let mut rules = List::new(alloc);
    add_programs(alloc, &mut rules, labelling, programs, layouts)?;
    add_files(&mut rules, portfolio, portfolio.files.items())?;
    add_pictures(alloc, &mut rules, programs, layouts)?;
    Ok(rules)
}

fn is_linking(rule: Rule) -> bool
    ensures { result ≡ spec.is_linking rule }
{
    match rule {
        Rule::Register => false,
        Rule::Occurs => true,
        Rule::File => true,
        Rule::Origin => true,
        Rule::Bytes => true,
        Rule::Digits => true,
        Rule::Fill => false,
        Rule::Excess => false,
        Rule::Add => true,
        Rule::Subtract => true,
        Rule::Plain => false,
    }
}

fn add_link(alloc: Global, links: &mut List<RuleForm>, rule: &RuleInst) -> Result<(), Memory>
    ensures { OnOk result (links.new ≡ links.old ++ spec.link_of rule.now) }
{
    if is_linking(rule.rule) {
        links.push(rule.form.twin(alloc)?)?;
        Ok(())
    } else {
        Ok(())
    }
}

/// The forms of those of the rules that link.
fn links_among(alloc: Global, rules: &[RuleInst]) -> Result<List<RuleForm>, Memory>
    ensures { IfOk result (λ links. links ≡ spec.links_among rules.now) }
{
    let mut links = List::new(alloc);
    let mut rest = rules;
    while let [rule, more @ ..] = rest {
        add_link(alloc, &mut links, rule)?;
        rest = more;
    }
    Ok(links)
}

fn are_fit(links: &[RuleForm]) -> bool
    ensures { IsTrue result → All IsFit links.now }
{
    for link in links {
        if !is_fit(link) {
            return false;
        }
    }
    true
}

/// The links between the years of a portfolio with that labelling, in the form in which `window_modes` takes them: those of
/// each program in order, those of its files, and those of items with one PICTURE word. A move that is bridged and a
/// comparison of two numbers link nothing. A span that 32 bits can't address is want of memory.
pub fn links_of(
    alloc: Global,
    portfolio: &Portfolio,
    labelling: &Labelling,
) -> Result<List<RuleForm>, Memory>
    requires { AllByRecursion IsReady portfolio.now.layouts }
    ensures links { IfOk result (λ links. links ≡ spec.links labelling.now portfolio.now) }
    ensures fit { IfOk result (All IsFit) }
{
    let rules = linking_rules(alloc, portfolio, labelling)?;
    let links = links_among(alloc, rules.items())?;
    if are_fit(links.items()) {
        Ok(links)
    } else {
        Err(Memory)
    }
}

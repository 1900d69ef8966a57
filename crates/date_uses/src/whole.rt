ghost use Rattle.std.specs.Prelude.{◌≡◌, ◌+◌, ◌++◌, IfOk, OnOk};
ghost use Rattle.std.specs.List.{AllByRecursion};
ghost use Rattle.data_layout.specs.Index.{IsReady};
ghost use Rattle.date_uses.specs.Uses as spec;

use crate::entries::{add_conds, add_values};
use crate::statements::add_statements;
use crate::uses::DateUse;
use cobol_syntax::{Paragraph, Program, Sentence};
use data_layout::{Layout, Portfolio};
use std::alloc::Global;
use y2k_base::{List, Memory, Word};
use year_labels::Labelling;

fn add_sentences(
    alloc: Global,
    uses: &mut List<DateUse>,
    labelling: &Labelling,
    layout: &Layout,
    program: u32,
    words: &[Word],
    sentences: &[Sentence],
) -> Result<(), Memory>
    requires { IsReady layout.now }
    ensures { OnOk result (uses.new ≡ uses.old ++ spec.sentences_uses labelling.now layout.now program words.now sentences.now) }
{
    let mut rest = sentences;
    while let [sentence, more @ ..] = rest {
        let statements = &sentence.statements;
        add_statements(alloc, uses, labelling, layout, program, words, statements)?;
        rest = more;
    }
    Ok(())
}

fn add_paragraphs(
    alloc: Global,
    uses: &mut List<DateUse>,
    labelling: &Labelling,
    layout: &Layout,
    program: u32,
    words: &[Word],
    paragraphs: &[Paragraph],
) -> Result<(), Memory>
    requires { IsReady layout.now }
    ensures { OnOk result (uses.new ≡ uses.old ++ spec.paragraphs_uses labelling.now layout.now program words.now paragraphs.now) }
{
    let mut rest = paragraphs;
    while let [paragraph, more @ ..] = rest {
        let sentences = paragraph.sentences.items();
        add_sentences(alloc, uses, labelling, layout, program, words, sentences)?;
        rest = more;
    }
    Ok(())
}

/// Adds the uses of the program of this number with its layout.
fn add_program(
    alloc: Global,
    uses: &mut List<DateUse>,
    labelling: &Labelling,
    number: u32,
    program: &Program,
    layout: &Layout,
) -> Result<(), Memory>
    requires { IsReady layout.now }
    ensures { OnOk result (uses.new ≡ uses.old ++ spec.program_uses labelling.now number program.now layout.now) }
{
    let words = program.words.items();
    let paragraphs = program.paragraphs.items();
    add_values(alloc, uses, number, program, layout)?;
    add_conds(alloc, uses, number, words, layout, layout.conds.items())?;
    add_paragraphs(alloc, uses, labelling, layout, number, words, paragraphs)?;
    Ok(())
}

fn next_number(number: u32) -> Result<u32, Memory>
    ensures { IfOk result (λ next. next ≡ number + 1) }
{
    match number.checked_add(1) {
        None => Err(Memory),
        Some(next) => Ok(next),
    }
}

/// Adds the uses of programs, the first of which has this number, with their layouts.
fn add_programs(
    alloc: Global,
    uses: &mut List<DateUse>,
    labelling: &Labelling,
    first: u32,
    programs: &[Program],
    layouts: &[Layout],
) -> Result<(), Memory>
    requires { AllByRecursion IsReady layouts.now }
    ensures { OnOk result (uses.new ≡ uses.old ++ spec.programs_uses labelling.now first programs.now layouts.now) }
{
    let mut number = first;
    let mut programs_left = programs;
    let mut layouts_left = layouts;
    while let [program, more @ ..] = programs_left {
        match layouts_left {
            [] => return Ok(()),
            [layout, others @ ..] => {
                add_program(alloc, uses, labelling, number, program, layout)?;
                number = next_number(number)?;
                programs_left = more;
                layouts_left = others;
            }
        }
    }
    Ok(())
}

/// All the uses of a portfolio: of each program in order, those of its entries and then those of its statements, in text order.
/// More programs or items than 32 bits can number are want of memory.
pub fn uses_of(
    alloc: Global,
    portfolio: &Portfolio,
    labelling: &Labelling,
) -> Result<List<DateUse>, Memory>
    requires { AllByRecursion IsReady portfolio.now.layouts }
    ensures { IfOk result (λ uses. uses ≡ spec.uses labelling.now portfolio.now) }
{
    let programs = portfolio.programs.items();
    let layouts = portfolio.layouts.items();
    let mut uses = List::new(alloc);
    add_programs(alloc, &mut uses, labelling, 0, programs, layouts)?;
    Ok(uses)
}

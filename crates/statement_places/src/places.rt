ghost use Rattle.std.specs.Prelude.{◌≡◌, IfOk};
ghost use Rattle.statement_places.specs.Found as found;
ghost use Rattle.statement_places.specs.Statements as spec;

use crate::left::Left;
use cobol_syntax::{Paragraph, Program, Sentence, Statement};
use std::alloc::Global;
use y2k_base::{Memory, Origin, Word};

fn place_in_list(alloc: Global, list: &[Statement], number: u32) -> Result<Option<u32>, Memory>
    ensures { IfOk result (λ at. at ≡ spec.place_in number (spec.of_statements list.now)) }
{
    let mut left = Left::none(alloc);
    left.push(list)?;
    let at = left.find(number)?;
    Ok(at)
}

fn place_in_sentences(
    alloc: Global,
    sentences: &[Sentence],
    number: u32,
) -> Result<Option<u32>, Memory>
    ensures { IfOk result (λ at. at ≡ found.in_sentences number sentences.now) }
{
    let mut rest = sentences;
    while let [sentence, more @ ..] = rest {
        match place_in_list(alloc, sentence.statements.items(), number)? {
            Some(at) => return Ok(Some(at)),
            None => rest = more,
        }
    }
    Ok(None)
}

fn place_in_paragraphs(
    alloc: Global,
    paragraphs: &[Paragraph],
    number: u32,
) -> Result<Option<u32>, Memory>
    ensures { IfOk result (λ at. at ≡ found.in_paragraphs number paragraphs.now) }
{
    let mut rest = paragraphs;
    while let [paragraph, more @ ..] = rest {
        match place_in_sentences(alloc, paragraph.sentences.items(), number)? {
            Some(at) => return Ok(Some(at)),
            None => rest = more,
        }
    }
    Ok(None)
}

/// The position of the first word of the statement with this number, in the words of its program. `None` where no
/// statement has the number.
#[tactic(auto, using(crate::proofs::Found::by_paragraphs))]
pub fn statement_at(alloc: Global, program: &Program, number: u32) -> Result<Option<u32>, Memory>
    ensures { IfOk result (λ at. at ≡ spec.statement_at program.now number) }
{
    let at = place_in_paragraphs(alloc, program.paragraphs.items(), number)?;
    Ok(at)
}

fn origin_at(words: &[Word], at: Option<u32>) -> Option<Origin>
    ensures { result ≡ spec.origin_at words.now at }
{
    match at {
        None => None,
        Some(at) => match words.get(at as usize) {
            None => None,
            Some(word) => Some(word.origin),
        },
    }
}

/// Where the statement with this number stands in the texts. `None` where no statement has the number, or where it
/// has no word.
pub fn statement_origin(
    alloc: Global,
    program: &Program,
    number: u32,
) -> Result<Option<Origin>, Memory>
    ensures { IfOk result (λ origin. origin ≡ spec.statement_origin program.now number) }
{
    let at = statement_at(alloc, program, number)?;
    Ok(origin_at(program.words.items(), at))
}

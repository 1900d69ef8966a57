ghost use Rattle.std.specs.Prelude.{◌≡◌, ◌++◌, map, option_map, option_to_list, IfOk, OnOk};
ghost use Rattle.statement_places.specs.Parts as spec;
ghost use Rattle.statement_places.specs.Parts.{seen};

use crate::left::Left;
use cobol_syntax::{
    Condition, Control, Expr, Form, Operand, Paragraph, Place, Program, Register, Sentence,
    Statement,
};
use std::alloc::Global;
use y2k_base::Memory;

/// What a program may have written anew: a MOVE, a computation or an ACCEPT, or the whole condition of an IF or an UNTIL.
/// `at` and `end` are those of the text statement: several receivers make several parts of one text statement, one after the
/// other.
#[derive(Clone, Copy)]
pub enum Part<'a> {
    Move {
        at: u32,
        end: u32,
        from: &'a Operand,
        to: &'a Place,
    },
    Compute {
        at: u32,
        end: u32,
        to: &'a Place,
        rounded: bool,
        value: &'a Expr,
    },
    Accept {
        at: u32,
        end: u32,
        to: &'a Place,
        from: Register,
    },
    Test {
        of: &'a Condition,
    },
}

fn control_part<'a>(control: &'a Control) -> Option<Part<'a>>
    ensures { option_map seen result ≡ spec.control_part control.now }
{
    match control {
        Control::Once => None,
        Control::Times(_) => None,
        Control::Until { test, .. } => Some(Part::Test { of: test }),
    }
}

/// What of a statement itself may be written anew.
fn own_part<'a>(form: &'a Form, at: u32, end: u32) -> Option<Part<'a>>
    ensures { option_map seen result ≡ (spec.given form.now).own at end }
{
    match form {
        Form::Move { from, to } => Some(Part::Move { at, end, from, to }),
        Form::Compute {
            to,
            rounded,
            value,
            ..
        } => Some(Part::Compute {
            at,
            end,
            to,
            rounded: *rounded,
            value,
        }),
        Form::Accept { to, from } => Some(Part::Accept {
            at,
            end,
            to,
            from: *from,
        }),
        Form::If { test, .. } => Some(Part::Test { of: test }),
        Form::Perform { control, .. } => control_part(control),
        Form::NextSentence => None,
        Form::GoTo { .. } => None,
        Form::Stop => None,
        Form::Nothing => None,
        Form::Open { .. } => None,
        Form::Close { .. } => None,
        Form::Read { .. } => None,
        Form::Write { .. } => None,
        Form::Show { .. } => None,
    }
}

fn add_own<'a>(parts: &mut Vec<Part<'a>>, statement: &'a Statement) -> Result<(), Memory>
    ensures { OnOk result (map seen parts.new.items ≡ map seen parts.old.items ++ option_to_list ((spec.given statement.now.form).own statement.now.at statement.now.end)) }
{
    match own_part(&statement.form, statement.at, statement.end) {
        None => Ok(()),
        Some(part) => {
            parts.push(part)?;
            Ok(())
        }
    }
}

/// Adds the parts of all that is left.
fn add_left<'a>(parts: &mut Vec<Part<'a>>, left: &mut Left<'a>) -> Result<(), Memory>
    ensures { OnOk result (map seen parts.new.items ≡ map seen parts.old.items ++ spec.left left.old) }
{
    while let Some(list) = left.lists.pop() {
        match list {
            [] => {}
            [statement, more @ ..] => {
                add_own(parts, statement)?;
                left.push(more)?;
                left.push_within(&statement.form)?;
            }
        }
    }
    Ok(())
}

fn add_statements<'a>(
    alloc: Global,
    parts: &mut Vec<Part<'a>>,
    list: &'a [Statement],
) -> Result<(), Memory>
    ensures { OnOk result (map seen parts.new.items ≡ map seen parts.old.items ++ spec.of_statements list.now) }
{
    let mut left = Left::none(alloc);
    left.push(list)?;
    add_left(parts, &mut left)?;
    Ok(())
}

fn add_sentences<'a>(
    alloc: Global,
    parts: &mut Vec<Part<'a>>,
    sentences: &'a [Sentence],
) -> Result<(), Memory>
    ensures { OnOk result (map seen parts.new.items ≡ map seen parts.old.items ++ spec.of_sentences sentences.now) }
{
    let mut rest = sentences;
    while let [sentence, more @ ..] = rest {
        add_statements(alloc, parts, sentence.statements.items())?;
        rest = more;
    }
    Ok(())
}

fn add_paragraphs<'a>(
    alloc: Global,
    parts: &mut Vec<Part<'a>>,
    paragraphs: &'a [Paragraph],
) -> Result<(), Memory>
    ensures { OnOk result (map seen parts.new.items ≡ map seen parts.old.items ++ spec.of_paragraphs paragraphs.now) }
{
    let mut rest = paragraphs;
    while let [paragraph, more @ ..] = rest {
        add_sentences(alloc, parts, paragraph.sentences.items())?;
        rest = more;
    }
    Ok(())
}

/// The parts of a program in the order of its text: those within a statement come after its own.
pub fn parts_of<'a>(alloc: Global, program: &'a Program) -> Result<Vec<Part<'a>>, Memory>
    ensures { IfOk result (λ parts. map seen parts.items ≡ spec.parts program.now) }
{
    let mut parts = Vec::new(alloc);
    add_paragraphs(alloc, &mut parts, program.paragraphs.items())?;
    Ok(parts)
}

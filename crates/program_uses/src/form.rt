ghost use Rattle.std.specs.Prelude.{◌≡◌, map, None};
ghost use Rattle.data_layout.specs.Index.{IsReady};
ghost use Rattle.program_uses.specs.Names.{known};
ghost use Rattle.program_uses.specs.Statements as spec;

use crate::beside::{Beside, beside_fault};
use crate::control::{control_fault, range_fault};
use crate::file::{read_fault, write_fault};
use crate::names::NameMap;
use crate::overlap::beside_apart;
use crate::simple::{compute_fault, move_fault, show_fault};
use cobol_syntax::{Branch, Form, Paragraph, Sentence, Statement};
use data_layout::Layout;
use operand_uses::{UseFault, condition_fault, name_fault, place_fault, sooner};

/// The names that statements use beside those of data.
#[derive(Drop)]
pub(crate) struct Names {
    pub files: NameMap,
    pub paragraphs: NameMap,
}

/// Whether a statement may be one of several of its text, and where that begins. Arithmetic with a size phrase, or
/// with a receiver that overlaps an operand, may not.
fn beside_of_form(layout: &Layout, names: &Names, owner: u32, form: &Form) -> Beside
    requires { IsReady layout.now }
    ensures { result ≡ (spec.tell_form layout.now (known names.now.files) (known names.now.paragraphs) form.now owner).beside }
{
    match form {
        Form::Compute {
            to,
            value,
            size,
            ..
        } => match size {
            None => beside_apart(layout, owner, to, value),
            Some(_) => beside(owner, false),
        },
        Form::Move { .. } => beside(owner, true),
        Form::If { .. } => beside(owner, true),
        Form::NextSentence => beside(owner, true),
        Form::GoTo { .. } => beside(owner, true),
        Form::Stop => beside(owner, true),
        Form::Nothing => beside(owner, true),
        Form::Perform { .. } => beside(owner, true),
        Form::Open { .. } => beside(owner, true),
        Form::Close { .. } => beside(owner, true),
        Form::Read { .. } => beside(owner, true),
        Form::Write { .. } => beside(owner, true),
        Form::Accept { .. } => beside(owner, true),
        Form::Show { .. } => beside(owner, true),
    }
}

fn beside(at: u32, right: bool) -> Beside
    ensures { result ≡ record { at = at; right = right } }
{
    Beside { at, right }
}

fn beside_of(layout: &Layout, names: &Names, statement: &Statement) -> Beside
    requires { IsReady layout.now }
    ensures { result ≡ (spec.tell layout.now (known names.now.files) (known names.now.paragraphs) statement.now).beside }
{
    beside_of_form(layout, names, statement.at, &statement.form)
}

/// The first fault in a statement and in what it holds.
#[cycle(statement_fault)]
fn statement_fault(layout: &Layout, names: &Names, statement: &Statement) -> Option<UseFault>
    requires { IsReady layout.now }
    ensures { result ≡ (spec.tell layout.now (known names.now.files) (known names.now.paragraphs) statement.now).fault }
{
    form_fault(layout, names, statement.at, &statement.form)
}

#[cycle(statement_fault)]
fn form_fault(layout: &Layout, names: &Names, owner: u32, form: &Form) -> Option<UseFault>
    requires { IsReady layout.now }
    ensures { result ≡ (spec.tell_form layout.now (known names.now.files) (known names.now.paragraphs) form.now owner).fault }
{
    match form {
        Form::Move { from, to } => move_fault(layout, owner, from, to),
        Form::Compute {
            to,
            rounded: _,
            value,
            rest,
            size,
        } => {
            let own = compute_fault(layout, owner, to, value, rest);
            match size {
                None => own,
                Some(branch) => sooner(own, branch_fault(layout, names, branch)),
            }
        }
        Form::If { test, yes, other } => {
            let condition = condition_fault(layout, owner, test);
            let first = list_fault(layout, names, yes.items());
            let second = list_fault(layout, names, other.items());
            sooner(condition, sooner(first, second))
        }
        Form::NextSentence => None,
        Form::GoTo { name } => name_fault(owner, names.paragraphs.wrong(name)),
        Form::Stop => None,
        Form::Nothing => None,
        Form::Perform {
            range,
            body,
            control,
        } => {
            let outside = range_fault(&names.paragraphs, owner, range);
            let turns = control_fault(layout, owner, control);
            let inside = list_fault(layout, names, body.items());
            sooner(outside, sooner(turns, inside))
        }
        Form::Open { mode: _, file } => name_fault(owner, names.files.wrong(file)),
        Form::Close { file } => name_fault(owner, names.files.wrong(file)),
        Form::Read { file, into, end } => {
            let own = read_fault(layout, &names.files, owner, file, into);
            match end {
                None => own,
                Some(branch) => sooner(own, branch_fault(layout, names, branch)),
            }
        }
        Form::Write {
            name,
            from,
            advance,
        } => write_fault(layout, owner, name, from, advance),
        Form::Accept { to, from: _ } => place_fault(layout, owner, to),
        Form::Show { operands } => show_fault(layout, owner, operands.items()),
    }
}

#[cycle(statement_fault)]
fn branch_fault(layout: &Layout, names: &Names, branch: &Branch) -> Option<UseFault>
    requires { IsReady layout.now }
    ensures { result ≡ spec.branch_fault layout.now (known names.now.files) (known names.now.paragraphs) branch.now }
{
    sooner(
        list_fault(layout, names, branch.yes.items()),
        list_fault(layout, names, branch.no.items()),
    )
}

/// The first fault in statements one after another.
#[cycle(statement_fault)]
fn list_fault(layout: &Layout, names: &Names, statements: &[Statement]) -> Option<UseFault>
    requires { IsReady layout.now }
    ensures { result ≡ spec.listed None None (map (spec.tell layout.now (known names.now.files) (known names.now.paragraphs)) statements.now) }
{
    let mut fault = None;
    let mut last = None;
    for statement in statements {
        let next = beside_of(layout, names, statement);
        let own = statement_fault(layout, names, statement);
        fault = sooner(fault, sooner(beside_fault(last, next), own));
        last = Some(next);
    }
    fault
}

fn sentences_fault(layout: &Layout, names: &Names, sentences: &[Sentence]) -> Option<UseFault>
    requires { IsReady layout.now }
    ensures { result ≡ spec.sentences_fault layout.now (known names.now.files) (known names.now.paragraphs) None sentences.now }
{
    let mut fault = None;
    for sentence in sentences {
        fault = sooner(
            fault,
            list_fault(layout, names, sentence.statements.items()),
        );
    }
    fault
}

/// The first fault in the procedure division.
pub(crate) fn paragraphs_fault(
    layout: &Layout,
    names: &Names,
    paragraphs: &[Paragraph],
) -> Option<UseFault>
    requires { IsReady layout.now }
    ensures { result ≡ spec.paragraphs_fault layout.now (known names.now.files) (known names.now.paragraphs) None paragraphs.now }
{
    let mut fault = None;
    for paragraph in paragraphs {
        fault = sooner(
            fault,
            sentences_fault(layout, names, paragraph.sentences.items()),
        );
    }
    fault
}

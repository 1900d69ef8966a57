use super::*;
use cobol_syntax::{
    CondForm, Condition, Control, Form, NamePair, Operand, Paragraph, Place, Sentence, Statement,
    StatementId, Vary,
};
use decimal_bytes::Scaled;
use std::alloc::Global;
use std::test::Fail;
use y2k_base::{Bytes, List, Memory};

/// A statement without statements of its own. Names are single letters.
#[derive(Clone, Copy)]
enum Line {
    Nothing,
    Stop,
    NextSentence,
    GoTo(u8),
    Perform(u8, u8),
    Times(u8, u8, i128),
    Until(u8, u8),
}

/// A step by the number of its statement. Where a condition is tested, `true` lets it hold.
#[derive(Clone, Copy, PartialEq, Eq)]
enum Step {
    Do(u32),
    If(u32, bool),
    Turn(u32),
    Set(u32),
    Advance(u32),
    Test(u32, bool),
    End,
}

fn name(alloc: Global, letter: u8) -> Result<Bytes, Memory> {
    let mut bytes = List::new(alloc);
    bytes.push(letter)?;
    Ok(bytes)
}

fn place(alloc: Global) -> Place {
    Place {
        names: List::new(alloc),
        subs: List::new(alloc),
        cut: None,
        at: 0,
        end: 0,
    }
}

fn condition(alloc: Global) -> Condition {
    Condition {
        at: 0,
        end: 0,
        form: CondForm::Named(place(alloc)),
    }
}

fn count(number: i128) -> Operand {
    let value = Scaled { number, scale: 0 };
    Operand::Number {
        value,
        digits: 1,
        at: 0,
    }
}

fn vary(alloc: Global) -> Vary {
    Vary {
        item: place(alloc),
        from: count(1),
        by: count(1),
    }
}

fn range(alloc: Global, first: u8, last: u8, control: Control) -> Result<Form, Memory> {
    let first = name(alloc, first)?;
    let last = name(alloc, last)?;
    Ok(Form::Perform {
        range: Some(NamePair { first, last }),
        body: List::new(alloc),
        control,
    })
}

fn until(alloc: Global) -> Control {
    Control::Until {
        after: false,
        test: condition(alloc),
        vary: None,
    }
}

fn form(alloc: Global, line: Line) -> Result<Form, Memory> {
    match line {
        Line::Nothing => Ok(Form::Nothing),
        Line::Stop => Ok(Form::Stop),
        Line::NextSentence => Ok(Form::NextSentence),
        Line::GoTo(letter) => Ok(Form::GoTo {
            name: name(alloc, letter)?,
        }),
        Line::Perform(first, last) => range(alloc, first, last, Control::Once),
        Line::Times(first, last, number) => {
            range(alloc, first, last, Control::Times(count(number)))
        }
        Line::Until(first, last) => range(alloc, first, last, until(alloc)),
    }
}

fn statement(number: u32, form: Form) -> Statement {
    Statement {
        id: StatementId { program: 0, number },
        at: 0,
        end: 0,
        form,
    }
}

/// These statements, numbered from `number` on.
fn statements(alloc: Global, number: u32, lines: &[Line]) -> Result<List<Statement>, Memory> {
    let mut list = List::new(alloc);
    let mut next = number;
    for line in lines {
        let form = form(alloc, *line)?;
        list.push(statement(next, form))?;
        next = next.wrapping_add(1);
    }
    Ok(list)
}

/// An inline PERFORM.
fn inline(alloc: Global, number: u32, body: List<Statement>, control: Control) -> Statement {
    let form = Form::Perform {
        range: None,
        body,
        control,
    };
    statement(number, form)
}

/// An IF.
fn choice(alloc: Global, number: u32, yes: List<Statement>, other: List<Statement>) -> Statement {
    let form = Form::If {
        test: condition(alloc),
        yes,
        other,
    };
    statement(number, form)
}

/// A paragraph or a section of no sentences.
fn empty(alloc: Global, letter: u8, section: bool) -> Result<Paragraph, Memory> {
    Ok(Paragraph {
        name: name(alloc, letter)?,
        section,
        sentences: List::new(alloc),
        at: 0,
    })
}

/// A paragraph of one sentence.
fn paragraph(alloc: Global, letter: u8, statements: List<Statement>) -> Result<Paragraph, Memory> {
    let name = name(alloc, letter)?;
    let mut sentences = List::new(alloc);
    sentences.push(Sentence { statements })?;
    Ok(Paragraph {
        name,
        section: false,
        sentences,
        at: 0,
    })
}

/// Whether a run of the paragraphs takes these steps.
fn takes(alloc: Global, paragraphs: &List<Paragraph>, steps: &[Step]) -> Result<bool, Memory> {
    let labels = Labels::of(alloc, paragraphs.items())?;
    let mut position = Position::start(alloc, &labels);
    for step in steps {
        let taken = take_step(&mut position, &labels, *step)?;
        if !taken {
            return Ok(false);
        }
    }
    Ok(true)
}

fn take_step<'a>(
    position: &mut Position<'a>,
    labels: &Labels<'a>,
    step: Step,
) -> Result<bool, Memory> {
    match position.next_task()? {
        None => Ok(step == Step::End),
        Some(Task::Do(statement)) => act(position, labels, statement, step),
        Some(Task::Turn { id, what, left }) => {
            position.turn_again(labels, id, what, left)?;
            Ok(step == Step::Turn(id.number))
        }
        Some(Task::Loop(stage, perform)) => act_loop(position, labels, stage, perform, step),
    }
}

fn holds_in(step: Step) -> bool {
    match step {
        Step::If(_, holds) => holds,
        Step::Test(_, holds) => holds,
        _ => false,
    }
}

fn act<'a>(
    position: &mut Position<'a>,
    labels: &Labels<'a>,
    statement: &'a Statement,
    step: Step,
) -> Result<bool, Memory> {
    let number = statement.id.number;
    match &statement.form {
        Form::If { yes, other, .. } => {
            let holds = holds_in(step);
            let list = if holds { yes } else { other };
            position.begin(list.items())?;
            Ok(step == Step::If(number, holds))
        }
        Form::NextSentence => {
            position.next_sentence()?;
            Ok(step == Step::Do(number))
        }
        Form::GoTo { name } => {
            position.go_to(labels, name.items())?;
            Ok(step == Step::Do(number))
        }
        Form::Perform {
            range,
            body,
            control,
        } => {
            enter(
                position,
                labels,
                statement.id,
                Body::of(range, body),
                control,
            )?;
            Ok(step == Step::Do(number))
        }
        _ => Ok(step == Step::Do(number)),
    }
}

fn enter<'a>(
    position: &mut Position<'a>,
    labels: &Labels<'a>,
    id: StatementId,
    what: Body<'a>,
    control: &'a Control,
) -> Result<(), Memory> {
    match control {
        Control::Once => position.turn(labels, what),
        Control::Times(operand) => position.perform_times(labels, id, what, number_of(operand)),
        Control::Until { after, test, vary } => {
            position.perform_until(labels, Loop::of(id, what, *after, test, vary))
        }
    }
}

fn number_of(operand: &Operand) -> i128 {
    match operand {
        Operand::Number { value, .. } => value.number,
        _ => 0,
    }
}

fn act_loop<'a>(
    position: &mut Position<'a>,
    labels: &Labels<'a>,
    stage: Stage<'a>,
    perform: Loop<'a>,
    step: Step,
) -> Result<bool, Memory> {
    let number = perform.id.number;
    match stage {
        Stage::Set(_) => {
            position.after_setting(labels, perform)?;
            Ok(step == Step::Set(number))
        }
        Stage::Advance(_) => {
            position.after_stepping(labels, perform)?;
            Ok(step == Step::Advance(number))
        }
        Stage::Test => {
            let holds = holds_in(step);
            position.after_test(labels, perform, holds)?;
            Ok(step == Step::Test(number, holds))
        }
    }
}

#[test]
fn three_turns_of_a_paragraph_and_the_end_are_seven_steps(rt: HostRuntime) -> Result<(), Fail> {
    let alloc = rt.alloc();
    let mut program = List::new(alloc);
    let main = statements(alloc, 0, &[Line::Times(b'P', b'P', 3), Line::Stop])?;
    program.push(paragraph(alloc, b'M', main)?)?;
    program.push(paragraph(alloc, b'P', statements(alloc, 2, &[Line::Nothing])?)?)?;
    let steps = [
        Step::Do(0),
        Step::Do(2),
        Step::Turn(0),
        Step::Do(2),
        Step::Turn(0),
        Step::Do(2),
        Step::Do(1),
    ];
    assert!(rt; takes(alloc, &program, &steps)?);
    Ok(())
}

#[test]
fn a_count_below_one_makes_no_turn(rt: HostRuntime) -> Result<(), Fail> {
    let alloc = rt.alloc();
    let mut program = List::new(alloc);
    let lines = [
        Line::Times(b'P', b'P', 0),
        Line::Times(b'P', b'P', -1),
        Line::Stop,
    ];
    program.push(paragraph(alloc, b'M', statements(alloc, 0, &lines)?)?)?;
    program.push(paragraph(alloc, b'P', statements(alloc, 3, &[Line::Nothing])?)?)?;
    assert!(rt; takes(alloc, &program, &[Step::Do(0), Step::Do(1), Step::Do(2)])?);
    Ok(())
}

#[test]
fn a_section_ends_with_its_last_paragraph(rt: HostRuntime) -> Result<(), Fail> {
    let alloc = rt.alloc();
    let mut program = List::new(alloc);
    let main = statements(alloc, 0, &[Line::Perform(b'S', b'S'), Line::Stop])?;
    program.push(paragraph(alloc, b'M', main)?)?;
    program.push(empty(alloc, b'S', true)?)?;
    program.push(paragraph(alloc, b'A', statements(alloc, 2, &[Line::Nothing])?)?)?;
    program.push(paragraph(alloc, b'B', statements(alloc, 3, &[Line::Nothing])?)?)?;
    program.push(empty(alloc, b'T', true)?)?;
    program.push(paragraph(alloc, b'C', statements(alloc, 4, &[Line::Nothing])?)?)?;
    let steps = [Step::Do(0), Step::Do(2), Step::Do(3), Step::Do(1)];
    assert!(rt; takes(alloc, &program, &steps)?);
    Ok(())
}

#[test]
fn a_run_falls_through_the_end_of_a_section_to_the_end_of_the_text(
    rt: HostRuntime,
) -> Result<(), Fail> {
    let alloc = rt.alloc();
    let mut program = List::new(alloc);
    program.push(empty(alloc, b'S', true)?)?;
    program.push(paragraph(alloc, b'A', statements(alloc, 0, &[Line::Nothing])?)?)?;
    program.push(empty(alloc, b'T', true)?)?;
    program.push(paragraph(alloc, b'B', statements(alloc, 1, &[Line::Nothing])?)?)?;
    assert!(rt;
        takes(
            alloc,
            &program,
            &[Step::Do(0), Step::Do(1), Step::End, Step::End]
        )?
    );
    Ok(())
}

#[test]
fn only_the_newest_open_perform_returns(rt: HostRuntime) -> Result<(), Fail> {
    let alloc = rt.alloc();
    let mut program = List::new(alloc);
    let main = statements(alloc, 0, &[Line::Perform(b'A', b'B'), Line::Stop])?;
    program.push(paragraph(alloc, b'M', main)?)?;
    program.push(paragraph(
        alloc,
        b'A',
        statements(alloc, 2, &[Line::Perform(b'B', b'C')])?,
    )?)?;
    program.push(paragraph(alloc, b'B', statements(alloc, 3, &[Line::Nothing])?)?)?;
    program.push(paragraph(alloc, b'C', statements(alloc, 4, &[Line::Nothing])?)?)?;
    let steps = [
        Step::Do(0),
        Step::Do(2),
        Step::Do(3),
        Step::Do(4),
        Step::Do(3),
        Step::Do(1),
    ];
    assert!(rt; takes(alloc, &program, &steps)?);
    Ok(())
}

#[test]
fn a_perform_at_the_end_of_a_range_returns_through_both(rt: HostRuntime) -> Result<(), Fail> {
    let alloc = rt.alloc();
    let mut program = List::new(alloc);
    let main = statements(alloc, 0, &[Line::Perform(b'A', b'B'), Line::Stop])?;
    program.push(paragraph(alloc, b'M', main)?)?;
    program.push(paragraph(alloc, b'A', statements(alloc, 2, &[Line::Nothing])?)?)?;
    program.push(paragraph(
        alloc,
        b'B',
        statements(alloc, 3, &[Line::Perform(b'C', b'C')])?,
    )?)?;
    program.push(paragraph(alloc, b'C', statements(alloc, 4, &[Line::Nothing])?)?)?;
    let steps = [
        Step::Do(0),
        Step::Do(2),
        Step::Do(3),
        Step::Do(4),
        Step::Do(1),
    ];
    assert!(rt; takes(alloc, &program, &steps)?);
    Ok(())
}

#[test]
fn an_empty_paragraph_ends_a_range(rt: HostRuntime) -> Result<(), Fail> {
    let alloc = rt.alloc();
    let mut program = List::new(alloc);
    let main = statements(alloc, 0, &[Line::Perform(b'A', b'E'), Line::Stop])?;
    program.push(paragraph(alloc, b'M', main)?)?;
    program.push(paragraph(alloc, b'A', statements(alloc, 2, &[Line::Nothing])?)?)?;
    program.push(empty(alloc, b'E', false)?)?;
    program.push(paragraph(alloc, b'F', statements(alloc, 3, &[Line::Nothing])?)?)?;
    assert!(rt; takes(alloc, &program, &[Step::Do(0), Step::Do(2), Step::Do(1)])?);
    Ok(())
}

#[test]
fn until_tests_before_each_turn(rt: HostRuntime) -> Result<(), Fail> {
    let alloc = rt.alloc();
    let mut program = List::new(alloc);
    let main = statements(alloc, 0, &[Line::Until(b'P', b'P'), Line::Stop])?;
    program.push(paragraph(alloc, b'M', main)?)?;
    program.push(paragraph(alloc, b'P', statements(alloc, 2, &[Line::Nothing])?)?)?;
    let steps = [
        Step::Do(0),
        Step::Test(0, false),
        Step::Do(2),
        Step::Test(0, false),
        Step::Do(2),
        Step::Test(0, true),
        Step::Do(1),
    ];
    assert!(rt; takes(alloc, &program, &steps)?);
    Ok(())
}

/// A paragraph with an inline PERFORM with VARYING of one statement, and a STOP RUN.
fn varying(alloc: Global, after: bool) -> Result<List<Paragraph>, Memory> {
    let control = Control::Until {
        after,
        test: condition(alloc),
        vary: Some(vary(alloc)),
    };
    let body = statements(alloc, 1, &[Line::Nothing])?;
    let mut main = List::new(alloc);
    main.push(inline(alloc, 0, body, control))?;
    main.push(statement(2, Form::Stop))?;
    let mut program = List::new(alloc);
    program.push(paragraph(alloc, b'M', main)?)?;
    Ok(program)
}

#[test]
fn varying_sets_first_and_steps_before_the_test(rt: HostRuntime) -> Result<(), Fail> {
    let alloc = rt.alloc();
    let program = varying(alloc, false)?;
    let steps = [
        Step::Do(0),
        Step::Set(0),
        Step::Test(0, false),
        Step::Do(1),
        Step::Advance(0),
        Step::Test(0, true),
        Step::Do(2),
    ];
    assert!(rt; takes(alloc, &program, &steps)?);
    Ok(())
}

#[test]
fn with_test_after_varying_steps_behind_a_test_that_fails(rt: HostRuntime) -> Result<(), Fail> {
    let alloc = rt.alloc();
    let program = varying(alloc, true)?;
    let steps = [
        Step::Do(0),
        Step::Set(0),
        Step::Do(1),
        Step::Test(0, false),
        Step::Advance(0),
        Step::Do(1),
        Step::Test(0, true),
        Step::Do(2),
    ];
    assert!(rt; takes(alloc, &program, &steps)?);
    Ok(())
}

/// An inline loop with a GO TO to the exit paragraph, and a statement behind the loop.
fn loop_with_exit(alloc: Global) -> Result<List<Statement>, Memory> {
    let exit = statements(alloc, 4, &[Line::GoTo(b'E')])?;
    let mut body = List::new(alloc);
    body.push(choice(alloc, 3, exit, List::new(alloc)))?;
    let mut list = List::new(alloc);
    list.push(inline(alloc, 2, body, until(alloc)))?;
    list.push(statement(5, Form::Nothing))?;
    Ok(list)
}

#[test]
fn a_go_to_out_of_an_inline_loop_to_the_exit_paragraph_returns(
    rt: HostRuntime,
) -> Result<(), Fail> {
    let alloc = rt.alloc();
    let mut program = List::new(alloc);
    let main = statements(alloc, 0, &[Line::Perform(b'A', b'E'), Line::Stop])?;
    program.push(paragraph(alloc, b'M', main)?)?;
    program.push(paragraph(alloc, b'A', loop_with_exit(alloc)?)?)?;
    program.push(paragraph(alloc, b'E', statements(alloc, 6, &[Line::Nothing])?)?)?;
    let steps = [
        Step::Do(0),
        Step::Do(2),
        Step::Test(2, false),
        Step::If(3, false),
        Step::Test(2, false),
        Step::If(3, true),
        Step::Do(4),
        Step::Do(6),
        Step::Do(1),
    ];
    assert!(rt; takes(alloc, &program, &steps)?);
    Ok(())
}

/// A sentence with NEXT SENTENCE in the inner of two IFs, and statements behind both.
fn nested_choice(alloc: Global) -> Result<List<Statement>, Memory> {
    let skip = statements(alloc, 2, &[Line::NextSentence])?;
    let mut body = List::new(alloc);
    body.push(choice(alloc, 1, skip, List::new(alloc)))?;
    body.push(statement(3, Form::Nothing))?;
    let mut list = List::new(alloc);
    list.push(choice(alloc, 0, body, List::new(alloc)))?;
    list.push(statement(4, Form::Nothing))?;
    Ok(list)
}

#[test]
fn next_sentence_leaves_both_ifs(rt: HostRuntime) -> Result<(), Fail> {
    let alloc = rt.alloc();
    let mut main = paragraph(alloc, b'M', nested_choice(alloc)?)?;
    let last = statements(alloc, 5, &[Line::Nothing])?;
    main.sentences.push(Sentence { statements: last })?;
    let mut program = List::new(alloc);
    program.push(main)?;
    let skipping = [
        Step::If(0, true),
        Step::If(1, true),
        Step::Do(2),
        Step::Do(5),
        Step::End,
    ];
    assert!(rt; takes(alloc, &program, &skipping)?);
    let going_on = [
        Step::If(0, true),
        Step::If(1, false),
        Step::Do(3),
        Step::Do(4),
        Step::Do(5),
    ];
    assert!(rt; takes(alloc, &program, &going_on)?);
    Ok(())
}

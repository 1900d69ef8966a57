use super::*;
use cobol_syntax::{
    Branch, CondForm, Condition, Control, Expr, Form, Operand, Paragraph, Place, Program, Sentence,
    Statement, StatementId,
};
use std::alloc::Global;
use std::test::Fail;
use y2k_base::{Bytes, FileId, List, Memory, Origin, Word, WordKind};

fn name(alloc: Global) -> Result<Bytes, Memory> {
    let mut bytes = List::new(alloc);
    bytes.push(b'A')?;
    Ok(bytes)
}

fn place(alloc: Global) -> Place {
    Place {
        names: List::new(alloc),
        subs: List::new(alloc),
        cut: None,
        at: 0,
        end: 0,
    }
}

fn condition(alloc: Global) -> Condition {
    Condition {
        at: 0,
        end: 0,
        form: CondForm::Named(place(alloc)),
    }
}

fn statement(number: u32, at: u32, form: Form) -> Statement {
    Statement {
        id: StatementId { program: 0, number },
        at,
        end: at,
        form,
    }
}

fn choice(alloc: Global, yes: List<Statement>, other: List<Statement>) -> Form {
    Form::If {
        test: condition(alloc),
        yes,
        other,
    }
}

fn compute(alloc: Global, size: Option<Branch>) -> Form {
    Form::Compute {
        to: place(alloc),
        rounded: false,
        value: Expr::One(Operand::Place(place(alloc))),
        rest: None,
        size,
    }
}

fn inline(alloc: Global, body: List<Statement>) -> Form {
    Form::Perform {
        range: None,
        body,
        control: Control::Until {
            after: false,
            test: condition(alloc),
            vary: None,
        },
    }
}

fn read(alloc: Global, end: Option<Branch>) -> Result<Form, Memory> {
    Ok(Form::Read {
        file: name(alloc)?,
        into: None,
        end,
    })
}

/// Statements without statements of their own, by their numbers and positions.
fn lines(alloc: Global, places: &[(u32, u32)]) -> Result<List<Statement>, Memory> {
    let mut list = List::new(alloc);
    for place in places {
        list.push(statement(place.0, place.1, Form::Nothing))?;
    }
    Ok(list)
}

/// IF A CONTINUE ELSE IF B CONTINUE STOP RUN, with END-IF and MOVE A TO A behind it.
fn first_sentence(alloc: Global) -> Result<List<Statement>, Memory> {
    let mut behind = List::new(alloc);
    let inner = choice(alloc, lines(alloc, &[(3, 6), (4, 7)])?, List::new(alloc));
    behind.push(statement(2, 4, inner))?;
    let outer = choice(alloc, lines(alloc, &[(1, 2)])?, behind);
    let mut list = List::new(alloc);
    list.push(statement(0, 0, outer))?;
    let shift = Form::Move {
        from: Operand::Place(place(alloc)),
        to: place(alloc),
    };
    list.push(statement(5, 11, shift))?;
    Ok(list)
}

/// COMPUTE with two statements in ON SIZE ERROR and one in NOT ON SIZE ERROR, and STOP RUN and an ADD of its own.
fn second_sentence(alloc: Global) -> Result<List<Statement>, Memory> {
    let size = Branch {
        yes: lines(alloc, &[(7, 23), (8, 24)])?,
        no: lines(alloc, &[(9, 29)])?,
    };
    let mut list = List::new(alloc);
    list.push(statement(6, 16, compute(alloc, Some(size))))?;
    list.push(statement(10, 32, Form::Stop))?;
    list.push(statement(11, 34, compute(alloc, None)))?;
    Ok(list)
}

/// PERFORM UNTIL A READ F AT END STOP RUN NOT AT END CONTINUE END-READ END-PERFORM, and READ F.
fn third_sentence(alloc: Global) -> Result<List<Statement>, Memory> {
    let end = Branch {
        yes: lines(alloc, &[(14, 48)])?,
        no: lines(alloc, &[(15, 53)])?,
    };
    let mut body = List::new(alloc);
    body.push(statement(13, 44, read(alloc, Some(end))?))?;
    let mut list = List::new(alloc);
    list.push(statement(12, 41, inline(alloc, body)))?;
    list.push(statement(16, 56, read(alloc, None)?))?;
    Ok(list)
}

/// Word by word, each in the column of its position.
fn words(alloc: Global, count: u32) -> Result<List<Word>, Memory> {
    let mut list = List::new(alloc);
    for column in 0..count {
        list.push(Word {
            text: name(alloc)?,
            kind: WordKind::Name,
            origin: Origin {
                file: FileId(3),
                line: 7,
                column,
            },
        })?;
    }
    Ok(list)
}

fn paragraph(alloc: Global, sentences: List<Sentence>) -> Result<Paragraph, Memory> {
    Ok(Paragraph {
        name: name(alloc)?,
        section: false,
        sentences,
        at: 0,
    })
}

fn program(alloc: Global, paragraphs: List<Paragraph>, count: u32) -> Result<Program, Memory> {
    Ok(Program {
        id: name(alloc)?,
        words: words(alloc, count)?,
        selects: List::new(alloc),
        files: List::new(alloc),
        storage: List::new(alloc),
        paragraphs,
    })
}

/// Two sentences in one paragraph, an empty paragraph, and one more sentence. It has 50 words, too few.
fn whole(alloc: Global) -> Result<Program, Memory> {
    let mut sentences = List::new(alloc);
    sentences.push(Sentence {
        statements: first_sentence(alloc)?,
    })?;
    sentences.push(Sentence {
        statements: second_sentence(alloc)?,
    })?;
    let mut last = List::new(alloc);
    last.push(Sentence {
        statements: third_sentence(alloc)?,
    })?;
    let mut paragraphs = List::new(alloc);
    paragraphs.push(paragraph(alloc, sentences)?)?;
    paragraphs.push(paragraph(alloc, List::new(alloc))?)?;
    paragraphs.push(paragraph(alloc, last)?)?;
    program(alloc, paragraphs, 50)
}

/// A program of one sentence.
fn short(alloc: Global, statements: List<Statement>) -> Result<Program, Memory> {
    let mut sentences = List::new(alloc);
    sentences.push(Sentence { statements })?;
    let mut paragraphs = List::new(alloc);
    paragraphs.push(paragraph(alloc, sentences)?)?;
    program(alloc, paragraphs, 0)
}

#[test]
fn each_statement_stands_at_its_first_word(rt: HostRuntime) -> Result<(), Fail> {
    let alloc = rt.alloc();
    let program = whole(alloc)?;
    let places = [
        (0, 0),
        (1, 2),
        (2, 4),
        (3, 6),
        (4, 7),
        (5, 11),
        (6, 16),
        (7, 23),
        (8, 24),
        (9, 29),
        (10, 32),
        (11, 34),
        (12, 41),
        (13, 44),
        (14, 48),
        (15, 53),
        (16, 56),
    ];
    for place in &places {
        assert!(rt; statement_at(alloc, &program, place.0)? == Some(place.1));
    }
    Ok(())
}

#[test]
fn no_statement_has_another_number(rt: HostRuntime) -> Result<(), Fail> {
    let alloc = rt.alloc();
    let program = whole(alloc)?;
    assert!(rt; statement_at(alloc, &program, 17)? == None);
    assert!(rt; statement_at(alloc, &program, 4_294_967_295)? == None);
    let empty = short(alloc, List::new(alloc))?;
    assert!(rt; statement_at(alloc, &empty, 0)? == None);
    Ok(())
}

#[test]
fn of_two_statements_with_one_number_the_first_counts(rt: HostRuntime) -> Result<(), Fail> {
    let alloc = rt.alloc();
    let program = short(alloc, lines(alloc, &[(1, 5), (1, 3), (2, 9)])?)?;
    assert!(rt; statement_at(alloc, &program, 1)? == Some(5));
    Ok(())
}

#[test]
fn the_origin_is_that_of_the_word(rt: HostRuntime) -> Result<(), Fail> {
    let alloc = rt.alloc();
    let program = whole(alloc)?;
    let origin = Origin {
        file: FileId(3),
        line: 7,
        column: 44,
    };
    assert!(rt; statement_origin(alloc, &program, 13)? == Some(origin));
    assert!(rt; statement_origin(alloc, &program, 15)? == None);
    assert!(rt; statement_origin(alloc, &program, 17)? == None);
    Ok(())
}

/// As many IF as `count`, each alone in the ELSE of the one before, numbered from the last one on from 0.
fn chain(alloc: Global, count: u32) -> Result<List<Statement>, Memory> {
    let mut list = List::new(alloc);
    for number in 0..count {
        let form = choice(alloc, List::new(alloc), list);
        list = List::new(alloc);
        list.push(statement(number, 7, form))?;
    }
    Ok(list)
}

#[test]
fn the_end_of_a_long_chain_is_found(rt: HostRuntime) -> Result<(), Fail> {
    let alloc = rt.alloc();
    let program = short(alloc, chain(alloc, 20_000)?)?;
    assert!(rt; statement_at(alloc, &program, 0)? == Some(7));
    assert!(rt; statement_at(alloc, &program, 20_000)? == None);
    Ok(())
}

/// What a part is, by a letter, and where its text statement or its condition begins.
fn kind_of(part: Part) -> (u8, u32) {
    match part {
        Part::Move { at, .. } => (b'M', at),
        Part::Compute { at, .. } => (b'C', at),
        Part::Accept { at, .. } => (b'A', at),
        Part::Test { of } => (b'T', of.at),
    }
}

#[test]
fn the_parts_stand_in_the_order_of_the_text(rt: HostRuntime) -> Result<(), Fail> {
    let alloc = rt.alloc();
    let program = whole(alloc)?;
    let parts = parts_of(alloc, &program)?;
    let expected = [
        (b'T', 0),
        (b'T', 0),
        (b'M', 11),
        (b'C', 16),
        (b'C', 34),
        (b'T', 0),
    ];
    assert!(rt; parts.len() == expected.len());
    for index in 0..parts.len() {
        assert!(rt; kind_of(parts[index]) == expected[index]);
    }
    Ok(())
}

#[test]
fn each_if_of_a_long_chain_has_its_condition(rt: HostRuntime) -> Result<(), Fail> {
    let alloc = rt.alloc();
    let program = short(alloc, chain(alloc, 20_000)?)?;
    assert!(rt; parts_of(alloc, &program)?.len() == 20_000);
    Ok(())
}

ghost use Rattle.std.specs.Prelude.{IfOk};
ghost use Rattle.std.specs.List.{AllByRecursion};
ghost use Rattle.data_layout.specs.Index.{IsReady};

use crate::{bridge_of, links_of};
use cobol_syntax::{
    CondForm, Condition, Control, Entry, Expr, Form, Operand, Paragraph, Place, Program, Rel,
    Sentence, Statement, StatementId, Sub, Usage, Vary,
};
use data_layout::{FileArea, FileUse, LayoutFault, Portfolio, lay_out};
use decimal_bytes::SignPlace;
use picture::read_picture;
use sqlite_items::Boxed;
use std::alloc::Global;
use std::test::Fail;
use y2k_base::{AreaId, BytePlace, Bytes, FileId, List, Memory, Origin, Word, WordKind};
use year_labels::{Fact, Label, Labelling, RuleForm, View};

/// The items of the group G, from the offsets 0, 6, 12, 16, 24, 30, 36, 48, 50, 52, 56 and 62 on. T is a table of two, P is
/// packed, and all others are shown.
const ITEMS: [(u8, &str); 12] = [
    (b'Y', "9(6)"),
    (b'D', "9(6)"),
    (b'P', "S9(6)"),
    (b'E', "99/99/99"),
    (b'S', "S9(6)"),
    (b'X', "X(6)"),
    (b'T', "9(6)"),
    (b'N', "99"),
    (b'M', "99"),
    (b'H', "9(4)"),
    (b'Z', "9(6)"),
    (b'W', "9(6)"),
];

/// Where years of two bytes begin: each item has one in front but P and S; Z has a second one, and that of W stands behind
/// two other digits.
const PAIRS: [u32; 12] = [0, 6, 16, 30, 36, 42, 48, 50, 52, 56, 60, 64];

fn bytes_of(alloc: Global, text: &[u8]) -> Result<Bytes, Memory> {
    let mut bytes = List::new(alloc);
    bytes.append(text)?;
    Ok(bytes)
}

fn entry_of(alloc: Global, name: u8, picture: &str) -> Result<Entry, Memory> {
    Ok(Entry {
        level: if name == b'G' { 1 } else { 5 },
        name: Some(bytes_of(alloc, &[name])?),
        redefines: None,
        occurs: if name == b'T' { Some(2) } else { None },
        picture: read_picture(alloc, picture.as_bytes()).ok(),
        picture_at: 0,
        usage: if name == b'P' {
            Usage::Packed
        } else {
            Usage::Display
        },
        sign: SignPlace::Trailing,
        value: None,
        ranges: List::new(alloc),
        at: 0,
    })
}

fn storage_of(alloc: Global) -> Result<List<Entry>, Memory> {
    let mut storage = List::new(alloc);
    storage.push(entry_of(alloc, b'G', "")?)?;
    for (name, picture) in ITEMS {
        storage.push(entry_of(alloc, name, picture)?)?;
    }
    Ok(storage)
}

/// A subscript: a number where the name is a digit.
fn sub_of(alloc: Global, name: u8) -> Result<Sub, Memory> {
    if name.is_ascii_digit() {
        Ok(Sub::Number {
            value: u32::from(name.wrapping_sub(b'0')),
            at: 0,
        })
    } else {
        let mut names = List::new(alloc);
        names.push(bytes_of(alloc, &[name])?)?;
        Ok(Sub::Name(names))
    }
}

/// The item of the first byte, with the others as its subscripts.
fn place_of(alloc: Global, text: &[u8]) -> Result<Place, Memory> {
    let mut names = List::new(alloc);
    let mut subs = List::new(alloc);
    if let [name, rest @ ..] = text {
        names.push(bytes_of(alloc, &[*name])?)?;
        for sub in rest {
            subs.push(sub_of(alloc, *sub)?)?;
        }
    }
    Ok(Place {
        names,
        subs,
        cut: None,
        at: 0,
        end: 1,
    })
}

fn operand_of(alloc: Global, name: u8) -> Result<Operand, Memory> {
    Ok(Operand::Place(place_of(alloc, &[name])?))
}

fn expr_of(alloc: Global, name: u8) -> Result<Expr, Memory> {
    Ok(Expr::One(operand_of(alloc, name)?))
}

fn equal(alloc: Global, left: u8, right: u8) -> Result<Condition, Memory> {
    Ok(Condition {
        at: 0,
        end: 1,
        form: CondForm::Relation {
            left: expr_of(alloc, left)?,
            rel: Rel::Equal,
            right: expr_of(alloc, right)?,
        },
    })
}

fn value_of(alloc: Global, operator: u8, left: u8, right: u8) -> Result<Expr, Memory> {
    let left = Boxed::new(alloc, expr_of(alloc, left)?)?;
    let right = Boxed::new(alloc, expr_of(alloc, right)?)?;
    match operator {
        b'+' => Ok(Expr::Add(left, right)),
        b'-' => Ok(Expr::Sub(left, right)),
        _ => Ok(Expr::Mul(left, right)),
    }
}

/// A statement of names of one letter: `M` moves the first to the second, `I` is an IF of two equal ones, with a move in it,
/// `W` is a WRITE of the first from the second, `V` a VARYING of item, FROM and BY until two are equal, and `+`, `-` and `*`
/// store in the first what they make of the others.
fn form_of(alloc: Global, text: &[u8]) -> Result<Form, Memory> {
    match text {
        [b'M', from, to] => Ok(move_of(alloc, *from, *to)?),
        [b'I', left, right, from, to] => Ok(Form::If {
            test: equal(alloc, *left, *right)?,
            yes: statements_of(alloc, move_of(alloc, *from, *to)?)?,
            other: List::new(alloc),
        }),
        [b'W', name, from] => Ok(Form::Write {
            name: bytes_of(alloc, &[*name])?,
            from: Some(operand_of(alloc, *from)?),
            advance: None,
        }),
        [b'V', item, from, by, left, right] => Ok(Form::Perform {
            range: None,
            body: List::new(alloc),
            control: Control::Until {
                after: false,
                test: equal(alloc, *left, *right)?,
                vary: Some(Vary {
                    item: place_of(alloc, &[*item])?,
                    from: operand_of(alloc, *from)?,
                    by: operand_of(alloc, *by)?,
                }),
            },
        }),
        [operator, to, left, right] => Ok(Form::Compute {
            to: place_of(alloc, &[*to])?,
            rounded: false,
            value: value_of(alloc, *operator, *left, *right)?,
            rest: None,
            size: None,
        }),
        _ => Ok(Form::Nothing),
    }
}

fn move_of(alloc: Global, from: u8, to: u8) -> Result<Form, Memory> {
    Ok(Form::Move {
        from: operand_of(alloc, from)?,
        to: place_of(alloc, &[to])?,
    })
}

fn statements_of(alloc: Global, form: Form) -> Result<List<Statement>, Memory> {
    let mut statements = List::new(alloc);
    statements.push(Statement {
        id: StatementId {
            program: 0,
            number: 0,
        },
        at: 0,
        end: 1,
        form,
    })?;
    Ok(statements)
}

fn paragraphs_of(alloc: Global, form: Form) -> Result<List<Paragraph>, Memory> {
    let mut sentences = List::new(alloc);
    let statements = statements_of(alloc, form)?;
    sentences.push(Sentence { statements })?;
    let mut paragraphs = List::new(alloc);
    paragraphs.push(Paragraph {
        name: bytes_of(alloc, b"P")?,
        section: false,
        sentences,
        at: 0,
    })?;
    Ok(paragraphs)
}

/// One PICTURE word, which is that of all items.
fn picture_words(alloc: Global) -> Result<List<Word>, Memory> {
    let mut words = List::new(alloc);
    words.push(Word {
        kind: WordKind::Picture,
        text: bytes_of(alloc, b"99")?,
        origin: Origin {
            file: FileId(0),
            line: 1,
            column: 12,
        },
    })?;
    Ok(words)
}

/// A program of the items with these words and one statement.
fn program_of(alloc: Global, words: List<Word>, form: Form) -> Result<Program, Memory> {
    Ok(Program {
        id: bytes_of(alloc, b"ONE")?,
        words,
        selects: List::new(alloc),
        files: List::new(alloc),
        storage: storage_of(alloc)?,
        paragraphs: paragraphs_of(alloc, form)?,
    })
}

fn portfolio_of(
    alloc: Global,
    words: List<Word>,
    form: Form,
    files: List<FileUse>,
) -> Result<Portfolio, LayoutFault>
    ensures { IfOk result (λ portfolio. AllByRecursion IsReady portfolio.layouts) }
{
    let program = program_of(alloc, words, form)?;
    let mut layouts = List::new(alloc);
    layouts.push(lay_out(alloc, &program, AreaId(0))?)?;
    let mut programs = List::new(alloc);
    programs.push(program)?;
    Ok(Portfolio {
        programs,
        layouts,
        files,
    })
}

fn fact(offset: u32, label: Label) -> Fact {
    let area = AreaId(0);
    let place = BytePlace { area, offset };
    Fact { place, label }
}

fn packed(byte: u8) -> Label {
    Label::Packed {
        digits: 6,
        unit: 4,
        byte,
    }
}

/// The years of all items.
fn labelling_of(alloc: Global) -> Result<Labelling, Memory> {
    let mut facts = List::new(alloc);
    for offset in PAIRS {
        facts.push(fact(offset, Label::Tens))?;
        facts.push(fact(offset + 1, Label::Units))?;
    }
    for (offset, byte) in [(12, 0), (13, 1), (14, 2), (15, 3)] {
        facts.push(fact(offset, packed(byte)))?;
    }
    let labelling = Labelling::new(alloc, facts)?;
    Ok(labelling)
}

fn show_view(alloc: Global, view: &View) -> Result<String, Memory> {
    match view {
        View::Bytes { span, powers: _ } => {
            let offset = span.offset;
            let text = format!(in alloc; "{offset}")?;
            Ok(text)
        }
        View::Packed { span, digits: _ } => {
            let offset = span.offset;
            let text = format!(in alloc; "{offset}")?;
            Ok(text)
        }
        View::Plain => {
            let text = format!(in alloc; "plain")?;
            Ok(text)
        }
    }
}

fn show_three(alloc: Global, name: &str, a: &View, b: &View, c: &View) -> Result<String, Memory> {
    let a = show_view(alloc, a)?;
    let b = show_view(alloc, b)?;
    let c = show_view(alloc, c)?;
    let text = format!(in alloc; "{name} {a} {b} {c}.")?;
    Ok(text)
}

fn show_link(alloc: Global, link: &RuleForm) -> Result<String, Memory> {
    match link {
        RuleForm::Alike { a, b } => {
            let first = a.offset;
            let second = b.offset;
            let length = a.length;
            let text = format!(in alloc; "alike {first} {second} {length}.")?;
            Ok(text)
        }
        RuleForm::Digits { a, b } => {
            let a = show_view(alloc, a)?;
            let b = show_view(alloc, b)?;
            let text = format!(in alloc; "digits {a} {b}.")?;
            Ok(text)
        }
        RuleForm::Sum { a, b, c } => show_three(alloc, "sum", a, b, c),
        RuleForm::Difference { a, b, c } => show_three(alloc, "difference", a, b, c),
        _ => {
            let text = format!(in alloc; "none.")?;
            Ok(text)
        }
    }
}

/// Each link by the offsets of its sides, ended by a point.
fn show(alloc: Global, links: &List<RuleForm>) -> Result<String, Memory> {
    let mut text = String::new(alloc);
    for link in links.items() {
        let part = show_link(alloc, link)?;
        text.push_str(part.as_str())?;
    }
    Ok(text)
}

#[test]
fn a_move_of_a_year_in_front_to_a_year_is_bridged(rt: HostRuntime) -> Result<(), Fail> {
    let alloc = rt.alloc();
    let labelling = labelling_of(alloc)?;
    let program = program_of(alloc, List::new(alloc), Form::Nothing)?;
    let layout = lay_out(alloc, &program, AreaId(0))?;
    let rows: [(u8, &[u8], Option<(u32, u32)>); 19] = [
        (b'Y', b"D", Some((0, 6))),
        (b'Y', b"P", Some((0, 12))),
        (b'P', b"Y", Some((12, 0))),
        (b'Y', b"E", Some((0, 16))),
        (b'E', b"Y", None),
        (b'Y', b"S", None),
        (b'S', b"Y", None),
        (b'X', b"Y", None),
        (b'Y', b"X", None),
        (b'Y', b"G", None),
        (b'Y', b"T1", Some((0, 36))),
        (b'Y', b"TN", None),
        (b'T', b"Y", Some((36, 0))),
        (b'N', b"M", Some((48, 50))),
        (b'Z', b"Y", None),
        (b'Y', b"Z", Some((0, 56))),
        (b'H', b"W", Some((52, 64))),
        (b'Y', b"W", None),
        (b'N', b"Y", None),
    ];
    for (from, to, want) in rows {
        let from = operand_of(alloc, from)?;
        let to = place_of(alloc, to)?;
        let found = match bridge_of(alloc, &layout, &labelling, &from, &to)? {
            None => None,
            Some(bridge) => Some((bridge.sent.place.offset, bridge.received.place.offset)),
        };
        assert!(rt; found == want);
    }
    Ok(())
}

#[test]
fn statements_link_years(rt: HostRuntime) -> Result<(), Fail> {
    let alloc = rt.alloc();
    let labelling = labelling_of(alloc)?;
    let rows: [(&[u8], &str); 15] = [
        (b"", ""),
        (b"MYD", ""),
        (b"MYW", "digits 0 62."),
        (b"MXY", "digits 30 0."),
        (b"MYX", "alike 0 30 6."),
        (b"MXG", "alike 30 0 6."),
        (b"IYDYD", ""),
        (b"IYDYW", "digits 0 62."),
        (b"IXYYD", "alike 30 0 6."),
        (b"WGX", "alike 30 0 6."),
        (b"+NMN", "sum 50 48 48."),
        (b"-NMN", "difference 48 50 48."),
        (b"*NMN", ""),
        (b"+YMN", "digits plain 0.sum 50 48 plain."),
        (b"VNMMNM", "digits 50 48.sum 48 50 48."),
    ];
    for (statement, want) in rows {
        let form = form_of(alloc, statement)?;
        let portfolio = portfolio_of(alloc, List::new(alloc), form, List::new(alloc))?;
        let links = links_of(alloc, &portfolio, &labelling)?;
        let text = show(alloc, &links)?;
        let want = format!(in alloc; "alike 36 42 6.{want}")?;
        assert_eq!(rt; text.as_str(), want.as_str());
    }
    Ok(())
}

#[test]
fn a_move_without_a_year_is_not_bridged(rt: HostRuntime) -> Result<(), Fail> {
    let alloc = rt.alloc();
    let labelling = Labelling::new(alloc, List::new(alloc))?;
    let form = move_of(alloc, b'Y', b'D')?;
    let portfolio = portfolio_of(alloc, List::new(alloc), form, List::new(alloc))?;
    let links = links_of(alloc, &portfolio, &labelling)?;
    let text = show(alloc, &links)?;
    assert_eq!(rt; text.as_str(), "alike 36 42 6.digits 0 6.");
    Ok(())
}

/// One external file with records of ten bytes in two areas.
fn file_of(alloc: Global) -> Result<FileUse, Memory> {
    let mut areas = List::new(alloc);
    areas.push(FileArea {
        program: 0,
        area: AreaId(0),
    })?;
    areas.push(FileArea {
        program: 0,
        area: AreaId(1),
    })?;
    Ok(FileUse {
        external: bytes_of(alloc, b"F")?,
        name: bytes_of(alloc, b"f.dat")?,
        length: 10,
        areas,
    })
}

#[test]
fn files_and_picture_words_link_years(rt: HostRuntime) -> Result<(), Fail> {
    let alloc = rt.alloc();
    let labelling = labelling_of(alloc)?;
    let mut files = List::new(alloc);
    files.push(file_of(alloc)?)?;
    let words = picture_words(alloc)?;
    let portfolio = portfolio_of(alloc, words, Form::Nothing, files)?;
    let links = links_of(alloc, &portfolio, &labelling)?;
    assert_eq!(rt; links.len(), 13);
    let text = show(alloc, &links)?;
    let text = text.as_str();
    assert!(rt; text.starts_with("alike 36 42 6.alike 0 0 10.alike 0 6 6.alike 0 12 4."));
    Ok(())
}

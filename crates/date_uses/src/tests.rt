ghost use Rattle.std.specs.Prelude.{IfOk};
ghost use Rattle.std.specs.List.{AllByRecursion};
ghost use Rattle.data_layout.specs.Index.{IsReady};

use crate::{DateUse, UseForm, Used, UsedPlace, uses_of};
use cobol_syntax::{
    Branch, CondForm, Condition, Control, Entry, Expr, FileEntry, Form, Operand, Paragraph, Place,
    Program, Range, Register, Rel, Sentence, Statement, StatementId, Usage, Vary,
};
use data_layout::{LayoutFault, Portfolio, lay_out};
use date_views::Side;
use decimal_bytes::{Scaled, SignPlace};
use picture::read_picture;
use sqlite_items::Boxed;
use std::alloc::Global;
use std::test::Fail;
use y2k_base::{AreaId, Bytes, FileId, List, Memory, Origin, Word, WordKind};
use year_labels::Labelling;

fn bytes_of(alloc: Global, text: &[u8]) -> Result<Bytes, Memory> {
    let mut bytes = List::new(alloc);
    bytes.append(text)?;
    Ok(bytes)
}

/// A number of two digits.
fn literal(number: i128) -> Operand {
    Operand::Number {
        value: Scaled { number, scale: 0 },
        digits: 2,
        at: 99,
    }
}

fn entry_of(alloc: Global, at: u32, level: u8, name: u8, pic: &str) -> Result<Entry, Memory> {
    Ok(Entry {
        level,
        name: Some(bytes_of(alloc, &[name])?),
        redefines: None,
        occurs: None,
        picture: read_picture(alloc, pic.as_bytes()).ok(),
        picture_at: at,
        usage: Usage::Display,
        sign: SignPlace::Trailing,
        value: None,
        ranges: List::new(alloc),
        at,
    })
}

/// The file F: the record R of four digits with the condition-name K, 85 or 90 THRU 95.
fn files_of(alloc: Global) -> Result<List<FileEntry>, Memory> {
    let mut named = entry_of(alloc, 1, 88, b'K', "")?;
    named.ranges.push(Range {
        low: literal(85),
        high: None,
    })?;
    named.ranges.push(Range {
        low: literal(90),
        high: Some(literal(95)),
    })?;
    let mut entries = List::new(alloc);
    entries.push(entry_of(alloc, 0, 1, b'R', "9(4)")?)?;
    entries.push(named)?;
    let mut files = List::new(alloc);
    files.push(FileEntry {
        name: bytes_of(alloc, b"F")?,
        contains: None,
        entries,
        at: 0,
    })?;
    Ok(files)
}

/// The group G of the items Y, D and N, of two digits each; Y has a VALUE.
fn storage_of(alloc: Global) -> Result<List<Entry>, Memory> {
    let mut year = entry_of(alloc, 3, 5, b'Y', "99")?;
    year.value = Some(literal(85));
    let mut storage = List::new(alloc);
    storage.push(entry_of(alloc, 2, 1, b'G', "")?)?;
    storage.push(year)?;
    storage.push(entry_of(alloc, 4, 5, b'D', "99")?)?;
    storage.push(entry_of(alloc, 5, 5, b'N', "99")?)?;
    Ok(storage)
}

fn place_of(alloc: Global, name: u8) -> Result<Place, Memory> {
    let mut names = List::new(alloc);
    names.push(bytes_of(alloc, &[name])?)?;
    Ok(Place {
        names,
        subs: List::new(alloc),
        cut: None,
        at: u32::from(name),
        end: 1,
    })
}

/// An item, or 85 where the name is a digit.
fn operand_of(alloc: Global, name: u8) -> Result<Operand, Memory> {
    if name.is_ascii_digit() {
        Ok(literal(85))
    } else {
        Ok(Operand::Place(place_of(alloc, name)?))
    }
}

fn expr_of(alloc: Global, name: u8) -> Result<Expr, Memory> {
    Ok(Expr::One(operand_of(alloc, name)?))
}

fn value_of(alloc: Global, operator: u8, left: u8, right: u8) -> Result<Expr, Memory> {
    let left = Boxed::new(alloc, expr_of(alloc, left)?)?;
    let right = Boxed::new(alloc, expr_of(alloc, right)?)?;
    match operator {
        b'+' => Ok(Expr::Add(left, right)),
        b'-' => Ok(Expr::Sub(left, right)),
        _ => Ok(Expr::Mul(left, right)),
    }
}

fn less(left: Expr, right: Expr) -> Condition {
    Condition {
        at: 0,
        end: 1,
        form: CondForm::Relation {
            left,
            rel: Rel::Less,
            right,
        },
    }
}

/// A condition: `L` that the first item is less than the second, `T` that it is less than the sum of the others, `C` a class,
/// `K` a condition-name.
fn test_of(alloc: Global, text: &[u8]) -> Result<Condition, Memory> {
    match text {
        [b'L', left, right] => Ok(less(expr_of(alloc, *left)?, expr_of(alloc, *right)?)),
        [b'T', left, one, other] => {
            let right = value_of(alloc, b'+', *one, *other)?;
            Ok(less(expr_of(alloc, *left)?, right))
        }
        [b'C', name] => Ok(Condition {
            at: 0,
            end: 1,
            form: CondForm::Class {
                of: place_of(alloc, *name)?,
                numeric: true,
            },
        }),
        _ => Ok(Condition {
            at: 0,
            end: 1,
            form: CondForm::Named(place_of(alloc, b'K')?),
        }),
    }
}

fn move_of(alloc: Global, from: u8, to: u8) -> Result<Form, Memory> {
    Ok(Form::Move {
        from: operand_of(alloc, from)?,
        to: place_of(alloc, to)?,
    })
}

fn vary_of(alloc: Global, item: u8, from: u8, by: u8) -> Result<Vary, Memory> {
    Ok(Vary {
        item: place_of(alloc, item)?,
        from: operand_of(alloc, from)?,
        by: operand_of(alloc, by)?,
    })
}

/// A statement by names of one letter. IF has in it a move of Y to D, and a computation has it behind ON SIZE ERROR, if it is
/// written with a `!`.
fn form_of(alloc: Global, text: &[u8]) -> Result<Form, Memory> {
    match text {
        [b'M', from, to] => Ok(move_of(alloc, *from, *to)?),
        [b'I', test @ ..] => Ok(Form::If {
            test: test_of(alloc, test)?,
            yes: statements_of(alloc, 7, move_of(alloc, b'Y', b'D')?)?,
            other: List::new(alloc),
        }),
        [b'R', into] => Ok(Form::Read {
            file: bytes_of(alloc, b"F")?,
            into: Some(place_of(alloc, *into)?),
            end: None,
        }),
        [b'W', from] => Ok(Form::Write {
            name: bytes_of(alloc, b"R")?,
            from: Some(operand_of(alloc, *from)?),
            advance: Some(operand_of(alloc, b'N')?),
        }),
        [b'A', to] => Ok(Form::Accept {
            to: place_of(alloc, *to)?,
            from: Register::Date,
        }),
        [b'V', item, from, by, test @ ..] => Ok(Form::Perform {
            range: None,
            body: List::new(alloc),
            control: Control::Until {
                after: false,
                test: test_of(alloc, test)?,
                vary: Some(vary_of(alloc, *item, *from, *by)?),
            },
        }),
        [operator, to, left, right] => Ok(Form::Compute {
            to: place_of(alloc, *to)?,
            rounded: false,
            value: value_of(alloc, *operator, *left, *right)?,
            rest: Some(place_of(alloc, b'N')?),
            size: None,
        }),
        [b'!', operator, to, left, right] => Ok(Form::Compute {
            to: place_of(alloc, *to)?,
            rounded: false,
            value: value_of(alloc, *operator, *left, *right)?,
            rest: None,
            size: Some(Branch {
                yes: statements_of(alloc, 7, move_of(alloc, b'Y', b'D')?)?,
                no: List::new(alloc),
            }),
        }),
        _ => Ok(Form::Nothing),
    }
}

fn statements_of(alloc: Global, at: u32, form: Form) -> Result<List<Statement>, Memory> {
    let mut statements = List::new(alloc);
    statements.push(Statement {
        id: StatementId {
            program: 0,
            number: 0,
        },
        at,
        end: 8,
        form,
    })?;
    Ok(statements)
}

fn paragraphs_of(alloc: Global, form: Form) -> Result<List<Paragraph>, Memory> {
    let mut sentences = List::new(alloc);
    sentences.push(Sentence {
        statements: statements_of(alloc, 6, form)?,
    })?;
    let mut paragraphs = List::new(alloc);
    paragraphs.push(Paragraph {
        name: bytes_of(alloc, b"P")?,
        section: false,
        sentences,
        at: 0,
    })?;
    Ok(paragraphs)
}

/// Words on lines of their own, from 0.
fn words_of(alloc: Global) -> Result<List<Word>, Memory> {
    let mut words = List::new(alloc);
    for line in 0..8_u32 {
        words.push(Word {
            kind: WordKind::Number,
            text: List::new(alloc),
            origin: Origin {
                file: FileId(0),
                line,
                column: 8,
            },
        })?;
    }
    Ok(words)
}

fn portfolio_of(alloc: Global, form: Form) -> Result<Portfolio, LayoutFault>
    ensures { IfOk result (λ portfolio. AllByRecursion IsReady portfolio.layouts) }
{
    let program = Program {
        id: bytes_of(alloc, b"ONE")?,
        words: words_of(alloc)?,
        selects: List::new(alloc),
        files: files_of(alloc)?,
        storage: storage_of(alloc)?,
        paragraphs: paragraphs_of(alloc, form)?,
    };
    let mut layouts = List::new(alloc);
    layouts.push(lay_out(alloc, &program, AreaId(0))?)?;
    let mut programs = List::new(alloc);
    programs.push(program)?;
    Ok(Portfolio {
        programs,
        layouts,
        files: List::new(alloc),
    })
}

fn offset_of(side: &Option<Side>) -> u32 {
    match side {
        Some(Side::Known(field)) => field.span.offset,
        Some(Side::Moving { most: _ }) => 98,
        None => 99,
    }
}

/// The number of the item, the offset, and the word.
fn show_place(alloc: Global, place: &UsedPlace) -> Result<String, Memory> {
    let item = place.item.unwrap_or(9);
    let offset = offset_of(&place.side);
    let at = place.at;
    let text = format!(in alloc; " {item}-{offset}-{at}")?;
    Ok(text)
}

fn show_used(alloc: Global, used: &Used) -> Result<String, Memory> {
    match used {
        Used::Place(place) => show_place(alloc, place),
        Used::Number {
            value,
            digits: _,
            at: _,
        } => {
            let number = value.number;
            let text = format!(in alloc; " {number}")?;
            Ok(text)
        }
        _ => {
            let text = format!(in alloc; " text")?;
            Ok(text)
        }
    }
}

fn show_high(alloc: Global, high: &Option<Used>) -> Result<String, Memory> {
    match high {
        None => Ok(String::new(alloc)),
        Some(high) => show_used(alloc, high),
    }
}

fn show_two(alloc: Global, name: &str, a: &Used, b: &Used) -> Result<String, Memory> {
    let a = show_used(alloc, a)?;
    let b = show_used(alloc, b)?;
    let text = format!(in alloc; "{name}{a}{b}")?;
    Ok(text)
}

fn show_three(alloc: Global, name: &str, a: &Used, b: &Used, c: &Used) -> Result<String, Memory> {
    let first = show_two(alloc, name, a, b)?;
    let last = show_used(alloc, c)?;
    let text = format!(in alloc; "{first}{last}")?;
    Ok(text)
}

fn show_form(alloc: Global, form: &UseForm) -> Result<String, Memory> {
    match form {
        UseForm::Move {
            kind: _,
            from,
            to,
            bridge: _,
        } => show_two(alloc, "move", from, to),
        UseForm::Compare {
            left,
            rel: _,
            right,
        } => show_two(alloc, "less", left, right),
        UseForm::Sum {
            to,
            left,
            right,
            size,
        } => show_three(alloc, if *size { "sum!" } else { "sum" }, to, left, right),
        UseForm::Difference {
            to,
            left,
            right,
            size: _,
        } => show_three(alloc, "difference", to, left, right),
        UseForm::Value { item, of } => show_two(alloc, "value", item, of),
        UseForm::Range { item, low, high } => {
            let text = show_two(alloc, "range", item, low)?;
            let high = show_high(alloc, high)?;
            let text = format!(in alloc; "{text}{high}")?;
            Ok(text)
        }
        UseForm::Accept { to, from: _ } => {
            let to = show_used(alloc, to)?;
            let text = format!(in alloc; "accept{to}")?;
            Ok(text)
        }
        UseForm::Class { of, numeric: _ } => {
            let of = show_used(alloc, of)?;
            let text = format!(in alloc; "class{of}")?;
            Ok(text)
        }
        UseForm::Mention { of } => show_used(alloc, of),
    }
}

/// Each use behind its line, ended by a point.
fn show(alloc: Global, uses: &List<DateUse>) -> Result<String, Memory> {
    let mut text = String::new(alloc);
    for date_use in uses.items() {
        let form = show_form(alloc, &date_use.form)?;
        let line = date_use.at.line;
        let part = format!(in alloc; "{line}{form}.")?;
        text.push_str(part.as_str())?;
    }
    Ok(text)
}

/// What all programs have: the VALUE of Y, whose item is the third, and the values of K.
const ENTRIES: &str = "3value 2-0-3 85.1range 0-0-0 85.1range 0-0-0 90 95.";

#[test]
fn statements_and_entries_use_data(rt: HostRuntime) -> Result<(), Fail> {
    let alloc = rt.alloc();
    let labelling = Labelling::new(alloc, List::new(alloc))?;
    let rows: [(&[u8], &str); 14] = [
        (b"", ""),
        (b"MYD", "6move 2-0-89 3-2-68.6 2-0-89.6 3-2-68."),
        (b"M8D", "6move 85 3-2-68.6 3-2-68."),
        (
            b"ILYD",
            "6less 2-0-89 3-2-68.6 2-0-89.6 3-2-68.7move 2-0-89 3-2-68.7 2-0-89.7 3-2-68.",
        ),
        (
            b"ITYDN",
            "6 2-0-89.6 3-2-68.6 4-4-78.7move 2-0-89 3-2-68.7 2-0-89.7 3-2-68.",
        ),
        (
            b"ICY",
            "6class 2-0-89.6 2-0-89.7move 2-0-89 3-2-68.7 2-0-89.7 3-2-68.",
        ),
        (b"IK", "6 9-99-75.7move 2-0-89 3-2-68.7 2-0-89.7 3-2-68."),
        (b"RY", "6move 9-0-6 2-0-89.6 2-0-89."),
        (b"WY", "6move 2-0-89 0-0-6.6 2-0-89.6 4-4-78."),
        (b"AY", "6accept 2-0-89.6 2-0-89."),
        (
            b"VN1NLYD",
            "6less 2-0-89 3-2-68.6 2-0-89.6 3-2-68.6move 85 4-4-78.6sum 4-4-78 4-4-78 4-4-78.6 4-4-78.6 4-4-78.",
        ),
        (
            b"-DYN",
            "6difference 3-2-68 2-0-89 4-4-78.6 3-2-68.6 4-4-78.6 2-0-89.6 4-4-78.",
        ),
        (
            b"!+DY8",
            "6sum! 3-2-68 2-0-89 85.6 3-2-68.6 2-0-89.7move 2-0-89 3-2-68.7 2-0-89.7 3-2-68.",
        ),
        (b"*DY8", "6 3-2-68.6 4-4-78.6 2-0-89."),
    ];
    for (statement, want) in rows {
        let portfolio = portfolio_of(alloc, form_of(alloc, statement)?)?;
        let uses = uses_of(alloc, &portfolio, &labelling)?;
        let text = show(alloc, &uses)?;
        let want = format!(in alloc; "{ENTRIES}{want}")?;
        assert_eq!(rt; text.as_str(), want.as_str());
    }
    Ok(())
}

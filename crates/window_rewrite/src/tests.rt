ghost use Rattle.std.specs.Prelude.{[], IfOk};
ghost use Rattle.std.specs.List.{AllByRecursion};
ghost use Rattle.y2k_base.specs.Edits.{AreJoined};
ghost use Rattle.data_layout.specs.Index.{IsReady};
ghost use Rattle.year_labels.specs.Facts.{IsClean};

use crate::window;
use cobol_syntax::Program;
use convert_plan::{Plan, make_plan};
use data_layout::{ItemRef, Portfolio};
use date_types::rules_of;
use gathered::assemble;
use label_spread::spread;
use seed_file::read_seeds;
use std::alloc::Global;
use std::test::Fail;
use window_items::{Window, Windows};
use y2k_base::{
    Bytes, Edit, Edits, List, Memory, Text, TextRole, Texts, Word, WordKind, join_edits,
};
use year_labels::{Labelling, Seed};

fn bytes_of(alloc: Global, text: &[u8]) -> Result<Bytes, Memory> {
    let mut bytes = List::new(alloc);
    bytes.append(text)?;
    Ok(bytes)
}

/// A text with each word on a line of its own.
fn lines_of(alloc: Global, text: &str) -> Result<Bytes, Memory> {
    let mut lines = List::new(alloc);
    for byte in text.as_bytes() {
        if *byte == b' ' {
            lines.append(b"\n           ".as_slice())?;
        } else {
            lines.push(*byte)?;
        }
    }
    Ok(lines)
}

/// A program P with storage and with sentences.
fn texts_of(alloc: Global, storage: &str, sentences: &str) -> Result<Texts, Fail> {
    let text = format!(in alloc;
        " ID DIVISION. PROGRAM-ID. P. DATA DIVISION. WORKING-STORAGE SECTION. {storage} PROCEDURE DIVISION. M. {sentences}"
    )?;
    let whole = lines_of(alloc, text.as_str())?;
    let mut list = List::new(alloc);
    list.push(Text {
        name: bytes_of(alloc, b"P.cbl")?,
        key: List::new(alloc),
        role: TextRole::Program,
        bytes: whole,
    })?;
    Ok(Texts { list })
}

/// Groups of one item each, by its pivot and its number.
fn windows_of(alloc: Global, items: &[(u8, u32)]) -> Result<Windows, Memory> {
    let mut groups = List::new(alloc);
    for (pivot, item) in items {
        let mut list = List::new(alloc);
        list.push(ItemRef {
            program: 0,
            item: *item,
        })?;
        groups.push(Window {
            pivot: *pivot,
            items: list,
        })?;
    }
    Ok(Windows { day: 50, groups })
}

/// Adds the new words of an edit, a literal between quotation marks; those of an edit that takes a word away are none.
fn add_edit(into: &mut Bytes, edit: &Edit) -> Result<(), Memory> {
    for word in edit.words.items() {
        if !into.is_empty() {
            into.push(b' ')?;
        }
        if word.kind == WordKind::Literal {
            into.push(b'"')?;
            into.append(word.text.items())?;
            into.push(b'"')?;
        } else {
            into.append(word.text.items())?;
        }
    }
    Ok(())
}

/// An edit of a word, which puts 5 in its place.
fn five(alloc: Global, position: u32, word: &Word) -> Result<Edit, Memory> {
    let mut words = List::new(alloc);
    words.push(Word {
        text: bytes_of(alloc, b"5")?,
        kind: WordKind::Number,
        origin: word.origin,
    })?;
    Ok(Edit {
        program: 0,
        position,
        at: word.origin,
        words,
    })
}

/// An edit of each word 3, which puts 5 in its place.
fn fives(alloc: Global, words: &[Word]) -> Result<List<Edit>, Memory> {
    let mut list = List::new(alloc);
    let mut position = 0u32;
    for word in words {
        if word.text.items() == b"3".as_slice() {
            list.push(five(alloc, position, word)?)?;
        }
        position = position.saturating_add(1);
    }
    Ok(list)
}

fn first_words(programs: &[Program]) -> &[Word] {
    match programs {
        [] => &[],
        [program, ..] => program.words.items(),
    }
}

/// The edits by program and position.
fn in_order(alloc: Global, list: List<Edit>) -> Result<Edits, Memory>
    ensures { IfOk result (λ edits. AreJoined list [] edits.list) }
{
    let none = Edits {
        list: List::new(alloc),
    };
    let edits = join_edits(alloc, Edits { list }, none)?;
    Ok(edits)
}

fn new_words(alloc: Global, edits: &[Edit]) -> Result<Bytes, Memory> {
    let mut text = List::new(alloc);
    for edit in edits {
        add_edit(&mut text, edit)?;
    }
    Ok(text)
}

fn windowed(alloc: Global, portfolio: &Portfolio, plan: &Plan) -> Result<Bytes, Memory>
    requires { AllByRecursion IsReady portfolio.now.layouts }
{
    let list = fives(alloc, first_words(portfolio.programs.items()))?;
    let expanded = in_order(alloc, list)?;
    let edits = window(alloc, portfolio, plan, &expanded)?;
    let text = new_words(alloc, edits.list.items())?;
    Ok(text)
}

fn planned(
    alloc: Global,
    portfolio: &Portfolio,
    labelling: &Labelling,
    windows: &Windows,
) -> Result<Bytes, Memory>
    requires ready { AllByRecursion IsReady portfolio.now.layouts }
    requires clean { IsClean labelling.now }
{
    match make_plan(alloc, portfolio, labelling, windows) {
        Err(_) => bytes_of(alloc, b"limit"),
        Ok(plan) => windowed(alloc, portfolio, &plan),
    }
}

fn labelled(
    alloc: Global,
    portfolio: &Portfolio,
    seeds: &[Seed],
    windows: &Windows,
) -> Result<Bytes, Memory>
    requires { AllByRecursion IsReady portfolio.now.layouts }
{
    let rules = rules_of(alloc, portfolio)?;
    let labelling = spread(alloc, seeds, rules.items())?;
    if labelling.clean() {
        planned(alloc, portfolio, &labelling, windows)
    } else {
        bytes_of(alloc, b"conflict")
    }
}

fn seeded(
    alloc: Global,
    portfolio: &Portfolio,
    seeds: &str,
    windows: &Windows,
) -> Result<Bytes, Memory>
    requires { AllByRecursion IsReady portfolio.now.layouts }
{
    match read_seeds(alloc, seeds.as_bytes(), portfolio) {
        Err(_) => bytes_of(alloc, b"no seeds"),
        Ok(seeds) => labelled(alloc, portfolio, seeds.items(), windows),
    }
}

fn gathered_words(
    alloc: Global,
    texts: Texts,
    seeds: &str,
    windows: &Windows,
) -> Result<Bytes, Memory> {
    match assemble(alloc, texts, None) {
        Err(_) => bytes_of(alloc, b"refused"),
        Ok(gathered) => seeded(alloc, &gathered.portfolio, seeds, windows),
    }
}

/// All words that are written anew in a program with these seeds and windows.
fn written(
    alloc: Global,
    storage: &str,
    seeds: &str,
    windows: &[(u8, u32)],
    sentences: &str,
) -> Result<Bytes, Fail> {
    let texts = texts_of(alloc, storage, sentences)?;
    let seeds = format!(in alloc; "program,item,kind,digit\n{seeds}")?;
    let windows = windows_of(alloc, windows)?;
    let text = gathered_words(alloc, texts, seeds.as_str(), &windows)?;
    Ok(text)
}

/// Two windowed dates, a windowed text, a date that gets its century, and a number.
const STORAGE: &str =
    "01 D1 PIC 9(6). 01 D2 PIC 9(6). 01 DX PIC X(6). 01 E PIC 9(6). 01 N PIC 9. 01 T PIC X.";

const SEEDS: &str = "P,D1,year,1\nP,D2,year,1\nP,DX,year,1\nP,E,year,1\n";

fn rewritten(alloc: Global, sentences: &str) -> Result<Bytes, Fail> {
    written(
        alloc,
        STORAGE,
        SEEDS,
        &[(50, 0), (50, 1), (10, 2)],
        sentences,
    )
}

/// Sentences, and the words that are written anew in them.
const ORDERS: [(&str, &str); 15] = [
    (
        "IF D1 < D2 CONTINUE.",
        "( ( D1 < D2 AND ( D1 NOT < 500000 OR D2 < 500000 ) ) OR ( D1 NOT < 500000 AND D2 < 500000 ) )",
    ),
    (
        "IF D1 > D2 CONTINUE.",
        "( ( D1 > D2 AND ( D2 NOT < 500000 OR D1 < 500000 ) ) OR ( D2 NOT < 500000 AND D1 < 500000 ) )",
    ),
    ("IF D1 = D2 CONTINUE. IF D1 = 400101 CONTINUE.", ""),
    (
        "IF D1 < 800101 CONTINUE.",
        "( D1 < 800101 AND D1 NOT < 500000 )",
    ),
    ("IF 800101 < D1 CONTINUE.", "( D1 > 800101 OR D1 < 500000 )"),
    (
        "IF D1 >= 800101 CONTINUE.",
        "NOT ( D1 < 800101 AND D1 NOT < 500000 )",
    ),
    (
        "IF \"801231\" NOT > DX CONTINUE.",
        "NOT ( DX < \"801231\" AND DX NOT < \"10\" )",
    ),
    (
        "IF NOT D1 <= 800101 CONTINUE.",
        "NOT ( NOT ( D1 > 800101 OR D1 < 500000 ) )",
    ),
    (
        "IF N = 1 OR 2 AND (D1 > 800101 OR N NOT < 3) CONTINUE.",
        "( N = 1 OR ( N = 2 AND ( ( D1 > 800101 OR D1 < 500000 ) OR NOT N < 3 ) ) )",
    ),
    (
        "IF 580101 > D1 AND > E CONTINUE.",
        "( ( D1 < 580101 AND D1 NOT < 500000 ) AND 19580101 > E )",
    ),
    (
        "IF D1 < 800101 AND E (3:2) = \"12\" AND E = ZERO CONTINUE.",
        "( ( ( D1 < 800101 AND D1 NOT < 500000 ) AND E ( 5 : 2 ) = \"12\" ) AND E = 19000000 )",
    ),
    (
        "IF T ALPHABETIC AND NOT T NUMERIC AND D1 < 800101 AND N IS NOT ZERO CONTINUE.",
        "( ( ( T ALPHABETIC AND NOT T NUMERIC ) AND ( D1 < 800101 AND D1 NOT < 500000 ) ) AND NOT N ZERO )",
    ),
    (
        "IF D1 < 800101 AND N + 1 * N > - N - 2 / N CONTINUE.",
        "( ( D1 < 800101 AND D1 NOT < 500000 ) AND ( N + ( 1 * N ) ) > ( ( - N ) - ( 2 / N ) ) )",
    ),
    (
        "EVALUATE TRUE WHEN N = 1 OR D1 < 800101 WHEN N = 2 WHEN D2 > 900101 STOP RUN END-EVALUATE.",
        "( N = 1 OR ( D1 < 800101 AND D1 NOT < 500000 ) ) ( D2 > 900101 OR D2 < 500000 )",
    ),
    (
        "PERFORM M UNTIL D1 < 800101.",
        "( D1 < 800101 AND D1 NOT < 500000 )",
    ),
];

#[test]
fn orders_go_by_windows(rt: HostRuntime) -> Result<(), Fail> {
    let alloc = rt.alloc();
    for (sentences, wanted) in ORDERS {
        let got = rewritten(alloc, sentences)?;
        assert_eq!(rt; str::from_utf8(got.items()).unwrap_or(""), wanted);
    }
    Ok(())
}

/// Windowed years of two digits, and numbers.
const YEARS: &str = "01 CURR PIC 99. 01 BORN PIC 99. 01 AGE PIC 99. 01 N PIC 99.";

const YEAR_SEEDS: &str = "P,CURR,year,1\nP,BORN,year,1\n";

const DIFFERENCES: [(&str, &str); 5] = [
    (
        "COMPUTE AGE = CURR - BORN.",
        "IF CURR < 5 AND BORN NOT < 5 COMPUTE AGE = CURR - BORN + 100 ELSE IF CURR NOT < 5 AND BORN < 5 COMPUTE AGE = CURR - BORN - 100 ELSE COMPUTE AGE = CURR - BORN END-IF END-IF",
    ),
    (
        "SUBTRACT 0.5 FROM CURR ROUNDED.",
        "IF CURR < 0.5 COMPUTE CURR ROUNDED = CURR - 0.5 + 100 ELSE COMPUTE CURR ROUNDED = CURR - 0.5 END-IF",
    ),
    ("ADD 1 TO CURR. SUBTRACT 1 FROM N.", ""),
    (
        "SUBTRACT 7 FROM N CURR N ROUNDED END-SUBTRACT.",
        "SUBTRACT 7 FROM N END-SUBTRACT IF CURR < 7 COMPUTE CURR = CURR - 7 + 100 ELSE COMPUTE CURR = CURR - 7 END-IF SUBTRACT 7 FROM N ROUNDED END-SUBTRACT",
    ),
    ("IF CURR < 9 CONTINUE.", "( CURR < 9 AND CURR NOT < 5 )"),
];

#[test]
fn differences_go_by_windows(rt: HostRuntime) -> Result<(), Fail> {
    let alloc = rt.alloc();
    for (sentences, wanted) in DIFFERENCES {
        let got = written(alloc, YEARS, YEAR_SEEDS, &[(5, 0), (5, 1)], sentences)?;
        assert_eq!(rt; str::from_utf8(got.items()).unwrap_or(""), wanted);
    }
    Ok(())
}

#[test]
fn each_comparison_has_its_pivot(rt: HostRuntime) -> Result<(), Fail> {
    let alloc = rt.alloc();
    let storage = "01 BIRTH PIC 9(6). 01 DUE PIC 9(6).";
    let seeds = "P,BIRTH,year,1\nP,DUE,year,1\n";
    let windows = [(10, 0), (50, 1)];
    let sentences = "IF BIRTH < 600101 AND < DUE CONTINUE.";
    let got = written(alloc, storage, seeds, &windows, sentences)?;
    assert_eq!(rt; str::from_utf8(got.items()).unwrap_or(""), "limit");
    let sentences = "IF BIRTH < 400101 OR DUE < 600101 CONTINUE.";
    let got = written(alloc, storage, seeds, &windows, sentences)?;
    let wanted =
        "( ( BIRTH < 400101 AND BIRTH NOT < 100000 ) OR ( DUE < 600101 AND DUE NOT < 500000 ) )";
    assert_eq!(rt; str::from_utf8(got.items()).unwrap_or(""), wanted);
    Ok(())
}

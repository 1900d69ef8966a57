ghost use Rattle.std.specs.List.{AllByRecursion};
ghost use Rattle.data_layout.specs.Index.{IsReady};
ghost use Rattle.year_labels.specs.Facts.{IsClean};

use crate::expand;
use convert_plan::{Plan, make_plan};
use data_layout::Portfolio;
use date_types::rules_of;
use gathered::assemble;
use label_spread::spread;
use seed_file::read_seeds;
use std::alloc::Global;
use std::test::Fail;
use window_items::Windows;
use y2k_base::{Bytes, Edit, List, Memory, Text, TextRole, Texts};
use year_labels::{Labelling, Seed};

fn bytes_of(alloc: Global, text: &[u8]) -> Result<Bytes, Memory> {
    let mut bytes = List::new(alloc);
    bytes.append(text)?;
    Ok(bytes)
}

/// The text of a program P with these lines behind its name.
fn texts_of(alloc: Global, lines: &str) -> Result<Texts, Fail> {
    let whole = format!(in alloc;
        "       ID DIVISION.\n       PROGRAM-ID. P.\n{lines}           STOP RUN.\n"
    )?;
    let mut list = List::new(alloc);
    list.push(Text {
        name: bytes_of(alloc, b"P.cbl")?,
        key: List::new(alloc),
        role: TextRole::Program,
        bytes: bytes_of(alloc, whole.as_bytes())?,
    })?;
    Ok(Texts { list })
}

fn add_edit(alloc: Global, into: &mut Bytes, edit: &Edit) -> Result<(), Memory> {
    into.append(edit.position.to_string(alloc)?.as_bytes())?;
    into.push(b':')?;
    for word in edit.words.items() {
        into.push(b' ')?;
        into.append(word.text.items())?;
    }
    into.push(b'\n')?;
    Ok(())
}

/// The edits, one a line.
fn edit_lines(alloc: Global, edits: &[Edit]) -> Result<Bytes, Memory> {
    let mut text = List::new(alloc);
    for edit in edits {
        add_edit(alloc, &mut text, edit)?;
    }
    Ok(text)
}

fn expanded(alloc: Global, portfolio: &Portfolio, plan: &Plan) -> Result<Bytes, Memory>
    requires { AllByRecursion IsReady portfolio.now.layouts }
{
    let edits = expand(alloc, portfolio, plan)?;
    let lines = edit_lines(alloc, edits.list.items())?;
    Ok(lines)
}

fn planned(alloc: Global, portfolio: &Portfolio, labelling: &Labelling) -> Result<Bytes, Memory>
    requires ready { AllByRecursion IsReady portfolio.now.layouts }
    requires clean { IsClean labelling.now }
{
    let windows = Windows {
        day: 5,
        groups: List::new(alloc),
    };
    match make_plan(alloc, portfolio, labelling, &windows) {
        Err(_) => bytes_of(alloc, b"limit"),
        Ok(plan) => expanded(alloc, portfolio, &plan),
    }
}

fn labelled(alloc: Global, portfolio: &Portfolio, seeds: &[Seed]) -> Result<Bytes, Memory>
    requires { AllByRecursion IsReady portfolio.now.layouts }
{
    let rules = rules_of(alloc, portfolio)?;
    let labelling = spread(alloc, seeds, rules.items())?;
    if labelling.clean() {
        planned(alloc, portfolio, &labelling)
    } else {
        bytes_of(alloc, b"conflict")
    }
}

fn seeded(alloc: Global, portfolio: &Portfolio, seeds: &str) -> Result<Bytes, Memory>
    requires { AllByRecursion IsReady portfolio.now.layouts }
{
    match read_seeds(alloc, seeds.as_bytes(), portfolio) {
        Err(_) => bytes_of(alloc, b"no seeds"),
        Ok(seeds) => labelled(alloc, portfolio, seeds.items()),
    }
}

fn gathered_edits(alloc: Global, texts: Texts, seeds: &str) -> Result<Bytes, Memory> {
    match assemble(alloc, texts, None) {
        Err(_) => bytes_of(alloc, b"refused"),
        Ok(gathered) => seeded(alloc, &gathered.portfolio, seeds),
    }
}

/// The edits of a program with these seeds, one a line.
fn edits_text(alloc: Global, lines: &str, seeds: &str) -> Result<Bytes, Fail> {
    let texts = texts_of(alloc, lines)?;
    let text = gathered_edits(alloc, texts, seeds)?;
    Ok(text)
}

/// The lines of a program behind its name, its seeds, and its edits, each line with a line feed.
const CASES: [(&str, &str, &str); 4] = [
    (
        "       DATA DIVISION.\n       WORKING-STORAGE SECTION.\n       01 D PIC 9(6).\n       01 G REDEFINES D.\n       05 YY PIC 9(2).\n       05 MM PIC 9(2).\n       05 DD PIC 9(2).\n       01 M2 PIC X(2).\n       PROCEDURE DIVISION.\n       MAIN-PARA.\n           MOVE D (3:2) TO M2.\n           MOVE M2 TO D (3:).\n",
        "program,item,kind,digit\nP,D,year,1\n",
        "16: 9(8)\n26: 9(4)\n51: 5\n63: 5\n",
    ),
    (
        "       DATA DIVISION.\n       WORKING-STORAGE SECTION.\n       01 D PIC 9(6).\n       01 YY PIC 99.\n       PROCEDURE DIVISION.\n       MAIN-PARA.\n           MOVE ZERO TO D.\n           MOVE 5 TO YY.\n           MOVE 850101 TO D YY.\n           MOVE 85 TO YY YY.\n           IF YY < 85 AND > 60 OR D = ZERO CONTINUE.\n",
        "program,item,kind,digit\nP,D,year,1\nP,YY,year,1\n",
        "16: 9(8)\n21: 9(4)\n29: 19000000\n34: 1905\n38: MOVE 19850101 TO D MOVE 1901 TO YY\n39:\n40:\n41:\n42:\n45: 1985\n53: 1985\n56: 1960\n60: 19000000\n",
    ),
    (
        "       DATA DIVISION.\n       WORKING-STORAGE SECTION.\n       01 D PIC 9(6).\n       01 E PIC 9(5).\n       PROCEDURE DIVISION.\n       MAIN-PARA.\n           ACCEPT D FROM DATE.\n           ACCEPT E FROM DAY.\n           EVALUATE 850101 WHEN D CONTINUE WHEN E CONTINUE.\n",
        "program,item,kind,digit\nP,D,year,1\nP,E,year,1\n",
        "16: 9(8)\n21: 9(7)\n23: 01 Y2K-DATE PIC 9(6) . 01 Y2K-FULL-DATE PIC 9(8) . 01 Y2K-DAY PIC 9(5) . 01 Y2K-FULL-DAY PIC 9(7) . PROCEDURE\n28: ACCEPT Y2K-DATE FROM DATE IF Y2K-DATE < 050000 COMPUTE Y2K-FULL-DATE = Y2K-DATE + 20000000 ELSE COMPUTE Y2K-FULL-DATE = Y2K-DATE + 19000000 END-IF MOVE Y2K-FULL-DATE TO D\n29:\n30:\n31:\n33: ACCEPT Y2K-DAY FROM DAY IF Y2K-DAY < 05000 COMPUTE Y2K-FULL-DAY = Y2K-DAY + 2000000 ELSE COMPUTE Y2K-FULL-DAY = Y2K-DAY + 1900000 END-IF MOVE Y2K-FULL-DAY TO E\n34:\n35:\n36:\n39: 19850101\n39: 81950101\n",
    ),
    (
        "       ENVIRONMENT DIVISION.\n       INPUT-OUTPUT SECTION.\n       FILE-CONTROL.\n           SELECT F ASSIGN TO F STATUS W (7:2).\n       DATA DIVISION.\n       FILE SECTION.\n       FD F RECORD CONTAINS 6 CHARACTERS.\n       01 R PIC 9(6).\n       WORKING-STORAGE SECTION.\n       01 W.\n       05 WD PIC 9(6).\n       05 WS PIC X(2).\n       PROCEDURE DIVISION.\n       MAIN-PARA.\n           OPEN OUTPUT F.\n           WRITE R FROM 010158.\n",
        "program,item,kind,digit\nP,R,year,5\nP,WD,year,1\n",
        "23: 9\n38: 8\n44: 9(8)\n55: 9(8)\n74: 01011958\n",
    ),
];

#[test]
fn programs_get_their_years(rt: HostRuntime) -> Result<(), Fail> {
    let alloc = rt.alloc();
    for (lines, seeds, wanted) in CASES {
        let got = edits_text(alloc, lines, seeds)?;
        assert_eq!(rt; str::from_utf8(got.items()).unwrap_or(""), wanted);
    }
    Ok(())
}

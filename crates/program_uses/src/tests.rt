use super::*;
use copy_origins::{Books, expand};
use data_layout::lay_out;
use fixed_format::read_lines;
use program_reader::{ReadFault, Refused, RefusedKind, read_program};
use std::alloc::Global;
use std::test::Fail;
use y2k_base::{AreaId, Bytes, FileId, List, Memory, Origin};

/// What stands before the statements of a row: a file F with the record R, and items of all kinds.
const DATA: &[u8] = b"       ID DIVISION.
       PROGRAM-ID. P.
       ENVIRONMENT DIVISION.
       INPUT-OUTPUT SECTION.
       FILE-CONTROL.
           SELECT F ASSIGN TO X.
       DATA DIVISION.
       FILE SECTION.
       FD F.
       01 R PIC X(6).
       WORKING-STORAGE SECTION.
       01 G.
           05 T PIC X(6).
           05 N PIC 9(4).
           05 S PIC S9(4).
           05 V PIC 9(4)V99.
           05 P PIC 9(5) COMP-3.
           05 B PIC 9(4) COMP.
           05 E PIC ZZ9.
           05 L PIC X(20).
           05 A PIC 9(2) OCCURS 3.
           05 C PIC X.
           88 FLAG VALUE \"Y\".
           05 M.
               10 Q PIC 9.
       01 H.
           05 Q PIC 9.
       77 K PIC 9.
       PROCEDURE DIVISION.
       MAIN.
";

/// What stands after them.
const PARAGRAPH: &[u8] = b"       PAR.
           EXIT.
";

/// What stands before the entries of a row.
const STORAGE: &[u8] = b"       ID DIVISION.
       PROGRAM-ID. P.
       DATA DIVISION.
       WORKING-STORAGE SECTION.
";

/// What stands after them.
const STOPPED: &[u8] = b"       PROCEDURE DIVISION.
           STOP RUN.
";

/// What stands before the SELECT entry of a row.
const CONTROL: &[u8] = b"       ID DIVISION.
       PROGRAM-ID. P.
       ENVIRONMENT DIVISION.
       INPUT-OUTPUT SECTION.
       FILE-CONTROL.
";

/// What stands after it.
const FILED: &[u8] = b"       DATA DIVISION.
       FILE SECTION.
       FD F.
       01 R PIC X(6).
       WORKING-STORAGE SECTION.
       01 W2 PIC XX.
       01 W3 PIC X(3).
       01 D2 PIC 99.
       01 D3 PIC 999.
       01 S2 PIC S99.
       01 E2 PIC Z9.
       01 G2.
           05 G1 PIC X OCCURS 2.
       77 K PIC 9.
       PROCEDURE DIVISION.
           STOP RUN.
";

/// What stands before the statements of a row on tables: one of rows with two fields and a number behind it, seen
/// otherwise by a redefinition, and one of two dimensions in another area.
const TABLES: &[u8] = b"       ID DIVISION.
       PROGRAM-ID. P.
       DATA DIVISION.
       WORKING-STORAGE SECTION.
       01 G.
           05 R OCCURS 3.
               10 A PIC 9(2).
               10 B PIC 9(2).
           05 N PIC 9(4).
       01 H REDEFINES G.
           05 P PIC 9(4).
           05 Q PIC 9(2) OCCURS 4.
       01 D.
           05 E OCCURS 2.
               10 F PIC 9 OCCURS 3.
       77 J PIC 9.
       77 K PIC 9.
       PROCEDURE DIVISION.
       MAIN.
";

/// The first fault in the uses of the program that the text is.
fn first_fault_in(alloc: Global, text: &[u8]) -> Result<Option<Refused>, Fail> {
    let lines = read_lines(alloc, text, FileId(0))?;
    let books = Books {
        list: List::new(alloc),
    };
    let expanded = expand(alloc, lines.words(), &books)?;
    let program = read_program(alloc, &expanded, 0, FileId(0))?;
    let layout = lay_out(alloc, &program, AreaId(0))?;
    match check_uses(alloc, &program, &layout) {
        Ok(()) => Ok(None),
        Err(ReadFault::Refused(refused)) => Ok(Some(refused)),
        Err(ReadFault::Memory) => Err(Fail::from(Memory)),
    }
}

/// The kind of fault that a row begins with: `S` UseShape, `U` NameUnknown, `T` NameTwice, and `K` for a row that is kept.
fn kind_of_row(row: &[u8]) -> Option<RefusedKind> {
    match row {
        [b'S', ..] => Some(RefusedKind::UseShape),
        [b'U', ..] => Some(RefusedKind::NameUnknown),
        [b'T', ..] => Some(RefusedKind::NameTwice),
        _ => None,
    }
}

/// The row's text after a margin, between the others, without the caret that stands before the word at fault.
fn text_of_row(
    alloc: Global,
    before: &[u8],
    margin: &[u8],
    row: &[u8],
    after: &[u8],
) -> Result<Bytes, Memory> {
    let mut text = List::new(alloc);
    text.append(before)?;
    text.append(margin)?;
    for byte in row.iter().skip(1) {
        if *byte != b'^' {
            text.push(*byte)?;
        }
    }
    text.push(b'\n')?;
    text.append(after)?;
    Ok(text)
}

fn count_of(text: &[u8], wanted: u8) -> u32 {
    let mut count = 0_u32;
    for byte in text {
        if *byte == wanted {
            count = count.wrapping_add(1);
        }
    }
    count
}

/// How many bytes stand before the caret of a row, and 0 without one.
fn caret_in(row: &[u8]) -> u32 {
    let mut place = 0_u32;
    for byte in row.iter().skip(1) {
        if *byte == b'^' {
            return place;
        }
        place = place.wrapping_add(1);
    }
    0
}

/// Whether the row's text has the fault that the row names, and no other before it.
fn holds(
    alloc: Global,
    before: &[u8],
    margin: &[u8],
    row: &[u8],
    after: &[u8],
) -> Result<bool, Fail> {
    let text = text_of_row(alloc, before, margin, row, after)?;
    let found = first_fault_in(alloc, text.items())?;
    let line = count_of(before, b'\n').wrapping_add(1);
    let column = count_of(margin, b' ')
        .wrapping_add(1)
        .wrapping_add(caret_in(row));
    let wanted = kind_of_row(row).map(|kind| Refused {
        kind,
        at: Origin {
            file: FileId(0),
            line,
            column,
        },
    });
    Ok(found == wanted)
}

fn all_hold(
    alloc: Global,
    before: &[u8],
    margin: &[u8],
    rows: &[u8],
    after: &[u8],
) -> Result<bool, Fail> {
    for row in rows.split(|byte| *byte == b'\n') {
        if !row.is_empty() && !holds(alloc, before, margin, row, after)? {
            return Ok(false);
        }
    }
    Ok(true)
}

/// The margin of statements.
const AREA_B: &[u8] = b"           ";

/// The margin of entries.
const AREA_A: &[u8] = b"       ";

#[test]
fn moves_have_a_meaning(rt: HostRuntime) -> Result<(), Fail> {
    let rows = b"KMOVE T TO N.
KMOVE G TO P.
KMOVE S TO T.
SMOVE V TO T.
KMOVE V TO G.
KMOVE V TO N.
SMOVE E TO N.
SMOVE E TO E.
KMOVE E TO T.
KMOVE N TO E.
SMOVE L TO N.
KMOVE L TO T.
KMOVE L (1:18) TO N.
SMOVE L (1:19) TO N.
KMOVE L (1:K) TO N.
SMOVE L (K:19) TO N.
KMOVE \"12\" TO N.
SMOVE \"1234567890123456789\" TO N.
KMOVE 1.5 TO N.
SMOVE 1.5 TO T.
KMOVE 1.5 TO G.
KMOVE ZERO TO N.
SMOVE SPACE TO N.
SMOVE HIGH-VALUE TO E.
KMOVE SPACE TO T.
KACCEPT E FROM DATE.
KDISPLAY V \"X\" SPACE.
";
    assert!(rt; all_hold(rt.alloc(), DATA, AREA_B, rows, PARAGRAPH)?);
    Ok(())
}

#[test]
fn comparisons_have_a_meaning(rt: HostRuntime) -> Result<(), Fail> {
    let rows = b"KIF N = P CONTINUE.
KIF S = B CONTINUE.
KIF N = T CONTINUE.
SIF S = T CONTINUE.
SIF P = T CONTINUE.
SIF V = \"X\" CONTINUE.
KIF T = 5 CONTINUE.
SIF T = 1.5 CONTINUE.
KIF V = 1.5 CONTINUE.
KIF S = ZERO CONTINUE.
SIF S = SPACE CONTINUE.
KIF N = SPACE CONTINUE.
KIF E = T CONTINUE.
SIF 1 = 2 CONTINUE.
SIF \"A\" = SPACE CONTINUE.
SIF (1) = 2 CONTINUE.
KIF 5 POSITIVE CONTINUE.
KIF 1 + 2 = 3 CONTINUE.
SIF T + 1 = 3 CONTINUE.
SIF - T = 3 CONTINUE.
KIF - N = ZERO CONTINUE.
SIF N + 1 = SPACE CONTINUE.
KIF + T = L CONTINUE.
SIF T POSITIVE CONTINUE.
KIF T NUMERIC CONTINUE.
KIF FLAG CONTINUE.
SIF N = 1 OR S = T CONTINUE.
SIF NOT S = T AND FLAG CONTINUE.
SEVALUATE S WHEN 1 CONTINUE ^WHEN \"A\" CONTINUE.
";
    assert!(rt; all_hold(rt.alloc(), DATA, AREA_B, rows, PARAGRAPH)?);
    Ok(())
}

#[test]
fn arithmetic_has_numbers(rt: HostRuntime) -> Result<(), Fail> {
    let rows = b"KADD 1 TO N.
SADD 1 TO E.
KCOMPUTE E = N + 1.
SCOMPUTE T = N.
SCOMPUTE N = T.
SCOMPUTE N = E.
SCOMPUTE N = G.
KCOMPUTE N = ZERO.
SCOMPUTE N = SPACE.
SCOMPUTE N = \"1\".
KDIVIDE N BY 3 GIVING S REMAINDER P.
SDIVIDE N BY 3 GIVING S REMAINDER E.
KADD 1 TO N S.
KADD 1 TO N ON SIZE ERROR CONTINUE.
SADD 1 TO N S ON SIZE ERROR CONTINUE.
SADD 1 TO N S NOT ON SIZE ERROR CONTINUE.
KDIVIDE N BY 3 GIVING S REMAINDER P ON SIZE ERROR CONTINUE.
KCOMPUTE N = N + 1.
SCOMPUTE B N = N + 1.
SADD N TO S N.
KADD A (1) TO A (2) A (3).
SADD A (1) TO A (2) A (1).
";
    assert!(rt; all_hold(rt.alloc(), DATA, AREA_B, rows, PARAGRAPH)?);
    Ok(())
}

#[test]
fn a_receiver_of_several_shares_no_byte_with_an_operand(rt: HostRuntime) -> Result<(), Fail> {
    let rows = b"KADD A (1) TO A (2) A (3).
SADD A (1) TO A (2) A (1).
KADD A (1) TO B (1) B (2).
SADD A (1) TO A (K) N.
SADD A (K) TO A (1) N.
SADD A (K) TO N A (3).
KADD A (1) TO B (K) N.
KADD A (K) TO B (2) N.
SADD A (K) TO A (J) N.
SADD A (K) TO A (K) N.
KADD A (K) TO B (J) N.
KADD A (K) TO A (J).
KADD 1 TO A (K) A (J).
KADD 1 TO A (1) A (1).
SCOMPUTE A (K) N = A (J) + 1.
KCOMPUTE A (K) N = B (J) + 1.
SADD A (K) B (J) GIVING B (1) N.
KADD A (K) A (J) GIVING B (1) N.
SADD P TO A (K) N.
SADD P TO B (1) N.
KADD P TO A (2) N.
SADD Q (K) TO A (J) N.
KADD Q (K) TO A (1) N.
SADD Q (2) TO B (K) N.
KADD Q (2) TO A (K) N.
SADD N TO A (K) N.
KADD Q (K) TO N J.
KADD F (K J) TO A (K) N.
SADD F (1 K) TO F (J 3) N.
KADD F (1 K) TO F (2 J) N.
SADD F (K 1) TO F (1 J) N.
KADD F (K 1) TO F (J 2) N.
KADD A (K) TO K N.
KADD K TO A (K) N.
SADD 1 TO J N (K:2).
";
    assert!(rt; all_hold(rt.alloc(), TABLES, AREA_B, rows, PARAGRAPH)?);
    Ok(())
}

#[test]
fn counts_are_numbers(rt: HostRuntime) -> Result<(), Fail> {
    let rows = b"KPERFORM PAR N TIMES.
KPERFORM PAR ZERO TIMES.
SPERFORM PAR 1.5 TIMES.
SPERFORM PAR T TIMES.
SPERFORM PAR V TIMES.
SPERFORM PAR SPACE TIMES.
KPERFORM PAR VARYING N FROM ZERO BY V UNTIL N = 3.
SPERFORM PAR VARYING E FROM 1 BY 1 UNTIL N = 3.
SPERFORM PAR VARYING N FROM T BY 1 UNTIL N = 3.
SPERFORM PAR VARYING N FROM 1 BY SPACE UNTIL N = 3.
SPERFORM PAR UNTIL S = T.
KWRITE R FROM E AFTER V LINES.
SWRITE R AFTER T LINES.
";
    assert!(rt; all_hold(rt.alloc(), DATA, AREA_B, rows, PARAGRAPH)?);
    Ok(())
}

#[test]
fn subscripts_and_references_stay_in_their_item(rt: HostRuntime) -> Result<(), Fail> {
    let rows = b"KMOVE A (3) TO N.
SMOVE A (4) TO N.
SMOVE A (0) TO N.
SMOVE A TO N.
SMOVE A (1 1) TO N.
SMOVE N (1) TO N.
KMOVE A (K) TO N.
SMOVE A (T) TO N.
SMOVE A (V) TO N.
KMOVE T (2:5) TO L.
SMOVE T (2:6) TO L.
SMOVE T (7:1) TO L.
SMOVE T (0:1) TO L.
SMOVE T (1:0) TO L.
KMOVE T (K:6) TO L.
SMOVE T (K:7) TO L.
SMOVE T (V:1) TO L.
KMOVE T (6:) TO L.
";
    assert!(rt; all_hold(rt.alloc(), DATA, AREA_B, rows, PARAGRAPH)?);
    Ok(())
}

#[test]
fn names_mean_one_thing(rt: HostRuntime) -> Result<(), Fail> {
    let rows = b"UMOVE ^XX TO N.
UMOVE N TO ^XX.
TMOVE ^Q TO N.
KMOVE Q OF M TO N.
UMOVE ^FLAG TO T.
UIF ^FLAG OF C CONTINUE.
KIF FLAG OF G CONTINUE.
UMOVE ^A (XX) TO N.
TMOVE ^A (Q) TO N.
UMOVE ^A (FLAG) TO N.
UPERFORM XX.
UPERFORM PAR THRU XX.
KPERFORM MAIN THRU PAR.
UGO TO XX.
KGO TO PAR.
KOPEN INPUT F CLOSE F.
UOPEN INPUT T.
UCLOSE XX.
KREAD F INTO N AT END CONTINUE.
UREAD XX AT END CONTINUE.
KWRITE R FROM E.
UWRITE T.
UWRITE FLAG.
UWRITE XX.
TWRITE Q.
";
    assert!(rt; all_hold(rt.alloc(), DATA, AREA_B, rows, PARAGRAPH)?);
    Ok(())
}

#[test]
fn the_first_fault_in_the_text_is_named(rt: HostRuntime) -> Result<(), Fail> {
    let rows = b"TMOVE ^Q TO XX.
UMOVE ^T (Q:XX) TO N.
UMOVE E TO ^XX.
UMOVE E TO N ^XX.
USUBTRACT ^XX FROM Q.
TREAD XX INTO ^Q AT END CONTINUE.
UOPEN INPUT F XX.
SIF S = T MOVE XX TO N.
UIF N = 1 MOVE ^XX TO N ELSE MOVE E TO N.
SIF N = 1 ^MOVE E TO N ELSE MOVE XX TO N.
SMOVE E TO N MOVE XX TO N.
UADD 1 TO N ON SIZE ERROR MOVE ^XX TO N.
SCOMPUTE T = N ON SIZE ERROR MOVE XX TO N.
SPERFORM 1.5 TIMES MOVE XX TO N END-PERFORM.
UPERFORM XX MOVE Q TO N.
";
    assert!(rt; all_hold(rt.alloc(), DATA, AREA_B, rows, PARAGRAPH)?);
    Ok(())
}

#[test]
fn values_of_condition_names_fit_their_item(rt: HostRuntime) -> Result<(), Fail> {
    let rows = b"K01 W PIC 9. 88 C VALUES 1 THRU 3.
K01 W PIC 9. 88 C VALUE \"A\".
S01 W PIC S9. ^88 C VALUE \"A\".
S01 W PIC X. ^88 C VALUE 1.5.
K01 W PIC 9V9. 88 C VALUE 1.5.
S01 W PIC S9. ^88 C VALUE SPACE.
K01 W PIC S9. 88 C VALUE ZERO.
S01 W PIC S9. ^88 C VALUES 1 THRU \"B\".
S01 W PIC S9. 88 B VALUE 1. ^88 C VALUE 2 SPACE.
";
    assert!(rt; all_hold(rt.alloc(), STORAGE, AREA_A, rows, STOPPED)?);
    Ok(())
}

#[test]
fn files_have_both_entries_and_a_status_of_two_bytes(rt: HostRuntime) -> Result<(), Fail> {
    let rows = b"KSELECT F ASSIGN TO X FILE STATUS IS W2.
SSELECT F ASSIGN TO X FILE STATUS IS W3.
KSELECT F ASSIGN TO X FILE STATUS IS D2.
SSELECT F ASSIGN TO X FILE STATUS IS D3.
SSELECT F ASSIGN TO X FILE STATUS IS S2.
SSELECT F ASSIGN TO X FILE STATUS IS E2.
KSELECT F ASSIGN TO X FILE STATUS IS G2.
KSELECT F ASSIGN TO X FILE STATUS IS W3 (K:2).
SSELECT F ASSIGN TO X FILE STATUS IS W3 (1:K).
SSELECT F ASSIGN TO X FILE STATUS IS W3 (3:2).
USELECT F ASSIGN TO X FILE STATUS IS ^XX.
USELECT ^XX ASSIGN TO X FILE STATUS IS YY.
SSELECT XX ASSIGN TO X FILE STATUS IS W3.
";
    assert!(rt; all_hold(rt.alloc(), CONTROL, AREA_B, rows, FILED)?);
    Ok(())
}

#[test]
fn an_fd_without_a_select_is_unknown(rt: HostRuntime) -> Result<(), Fail> {
    let text = b"       ID DIVISION.
       PROGRAM-ID. P.
       DATA DIVISION.
       FILE SECTION.
       FD F.
       01 R PIC X.
       PROCEDURE DIVISION.
           MOVE XX TO R.
";
    let found = first_fault_in(rt.alloc(), text)?;
    let wanted = Refused {
        kind: RefusedKind::NameUnknown,
        at: Origin {
            file: FileId(0),
            line: 5,
            column: 11,
        },
    };
    assert!(rt; found == Some(wanted));
    Ok(())
}

use crate::annodomini;
use shelf::{MemoryShelf, MemorySink};
use std::alloc::Global;
use std::test::Fail;

const USAGE: &str =
    "usage: annodomini label-one SRC ITEM, label M, plan M, convert M OUT, run M JOB YYMMDD BOUND OUT, generate N OUT, agree M JOB YYMMDD BOUND OUT, update M1 M2, age M YEARS OUT, age-new M NEW YEARS OUT, contract M NEW OUT\n";

const LABELS: &str = "A 0 T\nA 1 U\nB 0 T\nB 1 U\n";

/// The program ONE with these entries, from line 5, and these statements before STOP RUN.
fn program(alloc: Global, entries: &str, statements: &str) -> Result<String, Fail> {
    let text = format!(in alloc;
        "       IDENTIFICATION DIVISION.\n       PROGRAM-ID. ONE.\n       DATA DIVISION.\n       WORKING-STORAGE SECTION.\n{entries}       PROCEDURE DIVISION.\n       MAIN-PARA.\n{statements}           STOP RUN.\n"
    )?;
    Ok(text)
}

const ENTRIES: &str = "       01  A PIC 9(6).\n       01  B PIC 9(6).\n       01  C PIC X(2).\n";

const MOVE: &str = "           MOVE A TO B.\n";

/// What a call of the program came to.
#[derive(Drop)]
struct Answer {
    status: u8,
    printed: Vec<u8>,
}

/// What the call answers and prints on a shelf with that text as ONE.cbl, where the calls of these numbers
/// fail.
fn answer_to(
    alloc: Global,
    text: &str,
    words: &[&str],
    shelf_fault: u64,
    sink_fault: u64,
) -> Result<Answer, Fail> {
    let answer = answer_to_bytes(alloc, text.as_bytes(), words, shelf_fault, sink_fault)?;
    Ok(answer)
}

fn answer_to_bytes(
    alloc: Global,
    bytes: &[u8],
    words: &[&str],
    shelf_fault: u64,
    sink_fault: u64,
) -> Result<Answer, Fail> {
    let mut shelf = MemoryShelf::new(alloc)?;
    shelf.put("ONE.cbl", bytes)?;
    shelf.fail_on(shelf_fault)?;
    let mut out = MemorySink::new(alloc)?;
    out.fail_on(sink_fault)?;
    let mut owned = Vec::new(alloc);
    for word in words {
        owned.push(String::from_str(alloc, word)?)?;
    }
    let status = annodomini(alloc, owned.as_slice(), &mut shelf, &mut out);
    let printed = out.bytes().to_vec(alloc)?;
    Ok(Answer { status, printed })
}

#[test]
fn a_move_carries_the_labels_of_the_seeded_year(rt: HostRuntime) -> Result<(), Fail> {
    let alloc = rt.alloc();
    let text = program(alloc, ENTRIES, MOVE)?;
    for item in ["A", "a"] {
        let got = answer_to(alloc, text.as_str(), &["label-one", "ONE.cbl", item], 0, 0)?;
        assert_eq!(rt; got.status, 0);
        assert_eq!(rt; got.printed.as_slice(), LABELS.as_bytes());
    }
    Ok(())
}

#[test]
fn words_without_a_form_print_the_usage_line(rt: HostRuntime) -> Result<(), Fail> {
    let alloc = rt.alloc();
    let text = program(alloc, ENTRIES, MOVE)?;
    let cases: [&[&str]; 9] = [
        &[],
        &["label-one"],
        &["label-one", "ONE.cbl"],
        &["label-one", "ONE.cbl", "A", "B"],
        &["Label-One", "ONE.cbl", "A"],
        &["label-one", "", "A"],
        &["label-one", "x//ONE.cbl", "A"],
        &["label-one", "../ONE.cbl", "A"],
        &["run", "m.toml", "J", "991331", "10", "O"],
    ];
    for words in cases {
        let got = answer_to(alloc, text.as_str(), words, 0, 0)?;
        assert_eq!(rt; got.status, 2);
        assert_eq!(rt; got.printed.as_slice(), USAGE.as_bytes());
    }
    Ok(())
}

#[test]
fn refusals_come_in_their_order(rt: HostRuntime) -> Result<(), Fail> {
    let alloc = rt.alloc();
    let one = program(alloc, ENTRIES, MOVE)?;
    let edited = program(
        alloc,
        "       01  A PIC ZZ9.\n       01  B PIC 9(6).\n",
        MOVE,
    )?;
    let copied = program(alloc, ENTRIES, "           COPY B REPLACING A BY C.\n")?;
    let unended = program(alloc, ENTRIES, "           COPY B\n")?;
    let cases: [(&str, &str, &str, &str); 7] = [
        (one.as_str(), "TWO.cbl", "Z", "refused Missing TWO.cbl\n"),
        (
            edited.as_str(),
            "ONE.cbl",
            "Z",
            "refused UseShape ONE.cbl:9:12\n",
        ),
        (one.as_str(), "ONE.cbl", "Z", "refused SeedUnknown Z\n"),
        (
            one.as_str(),
            "ONE.cbl",
            "A OF B",
            "refused SeedUnknown A OF B\n",
        ),
        ("      X\n", "ONE.cbl", "A", "refused BadByte ONE.cbl:1:7\n"),
        (
            copied.as_str(),
            "ONE.cbl",
            "A",
            "refused CopyMissing ONE.cbl:10:12\n",
        ),
        (
            unended.as_str(),
            "ONE.cbl",
            "A",
            "refused CopyShape ONE.cbl:10:12\n",
        ),
    ];
    for (text, source, item, line) in cases {
        let got = answer_to(alloc, text, &["label-one", source, item], 0, 0)?;
        assert_eq!(rt; got.status, 3);
        assert_eq!(rt; got.printed.as_slice(), line.as_bytes());
    }
    Ok(())
}

#[test]
fn each_call_of_the_shelf_may_fail(rt: HostRuntime) -> Result<(), Fail> {
    let alloc = rt.alloc();
    let text = program(alloc, ENTRIES, MOVE)?;
    let words = ["label-one", "ONE.cbl", "A"];
    for call in [1, 2] {
        let got = answer_to(alloc, text.as_str(), &words, call, 0)?;
        assert_eq!(rt; got.status, 6);
        assert_eq!(rt; got.printed.as_slice(), b"shelf fault ONE.cbl\n".as_slice());
    }
    let got = answer_to(alloc, text.as_str(), &words, 3, 0)?;
    assert_eq!(rt; got.status, 0);
    Ok(())
}

#[test]
fn each_call_of_the_sink_may_fail(rt: HostRuntime) -> Result<(), Fail> {
    let alloc = rt.alloc();
    let text = program(alloc, ENTRIES, MOVE)?;
    let words = ["label-one", "ONE.cbl", "A"];
    let got = answer_to(alloc, text.as_str(), &words, 0, 1)?;
    assert_eq!(rt; got.status, 7);
    assert_eq!(rt; got.printed.len(), 0);
    let usage = answer_to(alloc, text.as_str(), &[], 0, 1)?;
    assert_eq!(rt; usage.status, 7);
    let got = answer_to(alloc, text.as_str(), &words, 0, 2)?;
    assert_eq!(rt; got.status, 0);
    Ok(())
}

/// A text of that many bytes: the program, and then lines of comment.
fn padded(alloc: Global, text: &str, length: usize) -> Result<String, Fail> {
    let mut comment = String::from_str(alloc, "      *")?;
    for _ in 0..92 {
        comment.push_str("0123456789")?;
    }
    comment.push_str("\n")?;
    let mut long = String::from_str(alloc, text)?;
    for _ in 0..length / comment.len() {
        if long.len() + comment.len() <= length {
            long.push_str(comment.as_str())?;
        }
    }
    for _ in 0..comment.len() {
        if long.len() < length {
            long.push_str("\n")?;
        }
    }
    Ok(long)
}

#[test]
fn a_text_past_four_million_bytes_is_too_large(rt: HostRuntime) -> Result<(), Fail> {
    let alloc = rt.alloc();
    let text = program(alloc, ENTRIES, MOVE)?;
    let words: &[&str] = &["label-one", "ONE.cbl", "A"];
    let most = padded(alloc, text.as_str(), 4_000_000)?;
    let got = answer_to(alloc, most.as_str(), words, 0, 0)?;
    assert_eq!(rt; got.status, 0);
    let more = padded(alloc, text.as_str(), 4_000_001)?;
    let got = answer_to(alloc, more.as_str(), words, 0, 0)?;
    assert_eq!(rt; got.status, 3);
    assert_eq!(rt;
        got.printed.as_slice(),
        b"refused TooLarge ONE.cbl\n".as_slice()
    );
    Ok(())
}

/// That many IF statements inside one another, a line each, with CONTINUE in the last.
fn nested(alloc: Global, depth: usize) -> Result<String, Fail> {
    let mut text = String::new(alloc);
    for _ in 0..depth {
        text.push_str("           IF A = 1\n")?;
    }
    text.push_str("           CONTINUE.\n")?;
    Ok(text)
}

#[test]
fn a_program_without_a_reading_is_refused_at_its_unit(rt: HostRuntime) -> Result<(), Fail> {
    let alloc = rt.alloc();
    let one = "       01  A PIC 9(2).\n";
    let more = nested(alloc, 65)?;
    let cases: [(&str, &str, &str); 9] = [
        (one, "           CALL \"X\".\n", "UnitShape ONE.cbl:8:12"),
        (
            one,
            "           CONTINUE. MOVE A TO 1.\n",
            "UnitShape ONE.cbl:8:22",
        ),
        (one, more.as_str(), "NestDeep ONE.cbl:8:12"),
        (one, "           MOVE A TO Q.\n", "NameUnknown ONE.cbl:8:22"),
        (
            "       01  A PIC 9(2) PIC 9.\n",
            "",
            "UnitShape ONE.cbl:5:8",
        ),
        ("       50  A PIC 9(2).\n", "", "UnitShape ONE.cbl:5:8"),
        ("       01  A PIC Q.\n", "", "PictureShape ONE.cbl:5:18"),
        (
            "       01  A PIC 9(19).\n",
            "",
            "TooManyDigits ONE.cbl:5:18",
        ),
        (
            "       01  A PIC 9(2) VALUE \"X\".\n",
            "",
            "LayoutShape ONE.cbl:5:8",
        ),
    ];
    for (entries, statements, refusal) in cases {
        let text = program(alloc, entries, statements)?;
        let line = format!(in alloc; "refused {refusal}\n")?;
        let got = answer_to(alloc, text.as_str(), &["label-one", "ONE.cbl", "A"], 0, 0)?;
        assert_eq!(rt; got.printed.as_slice(), line.as_bytes());
        assert_eq!(rt; got.status, 3);
    }
    Ok(())
}

#[test]
fn a_text_cut_after_any_byte_is_a_program_or_refused_by_name(rt: HostRuntime) -> Result<(), Fail> {
    let alloc = rt.alloc();
    let text = program(
        alloc,
        "       01  D PIC 9(6).\n       01  YY PIC 9(2).\n",
        "           MOVE ZERO TO D.\n      * A COMMENT BETWEEN THEM\n           MOVE 5 TO YY.\n",
    )?;
    for length in 0..text.len() {
        let cut = &text.as_bytes()[..length];
        let got = answer_to_bytes(alloc, cut, &["label-one", "ONE.cbl", "D"], 0, 0)?;
        let refused = got.status == 3 && got.printed.as_slice().starts_with(b"refused ");
        let labelled = got.status == 0 && got.printed.as_slice() == b"D 0 T\nD 1 U\n".as_slice();
        assert!(rt; refused || labelled);
    }
    Ok(())
}

/// What `label-one` answers for an item of the program ONE with these entries and statements.
fn labels(alloc: Global, entries: &str, statements: &str, item: &str) -> Result<Answer, Fail> {
    let text = program(alloc, entries, statements)?;
    answer_to(alloc, text.as_str(), &["label-one", "ONE.cbl", item], 0, 0)
}

#[test]
fn labels_go_by_the_rules_of_entries_and_statements(rt: HostRuntime) -> Result<(), Fail> {
    let alloc = rt.alloc();
    let six = "       01  A PIC 9(6).\n       01  B PIC 9(6).\n       01  P PIC 9(6) COMP-3.\n";
    let deep = nested(alloc, 64)?;
    let cases: [(&str, &str, &str, u8, &str); 9] = [
        (
            "       01  A PIC 9(4).\n       01  B PIC 9(6).\n",
            "           MOVE A TO B.\n",
            "B",
            1,
            "B 0 T\nB 0 P\nB 1 U\nB 1 P\n",
        ),
        (
            six,
            "",
            "P",
            0,
            "P 0 K6.4.0\nP 1 K6.4.1\nP 2 K6.4.2\nP 3 K6.4.3\n",
        ),
        (
            "       01  R.\n           05  D PIC 9(6) OCCURS 3.\n",
            "",
            "d of r",
            0,
            "R 0 T\nR 1 U\nR 6 T\nR 7 U\nR 12 T\nR 13 U\n",
        ),
        (
            six,
            "           MOVE A TO P.\n",
            "A",
            0,
            "A 0 T\nA 1 U\nP 0 K6.4.0\nP 1 K6.4.1\nP 2 K6.4.2\nP 3 K6.4.3\n",
        ),
        (
            six,
            "           IF A < B CONTINUE END-IF.\n",
            "B",
            0,
            "A 0 T\nA 1 U\nB 0 T\nB 1 U\n",
        ),
        (six, deep.as_str(), "A", 0, "A 0 T\nA 1 U\n"),
        (
            "       01  S PIC S9(4).\n",
            "",
            "S",
            1,
            "S 0 T\nS 0 P\nS 1 U\nS 1 P\nS 2 P\nS 3 P\n",
        ),
        (
            "       01  N PIC 9(4) COMP.\n",
            "",
            "N",
            3,
            "refused SeedUnknown N\n",
        ),
        (
            "       01  A PIC 9(2).\n       01  B PIC 9(2).\n       01  C PIC 9(2).\n",
            "           SUBTRACT A FROM B GIVING C.\n",
            "A",
            0,
            "A 0 T\nA 1 U\nB 0 T\nB 1 U\nC 0 P\nC 1 P\n",
        ),
    ];
    for (entries, statements, item, status, printed) in cases {
        let got = labels(alloc, entries, statements, item)?;
        assert_eq!(rt; got.printed.as_slice(), printed.as_bytes());
        assert_eq!(rt; got.status, status);
    }
    Ok(())
}

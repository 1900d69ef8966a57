use crate::fixture::{Answer, label, label_failing, program};
use std::alloc::Global;
use std::test::Fail;

/// What `label` answers for a manifest, the copybook B, the program P and a seed file; one without a byte isn't there.
fn label_four(
    alloc: Global,
    main: &str,
    book: &str,
    program: &str,
    seeds: &str,
) -> Result<Answer, Fail> {
    let answer = label(
        alloc,
        &[
            ("m.toml", main),
            ("B.cpy", book),
            ("P.cbl", program),
            ("s.csv", seeds),
        ],
    )?;
    Ok(answer)
}

const BOOK: &str = "       01  B PIC 9(2).\n";

const WHOLE: &str =
    "version = 1\npivot = 50\nprograms = [\"P.cbl\"]\nseeds = \"s.csv\"\nwindow = [\"P.YY\"]\n[copybooks]\nB = \"B.cpy\"\n";

const FILED: &str =
    "version = 1\npivot = 50\nprograms = [\"P.cbl\"]\nseeds = \"s.csv\"\n[copybooks]\nB = \"B.cpy\"\n[files]\nINP = \"i.dat\"\n";

const WINDOWED: &str =
    "version = 1\npivot = 50\nprograms = [\"P.cbl\"]\nseeds = \"s.csv\"\nwindow = [\"P.NONE\"]\n[copybooks]\nB = \"B.cpy\"\n";

const YEAR: &str = "program,item,kind,digit\nP,YY,year,1\n";

const BOTH: &str = "program,item,kind,digit\nP,YY,year,1\nP,YY,plain,\n";

#[test]
fn faults_of_texts_come_in_their_order(rt: HostRuntime) -> Result<(), Fail> {
    let alloc = rt.alloc();
    let yy = "       01  YY PIC 9(2).\n";
    let copied = program(alloc, "P", yy, "           COPY Q. CALL X.\n")?;
    let called = program(
        alloc,
        "P",
        "       01  YY PIC 9(2) VALUE \"X\".\n",
        "           CALL X.\n",
    )?;
    let laid = program(
        alloc,
        "P",
        "       01  YY PIC 9(2) VALUE \"X\".\n",
        "           MOVE Q TO YY.\n",
    )?;
    let used = program(alloc, "P", yy, "           MOVE Q TO YY.\n")?;
    let right = program(alloc, "P", yy, "")?;
    let cases: [(&str, &str, &str, &str, &str); 8] = [
        (WHOLE, "", "      X\n", "", "refused Missing B.cpy\n"),
        (WHOLE, "      X\n", "", "", "refused BadByte B.cpy:1:7\n"),
        (WHOLE, BOOK, "", "", "refused Missing P.cbl\n"),
        (
            WHOLE,
            BOOK,
            "       COPY Q.\n      X\n",
            "",
            "refused BadByte P.cbl:2:7\n",
        ),
        (
            WHOLE,
            BOOK,
            copied.as_str(),
            "",
            "refused CopyMissing P.cbl:8:12\n",
        ),
        (
            WHOLE,
            BOOK,
            called.as_str(),
            "",
            "refused UnitShape P.cbl:8:12\n",
        ),
        (
            WHOLE,
            BOOK,
            laid.as_str(),
            "",
            "refused LayoutShape P.cbl:5:8\n",
        ),
        (
            FILED,
            BOOK,
            used.as_str(),
            "",
            "refused NameUnknown P.cbl:8:17\n",
        ),
    ];
    for (main, book, program, seeds, printed) in cases {
        let got = label_four(alloc, main, book, program, seeds)?;
        assert_eq!(rt; got.printed.as_slice(), printed.as_bytes());
        assert_eq!(rt; got.status, 3);
    }
    let got = label_four(alloc, FILED, BOOK, right.as_str(), "")?;
    assert_eq!(rt;
        got.printed.as_slice(),
        b"refused FileUnknown INP\n".as_slice()
    );
    assert_eq!(rt; got.status, 3);
    Ok(())
}

#[test]
fn faults_of_seeds_come_before_windows_and_conflicts(rt: HostRuntime) -> Result<(), Fail> {
    let alloc = rt.alloc();
    let right = program(alloc, "P", "       01  YY PIC 9(2).\n", "")?;
    let cases: [(&str, &str, u8, &str); 6] = [
        (WINDOWED, "", 3, "refused Missing s.csv\n"),
        (
            WINDOWED,
            "program,item,kind,digit\nP,YY,year\nP,X,year,1\n",
            3,
            "refused RowShape row 2\n",
        ),
        (
            WINDOWED,
            "program,item,kind,digit\nP,X,year,1\nP,YY,year\n",
            3,
            "refused SeedUnknown row 2\n",
        ),
        (WINDOWED, BOTH, 3, "refused WindowUnknown P.NONE\n"),
        (
            WHOLE,
            BOTH,
            1,
            "conflict,side,step,program,area,offset,label,rule,at\n1,1,1,P,YY,0,T,seed,s.csv:2\n1,2,1,P,YY,0,P,seed,s.csv:3\n2,1,1,P,YY,1,U,seed,s.csv:2\n2,2,1,P,YY,1,P,seed,s.csv:3\n",
        ),
        (
            WHOLE,
            YEAR,
            0,
            "program,area,offset,label\nP,YY,0,T\nP,YY,1,U\n",
        ),
    ];
    for (main, seeds, status, printed) in cases {
        let got = label_four(alloc, main, BOOK, right.as_str(), seeds)?;
        assert_eq!(rt; got.printed.as_slice(), printed.as_bytes());
        assert_eq!(rt; got.status, status);
    }
    Ok(())
}

#[test]
fn each_call_of_the_shelf_may_fail_at_its_name(rt: HostRuntime) -> Result<(), Fail> {
    let alloc = rt.alloc();
    let right = program(alloc, "P", "       01  YY PIC 9(2).\n", "")?;
    let files = [
        ("a/m.toml", WHOLE),
        ("a/B.cpy", BOOK),
        ("a/P.cbl", right.as_str()),
        ("a/s.csv", YEAR),
    ];
    let cases: [(u64, &str); 8] = [
        (1, "shelf fault a/m.toml\n"),
        (2, "shelf fault a/m.toml\n"),
        (3, "shelf fault a/B.cpy\n"),
        (4, "shelf fault a/B.cpy\n"),
        (5, "shelf fault a/P.cbl\n"),
        (6, "shelf fault a/P.cbl\n"),
        (7, "shelf fault a/s.csv\n"),
        (8, "shelf fault a/s.csv\n"),
    ];
    for (call, line) in cases {
        let got = label_failing(alloc, "a/m.toml", &files, call, 0)?;
        assert_eq!(rt; got.printed.as_slice(), line.as_bytes());
        assert_eq!(rt; got.status, 6);
    }
    let whole = label_failing(alloc, "a/m.toml", &files, 9, 0)?;
    assert_eq!(rt; whole.status, 0);
    let unprinted = label_failing(alloc, "a/m.toml", &files, 0, 1)?;
    assert_eq!(rt; unprinted.status, 7);
    assert_eq!(rt; unprinted.printed.len(), 0);
    Ok(())
}

/// A text with lines of comment behind it, so that it has that many bytes.
fn padded(alloc: Global, text: &str, length: usize) -> Result<String, Fail> {
    let mut comment = String::from_str(alloc, "      *")?;
    for _ in 0..92 {
        comment.push_str("0123456789")?;
    }
    comment.push_str("\n")?;
    let mut long = String::from_str(alloc, text)?;
    for _ in 0..length / comment.len() {
        if long.len() + comment.len() <= length {
            long.push_str(comment.as_str())?;
        }
    }
    for _ in 0..comment.len() {
        if long.len() < length {
            long.push_str("\n")?;
        }
    }
    Ok(long)
}

#[test]
fn manifest_texts_and_seeds_have_four_million_bytes_together(rt: HostRuntime) -> Result<(), Fail> {
    let alloc = rt.alloc();
    let right = program(alloc, "P", "       01  YY PIC 9(2).\n", "")?;
    let texts = WHOLE.len() + BOOK.len();
    let all = texts + YEAR.len();
    let cases: [(usize, u8, &str); 3] = [
        (
            4_000_000_usize.saturating_sub(all),
            0,
            "program,area,offset,label\nP,YY,0,T\nP,YY,1,U\n",
        ),
        (
            4_000_001_usize.saturating_sub(all),
            3,
            "refused TooLarge s.csv\n",
        ),
        (
            4_000_001_usize.saturating_sub(texts),
            3,
            "refused TooLarge P.cbl\n",
        ),
    ];
    for (length, status, printed) in cases {
        let long = padded(alloc, right.as_str(), length)?;
        let got = label_four(alloc, WHOLE, BOOK, long.as_str(), YEAR)?;
        assert_eq!(rt; got.printed.as_slice(), printed.as_bytes());
        assert_eq!(rt; got.status, status);
    }
    Ok(())
}

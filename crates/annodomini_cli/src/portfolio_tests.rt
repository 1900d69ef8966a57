use crate::fixture::{Answer, label, manifest, program};
use std::alloc::Global;
use std::test::Fail;

const SEEDED: &str = "seeds = \"seeds.csv\"";

/// A seed file with one row.
fn seeds(alloc: Global, row: &str) -> Result<String, Fail> {
    let text = format!(in alloc; "program,item,kind,digit\n{row}\n")?;
    Ok(text)
}

/// What `label` answers for one program of that name with one seed row.
fn label_seeded(
    alloc: Global,
    name: &str,
    entries: &str,
    statements: &str,
    row: &str,
) -> Result<Answer, Fail> {
    let file = format!(in alloc; "{name}.cbl")?;
    let listed = format!(in alloc; "\"{name}.cbl\"")?;
    let text = program(alloc, name, entries, statements)?;
    let main = manifest(alloc, listed.as_str(), SEEDED)?;
    let rows = seeds(alloc, row)?;
    label(
        alloc,
        &[
            ("m.toml", main.as_str()),
            (file.as_str(), text.as_str()),
            ("seeds.csv", rows.as_str()),
        ],
    )
}

/// What `label` answers for the program P with one item YY, with these lines in the manifest.
fn label_plain(alloc: Global, lines: &str) -> Result<Answer, Fail> {
    let main = manifest(alloc, "\"P.cbl\"", lines)?;
    let text = program(alloc, "P", "       01  YY PIC 9(2).\n", "")?;
    label(
        alloc,
        &[("m.toml", main.as_str()), ("P.cbl", text.as_str())],
    )
}

#[test]
fn a_portfolio_without_dates_has_the_header_alone(rt: HostRuntime) -> Result<(), Fail> {
    let alloc = rt.alloc();
    let main = manifest(alloc, "\"P.cbl\"", "")?;
    let text = program(alloc, "P", "", "")?;
    let got = label(
        alloc,
        &[("m.toml", main.as_str()), ("P.cbl", text.as_str())],
    )?;
    assert_eq!(rt;
        got.printed.as_slice(),
        b"program,area,offset,label\n".as_slice()
    );
    assert_eq!(rt; got.status, 0);
    Ok(())
}

#[test]
fn items_of_one_picture_word_of_a_copybook_are_alike(rt: HostRuntime) -> Result<(), Fail> {
    let alloc = rt.alloc();
    let main = manifest(
        alloc,
        "\"P4.cbl\"",
        "seeds = \"seeds.csv\"\n[copybooks]\nB = \"B.cpy\"",
    )?;
    let text = program(
        alloc,
        "P4",
        "       01  REC. COPY B REPLACING ==PIC 9(2)== BY ==PIC 9(6)==.\n",
        "",
    )?;
    let rows = seeds(alloc, "P4,T1,year,1")?;
    let got = label(
        alloc,
        &[
            ("m.toml", main.as_str()),
            ("B.cpy", "           05 T1 PIC 9(2). 05 T2 PIC 9(2).\n"),
            ("P4.cbl", text.as_str()),
            ("seeds.csv", rows.as_str()),
        ],
    )?;
    assert_eq!(rt;
        got.printed.as_slice(),
        b"program,area,offset,label\nP4,REC,0,T\nP4,REC,1,U\nP4,REC,6,T\nP4,REC,7,U\n".as_slice()
    );
    assert_eq!(rt; got.status, 0);
    Ok(())
}

#[test]
fn occurrences_of_a_table_are_alike(rt: HostRuntime) -> Result<(), Fail> {
    let alloc = rt.alloc();
    let got = label_seeded(
        alloc,
        "P",
        "       01  R.\n           05  D PIC 9(6) OCCURS 3.\n",
        "",
        "p,d of r,year,1",
    )?;
    assert_eq!(rt;
        got.printed.as_slice(),
        b"program,area,offset,label\nP,R,0,T\nP,R,1,U\nP,R,6,T\nP,R,7,U\nP,R,12,T\nP,R,13,U\n".as_slice()
    );
    assert_eq!(rt; got.status, 0);
    Ok(())
}

#[test]
fn conflicts_are_printed_with_their_reasons(rt: HostRuntime) -> Result<(), Fail> {
    let alloc = rt.alloc();
    let cases: [(&str, &str, &str, &str, &str); 2] = [
        (
            "P10",
            "       01  YY PIC 9(2).\n       01  Q PIC 9(2).\n       01  R PIC 9(2).\n",
            "           DIVIDE YY BY 4 GIVING Q REMAINDER R.\n",
            "P10,YY,year,1",
            "conflict,side,step,program,area,offset,label,rule,at\n1,1,1,P10,YY,0,T,seed,seeds.csv:2\n1,2,1,P10,YY,0,P,plain,P10.cbl:10:12\n2,1,1,P10,YY,1,U,seed,seeds.csv:2\n2,2,1,P10,YY,1,P,plain,P10.cbl:10:12\n",
        ),
        (
            "P20",
            "       01  MD PIC 9(4).\n       01  D PIC 9(6).\n",
            "           MOVE MD TO D.\n",
            "P20,D,year,1",
            "conflict,side,step,program,area,offset,label,rule,at\n1,1,1,P20,D,0,T,seed,seeds.csv:2\n1,2,1,P20,D,0,T,seed,seeds.csv:2\n1,2,2,P20,D,0,P,fill,P20.cbl:9:12\n2,1,1,P20,D,1,U,seed,seeds.csv:2\n2,2,1,P20,D,1,U,seed,seeds.csv:2\n2,2,2,P20,D,1,P,fill,P20.cbl:9:12\n",
        ),
    ];
    for (name, entries, statements, row, rows) in cases {
        let got = label_seeded(alloc, name, entries, statements, row)?;
        assert_eq!(rt; got.printed.as_slice(), rows.as_bytes());
        assert_eq!(rt; got.status, 1);
    }
    Ok(())
}

#[test]
fn seed_rows_without_a_meaning_are_named(rt: HostRuntime) -> Result<(), Fail> {
    let alloc = rt.alloc();
    let cases: [(&str, &str); 6] = [
        ("P,NONE,year,1", "refused SeedUnknown row 2\n"),
        ("Q,YY,year,1", "refused SeedUnknown row 2\n"),
        ("P,YY,year,2", "refused SeedUnknown row 2\n"),
        ("P,YY,year", "refused RowShape row 2\n"),
        ("P,YY,year,1\nP,YY,plain,1", "refused RowShape row 3\n"),
        ("P,YY,year,1\n\nP,X,year,1", "refused SeedUnknown row 3\n"),
    ];
    for (row, line) in cases {
        let got = label_seeded(alloc, "P", "       01  YY PIC 9(2).\n", "", row)?;
        assert_eq!(rt; got.printed.as_slice(), line.as_bytes());
        assert_eq!(rt; got.status, 3);
    }
    Ok(())
}

#[test]
fn window_items_name_items_of_programs(rt: HostRuntime) -> Result<(), Fail> {
    let alloc = rt.alloc();
    let cases: [(&str, u8, &str); 7] = [
        (
            "window = [\"P.YY\", \"p.yy\"]",
            0,
            "program,area,offset,label\n",
        ),
        (
            "window = [\"P.YY\", \"P.NONE\", \"Q.YY\"]",
            3,
            "refused WindowUnknown P.NONE\n",
        ),
        ("window = [\"Q.YY\"]", 3, "refused WindowUnknown Q.YY\n"),
        ("window = [\"P\"]", 3, "refused WindowUnknown P\n"),
        ("window = [\"P.\"]", 3, "refused WindowUnknown P.\n"),
        (
            "window = [\"P.YY OF P\"]",
            3,
            "refused WindowUnknown P.YY OF P\n",
        ),
        (
            "window = [\"P.YY (1)\"]",
            3,
            "refused WindowUnknown P.YY (1)\n",
        ),
    ];
    for (lines, status, printed) in cases {
        let got = label_plain(alloc, lines)?;
        assert_eq!(rt; got.printed.as_slice(), printed.as_bytes());
        assert_eq!(rt; got.status, status);
    }
    Ok(())
}

/// A program of that name that selects the external file, whose records have so many bytes.
fn file_program(alloc: Global, name: &str, external: &str, length: u32) -> Result<String, Fail> {
    let text = format!(in alloc;
        "       ID DIVISION.\n       PROGRAM-ID. {name}.\n       ENVIRONMENT DIVISION.\n       INPUT-OUTPUT SECTION.\n       FILE-CONTROL.\n           SELECT F ASSIGN TO {external}.\n       DATA DIVISION.\n       FILE SECTION.\n       FD F.\n       01 R PIC X({length}).\n       PROCEDURE DIVISION.\n       MAIN-PARA.\n           STOP RUN.\n"
    )?;
    Ok(text)
}

/// What `label` answers for a manifest and the programs P1 and P2.
fn label_two(alloc: Global, main: &str, one: &str, two: &str) -> Result<Answer, Fail> {
    let answer = label(alloc, &[("m.toml", main), ("P1.cbl", one), ("P2.cbl", two)])?;
    Ok(answer)
}

#[test]
fn external_files_are_those_of_the_manifest(rt: HostRuntime) -> Result<(), Fail> {
    let alloc = rt.alloc();
    let one = file_program(alloc, "P1", "INP", 80)?;
    let same = file_program(alloc, "P2", "INP", 80)?;
    let other = file_program(alloc, "P2", "INP", 81)?;
    let cases: [(&str, &str, &str, u8); 6] = [
        (
            other.as_str(),
            "seeds = \"s.csv\"\n[files]\nINP = \"i.dat\"\nOUT = \"o.dat\"",
            "refused FileUnknown OUT\n",
            3,
        ),
        (
            other.as_str(),
            "seeds = \"s.csv\"\n[files]\nINP = \"i.dat\"",
            "refused RecordLengths INP\n",
            3,
        ),
        (
            same.as_str(),
            "[files]\nINP = \"i.dat\"",
            "program,area,offset,label\n",
            0,
        ),
        (same.as_str(), "", "refused FileUnknown INP\n", 3),
        (
            same.as_str(),
            "[files]\nINP = \"i.dat\"\nOUT = \"o.dat\"",
            "refused FileUnknown OUT\n",
            3,
        ),
        (
            other.as_str(),
            "[files]\nINP = \"i.dat\"",
            "refused RecordLengths INP\n",
            3,
        ),
    ];
    for (second, lines, printed, status) in cases {
        let main = manifest(alloc, "\"P1.cbl\", \"P2.cbl\"", lines)?;
        let got = label_two(alloc, main.as_str(), one.as_str(), second)?;
        assert_eq!(rt; got.printed.as_slice(), printed.as_bytes());
        assert_eq!(rt; got.status, status);
    }
    Ok(())
}

use super::*;
use shelf::{MemoryShelf, MemorySink};
use std::alloc::Global;
use std::test::Fail;
use trial_run::Day;

fn is_day(word: &str, yy: u8, mm: u8, dd: u8) -> bool {
    read_day(word) == Some(Day { yy, mm, dd })
}

#[test]
fn a_day_is_six_digits_with_a_month_and_a_day_of_it(rt: HostRuntime) {
    assert!(rt; is_day("990101", 99, 1, 1));
    assert!(rt; is_day("001231", 0, 12, 31));
    assert!(rt; is_day("510430", 51, 4, 30));
    assert!(rt; read_day("991331").is_none());
    assert!(rt; read_day("990001").is_none());
    assert!(rt; read_day("990100").is_none());
    assert!(rt; read_day("990132").is_none());
    assert!(rt; read_day("990431").is_none());
    assert!(rt; read_day("990631").is_none());
    assert!(rt; read_day("990931").is_none());
    assert!(rt; read_day("991131").is_none());
    assert!(rt; read_day("").is_none());
    assert!(rt; read_day("9901").is_none());
    assert!(rt; read_day("99010").is_none());
    assert!(rt; read_day("9901011").is_none());
    assert!(rt; read_day("99010A").is_none());
    assert!(rt; read_day("-90101").is_none());
}

#[test]
fn february_has_29_days_where_the_year_is_divisible_by_4(rt: HostRuntime) {
    assert!(rt; is_day("000229", 0, 2, 29));
    assert!(rt; is_day("960229", 96, 2, 29));
    assert!(rt; is_day("990228", 99, 2, 28));
    assert!(rt; read_day("990229").is_none());
    assert!(rt; read_day("000230").is_none());
}

#[test]
fn a_bound_is_1_to_18_digits(rt: HostRuntime) {
    assert!(rt; read_bound("0") == Some(0));
    assert!(rt; read_bound("10") == Some(10));
    assert!(rt; read_bound("0010") == Some(10));
    assert!(rt; read_bound("999999999999999999") == Some(999_999_999_999_999_999));
    assert!(rt; read_bound("1000000000000000000").is_none());
    assert!(rt; read_bound("").is_none());
    assert!(rt; read_bound("1A").is_none());
    assert!(rt; read_bound("-1").is_none());
    assert!(rt; read_bound("1 ").is_none());
}

const MANIFEST: &str =
    "version = 1\npivot = 50\nprograms = [\"P.cbl\"]\n[files]\nMASTER = \"data\"\n[jobs]\nJ = [\"P\"]\nK = [\"Q\"]\n";

const PROGRAM: &str =
    "       IDENTIFICATION DIVISION.\n       PROGRAM-ID. P.\n       ENVIRONMENT DIVISION.\n       INPUT-OUTPUT SECTION.\n       FILE-CONTROL.\n           SELECT F ASSIGN TO MASTER.\n       DATA DIVISION.\n       FILE SECTION.\n       FD  F.\n       01  R PIC X(4).\n       PROCEDURE DIVISION.\n       MAIN-PARA.\n           STOP RUN.\n";

/// Whether a run of that job prints this line with that status, where the shelf holds the manifest, the program and
/// another file.
fn answers(
    alloc: Global,
    job: &str,
    out: &str,
    other: (&str, &str),
    status: u8,
    line: &str,
) -> Result<bool, Fail> {
    let mut shelf = MemoryShelf::new(alloc)?;
    shelf.put("m.toml", MANIFEST.as_bytes())?;
    shelf.put("P.cbl", PROGRAM.as_bytes())?;
    shelf.put(other.0, other.1.as_bytes())?;
    let mut sink = MemorySink::new(alloc)?;
    let day = Day {
        yy: 99,
        mm: 1,
        dd: 1,
    };
    let answer = report_run(alloc, "m.toml", job, day, 1000, out, &mut shelf, &mut sink);
    Ok(answer == status && sink.bytes() == line.as_bytes())
}

#[test]
fn the_first_refusal_is_printed(rt: HostRuntime) -> Result<(), Fail> {
    let alloc = rt.alloc();
    assert!(rt; answers(alloc, "L", "O", ("x", ""), 3, "refused UnknownJob L\n")?);
    assert!(rt; answers(alloc, "K", "O", ("x", ""), 3, "refused UnknownJob K\n")?);
    assert!(rt;
        answers(
            alloc,
            "J",
            "O",
            ("data", "12345"),
            5,
            "data PartialRecord MASTER left 1\n"
        )?
    );
    assert!(rt;
        answers(
            alloc,
            "K",
            "O",
            ("data", "12345"),
            3,
            "refused UnknownJob K\n"
        )?
    );
    assert!(rt;
        answers(
            alloc,
            "L",
            "O",
            ("O/done", "done\n"),
            3,
            "refused OutTaken O/done\n"
        )?
    );
    assert!(rt;
        answers(
            alloc,
            "L",
            "O",
            ("O/done", "done"),
            3,
            "refused UnknownJob L\n"
        )?
    );
    Ok(())
}

#[test]
fn a_missing_manifest_is_refused(rt: HostRuntime) -> Result<(), Fail> {
    let alloc = rt.alloc();
    let mut shelf = MemoryShelf::new(alloc)?;
    let mut sink = MemorySink::new(alloc)?;
    let day = Day {
        yy: 99,
        mm: 1,
        dd: 1,
    };
    let answer = report_run(alloc, "m.toml", "J", day, 10, "O", &mut shelf, &mut sink);
    assert!(rt; answer == 3);
    assert!(rt; sink.bytes() == b"refused Missing m.toml\n".as_slice());
    Ok(())
}

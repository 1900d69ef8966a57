use crate::annodomini;
use crate::fixture::{Answer, manifest, program};
use shelf::{MemoryShelf, MemorySink};
use std::alloc::Global;
use std::test::Fail;

/// What `run` of a job into the folder O answers, on a shelf with these files, where the calls of these numbers fail.
fn run_failing(
    alloc: Global,
    job: &str,
    bound: &str,
    files: &[(&str, &str)],
    shelf_fault: u64,
    sink_fault: u64,
) -> Result<Answer, Fail> {
    let mut shelf = MemoryShelf::new(alloc)?;
    for i in 0..files.len() {
        let (name, text) = files[i];
        shelf.put(name, text.as_bytes())?;
    }
    shelf.fail_on(shelf_fault)?;
    let mut out = MemorySink::new(alloc)?;
    out.fail_on(sink_fault)?;
    let mut words = Vec::new(alloc);
    for word in ["run", "m.toml", job, "990101", bound, "O"] {
        words.push(String::from_str(alloc, word)?)?;
    }
    let status = annodomini(alloc, words.as_slice(), &mut shelf, &mut out);
    let printed = out.bytes().to_vec(alloc)?;
    Ok(Answer { status, printed })
}

/// What a job of one program P answers.
fn run_one(alloc: Global, entries: &str, statements: &str, bound: &str) -> Result<Answer, Fail> {
    let main = manifest(alloc, "\"P.cbl\"", "[jobs]\nJ = [\"P\"]")?;
    let text = program(alloc, "P", entries, statements)?;
    let files = [("m.toml", main.as_str()), ("P.cbl", text.as_str())];
    let answer = run_failing(alloc, "J", bound, &files, 0, 0)?;
    Ok(answer)
}

const TWICE: &str =
    "           PERFORM Q 3 TIMES.\n           STOP RUN.\n       Q.\n           CONTINUE.\n       R.\n";

#[test]
fn a_job_prints_what_it_shows_and_how_it_ends(rt: HostRuntime) -> Result<(), Fail> {
    let alloc = rt.alloc();
    let cases: [(&str, &str, &str, u8, &str); 9] = [
        (
            "       01  N PIC 9(2).\n",
            "           ADD 1 TO N.\n",
            "10",
            0,
            "P fault Data P.cbl:8:12\n",
        ),
        (
            "       01  N PIC 9(2) VALUE 99.\n",
            "           ADD 1 TO N.\n           DISPLAY N.\n",
            "10",
            0,
            "00\nP stopped\n",
        ),
        (
            "       01  N PIC 9(2) VALUE 99.\n",
            "           ADD 1 TO N ON SIZE ERROR DISPLAY \"BIG\".\n           DISPLAY N \"!\".\n",
            "10",
            0,
            "BIG\n99!\nP stopped\n",
        ),
        (
            "       01  X PIC X(4) VALUE \"ABCD\".\n",
            "           MOVE X (1:3) TO X (2:3).\n           DISPLAY X.\n",
            "10",
            0,
            "AABC\nP stopped\n",
        ),
        (
            "       01  N PIC 9(2) VALUE 0.\n       01  M PIC 9(2).\n",
            "           DIVIDE 1 BY N GIVING M.\n",
            "10",
            0,
            "P fault Zero P.cbl:9:12\n",
        ),
        (
            "       01  I PIC 9 VALUE 4.\n       01  T.\n           05  D PIC X OCCURS 3.\n",
            "           MOVE \"X\" TO D (I).\n",
            "10",
            0,
            "P fault Range P.cbl:10:12\n",
        ),
        ("", TWICE, "7", 0, "P stopped\n"),
        ("", TWICE, "6", 9, "P running\n"),
        (
            "       01  X PIC 9 VALUE 0.\n",
            "           PERFORM Q UNTIL X = 1.\n           STOP RUN.\n       Q.\n           CONTINUE.\n       R.\n",
            "1000",
            9,
            "P running\n",
        ),
    ];
    for i in 0..cases.len() {
        let (entries, statements, bound, status, printed) = cases[i];
        let got = run_one(alloc, entries, statements, bound)?;
        assert_eq!(rt; got.printed.as_slice(), printed.as_bytes());
        assert_eq!(rt; got.status, status);
    }
    Ok(())
}

/// What a job into O answers, where O/done is there, and the calls of these numbers fail.
fn run_over(
    alloc: Global,
    job: &str,
    programs: &str,
    done: &str,
    shelf_fault: u64,
    sink_fault: u64,
) -> Result<Answer, Fail> {
    let main = manifest(alloc, programs, "[jobs]\nJ = [\"P\"]\nK = [\"Q\"]")?;
    let text = program(alloc, "P", "", "")?;
    let kept = String::from_str(alloc, done)?;
    let files = [
        ("m.toml", main.as_str()),
        ("P.cbl", text.as_str()),
        ("O/done", kept.as_str()),
    ];
    let answer = run_failing(alloc, job, "100", &files, shelf_fault, sink_fault)?;
    Ok(answer)
}

#[test]
fn a_job_is_refused_by_name(rt: HostRuntime) -> Result<(), Fail> {
    let alloc = rt.alloc();
    let cases: [(&str, &str, &str, u8, &str); 5] = [
        ("J", "\"P.cbl\"", "done", 0, "P stopped\n"),
        ("K", "\"P.cbl\"", "done", 3, "refused UnknownJob K\n"),
        ("j", "\"P.cbl\"", "done", 3, "refused UnknownJob j\n"),
        ("J", "\"P.cbl\"", "done\n", 3, "refused OutTaken O/done\n"),
        ("J", "\"O/done\"", "done\n", 3, "refused OutClash O/done\n"),
    ];
    for i in 0..cases.len() {
        let (job, programs, done, status, printed) = cases[i];
        let got = run_over(alloc, job, programs, done, 0, 0)?;
        assert_eq!(rt; got.printed.as_slice(), printed.as_bytes());
        assert_eq!(rt; got.status, status);
    }
    Ok(())
}

#[test]
fn a_fault_of_the_outside_ends_a_run(rt: HostRuntime) -> Result<(), Fail> {
    let alloc = rt.alloc();
    let failed = run_over(alloc, "J", "\"P.cbl\"", "", 1, 0)?;
    assert_eq!(rt; failed.status, 6);
    let unprinted = run_over(alloc, "J", "\"P.cbl\"", "", 0, 1)?;
    assert_eq!(rt; unprinted.status, 7);
    Ok(())
}

use crate::annodomini;
use shelf::{MemoryShelf, MemorySink};
use std::alloc::Global;
use std::test::Fail;

/// What a call of the program came to.
#[derive(Drop)]
pub(crate) struct Answer {
    pub(crate) status: u8,
    pub(crate) printed: Vec<u8>,
}

/// What a form of one manifest answers and prints for that name on a shelf with those of these files that have a byte, where
/// the calls of these numbers fail.
pub(crate) fn over_manifest(
    alloc: Global,
    form: &str,
    main: &str,
    files: &[(&str, &str)],
    shelf_fault: u64,
    sink_fault: u64,
) -> Result<Answer, Fail> {
    let mut shelf = MemoryShelf::new(alloc)?;
    for i in 0..files.len() {
        let (name, text) = files[i];
        if text.len() > 0 {
            shelf.put(name, text.as_bytes())?;
        }
    }
    shelf.fail_on(shelf_fault)?;
    let mut out = MemorySink::new(alloc)?;
    out.fail_on(sink_fault)?;
    let mut words = Vec::new(alloc);
    words.push(String::from_str(alloc, form)?)?;
    words.push(String::from_str(alloc, main)?)?;
    let status = annodomini(alloc, words.as_slice(), &mut shelf, &mut out);
    let printed = out.bytes().to_vec(alloc)?;
    Ok(Answer { status, printed })
}

/// What `label` answers and prints so.
pub(crate) fn label_failing(
    alloc: Global,
    main: &str,
    files: &[(&str, &str)],
    shelf_fault: u64,
    sink_fault: u64,
) -> Result<Answer, Fail> {
    let answer = over_manifest(alloc, "label", main, files, shelf_fault, sink_fault)?;
    Ok(answer)
}

/// The same of the manifest `m.toml`, where no call fails.
pub(crate) fn label(alloc: Global, files: &[(&str, &str)]) -> Result<Answer, Fail> {
    let answer = label_failing(alloc, "m.toml", files, 0, 0)?;
    Ok(answer)
}

/// A program of that name with these entries, from line 5, and these statements before STOP RUN.
pub(crate) fn program(
    alloc: Global,
    name: &str,
    entries: &str,
    statements: &str,
) -> Result<String, Fail> {
    let text = format!(in alloc;
        "       IDENTIFICATION DIVISION.\n       PROGRAM-ID. {name}.\n       DATA DIVISION.\n       WORKING-STORAGE SECTION.\n{entries}       PROCEDURE DIVISION.\n       MAIN-PARA.\n{statements}           STOP RUN.\n"
    )?;
    Ok(text)
}

/// A manifest of the first version of these programs, with these lines.
pub(crate) fn manifest(alloc: Global, programs: &str, lines: &str) -> Result<String, Fail> {
    let text = format!(in alloc; "version = 1\npivot = 50\nprograms = [{programs}]\n{lines}\n")?;
    Ok(text)
}

/// A program of a table by its name, a seed of it (or none), the windows of the manifest, its entries and statements, and what
/// is wanted of it.
#[derive(Clone, Copy)]
pub(crate) struct Case<'a> {
    pub(crate) name: &'a str,
    pub(crate) seed: &'a str,
    pub(crate) windows: &'a str,
    pub(crate) entries: &'a str,
    pub(crate) statements: &'a str,
    pub(crate) wanted: &'a str,
}

/// The first case of a table, and the cases behind it. A case is a line with its name, one with its seed and one with its
/// windows, and then the lines of its entries, of its statements and of what is wanted, each behind a line `--`; a line
/// `====` ends it.
pub(crate) fn next_case(table: &str) -> Option<(Case<'_>, &str)> {
    let (text, more) = table.split_once("====\n")?;
    let (name, text) = text.split_once("\n")?;
    let (seed, text) = text.split_once("\n")?;
    let (windows, text) = text.split_once("\n--\n")?;
    let (entries, text) = text.split_once("--\n")?;
    let (statements, wanted) = text.split_once("--\n")?;
    let case = Case {
        name,
        seed,
        windows,
        entries,
        statements,
        wanted,
    };
    Some((case, more))
}

use super::*;
use data_layout::{FileUse, Layout};
use portfolio::{Manifest, Named};
use program_reader::RefusedKind;
use shelf::MemoryShelf;
use std::alloc::Global;
use std::test::Fail;
use y2k_base::{Bytes, List, Memory, Text, TextRole, Texts};

fn bytes_of(alloc: Global, text: &[u8]) -> Result<Bytes, Memory> {
    let mut bytes = List::new(alloc);
    bytes.append(text)?;
    Ok(bytes)
}

fn text(alloc: Global, role: TextRole, key: &str, lines: &str) -> Result<Text, Memory> {
    Ok(Text {
        name: bytes_of(alloc, b"T")?,
        key: bytes_of(alloc, key.as_bytes())?,
        role,
        bytes: bytes_of(alloc, lines.as_bytes())?,
    })
}

/// A program of that name with these lines from line 3 on, up to its procedure division.
fn program(alloc: Global, id: &str, lines: &str) -> Result<Text, Fail> {
    with_procedure(
        alloc,
        id,
        lines,
        "       MAIN-PARA.\n           STOP RUN.\n",
    )
}

fn with_procedure(alloc: Global, id: &str, lines: &str, procedure: &str) -> Result<Text, Fail> {
    let whole = format!(in alloc;
        "       ID DIVISION.\n       PROGRAM-ID. {id}.\n{lines}       PROCEDURE DIVISION.\n{procedure}"
    )?;
    Ok(text(alloc, TextRole::Program, "", whole.as_str())?)
}

/// A program with these entries in working storage, from line 5 on.
fn with_storage(alloc: Global, id: &str, entries: &str) -> Result<Text, Fail> {
    let lines = format!(in alloc;
        "       DATA DIVISION.\n       WORKING-STORAGE SECTION.\n{entries}"
    )?;
    program(alloc, id, lines.as_str())
}

/// A program that selects a file under an external name, with records of so many bytes.
fn with_file(alloc: Global, id: &str, external: &str, length: u32) -> Result<Text, Fail> {
    let lines = format!(in alloc;
        "       ENVIRONMENT DIVISION.\n       INPUT-OUTPUT SECTION.\n       FILE-CONTROL.\n           SELECT F ASSIGN TO {external}.\n       DATA DIVISION.\n       FILE SECTION.\n       FD F.\n       01 R PIC X({length}).\n"
    )?;
    program(alloc, id, lines.as_str())
}

fn two(alloc: Global, first: Text, second: Text) -> Result<Texts, Memory> {
    let mut list = List::new(alloc);
    list.push(first)?;
    list.push(second)?;
    Ok(Texts { list })
}

fn one(alloc: Global, only: Text) -> Result<Texts, Memory> {
    let mut list = List::new(alloc);
    list.push(only)?;
    Ok(Texts { list })
}

fn named(alloc: Global, key: &str, name: &str) -> Result<Named, Memory> {
    Ok(Named {
        key: bytes_of(alloc, key.as_bytes())?,
        name: bytes_of(alloc, name.as_bytes())?,
    })
}

/// Whether texts are refused so, at that line and column of the file of that number.
fn is_refused(
    alloc: Global,
    texts: Texts,
    kind: RefusedKind,
    file: u32,
    line: u32,
    column: u32,
) -> bool {
    match assemble(alloc, texts, None) {
        Err(GatherFault::Refused(refused)) => {
            refused.kind == kind
                && refused.at.file.0 == file
                && refused.at.line == line
                && refused.at.column == column
        }
        _ => false,
    }
}

fn is_unknown(alloc: Global, texts: Texts, files: Option<&[Named]>, external: &[u8]) -> bool {
    match assemble(alloc, texts, files) {
        Err(GatherFault::FileUnknown(name)) => name.items() == external,
        _ => false,
    }
}

fn has_lengths(alloc: Global, texts: Texts, external: &[u8]) -> bool {
    match assemble(alloc, texts, None) {
        Err(GatherFault::RecordLengths(name)) => name.items() == external,
        _ => false,
    }
}

#[test]
fn a_second_program_of_a_name_is_refused_at_its_name(rt: HostRuntime) -> Result<(), Fail> {
    let alloc = rt.alloc();
    let texts = two(alloc, program(alloc, "P", "")?, program(alloc, "P", "")?)?;
    assert!(rt; is_refused(alloc, texts, RefusedKind::NameTwice, 1, 2, 20));
    let texts = two(alloc, program(alloc, "P", "")?, program(alloc, "Q", "")?)?;
    assert!(rt; has_items(alloc, texts, &[0, 0]));
    Ok(())
}

#[test]
fn a_second_paragraph_or_section_of_a_name_is_refused(rt: HostRuntime) -> Result<(), Fail> {
    let alloc = rt.alloc();
    let paragraph = with_procedure(
        alloc,
        "P",
        "",
        "       A-PARA.\n           STOP RUN.\n       A-PARA.\n           STOP RUN.\n",
    )?;
    let texts = one(alloc, paragraph)?;
    assert!(rt; is_refused(alloc, texts, RefusedKind::NameTwice, 0, 6, 8));
    let section = with_procedure(
        alloc,
        "P",
        "",
        "       A-PARA.\n           STOP RUN.\n       A-PARA SECTION.\n           STOP RUN.\n",
    )?;
    let texts = one(alloc, section)?;
    assert!(rt; is_refused(alloc, texts, RefusedKind::NameTwice, 0, 6, 8));
    Ok(())
}

#[test]
fn a_second_select_or_fd_of_a_name_is_refused(rt: HostRuntime) -> Result<(), Fail> {
    let alloc = rt.alloc();
    let select = program(
        alloc,
        "P",
        "       ENVIRONMENT DIVISION.\n       INPUT-OUTPUT SECTION.\n       FILE-CONTROL.\n           SELECT F ASSIGN TO A.\n           SELECT F ASSIGN TO B.\n       DATA DIVISION.\n       FILE SECTION.\n       FD F.\n       01 R PIC X.\n",
    )?;
    let texts = one(alloc, select)?;
    assert!(rt; is_refused(alloc, texts, RefusedKind::NameTwice, 0, 7, 19));
    let file = program(
        alloc,
        "P",
        "       ENVIRONMENT DIVISION.\n       INPUT-OUTPUT SECTION.\n       FILE-CONTROL.\n           SELECT F ASSIGN TO A.\n       DATA DIVISION.\n       FILE SECTION.\n       FD F.\n       01 R PIC X.\n       FD F.\n       01 S PIC X.\n",
    )?;
    let texts = one(alloc, file)?;
    assert!(rt; is_refused(alloc, texts, RefusedKind::NameTwice, 0, 11, 11));
    Ok(())
}

#[test]
fn the_lines_of_all_texts_come_before_the_first_program(rt: HostRuntime) -> Result<(), Fail> {
    let alloc = rt.alloc();
    let first = text(alloc, TextRole::Program, "", "       CALL X.\n")?;
    let second = text(alloc, TextRole::Program, "", "      X\n")?;
    let texts = two(alloc, first, second)?;
    assert!(rt; is_refused(alloc, texts, RefusedKind::BadByte, 1, 1, 7));
    Ok(())
}

#[test]
fn a_layout_comes_before_the_grammar_of_the_next_program(rt: HostRuntime) -> Result<(), Fail> {
    let alloc = rt.alloc();
    let first = with_storage(alloc, "P", "       05 A PIC X.\n")?;
    let second = text(alloc, TextRole::Program, "", "       CALL X.\n")?;
    let texts = two(alloc, first, second)?;
    assert!(rt; is_refused(alloc, texts, RefusedKind::LayoutShape, 0, 5, 8));
    Ok(())
}

#[test]
fn a_layout_comes_before_names_and_these_before_external_names(
    rt: HostRuntime,
) -> Result<(), Fail> {
    let alloc = rt.alloc();
    let first = program(alloc, "P", "")?;
    let second = with_storage(alloc, "P", "       05 A PIC X.\n")?;
    let texts = two(alloc, first, second)?;
    assert!(rt; is_refused(alloc, texts, RefusedKind::LayoutShape, 1, 5, 8));
    let texts = two(
        alloc,
        with_file(alloc, "P", "A", 80)?,
        with_file(alloc, "P", "A", 81)?,
    )?;
    assert!(rt; is_refused(alloc, texts, RefusedKind::NameTwice, 1, 2, 20));
    Ok(())
}

#[test]
fn the_first_area_past_four_million_bytes_is_refused(rt: HostRuntime) -> Result<(), Fail> {
    let alloc = rt.alloc();
    let mut entries = String::new(alloc);
    for number in 10_u32..72 {
        let entry = format!(in alloc; "       01 A{number} PIC X(65535).\n")?;
        entries.push_str(entry.as_str())?;
    }
    let texts = one(alloc, with_storage(alloc, "P", entries.as_str())?)?;
    assert!(rt; is_refused(alloc, texts, RefusedKind::AreaFull, 0, 66, 8));
    Ok(())
}

#[test]
fn a_copybook_is_taken_in_by_its_key(rt: HostRuntime) -> Result<(), Fail> {
    let alloc = rt.alloc();
    let book = text(alloc, TextRole::Book, "B", "       01 A PIC X.\n")?;
    let copies = with_storage(alloc, "P", "           COPY B.\n")?;
    assert!(rt; has_items(alloc, two(alloc, book, copies)?, &[1]));
    let missing = with_storage(alloc, "P", "           COPY C.\n")?;
    let texts = one(alloc, missing)?;
    assert!(rt; is_refused(alloc, texts, RefusedKind::CopyMissing, 0, 5, 12));
    Ok(())
}

#[test]
fn an_external_name_that_is_not_listed_is_unknown(rt: HostRuntime) -> Result<(), Fail> {
    let alloc = rt.alloc();
    let mut files = List::new(alloc);
    files.push(named(alloc, "B", "b.dat")?)?;
    let texts = one(alloc, with_file(alloc, "P", "C", 80)?)?;
    assert!(rt; is_unknown(alloc, texts, Some(files.items()), b"B"));
    let texts = one(alloc, with_file(alloc, "P", "A", 80)?)?;
    assert!(rt; is_unknown(alloc, texts, Some(files.items()), b"A"));
    Ok(())
}

#[test]
fn an_external_name_that_is_selected_twice_is_unknown(rt: HostRuntime) -> Result<(), Fail> {
    let alloc = rt.alloc();
    let selects = program(
        alloc,
        "P",
        "       ENVIRONMENT DIVISION.\n       INPUT-OUTPUT SECTION.\n       FILE-CONTROL.\n           SELECT F ASSIGN TO A.\n           SELECT G ASSIGN TO A.\n       DATA DIVISION.\n       FILE SECTION.\n       FD F.\n       01 R PIC X.\n       FD G.\n       01 S PIC X(2).\n",
    )?;
    assert!(rt; is_unknown(alloc, one(alloc, selects)?, None, b"A"));
    Ok(())
}

#[test]
fn records_of_80_and_81_bytes_have_two_lengths(rt: HostRuntime) -> Result<(), Fail> {
    let alloc = rt.alloc();
    let texts = two(
        alloc,
        with_file(alloc, "P", "A", 80)?,
        with_file(alloc, "Q", "A", 81)?,
    )?;
    assert!(rt; has_lengths(alloc, texts, b"A"));
    Ok(())
}

fn is_file(file: &FileUse, external: &[u8], name: &[u8], areas: usize) -> bool {
    file.external.items() == external
        && file.name.items() == name
        && file.length == 80
        && file.areas.len() == areas
}

#[test]
fn files_go_by_their_first_select(rt: HostRuntime) -> Result<(), Fail> {
    let alloc = rt.alloc();
    let mut files = List::new(alloc);
    files.push(named(alloc, "A", "a.dat")?)?;
    files.push(named(alloc, "B", "b.dat")?)?;
    let texts = two(
        alloc,
        with_file(alloc, "P", "B", 80)?,
        with_file(alloc, "Q", "A", 80)?,
    )?;
    assert!(rt; are_files_b_and_a(alloc, texts, files.items()));
    let texts = two(
        alloc,
        with_file(alloc, "P", "B", 80)?,
        with_file(alloc, "Q", "B", 80)?,
    )?;
    assert!(rt; is_file_b_of_two(alloc, texts));
    Ok(())
}

fn are_files_b_and_a(alloc: Global, texts: Texts, files: &[Named]) -> bool {
    match assemble(alloc, texts, Some(files)) {
        Ok(gathered) => match gathered.portfolio.files.items() {
            [first, second] => {
                is_file(first, b"B", b"b.dat", 1) && is_file(second, b"A", b"a.dat", 1)
            }
            _ => false,
        },
        Err(_) => false,
    }
}

fn is_file_b_of_two(alloc: Global, texts: Texts) -> bool {
    match assemble(alloc, texts, None) {
        Ok(gathered) => match gathered.portfolio.files.items() {
            [only] => is_file(only, b"B", b"B", 2),
            _ => false,
        },
        Err(_) => false,
    }
}

/// Whether texts are programs with so many items each.
fn has_items(alloc: Global, texts: Texts, counts: &[usize]) -> bool {
    match assemble(alloc, texts, None) {
        Ok(gathered) => are_counts(gathered.portfolio.layouts.items(), counts),
        Err(_) => false,
    }
}

fn are_counts(layouts: &[Layout], counts: &[usize]) -> bool {
    if layouts.len() != counts.len() {
        return false;
    }
    for i in 0..counts.len() {
        if i < layouts.len() && layouts[i].items.len() != counts[i] {
            return false;
        }
    }
    true
}

fn program_named(alloc: Global, id: &str, lines: &str) -> Result<Bytes, Fail> {
    let whole = format!(in alloc;
        "       ID DIVISION.\n       PROGRAM-ID. {id}.\n{lines}       PROCEDURE DIVISION.\n       MAIN-PARA.\n           STOP RUN.\n"
    )?;
    Ok(bytes_of(alloc, whole.as_str().as_bytes())?)
}

/// A manifest of programs alone.
fn manifest_of(alloc: Global, programs: &[&str]) -> Result<Manifest, Memory> {
    let mut names = List::new(alloc);
    for name in programs {
        names.push(bytes_of(alloc, name.as_bytes())?)?;
    }
    Ok(Manifest {
        version: 2,
        pivot: 50,
        programs: names,
        copybooks: List::new(alloc),
        seeds: None,
        window: List::new(alloc),
        files: List::new(alloc),
        jobs: List::new(alloc),
    })
}

const COPIES_B: &str =
    "       DATA DIVISION.\n       WORKING-STORAGE SECTION.\n           COPY B.\n";

#[test]
fn copybooks_are_gathered_before_programs(rt: HostRuntime) -> Result<(), Fail> {
    let alloc = rt.alloc();
    let mut shelf = MemoryShelf::new(alloc)?;
    shelf.put("a/b.cpy", b"       01 A PIC X.\n")?;
    shelf.put("a/P.cbl", program_named(alloc, "P", COPIES_B)?.items())?;
    let mut manifest = manifest_of(alloc, &["P.cbl"])?;
    manifest.copybooks.push(named(alloc, "B", "b.cpy")?)?;
    assert!(rt; are_book_and_program(alloc, &manifest, &mut shelf));
    Ok(())
}

fn are_book_and_program(alloc: Global, manifest: &Manifest, shelf: &mut MemoryShelf) -> bool {
    match gather(alloc, manifest, "a/", 0, shelf) {
        Ok(gathered) => match gathered.texts.list.items() {
            [book, program] => {
                book.role == TextRole::Book
                    && book.name.items() == b"b.cpy".as_slice()
                    && book.key.items() == b"B".as_slice()
                    && program.role == TextRole::Program
                    && program.name.items() == b"P.cbl".as_slice()
                    && are_counts(gathered.portfolio.layouts.items(), &[1])
            }
            _ => false,
        },
        Err(_) => false,
    }
}

fn is_missing(alloc: Global, manifest: &Manifest, shelf: &mut MemoryShelf, text: &[u8]) -> bool {
    match gather(alloc, manifest, "a/", 0, shelf) {
        Err(GatherFault::Missing(name)) => name.items() == text,
        _ => false,
    }
}

fn is_too_large(
    alloc: Global,
    manifest: &Manifest,
    used: u64,
    shelf: &mut MemoryShelf,
    text: &[u8],
) -> bool {
    match gather(alloc, manifest, "", used, shelf) {
        Err(GatherFault::TooLarge(name)) => name.items() == text,
        _ => false,
    }
}

fn is_failed(alloc: Global, manifest: &Manifest, shelf: &mut MemoryShelf, text: &[u8]) -> bool {
    match gather(alloc, manifest, "a/", 0, shelf) {
        Err(GatherFault::Shelf(name)) => name.items() == text,
        _ => false,
    }
}

#[test]
fn a_text_that_is_not_on_the_shelf_is_missing_by_its_name(rt: HostRuntime) -> Result<(), Fail> {
    let alloc = rt.alloc();
    let mut shelf = MemoryShelf::new(alloc)?;
    shelf.put("P.cbl", program_named(alloc, "P", "")?.items())?;
    let manifest = manifest_of(alloc, &["P.cbl"])?;
    assert!(rt; is_missing(alloc, &manifest, &mut shelf, b"P.cbl"));
    assert!(rt; gather(alloc, &manifest, "", 0, &mut shelf).is_ok());
    Ok(())
}

#[test]
fn the_lines_of_a_text_come_before_the_next_text(rt: HostRuntime) -> Result<(), Fail> {
    let alloc = rt.alloc();
    let mut shelf = MemoryShelf::new(alloc)?;
    shelf.put("a/P.cbl", b"      X\n")?;
    let manifest = manifest_of(alloc, &["P.cbl", "Q.cbl"])?;
    assert!(rt; is_bad_byte(alloc, &manifest, &mut shelf));
    let manifest = manifest_of(alloc, &["Q.cbl", "P.cbl"])?;
    assert!(rt; is_missing(alloc, &manifest, &mut shelf, b"Q.cbl"));
    Ok(())
}

/// Whether the first text is refused for its indicator.
fn is_bad_byte(alloc: Global, manifest: &Manifest, shelf: &mut MemoryShelf) -> bool {
    match gather(alloc, manifest, "a/", 0, shelf) {
        Err(GatherFault::Refused(refused)) => {
            refused.kind == RefusedKind::BadByte && refused.at.file.0 == 0 && refused.at.line == 1
        }
        _ => false,
    }
}

#[test]
fn a_missing_text_comes_before_the_grammar_of_those_before_it(rt: HostRuntime) -> Result<(), Fail> {
    let alloc = rt.alloc();
    let mut shelf = MemoryShelf::new(alloc)?;
    shelf.put("a/P.cbl", b"       CALL X.\n")?;
    let manifest = manifest_of(alloc, &["P.cbl", "Q.cbl"])?;
    assert!(rt; is_missing(alloc, &manifest, &mut shelf, b"Q.cbl"));
    Ok(())
}

#[test]
fn texts_have_four_million_bytes_at_most(rt: HostRuntime) -> Result<(), Fail> {
    let alloc = rt.alloc();
    let mut shelf = MemoryShelf::new(alloc)?;
    let text = program_named(alloc, "P", "")?;
    let length = text.len() as u64;
    shelf.put("P.cbl", text.items())?;
    let manifest = manifest_of(alloc, &["P.cbl"])?;
    let left = 4_000_000_u64.saturating_sub(length);
    assert!(rt; gather(alloc, &manifest, "", left, &mut shelf).is_ok());
    assert!(rt;
        is_too_large(
            alloc,
            &manifest,
            left.saturating_add(1),
            &mut shelf,
            b"P.cbl"
        )
    );
    Ok(())
}

#[test]
fn bytes_are_counted_over_all_texts(rt: HostRuntime) -> Result<(), Fail> {
    let alloc = rt.alloc();
    let mut shelf = MemoryShelf::new(alloc)?;
    let text = program_named(alloc, "P", "")?;
    let length = text.len() as u64;
    shelf.put("P.cbl", text.items())?;
    shelf.put("Q.cbl", program_named(alloc, "Q", "")?.items())?;
    let manifest = manifest_of(alloc, &["P.cbl", "Q.cbl"])?;
    let left = 4_000_000_u64.saturating_sub(length);
    assert!(rt; is_too_large(alloc, &manifest, left, &mut shelf, b"Q.cbl"));
    Ok(())
}

#[test]
fn a_fault_of_the_shelf_goes_by_the_name_in_the_call(rt: HostRuntime) -> Result<(), Fail> {
    let alloc = rt.alloc();
    for call in 1_u64..3 {
        let mut shelf = MemoryShelf::new(alloc)?;
        shelf.put("a/P.cbl", program_named(alloc, "P", "")?.items())?;
        shelf.fail_on(call)?;
        let manifest = manifest_of(alloc, &["P.cbl"])?;
        assert!(rt; is_failed(alloc, &manifest, &mut shelf, b"a/P.cbl"));
    }
    Ok(())
}

#[test]
fn the_data_files_of_a_manifest_are_the_known_ones(rt: HostRuntime) -> Result<(), Fail> {
    let alloc = rt.alloc();
    let mut shelf = MemoryShelf::new(alloc)?;
    shelf.put("P.cbl", with_file(alloc, "P", "A", 80)?.bytes.items())?;
    let mut manifest = manifest_of(alloc, &["P.cbl"])?;
    assert!(rt; has_unknown(alloc, &manifest, &mut shelf, b"A"));
    manifest.files.push(named(alloc, "A", "a.dat")?)?;
    assert!(rt; gather(alloc, &manifest, "", 0, &mut shelf).is_ok());
    Ok(())
}

fn has_unknown(alloc: Global, manifest: &Manifest, shelf: &mut MemoryShelf, file: &[u8]) -> bool {
    match gather(alloc, manifest, "", 0, shelf) {
        Err(GatherFault::FileUnknown(name)) => name.items() == file,
        _ => false,
    }
}

#[test]
fn what_redefines_a_record_stands_in_its_bytes(rt: HostRuntime) -> Result<(), Fail> {
    let alloc = rt.alloc();
    let entries =
        "       01  D PIC 9(6).\n       01  G REDEFINES D.\n           05  YY PIC 9(2).\n           05  MM PIC 9(2).\n           05  DD PIC 9(2).\n       01  M2 PIC X(2).\n";
    let texts = one(alloc, with_storage(alloc, "P5", entries)?)?;
    let places = [
        (0, 0, 6),
        (0, 0, 6),
        (0, 0, 2),
        (0, 2, 2),
        (0, 4, 2),
        (1, 0, 2),
    ];
    assert!(rt; has_places(alloc, texts, &places));
    Ok(())
}

/// Whether the items of the one program of texts have these areas, offsets and lengths.
fn has_places(alloc: Global, texts: Texts, places: &[(u32, u32, u32)]) -> bool {
    match assemble(alloc, texts, None) {
        Ok(gathered) => match gathered.portfolio.layouts.items() {
            [layout] => are_places(layout, places),
            _ => false,
        },
        Err(_) => false,
    }
}

fn are_places(layout: &Layout, places: &[(u32, u32, u32)]) -> bool {
    let items = layout.items.items();
    if items.len() != places.len() {
        return false;
    }
    for i in 0..places.len() {
        if i < items.len() {
            let span = items[i].span;
            let (area, offset, length) = places[i];
            if span.area.0 != area || span.offset != offset || span.length != length {
                return false;
            }
        }
    }
    true
}

/// A copybook of so many items, N0 and so on.
fn book_of_items(alloc: Global, count: u32) -> Result<Text, Fail> {
    let mut lines = List::new(alloc);
    for k in 0..count {
        let entry = format!(in alloc; "       01 N{k} PIC X.\n")?;
        lines.append(entry.as_str().as_bytes())?;
    }
    Ok(Text {
        name: bytes_of(alloc, b"B")?,
        key: bytes_of(alloc, b"B")?,
        role: TextRole::Book,
        bytes: lines,
    })
}

/// A program that copies so many items in under other names, M0 and so on, and uses the first and the last.
fn copies_items(alloc: Global, count: u32) -> Result<Text, Fail> {
    let mut lines = List::new(alloc);
    lines.append(b"       ID DIVISION.\n       PROGRAM-ID. P.\n       DATA DIVISION.\n")?;
    lines.append(b"       WORKING-STORAGE SECTION.\n           COPY B REPLACING\n")?;
    for k in 0..count {
        let pair = format!(in alloc; "           ==N{k}== BY ==M{k}==\n")?;
        lines.append(pair.as_str().as_bytes())?;
    }
    let last = count.saturating_sub(1);
    let rest = format!(in alloc;
        "           .\n       PROCEDURE DIVISION.\n       MAIN-PARA.\n           MOVE M0 TO M{last}.\n"
    )?;
    lines.append(rest.as_str().as_bytes())?;
    Ok(Text {
        name: bytes_of(alloc, b"P")?,
        key: List::new(alloc),
        role: TextRole::Program,
        bytes: lines,
    })
}

#[test]
fn a_copy_statement_may_replace_by_160_pairs(rt: HostRuntime) -> Result<(), Fail> {
    let alloc = rt.alloc();
    let texts = two(alloc, book_of_items(alloc, 160)?, copies_items(alloc, 160)?)?;
    assert!(rt; has_items(alloc, texts, &[160]));
    Ok(())
}

/// A program with so many IF statements inside one another, from line 7 on.
fn with_nested_ifs(alloc: Global, count: u32) -> Result<Text, Fail> {
    let mut lines = List::new(alloc);
    lines.append(b"       ID DIVISION.\n       PROGRAM-ID. P.\n       DATA DIVISION.\n")?;
    lines.append(b"       WORKING-STORAGE SECTION.\n       77 A PIC 9.\n")?;
    lines.append(b"       PROCEDURE DIVISION.\n")?;
    for _turn in 0..count {
        lines.append(b"           IF A = 1\n")?;
    }
    lines.append(b"           CONTINUE.\n")?;
    Ok(Text {
        name: bytes_of(alloc, b"P")?,
        key: List::new(alloc),
        role: TextRole::Program,
        bytes: lines,
    })
}

#[test]
fn if_statements_are_nested_64_deep_at_most(rt: HostRuntime) -> Result<(), Fail> {
    let alloc = rt.alloc();
    let texts = one(alloc, with_nested_ifs(alloc, 64)?)?;
    assert!(rt; has_items(alloc, texts, &[1]));
    let texts = one(alloc, with_nested_ifs(alloc, 65)?)?;
    assert!(rt; is_refused(alloc, texts, RefusedKind::NestDeep, 0, 7, 12));
    Ok(())
}

/// Adds programs P0 and so on to a manifest and a shelf.
fn add_programs(
    alloc: Global,
    manifest: &mut Manifest,
    shelf: &mut MemoryShelf,
    count: u32,
) -> Result<(), Fail> {
    for k in 0..count {
        let id = format!(in alloc; "P{k}")?;
        shelf.put(id.as_str(), program_named(alloc, id.as_str(), "")?.items())?;
        manifest
            .programs
            .push(bytes_of(alloc, id.as_str().as_bytes())?)?;
    }
    Ok(())
}

fn has_programs(alloc: Global, manifest: &Manifest, shelf: &mut MemoryShelf, count: usize) -> bool {
    match gather(alloc, manifest, "", 0, shelf) {
        Ok(gathered) => gathered.portfolio.layouts.len() == count,
        Err(_) => false,
    }
}

#[test]
fn two_hundred_programs_are_gathered(rt: HostRuntime) -> Result<(), Fail> {
    let alloc = rt.alloc();
    let mut shelf = MemoryShelf::new(alloc)?;
    let mut manifest = manifest_of(alloc, &[])?;
    add_programs(alloc, &mut manifest, &mut shelf, 200)?;
    assert!(rt; has_programs(alloc, &manifest, &mut shelf, 200));
    Ok(())
}

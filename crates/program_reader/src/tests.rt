use super::*;
use cobol_syntax::{Entry, FileEntry, Operand, Paragraph, Place, Program, Select};
use copy_origins::Expanded;
use std::alloc::Global;
use std::test::Fail;
use y2k_base::{Bytes, FileId, List, Memory, Origin, Picture, Twin, Word, WordKind};

/// The kind of a word of these tests, by its first character. A tilde stands before a PICTURE word.
fn kind_of(spelled: &[u8]) -> WordKind {
    match spelled {
        [b'"', ..] => WordKind::Literal,
        [b'~', ..] => WordKind::Picture,
        [b'0'..=b'9', ..] => WordKind::Number,
        [b'-' | b'+', _, ..] => WordKind::Number,
        [b'A'..=b'Z', ..] => WordKind::Name,
        _ => WordKind::Mark,
    }
}

/// Adds the words of a text, parted by blanks. The column of a word is its position.
fn push_text(alloc: Global, words: &mut List<Word>, text: &[u8]) -> Result<(), Memory> {
    for spelled in text.split(|byte| *byte == b' ') {
        let mut content = List::new(alloc);
        for byte in spelled {
            if *byte != b'"' && *byte != b'~' {
                content.push(*byte)?;
            }
        }
        let column = words.len();
        let origin = Origin {
            file: FileId(1),
            line: 7,
            column: (column % 1_000_000) as u32,
        };
        words.push(Word {
            text: content,
            kind: kind_of(spelled),
            origin,
        })?;
    }
    Ok(())
}

fn show_name(name: &Option<Bytes>, out: &mut Bytes) -> Result<(), Memory> {
    match name {
        None => out.push(b'-'),
        Some(name) => out.append(name.items()),
    }
}

fn show_place(alloc: Global, place: &Place, out: &mut Bytes) -> Result<(), Memory> {
    for name in place.names.items() {
        out.append(name.items())?;
    }
    let text = format!(in alloc; "@{}-{}", place.at, place.end)?;
    out.append(text.as_bytes())
}

fn show_operand(alloc: Global, operand: &Operand, out: &mut Bytes) -> Result<(), Memory> {
    match operand {
        Operand::Place(place) => show_place(alloc, place, out),
        Operand::Number { value, digits, at } => {
            let text = format!(in alloc; "{}e-{} of {digits}@{at}", value.number, value.scale)?;
            out.append(text.as_bytes())
        }
        Operand::Text { bytes, at } => {
            out.append(bytes.items())?;
            let text = format!(in alloc; "\"@{at}")?;
            out.append(text.as_bytes())
        }
        Operand::Figure { byte, at } => {
            let text = format!(in alloc; "all {byte}@{at}")?;
            out.append(text.as_bytes())
        }
    }
}

fn show_picture(alloc: Global, picture: &Picture, at: u32, out: &mut Bytes) -> Result<(), Memory> {
    out.append(b" pic ")?;
    for run in picture.runs.items() {
        out.push(run.symbol)?;
        let text = format!(in alloc; "{}", run.count)?;
        out.append(text.as_bytes())?;
    }
    let text = format!(in alloc; "@{at}")?;
    out.append(text.as_bytes())
}

/// The clauses of an entry that are not at their defaults.
fn show_clauses(alloc: Global, entry: &Entry, out: &mut Bytes) -> Result<(), Memory> {
    match &entry.redefines {
        None => {}
        Some(name) => {
            out.append(b" = ")?;
            out.append(name.items())?;
        }
    }
    match entry.occurs {
        None => {}
        Some(times) => {
            let text = format!(in alloc; " * {times}")?;
            out.append(text.as_bytes())?;
        }
    }
    match &entry.picture {
        None => {}
        Some(picture) => show_picture(alloc, picture, entry.picture_at, out)?,
    }
    let text = format!(in alloc; " {:?} {:?}", entry.usage, entry.sign)?;
    out.append(text.as_bytes())?;
    match &entry.value {
        None => Ok(()),
        Some(value) => {
            out.append(b" value ")?;
            show_operand(alloc, value, out)
        }
    }
}

/// The entry: its place, its level, its name and its clauses or values.
fn show_entry(alloc: Global, entry: &Entry, out: &mut Bytes) -> Result<(), Memory> {
    let text = format!(in alloc; "{}: {} ", entry.at, entry.level)?;
    out.append(text.as_bytes())?;
    show_name(&entry.name, out)?;
    show_clauses(alloc, entry, out)?;
    for range in entry.ranges.items() {
        out.append(b" in ")?;
        show_operand(alloc, &range.low, out)?;
        match &range.high {
            None => {}
            Some(high) => {
                out.append(b" to ")?;
                show_operand(alloc, high, out)?;
            }
        }
    }
    out.push(b'.')
}

fn show_entries(alloc: Global, entries: &List<Entry>, out: &mut Bytes) -> Result<(), Memory> {
    for entry in entries.items() {
        show_entry(alloc, entry, out)?;
    }
    Ok(())
}

fn show_select(alloc: Global, select: &Select, out: &mut Bytes) -> Result<(), Memory> {
    let text = format!(in alloc; "{}: ", select.at)?;
    out.append(text.as_bytes())?;
    out.append(select.name.items())?;
    out.append(b" is ")?;
    out.append(select.external.items())?;
    match &select.status {
        None => {}
        Some(place) => {
            out.append(b" status ")?;
            show_place(alloc, place, out)?;
        }
    }
    out.push(b'.')
}

fn show_file(alloc: Global, file: &FileEntry, out: &mut Bytes) -> Result<(), Memory> {
    let text = format!(in alloc; "{}: file ", file.at)?;
    out.append(text.as_bytes())?;
    out.append(file.name.items())?;
    match &file.contains {
        None => {}
        Some(number) => {
            out.append(b" contains ")?;
            show_operand(alloc, number, out)?;
        }
    }
    out.push(b'.')?;
    show_entries(alloc, &file.entries, out)
}

fn show_paragraph(alloc: Global, paragraph: &Paragraph, out: &mut Bytes) -> Result<(), Memory> {
    let text = format!(in alloc; "{}: ", paragraph.at)?;
    out.append(text.as_bytes())?;
    out.append(paragraph.name.items())?;
    if paragraph.section {
        out.append(b" section")?;
    }
    let text = format!(in alloc; " {}.", paragraph.sentences.len())?;
    out.append(text.as_bytes())
}

/// The parts of a program; its name comes first.
fn show(alloc: Global, program: &Program, out: &mut Bytes) -> Result<(), Memory> {
    out.append(program.id.items())?;
    out.push(b'.')?;
    for select in program.selects.items() {
        show_select(alloc, select, out)?;
    }
    for file in program.files.items() {
        show_file(alloc, file, out)?;
    }
    show_entries(alloc, &program.storage, out)?;
    for paragraph in program.paragraphs.items() {
        show_paragraph(alloc, paragraph, out)?;
    }
    Ok(())
}

/// A refusal with its line and column.
fn show_fault(alloc: Global, fault: ReadFault, out: &mut Bytes) -> Result<(), Memory> {
    match fault {
        ReadFault::Memory => Err(Memory),
        ReadFault::Refused(refused) => {
            let text = format!(in alloc;
                "{:?} {}:{}",
                refused.kind, refused.at.line, refused.at.column
            )?;
            out.append(text.as_bytes())
        }
    }
}

/// What the words read as: the parts of the program, or the refusal.
fn read(alloc: Global, words: List<Word>) -> Result<Bytes, Memory> {
    let mut out = List::new(alloc);
    match read_program(alloc, &Expanded { words }, 3, FileId(1)) {
        Ok(program) => show(alloc, &program, &mut out)?,
        Err(fault) => show_fault(alloc, fault, &mut out)?,
    }
    Ok(out)
}

/// The same for a text of words, parted by blanks.
fn read_text(alloc: Global, text: &[u8]) -> Result<Bytes, Memory> {
    let mut words = List::new(alloc);
    push_text(alloc, &mut words, text)?;
    read(alloc, words)
}

/// What entries of working storage read as, of which the first word has position 13.
fn read_storage(alloc: Global, text: &[u8]) -> Result<Bytes, Memory> {
    let mut words = List::new(alloc);
    push_text(
        alloc,
        &mut words,
        b"ID DIVISION . PROGRAM-ID . P . DATA DIVISION . WORKING-STORAGE SECTION .",
    )?;
    push_text(alloc, &mut words, text)?;
    push_text(alloc, &mut words, b"PROCEDURE DIVISION . A .")?;
    let mut out = List::new(alloc);
    match read_program(alloc, &Expanded { words }, 3, FileId(1)) {
        Ok(program) => show_entries(alloc, &program.storage, &mut out)?,
        Err(fault) => show_fault(alloc, fault, &mut out)?,
    }
    Ok(out)
}

#[test]
fn entries_have_each_clause_once_in_any_order(rt: HostRuntime) -> Result<(), Fail> {
    for (text, want) in [
        (
            b"01 A PIC ~9(4) .".as_slice(),
            b"13: 1 A pic 94@16 Display Trailing.".as_slice(),
        ),
        (
            b"001 FILLER PICTURE IS ~X .",
            b"13: 1 - pic X1@17 Display Trailing.",
        ),
        (b"77 COMP .", b"13: 77 - Binary Trailing."),
        (
            b"49 A REDEFINES B COMP-3 PIC ~9 .",
            b"13: 49 A = B pic 91@19 Packed Trailing.",
        ),
        (
            b"05 A OCCURS 3 TIMES USAGE IS PACKED-DECIMAL .",
            b"13: 5 A * 3 Packed Trailing.",
        ),
        (
            b"05 A USAGE DISPLAY OCCURS 3 .",
            b"13: 5 A * 3 Display Trailing.",
        ),
        (
            b"05 A VALUE IS ZERO SIGN IS LEADING SEPARATE CHARACTER .",
            b"13: 5 A Display LeadingSeparate value all 48@17.",
        ),
        (
            b"05 A TRAILING SEPARATE VALUE -1.5 .",
            b"13: 5 A Display TrailingSeparate value -15e-1 of 2@18.",
        ),
        (
            b"05 A LEADING VALUE \"XY .",
            b"13: 5 A Display Leading value XY\"@17.",
        ),
        (b"05 A PIC ~9 PIC ~9 .", b"UnitShape 7:13"),
        (b"05 A COMP DISPLAY .", b"UnitShape 7:13"),
        (b"05 A OCCURS 2 OCCURS 2 .", b"UnitShape 7:13"),
        (b"05 A LEADING SIGN TRAILING .", b"UnitShape 7:13"),
        (b"05 A VALUE 1 VALUE 2 .", b"UnitShape 7:13"),
        (b"05 A PIC ~9 REDEFINES B .", b"UnitShape 7:13"),
        (b"05 A OCCURS -2 .", b"UnitShape 7:13"),
        (b"05 A VALUE B .", b"UnitShape 7:13"),
        (b"05 SIGN SEPARATE .", b"UnitShape 7:13"),
        (b"00 A .", b"UnitShape 7:13"),
        (b"50 A .", b"UnitShape 7:13"),
        (b"78 A .", b"UnitShape 7:13"),
        (b"1.0 A .", b"UnitShape 7:13"),
        (b"01 A . 05 B PIC ~9Q .", b"PictureShape 7:19"),
        (b"01 A PIC ~9(19) .", b"TooManyDigits 7:16"),
        (
            b"01 A PIC ~XXXXXXXXXXXXXXXXXXXXXXXXXXXXXXX .",
            b"PictureFull 7:16",
        ),
        (b"01 A PIC ~9Q", b"UnitShape 7:13"),
    ] {
        let got = read_storage(rt.alloc(), text)?;
        assert_eq!(rt; got.items(), want);
    }
    Ok(())
}

#[test]
fn condition_names_have_a_form_of_their_own(rt: HostRuntime) -> Result<(), Fail> {
    for (text, want) in [
        (
            b"88 YES VALUE \"Y .".as_slice(),
            b"13: 88 YES Display Trailing in Y\"@16.".as_slice(),
        ),
        (
            b"088 N VALUES ARE 1 THRU 3 7 .",
            b"13: 88 N Display Trailing in 1e-0 of 1@17 to 3e-0 of 1@19 in 7e-0 of 1@20.",
        ),
        (
            b"88 N VALUE IS SPACES THROUGH \"B .",
            b"13: 88 N Display Trailing in all 32@17 to B\"@19.",
        ),
        (
            b"88 N VALUES 1 -2 .",
            b"13: 88 N Display Trailing in 1e-0 of 1@16 in -2e-0 of 1@17.",
        ),
        (b"88 N PIC ~9 .", b"UnitShape 7:13"),
        (b"88 N .", b"UnitShape 7:13"),
        (b"88 FILLER VALUE 1 .", b"UnitShape 7:13"),
        (b"88 N VALUE .", b"UnitShape 7:13"),
        (b"88 N VALUE 1 THRU .", b"UnitShape 7:13"),
        (b"88 N VALUE 1 COMP .", b"UnitShape 7:13"),
        (b"05 N VALUES 1 .", b"UnitShape 7:13"),
        (b"05 N VALUE 1 2 .", b"UnitShape 7:13"),
    ] {
        let got = read_storage(rt.alloc(), text)?;
        assert_eq!(rt; got.items(), want);
    }
    Ok(())
}

/// What SELECT entries read as, of which the first word has position 15.
fn read_selects(alloc: Global, text: &[u8]) -> Result<Bytes, Memory> {
    let mut words = List::new(alloc);
    push_text(
        alloc,
        &mut words,
        b"ID DIVISION . PROGRAM-ID . P . ENVIRONMENT DIVISION . INPUT-OUTPUT SECTION . FILE-CONTROL .",
    )?;
    push_text(alloc, &mut words, text)?;
    push_text(alloc, &mut words, b"PROCEDURE DIVISION . A .")?;
    let mut out = List::new(alloc);
    match read_program(alloc, &Expanded { words }, 3, FileId(1)) {
        Ok(program) => {
            for select in program.selects.items() {
                show_select(alloc, select, &mut out)?;
            }
        }
        Err(fault) => show_fault(alloc, fault, &mut out)?,
    }
    Ok(out)
}

#[test]
fn select_entries_have_each_clause_once_in_any_order(rt: HostRuntime) -> Result<(), Fail> {
    for (text, want) in [
        (
            b"SELECT F ASSIGN TO EMP .".as_slice(),
            b"15: F is EMP.".as_slice(),
        ),
        (b"SELECT F ASSIGN \"emp .", b"15: F is emp."),
        (
            b"SELECT F ASSIGN E FILE STATUS IS S ( 1 ) ORGANIZATION IS SEQUENTIAL ACCESS MODE IS SEQUENTIAL .",
            b"15: F is E status S@22-26.",
        ),
        (
            b"SELECT F ASSIGN E ACCESS SEQUENTIAL STATUS S OF T ORGANIZATION SEQUENTIAL .",
            b"15: F is E status ST@22-25.",
        ),
        (
            b"SELECT F ASSIGN E ORGANIZATION SEQUENTIAL STATUS S . SELECT G ASSIGN H ACCESS IS SEQUENTIAL .",
            b"15: F is E status S@22-23.24: G is H.",
        ),
        (b"SELECT F ASSIGN E STATUS S STATUS S .", b"UnitShape 7:15"),
        (
            b"SELECT F ASSIGN E ACCESS SEQUENTIAL ACCESS SEQUENTIAL .",
            b"UnitShape 7:15",
        ),
        (
            b"SELECT F ASSIGN E ORGANIZATION SEQUENTIAL ORGANIZATION SEQUENTIAL .",
            b"UnitShape 7:15",
        ),
        (
            b"SELECT F ASSIGN E ORGANIZATION INDEXED .",
            b"UnitShape 7:15",
        ),
        (b"SELECT F ASSIGN E FILE .", b"UnitShape 7:15"),
        (b"SELECT F ASSIGN 5 .", b"UnitShape 7:15"),
        (b"SELECT F TO E .", b"UnitShape 7:15"),
        (b"SELECT ASSIGN E .", b"UnitShape 7:15"),
        (b"SELECT F ASSIGN E", b"UnitShape 7:15"),
    ] {
        let got = read_selects(rt.alloc(), text)?;
        assert_eq!(rt; got.items(), want);
    }
    Ok(())
}

/// What a file section reads as, of which the first word has position 13.
fn read_files(alloc: Global, text: &[u8]) -> Result<Bytes, Memory> {
    let mut words = List::new(alloc);
    push_text(
        alloc,
        &mut words,
        b"ID DIVISION . PROGRAM-ID . P . DATA DIVISION . FILE SECTION .",
    )?;
    push_text(alloc, &mut words, text)?;
    push_text(alloc, &mut words, b"PROCEDURE DIVISION . A .")?;
    let mut out = List::new(alloc);
    match read_program(alloc, &Expanded { words }, 3, FileId(1)) {
        Ok(program) => {
            for file in program.files.items() {
                show_file(alloc, file, &mut out)?;
            }
        }
        Err(fault) => show_fault(alloc, fault, &mut out)?,
    }
    Ok(out)
}

#[test]
fn fd_entries_have_record_contains_once_and_records(rt: HostRuntime) -> Result<(), Fail> {
    for (text, want) in [
        (
            b"FD F . 01 R . FD G . 01 S . 05 T .".as_slice(),
            b"13: file F.16: 1 R Display Trailing.19: file G.22: 1 S Display Trailing.25: 5 T Display Trailing.".as_slice(),
        ),
        (
            b"FD F RECORD CONTAINS 020 CHARACTERS . 01 R .",
            b"13: file F contains 20e-0 of 3@17.20: 1 R Display Trailing.",
        ),
        (
            b"FD F RECORDING MODE IS F RECORD 4294967295 . 01 R .",
            b"13: file F contains 4294967295e-0 of 10@20.22: 1 R Display Trailing.",
        ),
        (
            b"FD F LABEL RECORDS ARE STANDARD BLOCK CONTAINS 5 RECORDS DATA RECORD IS R S RECORDING F LABEL RECORD OMITTED . 01 R .",
            b"13: file F.34: 1 R Display Trailing.",
        ),
        (
            b"FD F BLOCK 5 BLOCK 6 CHARACTERS DATA RECORDS R DATA RECORD S RECORD 9 . 01 R .",
            b"13: file F contains 9e-0 of 1@27.29: 1 R Display Trailing.",
        ),
        (b"FD F RECORD 4 RECORD 4 . 01 R .", b"UnitShape 7:13"),
        (b"FD F RECORD 4294967296 . 01 R .", b"UnitShape 7:13"),
        (b"FD F RECORD +4 . 01 R .", b"UnitShape 7:13"),
        (b"FD F LABEL RECORDS . 01 R .", b"UnitShape 7:13"),
        (b"FD F LABEL STANDARD . 01 R .", b"UnitShape 7:13"),
        (b"FD F BLOCK CONTAINS RECORDS . 01 R .", b"UnitShape 7:13"),
        (b"FD F DATA RECORDS ARE . 01 R .", b"UnitShape 7:13"),
        (b"FD F RECORDING MODE V . 01 R .", b"UnitShape 7:13"),
        (b"FD . 01 R .", b"UnitShape 7:13"),
        (b"FD F . FD G . 01 R .", b"UnitShape 7:16"),
        (b"FD F .", b"UnitShape 7:16"),
        (
            b"FD F . 01 R PIC ~9Q . 05 A COMP COMP .",
            b"PictureShape 7:19",
        ),
    ] {
        let got = read_files(rt.alloc(), text)?;
        assert_eq!(rt; got.items(), want);
    }
    Ok(())
}

#[test]
fn divisions_stand_in_their_order(rt: HostRuntime) -> Result<(), Fail> {
    for (text, want) in [
        (
            b"ID DIVISION . PROGRAM-ID . P . PROCEDURE DIVISION . A .".as_slice(),
            b"P.10: A 0.".as_slice(),
        ),
        (
            b"IDENTIFICATION DIVISION . PROGRAM-ID . F . ENVIRONMENT DIVISION . DATA DIVISION . PROCEDURE DIVISION . ID SECTION . F .",
            b"F.16: ID section 0.19: F 0.",
        ),
        (
            b"ID DIVISION . PROGRAM-ID . P . ENVIRONMENT DIVISION . CONFIGURATION SECTION . SOURCE-COMPUTER . PC . OBJECT-COMPUTER . PC . INPUT-OUTPUT SECTION . FILE-CONTROL . PROCEDURE DIVISION . A .",
            b"P.29: A 0.",
        ),
        (
            b"ID DIVISION . PROGRAM-ID . P . ENVIRONMENT DIVISION . CONFIGURATION SECTION . OBJECT-COMPUTER . PC . DATA DIVISION . FILE SECTION . WORKING-STORAGE SECTION . PROCEDURE DIVISION . A .",
            b"P.29: A 0.",
        ),
        (b"PROGRAM-ID . P .", b"UnitShape 7:0"),
        (b"ID DIVISION PROGRAM-ID . P .", b"UnitShape 7:0"),
        (b"ID DIVISION . P .", b"UnitShape 7:3"),
        (b"ID DIVISION . PROGRAM-ID P .", b"UnitShape 7:3"),
        (b"ID DIVISION . PROGRAM-ID . DATA .", b"UnitShape 7:5"),
        (b"ID DIVISION . PROGRAM-ID . P . A .", b"UnitShape 7:7"),
        (
            b"ID DIVISION . PROGRAM-ID . P . DATA DIVISION . ENVIRONMENT DIVISION . PROCEDURE DIVISION . A .",
            b"UnitShape 7:10",
        ),
        (
            b"ID DIVISION . PROGRAM-ID . P . ENVIRONMENT DIVISION . INPUT-OUTPUT SECTION . PROCEDURE DIVISION . A .",
            b"UnitShape 7:13",
        ),
        (
            b"ID DIVISION . PROGRAM-ID . P . ENVIRONMENT DIVISION . SOURCE-COMPUTER . PC . PROCEDURE DIVISION . A .",
            b"UnitShape 7:10",
        ),
        (
            b"ID DIVISION . PROGRAM-ID . P . ENVIRONMENT DIVISION . CONFIGURATION SECTION . SOURCE-COMPUTER . PROCEDURE DIVISION . A .",
            b"UnitShape 7:15",
        ),
        (
            b"ID DIVISION . PROGRAM-ID . P . DATA DIVISION . WORKING-STORAGE SECTION . FILE SECTION . PROCEDURE DIVISION . A .",
            b"UnitShape 7:13",
        ),
        (
            b"ID DIVISION . PROGRAM-ID . P . WORKING-STORAGE SECTION . PROCEDURE DIVISION . A .",
            b"UnitShape 7:7",
        ),
        (
            b"ID DIVISION . PROGRAM-ID . P . PROCEDURE DIVISION .",
            b"UnitShape 7:9",
        ),
        (b"ID DIVISION . PROGRAM-ID . P .", b"UnitShape 7:6"),
        (
            b"ID DIVISION . PROGRAM-ID . P . PROCEDURE DIVISION . A",
            b"UnitShape 7:10",
        ),
        (
            b"ID DIVISION . PROGRAM-ID . P . PROCEDURE DIVISION . A . B C",
            b"UnitShape 7:13",
        ),
        (
            b"ID DIVISION . PROGRAM-ID . P . PROCEDURE DIVISION . A SECTION B .",
            b"UnitShape 7:10",
        ),
        (
            b"ID DIVISION . PROGRAM-ID . P . PROCEDURE DIVISION . A B .",
            b"UnitShape 7:10",
        ),
    ] {
        let got = read_text(rt.alloc(), text)?;
        assert_eq!(rt; got.items(), want);
    }
    let empty = read(rt.alloc(), List::new(rt.alloc()))?;
    assert_eq!(rt; empty.items(), b"UnitShape 1:1".as_slice());
    Ok(())
}

/// The words of a program whose last sentence is STOP RUN, cut after this many words.
fn read_cut(alloc: Global, count: usize) -> Result<Bytes, Memory> {
    let mut words = List::new(alloc);
    push_text(
        alloc,
        &mut words,
        b"ID DIVISION . PROGRAM-ID . P . DATA DIVISION . WORKING-STORAGE SECTION . 01 D PIC ~9(6) . 01 YY PIC ~9(2) .",
    )?;
    push_text(
        alloc,
        &mut words,
        b"PROCEDURE DIVISION . MAIN-PARA . MOVE ZERO TO D . MOVE 5 TO YY . STOP RUN .",
    )?;
    let mut cut = List::new(alloc);
    for word in words.items() {
        if cut.len() < count {
            cut.push(word.twin(alloc)?)?;
        }
    }
    read(alloc, cut)
}

#[test]
fn a_program_cut_after_each_word_is_read_or_refused_at_its_last_word(
    rt: HostRuntime,
) -> Result<(), Fail> {
    for count in 0..42usize {
        let got = read_cut(rt.alloc(), count)?;
        let whole = match count {
            28 =>
                b"P.13: 1 D pic 96@16 Display Trailing.18: 1 YY pic 92@21 Display Trailing.26: MAIN-PARA 0.".as_slice(),
            33 =>
                b"P.13: 1 D pic 96@16 Display Trailing.18: 1 YY pic 92@21 Display Trailing.26: MAIN-PARA 1.",
            38 =>
                b"P.13: 1 D pic 96@16 Display Trailing.18: 1 YY pic 92@21 Display Trailing.26: MAIN-PARA 2.",
            41 =>
                b"P.13: 1 D pic 96@16 Display Trailing.18: 1 YY pic 92@21 Display Trailing.26: MAIN-PARA 3.",
            _ => b"",
        };
        if !whole.is_empty() {
            assert_eq!(rt; got.items(), whole);
        } else if count == 0 {
            assert_eq!(rt; got.items(), b"UnitShape 1:1".as_slice());
        } else {
            let last = count - 1;
            let want = format!(in rt.alloc(); "UnitShape 7:{last}")?;
            assert_eq!(rt; got.items(), want.as_bytes());
        }
    }
    Ok(())
}

#[test]
fn sentences_stand_in_paragraphs_and_sections(rt: HostRuntime) -> Result<(), Fail> {
    for (text, want) in [
        (
            b"STOP RUN . A . STOP RUN . STOP RUN . B SECTION . C .".as_slice(),
            b"P.10:  1.13: A 2.21: B section 0.24: C 0.".as_slice(),
        ),
        (b"B SECTION . STOP RUN .", b"P.10: B section 1."),
        (b"A . CALL \"X . STOP RUN .", b"UnitShape 7:12"),
        (b"CALL \"X .", b"UnitShape 7:10"),
        (b"STOP RUN . A . STOP", b"UnitShape 7:15"),
        (b"IF A = 1 STOP", b"UnitShape 7:14"),
    ] {
        let mut words = List::new(rt.alloc());
        push_text(
            rt.alloc(),
            &mut words,
            b"ID DIVISION . PROGRAM-ID . P . PROCEDURE DIVISION .",
        )?;
        push_text(rt.alloc(), &mut words, text)?;
        let got = read(rt.alloc(), words)?;
        assert_eq!(rt; got.items(), want);
    }
    for (count, want) in [(64, b"P.10:  1.".as_slice()), (65, b"NestDeep 7:10")] {
        let mut words = List::new(rt.alloc());
        push_text(
            rt.alloc(),
            &mut words,
            b"ID DIVISION . PROGRAM-ID . P . PROCEDURE DIVISION .",
        )?;
        for _ in 0..count {
            push_text(rt.alloc(), &mut words, b"IF A = 1")?;
        }
        push_text(rt.alloc(), &mut words, b"STOP RUN .")?;
        let got = read(rt.alloc(), words)?;
        assert_eq!(rt; got.items(), want);
    }
    Ok(())
}

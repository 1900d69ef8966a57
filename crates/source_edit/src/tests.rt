use super::*;
use copy_origins::{Book, Books, expand};
use fixed_format::read_lines;
use std::alloc::Global;
use std::test::Fail;
use y2k_base::{
    Bytes, Edit, Edits, FileId, List, Memory, Origin, Text, TextRole, Texts, Twin, Word, WordKind,
};

/// The kind of a word of these tests, by its first character. A tilde stands before a PICTURE word.
fn kind_of(first: u8) -> WordKind {
    match first {
        b'\'' => WordKind::Literal,
        b'0'..=b'9' => WordKind::Number,
        b'~' => WordKind::Picture,
        b'A'..=b'Z' => WordKind::Name,
        _ => WordKind::Mark,
    }
}

/// A word as it is spelled here: a literal stands behind an apostrophe, with an underscore for each blank.
fn word(alloc: Global, spelled: &[u8], origin: Origin) -> Result<Word, Memory> {
    let mut text = List::new(alloc);
    let mut kind = WordKind::Name;
    for i in 0..spelled.len() {
        let byte = spelled[i];
        if i == 0 {
            kind = kind_of(byte);
        }
        if byte == b'_' {
            text.push(b' ')?;
        } else if byte != b'\'' && byte != b'~' {
            text.push(byte)?;
        }
    }
    Ok(Word { text, kind, origin })
}

fn words(alloc: Global, spelled: &[u8], origin: Origin) -> Result<List<Word>, Memory> {
    let mut list = List::new(alloc);
    for part in spelled.split(|byte| *byte == b' ') {
        if !part.is_empty() {
            list.push(word(alloc, part, origin)?)?;
        }
    }
    Ok(list)
}

fn bytes(alloc: Global, text: &[u8]) -> Result<Bytes, Memory> {
    let mut bytes = List::new(alloc);
    bytes.append(text)?;
    Ok(bytes)
}

/// Texts: those with a key are copybooks.
fn texts(alloc: Global, given: &[(&[u8], &[u8])]) -> Result<Texts, Memory> {
    let mut list = List::new(alloc);
    for (key, text) in given {
        let role = if key.is_empty() {
            TextRole::Program
        } else {
            TextRole::Book
        };
        list.push(Text {
            name: bytes(alloc, b"N")?,
            key: bytes(alloc, key)?,
            role,
            bytes: bytes(alloc, text)?,
        })?;
    }
    Ok(Texts { list })
}

fn words_in(alloc: Global, text: &Text, file: u32) -> Result<List<Word>, Memory> {
    let mut list = List::new(alloc);
    if let Ok(lines) = read_lines(alloc, text.bytes.items(), FileId(file)) {
        for word in lines.words() {
            list.push(word.twin(alloc)?)?;
        }
    }
    Ok(list)
}

/// The expanded words of a program, by its number.
fn expanded(alloc: Global, texts: &Texts, program: u32) -> Result<List<Word>, Memory> {
    let mut books = Books {
        list: List::new(alloc),
    };
    let mut file = 0u32;
    let mut number = 0u32;
    for text in texts.list.items() {
        let read = words_in(alloc, text, file)?;
        if text.role == TextRole::Book {
            books.list.push(Book {
                key: text.key.twin(alloc)?,
                words: read,
            })?;
        } else if number == program {
            return match expand(alloc, read.items(), &books) {
                Ok(expanded) => Ok(expanded.words),
                Err(_) => Err(Memory),
            };
        } else {
            number = number.saturating_add(1);
        }
        file = file.saturating_add(1);
    }
    Err(Memory)
}

/// The edits of words of programs, each given by its text and how many equal ones stand before it.
fn edits(
    alloc: Global,
    texts: &Texts,
    given: &[(u32, &[u8], u32, &[u8])],
) -> Result<Edits, Memory> {
    let mut list = List::new(alloc);
    for (program, old, skipped, new) in given {
        let words_there = expanded(alloc, texts, *program)?;
        let mut position = 0u32;
        let mut left = *skipped;
        for old_word in words_there.items() {
            if old_word.text.items() == *old {
                if left == 0 {
                    list.push(Edit {
                        program: *program,
                        position,
                        at: old_word.origin,
                        words: words(alloc, new, old_word.origin)?,
                    })?;
                    break;
                }
                left -= 1;
            }
            position = position.saturating_add(1);
        }
    }
    Ok(Edits { list })
}

/// The last text, edited.
fn edited_last(
    alloc: Global,
    given: &[(&[u8], &[u8])],
    changes: &[(u32, &[u8], u32, &[u8])],
) -> Result<Bytes, EditFault> {
    let texts = texts(alloc, given)?;
    let edits = edits(alloc, &texts, changes)?;
    let new = apply(alloc, &texts, &edits)?;
    match new.list.items() {
        [.., last] => Ok(bytes(alloc, last.bytes.items())?),
        [] => Err(EditFault::Memory),
    }
}

#[test]
fn edited_lines_are_laid_anew_and_others_stay(rt: HostRuntime) -> Result<(), Fail> {
    let alloc = rt.alloc();
    for (text, old, new, wanted) in [
        (
            b"000100     MOVE ZERO TO D.                                              ID000001\n000200* A comment\n           move 5 to yy.\n".as_slice(),
            b"ZERO".as_slice(),
            b"19000000".as_slice(),
            b"000100     MOVE 19000000 TO D.                                          ID000001\n000200* A comment\n           move 5 to yy.\n".as_slice(),
        ),
        (
            b"       01 D PIC    9(6).\r\n       01 E PIC X.\r\n",
            b"9(6)",
            b"~9(8)",
            b"       01 D PIC    9(8).\r\n       01 E PIC X.\r\n",
        ),
        (
            b"           MOVE A TO B",
            b"B",
            b"C",
            b"           MOVE A TO C",
        ),
        (
            b"           MOVE A TO B",
            b"MOVE",
            b"MOVE 19000000 TO ABCDEFGHIJKLMNOPQRSTUV MOVE",
            b"           MOVE 19000000 TO ABCDEFGHIJKLMNOPQRSTUV MOVE A TO B",
        ),
        (
            b"           A = B OR C.\n           X.",
            b"A",
            b"",
            b"           = B OR C.\n           X.",
        ),
        (b"           A\n           X.", b"A", b"", b"           X."),
        (b"           A =B.\n", b"B", b"C", b"           A = C.\n"),
        (
            b"           IF (A = B) MOVE A (1:2) TO C.\n",
            b"2",
            b"3",
            b"           IF (A = B) MOVE A (1:3) TO C.\n",
        ),
        (
            b"           MOVE A TO B , X.\n",
            b"X",
            b"",
            b"           MOVE A TO B.\n",
        ),
        (
            b"           MOVE A TO X,\n           B.\n",
            b"X",
            b"Y",
            b"           MOVE A TO Y\n           B.\n",
        ),
        (
            b"           MOVE A-LONG-WORD-OF-MANY-CHARS TO ANOTHER-LONG-WORD-OF-M\n      * In between\n      -    ANY D.\n",
            b"MOVE",
            b"ADD",
            b"           ADD A-LONG-WORD-OF-MANY-CHARS TO ANOTHER-LONG-WORD-OF-MANY D.\n      * In between\n",
        ),
        (
            b"           MOVE A TO C.                                                 X\n",
            b"A",
            b"'ABCDEFGHIJKLMNOPQRSTUVWXYZABCDEFGHIJKLMNOPQRSTUVWXYZABCDEFGHIJKLMNOPQRSTUVWXYZ",
            b"           MOVE \"ABCDEFGHIJKLMNOPQRSTUVWXYZABCDEFGHIJKLMNOPQRSTUVWXYZABCX\n      -    \"DEFGHIJKLMNOPQRSTUVWXYZ\" TO C.\n",
        ),
    ] {
        let shown = edited_last(alloc, &[(b"", text)], &[(0, old, 0, new)])?;
        assert_eq!(rt; shown.items(), wanted);
    }
    Ok(())
}

/// The place and the words of the clash of edits, or of none.
fn clash(
    alloc: Global,
    given: &[(&[u8], &[u8])],
    changes: &[(u32, &[u8], u32, &[u8])],
) -> Result<Bytes, Memory> {
    let texts = texts(alloc, given)?;
    let edits = edits(alloc, &texts, changes)?;
    let done = apply(alloc, &texts, &edits);
    match &done {
        Ok(_) => bytes(alloc, b"none"),
        Err(EditFault::Memory) => Err(Memory),
        Err(EditFault::CopyClash { at, first, second }) => Ok(List::from_vec(format!(in alloc;
            "{}:{}:{} {} {}",
            at.file.0,
            at.line,
            at.column,
            shown(first.items()),
            shown(second.items())
        )?
        .into_bytes())),
    }
}

fn shown(bytes: &[u8]) -> &str {
    match std::str::from_utf8(bytes) {
        Ok(text) => text,
        Err(_) => "?",
    }
}

const BOOK: &[u8] = b"           05 W-DATE PIC 9(6).\n";

const PLAIN: &[u8] = b"       01 R. COPY W.\n           STOP RUN.\n";

const OTHER: &[u8] = b"       01 R.\n           COPY W REPLACING ==PIC 9(8)== BY ==PIC X(8)==.\n";

#[test]
fn clashes_of_edits_come_before_those_of_programs(rt: HostRuntime) -> Result<(), Fail> {
    let alloc = rt.alloc();
    let two = [(b"W".as_slice(), BOOK), (b"", PLAIN), (b"", PLAIN)];
    let other = [(b"W".as_slice(), BOOK), (b"", PLAIN), (b"", OTHER)];
    for (given, changes, wanted) in [
        (
            two.as_slice(),
            [
                (0u32, b"9(6)".as_slice(), 0u32, b"~9(8)".as_slice()),
                (1, b"9(6)", 0, b"~9(8)"),
            ],
            b"none".as_slice(),
        ),
        (
            two.as_slice(),
            [(0, b"9(6)", 0, b"~9(8)"), (1, b"9(6)", 0, b"~9(8) VALUE 0")],
            b"0:1:26  VALUE",
        ),
        (
            other.as_slice(),
            [(0, b"9(6)", 0, b"~9(8)"), (1, b"9(6)", 0, b"~9(8)")],
            b"0:1:26 9(8) X(8)",
        ),
        (
            two.as_slice(),
            [(0, b"9(6)", 0, b"~9(8)"), (0, b"STOP", 0, b"STOP")],
            b"0:1:26 9(6) 9(8)",
        ),
        (
            two.as_slice(),
            [(0, b"STOP", 0, b"GO"), (0, b"W-DATE", 0, b"COPY Q .")],
            b"1:1:8 01 ",
        ),
    ] {
        let shown = clash(alloc, given, &changes)?;
        assert_eq!(rt; shown.items(), wanted);
    }
    Ok(())
}

#[test]
fn words_are_laid_where_their_lines_have_room(rt: HostRuntime) -> Result<(), Fail> {
    let alloc = rt.alloc();
    for (text, old, new, wanted) in [
        (
            b"           MOVE \"58XXXXXXXXXXXXXXXXXXXXXXXXXXXXXXXXXXXXXXXXXXXXXXXXXX\"\"\"\n           TO D.\n".as_slice(),
            b"58XXXXXXXXXXXXXXXXXXXXXXXXXXXXXXXXXXXXXXXXXXXXXXXXXX\"".as_slice(),
            b"'1958XXXXXXXXXXXXXXXXXXXXXXXXXXXXXXXXXXXXXXXXXXXXXXXXXX\"".as_slice(),
            b"           MOVE\n           \"1958XXXXXXXXXXXXXXXXXXXXXXXXXXXXXXXXXXXXXXXXXXXXXXXXXX\"\"\"\n           TO D.\n".as_slice(),
        ),
        (
            b"           IF A =\n      -    B OR C MOVE A TO B.\n",
            b"A",
            b"D",
            b"           IF D =\n      -    B OR C MOVE A TO B.\n",
        ),
        (
            b"       01 A PIC ZZ\n      -    ,ZZ9.\n",
            b"ZZ,ZZ9",
            b"~9(8)",
            b"       01 A PIC 9(8).\n",
        ),
        (
            b"           A B\n      -    , C.\n",
            b"A",
            b"D",
            b"           D B\n      -    , C.\n",
        ),
        (
            b"       PROCEDURE DIVISION.\n",
            b"PROCEDURE",
            b"01 Y2K-DATE PIC ~9(6) . PROCEDURE",
            b"       01 Y2K-DATE PIC 9(6).\n       PROCEDURE DIVISION.\n",
        ),
        (
            b"000100                                                               A. X\n",
            b"A",
            b"LONGNAME",
            b"000100     LONGNAME.                                                    X\n",
        ),
    ] {
        let shown = edited_last(alloc, &[(b"", text)], &[(0, old, 0, new)])?;
        assert_eq!(rt; shown.items(), wanted);
    }
    Ok(())
}

#[test]
fn words_of_a_replacement_are_edited_in_its_statement(rt: HostRuntime) -> Result<(), Fail> {
    let alloc = rt.alloc();
    let text = b"           COPY W REPLACING ==PIC 9(6)== BY ==PIC 9(4)==.\n";
    let shown = edited_last(
        alloc,
        &[(b"W".as_slice(), BOOK), (b"", text)],
        &[(0, b"9(4)", 0, b"~9(5)")],
    )?;
    let wanted = b"           COPY W REPLACING ==PIC 9(6)== BY ==PIC 9(5) ==.\n";
    assert_eq!(rt; shown.items(), wanted.as_slice());
    Ok(())
}

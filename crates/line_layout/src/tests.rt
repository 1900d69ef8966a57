use super::*;
use std::alloc::Global;
use std::test::Fail;
use y2k_base::{Bytes, FileId, List, Memory, Origin, Word, WordKind};

fn kind_of(first: u8) -> WordKind {
    match first {
        b'"' => WordKind::Literal,
        b'.' | b':' | b'(' | b')' => WordKind::Mark,
        b'0'..=b'9' => WordKind::Number,
        _ => WordKind::Name,
    }
}

/// A word; a literal is given with a mark before it, and `_` stands for a blank in it.
fn word(alloc: Global, spelled: &[u8]) -> Result<Word, Memory> {
    let mut text = List::new(alloc);
    let mut kind = WordKind::Name;
    for i in 0..spelled.len() {
        let b = spelled[i];
        if i == 0 {
            kind = kind_of(b);
        }
        if i > 0 || b != b'"' {
            text.push(b)?;
        }
    }
    let origin = Origin {
        file: FileId(0),
        line: 1,
        column: 8,
    };
    Ok(Word { text, kind, origin })
}

/// The laid lines, each with `|` after it.
fn shown(alloc: Global, text: &[u8], column: u32) -> Result<Bytes, LayFault> {
    let mut words = List::new(alloc);
    for spelled in text.split(|b| *b == b' ') {
        words.push(word(alloc, spelled)?)?;
    }
    let mut shown = List::new(alloc);
    if column < 8 || column > 72 {
        return Ok(shown);
    }
    let laid = lay(alloc, words.items(), column)?;
    for line in laid.lines.items() {
        shown.append(line.items())?;
        shown.push(b'|')?;
    }
    Ok(shown)
}

#[test]
fn words_stand_one_blank_apart_and_lines_begin_at_columns_8_and_12(
    rt: HostRuntime,
) -> Result<(), Fail> {
    let alloc = rt.alloc();
    for (text, column, wanted) in [
        (b"AB".as_slice(), 72, b"|     AB|".as_slice()),
        (b"AB", 71, b"AB|"),
        (b"A BC", 70, b"A|     BC|"),
        (b"MOVE A ( 1 : 2 ) TO B .", 12, b"MOVE A (1:2) TO B.|"),
        (b"A . PROCEDURE DIVISION .", 12, b"A.| PROCEDURE DIVISION.|"),
        (
            b"A . WORKING-STORAGE SECTION .",
            12,
            b"A.| WORKING-STORAGE SECTION.|",
        ),
        (b"PROCEDURE", 12, b"PROCEDURE|"),
        (b"A . 01 Y2K-A . 01 B .", 12, b"A.| 01 Y2K-A. 01 B.|"),
        (b"AUTHOR A", 8, b"    AUTHOR A|"),
        (b"AUTHOR A", 20, b"AUTHOR A|"),
    ] {
        let lines = shown(alloc, text, column)?;
        assert_eq!(rt; lines.items(), wanted);
    }
    Ok(())
}

#[test]
fn literals_go_on_after_a_mark_and_no_doubled_mark_is_parted(rt: HostRuntime) -> Result<(), Fail> {
    let alloc = rt.alloc();
    for (text, column, wanted) in [
        (
            b"\"ABCDEFGHIJKLMNOPQRST".as_slice(),
            60,
            b"\"ABCDEFGHIJKL|-    \"MNOPQRST\"|".as_slice(),
        ),
        (b"\"A\"B", 70, b"|     \"A\"\"B\"|"),
        (b"\"AB", 70, b"\"AB|-    \"\"|"),
        (
            b"\"58XXXXXXXXXXXXXXXXXXXXXXXXXXXXXXXXXXXXXXXXXXXXXXXXXXXXXXXXX\"",
            72,
            b"\"|-     \"58XXXXXXXXXXXXXXXXXXXXXXXXXXXXXXXXXXXXXXXXXXXXXXXXXXXXXXXXX|-    \"\"\"\"|",
        ),
        (
            b"AAAAAAAAAAAAAAAAAAAAAAAAAAAAAA BBBBBBBBBBBBBBBBBBBBBBBBBBBBB \"XXXXXXXXXXXXXXXXXXXXXXXXXXXXXXXXXXXXXXXXXXXXXXXXXXXXXXXXXXX\"",
            12,
            b"AAAAAAAAAAAAAAAAAAAAAAAAAAAAAA BBBBBBBBBBBBBBBBBBBBBBBBBBBBB|      \"XXXXXXXXXXXXXXXXXXXXXXXXXXXXXXXXXXXXXXXXXXXXXXXXXXXXXXXXXXX|-    \"\"\"\"|",
        ),
    ] {
        let lines = shown(alloc, text, column)?;
        assert_eq!(rt; lines.items(), wanted);
    }
    Ok(())
}

/// One literal of so many quotation marks.
fn marks(alloc: Global, count: u32) -> Result<List<Word>, Memory> {
    let mut literal = word(alloc, b"\"")?;
    for _ in 0..count {
        literal.text.push(b'"')?;
    }
    let mut words = List::new(alloc);
    words.push(literal)?;
    Ok(words)
}

#[test]
fn a_literal_of_161_characters_is_named(rt: HostRuntime) -> Result<(), Fail> {
    let alloc = rt.alloc();
    let at = Origin {
        file: FileId(0),
        line: 1,
        column: 8,
    };
    let full = marks(alloc, 161)?;
    match lay(alloc, full.items(), 12) {
        Err(fault) => assert_eq!(rt; fault, LayFault::LiteralFull(at)),
        Ok(_) => assert!(rt; false),
    }
    let fits = marks(alloc, 160)?;
    let laid = lay(alloc, fits.items(), 12)?;
    assert_eq!(rt; laid.lines.len(), 6);
    Ok(())
}

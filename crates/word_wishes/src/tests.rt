ghost use Rattle.std.specs.Prelude.{◌≤◌};

use crate::chosen::chosen_edits;
use crate::grown::new_number;
use crate::positions::{Sought, length_behind, position_from, start_before};
use cobol_syntax::Program;
use std::alloc::Global;
use std::test::Fail;
use window_modes::YearMode;
use y2k_base::{
    AreaId, BytePlace, Bytes, Edit, FileId, List, Memory, Origin, Span, Word, WordKind,
};
use year_index::YearIndex;
use year_pairs::{Year, YearKind};

fn bytes_of(alloc: Global, text: &str) -> Result<Bytes, Memory> {
    let mut bytes = List::new(alloc);
    bytes.append(text.as_bytes())?;
    Ok(bytes)
}

fn word_of(alloc: Global, kind: WordKind, text: &str, column: u32) -> Result<Word, Memory> {
    Ok(Word {
        text: bytes_of(alloc, text)?,
        kind,
        origin: Origin {
            file: FileId(0),
            line: 1,
            column,
        },
    })
}

fn kind_of(text: &str) -> WordKind {
    match text {
        "(" | ")" | ":" => WordKind::Mark,
        _ => WordKind::Name,
    }
}

/// Marks and names, each in the column of its position.
fn words_of(alloc: Global, texts: &[&str]) -> Result<List<Word>, Memory> {
    let mut words = List::new(alloc);
    let mut column = 0u32;
    for text in texts {
        words.push(word_of(alloc, kind_of(text), text, column)?)?;
        column = column.saturating_add(1);
    }
    Ok(words)
}

/// The program of the words A, B and C.
fn programs_of(alloc: Global) -> Result<List<Program>, Memory> {
    let mut programs = List::new(alloc);
    programs.push(Program {
        id: bytes_of(alloc, "P")?,
        words: words_of(alloc, &["A", "B", "C"])?,
        selects: List::new(alloc),
        files: List::new(alloc),
        storage: List::new(alloc),
        paragraphs: List::new(alloc),
    })?;
    Ok(programs)
}

/// A wish for a word in place of the one at a position.
fn wish_of(alloc: Global, position: u32, text: &str) -> Result<Edit, Memory> {
    let word = word_of(alloc, WordKind::Name, text, position)?;
    let at = word.origin;
    let mut words = List::new(alloc);
    words.push(word)?;
    Ok(Edit {
        program: 0,
        position,
        at,
        words,
    })
}

fn wishes_of(alloc: Global, wanted: &[(u32, &str)]) -> Result<List<Edit>, Memory> {
    let mut wishes = List::new(alloc);
    for index in 0..wanted.len() {
        let (position, text) = wanted[index];
        wishes.push(wish_of(alloc, position, text)?)?;
    }
    Ok(wishes)
}

/// Adds the position of an edit with its words.
fn add_edit(alloc: Global, into: &mut Bytes, edit: &Edit) -> Result<(), Memory> {
    let position = edit.position.to_string(alloc)?;
    into.append(position.as_bytes())?;
    for word in edit.words.items() {
        into.append(word.text.items())?;
    }
    Ok(())
}

/// The positions of edits with their words.
fn text_of(alloc: Global, edits: &[Edit]) -> Result<Bytes, Memory> {
    let mut text = List::new(alloc);
    for edit in edits {
        add_edit(alloc, &mut text, edit)?;
    }
    Ok(text)
}

/// The edits that wishes come to.
fn chosen(alloc: Global, programs: &[Program], wanted: &[(u32, &str)]) -> Result<Bytes, Memory> {
    let wishes = wishes_of(alloc, wanted)?;
    let edits = chosen_edits(alloc, programs, wishes)?;
    let text = text_of(alloc, edits.items())?;
    Ok(text)
}

#[test]
fn wishes_for_a_word_come_to_edits(rt: HostRuntime) -> Result<(), Fail> {
    let alloc = rt.alloc();
    let programs = programs_of(alloc)?;
    let cases: [(&[(u32, &str)], &str); 5] = [
        (&[(1, "B"), (1, "B")], ""),
        (&[(2, "Y"), (0, "X"), (2, "Y")], "0X2Y"),
        (&[(1, "X"), (1, "B"), (1, "X")], "1X1B"),
        (&[(1, "B"), (2, "C"), (1, "X")], "1B1X"),
        (&[], ""),
    ];
    for (wanted, text) in cases {
        let got = chosen(alloc, programs.items(), wanted)?;
        assert!(rt; got.items() == text.as_bytes(), "{text}");
    }
    Ok(())
}

/// Whether the colon there has this length behind it.
fn is_colon(words: &[Word], colon: u32, length: Option<u32>) -> Result<bool, Memory> {
    let behind = length_behind(words, colon)?;
    Ok(behind == length && start_before(colon) == colon.checked_sub(1))
}

/// Whether the first colon from a position on is there, with this length behind it.
fn is_reference(
    words: &[Word],
    at: u32,
    colon: Option<u32>,
    length: Option<u32>,
) -> Result<bool, Memory> {
    match position_from(words, at, Sought::Colon)? {
        None => Ok(colon.is_none()),
        Some(found) => {
            let with_length = is_colon(words, found, length)?;
            Ok(colon == Some(found) && with_length)
        }
    }
}

#[test]
fn the_numbers_of_a_reference_stand_round_its_colon(rt: HostRuntime) -> Result<(), Fail> {
    let alloc = rt.alloc();
    let words = words_of(
        alloc,
        &[
            "D", "(", "1", ")", "(", "3", ":", "2", ")", "E", "(", "5", ":", ")",
        ],
    )?;
    let cases: [(u32, Option<u32>, Option<u32>); 4] = [
        (0, Some(6), Some(7)),
        (6, Some(6), Some(7)),
        (9, Some(12), None),
        (13, None, None),
    ];
    for (at, colon, length) in cases {
        assert!(rt; is_reference(words.items(), at, colon, length)?);
    }
    let picture = position_from(words.items(), 0, Sought::Picture)?;
    assert!(rt; picture == None);
    assert!(rt; start_before(0) == None);
    Ok(())
}

/// The index of one year.
fn index_of(alloc: Global, year: Year, pivot: Option<u8>) -> Result<YearIndex, Memory>
    requires { year.place.offset ≤ 65535 }
{
    let mut modes = List::new(alloc);
    modes.push(YearMode {
        year,
        pivot,
        clash: false,
    })?;
    Ok(YearIndex::new(modes))
}

/// The new length of a span, and so many more; nothing where it doesn't get longer.
fn length_text(alloc: Global, index: &YearIndex, span: Span, more: u64) -> Result<Bytes, Memory> {
    match new_number(alloc, index, span, more)? {
        None => Ok(List::new(alloc)),
        Some(number) => Ok(number),
    }
}

#[test]
fn spans_with_a_year_get_longer(rt: HostRuntime) -> Result<(), Fail> {
    let alloc = rt.alloc();
    let packed = YearKind::Packed { digits: 5, unit: 3 };
    let area = AreaId(1);
    let place = BytePlace { area, offset: 4 };
    let cases: [(YearKind, Option<u8>, u32, u32, u64, &str); 6] = [
        (YearKind::Pair, None, 4, 6, 0, "8"),
        (YearKind::Pair, None, 0, 6, 1, "9"),
        (YearKind::Pair, None, 0, 4, 1, ""),
        (YearKind::Pair, None, 6, 4, 0, ""),
        (packed, None, 0, 8, 0, "9"),
        (YearKind::Pair, Some(50), 4, 6, 0, ""),
    ];
    for (kind, pivot, offset, length, more, text) in cases {
        let index = index_of(alloc, Year { place, kind }, pivot)?;
        let span = Span {
            area,
            offset,
            length,
        };
        let got = length_text(alloc, &index, span, more)?;
        assert!(rt; got.items() == text.as_bytes(), "{text}");
    }
    Ok(())
}

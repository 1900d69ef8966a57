use crate::{is_digits_literal, is_in_window, lead_year, window_of, window_part};
use cobol_syntax::Usage;
use date_uses::{Used, UsedPlace};
use date_views::{Field, Side};
use decimal_bytes::{NumForm, Scaled, SignPlace};
use operand_kinds::Kind;
use std::alloc::Global;
use std::test::Fail;
use window_modes::YearMode;
use y2k_base::{AreaId, BytePlace, FileId, List, Memory, Origin, Span, Word, WordKind};
use year_index::YearIndex;
use year_labels::View;
use year_pairs::{Year, YearKind};

/// A packed year of four bytes.
const RUN: YearKind = YearKind::Packed { digits: 6, unit: 4 };

/// A year at the front of an area, and another year that begins so many bytes behind it, with their pivots.
fn index_of(
    alloc: Global,
    first: (YearKind, Option<u8>),
    gap: u8,
    second: (YearKind, Option<u8>),
) -> Result<YearIndex, Memory> {
    let area = AreaId(0);
    let front = BytePlace { area, offset: 0 };
    let behind = BytePlace {
        area,
        offset: u32::from(first.0.width()) + u32::from(gap),
    };
    let mut modes = List::new(alloc);
    modes.push(YearMode {
        year: Year {
            place: front,
            kind: first.0,
        },
        pivot: first.1,
        clash: false,
    })?;
    modes.push(YearMode {
        year: Year {
            place: behind,
            kind: second.0,
        },
        pivot: second.1,
        clash: false,
    })?;
    Ok(YearIndex::new(modes))
}

/// A number of so many digits: shown, signed, packed, or anything else than a number.
fn kind_of(letter: u8, digits: u8) -> Kind {
    let form = NumForm {
        digits,
        scale: 0,
        signed: letter == b'S',
        sign: SignPlace::Trailing,
    };
    match letter {
        b'P' => Kind::Number {
            usage: Usage::Packed,
            form,
        },
        b'9' => Kind::Number {
            usage: Usage::Display,
            form,
        },
        b'S' => Kind::Number {
            usage: Usage::Display,
            form,
        },
        b'G' => Kind::Group,
        _ => Kind::Text,
    }
}

/// A field of so many digits, or of so many bytes.
fn field_of(letter: u8, offset: u32, digits: u8) -> Field {
    let length = if letter == b'P' {
        u32::from(digits / 2) + 1
    } else {
        u32::from(digits)
    };
    let span = Span {
        area: AreaId(0),
        offset,
        length,
    };
    Field {
        kind: kind_of(letter, digits),
        span,
        digits,
        view: View::Plain,
    }
}

fn place_of(letter: u8, offset: u32, digits: u8) -> Used {
    Used::Place(UsedPlace {
        side: Some(Side::Known(field_of(letter, offset, digits))),
        item: None,
        cut: false,
        at: 0,
    })
}

#[test]
fn a_year_leads_alone(rt: HostRuntime) -> Result<(), Fail> {
    let alloc = rt.alloc();
    let pair = (YearKind::Pair, Some(50));
    let pairs = index_of(alloc, pair, 4, pair)?;
    let runs = index_of(alloc, (RUN, None), 4, pair)?;
    let later = YearKind::Packed { digits: 6, unit: 2 };
    let lower = index_of(alloc, (later, None), 4, pair)?;
    let rows = [
        (&pairs, b'9', 0, 6, Some(0)),
        (&pairs, b'X', 6, 2, Some(6)),
        (&pairs, b'X', 0, 8, None),
        (&pairs, b'X', 5, 3, None),
        (&pairs, b'X', 2, 4, None),
        (&runs, b'P', 0, 6, Some(0)),
        (&runs, b'P', 0, 7, None),
        (&runs, b'G', 0, 4, None),
        (&lower, b'P', 0, 6, None),
    ];
    for (index, letter, offset, digits, want) in rows {
        let lead = lead_year(index, &place_of(letter, offset, digits));
        let found = match lead {
            None => None,
            Some(mode) => Some(mode.year.place.offset),
        };
        assert!(rt; found == want);
    }
    Ok(())
}

#[test]
fn the_least_window_counts(rt: HostRuntime) -> Result<(), Fail> {
    let alloc = rt.alloc();
    let pair = YearKind::Pair;
    let both = index_of(alloc, (pair, Some(50)), 4, (pair, Some(60)))?;
    let second = index_of(alloc, (pair, None), 4, (pair, Some(60)))?;
    let (a, b) = (place_of(b'9', 0, 2), place_of(b'9', 6, 6));
    let rows = [(&both, 50, 50), (&second, 60, 99)];
    for (index, least, part) in rows {
        let of = match window_of(index, &b, &a) {
            None => 99,
            Some(year) => year.pivot,
        };
        let taking = match window_part(index, &a) {
            None => 99,
            Some(year) => year.pivot,
        };
        assert_eq!(rt; of, least);
        assert_eq!(rt; taking, part);
        assert!(rt; window_part(index, &b).is_none());
    }
    Ok(())
}

fn text_of(alloc: Global, text: &str) -> Result<List<u8>, Memory> {
    let mut bytes = List::new(alloc);
    bytes.append(text.as_bytes())?;
    Ok(bytes)
}

fn words_of(alloc: Global, text: &str) -> Result<List<Word>, Memory> {
    let origin = Origin {
        file: FileId(0),
        line: 1,
        column: 8,
    };
    let mut words = List::new(alloc);
    words.push(Word {
        text: text_of(alloc, text)?,
        kind: WordKind::Number,
        origin,
    })?;
    Ok(words)
}

/// A text where no number is given.
fn literal_of(alloc: Global, text: &str, number: Option<i128>) -> Result<Used, Memory> {
    match number {
        None => Ok(Used::Text {
            bytes: text_of(alloc, text)?,
            at: 0,
        }),
        Some(number) => Ok(Used::Number {
            value: Scaled { number, scale: 0 },
            digits: 6,
            at: 0,
        }),
    }
}

#[test]
fn literals_lie_in_a_window(rt: HostRuntime) -> Result<(), Fail> {
    let alloc = rt.alloc();
    let rows = [
        (b'9', 50, "500000", Some(500_000), true, true),
        (b'9', 50, "499999", Some(499_999), true, false),
        (b'9', 50, "0999999", Some(999_999), true, true),
        (b'9', 50, "1000000", Some(1_000_000), true, false),
        (b'9', 5, "50000", Some(50_000), true, true),
        (b'9', 5, "49999", Some(49_999), true, false),
        (b'9', 50, "50", None, true, true),
        (b'9', 50, "49", None, true, false),
        (b'9', 50, "9", None, true, false),
        (b'X', 5, "050101", Some(50_101), true, true),
        (b'X', 5, "5", Some(5), true, false),
        (b'9', 50, "+500000", Some(500_000), false, true),
        (b'X', 50, "58A", None, false, true),
        (b'X', 50, "", None, false, false),
    ];
    for (letter, pivot, text, number, digits, inside) in rows {
        let words = words_of(alloc, text)?;
        let literal = literal_of(alloc, text, number)?;
        let field = field_of(letter, 0, 6);
        assert!(rt; is_digits_literal(words.items(), &literal) == digits);
        assert!(rt; is_in_window(words.items(), pivot, &field, &literal)? == inside);
    }
    Ok(())
}

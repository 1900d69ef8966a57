use crate::{
    Kept, Limit, LimitKind, add_number_limit, add_place_limit, add_word_limit, first_limit,
};
use std::alloc::Global;
use std::test::Fail;
use y2k_base::{AreaId, BytePlace, FileId, List, Memory, Origin};

/// What shows a limit of a case.
#[derive(Clone, Copy)]
enum Shown {
    Place(u32, u32),
    Number(u64),
    Word(&'static str),
}

/// A limit of a case: its kind, its file, line and column, and what shows it.
type Row = (LimitKind, u32, u32, u32, Shown);

/// Each case is a list of three limits, of which the second is the first in order.
const CASES: [[Row; 3]; 8] = [
    // by kind, whatever the place
    [
        (LimitKind::AreaFull, 0, 1, 1, Shown::Number(1)),
        (LimitKind::TooManyDigits, 2, 9, 9, Shown::Number(20)),
        (LimitKind::PictureFull, 0, 1, 1, Shown::Number(31)),
    ],
    // by file, by line, by column
    [
        (LimitKind::NameTaken, 1, 1, 1, Shown::Word("Y2K-A")),
        (LimitKind::NameTaken, 0, 9, 9, Shown::Word("Y2K-B")),
        (LimitKind::NameTaken, 2, 1, 1, Shown::Word("Y2K-A")),
    ],
    [
        (LimitKind::NameTaken, 0, 8, 1, Shown::Word("Y2K-A")),
        (LimitKind::NameTaken, 0, 7, 40, Shown::Word("Y2K-B")),
        (LimitKind::NameTaken, 0, 10, 1, Shown::Word("Y2K-A")),
    ],
    [
        (LimitKind::NameTaken, 0, 7, 13, Shown::Word("Y2K-A")),
        (LimitKind::NameTaken, 0, 7, 12, Shown::Word("Y2K-B")),
        (LimitKind::NameTaken, 0, 7, 14, Shown::Word("Y2K-A")),
    ],
    // by the least place, number or word
    [
        (LimitKind::SplitYear, 0, 7, 12, Shown::Place(1, 1)),
        (LimitKind::SplitYear, 0, 7, 12, Shown::Place(0, 300)),
        (LimitKind::SplitYear, 0, 7, 12, Shown::Place(0, 301)),
    ],
    [
        (LimitKind::AreaFull, 0, 7, 12, Shown::Number(4000002)),
        (LimitKind::AreaFull, 0, 7, 12, Shown::Number(65536)),
        (LimitKind::AreaFull, 0, 7, 12, Shown::Number(65537)),
    ],
    [
        (LimitKind::BadYearLiteral, 0, 7, 12, Shown::Word("5B")),
        (LimitKind::BadYearLiteral, 0, 7, 12, Shown::Word("5A")),
        (LimitKind::BadYearLiteral, 0, 7, 12, Shown::Word("5AA")),
    ],
    // undecided sums at one place as they stand in the list
    [
        (LimitKind::Undecided, 0, 8, 12, Shown::Word("A")),
        (LimitKind::Undecided, 0, 7, 12, Shown::Word("C")),
        (LimitKind::Undecided, 0, 7, 12, Shown::Word("B")),
    ],
];

fn add(alloc: Global, limits: &mut List<Limit>, row: Row) -> Result<(), Memory> {
    let (kind, file, line, column, shown) = row;
    let at = Origin {
        file: FileId(file),
        line,
        column,
    };
    match shown {
        Shown::Place(area, offset) => {
            let area = AreaId(area);
            add_place_limit(limits, kind, at, BytePlace { area, offset })
        }
        Shown::Number(number) => add_number_limit(limits, kind, at, number),
        Shown::Word(word) => add_word_limit(alloc, limits, kind, at, word.as_bytes()),
    }
}

fn is_shown(kept: &Kept, shown: Shown) -> bool {
    match kept {
        Kept::Place(place) => match shown {
            Shown::Place(area, offset) => place.area == AreaId(area) && place.offset == offset,
            Shown::Number(_) => false,
            Shown::Word(_) => false,
        },
        Kept::Number(number) => match shown {
            Shown::Place(_, _) => false,
            Shown::Number(other) => *number == other,
            Shown::Word(_) => false,
        },
        Kept::Word(word) => match shown {
            Shown::Place(_, _) => false,
            Shown::Number(_) => false,
            Shown::Word(other) => word.items() == other.as_bytes(),
        },
        Kept::Words(_, _) => false,
    }
}

/// Whether the first of the limits of these rows is that of the second row.
fn the_second_is_first(alloc: Global, rows: &[Row; 3]) -> Result<bool, Fail> {
    let mut limits = List::new(alloc);
    for row in rows {
        add(alloc, &mut limits, *row)?;
    }
    let (kind, _, _, _, shown) = rows[1];
    match first_limit(limits) {
        None => Ok(false),
        Some(limit) => Ok(limit.kind == kind && is_shown(&limit.kept, shown)),
    }
}

#[test]
fn the_first_limit(rt: HostRuntime) -> Result<(), Fail> {
    for rows in &CASES {
        assert!(rt; the_second_is_first(rt.alloc(), rows)?);
    }
    assert!(rt; first_limit(List::new(rt.alloc())).is_none());
    Ok(())
}

ghost use Rattle.std.specs.Prelude.{◌≤◌};

use crate::add_entry_limits;
use cobol_syntax::{Entry, Program, Usage};
use data_layout::lay_out;
use decimal_bytes::SignPlace;
use picture::read_picture;
use plan_limits::{Kept, Limit, LimitKind};
use std::alloc::Global;
use std::test::Fail;
use window_modes::YearMode;
use y2k_base::{AreaId, BytePlace, Bytes, FileId, List, Memory, Origin, Word, WordKind};
use year_index::YearIndex;
use year_labels::{Fact, Label};
use year_pairs::{Year, YearKind};

/// The items of a group, from the offsets 0, 6, 11, 14, 18, 26, 42, 59 and 87 on. That of 3 bytes is packed, and that from 18
/// on is a table of two.
const PICTURES: [&str; 9] = [
    "9(6)",
    "Z9/99",
    "9(4)",
    "X(4)",
    "9(4)",
    "9(16)",
    "9(17)",
    "99/9/9/9/9/9/9/9/9/9/9/9/9/9",
    "99/9/9/9/9/9/9/9/9/9/9/9/9/9/",
];

fn bytes_of(alloc: Global, text: &[u8]) -> Result<Bytes, Memory> {
    let mut bytes = List::new(alloc);
    bytes.append(text)?;
    Ok(bytes)
}

fn entry_of(alloc: Global, number: u32, picture: &str) -> Result<Entry, Memory> {
    Ok(Entry {
        level: if number == 0 { 1 } else { 5 },
        name: None,
        redefines: None,
        occurs: if number == 5 { Some(2) } else { None },
        picture: read_picture(alloc, picture.as_bytes()).ok(),
        picture_at: 0,
        usage: if number == 3 {
            Usage::Packed
        } else {
            Usage::Display
        },
        sign: SignPlace::Trailing,
        value: None,
        ranges: List::new(alloc),
        at: number,
    })
}

fn storage_of(alloc: Global) -> Result<List<Entry>, Memory> {
    let mut storage = List::new(alloc);
    storage.push(entry_of(alloc, 0, "")?)?;
    let mut number: u32 = 1;
    for picture in PICTURES {
        storage.push(entry_of(alloc, number, picture)?)?;
        number = number.saturating_add(1);
    }
    Ok(storage)
}

/// The word of each entry on a line of its own, but that of the group in a later text.
fn words_of(alloc: Global) -> Result<List<Word>, Memory> {
    let mut words = List::new(alloc);
    for line in 0..10u32 {
        let file = FileId(if line == 0 { 1 } else { 0 });
        words.push(Word {
            text: bytes_of(alloc, b"05")?,
            kind: WordKind::Number,
            origin: Origin {
                file,
                line,
                column: 12,
            },
        })?;
    }
    Ok(words)
}

fn program_of(alloc: Global) -> Result<Program, Memory> {
    Ok(Program {
        id: bytes_of(alloc, b"ONE")?,
        words: words_of(alloc)?,
        selects: List::new(alloc),
        files: List::new(alloc),
        storage: storage_of(alloc)?,
        paragraphs: List::new(alloc),
    })
}

fn place_at(offset: u16) -> BytePlace
    ensures { result.offset ≤ 65535 }
{
    BytePlace {
        area: AreaId(0),
        offset: u32::from(offset),
    }
}

fn index_of(alloc: Global, mode: YearMode) -> Result<YearIndex, Memory>
    requires { mode.year.place.offset ≤ 65535 }
{
    let mut modes = List::new(alloc);
    modes.push(mode)?;
    Ok(YearIndex::new(modes))
}

fn mode_at(offset: u16, kind: YearKind, clash: bool) -> YearMode
    ensures { result.year.place.offset ≤ 65535 }
{
    YearMode {
        year: Year {
            place: place_at(offset),
            kind,
        },
        pivot: None,
        clash,
    }
}

fn packed(digits: u8) -> YearKind {
    YearKind::Packed { digits, unit: 2 }
}

/// The limits of the portfolio with that one year and these lone bytes.
fn limits_of(alloc: Global, mode: YearMode, lone: &[Fact]) -> Result<List<Limit>, Fail>
    requires { mode.year.place.offset ≤ 65535 }
{
    let program = program_of(alloc)?;
    let mut layouts = List::new(alloc);
    layouts.push(lay_out(alloc, &program, AreaId(0))?)?;
    let mut programs = List::new(alloc);
    programs.push(program)?;
    let index = index_of(alloc, mode)?;
    let mut limits = List::new(alloc);
    add_entry_limits(
        alloc,
        &mut limits,
        programs.items(),
        layouts.items(),
        lone,
        &index,
    )?;
    Ok(limits)
}

fn kept_of(kept: &Kept) -> u64 {
    match kept {
        Kept::Place(place) => u64::from(place.offset),
        Kept::Number(number) => *number,
        Kept::Word(_) => 0,
        Kept::Words(_, _) => 0,
    }
}

/// Whether the limits are of these kinds, on these lines, and keep these offsets or numbers.
fn are(limits: &[Limit], want: &[(LimitKind, u32, u64)]) -> bool {
    if limits.len() != want.len() {
        return false;
    }
    for i in 0..limits.len() {
        let limit = &limits[i];
        let (kind, line, kept) = want[i];
        if limit.kind != kind || limit.at.line != line || kept_of(&limit.kept) != kept {
            return false;
        }
    }
    true
}

#[test]
fn years_must_fit_the_items(rt: HostRuntime) -> Result<(), Fail> {
    let alloc = rt.alloc();
    let pair = YearKind::Pair;
    let rows: [(u16, YearKind, &[(LimitKind, u32, u64)]); 18] = [
        (0, pair, &[]),
        (4, pair, &[]),
        (16, pair, &[]),
        (
            17,
            pair,
            &[(LimitKind::SplitYear, 4, 17), (LimitKind::SplitYear, 5, 17)],
        ),
        (21, pair, &[(LimitKind::SplitYear, 5, 21)]),
        (25, pair, &[(LimitKind::SplitYear, 6, 25)]),
        (6, pair, &[(LimitKind::ShapeMix, 2, 6)]),
        (7, pair, &[(LimitKind::ShapeMix, 2, 8)]),
        (9, pair, &[]),
        (11, packed(4), &[]),
        (11, packed(5), &[(LimitKind::ShapeMix, 3, 11)]),
        (12, packed(3), &[(LimitKind::ShapeMix, 3, 12)]),
        (12, pair, &[(LimitKind::ShapeMix, 3, 12)]),
        (0, packed(4), &[(LimitKind::ShapeMix, 1, 0)]),
        (26, pair, &[]),
        (42, pair, &[(LimitKind::TooManyDigits, 7, 19)]),
        (59, pair, &[]),
        (87, pair, &[(LimitKind::PictureFull, 9, 31)]),
    ];
    for (offset, kind, want) in rows {
        let limits = limits_of(alloc, mode_at(offset, kind, false), &[])?;
        assert!(rt; are(limits.items(), want));
    }
    Ok(())
}

#[test]
fn bytes_stand_at_the_first_entry_that_covers_them(rt: HostRuntime) -> Result<(), Fail> {
    let alloc = rt.alloc();
    let clash = limits_of(alloc, mode_at(14, YearKind::Pair, true), &[])?;
    assert!(rt; are(clash.items(), &[(LimitKind::PivotClash, 4, 14)]));
    let mode = mode_at(0, YearKind::Pair, false);
    for (offset, line) in [(13, 3), (14, 4), (25, 5), (26, 6)] {
        let place = place_at(offset);
        let label = Label::Tens;
        let lone = [Fact { place, label }];
        let limits = limits_of(alloc, mode, &lone)?;
        assert!(rt;
            are(
                limits.items(),
                &[(LimitKind::SplitYear, line, u64::from(offset))]
            )
        );
    }
    Ok(())
}

ghost use Rattle.std.specs.Prelude.{◌≡◌, IfOk};
ghost use Rattle.year_index.specs.Years.{ArePlaced};

use crate::{GeneratedArea, generated_areas};
use cobol_syntax::{Register, Usage};
use date_uses::{DateUse, MoveKind, UseForm, Used, UsedPlace};
use date_views::{Field, Side};
use decimal_bytes::{NumForm, SignPlace};
use mode_links::Bridge;
use operand_kinds::Kind;
use std::alloc::Global;
use std::test::Fail;
use window_modes::YearMode;
use y2k_base::{AreaId, BytePlace, FileId, List, Memory, Origin, Span};
use year_index::YearIndex;
use year_labels::View;
use year_pairs::{Year, YearKind};

/// A use in a program of a date of six digits that is an area, or of two.
#[derive(Clone, Copy)]
enum Step {
    Accept(u32, Register),
    Move(u32, u32),
}

/// The pivots of the areas 0 and 1, which begin with a year; the uses of the program 1; and the areas that it needs.
struct Case {
    pivots: (Option<u8>, Option<u8>),
    steps: &'static [Step],
    wanted: &'static [GeneratedArea],
}

const CASES: [Case; 8] = [
    Case {
        pivots: (None, None),
        steps: &[Step::Accept(0, Register::Date)],
        wanted: &[GeneratedArea::Date, GeneratedArea::FullDate],
    },
    // a windowed year takes the date as it is
    Case {
        pivots: (Some(50), None),
        steps: &[Step::Accept(0, Register::Date)],
        wanted: &[],
    },
    // the year of YYDDD comes into other digits, and a time has none
    Case {
        pivots: (None, None),
        steps: &[
            Step::Accept(0, Register::Day),
            Step::Accept(0, Register::Time),
        ],
        wanted: &[],
    },
    Case {
        pivots: (Some(50), None),
        steps: &[Step::Move(0, 1)],
        wanted: &[GeneratedArea::Short(6), GeneratedArea::Long(6)],
    },
    Case {
        pivots: (Some(50), None),
        steps: &[Step::Move(1, 0)],
        wanted: &[GeneratedArea::Short(6)],
    },
    // years of like modes
    Case {
        pivots: (None, None),
        steps: &[Step::Move(0, 1)],
        wanted: &[],
    },
    Case {
        pivots: (Some(50), Some(50)),
        steps: &[Step::Move(0, 1)],
        wanted: &[],
    },
    Case {
        pivots: (Some(50), None),
        steps: &[
            Step::Move(0, 1),
            Step::Move(1, 0),
            Step::Accept(1, Register::Date),
        ],
        wanted: &[
            GeneratedArea::Date,
            GeneratedArea::FullDate,
            GeneratedArea::Short(6),
            GeneratedArea::Long(6),
        ],
    },
];

fn year(area: u32) -> Year
    ensures area { result.place.area.0 ≡ area }
    ensures offset { result.place.offset ≡ 0 }
{
    let area = AreaId(area);
    Year {
        place: BytePlace { area, offset: 0 },
        kind: YearKind::Pair,
    }
}

fn mode(area: u32, pivot: Option<u8>) -> YearMode
    ensures area { result.year.place.area.0 ≡ area }
    ensures offset { result.year.place.offset ≡ 0 }
{
    YearMode {
        year: year(area),
        pivot,
        clash: false,
    }
}

fn modes_of(alloc: Global, first: Option<u8>, second: Option<u8>) -> Result<List<YearMode>, Fail>
    ensures { IfOk result ArePlaced }
{
    let mut modes = List::new(alloc);
    let first = mode(0, first);
    let second = mode(1, second);
    modes.push(first)?;
    modes.push(second)?;
    Ok(modes)
}

fn powers_of(alloc: Global) -> Result<List<Option<u8>>, Memory> {
    let mut powers = List::new(alloc);
    powers.append(&[Some(5), Some(4), Some(3), Some(2), Some(1), Some(0)])?;
    Ok(powers)
}

/// The date of six digits that is the area.
fn date_of(alloc: Global, area: u32) -> Result<Used, Memory> {
    let form = NumForm {
        digits: 6,
        scale: 0,
        signed: false,
        sign: SignPlace::Trailing,
    };
    let span = Span {
        area: AreaId(area),
        offset: 0,
        length: 6,
    };
    let powers = powers_of(alloc)?;
    let usage = Usage::Display;
    let field = Field {
        kind: Kind::Number { usage, form },
        span,
        digits: 6,
        view: View::Bytes { span, powers },
    };
    Ok(Used::Place(UsedPlace {
        side: Some(Side::Known(field)),
        item: None,
        cut: false,
        at: 0,
    }))
}

fn form_of(alloc: Global, step: Step) -> Result<UseForm, Memory> {
    match step {
        Step::Accept(area, from) => {
            let to = date_of(alloc, area)?;
            Ok(UseForm::Accept { to, from })
        }
        Step::Move(from, to) => {
            let bridge = Bridge {
                sent: year(from),
                received: year(to),
            };
            Ok(UseForm::Move {
                kind: MoveKind::Statement,
                from: date_of(alloc, from)?,
                to: date_of(alloc, to)?,
                bridge: Some(bridge),
            })
        }
    }
}

fn uses_of(alloc: Global, program: u32, steps: &[Step]) -> Result<List<DateUse>, Memory> {
    let at = Origin {
        file: FileId(0),
        line: 7,
        column: 12,
    };
    let mut uses = List::new(alloc);
    for step in steps {
        let form = form_of(alloc, *step)?;
        uses.push(DateUse { program, at, form })?;
    }
    Ok(uses)
}

/// Whether the program 1 needs these areas, and the program 0 none.
fn needs(alloc: Global, case: &Case) -> Result<bool, Fail> {
    let (first, second) = case.pivots;
    let index = YearIndex::new(modes_of(alloc, first, second)?);
    let uses = uses_of(alloc, 1, case.steps)?;
    let areas = generated_areas(alloc, 1, &index, uses.items())?;
    let others = generated_areas(alloc, 0, &index, uses.items())?;
    Ok(areas.items() == case.wanted && others.is_empty())
}

#[test]
fn the_areas_that_a_program_needs(rt: HostRuntime) -> Result<(), Fail> {
    for case in &CASES {
        assert!(rt; needs(rt.alloc(), case)?);
    }
    Ok(())
}

#[test]
fn the_names_of_areas(rt: HostRuntime) -> Result<(), Fail> {
    let alloc = rt.alloc();
    let short = GeneratedArea::Short(6);
    assert!(rt; short.name(alloc)?.items() == "Y2K-SHORT-6".as_bytes() && short.digits() == 6);
    let long = GeneratedArea::Long(12);
    assert!(rt; long.name(alloc)?.items() == "Y2K-LONG-12".as_bytes() && long.digits() == 14);
    let full = GeneratedArea::FullDate;
    assert!(rt; full.name(alloc)?.items() == "Y2K-FULL-DATE".as_bytes() && full.digits() == 8);
    Ok(())
}

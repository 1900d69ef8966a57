ghost use Rattle.std.specs.Prelude.{◌≡◌, []};

use crate::full::add_own_areas;
use crate::taken::add_taken;
use data_layout::Area;
use generated_areas::GeneratedArea;
use plan_limits::{Kept, Limit};
use std::alloc::Global;
use std::test::Fail;
use y2k_base::{AreaId, FileId, List, Memory, Origin, Word, WordKind};
use year_index::YearIndex;

fn no_years(alloc: Global) -> YearIndex
    ensures { result ≡ [] }
{
    let modes = List::new(alloc);
    YearIndex::new(modes)
}

fn number_of(limit: &Limit) -> u64 {
    match &limit.kept {
        Kept::Place(_) => 0,
        Kept::Number(number) => *number,
        Kept::Word(_) => 0,
        Kept::Words(_, _) => 0,
    }
}

/// The number of the first limit of an area with which those before it have so many bytes, or 0.
fn refused_at(alloc: Global, before: u64, length: u32) -> Result<u64, Memory> {
    let index = no_years(alloc);
    let area = Area {
        id: AreaId(0),
        name: None,
        file: false,
        length,
    };
    let mut areas = List::new(alloc);
    areas.push(area)?;
    let mut limits = List::new(alloc);
    add_own_areas(&mut limits, before, &index, &[], &[], areas.items())?;
    match limits.items() {
        [] => Ok(0),
        [limit, ..] => Ok(number_of(limit)),
    }
}

#[test]
fn areas_that_are_too_long(rt: HostRuntime) -> Result<(), Fail> {
    for (before, length, number) in [
        (0, 65_535, 0),
        (0, 65_536, 65_536),
        (3_999_999, 1, 0),
        (4_000_000, 1, 4_000_001),
        (4_000_001, 1, 0),
    ] {
        assert_eq!(rt;
            refused_at(rt.alloc(), before, length)?,
            number,
            "{before} {length}"
        );
    }
    Ok(())
}

fn word_of(alloc: Global, kind: WordKind, text: &str) -> Result<Word, Memory> {
    let mut bytes = List::new(alloc);
    bytes.append(text.as_bytes())?;
    let origin = Origin {
        file: FileId(0),
        line: 7,
        column: 12,
    };
    Ok(Word {
        text: bytes,
        kind,
        origin,
    })
}

/// Whether a program with the word that needs these areas is refused for it.
fn is_refused(
    alloc: Global,
    kind: WordKind,
    text: &str,
    areas: &[GeneratedArea],
) -> Result<bool, Memory> {
    let mut words = List::new(alloc);
    words.push(word_of(alloc, kind, text)?)?;
    let mut limits = List::new(alloc);
    add_taken(alloc, &mut limits, words.items(), areas)?;
    Ok(!limits.is_empty())
}

#[test]
fn names_of_generated_areas(rt: HostRuntime) -> Result<(), Fail> {
    let alloc = rt.alloc();
    let areas = &[GeneratedArea::Date];
    assert!(rt; is_refused(alloc, WordKind::Name, "Y2K-TOTAL", areas)?);
    assert!(rt; !is_refused(alloc, WordKind::Name, "Y2KTOTAL", areas)?);
    assert!(rt; !is_refused(alloc, WordKind::Literal, "Y2K-TOTAL", areas)?);
    assert!(rt; !is_refused(alloc, WordKind::Name, "Y2K-TOTAL", &[])?);
    Ok(())
}

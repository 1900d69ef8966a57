ghost use Rattle.std.specs.Prelude.{◌≤◌};

use crate::YearIndex;
use std::alloc::Global;
use std::test::Fail;
use window_modes::YearMode;
use y2k_base::{AreaId, BytePlace, List, Memory, Span};
use year_pairs::{Year, YearKind};

/// The index of one year.
fn index_of(alloc: Global, year: Year) -> Result<YearIndex, Memory>
    requires { year.place.offset ≤ 65535 }
{
    let mut modes = List::new(alloc);
    modes.push(YearMode {
        year,
        pivot: None,
        clash: false,
    })?;
    Ok(YearIndex::new(modes))
}

/// Whether a year has the byte, whether one goes on with it, and how many have it or that behind it.
fn found(index: &YearIndex, area: u32, offset: u32) -> (bool, bool, usize) {
    let area = AreaId(area);
    let place = BytePlace { area, offset };
    let span = Span {
        area,
        offset,
        length: 2,
    };
    (
        index.year_at(place).is_some(),
        index.year_across(place).is_some(),
        index.years_in(span).len(),
    )
}

#[test]
fn a_packed_year_is_found_by_its_bytes(rt: HostRuntime) -> Result<(), Fail> {
    let kind = YearKind::Packed { digits: 5, unit: 3 };
    let place = BytePlace {
        area: AreaId(1),
        offset: 4,
    };
    let index = index_of(rt.alloc(), Year { place, kind })?;
    for (area, offset, want) in [
        (0, 4, (false, false, 0)),
        (1, 2, (false, false, 0)),
        (1, 3, (false, false, 1)),
        (1, 4, (true, false, 1)),
        (1, 5, (true, true, 1)),
        (1, 6, (true, true, 1)),
        (1, 7, (false, false, 0)),
        (2, 4, (false, false, 0)),
        (1, u32::MAX, (false, false, 0)),
    ] {
        assert_eq!(rt; found(&index, area, offset), want, "{area} {offset}");
    }
    Ok(())
}

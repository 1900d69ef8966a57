ghost use Rattle.std.specs.Prelude.{◌≡◌, ◌⊎◌, ◌↔◌, ◌<◌, ◌≤◌, IfOk, OnOk, Contains, length};
ghost use Rattle.label_spread.specs.Steps.{IsInSpan};
ghost use Rattle.window_modes.specs.declared.index.YearByte.{YearByte as AnyByte};
ghost use Rattle.window_modes.specs.Modes.{AreInAreas};
ghost use Rattle.window_modes.specs.Work.{IsIndexOf, HasBytesUpTo, bytes_between, year_width};

use std::alloc::{AllocError, Global};
use std::collections::BTreeSet;
use y2k_base::{AreaId, BytePlace, Memory, Span};
use year_pairs::Year;

/// That the byte is one of the year of that number.
#[derive(Clone, Copy, Debug, PartialEq, Eq, PartialOrd, Ord)]
pub(crate) struct YearByte {
    pub place: BytePlace,
    pub year: usize,
}

/// The bytes of the years.
pub(crate) fn index_years(alloc: Global, years: &[Year]) -> Result<BTreeSet<YearByte>, Memory>
    requires { AreInAreas years.now }
    ensures { IfOk result (λ bytes. IsIndexOf years.now bytes.keys) }
{
    let mut bytes = BTreeSet::new(alloc);
    for number in 0..years.len() {
        let year = years[number];
        add_bytes(year, number, &mut bytes)?;
    }
    Ok(bytes)
}

/// Adds the bytes of a year.
fn add_bytes(year: Year, number: usize, bytes: &mut BTreeSet<YearByte>) -> Result<(), Memory>
    requires { year.place.offset ≤ 65535 }
    ensures { OnOk result (HasBytesUpTo year (year_width year) number bytes.old.keys bytes.new.keys) }
{
    for index in 0..year.kind.width() {
        let place = BytePlace {
            area: year.place.area,
            offset: year.place.offset + u32::from(index),
        };
        insert_byte(
            YearByte {
                place,
                year: number,
            },
            bytes,
        )?;
    }
    Ok(())
}

fn insert_byte(byte: YearByte, bytes: &mut BTreeSet<YearByte>) -> Result<(), Memory>
    ensures { OnOk result ((other : AnyByte) → Contains bytes.new.keys other ↔ (Contains bytes.old.keys other ⊎ (byte ≡ other))) }
{
    bytes.insert(byte)?;
    Ok(())
}

/// Those of the bytes that lie in the span.
pub(crate) fn bytes_in(
    alloc: Global,
    bytes: &BTreeSet<YearByte>,
    span: Span,
) -> Result<Vec<YearByte>, Memory>
    ensures { IfOk result (λ found. (b : AnyByte) → Contains found.items b ↔ (Contains bytes.now.keys b × IsInSpan span b.place)) }
{
    match span.offset.checked_add(span.length) {
        Some(end) => {
            let found = find_between(alloc, bytes, span.area, span.offset, end)?;
            Ok(found)
        }
        None => Err(Memory),
    }
}

fn find_between(
    alloc: Global,
    bytes: &BTreeSet<YearByte>,
    area: AreaId,
    from: u32,
    to: u32,
) -> Result<Vec<YearByte>, AllocError>
    requires { from ≤ to }
    ensures { IfOk result (λ found. found.items ≡ bytes_between area from to bytes.now.keys) }
{
    let low = YearByte {
        place: BytePlace { area, offset: from },
        year: 0,
    };
    let high = YearByte {
        place: BytePlace { area, offset: to },
        year: 0,
    };
    bytes.range(low..high).copied().collect(alloc)
}

ghost use Rattle.std.specs.Prelude.{◌≤◌, IfOk};
ghost use Rattle.year_pairs.specs.Years.{AreInAreas};

use crate::{Year, YearKind, find_lone_bytes, find_years};
use std::alloc::Global;
use std::test::Fail;
use y2k_base::{AreaId, BytePlace, List};
use year_labels::{Fact, Label, Labelling};

/// A byte of an area, and its label.
type Byte = (u32, u16, Label);

fn fact(byte: Byte) -> Fact
    ensures { result.place.offset ≤ 65535 }
{
    let (area, offset, label) = byte;
    let place = BytePlace {
        area: AreaId(area),
        offset: u32::from(offset),
    };
    Fact { place, label }
}

fn packed(digits: u8, unit: u8, byte: u8) -> Label {
    Label::Packed { digits, unit, byte }
}

/// A labelling of these facts.
fn labelled(alloc: Global, bytes: &[Byte]) -> Result<Labelling, Fail>
    ensures { IfOk result AreInAreas }
{
    let mut facts = List::new(alloc);
    for i in 0..bytes.len() {
        facts.push(fact(bytes[i]))?;
    }
    let labelling = Labelling::new(alloc, facts)?;
    Ok(labelling)
}

/// Whether the facts are these, in this order.
fn are(facts: &List<Fact>, want: &[Byte]) -> bool {
    if facts.len() != want.len() {
        return false;
    }
    for i in 0..want.len() {
        if facts.items()[i] != fact(want[i]) {
            return false;
        }
    }
    true
}

/// The years that stand there, if no byte has unlike labels.
fn years_of(alloc: Global, labelling: &Labelling) -> Result<List<Year>, Fail>
    requires { AreInAreas labelling.now }
{
    if labelling.clean() {
        let years = find_years(alloc, labelling)?;
        Ok(years)
    } else {
        Ok(List::new(alloc))
    }
}

fn year(area: u32, offset: u32, kind: YearKind) -> Year {
    let area = AreaId(area);
    let place = BytePlace { area, offset };
    Year { place, kind }
}

#[test]
fn years_stand_in_order_of_places(rt: HostRuntime) -> Result<(), Fail> {
    let alloc = rt.alloc();
    let facts = [
        (1, 0, Label::Tens),
        (1, 1, Label::Units),
        (0, 9, packed(6, 4, 3)),
        (0, 8, packed(6, 4, 2)),
        (0, 7, packed(6, 4, 1)),
        (0, 6, packed(6, 4, 0)),
        (0, 5, Label::Plain),
        (0, 4, Label::Units),
        (0, 3, Label::Tens),
        (0, 2, Label::Units),
        (0, 1, Label::Tens),
    ];
    let labelling = labelled(alloc, &facts)?;
    let years = years_of(alloc, &labelling)?;
    let want = [
        year(0, 1, YearKind::Pair),
        year(0, 3, YearKind::Pair),
        year(0, 6, YearKind::Packed { digits: 6, unit: 4 }),
        year(1, 0, YearKind::Pair),
    ];
    assert!(rt; years.items() == want.as_slice());
    let lone = find_lone_bytes(alloc, &labelling)?;
    assert!(rt; lone.is_empty());
    Ok(())
}

#[test]
fn a_part_of_a_year_is_none(rt: HostRuntime) -> Result<(), Fail> {
    let alloc = rt.alloc();
    let facts = [
        (0, 0, Label::Units),
        (0, 1, Label::Tens),
        (0, 3, Label::Units),
        (0, 5, packed(4, 2, 0)),
        (0, 6, packed(4, 2, 1)),
        (0, 7, packed(4, 1, 2)),
        (0, 9, Label::Tens),
        (1, 10, Label::Units),
    ];
    let labelling = labelled(alloc, &facts)?;
    let years = years_of(alloc, &labelling)?;
    assert!(rt; years.is_empty());
    let lone = find_lone_bytes(alloc, &labelling)?;
    let want = [
        (0, 0, Label::Units),
        (0, 1, Label::Tens),
        (0, 3, Label::Units),
        (0, 6, packed(4, 2, 1)),
        (0, 7, packed(4, 1, 2)),
        (0, 9, Label::Tens),
        (1, 10, Label::Units),
    ];
    assert!(rt; are(&lone, &want));
    Ok(())
}

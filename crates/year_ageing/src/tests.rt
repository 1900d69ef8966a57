ghost use Rattle.std.specs.Prelude.{◌≡◌, ◌≤◌, ◌∷◌, [], IfOk};
ghost use Rattle.file_convert.specs.Cuts.{IsInOrder, IsInOrderFrom};

use super::*;
use file_convert::{Cut, CutKind, Cuts};
use std::alloc::Global;
use std::test::Fail;
use y2k_base::List;

/// The cuts of a record with one year.
fn one(alloc: Global, length: u32, first: Cut) -> Result<Cuts, Fail>
    requires { (1 ≤ length) × (length ≤ 65535) × IsInOrderFrom 0 length (first ∷ []) }
    ensures { IfOk result IsInOrder }
{
    let mut list = List::new(alloc);
    list.push(first)?;
    Ok(Cuts { length, list })
}

/// Whether the record becomes that one.
fn ages(cuts: &Cuts, years: i8, bytes: &mut [u8], want: &[u8]) -> bool
    requires { IsInOrder cuts.now }
{
    if bytes.len() != cuts.length as usize {
        return false;
    }
    age_record(cuts, years, bytes).is_ok() && *bytes == *want
}

/// Whether the image becomes that one.
fn ages_image(cuts: &Cuts, years: i8, bytes: &mut [u8], want: &[u8]) -> bool
    requires { IsInOrder cuts.now }
{
    if bytes.len() != cuts.image_length() as usize {
        return false;
    }
    age_image_record(cuts, years, bytes).is_ok() && *bytes == *want
}

#[test]
fn a_pair_is_moved_on_both_sides(rt: HostRuntime) -> Result<(), Fail> {
    let year = Cut {
        offset: 6,
        kind: CutKind::Pair,
        pivot: None,
    };
    let cuts = one(rt.alloc(), 20, year)?;
    let mut old = *b"000001880101EMPLOYEE";
    assert!(rt; ages(&cuts, 5, &mut old, b"000001930101EMPLOYEE"));
    assert!(rt; !ages(&cuts, 12, &mut old, b"000001050101EMPLOYEE"));
    let mut new = *b"00000119880101EMPLOYEE";
    assert!(rt; ages_image(&cuts, 5, &mut new, b"00000119930101EMPLOYEE"));
    Ok(())
}

#[test]
fn a_packed_year_is_moved_and_spaces_stay(rt: HostRuntime) -> Result<(), Fail> {
    let year = Cut {
        offset: 0,
        kind: CutKind::Packed { digits: 6, unit: 4 },
        pivot: None,
    };
    let cuts = one(rt.alloc(), 4, year)?;
    let mut number = [0x09, 0x91, 0x23, 0x1f];
    assert!(rt; ages(&cuts, -1, &mut number, &[0x09, 0x81, 0x23, 0x1f]));
    let mut spaces = *b"    ";
    assert!(rt; ages(&cuts, -1, &mut spaces, b"    "));
    Ok(())
}

ghost use Rattle.std.specs.Prelude.{◌≡◌, ◌≤◌, IfOk, All};
ghost use Rattle.year_labels.specs.Forms.{IsFit, IsFitView};
ghost use Rattle.window_modes.specs.Modes.{AreInAreas};

use crate::{WindowGroup, YearMode, window_modes};
use std::alloc::Global;
use std::test::Fail;
use y2k_base::{AreaId, BytePlace, List, Span};
use year_labels::{RuleForm, View};
use year_pairs::{Year, YearKind};

/// A year at the begin of an area.
fn year(area: u32, kind: YearKind) -> Year
    ensures { result.place.offset ≡ 0 }
{
    let area = AreaId(area);
    let place = BytePlace { area, offset: 0 };
    Year { place, kind }
}

/// Years of these kinds, each at the begin of an area of its own.
fn years(alloc: Global, kinds: &[YearKind]) -> Result<Vec<Year>, Fail>
    ensures { IfOk result (λ years. AreInAreas years.items) }
{
    let mut years = Vec::new(alloc);
    let mut area = 0;
    for i in 0..kinds.len() {
        years.push(year(area, kinds[i]))?;
        if area < 100 {
            area += 1;
        }
    }
    Ok(years)
}

fn span(area: u32, length: u32) -> Span
    ensures { result ≡ record { area = record { 0 = area }; offset = 0; length = length } }
{
    Span {
        area: AreaId(area),
        offset: 0,
        length,
    }
}

/// The first two bytes of both areas are alike.
fn alike(pair: (u32, u32)) -> RuleForm
    ensures { IsFit result }
{
    let (a, b) = pair;
    RuleForm::Alike {
        a: span(a, 2),
        b: span(b, 2),
    }
}

fn links(alloc: Global, pairs: &[(u32, u32)]) -> Result<Vec<RuleForm>, Fail>
    ensures { IfOk result (λ links. All IsFit links.items) }
{
    let mut links = Vec::new(alloc);
    for i in 0..pairs.len() {
        links.push(alike(pairs[i]))?;
    }
    Ok(links)
}

/// A group whose items are the first two bytes of these areas.
fn group(alloc: Global, pivot: u8, areas: &[u32]) -> Result<WindowGroup, Fail> {
    let mut spans = List::new(alloc);
    for i in 0..areas.len() {
        spans.push(span(areas[i], 2))?;
    }
    Ok(WindowGroup { pivot, spans })
}

/// Two groups with these pivots, each of one area.
fn groups(alloc: Global, first: (u8, u32), second: (u8, u32)) -> Result<Vec<WindowGroup>, Fail> {
    let mut groups = Vec::new(alloc);
    groups.push(group(alloc, first.0, &[first.1])?)?;
    groups.push(group(alloc, second.0, &[second.1])?)?;
    Ok(groups)
}

/// Whether the modes have these pivots, and clash where it is said.
fn are(modes: &List<YearMode>, want: &[(Option<u8>, bool)]) -> bool {
    if modes.len() != want.len() {
        return false;
    }
    for i in 0..want.len() {
        let mode = modes.items()[i];
        if mode.pivot != want[i].0 || mode.clash != want[i].1 {
            return false;
        }
    }
    true
}

/// Whether the mode of that index is that of the year.
fn has_year(modes: &List<YearMode>, index: usize, year: Year) -> bool {
    match modes.items().get(index) {
        Some(mode) => mode.year == year,
        None => false,
    }
}

const NONE: (Option<u8>, bool) = (None, false);

const FOUR_PAIRS: [YearKind; 4] = [YearKind::Pair; 4];

#[test]
fn a_year_in_no_group_is_expanded(rt: HostRuntime) -> Result<(), Fail> {
    let alloc = rt.alloc();
    let years = years(alloc, &FOUR_PAIRS)?;
    let links = links(alloc, &[(2, 3)])?;
    let group = group(alloc, 50, &[1])?;
    let modes = window_modes(alloc, &years, &links, &[group])?;
    assert!(rt; are(&modes, &[NONE, (Some(50), false), NONE, NONE]));
    assert!(rt; has_year(&modes, 1, year(1, YearKind::Pair)));
    let modes = window_modes(alloc, &years, &links, &[])?;
    assert!(rt; are(&modes, &[NONE, NONE, NONE, NONE]));
    Ok(())
}

#[test]
fn a_chain_of_links_hands_the_pivot_on(rt: HostRuntime) -> Result<(), Fail> {
    let alloc = rt.alloc();
    let years = years(alloc, &FOUR_PAIRS)?;
    let pivot = (Some(50), false);
    let chain = links(alloc, &[(2, 1), (1, 0), (3, 2)])?;
    let last = group(alloc, 50, &[3])?;
    let modes = window_modes(alloc, &years, &chain, &[last])?;
    assert!(rt; are(&modes, &[pivot, pivot, pivot, pivot]));
    let parted = links(alloc, &[(2, 3), (1, 0)])?;
    let first = group(alloc, 50, &[0])?;
    let modes = window_modes(alloc, &years, &parted, &[first])?;
    assert!(rt; are(&modes, &[pivot, pivot, NONE, NONE]));
    Ok(())
}

#[test]
fn groups_with_unlike_pivots_clash(rt: HostRuntime) -> Result<(), Fail> {
    let alloc = rt.alloc();
    let years = years(alloc, &FOUR_PAIRS)?;
    let linked = links(alloc, &[(0, 1), (1, 2)])?;
    let groups = groups(alloc, (60, 2), (50, 0))?;
    let modes = window_modes(alloc, &years, &linked, &groups)?;
    let clash = (Some(60), true);
    assert!(rt; are(&modes, &[clash, clash, clash, NONE]));
    let parted = links(alloc, &[(0, 1), (2, 3)])?;
    let modes = window_modes(alloc, &years, &parted, &groups)?;
    let fifty = (Some(50), false);
    let sixty = (Some(60), false);
    assert!(rt; are(&modes, &[fifty, fifty, sixty, sixty]));
    Ok(())
}

#[test]
fn groups_with_one_pivot_do_not_clash(rt: HostRuntime) -> Result<(), Fail> {
    let alloc = rt.alloc();
    let years = years(alloc, &FOUR_PAIRS)?;
    let links = links(alloc, &[(0, 1), (1, 2)])?;
    let groups = groups(alloc, (50, 2), (50, 0))?;
    let modes = window_modes(alloc, &years, &links, &groups)?;
    let pivot = (Some(50), false);
    assert!(rt; are(&modes, &[pivot, pivot, pivot, NONE]));
    Ok(())
}

/// A view of an unsigned item of the area, a digit a byte.
fn digits(alloc: Global, area: u32, count: u8) -> Result<View, Fail>
    ensures { IfOk result IsFitView }
{
    let mut powers = List::new(alloc);
    for i in 0..count {
        powers.push(Some(count - 1 - i))?;
    }
    let span = span(area, u32::from(count));
    Ok(View::Bytes { span, powers })
}

/// A view of a packed item, which is the second area.
fn packed(digits: u8) -> View
    ensures { IsFitView result }
{
    let span = span(1, u32::from(digits) / 2 + 1);
    View::Packed { span, digits }
}

/// Whether the one rule hands the pivot of the first of three years on to these others.
fn hands_on(
    alloc: Global,
    kinds: &[YearKind],
    link: RuleForm,
    want: &[(Option<u8>, bool)],
) -> Result<bool, Fail>
    requires { IsFit link }
{
    let years = years(alloc, kinds)?;
    let mut links = Vec::new(alloc);
    links.push(link)?;
    let first = group(alloc, 50, &[0])?;
    let modes = window_modes(alloc, &years, &links, &[first])?;
    Ok(are(&modes, want))
}

#[test]
fn digits_of_one_power_are_linked(rt: HostRuntime) -> Result<(), Fail> {
    let alloc = rt.alloc();
    let pairs = [YearKind::Pair; 2];
    let pivot = (Some(50), false);
    for (count, second) in [(6, pivot), (4, NONE)] {
        let a = digits(alloc, 0, 6)?;
        let b = digits(alloc, 1, count)?;
        let link = RuleForm::Digits { a, b };
        assert!(rt; hands_on(alloc, &pairs, link, &[pivot, second])?);
    }
    for (digits_there, unit, second) in [(6, 4, pivot), (7, 4, pivot), (6, 2, NONE)] {
        let packed_year = YearKind::Packed {
            digits: digits_there,
            unit,
        };
        let a = digits(alloc, 0, 6)?;
        let b = packed(digits_there);
        let kinds = [YearKind::Pair, packed_year];
        let link = RuleForm::Digits { a, b };
        assert!(rt; hands_on(alloc, &kinds, link, &[pivot, second])?);
    }
    Ok(())
}

#[test]
fn all_operands_of_a_sum_or_a_difference_are_linked(rt: HostRuntime) -> Result<(), Fail> {
    let alloc = rt.alloc();
    let pairs = [YearKind::Pair; 3];
    let pivot = (Some(50), false);
    let a = digits(alloc, 1, 2)?;
    let b = digits(alloc, 2, 2)?;
    let c = digits(alloc, 0, 2)?;
    let sum = RuleForm::Sum { a, b, c };
    assert!(rt; hands_on(alloc, &pairs, sum, &[pivot, pivot, pivot])?);
    let a = View::Plain;
    let b = digits(alloc, 1, 2)?;
    let c = digits(alloc, 0, 2)?;
    let difference = RuleForm::Difference { a, b, c };
    assert!(rt; hands_on(alloc, &pairs, difference, &[pivot, pivot, NONE])?);
    let view = digits(alloc, 0, 2)?;
    let fill = RuleForm::Fill { view, from: 0 };
    assert!(rt; hands_on(alloc, &pairs, fill, &[pivot, NONE, NONE])?);
    Ok(())
}

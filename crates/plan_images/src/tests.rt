use crate::{Images, are_fit, images_of};
use file_convert::{Cut, CutKind};
use std::alloc::Global;
use std::test::Fail;
use window_modes::YearMode;
use y2k_base::{AreaId, BytePlace, List, Span};
use year_pairs::{Year, YearKind};

fn year(area: u32, offset: u32, kind: YearKind, pivot: Option<u8>) -> YearMode {
    let area = AreaId(area);
    let place = BytePlace { area, offset };
    let year = Year { place, kind };
    YearMode {
        year,
        pivot,
        clash: false,
    }
}

/// A year that gets its century.
fn pair(area: u32, offset: u32) -> YearMode {
    year(area, offset, YearKind::Pair, None)
}

fn packed(area: u32, offset: u32, digits: u8, unit: u8, pivot: Option<u8>) -> YearMode {
    year(area, offset, YearKind::Packed { digits, unit }, pivot)
}

fn add_offsets(images: &Images, area: AreaId, offsets: &mut List<u32>) -> Result<(), Fail> {
    if (area.0 as usize) < images.count() {
        let length = images.cuts(area).length;
        for offset in 0..length {
            offsets.push(images.offset_after(BytePlace { area, offset }))?;
        }
        offsets.push(images.image_length(area))?;
    }
    Ok(())
}

/// Where each byte of an area stands afterwards, and at last the length of its image.
fn offsets_after(
    alloc: Global,
    lengths: &[u32],
    years: &[YearMode],
    area: u32,
) -> Result<List<u32>, Fail> {
    let mut offsets = List::new(alloc);
    if are_fit(lengths, years) {
        let images = images_of(alloc, lengths, years)?;
        add_offsets(&images, AreaId(area), &mut offsets)?;
    }
    Ok(offsets)
}

fn moved(images: &Images, span: Span) -> Option<Span> {
    if (span.area.0 as usize) < images.count() {
        let length = images.cuts(span.area).length;
        if span.length <= length && span.offset <= length - span.length {
            images.span_after(span)
        } else {
            None
        }
    } else {
        None
    }
}

/// Where a part of an area stands afterwards, as its offset and length; nowhere, if it begins or ends inside a year.
fn span_after(
    alloc: Global,
    lengths: &[u32],
    years: &[YearMode],
    span: (u32, u32, u32),
) -> Result<Option<(u32, u32)>, Fail> {
    if are_fit(lengths, years) {
        let images = images_of(alloc, lengths, years)?;
        let (area, offset, length) = span;
        let area = AreaId(area);
        match moved(
            &images,
            Span {
                area,
                offset,
                length,
            },
        ) {
            Some(span) => Ok(Some((span.offset, span.length))),
            None => Ok(None),
        }
    } else {
        Ok(None)
    }
}

fn found(images: &Images, place: BytePlace) -> Option<Cut> {
    if (place.area.0 as usize) < images.count() {
        let length = images.cuts(place.area).length;
        if place.offset < length {
            images.year_at(place)
        } else {
            None
        }
    } else {
        None
    }
}

/// The year that has the byte.
fn year_at(
    alloc: Global,
    lengths: &[u32],
    years: &[YearMode],
    place: (u32, u32),
) -> Result<Option<Cut>, Fail> {
    if are_fit(lengths, years) {
        let images = images_of(alloc, lengths, years)?;
        let (area, offset) = place;
        let area = AreaId(area);
        Ok(found(&images, BytePlace { area, offset }))
    } else {
        Ok(None)
    }
}

fn found_across(images: &Images, place: BytePlace) -> Option<Cut> {
    if (place.area.0 as usize) < images.count() {
        images.year_across(place)
    } else {
        None
    }
}

/// The year that begins before the byte and goes on with it.
fn year_across(
    alloc: Global,
    lengths: &[u32],
    years: &[YearMode],
    place: (u32, u32),
) -> Result<Option<Cut>, Fail> {
    if are_fit(lengths, years) {
        let images = images_of(alloc, lengths, years)?;
        let (area, offset) = place;
        let area = AreaId(area);
        Ok(found_across(&images, BytePlace { area, offset }))
    } else {
        Ok(None)
    }
}

fn count_in(images: &Images, span: Span) -> usize {
    if (span.area.0 as usize) < images.count() {
        let length = images.cuts(span.area).length;
        if span.length <= length && span.offset <= length - span.length {
            images.years_in(span).len()
        } else {
            0
        }
    } else {
        0
    }
}

/// How many years begin in a part of an area.
fn years_in(
    alloc: Global,
    lengths: &[u32],
    years: &[YearMode],
    span: (u32, u32, u32),
) -> Result<usize, Fail> {
    if are_fit(lengths, years) {
        let images = images_of(alloc, lengths, years)?;
        let (area, offset, length) = span;
        let area = AreaId(area);
        let span = Span {
            area,
            offset,
            length,
        };
        Ok(count_in(&images, span))
    } else {
        Ok(0)
    }
}

fn copy_cuts(images: &Images, area: AreaId, cuts: &mut List<Cut>) -> Result<(), Fail> {
    if (area.0 as usize) < images.count() {
        cuts.append(images.cuts(area).list.items())?;
    }
    Ok(())
}

fn cuts_of(
    alloc: Global,
    lengths: &[u32],
    years: &[YearMode],
    area: u32,
) -> Result<List<Cut>, Fail> {
    let mut cuts = List::new(alloc);
    if are_fit(lengths, years) {
        let images = images_of(alloc, lengths, years)?;
        copy_cuts(&images, AreaId(area), &mut cuts)?;
    }
    Ok(cuts)
}

#[test]
fn a_pair_at_the_front_gets_two_bytes(rt: HostRuntime) -> Result<(), Fail> {
    let alloc = rt.alloc();
    let lengths = [6];
    let years = [pair(0, 0)];
    let offsets = offsets_after(alloc, &lengths, &years, 0)?;
    assert!(rt; offsets.items() == [2, 3, 4, 5, 6, 7, 8].as_slice());
    assert!(rt; span_after(alloc, &lengths, &years, (0, 0, 2))? == Some((0, 4)));
    assert!(rt; span_after(alloc, &lengths, &years, (0, 2, 4))? == Some((4, 4)));
    assert!(rt; span_after(alloc, &lengths, &years, (0, 0, 6))? == Some((0, 8)));
    assert!(rt; span_after(alloc, &lengths, &years, (0, 0, 1))? == None);
    assert!(rt; span_after(alloc, &lengths, &years, (0, 1, 3))? == None);
    Ok(())
}

#[test]
fn two_pairs_stand_side_by_side(rt: HostRuntime) -> Result<(), Fail> {
    let alloc = rt.alloc();
    let lengths = [6];
    let years = [pair(0, 1), pair(0, 3)];
    let offsets = offsets_after(alloc, &lengths, &years, 0)?;
    assert!(rt; offsets.items() == [0, 3, 4, 7, 8, 9, 10].as_slice());
    assert!(rt; span_after(alloc, &lengths, &years, (0, 1, 4))? == Some((1, 8)));
    assert!(rt; span_after(alloc, &lengths, &years, (0, 3, 2))? == Some((5, 4)));
    assert!(rt; span_after(alloc, &lengths, &years, (0, 2, 2))? == None);
    Ok(())
}

#[test]
fn a_packed_number_gets_one_byte(rt: HostRuntime) -> Result<(), Fail> {
    let alloc = rt.alloc();
    let lengths = [7];
    let years = [packed(0, 2, 6, 4, None)];
    let offsets = offsets_after(alloc, &lengths, &years, 0)?;
    assert!(rt; offsets.items() == [0, 1, 3, 4, 5, 6, 7, 8].as_slice());
    assert!(rt; span_after(alloc, &lengths, &years, (0, 2, 4))? == Some((2, 5)));
    assert!(rt; span_after(alloc, &lengths, &years, (0, 2, 3))? == None);
    assert!(rt; span_after(alloc, &lengths, &years, (0, 6, 1))? == Some((7, 1)));
    Ok(())
}

#[test]
fn a_windowed_year_stays(rt: HostRuntime) -> Result<(), Fail> {
    let alloc = rt.alloc();
    let lengths = [4];
    let years = [year(0, 0, YearKind::Pair, Some(50)), pair(0, 2)];
    let offsets = offsets_after(alloc, &lengths, &years, 0)?;
    assert!(rt; offsets.items() == [0, 1, 4, 5, 6].as_slice());
    assert!(rt; span_after(alloc, &lengths, &years, (0, 0, 2))? == Some((0, 2)));
    assert!(rt; span_after(alloc, &lengths, &years, (0, 1, 3))? == None);
    Ok(())
}

#[test]
fn occurrences_grow_alike(rt: HostRuntime) -> Result<(), Fail> {
    let alloc = rt.alloc();
    let lengths = [2, 9];
    let years = [pair(0, 0), pair(1, 1), pair(1, 4), pair(1, 7)];
    let offsets = offsets_after(alloc, &lengths, &years, 1)?;
    assert!(rt; offsets.items() == [0, 3, 4, 5, 8, 9, 10, 13, 14, 15].as_slice());
    assert!(rt; span_after(alloc, &lengths, &years, (1, 0, 3))? == Some((0, 5)));
    assert!(rt; span_after(alloc, &lengths, &years, (1, 3, 3))? == Some((5, 5)));
    assert!(rt; span_after(alloc, &lengths, &years, (1, 6, 3))? == Some((10, 5)));
    let offsets = offsets_after(alloc, &lengths, &years, 0)?;
    assert!(rt; offsets.items() == [2, 3, 4].as_slice());
    Ok(())
}

#[test]
fn cuts_are_the_years_of_the_area(rt: HostRuntime) -> Result<(), Fail> {
    let alloc = rt.alloc();
    let lengths = [3, 3, 8];
    let years = [
        pair(0, 1),
        year(2, 0, YearKind::Pair, Some(7)),
        packed(2, 4, 7, 5, None),
    ];
    let cuts = cuts_of(alloc, &lengths, &years, 2)?;
    let windowed = Cut {
        offset: 0,
        kind: CutKind::Pair,
        pivot: Some(7),
    };
    let number = Cut {
        offset: 4,
        kind: CutKind::Packed { digits: 7, unit: 5 },
        pivot: None,
    };
    assert!(rt; cuts.items() == [windowed, number].as_slice());
    assert!(rt; cuts_of(alloc, &lengths, &years, 1)?.is_empty());
    assert!(rt; year_at(alloc, &lengths, &years, (2, 1))? == Some(windowed));
    assert!(rt; year_at(alloc, &lengths, &years, (2, 2))? == None);
    assert!(rt; year_at(alloc, &lengths, &years, (2, 7))? == Some(number));
    assert!(rt; year_at(alloc, &lengths, &years, (0, 0))? == None);
    Ok(())
}

#[test]
fn years_lie_across_bytes_and_in_spans(rt: HostRuntime) -> Result<(), Fail> {
    let alloc = rt.alloc();
    let lengths = [8];
    let years = [pair(0, 1), packed(0, 3, 4, 2, None), pair(0, 6)];
    let number = Cut {
        offset: 3,
        kind: CutKind::Packed { digits: 4, unit: 2 },
        pivot: None,
    };
    assert!(rt; year_across(alloc, &lengths, &years, (0, 3))? == None);
    assert!(rt; year_across(alloc, &lengths, &years, (0, 4))? == Some(number));
    assert!(rt; year_across(alloc, &lengths, &years, (0, 5))? == Some(number));
    assert!(rt; year_across(alloc, &lengths, &years, (0, 6))? == None);
    assert!(rt; years_in(alloc, &lengths, &years, (0, 0, 8))? == 3);
    assert!(rt; years_in(alloc, &lengths, &years, (0, 2, 4))? == 1);
    assert!(rt; years_in(alloc, &lengths, &years, (0, 1, 5))? == 2);
    assert!(rt; years_in(alloc, &lengths, &years, (0, 4, 2))? == 0);
    Ok(())
}

#[test]
fn areas_and_years_are_to_fit(rt: HostRuntime) {
    assert!(rt; are_fit(&[2], &[pair(0, 0)]));
    assert!(rt; !are_fit(&[2], &[pair(0, 1)]));
    assert!(rt; !are_fit(&[2], &[pair(1, 0)]));
    assert!(rt; !are_fit(&[0], &[]));
    assert!(rt; !are_fit(&[65536], &[]));
    assert!(rt; !are_fit(&[4], &[pair(0, 0), pair(0, 1)]));
    assert!(rt; !are_fit(&[2, 2], &[pair(1, 0), pair(0, 0)]));
    assert!(rt; are_fit(&[10], &[packed(0, 0, 16, 14, None)]));
    assert!(rt; !are_fit(&[10], &[packed(0, 0, 17, 15, None)]));
    assert!(rt; are_fit(&[10], &[packed(0, 0, 18, 16, Some(99))]));
    assert!(rt; !are_fit(&[10], &[packed(0, 0, 4, 3, None)]));
    assert!(rt; !are_fit(&[2], &[year(0, 0, YearKind::Pair, Some(0))]));
    assert!(rt; !are_fit(&[2], &[year(0, 0, YearKind::Pair, Some(100))]));
}

ghost use Rattle.std.specs.Prelude.{◌≡◌, IfOk};
ghost use Rattle.data_layout.specs.Index.{IsReady};
ghost use Rattle.layout_reading.specs.Numbered.{AreNumbered};
ghost use Rattle.layout_reading.specs.Reading.{first_area};
ghost use Rattle.storage_places.specs.Fits.{LayoutFits, area_lengths};
ghost use Rattle.storage_places.specs.Held.{held, first, lengths};

use super::*;
use cobol_syntax::{Entry, Part, Place, Program, Sub, Usage};
use data_layout::{Layout, LayoutFault, lay_out};
use decimal_bytes::SignPlace;
use picture::read_picture;
use std::alloc::Global;
use std::test::Fail;
use y2k_base::{AreaId, Bytes, List, Memory, Span};

fn bytes_of(alloc: Global, text: &[u8]) -> Result<Bytes, Memory> {
    let mut bytes = List::new(alloc);
    bytes.append(text)?;
    Ok(bytes)
}

fn entry_of(
    alloc: Global,
    level: u8,
    name: u8,
    picture: &[u8],
    occurs: Option<u32>,
) -> Result<Entry, Memory> {
    Ok(Entry {
        level,
        name: Some(bytes_of(alloc, &[name])?),
        redefines: None,
        occurs,
        picture: read_picture(alloc, picture).ok(),
        picture_at: 0,
        usage: Usage::Display,
        sign: SignPlace::Trailing,
        value: None,
        ranges: List::new(alloc),
        at: 0,
    })
}

/// `01 T. 05 R OCCURS 3. 10 A PIC 9(2). 10 B PIC X(3).`, `77 X PIC X(4).` and `77 N PIC 9.`, whose areas are numbered
/// from 7 on.
fn layout_of_table(alloc: Global) -> Result<Layout, LayoutFault>
    ensures ready { IfOk result IsReady }
    ensures numbered { IfOk result (λ layout. AreNumbered (first_area layout.areas) layout.areas) }
{
    let mut storage = List::new(alloc);
    storage.push(entry_of(alloc, 1, b'T', b"", None)?)?;
    storage.push(entry_of(alloc, 5, b'R', b"", Some(3))?)?;
    storage.push(entry_of(alloc, 10, b'A', b"9(2)", None)?)?;
    storage.push(entry_of(alloc, 10, b'B', b"X(3)", None)?)?;
    storage.push(entry_of(alloc, 77, b'X', b"X(4)", None)?)?;
    storage.push(entry_of(alloc, 77, b'N', b"9", None)?)?;
    laid_out(alloc, storage)
}

fn laid_out(alloc: Global, storage: List<Entry>) -> Result<Layout, LayoutFault>
    ensures ready { IfOk result IsReady }
    ensures numbered { IfOk result (λ layout. AreNumbered (first_area layout.areas) layout.areas) }
{
    let program = Program {
        id: List::new(alloc),
        words: List::new(alloc),
        selects: List::new(alloc),
        files: List::new(alloc),
        storage,
        paragraphs: List::new(alloc),
    };
    lay_out(alloc, &program, AreaId(7))
}

/// Whether a layout with an item of this picture, which occurs so often, fits.
fn fits_with(alloc: Global, picture: &[u8], occurs: Option<u32>) -> Result<bool, Memory> {
    let mut storage = List::new(alloc);
    storage.push(entry_of(alloc, 1, b'G', b"", None)?)?;
    storage.push(entry_of(alloc, 5, b'E', picture, occurs)?)?;
    match laid_out(alloc, storage) {
        Ok(layout) => Ok(layout_fits(&layout)),
        Err(_) => Err(Memory),
    }
}

/// A subscript or a bound of a reference: 99 for the data name N, and else a number.
fn sub_of(alloc: Global, value: u32) -> Result<Sub, Memory> {
    if value == 99 {
        let mut names = List::new(alloc);
        names.push(bytes_of(alloc, b"N")?)?;
        return Ok(Sub::Name(names));
    }
    Ok(Sub::Number { value, at: 0 })
}

/// The item of a name; its occurrence where a subscript isn't 0, and its part where a start isn't 0. A length of 0
/// isn't written.
fn place_of(alloc: Global, name: u8, sub: u32, start: u32, length: u32) -> Result<Place, Memory> {
    let mut names = List::new(alloc);
    names.push(bytes_of(alloc, &[name])?)?;
    let mut subs = List::new(alloc);
    if sub > 0 {
        subs.push(sub_of(alloc, sub)?)?;
    }
    let length = if length > 0 {
        Some(sub_of(alloc, length)?)
    } else {
        None
    };
    let cut = if start > 0 {
        Some(Part {
            start: sub_of(alloc, start)?,
            length,
        })
    } else {
        None
    };
    Ok(Place {
        names,
        subs,
        cut,
        at: 0,
        end: 1,
    })
}

/// Where a place is; `Memory` where it isn't resolved.
fn reached(
    alloc: Global,
    layout: &Layout,
    storage: &Storage,
    place: &Place,
) -> Result<Span, RunFault>
    requires ready { IsReady layout.now }
    requires numbered { AreNumbered (first_area layout.now.areas) layout.now.areas }
    requires fits { LayoutFits layout.now }
    requires first { first storage.now ≡ first_area layout.now.areas }
    requires lengths { lengths (held storage.now) ≡ area_lengths layout.now }
{
    match resolve(alloc, layout, place) {
        Ok(access) => match access {
            Some(access) => {
                let span = storage.span_at(&access)?;
                Ok(span)
            }
            None => Err(RunFault::Memory),
        },
        Err(_) => Err(RunFault::Memory),
    }
}

/// Sets a byte; whether it lies in the areas.
fn put(storage: &mut Storage, span: Span, byte: u8) -> bool
    requires one { span.length ≡ 1 }
    ensures first { first storage.new ≡ first storage.old }
    ensures lengths { lengths (held storage.new) ≡ lengths (held storage.old) }
{
    if storage.bytes(span).is_none() {
        return false;
    }
    storage.set(span, &[byte]);
    true
}

/// The storage in which N holds a byte.
fn storage_with(alloc: Global, layout: &Layout, number: u8) -> Result<Storage, Memory>
    ensures first { IfOk result (λ storage. first storage ≡ first_area layout.now.areas) }
    ensures lengths { IfOk result (λ storage. lengths (held storage) ≡ area_lengths layout.now) }
{
    let mut storage = Storage::spaces(alloc, layout)?;
    put(&mut storage, part_of(9, 0, 1), number);
    Ok(storage)
}

/// The span of a name's part or occurrence where N holds a byte.
fn reached_with(
    alloc: Global,
    number: u8,
    name: u8,
    sub: u32,
    cut: (u32, u32),
) -> Result<Result<Span, RunFault>, Memory> {
    let layout = match layout_of_table(alloc) {
        Ok(layout) => layout,
        Err(_) => return Err(Memory),
    };
    if !layout_fits(&layout) {
        return Err(Memory);
    }
    let storage = storage_with(alloc, &layout, number)?;
    let place = place_of(alloc, name, sub, cut.0, cut.1)?;
    Ok(reached(alloc, &layout, &storage, &place))
}

/// How many digits the item of a name has, of which a reference takes a part where a start isn't 0.
fn digits_of(alloc: Global, name: u8, start: u32) -> Result<Option<u8>, Memory> {
    let layout = match layout_of_table(alloc) {
        Ok(layout) => layout,
        Err(_) => return Err(Memory),
    };
    if !layout_fits(&layout) {
        return Err(Memory);
    }
    let place = place_of(alloc, name, 0, start, 0)?;
    match item_form(&layout, &place) {
        Some(form) => Ok(Some(form.digits)),
        None => Ok(None),
    }
}

fn part_of(area: u32, offset: u32, length: u32) -> Span
    ensures { result.length ≡ length }
{
    Span {
        area: AreaId(area),
        offset,
        length,
    }
}

#[test]
fn subscripts_are_read_and_checked(rt: HostRuntime) -> Result<(), Fail> {
    let alloc = rt.alloc();
    let rows = [
        (b'1', b'B', 99, Ok(part_of(7, 2, 3))),
        (b'3', b'B', 99, Ok(part_of(7, 12, 3))),
        (b'3', b'A', 2, Ok(part_of(7, 5, 2))),
        (b'4', b'B', 99, Err(RunFault::Range)),
        (b'0', b'B', 99, Err(RunFault::Range)),
        (b' ', b'B', 99, Err(RunFault::Data)),
        (b'1', b'B', 4, Err(RunFault::Range)),
        (b'1', b'Q', 1, Err(RunFault::Memory)),
    ];
    for (number, name, sub, span) in rows {
        assert!(rt; reached_with(alloc, number, name, sub, (0, 0))? == span);
    }
    Ok(())
}

#[test]
fn a_reference_is_read_whole_and_then_checked(rt: HostRuntime) -> Result<(), Fail> {
    let alloc = rt.alloc();
    let rows = [
        (b'2', (2, 3), Ok(part_of(8, 1, 3))),
        (b'2', (99, 0), Ok(part_of(8, 1, 3))),
        (b'2', (3, 99), Ok(part_of(8, 2, 2))),
        (b'3', (3, 99), Err(RunFault::Range)),
        (b'0', (3, 99), Err(RunFault::Range)),
        (b'1', (5, 0), Err(RunFault::Range)),
        (b' ', (5, 99), Err(RunFault::Data)),
    ];
    for (number, cut, span) in rows {
        assert!(rt; reached_with(alloc, number, b'X', 0, cut)? == span);
    }
    Ok(())
}

#[test]
fn laid_out_items_fit(rt: HostRuntime) -> Result<(), Fail> {
    let alloc = rt.alloc();
    assert!(rt; fits_with(alloc, b"X(3)", Some(5))?);
    assert!(rt; fits_with(alloc, b"S9(7)V99", None)?);
    assert!(rt; fits_with(alloc, b"Z(3)9", None)?);
    assert!(rt; fits_with(alloc, b"Z,ZZ9.99-", Some(2))?);
    assert!(rt; fits_with(alloc, b"99/99/9999", None)?);
    Ok(())
}

#[test]
fn the_form_of_an_item_is_given_with_a_reference(rt: HostRuntime) -> Result<(), Fail> {
    let alloc = rt.alloc();
    let rows = [
        (b'A', 0, Some(2)),
        (b'N', 1, Some(1)),
        (b'X', 0, Some(0)),
        (b'Q', 0, None),
    ];
    for (name, start, digits) in rows {
        assert!(rt; digits_of(alloc, name, start)? == digits);
    }
    Ok(())
}

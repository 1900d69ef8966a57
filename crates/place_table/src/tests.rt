ghost use Rattle.std.specs.Prelude.{◌≡◌, IfOk};
ghost use Rattle.data_layout.specs.Index.{IsReady};
ghost use Rattle.layout_reading.specs.Numbered.{AreNumbered};
ghost use Rattle.layout_reading.specs.Reading.{first_area};
ghost use Rattle.storage_places.specs.Fits.{area_lengths};
ghost use Rattle.storage_places.specs.Held.{held, first, lengths};

use super::*;
use cobol_syntax::{Entry, Operand, Part, Place, Program, Range, Sub, Usage};
use data_layout::{Layout, LayoutFault, lay_out};
use decimal_bytes::{NumForm, SignPlace};
use operand_kinds::Kind;
use picture::read_picture;
use std::alloc::Global;
use std::test::Fail;
use storage_places::{RunFault, Storage, layout_fits};
use y2k_base::{AreaId, Bytes, List, Memory, Span};

fn bytes_of(alloc: Global, text: &[u8]) -> Result<Bytes, Memory> {
    let mut bytes = List::new(alloc);
    bytes.append(text)?;
    Ok(bytes)
}

fn entry_of(alloc: Global, level: u8, name: u8, picture: &[u8]) -> Result<Entry, Memory> {
    Ok(Entry {
        level,
        name: Some(bytes_of(alloc, &[name])?),
        redefines: None,
        occurs: None,
        picture: read_picture(alloc, picture).ok(),
        picture_at: 0,
        usage: Usage::Display,
        sign: SignPlace::Trailing,
        value: None,
        ranges: List::new(alloc),
        at: 0,
    })
}

/// `05 R OCCURS 3.`
fn table_of(alloc: Global) -> Result<Entry, Memory> {
    let mut entry = entry_of(alloc, 5, b'R', b"")?;
    entry.occurs = Some(3);
    Ok(entry)
}

/// `88 C VALUE "00" "99".`
fn cond_of(alloc: Global) -> Result<Entry, Memory> {
    let mut entry = entry_of(alloc, 88, b'C', b"")?;
    entry.ranges.push(value_of(alloc, b"00")?)?;
    entry.ranges.push(value_of(alloc, b"99")?)?;
    Ok(entry)
}

fn value_of(alloc: Global, text: &[u8]) -> Result<Range, Memory> {
    Ok(Range {
        low: Operand::Text {
            bytes: bytes_of(alloc, text)?,
            at: 0,
        },
        high: None,
    })
}

/// `01 T. 05 R OCCURS 3. 10 A PIC 9(2). 88 C VALUE "00" "99". 10 B PIC X(3).`, `77 X PIC X(4).`, `77 N PIC 9.` and
/// `77 E PIC ZZ9.99-.`, whose areas are numbered from 7 on.
fn layout_of_table(alloc: Global) -> Result<Layout, LayoutFault>
    ensures ready { IfOk result IsReady }
    ensures numbered { IfOk result (λ layout. AreNumbered (first_area layout.areas) layout.areas) }
{
    let mut storage = List::new(alloc);
    storage.push(entry_of(alloc, 1, b'T', b"")?)?;
    storage.push(table_of(alloc)?)?;
    storage.push(entry_of(alloc, 10, b'A', b"9(2)")?)?;
    storage.push(cond_of(alloc)?)?;
    storage.push(entry_of(alloc, 10, b'B', b"X(3)")?)?;
    storage.push(entry_of(alloc, 77, b'X', b"X(4)")?)?;
    storage.push(entry_of(alloc, 77, b'N', b"9")?)?;
    storage.push(entry_of(alloc, 77, b'E', b"ZZ9.99-")?)?;
    laid_out(alloc, storage)
}

fn laid_out(alloc: Global, storage: List<Entry>) -> Result<Layout, LayoutFault>
    ensures ready { IfOk result IsReady }
    ensures numbered { IfOk result (λ layout. AreNumbered (first_area layout.areas) layout.areas) }
{
    let program = Program {
        id: List::new(alloc),
        words: List::new(alloc),
        selects: List::new(alloc),
        files: List::new(alloc),
        storage,
        paragraphs: List::new(alloc),
    };
    lay_out(alloc, &program, AreaId(7))
}

/// A place as it is written: a name; its occurrence where a subscript isn't 0, that of N for 99; and its part where a
/// start isn't 0.
#[derive(Clone, Copy)]
struct Written {
    name: u8,
    sub: u32,
    start: u32,
    at: u32,
}

fn sub_of(alloc: Global, value: u32) -> Result<Sub, Memory> {
    if value == 99 {
        let mut names = List::new(alloc);
        names.push(bytes_of(alloc, b"N")?)?;
        return Ok(Sub::Name(names));
    }
    Ok(Sub::Number { value, at: 0 })
}

fn cut_of(alloc: Global, start: u32) -> Result<Option<Part>, Memory> {
    if start == 0 {
        return Ok(None);
    }
    Ok(Some(Part {
        start: sub_of(alloc, start)?,
        length: None,
    }))
}

fn place_of(alloc: Global, written: Written) -> Result<Place, Memory> {
    let mut names = List::new(alloc);
    names.push(bytes_of(alloc, &[written.name])?)?;
    let mut subs = List::new(alloc);
    if written.sub > 0 {
        subs.push(sub_of(alloc, written.sub)?)?;
    }
    let cut = cut_of(alloc, written.start)?;
    Ok(Place {
        names,
        subs,
        cut,
        at: written.at,
        end: written.at,
    })
}

fn spelled(name: u8, sub: u32, start: u32, at: u32) -> Written {
    Written {
        name,
        sub,
        start,
        at,
    }
}

fn part_of(area: u32, offset: u32, length: u32) -> Span
    ensures { result.length ≡ length }
{
    Span {
        area: AreaId(area),
        offset,
        length,
    }
}

fn seen(kind: Kind, span: Span, number: u32) -> Result<View, RunFault> {
    Ok(View { kind, span, number })
}

/// Sets a byte; whether it lies in the areas.
fn put(storage: &mut Storage, span: Span, byte: u8) -> bool
    requires one { span.length ≡ 1 }
    ensures first { first storage.new ≡ first storage.old }
    ensures lengths { lengths (held storage.new) ≡ lengths (held storage.old) }
{
    if storage.bytes(span).is_none() {
        return false;
    }
    storage.set(span, &[byte]);
    true
}

/// The storage in which N holds a byte.
fn storage_with(alloc: Global, layout: &Layout, number: u8) -> Result<Storage, Memory>
    ensures first { IfOk result (λ storage. first storage ≡ first_area layout.now.areas) }
    ensures lengths { IfOk result (λ storage. lengths (held storage) ≡ area_lengths layout.now) }
{
    let mut storage = Storage::spaces(alloc, layout)?;
    put(&mut storage, part_of(9, 0, 1), number);
    Ok(storage)
}

/// Where two places are, looked for one after the other, where N holds a byte.
fn views(
    alloc: Global,
    number: u8,
    one: Written,
    other: Written,
) -> Result<(Result<View, RunFault>, Result<View, RunFault>), Memory> {
    let layout = match layout_of_table(alloc) {
        Ok(layout) => layout,
        Err(_) => return Err(Memory),
    };
    if !layout_fits(&layout) {
        return Err(Memory);
    }
    let storage = storage_with(alloc, &layout, number)?;
    let mut places = Places::of(alloc, &layout);
    let first_view = places.view(&storage, &place_of(alloc, one)?);
    let second_view = places.view(&storage, &place_of(alloc, other)?);
    Ok((first_view, second_view))
}

/// What a place is taken as, and the form of its item.
fn kind_and_form(
    alloc: Global,
    place: Written,
) -> Result<(Result<Kind, RunFault>, Result<NumForm, RunFault>), Memory> {
    let layout = match layout_of_table(alloc) {
        Ok(layout) => layout,
        Err(_) => return Err(Memory),
    };
    if !layout_fits(&layout) {
        return Err(Memory);
    }
    let mut places = Places::of(alloc, &layout);
    let place = place_of(alloc, place)?;
    let kind = places.kind(&place);
    let form = places.form(&place);
    Ok((kind, form))
}

/// Where the item of a condition-name is, where N holds a byte, and how many values the name has.
fn named(
    alloc: Global,
    number: u8,
    place: Written,
) -> Result<Result<(NamedView, usize), RunFault>, Memory> {
    let layout = match layout_of_table(alloc) {
        Ok(layout) => layout,
        Err(_) => return Err(Memory),
    };
    if !layout_fits(&layout) {
        return Err(Memory);
    }
    let storage = storage_with(alloc, &layout, number)?;
    let mut places = Places::of(alloc, &layout);
    match places.named(&storage, &place_of(alloc, place)?) {
        Ok(name) => Ok(Ok((name, places.ranges(name.name).len()))),
        Err(fault) => Ok(Err(fault)),
    }
}

fn digits_of(digits: u8, scale: u8, signed: bool) -> NumForm {
    NumForm {
        digits,
        scale,
        signed,
        sign: SignPlace::Trailing,
    }
}

#[test]
fn a_place_is_found_again_by_its_position(rt: HostRuntime) -> Result<(), Fail> {
    let alloc = rt.alloc();
    let place = spelled(b'B', 2, 0, 40);
    let first_view = seen(Kind::Text, part_of(7, 7, 3), 0);
    let rows = [
        (place, first_view),
        (
            spelled(b'B', 2, 0, 41),
            seen(Kind::Text, part_of(7, 7, 3), 1),
        ),
        (
            spelled(b'X', 0, 0, 40),
            seen(Kind::Text, part_of(8, 0, 4), 1),
        ),
        (
            spelled(b'B', 3, 0, 40),
            seen(Kind::Text, part_of(7, 12, 3), 1),
        ),
        (
            spelled(b'B', 2, 2, 40),
            seen(Kind::Text, part_of(7, 8, 2), 1),
        ),
        (
            spelled(b'B', 2, 0, 3),
            seen(Kind::Text, part_of(7, 7, 3), 1),
        ),
    ];
    for (other, view) in rows {
        assert!(rt; views(alloc, b'1', place, other)? == (first_view, view));
    }
    Ok(())
}

#[test]
fn a_fault_of_a_place_is_met_each_time(rt: HostRuntime) -> Result<(), Fail> {
    let alloc = rt.alloc();
    let rows = [
        (b'1', spelled(b'B', 4, 0, 2), RunFault::Range),
        (b'4', spelled(b'B', 99, 0, 2), RunFault::Range),
        (b' ', spelled(b'B', 99, 0, 2), RunFault::Data),
        (b'1', spelled(b'X', 0, 5, 2), RunFault::Range),
        (b'1', spelled(b'Q', 0, 0, 2), RunFault::Memory),
        (b'1', spelled(b'C', 1, 0, 2), RunFault::Memory),
    ];
    for (number, place, fault) in rows {
        assert!(rt; views(alloc, number, place, place)? == (Err(fault), Err(fault)));
    }
    Ok(())
}

#[test]
fn the_form_of_an_item_is_given(rt: HostRuntime) -> Result<(), Fail> {
    let alloc = rt.alloc();
    let two = digits_of(2, 0, false);
    let edited = digits_of(5, 2, true);
    let none = digits_of(0, 0, false);
    let number = Kind::Number {
        usage: Usage::Display,
        form: two,
    };
    let rows = [
        (spelled(b'A', 1, 0, 2), number, two),
        (spelled(b'A', 1, 2, 2), Kind::Text, two),
        (
            spelled(b'E', 0, 0, 2),
            Kind::Edited { form: edited },
            edited,
        ),
        (spelled(b'X', 0, 2, 2), Kind::Text, none),
        (spelled(b'T', 0, 0, 2), Kind::Group, none),
    ];
    for (place, kind, form) in rows {
        assert!(rt; kind_and_form(alloc, place)? == (Ok(kind), Ok(form)));
    }
    Ok(())
}

#[test]
fn a_condition_name_is_where_its_item_is(rt: HostRuntime) -> Result<(), Fail> {
    let alloc = rt.alloc();
    let view = View {
        kind: Kind::Number {
            usage: Usage::Display,
            form: digits_of(2, 0, false),
        },
        span: part_of(7, 10, 2),
        number: 0,
    };
    let place = spelled(b'C', 99, 0, 2);
    assert!(rt; named(alloc, b'3', place)? == Ok((NamedView { name: 0, view }, 2)));
    assert!(rt; named(alloc, b'4', place)? == Err(RunFault::Range));
    assert!(rt; named(alloc, b'1', spelled(b'A', 1, 0, 2))? == Err(RunFault::Memory));
    Ok(())
}

ghost use Rattle.std.specs.Prelude.{◌≡◌, IfOk};
ghost use Rattle.data_layout.specs.Index.{IsReady};
ghost use Rattle.layout_reading.specs.Numbered.{AreNumbered};
ghost use Rattle.layout_reading.specs.Reading.{first_area};
ghost use Rattle.place_table.specs.Tables.{layout_of, IsStorageOf};
ghost use Rattle.storage_places.specs.Fits.{LayoutFits};

use super::*;
use cobol_syntax::{Entry, Operand, Part, Place, Program, Sub, Usage};
use data_layout::{Layout, LayoutFault, lay_out};
use decimal_bytes::{Scaled, SignPlace};
use picture::read_picture;
use place_table::Places;
use std::alloc::Global;
use std::test::Fail;
use storage_places::{RunFault, Storage, layout_fits};
use y2k_base::{AreaId, Bytes, List, Memory};

fn bytes_of(alloc: Global, text: &[u8]) -> Result<Bytes, Memory> {
    let mut bytes = List::new(alloc);
    bytes.append(text)?;
    Ok(bytes)
}

fn entry_of(
    alloc: Global,
    level: u8,
    name: u8,
    picture: &[u8],
    usage: Usage,
    sign: SignPlace,
) -> Result<Entry, Memory> {
    Ok(Entry {
        level,
        name: Some(bytes_of(alloc, &[name])?),
        redefines: None,
        occurs: None,
        picture: read_picture(alloc, picture).ok(),
        picture_at: 0,
        usage,
        sign,
        value: None,
        ranges: List::new(alloc),
        at: 0,
    })
}

/// A group G of A and C, two texts, numbers of each usage and sign, and two edited items.
fn entries(alloc: Global) -> Result<List<Entry>, Memory> {
    let trailing = SignPlace::Trailing;
    let rows: [(u8, u8, &[u8], Usage, SignPlace); 14] = [
        (1, b'G', b"", Usage::Display, trailing),
        (5, b'A', b"X(2)", Usage::Display, trailing),
        (5, b'C', b"9(2)", Usage::Display, trailing),
        (77, b'X', b"X(5)", Usage::Display, trailing),
        (77, b'Y', b"X(3)", Usage::Display, trailing),
        (77, b'N', b"9(4)", Usage::Display, trailing),
        (77, b'S', b"S9(3)", Usage::Display, trailing),
        (
            77,
            b'L',
            b"S9(2)",
            Usage::Display,
            SignPlace::LeadingSeparate,
        ),
        (77, b'V', b"9(2)V9", Usage::Display, trailing),
        (77, b'P', b"S9(3)", Usage::Packed, trailing),
        (77, b'U', b"9(4)", Usage::Packed, trailing),
        (77, b'B', b"S9(4)", Usage::Binary, trailing),
        (77, b'E', b"Z,ZZ9.9-", Usage::Display, trailing),
        (77, b'D', b"99/99/99", Usage::Display, trailing),
    ];
    let mut entries = List::new(alloc);
    for (level, name, picture, usage, sign) in rows {
        entries.push(entry_of(alloc, level, name, picture, usage, sign)?)?;
    }
    Ok(entries)
}

fn layout_of_items(alloc: Global) -> Result<Layout, LayoutFault>
    ensures ready { IfOk result IsReady }
    ensures numbered { IfOk result (λ layout. AreNumbered (first_area layout.areas) layout.areas) }
{
    let program = Program {
        id: List::new(alloc),
        words: List::new(alloc),
        selects: List::new(alloc),
        files: List::new(alloc),
        storage: entries(alloc)?,
        paragraphs: List::new(alloc),
    };
    lay_out(alloc, &program, AreaId(7))
}

/// The layout of the items, whose rules are kept.
fn fitting_layout(alloc: Global) -> Result<Layout, Memory>
    ensures ready { IfOk result IsReady }
    ensures numbered { IfOk result (λ layout. AreNumbered (first_area layout.areas) layout.areas) }
    ensures fits { IfOk result LayoutFits }
{
    match layout_of_items(alloc) {
        Ok(layout) => {
            if layout_fits(&layout) {
                Ok(layout)
            } else {
                Err(Memory)
            }
        }
        Err(_) => Err(Memory),
    }
}

/// An item, or a part of it from a start on; a start of 0 isn't written.
type Item = (u8, u32, u32);

fn whole(name: u8) -> Item {
    (name, 0, 0)
}

fn place_of(alloc: Global, item: Item) -> Result<Place, Memory> {
    let mut names = List::new(alloc);
    names.push(bytes_of(alloc, &[item.0])?)?;
    let cut = if item.1 == 0 {
        None
    } else {
        Some(Part {
            start: Sub::Number {
                value: item.1,
                at: 0,
            },
            length: Some(Sub::Number {
                value: item.2,
                at: 0,
            }),
        })
    };
    Ok(Place {
        names,
        subs: List::new(alloc),
        cut,
        at: 0,
        end: 1,
    })
}

fn item_operand(alloc: Global, item: Item) -> Result<Operand, Memory> {
    Ok(Operand::Place(place_of(alloc, item)?))
}

fn text_operand(alloc: Global, text: &[u8]) -> Result<Operand, Memory> {
    Ok(Operand::Text {
        bytes: bytes_of(alloc, text)?,
        at: 0,
    })
}

fn number_operand(number: i128, scale: u8, digits: u8) -> Operand {
    Operand::Number {
        value: Scaled { number, scale },
        digits,
        at: 0,
    }
}

/// Sets the bytes of an item, if they are as many.
fn put(
    alloc: Global,
    places: &mut Places<'_>,
    storage: &mut Storage,
    name: u8,
    bytes: &[u8],
) -> Result<(), RunFault>
    requires storage { IsStorageOf (layout_of places.old) storage.old }
    ensures layout { layout_of places.new ≡ layout_of places.old }
    ensures storage { IsStorageOf (layout_of places.old) storage.new }
{
    let place = match place_of(alloc, whole(name)) {
        Ok(place) => place,
        Err(_) => return Err(RunFault::Memory),
    };
    let view = places.view(storage, &place)?;
    if view.span.length as usize == bytes.len() {
        storage.set(view.span, bytes);
    }
    Ok(())
}

/// The bytes of a place.
fn held_at(
    alloc: Global,
    places: &mut Places<'_>,
    storage: &Storage,
    place: &Place,
) -> Result<Bytes, RunFault>
    requires storage { IsStorageOf (layout_of places.old) storage.now }
{
    let view = places.view(storage, place)?;
    match storage.bytes(view.span) {
        Some(bytes) => match bytes_of(alloc, bytes) {
            Ok(bytes) => Ok(bytes),
            Err(_) => Err(RunFault::Memory),
        },
        None => Err(RunFault::Memory),
    }
}

/// What a place holds after a move to it, before which an item held these bytes.
fn moved_to(
    alloc: Global,
    places: &mut Places<'_>,
    storage: &mut Storage,
    given: (u8, &[u8]),
    from: &Operand,
    to: &Place,
) -> Result<Bytes, RunFault>
    requires storage { IsStorageOf (layout_of places.old) storage.old }
{
    put(alloc, places, storage, given.0, given.1)?;
    move_item(alloc, places, storage, from, to)?;
    let bytes = held_at(alloc, places, storage, to)?;
    Ok(bytes)
}

fn moved(
    alloc: Global,
    given: (u8, &[u8]),
    from: &Operand,
    to: Item,
) -> Result<Result<Bytes, RunFault>, Memory> {
    let layout = fitting_layout(alloc)?;
    let mut storage = Storage::spaces(alloc, &layout)?;
    let mut places = Places::of(alloc, &layout);
    let to = place_of(alloc, to)?;
    Ok(moved_to(alloc, &mut places, &mut storage, given, from, &to))
}

/// What an item holds after a move of another, which held these bytes.
fn item_moved(
    alloc: Global,
    from: u8,
    bytes: &[u8],
    to: u8,
) -> Result<Result<Bytes, RunFault>, Memory> {
    let operand = item_operand(alloc, whole(from))?;
    moved(alloc, (from, bytes), &operand, whole(to))
}

/// The same for parts of items.
fn part_moved(
    alloc: Global,
    bytes: &[u8],
    from: Item,
    to: Item,
) -> Result<Result<Bytes, RunFault>, Memory> {
    let operand = item_operand(alloc, from)?;
    moved(alloc, (from.0, bytes), &operand, to)
}

/// What an item holds after a move of a literal or a figure.
fn literal_moved(alloc: Global, from: &Operand, to: u8) -> Result<Result<Bytes, RunFault>, Memory> {
    moved(alloc, (b'X', b"     "), from, whole(to))
}

/// What DISPLAY shows of an operand where an item holds these bytes.
fn shown_where(
    alloc: Global,
    places: &mut Places<'_>,
    storage: &mut Storage,
    given: (u8, &[u8]),
    operand: &Operand,
) -> Result<Bytes, RunFault>
    requires storage { IsStorageOf (layout_of places.old) storage.old }
{
    put(alloc, places, storage, given.0, given.1)?;
    let bytes = show_item(alloc, places, storage, operand)?;
    Ok(bytes)
}

fn shown(
    alloc: Global,
    given: (u8, &[u8]),
    operand: &Operand,
) -> Result<Result<Bytes, RunFault>, Memory> {
    let layout = fitting_layout(alloc)?;
    let mut storage = Storage::spaces(alloc, &layout)?;
    let mut places = Places::of(alloc, &layout);
    Ok(shown_where(alloc, &mut places, &mut storage, given, operand))
}

fn item_shown(alloc: Global, name: u8, bytes: &[u8]) -> Result<Result<Bytes, RunFault>, Memory> {
    let operand = item_operand(alloc, whole(name))?;
    shown(alloc, (name, bytes), &operand)
}

fn is(answer: &Result<Bytes, RunFault>, bytes: &[u8]) -> bool {
    match answer {
        Ok(held) => held.items() == bytes,
        Err(_) => false,
    }
}

fn is_fault(answer: &Result<Bytes, RunFault>, fault: RunFault) -> bool {
    match answer {
        Ok(_) => false,
        Err(met) => *met == fault,
    }
}

#[test]
fn bytes_are_copied_from_the_left(rt: HostRuntime) -> Result<(), Fail> {
    let rows: [(u8, &[u8], u8, &[u8]); 16] = [
        (b'X', b"abcde", b'Y', b"abc"),
        (b'Y', b"abc", b'X', b"abc  "),
        (b'G', b"ab12", b'X', b"ab12 "),
        (b'X', b"12345", b'G', b"1234"),
        (b'G', b"ab12", b'N', b"ab12"),
        (b'G', b"1   ", b'P', b"1 "),
        (b'N', b"0042", b'X', b"0042 "),
        (b'N', b"00 2", b'X', b"00 2 "),
        (b'N', b"0042", b'Y', b"004"),
        (b'S', &[0x30, 0x34, 0x72], b'G', &[0x30, 0x34, 0x72, 0x20]),
        (b'P', &[0x04, 0x2d], b'G', &[0x04, 0x2d, 0x20, 0x20]),
        (b'P', &[0xff, 0xff], b'G', &[0xff, 0xff, 0x20, 0x20]),
        (b'B', &[0xff, 0xfe], b'G', &[0xff, 0xfe, 0x20, 0x20]),
        (b'E', b"    1.5-", b'X', b"    1"),
        (b'D', b"58/07/02", b'X', b"58/07"),
        (b'X', b"ab   ", b'A', b"ab"),
    ];
    for (from, bytes, to, held) in rows {
        assert!(rt; is(&item_moved(rt.alloc(), from, bytes, to)?, held));
    }
    Ok(())
}

#[test]
fn a_number_gives_a_text_its_digits(rt: HostRuntime) -> Result<(), Fail> {
    let rows: [(u8, &[u8], u8, &[u8]); 8] = [
        (b'S', &[0x30, 0x34, 0x72], b'X', b"042  "),
        (b'S', b"042", b'X', b"042  "),
        (b'L', b"-42", b'X', b"42   "),
        (b'P', &[0x04, 0x2d], b'X', b"042  "),
        (b'U', &[0x01, 0x23, 0x4f], b'Y', b"123"),
        (b'B', &[0xff, 0xfe], b'X', b"0002 "),
        (b'B', &[0x7f, 0xff], b'X', b"2767 "),
        (b'P', &[0x12, 0x3f], b'A', b"12"),
    ];
    for (from, bytes, to, held) in rows {
        assert!(rt; is(&item_moved(rt.alloc(), from, bytes, to)?, held));
    }
    Ok(())
}

#[test]
fn a_number_receives_a_value_at_its_point(rt: HostRuntime) -> Result<(), Fail> {
    let rows: [(u8, &[u8], u8, &[u8]); 28] = [
        (b'X', b"12345", b'N', b"2345"),
        (b'Y', b"042", b'S', b"042"),
        (b'Y', b"042", b'P', &[0x04, 0x2c]),
        (b'Y', b"042", b'U', &[0x00, 0x04, 0x2f]),
        (b'N', b"1234", b'S', b"234"),
        (b'N', b"1234", b'P', &[0x23, 0x4c]),
        (b'N', b"1234", b'U', &[0x01, 0x23, 0x4f]),
        (b'N', b"1234", b'B', &[0x04, 0xd2]),
        (b'N', b"1234", b'V', b"340"),
        (b'N', b"0042", b'L', b"+42"),
        (b'S', &[0x30, 0x34, 0x72], b'N', b"0042"),
        (b'S', &[0x30, 0x34, 0x72], b'L', b"-42"),
        (b'S', &[0x30, 0x34, 0x72], b'P', &[0x04, 0x2d]),
        (b'S', &[0x30, 0x34, 0x72], b'B', &[0xff, 0xd6]),
        (b'S', &[0x30, 0x30, 0x70], b'P', &[0x00, 0x0c]),
        (b'L', b"-42", b'S', &[0x30, 0x34, 0x72]),
        (b'P', &[0x12, 0x3d], b'S', &[0x31, 0x32, 0x73]),
        (b'P', &[0x12, 0x3f], b'S', b"123"),
        (b'P', &[0x12, 0x3d], b'U', &[0x00, 0x12, 0x3f]),
        (b'U', &[0x01, 0x23, 0x4d], b'B', &[0xfb, 0x2e]),
        (b'B', &[0xff, 0xfe], b'N', b"0002"),
        (b'B', &[0xff, 0xfe], b'S', &[0x30, 0x30, 0x72]),
        (b'B', &[0x7f, 0xff], b'N', b"2767"),
        (b'V', b"125", b'N', b"0012"),
        (b'V', b"125", b'P', &[0x01, 0x2c]),
        (b'V', b"009", b'S', b"000"),
        (b'C', b"58", b'N', b"0058"),
        (b'V', b"125", b'V', b"125"),
    ];
    for (from, bytes, to, held) in rows {
        assert!(rt; is(&item_moved(rt.alloc(), from, bytes, to)?, held));
    }
    Ok(())
}

#[test]
fn an_edited_item_receives_a_value_as_its_picture_shows_it(rt: HostRuntime) -> Result<(), Fail> {
    let rows: [(u8, &[u8], u8, &[u8]); 9] = [
        (b'N', b"0058", b'E', b"   58.0 "),
        (b'N', b"1234", b'E', b"1,234.0 "),
        (b'N', b"0000", b'E', b"    0.0 "),
        (b'S', &[0x30, 0x34, 0x72], b'E', b"   42.0-"),
        (b'V', b"125", b'E', b"   12.5 "),
        (b'B', &[0x7f, 0xff], b'E', b"2,767.0 "),
        (b'N', b"1234", b'D', b"00/12/34"),
        (b'X', b"12345", b'D', b"01/23/45"),
        (b'G', b"ab12", b'D', b"ab12    "),
    ];
    for (from, bytes, to, held) in rows {
        assert!(rt; is(&item_moved(rt.alloc(), from, bytes, to)?, held));
    }
    Ok(())
}

#[test]
fn a_numeric_use_of_bytes_that_hold_no_number_is_a_fault(rt: HostRuntime) -> Result<(), Fail> {
    let rows: [(u8, &[u8], u8); 9] = [
        (b'X', b"123  ", b'N'),
        (b'X', b"     ", b'E'),
        (b'D', b"58/07/02", b'N'),
        (b'N', b"12 4", b'S'),
        (b'N', &[0x31, 0x32, 0x33, 0x74], b'S'),
        (b'L', b" 42", b'N'),
        (b'P', &[0x04, 0x2e], b'X'),
        (b'U', &[0x11, 0x23, 0x4f], b'N'),
        (b'S', b"04 ", b'X'),
    ];
    for (from, bytes, to) in rows {
        assert!(rt; is_fault(&item_moved(rt.alloc(), from, bytes, to)?, RunFault::Data));
    }
    Ok(())
}

#[test]
fn a_reference_is_a_text_and_the_receiver_is_looked_up_last(rt: HostRuntime) -> Result<(), Fail> {
    let alloc = rt.alloc();
    let rows: [(&[u8], Item, Item, &[u8]); 5] = [
        (b"abcde", (b'X', 2, 3), (b'Y', 0, 0), b"bcd"),
        (b"abcde", (b'X', 2, 3), (b'X', 4, 2), b"bc"),
        (b"abcde", (b'X', 4, 2), (b'X', 1, 3), b"de "),
        (b"1234", (b'N', 2, 2), (b'S', 0, 0), b"023"),
        (b"1234", (b'N', 0, 0), (b'P', 1, 2), b"12"),
    ];
    for (bytes, from, to, held) in rows {
        assert!(rt; is(&part_moved(alloc, bytes, from, to)?, held));
    }
    let faults: [(&[u8], Item, Item, RunFault); 4] = [
        (b"abcde", (b'X', 6, 1), (b'Y', 0, 0), RunFault::Range),
        (b"abcde", (b'X', 0, 0), (b'Y', 3, 2), RunFault::Range),
        (b"12 4", (b'N', 0, 0), (b'S', 4, 1), RunFault::Range),
        (b"04 ", (b'S', 0, 0), (b'N', 5, 1), RunFault::Data),
    ];
    for (bytes, from, to, fault) in faults {
        assert!(rt; is_fault(&part_moved(alloc, bytes, from, to)?, fault));
    }
    Ok(())
}

#[test]
fn a_number_literal_is_a_number_or_its_digits(rt: HostRuntime) -> Result<(), Fail> {
    let rows: [(i128, u8, u8, u8, &[u8]); 14] = [
        (12, 0, 2, b'X', b"12   "),
        (7, 0, 3, b'X', b"007  "),
        (7, 0, 3, b'G', b"007 "),
        (-15, 1, 2, b'X', b"15   "),
        (1_234_567, 0, 7, b'X', b"12345"),
        (-15, 1, 2, b'E', b"    1.5-"),
        (-15, 1, 2, b'V', b"015"),
        (-15, 1, 2, b'S', &[0x30, 0x30, 0x71]),
        (-4, 1, 2, b'S', b"000"),
        (-4, 0, 1, b'P', &[0x00, 0x4d]),
        (-4, 0, 1, b'U', &[0x00, 0x00, 0x4f]),
        (12_345, 0, 5, b'N', b"2345"),
        (12_345, 0, 5, b'B', &[0x09, 0x29]),
        (580_702, 0, 6, b'D', b"58/07/02"),
    ];
    for (number, scale, digits, to, held) in rows {
        let operand = number_operand(number, scale, digits);
        assert!(rt; is(&literal_moved(rt.alloc(), &operand, to)?, held));
    }
    Ok(())
}

#[test]
fn a_text_or_a_figure_is_moved(rt: HostRuntime) -> Result<(), Fail> {
    let alloc = rt.alloc();
    let texts: [(&[u8], u8, &[u8]); 5] = [
        (b"ab", b'X', b"ab   "),
        (b"abcdef", b'G', b"abcd"),
        (b"42", b'N', b"0042"),
        (b"42", b'E', b"   42.0 "),
        (b"42", b'P', &[0x04, 0x2c]),
    ];
    for (text, to, held) in texts {
        let operand = text_operand(alloc, text)?;
        assert!(rt; is(&literal_moved(alloc, &operand, to)?, held));
    }
    let figures: [(u8, u8, &[u8]); 8] = [
        (b' ', b'X', b"     "),
        (b'0', b'X', b"00000"),
        (0xff, b'G', &[0xff, 0xff, 0xff, 0xff]),
        (b'0', b'G', b"0000"),
        (b'0', b'N', b"0000"),
        (b'0', b'P', &[0x00, 0x0c]),
        (b'0', b'E', b"    0.0 "),
        (b'0', b'D', b"00/00/00"),
    ];
    for (byte, to, held) in figures {
        let operand = Operand::Figure { byte, at: 0 };
        assert!(rt; is(&literal_moved(alloc, &operand, to)?, held));
    }
    Ok(())
}

#[test]
fn a_display_shows_texts_as_they_are_and_numbers_by_their_digits(
    rt: HostRuntime,
) -> Result<(), Fail> {
    let alloc = rt.alloc();
    let rows: [(u8, &[u8], &[u8]); 14] = [
        (b'X', b"ab   ", b"ab   "),
        (b'G', b"ab12", b"ab12"),
        (b'N', b"00 2", b"00 2"),
        (b'S', &[0x30, 0x34, 0x72], &[0x30, 0x34, 0x72]),
        (b'V', b"125", b"125"),
        (b'E', b"    1.5-", b"    1.5-"),
        (b'P', &[0x04, 0x2d], b"-042"),
        (b'P', &[0x04, 0x2c], b"042"),
        (b'P', &[0x00, 0x0d], b"000"),
        (b'U', &[0x01, 0x23, 0x4f], b"1234"),
        (b'B', &[0xff, 0xfe], b"-0002"),
        (b'B', &[0x00, 0x07], b"0007"),
        (b'B', &[0x7f, 0xff], b"2767"),
        (b'B', &[0x80, 0x00], b"-2768"),
    ];
    for (name, bytes, text) in rows {
        assert!(rt; is(&item_shown(alloc, name, bytes)?, text));
    }
    assert!(rt; is_fault(&item_shown(alloc, b'P', &[0x0a, 0x2c])?, RunFault::Data));
    Ok(())
}

#[test]
fn a_display_shows_literals_as_written(rt: HostRuntime) -> Result<(), Fail> {
    let alloc = rt.alloc();
    let spaces: (u8, &[u8]) = (b'X', b"     ");
    let numbers: [(i128, u8, u8, &[u8]); 3] = [
        (-15, 1, 2, b"-15"),
        (7, 0, 3, b"007"),
        (0, 0, 1, b"0"),
    ];
    for (number, scale, digits, text) in numbers {
        let operand = number_operand(number, scale, digits);
        assert!(rt; is(&shown(alloc, spaces, &operand)?, text));
    }
    let text = text_operand(alloc, b"a b")?;
    assert!(rt; is(&shown(alloc, spaces, &text)?, b"a b"));
    let figure = Operand::Figure { byte: b'0', at: 0 };
    assert!(rt; is(&shown(alloc, spaces, &figure)?, b"0"));
    Ok(())
}

/// What a place holds after bytes were moved to it.
fn group_moved_to(
    alloc: Global,
    places: &mut Places<'_>,
    storage: &mut Storage,
    from: &[u8],
    to: &Place,
) -> Result<Bytes, RunFault>
    requires storage { IsStorageOf (layout_of places.old) storage.old }
{
    move_group(alloc, places, storage, from, to)?;
    let bytes = held_at(alloc, places, storage, to)?;
    Ok(bytes)
}

fn group_moved(alloc: Global, from: &[u8], to: u8) -> Result<Result<Bytes, RunFault>, Memory> {
    let layout = fitting_layout(alloc)?;
    let mut storage = Storage::spaces(alloc, &layout)?;
    let mut places = Places::of(alloc, &layout);
    let to = place_of(alloc, whole(to))?;
    Ok(group_moved_to(alloc, &mut places, &mut storage, from, &to))
}

/// What an item holds after an operand was moved to its bytes as to a record, before which another held these bytes.
fn record_moved_to(
    alloc: Global,
    places: &mut Places<'_>,
    storage: &mut Storage,
    given: (u8, &[u8]),
    from: &Operand,
    to: &Place,
) -> Result<Bytes, RunFault>
    requires storage { IsStorageOf (layout_of places.old) storage.old }
{
    put(alloc, places, storage, given.0, given.1)?;
    let view = places.view(storage, to)?;
    move_record(alloc, places, storage, from, view.span)?;
    let bytes = held_at(alloc, places, storage, to)?;
    Ok(bytes)
}

fn record_moved(
    alloc: Global,
    given: (u8, &[u8]),
    from: &Operand,
    to: u8,
) -> Result<Result<Bytes, RunFault>, Memory> {
    let layout = fitting_layout(alloc)?;
    let mut storage = Storage::spaces(alloc, &layout)?;
    let mut places = Places::of(alloc, &layout);
    let to = place_of(alloc, whole(to))?;
    Ok(record_moved_to(alloc, &mut places, &mut storage, given, from, &to))
}

#[test]
fn records_and_groups_are_moved_as_bytes(rt: HostRuntime) -> Result<(), Fail> {
    let alloc = rt.alloc();
    let groups: [(&[u8], u8, &[u8]); 4] = [
        (b"ab", b'X', b"ab   "),
        (b"abcdef", b'N', b"abcd"),
        (b"a", b'P', b"a "),
        (b"", b'D', b"        "),
    ];
    for (bytes, to, held) in groups {
        assert!(rt; is(&group_moved(alloc, bytes, to)?, held));
    }
    let minus: (u8, &[u8]) = (b'S', &[0x30, 0x34, 0x72]);
    let number = item_operand(alloc, whole(b'S'))?;
    let records: [(u8, &[u8]); 2] = [(b'G', &[0x30, 0x34, 0x72, 0x20]), (b'P', &[0x30, 0x34])];
    for (to, held) in records {
        assert!(rt; is(&record_moved(alloc, minus, &number, to)?, held));
    }
    let zero = Operand::Figure { byte: b'0', at: 0 };
    assert!(rt; is(&record_moved(alloc, minus, &zero, b'P')?, b"00"));
    let literal = number_operand(-15, 1, 2);
    assert!(rt; is(&record_moved(alloc, minus, &literal, b'G')?, b"15  "));
    Ok(())
}

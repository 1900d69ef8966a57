ghost use Rattle.std.specs.Prelude.{IfOk};
ghost use Rattle.data_layout.specs.Index.{IsReady};

use super::*;
use cobol_syntax::{Entry, Part, Place, Program, Sub, Usage};
use data_layout::{Layout, LayoutFault, lay_out};
use decimal_bytes::SignPlace;
use picture::read_picture;
use std::alloc::Global;
use std::test::Fail;
use y2k_base::{AreaId, Bytes, List, Memory};

fn bytes_of(alloc: Global, text: &[u8]) -> Result<Bytes, Memory> {
    let mut bytes = List::new(alloc);
    bytes.append(text)?;
    Ok(bytes)
}

/// An entry of level 05, but for G, which is the 01; it has a picture where one is given.
fn entry_of(
    alloc: Global,
    name: u8,
    picture: &[u8],
    usage: Usage,
    occurs: Option<u32>,
) -> Result<Entry, Memory> {
    Ok(Entry {
        level: if name == b'G' { 1 } else { 5 },
        name: Some(bytes_of(alloc, &[name])?),
        redefines: None,
        occurs,
        picture: read_picture(alloc, picture).ok(),
        picture_at: 0,
        usage,
        sign: SignPlace::Trailing,
        value: None,
        ranges: List::new(alloc),
        at: 0,
    })
}

/// The group G of a text T, digits D, a signed number S, a decimal number V, a packed number P, a binary number B,
/// an edited item E and a table of digits R.
fn layout_of_kinds(alloc: Global) -> Result<Layout, LayoutFault>
    ensures { IfOk result IsReady }
{
    let mut storage = List::new(alloc);
    storage.push(entry_of(alloc, b'G', b"", Usage::Display, None)?)?;
    storage.push(entry_of(alloc, b'T', b"X(6)", Usage::Display, None)?)?;
    storage.push(entry_of(alloc, b'D', b"9(6)", Usage::Display, None)?)?;
    storage.push(entry_of(alloc, b'S', b"S9(4)", Usage::Display, None)?)?;
    storage.push(entry_of(alloc, b'V', b"9(4)V99", Usage::Display, None)?)?;
    storage.push(entry_of(alloc, b'P', b"9(5)", Usage::Packed, None)?)?;
    storage.push(entry_of(alloc, b'B', b"9(4)", Usage::Binary, None)?)?;
    storage.push(entry_of(alloc, b'E', b"Z9", Usage::Display, None)?)?;
    storage.push(entry_of(alloc, b'R', b"99", Usage::Display, Some(3))?)?;
    let program = Program {
        id: List::new(alloc),
        words: List::new(alloc),
        selects: List::new(alloc),
        files: List::new(alloc),
        storage,
        paragraphs: List::new(alloc),
    };
    lay_out(alloc, &program, AreaId(0))
}

/// A bound of a reference: 0 for one that isn't written, 99 for the data name D, and else a number.
fn bound_of(alloc: Global, bound: u32) -> Result<Option<Sub>, Memory> {
    match bound {
        0 => Ok(None),
        99 => {
            let mut names = List::new(alloc);
            names.push(bytes_of(alloc, b"D")?)?;
            Ok(Some(Sub::Name(names)))
        }
        value => Ok(Some(Sub::Number { value, at: 0 })),
    }
}

/// The item of a name, or its part from a start on, of a length.
fn place_of(alloc: Global, name: u8, start: u32, length: u32) -> Result<Place, Memory> {
    let mut names = List::new(alloc);
    names.push(bytes_of(alloc, &[name])?)?;
    let cut = match bound_of(alloc, start)? {
        None => None,
        Some(start) => Some(Part {
            start,
            length: bound_of(alloc, length)?,
        }),
    };
    Ok(Place {
        names,
        subs: List::new(alloc),
        cut,
        at: 0,
        end: 1,
    })
}

/// The kind of the item of a name; a group where there is none.
fn kind_named(alloc: Global, layout: &Layout, name: u8) -> Result<Kind, Memory>
    requires { IsReady layout.now }
{
    match see(layout, &place_of(alloc, name, 0, 0)?) {
        Some(seen) => Ok(seen.kind),
        None => Ok(Kind::Group),
    }
}

#[test]
fn groups_and_texts_are_copied_by_bytes_and_numbers_by_digits(rt: HostRuntime) -> Result<(), Fail> {
    let alloc = rt.alloc();
    let layout = layout_of_kinds(alloc)?;
    let copied = [
        b"GT", b"GD", b"GB", b"TG", b"TT", b"DG", b"DT", b"ET", b"PG",
    ];
    for pair in copied {
        let from = kind_named(alloc, &layout, pair[0])?;
        let to = kind_named(alloc, &layout, pair[1])?;
        assert!(rt; copies_bytes(from, to));
    }
    let by_digits = [
        b"TD", b"TE", b"DD", b"DE", b"DP", b"ST", b"VT", b"PT", b"BT", b"PD", b"ED",
    ];
    for pair in by_digits {
        let from = kind_named(alloc, &layout, pair[0])?;
        let to = kind_named(alloc, &layout, pair[1])?;
        assert!(rt; !copies_bytes(from, to));
    }
    Ok(())
}

#[test]
fn two_numbers_alone_are_compared_by_value(rt: HostRuntime) -> Result<(), Fail> {
    let alloc = rt.alloc();
    let layout = layout_of_kinds(alloc)?;
    for pair in [b"DD", b"DP", b"SB", b"VR"] {
        let left = kind_named(alloc, &layout, pair[0])?;
        let right = kind_named(alloc, &layout, pair[1])?;
        assert!(rt; compares_values(left, right));
    }
    for pair in [b"DT", b"TD", b"GD", b"DE", b"EE", b"TT"] {
        let left = kind_named(alloc, &layout, pair[0])?;
        let right = kind_named(alloc, &layout, pair[1])?;
        assert!(rt; !compares_values(left, right));
    }
    Ok(())
}

#[test]
fn a_reference_is_a_text_of_the_bytes_that_it_names(rt: HostRuntime) -> Result<(), Fail> {
    let alloc = rt.alloc();
    let layout = layout_of_kinds(alloc)?;
    let rows = [
        (
            0,
            0,
            Reach::Fixed {
                start: 0,
                length: 6,
            },
        ),
        (
            3,
            2,
            Reach::Fixed {
                start: 2,
                length: 2,
            },
        ),
        (
            3,
            0,
            Reach::Fixed {
                start: 2,
                length: 4,
            },
        ),
        (99, 2, Reach::Moving { length: 2 }),
        (3, 99, Reach::Open { most: 4 }),
        (99, 0, Reach::Open { most: 6 }),
        (99, 99, Reach::Open { most: 6 }),
    ];
    for (start, length, reach) in rows {
        let seen = see(&layout, &place_of(alloc, b'D', start, length)?);
        let kind = if start == 0 {
            kind_named(alloc, &layout, b'D')?
        } else {
            Kind::Text
        };
        assert!(rt;
            seen == Some(Seen {
                item: 2,
                kind,
                reach
            })
        );
    }
    Ok(())
}

#[test]
fn subscripts_are_integers_in_no_table(rt: HostRuntime) -> Result<(), Fail> {
    let alloc = rt.alloc();
    let layout = layout_of_kinds(alloc)?;
    for name in [b'D', b'S', b'P', b'B'] {
        assert!(rt; is_subscript(&layout, place_of(alloc, name, 0, 0)?.names.items()));
    }
    for name in [b'G', b'T', b'V', b'E', b'R', b'Q'] {
        assert!(rt; !is_subscript(&layout, place_of(alloc, name, 0, 0)?.names.items()));
    }
    assert!(rt; see(&layout, &place_of(alloc, b'Q', 0, 0)?).is_none());
    Ok(())
}

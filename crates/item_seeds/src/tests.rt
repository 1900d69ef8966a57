ghost use Rattle.std.specs.Prelude.{IfOk};
ghost use Rattle.data_layout.specs.Index.{IsReady};

use super::*;
use cobol_syntax::{Entry, Program, Usage};
use data_layout::{Layout, LayoutFault, lay_out};
use decimal_bytes::SignPlace;
use picture::read_picture;
use std::alloc::Global;
use std::test::Fail;
use y2k_base::{AreaId, Bytes, List, Memory};
use year_labels::{Label, Seed};

fn bytes_of(alloc: Global, text: &[u8]) -> Result<Bytes, Memory> {
    let mut bytes = List::new(alloc);
    bytes.append(text)?;
    Ok(bytes)
}

/// An entry of level 05, but for G, which is the 01; it has a picture where one is given.
fn entry_of(
    alloc: Global,
    name: u8,
    picture: &[u8],
    usage: Usage,
    sign: SignPlace,
) -> Result<Entry, Memory> {
    Ok(Entry {
        level: if name == b'G' { 1 } else { 5 },
        name: Some(bytes_of(alloc, &[name])?),
        redefines: None,
        occurs: None,
        picture: read_picture(alloc, picture).ok(),
        picture_at: 0,
        usage,
        sign,
        value: None,
        ranges: List::new(alloc),
        at: 0,
    })
}

/// The group G of a text T, digits D, a signed number S with a sign byte before it, an edited item E, a packed number P,
/// a packed number V with a decimal and a binary number B, at the offsets 0, 0, 4, 10, 15, 20, 24 and 27.
fn layout_of_items(alloc: Global) -> Result<Layout, LayoutFault>
    ensures { IfOk result IsReady }
{
    let shown = Usage::Display;
    let plus = SignPlace::Trailing;
    let mut storage = List::new(alloc);
    storage.push(entry_of(alloc, b'G', b"", shown, plus)?)?;
    storage.push(entry_of(alloc, b'T', b"X(4)", shown, plus)?)?;
    storage.push(entry_of(alloc, b'D', b"9(6)", shown, plus)?)?;
    let sign = SignPlace::LeadingSeparate;
    storage.push(entry_of(alloc, b'S', b"S9(4)", shown, sign)?)?;
    storage.push(entry_of(alloc, b'E', b"99/99", shown, plus)?)?;
    storage.push(entry_of(alloc, b'P', b"9(6)", Usage::Packed, plus)?)?;
    storage.push(entry_of(alloc, b'V', b"9(4)V9", Usage::Packed, plus)?)?;
    storage.push(entry_of(alloc, b'B', b"9(4)", Usage::Binary, plus)?)?;
    let program = Program {
        id: List::new(alloc),
        words: List::new(alloc),
        selects: List::new(alloc),
        files: List::new(alloc),
        storage,
        paragraphs: List::new(alloc),
    };
    lay_out(alloc, &program, AreaId(0))
}

fn code_of(alloc: Global, label: Label) -> Result<String, Memory> {
    let code = match label {
        Label::Tens => format!(in alloc; "T")?,
        Label::Units => format!(in alloc; "U")?,
        Label::Plain => format!(in alloc; "P")?,
        Label::Packed { digits, unit, byte } => format!(in alloc; "K{digits}.{unit}.{byte}")?,
    };
    Ok(code)
}

/// Each seed as `OFFSET LABEL ROW` with a point, or `none`.
fn show(alloc: Global, seeds: &Option<List<Seed>>) -> Result<String, Memory> {
    let mut text = String::new(alloc);
    match seeds {
        Some(seeds) => {
            for seed in seeds.items() {
                let offset = seed.fact.place.offset;
                let code = code_of(alloc, seed.fact.label)?;
                let row = seed.row;
                let part = format!(in alloc; "{offset} {code} {row}.")?;
                text.push_str(part.as_str())?;
            }
        }
        None => text.push_str("none")?,
    }
    Ok(text)
}

#[test]
fn a_year_stands_at_a_digit_of_an_item(rt: HostRuntime) -> Result<(), Fail> {
    let alloc = rt.alloc();
    let layout = layout_of_items(alloc)?;
    let rows: [(&str, u32, &str); 14] = [
        ("G", 1, "0 T 7.1 U 7."),
        ("T", 3, "2 T 7.3 U 7."),
        ("T", 4, "none"),
        ("D", 1, "4 T 7.5 U 7."),
        ("D", 6, "none"),
        ("S", 1, "11 T 7.12 U 7."),
        ("S", 4, "none"),
        ("E", 2, "16 T 7.18 U 7."),
        ("P", 1, "20 K6.4.0 7.21 K6.4.1 7.22 K6.4.2 7.23 K6.4.3 7."),
        ("P", 5, "20 K6.0.0 7.21 K6.0.1 7.22 K6.0.2 7.23 K6.0.3 7."),
        ("P", 6, "none"),
        ("V", 3, "24 K5.0.0 7.25 K5.0.1 7.26 K5.0.2 7."),
        ("V", 4, "none"),
        ("B", 1, "none"),
    ];
    for (name, digit, want) in rows {
        let text = match named_item(alloc, &layout, name.as_bytes())? {
            Some(number) => match layout.items.items().get(number as usize) {
                Some(item) => show(alloc, &year_seeds(alloc, item, digit, 7)?)?,
                None => String::new(alloc),
            },
            None => String::new(alloc),
        };
        assert_eq!(rt; text.as_str(), want);
    }
    Ok(())
}

#[test]
fn every_byte_of_a_plain_item_is_plain(rt: HostRuntime) -> Result<(), Fail> {
    let alloc = rt.alloc();
    let layout = layout_of_items(alloc)?;
    let rows = [
        ("T", "0 P 2.1 P 2.2 P 2.3 P 2."),
        ("V", "24 P 2.25 P 2.26 P 2."),
        ("B", "none"),
    ];
    for (name, want) in rows {
        let text = match named_item(alloc, &layout, name.as_bytes())? {
            Some(number) => match layout.items.items().get(number as usize) {
                Some(item) => show(alloc, &plain_seeds(alloc, item, 2)?)?,
                None => String::new(alloc),
            },
            None => String::new(alloc),
        };
        assert_eq!(rt; text.as_str(), want);
    }
    Ok(())
}

#[test]
fn names_are_parted_by_of_alone(rt: HostRuntime) -> Result<(), Fail> {
    let alloc = rt.alloc();
    let layout = layout_of_items(alloc)?;
    for name in ["D", "d", "D OF G", " d  of g "] {
        assert_eq!(rt; named_item(alloc, &layout, name.as_bytes())?, Some(2));
    }
    for name in ["", "Z", "D IN G", "D OF", "OF G", "D G", "D OF T", "D(1)"] {
        assert_eq!(rt; named_item(alloc, &layout, name.as_bytes())?, None);
    }
    Ok(())
}

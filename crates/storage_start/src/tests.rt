use crate::literals::are_literals;
use crate::start;
use cobol_syntax::{Entry, FileEntry, Operand, Program, Usage};
use data_layout::lay_out;
use decimal_bytes::{Scaled, SignPlace};
use picture::read_picture;
use std::alloc::Global;
use std::test::Fail;
use storage_places::{Storage, layout_fits};
use y2k_base::{AreaId, Bytes, List, Memory, Span};

/// What stands after VALUE: a number with its scale and the number of its digits, a text, or a figure by its byte.
#[derive(Clone, Copy)]
enum Value<'a> {
    Nothing,
    Number(i128, u8, u8),
    Text(&'a [u8]),
    Figure(u8),
}

fn bytes_of(alloc: Global, text: &[u8]) -> Result<Bytes, Memory> {
    let mut bytes = List::new(alloc);
    bytes.append(text)?;
    Ok(bytes)
}

fn operand_of(alloc: Global, value: Value<'_>) -> Result<Option<Operand>, Memory> {
    match value {
        Value::Nothing => Ok(None),
        Value::Number(number, scale, digits) => {
            let value = Scaled { number, scale };
            Ok(Some(Operand::Number {
                value,
                digits,
                at: 0,
            }))
        }
        Value::Text(text) => {
            let bytes = bytes_of(alloc, text)?;
            Ok(Some(Operand::Text { bytes, at: 0 }))
        }
        Value::Figure(byte) => Ok(Some(Operand::Figure { byte, at: 0 })),
    }
}

/// An item of DISPLAY usage; without a picture it is a group.
fn entry_of(
    alloc: Global,
    level: u8,
    name: u8,
    picture: &[u8],
    value: Value<'_>,
) -> Result<Entry, Memory> {
    Ok(Entry {
        level,
        name: Some(bytes_of(alloc, &[name])?),
        redefines: None,
        occurs: None,
        picture: read_picture(alloc, picture).ok(),
        picture_at: 0,
        usage: Usage::Display,
        sign: SignPlace::Trailing,
        value: operand_of(alloc, value)?,
        ranges: List::new(alloc),
        at: 0,
    })
}

/// An item that occurs several times.
fn table_of(
    alloc: Global,
    level: u8,
    name: u8,
    picture: &[u8],
    value: Value<'_>,
    times: u32,
) -> Result<Entry, Memory> {
    let mut entry = entry_of(alloc, level, name, picture, value)?;
    entry.occurs = Some(times);
    Ok(entry)
}

fn packed_of(alloc: Global, name: u8, picture: &[u8], value: Value<'_>) -> Result<Entry, Memory> {
    let mut entry = entry_of(alloc, 77, name, picture, value)?;
    entry.usage = Usage::Packed;
    Ok(entry)
}

/// `FD F. 01 K PIC X(2).`
fn files_of(alloc: Global) -> Result<List<FileEntry>, Memory> {
    let mut entries = List::new(alloc);
    entries.push(entry_of(alloc, 1, b'K', b"X(2)", Value::Nothing)?)?;
    let mut files = List::new(alloc);
    files.push(FileEntry {
        name: bytes_of(alloc, b"F")?,
        contains: None,
        entries,
        at: 0,
    })?;
    Ok(files)
}

/// `01 T. 05 R OCCURS 3. 10 A PIC 9(2) VALUE 7. 10 B PIC X(3) VALUE "AB".` and
/// `01 W. 05 V OCCURS 2. 10 U PIC X OCCURS 2 VALUE "Q". 10 Y PIC X.` and `01 G VALUE "AB". 05 H PIC X(4).`
fn add_groups(alloc: Global, entries: &mut List<Entry>) -> Result<(), Memory> {
    entries.push(entry_of(alloc, 1, b'T', b"", Value::Nothing)?)?;
    entries.push(table_of(alloc, 5, b'R', b"", Value::Nothing, 3)?)?;
    entries.push(entry_of(alloc, 10, b'A', b"9(2)", Value::Number(7, 0, 1))?)?;
    entries.push(entry_of(alloc, 10, b'B', b"X(3)", Value::Text(b"AB"))?)?;
    entries.push(entry_of(alloc, 1, b'W', b"", Value::Nothing)?)?;
    entries.push(table_of(alloc, 5, b'V', b"", Value::Nothing, 2)?)?;
    entries.push(table_of(alloc, 10, b'U', b"X", Value::Text(b"Q"), 2)?)?;
    entries.push(entry_of(alloc, 10, b'Y', b"X", Value::Nothing)?)?;
    entries.push(entry_of(alloc, 1, b'G', b"", Value::Text(b"AB"))?)?;
    entries.push(entry_of(alloc, 5, b'H', b"X(4)", Value::Nothing)?)?;
    Ok(())
}

/// Single items of all kinds.
fn add_singles(alloc: Global, entries: &mut List<Entry>) -> Result<(), Memory> {
    entries.push(entry_of(alloc, 77, b'X', b"X(4)", Value::Nothing)?)?;
    entries.push(entry_of(alloc, 77, b'N', b"9(3)V9", Value::Number(15, 1, 2))?)?;
    entries.push(entry_of(alloc, 77, b'E', b"Z,ZZ9.99", Value::Number(125, 1, 3))?)?;
    entries.push(entry_of(alloc, 77, b'Z', b"X(2)", Value::Figure(b'0'))?)?;
    entries.push(entry_of(alloc, 77, b'O', b"9(2)", Value::Figure(b'0'))?)?;
    entries.push(packed_of(alloc, b'P', b"9(2)", Value::Number(12, 0, 2))?)?;
    entries.push(entry_of(alloc, 77, b'Q', b"X(3)", Value::Figure(255))?)?;
    Ok(())
}

fn program_of(alloc: Global) -> Result<Program, Memory> {
    let mut storage = List::new(alloc);
    add_groups(alloc, &mut storage)?;
    add_singles(alloc, &mut storage)?;
    Ok(Program {
        id: List::new(alloc),
        words: List::new(alloc),
        selects: List::new(alloc),
        files: files_of(alloc)?,
        storage,
        paragraphs: List::new(alloc),
    })
}

/// The storage of the program, whose areas are numbered from 7 on.
fn started(alloc: Global) -> Result<Storage, Memory> {
    let program = program_of(alloc)?;
    let layout = match lay_out(alloc, &program, AreaId(7)) {
        Ok(layout) => layout,
        Err(_) => return Err(Memory),
    };
    if !layout_fits(&layout) {
        return Err(Memory);
    }
    let storage = start(alloc, &program, &layout)?;
    Ok(storage)
}

fn holds(storage: &Storage, area: u32, bytes: &[u8], length: u32) -> bool {
    let span = Span {
        area: AreaId(area),
        offset: 0,
        length,
    };
    storage.bytes(span) == Some(bytes)
}

#[test]
fn each_value_goes_to_each_occurrence(rt: HostRuntime) -> Result<(), Fail> {
    let alloc = rt.alloc();
    let storage = started(alloc)?;
    let rows = [
        (7, b"  ".as_slice(), 2),
        (8, b"07AB 07AB 07AB ".as_slice(), 15),
        (9, b"QQ QQ ".as_slice(), 6),
        (10, b"AB  ".as_slice(), 4),
        (11, b"    ".as_slice(), 4),
        (12, b"0015".as_slice(), 4),
        (13, b"   12.50".as_slice(), 8),
        (14, b"00".as_slice(), 2),
        (15, b"00".as_slice(), 2),
        (16, b"\x01\x2F".as_slice(), 2),
        (17, b"\xFF\xFF\xFF".as_slice(), 3),
    ];
    for (area, bytes, length) in rows {
        assert!(rt; holds(&storage, area, bytes, length));
    }
    Ok(())
}

fn written(alloc: Global, value: Value<'_>) -> Result<bool, Memory> {
    let mut program = program_of(alloc)?;
    program
        .storage
        .push(entry_of(alloc, 77, b'I', b"9(2)", value)?)?;
    Ok(are_literals(&program))
}

#[test]
fn a_literal_has_as_many_digits_as_are_written(rt: HostRuntime) -> Result<(), Fail> {
    let alloc = rt.alloc();
    let most = 999_999_999_999_999_999;
    let rows = [
        (Value::Number(12, 0, 2), true),
        (Value::Number(-12, 1, 3), true),
        (Value::Number(12, 0, 1), false),
        (Value::Number(most, 0, 18), true),
        (Value::Number(most, 0, 19), false),
        (Value::Text(b""), true),
    ];
    for (value, literal) in rows {
        assert!(rt; written(alloc, value)? == literal);
    }
    Ok(())
}

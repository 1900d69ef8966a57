use super::*;
use cobol_syntax::{Entry, FileEntry, Place, Program, Select, Usage};
use data_layout::{FileUse, Layout, LayoutFault, lay_out};
use decimal_bytes::SignPlace;
use picture::read_picture;
use std::alloc::Global;
use std::test::Fail;
use y2k_base::{AreaId, Bytes, List, Memory, Span};

fn name(alloc: Global, letter: u8) -> Result<Bytes, Memory> {
    let mut bytes = List::new(alloc);
    bytes.push(letter)?;
    Ok(bytes)
}

fn entry_of(alloc: Global, letter: u8, picture: &[u8]) -> Result<Entry, Memory> {
    Ok(Entry {
        level: 1,
        name: Some(name(alloc, letter)?),
        redefines: None,
        occurs: None,
        picture: read_picture(alloc, picture).ok(),
        picture_at: 0,
        usage: Usage::Display,
        sign: SignPlace::Trailing,
        value: None,
        ranges: List::new(alloc),
        at: 0,
    })
}

fn fd(alloc: Global, letter: u8, record: u8, picture: &[u8]) -> Result<FileEntry, Memory> {
    let mut entries = List::new(alloc);
    entries.push(entry_of(alloc, record, picture)?)?;
    Ok(FileEntry {
        name: name(alloc, letter)?,
        contains: None,
        entries,
        at: 0,
    })
}

fn place(alloc: Global, letter: u8) -> Result<Place, Memory> {
    let mut names = List::new(alloc);
    names.push(name(alloc, letter)?)?;
    Ok(Place {
        names,
        subs: List::new(alloc),
        cut: None,
        at: 0,
        end: 1,
    })
}

fn select(alloc: Global, letter: u8, external: u8, status: Option<u8>) -> Result<Select, Memory> {
    let status = match status {
        Some(item) => Some(place(alloc, item)?),
        None => None,
    };
    Ok(Select {
        name: name(alloc, letter)?,
        external: name(alloc, external)?,
        status,
        at: 0,
    })
}

/// The files A, B and C are X, Y and Z outside, and a second A is Y. The FD of B comes before that of A, and C has none. S
/// is a status.
fn program_of(alloc: Global) -> Result<Program, Memory> {
    let mut selects = List::new(alloc);
    selects.push(select(alloc, b'A', b'X', None)?)?;
    selects.push(select(alloc, b'B', b'Y', Some(b'S'))?)?;
    selects.push(select(alloc, b'C', b'Z', None)?)?;
    selects.push(select(alloc, b'A', b'Y', Some(b'S'))?)?;
    let mut files = List::new(alloc);
    files.push(fd(alloc, b'B', b'R', b"X(3)")?)?;
    files.push(fd(alloc, b'A', b'T', b"X(5)")?)?;
    let mut storage = List::new(alloc);
    storage.push(entry_of(alloc, b'S', b"X(2)")?)?;
    Ok(Program {
        id: List::new(alloc),
        words: List::new(alloc),
        selects,
        files,
        storage,
        paragraphs: List::new(alloc),
    })
}

fn layout_of(alloc: Global, program: &Program) -> Result<Layout, LayoutFault> {
    lay_out(alloc, program, AreaId(7))
}

fn file_use(alloc: Global, external: u8) -> Result<FileUse, Memory> {
    Ok(FileUse {
        external: name(alloc, external)?,
        name: List::new(alloc),
        length: 0,
        areas: List::new(alloc),
    })
}

/// The external files Y and X.
fn files_of(alloc: Global) -> Result<List<FileUse>, Memory> {
    let mut files = List::new(alloc);
    files.push(file_use(alloc, b'Y')?)?;
    files.push(file_use(alloc, b'X')?)?;
    Ok(files)
}

/// What is asked for: the file of a name, or that of an area.
#[derive(Clone, Copy)]
enum By {
    Name(u8),
    Area(u32),
}

/// A file by its numbers, with the first byte of its status.
type Shown = (u32, u32, Span, Option<u8>);

fn first_byte(names: &List<Bytes>) -> u8 {
    match names.items() {
        [name, ..] => match name.items() {
            [byte, ..] => *byte,
            [] => 0,
        },
        [] => 0,
    }
}

fn show(channel: &Channel<'_>) -> Shown {
    let status = match channel.status {
        Some(place) => Some(first_byte(&place.names)),
        None => None,
    };
    (channel.file, channel.area, channel.span, status)
}

fn asked(channels: &Channels<'_>, what: By) -> Option<Shown> {
    let found = match what {
        By::Name(letter) => channels.find(&[letter]),
        By::Area(area) => channels.at_area(area),
    };
    match found {
        Some(channel) => Some(show(&channel)),
        None => None,
    }
}

fn found(alloc: Global, what: By) -> Result<Option<Shown>, Memory> {
    let program = program_of(alloc)?;
    let layout = match layout_of(alloc, &program) {
        Ok(layout) => layout,
        Err(_) => return Err(Memory),
    };
    let files = files_of(alloc)?;
    let channels = Channels::of(alloc, files.items(), &program, &layout)?;
    Ok(asked(&channels, what))
}

fn area(number: u32, length: u32) -> Span {
    Span {
        area: AreaId(number),
        offset: 0,
        length,
    }
}

#[test]
fn a_file_is_found_by_its_name_and_by_its_area(rt: HostRuntime) -> Result<(), Fail> {
    let alloc = rt.alloc();
    let rows = [
        (By::Name(b'A'), Some((1, 1, area(8, 5), None))),
        (By::Name(b'B'), Some((0, 0, area(7, 3), Some(b'S')))),
        (By::Name(b'C'), Some((2, 2, area(9, 2), None))),
        (By::Name(b'X'), None),
        (By::Area(0), Some((0, 0, area(7, 3), Some(b'S')))),
        (By::Area(1), Some((1, 1, area(8, 5), None))),
        (By::Area(3), None),
    ];
    for (what, channel) in rows {
        assert!(rt; found(alloc, what)? == channel);
    }
    Ok(())
}

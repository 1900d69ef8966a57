ghost use Rattle.std.specs.Prelude.{OnOk};
ghost use Rattle.reports.specs.Rows.{IsBetweenRows};

use crate::items::{ItemStart, elementary_items, push_header, push_item};
use crate::rows::Rows;
use crate::tests::{bytes_of, program, texts};
use cobol_syntax::{Entry, Program, Usage};
use data_layout::{Item, lay_out};
use decimal_bytes::SignPlace;
use std::alloc::Global;
use std::test::Fail;
use y2k_base::{
    AreaId, Bytes, FileId, List, Memory, Origin, PicClass, Picture, Run, Text, Word, WordKind,
};

/// An entry on a line of its own: its level, its name, what it redefines, and its PICTURE word with how many 9s that
/// stands for.
type Line<'a> = (u8, Option<&'a str>, Option<&'a str>, Option<(&'a str, u32)>);

fn name_of(alloc: Global, name: Option<&str>) -> Result<Option<Bytes>, Memory> {
    match name {
        Some(name) => Ok(Some(bytes_of(alloc, name)?)),
        None => Ok(None),
    }
}

fn nines(alloc: Global, count: u32) -> Result<Picture, Memory> {
    let mut runs = List::new(alloc);
    runs.push(Run {
        symbol: b'9',
        count,
    })?;
    let class = PicClass::Number;
    Ok(Picture { class, runs })
}

fn picture_of(alloc: Global, picture: Option<(&str, u32)>) -> Result<Option<Picture>, Memory> {
    match picture {
        Some((_, count)) => Ok(Some(nines(alloc, count)?)),
        None => Ok(None),
    }
}

/// Adds a word of the second text. Level numbers stand in column 8 or 12, and of the others the column doesn't matter.
fn add_word(
    alloc: Global,
    program: &mut Program,
    kind: WordKind,
    text: &str,
    line: u32,
    column: u32,
) -> Result<(), Memory> {
    let text = bytes_of(alloc, text)?;
    let origin = Origin {
        file: FileId(1),
        line,
        column,
    };
    program.words.push(Word { text, kind, origin })
}

fn add_words(alloc: Global, program: &mut Program, line: u32, entry: Line) -> Result<(), Memory> {
    let (level, name, _, picture) = entry;
    if level == 1 {
        add_word(alloc, program, WordKind::Number, "01", line, 8)?;
    } else {
        add_word(alloc, program, WordKind::Number, "05", line, 12)?;
    }
    let name = match name {
        Some(name) => name,
        None => "FILLER",
    };
    add_word(alloc, program, WordKind::Name, name, line, 20)?;
    if let Some((text, _)) = picture {
        add_word(alloc, program, WordKind::Name, "PIC", line, 30)?;
        add_word(alloc, program, WordKind::Picture, text, line, 34)?;
    }
    add_word(alloc, program, WordKind::Mark, ".", line, 50)
}

fn add_entry(alloc: Global, program: &mut Program, line: u32, entry: Line) -> Result<(), Memory> {
    let at = match u32::try_from(program.words.len()) {
        Ok(at) => at,
        Err(_) => return Err(Memory),
    };
    add_words(alloc, program, line, entry)?;
    let (level, name, redefines, picture) = entry;
    let name = name_of(alloc, name)?;
    let redefines = name_of(alloc, redefines)?;
    let picture = picture_of(alloc, picture)?;
    program.storage.push(Entry {
        level,
        name,
        redefines,
        occurs: None,
        picture,
        picture_at: at,
        usage: Usage::Display,
        sign: SignPlace::Trailing,
        value: None,
        ranges: List::new(alloc),
        at,
    })
}

/// A program with these entries from line 5 on.
fn program_of(alloc: Global, name: &str, entries: &[Line]) -> Result<Program, Fail> {
    let mut program = program(alloc, name)?;
    let mut line = 5_u32;
    for i in 0..entries.len() {
        add_entry(alloc, &mut program, line, entries[i])?;
        line = line.wrapping_add(1);
    }
    Ok(program)
}

/// Writes the row of an item that is converted to that PICTURE word.
fn push_start(
    alloc: Global,
    rows: &mut Rows,
    texts: &[Text],
    program: &Program,
    items: &[Item],
    start: ItemStart,
    new: &str,
) -> Result<(), Memory>
    requires { IsBetweenRows rows.old }
    ensures { OnOk result (IsBetweenRows rows.new) }
{
    match items.get(start.item) {
        Some(item) => push_item(
            alloc,
            rows,
            texts,
            program,
            item,
            "expanded",
            new.as_bytes(),
        ),
        None => Err(Memory),
    }
}

#[test]
fn items_go_by_their_first_bytes(rt: HostRuntime) -> Result<(), Fail> {
    let alloc = rt.alloc();
    let entries = [
        (1, Some("D"), None, None),
        (5, Some("YY"), None, Some(("99", 2))),
        (5, Some("MD"), None, Some(("9(4)", 4))),
        (1, None, Some("D"), None),
        (5, Some("Y2"), None, Some(("9(02)", 2))),
        (5, None, None, Some(("9999", 4))),
    ];
    let program = program_of(alloc, "P", &entries)?;
    let mut layouts = List::new(alloc);
    layouts.push(lay_out(alloc, &program, AreaId(3))?)?;
    layouts.push(lay_out(alloc, &program, AreaId(1))?)?;
    let starts = elementary_items(alloc, layouts.items())?;
    let expected = [
        (1, 0, 1, 1),
        (1, 0, 1, 4),
        (1, 2, 1, 2),
        (1, 2, 1, 5),
        (3, 0, 0, 1),
        (3, 0, 0, 4),
        (3, 2, 0, 2),
        (3, 2, 0, 5),
    ];
    assert!(rt; starts.len() == 8);
    for i in 0..expected.len() {
        let (area, offset, program, item) = expected[i];
        let start = ItemStart {
            area,
            offset,
            program,
            item,
        };
        assert!(rt; starts.get(i).copied() == Some(start));
    }
    Ok(())
}

#[test]
fn an_item_has_its_place_and_its_picture_as_written(rt: HostRuntime) -> Result<(), Fail> {
    let alloc = rt.alloc();
    let entries = [
        (1, Some("D"), None, Some(("9(6)", 6))),
        (1, Some("G"), Some("D"), None),
        (5, Some("YY"), None, Some(("99", 2))),
        (5, None, None, Some(("9(04)", 4))),
    ];
    let program = program_of(alloc, "P5", &entries)?;
    let mut layouts = List::new(alloc);
    layouts.push(lay_out(alloc, &program, AreaId(0))?)?;
    let texts = texts(alloc, &["B.cpy", "P5.cbl"])?;
    let starts = elementary_items(alloc, layouts.items())?;
    let [layout] = layouts.items() else {
        return Ok(());
    };
    let items = layout.items.items();
    let mut rows = Rows::new(alloc);
    push_header(&mut rows)?;
    let list = texts.list.items();
    if let [d, yy, rest] = starts.as_slice() {
        push_start(alloc, &mut rows, list, &program, items, *d, "9(8)")?;
        push_start(alloc, &mut rows, list, &program, items, *yy, "9(4)")?;
        push_start(alloc, &mut rows, list, &program, items, *rest, "Z,999")?;
    }
    let report = rows.into_bytes()?;
    let expected = "program,item,at,mode,old,new\n\
        P5,D,P5.cbl:5:8,expanded,9(6),9(8)\n\
        P5,YY,P5.cbl:7:12,expanded,99,9(4)\n\
        P5,FILLER,P5.cbl:8:12,expanded,9(04),\"Z,999\"\n";
    assert!(rt; report.items() == expected.as_bytes());
    Ok(())
}

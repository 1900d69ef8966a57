use super::*;
use gathered::assemble;
use std::alloc::Global;
use std::test::Fail;
use y2k_base::{Bytes, List, Memory, Text, TextRole, Texts};
use year_labels::{Label, Seed};

/// Each entry of level 01 is an area, from 0 on in this order.
const PROGRAM: &str =
    "       ID DIVISION.\n       PROGRAM-ID. P.\n       DATA DIVISION.\n       WORKING-STORAGE SECTION.\n       01 YY PIC 9(2).\n       01 D PIC 9(6).\n       01 K PIC 9(6) PACKED-DECIMAL.\n       01 B PIC 9(4) BINARY.\n       01 REC.\n          05 A PIC X(2).\n          05 N PIC 9(2).\n       01 REC-2.\n          05 A PIC X(2).\n          05 F PIC 9(2)V9(2) PACKED-DECIMAL.\n       PROCEDURE DIVISION.\n       MAIN-PARA.\n           STOP RUN.\n";

fn bytes_of(alloc: Global, text: &str) -> Result<Bytes, Memory> {
    let mut bytes = List::new(alloc);
    bytes.append(text.as_bytes())?;
    Ok(bytes)
}

fn texts(alloc: Global) -> Result<Texts, Memory> {
    let text = Text {
        name: bytes_of(alloc, "P.cbl")?,
        key: List::new(alloc),
        role: TextRole::Program,
        bytes: bytes_of(alloc, PROGRAM)?,
    };
    let mut list = List::new(alloc);
    list.push(text)?;
    Ok(Texts { list })
}

/// What the program's seed file of that text is.
fn read(alloc: Global, text: &str) -> Result<List<Seed>, SeedFault> {
    match assemble(alloc, texts(alloc)?, None) {
        Ok(gathered) => read_seeds(alloc, text.as_bytes(), &gathered.portfolio),
        Err(_) => Err(SeedFault::Memory),
    }
}

/// The text of a seed file with these rows after the header.
fn file_of(alloc: Global, rows: &str) -> Result<String, Fail> {
    let text = format!(in alloc; "program,item,kind,digit\n{rows}\n")?;
    Ok(text)
}

fn has_fault(alloc: Global, text: &str, fault: SeedFault) -> bool {
    match read(alloc, text) {
        Ok(_seeds) => false,
        Err(found) => found == fault,
    }
}

fn has_fault_in(alloc: Global, rows: &str, fault: SeedFault) -> Result<bool, Fail> {
    Ok(has_fault(alloc, file_of(alloc, rows)?.as_str(), fault))
}

/// Whether each of these rows alone has the fault.
fn have_fault(alloc: Global, rows: &[&str], fault: SeedFault) -> Result<bool, Fail> {
    for i in 0..rows.len() {
        if !has_fault_in(alloc, rows[i], fault)? {
            return Ok(false);
        }
    }
    Ok(true)
}

/// The area and the offset of a byte, its label and its row.
type Said = (u32, u32, Label, u32);

fn are_said(seeds: &[Seed], said: &[Said]) -> bool {
    if seeds.len() != said.len() {
        return false;
    }
    for i in 0..said.len() {
        if i < seeds.len() && !is_said(seeds[i], said[i]) {
            return false;
        }
    }
    true
}

fn is_said(seed: Seed, said: Said) -> bool {
    let (area, offset, label, row) = said;
    seed.fact.place.area.0 == area
        && seed.fact.place.offset == offset
        && seed.fact.label == label
        && seed.row == row
}

fn says(alloc: Global, text: &str, said: &[Said]) -> bool {
    match read(alloc, text) {
        Ok(seeds) => are_said(seeds.items(), said),
        Err(_) => false,
    }
}

fn rows_say(alloc: Global, rows: &str, said: &[Said]) -> Result<bool, Fail> {
    Ok(says(alloc, file_of(alloc, rows)?.as_str(), said))
}

const YEAR: [Said; 2] = [(0, 0, Label::Tens, 2), (0, 1, Label::Units, 2)];

#[test]
fn the_header_stands_first(rt: HostRuntime) -> Result<(), Fail> {
    let alloc = rt.alloc();
    assert!(rt; says(alloc, "program,item,kind,digit\n", &[]));
    assert!(rt; says(alloc, "program,item,kind,digit", &[]));
    assert!(rt; has_fault(alloc, "", SeedFault::RowShape(1)));
    assert!(rt; has_fault(alloc, "P,YY,year,1\n", SeedFault::RowShape(1)));
    assert!(rt; has_fault(alloc, "PROGRAM,item,kind,digit\n", SeedFault::RowShape(1)));
    assert!(rt; has_fault(alloc, "program,item,kind,digit,\n", SeedFault::RowShape(1)));
    assert!(rt; has_fault(alloc, "program, item,kind,digit\n", SeedFault::RowShape(1)));
    Ok(())
}

#[test]
fn a_year_has_its_tens_at_the_digit(rt: HostRuntime) -> Result<(), Fail> {
    let alloc = rt.alloc();
    assert!(rt; rows_say(alloc, "P,YY,year,1", &YEAR)?);
    let said = [(1, 4, Label::Tens, 2), (1, 5, Label::Units, 2)];
    assert!(rt; rows_say(alloc, "P,D,year,5", &said)?);
    let said = [(4, 2, Label::Tens, 2), (4, 3, Label::Units, 2)];
    assert!(rt; rows_say(alloc, "P,REC,year,3", &said)?);
    Ok(())
}

#[test]
fn names_are_read_in_capitals(rt: HostRuntime) -> Result<(), Fail> {
    let alloc = rt.alloc();
    assert!(rt; rows_say(alloc, "p,yy,year,1", &YEAR)?);
    let said = [(4, 0, Label::Plain, 2), (4, 1, Label::Plain, 2)];
    assert!(rt; rows_say(alloc, "P,a of Rec,plain,", &said)?);
    Ok(())
}

#[test]
fn a_packed_year_is_on_each_byte(rt: HostRuntime) -> Result<(), Fail> {
    let alloc = rt.alloc();
    let unit = 4;
    let digits = 6;
    let said = [
        (
            2,
            0,
            Label::Packed {
                digits,
                unit,
                byte: 0,
            },
            2,
        ),
        (
            2,
            1,
            Label::Packed {
                digits,
                unit,
                byte: 1,
            },
            2,
        ),
        (
            2,
            2,
            Label::Packed {
                digits,
                unit,
                byte: 2,
            },
            2,
        ),
        (
            2,
            3,
            Label::Packed {
                digits,
                unit,
                byte: 3,
            },
            2,
        ),
    ];
    assert!(rt; rows_say(alloc, "P,K,year,1", &said)?);
    Ok(())
}

#[test]
fn records_are_read_as_csv(rt: HostRuntime) -> Result<(), Fail> {
    let alloc = rt.alloc();
    assert!(rt; rows_say(alloc, "\"P\",\"YY\",year,1", &YEAR)?);
    assert!(rt; says(alloc, "program,item,kind,digit\r\nP,YY,year,1\r\n", &YEAR));
    assert!(rt; says(alloc, "program,item,kind,digit\rP,YY,year,1", &YEAR));
    assert!(rt;
        says(
            alloc,
            "\u{FEFF}program,item,kind,digit\nP,YY,year,1\n",
            &YEAR
        )
    );
    assert!(rt;
        says(
            alloc,
            "\n\nprogram,item,kind,digit\n\n\r\nP,YY,year,1\n",
            &YEAR
        )
    );
    Ok(())
}

#[test]
fn rows_of_another_form_have_no_shape(rt: HostRuntime) -> Result<(), Fail> {
    let alloc = rt.alloc();
    let rows = [
        "P,YY,year",
        "P,YY,year,1,",
        "P,YY,Year,1",
        "P,YY,,1",
        "P,YY,year,",
        "P,YY,year,0",
        "P,YY,year,01",
        "P,YY,year,+1",
        "P,YY,year, 1",
        "P,YY,year,-1",
        "P,YY,year,1.0",
        "P,YY,year,65536",
        "P,YY,year,4294967297",
        "P,YY,plain,1",
        "P,YY,plain,0",
        "P",
        "program,item,kind,digit",
    ];
    assert!(rt; have_fault(alloc, &rows, SeedFault::RowShape(2))?);
    Ok(())
}

#[test]
fn items_that_no_seed_can_have_are_unknown(rt: HostRuntime) -> Result<(), Fail> {
    let alloc = rt.alloc();
    let rows = [
        "P,NONE,year,1",
        "Q,YY,year,1",
        "P.YY,YY,year,1",
        " P,YY,year,1",
        ",YY,year,1",
        "P,,year,1",
        "P,A,year,1",
        "P,A IN REC,year,1",
        "P,YY (1),year,1",
        "P,B,year,1",
        "P,B,plain,",
        "P,YY,year,2",
        "P,YY,year,65535",
        "P,K,year,6",
        "P,F,year,2",
    ];
    assert!(rt; have_fault(alloc, &rows, SeedFault::SeedUnknown(2))?);
    Ok(())
}

#[test]
fn the_first_row_at_fault_is_named(rt: HostRuntime) -> Result<(), Fail> {
    let alloc = rt.alloc();
    let unknown_first = "P,YY,year,1\nP,NONE,year,1\nP,YY,year";
    assert!(rt; has_fault_in(alloc, unknown_first, SeedFault::SeedUnknown(3))?);
    let shape_first = "P,YY,year,1\n\nP,YY,year\nP,NONE,year,1";
    assert!(rt; has_fault_in(alloc, shape_first, SeedFault::RowShape(3))?);
    assert!(rt; has_fault_in(alloc, "P,NONE,year,0", SeedFault::RowShape(2))?);
    Ok(())
}

#[test]
fn seeds_go_by_their_rows(rt: HostRuntime) -> Result<(), Fail> {
    let alloc = rt.alloc();
    let said = [
        (1, 0, Label::Tens, 2),
        (1, 1, Label::Units, 2),
        (0, 0, Label::Plain, 3),
        (0, 1, Label::Plain, 3),
        (1, 0, Label::Tens, 4),
        (1, 1, Label::Units, 4),
    ];
    assert!(rt; rows_say(alloc, "P,D,year,1\nP,YY,plain,\nP,D,year,1", &said)?);
    Ok(())
}

use super::*;
use cobol_syntax::{Entry, FileEntry, Operand, Program, Usage};
use decimal_bytes::{Scaled, SignPlace};
use picture::read_picture;
use std::alloc::Global;
use std::test::Fail;
use y2k_base::{AreaId, Bytes, FileId, List, Memory, Origin, Span, Word, WordKind};

fn bytes_of(alloc: Global, text: &[u8]) -> Result<Bytes, Memory> {
    let mut bytes = List::new(alloc);
    bytes.append(text)?;
    Ok(bytes)
}

fn number_of(text: &[u8]) -> u32 {
    let mut number = 0_u32;
    for digit in text {
        number = number
            .wrapping_mul(10)
            .wrapping_add(u32::from(digit.wrapping_sub(b'0')));
    }
    number
}

/// A number literal: its digits with a minus before them or not, and how many follow the point.
fn number_literal(text: &[u8]) -> Operand {
    let mut number = 0_i128;
    let mut scale = 0_u8;
    let mut minus = false;
    let mut pointed = false;
    for byte in text {
        if *byte == b'-' {
            minus = true;
        } else if *byte == b'.' {
            pointed = true;
        } else {
            number = number
                .wrapping_mul(10)
                .wrapping_add(i128::from(byte.wrapping_sub(b'0')));
            if pointed {
                scale = scale.wrapping_add(1);
            }
        }
    }
    if minus {
        number = number.wrapping_neg();
    }
    Operand::Number {
        value: Scaled { number, scale },
        digits: 0,
        at: 0,
    }
}

/// A text after a mark, `Z` for ZERO, `S` for SPACE, or a number.
fn value_of(alloc: Global, text: &[u8]) -> Result<Operand, Memory> {
    match text {
        [b'\'', text @ ..] => Ok(Operand::Text {
            bytes: bytes_of(alloc, text)?,
            at: 0,
        }),
        [b'Z'] => Ok(Operand::Figure { byte: b'0', at: 0 }),
        [b'S'] => Ok(Operand::Figure { byte: b' ', at: 0 }),
        _ => Ok(number_literal(text)),
    }
}

/// A clause: `P` PICTURE, `R` REDEFINES, `O` OCCURS, `V` VALUE, `U` USAGE (`P` or `B`), `S` SIGN (`L`, `T` or `S`).
fn add_clause(alloc: Global, entry: &mut Entry, clause: &[u8]) -> Result<(), Memory> {
    match clause {
        [b'P', text @ ..] => entry.picture = read_picture(alloc, text).ok(),
        [b'R', name @ ..] => entry.redefines = Some(bytes_of(alloc, name)?),
        [b'O', count @ ..] => entry.occurs = Some(number_of(count)),
        [b'V', value @ ..] => entry.value = Some(value_of(alloc, value)?),
        [b'U', b'P'] => entry.usage = Usage::Packed,
        [b'U', b'B'] => entry.usage = Usage::Binary,
        [b'S', b'L'] => entry.sign = SignPlace::Leading,
        [b'S', b'T'] => entry.sign = SignPlace::TrailingSeparate,
        [b'S', b'S'] => entry.sign = SignPlace::LeadingSeparate,
        _ => {}
    }
    Ok(())
}

/// An entry: its level, its name or `-`, and its clauses.
fn entry_of(alloc: Global, text: &[u8], at: u32) -> Result<Entry, Memory> {
    let mut entry = Entry {
        level: 0,
        name: None,
        redefines: None,
        occurs: None,
        picture: None,
        picture_at: at,
        usage: Usage::Display,
        sign: SignPlace::Trailing,
        value: None,
        ranges: List::new(alloc),
        at,
    };
    let mut place = 0_u32;
    for word in text.split(|byte| *byte == b' ') {
        match place {
            0 => entry.level = u8::try_from(number_of(word)).unwrap_or(255),
            1 if word != b"-".as_slice() => entry.name = Some(bytes_of(alloc, word)?),
            1 => {}
            _ => add_clause(alloc, &mut entry, word)?,
        }
        place = place.wrapping_add(1);
    }
    Ok(entry)
}

/// One more word, on a line of its own. Gives its position.
fn add_word(alloc: Global, words: &mut List<Word>) -> Result<u32, Memory> {
    let at = u32::try_from(words.len()).map_err(|_| Memory)?;
    words.push(Word {
        text: List::new(alloc),
        kind: WordKind::Number,
        origin: Origin {
            file: FileId(0),
            line: at,
            column: 8,
        },
    })?;
    Ok(at)
}

/// The entries of a text, parted by bars.
fn entries_of(alloc: Global, text: &[u8], words: &mut List<Word>) -> Result<List<Entry>, Memory> {
    let mut entries = List::new(alloc);
    for part in text.split(|byte| *byte == b'|') {
        if !part.is_empty() {
            let at = add_word(alloc, words)?;
            entries.push(entry_of(alloc, part, at)?)?;
        }
    }
    Ok(entries)
}

/// A program with the file F if it has records, and working storage. Each entry is one word, on lines from 0;
/// the word of the FD comes before those of its entries.
fn program_of(
    alloc: Global,
    records: &[u8],
    contains: Option<Operand>,
    storage: &[u8],
) -> Result<Program, Memory> {
    let mut words = List::new(alloc);
    let mut files = List::new(alloc);
    if !records.is_empty() {
        let at = add_word(alloc, &mut words)?;
        let entries = entries_of(alloc, records, &mut words)?;
        files.push(FileEntry {
            name: bytes_of(alloc, b"F")?,
            contains,
            entries,
            at,
        })?;
    }
    let storage = entries_of(alloc, storage, &mut words)?;
    Ok(Program {
        id: List::new(alloc),
        words,
        selects: List::new(alloc),
        files,
        storage,
        paragraphs: List::new(alloc),
    })
}

/// A name, its area, offset and length, and each OCCURS.
fn show_item(alloc: Global, item: &Item, out: &mut Bytes) -> Result<(), Memory> {
    match &item.name {
        Some(name) => out.append(name.items())?,
        None => out.push(b'-')?,
    }
    let Span {
        area,
        offset,
        length,
    } = item.span;
    let AreaId(number) = area;
    let text = format!(in alloc; "@{number}:{offset}+{length}")?;
    out.append(text.as_bytes())?;
    for step in item.steps.items() {
        let size = step.size;
        let count = step.count;
        let text = format!(in alloc; "[{size}*{count}]")?;
        out.append(text.as_bytes())?;
    }
    out.push(b' ')
}

fn show_origin(alloc: Global, kind: &str, origin: Origin) -> Result<Bytes, Memory> {
    let line = origin.line;
    let text = format!(in alloc; "{kind} {line}")?;
    bytes_of(alloc, text.as_bytes())
}

/// The items, or the fault and its line.
fn show(alloc: Global, program: &Program) -> Result<Bytes, Memory> {
    match lay_out(alloc, program, AreaId(0)) {
        Ok(layout) => {
            let mut out = List::new(alloc);
            for item in layout.items.items() {
                show_item(alloc, item, &mut out)?;
            }
            Ok(out)
        }
        Err(LayoutFault::LayoutShape(origin)) => show_origin(alloc, "shape", origin),
        Err(LayoutFault::AreaFull(origin)) => show_origin(alloc, "full", origin),
        Err(LayoutFault::NameTwice(origin)) => show_origin(alloc, "twice", origin),
        Err(LayoutFault::Memory) => Err(Memory),
    }
}

fn lay(alloc: Global, records: &[u8], storage: &[u8]) -> Result<Bytes, Memory> {
    let program = program_of(alloc, records, None, storage)?;
    show(alloc, &program)
}

#[test]
fn items_stand_behind_their_earlier_siblings(rt: HostRuntime) -> Result<(), Fail> {
    for (storage, want) in [
        (
            b"01 T|05 R O3|10 A P9(2)|10 B PX(3)".as_slice(),
            b"T@0:0+15 R@0:0+5[5*3] A@0:0+2[5*3] B@0:2+3[5*3] ".as_slice(),
        ),
        (b"01 A|10 B PX(2)|05 C PX(3)", b"A@0:0+5 B@0:0+2 C@0:2+3 "),
        (
            b"01 D P9(6)|01 E RD|05 F P9|05 G P9(5)",
            b"D@0:0+6 E@0:0+6 F@0:0+1 G@0:1+5 ",
        ),
        (
            b"01 A|05 B PX(4)|05 C RB PX(2)|05 D PX|05 E RD PX|05 - PX(3)",
            b"A@0:0+8 B@0:0+4 C@0:0+2 D@0:4+1 E@0:4+1 -@0:5+3 ",
        ),
        (
            b"77 W PX|01 A PX(2)|77 X PX(3)|01 B RA PX|77 C RX PX",
            b"W@0:0+1 A@1:0+2 X@2:0+3 B@1:0+1 C@2:0+1 ",
        ),
        (
            b"01 A|05 B PS9(3) UP|05 C P9(4) UP|05 D P9(4) UB|05 E P9(5) UB|05 G PS9(10)V9 UB",
            b"A@0:0+19 B@0:0+2 C@0:2+3 D@0:5+2 E@0:7+4 G@0:11+8 ",
        ),
        (
            b"01 A|05 B PS9(3)V9 ST|05 C PS9(2) SL|05 D PZ(3),Z9.99-",
            b"A@0:0+17 B@0:0+5 C@0:5+2 D@0:7+10 ",
        ),
        (
            b"01 A|05 B O2|10 C O3 PX(2)|10 D PX|05 E PX",
            b"A@0:0+15 B@0:0+7[7*2] C@0:0+2[7*2][2*3] D@0:6+1[7*2] E@0:14+1 ",
        ),
    ] {
        let got = lay(rt.alloc(), b"", storage)?;
        assert_eq!(rt; got.items(), want);
    }
    Ok(())
}

#[test]
fn records_of_a_file_share_its_area(rt: HostRuntime) -> Result<(), Fail> {
    for (records, storage, want) in [
        (
            b"01 R PX(3)|01 S|05 A PX|05 B PX(4)".as_slice(),
            b"01 W PX".as_slice(),
            b"R@0:0+3 S@0:0+5 A@0:0+1 B@0:1+4 W@1:0+1 ".as_slice(),
        ),
        (b"05 R PX", b"", b"shape 1"),
        (b"77 R PX", b"", b"shape 1"),
        (b"01 R PX|01 S RR PX", b"", b"shape 2"),
        (b"01 R|05 A PX|05 B RA PX", b"", b"R@0:0+1 A@0:0+1 B@0:0+1 "),
        (b"01 R PX VS", b"", b"shape 1"),
        (b"01 R PX", b"01 R PX", b"twice 2"),
        (b"01 R PX|01 S PX|01 R PX", b"", b"twice 3"),
    ] {
        let got = lay(rt.alloc(), records, storage)?;
        assert_eq!(rt; got.items(), want);
    }
    Ok(())
}

#[test]
fn record_contains_the_longest_record(rt: HostRuntime) -> Result<(), Fail> {
    for (contains, records, want) in [
        (
            b"3".as_slice(),
            b"01 R PX(2)|01 S PX(3)".as_slice(),
            b"R@0:0+2 S@0:0+3 ".as_slice(),
        ),
        (b"2", b"01 R PX(2)|01 S PX(3)", b"shape 0"),
        (b"2", b"01 R PX(2)|01 S PX(3)|01 R PX", b"twice 3"),
    ] {
        let alloc = rt.alloc();
        let program = program_of(alloc, records, Some(number_literal(contains)), b"")?;
        let got = show(alloc, &program)?;
        assert_eq!(rt; got.items(), want);
    }
    Ok(())
}

#[test]
fn the_first_broken_rule_is_named(rt: HostRuntime) -> Result<(), Fail> {
    for (storage, want) in [
        (b"05 A PX".as_slice(), b"shape 0".as_slice()),
        (b"50 A PX", b"shape 0"),
        (b"77 W PX|05 A PX", b"shape 1"),
        (b"77 W PX|88 C|05 A PX", b"shape 2"),
        (b"88 C", b"shape 0"),
        (b"01 A|88 C", b"shape 0"),
        (b"01 A PX|05 B PX", b"shape 0"),
        (b"01 A|05 B PX|05 C PX|05 D RB PX", b"shape 3"),
        (b"01 A|05 B PX|10 C RB PX", b"shape 1"),
        (b"01 A|05 B PX(2)|05 C RB PX(3)", b"shape 2"),
        (
            b"01 A|05 B O2 PX(2)|05 C RB PX(4)",
            b"A@0:0+4 B@0:0+2[2*2] C@0:0+4 ",
        ),
        (
            b"01 A|05 B PX|05 - RB PX|05 D RB PX",
            b"A@0:0+1 B@0:0+1 -@0:0+1 D@0:0+1 ",
        ),
        (b"01 A O2 PX", b"shape 0"),
        (b"77 A O2 PX", b"shape 0"),
        (b"01 A|05 B O0 PX", b"shape 1"),
        (b"01 A|05 B O65536 PX", b"shape 1"),
        (b"01 A|02 B O2|03 C O2|04 D O2|05 E O2 PX", b"shape 4"),
        (b"01 A VS|05 B PX VS", b"shape 1"),
        (b"01 A PX|01 B RA PX VS", b"shape 1"),
        (b"01 A PX|01 B RA|05 C PX VS", b"shape 2"),
        (b"01 A P9 V'1", b"shape 0"),
        (b"01 A P9 VS", b"shape 0"),
        (b"01 A P9V9 V1.50", b"A@0:0+2 "),
        (b"01 A P9V9 V1.55", b"shape 0"),
        (b"01 A P9V9 V10", b"shape 0"),
        (b"01 A P9 V-1", b"shape 0"),
        (b"01 A PS9 V-1", b"A@0:0+1 "),
        (b"01 A PZ9.9 VZ", b"A@0:0+4 "),
        (b"01 A PX V1", b"shape 0"),
        (b"01 A PX(2) V'ABC", b"shape 0"),
        (b"01 A V'AB|05 B PX(2)", b"A@0:0+2 B@0:0+2 "),
        (b"01 A PX UP", b"shape 0"),
        (b"01 A UP|05 B P9", b"shape 0"),
        (b"01 A P9 SL", b"shape 0"),
        (b"01 A PS9 SL UP", b"shape 0"),
        (b"77 W PX(65535)", b"W@0:0+65535 "),
        (b"77 W PX(65536)", b"full 0"),
    ] {
        let got = lay(rt.alloc(), b"", storage)?;
        assert_eq!(rt; got.items(), want);
    }
    Ok(())
}

#[test]
fn faults_go_by_entries_and_lengths_come_after(rt: HostRuntime) -> Result<(), Fail> {
    for (storage, want) in [
        (b"01 A PX|01 A PX".as_slice(), b"twice 1".as_slice()),
        (b"01 A PX|77 A PX", b"twice 1"),
        (b"01 A|05 B PX|05 B PX", b"twice 2"),
        (
            b"01 A|05 B|10 C PX|05 D|10 C PX",
            b"A@0:0+2 B@0:0+1 C@0:0+1 D@0:1+1 C@0:1+1 ",
        ),
        (b"01 A|05 - PX|05 - PX", b"A@0:0+2 -@0:0+1 -@0:1+1 "),
        (b"01 A|88 B|05 B PX", b"twice 2"),
        (b"01 A PX|88 B|88 B", b"twice 2"),
        (
            b"01 A|05 B PX|88 X|05 C PX|88 X",
            b"A@0:0+2 B@0:0+1 C@0:1+1 ",
        ),
        (b"01 A PX|01 A O2 PX", b"shape 1"),
        (b"01 A|05 B PX(65536)|05 B PX", b"twice 2"),
        (b"01 A|05 B PX(65535)|05 C O0 PX", b"shape 2"),
        (b"01 A PX|01 B RA|05 C PX(2)|05 C PX", b"twice 3"),
        (b"01 A PX|01 B RA|05 C PX(2)|88 D", b"shape 1"),
        (b"01 A V'AB|05 B P9 V1", b"shape 1"),
        (b"01 A V'AB|05 B P9", b"shape 0"),
        (b"01 A PX|01 B RA PX(65536)", b"shape 1"),
        (b"01 A PX|01 B PX(65536)|01 A PX", b"full 1"),
    ] {
        let got = lay(rt.alloc(), b"", storage)?;
        assert_eq!(rt; got.items(), want);
    }
    Ok(())
}

/// What names mean, parted by points: `i` or `n` and a number, `0` nothing, `2` more than one thing.
fn found(alloc: Global, records: &[u8], storage: &[u8], text: &[u8]) -> Result<Bytes, Memory> {
    let program = program_of(alloc, records, None, storage)?;
    let mut names = Vec::new(alloc);
    for name in text.split(|byte| *byte == b'.') {
        names.push(bytes_of(alloc, name)?)?;
    }
    match lay_out(alloc, &program, AreaId(0)) {
        Ok(layout) => show_found(alloc, layout.find(&names)),
        Err(_) => Err(Memory),
    }
}

fn show_found(alloc: Global, found: Found) -> Result<Bytes, Memory> {
    match found {
        Found::Item(number) => {
            let text = format!(in alloc; "i{number}")?;
            bytes_of(alloc, text.as_bytes())
        }
        Found::Named(number) => {
            let text = format!(in alloc; "n{number}")?;
            bytes_of(alloc, text.as_bytes())
        }
        Found::Unknown => bytes_of(alloc, b"0"),
        Found::Twice => bytes_of(alloc, b"2"),
    }
}

#[test]
fn a_name_means_the_one_thing_that_fits(rt: HostRuntime) -> Result<(), Fail> {
    let records = b"01 R|05 C PX";
    let storage = b"01 A|05 G|10 C PX|88 D|05 H|10 C PX|10 E PX|88 D|01 I PX|88 K";
    for (names, want) in [
        (b"A".as_slice(), b"i2".as_slice()),
        (b"C", b"2"),
        (b"C.G", b"i4"),
        (b"C.A", b"2"),
        (b"C.H.A", b"i6"),
        (b"C.A.H", b"0"),
        (b"C.F", b"i1"),
        (b"C.R.F", b"i1"),
        (b"C.F.R", b"0"),
        (b"R.F", b"i0"),
        (b"F", b"0"),
        (b"D", b"2"),
        (b"D.G", b"n0"),
        (b"D.C", b"0"),
        (b"D.E.H", b"0"),
        (b"K", b"n2"),
        (b"K.I", b"0"),
        (b"X", b"0"),
    ] {
        let got = found(rt.alloc(), records, storage, names)?;
        assert_eq!(rt; got.items(), want);
    }
    Ok(())
}

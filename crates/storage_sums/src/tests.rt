ghost use Rattle.std.specs.Prelude.{◌≡◌, IfOk};
ghost use Rattle.data_layout.specs.Index.{IsReady};
ghost use Rattle.layout_reading.specs.Numbered.{AreNumbered};
ghost use Rattle.layout_reading.specs.Reading.{first_area};
ghost use Rattle.place_table.specs.Tables.{IsStorageOf};
ghost use Rattle.storage_places.specs.Fits.{LayoutFits};
ghost use Rattle.storage_places.specs.Held.{held, first, lengths};

use super::*;
use cobol_syntax::{Entry, Expr, Operand, Place, Program, Usage};
use data_layout::{Layout, LayoutFault, lay_out};
use decimal_bytes::{Scaled, SignPlace};
use picture::read_picture;
use place_table::Places;
use sqlite_items::Boxed;
use std::alloc::Global;
use std::test::Fail;
use storage_places::{RunFault, Storage, layout_fits};
use y2k_base::{AreaId, Bytes, List, Memory, Span};

fn bytes_of(alloc: Global, text: &[u8]) -> Result<Bytes, Memory> {
    let mut bytes = List::new(alloc);
    bytes.append(text)?;
    Ok(bytes)
}

fn entry_of(alloc: Global, name: u8, picture: &[u8], usage: Usage) -> Result<Entry, Memory> {
    Ok(Entry {
        level: 77,
        name: Some(bytes_of(alloc, &[name])?),
        redefines: None,
        occurs: None,
        picture: read_picture(alloc, picture).ok(),
        picture_at: 0,
        usage,
        sign: SignPlace::Trailing,
        value: None,
        ranges: List::new(alloc),
        at: 0,
    })
}

/// Items of level 77, whose areas are numbered from 7 on.
fn layout_of_items(alloc: Global) -> Result<Layout, LayoutFault>
    ensures ready { IfOk result IsReady }
    ensures numbered { IfOk result (λ layout. AreNumbered (first_area layout.areas) layout.areas) }
{
    let mut storage = List::new(alloc);
    storage.push(entry_of(alloc, b'N', b"9(2)", Usage::Display)?)?;
    storage.push(entry_of(alloc, b'M', b"9(2)", Usage::Display)?)?;
    storage.push(entry_of(alloc, b'Z', b"9(2)", Usage::Display)?)?;
    storage.push(entry_of(alloc, b'O', b"9", Usage::Display)?)?;
    storage.push(entry_of(alloc, b'S', b"S9(3)", Usage::Display)?)?;
    storage.push(entry_of(alloc, b'D', b"9(2)V9", Usage::Display)?)?;
    storage.push(entry_of(alloc, b'E', b"Z9.9-", Usage::Display)?)?;
    storage.push(entry_of(alloc, b'P', b"S9(3)", Usage::Packed)?)?;
    storage.push(entry_of(alloc, b'W', b"9(18)", Usage::Display)?)?;
    storage.push(entry_of(alloc, b'B', b"9(2)", Usage::Display)?)?;
    storage.push(entry_of(alloc, b'T', b"X(2)", Usage::Display)?)?;
    let program = Program {
        id: List::new(alloc),
        words: List::new(alloc),
        selects: List::new(alloc),
        files: List::new(alloc),
        storage,
        paragraphs: List::new(alloc),
    };
    lay_out(alloc, &program, AreaId(7))
}

/// The layout, if it can be run.
fn items(alloc: Global) -> Result<Layout, Memory>
    ensures ready { IfOk result IsReady }
    ensures numbered { IfOk result (λ layout. AreNumbered (first_area layout.areas) layout.areas) }
    ensures fits { IfOk result LayoutFits }
{
    match layout_of_items(alloc) {
        Ok(layout) => {
            if !layout_fits(&layout) {
                return Err(Memory);
            }
            Ok(layout)
        }
        Err(_) => Err(Memory),
    }
}

/// The bytes of an item.
fn span_of(name: u8) -> Option<Span> {
    let (area, length) = match name {
        b'N' => (7, 2),
        b'M' => (8, 2),
        b'Z' => (9, 2),
        b'O' => (10, 1),
        b'S' => (11, 3),
        b'D' => (12, 3),
        b'E' => (13, 5),
        b'P' => (14, 2),
        b'W' => (15, 18),
        b'B' => (16, 2),
        b'T' => (17, 2),
        _ => return None,
    };
    Some(Span {
        area: AreaId(area),
        offset: 0,
        length,
    })
}

/// What an item holds before the statement. B and E hold spaces.
fn content(name: u8) -> &'static [u8] {
    match name {
        b'N' => b"99",
        b'M' => b"07",
        b'Z' => b"00",
        b'O' => b"5",
        b'S' => b"01\x72",
        b'D' => b"125",
        b'P' => &[0x00, 0x1c],
        b'W' => b"999999999999999999",
        b'T' => b"12",
        _ => b"",
    }
}

/// Sets the bytes of an item, if they are as many as it has.
fn put(storage: &mut Storage, span: Span, bytes: &[u8])
    ensures first { first storage.new ≡ first storage.old }
    ensures lengths { lengths (held storage.new) ≡ lengths (held storage.old) }
{
    if bytes.len() == span.length as usize && storage.bytes(span).is_some() {
        storage.set(span, bytes);
    }
}

fn put_content(storage: &mut Storage, name: u8)
    ensures first { first storage.new ≡ first storage.old }
    ensures lengths { lengths (held storage.new) ≡ lengths (held storage.old) }
{
    if let Some(span) = span_of(name) {
        put(storage, span, content(name));
    }
}

fn storage_of(alloc: Global, layout: &Layout) -> Result<Storage, Memory>
    ensures { IfOk result (IsStorageOf layout.now) }
{
    let mut storage = Storage::spaces(alloc, layout)?;
    put_content(&mut storage, b'N');
    put_content(&mut storage, b'M');
    put_content(&mut storage, b'Z');
    put_content(&mut storage, b'O');
    put_content(&mut storage, b'S');
    put_content(&mut storage, b'D');
    put_content(&mut storage, b'P');
    put_content(&mut storage, b'W');
    put_content(&mut storage, b'T');
    Ok(storage)
}

fn place_of(alloc: Global, name: u8) -> Result<Place, Memory> {
    let mut names = List::new(alloc);
    names.push(bytes_of(alloc, &[name])?)?;
    Ok(Place {
        names,
        subs: List::new(alloc),
        cut: None,
        at: 0,
        end: 1,
    })
}

/// A digit as a number, `f` as ZERO, `t` as a text, and any other byte as the item of its name.
fn operand_of(alloc: Global, symbol: u8) -> Result<Operand, Memory> {
    match symbol {
        b'0'..=b'9' => Ok(Operand::Number {
            value: Scaled {
                number: i128::from(symbol - b'0'),
                scale: 0,
            },
            digits: 1,
            at: 0,
        }),
        b'f' => Ok(Operand::Figure { byte: b'0', at: 0 }),
        b't' => Ok(Operand::Text {
            bytes: bytes_of(alloc, b"1")?,
            at: 0,
        }),
        _ => Ok(Operand::Place(place_of(alloc, symbol)?)),
    }
}

fn sum_of(alloc: Global, symbol: u8, left: Expr, right: Expr) -> Result<Expr, Memory> {
    let left = Boxed::new(alloc, left)?;
    let right = Boxed::new(alloc, right)?;
    match symbol {
        b'+' => Ok(Expr::Add(left, right)),
        b'-' => Ok(Expr::Sub(left, right)),
        b'*' => Ok(Expr::Mul(left, right)),
        _ => Ok(Expr::Div(left, right)),
    }
}

fn taken(stack: &mut Vec<Expr>) -> Result<Expr, Memory> {
    match stack.pop() {
        Some(expr) => Ok(expr),
        None => Err(Memory),
    }
}

/// The expression of a symbol, with those before it that it takes; `~` is a minus.
fn part_of(alloc: Global, stack: &mut Vec<Expr>, symbol: u8) -> Result<Expr, Memory> {
    match symbol {
        b'+' | b'-' | b'*' | b'/' => {
            let right = taken(stack)?;
            let left = taken(stack)?;
            sum_of(alloc, symbol, left, right)
        }
        b'~' => Ok(Expr::Minus(Boxed::new(alloc, taken(stack)?)?)),
        _ => Ok(Expr::One(operand_of(alloc, symbol)?)),
    }
}

/// An expression with its operators behind their operands.
fn expr_of(alloc: Global, text: &[u8]) -> Result<Expr, Memory> {
    let mut stack = Vec::new(alloc);
    for symbol in text {
        let part = part_of(alloc, &mut stack, *symbol)?;
        stack.push(part)?;
    }
    taken(&mut stack)
}

/// The bytes of an item after a statement.
fn append_item(bytes: &mut Bytes, storage: &Storage, name: u8) -> Result<(), Memory> {
    if let Some(span) = span_of(name) {
        if let Some(part) = storage.bytes(span) {
            bytes.append(part)?;
        }
    }
    Ok(())
}

/// The receiver of REMAINDER, if there is one.
fn rest_of(alloc: Global, names: &[u8]) -> Result<Option<Place>, Memory> {
    match names {
        [] => Ok(None),
        [name, ..] => Ok(Some(place_of(alloc, *name)?)),
    }
}

fn has_mode(modes: &[u8], mode: u8) -> bool {
    for next in modes {
        if *next == mode {
            return true;
        }
    }
    false
}

fn held_bytes(alloc: Global, storage: &Storage, names: &[u8]) -> Result<Bytes, Memory> {
    let mut bytes = List::new(alloc);
    for name in names {
        append_item(&mut bytes, storage, *name)?;
    }
    Ok(bytes)
}

/// What a statement answers, and whether its receivers then hold these bytes. A second receiver is that of REMAINDER;
/// the modes are `P` for a size phrase and `R` for ROUNDED.
fn done(
    alloc: Global,
    receivers: &[u8],
    expr: &[u8],
    modes: &[u8],
    bytes: &[u8],
) -> Result<(Result<bool, RunFault>, bool), Memory> {
    match receivers {
        [] => Err(Memory),
        [to, rest @ ..] => {
            let layout = items(alloc)?;
            let mut storage = storage_of(alloc, &layout)?;
            let to = place_of(alloc, *to)?;
            let rest = rest_of(alloc, rest)?;
            let expr = expr_of(alloc, expr)?;
            let rounded = has_mode(modes, b'R');
            let phrase = has_mode(modes, b'P');
            let mut places = Places::of(alloc, &layout);
            let result = compute(
                alloc,
                &mut places,
                &mut storage,
                &to,
                rounded,
                &expr,
                &rest,
                phrase,
            );
            let left = held_bytes(alloc, &storage, receivers)?;
            Ok((result, left.items() == bytes))
        }
    }
}

#[test]
fn a_result_is_stored_at_the_receivers_decimals(rt: HostRuntime) -> Result<(), Fail> {
    let alloc = rt.alloc();
    let rows: [(&[u8], &[u8], &[u8], &[u8]); 11] = [
        (b"M", b"D", b"", b"12"),
        (b"M", b"D", b"R", b"13"),
        (b"S", b"D~", b"R", b"01\x73"),
        (b"M", b"S", b"", b"12"),
        (b"D", b"13/", b"", b"003"),
        (b"E", b"D", b"", b"12.5 "),
        (b"E", b"D~", b"", b"12.5-"),
        (b"E", b"M", b"", b" 7.0 "),
        (b"P", b"fN-", b"", &[0x09, 0x9d]),
        (b"S", b"NM*D-S+", b"", b"668"),
        (b"M", b"P2*", b"", b"02"),
    ];
    for (receivers, expr, modes, bytes) in rows {
        assert!(rt; done(alloc, receivers, expr, modes, bytes)? == (Ok(false), true));
    }
    Ok(())
}

#[test]
fn a_size_error_cuts_high_digits_or_keeps_the_receivers(rt: HostRuntime) -> Result<(), Fail> {
    let alloc = rt.alloc();
    let rows: [(&[u8], &[u8], &[u8], &[u8]); 11] = [
        (b"N", b"N1+", b"", b"00"),
        (b"N", b"N1+", b"P", b"99"),
        (b"E", b"N1+", b"", b" 0.0 "),
        (b"M", b"1Z/", b"P", b"07"),
        (b"M", b"1Z/B+", b"P", b"07"),
        (b"MS", b"W1/", b"", b"99900"),
        (b"MS", b"W1/", b"P", b"0701\x72"),
        (b"MO", b"NW/", b"", b"009"),
        (b"MO", b"NW/", b"P", b"075"),
        (b"MS", b"1Z/", b"P", b"0701\x72"),
        (b"T", b"N", b"", b"12"),
    ];
    for (receivers, expr, modes, bytes) in rows {
        assert!(rt; done(alloc, receivers, expr, modes, bytes)? == (Ok(true), true));
    }
    Ok(())
}

#[test]
fn a_remainder_is_that_of_the_quotient_as_it_would_be_stored(rt: HostRuntime) -> Result<(), Fail> {
    let alloc = rt.alloc();
    let rows: [(&[u8], &[u8], &[u8], &[u8]); 5] = [
        (b"ZS", b"NM/", b"", b"14001"),
        (b"ZS", b"7~2/", b"", b"0301\x73"),
        (b"ZS", b"7~2/", b"R", b"0401\x73"),
        (b"SP", b"7~2/", b"R", &[0x30, 0x30, 0x74, 0x00, 0x1d]),
        (b"DS", b"NM/", b"", b"141000"),
    ];
    for (receivers, expr, modes, bytes) in rows {
        assert!(rt; done(alloc, receivers, expr, modes, bytes)? == (Ok(false), true));
    }
    Ok(())
}

#[test]
fn a_fault_leaves_the_receivers_as_they_were(rt: HostRuntime) -> Result<(), Fail> {
    let alloc = rt.alloc();
    let rows: [(&[u8], &[u8], RunFault); 11] = [
        (b"1Z/", b"", RunFault::Zero),
        (b"B1+", b"P", RunFault::Data),
        (b"T1+", b"", RunFault::Data),
        (b"t", b"", RunFault::Data),
        (b"E", b"", RunFault::Data),
        (b"B1Z/+", b"", RunFault::Data),
        (b"1Z/B+", b"", RunFault::Zero),
        (b"B1Z/+", b"P", RunFault::Data),
        (b"WW*W*", b"P", RunFault::Wide),
        (b"13/13/*13/*13/*", b"", RunFault::Wide),
        (b"WW*W*B+", b"", RunFault::Wide),
    ];
    for (expr, modes, fault) in rows {
        assert!(rt; done(alloc, b"MS", expr, modes, b"0701\x72")? == (Err(fault), true));
    }
    Ok(())
}

/// 7 and so many ones, from the left.
fn long_sum(alloc: Global, ones: u32) -> Result<Expr, Memory> {
    let mut sum = Expr::One(operand_of(alloc, b'7')?);
    for _ in 0..ones {
        let one = Expr::One(operand_of(alloc, b'1')?);
        sum = sum_of(alloc, b'+', sum, one)?;
    }
    Ok(sum)
}

fn sum_value(alloc: Global, ones: u32) -> Result<Result<Scaled, RunFault>, Memory> {
    let layout = items(alloc)?;
    let storage = storage_of(alloc, &layout)?;
    let expr = long_sum(alloc, ones)?;
    let mut places = Places::of(alloc, &layout);
    Ok(value(alloc, &mut places, &storage, &expr))
}

#[test]
fn a_sum_can_have_as_many_terms_as_a_program_has_words(rt: HostRuntime) -> Result<(), Fail> {
    let sum = Scaled {
        number: 100_007,
        scale: 0,
    };
    assert!(rt; sum_value(rt.alloc(), 100_000)? == Ok(sum));
    Ok(())
}

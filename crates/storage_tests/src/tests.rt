ghost use Rattle.std.specs.Prelude.{◌≡◌, IfOk};
ghost use Rattle.data_layout.specs.Index.{IsReady};
ghost use Rattle.layout_reading.specs.Numbered.{AreNumbered};
ghost use Rattle.layout_reading.specs.Reading.{first_area};
ghost use Rattle.storage_places.specs.Fits.{area_lengths};
ghost use Rattle.storage_places.specs.Held.{held, first, lengths};

use super::*;
use cobol_syntax::{CondForm, Condition, Entry, Expr, Operand, Place, Program, Range, Rel, Usage};
use data_layout::{Layout, LayoutFault, lay_out};
use decimal_bytes::{Scaled, SignPlace};
use picture::read_picture;
use place_table::Places;
use sqlite_items::Boxed;
use std::alloc::Global;
use std::cmp::Ordering;
use std::test::Fail;
use storage_places::{RunFault, Storage, layout_fits};
use y2k_base::{AreaId, Bytes, List, Memory, Span};

/// An operand of a test: the item of a name, a number literal with its scale and its digits, a text, or a figurative
/// constant.
#[derive(Clone, Copy)]
enum Given<'a> {
    Item(u8),
    Number(i64, u8, u8),
    Text(&'a [u8]),
    Figure(u8),
}

const ZERO: Given<'static> = Given::Figure(b'0');

const SPACES: Given<'static> = Given::Figure(b' ');

fn bytes_of(alloc: Global, text: &[u8]) -> Result<Bytes, Memory> {
    let mut bytes = List::new(alloc);
    bytes.append(text)?;
    Ok(bytes)
}

fn place_of(alloc: Global, name: u8) -> Result<Place, Memory> {
    let mut names = List::new(alloc);
    names.push(bytes_of(alloc, &[name])?)?;
    Ok(Place {
        names,
        subs: List::new(alloc),
        cut: None,
        at: 0,
        end: 1,
    })
}

fn number(value: i64, scale: u8, digits: u8) -> Operand {
    Operand::Number {
        value: Scaled {
            number: i128::from(value),
            scale,
        },
        digits,
        at: 0,
    }
}

fn operand_of(alloc: Global, given: Given<'_>) -> Result<Operand, Memory> {
    match given {
        Given::Item(name) => Ok(Operand::Place(place_of(alloc, name)?)),
        Given::Number(value, scale, digits) => Ok(number(value, scale, digits)),
        Given::Text(text) => Ok(Operand::Text {
            bytes: bytes_of(alloc, text)?,
            at: 0,
        }),
        Given::Figure(byte) => Ok(Operand::Figure { byte, at: 0 }),
    }
}

fn expr_of(alloc: Global, given: Given<'_>) -> Result<Expr, Memory> {
    Ok(Expr::One(operand_of(alloc, given)?))
}

fn entry_of(
    alloc: Global,
    level: u8,
    name: u8,
    picture: &[u8],
    usage: Usage,
) -> Result<Entry, Memory> {
    Ok(Entry {
        level,
        name: Some(bytes_of(alloc, &[name])?),
        redefines: None,
        occurs: None,
        picture: read_picture(alloc, picture).ok(),
        picture_at: 0,
        usage,
        sign: SignPlace::Trailing,
        value: None,
        ranges: List::new(alloc),
        at: 0,
    })
}

/// A condition-name with a value, or the values from one to another, and with a further value.
fn name_of(
    alloc: Global,
    name: u8,
    low: Given<'_>,
    high: Option<Given<'_>>,
    other: Given<'_>,
) -> Result<Entry, Memory> {
    let mut entry = entry_of(alloc, 88, name, b"", Usage::Display)?;
    let low = operand_of(alloc, low)?;
    let high = match high {
        Some(high) => Some(operand_of(alloc, high)?),
        None => None,
    };
    entry.ranges.push(Range { low, high })?;
    entry.ranges.push(Range {
        low: operand_of(alloc, other)?,
        high: None,
    })?;
    Ok(entry)
}

/// The items of N, with their condition-names: 5 or 10 THRU 20; 40 THRU 42; 42, or a number that is too wide to be
/// compared; the same from the right.
fn add_number(alloc: Global, storage: &mut List<Entry>) -> Result<(), Memory> {
    let wide = Given::Number(1, 38, 1);
    let answer = Given::Number(42, 0, 2);
    let ten = Given::Number(10, 0, 2);
    let forty = Given::Number(40, 0, 2);
    let twenty = Given::Number(20, 0, 2);
    let five = Given::Number(5, 0, 1);
    storage.push(entry_of(alloc, 77, b'N', b"9(3)", Usage::Display)?)?;
    storage.push(name_of(alloc, b'c', ten, Some(twenty), five)?)?;
    storage.push(name_of(alloc, b'd', forty, Some(answer), five)?)?;
    storage.push(name_of(alloc, b'e', answer, None, wide)?)?;
    storage.push(name_of(alloc, b'f', wide, None, answer)?)?;
    Ok(())
}

/// Texts, with condition-names: 41 or 42; 40 THRU 4.
fn add_texts(alloc: Global, storage: &mut List<Entry>) -> Result<(), Memory> {
    let text = Given::Text(b"42");
    storage.push(entry_of(alloc, 77, b'X', b"X(4)", Usage::Display)?)?;
    storage.push(name_of(alloc, b'k', Given::Text(b"41"), None, text)?)?;
    storage.push(entry_of(alloc, 77, b'T', b"X(2)", Usage::Display)?)?;
    storage.push(name_of(
        alloc,
        b'l',
        Given::Text(b"40"),
        Some(Given::Text(b"4")),
        Given::Text(b"5"),
    )?)?;
    storage.push(entry_of(alloc, 77, b'A', b"X(4)", Usage::Display)?)?;
    Ok(())
}

/// `01 G. 05 H PIC 9(4).` in area 0, and then N `9(3)`, X `X(4)`, T `X(2)`, A `X(4)`, S `S9(3)V99`, P and R `S9(3)`
/// packed, B `S9(4)` binary and Q `9(2)`, each in an area of its own.
fn layout_of_items(alloc: Global) -> Result<Layout, LayoutFault>
    ensures ready { IfOk result IsReady }
    ensures numbered { IfOk result (λ layout. AreNumbered (first_area layout.areas) layout.areas) }
{
    let mut storage = List::new(alloc);
    storage.push(entry_of(alloc, 1, b'G', b"", Usage::Display)?)?;
    storage.push(entry_of(alloc, 5, b'H', b"9(4)", Usage::Display)?)?;
    add_number(alloc, &mut storage)?;
    add_texts(alloc, &mut storage)?;
    storage.push(entry_of(alloc, 77, b'S', b"S9(3)V99", Usage::Display)?)?;
    storage.push(entry_of(alloc, 77, b'P', b"S9(3)", Usage::Packed)?)?;
    storage.push(entry_of(alloc, 77, b'R', b"S9(3)", Usage::Packed)?)?;
    storage.push(entry_of(alloc, 77, b'B', b"S9(4)", Usage::Binary)?)?;
    storage.push(entry_of(alloc, 77, b'Q', b"9(2)", Usage::Display)?)?;
    let program = Program {
        id: List::new(alloc),
        words: List::new(alloc),
        selects: List::new(alloc),
        files: List::new(alloc),
        storage,
        paragraphs: List::new(alloc),
    };
    lay_out(alloc, &program, AreaId(0))
}

/// Sets the first bytes of an area, if they lie in it.
fn put(storage: &mut Storage, area: u32, bytes: &[u8])
    ensures first { first storage.new ≡ first storage.old }
    ensures lengths { lengths (held storage.new) ≡ lengths (held storage.old) }
{
    if bytes.len() < 8 {
        let span = Span {
            area: AreaId(area),
            offset: 0,
            length: bytes.len() as u32,
        };
        if storage.bytes(span).is_some() {
            storage.set(span, bytes);
        }
    }
}

/// What the items hold: N 42, S 42, P -123, B 42, and R and Q no number.
fn storage_of_items(alloc: Global, layout: &Layout) -> Result<Storage, Memory>
    ensures first { IfOk result (λ storage. first storage ≡ first_area layout.now.areas) }
    ensures lengths { IfOk result (λ storage. lengths (held storage) ≡ area_lengths layout.now) }
{
    let mut storage = Storage::spaces(alloc, layout)?;
    put(&mut storage, 0, b"0042");
    put(&mut storage, 1, b"042");
    put(&mut storage, 2, b"42");
    put(&mut storage, 3, b"42");
    put(&mut storage, 4, b"Ab");
    put(&mut storage, 5, b"04200");
    put(&mut storage, 6, &[0x12, 0x3D]);
    put(&mut storage, 7, b"12");
    put(&mut storage, 8, &[0, 42]);
    put(&mut storage, 9, b"4");
    Ok(storage)
}

fn layout_of_test(alloc: Global) -> Result<Layout, Memory>
    ensures ready { IfOk result IsReady }
    ensures numbered { IfOk result (λ layout. AreNumbered (first_area layout.areas) layout.areas) }
{
    match layout_of_items(alloc) {
        Ok(layout) => Ok(layout),
        Err(_) => Err(Memory),
    }
}

fn compared(
    alloc: Global,
    left: Given<'_>,
    right: Given<'_>,
) -> Result<Result<Ordering, RunFault>, Memory> {
    let layout = layout_of_test(alloc)?;
    if !layout_fits(&layout) {
        return Err(Memory);
    }
    let storage = storage_of_items(alloc, &layout)?;
    let left = expr_of(alloc, left)?;
    let right = expr_of(alloc, right)?;
    let mut places = Places::of(alloc, &layout);
    Ok(compare_items(alloc, &mut places, &storage, &left, &right))
}

fn tested(alloc: Global, form: CondForm) -> Result<Result<bool, RunFault>, Memory> {
    let condition = whole(form);
    let layout = layout_of_test(alloc)?;
    if !layout_fits(&layout) {
        return Err(Memory);
    }
    let storage = storage_of_items(alloc, &layout)?;
    let mut places = Places::of(alloc, &layout);
    Ok(test(alloc, &mut places, &storage, &condition))
}

fn whole(form: CondForm) -> Condition {
    Condition {
        at: 0,
        end: 1,
        form,
    }
}

fn relation(
    alloc: Global,
    left: Given<'_>,
    rel: Rel,
    right: Given<'_>,
) -> Result<CondForm, Memory> {
    Ok(CondForm::Relation {
        left: expr_of(alloc, left)?,
        rel,
        right: expr_of(alloc, right)?,
    })
}

fn both(alloc: Global, and: bool, first: CondForm, second: CondForm) -> Result<CondForm, Memory> {
    let first = Boxed::new(alloc, whole(first))?;
    let second = Boxed::new(alloc, whole(second))?;
    if and {
        return Ok(CondForm::And(first, second));
    }
    Ok(CondForm::Or(first, second))
}

/// A relation that holds, one that doesn't, or one that meets bytes without a number.
fn part(alloc: Global, kind: u8) -> Result<CondForm, Memory> {
    match kind {
        b't' => Ok(relation(
            alloc,
            Given::Item(b'N'),
            Rel::Equal,
            Given::Number(42, 0, 2),
        )?),
        b'f' => Ok(relation(alloc, Given::Item(b'N'), Rel::Less, Given::Number(42, 0, 2))?),
        _ => Ok(relation(alloc, Given::Item(b'Q'), Rel::Greater, ZERO)?),
    }
}

#[test]
fn numbers_are_compared_by_value(rt: HostRuntime) -> Result<(), Fail> {
    let alloc = rt.alloc();
    let rows = [
        (Given::Item(b'N'), Given::Item(b'S'), Ok(Ordering::Equal)),
        (Given::Item(b'N'), Given::Item(b'P'), Ok(Ordering::Greater)),
        (Given::Item(b'P'), Given::Item(b'B'), Ok(Ordering::Less)),
        (
            Given::Item(b'B'),
            Given::Number(420, 1, 3),
            Ok(Ordering::Equal),
        ),
        (Given::Item(b'N'), ZERO, Ok(Ordering::Greater)),
        (ZERO, Given::Item(b'P'), Ok(Ordering::Greater)),
        (Given::Item(b'Q'), Given::Item(b'N'), Err(RunFault::Data)),
        (Given::Item(b'N'), Given::Item(b'R'), Err(RunFault::Data)),
    ];
    for (left, right, order) in rows {
        assert!(rt; compared(alloc, left, right)? == order);
    }
    Ok(())
}

#[test]
fn all_else_is_compared_by_bytes(rt: HostRuntime) -> Result<(), Fail> {
    let alloc = rt.alloc();
    let rows = [
        (Given::Item(b'X'), ZERO, Ok(Ordering::Greater)),
        (SPACES, Given::Item(b'X'), Ok(Ordering::Less)),
        (Given::Item(b'N'), Given::Item(b'X'), Ok(Ordering::Less)),
        (Given::Item(b'G'), Given::Item(b'N'), Ok(Ordering::Less)),
        (Given::Item(b'X'), Given::Item(b'T'), Ok(Ordering::Equal)),
        (Given::Item(b'T'), Given::Text(b"42A"), Ok(Ordering::Less)),
        (
            Given::Item(b'T'),
            Given::Number(42, 0, 2),
            Ok(Ordering::Equal),
        ),
        (
            Given::Number(42, 0, 3),
            Given::Item(b'T'),
            Ok(Ordering::Less),
        ),
        (Given::Item(b'Q'), Given::Item(b'T'), Ok(Ordering::Less)),
    ];
    for (left, right, order) in rows {
        assert!(rt; compared(alloc, left, right)? == order);
    }
    Ok(())
}

#[test]
fn classes_are_those_of_the_bytes(rt: HostRuntime) -> Result<(), Fail> {
    let alloc = rt.alloc();
    let rows = [
        (b'N', true, true),
        (b'Q', true, false),
        (b'P', true, true),
        (b'R', true, true),
        (b'G', true, true),
        (b'X', true, false),
        (b'T', true, true),
        (b'T', false, false),
        (b'A', false, true),
        (b'P', false, false),
    ];
    for (name, numeric, holds) in rows {
        let of = place_of(alloc, name)?;
        assert!(rt; tested(alloc, CondForm::Class { of, numeric })? == Ok(holds));
    }
    Ok(())
}

#[test]
fn signs_are_those_of_values(rt: HostRuntime) -> Result<(), Fail> {
    let alloc = rt.alloc();
    let rows = [
        (Given::Item(b'P'), -1, Ok(true)),
        (Given::Item(b'P'), 0, Ok(false)),
        (Given::Item(b'P'), 1, Ok(false)),
        (Given::Item(b'S'), 1, Ok(true)),
        (ZERO, 0, Ok(true)),
        (Given::Item(b'R'), 0, Err(RunFault::Data)),
    ];
    for (given, sign, holds) in rows {
        let of = expr_of(alloc, given)?;
        assert!(rt; tested(alloc, CondForm::Sign { of, sign })? == holds);
    }
    Ok(())
}

#[test]
fn names_hold_by_their_first_value(rt: HostRuntime) -> Result<(), Fail> {
    let alloc = rt.alloc();
    let rows = [
        (b'c', Ok(false)),
        (b'd', Ok(true)),
        (b'e', Ok(true)),
        (b'f', Err(RunFault::Wide)),
        (b'k', Ok(true)),
        (b'l', Ok(false)),
    ];
    for (name, holds) in rows {
        let place = place_of(alloc, name)?;
        assert!(rt; tested(alloc, CondForm::Named(place))? == holds);
    }
    Ok(())
}

#[test]
fn the_second_side_is_read_where_the_first_does_not_decide(rt: HostRuntime) -> Result<(), Fail> {
    let alloc = rt.alloc();
    let rows = [
        (b't', false, b'?', Ok(true)),
        (b'f', true, b'?', Ok(false)),
        (b'f', false, b'?', Err(RunFault::Data)),
        (b't', true, b'?', Err(RunFault::Data)),
        (b'?', false, b't', Err(RunFault::Data)),
        (b'?', true, b'f', Err(RunFault::Data)),
        (b't', true, b'f', Ok(false)),
        (b'f', false, b't', Ok(true)),
    ];
    for (first, and, second, holds) in rows {
        let form = both(alloc, and, part(alloc, first)?, part(alloc, second)?)?;
        assert!(rt; tested(alloc, form)? == holds);
    }
    Ok(())
}

#[test]
fn not_turns_the_answer(rt: HostRuntime) -> Result<(), Fail> {
    let alloc = rt.alloc();
    let rows = [
        (b't', Ok(false)),
        (b'f', Ok(true)),
        (b'?', Err(RunFault::Data)),
    ];
    for (kind, holds) in rows {
        let inner = Boxed::new(alloc, whole(part(alloc, kind)?))?;
        assert!(rt; tested(alloc, CondForm::Not(inner))? == holds);
    }
    Ok(())
}

#[test]
fn a_condition_has_as_many_terms_as_a_program_has_words(rt: HostRuntime) -> Result<(), Fail> {
    let alloc = rt.alloc();
    let mut form = part(alloc, b'f')?;
    for _ in 0..20_000u32 {
        form = both(alloc, false, form, part(alloc, b'f')?)?;
    }
    form = both(alloc, false, form, part(alloc, b't')?)?;
    assert!(rt; tested(alloc, form)? == Ok(true));
    Ok(())
}

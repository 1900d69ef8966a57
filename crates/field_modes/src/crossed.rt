ghost use Rattle.std.specs.Prelude.{◌≡◌, ◌++◌, map, IfOk, OnOk};
ghost use Rattle.y2k_base.specs.Edits.{AreInOrder};
ghost use Rattle.statement_places.specs.Parts.{seen};
ghost use Rattle.field_modes.specs.Crossed as spec;

use crate::crossing::Crossing;
use cobol_syntax::Place;
use generated_areas::GeneratedArea;
use statement_places::Part;
use statement_words::{EditedWords, add_head, add_receiver, add_text, add_word};
use std::alloc::Global;
use y2k_base::{Bytes, List, Memory, Origin, Word, WordKind};

/// Adds the name of an area.
fn add_area(
    alloc: Global,
    into: &mut List<Word>,
    area: GeneratedArea,
    at: Origin,
) -> Result<(), Memory> {
    let name = area.name(alloc)?;
    add_word(alloc, into, WordKind::Name, name.items(), at)?;
    Ok(())
}

fn digit_of(value: u8) -> u8 {
    b'0' + value % 10
}

/// Two digits, and so many zeros behind them.
fn filled(alloc: Global, value: u8, zeros: u8) -> Result<Bytes, Memory> {
    let mut text = List::new(alloc);
    text.push(digit_of(value / 10))?;
    text.push(digit_of(value))?;
    for _ in 0..zeros {
        text.push(b'0')?;
    }
    Ok(text)
}

fn add_filled(
    alloc: Global,
    into: &mut List<Word>,
    value: u8,
    zeros: u8,
    at: Origin,
) -> Result<(), Memory> {
    let text = filled(alloc, value, zeros)?;
    add_word(alloc, into, WordKind::Number, text.items(), at)?;
    Ok(())
}

/// Adds the computation of the long area from the short one in that century.
fn add_century(
    alloc: Global,
    into: &mut List<Word>,
    digits: u8,
    century: u8,
    at: Origin,
) -> Result<(), Memory> {
    add_text(alloc, into, "COMPUTE", at)?;
    add_area(alloc, into, GeneratedArea::Long(digits), at)?;
    add_text(alloc, into, "=", at)?;
    add_area(alloc, into, GeneratedArea::Short(digits), at)?;
    add_text(alloc, into, "+", at)?;
    add_filled(alloc, into, century, digits, at)?;
    Ok(())
}

/// Adds the choice of the century, and the begin of the move of the long area.
fn add_choice(
    alloc: Global,
    into: &mut List<Word>,
    crossing: Crossing,
    at: Origin,
) -> Result<(), Memory> {
    let digits = crossing.digits;
    add_text(alloc, into, "IF", at)?;
    add_area(alloc, into, GeneratedArea::Short(digits), at)?;
    add_text(alloc, into, "<", at)?;
    add_filled(alloc, into, crossing.pivot, digits.saturating_sub(2), at)?;
    add_century(alloc, into, digits, 20, at)?;
    add_text(alloc, into, "ELSE", at)?;
    add_century(alloc, into, digits, 19, at)?;
    add_text(alloc, into, "END-IF MOVE", at)?;
    add_area(alloc, into, GeneratedArea::Long(digits), at)?;
    Ok(())
}

/// Adds the begin of the move of the short area.
fn add_short_move(
    alloc: Global,
    into: &mut List<Word>,
    digits: u8,
    at: Origin,
) -> Result<(), Memory> {
    add_text(alloc, into, "MOVE", at)?;
    add_area(alloc, into, GeneratedArea::Short(digits), at)?;
    Ok(())
}

fn add_second(
    alloc: Global,
    into: &mut List<Word>,
    crossing: Crossing,
    at: Origin,
) -> Result<(), Memory> {
    if crossing.windowed {
        add_choice(alloc, into, crossing, at)?;
        Ok(())
    } else {
        add_short_move(alloc, into, crossing.digits, at)?;
        Ok(())
    }
}

/// Adds the words of a MOVE that crosses: the sender goes to the short area, and that area, or the long one with the century,
/// to the receiver.
pub(crate) fn add_crossed(
    alloc: Global,
    into: &mut List<Word>,
    source: EditedWords,
    group: &[Part],
    to: &Place,
    crossing: Crossing,
    at: Origin,
) -> Result<(), Memory>
    requires { AreInOrder source.edits.now }
{
    add_head(alloc, into, source, group)?;
    add_area(alloc, into, GeneratedArea::Short(crossing.digits), at)?;
    add_second(alloc, into, crossing, at)?;
    add_text(alloc, into, "TO", at)?;
    add_receiver(alloc, into, source, to, false)?;
    Ok(())
}

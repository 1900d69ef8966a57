ghost use Rattle.std.specs.Prelude.{◌≡◌, ◌++◌, OnOk};
ghost use Rattle.word_wishes.specs.Literals as spec;

use crate::wish::{ProgramWords, add_wanted};
use date_uses::Used;
use literal_images::{Meeting, literal_image};
use std::alloc::Global;
use y2k_base::{Edit, List, Memory};
use year_index::YearIndex;

/// The position of a literal or a figurative constant in the words of its program.
pub fn literal_at(operand: &Used) -> Option<u32>
    ensures { result ≡ spec.literal_at operand.now }
{
    match operand {
        Used::Place(_) => None,
        Used::Number {
            value: _,
            digits: _,
            at,
        } => Some(*at),
        Used::Text { bytes: _, at } => Some(*at),
        Used::Figure { byte: _, at } => Some(*at),
    }
}

/// Adds what an operand of a program wants that meets another, if it is a literal.
pub(crate) fn add_literal(
    alloc: Global,
    wishes: &mut List<Edit>,
    index: &YearIndex,
    source: ProgramWords,
    meeting: Meeting,
    literal: &Used,
    operand: &Used,
) -> Result<(), Memory>
    ensures { OnOk result (wishes.new ≡ wishes.old ++ spec.literal_wishes index.now source.entry.number source.entry.words.now meeting literal.now operand.now) }
{
    match literal_at(literal) {
        None => Ok(()),
        Some(position) => {
            let new = literal_image(alloc, index, meeting, literal, operand)?;
            add_wanted(alloc, wishes, source, position, &new)?;
            Ok(())
        }
    }
}

/// Adds what two operands want that are compared with each other.
pub(crate) fn add_compared(
    alloc: Global,
    wishes: &mut List<Edit>,
    index: &YearIndex,
    source: ProgramWords,
    left: &Used,
    right: &Used,
) -> Result<(), Memory>
    ensures { OnOk result (wishes.new ≡ wishes.old ++ spec.compared_wishes index.now source.entry.number source.entry.words.now left.now right.now) }
{
    let meeting = Meeting::Compared;
    add_literal(alloc, wishes, index, source, meeting, left, right)?;
    add_literal(alloc, wishes, index, source, meeting, right, left)?;
    Ok(())
}

/// Adds what the last value of a range wants, if there is one.
fn add_high(
    alloc: Global,
    wishes: &mut List<Edit>,
    index: &YearIndex,
    source: ProgramWords,
    high: &Option<Used>,
    item: &Used,
) -> Result<(), Memory>
    ensures { OnOk result (wishes.new ≡ wishes.old ++ spec.high_wishes index.now source.entry.number source.entry.words.now high.now item.now) }
{
    match high {
        None => Ok(()),
        Some(high) => {
            let meeting = Meeting::Compared;
            add_literal(alloc, wishes, index, source, meeting, high, item)?;
            Ok(())
        }
    }
}

/// Adds what the values of a condition-name want.
pub(crate) fn add_range(
    alloc: Global,
    wishes: &mut List<Edit>,
    index: &YearIndex,
    source: ProgramWords,
    item: &Used,
    low: &Used,
    high: &Option<Used>,
) -> Result<(), Memory>
    ensures { OnOk result (wishes.new ≡ wishes.old ++ spec.range_wishes index.now source.entry.number source.entry.words.now item.now low.now high.now) }
{
    let meeting = Meeting::Compared;
    add_literal(alloc, wishes, index, source, meeting, low, item)?;
    add_high(alloc, wishes, index, source, high, item)?;
    Ok(())
}

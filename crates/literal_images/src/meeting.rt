ghost use Rattle.std.specs.Prelude.{◌≡◌, ◌++◌, IfOk, OnOk};
ghost use Rattle.literal_images.specs.Meetings as spec;

use date_uses::{MoveKind, Used};
use operand_kinds::Kind;
use std::alloc::Global;
use window_modes::YearMode;
use y2k_base::{List, Memory, Span};
use year_index::YearIndex;

/// How a literal meets a field: it is `Moved` to it by a MOVE statement, by VARYING's FROM or as its VALUE, `Copied` to it
/// by WRITE's FROM, or `Compared` with it, also as one of the values of its condition-names.
#[derive(Clone, Copy, Debug, PartialEq, Eq)]
pub enum Meeting {
    Moved,
    Copied,
    Compared,
}

/// How a literal meets the receiver of a move.
pub fn meeting_of(kind: MoveKind) -> Meeting
    ensures { result ≡ spec.meeting_of kind }
{
    match kind {
        MoveKind::Statement => Meeting::Moved,
        MoveKind::Varying => Meeting::Moved,
        MoveKind::Into => Meeting::Copied,
        MoveKind::From => Meeting::Copied,
    }
}

/// A number literal, or ZERO.
pub(crate) fn is_numeral(literal: &Used) -> bool
    ensures { result ≡ spec.is_numeral literal.now }
{
    match literal {
        Used::Place(_) => false,
        Used::Number {
            value: _,
            digits: _,
            at: _,
        } => true,
        Used::Text { bytes: _, at: _ } => false,
        Used::Figure { byte, at: _ } => *byte == b'0',
    }
}

pub(crate) fn is_text(literal: &Used) -> bool
    ensures { result ≡ spec.is_text literal.now }
{
    match literal {
        Used::Place(_) => false,
        Used::Number {
            value: _,
            digits: _,
            at: _,
        } => false,
        Used::Text { bytes: _, at: _ } => true,
        Used::Figure { byte: _, at: _ } => false,
    }
}

/// Whether it is a literal or ZERO.
pub(crate) fn has_image(literal: &Used) -> bool
    ensures { result ≡ spec.has_image literal.now }
{
    is_numeral(literal) || is_text(literal)
}

/// Whether its digits meet those of the same powers, and not its bytes those of the field from the left.
pub(crate) fn is_by_value(meeting: Meeting, literal: &Used, kind: Kind) -> bool
    ensures { result ≡ spec.is_by_value meeting literal.now kind }
{
    match meeting {
        Meeting::Moved => kind.is_aligned(),
        Meeting::Copied => false,
        Meeting::Compared => kind.is_number() && is_numeral(literal),
    }
}

/// How many digits or bytes a literal of so many gets where the field has room for so many.
pub(crate) fn places(meeting: Meeting, room: usize, count: usize) -> usize
    ensures { result ≡ spec.places meeting room count }
{
    match meeting {
        Meeting::Moved => room,
        Meeting::Copied => room,
        Meeting::Compared => room.max(count),
    }
}

fn add_if_expanded(modes: &mut List<YearMode>, mode: &YearMode) -> Result<(), Memory>
    ensures { OnOk result (modes.new ≡ modes.old ++ spec.if_expanded mode.now) }
{
    if mode.pivot.is_none() {
        modes.push(*mode)?;
    }
    Ok(())
}

/// The years that get their century and have a byte in the span.
pub(crate) fn expanded_in(
    alloc: Global,
    index: &YearIndex,
    span: Span,
) -> Result<List<YearMode>, Memory>
    ensures { IfOk result (λ modes. modes ≡ spec.expanded_in index.now span) }
{
    let years = index.years_in(span);
    let mut modes = List::new(alloc);
    let mut rest = years;
    while let [mode, more @ ..] = rest {
        add_if_expanded(&mut modes, mode)?;
        rest = more;
    }
    Ok(modes)
}

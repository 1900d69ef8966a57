ghost use Rattle.std.specs.Prelude.{◌≡◌};
ghost use Rattle.data_layout.specs.Index.{IsReady};
ghost use Rattle.operand_uses.specs.Operands as spec;

use cobol_syntax::{Operand, Place};
use data_layout::Layout;
use operand_kinds::{Kind, Reach, see};

/// What an operand is where it is moved, compared or counted with.
#[derive(Clone, Copy, Debug, PartialEq, Eq)]
pub enum Sort {
    /// An item or a reference, with its length where the text of the program gives it.
    Item { kind: Kind, length: Option<u32> },
    /// A numeric literal; `whole` where it has no digits after the point.
    Number { whole: bool },
    /// A nonnumeric literal of so many bytes.
    Text { length: usize },
    Zero,
    /// A figurative constant other than ZERO.
    Figure,
    /// An identifier that means no item, or several; its name is at fault, and nothing else is said of it.
    Unclear,
}

fn length_of(reach: Reach) -> Option<u32>
    ensures { result ≡ spec.length_of reach }
{
    match reach {
        Reach::Fixed { start: _, length } => Some(length),
        Reach::Moving { length } => Some(length),
        Reach::Open { most: _ } => None,
    }
}

/// What the item or reference is.
pub fn sort_of_place(layout: &Layout, place: &Place) -> Sort
    requires { IsReady layout.now }
    ensures { result ≡ spec.sort_of_place layout.now place.now }
{
    match see(layout, place) {
        None => Sort::Unclear,
        Some(seen) => Sort::Item {
            kind: seen.kind,
            length: length_of(seen.reach),
        },
    }
}

/// What the operand is.
pub fn sort_of(layout: &Layout, operand: &Operand) -> Sort
    requires { IsReady layout.now }
    ensures { result ≡ spec.sort_of layout.now operand.now }
{
    match operand {
        Operand::Place(place) => sort_of_place(layout, place),
        Operand::Number {
            value,
            digits: _,
            at: _,
        } => Sort::Number {
            whole: value.scale == 0,
        },
        Operand::Text { bytes, at: _ } => Sort::Text {
            length: bytes.len(),
        },
        Operand::Figure { byte, at: _ } => sort_of_figure(*byte),
    }
}

fn sort_of_figure(byte: u8) -> Sort
    ensures { result ≡ spec.sort_of_figure byte }
{
    if byte == b'0' {
        Sort::Zero
    } else {
        Sort::Figure
    }
}

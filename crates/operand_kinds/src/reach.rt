ghost use Rattle.std.specs.Prelude.{◌≡◌};
ghost use Rattle.operand_kinds.specs.Kinds as spec;

use cobol_syntax::{Part, Sub};

/// Which bytes of an item a place takes, as far as its text tells. `start` counts from 0, in bytes of the occurrence.
#[derive(Clone, Copy, Debug, PartialEq, Eq)]
pub enum Reach {
    /// These bytes.
    Fixed { start: u32, length: u32 },
    /// So many bytes, from a start that a data name gives.
    Moving { length: u32 },
    /// At most so many bytes: a data name gives the length, or the start where no length is written.
    Open { most: u32 },
}

/// The bytes that a place takes of an item of so many bytes, by its reference modification if it has one. A literal
/// start or length that leaves the item is taken as it is written.
pub fn bytes_reached(cut: &Option<Part>, bytes: u32) -> Reach
    ensures { result ≡ spec.reach cut.now bytes }
{
    match cut {
        None => Reach::Fixed {
            start: 0,
            length: bytes,
        },
        Some(part) => reach_of_part(part, bytes),
    }
}

fn reach_of_part(part: &Part, bytes: u32) -> Reach
    ensures { result ≡ spec.reach_of part.now.start part.now.length bytes }
{
    match &part.start {
        Sub::Number { value, at: _ } => reach_from(value.saturating_sub(1), &part.length, bytes),
        Sub::Name(_) => reach_anywhere(&part.length, bytes),
    }
}

fn reach_from(start: u32, length: &Option<Sub>, bytes: u32) -> Reach
    ensures { result ≡ spec.reach_from start length.now bytes }
{
    match length {
        None => Reach::Fixed {
            start,
            length: bytes.saturating_sub(start),
        },
        Some(Sub::Number { value, at: _ }) => Reach::Fixed {
            start,
            length: *value,
        },
        Some(Sub::Name(_)) => Reach::Open {
            most: bytes.saturating_sub(start),
        },
    }
}

fn reach_anywhere(length: &Option<Sub>, bytes: u32) -> Reach
    ensures { result ≡ spec.reach_anywhere length.now bytes }
{
    match length {
        None => Reach::Open { most: bytes },
        Some(Sub::Number { value, at: _ }) => Reach::Moving { length: *value },
        Some(Sub::Name(_)) => Reach::Open { most: bytes },
    }
}

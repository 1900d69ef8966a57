use cobol_syntax::{Register, Rel};
use date_views::Side;
use decimal_bytes::Scaled;
use mode_links::Bridge;
use y2k_base::{Bytes, Origin};

/// A place that a statement or an entry uses. `side` is what it takes of storage, `None` where it has no bytes that can be
/// told; `item` is the number of its item in the layout, `None` for a record area. `cut` says that it is a reference
/// modification, and `at` is the position of its first word in the words of the program.
#[derive(Debug)]
pub struct UsedPlace {
    pub side: Option<Side>,
    pub item: Option<u32>,
    pub cut: bool,
    pub at: u32,
}

/// An operand of a use: a place, or a literal or figurative constant as it is read, with the position of its word.
#[derive(Debug)]
pub enum Used {
    Place(UsedPlace),
    Number { value: Scaled, digits: u8, at: u32 },
    Text { bytes: Bytes, at: u32 },
    Figure { byte: u8, at: u32 },
}

/// What moves: a MOVE statement, VARYING's FROM, READ's INTO or WRITE's FROM. The last two move bytes as to a group.
#[derive(Clone, Copy, Debug, PartialEq, Eq)]
pub enum MoveKind {
    Statement,
    Varying,
    Into,
    From,
}

/// A use. `Value` is the VALUE of an item, `Range` one value or range of a condition-name's item, and `Mention` is each place
/// that a statement names, besides the other uses.
#[derive(Debug)]
pub enum UseForm {
    /// `bridge` has the years of a MOVE statement that is bridged.
    Move {
        kind: MoveKind,
        from: Used,
        to: Used,
        bridge: Option<Bridge>,
    },
    Accept {
        to: Used,
        from: Register,
    },
    Compare {
        left: Used,
        rel: Rel,
        right: Used,
    },
    /// NUMERIC or ALPHABETIC.
    Class {
        of: Used,
        numeric: bool,
    },
    /// to = left + right; `size` says that the statement has a size phrase.
    Sum {
        to: Used,
        left: Used,
        right: Used,
        size: bool,
    },
    /// to = left - right.
    Difference {
        to: Used,
        left: Used,
        right: Used,
        size: bool,
    },
    Value {
        item: Used,
        of: Used,
    },
    Range {
        item: Used,
        low: Used,
        high: Option<Used>,
    },
    Mention {
        of: Used,
    },
}

/// A use in a program, by its number, at the first word of the statement or at the level number of the entry; that of a
/// condition-name is its own.
#[derive(Debug)]
pub struct DateUse {
    pub program: u32,
    pub at: Origin,
    pub form: UseForm,
}

impl Drop for UsedPlace {
    fn drop(self) {
        let UsedPlace {
            side: _side,
            item: _,
            cut: _,
            at: _,
        } = self;
    }
}

impl Drop for Used {
    fn drop(self) {
        match self {
            Used::Place(_place) => {}
            Used::Number {
                value: _,
                digits: _,
                at: _,
            } => {}
            Used::Text {
                bytes: _bytes,
                at: _,
            } => {}
            Used::Figure { byte: _, at: _ } => {}
        }
    }
}

impl Drop for UseForm {
    fn drop(self) {
        match self {
            UseForm::Move {
                kind: _,
                from: _from,
                to: _to,
                bridge: _,
            } => {}
            UseForm::Accept { to: _to, from: _ } => {}
            UseForm::Compare {
                left: _left,
                rel: _,
                right: _right,
            } => {}
            UseForm::Class {
                of: _of,
                numeric: _,
            } => {}
            UseForm::Sum {
                to: _to,
                left: _left,
                right: _right,
                size: _,
            } => {}
            UseForm::Difference {
                to: _to,
                left: _left,
                right: _right,
                size: _,
            } => {}
            UseForm::Value {
                item: _item,
                of: _of,
            } => {}
            UseForm::Range {
                item: _item,
                low: _low,
                high: _high,
            } => {}
            UseForm::Mention { of: _of } => {}
        }
    }
}

impl Drop for DateUse {
    fn drop(self) {
        let DateUse {
            program: _,
            at: _,
            form: _form,
        } = self;
    }
}

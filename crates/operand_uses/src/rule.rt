ghost use Rattle.std.specs.Prelude.{◌≡◌};
ghost use Rattle.operand_uses.specs.Operands as spec;

use crate::sort::Sort;
use operand_kinds::Kind;

/// The most bytes of a text that is a number.
const MOST_DIGITS: usize = 18;

/// Whether the length, if it is known, is that of a text that may be a number.
fn is_numeral(length: Option<u32>) -> bool
    ensures { result ≡ spec.is_numeral length }
{
    match length {
        None => true,
        Some(length) => 1 <= length && length <= 18,
    }
}

fn item_gives_number(kind: Kind, length: Option<u32>) -> bool
    ensures { result ≡ spec.item_gives_number kind length }
{
    match kind {
        Kind::Group => true,
        Kind::Text => is_numeral(length),
        Kind::Edited { form: _ } => false,
        Kind::Number { usage: _, form: _ } => true,
    }
}

fn kind_is_status(kind: Kind, length: Option<u32>) -> bool
    ensures { result ≡ spec.kind_is_status kind length }
{
    match kind {
        Kind::Group => length == Some(2),
        Kind::Text => length == Some(2),
        Kind::Edited { form: _ } => false,
        Kind::Number { usage: _, form } => kind.is_digits() && form.digits == 2,
    }
}

impl Sort {
    /// Whether arithmetic, a sign test or a count may take it: a numeric item or literal, or ZERO.
    pub fn counts(self) -> bool
        ensures { result ≡ spec.counts self }
    {
        match self {
            Sort::Item { kind, length: _ } => kind.is_number(),
            Sort::Number { whole: _ } => true,
            Sort::Text { length: _ } => false,
            Sort::Zero => true,
            Sort::Figure => false,
            Sort::Unclear => true,
        }
    }

    /// Whether it is a number without digits after the point.
    pub fn is_whole(self) -> bool
        ensures { result ≡ spec.is_whole self }
    {
        match self {
            Sort::Item { kind, length: _ } => kind.is_integer(),
            Sort::Number { whole } => whole,
            Sort::Text { length: _ } => false,
            Sort::Zero => true,
            Sort::Figure => false,
            Sort::Unclear => true,
        }
    }

    fn is_constant(self) -> bool
        ensures { result ≡ spec.is_constant self }
    {
        match self {
            Sort::Item { kind: _, length: _ } => false,
            Sort::Number { whole: _ } => true,
            Sort::Text { length: _ } => true,
            Sort::Zero => true,
            Sort::Figure => true,
            Sort::Unclear => false,
        }
    }

    /// Whether it may be moved to a number or an edited item.
    fn gives_number(self) -> bool
        ensures { result ≡ spec.gives_number self }
    {
        match self {
            Sort::Item { kind, length } => item_gives_number(kind, length),
            Sort::Number { whole: _ } => true,
            Sort::Text { length } => 1 <= length && length <= MOST_DIGITS,
            Sort::Zero => true,
            Sort::Figure => false,
            Sort::Unclear => true,
        }
    }

    /// Whether it may be moved to a text.
    fn gives_text(self) -> bool
        ensures { result ≡ spec.gives_text self }
    {
        match self {
            Sort::Item { kind, length: _ } => !kind.is_number() || kind.is_integer(),
            Sort::Number { whole } => whole,
            Sort::Text { length: _ } => true,
            Sort::Zero => true,
            Sort::Figure => true,
            Sort::Unclear => true,
        }
    }

    /// Whether it may be moved to an item of that kind.
    fn suits(self, to: Kind) -> bool
        ensures { result ≡ spec.kind_receives self to }
    {
        if to.is_group() {
            true
        } else if to.is_aligned() {
            self.gives_number()
        } else {
            self.gives_text()
        }
    }

    /// Whether it may be compared by its bytes.
    fn has_bytes(self) -> bool
        ensures { result ≡ spec.has_bytes self }
    {
        match self {
            Sort::Item { kind, length: _ } => !kind.is_number() || kind.is_digits(),
            Sort::Number { whole } => whole,
            Sort::Text { length: _ } => true,
            Sort::Zero => true,
            Sort::Figure => true,
            Sort::Unclear => true,
        }
    }
}

/// Whether it may receive the result of arithmetic: a number or an edited item.
pub fn receives_number(to: Sort) -> bool
    ensures { result ≡ spec.receives_number to }
{
    match to {
        Sort::Item { kind, length: _ } => kind.is_aligned(),
        Sort::Number { whole: _ } => false,
        Sort::Text { length: _ } => false,
        Sort::Zero => false,
        Sort::Figure => false,
        Sort::Unclear => true,
    }
}

/// Whether a move has a meaning.
pub fn moves_right(from: Sort, to: Sort) -> bool
    ensures { result ≡ spec.moves_right from to }
{
    match to {
        Sort::Item { kind, length: _ } => from.suits(kind),
        Sort::Number { whole: _ } => true,
        Sort::Text { length: _ } => true,
        Sort::Zero => true,
        Sort::Figure => true,
        Sort::Unclear => true,
    }
}

/// Whether a comparison has a meaning.
pub fn compares_right(left: Sort, right: Sort) -> bool
    ensures { result ≡ spec.compares_right left right }
{
    !(left.is_constant() && right.is_constant())
        && ((left.counts() && right.counts()) || (left.has_bytes() && right.has_bytes()))
}

/// Whether it may receive the status of a file: a text or a group of two bytes, or two digits.
pub fn is_status(item: Sort) -> bool
    ensures { result ≡ spec.is_status item }
{
    match item {
        Sort::Item { kind, length } => kind_is_status(kind, length),
        Sort::Number { whole: _ } => false,
        Sort::Text { length: _ } => false,
        Sort::Zero => false,
        Sort::Figure => false,
        Sort::Unclear => true,
    }
}

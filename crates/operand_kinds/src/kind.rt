ghost use Rattle.std.specs.Prelude.{◌≡◌};
ghost use Rattle.operand_kinds.specs.Kinds as spec;

use cobol_syntax::Usage;
use data_layout::{Class, Item};
use decimal_bytes::NumForm;

/// What an operand is where it is moved, compared or computed with. A reference is a text, whatever its item is.
#[derive(Clone, Copy, Debug, PartialEq, Eq)]
pub enum Kind {
    Group,
    Text,
    Edited { form: NumForm },
    Number { usage: Usage, form: NumForm },
}

impl Kind {
    /// A group takes and gives bytes, whatever stands on the other side.
    pub fn is_group(self) -> bool
        ensures { result ≡ spec.is_group self }
    {
        match self {
            Kind::Group => true,
            Kind::Text => false,
            Kind::Edited { form: _ } => false,
            Kind::Number { usage: _, form: _ } => false,
        }
    }

    pub fn is_number(self) -> bool
        ensures { result ≡ spec.is_number self }
    {
        match self {
            Kind::Group => false,
            Kind::Text => false,
            Kind::Edited { form: _ } => false,
            Kind::Number { usage: _, form: _ } => true,
        }
    }

    pub fn is_edited(self) -> bool
        ensures { result ≡ spec.is_edited self }
    {
        match self {
            Kind::Group => false,
            Kind::Text => false,
            Kind::Edited { form: _ } => true,
            Kind::Number { usage: _, form: _ } => false,
        }
    }

    /// Whether what is moved to it is aligned at the point: a number or an edited item.
    pub fn is_aligned(self) -> bool
        ensures { result ≡ spec.is_aligned self }
    {
        self.is_number() || self.is_edited()
    }

    /// A number without digits after the point.
    pub fn is_integer(self) -> bool
        ensures { result ≡ spec.is_integer self }
    {
        match self {
            Kind::Group => false,
            Kind::Text => false,
            Kind::Edited { form: _ } => false,
            Kind::Number { usage: _, form } => form.scale == 0,
        }
    }

    /// An unsigned integer in DISPLAY usage, whose bytes are its digits: it may be moved and compared as a text.
    pub fn is_digits(self) -> bool
        ensures { result ≡ spec.is_digits self }
    {
        match self {
            Kind::Group => false,
            Kind::Text => false,
            Kind::Edited { form: _ } => false,
            Kind::Number { usage, form } => {
                usage == Usage::Display && (form.scale == 0 && !form.signed)
            }
        }
    }
}

/// What a whole item is.
pub fn kind_of_item(item: &Item) -> Kind
    ensures { result ≡ spec.kind_of_item item.now }
{
    match item.class {
        Class::Group => Kind::Group,
        Class::Text => Kind::Text,
        Class::Edited => Kind::Edited { form: item.form },
        Class::Number => Kind::Number {
            usage: item.usage,
            form: item.form,
        },
    }
}

/// Whether a move of an item or a reference to another copies bytes from the left, and not digits by their powers
/// (a text sender has no powers but where its receiver is aligned at the point).
pub fn copies_bytes(from: Kind, to: Kind) -> bool
    ensures { result ≡ spec.copies_bytes from to }
{
    (from.is_group() || to.is_group())
        || (!to.is_aligned() && (!from.is_number() || from.is_digits()))
}

/// Whether two items or references are compared by their values, and not by their bytes.
pub fn compares_values(left: Kind, right: Kind) -> bool
    ensures { result ≡ spec.compares_values left right }
{
    left.is_number() && right.is_number()
}

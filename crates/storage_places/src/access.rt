ghost use Rattle.std.specs.Prelude.{◌≡◌};

use cobol_syntax::Usage;
use data_layout::Step;
use decimal_bytes::NumForm;
use operand_kinds::Kind;
use y2k_base::{List, Picture, Span};

/// A number item that lies in no table.
#[derive(Clone, Copy, Debug, PartialEq, Eq)]
pub struct NumberItem {
    pub span: Span,
    pub usage: Usage,
    pub form: NumForm,
}

/// A subscript, or the start or the length of a reference: a number as written, or the number that an item holds.
#[derive(Clone, Copy, Debug, PartialEq, Eq)]
pub enum Bound {
    Literal(u32),
    Number(NumberItem),
}

/// A reference. Without a length it goes to the end of the item.
#[derive(Clone, Copy, Debug, PartialEq, Eq)]
pub struct Cut {
    pub start: Bound,
    pub length: Option<Bound>,
}

/// A place whose names are resolved.
pub struct Access {
    /// What it is taken as: with a reference it is a text.
    pub kind: Kind,
    /// That of the whole item.
    pub picture: Option<Picture>,
    /// The first occurrence of the whole item.
    pub span: Span,
    /// Each OCCURS round the item, the outermost first.
    pub steps: List<Step>,
    pub subs: List<Bound>,
    pub cut: Option<Cut>,
}

/// The item of a condition-name, whose number in the layout is `name`.
pub struct NamedAccess {
    pub name: u32,
    pub access: Access,
}

impl NamedAccess {
    /// The item alone.
    pub fn into_access(self) -> Access
        ensures { result ≡ self.access }
    {
        let NamedAccess { name: _, access } = self;
        access
    }
}

impl Drop for NamedAccess {
    fn drop(self) {
        let NamedAccess {
            name: _,
            access: _access,
        } = self;
    }
}

impl Drop for Access {
    fn drop(self) {
        let Access {
            kind: _,
            picture: _picture,
            span: _,
            steps: _steps,
            subs: _subs,
            cut: _,
        } = self;
    }
}

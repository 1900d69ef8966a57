use operand_kinds::Kind;
use y2k_base::Span;

/// What a place is taken as, and where it is now. `number` is that of the place in its table.
#[derive(Clone, Copy, Debug, PartialEq, Eq)]
pub struct View {
    pub kind: Kind,
    pub span: Span,
    pub number: u32,
}

/// The item of a condition-name, which has the number `name` in the layout.
#[derive(Clone, Copy, Debug, PartialEq, Eq)]
pub struct NamedView {
    pub name: u32,
    pub view: View,
}

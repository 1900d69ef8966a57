use crate::{Fact, Role};
use y2k_base::{List, Origin, Span};

/// Which row of the rules an instance comes from, as a chain of reasons names it.
#[derive(Clone, Copy, Debug, PartialEq, Eq)]
pub enum Rule {
    /// ACCEPT FROM DATE, DAY or TIME.
    Register,
    /// Two occurrences of an item of a table.
    Occurs,
    /// The records of one external file.
    File,
    /// Items whose pictures are one text of one copybook.
    Origin,
    /// A copy or a comparison of bytes.
    Bytes,
    /// A move or a comparison of numbers.
    Digits,
    /// The high digits that a move fills with zeros.
    Fill,
    /// The high digits that only one side of a comparison has.
    Excess,
    /// A sum of two operands.
    Add,
    /// A difference of two operands.
    Subtract,
    /// A use that no year may have.
    Plain,
}

/// How a place shows a number: which digit stands where. `Bytes` has a byte a digit and says for each byte
/// the power of ten of its digit, or that it holds none. `Packed` is a packed number without decimals, two
/// digits a byte from the right, where the last half of the last byte is the sign. `Plain` is an operand
/// no digit of which may be one of a year.
#[derive(Debug)]
pub enum View {
    Bytes {
        span: Span,
        powers: List<Option<u8>>,
    },
    Packed {
        span: Span,
        digits: u8,
    },
    Plain,
}

impl Drop for View {
    fn drop(self) {
        match self {
            View::Bytes {
                span: _,
                powers: _powers,
            } => {}
            View::Packed { span: _, digits: _ } => {}
            View::Plain => {}
        }
    }
}

/// Which facts follow from which. `Give` gives its fact from nothing, and `GiveDigit` the role to its digit.
/// `Alike` passes each label of a byte of the one span to the same byte of the other, and `Digits` each role
/// of a digit of the one view to the digit of the same power of the other, both of them either way. `Fill`
/// makes each digit of a year plain that stands at the power `from` or above. `Sum` and `Difference` are
/// `c = a + b` and `c = b - a`: what their operands say about each other stands in the rows of `add_rows` and
/// `sub_rows`.
#[derive(Debug)]
pub enum RuleForm {
    Give { fact: Fact },
    GiveDigit { view: View, power: u8, role: Role },
    Alike { a: Span, b: Span },
    Digits { a: View, b: View },
    Fill { view: View, from: u8 },
    Sum { a: View, b: View, c: View },
    Difference { a: View, b: View, c: View },
}

impl Drop for RuleForm {
    fn drop(self) {
        match self {
            RuleForm::Give { fact: _ } => {}
            RuleForm::GiveDigit {
                view: _view,
                power: _,
                role: _,
            } => {}
            RuleForm::Alike { a: _, b: _ } => {}
            RuleForm::Digits { a: _a, b: _b } => {}
            RuleForm::Fill {
                view: _view,
                from: _,
            } => {}
            RuleForm::Sum {
                a: _a,
                b: _b,
                c: _c,
            } => {}
            RuleForm::Difference {
                a: _a,
                b: _b,
                c: _c,
            } => {}
        }
    }
}

/// A rule at a place of a text: the first word of the statement, or the level number of the entry.
#[derive(Debug, Drop)]
pub struct RuleInst {
    pub rule: Rule,
    pub at: Origin,
    pub form: RuleForm,
}

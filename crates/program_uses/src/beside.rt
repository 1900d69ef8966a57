ghost use Rattle.std.specs.Prelude.{◌≡◌};
ghost use Rattle.program_uses.specs.Statements as spec;

use operand_uses::{UseFault, shape_fault};

/// Where the text of a statement begins, and whether it may be one of several that are read from that text.
#[derive(Clone, Copy, Debug, PartialEq, Eq)]
pub struct Beside {
    pub at: u32,
    pub right: bool,
}

/// What is wrong with a statement after another: two that are read from one text begin at one word.
pub(crate) fn beside_fault(last: Option<Beside>, next: Beside) -> Option<UseFault>
    ensures { result ≡ spec.beside_fault last next }
{
    match last {
        None => None,
        Some(last) => shape_fault(next.at, last.at != next.at || (last.right && next.right)),
    }
}

ghost use Rattle.std.specs.Prelude.{◌≡◌};
ghost use Rattle.data_layout.specs.Index.{IsReady};
ghost use Rattle.operand_uses.specs.Order as order;
ghost use Rattle.operand_uses.specs.Operands as spec;

use crate::fault::UseFault;
use crate::place::place_fault;
use cobol_syntax::Operand;
use data_layout::Layout;

/// What is wrong with the identifier that an operand may be.
pub fn operand_fault(layout: &Layout, owner: u32, operand: &Operand) -> Option<UseFault>
    requires { IsReady layout.now }
    ensures { result ≡ spec.operand_fault layout.now owner operand.now }
{
    match operand {
        Operand::Place(place) => place_fault(layout, owner, place),
        Operand::Number {
            value: _,
            digits: _,
            at: _,
        } => None,
        Operand::Text { bytes: _, at: _ } => None,
        Operand::Figure { byte: _, at: _ } => None,
    }
}

/// The same, if there is one.
pub fn operand_if_fault(layout: &Layout, owner: u32, operand: &Option<Operand>) -> Option<UseFault>
    requires { IsReady layout.now }
    ensures { result ≡ spec.operand_if_fault layout.now owner operand.now }
{
    match operand {
        None => None,
        Some(operand) => operand_fault(layout, owner, operand),
    }
}

ghost use Rattle.std.specs.Prelude.{◌≡◌, None};
ghost use Rattle.data_layout.specs.Index.{IsReady};
ghost use Rattle.program_uses.specs.Simple as spec;

use cobol_syntax::{Expr, Operand, Place};
use data_layout::Layout;
use operand_uses::{
    UseFault, all_numbers, expr_fault, moves_right, operand_fault, place_fault, place_if_fault,
    receives_number, shape_fault, sooner, sort_of, sort_of_place,
};

/// What is wrong in a MOVE.
pub(crate) fn move_fault(
    layout: &Layout,
    owner: u32,
    from: &Operand,
    to: &Place,
) -> Option<UseFault>
    requires { IsReady layout.now }
    ensures { result ≡ spec.move_fault layout.now owner from.now to.now }
{
    let sender = operand_fault(layout, owner, from);
    let receiver = place_fault(layout, owner, to);
    let right = moves_right(sort_of(layout, from), sort_of_place(layout, to));
    sooner(sender, sooner(receiver, shape_fault(owner, right)))
}

fn counts_if(layout: &Layout, place: &Option<Place>) -> bool
    requires { IsReady layout.now }
    ensures { result ≡ spec.counts_if layout.now place.now }
{
    match place {
        None => true,
        Some(place) => sort_of_place(layout, place).counts(),
    }
}

/// Whether the operands of arithmetic and the item of REMAINDER are numbers, and the receiver is one or edited.
fn computes_right(layout: &Layout, to: &Place, value: &Expr, rest: &Option<Place>) -> bool
    requires { IsReady layout.now }
    ensures { result ≡ spec.computes_right layout.now to.now value.now rest.now }
{
    (all_numbers(layout, value) && receives_number(sort_of_place(layout, to)))
        && counts_if(layout, rest)
}

/// What is wrong in an arithmetic statement.
pub(crate) fn compute_fault(
    layout: &Layout,
    owner: u32,
    to: &Place,
    value: &Expr,
    rest: &Option<Place>,
) -> Option<UseFault>
    requires { IsReady layout.now }
    ensures { result ≡ spec.compute_fault layout.now owner to.now value.now rest.now }
{
    let operands = expr_fault(layout, owner, value);
    let receiver = place_fault(layout, owner, to);
    let remainder = place_if_fault(layout, owner, rest);
    let shape = shape_fault(owner, computes_right(layout, to, value, rest));
    sooner(operands, sooner(receiver, sooner(remainder, shape)))
}

/// What is wrong in a DISPLAY.
pub(crate) fn show_fault(layout: &Layout, owner: u32, operands: &[Operand]) -> Option<UseFault>
    requires { IsReady layout.now }
    ensures { result ≡ spec.show_fault layout.now owner None operands.now }
{
    let mut fault = None;
    for operand in operands {
        fault = sooner(fault, operand_fault(layout, owner, operand));
    }
    fault
}

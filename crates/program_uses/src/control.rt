ghost use Rattle.std.specs.Prelude.{◌≡◌};
ghost use Rattle.data_layout.specs.Index.{IsReady};
ghost use Rattle.program_uses.specs.Names.{known};
ghost use Rattle.program_uses.specs.Simple as spec;

use crate::names::NameMap;
use cobol_syntax::{Control, NamePair, Vary};
use data_layout::Layout;
use operand_uses::{
    UseFault, condition_fault, name_fault, operand_fault, place_fault, shape_fault, sooner,
    sort_of, sort_of_place, worse,
};

fn varies_right(layout: &Layout, vary: &Vary) -> bool
    requires { IsReady layout.now }
    ensures { result ≡ spec.varies_right layout.now vary.now }
{
    (sort_of_place(layout, &vary.item).counts() && sort_of(layout, &vary.from).counts())
        && sort_of(layout, &vary.by).counts()
}

/// What is wrong in VARYING.
fn vary_fault(layout: &Layout, owner: u32, vary: &Option<Vary>) -> Option<UseFault>
    requires { IsReady layout.now }
    ensures { result ≡ spec.vary_fault layout.now owner vary.now }
{
    match vary {
        None => None,
        Some(vary) => {
            let item = place_fault(layout, owner, &vary.item);
            let from = operand_fault(layout, owner, &vary.from);
            let by = operand_fault(layout, owner, &vary.by);
            let shape = shape_fault(owner, varies_right(layout, vary));
            sooner(item, sooner(from, sooner(by, shape)))
        }
    }
}

/// What is wrong in the control of a PERFORM.
pub(crate) fn control_fault(layout: &Layout, owner: u32, control: &Control) -> Option<UseFault>
    requires { IsReady layout.now }
    ensures { result ≡ spec.control_fault layout.now owner control.now }
{
    match control {
        Control::Once => None,
        Control::Times(count) => sooner(
            operand_fault(layout, owner, count),
            shape_fault(owner, sort_of(layout, count).is_whole()),
        ),
        Control::Until {
            after: _,
            test,
            vary,
        } => sooner(
            vary_fault(layout, owner, vary),
            condition_fault(layout, owner, test),
        ),
    }
}

/// What is wrong with the paragraphs or sections of a PERFORM.
pub(crate) fn range_fault(
    paragraphs: &NameMap,
    owner: u32,
    range: &Option<NamePair>,
) -> Option<UseFault>
    ensures { result ≡ spec.range_fault (known paragraphs.now) owner range.now }
{
    match range {
        None => None,
        Some(pair) => name_fault(
            owner,
            worse(paragraphs.wrong(&pair.first), paragraphs.wrong(&pair.last)),
        ),
    }
}

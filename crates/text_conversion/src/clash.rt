ghost use Rattle.std.specs.Prelude.{◌≡◌, IfOk};
ghost use Rattle.text_conversion.specs.Clashes as spec;

use convert_plan::PlanFault;
use plan_limits::{Kept, Limit, LimitKind};
use source_edit::EditFault;
use std::alloc::Global;
use y2k_base::{Bytes, List, Memory, Origin};

/// What a clash of programs that share words is among the limits of a plan.
pub(crate) fn limit_of(alloc: Global, fault: &EditFault) -> PlanFault
    ensures { spec.IsLimitOf fault.now result }
{
    match fault {
        EditFault::CopyClash { at, first, second } => {
            match clash_at(alloc, *at, first.items(), second.items()) {
                Ok(limit) => PlanFault::Limit(limit),
                Err(_) => PlanFault::Memory,
            }
        }
        EditFault::Memory => PlanFault::Memory,
    }
}

fn clash_at(alloc: Global, at: Origin, first: &[u8], second: &[u8]) -> Result<Limit, Memory>
    ensures { IfOk result (λ limit. limit ≡ spec.clash_limit at first.now second.now) }
{
    Ok(Limit {
        kind: LimitKind::CopyClash,
        at,
        kept: Kept::Words(copied(alloc, first)?, copied(alloc, second)?),
    })
}

fn copied(alloc: Global, bytes: &[u8]) -> Result<Bytes, Memory>
    ensures { IfOk result (λ copy. copy ≡ bytes.now) }
{
    let mut copy = List::new(alloc);
    copy.append(bytes)?;
    Ok(copy)
}

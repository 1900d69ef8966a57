ghost use Rattle.std.specs.Prelude.{◌≡◌, ◌≤◌, IfOk};
ghost use Rattle.cobol_syntax.specs.declared.cond.Condition.{size-Condition};
ghost use Rattle.tree_reading.specs.Reading.{read_condition};
ghost use Rattle.storage_tests.specs.Joints.{joined, AreLess, decides};

use cobol_syntax::{CondForm, Condition};
use std::alloc::Global;
use y2k_base::Memory;

#[derive(Clone, Copy)]
pub(crate) enum Operator {
    And,
    Or,
}

/// AND or OR with its second condition.
#[derive(Clone, Copy)]
pub(crate) struct Joint<'a> {
    pub(crate) operator: Operator,
    pub(crate) right: &'a Condition,
}

impl Operator {
    /// Whether the first condition decides: a false one under AND, a true one under OR.
    pub(crate) fn decides(self, holds: bool) -> bool
        ensures { result ≡ decides self holds }
    {
        match self {
            Operator::And => !holds,
            Operator::Or => holds,
        }
    }
}

/// The first condition of all, and on a stack what stands behind it, the nearest one last.
pub(crate) fn descend<'a>(
    alloc: Global,
    condition: &'a Condition,
) -> Result<(Vec<Joint<'a>>, &'a Condition), Memory>
    ensures joined { IfOk result (λ d. joined (d.0).items (read_condition (d.1).now) ≡ read_condition condition.now) }
    ensures less { IfOk result (λ d. AreLess (size-Condition condition.now) (d.0).items) }
    ensures first { IfOk result (λ d. size-Condition (d.1).now ≤ size-Condition condition.now) }
{
    let mut joints = Vec::new(alloc);
    let mut first = condition;
    loop {
        match &first.form {
            CondForm::And(left, right) => {
                joints.push(Joint {
                    operator: Operator::And,
                    right: right.get(),
                })?;
                first = left.get();
            }
            CondForm::Or(left, right) => {
                joints.push(Joint {
                    operator: Operator::Or,
                    right: right.get(),
                })?;
                first = left.get();
            }
            _ => return Ok((joints, first)),
        }
    }
}

ghost use Rattle.std.specs.Prelude.{[], IfOk};
ghost use Rattle.std.specs.List.{AllByRecursion};
ghost use Rattle.y2k_base.specs.Edits.{AreInOrder, AreJoined};
ghost use Rattle.data_layout.specs.Index.{IsReady};
ghost use Rattle.expand_rewrite.specs.Expanded.{IsExpanded};

use crate::statements::statement_edits;
use convert_plan::Plan;
use data_layout::Portfolio;
use std::alloc::Global;
use word_wishes::word_edits;
use y2k_base::{Edit, Edits, List, Memory, join_edits};

/// The edits by program and position.
fn in_order(alloc: Global, list: List<Edit>) -> Result<Edits, Memory>
    ensures { IfOk result (λ edits. AreJoined list [] edits.list) }
{
    let none = Edits {
        list: List::new(alloc),
    };
    let edits = join_edits(alloc, Edits { list }, none)?;
    Ok(edits)
}

/// The edits by which the programs of a portfolio get their years with their century, by program and position. It asks for the
/// plan that was made for the portfolio. Several edits of one word stand in the order of the operands that they are for.
pub fn expand(alloc: Global, portfolio: &Portfolio, plan: &Plan) -> Result<Edits, Memory>
    requires { AllByRecursion IsReady portfolio.now.layouts }
    ensures expanded { IfOk result (λ edits. IsExpanded plan.now portfolio.now edits.list) }
    ensures ordered { IfOk result (λ edits. AreInOrder edits.list) }
{
    let words = word_edits(alloc, portfolio, plan.index(), plan.labelling())?;
    let list = statement_edits(alloc, portfolio, plan, words.list.items())?;
    let statements = in_order(alloc, list)?;
    let edits = join_edits(alloc, words, statements)?;
    Ok(edits)
}

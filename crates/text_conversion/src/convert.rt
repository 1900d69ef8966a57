ghost use Rattle.std.specs.List.{AllByRecursion};
ghost use Rattle.data_layout.specs.Index.{IsReady};

use convert_plan::Plan;
use expand_rewrite::expand;
use field_modes::bridge;
use gathered::Gathered;
use source_edit::{EditFault, apply};
use std::alloc::Global;
use window_rewrite::window;
use y2k_base::{Edits, Memory, Texts, join_edits};

/// All edits of the programs of a portfolio.
fn edits_of(alloc: Global, gathered: &Gathered, plan: &Plan) -> Result<Edits, Memory>
    requires { AllByRecursion IsReady gathered.now.portfolio.layouts }
{
    let portfolio = &gathered.portfolio;
    let expanded = expand(alloc, portfolio, plan)?;
    let windowed = window(alloc, portfolio, plan, &expanded)?;
    let joined = join_edits(alloc, expanded, windowed)?;
    let bridged = bridge(alloc, portfolio, plan, &joined)?;
    let edits = join_edits(alloc, joined, bridged)?;
    Ok(edits)
}

/// The texts of a portfolio after its conversion by a plan of it, or the first clash of two programs that share words.
pub fn convert_texts(alloc: Global, gathered: &Gathered, plan: &Plan) -> Result<Texts, EditFault>
    requires { AllByRecursion IsReady gathered.now.portfolio.layouts }
{
    let edits = edits_of(alloc, gathered, plan)?;
    match apply(alloc, &gathered.texts, &edits) {
        Ok(texts) => Ok(texts),
        Err(fault) => Err(fault),
    }
}

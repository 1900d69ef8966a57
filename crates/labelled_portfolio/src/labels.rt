ghost use Rattle.std.specs.Prelude.{IfOk};
ghost use Rattle.std.specs.List.{AllByRecursion};
ghost use Rattle.data_layout.specs.Index.{IsReady};
ghost use Rattle.labelled_portfolio.specs.Labelled.{AreLabels};

use conflict_chain::{Conflict, conflicts};
use data_layout::Portfolio;
use date_types::rules_of;
use label_spread::spread;
use std::alloc::Global;
use y2k_base::{List, Memory};
use year_labels::{Labelling, RuleInst, Seed};

/// The rules of a portfolio, its labels, and a conflict for each byte with unlike labels.
pub struct Labels {
    pub rules: List<RuleInst>,
    pub labelling: Labelling,
    pub conflicts: List<Conflict>,
}

impl Drop for Labels {
    fn drop(self) {
        let Labels {
            rules: _rules,
            labelling: _labelling,
            conflicts: _conflicts,
        } = self;
    }
}

/// The rules, labels and conflicts of a portfolio with these seeds.
pub fn labels_of(alloc: Global, portfolio: &Portfolio, seeds: &[Seed]) -> Result<Labels, Memory>
    requires { AllByRecursion IsReady portfolio.now.layouts }
    ensures { IfOk result (AreLabels portfolio.now seeds.now) }
{
    let rules = rules_of(alloc, portfolio)?;
    let labelling = spread(alloc, seeds, rules.items())?;
    let conflicts = conflicts(alloc, seeds, rules.items(), &labelling)?;
    Ok(Labels {
        rules,
        labelling,
        conflicts,
    })
}

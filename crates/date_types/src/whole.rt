ghost use Rattle.std.specs.Prelude.{◌≡◌, IfOk, All};
ghost use Rattle.std.specs.List.{AllByRecursion};
ghost use Rattle.data_layout.specs.Index.{IsReady};
ghost use Rattle.year_labels.specs.Forms.{IsFit};
ghost use Rattle.date_types.specs.Laws.{AreTablesAlike, AreFilesAlike, ArePicturesAlike};
ghost use Rattle.date_types.specs.Whole as spec;

use crate::fits::are_fit;
use crate::pictures::add_pictures;
use crate::programs::add_programs;
use crate::tables::add_files;
use data_layout::Portfolio;
use std::alloc::Global;
use y2k_base::{List, Memory};
use year_labels::RuleInst;

/// The rules of a portfolio, each with the first word of its statement or the level number of its entry: those of each
/// program in order, those of its files, and those of items with one PICTURE word. A span that 32 bits can't address is want
/// of memory.
pub fn rules_of(alloc: Global, portfolio: &Portfolio) -> Result<List<RuleInst>, Memory>
    requires { AllByRecursion IsReady portfolio.now.layouts }
    ensures rules { IfOk result (λ rules. rules ≡ spec.rules portfolio.now) }
    ensures fit { IfOk result (All (λ r. IsFit r.form)) }
    ensures tables { IfOk result (AreTablesAlike portfolio.now) }
    ensures files { IfOk result (AreFilesAlike portfolio.now) }
    ensures pictures { IfOk result (ArePicturesAlike portfolio.now) }
{
    let rules = all_rules(alloc, portfolio)?;
    Ok(rules)
}

fn all_rules(alloc: Global, portfolio: &Portfolio) -> Result<List<RuleInst>, Memory>
    requires { AllByRecursion IsReady portfolio.now.layouts }
    ensures rules { IfOk result (λ rules. rules ≡ spec.rules portfolio.now) }
    ensures fit { IfOk result (All (λ r. IsFit r.form)) }
{
    let mut rules = List::new(alloc);
    add_programs(
        alloc,
        &mut rules,
        portfolio.programs.items(),
        portfolio.layouts.items(),
    )?;
    add_files(&mut rules, portfolio, portfolio.files.items())?;
    add_pictures(
        alloc,
        &mut rules,
        portfolio.programs.items(),
        portfolio.layouts.items(),
    )?;
    if are_fit(rules.items()) {
        Ok(rules)
    } else {
        Err(Memory)
    }
}

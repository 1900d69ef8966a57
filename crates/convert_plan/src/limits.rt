ghost use Rattle.std.specs.Prelude.{◌≡◌, IfOk};
ghost use Rattle.year_pairs.specs.Years.{AreInAreas as AreFactsInAreas};
ghost use Rattle.date_uses.specs.Uses as used;
ghost use Rattle.convert_plan.specs.Plans as spec;
ghost use Rattle.convert_plan.specs.Plans.{AreLimitsOf};

use area_limits::add_area_limits;
use comparison_limits::add_comparison_limits;
use data_layout::Portfolio;
use date_uses::DateUse;
use entry_limits::add_entry_limits;
use literal_images::add_literal_limits;
use plan_limits::Limit;
use statement_limits::add_statement_limits;
use std::alloc::Global;
use y2k_base::{List, Memory};
use year_index::YearIndex;
use year_labels::{Fact, Labelling};
use year_pairs::find_lone_bytes;

/// All that stands against a conversion with these modes, where these are the uses of the portfolio.
pub(crate) fn limits_of(
    alloc: Global,
    portfolio: &Portfolio,
    labelling: &Labelling,
    index: &YearIndex,
    uses: &[DateUse],
) -> Result<List<Limit>, Memory>
    requires placed { AreFactsInAreas labelling.now }
    requires uses { uses.now ≡ used.uses labelling.now portfolio.now }
    ensures { IfOk result (AreLimitsOf labelling.now portfolio.now index.now) }
{
    let lone = find_lone_bytes(alloc, labelling)?;
    let limits = limits_by(alloc, portfolio, labelling, lone.items(), index, uses)?;
    Ok(limits)
}

fn limits_by(
    alloc: Global,
    portfolio: &Portfolio,
    labelling: &Labelling,
    lone: &[Fact],
    index: &YearIndex,
    uses: &[DateUse],
) -> Result<List<Limit>, Memory>
    ensures { IfOk result (λ limits. limits ≡ spec.limits_by labelling.now portfolio.now lone.now index.now uses.now) }
{
    let programs = portfolio.programs.items();
    let layouts = portfolio.layouts.items();
    let mut limits = List::new(alloc);
    add_entry_limits(alloc, &mut limits, programs, layouts, lone, index)?;
    add_statement_limits(
        alloc,
        &mut limits,
        programs,
        layouts,
        labelling,
        index,
        uses,
    )?;
    add_literal_limits(alloc, &mut limits, programs, index, uses)?;
    add_comparison_limits(alloc, &mut limits, programs, index, uses)?;
    add_area_limits(alloc, &mut limits, programs, layouts, index, uses)?;
    Ok(limits)
}

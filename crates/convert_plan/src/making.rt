ghost use Rattle.std.specs.Prelude.{◌≡◌, [], IfOk, IfErr};
ghost use Rattle.std.specs.List.{AllByRecursion};
ghost use Rattle.data_layout.specs.Index.{IsReady};
ghost use Rattle.year_labels.specs.Facts.{IsClean};
ghost use Rattle.year_pairs.specs.Years.{AreInAreas as AreFactsInAreas};
ghost use Rattle.date_uses.specs.Uses as used;
ghost use Rattle.convert_plan.specs.Plans as spec;
ghost use Rattle.convert_plan.specs.Plans.{AreLimitsOf, ArePlannedModes};

use crate::limits::limits_of;
use crate::modes::{are_in_areas, modes_of};
use crate::numbers::{area_numbers, needed_areas, record_areas};
use crate::plan::Plan;
use data_layout::Portfolio;
use date_uses::{DateUse, uses_of};
use plan_images::{are_fit, area_lengths, images_of};
use plan_limits::{Limit, first_limit};
use std::alloc::Global;
use window_items::Windows;
use y2k_base::Memory;
use year_index::YearIndex;
use year_labels::Labelling;

/// Why there is no plan: something stands against the conversion, or there was no memory left.
#[derive(Debug)]
pub enum PlanFault {
    Limit(Limit),
    Memory,
}

impl Drop for PlanFault {
    fn drop(self) {
        match self {
            PlanFault::Limit(_limit) => {}
            PlanFault::Memory => {}
        }
    }
}

/// The plan of a portfolio with these labels and windows, or the first limit that stands against its conversion: limits go by
/// kind, and of one kind by their place in the texts. A labelled byte past the end of its area, or a packed number of more
/// than 18 digits after conversion, would be want of memory: these calls look, and no labelling of a portfolio has the one,
/// and no portfolio without a limit the other.
pub fn make_plan<'a>(
    alloc: Global,
    portfolio: &Portfolio,
    labelling: &'a Labelling,
    windows: &Windows,
) -> Result<Plan<'a>, PlanFault>
    requires ready { AllByRecursion IsReady portfolio.now.layouts }
    requires clean { IsClean labelling.now }
    ensures plan { IfOk result (spec.IsPlanOf labelling.now portfolio.now windows.now) }
    ensures fault { IfErr result (spec.HasPlanFault labelling.now portfolio.now windows.now) }
{
    if !are_in_areas(labelling) {
        return Err(PlanFault::Memory);
    }
    match modes_of(alloc, portfolio, labelling, windows) {
        Ok(index) => plan_over(alloc, portfolio, labelling, windows, index),
        Err(_) => Err(PlanFault::Memory),
    }
}

/// The plan with these modes, or the first limit.
fn plan_over<'a>(
    alloc: Global,
    portfolio: &Portfolio,
    labelling: &'a Labelling,
    windows: &Windows,
    index: YearIndex,
) -> Result<Plan<'a>, PlanFault>
    requires ready { AllByRecursion IsReady portfolio.now.layouts }
    requires placed { AreFactsInAreas labelling.now }
    requires modes { ArePlannedModes labelling.now portfolio.now windows.now index }
    ensures plan { IfOk result (spec.IsPlanOf labelling.now portfolio.now windows.now) }
    ensures fault { IfErr result (spec.HasPlanFault labelling.now portfolio.now windows.now) }
{
    match uses_of(alloc, portfolio, labelling) {
        Ok(uses) => plan_with(alloc, portfolio, labelling, windows, index, uses.items()),
        Err(_) => Err(PlanFault::Memory),
    }
}

/// The same where these are the uses of the portfolio.
fn plan_with<'a>(
    alloc: Global,
    portfolio: &Portfolio,
    labelling: &'a Labelling,
    windows: &Windows,
    index: YearIndex,
    uses: &[DateUse],
) -> Result<Plan<'a>, PlanFault>
    requires placed { AreFactsInAreas labelling.now }
    requires modes { ArePlannedModes labelling.now portfolio.now windows.now index }
    requires uses { uses.now ≡ used.uses labelling.now portfolio.now }
    ensures plan { IfOk result (spec.IsPlanOf labelling.now portfolio.now windows.now) }
    ensures fault { IfErr result (spec.HasPlanFault labelling.now portfolio.now windows.now) }
{
    match limits_of(alloc, portfolio, labelling, &index, uses) {
        Ok(limits) => match first_limit(limits) {
            Some(limit) => Err(PlanFault::Limit(limit)),
            None => match free_plan(alloc, portfolio, labelling, windows, index, uses) {
                Ok(plan) => Ok(plan),
                Err(_) => Err(PlanFault::Memory),
            },
        },
        Err(_) => Err(PlanFault::Memory),
    }
}

/// The plan where nothing stands against it.
fn free_plan<'a>(
    alloc: Global,
    portfolio: &Portfolio,
    labelling: &'a Labelling,
    windows: &Windows,
    index: YearIndex,
    uses: &[DateUse],
) -> Result<Plan<'a>, Memory>
    requires modes { ArePlannedModes labelling.now portfolio.now windows.now index }
    requires uses { uses.now ≡ used.uses labelling.now portfolio.now }
    requires free { AreLimitsOf labelling.now portfolio.now index [] }
    ensures { IfOk result (spec.IsPlanOf labelling.now portfolio.now windows.now) }
{
    let layouts = portfolio.layouts.items();
    let lengths = area_lengths(alloc, layouts)?;
    if !are_fit(lengths.items(), index.modes()) {
        return Err(Memory);
    }
    let images = images_of(alloc, lengths.items(), index.modes())?;
    let needed = needed_areas(alloc, layouts, &index, uses)?;
    let numbers = area_numbers(alloc, layouts, needed.items())?;
    let files = record_areas(alloc, portfolio.files.items())?;
    Ok(Plan {
        labelling,
        day: windows.day,
        index,
        images,
        files,
        needed,
        numbers,
    })
}

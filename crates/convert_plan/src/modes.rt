ghost use Rattle.std.specs.Prelude.{◌≤◌, IsTrue, IfOk};
ghost use Rattle.std.specs.List.{AllByRecursion};
ghost use Rattle.data_layout.specs.Index.{IsReady};
ghost use Rattle.year_labels.specs.Facts.{IsClean};
ghost use Rattle.year_pairs.specs.Years.{AreInAreas as AreFactsInAreas};
ghost use Rattle.convert_plan.specs.Plans.{ArePlannedModes};

use crate::groups::groups_of;
use data_layout::Portfolio;
use mode_links::links_of;
use std::alloc::Global;
use window_items::Windows;
use window_modes::window_modes;
use y2k_base::Memory;
use year_index::YearIndex;
use year_labels::Labelling;
use year_pairs::find_years;

/// Whether each labelled byte is one of an area of at most 65,535 bytes, as each byte of a portfolio is.
pub(crate) fn are_in_areas(labelling: &Labelling) -> bool
    ensures { IsTrue result → AreFactsInAreas labelling.now }
{
    for index in 0..labelling.count() {
        match labelling.at(index) {
            Some(fact) => {
                if fact.place.offset > 65535 {
                    return false;
                }
            }
            None => return false,
        }
    }
    true
}

/// The years of a labelling in the modes that the links of the portfolio and the windows give.
pub(crate) fn modes_of(
    alloc: Global,
    portfolio: &Portfolio,
    labelling: &Labelling,
    windows: &Windows,
) -> Result<YearIndex, Memory>
    requires ready { AllByRecursion IsReady portfolio.now.layouts }
    requires clean { IsClean labelling.now }
    requires placed { AreFactsInAreas labelling.now }
    ensures { IfOk result (ArePlannedModes labelling.now portfolio.now windows.now) }
{
    let years = find_years(alloc, labelling)?;
    let links = links_of(alloc, portfolio, labelling)?;
    let groups = groups_of(alloc, portfolio.layouts.items(), windows.groups.items())?;
    let modes = window_modes(alloc, years.items(), links.items(), groups.items())?;
    Ok(YearIndex::new(modes))
}

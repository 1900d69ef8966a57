ghost use Rattle.std.specs.Prelude.{◌≡◌, ◌++◌, IfOk, OnOk};
ghost use Rattle.plan_images.specs.Lengths.{AreNumbered, HaveLengths, areas_in, lengths_in, lengths_of};

use data_layout::{Area, Layout};
use std::alloc::Global;
use y2k_base::{List, Memory};

/// The lengths of the areas of the layouts of a portfolio, in their order. Areas are numbered from 0 through all layouts, so
/// each has its length at its number.
pub fn area_lengths(alloc: Global, layouts: &[Layout]) -> Result<List<u32>, Memory>
    ensures lengths { IfOk result (λ lengths. lengths ≡ lengths_in layouts.now) }
    ensures numbered { IfOk result (λ lengths. AreNumbered 0 (areas_in layouts.now) → HaveLengths (areas_in layouts.now) lengths) }
{
    let mut lengths = List::new(alloc);
    for layout in layouts {
        add_lengths(layout.areas.items(), &mut lengths)?;
    }
    Ok(lengths)
}

fn add_lengths(areas: &[Area], lengths: &mut List<u32>) -> Result<(), Memory>
    ensures { OnOk result (lengths.new ≡ lengths.old ++ lengths_of areas.now) }
{
    for area in areas {
        lengths.push(area.length)?;
    }
    Ok(())
}

ghost use Rattle.std.specs.Prelude.{◌≡◌, ◌+◌, Some, IfOk, IfSome};
ghost use Rattle.convert_plan.specs.Calls.{cuts_in};
ghost use Rattle.file_convert.specs.Cuts.{IsInOrder};
ghost use Rattle.name_tables.specs.Table.{held};
ghost use Rattle.data_conversion.specs.Numbers as spec;

use convert_plan::Plan;
use data_layout::{FileArea, FileUse};
use file_convert::Cuts;
use name_tables::NameTable;
use std::alloc::Global;
use y2k_base::{AreaId, Memory};

/// The number of each file of a portfolio, by its external name. A file past the numbers of 32 bits is want of memory.
pub(crate) fn numbers_of<'a>(
    alloc: Global,
    files: &'a [FileUse],
) -> Result<NameTable<'a, u32>, Memory>
    ensures { IfOk result (λ numbers. held numbers ≡ spec.number_of files.now) }
{
    let mut numbers = NameTable::new(alloc);
    let mut number = 0u32;
    let mut rest = files;
    while let [file, more @ ..] = rest {
        numbers.put(file.external.items(), number)?;
        number = next(number)?;
        rest = more;
    }
    Ok(numbers)
}

fn next(number: u32) -> Result<u32, Memory>
    ensures { IfOk result (λ next. next ≡ number + 1) }
{
    match number.checked_add(1) {
        Some(next) => Ok(next),
        None => Err(Memory),
    }
}

/// The years of the records of the file of an external name; `None` where the portfolio has no such file.
pub(crate) fn cuts_of<'p>(
    plan: &'p Plan<'_>,
    files: &[FileUse],
    numbers: &NameTable<u32>,
    external: &[u8],
) -> Option<&'p Cuts>
    requires { held numbers.now ≡ spec.number_of files.now }
    ensures cuts { IfSome result (λ cuts. spec.cuts_for plan.now.images files.now external.now ≡ Some cuts.now) }
    ensures ordered { IfSome result (λ cuts. IsInOrder cuts.now) }
{
    match numbers.get(external) {
        Some(number) => match files.get(number as usize) {
            Some(file) => cuts_of_areas(plan, file.areas.items()),
            None => None,
        },
        None => None,
    }
}

/// The years of the first of these record areas.
fn cuts_of_areas<'p>(plan: &'p Plan<'_>, areas: &[FileArea]) -> Option<&'p Cuts>
    ensures cuts { IfSome result (λ cuts. spec.cuts_of_areas plan.now.images areas.now ≡ Some cuts.now) }
    ensures ordered { IfSome result (λ cuts. IsInOrder cuts.now) }
{
    match areas {
        [first, ..] => cuts_in(plan, first.area),
        [] => None,
    }
}

fn cuts_in<'p>(plan: &'p Plan<'_>, area: AreaId) -> Option<&'p Cuts>
    ensures cuts { IfSome result (λ cuts. cuts_in plan.now.images area ≡ Some cuts.now) }
    ensures ordered { IfSome result (λ cuts. IsInOrder cuts.now) }
{
    let images = plan.images();
    if (area.0 as usize) < images.count() {
        Some(images.cuts(area))
    } else {
        None
    }
}

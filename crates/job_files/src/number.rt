ghost use Rattle.std.specs.Prelude.{◌≡◌, ◌+◌, ◌<◌, length, IfOk};
ghost use Rattle.name_tables.specs.Table.{held};
ghost use Rattle.job_files.specs.Numbers as spec;

use data_layout::FileUse;
use name_tables::NameTable;
use std::alloc::Global;
use y2k_base::Memory;

/// The number of each file of a portfolio, by its external name. A file past the numbers of 32 bits is want of memory.
pub(crate) fn numbers_of<'a>(
    alloc: Global,
    files: &'a [FileUse],
) -> Result<NameTable<'a, u32>, Memory>
    ensures { IfOk result (λ numbers. held numbers ≡ spec.number_of files.now) }
{
    let mut numbers = NameTable::new(alloc);
    let mut number = 0u32;
    let mut rest = files;
    while let [file, more @ ..] = rest {
        numbers.put(file.external.items(), number)?;
        number = next(number)?;
        rest = more;
    }
    Ok(numbers)
}

fn next(number: u32) -> Result<u32, Memory>
    ensures { IfOk result (λ next. next ≡ number + 1) }
{
    match number.checked_add(1) {
        Some(next) => Ok(next),
        None => Err(Memory),
    }
}

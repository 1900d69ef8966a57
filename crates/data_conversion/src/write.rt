ghost use Rattle.std.specs.Prelude.{◌≡◌, ◌≢◌, ◌≤◌, ◌+◌, ◌++◌, Some, length, option_map, IfOk, IfErr, IfSome};
ghost use Rattle.std.specs.FinMap.{get};
ghost use Rattle.file_convert.specs.Cuts.{IsInOrder};
ghost use Rattle.name_tables.specs.Table.{held};
ghost use Rattle.data_conversion.specs.Faults.{HasRose, IsOfWriting};
ghost use Rattle.data_conversion.specs.Numbers.{number_of};
ghost use Rattle.data_conversion.specs.Written as spec;
ghost use Rattle.written_names.specs.Clashes.{under};

use crate::cuts::{cuts_of, numbers_of};
use crate::fault::{DataFault, file_fault, shelf_fault};
use convert_plan::Plan;
use data_layout::FileUse;
use file_convert::{Cuts, convert_file};
use name_tables::NameTable;
use portfolio::Named;
use shelf::Shelf;
use std::alloc::Global;
use written_names::{name_in, name_under};
use y2k_base::Memory;

/// Writes the image of each listed data file that is there under `out`, in the order in which the manifest lists them, and
/// answers how many these are. Their names are relative to `folder`, which is empty or ends in `/`. A file that would be
/// written over itself is want of memory: the names that are written are looked at before.
pub fn convert_data<S: Shelf>(
    alloc: Global,
    folder: &str,
    out: &str,
    listed: &[Named],
    files: &[FileUse],
    plan: &Plan<'_>,
    shelf: &mut S,
) -> Result<usize, DataFault>
    ensures done { IfOk result (spec.IsConverted plan.now.images files.now folder.now out.now listed.now (S.told shelf.old) (S.told shelf.new)) }
    ensures apart { IfOk result (λ count. IfSome (S.told shelf.old) (λ shelved. spec.AreApart folder.now out.now listed.now → spec.IsWithData plan.now.images files.now folder.now out.now listed.now shelved (S.told shelf.new) count)) }
    ensures stopped { IfErr result (spec.HasStoppedIn plan.now.images files.now folder.now out.now listed.now (S.told shelf.old) (S.told shelf.new)) }
    ensures writing { IfErr result IsOfWriting }
    ensures rose { IfErr result (HasRose (S.faults shelf.old) (S.faults shelf.new)) }
    ensures later { S.faults shelf.old ≤ S.faults shelf.new }
{
    match numbers_of(alloc, files) {
        Ok(numbers) => convert_listed(alloc, folder, out, listed, files, &numbers, plan, shelf),
        Err(_) => Err(DataFault::Memory),
    }
}

fn convert_listed<S: Shelf>(
    alloc: Global,
    folder: &str,
    out: &str,
    listed: &[Named],
    files: &[FileUse],
    numbers: &NameTable<u32>,
    plan: &Plan<'_>,
    shelf: &mut S,
) -> Result<usize, DataFault>
    requires { held numbers.now ≡ number_of files.now }
    ensures done { IfOk result (spec.IsConverted plan.now.images files.now folder.now out.now listed.now (S.told shelf.old) (S.told shelf.new)) }
    ensures apart { IfOk result (λ count. IfSome (S.told shelf.old) (λ shelved. spec.AreApart folder.now out.now listed.now → spec.IsWithData plan.now.images files.now folder.now out.now listed.now shelved (S.told shelf.new) count)) }
    ensures stopped { IfErr result (spec.HasStoppedIn plan.now.images files.now folder.now out.now listed.now (S.told shelf.old) (S.told shelf.new)) }
    ensures writing { IfErr result IsOfWriting }
    ensures rose { IfErr result (HasRose (S.faults shelf.old) (S.faults shelf.new)) }
    ensures later { S.faults shelf.old ≤ S.faults shelf.new }
{
    let mut count = 0;
    let mut rest = listed;
    while let [named, more @ ..] = rest {
        match convert_named(alloc, folder, out, named, files, numbers, plan, shelf) {
            Ok(there) => match one_more(count, there) {
                Ok(next) => {
                    count = next;
                    rest = more;
                }
                Err(_) => return Err(DataFault::Memory),
            },
            Err(fault) => return Err(fault),
        }
    }
    Ok(count)
}

fn one_more(count: usize, there: bool) -> Result<usize, Memory>
    ensures { IfOk result (λ next. next ≡ count + spec.one_where there) }
{
    if there { next(count) } else { Ok(count) }
}

fn next(count: usize) -> Result<usize, Memory>
    ensures { IfOk result (λ next. next ≡ count + 1) }
{
    match count.checked_add(1) {
        Some(next) => Ok(next),
        None => Err(Memory),
    }
}

/// Writes the image of a listed file, and answers whether it is there.
fn convert_named<S: Shelf>(
    alloc: Global,
    folder: &str,
    out: &str,
    named: &Named,
    files: &[FileUse],
    numbers: &NameTable<u32>,
    plan: &Plan<'_>,
    shelf: &mut S,
) -> Result<bool, DataFault>
    requires { held numbers.now ≡ number_of files.now }
    ensures taken { IfOk result (spec.IsTaken plan.now.images files.now folder.now out.now named.now (S.told shelf.old) (S.told shelf.new)) }
    ensures stopped { IfErr result (spec.HasStoppedAt plan.now.images files.now folder.now out.now named.now (S.told shelf.old) (S.told shelf.new)) }
    ensures writing { IfErr result IsOfWriting }
    ensures rose { IfErr result (HasRose (S.faults shelf.old) (S.faults shelf.new)) }
    ensures later { S.faults shelf.old ≤ S.faults shelf.new }
{
    match cuts_of(plan, files, numbers, named.key.items()) {
        Some(cuts) => match convert_with(alloc, folder, out, named, cuts, shelf) {
            Ok(there) => Ok(there),
            Err(fault) => Err(fault),
        },
        None => Err(DataFault::Memory),
    }
}

fn convert_with<S: Shelf>(
    alloc: Global,
    folder: &str,
    out: &str,
    named: &Named,
    cuts: &Cuts,
    shelf: &mut S,
) -> Result<bool, DataFault>
    requires { IsInOrder cuts.now }
    ensures taken { IfOk result (spec.IsTakenBy cuts.now (folder.now ++ named.now.name) (under out.now named.now.name) (S.told shelf.old) (S.told shelf.new)) }
    ensures stopped { IfErr result (spec.HasStoppedBy cuts.now named.now.key (folder.now ++ named.now.name) (under out.now named.now.name) (S.told shelf.old) (S.told shelf.new)) }
    ensures writing { IfErr result IsOfWriting }
    ensures rose { IfErr result (HasRose (S.faults shelf.old) (S.faults shelf.new)) }
    ensures later { S.faults shelf.old ≤ S.faults shelf.new }
{
    let name = name_in(alloc, folder, named.name.items())?;
    let to = name_under(alloc, out, named.name.items())?;
    if name.as_str() == to.as_str() {
        return Err(DataFault::Memory);
    }
    match convert_at(alloc, name.as_str(), to.as_str(), named, cuts, shelf) {
        Ok(written) => Ok(written),
        Err(fault) => Err(fault),
    }
}

/// Writes the image of the file of that name on the shelf, if it is there.
fn convert_at<S: Shelf>(
    alloc: Global,
    name: &str,
    to: &str,
    named: &Named,
    cuts: &Cuts,
    shelf: &mut S,
) -> Result<bool, DataFault>
    requires order { IsInOrder cuts.now }
    requires apart { name.now ≢ to.now }
    ensures taken { IfOk result (spec.IsTakenBy cuts.now name.now to.now (S.told shelf.old) (S.told shelf.new)) }
    ensures stopped { IfErr result (spec.HasStopped cuts.now named.now.key name.now to.now (S.told shelf.old) (S.told shelf.new)) }
    ensures writing { IfErr result IsOfWriting }
    ensures rose { IfErr result (HasRose (S.faults shelf.old) (S.faults shelf.new)) }
    ensures later { S.faults shelf.old ≤ S.faults shelf.new }
{
    match shelf.size(name) {
        Ok(Some(size)) => convert_there(alloc, name, to, named, size, cuts, shelf),
        Ok(None) => Ok(false),
        Err(error) => Err(shelf_fault(alloc, error, name)),
    }
}

fn convert_there<S: Shelf>(
    alloc: Global,
    name: &str,
    to: &str,
    named: &Named,
    size: u64,
    cuts: &Cuts,
    shelf: &mut S,
) -> Result<bool, DataFault>
    requires order { IsInOrder cuts.now }
    requires apart { name.now ≢ to.now }
    requires size { IfSome (S.told shelf.old) (λ shelved. Some size ≡ option_map length (get shelved name.now)) }
    ensures taken { IfOk result (spec.IsTakenBy cuts.now name.now to.now (S.told shelf.old) (S.told shelf.new)) }
    ensures stopped { IfErr result (spec.HasStopped cuts.now named.now.key name.now to.now (S.told shelf.old) (S.told shelf.new)) }
    ensures writing { IfErr result IsOfWriting }
    ensures rose { IfErr result (HasRose (S.faults shelf.old) (S.faults shelf.new)) }
    ensures later { S.faults shelf.old ≤ S.faults shelf.new }
{
    match convert_file(alloc, shelf, name, to, cuts) {
        Ok(_) => Ok(true),
        Err(fault) => Err(file_fault(alloc, named.key.items(), name, to, &fault)),
    }
}

ghost use Rattle.std.specs.Prelude.{◌≡◌, ◌≤◌, ◌++◌, length, option_map, Some, IfErr, IfSome, OnOk};
ghost use Rattle.std.specs.FinMap.{get};
ghost use Rattle.file_convert.specs.Cuts.{IsInOrder};
ghost use Rattle.name_tables.specs.Table.{held};
ghost use Rattle.data_conversion.specs.Checked as spec;
ghost use Rattle.data_conversion.specs.Faults.{HasRose};
ghost use Rattle.data_conversion.specs.Numbers.{number_of};

use crate::cuts::{cuts_of, numbers_of};
use crate::fault::{DataFault, file_fault, shelf_fault, too_large};
use convert_plan::Plan;
use data_layout::FileUse;
use file_convert::{Cuts, check_file};
use name_tables::NameTable;
use portfolio::Named;
use shelf::Shelf;
use std::alloc::Global;
use written_names::name_in;

/// The most bytes that a data file has. This project's choice.
const MOST_BYTES: u64 = 256_000_000;

/// Checks that each listed data file that is there has an image, in the order in which the manifest lists them, which is
/// byte order of the external names. Their names are relative to `folder`, which is empty or ends in `/`.
pub fn check_data<S: Shelf>(
    alloc: Global,
    folder: &str,
    listed: &[Named],
    files: &[FileUse],
    plan: &Plan<'_>,
    shelf: &mut S,
) -> Result<(), DataFault>
    ensures fit { OnOk result (IfSome (S.told shelf.old) (λ shelved. spec.AreFit plan.now.images files.now folder.now shelved listed.now)) }
    ensures fault { IfErr result (spec.HasDataFault plan.now.images files.now folder.now (S.told shelf.old) listed.now) }
    ensures rose { IfErr result (HasRose (S.faults shelf.old) (S.faults shelf.new)) }
    ensures later { S.faults shelf.old ≤ S.faults shelf.new }
    ensures same { S.told shelf.new ≡ S.told shelf.old }
{
    let numbers = numbers_of(alloc, files)?;
    check_listed(alloc, folder, listed, files, &numbers, plan, shelf)?;
    Ok(())
}

fn check_listed<S: Shelf>(
    alloc: Global,
    folder: &str,
    listed: &[Named],
    files: &[FileUse],
    numbers: &NameTable<u32>,
    plan: &Plan<'_>,
    shelf: &mut S,
) -> Result<(), DataFault>
    requires { held numbers.now ≡ number_of files.now }
    ensures fit { OnOk result (IfSome (S.told shelf.old) (λ shelved. spec.AreFit plan.now.images files.now folder.now shelved listed.now)) }
    ensures fault { IfErr result (spec.HasDataFault plan.now.images files.now folder.now (S.told shelf.old) listed.now) }
    ensures rose { IfErr result (HasRose (S.faults shelf.old) (S.faults shelf.new)) }
    ensures later { S.faults shelf.old ≤ S.faults shelf.new }
    ensures same { S.told shelf.new ≡ S.told shelf.old }
{
    let mut rest = listed;
    while let [named, more @ ..] = rest {
        match check_named(alloc, folder, named, files, numbers, plan, shelf) {
            Ok(()) => rest = more,
            Err(fault) => return Err(fault),
        }
    }
    Ok(())
}

fn check_named<S: Shelf>(
    alloc: Global,
    folder: &str,
    named: &Named,
    files: &[FileUse],
    numbers: &NameTable<u32>,
    plan: &Plan<'_>,
    shelf: &mut S,
) -> Result<(), DataFault>
    requires { held numbers.now ≡ number_of files.now }
    ensures fit { OnOk result (spec.IsChecked plan.now.images files.now folder.now (S.told shelf.old) named.now) }
    ensures fault { IfErr result (spec.IsUnfit plan.now.images files.now folder.now (S.told shelf.old) named.now) }
    ensures rose { IfErr result (HasRose (S.faults shelf.old) (S.faults shelf.new)) }
    ensures later { S.faults shelf.old ≤ S.faults shelf.new }
    ensures same { S.told shelf.new ≡ S.told shelf.old }
{
    match cuts_of(plan, files, numbers, named.key.items()) {
        Some(cuts) => match check_with(alloc, folder, named, cuts, shelf) {
            Ok(()) => Ok(()),
            Err(fault) => Err(fault),
        },
        None => Err(DataFault::Memory),
    }
}

/// Checks a listed file by the years of its records.
fn check_with<S: Shelf>(
    alloc: Global,
    folder: &str,
    named: &Named,
    cuts: &Cuts,
    shelf: &mut S,
) -> Result<(), DataFault>
    requires { IsInOrder cuts.now }
    ensures fit { OnOk result (IfSome (S.told shelf.old) (λ shelved. spec.IsFitOf cuts.now (spec.bytes_in shelved folder.now named.now))) }
    ensures fault { IfErr result (spec.IsUnfitAt cuts.now (folder.now ++ named.now.name) (S.told shelf.old) named.now) }
    ensures rose { IfErr result (HasRose (S.faults shelf.old) (S.faults shelf.new)) }
    ensures later { S.faults shelf.old ≤ S.faults shelf.new }
    ensures same { S.told shelf.new ≡ S.told shelf.old }
{
    match name_in(alloc, folder, named.name.items()) {
        Ok(name) => check_at(alloc, name.as_str(), named, cuts, shelf),
        Err(_) => Err(DataFault::Memory),
    }
}

/// Checks the file of that name on the shelf, if it is there.
fn check_at<S: Shelf>(
    alloc: Global,
    name: &str,
    named: &Named,
    cuts: &Cuts,
    shelf: &mut S,
) -> Result<(), DataFault>
    requires { IsInOrder cuts.now }
    ensures fit { OnOk result (IfSome (S.told shelf.old) (λ shelved. spec.IsFitOf cuts.now (get shelved name.now))) }
    ensures fault { IfErr result (spec.IsUnfitAt cuts.now name.now (S.told shelf.old) named.now) }
    ensures rose { IfErr result (HasRose (S.faults shelf.old) (S.faults shelf.new)) }
    ensures later { S.faults shelf.old ≤ S.faults shelf.new }
    ensures same { S.told shelf.new ≡ S.told shelf.old }
{
    match shelf.size(name) {
        Ok(Some(size)) => check_sized(alloc, name, named, size, cuts, shelf),
        Ok(None) => Ok(()),
        Err(error) => Err(shelf_fault(alloc, error, name)),
    }
}

fn check_sized<S: Shelf>(
    alloc: Global,
    name: &str,
    named: &Named,
    size: u64,
    cuts: &Cuts,
    shelf: &mut S,
) -> Result<(), DataFault>
    requires order { IsInOrder cuts.now }
    requires size { IfSome (S.told shelf.old) (λ shelved. option_map length (get shelved name.now) ≡ Some size) }
    ensures fit { OnOk result (IfSome (S.told shelf.old) (λ shelved. spec.IsFitOf cuts.now (get shelved name.now))) }
    ensures fault { IfErr result (spec.IsUnfitAt cuts.now name.now (S.told shelf.old) named.now) }
    ensures rose { IfErr result (HasRose (S.faults shelf.old) (S.faults shelf.new)) }
    ensures later { S.faults shelf.old ≤ S.faults shelf.new }
    ensures same { S.told shelf.new ≡ S.told shelf.old }
{
    if size > MOST_BYTES {
        return Err(too_large(alloc, named.name.items()));
    }
    match check_file(alloc, shelf, name, cuts) {
        Ok(_) => Ok(()),
        Err(fault) => Err(file_fault(alloc, named.key.items(), name, name, &fault)),
    }
}

//! Names that stand twice.

ghost use Rattle.std.specs.Prelude.{◌≡◌, ◌++◌, map, MatchOption, IfOk, OnOk};
ghost use Rattle.std.specs.Option.{option_to_list};
ghost use Rattle.portfolio.specs.Counts.{count_in, is_counted_twice, CountsAll, PutsCount};
ghost use Rattle.portfolio.specs.Faults as spec;

use crate::collect::copied;
use crate::manifest::{Manifest, Named};
use std::alloc::Global;
use std::collections::BTreeMap;
use y2k_base::{Bytes, List, Memory};

fn add_names(alloc: Global, names: &[Bytes], all: &mut List<Bytes>) -> Result<(), Memory>
    ensures { OnOk result (all.new ≡ all.old ++ names.now) }
{
    for name in names {
        all.push(copied(alloc, name.items())?)?;
    }
    Ok(())
}

fn add_files(alloc: Global, files: &[Named], all: &mut List<Bytes>) -> Result<(), Memory>
    ensures { OnOk result (all.new ≡ all.old ++ map spec.file_of files.now) }
{
    for file in files {
        all.push(copied(alloc, file.name.items())?)?;
    }
    Ok(())
}

fn add_seeds(alloc: Global, seeds: &Option<Bytes>, all: &mut List<Bytes>) -> Result<(), Memory>
    ensures { OnOk result (all.new ≡ all.old ++ option_to_list seeds.now) }
{
    match seeds {
        Some(name) => {
            all.push(copied(alloc, name.items())?)?;
            Ok(())
        }
        None => Ok(()),
    }
}

/// The names of all files of a manifest.
fn all_files(alloc: Global, manifest: &Manifest) -> Result<List<Bytes>, Memory>
    ensures { IfOk result (λ all. all ≡ spec.all_files manifest.now) }
{
    let mut all = List::new(alloc);
    add_names(alloc, manifest.programs.items(), &mut all)?;
    add_files(alloc, manifest.copybooks.items(), &mut all)?;
    add_seeds(alloc, &manifest.seeds, &mut all)?;
    add_files(alloc, manifest.files.items(), &mut all)?;
    Ok(all)
}

/// How often a name is counted.
fn count_of(name: &[u8], counts: &BTreeMap<&[u8], usize>) -> usize
    ensures { result ≡ count_in counts.now name.now }
{
    match counts.get(name) {
        Some(count) => *count,
        None => 0,
    }
}

fn put_count<'a>(
    name: &'a [u8],
    count: usize,
    counts: &mut BTreeMap<&'a [u8], usize>,
) -> Result<(), Memory>
    ensures { OnOk result (PutsCount name.now count counts.old counts.new) }
{
    counts.insert(name, count)?;
    Ok(())
}

/// How often each name stands.
fn counts<'a>(alloc: Global, names: &'a [Bytes]) -> Result<BTreeMap<&'a [u8], usize>, Memory>
    ensures { IfOk result (CountsAll names.now) }
{
    let mut counts = BTreeMap::new(alloc);
    for name in names {
        let key = name.items();
        let before = count_of(key, &counts);
        put_count(key, before + 1, &mut counts)?;
    }
    Ok(counts)
}

/// The least name that is counted twice.
fn least_counted(alloc: Global, counts: &BTreeMap<&[u8], usize>) -> Result<Option<Bytes>, Memory>
    ensures { IfOk result (λ found. MatchOption found (spec.NonePasses (is_counted_twice counts.now)) (spec.IsLeast (is_counted_twice counts.now))) }
{
    for (name, count) in counts.iter() {
        if *count >= 2 {
            return Ok(Some(copied(alloc, *name)?));
        }
    }
    Ok(None)
}

/// The least name that stands twice among these.
fn least_twice(alloc: Global, names: &[Bytes]) -> Result<Option<Bytes>, Memory>
    ensures { IfOk result (λ found. MatchOption found (spec.NonePasses (spec.is_twice_in names.now)) (spec.IsLeast (spec.is_twice_in names.now))) }
{
    let counts = counts(alloc, names)?;
    let found = least_counted(alloc, &counts)?;
    Ok(found)
}

/// The least file name that stands twice in a manifest.
pub fn repeated_file(alloc: Global, manifest: &Manifest) -> Result<Option<Bytes>, Memory>
    ensures { IfOk result (λ found. MatchOption found (spec.NonePasses (spec.is_twice_in (spec.all_files manifest.now))) (spec.IsLeast (spec.is_twice_in (spec.all_files manifest.now)))) }
{
    let all = all_files(alloc, manifest)?;
    let found = least_twice(alloc, all.items())?;
    Ok(found)
}

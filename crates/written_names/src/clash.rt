ghost use Rattle.std.specs.Prelude.{◌≡◌, IfOk, OnOk, MatchOption, map, string_bytes};
ghost use Rattle.std.specs.Option.{option_to_list};
ghost use Rattle.name_tables.specs.Names.{named, no_names, IsLeast, NonePasses};
ghost use Rattle.portfolio.specs.Faults.{all_files, file_of};
ghost use Rattle.written_names.specs.Clashes as spec;

use crate::path::joined;
use manifest_load::Opened;
use name_tables::Names;
use portfolio::{Manifest, Named};
use std::alloc::Global;
use y2k_base::{Bytes, List, Memory};

/// The least name in byte order, of those that are written, that is also the manifest's, which is `main`, or that of one
/// of its texts, seeds or data files, or that stands twice.
pub fn out_clash(
    alloc: Global,
    main: &str,
    opened: &Opened,
    written: &[Bytes],
) -> Result<Option<Bytes>, Memory>
    ensures { IfOk result (λ found. MatchOption found (NonePasses (spec.is_clash (spec.names_read main.now (string_bytes opened.now.folder) (all_files opened.now.manifest)) written.now)) (IsLeast (spec.is_clash (spec.names_read main.now (string_bytes opened.now.folder) (all_files opened.now.manifest)) written.now))) }
{
    let folder = opened.folder.as_bytes();
    let read = names_read(alloc, main.as_bytes(), folder, &opened.manifest)?;
    let clashes = known_in(alloc, read, written)?;
    let found = least_of(alloc, &clashes)?;
    Ok(found)
}

fn least_of(alloc: Global, names: &Names) -> Result<Option<Bytes>, Memory>
    ensures { IfOk result (λ found. MatchOption found (NonePasses (named names.now)) (IsLeast (named names.now))) }
{
    match names.least() {
        Some(name) => {
            let name = joined(alloc, name, b"")?;
            Ok(Some(name))
        }
        None => Ok(None),
    }
}

/// The names of all files that are read.
fn names_read(
    alloc: Global,
    main: &[u8],
    folder: &[u8],
    manifest: &Manifest,
) -> Result<Names, Memory>
    ensures { IfOk result (λ names. named names ≡ spec.with_all no_names (spec.names_read main.now folder.now (all_files manifest.now))) }
{
    let mut names = Names::new(alloc);
    names.add(alloc, main)?;
    add_names(alloc, folder, manifest.programs.items(), &mut names)?;
    add_files(alloc, folder, manifest.copybooks.items(), &mut names)?;
    add_seeds(alloc, folder, &manifest.seeds, &mut names)?;
    add_files(alloc, folder, manifest.files.items(), &mut names)?;
    Ok(names)
}

fn add_names(alloc: Global, folder: &[u8], more: &[Bytes], names: &mut Names) -> Result<(), Memory>
    ensures { OnOk result (named names.new ≡ spec.with_all (named names.old) (spec.names_in folder.now more.now)) }
{
    let mut rest = more;
    while let [name, after @ ..] = rest {
        let whole = joined(alloc, folder, name.items())?;
        names.add(alloc, whole.items())?;
        rest = after;
    }
    Ok(())
}

fn add_files(alloc: Global, folder: &[u8], files: &[Named], names: &mut Names) -> Result<(), Memory>
    ensures { OnOk result (named names.new ≡ spec.with_all (named names.old) (spec.names_in folder.now (map file_of files.now))) }
{
    let mut rest = files;
    while let [file, after @ ..] = rest {
        let whole = joined(alloc, folder, file.name.items())?;
        names.add(alloc, whole.items())?;
        rest = after;
    }
    Ok(())
}

fn add_seeds(
    alloc: Global,
    folder: &[u8],
    seeds: &Option<Bytes>,
    names: &mut Names,
) -> Result<(), Memory>
    ensures { OnOk result (named names.new ≡ spec.with_all (named names.old) (spec.names_in folder.now (option_to_list seeds.now))) }
{
    match seeds {
        Some(name) => {
            let whole = joined(alloc, folder, name.items())?;
            names.add(alloc, whole.items())?;
            Ok(())
        }
        None => Ok(()),
    }
}

/// The names that are known already, where each is known after itself.
fn known_in(alloc: Global, known: Names, written: &[Bytes]) -> Result<Names, Memory>
    ensures { IfOk result (λ found. named found ≡ spec.found_in (named known) no_names written.now) }
{
    let mut known = known;
    let mut found = Names::new(alloc);
    let mut rest = written;
    while let [name, more @ ..] = rest {
        add_known(alloc, &known, name.items(), &mut found)?;
        known.add(alloc, name.items())?;
        rest = more;
    }
    Ok(found)
}

/// Adds a name that is known.
fn add_known(alloc: Global, known: &Names, name: &[u8], found: &mut Names) -> Result<(), Memory>
    ensures { OnOk result (named found.new ≡ spec.with_known (named known.now) name.now (named found.old)) }
{
    if known.has(name) {
        found.add(alloc, name)?;
    }
    Ok(())
}

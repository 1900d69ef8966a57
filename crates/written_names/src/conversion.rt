ghost use Rattle.std.specs.Prelude.{◌≡◌, ◌++◌, ◌∷◌, [], map, IfOk, OnOk};
ghost use Rattle.written_names.specs.Clashes.{under};
ghost use Rattle.written_names.specs.Conversions as spec;

use crate::path::bytes_under;
use portfolio::{Manifest, Named};
use std::alloc::Global;
use y2k_base::{Bytes, List, Memory};

/// The names that a conversion of the portfolio of the manifest `main` may write: the listed data files, whether they are
/// there or not, the copybooks, the programs, the manifest under its last part, `labels.csv`, `plan.csv` and `done`.
pub fn names_of_conversion(
    alloc: Global,
    out: &str,
    main: &str,
    manifest: &Manifest,
) -> Result<List<Bytes>, Memory>
    ensures { IfOk result (λ names. names ≡ spec.names_of_conversion out.now main.now manifest.now) }
{
    let out = out.as_bytes();
    let mut names = List::new(alloc);
    add_named(alloc, out, manifest.files.items(), &mut names)?;
    add_named(alloc, out, manifest.copybooks.items(), &mut names)?;
    add_texts(alloc, out, manifest.programs.items(), &mut names)?;
    add_own(alloc, out, last_part(main.as_bytes()), &mut names)?;
    Ok(names)
}

fn add_named(
    alloc: Global,
    out: &[u8],
    files: &[Named],
    names: &mut List<Bytes>,
) -> Result<(), Memory>
    ensures { OnOk result (names.new ≡ names.old ++ map (λ file. under out.now file.name) files.now) }
{
    let mut rest = files;
    while let [file, more @ ..] = rest {
        names.push(bytes_under(alloc, out, file.name.items())?)?;
        rest = more;
    }
    Ok(())
}

fn add_texts(
    alloc: Global,
    out: &[u8],
    texts: &[Bytes],
    names: &mut List<Bytes>,
) -> Result<(), Memory>
    ensures { OnOk result (names.new ≡ names.old ++ map (under out.now) texts.now) }
{
    let mut rest = texts;
    while let [name, more @ ..] = rest {
        names.push(bytes_under(alloc, out, name.items())?)?;
        rest = more;
    }
    Ok(())
}

/// Adds the name of the manifest, and those of what only a conversion writes.
fn add_own(
    alloc: Global,
    out: &[u8],
    manifest: &[u8],
    names: &mut List<Bytes>,
) -> Result<(), Memory>
    ensures { OnOk result (names.new ≡ names.old ++ spec.own_names out.now manifest.now) }
{
    add_name(alloc, out, manifest, names)?;
    add_name(alloc, out, b"labels.csv", names)?;
    add_name(alloc, out, b"plan.csv", names)?;
    add_name(alloc, out, b"done", names)?;
    Ok(())
}

fn add_name(alloc: Global, out: &[u8], name: &[u8], names: &mut List<Bytes>) -> Result<(), Memory>
    ensures { OnOk result (names.new ≡ names.old ++ under out.now name.now ∷ []) }
{
    let whole = bytes_under(alloc, out, name)?;
    names.push(whole)?;
    Ok(())
}

/// The last part of a name: what stands after its last slash, or all of it.
pub fn last_part(name: &[u8]) -> &[u8]
    ensures { result.now ≡ spec.last_part name.now }
{
    let mut part = name;
    let mut rest = name;
    while let [byte, more @ ..] = rest {
        if *byte == b'/' {
            part = more;
        }
        rest = more;
    }
    part
}

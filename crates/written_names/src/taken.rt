ghost use Rattle.std.specs.Prelude.{◌≡◌, ◌++◌, map, IfOk, IfSome, OnOk};
ghost use Rattle.shelf.specs.Causes.{HasCause};
ghost use Rattle.written_names.specs.Clashes as spec;

use crate::path::{bytes_under, name_under};
use portfolio::Named;
use shelf::{Shelf, ShelfErr};
use std::alloc::Global;
use y2k_base::{Bytes, List, Memory};

/// How many bytes the file has that is written last.
const DONE_BYTES: u64 = 5;

/// The names that a run of a job may write: the listed data files, whether they are there or not, and `done`.
pub fn names_of_run(alloc: Global, out: &str, files: &[Named]) -> Result<List<Bytes>, Memory>
    ensures { IfOk result (λ names. names ≡ spec.names_of_run out.now files.now) }
{
    let mut names = List::new(alloc);
    add_files(alloc, out.as_bytes(), files, &mut names)?;
    names.push(bytes_under(alloc, out.as_bytes(), b"done")?)?;
    Ok(names)
}

fn add_files(
    alloc: Global,
    out: &[u8],
    files: &[Named],
    names: &mut List<Bytes>,
) -> Result<(), Memory>
    ensures { OnOk result (names.new ≡ names.old ++ map (λ file. spec.under out.now file.name) files.now) }
{
    let mut rest = files;
    while let [file, more @ ..] = rest {
        names.push(bytes_under(alloc, out, file.name.items())?)?;
        rest = more;
    }
    Ok(())
}

/// Whether `done` stands in the folder with its five bytes, or more: an earlier run has written there, and has ended.
pub fn out_taken<S: Shelf>(alloc: Global, out: &str, shelf: &mut S) -> Result<bool, ShelfErr>
    ensures taken { IfOk result (λ taken. IfSome (S.told shelf.old) (λ files. taken ≡ spec.is_taken out.now files)) }
    ensures cause { HasCause (S.faults shelf.old) (S.faults shelf.new) result }
    ensures same { S.told shelf.new ≡ S.told shelf.old }
{
    match name_under(alloc, out, b"done") {
        Ok(name) => match shelf.size(name.as_str()) {
            Ok(Some(size)) => Ok(size >= DONE_BYTES),
            Ok(None) => Ok(false),
            Err(error) => Err(error),
        },
        Err(_) => Err(ShelfErr::Memory),
    }
}

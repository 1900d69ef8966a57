ghost use Rattle.std.specs.Prelude.{◌≡◌, ◌≤◌, length, option_map, IfErr, OnOk, OnErr};
ghost use Rattle.std.specs.FinMap.{insert};
ghost use Rattle.shelf.specs.Causes.{Rose};
ghost use Rattle.shelf.specs.Contents.{Files};
ghost use Rattle.name_tables.specs.Table.{held};
ghost use Rattle.seq_files.specs.Disks.{disks};
ghost use Rattle.written_names.specs.Clashes.{under};
ghost use Rattle.job_files.specs.Numbers.{number_of};
ghost use Rattle.job_files.specs.Written as spec;

use crate::loaded::copied;
use crate::number::numbers_of;
use crate::refusal::WriteFault;
use data_layout::FileUse;
use name_tables::NameTable;
use portfolio::Named;
use seq_files::Store;
use shelf::{Shelf, ShelfErr};
use std::alloc::Global;
use written_names::name_under;

/// Writes the files that a store of a portfolio's files holds under `out`, in the order in which the manifest lists them,
/// which is byte order of the external names, and then `done`. Names of manifests are text, as TOML is; other bytes are
/// answered as want of memory.
pub fn write_files<S: Shelf>(
    alloc: Global,
    out: &str,
    listed: &[Named],
    files: &[FileUse],
    store: &Store,
    shelf: &mut S,
) -> Result<(), WriteFault>
    requires { length (disks store.now) ≡ length files.now }
    ensures written { OnOk result (S.told shelf.new ≡ option_map (spec.with_run out.now files.now (disks store.now) listed.now) (S.told shelf.old)) }
    ensures left { OnErr result (spec.HasLeft out.now files.now (disks store.now) listed.now (S.told shelf.old) (S.told shelf.new)) }
    ensures fault { IfErr result (spec.HasWriteFault out.now listed.now) }
    ensures rose { IfErr result (λ fault. spec.RoseWith fault (S.faults shelf.old) (S.faults shelf.new)) }
    ensures later { S.faults shelf.old ≤ S.faults shelf.new }
{
    match numbers_of(alloc, files) {
        Ok(numbers) => write_numbered(alloc, out, listed, files, &numbers, store, shelf),
        Err(_) => Err(WriteFault::Memory),
    }
}

/// Writes each listed file that is held, and then `done`.
fn write_numbered<S: Shelf>(
    alloc: Global,
    out: &str,
    listed: &[Named],
    files: &[FileUse],
    numbers: &NameTable<u32>,
    store: &Store,
    shelf: &mut S,
) -> Result<(), WriteFault>
    requires numbers { held numbers.now ≡ number_of files.now }
    requires held { length (disks store.now) ≡ length files.now }
    ensures written { OnOk result (S.told shelf.new ≡ option_map (spec.with_run out.now files.now (disks store.now) listed.now) (S.told shelf.old)) }
    ensures left { OnErr result (spec.HasLeft out.now files.now (disks store.now) listed.now (S.told shelf.old) (S.told shelf.new)) }
    ensures fault { IfErr result (spec.HasWriteFault out.now listed.now) }
    ensures rose { IfErr result (λ fault. spec.RoseWith fault (S.faults shelf.old) (S.faults shelf.new)) }
    ensures later { S.faults shelf.old ≤ S.faults shelf.new }
{
    let mut rest = listed;
    while let [named, more @ ..] = rest {
        match write_named(alloc, out, named, files, numbers, store, shelf) {
            Ok(()) => rest = more,
            Err(fault) => return Err(fault),
        }
    }
    match write_file(alloc, out, b"done", b"done\n", shelf) {
        Ok(()) => Ok(()),
        Err(fault) => Err(fault),
    }
}

/// Writes a listed file, if it is held.
fn write_named<S: Shelf>(
    alloc: Global,
    out: &str,
    named: &Named,
    files: &[FileUse],
    numbers: &NameTable<u32>,
    store: &Store,
    shelf: &mut S,
) -> Result<(), WriteFault>
    requires numbers { held numbers.now ≡ number_of files.now }
    requires held { length (disks store.now) ≡ length files.now }
    ensures written { OnOk result (S.told shelf.new ≡ option_map (spec.with_file out.now files.now (disks store.now) named.now) (S.told shelf.old)) }
    ensures left { OnErr result (spec.MayHaveBegunHeld (under out.now named.now.name) (spec.bytes_held files.now (disks store.now) named.now.key) (S.told shelf.old) (S.told shelf.new)) }
    ensures fault { IfErr result (spec.IsFaultAt (under out.now named.now.name)) }
    ensures rose { IfErr result (λ fault. spec.RoseWith fault (S.faults shelf.old) (S.faults shelf.new)) }
    ensures later { S.faults shelf.old ≤ S.faults shelf.new }
{
    match numbers.get(named.key.items()) {
        Some(number) => match store.bytes(number) {
            Some(bytes) => match write_file(alloc, out, named.name.items(), bytes, shelf) {
                Ok(()) => Ok(()),
                Err(fault) => Err(fault),
            },
            None => Ok(()),
        },
        None => Ok(()),
    }
}

/// Writes a file under `out`.
pub fn write_file<S: Shelf>(
    alloc: Global,
    out: &str,
    name: &[u8],
    bytes: &[u8],
    shelf: &mut S,
) -> Result<(), WriteFault>
    ensures written { OnOk result (S.told shelf.new ≡ option_map (spec.with_bytes (under out.now name.now) bytes.now) (S.told shelf.old)) }
    ensures left { OnErr result (spec.MayHaveBegun (under out.now name.now) bytes.now (S.told shelf.old) (S.told shelf.new)) }
    ensures fault { IfErr result (spec.IsFaultAt (under out.now name.now)) }
    ensures rose { IfErr result (λ fault. spec.RoseWith fault (S.faults shelf.old) (S.faults shelf.new)) }
    ensures later { S.faults shelf.old ≤ S.faults shelf.new }
{
    match name_under(alloc, out, name) {
        Ok(name) => match write_at(alloc, name.as_str(), bytes, shelf) {
            Ok(()) => Ok(()),
            Err(fault) => Err(fault),
        },
        Err(_) => Err(WriteFault::Memory),
    }
}

/// Leaves the file with these bytes.
fn write_at<S: Shelf>(
    alloc: Global,
    name: &str,
    bytes: &[u8],
    shelf: &mut S,
) -> Result<(), WriteFault>
    ensures written { OnOk result (S.told shelf.new ≡ option_map (spec.with_bytes name.now bytes.now) (S.told shelf.old)) }
    ensures left { OnErr result (spec.MayHaveBegun name.now bytes.now (S.told shelf.old) (S.told shelf.new)) }
    ensures fault { IfErr result (spec.IsFaultAt name.now) }
    ensures rose { IfErr result (λ fault. spec.RoseWith fault (S.faults shelf.old) (S.faults shelf.new)) }
    ensures later { S.faults shelf.old ≤ S.faults shelf.new }
{
    match shelf.create(name) {
        Ok(()) => match shelf.append(name, bytes) {
            Ok(()) => Ok(()),
            Err(error) => Err(fault_of(alloc, error, name)),
        },
        Err(error) => Err(fault_of(alloc, error, name)),
    }
}

/// The fault of a call of the shelf at that name.
fn fault_of(alloc: Global, error: ShelfErr, name: &str) -> WriteFault
    ensures { spec.IsFaultOf error name.now result }
{
    match error {
        ShelfErr::Failed => match copied(alloc, name.as_bytes()) {
            Ok(name) => WriteFault::Shelf(name),
            Err(_) => WriteFault::Memory,
        },
        ShelfErr::Memory => WriteFault::Memory,
    }
}

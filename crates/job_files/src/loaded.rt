ghost use Rattle.std.specs.Prelude.{◌≡◌, ◌<◌, ◌≤◌, ◌%◌, ◌++◌, ℕ, Option, All, length, slice_set, IfOk, IfErr, IfSome, OnOk};
ghost use Rattle.shelf.specs.Causes.{Rose};
ghost use Rattle.shelf.specs.Contents.{Files};
ghost use Rattle.name_tables.specs.Table.{held, holds_nothing};
ghost use Rattle.program_meaning.specs.Files.{Closed, disk_at};
ghost use Rattle.seq_files.specs.Disks.{disks, filled_disk};
ghost use Rattle.job_files.specs.Loaded as spec;
ghost use Rattle.job_files.specs.Numbers.{AreApart, number_of};

use crate::number::numbers_of;
use crate::read::{ReadFault, read_file, shelf_name};
use crate::refusal::DataRefusal;
use data_layout::FileUse;
use name_tables::NameTable;
use portfolio::Named;
use seq_files::Store;
use shelf::Shelf;
use std::alloc::Global;
use y2k_base::{Bytes, List, Memory};

/// The files of a portfolio as the shelf holds them. `listed` are the data files of the manifest, whose names are relative
/// to `folder`, which is empty or ends in `/`; they are read in their order, which is byte order of the external names. A
/// file that isn't there stays missing, and a listed file that isn't in the portfolio isn't read. Names of manifests are
/// text, as TOML is; other bytes are answered as want of memory.
pub fn load_files<S: Shelf>(
    alloc: Global,
    folder: &str,
    listed: &[Named],
    files: &[FileUse],
    shelf: &mut S,
) -> Result<Store, DataRefusal>
    requires positive { All (λ file. 0 < file.length) files.now }
    requires apart { AreApart files.now }
    ensures loaded { IfOk result (λ store. spec.AreLoaded (S.told shelf.old) folder.now listed.now files.now (disks store)) }
    ensures count { IfOk result (λ store. length (disks store) ≡ length files.now) }
    ensures whole { IfOk result (λ store. IfSome (S.told shelf.old) (λ shelved. spec.AreWhole shelved folder.now files.now listed.now)) }
    ensures refusal { IfErr result (spec.HasDataRefusal (S.told shelf.old) folder.now files.now listed.now) }
    ensures rose { IfErr result (λ refusal. spec.RoseWith refusal (S.faults shelf.old) (S.faults shelf.new)) }
    ensures later { S.faults shelf.old ≤ S.faults shelf.new }
    ensures same { S.told shelf.new ≡ S.told shelf.old }
{
    let numbers = numbers_of(alloc, files)?;
    let mut store = Store::new(alloc, files)?;
    load_listed(alloc, folder, listed, files, &numbers, shelf, &mut store)?;
    Ok(store)
}

/// Loads each listed file that is in the portfolio.
fn load_listed<S: Shelf>(
    alloc: Global,
    folder: &str,
    listed: &[Named],
    files: &[FileUse],
    numbers: &NameTable<u32>,
    shelf: &mut S,
    store: &mut Store,
) -> Result<(), DataRefusal>
    requires numbers { held numbers.now ≡ number_of files.now }
    requires apart { AreApart files.now }
    requires empty { disks store.old ≡ spec.disks_in holds_nothing files.now }
    ensures loaded { OnOk result (spec.AreLoaded (S.told shelf.old) folder.now listed.now files.now (disks store.new)) }
    ensures whole { OnOk result (IfSome (S.told shelf.old) (λ shelved. spec.AreWhole shelved folder.now files.now listed.now)) }
    ensures refusal { IfErr result (spec.HasDataRefusal (S.told shelf.old) folder.now files.now listed.now) }
    ensures rose { IfErr result (λ refusal. spec.RoseWith refusal (S.faults shelf.old) (S.faults shelf.new)) }
    ensures later { S.faults shelf.old ≤ S.faults shelf.new }
    ensures same { S.told shelf.new ≡ S.told shelf.old }
{
    let mut rest = listed;
    while let [named, more @ ..] = rest {
        match load_named(alloc, folder, named, files, numbers, shelf, store) {
            Ok(()) => rest = more,
            Err(refusal) => return Err(refusal),
        }
    }
    Ok(())
}

/// Loads a listed file, if it is in the portfolio.
fn load_named<S: Shelf>(
    alloc: Global,
    folder: &str,
    named: &Named,
    files: &[FileUse],
    numbers: &NameTable<u32>,
    shelf: &mut S,
    store: &mut Store,
) -> Result<(), DataRefusal>
    requires numbers { held numbers.now ≡ number_of files.now }
    requires apart { AreApart files.now }
    requires closed { spec.AreClosed files.now (disks store.old) }
    ensures read { OnOk result (spec.IsRead (S.told shelf.old) folder.now files.now named.now (disks store.old) (disks store.new)) }
    ensures refusal { IfErr result (spec.IsUnread (S.told shelf.old) folder.now files.now named.now) }
    ensures rose { IfErr result (λ refusal. spec.RoseWith refusal (S.faults shelf.old) (S.faults shelf.new)) }
    ensures later { S.faults shelf.old ≤ S.faults shelf.new }
    ensures same { S.told shelf.new ≡ S.told shelf.old }
{
    match numbers.get(named.key.items()) {
        Some(number) => match load_file(alloc, folder, named, number, shelf, store) {
            Ok(()) => Ok(()),
            Err(refusal) => Err(refusal),
        },
        None => Ok(()),
    }
}

/// Loads a listed file as that of this number.
fn load_file<S: Shelf>(
    alloc: Global,
    folder: &str,
    named: &Named,
    number: u32,
    shelf: &mut S,
    store: &mut Store,
) -> Result<(), DataRefusal>
    requires within { number < length (disks store.old) }
    requires closed { (disk_at (disks store.old) number).opening ≡ Closed }
    ensures read { OnOk result (spec.IsReadAt (S.told shelf.old) (folder.now ++ named.now.name) number (disks store.old) (disks store.new)) }
    ensures refusal { IfErr result (spec.IsUnreadAt (S.told shelf.old) (folder.now ++ named.now.name) named.now (disk_at (disks store.old) number).length) }
    ensures rose { IfErr result (λ refusal. spec.RoseWith refusal (S.faults shelf.old) (S.faults shelf.new)) }
    ensures later { S.faults shelf.old ≤ S.faults shelf.new }
    ensures same { S.told shelf.new ≡ S.told shelf.old }
{
    match shelf_name(alloc, folder, named.name.items()) {
        Ok(name) => match load_at(alloc, name.as_str(), named, number, shelf, store) {
            Ok(()) => Ok(()),
            Err(refusal) => Err(refusal),
        },
        Err(_) => Err(DataRefusal::Memory),
    }
}

/// Loads the file of that name on the shelf as that of this number.
fn load_at<S: Shelf>(
    alloc: Global,
    name: &str,
    named: &Named,
    number: u32,
    shelf: &mut S,
    store: &mut Store,
) -> Result<(), DataRefusal>
    requires within { number < length (disks store.old) }
    requires closed { (disk_at (disks store.old) number).opening ≡ Closed }
    ensures read { OnOk result (spec.IsReadAt (S.told shelf.old) name.now number (disks store.old) (disks store.new)) }
    ensures refusal { IfErr result (spec.IsUnreadAt (S.told shelf.old) name.now named.now (disk_at (disks store.old) number).length) }
    ensures rose { IfErr result (λ refusal. spec.RoseWith refusal (S.faults shelf.old) (S.faults shelf.new)) }
    ensures later { S.faults shelf.old ≤ S.faults shelf.new }
    ensures same { S.told shelf.new ≡ S.told shelf.old }
{
    match read_file(alloc, name, shelf) {
        Ok(Some(bytes)) => match set_file(alloc, named, number, bytes.items(), store) {
            Ok(()) => Ok(()),
            Err(refusal) => Err(refusal),
        },
        Ok(None) => Ok(()),
        Err(fault) => Err(refusal_of(alloc, fault, named.name.items(), name)),
    }
}

/// Sets the bytes of the file of that number.
fn set_file(
    alloc: Global,
    named: &Named,
    number: u32,
    bytes: &[u8],
    store: &mut Store,
) -> Result<(), DataRefusal>
    requires within { number < length (disks store.old) }
    requires closed { (disk_at (disks store.old) number).opening ≡ Closed }
    ensures set { OnOk result (disks store.new ≡ slice_set (disks store.old) number (filled_disk (disk_at (disks store.old) number).length bytes.now)) }
    ensures whole { OnOk result (length bytes.now % (disk_at (disks store.old) number).length ≡ 0) }
    ensures refusal { IfErr result (spec.IsPartial named.now (disk_at (disks store.old) number).length bytes.now) }
{
    match store.set(number, bytes) {
        Ok(Ok(())) => Ok(()),
        Ok(Err(left)) => match copied(alloc, named.key.items()) {
            Ok(external) => Err(DataRefusal::PartialRecord { external, left }),
            Err(_) => Err(DataRefusal::Memory),
        },
        Err(_) => Err(DataRefusal::Memory),
    }
}

/// What a file's fault in reading is, with its name in the manifest and that in the call.
fn refusal_of(alloc: Global, fault: ReadFault, listed: &[u8], name: &str) -> DataRefusal
    ensures { spec.IsRefusalOf fault listed.now name.now result }
{
    match fault {
        ReadFault::TooLarge => match copied(alloc, listed) {
            Ok(name) => DataRefusal::TooLarge(name),
            Err(_) => DataRefusal::Memory,
        },
        ReadFault::Shelf => match copied(alloc, name.as_bytes()) {
            Ok(name) => DataRefusal::Shelf(name),
            Err(_) => DataRefusal::Memory,
        },
        ReadFault::Memory => DataRefusal::Memory,
    }
}

/// A copy of bytes.
pub(crate) fn copied(alloc: Global, bytes: &[u8]) -> Result<Bytes, Memory>
    ensures { IfOk result (λ copy. copy ≡ bytes.now) }
{
    let mut copy = List::new(alloc);
    copy.append(bytes)?;
    Ok(copy)
}

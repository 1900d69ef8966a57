ghost use Rattle.std.specs.Prelude.{◌≡◌, ◌<◌, All, IfOk};
ghost use Rattle.job_files.specs.Numbers.{AreApart};

use super::*;
use data_layout::FileUse;
use portfolio::Named;
use seq_files::Store;
use shelf::{MemoryShelf, Shelf};
use std::alloc::Global;
use std::test::Fail;
use y2k_base::{Bytes, List, Memory};

fn bytes(alloc: Global, text: &[u8]) -> Result<Bytes, Memory>
    ensures { IfOk result (λ bytes. bytes ≡ text.now) }
{
    let mut bytes = List::new(alloc);
    bytes.append(text)?;
    Ok(bytes)
}

/// The data files of a manifest, in byte order of their external names.
fn listed(alloc: Global) -> Result<List<Named>, Memory> {
    let mut list = List::new(alloc);
    for (key, name) in [(b"A", b"a.dat"), (b"B", b"b.dat")] {
        list.push(Named {
            key: bytes(alloc, key)?,
            name: bytes(alloc, name)?,
        })?;
    }
    Ok(list)
}

fn file(alloc: Global, external: &[u8], length: u32) -> Result<FileUse, Memory>
    ensures external { IfOk result (λ file. file.external ≡ external.now) }
    ensures length { IfOk result (λ file. file.length ≡ length) }
{
    Ok(FileUse {
        external: bytes(alloc, external)?,
        name: List::new(alloc),
        length,
        areas: List::new(alloc),
    })
}

/// The files of a portfolio: B with records of two bytes, and A with records of three.
fn files(alloc: Global) -> Result<List<FileUse>, Memory>
    ensures positive { IfOk result (λ files. All (λ file. 0 < file.length) files) }
    ensures apart { IfOk result AreApart }
{
    let mut files = List::new(alloc);
    files.push(file(alloc, b"B", 2)?)?;
    files.push(file(alloc, b"A", 3)?)?;
    Ok(files)
}

/// What is loaded of these files in the folder `in/`, where the call of that number fails.
fn load(
    alloc: Global,
    first: &[u8],
    second: &[u8],
    fault: u64,
) -> Result<Result<Store, DataRefusal>, Fail> {
    let mut shelf = MemoryShelf::new(alloc)?;
    shelf.put("in/a.dat", first)?;
    shelf.put("in/b.dat", second)?;
    shelf.put("a.dat", b"no")?;
    shelf.fail_on(fault)?;
    let listed = listed(alloc)?;
    let files = files(alloc)?;
    Ok(load_files(alloc, "in/", listed.items(), files.items(), &mut shelf))
}

/// Whether bytes of the file of that external name are left over, so many.
fn is_partial(answer: &Result<Store, DataRefusal>, name: &[u8], count: u32) -> bool {
    match answer {
        Err(DataRefusal::PartialRecord { external, left }) => {
            external.items() == name && *left == count
        }
        _ => false,
    }
}

/// Whether the shelf failed at that name.
fn has_failed(answer: &Result<Store, DataRefusal>, name: &[u8]) -> bool {
    match answer {
        Err(DataRefusal::Shelf(call)) => call.items() == name,
        _ => false,
    }
}

#[test]
fn the_first_file_that_is_not_whole_records_is_named(rt: HostRuntime) -> Result<(), Fail> {
    let alloc = rt.alloc();
    assert!(rt; load(alloc, b"ABCDEF", b"xyzw", 0)?.is_ok());
    assert!(rt; load(alloc, b"", b"", 0)?.is_ok());
    assert!(rt; is_partial(&load(alloc, b"ABCDE", b"x", 0)?, b"A", 2));
    assert!(rt; is_partial(&load(alloc, b"ABC", b"xyz", 0)?, b"B", 1));
    Ok(())
}

#[test]
fn a_fault_of_the_shelf_is_named_by_the_call(rt: HostRuntime) -> Result<(), Fail> {
    let alloc = rt.alloc();
    for (call, name) in [
        (1, b"in/a.dat"),
        (2, b"in/a.dat"),
        (3, b"in/b.dat"),
        (4, b"in/b.dat"),
    ] {
        assert!(rt; has_failed(&load(alloc, b"ABC", b"xy", call)?, name));
    }
    assert!(rt; load(alloc, b"ABC", b"xy", 5)?.is_ok());
    Ok(())
}

/// Whether the file is there and has just these bytes.
fn holds(shelf: &mut MemoryShelf, name: &str, want: &[u8]) -> bool {
    let mut into = [0u8; 16];
    match shelf.size(name) {
        Ok(Some(size)) => size == want.len() as u64 && reads(shelf, name, &mut into, want),
        _ => false,
    }
}

fn reads(shelf: &mut MemoryShelf, name: &str, into: &mut [u8], want: &[u8]) -> bool {
    match shelf.read(name, 0, into) {
        Ok(count) => &into[..count] == want,
        Err(_) => false,
    }
}

/// Loads these files and writes them under `out`, where the call of that number of the shelf fails, and answers the shelf.
fn copied(alloc: Global, first: Option<&[u8]>, fault: u64) -> Result<MemoryShelf, Fail> {
    let mut shelf = MemoryShelf::new(alloc)?;
    match first {
        Some(bytes) => shelf.put("in/a.dat", bytes)?,
        None => {}
    }
    shelf.put("in/b.dat", b"xyzw")?;
    shelf.fail_on(fault)?;
    let listed = listed(alloc)?;
    let files = files(alloc)?;
    match load_files(alloc, "in/", listed.items(), files.items(), &mut shelf) {
        Ok(store) => {
            match write_files(
                alloc,
                "out",
                listed.items(),
                files.items(),
                &store,
                &mut shelf,
            ) {
                Ok(()) => {}
                Err(_) => {}
            }
            Ok(shelf)
        }
        Err(_) => Ok(shelf),
    }
}

#[test]
fn files_that_are_held_are_written_and_then_done(rt: HostRuntime) -> Result<(), Fail> {
    let alloc = rt.alloc();
    let mut both = copied(alloc, Some(b"ABCDEF"), 0)?;
    assert!(rt; holds(&mut both, "out/a.dat", b"ABCDEF"));
    assert!(rt; holds(&mut both, "out/b.dat", b"xyzw"));
    assert!(rt; holds(&mut both, "out/done", b"done\n"));
    assert!(rt; holds(&mut both, "in/a.dat", b"ABCDEF"));
    let mut one = copied(alloc, None, 0)?;
    assert_eq!(rt; one.size("out/a.dat"), Ok(None));
    assert!(rt; holds(&mut one, "out/b.dat", b"xyzw"));
    assert!(rt; holds(&mut one, "out/done", b"done\n"));
    Ok(())
}

#[test]
fn done_is_not_whole_after_a_fault(rt: HostRuntime) -> Result<(), Fail> {
    let alloc = rt.alloc();
    for (call, done) in [
        (5, None),
        (6, None),
        (7, None),
        (8, None),
        (9, None),
        (10, Some(0)),
    ] {
        let mut shelf = copied(alloc, Some(b"ABC"), call)?;
        assert_eq!(rt; shelf.size("out/done"), Ok(done));
    }
    let mut shelf = copied(alloc, Some(b"ABC"), 0)?;
    assert_eq!(rt; shelf.size("out/done"), Ok(Some(5)));
    Ok(())
}

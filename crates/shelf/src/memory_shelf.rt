ghost use Rattle.std.specs.Prelude.{◌≡◌, ◌≤◌, ◌++◌, [], ◌∷◌, Some, length, IfOk, IfErr, OnOk, OnErr, IsErrOf};
ghost use Rattle.std.specs.Option.{option_map, option_copied};
ghost use Rattle.std.specs.FinMap.{get, insert, empty};
ghost use Rattle.shelf.specs.Calls.{HasBegun};
ghost use Rattle.shelf.specs.Causes.{HasCause};
ghost use Rattle.shelf.specs.Contents.{IsRead, bytes_of, appended, emptied};
ghost use Rattle.shelf.specs.Memory.{held};

use crate::calls::Calls;
use crate::{Shelf, ShelfErr};
use std::alloc::{AllocError, Global};
use std::collections::BTreeMap;
use y2k_base::Memory;

/// Files in memory by their names. Calls of `Shelf` can be made to fail by their numbers.
#[derive(Debug)]
pub struct MemoryShelf {
    alloc: Global,
    files: BTreeMap<String, Vec<u8>>,
    calls: Calls,
}

impl MemoryShelf {
    /// A shelf that holds nothing.
    pub fn new(alloc: Global) -> Result<MemoryShelf, Memory>
        ensures held { IfOk result (λ shelf. held shelf.files ≡ empty) }
        ensures made { IfOk result (λ shelf. shelf.calls.made ≡ 0) }
        ensures failing { IfOk result (λ shelf. shelf.calls.failing.items ≡ []) }
        ensures faults { IfOk result (λ shelf. shelf.calls.faults ≡ 0) }
    {
        Ok(MemoryShelf {
            alloc,
            files: BTreeMap::new(alloc),
            calls: Calls::new(alloc),
        })
    }

    /// Sets a file. This is not one of the calls that are counted.
    pub fn put(&mut self, name: &str, bytes: &[u8]) -> Result<(), Memory>
        ensures ok { OnOk result (held self.new.files ≡ insert (held self.old.files) name.now bytes.now) }
        ensures err { OnErr result (held self.new.files ≡ held self.old.files) }
        ensures calls { self.new.calls ≡ self.old.calls }
    {
        let bytes = Vec::from_slice(self.alloc, bytes)?;
        set_file(self.alloc, &mut self.files, name, bytes)?;
        Ok(())
    }

    /// Makes the call of that number fail. Calls are counted over all four calls of `Shelf`, from 1.
    pub fn fail_on(&mut self, call: u64) -> Result<(), Memory>
        ensures ok { OnOk result (self.new.calls.failing.items ≡ self.old.calls.failing.items ++ call ∷ []) }
        ensures err { OnErr result (self.new.calls.failing.items ≡ self.old.calls.failing.items) }
        ensures made { self.new.calls.made ≡ self.old.calls.made }
        ensures faults { self.new.calls.faults ≡ self.old.calls.faults }
        ensures held { held self.new.files ≡ held self.old.files }
    {
        self.calls.fail_on(call)?;
        Ok(())
    }
}

impl Drop for MemoryShelf {
    fn drop(self) {
        let MemoryShelf {
            alloc: _,
            files: _files,
            calls: _calls,
        } = self;
    }
}

impl Shelf for MemoryShelf {
    ghost told = { λ s. Some (held s.files) };

    ghost faults = { λ s. s.calls.faults };

    fn size(&mut self, name: &str) -> Result<Option<u64>, ShelfErr>
        ensures size { IfOk result (λ size. size ≡ option_map length (get (held self.old.files) name.now)) }
        ensures err { IfErr result (λ error. error ≡ ShelfErr.Failed) }
        ensures same { held self.new.files ≡ held self.old.files }
        ensures cause { HasCause self.old.calls.faults self.new.calls.faults result }
        ensures begun { HasBegun self.old.calls self.new.calls (IsErrOf result ShelfErr.Failed) }
    {
        if self.calls.begin() {
            return Err(ShelfErr::Failed);
        }
        match bytes_at(&self.files, name) {
            Some(bytes) => Ok(Some(bytes.len() as u64)),
            None => Ok(None),
        }
    }

    fn read(&mut self, name: &str, at: u64, into: &mut [u8]) -> Result<usize, ShelfErr>
        ensures bytes { IfOk result (λ count. IsRead (bytes_of (held self.old.files) name.now) at into.old into.new count) }
        ensures at_most { IfOk result (λ count. count ≤ length into.new) }
        ensures err { IfErr result (λ error. error ≡ ShelfErr.Failed) }
        ensures same { held self.new.files ≡ held self.old.files }
        ensures cause { HasCause self.old.calls.faults self.new.calls.faults result }
        ensures begun { HasBegun self.old.calls self.new.calls (IsErrOf result ShelfErr.Failed) }
    {
        if self.calls.begin() {
            return Err(ShelfErr::Failed);
        }
        match bytes_at(&self.files, name) {
            Some(bytes) => Ok(copy_front(bytes, at, into)),
            None => Ok(0),
        }
    }

    fn create(&mut self, name: &str) -> Result<(), ShelfErr>
        ensures ok { OnOk result (held self.new.files ≡ emptied name.now (held self.old.files)) }
        ensures err { OnErr result (held self.new.files ≡ held self.old.files) }
        ensures cause { HasCause self.old.calls.faults self.new.calls.faults result }
        ensures begun { HasBegun self.old.calls self.new.calls (IsErrOf result ShelfErr.Failed) }
    {
        if self.calls.begin() {
            return Err(ShelfErr::Failed);
        }
        let bytes = Vec::new(self.alloc);
        match set_file(self.alloc, &mut self.files, name, bytes) {
            Ok(()) => Ok(()),
            Err(_) => Err(ShelfErr::Memory),
        }
    }

    /// After an error nothing of the piece has been added.
    fn append(&mut self, name: &str, piece: &[u8]) -> Result<(), ShelfErr>
        ensures ok { OnOk result (held self.new.files ≡ appended name.now piece.now (held self.old.files)) }
        ensures err { OnErr result (held self.new.files ≡ held self.old.files) }
        ensures cause { HasCause self.old.calls.faults self.new.calls.faults result }
        ensures begun { HasBegun self.old.calls self.new.calls (IsErrOf result ShelfErr.Failed) }
    {
        if self.calls.begin() {
            return Err(ShelfErr::Failed);
        }
        match append_to(self.alloc, &mut self.files, name, piece) {
            Ok(()) => Ok(()),
            Err(_) => Err(ShelfErr::Memory),
        }
    }
}

/// The bytes of the file of that name.
fn bytes_at<'a>(files: &'a BTreeMap<String, Vec<u8>>, name: &str) -> Option<&'a [u8]>
    ensures { option_copied result ≡ get (held files.now) name.now }
{
    match files.get(name) {
        Some(bytes) => Some(bytes.as_slice()),
        None => None,
    }
}

/// Copies the bytes from that place on, as many as there is room for.
fn copy_front(bytes: &[u8], at: u64, into: &mut [u8]) -> usize
    ensures bytes { IsRead bytes.now at into.old into.new result }
    ensures at_most { result ≤ length into.new }
{
    if at >= bytes.len() as u64 {
        return 0;
    }
    let rest = &bytes[at as usize..];
    let count = rest.len().min(into.len());
    into[..count].copy_from_slice(&rest[..count]);
    count
}

/// Leaves the file with these bytes.
fn set_file(
    alloc: Global,
    files: &mut BTreeMap<String, Vec<u8>>,
    name: &str,
    bytes: Vec<u8>,
) -> Result<(), AllocError>
    ensures ok { OnOk result (held files.new ≡ insert (held files.old) name.now bytes.items) }
    ensures err { OnErr result (files.new.entries ≡ files.old.entries) }
{
    let name = String::from_str(alloc, name)?;
    files.insert(name, bytes)?;
    Ok(())
}

/// Adds the piece at the end of the file, which is made where it is not there.
fn append_to(
    alloc: Global,
    files: &mut BTreeMap<String, Vec<u8>>,
    name: &str,
    piece: &[u8],
) -> Result<(), AllocError>
    ensures ok { OnOk result (held files.new ≡ appended name.now piece.now (held files.old)) }
    ensures err { OnErr result (held files.new ≡ held files.old) }
{
    match files.get_mut(name) {
        Some(bytes) => match bytes.extend_from_slice(piece) {
            Ok(()) => Ok(()),
            Err(error) => Err(error),
        },
        None => {
            let bytes = Vec::from_slice(alloc, piece)?;
            match set_file(alloc, files, name, bytes) {
                Ok(()) => Ok(()),
                Err(error) => Err(error),
            }
        }
    }
}

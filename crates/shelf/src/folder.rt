ghost use Rattle.std.specs.Prelude.{◌≡◌, ◌≤◌, ◌++◌, ◌↔◌, None, IfOk, IfErr, IsOk, OnOk, OnErr, length, codes, string_bytes};
ghost use Rattle.std.specs.IoError.{error_kind};
ghost use Rattle.shelf.specs.Causes.{HasCause, Rose};

use crate::open_file::{Appending, Reading, refuse_folder};
use crate::{Shelf, ShelfErr};
use std::fs::OpenOptions;
use std::io::ErrorKind;
use std::path::Path;
use std::rt::Files;
use std::{fs, io};

/// The files under a folder of the machine. What they hold is not told, and each `Err` of a call is counted.
/// The file that was read last and the file that was added to last stay open, so that a record costs no
/// opening. Names are taken as given, and two names of one file, as `a` and `./a`, are seen to be that by
/// what the machine says of the file.
pub struct FolderShelf<R: Files> {
    rt: R,
    folder: String,
    faults: u64,
    reading: Option<Reading<R::File>>,
    appending: Option<Appending<R::File>>,
}

impl<R: Files + AllocGlobal> FolderShelf<R> {
    /// The shelf over that folder, which is made in `create` where it is missing. It takes no memory.
    pub fn new(rt: R, folder: String) -> FolderShelf<R>
        ensures rt { result.rt ≡ rt }
        ensures folder { result.folder ≡ folder }
        ensures faults { result.faults ≡ 0 }
    {
        FolderShelf {
            rt,
            folder,
            faults: 0,
            reading: None,
            appending: None,
        }
    }

    fn path(&self, name: &str) -> io::Result<String>
        ensures { IfOk result (λ path. string_bytes path ≡ string_bytes self.now.folder ++ (codes "/" ++ name.now)) }
    {
        let folder = self.folder.as_str();
        let path = format!(in self.rt.alloc(); "{folder}/{name}")?;
        Ok(path)
    }

    /// How many bytes the file has, or `None` where it is not there.
    fn file_size(&self, name: &str) -> io::Result<Option<u64>> {
        let path = self.path(name)?;
        match fs::metadata(&self.rt, path.as_str()) {
            Ok(metadata) => {
                refuse_folder(&metadata)?;
                Ok(Some(metadata.len()))
            }
            Err(error) => none_if_missing(error),
        }
    }

    /// Opens the file for reading, or answers `None` where it is not there.
    fn open_reading(&self, name: &str) -> io::Result<Option<Reading<R::File>>> {
        let path = self.path(name)?;
        match fs::open(&self.rt, path.as_str()) {
            Ok(file) => Ok(Some(Reading::new(self.rt.alloc(), name, file)?)),
            Err(error) => none_if_missing(error),
        }
    }

    /// Opens the file to add to it, and makes it where it is not there.
    fn open_appending(&self, name: &str) -> io::Result<Appending<R::File>> {
        let path = self.path(name)?;
        let mut options = OpenOptions::new();
        options.append(true);
        options.create(true);
        let file = options.open(&self.rt, path.as_str())?;
        Appending::new(self.rt.alloc(), name, file)
    }

    /// The file kept open for reading if it has that name, and else that file opened.
    fn take_reading(&mut self, name: &str) -> io::Result<Option<Reading<R::File>>>
        ensures { self.new.faults ≡ self.old.faults }
    {
        match self.reading.take() {
            Some(reading) => {
                if reading.is_named(name) {
                    return Ok(Some(reading));
                }
                self.open_reading(name)
            }
            None => self.open_reading(name),
        }
    }

    /// The file kept open for adding if it has that name, and else that file opened.
    fn take_appending(&mut self, name: &str) -> io::Result<Appending<R::File>>
        ensures { self.new.faults ≡ self.old.faults }
    {
        match self.appending.take() {
            Some(appending) => {
                if appending.is_named(name) {
                    return Ok(appending);
                }
                self.open_appending(name)
            }
            None => self.open_appending(name),
        }
    }

    /// Reads from the file. It stays open only after success, since after an error its place is not known.
    fn read_file(&mut self, name: &str, at: u64, into: &mut [u8]) -> io::Result<usize>
        ensures at_most { IfOk result (λ count. count ≤ length into.new) }
        ensures faults { self.new.faults ≡ self.old.faults }
    {
        match self.take_reading(name)? {
            Some(mut reading) => {
                let count = reading.read_at(at, into)?;
                self.reading = Some(reading);
                Ok(count)
            }
            None => Ok(0),
        }
    }

    /// Makes the file empty. Nothing stays open over it.
    fn create_file(&mut self, name: &str) -> io::Result<()>
        ensures { self.new.faults ≡ self.old.faults }
    {
        self.reading = None;
        self.appending = None;
        let path = self.path(name)?;
        if let Some(parent) = Path::new(path.as_str()).parent() {
            fs::create_dir_all(&self.rt, parent)?;
        }
        let _file = fs::create(&self.rt, path.as_str())?;
        Ok(())
    }

    /// Adds to the file. What was read ahead of this very file is forgotten.
    fn append_file(&mut self, name: &str, piece: &[u8]) -> io::Result<()>
        ensures { self.new.faults ≡ self.old.faults }
    {
        let mut appending = self.take_appending(name)?;
        if let Some(reading) = &self.reading {
            if reading.identity() == appending.identity() {
                self.reading = None;
            }
        }
        appending.append(piece)?;
        self.appending = Some(appending);
        Ok(())
    }

    /// Counts an error, and answers what it is to the caller.
    fn fault(&mut self, error: io::Error) -> ShelfErr
        ensures later { self.old.faults ≤ self.new.faults }
        ensures rose { Rose self.old.faults self.new.faults }
        ensures memory { (result ≡ ShelfErr.Memory) ↔ (error_kind error ≡ ErrorKind.OutOfMemory) }
    {
        self.faults = self.faults.saturating_add(1);
        if error.kind() == ErrorKind::OutOfMemory {
            ShelfErr::Memory
        } else {
            ShelfErr::Failed
        }
    }
}

/// `None` for a file that is not there.
fn none_if_missing<T>(error: io::Error) -> io::Result<Option<T>>
    ensures missing { IsOk result ↔ (error_kind error ≡ ErrorKind.NotFound) }
    ensures none { IfOk result (λ found. found ≡ None) }
    ensures others { IfErr result (λ same. same ≡ error) }
{
    if error.kind() == ErrorKind::NotFound {
        Ok(None)
    } else {
        Err(error)
    }
}

impl<R: Files + Drop> Drop for FolderShelf<R> {
    fn drop(self) {
        let FolderShelf {
            rt: _rt,
            folder: _folder,
            faults: _,
            reading: _reading,
            appending: _appending,
        } = self;
    }
}

impl<R: Files + AllocGlobal> Shelf for FolderShelf<R> {
    ghost told = { λ _. None };

    ghost faults = { λ s. s.faults };

    fn size(&mut self, name: &str) -> Result<Option<u64>, ShelfErr>
        ensures cause { HasCause self.old.faults self.new.faults result }
        ensures counted { OnErr result (Rose self.old.faults self.new.faults) }
        ensures uncounted { OnOk result (self.new.faults ≡ self.old.faults) }
    {
        match self.file_size(name) {
            Ok(size) => Ok(size),
            Err(error) => Err(self.fault(error)),
        }
    }

    fn read(&mut self, name: &str, at: u64, into: &mut [u8]) -> Result<usize, ShelfErr>
        ensures at_most { IfOk result (λ count. count ≤ length into.new) }
        ensures cause { HasCause self.old.faults self.new.faults result }
        ensures counted { OnErr result (Rose self.old.faults self.new.faults) }
        ensures uncounted { OnOk result (self.new.faults ≡ self.old.faults) }
    {
        match self.read_file(name, at, into) {
            Ok(count) => Ok(count),
            Err(error) => Err(self.fault(error)),
        }
    }

    fn create(&mut self, name: &str) -> Result<(), ShelfErr>
        ensures cause { HasCause self.old.faults self.new.faults result }
        ensures counted { OnErr result (Rose self.old.faults self.new.faults) }
        ensures uncounted { OnOk result (self.new.faults ≡ self.old.faults) }
    {
        match self.create_file(name) {
            Ok(()) => Ok(()),
            Err(error) => Err(self.fault(error)),
        }
    }

    fn append(&mut self, name: &str, piece: &[u8]) -> Result<(), ShelfErr>
        ensures cause { HasCause self.old.faults self.new.faults result }
        ensures counted { OnErr result (Rose self.old.faults self.new.faults) }
        ensures uncounted { OnOk result (self.new.faults ≡ self.old.faults) }
    {
        match self.append_file(name, piece) {
            Ok(()) => Ok(()),
            Err(error) => Err(self.fault(error)),
        }
    }
}

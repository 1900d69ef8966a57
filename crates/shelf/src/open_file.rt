ghost use Rattle.std.specs.Prelude.{◌≡◌, ◌≤◌, ◌↔◌, length, IfOk, IsErr, IsTrue, string_bytes};
ghost use Rattle.std.specs.Fs.{file_type, IsDir};

use std::alloc::Global;
use std::fs::{Metadata, OpenFile};
use std::io;
use std::io::{BufReader, ErrorKind, Read, Seek, SeekFrom, Write};
use std::os::unix::fs::MetadataExt;

/// Which file of the machine a file is, whatever name it was opened by.
#[derive(Clone, Copy, Debug, PartialEq, Eq)]
pub(crate) struct FileIdentity {
    device: u64,
    inode: u64,
}

/// A file that is being read. `place` is where the next byte stands that `file` gives.
pub(crate) struct Reading<F> {
    name: String,
    identity: FileIdentity,
    file: BufReader<F>,
    place: u64,
}

/// A file that is being added to.
pub(crate) struct Appending<F> {
    name: String,
    identity: FileIdentity,
    file: F,
}

impl<F: Read + Seek + OpenFile + Drop> Reading<F> {
    /// Reads a file from its start that was just opened under that name.
    pub(crate) fn new(alloc: Global, name: &str, file: F) -> io::Result<Reading<F>> {
        let identity = identity_of(&file)?;
        Ok(Reading {
            name: String::from_str(alloc, name)?,
            identity,
            file: BufReader::new(alloc, file)?,
            place: 0,
        })
    }

    /// Whether the file was opened under that name.
    pub(crate) fn is_named(&self, name: &str) -> bool
        ensures { IsTrue result ↔ (string_bytes self.now.name ≡ name.now) }
    {
        self.name.as_str() == name
    }

    pub(crate) fn identity(&self) -> FileIdentity
        ensures { result ≡ self.now.identity }
    {
        self.identity
    }

    /// Reads from that place on until the buffer is full or the file ends. In order it asks the system only
    /// where nothing is left that was read ahead. After an error the place is not known.
    pub(crate) fn read_at(&mut self, at: u64, into: &mut [u8]) -> io::Result<usize>
        ensures { IfOk result (λ count. count ≤ length into.new) }
    {
        if at != self.place {
            if at >= self.file.get_ref().metadata()?.len() {
                return Ok(0);
            }
            self.file.seek(SeekFrom::Start(at))?;
            self.place = at;
        }
        let count = fill(&mut self.file, into)?;
        self.place = self.place.saturating_add(count as u64);
        Ok(count)
    }
}

impl<F: Write + OpenFile + Drop> Appending<F> {
    /// Adds to a file that was just opened under that name.
    pub(crate) fn new(alloc: Global, name: &str, file: F) -> io::Result<Appending<F>> {
        let identity = identity_of(&file)?;
        Ok(Appending {
            name: String::from_str(alloc, name)?,
            identity,
            file,
        })
    }

    /// Whether the file was opened under that name.
    pub(crate) fn is_named(&self, name: &str) -> bool
        ensures { IsTrue result ↔ (string_bytes self.now.name ≡ name.now) }
    {
        self.name.as_str() == name
    }

    pub(crate) fn identity(&self) -> FileIdentity
        ensures { result ≡ self.now.identity }
    {
        self.identity
    }

    /// Writes the whole piece to the system.
    pub(crate) fn append(&mut self, piece: &[u8]) -> io::Result<()> {
        self.file.write_all(piece)?;
        Ok(())
    }
}

impl<F: Drop> Drop for Reading<F> {
    fn drop(self) {
        let Reading {
            name: _name,
            identity: _,
            file: _file,
            place: _,
        } = self;
    }
}

impl<F: Drop> Drop for Appending<F> {
    fn drop(self) {
        let Appending {
            name: _name,
            identity: _,
            file: _file,
        } = self;
    }
}

/// Which file an open file is. A folder can be opened for reading, and is refused here.
fn identity_of(file: &impl OpenFile) -> io::Result<FileIdentity> {
    let metadata = file.metadata()?;
    refuse_folder(&metadata)?;
    Ok(FileIdentity {
        device: metadata.dev(),
        inode: metadata.ino(),
    })
}

pub(crate) fn refuse_folder(metadata: &Metadata) -> io::Result<()>
    ensures { IsErr result ↔ IsDir (file_type metadata.now) }
{
    if metadata.is_dir() {
        Err(io::Error::from(ErrorKind::IsADirectory))
    } else {
        Ok(())
    }
}

/// Reads until the buffer is full or the file ends.
fn fill<F: Read>(file: &mut F, into: &mut [u8]) -> io::Result<usize>
    ensures { IfOk result (λ count. count ≤ length into.new) }
{
    let mut filled = 0;
    for _ in 0..u64::MAX {
        if filled >= into.len() {
            return Ok(filled);
        }
        match file.read(&mut into[filled..]) {
            Ok(0) => return Ok(filled),
            Ok(count) => filled += count,
            Err(error) => {
                if error.kind() != ErrorKind::Interrupted {
                    return Err(error);
                }
            }
        }
    }
    Ok(filled)
}

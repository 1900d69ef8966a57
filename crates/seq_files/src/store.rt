ghost use Rattle.std.specs.Prelude.{◌≡◌, ◌%◌, ◌<◌, ◌≤◌, length, take, drop, ◌++◌, option_map, slice_set, All, IfOk, IfErr, IfSome, IfNone, OnOk, OnErr};
ghost use Rattle.std.specs.List.{concat};
ghost use Rattle.program_meaning.specs.Files.{Closed, Done, disk_at, open_file, close_file, read_file, write_file, closed};
ghost use Rattle.seq_files.specs.Codes.{code};
ghost use Rattle.seq_files.specs.Disks.{read_mode, disks, missing_all, filled_disk, got_or};

use crate::held::HeldFile;
use crate::status::Status;
use cobol_syntax::Mode;
use data_layout::FileUse;
use std::alloc::Global;
use y2k_base::Memory;

/// The files of a portfolio, by their numbers from 0: what they hold and how they are open.
pub struct Store {
    alloc: Global,
    files: Vec<HeldFile>,
}

impl Drop for Store {
    fn drop(self) {
        let Store {
            alloc: _,
            files: _files,
        } = self;
    }
}

impl Store {
    /// A store of these files that holds none of them.
    pub fn new(alloc: Global, files: &[FileUse]) -> Result<Store, Memory>
        requires positive { All (λ file. 0 < file.length) files.now }
        ensures { IfOk result (λ store. disks store ≡ missing_all files.now) }
    {
        let mut held = Vec::with_capacity(alloc, files.len())?;
        for i in 0..files.len() {
            held.push(HeldFile::missing(files[i].length))?;
        }
        Ok(Store { alloc, files: held })
    }

    /// Sets the content of a closed file. The inner error is the number of bytes left over, where the length isn't a
    /// multiple of the length of its records; nothing is changed then.
    pub fn set(&mut self, file: u32, bytes: &[u8]) -> Result<Result<(), u32>, Memory>
        requires file { file < length (disks self.old) }
        requires closed { (disk_at (disks self.old) file).opening ≡ Closed }
        ensures set { IfOk result (λ set. OnOk set (disks self.new ≡ slice_set (disks self.old) file (filled_disk (disk_at (disks self.old) file).length bytes.now))) }
        ensures whole { IfOk result (λ set. OnOk set (length bytes.now % (disk_at (disks self.old) file).length ≡ 0)) }
        ensures left { IfOk result (λ set. IfErr set (λ left. (left ≡ length bytes.now % (disk_at (disks self.old) file).length) × (0 < left))) }
        ensures same { IfOk result (λ set. OnErr set (disks self.new ≡ disks self.old)) }
        ensures err { OnErr result (disks self.new ≡ disks self.old) }
    {
        let alloc = self.alloc;
        self.files[file as usize].set(alloc, bytes)
    }

    /// The bytes of a file's records, one after the other, if it is there.
    pub fn bytes(&self, file: u32) -> Option<&[u8]>
        requires file { file < length (disks self.now) }
        ensures { option_map (λ bytes. bytes.now) result ≡ option_map concat (disk_at (disks self.now) file).records }
    {
        self.files[file as usize].bytes()
    }

    /// How many bytes a record of a file has; `None` where no file has the number.
    pub fn record_length(&self, file: u32) -> Option<u32>
        ensures length { IfSome result (λ bytes. bytes ≡ (disk_at (disks self.now) file).length) }
        ensures there { IfSome result (λ bytes. file < length (disks self.now)) }
        ensures none { IfNone result (file < length (disks self.now) → ⊥) }
    {
        match self.files.get(file as usize) {
            Some(held) => Some(held.record_length()),
            None => None,
        }
    }

    /// OPEN. OUTPUT empties the file; the status of a missing one is 35 for INPUT and EXTEND.
    pub fn open(&mut self, file: u32, mode: Mode) -> Status
        requires file { file < length (disks self.old) }
        ensures status { code result ≡ (open_file (disk_at (disks self.old) file) (read_mode mode)).status }
        ensures disk { disks self.new ≡ slice_set (disks self.old) file (open_file (disk_at (disks self.old) file) (read_mode mode)).disk }
    {
        let alloc = self.alloc;
        self.files[file as usize].open(alloc, mode)
    }

    /// READ of the next record into room for one, which keeps its bytes where the status isn't 00.
    pub fn read(&mut self, file: u32, into: &mut [u8]) -> Status
        requires file { file < length (disks self.old) }
        requires room { length into.old ≡ (disk_at (disks self.old) file).length }
        ensures status { code result ≡ (read_file (disk_at (disks self.old) file)).status }
        ensures disk { disks self.new ≡ slice_set (disks self.old) file (read_file (disk_at (disks self.old) file)).disk }
        ensures got { into.new ≡ got_or into.old (read_file (disk_at (disks self.old) file)).got }
    {
        self.files[file as usize].read(into)
    }

    /// WRITE of a record of at most the file's record length; a shorter one is filled with spaces.
    pub fn write(&mut self, file: u32, bytes: &[u8]) -> Result<Status, Memory>
        requires file { file < length (disks self.old) }
        requires room { length bytes.now ≤ (disk_at (disks self.old) file).length }
        ensures status { IfOk result (λ status. code status ≡ (write_file (disk_at (disks self.old) file) bytes.now).status) }
        ensures disk { OnOk result (disks self.new ≡ slice_set (disks self.old) file (write_file (disk_at (disks self.old) file) bytes.now).disk) }
        ensures err { OnErr result (disks self.new ≡ disks self.old) }
    {
        let alloc = self.alloc;
        self.files[file as usize].write(alloc, bytes)
    }

    /// CLOSE.
    pub fn close(&mut self, file: u32) -> Status
        requires file { file < length (disks self.old) }
        ensures status { code result ≡ (close_file (disk_at (disks self.old) file)).status }
        ensures disk { disks self.new ≡ slice_set (disks self.old) file (close_file (disk_at (disks self.old) file)).disk }
    {
        self.files[file as usize].close()
    }

    /// Closes all files, as a program's end does.
    pub fn close_all(&mut self)
        ensures { disks self.new ≡ closed (disks self.old) }
    {
        for i in 0..self.files.len() {
            self.files[i].shut();
        }
    }
}

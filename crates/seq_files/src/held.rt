ghost use Rattle.std.specs.Prelude.{◌≡◌, ◌+◌, ◌%◌, ◌^◌, ◌<◌, ◌≤◌, [], ◌∷◌, ◌++◌, length, drop, IfOk, IfErr, IfSome, OnOk, OnErr, IfNone};
ghost use Rattle.byte_lists.specs.Records.{records_of};
ghost use Rattle.byte_lists.specs.Text.{copied};
ghost use Rattle.seq_files.specs.Bytes.{bytes_in};

use crate::status::Status;
use cobol_syntax::Mode;
use std::alloc::Global;
use y2k_base::{Bytes, List, Memory};

/// How a file is open: closed; for input, with the offset of the next record, and whether a READ has met the end;
/// or for output or extension.
#[derive(Clone, Copy, Debug, PartialEq, Eq)]
pub(crate) enum OpenState {
    Closed,
    Reading { next: usize, ended: bool },
    Writing,
}

/// A file: how many bytes a record has, the bytes of all records, if the file is there, and how it is open.
pub(crate) struct HeldFile {
    size: usize,
    bytes: Option<Bytes>,
    state: OpenState,
    ghost positive: { 0 < size },
    ghost small: { size < 2 ^ 32 },
    ghost whole: { length (bytes_in bytes) % size ≡ 0 },
}

impl Drop for HeldFile {
    fn drop(self) {
        let HeldFile {
            size: _,
            bytes: _bytes,
            state: _,
        } = self;
    }
}

impl HeldFile {
    ghost use Rattle.std.specs.Prelude.{Some, option_map};
    ghost use Rattle.std.specs.List.{concat};
    ghost use Rattle.program_meaning.specs.Files.{Closed, open_file, open_closed, close_file, read_file, read_next, write_file, with_opening, with_records, records_in};
    ghost use Rattle.seq_files.specs.Codes.{code};
    ghost use Rattle.seq_files.specs.Disks.{read_mode, disk, missing, filled_disk, got_or, open_status, open_state};
    ghost use Rattle.seq_files.specs.declared.held.OpenState.TheVariants as state;

    /// A file that isn't there.
    pub(crate) fn missing(size: u32) -> HeldFile
        requires positive { 0 < size }
        ensures { disk result ≡ missing size }
    {
        HeldFile {
            size: size as usize,
            bytes: None,
            state: OpenState::Closed,
        }
    }

    /// How many bytes a record has.
    pub(crate) fn record_length(&self) -> u32
        ensures { result ≡ (disk self.now).length }
    {
        self.size as u32
    }

    /// The bytes of all records.
    pub(crate) fn bytes(&self) -> Option<&[u8]>
        ensures bytes { option_map (λ bytes. bytes.now) result ≡ self.now.bytes }
        ensures records { option_map (λ bytes. bytes.now) result ≡ option_map concat (disk self.now).records }
    {
        self.bytes.as_ref().map(|bytes| bytes.items())
    }

    /// The bytes, none where the file isn't there.
    fn all_bytes(&self) -> &[u8]
        ensures { result.now ≡ bytes_in self.now.bytes }
    {
        match &self.bytes {
            Some(bytes) => bytes.items(),
            None => &[],
        }
    }

    /// Holds these bytes from now on, unless some are left over, whose number it answers.
    pub(crate) fn set(&mut self, alloc: Global, bytes: &[u8]) -> Result<Result<(), u32>, Memory>
        requires closed { (disk self.old).opening ≡ Closed }
        ensures set { IfOk result (λ set. OnOk set (disk self.new ≡ filled_disk self.old.size bytes.now)) }
        ensures whole { IfOk result (λ set. OnOk set (length bytes.now % self.old.size ≡ 0)) }
        ensures left { IfOk result (λ set. IfErr set (λ left. (left ≡ length bytes.now % self.old.size) × (0 < left))) }
        ensures same { IfOk result (λ set. OnErr set (disk self.new ≡ disk self.old)) }
        ensures err { OnErr result (disk self.new ≡ disk self.old) }
    {
        let left = bytes.len() % self.size;
        if left > 0 {
            return Ok(Err(left as u32));
        }
        let copy = Vec::from_slice(alloc, bytes)?;
        self.bytes = Some(List::from_vec(copy));
        Ok(Ok(()))
    }

    /// OPEN.
    pub(crate) fn open(&mut self, alloc: Global, mode: Mode) -> Status
        ensures status { code result ≡ (open_file (disk self.old) (read_mode mode)).status }
        ensures disk { disk self.new ≡ (open_file (disk self.old) (read_mode mode)).disk }
    {
        match self.state {
            OpenState::Closed => self.open_closed(alloc, mode),
            OpenState::Reading { .. } => Status::S41,
            OpenState::Writing => Status::S41,
        }
    }

    /// OPEN of a closed file.
    fn open_closed(&mut self, alloc: Global, mode: Mode) -> Status
        requires closed { self.old.state ≡ state.Closed }
        ensures status { code result ≡ (open_closed (disk self.old) (read_mode mode) (disk self.old).records).status }
        ensures disk { disk self.new ≡ (open_closed (disk self.old) (read_mode mode) (disk self.old).records).disk }
    {
        match mode {
            Mode::Input => self.open_held(OpenState::Reading {
                next: 0,
                ended: false,
            }),
            Mode::Output => {
                self.bytes = Some(List::new(alloc));
                self.state = OpenState::Writing;
                Status::S00
            }
            Mode::Extend => self.open_held(OpenState::Writing),
        }
    }

    /// Opens a file that must be there.
    fn open_held(&mut self, state: OpenState) -> Status
        ensures status { code result ≡ open_status self.old.bytes }
        ensures bytes { self.new.bytes ≡ self.old.bytes }
        ensures size { self.new.size ≡ self.old.size }
        ensures state { self.new.state ≡ open_state self.old.bytes state self.old.state }
    {
        if self.bytes.is_none() {
            return Status::S35;
        }
        self.state = state;
        Status::S00
    }

    /// CLOSE.
    pub(crate) fn close(&mut self) -> Status
        ensures status { code result ≡ (close_file (disk self.old)).status }
        ensures disk { disk self.new ≡ (close_file (disk self.old)).disk }
    {
        match self.state {
            OpenState::Closed => Status::S42,
            OpenState::Reading { .. } => self.shut(),
            OpenState::Writing => self.shut(),
        }
    }

    /// Closes the file, open or not.
    pub(crate) fn shut(&mut self) -> Status
        ensures status { code result ≡ 0 }
        ensures disk { disk self.new ≡ with_opening (disk self.old) Closed }
    {
        self.state = OpenState::Closed;
        Status::S00
    }

    /// READ of the next record into room for one.
    pub(crate) fn read(&mut self, into: &mut [u8]) -> Status
        requires room { length into.old ≡ self.old.size }
        ensures status { code result ≡ (read_file (disk self.old)).status }
        ensures disk { disk self.new ≡ (read_file (disk self.old)).disk }
        ensures got { into.new ≡ got_or into.old (read_file (disk self.old)).got }
    {
        match self.state {
            OpenState::Closed => Status::S47,
            OpenState::Writing => Status::S47,
            OpenState::Reading { next, ended } => self.read_from(next, ended, into),
        }
    }

    /// READ of the record at an offset.
    fn read_from(&mut self, next: usize, ended: bool, into: &mut [u8]) -> Status
        requires room { length into.old ≡ self.old.size }
        requires state { self.old.state ≡ state.Reading next ended }
        ensures status { code result ≡ (read_next (disk self.old) (records_of self.old.size (drop next (bytes_in self.old.bytes))) ended).status }
        ensures disk { disk self.new ≡ (read_next (disk self.old) (records_of self.old.size (drop next (bytes_in self.old.bytes))) ended).disk }
        ensures got { into.new ≡ got_or into.old (read_next (disk self.old) (records_of self.old.size (drop next (bytes_in self.old.bytes))) ended).got }
    {
        if ended {
            return Status::S46;
        }
        match record_at(self.all_bytes(), next, self.size) {
            Some(record) => {
                into.copy_from_slice(record);
                self.state = OpenState::Reading {
                    next: next + self.size,
                    ended: false,
                };
                Status::S00
            }
            None => {
                self.state = OpenState::Reading { next, ended: true };
                Status::S10
            }
        }
    }

    /// WRITE of a record, which is filled with spaces.
    pub(crate) fn write(&mut self, alloc: Global, bytes: &[u8]) -> Result<Status, Memory>
        requires room { length bytes.now ≤ self.old.size }
        ensures status { IfOk result (λ status. code status ≡ (write_file (disk self.old) bytes.now).status) }
        ensures disk { OnOk result (disk self.new ≡ (write_file (disk self.old) bytes.now).disk) }
        ensures err { OnErr result (disk self.new ≡ disk self.old) }
    {
        match self.state {
            OpenState::Closed => Ok(Status::S48),
            OpenState::Reading { .. } => Ok(Status::S48),
            OpenState::Writing => {
                let row = filled_record(alloc, bytes, self.size)?;
                self.push(row)?;
                Ok(Status::S00)
            }
        }
    }

    /// One record more.
    fn push(&mut self, row: Bytes) -> Result<(), Memory>
        requires size { length row ≡ self.old.size }
        requires state { self.old.state ≡ state.Writing }
        ensures ok { OnOk result (disk self.new ≡ with_records (disk self.old) (records_in (disk self.old).records ++ row ∷ [])) }
        ensures err { OnErr result (disk self.new ≡ disk self.old) }
    {
        match &mut self.bytes {
            Some(bytes) => bytes.append(row.items())?,
            None => self.bytes = Some(row),
        }
        Ok(())
    }
}

/// The record at an offset, if a whole one is left.
fn record_at(bytes: &[u8], next: usize, size: usize) -> Option<&[u8]>
    requires positive { 0 < size }
    ensures found { IfSome result (λ row. records_of size (drop next bytes.now) ≡ row.now ∷ records_of size (drop (next + size) bytes.now)) }
    ensures within { IfSome result (λ row. next + size ≤ length bytes.now) }
    ensures size { IfSome result (λ row. length row.now ≡ size) }
    ensures end { IfNone result (records_of size (drop next bytes.now) ≡ []) }
{
    if bytes.len().saturating_sub(next) < size {
        return None;
    }
    Some(&bytes[next..next + size])
}

/// A record, filled with spaces to its size.
fn filled_record(alloc: Global, bytes: &[u8], size: usize) -> Result<Bytes, Memory>
    requires room { length bytes.now ≤ size }
    ensures filled { IfOk result (λ row. row ≡ copied size bytes.now) }
    ensures size { IfOk result (λ row. length row ≡ size) }
{
    let spaces = vec![in alloc; b' '; size - bytes.len()]?;
    let mut row = List::new(alloc);
    row.append(bytes)?;
    row.append(spaces.as_slice())?;
    Ok(row)
}

ghost use Rattle.std.specs.Prelude.{◌≡◌, IfOk};
ghost use Rattle.program_reader.specs.Programs as spec;
ghost use Rattle.program_reader.specs.View.{view_of};
ghost use Rattle.program_reader.specs.Whole as whole;

use crate::term::Term;
use crate::text::{Outcome, Units};
use cobol_syntax::{Entry, FileEntry, Paragraph, Program, Select};
use cond_reader::Symbol;
use y2k_base::{Bytes, List, Word};

/// What the data division says: the FDs with their records, and the entries of working storage.
pub struct Data {
    pub files: List<FileEntry>,
    pub storage: List<Entry>,
}

impl Drop for Data {
    fn drop(self) {
        let Data {
            files: _files,
            storage: _storage,
        } = self;
    }
}

impl Data {
    /// The program with this data division.
    pub fn program(
        self,
        words: List<Word>,
        id: Bytes,
        selects: List<Select>,
        paragraphs: List<Paragraph>,
    ) -> Program
        ensures { result ≡ whole.program_of words id selects self paragraphs }
    {
        let Data { files, storage } = self;
        Program {
            id,
            words,
            selects,
            files,
            storage,
            paragraphs,
        }
    }
}

/// The FD with these entries under it.
fn with_entries(mut file: FileEntry, entries: List<Entry>) -> FileEntry
    ensures { result ≡ spec.with_entries file entries }
{
    file.entries = entries;
    file
}

impl<'a> Units<'a> {
    /// One more entry.
    #[tactic(auto, unfolding(crate::specs::Programs::next_entry))]
    fn next_entry(&self, mut entries: List<Entry>, at: u32) -> Outcome<List<Entry>>
        ensures { IfOk result (λ r. r ≡ spec.next_entry (view_of self.now) entries at) }
    {
        match self.entry_unit(at)? {
            Err(refused) => Ok(Err(refused)),
            Ok((entry, next)) => {
                entries.push(entry)?;
                Ok(Ok((entries, next)))
            }
        }
    }

    /// The entries read so far, and those from here on.
    #[tactic(auto, unfolding(crate::specs::Programs::more_entries))]
    fn more_entries(&self, mut entries: List<Entry>, mut at: u32) -> Outcome<List<Entry>>
        ensures { IfOk result (λ r. r ≡ spec.more_entries (view_of self.now) entries at) }
    {
        for _turn in 0..self.terms.len() {
            if !self.parts.sees(Symbol::Number, at) {
                return Ok(Ok((entries, at)));
            }
            match self.next_entry(entries, at)? {
                Err(refused) => return Ok(Err(refused)),
                Ok((more, next)) => {
                    entries = more;
                    at = next;
                }
            }
        }
        Ok(Ok((entries, at)))
    }

    /// The entries under an FD: one, and those after it.
    #[tactic(auto, unfolding(crate::specs::Programs::records))]
    fn records_under(&self, file: FileEntry, at: u32) -> Outcome<FileEntry>
        ensures { IfOk result (λ r. r ≡ spec.records (view_of self.now) file at) }
    {
        match self.next_entry(List::new(self.parts.alloc), at)? {
            Err(refused) => Ok(Err(refused)),
            Ok((first, next)) => match self.more_entries(first, next)? {
                Err(refused) => Ok(Err(refused)),
                Ok((entries, end)) => Ok(Ok((with_entries(file, entries), end))),
            },
        }
    }

    /// An FD with the entries under it.
    #[tactic(auto, unfolding(crate::specs::Programs::file_with_records))]
    fn file_with_records(&self, at: u32) -> Outcome<FileEntry>
        ensures { IfOk result (λ r. r ≡ spec.file_with_records (view_of self.now) at) }
    {
        match self.file_unit(at)? {
            Err(refused) => Ok(Err(refused)),
            Ok((file, next)) => self.records_under(file, next),
        }
    }

    /// One more FD.
    #[tactic(auto, unfolding(crate::specs::Programs::next_file))]
    fn next_file(&self, mut files: List<FileEntry>, at: u32) -> Outcome<List<FileEntry>>
        ensures { IfOk result (λ r. r ≡ spec.next_file (view_of self.now) files at) }
    {
        match self.file_with_records(at)? {
            Err(refused) => Ok(Err(refused)),
            Ok((file, next)) => {
                files.push(file)?;
                Ok(Ok((files, next)))
            }
        }
    }

    /// The FDs read so far, and those from here on.
    #[tactic(auto, unfolding(crate::specs::Programs::more_files))]
    fn more_files(&self, mut files: List<FileEntry>, mut at: u32) -> Outcome<List<FileEntry>>
        ensures { IfOk result (λ r. r ≡ spec.more_files (view_of self.now) files at) }
    {
        for _turn in 0..self.terms.len() {
            if !self.has(Term::Fd, at) {
                return Ok(Ok((files, at)));
            }
            match self.next_file(files, at)? {
                Err(refused) => return Ok(Err(refused)),
                Ok((more, next)) => {
                    files = more;
                    at = next;
                }
            }
        }
        Ok(Ok((files, at)))
    }

    /// The file section, if it is written.
    #[tactic(auto, unfolding(crate::specs::Programs::file_section))]
    fn file_section(&self, at: u32) -> Outcome<List<FileEntry>>
        ensures { IfOk result (λ r. r ≡ spec.file_section (view_of self.now) at) }
    {
        let files = List::new(self.parts.alloc);
        match self.headers(Term::File, Term::Section, at) {
            None => Ok(Ok((files, at))),
            Some(next) => self.more_files(files, next),
        }
    }

    /// The working-storage section, if it is written.
    #[tactic(auto, unfolding(crate::specs::Programs::storage_section))]
    fn storage_section(&self, at: u32) -> Outcome<List<Entry>>
        ensures { IfOk result (λ r. r ≡ spec.storage_section (view_of self.now) at) }
    {
        let entries = List::new(self.parts.alloc);
        match self.headers(Term::WorkingStorage, Term::Section, at) {
            None => Ok(Ok((entries, at))),
            Some(next) => self.more_entries(entries, next),
        }
    }

    /// The sections of the data division.
    #[tactic(auto, unfolding(crate::specs::Programs::data_sections))]
    fn data_sections(&self, at: u32) -> Outcome<Data>
        ensures { IfOk result (λ r. r ≡ spec.data_sections (view_of self.now) at) }
    {
        match self.file_section(at)? {
            Err(refused) => Ok(Err(refused)),
            Ok((files, next)) => match self.storage_section(next)? {
                Err(refused) => Ok(Err(refused)),
                Ok((storage, end)) => Ok(Ok((Data { files, storage }, end))),
            },
        }
    }

    /// The data division, if it is written.
    #[tactic(auto, unfolding(crate::specs::Programs::data_division))]
    pub fn data_division(&self, at: u32) -> Outcome<Data>
        ensures { IfOk result (λ r. r ≡ spec.data_division (view_of self.now) at) }
    {
        match self.headers(Term::Data, Term::Division, at) {
            None => {
                let files = List::new(self.parts.alloc);
                let storage = List::new(self.parts.alloc);
                Ok(Ok((Data { files, storage }, at)))
            }
            Some(next) => self.data_sections(next),
        }
    }
}

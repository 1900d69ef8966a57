ghost use Rattle.std.specs.Prelude.{◌≡◌, IfOk};
ghost use Rattle.program_reader.specs.Programs as spec;
ghost use Rattle.program_reader.specs.View.{view_of};

use crate::entry::Draft;
use crate::fault::Refused;
use crate::reading::Reading;
use crate::text::{Outcome, Units};
use cobol_syntax::{Entry, FileEntry, Select};
use y2k_base::{Bytes, Memory, Twin};

/// The position of the next unit, or why the first unit that can't be read has no reading.
pub type Passed = Result<Result<u32, Refused>, Memory>;

impl<'a> Units<'a> {
    /// A header that must stand at a position, as it was found there.
    #[tactic(auto, unfolding(crate::specs::Programs::required))]
    pub fn required(&self, found: Option<u32>, at: u32) -> Passed
        ensures { IfOk result (λ r. r ≡ spec.required (view_of self.now) found at) }
    {
        match found {
            Some(next) => Ok(Ok(next)),
            None => Ok(Err(self.fault(at))),
        }
    }

    /// A unit of one name.
    #[tactic(auto, unfolding(crate::specs::Programs::name_unit))]
    pub fn name_unit(&self, at: u32) -> Outcome<Bytes>
        ensures { IfOk result (λ r. r ≡ spec.name_unit (view_of self.now) at) }
    {
        match self.named(at)? {
            Some(found) => Ok(Ok(found)),
            None => Ok(Err(self.fault(at))),
        }
    }

    /// A SELECT entry.
    #[tactic(auto, unfolding(crate::specs::Programs::select_unit))]
    pub fn select_unit(&self, at: u32) -> Outcome<Select>
        ensures { IfOk result (λ r. r ≡ spec.select_unit (view_of self.now) at) }
    {
        match self.select(at)? {
            Some(found) => Ok(Ok(found)),
            None => Ok(Err(self.fault(at))),
        }
    }

    /// An FD entry, without the entries under it.
    #[tactic(auto, unfolding(crate::specs::Programs::file_unit))]
    pub fn file_unit(&self, at: u32) -> Outcome<FileEntry>
        ensures { IfOk result (λ r. r ≡ spec.file_unit (view_of self.now) at) }
    {
        match self.file(at)? {
            Some(found) => Ok(Ok(found)),
            None => Ok(Err(self.fault(at))),
        }
    }

    /// The entry with what its PICTURE string reads as.
    #[tactic(auto, unfolding(crate::specs::Programs::with_picture))]
    fn with_picture(&self, mut entry: Entry) -> Result<Result<Entry, Refused>, Memory>
        ensures { IfOk result (λ r. r ≡ spec.with_picture (view_of self.now) entry) }
    {
        match self.readings.get(entry.picture_at as usize) {
            None => Ok(Ok(entry)),
            Some(reading) => match reading {
                Reading::Plain => Ok(Ok(entry)),
                Reading::Picture(picture) => {
                    entry.picture = Some(picture.twin(self.parts.alloc)?);
                    Ok(Ok(entry))
                }
                Reading::Refused(refused) => Ok(Err(*refused)),
            },
        }
    }

    /// The entry of a draft, with its picture if a PICTURE clause was read.
    #[tactic(auto, unfolding(crate::specs::Programs::pictured))]
    fn pictured(&self, draft: Draft) -> Result<Result<Entry, Refused>, Memory>
        ensures { IfOk result (λ r. r ≡ spec.pictured (view_of self.now) draft) }
    {
        let Draft {
            entry,
            has_picture,
            has_usage: _,
            has_sign: _,
        } = draft;
        if has_picture {
            self.with_picture(entry)
        } else {
            Ok(Ok(entry))
        }
    }

    /// A data description entry.
    #[tactic(auto, unfolding(crate::specs::Programs::entry_unit))]
    pub fn entry_unit(&self, at: u32) -> Outcome<Entry>
        ensures { IfOk result (λ r. r ≡ spec.entry_unit (view_of self.now) at) }
    {
        match self.entry(at)? {
            None => Ok(Err(self.fault(at))),
            Some((draft, next)) => match self.pictured(draft)? {
                Err(refused) => Ok(Err(refused)),
                Ok(entry) => Ok(Ok((entry, next))),
            },
        }
    }
}

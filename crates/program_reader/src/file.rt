ghost use Rattle.std.specs.Prelude.{◌≡◌, IfOk};
ghost use Rattle.program_reader.specs.Files as spec;
ghost use Rattle.program_reader.specs.View.{view_of};

use crate::term::Term;
use crate::text::Units;
use cobol_syntax::{FileEntry, Operand};
use cond_reader::{Found, Symbol};
use y2k_base::{Bytes, List, Memory};

/// A clause of an FD entry. Only RECORD CONTAINS has an effect.
pub enum FilePart {
    Idle,
    Contains(Operand),
}

impl Drop for FilePart {
    fn drop(self) {
        match self {
            FilePart::Idle => {}
            FilePart::Contains(_operand) => {}
        }
    }
}

impl FilePart {
    /// The number of this clause, or else the other one.
    fn into_contains(self, contains: Option<Operand>) -> Option<Operand>
        ensures { result ≡ spec.with_file_part contains self }
    {
        match self {
            FilePart::Idle => contains,
            FilePart::Contains(operand) => Some(operand),
        }
    }

    /// Whether the clause may stand where RECORD CONTAINS was read or not.
    fn is_second(&self, contains: &Option<Operand>) -> bool
        ensures { result ≡ spec.is_second contains.now self.now }
    {
        match self {
            FilePart::Idle => false,
            FilePart::Contains(_) => contains.is_some(),
        }
    }
}

impl<'a> Units<'a> {
    /// The position after one of two words.
    #[tactic(auto, unfolding(crate::specs::Files::past_one))]
    fn past_one(&self, first: Term, second: Term, at: u32) -> Option<u32>
        ensures { result ≡ spec.past_one (view_of self.now) first second at }
    {
        if self.has(first, at) || self.has(second, at) {
            Some(at + 1)
        } else {
            None
        }
    }

    /// The position after one of two words, or the same where neither stands.
    #[tactic(auto, unfolding(crate::specs::Files::past_any))]
    fn past_any(&self, first: Term, second: Term, at: u32) -> u32
        ensures { result ≡ spec.past_any (view_of self.now) first second at }
    {
        match self.past_one(first, second, at) {
            None => at,
            Some(next) => next,
        }
    }

    /// RECORD or RECORDS, and an optional IS or ARE.
    #[tactic(auto, unfolding(crate::specs::Files::records))]
    fn records(&self, at: u32) -> Option<u32>
        ensures { result ≡ spec.records (view_of self.now) at }
    {
        match self.past_one(Term::Record, Term::Records, at) {
            None => None,
            Some(next) => Some(self.past_is_or_are(next)),
        }
    }

    /// LABEL RECORDS, after LABEL.
    #[tactic(auto, unfolding(crate::specs::Files::label))]
    fn label(&self, at: u32) -> Option<u32>
        ensures { result ≡ spec.label (view_of self.now) at }
    {
        match self.records(at) {
            None => None,
            Some(next) => self.past_one(Term::Standard, Term::Omitted, next),
        }
    }

    /// BLOCK CONTAINS, after BLOCK.
    #[tactic(auto, unfolding(crate::specs::Files::block))]
    fn block(&self, at: u32) -> Option<u32>
        ensures { result ≡ spec.block (view_of self.now) at }
    {
        match self.count(self.past(Term::Contains, at)) {
            None => None,
            Some((_, next)) => Some(self.past_any(Term::Records, Term::Characters, next)),
        }
    }

    /// RECORDING MODE, after RECORDING.
    #[tactic(auto, unfolding(crate::specs::Files::recording))]
    fn recording(&self, at: u32) -> Option<u32>
        ensures { result ≡ spec.recording (view_of self.now) at }
    {
        let next = self.past_is(self.past(Term::Mode, at));
        if self.has(Term::Fixed, next) {
            Some(next + 1)
        } else {
            None
        }
    }

    /// The position after the names from here on.
    #[tactic(auto, unfolding(crate::specs::Files::past_names))]
    fn past_names(&self, mut at: u32) -> u32
        ensures { result ≡ spec.past_names (view_of self.now) at }
    {
        for _turn in 0..self.terms.len() {
            if !self.parts.sees(Symbol::Name, at) {
                return at;
            }
            at += 1;
        }
        at
    }

    /// DATA RECORDS, after DATA.
    #[tactic(auto, unfolding(crate::specs::Files::data_records))]
    fn data_records(&self, at: u32) -> Option<u32>
        ensures { result ≡ spec.data_records (view_of self.now) at }
    {
        match self.records(at) {
            None => None,
            Some(next) => {
                if self.parts.sees(Symbol::Name, next) {
                    Some(self.past_names(next + 1))
                } else {
                    None
                }
            }
        }
    }

    /// A clause without effect.
    #[tactic(auto, unfolding(crate::specs::Files::idle_part))]
    fn idle_part(&self, at: u32) -> Option<u32>
        ensures { result ≡ spec.idle_part (view_of self.now) at }
    {
        if self.has(Term::Label, at) {
            self.label(at + 1)
        } else if self.has(Term::Block, at) {
            self.block(at + 1)
        } else if self.has(Term::Data, at) {
            self.data_records(at + 1)
        } else if self.has(Term::Recording, at) {
            self.recording(at + 1)
        } else {
            None
        }
    }

    /// RECORD CONTAINS, after RECORD. Its number is one of digits alone.
    #[tactic(auto, unfolding(crate::specs::Files::record_contains))]
    fn record_contains(&self, at: u32) -> Found<FilePart>
        ensures { IfOk result (λ r. r ≡ spec.record_contains (view_of self.now) at) }
    {
        let start = self.past(Term::Contains, at);
        match self.count(start) {
            None => Ok(None),
            Some(_) => match self.parts.constant(start)? {
                None => Ok(None),
                Some((number, next)) => {
                    Ok(Some((
                        FilePart::Contains(number),
                        self.past(Term::Characters, next),
                    )))
                }
            },
        }
    }

    /// A clause of an FD entry.
    #[tactic(auto, unfolding(crate::specs::Files::file_part))]
    fn file_part(&self, at: u32) -> Found<FilePart>
        ensures { IfOk result (λ r. r ≡ spec.file_part (view_of self.now) at) }
    {
        if self.has(Term::Record, at) {
            self.record_contains(at + 1)
        } else {
            match self.idle_part(at) {
                None => Ok(None),
                Some(next) => Ok(Some((FilePart::Idle, next))),
            }
        }
    }

    /// A clause of an FD entry that is no second RECORD CONTAINS.
    #[tactic(auto, unfolding(crate::specs::Files::next_file_part))]
    fn next_file_part(&self, contains: &Option<Operand>, at: u32) -> Found<FilePart>
        ensures { IfOk result (λ r. r ≡ spec.next_file_part (view_of self.now) contains.now at) }
    {
        match self.file_part(at)? {
            None => Ok(None),
            Some((part, next)) => {
                if part.is_second(contains) {
                    Ok(None)
                } else {
                    Ok(Some((part, next)))
                }
            }
        }
    }

    /// The number of RECORD CONTAINS as read so far, after the clauses from here on.
    #[tactic(auto, unfolding(crate::specs::Files::more_file_parts))]
    fn more_file_parts(
        &self,
        mut contains: Option<Operand>,
        mut at: u32,
    ) -> Result<(Option<Operand>, u32), Memory>
        ensures { IfOk result (λ r. r ≡ spec.more_file_parts (view_of self.now) contains at) }
    {
        for _turn in 0..self.terms.len() {
            match self.next_file_part(&contains, at)? {
                None => return Ok((contains, at)),
                Some((part, next)) => {
                    contains = part.into_contains(contains);
                    at = next;
                }
            }
        }
        Ok((contains, at))
    }

    /// The clauses and the period of an FD entry that begins at `begin`, after its name.
    #[tactic(auto, unfolding(crate::specs::Files::file_rest))]
    fn file_rest(&self, name: Bytes, begin: u32, at: u32) -> Found<FileEntry>
        ensures { IfOk result (λ r. r ≡ spec.file_rest (view_of self.now) name begin at) }
    {
        let (contains, next) = self.more_file_parts(None, at)?;
        match self.ended(next) {
            None => Ok(None),
            Some(end) => {
                let entries = List::new(self.parts.alloc);
                Ok(Some((
                    FileEntry {
                        name,
                        contains,
                        entries,
                        at: begin,
                    },
                    end,
                )))
            }
        }
    }

    /// An FD entry, without the entries under it.
    #[tactic(auto, unfolding(crate::specs::Files::file))]
    pub fn file(&self, at: u32) -> Found<FileEntry>
        ensures { IfOk result (λ r. r ≡ spec.file (view_of self.now) at) }
    {
        if !self.has(Term::Fd, at) {
            return Ok(None);
        }
        match self.parts.name(at + 1)? {
            None => Ok(None),
            Some((name, next)) => self.file_rest(name, at, next),
        }
    }
}

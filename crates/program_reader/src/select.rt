ghost use Rattle.std.specs.Prelude.{◌≡◌, IfOk};
ghost use Rattle.program_reader.specs.Selects as spec;
ghost use Rattle.program_reader.specs.View.{view_of};

use crate::term::Term;
use crate::text::{LEVELS, Units};
use cobol_syntax::{Place, Select};
use cond_reader::{Found, Symbol};
use y2k_base::{Bytes, Memory, Twin};

/// A clause of a SELECT entry.
pub enum SelectPart {
    Organization,
    Access,
    Status(Place),
}

/// The clauses of a SELECT entry that were read.
pub struct SelectParts {
    pub is_organized: bool,
    pub is_accessed: bool,
    pub status: Option<Place>,
}

impl Drop for SelectPart {
    fn drop(self) {
        match self {
            SelectPart::Organization => {}
            SelectPart::Access => {}
            SelectPart::Status(_place) => {}
        }
    }
}

impl Drop for SelectParts {
    fn drop(self) {
        let SelectParts {
            is_organized: _,
            is_accessed: _,
            status: _status,
        } = self;
    }
}

impl SelectParts {
    /// Whether a clause of this kind was read.
    fn has(&self, part: &SelectPart) -> bool
        ensures { result ≡ spec.has_part self.now part.now }
    {
        match part {
            SelectPart::Organization => self.is_organized,
            SelectPart::Access => self.is_accessed,
            SelectPart::Status(_) => self.status.is_some(),
        }
    }

    /// The item of FILE STATUS.
    fn into_status(self) -> Option<Place>
        ensures { result ≡ self.status }
    {
        let SelectParts {
            is_organized: _,
            is_accessed: _,
            status,
        } = self;
        status
    }
}

impl SelectPart {
    /// These clauses and this one.
    fn beside(self, mut parts: SelectParts) -> SelectParts
        ensures { result ≡ spec.with_part parts self }
    {
        match self {
            SelectPart::Organization => {
                parts.is_organized = true;
                parts
            }
            SelectPart::Access => {
                parts.is_accessed = true;
                parts
            }
            SelectPart::Status(place) => {
                parts.status = Some(place);
                parts
            }
        }
    }
}

impl<'a> Units<'a> {
    /// SEQUENTIAL, as the rest of a clause.
    #[tactic(auto, unfolding(crate::specs::Selects::sequential))]
    fn sequential(&self, part: SelectPart, at: u32) -> Option<(SelectPart, u32)>
        ensures { result ≡ spec.sequential (view_of self.now) part at }
    {
        if self.has(Term::Sequential, at) {
            Some((part, at + 1))
        } else {
            None
        }
    }

    /// STATUS and a place, after an optional FILE.
    #[tactic(auto, unfolding(crate::specs::Selects::status))]
    fn status(&self, at: u32) -> Found<SelectPart>
        ensures { IfOk result (λ r. r ≡ spec.status (view_of self.now) at) }
    {
        if !self.has(Term::Status, at) {
            return Ok(None);
        }
        match self.parts.place(LEVELS, self.past_is(at + 1))? {
            None => Ok(None),
            Some((place, next)) => Ok(Some((SelectPart::Status(place), next))),
        }
    }

    /// A clause of a SELECT entry.
    #[tactic(auto, unfolding(crate::specs::Selects::select_part))]
    fn select_part(&self, at: u32) -> Found<SelectPart>
        ensures { IfOk result (λ r. r ≡ spec.select_part (view_of self.now) at) }
    {
        if self.has(Term::Organization, at) {
            Ok(self.sequential(SelectPart::Organization, self.past_is(at + 1)))
        } else if self.has(Term::Access, at) {
            let next = self.past_is(self.past(Term::Mode, at + 1));
            Ok(self.sequential(SelectPart::Access, next))
        } else {
            self.status(self.past(Term::File, at))
        }
    }

    /// A clause of a kind that was not read yet.
    #[tactic(auto, unfolding(crate::specs::Selects::next_select_part))]
    fn next_select_part(&self, parts: &SelectParts, at: u32) -> Found<SelectPart>
        ensures { IfOk result (λ r. r ≡ spec.next_select_part (view_of self.now) parts.now at) }
    {
        match self.select_part(at)? {
            None => Ok(None),
            Some((part, next)) => {
                if parts.has(&part) {
                    Ok(None)
                } else {
                    Ok(Some((part, next)))
                }
            }
        }
    }

    /// The clauses read so far, and those from here on.
    #[tactic(auto, unfolding(crate::specs::Selects::more_select_parts))]
    fn more_select_parts(
        &self,
        mut parts: SelectParts,
        mut at: u32,
    ) -> Result<(SelectParts, u32), Memory>
        ensures { IfOk result (λ r. r ≡ spec.more_select_parts (view_of self.now) parts at) }
    {
        for _turn in 0..3u32 {
            match self.next_select_part(&parts, at)? {
                None => return Ok((parts, at)),
                Some((part, next)) => {
                    parts = part.beside(parts);
                    at = next;
                }
            }
        }
        Ok((parts, at))
    }

    /// The external name of ASSIGN: a name, or the content of a literal as it is.
    #[tactic(auto, unfolding(crate::specs::Selects::external, cond_reader::specs::Text::spelling))]
    fn external(&self, at: u32) -> Found<Bytes>
        ensures { IfOk result (λ r. r ≡ spec.external (view_of self.now) at) }
    {
        if self.parts.sees(Symbol::Literal, at) {
            let text = self.parts.words[at as usize].text.twin(self.parts.alloc)?;
            Ok(Some((text, at + 1)))
        } else {
            self.parts.name(at)
        }
    }

    /// ASSIGN and the external name.
    #[tactic(auto, unfolding(crate::specs::Selects::assigned))]
    fn assigned(&self, at: u32) -> Found<Bytes>
        ensures { IfOk result (λ r. r ≡ spec.assigned (view_of self.now) at) }
    {
        if !self.has(Term::Assign, at) {
            return Ok(None);
        }
        if self.parts.sees(Symbol::To, at + 1) {
            self.external(at + 2)
        } else {
            self.external(at + 1)
        }
    }

    /// The clauses and the period of a SELECT entry that begins at `begin`, after its two names.
    #[tactic(auto, unfolding(crate::specs::Selects::select_rest))]
    fn select_rest(&self, name: Bytes, external: Bytes, begin: u32, at: u32) -> Found<Select>
        ensures { IfOk result (λ r. r ≡ spec.select_rest (view_of self.now) name external begin at) }
    {
        let empty = SelectParts {
            is_organized: false,
            is_accessed: false,
            status: None,
        };
        let (parts, next) = self.more_select_parts(empty, at)?;
        match self.ended(next) {
            None => Ok(None),
            Some(end) => {
                let status = parts.into_status();
                Ok(Some((
                    Select {
                        name,
                        external,
                        status,
                        at: begin,
                    },
                    end,
                )))
            }
        }
    }

    /// A SELECT entry.
    #[tactic(auto, unfolding(crate::specs::Selects::select))]
    pub fn select(&self, at: u32) -> Found<Select>
        ensures { IfOk result (λ r. r ≡ spec.select (view_of self.now) at) }
    {
        if !self.has(Term::Select, at) {
            return Ok(None);
        }
        match self.parts.name(at + 1)? {
            None => Ok(None),
            Some((name, next)) => match self.assigned(next)? {
                None => Ok(None),
                Some((external, end)) => self.select_rest(name, external, at, end),
            },
        }
    }
}

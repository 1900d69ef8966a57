ghost use Rattle.std.specs.Prelude.{◌≡◌, ◌<◌, true, length, IfOk};
ghost use Rattle.program_reader.specs.Drafts as drafts;
ghost use Rattle.program_reader.specs.Entries as spec;
ghost use Rattle.program_reader.specs.View.{view_of};

use crate::reading::Reading;
use crate::term::Term;
use crate::text::Units;
use cobol_syntax::{Entry, Operand, Usage};
use cond_reader::Found;
use decimal_bytes::SignPlace;
use std::alloc::Global;
use y2k_base::{Bytes, List, Memory};

/// A clause of a data description entry, but for REDEFINES. A PICTURE clause has the position of its string.
pub enum EntryPart {
    Picture(u32),
    Usage(Usage),
    Occurs(u32),
    Sign(SignPlace),
    Value(Operand),
}

/// A data description entry whose picture isn't read yet, and which clauses were read for it.
#[derive(Drop)]
pub struct Draft {
    pub entry: Entry,
    pub has_picture: bool,
    pub has_usage: bool,
    pub has_sign: bool,
}

impl Drop for EntryPart {
    fn drop(self) {
        match self {
            EntryPart::Picture(_) => {}
            EntryPart::Usage(_) => {}
            EntryPart::Occurs(_) => {}
            EntryPart::Sign(_) => {}
            EntryPart::Value(_operand) => {}
        }
    }
}

impl Draft {
    /// Whether a clause of this kind was read.
    fn has(&self, part: &EntryPart) -> bool
        ensures { result ≡ spec.has_part self.now part.now }
    {
        match part {
            EntryPart::Picture(_) => self.has_picture,
            EntryPart::Usage(_) => self.has_usage,
            EntryPart::Occurs(_) => self.entry.occurs.is_some(),
            EntryPart::Sign(_) => self.has_sign,
            EntryPart::Value(_) => self.entry.value.is_some(),
        }
    }
}

impl EntryPart {
    /// The entry with this clause.
    fn beside(self, mut draft: Draft) -> Draft
        ensures { result ≡ spec.with_part draft self }
    {
        match self {
            EntryPart::Picture(at) => {
                draft.entry.picture_at = at;
                draft.has_picture = true;
                draft
            }
            EntryPart::Usage(usage) => {
                draft.entry.usage = usage;
                draft.has_usage = true;
                draft
            }
            EntryPart::Occurs(times) => {
                draft.entry.occurs = Some(times);
                draft
            }
            EntryPart::Sign(place) => {
                draft.entry.sign = place;
                draft.has_sign = true;
                draft
            }
            EntryPart::Value(operand) => {
                draft.entry.value = Some(operand);
                draft
            }
        }
    }
}

/// Where a sign stands, at the leading or else the trailing end.
fn sign_at(is_leading: bool, is_separate: bool) -> SignPlace
    ensures { result ≡ spec.sign_at is_leading is_separate }
{
    if is_leading {
        if is_separate {
            SignPlace::LeadingSeparate
        } else {
            SignPlace::Leading
        }
    } else {
        if is_separate {
            SignPlace::TrailingSeparate
        } else {
            SignPlace::Trailing
        }
    }
}

/// An entry with no clauses.
pub fn plain_entry(
    alloc: Global,
    level: u8,
    name: Option<Bytes>,
    redefines: Option<Bytes>,
    at: u32,
) -> Draft
    ensures { result ≡ drafts.plain_entry level name redefines at }
{
    let entry = Entry {
        level,
        name,
        redefines,
        occurs: None,
        picture: None,
        picture_at: 0,
        usage: Usage::Display,
        sign: SignPlace::Trailing,
        value: None,
        ranges: List::new(alloc),
        at,
    };
    Draft {
        entry,
        has_picture: false,
        has_usage: false,
        has_sign: false,
    }
}

/// The level of a data description entry: 01 to 49, or 77.
pub fn level_of(number: u32) -> Option<u8>
    ensures { result ≡ spec.level_of number }
{
    if (0 < number && number < 50) || number == 77 {
        Some(number as u8)
    } else {
        None
    }
}

impl<'a> Units<'a> {
    /// Whether the word at a position is the string of a PICTURE clause.
    #[tactic(auto, unfolding(crate::specs::Entries::is_picture))]
    fn is_picture(&self, at: u32) -> bool
        ensures value { result ≡ spec.is_picture (view_of self.now) at }
        ensures within { result ≡ true → at < length self.now.readings.now }
    {
        match self.readings.get(at as usize) {
            None => false,
            Some(reading) => match reading {
                Reading::Plain => false,
                Reading::Picture(_) => true,
                Reading::Refused(_) => true,
            },
        }
    }

    /// PICTURE, after that word.
    #[tactic(auto, unfolding(crate::specs::Entries::picture_part))]
    fn picture_part(&self, at: u32) -> Option<(EntryPart, u32)>
        ensures { result ≡ spec.picture_part (view_of self.now) at }
    {
        let start = self.past_is(at);
        if self.is_picture(start) {
            Some((EntryPart::Picture(start), start + 1))
        } else {
            None
        }
    }

    /// OCCURS, after that word.
    #[tactic(auto, unfolding(crate::specs::Entries::occurs_part))]
    fn occurs_part(&self, at: u32) -> Option<(EntryPart, u32)>
        ensures { result ≡ spec.occurs_part (view_of self.now) at }
    {
        match self.count(at) {
            None => None,
            Some((times, next)) => Some((EntryPart::Occurs(times), self.past(Term::Times, next))),
        }
    }

    /// VALUE, after that word.
    #[tactic(auto, unfolding(crate::specs::Entries::value_part))]
    fn value_part(&self, at: u32) -> Found<EntryPart>
        ensures { IfOk result (λ r. r ≡ spec.value_part (view_of self.now) at) }
    {
        match self.parts.constant(self.past_is(at))? {
            None => Ok(None),
            Some((value, next)) => Ok(Some((EntryPart::Value(value), next))),
        }
    }

    /// An optional word with an optional IS after it.
    #[tactic(auto, unfolding(crate::specs::Entries::past_word_is))]
    fn past_word_is(&self, term: Term, at: u32) -> u32
        ensures { result ≡ spec.past_word_is (view_of self.now) term at }
    {
        if self.has(term, at) {
            self.past_is(at + 1)
        } else {
            at
        }
    }

    /// SEPARATE, where it is written, after the end of a sign.
    #[tactic(auto, unfolding(crate::specs::Entries::sign_rest))]
    fn sign_rest(&self, is_leading: bool, at: u32) -> (EntryPart, u32)
        ensures { result ≡ spec.sign_rest (view_of self.now) is_leading at }
    {
        if self.has(Term::Separate, at) {
            (
                EntryPart::Sign(sign_at(is_leading, true)),
                self.past(Term::Character, at + 1),
            )
        } else {
            (EntryPart::Sign(sign_at(is_leading, false)), at)
        }
    }

    /// SIGN.
    #[tactic(auto, unfolding(crate::specs::Entries::sign_part))]
    fn sign_part(&self, at: u32) -> Option<(EntryPart, u32)>
        ensures { result ≡ spec.sign_part (view_of self.now) at }
    {
        let start = self.past_word_is(Term::Sign, at);
        if self.has(Term::Leading, start) {
            Some(self.sign_rest(true, start + 1))
        } else if self.has(Term::Trailing, start) {
            Some(self.sign_rest(false, start + 1))
        } else {
            None
        }
    }

    /// USAGE.
    #[tactic(auto, unfolding(crate::specs::Entries::usage_part))]
    fn usage_part(&self, at: u32) -> Option<(EntryPart, u32)>
        ensures { result ≡ spec.usage_part (view_of self.now) at }
    {
        let start = self.past_word_is(Term::Usage, at);
        if self.has(Term::Display, start) {
            Some((EntryPart::Usage(Usage::Display), start + 1))
        } else if self.has(Term::Binary, start) {
            Some((EntryPart::Usage(Usage::Binary), start + 1))
        } else if self.has(Term::Packed, start) {
            Some((EntryPart::Usage(Usage::Packed), start + 1))
        } else {
            None
        }
    }

    /// SIGN or USAGE.
    #[tactic(auto, unfolding(crate::specs::Entries::form_part))]
    fn form_part(&self, at: u32) -> Option<(EntryPart, u32)>
        ensures { result ≡ spec.form_part (view_of self.now) at }
    {
        match self.sign_part(at) {
            Some(found) => Some(found),
            None => self.usage_part(at),
        }
    }

    /// A clause of a data description entry.
    #[tactic(auto, unfolding(crate::specs::Entries::entry_part))]
    fn entry_part(&self, at: u32) -> Found<EntryPart>
        ensures { IfOk result (λ r. r ≡ spec.entry_part (view_of self.now) at) }
    {
        if self.has(Term::Picture, at) {
            Ok(self.picture_part(at + 1))
        } else if self.has(Term::Occurs, at) {
            Ok(self.occurs_part(at + 1))
        } else if self.has(Term::Value, at) {
            self.value_part(at + 1)
        } else {
            Ok(self.form_part(at))
        }
    }

    /// A clause of a kind that was not read yet.
    #[tactic(auto, unfolding(crate::specs::Entries::next_entry_part))]
    fn next_entry_part(&self, draft: &Draft, at: u32) -> Found<EntryPart>
        ensures { IfOk result (λ r. r ≡ spec.next_entry_part (view_of self.now) draft.now at) }
    {
        match self.entry_part(at)? {
            None => Ok(None),
            Some((part, next)) => {
                if draft.has(&part) {
                    Ok(None)
                } else {
                    Ok(Some((part, next)))
                }
            }
        }
    }

    /// The entry as read so far, with the clauses from here on.
    #[tactic(auto, unfolding(crate::specs::Entries::more_entry_parts))]
    fn more_entry_parts(&self, mut draft: Draft, mut at: u32) -> Result<(Draft, u32), Memory>
        ensures { IfOk result (λ r. r ≡ spec.more_entry_parts (view_of self.now) draft at) }
    {
        for _turn in 0..5u32 {
            match self.next_entry_part(&draft, at)? {
                None => return Ok((draft, at)),
                Some((part, next)) => {
                    draft = part.beside(draft);
                    at = next;
                }
            }
        }
        Ok((draft, at))
    }

    /// The name of an entry, if it has one, and the position after it. FILLER is none.
    #[tactic(auto, unfolding(crate::specs::Entries::entry_name))]
    fn entry_name(&self, at: u32) -> Result<(Option<Bytes>, u32), Memory>
        ensures { IfOk result (λ r. r ≡ spec.entry_name (view_of self.now) at) }
    {
        if self.has(Term::Filler, at) {
            Ok((None, at + 1))
        } else {
            match self.parts.name(at)? {
                None => Ok((None, at)),
                Some((name, next)) => Ok((Some(name), next)),
            }
        }
    }

    /// REDEFINES with its name, if it is written.
    #[tactic(auto, unfolding(crate::specs::Entries::redefined))]
    fn redefined(&self, at: u32) -> Found<Option<Bytes>>
        ensures { IfOk result (λ r. r ≡ spec.redefined (view_of self.now) at) }
    {
        if self.has(Term::Redefines, at) {
            match self.parts.name(at + 1)? {
                None => Ok(None),
                Some((name, next)) => Ok(Some((Some(name), next))),
            }
        } else {
            Ok(Some((None, at)))
        }
    }

    /// The clauses and the period of an entry.
    #[tactic(auto, unfolding(crate::specs::Entries::entry_end))]
    fn entry_end(&self, draft: Draft, at: u32) -> Found<Draft>
        ensures { IfOk result (λ r. r ≡ spec.entry_end (view_of self.now) draft at) }
    {
        let (draft, next) = self.more_entry_parts(draft, at)?;
        match self.ended(next) {
            None => Ok(None),
            Some(end) => Ok(Some((draft, end))),
        }
    }

    /// A data description entry that begins at `begin`, after its level.
    #[tactic(auto, unfolding(crate::specs::Entries::entry_rest))]
    fn entry_rest(&self, level: u8, begin: u32, at: u32) -> Found<Draft>
        ensures { IfOk result (λ r. r ≡ spec.entry_rest (view_of self.now) level begin at) }
    {
        let (name, next) = self.entry_name(at)?;
        match self.redefined(next)? {
            None => Ok(None),
            Some((redefines, start)) => {
                let draft = plain_entry(self.parts.alloc, level, name, redefines, begin);
                self.entry_end(draft, start)
            }
        }
    }

    /// An entry: one of a condition-name where its level is 88, else a data description entry.
    #[tactic(auto, unfolding(crate::specs::Entries::entry))]
    pub fn entry(&self, at: u32) -> Found<Draft>
        ensures { IfOk result (λ r. r ≡ spec.entry (view_of self.now) at) }
    {
        match self.count(at) {
            None => Ok(None),
            Some((number, next)) => {
                if number == 88 {
                    self.cond_entry(at, next)
                } else {
                    match level_of(number) {
                        None => Ok(None),
                        Some(level) => self.entry_rest(level, at, next),
                    }
                }
            }
        }
    }
}

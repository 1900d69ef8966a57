ghost use Rattle.std.specs.Prelude.{◌≡◌, ◌<◌, ◌^◌, true, length};

use crate::fault::Refused;
use crate::reading::Reading;
use crate::term::{Term, same_term};
use cond_reader::{Found, Reader, Symbol, whole};
use y2k_base::{Bytes, FileId, Memory};

/// What is read with the position after it, or why the first unit that can't be read has no reading.
pub type Outcome<T> = Result<Result<(T, u32), Refused>, Memory>;

/// How many levels a unit may open.
pub const LEVELS: u32 = 64;

/// The words of a program, of which each has a term and a reading. A unit is the words up to and with a period.
#[derive(Drop)]
pub struct Units<'a> {
    pub parts: Reader<'a>,
    pub terms: &'a [Term],
    pub readings: &'a [Reading],
    pub file: FileId,
    ghost fits: { length terms.now < 2 ^ 32 },
    ghost read: { length readings.now < 2 ^ 32 },
}

impl<'a> Units<'a> {
    ghost use Rattle.std.specs.Prelude.{IfOk};
    ghost use Rattle.program_reader.specs.Views as spec;
    ghost use Rattle.program_reader.specs.View.{view_of};

    /// Whether the word at a position is of this kind.
    #[tactic(auto, unfolding(crate::specs::Views::has))]
    pub fn has(&self, term: Term, at: u32) -> bool
        ensures value { result ≡ spec.has (view_of self.now) term at }
        ensures within { result ≡ true → at < length self.now.terms.now }
    {
        match self.terms.get(at as usize) {
            Some(other) => same_term(*other, term),
            None => false,
        }
    }

    /// The position after a word that may be left out.
    #[tactic(auto, unfolding(crate::specs::Views::past))]
    pub fn past(&self, term: Term, at: u32) -> u32
        ensures { result ≡ spec.past (view_of self.now) term at }
    {
        if self.has(term, at) { at + 1 } else { at }
    }

    /// The position after an IS that may be left out.
    #[tactic(auto, unfolding(crate::specs::Views::past_is))]
    pub fn past_is(&self, at: u32) -> u32
        ensures { result ≡ spec.past_is (view_of self.now) at }
    {
        if self.parts.sees(Symbol::Is, at) {
            at + 1
        } else {
            at
        }
    }

    /// The position after an IS or ARE that may be left out.
    #[tactic(auto, unfolding(crate::specs::Views::past_is_or_are))]
    pub fn past_is_or_are(&self, at: u32) -> u32
        ensures { result ≡ spec.past_is_or_are (view_of self.now) at }
    {
        if self.parts.sees(Symbol::Is, at) {
            at + 1
        } else {
            self.past(Term::Are, at)
        }
    }

    /// The position after the period that ends a unit.
    #[tactic(auto, unfolding(crate::specs::Views::ended))]
    pub fn ended(&self, at: u32) -> Option<u32>
        ensures { result ≡ spec.ended (view_of self.now) at }
    {
        if self.parts.sees(Symbol::Period, at) {
            Some(at + 1)
        } else {
            None
        }
    }

    /// A unit of one word.
    #[tactic(auto, unfolding(crate::specs::Views::header))]
    pub fn header(&self, term: Term, at: u32) -> Option<u32>
        ensures { result ≡ spec.header (view_of self.now) term at }
    {
        if self.has(term, at) {
            self.ended(at + 1)
        } else {
            None
        }
    }

    /// A unit of two words, of which the second is DIVISION or SECTION.
    #[tactic(auto, unfolding(crate::specs::Views::headers))]
    pub fn headers(&self, first: Term, second: Term, at: u32) -> Option<u32>
        ensures { result ≡ spec.headers (view_of self.now) first second at }
    {
        if self.has(first, at) {
            self.header(second, at + 1)
        } else {
            None
        }
    }

    /// A unit of one name.
    #[tactic(auto, unfolding(crate::specs::Views::named))]
    pub fn named(&self, at: u32) -> Found<Bytes>
        ensures { IfOk result (λ r. r ≡ spec.named (view_of self.now) at) }
    {
        match self.parts.name(at)? {
            None => Ok(None),
            Some((name, next)) => match self.ended(next) {
                None => Ok(None),
                Some(end) => Ok(Some((name, end))),
            },
        }
    }

    /// A number of digits alone, at most 4,294,967,295.
    #[tactic(auto, unfolding(crate::specs::Views::count, cond_reader::specs::Text::spelling))]
    pub fn count(&self, at: u32) -> Option<(u32, u32)>
        ensures { result ≡ spec.count (view_of self.now) at }
    {
        if self.parts.sees(Symbol::Number, at) {
            match whole(self.parts.words[at as usize].text.items()) {
                None => None,
                Some(value) => Some((value, at + 1)),
            }
        } else {
            None
        }
    }
}

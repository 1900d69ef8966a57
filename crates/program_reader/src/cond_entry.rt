ghost use Rattle.std.specs.Prelude.{◌≡◌, IfOk};
ghost use Rattle.program_reader.specs.CondEntries as spec;
ghost use Rattle.program_reader.specs.View.{view_of};

use crate::entry::{Draft, plain_entry};
use crate::term::Term;
use crate::text::Units;
use cobol_syntax::Range;
use cond_reader::Found;
use y2k_base::{Bytes, List, Memory};

/// The level of a condition-name.
const LEVEL: u8 = 88;

/// The entry of a condition-name.
fn cond_draft(mut draft: Draft, ranges: List<Range>) -> Draft
    ensures { result ≡ spec.with_ranges draft ranges }
{
    draft.entry.ranges = ranges;
    draft
}

impl<'a> Units<'a> {
    /// A value, or two with THRU.
    #[tactic(auto, unfolding(crate::specs::CondEntries::range))]
    fn range(&self, at: u32) -> Found<Range>
        ensures { IfOk result (λ r. r ≡ spec.range (view_of self.now) at) }
    {
        match self.parts.constant(at)? {
            None => Ok(None),
            Some((low, next)) => {
                if self.has(Term::Through, next) {
                    match self.parts.constant(next + 1)? {
                        None => Ok(None),
                        Some((high, end)) => Ok(Some((
                            Range {
                                low,
                                high: Some(high),
                            },
                            end,
                        ))),
                    }
                } else {
                    Ok(Some((Range { low, high: None }, next)))
                }
            }
        }
    }

    /// The values read so far, and those from here on.
    #[tactic(auto, unfolding(crate::specs::CondEntries::more_ranges))]
    fn more_ranges(
        &self,
        mut ranges: List<Range>,
        mut at: u32,
    ) -> Result<(List<Range>, u32), Memory>
        ensures { IfOk result (λ r. r ≡ spec.more_ranges (view_of self.now) ranges at) }
    {
        for _turn in 0..self.terms.len() {
            match self.range(at)? {
                None => return Ok((ranges, at)),
                Some((range, next)) => {
                    ranges.push(range)?;
                    at = next;
                }
            }
        }
        Ok((ranges, at))
    }

    /// VALUE or VALUES, with an optional IS or ARE.
    #[tactic(auto, unfolding(crate::specs::CondEntries::past_value))]
    fn past_value(&self, at: u32) -> Option<u32>
        ensures { result ≡ spec.past_value (view_of self.now) at }
    {
        if self.has(Term::Value, at) || self.has(Term::Values, at) {
            Some(self.past_is_or_are(at + 1))
        } else {
            None
        }
    }

    /// The values and the period of the entry of a condition-name.
    #[tactic(auto, unfolding(crate::specs::CondEntries::ranges))]
    fn ranges(&self, at: u32) -> Found<List<Range>>
        ensures { IfOk result (λ r. r ≡ spec.ranges (view_of self.now) at) }
    {
        match self.range(at)? {
            None => Ok(None),
            Some((first, next)) => {
                let mut ranges = List::new(self.parts.alloc);
                ranges.push(first)?;
                let (ranges, last) = self.more_ranges(ranges, next)?;
                match self.ended(last) {
                    None => Ok(None),
                    Some(end) => Ok(Some((ranges, end))),
                }
            }
        }
    }

    /// The entry of a condition-name, after its name.
    #[tactic(auto, unfolding(crate::specs::CondEntries::cond_rest))]
    fn cond_rest(&self, name: Bytes, begin: u32, at: u32) -> Found<Draft>
        ensures { IfOk result (λ r. r ≡ spec.cond_rest (view_of self.now) name begin at) }
    {
        match self.past_value(at) {
            None => Ok(None),
            Some(start) => match self.ranges(start)? {
                None => Ok(None),
                Some((ranges, end)) => {
                    let draft = plain_entry(self.parts.alloc, LEVEL, Some(name), None, begin);
                    Ok(Some((cond_draft(draft, ranges), end)))
                }
            },
        }
    }

    /// The entry of a condition-name that begins at `begin`, after its level.
    #[tactic(auto, unfolding(crate::specs::CondEntries::cond_entry))]
    pub fn cond_entry(&self, begin: u32, at: u32) -> Found<Draft>
        ensures { IfOk result (λ r. r ≡ spec.cond_entry (view_of self.now) begin at) }
    {
        match self.parts.name(at)? {
            None => Ok(None),
            Some((name, next)) => self.cond_rest(name, begin, next),
        }
    }
}

ghost use Rattle.std.specs.Prelude.{◌≡◌, Some, IfOk, IfErr};
ghost use Rattle.proc_reader.specs.Performs as spec;

use crate::keyword::Keyword;
use crate::sentence::Sentences;
use crate::spot::Stop;
use cobol_syntax::{Control, Form, NamePair, Operand, Vary};
use cond_reader::Found;
use y2k_base::{List, Memory, Twin};

impl<'a> Sentences<'a> {
    ghost use Rattle.proc_reader.specs.View.{source_of};
    ghost use Rattle.proc_reader.specs.Reading.{IsUnread};

    /// A paragraph or section, and with THRU or THROUGH another one.
    #[tactic(auto, unfolding(crate::specs::Performs::range))]
    fn range(&self, at: u32) -> Result<(NamePair, u32), Stop>
        ensures read { IfOk result (λ r. spec.range (source_of self.now) at ≡ Some r) }
        ensures unread { IfErr result (IsUnread (spec.range (source_of self.now) at)) }
    {
        let (first, next) = self.name(at)?;
        if self.has(Keyword::Thru, next) {
            let (last, end) = self.name(next + 1)?;
            Ok((NamePair { first, last }, end))
        } else {
            let last = first.twin(self.parts.alloc)?;
            Ok((NamePair { first, last }, next))
        }
    }

    /// An operand before TIMES, with the position after TIMES.
    #[tactic(auto, unfolding(crate::specs::Performs::times))]
    fn times(&self, level: u32, at: u32) -> Found<Operand>
        ensures { IfOk result (λ r. r ≡ spec.times (source_of self.now) level at) }
    {
        match self.parts.operand(level, at)? {
            None => Ok(None),
            Some((operand, next)) => {
                if self.has(Keyword::Times, next) {
                    Ok(Some((operand, next + 1)))
                } else {
                    Ok(None)
                }
            }
        }
    }

    /// Whether a word of UNTIL or of what may stand before it is here.
    #[tactic(auto, unfolding(crate::specs::Performs::begins_until))]
    fn begins_until(&self, at: u32) -> bool
        ensures { result ≡ spec.begins_until (source_of self.now) at }
    {
        if self.has(Keyword::With, at) {
            true
        } else if self.has(Keyword::Test, at) {
            true
        } else if self.has(Keyword::Varying, at) {
            true
        } else {
            self.has(Keyword::Until, at)
        }
    }

    /// BEFORE or AFTER: whether it is AFTER.
    #[tactic(auto, unfolding(crate::specs::Performs::test_side))]
    fn test_side(&self, at: u32) -> Result<(bool, u32), Stop>
        ensures read { IfOk result (λ r. spec.test_side (source_of self.now) at ≡ Some r) }
        ensures unread { IfErr result (IsUnread (spec.test_side (source_of self.now) at)) }
    {
        if self.has(Keyword::After, at) {
            Ok((true, at + 1))
        } else {
            let next = self.after(Keyword::Before, at)?;
            Ok((false, next))
        }
    }

    /// WITH TEST BEFORE or AFTER, if it stands here: whether the test comes after the body.
    #[tactic(auto, unfolding(crate::specs::Performs::test_after))]
    fn test_after(&self, at: u32) -> Result<(bool, u32), Stop>
        ensures read { IfOk result (λ r. spec.test_after (source_of self.now) at ≡ Some r) }
        ensures unread { IfErr result (IsUnread (spec.test_after (source_of self.now) at)) }
    {
        if self.has(Keyword::With, at) {
            let next = self.after(Keyword::Test, at + 1)?;
            let side = self.test_side(next)?;
            Ok(side)
        } else if self.has(Keyword::Test, at) {
            let side = self.test_side(at + 1)?;
            Ok(side)
        } else {
            Ok((false, at))
        }
    }

    /// VARYING with its parts, if it stands here.
    #[tactic(auto, unfolding(crate::specs::Performs::varying))]
    fn varying(&self, level: u32, at: u32) -> Result<(Option<Vary>, u32), Stop>
        ensures read { IfOk result (λ r. spec.varying (source_of self.now) level at ≡ Some r) }
        ensures unread { IfErr result (IsUnread (spec.varying (source_of self.now) level at)) }
    {
        if self.has(Keyword::Varying, at) {
            let (item, from_at) = self.place(level, at + 1)?;
            let from_next = self.after(Keyword::From, from_at)?;
            let (from, by_at) = self.operand(level, from_next)?;
            let by_next = self.after(Keyword::By, by_at)?;
            let (by, end) = self.operand(level, by_next)?;
            Ok((Some(Vary { item, from, by }), end))
        } else {
            Ok((None, at))
        }
    }

    /// UNTIL and a condition, with what may stand before it.
    #[tactic(auto, unfolding(crate::specs::Performs::until))]
    fn until(&self, level: u32, at: u32) -> Result<(Control, u32), Stop>
        ensures read { IfOk result (λ r. spec.until (source_of self.now) level at ≡ Some r) }
        ensures unread { IfErr result (IsUnread (spec.until (source_of self.now) level at)) }
    {
        let (after, vary_at) = self.test_after(at)?;
        let (vary, until_at) = self.varying(level, vary_at)?;
        let next = self.after(Keyword::Until, until_at)?;
        let (test, end) = self.condition(level, next)?;
        Ok((Control::Until { after, test, vary }, end))
    }

    /// How often a PERFORM runs: TIMES, UNTIL, or once where neither stands here.
    #[tactic(auto, unfolding(crate::specs::Performs::control))]
    pub fn control(&self, level: u32, at: u32) -> Result<(Control, u32), Stop>
        ensures read { IfOk result (λ r. spec.control (source_of self.now) level at ≡ Some r) }
        ensures unread { IfErr result (IsUnread (spec.control (source_of self.now) level at)) }
    {
        if self.begins_until(at) {
            let control = self.until(level, at)?;
            Ok(control)
        } else {
            match self.times(level, at)? {
                Some((count, end)) => Ok((Control::Times(count), end)),
                None => Ok((Control::Once, at)),
            }
        }
    }

    /// What follows PERFORM where it names paragraphs or sections.
    #[tactic(auto, unfolding(crate::specs::Performs::performed))]
    pub fn performed(&self, level: u32, at: u32) -> Result<(Form, u32), Stop>
        ensures read { IfOk result (λ r. spec.performed (source_of self.now) level at ≡ Some r) }
        ensures unread { IfErr result (IsUnread (spec.performed (source_of self.now) level at)) }
    {
        let (pair, control_at) = self.range(at)?;
        let (control, end) = self.control(level, control_at)?;
        let range = Some(pair);
        let body = List::new(self.parts.alloc);
        let form = Form::Perform {
            range,
            body,
            control,
        };
        Ok((form, end))
    }

    /// Whether an operand before TIMES stands here, in a level that can still be opened.
    #[tactic(auto, unfolding(crate::specs::Performs::counts))]
    fn counts(&self, level: u32, at: u32) -> Result<bool, Memory>
        ensures { IfOk result (λ r. r ≡ spec.counts (source_of self.now) level at) }
    {
        if level > 0 {
            match self.times(level - 1, at)? {
                Some(_) => Ok(true),
                None => Ok(false),
            }
        } else {
            Ok(false)
        }
    }

    /// Whether what follows PERFORM is a control or a statement, and no paragraph or section.
    #[tactic(auto, unfolding(crate::specs::Performs::is_inline))]
    pub fn is_inline(&self, level: u32, at: u32) -> Result<bool, Memory>
        ensures { IfOk result (λ r. r ≡ spec.is_inline (source_of self.now) level at) }
    {
        if self.begins_until(at) {
            Ok(true)
        } else if self.begins(at) {
            Ok(true)
        } else {
            let counted = self.counts(level, at)?;
            Ok(counted)
        }
    }
}

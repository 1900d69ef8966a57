ghost use Rattle.std.specs.Prelude.{◌≡◌, Some, IfOk, IfErr};
ghost use Rattle.proc_reader.specs.Nested as spec;

use crate::arithmetic::Computing;
use crate::keyword::Keyword;
use crate::sentence::Sentences;
use crate::spot::{Spot, Stop};
use crate::tree::{alone, branch, number_after, statement};
use cobol_syntax::{Branch, Form, Statement};
use cond_reader::Symbol;
use y2k_base::List;

/// The statements of a list, with where reading goes on.
pub type Listed = Result<(List<Statement>, Spot), Stop>;

impl<'a> Sentences<'a> {
    ghost use Rattle.proc_reader.specs.Sentences.{statements, inside};
    ghost use Rattle.proc_reader.specs.View.{source_of};
    ghost use Rattle.proc_reader.specs.Reading.{IsUnread};
    ghost use Rattle.proc_reader.specs.declared.spot.Stop.TheVariants as stop;

    /// The position after ON SIZE ERROR, with ON or without, if it stands here.
    #[tactic(auto, unfolding(crate::specs::Nested::on_size))]
    fn on_size(&self, at: u32) -> Option<u32>
        ensures { result ≡ spec.on_size (source_of self.now) at }
    {
        let size_at = self.skip(Keyword::On, at);
        if self.has(Keyword::Size, size_at) {
            let error_at = size_at + 1;
            if self.has(Keyword::Error, error_at) {
                Some(error_at + 1)
            } else {
                None
            }
        } else {
            None
        }
    }

    /// The position after NOT ON SIZE ERROR, if it stands here.
    #[tactic(auto, unfolding(crate::specs::Nested::not_on_size))]
    fn not_on_size(&self, at: u32) -> Option<u32>
        ensures { result ≡ spec.not_on_size (source_of self.now) at }
    {
        if self.parts.sees(Symbol::Not, at) {
            self.on_size(at + 1)
        } else {
            None
        }
    }

    /// The position after AT END, with AT or without, if it stands here.
    #[tactic(auto, unfolding(crate::specs::Nested::at_end))]
    fn at_end(&self, at: u32) -> Option<u32>
        ensures { result ≡ spec.at_end (source_of self.now) at }
    {
        let end_at = self.skip(Keyword::At, at);
        if self.has(Keyword::End, end_at) {
            Some(end_at + 1)
        } else {
            None
        }
    }

    /// The position after NOT AT END, if it stands here.
    #[tactic(auto, unfolding(crate::specs::Nested::not_at_end))]
    fn not_at_end(&self, at: u32) -> Option<u32>
        ensures { result ≡ spec.not_at_end (source_of self.now) at }
    {
        if self.parts.sees(Symbol::Not, at) {
            self.at_end(at + 1)
        } else {
            None
        }
    }

    /// A statement as a list, with the position and the number after it.
    #[tactic(auto, unfolding(crate::specs::Nested::made))]
    pub fn made(&self, start: Spot, end: u32, number: u32, form: Form) -> Listed
        ensures read { IfOk result (λ r. r ≡ spec.made (source_of self.now) start end number form) }
        ensures unread { IfErr result (λ e. e ≡ stop.Memory) }
    {
        let only = statement(self.program, start.number, start.at, end, form);
        let list = alone(self.parts.alloc, only)?;
        Ok((list, Spot { at: end, number }))
    }

    /// The statements of an IF or a WHEN: NEXT SENTENCE, or one or more statements.
    #[cycle(statement)]
    #[tactic(auto, unfolding(crate::specs::Nested::body))]
    pub fn body(&self, level: u32, spot: Spot) -> Listed
        ensures read { let t = source_of self.now in IfOk result (λ r. spec.body t (statements t level) spot ≡ Some r) }
        ensures unread { let t = source_of self.now in IfErr result (IsUnread (spec.body t (statements t level) spot)) }
    {
        if self.has(Keyword::Next, spot.at) {
            let end = self.after(Keyword::Sentence, spot.at + 1)?;
            let number = number_after(spot.number, 1)?;
            let list = self.made(spot, end, number, Form::NextSentence)?;
            Ok(list)
        } else {
            let list = self.statements(level, spot)?;
            Ok(list)
        }
    }

    /// The statements of ELSE, if it stands here.
    #[cycle(statement)]
    #[tactic(auto, unfolding(crate::specs::Nested::other))]
    fn other(&self, level: u32, spot: Spot) -> Listed
        ensures read { let t = source_of self.now in IfOk result (λ r. spec.other t (statements t level) spot ≡ Some r) }
        ensures unread { let t = source_of self.now in IfErr result (IsUnread (spec.other t (statements t level) spot)) }
    {
        if self.has(Keyword::Else, spot.at) {
            let start = Spot {
                at: spot.at + 1,
                number: spot.number,
            };
            let list = self.body(level, start)?;
            Ok(list)
        } else {
            Ok((List::new(self.parts.alloc), spot))
        }
    }

    /// IF, where `level` levels may be opened inside it.
    #[cycle(statement)]
    #[tactic(auto, unfolding(crate::specs::Nested::if_statement))]
    pub fn if_statement(&self, level: u32, spot: Spot) -> Listed
        ensures read { let t = source_of self.now in IfOk result (λ r. spec.if_statement t level (statements t level) spot ≡ Some r) }
        ensures unread { let t = source_of self.now in IfErr result (IsUnread (spec.if_statement t level (statements t level) spot)) }
    {
        let test_at = self.after(Keyword::If, spot.at)?;
        let (test, then_at) = self.condition(level, test_at)?;
        let first = Spot {
            at: self.skip(Keyword::Then, then_at),
            number: number_after(spot.number, 1)?,
        };
        let (yes, other_spot) = self.body(level, first)?;
        let (other, last) = self.other(level, other_spot)?;
        let end = self.skip(Keyword::EndIf, last.at);
        let form = Form::If { test, yes, other };
        let list = self.made(spot, end, last.number, form)?;
        Ok(list)
    }

    /// The statements of a phrase that begins before `start`, if there is one.
    #[cycle(statement)]
    #[tactic(auto, unfolding(crate::specs::Nested::phrase))]
    fn phrase(
        &self,
        level: u32,
        start: Option<u32>,
        spot: Spot,
    ) -> Result<(Option<List<Statement>>, Spot), Stop>
        ensures read { let t = source_of self.now in IfOk result (λ r. spec.phrase (statements t level) start spot ≡ Some r) }
        ensures unread { let t = source_of self.now in IfErr result (IsUnread (spec.phrase (statements t level) start spot)) }
    {
        match start {
            None => Ok((None, spot)),
            Some(at) => {
                let first = Spot {
                    at,
                    number: spot.number,
                };
                let (list, next) = self.statements(level, first)?;
                Ok((Some(list), next))
            }
        }
    }

    /// The statements of a size phrase that begins before `start`, if there is one. It opens a level.
    #[cycle(statement)]
    #[tactic(auto, using(crate::proofs::Levels::inside_below), unfolding(crate::specs::Nested::size_phrase))]
    fn size_phrase(
        &self,
        level: u32,
        start: Option<u32>,
        spot: Spot,
    ) -> Result<(Option<List<Statement>>, Spot), Stop>
        ensures read { let t = source_of self.now in IfOk result (λ r. spec.size_phrase level (inside t level) start spot ≡ Some r) }
        ensures unread { let t = source_of self.now in IfErr result (IsUnread (spec.size_phrase level (inside t level) start spot)) }
    {
        match start {
            None => Ok((None, spot)),
            Some(_) => {
                if level > 0 {
                    let read = self.phrase(level - 1, start, spot)?;
                    Ok(read)
                } else {
                    Err(Stop::Unread)
                }
            }
        }
    }

    /// ON SIZE ERROR and NOT ON SIZE ERROR, each if it stands here.
    #[cycle(statement)]
    #[tactic(auto, unfolding(crate::specs::Nested::sizes))]
    fn sizes(&self, level: u32, spot: Spot) -> Result<(Option<Branch>, Spot), Stop>
        ensures read { let t = source_of self.now in IfOk result (λ r. spec.sizes t level (inside t level) spot ≡ Some r) }
        ensures unread { let t = source_of self.now in IfErr result (IsUnread (spec.sizes t level (inside t level) spot)) }
    {
        let (first, next) = self.size_phrase(level, self.on_size(spot.at), spot)?;
        let (second, last) = self.size_phrase(level, self.not_on_size(next.at), next)?;
        Ok((branch(self.parts.alloc, first, second), last))
    }

    /// An arithmetic statement with its size phrases.
    #[cycle(statement)]
    #[tactic(auto, unfolding(crate::specs::Nested::arithmetic_statements))]
    pub fn arithmetic_statements(&self, level: u32, spot: Spot) -> Listed
        ensures read { let t = source_of self.now in IfOk result (λ r. spec.arithmetic_statements t level (inside t level) spot ≡ Some r) }
        ensures unread { let t = source_of self.now in IfErr result (IsUnread (spec.arithmetic_statements t level (inside t level) spot)) }
    {
        let (computing, size_at) = self.computing(level, spot.at)?;
        let first = Spot {
            at: size_at,
            number: computing.number_after_all(spot.number)?,
        };
        let (size, last) = self.sizes(level, first)?;
        let end = self.end_of(spot.at, last.at);
        let list = computing.statements(
            self.parts.alloc,
            self.program,
            spot.at,
            end,
            spot.number,
            size,
        )?;
        let next = Spot {
            at: end,
            number: last.number,
        };
        Ok((list, next))
    }

    /// AT END and NOT AT END, each if it stands here.
    #[cycle(statement)]
    #[tactic(auto, unfolding(crate::specs::Nested::ends))]
    fn ends(&self, level: u32, spot: Spot) -> Result<(Option<Branch>, Spot), Stop>
        ensures read { let t = source_of self.now in IfOk result (λ r. spec.ends t (statements t level) spot ≡ Some r) }
        ensures unread { let t = source_of self.now in IfErr result (IsUnread (spec.ends t (statements t level) spot)) }
    {
        let (first, next) = self.phrase(level, self.at_end(spot.at), spot)?;
        let (second, last) = self.phrase(level, self.not_at_end(next.at), next)?;
        Ok((branch(self.parts.alloc, first, second), last))
    }

    /// READ, where `level` levels may be opened inside it.
    #[cycle(statement)]
    #[tactic(auto, unfolding(crate::specs::Nested::read_statement))]
    pub fn read_statement(&self, level: u32, spot: Spot) -> Listed
        ensures read { let t = source_of self.now in IfOk result (λ r. spec.read_statement t level (statements t level) spot ≡ Some r) }
        ensures unread { let t = source_of self.now in IfErr result (IsUnread (spec.read_statement t level (statements t level) spot)) }
    {
        let name_at = self.after(Keyword::Read, spot.at)?;
        let (file, into_at) = self.file_name(name_at)?;
        let (into, phrase_at) = self.destination(level, into_at)?;
        let first = Spot {
            at: phrase_at,
            number: number_after(spot.number, 1)?,
        };
        let (phrases, last) = self.ends(level, first)?;
        let end = self.skip(Keyword::EndRead, last.at);
        let form = Form::Read {
            file,
            into,
            end: phrases,
        };
        let list = self.made(spot, end, last.number, form)?;
        Ok(list)
    }

    /// PERFORM of the statements that follow, where `level` levels may be opened inside it.
    #[cycle(statement)]
    #[tactic(auto, unfolding(crate::specs::Nested::inline_statement))]
    pub fn inline_statement(&self, level: u32, spot: Spot) -> Listed
        ensures read { let t = source_of self.now in IfOk result (λ r. spec.inline_statement t level (statements t level) spot ≡ Some r) }
        ensures unread { let t = source_of self.now in IfErr result (IsUnread (spec.inline_statement t level (statements t level) spot)) }
    {
        let control_at = self.after(Keyword::Perform, spot.at)?;
        let (control, body_at) = self.control(level, control_at)?;
        let first = Spot {
            at: body_at,
            number: number_after(spot.number, 1)?,
        };
        let (body, last) = self.statements(level, first)?;
        let end = self.after(Keyword::EndPerform, last.at)?;
        let range = None;
        let form = Form::Perform {
            range,
            body,
            control,
        };
        let list = self.made(spot, end, last.number, form)?;
        Ok(list)
    }
}

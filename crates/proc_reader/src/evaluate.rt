ghost use Rattle.std.specs.Prelude.{◌≡◌, Some, IfOk, IfErr};
ghost use Rattle.proc_reader.specs.Evaluates as spec;

use crate::keyword::Keyword;
use crate::nested::Listed;
use crate::sentence::Sentences;
use crate::spot::{Spot, Stop};
use crate::tree::{alone, either, equality, number_after, statement};
use cobol_syntax::{Condition, Expr, Form, Statement};
use cond_reader::Found;
use std::alloc::Global;
use y2k_base::{List, Memory};

/// The WHEN of one body, as their test, with the statements of the body. `at` and `number` are those of the IF
/// that it is read as.
pub struct Group {
    pub test: Condition,
    pub at: u32,
    pub number: u32,
    pub body: List<Statement>,
}

impl Drop for Group {
    fn drop(self) {
        let Group {
            test: _test,
            at: _,
            number: _,
            body: _body,
        } = self;
    }
}

impl Group {
    /// The IF of the group, with what stands in its ELSE.
    #[tactic(auto, unfolding(crate::specs::Evaluates::if_of))]
    fn into_if(self, program: u32, end: u32, other: List<Statement>) -> Statement
        ensures { result ≡ spec.if_of program end self other }
    {
        let Group {
            test,
            at,
            number,
            body,
        } = self;
        let form = Form::If {
            test,
            yes: body,
            other,
        };
        statement(program, number, at, end, form)
    }
}

/// The groups as a chain of IF, tied from the last one on.
#[tactic(auto, using(crate::proofs::TreeLaws::tied_last))]
fn tied(
    alloc: Global,
    program: u32,
    end: u32,
    groups: List<Group>,
    mut other: List<Statement>,
) -> Result<List<Statement>, Memory>
    ensures { IfOk result (λ list. list ≡ spec.tied program end groups other) }
{
    let mut groups = groups.into_vec();
    while let Some(group) = groups.pop() {
        other = alone(alloc, group.into_if(program, end, other))?;
    }
    Ok(other)
}

impl<'a> Sentences<'a> {
    ghost use Rattle.proc_reader.specs.Sentences.{statements};
    ghost use Rattle.proc_reader.specs.View.{source_of};
    ghost use Rattle.proc_reader.specs.Reading.{IsUnread};

    /// What each WHEN is compared with: nothing after TRUE.
    #[tactic(auto, unfolding(crate::specs::Evaluates::subject))]
    fn subject(&self, level: u32, at: u32) -> Result<(Option<Expr>, u32), Stop>
        ensures read { IfOk result (λ r. spec.subject (source_of self.now) level at ≡ Some r) }
        ensures unread { IfErr result (IsUnread (spec.subject (source_of self.now) level at)) }
    {
        if self.has(Keyword::True, at) {
            Ok((None, at + 1))
        } else {
            let (operand, next) = self.operand(level, at)?;
            Ok((Some(Expr::One(operand)), next))
        }
    }

    /// A condition after TRUE, else an operand that the subject equals.
    #[tactic(auto, unfolding(crate::specs::Evaluates::choice))]
    fn choice(&self, level: u32, subject: &Option<Expr>, at: u32) -> Found<Condition>
        ensures { IfOk result (λ r. r ≡ spec.choice (source_of self.now) level subject.now at) }
    {
        match subject {
            None => {
                let found = self.parts.condition(level, at)?;
                Ok(found)
            }
            Some(subject) => match self.parts.operand(level, at)? {
                None => Ok(None),
                Some((operand, end)) => {
                    let test = equality(self.parts.alloc, subject, operand, at, end)?;
                    Ok(Some((test, end)))
                }
            },
        }
    }

    /// WHEN and what it chooses.
    #[tactic(auto, unfolding(crate::specs::Evaluates::when))]
    fn when(&self, level: u32, subject: &Option<Expr>, at: u32) -> Found<Condition>
        ensures { IfOk result (λ r. r ≡ spec.when (source_of self.now) level subject.now at) }
    {
        if self.has(Keyword::When, at) {
            let found = self.choice(level, subject, at + 1)?;
            Ok(found)
        } else {
            Ok(None)
        }
    }

    /// The test so far, and those of the WHEN from here on.
    #[tactic(auto, unfolding(crate::specs::Evaluates::more_whens))]
    fn more_whens(
        &self,
        level: u32,
        subject: &Option<Expr>,
        mut test: Condition,
        mut at: u32,
    ) -> Result<(Condition, u32), Memory>
        ensures { IfOk result (λ r. r ≡ spec.more_whens (source_of self.now) level subject.now test at) }
    {
        for _turn in 0..self.parts.kinds.len() {
            match self.when(level, subject, at)? {
                None => return Ok((test, at)),
                Some((next_test, next)) => {
                    test = either(self.parts.alloc, test, next_test)?;
                    at = next;
                }
            }
        }
        Ok((test, at))
    }

    /// Whether a body begins here.
    #[tactic(auto, unfolding(crate::specs::Evaluates::begins_body))]
    fn begins_body(&self, at: u32) -> bool
        ensures { result ≡ spec.begins_body (source_of self.now) at }
    {
        if self.has(Keyword::Next, at) {
            true
        } else {
            self.begins(at)
        }
    }

    /// One or more WHEN after which a body begins.
    #[tactic(auto, unfolding(crate::specs::Evaluates::heads))]
    fn heads(&self, level: u32, subject: &Option<Expr>, at: u32) -> Found<Condition>
        ensures { IfOk result (λ r. r ≡ spec.heads (source_of self.now) level subject.now at) }
    {
        match self.when(level, subject, at)? {
            None => Ok(None),
            Some((first, next)) => {
                let (test, body_at) = self.more_whens(level, subject, first, next)?;
                if self.begins_body(body_at) {
                    Ok(Some((test, body_at)))
                } else {
                    Ok(None)
                }
            }
        }
    }

    /// The group of a test whose body begins here, and whose IF begins at `start` and is numbered here.
    #[cycle(statement)]
    #[tactic(auto, unfolding(crate::specs::Evaluates::group))]
    fn group(
        &self,
        level: u32,
        start: u32,
        test: Condition,
        spot: Spot,
    ) -> Result<(Group, Spot), Stop>
        ensures read { let t = source_of self.now in IfOk result (λ r. spec.group t (statements t level) start test spot ≡ Some r) }
        ensures unread { let t = source_of self.now in IfErr result (IsUnread (spec.group t (statements t level) start test spot)) }
    {
        let first = Spot {
            at: spot.at,
            number: number_after(spot.number, 1)?,
        };
        let (body, next) = self.body(level, first)?;
        let group = Group {
            test,
            at: start,
            number: spot.number,
            body,
        };
        Ok((group, next))
    }

    /// The groups read so far, and those from here on.
    #[cycle(statement)]
    #[tactic(auto, unfolding(crate::specs::Evaluates::more_groups))]
    fn more_groups(
        &self,
        level: u32,
        subject: &Option<Expr>,
        mut groups: List<Group>,
        mut spot: Spot,
    ) -> Result<(List<Group>, Spot), Stop>
        ensures read { let t = source_of self.now in IfOk result (λ r. spec.more_groups t level (statements t level) subject.now groups spot ≡ Some r) }
        ensures unread { let t = source_of self.now in IfErr result (IsUnread (spec.more_groups t level (statements t level) subject.now groups spot)) }
    {
        for _turn in 0..self.parts.kinds.len() + 1 {
            match self.heads(level, subject, spot.at)? {
                None => return Ok((groups, spot)),
                Some((test, body_at)) => {
                    let body_spot = Spot {
                        at: body_at,
                        number: spot.number,
                    };
                    let (group, next) = self.group(level, spot.at, test, body_spot)?;
                    groups.push(group)?;
                    spot = next;
                }
            }
        }
        Err(Stop::Unread)
    }

    /// The statements of WHEN OTHER, if it stands here.
    #[cycle(statement)]
    #[tactic(auto, unfolding(crate::specs::Evaluates::when_other))]
    fn when_other(&self, level: u32, spot: Spot) -> Listed
        ensures read { let t = source_of self.now in IfOk result (λ r. spec.when_other t (statements t level) spot ≡ Some r) }
        ensures unread { let t = source_of self.now in IfErr result (IsUnread (spec.when_other t (statements t level) spot)) }
    {
        if self.has(Keyword::When, spot.at) {
            let other_at = spot.at + 1;
            if self.has(Keyword::Other, other_at) {
                let first = Spot {
                    at: other_at + 1,
                    number: spot.number,
                };
                let list = self.body(level, first)?;
                Ok(list)
            } else {
                Ok((List::new(self.parts.alloc), spot))
            }
        } else {
            Ok((List::new(self.parts.alloc), spot))
        }
    }

    /// EVALUATE, where `level` levels may be opened inside it.
    #[cycle(statement)]
    #[tactic(auto, unfolding(crate::specs::Evaluates::evaluate_statement))]
    pub fn evaluate_statement(&self, level: u32, spot: Spot) -> Listed
        ensures read { let t = source_of self.now in IfOk result (λ r. spec.evaluate_statement t level (statements t level) spot ≡ Some r) }
        ensures unread { let t = source_of self.now in IfErr result (IsUnread (spec.evaluate_statement t level (statements t level) spot)) }
    {
        let subject_at = self.after(Keyword::Evaluate, spot.at)?;
        let (subject, when_at) = self.subject(level, subject_at)?;
        match self.heads(level, &subject, when_at)? {
            None => Err(Stop::Unread),
            Some((test, body_at)) => {
                let body_spot = Spot {
                    at: body_at,
                    number: spot.number,
                };
                let (first, next) = self.group(level, spot.at, test, body_spot)?;
                let only = alone(self.parts.alloc, first)?;
                let (groups, other_spot) = self.more_groups(level, &subject, only, next)?;
                let (other, last) = self.when_other(level, other_spot)?;
                let end = self.skip(Keyword::EndEvaluate, last.at);
                let list = tied(self.parts.alloc, self.program, end, groups, other)?;
                let next = Spot {
                    at: end,
                    number: last.number,
                };
                Ok((list, next))
            }
        }
    }
}

ghost use Rattle.std.specs.Prelude.{◌≡◌, ◌≢◌, Some, IfOk, IfErr};
ghost use Rattle.proc_reader.specs.Arithmetic as spec;

use crate::keyword::Keyword;
use crate::sentence::Sentences;
use crate::spot::Stop;
use crate::tree::{Joining, joined, number_after, numbered, statement};
use cobol_syntax::{Branch, Expr, Form, Operand, Place, Statement};
use cond_reader::{Found, Symbol};
use std::alloc::Global;
use y2k_base::{List, Memory, Twin};

/// An item that receives a result, rounded or cut.
pub struct Receiver {
    pub place: Place,
    pub rounded: bool,
}

/// One or more receivers: those before the last, and the last.
pub struct Receivers {
    pub before: List<Receiver>,
    pub last: Receiver,
}

/// What an arithmetic statement computes: the value of each receiver is `value`, into which the receiver enters
/// by `joining`. `rest` is the item of REMAINDER.
pub struct Computing {
    pub joining: Joining,
    pub value: Expr,
    pub receivers: Receivers,
    pub rest: Option<Place>,
}

impl Drop for Receiver {
    fn drop(self) {
        let Receiver {
            place: _place,
            rounded: _,
        } = self;
    }
}

impl Drop for Receivers {
    fn drop(self) {
        let Receivers {
            before: _before,
            last: _last,
        } = self;
    }
}

impl Drop for Computing {
    fn drop(self) {
        let Computing {
            joining: _,
            value: _value,
            receivers: _receivers,
            rest: _rest,
        } = self;
    }
}

impl Receivers {
    /// The receivers with one more at the end.
    #[tactic(auto, unfolding(crate::specs::Arithmetic::one_more))]
    fn one_more(self, next: Receiver) -> Result<Receivers, Memory>
        ensures { IfOk result (λ r. r ≡ spec.one_more self next) }
    {
        let Receivers { mut before, last } = self;
        before.push(last)?;
        Ok(Receivers { before, last: next })
    }
}

/// The statement form that computes one receiver.
#[tactic(auto, unfolding(crate::specs::Arithmetic::computed))]
fn computed(
    alloc: Global,
    joining: Joining,
    value: &Expr,
    receiver: &Receiver,
    rest: Option<Place>,
    size: Option<Branch>,
) -> Result<Form, Memory>
    ensures { IfOk result (λ f. f ≡ spec.computed joining value.now rest size receiver.now) }
{
    let to = receiver.place.twin(alloc)?;
    let operand = Operand::Place(receiver.place.twin(alloc)?);
    let value = joined(alloc, joining, value.twin(alloc)?, operand)?;
    Ok(Form::Compute {
        to,
        rounded: receiver.rounded,
        value,
        rest,
        size,
    })
}

/// The forms of receivers without a phrase.
fn each_computed(
    alloc: Global,
    joining: Joining,
    value: &Expr,
    receivers: &[Receiver],
) -> Result<List<Form>, Memory>
    ensures { IfOk result (λ forms. forms ≡ spec.each_computed joining value.now receivers.now) }
{
    let mut forms = List::new(alloc);
    for receiver in receivers {
        forms.push(computed(alloc, joining, value, receiver, None, None)?)?;
    }
    Ok(forms)
}

impl Computing {
    /// The statements, with the numbers from `first` on. The size phrase stands on the last of them.
    #[tactic(auto, unfolding(crate::specs::Arithmetic::statements))]
    pub fn statements(
        self,
        alloc: Global,
        program: u32,
        at: u32,
        end: u32,
        first: u32,
        size: Option<Branch>,
    ) -> Result<List<Statement>, Memory>
        ensures { IfOk result (λ list. list ≡ spec.statements program at end first self size) }
    {
        let Computing {
            joining,
            value,
            receivers,
            rest,
        } = self;
        let before = receivers.before.items();
        let number = number_after(first, before.len())?;
        let forms = each_computed(alloc, joining, &value, before)?;
        let last = computed(alloc, joining, &value, &receivers.last, rest, size)?;
        let mut list = numbered(alloc, program, at, end, first, forms)?;
        list.push(statement(program, number, at, end, last))?;
        Ok(list)
    }

    /// The number after those of the statements that begin with `first`.
    #[tactic(auto, unfolding(crate::specs::Arithmetic::number_after_all))]
    pub fn number_after_all(&self, first: u32) -> Result<u32, Memory>
        ensures { IfOk result (λ n. n ≡ spec.number_after_all self.now first) }
    {
        let number = number_after(first, self.receivers.before.len())?;
        let next = number_after(number, 1)?;
        Ok(next)
    }
}

impl<'a> Sentences<'a> {
    ghost use Rattle.proc_reader.specs.View.{source_of};
    ghost use Rattle.proc_reader.specs.Reading.{IsUnread};
    ghost use Rattle.proc_reader.specs.declared.keyword.Keyword.TheVariants as Keyword;

    /// An identifier, and ROUNDED if it stands after it.
    #[tactic(auto, unfolding(crate::specs::Arithmetic::receiver))]
    fn receiver(&self, level: u32, at: u32) -> Found<Receiver>
        ensures { IfOk result (λ r. r ≡ spec.receiver (source_of self.now) level at) }
    {
        match self.parts.place(level, at)? {
            None => Ok(None),
            Some((place, next)) => {
                let rounded = self.has(Keyword::Rounded, next);
                let end = self.skip(Keyword::Rounded, next);
                Ok(Some((Receiver { place, rounded }, end)))
            }
        }
    }

    /// The receivers read so far, and those from here on.
    #[tactic(auto, unfolding(crate::specs::Arithmetic::more_receivers))]
    fn more_receivers(
        &self,
        level: u32,
        mut receivers: Receivers,
        mut at: u32,
    ) -> Result<(Receivers, u32), Memory>
        ensures { IfOk result (λ r. r ≡ spec.more_receivers (source_of self.now) level receivers at) }
    {
        for _turn in 0..self.parts.kinds.len() {
            match self.receiver(level, at)? {
                None => return Ok((receivers, at)),
                Some((receiver, next)) => {
                    receivers = receivers.one_more(receiver)?;
                    at = next;
                }
            }
        }
        Ok((receivers, at))
    }

    /// One or more receivers.
    #[tactic(auto, unfolding(crate::specs::Arithmetic::receivers))]
    fn receivers(&self, level: u32, at: u32) -> Result<(Receivers, u32), Stop>
        ensures read { IfOk result (λ r. spec.receivers (source_of self.now) level at ≡ Some r) }
        ensures unread { IfErr result (IsUnread (spec.receivers (source_of self.now) level at)) }
    {
        match self.receiver(level, at)? {
            None => Err(Stop::Unread),
            Some((last, next)) => {
                let before = List::new(self.parts.alloc);
                let all = self.more_receivers(level, Receivers { before, last }, next)?;
                Ok(all)
            }
        }
    }

    /// The sum so far, and the operands from here on.
    #[tactic(auto, unfolding(crate::specs::Arithmetic::more_summands))]
    fn more_summands(&self, level: u32, mut sum: Expr, mut at: u32) -> Result<(Expr, u32), Memory>
        ensures { IfOk result (λ r. r ≡ spec.more_summands (source_of self.now) level sum at) }
    {
        for _turn in 0..self.parts.kinds.len() {
            match self.parts.operand(level, at)? {
                None => return Ok((sum, at)),
                Some((operand, next)) => {
                    sum = joined(self.parts.alloc, Joining::Add, sum, operand)?;
                    at = next;
                }
            }
        }
        Ok((sum, at))
    }

    /// The sum of one or more operands, from the left.
    #[tactic(auto, unfolding(crate::specs::Arithmetic::summed))]
    fn summed(&self, level: u32, at: u32) -> Result<(Expr, u32), Stop>
        ensures read { IfOk result (λ r. spec.summed (source_of self.now) level at ≡ Some r) }
        ensures unread { IfErr result (IsUnread (spec.summed (source_of self.now) level at)) }
    {
        let (first, next) = self.operand(level, at)?;
        let all = self.more_summands(level, Expr::One(first), next)?;
        Ok(all)
    }

    /// GIVING, and the receivers of a value.
    #[tactic(auto, unfolding(crate::specs::Arithmetic::giving))]
    fn giving(&self, level: u32, value: Expr, at: u32) -> Result<(Computing, u32), Stop>
        ensures read { IfOk result (λ r. spec.giving (source_of self.now) level value at ≡ Some r) }
        ensures unread { IfErr result (IsUnread (spec.giving (source_of self.now) level value at)) }
    {
        let at = self.after(Keyword::Giving, at)?;
        let (receivers, end) = self.receivers(level, at)?;
        let computing = Computing {
            joining: Joining::Alone,
            value,
            receivers,
            rest: None,
        };
        Ok((computing, end))
    }

    /// An operand before GIVING.
    #[tactic(auto, unfolding(crate::specs::Arithmetic::second))]
    fn second(&self, level: u32, at: u32) -> Found<Operand>
        ensures { IfOk result (λ r. r ≡ spec.second (source_of self.now) level at) }
    {
        match self.parts.operand(level, at)? {
            None => Ok(None),
            Some((operand, next)) => {
                if self.has(Keyword::Giving, next) {
                    Ok(Some((operand, next)))
                } else {
                    Ok(None)
                }
            }
        }
    }

    /// An operand, GIVING and receivers, or receivers that enter the value themselves.
    #[tactic(auto, unfolding(crate::specs::Arithmetic::target))]
    fn target(
        &self,
        level: u32,
        joining: Joining,
        value: Expr,
        at: u32,
    ) -> Result<(Computing, u32), Stop>
        ensures read { IfOk result (λ r. spec.target (source_of self.now) level joining value at ≡ Some r) }
        ensures unread { IfErr result (IsUnread (spec.target (source_of self.now) level joining value at)) }
    {
        match self.second(level, at)? {
            Some((operand, next)) => {
                let value = joined(self.parts.alloc, joining, value, operand)?;
                let given = self.giving(level, value, next)?;
                Ok(given)
            }
            None => {
                let (receivers, end) = self.receivers(level, at)?;
                let computing = Computing {
                    joining,
                    value,
                    receivers,
                    rest: None,
                };
                Ok((computing, end))
            }
        }
    }

    /// What follows ADD.
    #[tactic(auto, unfolding(crate::specs::Arithmetic::added))]
    fn added(&self, level: u32, at: u32) -> Result<(Computing, u32), Stop>
        ensures read { IfOk result (λ r. spec.added (source_of self.now) level at ≡ Some r) }
        ensures unread { IfErr result (IsUnread (spec.added (source_of self.now) level at)) }
    {
        let (sum, next) = self.summed(level, at)?;
        if self.has(Keyword::Giving, next) {
            let given = self.giving(level, sum, next)?;
            Ok(given)
        } else {
            let to = self.after_symbol(Symbol::To, next)?;
            let all = self.target(level, Joining::Add, sum, to)?;
            Ok(all)
        }
    }

    /// What follows SUBTRACT.
    #[tactic(auto, unfolding(crate::specs::Arithmetic::subtracted))]
    fn subtracted(&self, level: u32, at: u32) -> Result<(Computing, u32), Stop>
        ensures read { IfOk result (λ r. spec.subtracted (source_of self.now) level at ≡ Some r) }
        ensures unread { IfErr result (IsUnread (spec.subtracted (source_of self.now) level at)) }
    {
        let (sum, next) = self.summed(level, at)?;
        let from = self.after(Keyword::From, next)?;
        let all = self.target(level, Joining::Subtract, sum, from)?;
        Ok(all)
    }

    /// What follows MULTIPLY.
    #[tactic(auto, unfolding(crate::specs::Arithmetic::multiplied))]
    fn multiplied(&self, level: u32, at: u32) -> Result<(Computing, u32), Stop>
        ensures read { IfOk result (λ r. spec.multiplied (source_of self.now) level at ≡ Some r) }
        ensures unread { IfErr result (IsUnread (spec.multiplied (source_of self.now) level at)) }
    {
        let (operand, next) = self.operand(level, at)?;
        let by = self.after(Keyword::By, next)?;
        let all = self.target(level, Joining::Multiply, Expr::One(operand), by)?;
        Ok(all)
    }

    /// REMAINDER and its item, where one receiver was given a quotient.
    #[tactic(auto, unfolding(crate::specs::Arithmetic::remainder))]
    fn remainder(
        &self,
        level: u32,
        mut computing: Computing,
        at: u32,
    ) -> Result<(Computing, u32), Stop>
        ensures read { IfOk result (λ r. spec.remainder (source_of self.now) level computing at ≡ Some r) }
        ensures unread { IfErr result (IsUnread (spec.remainder (source_of self.now) level computing at)) }
    {
        if self.has(Keyword::Remainder, at) && computing.receivers.before.is_empty() {
            let (place, end) = self.place(level, at + 1)?;
            computing.rest = Some(place);
            Ok((computing, end))
        } else {
            Ok((computing, at))
        }
    }

    /// What follows an operand and BY in DIVIDE, with GIVING.
    #[tactic(auto, unfolding(crate::specs::Arithmetic::divided_by))]
    fn divided_by(&self, level: u32, value: Expr, at: u32) -> Result<(Computing, u32), Stop>
        ensures read { IfOk result (λ r. spec.divided_by (source_of self.now) level value at ≡ Some r) }
        ensures unread { IfErr result (IsUnread (spec.divided_by (source_of self.now) level value at)) }
    {
        let (operand, next) = self.operand(level, at)?;
        let value = joined(self.parts.alloc, Joining::DivideBy, value, operand)?;
        let (computing, rest_at) = self.giving(level, value, next)?;
        let all = self.remainder(level, computing, rest_at)?;
        Ok(all)
    }

    /// What follows an operand and INTO in DIVIDE.
    #[tactic(auto, unfolding(crate::specs::Arithmetic::divided_into))]
    fn divided_into(&self, level: u32, value: Expr, at: u32) -> Result<(Computing, u32), Stop>
        ensures read { IfOk result (λ r. spec.divided_into (source_of self.now) level value at ≡ Some r) }
        ensures unread { IfErr result (IsUnread (spec.divided_into (source_of self.now) level value at)) }
    {
        match self.second(level, at)? {
            Some((operand, next)) => {
                let value = joined(self.parts.alloc, Joining::Divide, value, operand)?;
                let (computing, rest_at) = self.giving(level, value, next)?;
                let all = self.remainder(level, computing, rest_at)?;
                Ok(all)
            }
            None => {
                let (receivers, end) = self.receivers(level, at)?;
                let computing = Computing {
                    joining: Joining::Divide,
                    value,
                    receivers,
                    rest: None,
                };
                Ok((computing, end))
            }
        }
    }

    /// What follows DIVIDE.
    #[tactic(auto, unfolding(crate::specs::Arithmetic::divided))]
    fn divided(&self, level: u32, at: u32) -> Result<(Computing, u32), Stop>
        ensures read { IfOk result (λ r. spec.divided (source_of self.now) level at ≡ Some r) }
        ensures unread { IfErr result (IsUnread (spec.divided (source_of self.now) level at)) }
    {
        let (operand, next) = self.operand(level, at)?;
        if self.has(Keyword::Into, next) {
            let all = self.divided_into(level, Expr::One(operand), next + 1)?;
            Ok(all)
        } else {
            let by = self.after(Keyword::By, next)?;
            let all = self.divided_by(level, Expr::One(operand), by)?;
            Ok(all)
        }
    }

    /// What follows COMPUTE.
    #[tactic(auto, unfolding(crate::specs::Arithmetic::set_to))]
    fn set_to(&self, level: u32, at: u32) -> Result<(Computing, u32), Stop>
        ensures read { IfOk result (λ r. spec.set_to (source_of self.now) level at ≡ Some r) }
        ensures unread { IfErr result (IsUnread (spec.set_to (source_of self.now) level at)) }
    {
        let (receivers, next) = self.receivers(level, at)?;
        let equal = self.after_symbol(Symbol::EqualSign, next)?;
        let (value, end) = self.expr(level, equal)?;
        let computing = Computing {
            joining: Joining::Alone,
            value,
            receivers,
            rest: None,
        };
        Ok((computing, end))
    }

    /// An arithmetic statement up to its size phrase.
    #[tactic(auto, unfolding(crate::specs::Arithmetic::computing))]
    pub fn computing(&self, level: u32, at: u32) -> Result<(Computing, u32), Stop>
        ensures read { IfOk result (λ r. spec.computing (source_of self.now) level at ≡ Some r) }
        ensures unread { IfErr result (IsUnread (spec.computing (source_of self.now) level at)) }
    {
        if self.has(Keyword::Add, at) {
            let all = self.added(level, at + 1)?;
            Ok(all)
        } else if self.has(Keyword::Subtract, at) {
            let all = self.subtracted(level, at + 1)?;
            Ok(all)
        } else if self.has(Keyword::Multiply, at) {
            let all = self.multiplied(level, at + 1)?;
            Ok(all)
        } else if self.has(Keyword::Divide, at) {
            let all = self.divided(level, at + 1)?;
            Ok(all)
        } else {
            let next = self.after(Keyword::Compute, at)?;
            let all = self.set_to(level, next)?;
            Ok(all)
        }
    }

    /// The word that may end the arithmetic statement that begins with this word.
    #[tactic(auto, unfolding(crate::specs::Arithmetic::end_word))]
    fn end_word(&self, at: u32) -> Keyword
        ensures value { result ≡ spec.end_word (source_of self.now) at }
        ensures listed { result ≢ Keyword.Unlisted }
    {
        if self.has(Keyword::Add, at) {
            Keyword::EndAdd
        } else if self.has(Keyword::Subtract, at) {
            Keyword::EndSubtract
        } else if self.has(Keyword::Multiply, at) {
            Keyword::EndMultiply
        } else if self.has(Keyword::Divide, at) {
            Keyword::EndDivide
        } else {
            Keyword::EndCompute
        }
    }

    /// The end of the arithmetic statement that begins at `at`, where its parts end at `next`.
    #[tactic(auto, unfolding(crate::specs::Arithmetic::end_of))]
    pub fn end_of(&self, at: u32, next: u32) -> u32
        ensures { result ≡ spec.end_of (source_of self.now) at next }
    {
        self.skip(self.end_word(at), next)
    }
}

ghost use Rattle.std.specs.Prelude.{None, ◌≡◌, ◌+◌, ◌-◌, ◌*◌, ◌^◌, ◌<◌, ◌≤◌, IfOk, IfErr, length};
ghost use Rattle.std.specs.List.{AllByRecursion};
ghost use Rattle.program_meaning.specs.Answer.{Gives};
ghost use Rattle.program_meaning.specs.Storage as meant;
ghost use Rattle.storage_places.specs.declared.access.Bound.TheVariants as bound;
ghost use Rattle.storage_places.specs.Fits.{KindFits, NumberFits, BoundFits, BoundIfFits, CutFits, Fits, farthest};
ghost use Rattle.storage_places.specs.Held.{held, first, lengths, IsWithin};
ghost use Rattle.storage_places.specs.Means.{IsThere, IsNowhere};
ghost use Rattle.storage_places.specs.Meets.{Meets};
ghost use Rattle.storage_places.specs.Reached as spec;
ghost use Rattle.storage_places.specs.Reached.{bound_value, occurrence_at, reference_at, cut_at, span_at};

use crate::access::{Access, Bound, Cut, NumberItem};
use crate::fault::RunFault;
use crate::storage::Storage;
use data_layout::Step;
use number_bytes::read_number;
use y2k_base::Span;

impl Storage {
    /// Where a place is now. `Data` and `Range` come where its subscripts and its reference, read from the left and
    /// checked one by one, are at fault; the start and the length of a reference are both read before they are checked.
    pub fn span_at(&self, access: &Access) -> Result<Span, RunFault>
        requires fits { Fits (first self.now) (lengths (held self.now)) access.now }
        ensures ok { IfOk result (λ span. span_at (first self.now) (held self.now) access.now ≡ Gives span) }
        ensures err { IfErr result (Meets (span_at (first self.now) (held self.now) access.now)) }
        ensures there { IfOk result (IsThere (first self.now) (held self.now) access.now) }
        ensures nowhere { IfErr result (IsNowhere (first self.now) (held self.now) access.now) }
        ensures within { IfOk result (IsWithin (first self.now) (lengths (held self.now))) }
        ensures kind { IfOk result (λ span. KindFits access.now.kind access.now.picture span.length) }
    {
        let offset = self.occurrence(
            access.steps.items(),
            access.subs.items(),
            access.span.offset,
        )?;
        let span = self.cut_at(access.span, offset, access.cut)?;
        Ok(span)
    }

    /// Where an occurrence begins.
    fn occurrence(&self, steps: &[Step], subs: &[Bound], start: u32) -> Result<u32, RunFault>
        requires subs { AllByRecursion (BoundFits (first self.now) (lengths (held self.now))) subs.now }
        requires short { start + farthest steps.now < 2 ^ 32 }
        ensures ok { IfOk result (λ offset. occurrence_at (first self.now) (held self.now) steps.now subs.now start ≡ Gives offset) }
        ensures err { IfErr result (Meets (occurrence_at (first self.now) (held self.now) steps.now subs.now start)) }
        ensures most { IfOk result (λ offset. offset ≤ start + farthest steps.now) }
    {
        let mut offset = start;
        let mut outer = steps;
        let mut bounds = subs;
        while let [step, inner @ ..] = outer {
            match bounds {
                [] => return Ok(offset),
                [bound, others @ ..] => {
                    let number = self.bound_value(*bound)?;
                    let index = within(number, step.count)?;
                    offset = advanced(offset, *step, index);
                    outer = inner;
                    bounds = others;
                }
            }
        }
        Ok(offset)
    }

    /// The bytes of an occurrence that begins there, or of a reference to it.
    fn cut_at(&self, span: Span, offset: u32, cut: Option<Cut>) -> Result<Span, RunFault>
        requires cut { CutFits (first self.now) (lengths (held self.now)) cut }
        requires short { offset + span.length < 2 ^ 32 }
        ensures ok { IfOk result (λ part. cut_at (first self.now) (held self.now) span offset cut ≡ Gives part) }
        ensures err { IfErr result (Meets (cut_at (first self.now) (held self.now) span offset cut)) }
        ensures area { IfOk result (λ part. part.area ≡ span.area) }
        ensures most { IfOk result (λ part. part.offset + part.length ≤ offset + span.length) }
        ensures whole { cut ≡ None → IfOk result (λ part. part.length ≡ span.length) }
    {
        match cut {
            None => Ok(span_from(span, offset, span.length)),
            Some(cut) => {
                let start = self.bound_value(cut.start)?;
                let part = self.reference(span, offset, start, cut.length)?;
                Ok(part)
            }
        }
    }

    fn reference(
        &self,
        span: Span,
        offset: u32,
        start: i128,
        length: Option<Bound>,
    ) -> Result<Span, RunFault>
        requires length { BoundIfFits (first self.now) (lengths (held self.now)) length }
        requires short { offset + span.length < 2 ^ 32 }
        ensures ok { IfOk result (λ part. reference_at (first self.now) (held self.now) span offset span.length start length ≡ Gives part) }
        ensures err { IfErr result (Meets (reference_at (first self.now) (held self.now) span offset span.length start length)) }
        ensures area { IfOk result (λ part. part.area ≡ span.area) }
        ensures most { IfOk result (λ part. part.offset + part.length ≤ offset + span.length) }
    {
        match length {
            None => {
                let begin = within(start, span.length)?;
                Ok(span_from(span, offset + (begin - 1), span.length - (begin - 1)))
            }
            Some(length) => {
                let number = self.bound_value(length)?;
                let begin = within(start, span.length)?;
                let count = within(number, span.length - (begin - 1))?;
                Ok(span_from(span, offset + (begin - 1), count))
            }
        }
    }

    /// The number that a subscript, a start or a length is.
    fn bound_value(&self, bound: Bound) -> Result<i128, RunFault>
        requires fits { BoundFits (first self.now) (lengths (held self.now)) bound }
        ensures ok { IfOk result (λ number. bound_value (first self.now) (held self.now) bound ≡ Gives number) }
        ensures err { IfErr result (Meets (bound_value (first self.now) (held self.now) bound)) }
    {
        match bound {
            Bound::Literal(number) => Ok(i128::from(number)),
            Bound::Number(item) => {
                let number = self.number_in(item)?;
                Ok(number)
            }
        }
    }

    fn number_in(&self, item: NumberItem) -> Result<i128, RunFault>
        requires fits { NumberFits (first self.now) (lengths (held self.now)) item }
        ensures ok { IfOk result (λ number. bound_value (first self.now) (held self.now) (bound.Number item) ≡ Gives number) }
        ensures err { IfErr result (Meets (bound_value (first self.now) (held self.now) (bound.Number item))) }
    {
        match self.bytes(item.span) {
            Some(bytes) => match read_number(bytes, item.usage, item.form) {
                Ok(number) => Ok(number.number),
                Err(_) => Err(RunFault::Data),
            },
            None => Err(RunFault::Data),
        }
    }
}

/// A number from 1 to a bound.
fn within(number: i128, most: u32) -> Result<u32, RunFault>
    ensures ok { IfOk result (λ n. meant.within number most ≡ Gives n) }
    ensures err { IfErr result (Meets (meant.within number most)) }
    ensures one { IfOk result (λ n. 1 ≤ n) }
    ensures most { IfOk result (λ n. n ≤ most) }
{
    if number < 1 || number > i128::from(most) {
        return Err(RunFault::Range);
    }
    Ok(number as u32)
}

/// Where the occurrence of an index begins, of which the first begins there.
fn advanced(offset: u32, step: Step, index: u32) -> u32
    requires one { 1 ≤ index }
    requires most { index ≤ step.count }
    requires short { offset + (step.count - 1) * step.size < 2 ^ 32 }
    ensures value { result ≡ offset + (index - 1) * step.size }
    ensures most { result ≤ offset + (step.count - 1) * step.size }
{
    offset + (index - 1) * step.size
}

fn span_from(span: Span, offset: u32, length: u32) -> Span
    ensures { result ≡ spec.span_from span offset length }
{
    Span {
        area: span.area,
        offset,
        length,
    }
}

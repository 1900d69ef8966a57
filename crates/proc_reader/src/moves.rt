ghost use Rattle.std.specs.Prelude.{◌≡◌, Some, map, IfOk, IfErr};
ghost use Rattle.cobol_syntax.specs.declared.statement.Form.TheVariants as form;

use crate::keyword::Keyword;
use crate::sentence::Sentences;
use crate::spot::Stop;
use crate::tree::{alone, with_room};
use cobol_syntax::{Form, Operand, Place, Register};
use cond_reader::Symbol;
use std::alloc::Global;
use y2k_base::{List, Memory, Twin};

/// MOVE to each of the places.
fn moves(alloc: Global, from: &Operand, places: List<Place>) -> Result<List<Form>, Memory>
    ensures { IfOk result (λ forms. forms ≡ map (form.Move from.now) places) }
{
    let mut forms = with_room(alloc, places.len())?;
    for to in places.into_vec() {
        let from = from.twin(alloc)?;
        forms.push(Form::Move { from, to })?;
    }
    Ok(forms)
}

impl<'a> Sentences<'a> {
    ghost use Rattle.proc_reader.specs.Moves as spec;
    ghost use Rattle.proc_reader.specs.View.{source_of};
    ghost use Rattle.proc_reader.specs.Reading.{IsUnread};

    /// The identifiers read so far, and those from here on.
    #[tactic(auto, unfolding(crate::specs::Moves::more_places))]
    fn more_places(
        &self,
        level: u32,
        mut places: List<Place>,
        mut at: u32,
    ) -> Result<(List<Place>, u32), Memory>
        ensures { IfOk result (λ r. r ≡ spec.more_places (source_of self.now) level places at) }
    {
        for _turn in 0..self.parts.kinds.len() {
            match self.parts.place(level, at)? {
                None => return Ok((places, at)),
                Some((place, next)) => {
                    places.push(place)?;
                    at = next;
                }
            }
        }
        Ok((places, at))
    }

    /// An operand, TO and one or more identifiers.
    #[tactic(auto, unfolding(crate::specs::Moves::moved))]
    pub fn moved(&self, level: u32, at: u32) -> Result<(List<Form>, u32), Stop>
        ensures read { IfOk result (λ r. spec.moved (source_of self.now) level at ≡ Some r) }
        ensures unread { IfErr result (IsUnread (spec.moved (source_of self.now) level at)) }
    {
        let (from, to_at) = self.operand(level, at)?;
        let at = self.after_symbol(Symbol::To, to_at)?;
        let (first, next) = self.place(level, at)?;
        let (places, end) = self.more_places(level, alone(self.parts.alloc, first)?, next)?;
        let forms = moves(self.parts.alloc, &from, places)?;
        Ok((forms, end))
    }

    /// The operands read so far, and those from here on.
    #[tactic(auto, unfolding(crate::specs::Moves::more_operands))]
    fn more_operands(
        &self,
        level: u32,
        mut operands: List<Operand>,
        mut at: u32,
    ) -> Result<(List<Operand>, u32), Memory>
        ensures { IfOk result (λ r. r ≡ spec.more_operands (source_of self.now) level operands at) }
    {
        for _turn in 0..self.parts.kinds.len() {
            match self.parts.operand(level, at)? {
                None => return Ok((operands, at)),
                Some((operand, next)) => {
                    operands.push(operand)?;
                    at = next;
                }
            }
        }
        Ok((operands, at))
    }

    /// One or more operands that DISPLAY shows.
    #[tactic(auto, unfolding(crate::specs::Moves::shown))]
    pub fn shown(&self, level: u32, at: u32) -> Result<(Form, u32), Stop>
        ensures read { IfOk result (λ r. spec.shown (source_of self.now) level at ≡ Some r) }
        ensures unread { IfErr result (IsUnread (spec.shown (source_of self.now) level at)) }
    {
        let (first, next) = self.operand(level, at)?;
        let (operands, end) = self.more_operands(level, alone(self.parts.alloc, first)?, next)?;
        Ok((Form::Show { operands }, end))
    }

    /// What ACCEPT takes from the system.
    #[tactic(auto, unfolding(crate::specs::Moves::register))]
    fn register(&self, at: u32) -> Result<(Register, u32), Stop>
        ensures read { IfOk result (λ r. spec.register (source_of self.now) at ≡ Some r) }
        ensures unread { IfErr result (IsUnread (spec.register (source_of self.now) at)) }
    {
        if self.has(Keyword::Date, at) {
            Ok((Register::Date, at + 1))
        } else if self.has(Keyword::Day, at) {
            Ok((Register::Day, at + 1))
        } else if self.has(Keyword::Time, at) {
            Ok((Register::Time, at + 1))
        } else {
            Err(Stop::Unread)
        }
    }

    /// An identifier, FROM and DATE, DAY or TIME.
    #[tactic(auto, unfolding(crate::specs::Moves::accepted))]
    pub fn accepted(&self, level: u32, at: u32) -> Result<(Form, u32), Stop>
        ensures read { IfOk result (λ r. spec.accepted (source_of self.now) level at ≡ Some r) }
        ensures unread { IfErr result (IsUnread (spec.accepted (source_of self.now) level at)) }
    {
        let (to, from_at) = self.place(level, at)?;
        let at = self.after(Keyword::From, from_at)?;
        let (from, end) = self.register(at)?;
        Ok((Form::Accept { to, from }, end))
    }
}

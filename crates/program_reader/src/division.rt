ghost use Rattle.std.specs.Prelude.{◌≡◌, IfOk};
ghost use Rattle.program_reader.specs.Programs as spec;
ghost use Rattle.program_reader.specs.View.{view_of};

use crate::term::Term;
use crate::text::{Outcome, Units};
use crate::unit::Passed;
use cobol_syntax::Select;
use y2k_base::{Bytes, List};

impl<'a> Units<'a> {
    /// PROGRAM-ID, and the name of the program.
    #[tactic(auto, unfolding(crate::specs::Programs::program_id))]
    fn program_id(&self, at: u32) -> Outcome<Bytes>
        ensures { IfOk result (λ r. r ≡ spec.program_id (view_of self.now) at) }
    {
        match self.required(self.header(Term::ProgramId, at), at)? {
            Err(refused) => Ok(Err(refused)),
            Ok(next) => self.name_unit(next),
        }
    }

    /// The identification division, with which a program begins.
    #[tactic(auto, unfolding(crate::specs::Programs::identification))]
    pub fn identification(&self, at: u32) -> Outcome<Bytes>
        ensures { IfOk result (λ r. r ≡ spec.identification (view_of self.now) at) }
    {
        match self.required(self.headers(Term::Identification, Term::Division, at), at)? {
            Err(refused) => Ok(Err(refused)),
            Ok(next) => self.program_id(next),
        }
    }

    /// The paragraph of a computer, if it is written.
    #[tactic(auto, unfolding(crate::specs::Programs::computer))]
    fn computer(&self, term: Term, at: u32) -> Passed
        ensures { IfOk result (λ r. r ≡ spec.computer (view_of self.now) term at) }
    {
        match self.header(term, at) {
            None => Ok(Ok(at)),
            Some(next) => match self.name_unit(next)? {
                Err(refused) => Ok(Err(refused)),
                Ok((_name, end)) => Ok(Ok(end)),
            },
        }
    }

    /// The configuration section, if it is written.
    #[tactic(auto, unfolding(crate::specs::Programs::configuration))]
    fn configuration(&self, at: u32) -> Passed
        ensures { IfOk result (λ r. r ≡ spec.configuration (view_of self.now) at) }
    {
        match self.headers(Term::Configuration, Term::Section, at) {
            None => Ok(Ok(at)),
            Some(next) => match self.computer(Term::SourceComputer, next)? {
                Err(refused) => Ok(Err(refused)),
                Ok(end) => self.computer(Term::ObjectComputer, end),
            },
        }
    }

    /// One more SELECT entry.
    #[tactic(auto, unfolding(crate::specs::Programs::next_select))]
    fn next_select(&self, mut selects: List<Select>, at: u32) -> Outcome<List<Select>>
        ensures { IfOk result (λ r. r ≡ spec.next_select (view_of self.now) selects at) }
    {
        match self.select_unit(at)? {
            Err(refused) => Ok(Err(refused)),
            Ok((select, next)) => {
                selects.push(select)?;
                Ok(Ok((selects, next)))
            }
        }
    }

    /// The SELECT entries read so far, and those from here on.
    #[tactic(auto, unfolding(crate::specs::Programs::more_selects))]
    fn more_selects(&self, mut selects: List<Select>, mut at: u32) -> Outcome<List<Select>>
        ensures { IfOk result (λ r. r ≡ spec.more_selects (view_of self.now) selects at) }
    {
        for _turn in 0..self.terms.len() {
            if !self.has(Term::Select, at) {
                return Ok(Ok((selects, at)));
            }
            match self.next_select(selects, at)? {
                Err(refused) => return Ok(Err(refused)),
                Ok((more, next)) => {
                    selects = more;
                    at = next;
                }
            }
        }
        Ok(Ok((selects, at)))
    }

    /// The input-output section, if it is written.
    #[tactic(auto, unfolding(crate::specs::Programs::input_output))]
    fn input_output(&self, at: u32) -> Outcome<List<Select>>
        ensures { IfOk result (λ r. r ≡ spec.input_output (view_of self.now) at) }
    {
        let selects = List::new(self.parts.alloc);
        match self.headers(Term::InputOutput, Term::Section, at) {
            None => Ok(Ok((selects, at))),
            Some(next) => match self.required(self.header(Term::FileControl, next), next)? {
                Err(refused) => Ok(Err(refused)),
                Ok(start) => self.more_selects(selects, start),
            },
        }
    }

    /// The environment division, if it is written.
    #[tactic(auto, unfolding(crate::specs::Programs::environment))]
    pub fn environment(&self, at: u32) -> Outcome<List<Select>>
        ensures { IfOk result (λ r. r ≡ spec.environment (view_of self.now) at) }
    {
        match self.headers(Term::Environment, Term::Division, at) {
            None => Ok(Ok((List::new(self.parts.alloc), at))),
            Some(next) => match self.configuration(next)? {
                Err(refused) => Ok(Err(refused)),
                Ok(start) => self.input_output(start),
            },
        }
    }
}

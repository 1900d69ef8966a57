ghost use Rattle.std.specs.Prelude.{◌≡◌, Some, IfOk, IfErr};
ghost use Rattle.proc_reader.specs.Classes as classes;
ghost use Rattle.proc_reader.specs.Simple as spec;

use crate::keyword::Keyword;
use crate::sentence::Sentences;
use crate::spot::{Spot, Stop};
use crate::tree::{alone, number_after, numbered};
use cobol_syntax::{Form, Statement};
use cond_reader::Symbol;
use y2k_base::List;

/// The sorts of statements, by the words that begin them. `Inner` is each word that begins none.
#[derive(Clone, Copy, Debug, PartialEq, Eq)]
pub enum Class {
    /// No statement stands inside.
    Simple,
    Arithmetic,
    /// A level is opened.
    Nested,
    Perform,
    Inner,
}

pub fn class_of(keyword: Keyword) -> Class
    ensures { result ≡ classes.class_of keyword }
{
    match keyword {
        Keyword::Move
        | Keyword::Go
        | Keyword::Stop
        | Keyword::Exit
        | Keyword::Continue
        | Keyword::Open
        | Keyword::Close
        | Keyword::Write
        | Keyword::Accept
        | Keyword::Display => Class::Simple,
        Keyword::Add | Keyword::Subtract | Keyword::Multiply | Keyword::Divide | Keyword::Compute =>
            Class::Arithmetic,
        Keyword::If | Keyword::Evaluate | Keyword::Read => Class::Nested,
        Keyword::Perform => Class::Perform,
        _ => Class::Inner,
    }
}

fn is_verb(class: Class) -> bool
    ensures { result ≡ classes.is_verb class }
{
    match class {
        Class::Simple => true,
        Class::Arithmetic => true,
        Class::Nested => true,
        Class::Perform => true,
        Class::Inner => false,
    }
}

impl<'a> Sentences<'a> {
    ghost use Rattle.proc_reader.specs.View.{source_of};
    ghost use Rattle.proc_reader.specs.Reading.{IsUnread};

    /// Whether a statement begins here.
    #[tactic(auto, unfolding(crate::specs::Classes::begins))]
    pub fn begins(&self, at: u32) -> bool
        ensures { result ≡ classes.begins (source_of self.now) at }
    {
        is_verb(class_of(self.keyword(at)))
    }

    /// What follows GO: TO if it stands here, and a paragraph or section.
    #[tactic(auto, unfolding(crate::specs::Simple::gone))]
    fn gone(&self, at: u32) -> Result<(Form, u32), Stop>
        ensures read { IfOk result (λ r. spec.gone (source_of self.now) at ≡ Some r) }
        ensures unread { IfErr result (IsUnread (spec.gone (source_of self.now) at)) }
    {
        let (name, end) = self.name(self.skip_symbol(Symbol::To, at))?;
        Ok((Form::GoTo { name }, end))
    }

    /// A statement of which one form is read.
    #[tactic(auto, unfolding(crate::specs::Simple::single))]
    fn single(&self, level: u32, at: u32) -> Result<(Form, u32), Stop>
        ensures read { IfOk result (λ r. spec.single (source_of self.now) level at ≡ Some r) }
        ensures unread { IfErr result (IsUnread (spec.single (source_of self.now) level at)) }
    {
        if self.has(Keyword::Perform, at) {
            let form = self.performed(level, at + 1)?;
            Ok(form)
        } else if self.has(Keyword::Go, at) {
            let form = self.gone(at + 1)?;
            Ok(form)
        } else if self.has(Keyword::Write, at) {
            let form = self.written(level, at + 1)?;
            Ok(form)
        } else if self.has(Keyword::Accept, at) {
            let form = self.accepted(level, at + 1)?;
            Ok(form)
        } else if self.has(Keyword::Display, at) {
            let form = self.shown(level, at + 1)?;
            Ok(form)
        } else {
            let form = self.word_alone(at)?;
            Ok(form)
        }
    }

    /// STOP RUN, EXIT or CONTINUE.
    #[tactic(auto, unfolding(crate::specs::Simple::word_alone))]
    fn word_alone(&self, at: u32) -> Result<(Form, u32), Stop>
        ensures read { IfOk result (λ r. spec.word_alone (source_of self.now) at ≡ Some r) }
        ensures unread { IfErr result (IsUnread (spec.word_alone (source_of self.now) at)) }
    {
        if self.has(Keyword::Exit, at) {
            Ok((Form::Nothing, at + 1))
        } else if self.has(Keyword::Continue, at) {
            Ok((Form::Nothing, at + 1))
        } else {
            let run_at = self.after(Keyword::Stop, at)?;
            let end = self.after(Keyword::Run, run_at)?;
            Ok((Form::Stop, end))
        }
    }

    /// The forms of a statement inside which no statement stands.
    #[tactic(auto, unfolding(crate::specs::Simple::simple))]
    fn simple(&self, level: u32, at: u32) -> Result<(List<Form>, u32), Stop>
        ensures read { IfOk result (λ r. spec.simple (source_of self.now) level at ≡ Some r) }
        ensures unread { IfErr result (IsUnread (spec.simple (source_of self.now) level at)) }
    {
        if self.has(Keyword::Move, at) {
            let forms = self.moved(level, at + 1)?;
            Ok(forms)
        } else if self.has(Keyword::Open, at) {
            let (opened, end) = self.opened(at + 1)?;
            Ok((opened.into_forms(), end))
        } else if self.has(Keyword::Close, at) {
            let forms = self.closed(at + 1)?;
            Ok(forms)
        } else {
            let (form, end) = self.single(level, at)?;
            let forms = alone(self.parts.alloc, form)?;
            Ok((forms, end))
        }
    }

    /// The statements of a text statement inside which no statement stands.
    #[tactic(auto, unfolding(crate::specs::Simple::simple_statements))]
    pub fn simple_statements(&self, level: u32, spot: Spot) -> Result<(List<Statement>, Spot), Stop>
        ensures read { IfOk result (λ r. spec.simple_statements (source_of self.now) level spot ≡ Some r) }
        ensures unread { IfErr result (IsUnread (spec.simple_statements (source_of self.now) level spot)) }
    {
        let (forms, end) = self.simple(level, spot.at)?;
        let number = number_after(spot.number, forms.len())?;
        let list = numbered(
            self.parts.alloc,
            self.program,
            spot.at,
            end,
            spot.number,
            forms,
        )?;
        Ok((list, Spot { at: end, number }))
    }
}

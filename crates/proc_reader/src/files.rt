ghost use Rattle.std.specs.Prelude.{◌≡◌, ◌≢◌, ◌<◌, length, None, Some, map, IfOk, IfErr};
ghost use Rattle.cobol_syntax.specs.declared.statement.Form.TheVariants as form;
ghost use Rattle.proc_reader.specs.Files as spec;

use crate::keyword::Keyword;
use crate::sentence::Sentences;
use crate::spot::Stop;
use crate::tree::alone;
use cobol_syntax::{Form, Mode, Operand, Place};
use cond_reader::Found;
use std::alloc::Global;
use y2k_base::{Bytes, List, Memory};

/// The files that are opened in one mode or several, and the mode of the last one.
pub struct Opened {
    pub mode: Mode,
    pub forms: List<Form>,
}

impl Drop for Opened {
    fn drop(self) {
        let Opened {
            mode: _,
            forms: _forms,
        } = self;
    }
}

impl Opened {
    /// One more file.
    #[tactic(auto, unfolding(crate::specs::Files::one_more))]
    fn one_more(self, next: (Mode, Bytes)) -> Result<Opened, Memory>
        ensures { IfOk result (λ r. r ≡ spec.one_more self next) }
    {
        let Opened { mode: _, mut forms } = self;
        let (mode, file) = next;
        forms.push(Form::Open { mode, file })?;
        Ok(Opened { mode, forms })
    }

    pub fn into_forms(self) -> List<Form>
        ensures { result ≡ self.forms }
    {
        let Opened { mode: _, forms } = self;
        forms
    }
}

/// CLOSE of each file.
fn closes(alloc: Global, files: List<Bytes>) -> Result<List<Form>, Memory>
    ensures { IfOk result (λ forms. forms ≡ map form.Close files) }
{
    let mut forms = List::new(alloc);
    for file in files.into_vec() {
        forms.push(Form::Close { file })?;
    }
    Ok(forms)
}

impl<'a> Sentences<'a> {
    ghost use Rattle.proc_reader.specs.View.{source_of};
    ghost use Rattle.proc_reader.specs.Reading.{IsUnread};

    /// INPUT, OUTPUT or EXTEND.
    #[tactic(auto, unfolding(crate::specs::Files::mode))]
    fn mode(&self, at: u32) -> Option<Mode>
        ensures value { result ≡ spec.mode (source_of self.now) at }
        ensures within { result ≢ None → at < length self.now.keywords.now }
    {
        if self.has(Keyword::Input, at) {
            Some(Mode::Input)
        } else if self.has(Keyword::Output, at) {
            Some(Mode::Output)
        } else if self.has(Keyword::Extend, at) {
            Some(Mode::Extend)
        } else {
            None
        }
    }

    /// A file and its mode, which is the one so far unless another is written.
    #[tactic(auto, unfolding(crate::specs::Files::file_of_mode))]
    fn file_of_mode(&self, so_far: Mode, at: u32) -> Found<(Mode, Bytes)>
        ensures { IfOk result (λ r. r ≡ spec.file_of_mode (source_of self.now) so_far at) }
    {
        match self.mode(at) {
            None => match self.parts.name(at)? {
                None => Ok(None),
                Some((file, next)) => Ok(Some(((so_far, file), next))),
            },
            Some(mode) => match self.parts.name(at + 1)? {
                None => Ok(None),
                Some((file, next)) => Ok(Some(((mode, file), next))),
            },
        }
    }

    /// The files read so far, and those from here on.
    #[tactic(auto, unfolding(crate::specs::Files::more_opened))]
    fn more_opened(&self, mut opened: Opened, mut at: u32) -> Result<(Opened, u32), Memory>
        ensures { IfOk result (λ r. r ≡ spec.more_opened (source_of self.now) opened at) }
    {
        for _turn in 0..self.parts.kinds.len() {
            match self.file_of_mode(opened.mode, at)? {
                None => return Ok((opened, at)),
                Some((file, next)) => {
                    opened = opened.one_more(file)?;
                    at = next;
                }
            }
        }
        Ok((opened, at))
    }

    /// A mode, and one or more files.
    #[tactic(auto, unfolding(crate::specs::Files::opened))]
    pub fn opened(&self, at: u32) -> Result<(Opened, u32), Stop>
        ensures read { IfOk result (λ r. spec.opened (source_of self.now) at ≡ Some r) }
        ensures unread { IfErr result (IsUnread (spec.opened (source_of self.now) at)) }
    {
        match self.mode(at) {
            None => Err(Stop::Unread),
            Some(mode) => {
                let (file, next) = self.name(at + 1)?;
                let forms = List::new(self.parts.alloc);
                let first = Opened { mode, forms }.one_more((mode, file))?;
                let all = self.more_opened(first, next)?;
                Ok(all)
            }
        }
    }

    /// The names read so far, and those from here on.
    #[tactic(auto, unfolding(crate::specs::Files::more_files))]
    fn more_files(&self, mut files: List<Bytes>, mut at: u32) -> Result<(List<Bytes>, u32), Memory>
        ensures { IfOk result (λ r. r ≡ spec.more_files (source_of self.now) files at) }
    {
        for _turn in 0..self.parts.kinds.len() {
            match self.parts.name(at)? {
                None => return Ok((files, at)),
                Some((file, next)) => {
                    files.push(file)?;
                    at = next;
                }
            }
        }
        Ok((files, at))
    }

    /// One or more files that CLOSE closes.
    #[tactic(auto, unfolding(crate::specs::Files::closed))]
    pub fn closed(&self, at: u32) -> Result<(List<Form>, u32), Stop>
        ensures read { IfOk result (λ r. spec.closed (source_of self.now) at ≡ Some r) }
        ensures unread { IfErr result (IsUnread (spec.closed (source_of self.now) at)) }
    {
        let (first, next) = self.name(at)?;
        let (files, end) = self.more_files(alone(self.parts.alloc, first)?, next)?;
        let forms = closes(self.parts.alloc, files)?;
        Ok((forms, end))
    }

    /// FROM and an operand, if FROM stands here.
    #[tactic(auto, unfolding(crate::specs::Files::source))]
    fn source(&self, level: u32, at: u32) -> Result<(Option<Operand>, u32), Stop>
        ensures read { IfOk result (λ r. spec.source (source_of self.now) level at ≡ Some r) }
        ensures unread { IfErr result (IsUnread (spec.source (source_of self.now) level at)) }
    {
        if self.has(Keyword::From, at) {
            let (operand, end) = self.operand(level, at + 1)?;
            Ok((Some(operand), end))
        } else {
            Ok((None, at))
        }
    }

    /// PAGE, or how many lines a report goes on.
    #[tactic(auto, unfolding(crate::specs::Files::lines))]
    fn lines(&self, level: u32, at: u32) -> Result<(Option<Operand>, u32), Stop>
        ensures read { IfOk result (λ r. spec.lines (source_of self.now) level at ≡ Some r) }
        ensures unread { IfErr result (IsUnread (spec.lines (source_of self.now) level at)) }
    {
        if self.has(Keyword::Page, at) {
            Ok((None, at + 1))
        } else {
            let (operand, next) = self.operand(level, at)?;
            Ok((Some(operand), self.skip(Keyword::Line, next)))
        }
    }

    /// BEFORE or AFTER ADVANCING, if one of them stands here.
    #[tactic(auto, unfolding(crate::specs::Files::advance))]
    fn advance(&self, level: u32, at: u32) -> Result<(Option<Operand>, u32), Stop>
        ensures read { IfOk result (λ r. spec.advance (source_of self.now) level at ≡ Some r) }
        ensures unread { IfErr result (IsUnread (spec.advance (source_of self.now) level at)) }
    {
        if self.has(Keyword::Before, at) {
            let lines = self.lines(level, self.skip(Keyword::Advancing, at + 1))?;
            Ok(lines)
        } else if self.has(Keyword::After, at) {
            let lines = self.lines(level, self.skip(Keyword::Advancing, at + 1))?;
            Ok(lines)
        } else {
            Ok((None, at))
        }
    }

    /// What follows WRITE.
    #[tactic(auto, unfolding(crate::specs::Files::written))]
    pub fn written(&self, level: u32, at: u32) -> Result<(Form, u32), Stop>
        ensures read { IfOk result (λ r. spec.written (source_of self.now) level at ≡ Some r) }
        ensures unread { IfErr result (IsUnread (spec.written (source_of self.now) level at)) }
    {
        let (name, from_at) = self.name(at)?;
        let (from, advance_at) = self.source(level, from_at)?;
        let (advance, next) = self.advance(level, advance_at)?;
        let end = self.skip(Keyword::EndWrite, next);
        let form = Form::Write {
            name,
            from,
            advance,
        };
        Ok((form, end))
    }

    /// INTO and an item, if INTO stands here.
    #[tactic(auto, unfolding(crate::specs::Files::destination))]
    pub fn destination(&self, level: u32, at: u32) -> Result<(Option<Place>, u32), Stop>
        ensures read { IfOk result (λ r. spec.destination (source_of self.now) level at ≡ Some r) }
        ensures unread { IfErr result (IsUnread (spec.destination (source_of self.now) level at)) }
    {
        if self.has(Keyword::Into, at) {
            let (place, end) = self.place(level, at + 1)?;
            Ok((Some(place), end))
        } else {
            Ok((None, at))
        }
    }

    /// What follows READ, up to INTO: the file, with NEXT and RECORD after it or without.
    #[tactic(auto, unfolding(crate::specs::Files::file_name))]
    pub fn file_name(&self, at: u32) -> Result<(Bytes, u32), Stop>
        ensures read { IfOk result (λ r. spec.file_name (source_of self.now) at ≡ Some r) }
        ensures unread { IfErr result (IsUnread (spec.file_name (source_of self.now) at)) }
    {
        let (file, next_at) = self.name(at)?;
        let record_at = self.skip(Keyword::Next, next_at);
        Ok((file, self.skip(Keyword::Record, record_at)))
    }
}

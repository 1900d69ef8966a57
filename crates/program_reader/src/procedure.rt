ghost use Rattle.std.specs.Prelude.{◌≡◌, IfOk};
ghost use Rattle.program_reader.specs.Procedures as spec;
ghost use Rattle.program_reader.specs.View.{view_of};
ghost use Rattle.proc_reader.specs.View.{source_of};

use crate::fault::Refused;
use crate::term::Term;
use crate::text::{Outcome, Units};
use cobol_syntax::{Paragraph, Sentence};
use cond_reader::{Found, Symbol};
use proc_reader::{Sentences, Stop};
use y2k_base::{Bytes, List, Memory};

/// Sentences as read so far, and the number of the next statement.
#[derive(Drop)]
pub struct Body {
    pub sentences: List<Sentence>,
    pub number: u32,
}

/// Paragraphs and sections as read so far, and the number of the next statement.
#[derive(Drop)]
pub struct Chapters {
    pub paragraphs: List<Paragraph>,
    pub number: u32,
}

/// The name of a paragraph or of a section.
#[derive(Drop)]
pub struct Heading {
    pub name: Bytes,
    pub section: bool,
}

impl<'a> Units<'a> {
    /// The header of a section or of a paragraph.
    #[tactic(auto, unfolding(crate::specs::Procedures::heading))]
    fn heading(&self, at: u32) -> Found<Heading>
        ensures { IfOk result (λ r. r ≡ spec.heading (view_of self.now) at) }
    {
        match self.parts.name(at)? {
            None => Ok(None),
            Some((name, next)) => match self.header(Term::Section, next) {
                Some(end) => Ok(Some((
                    Heading {
                        name,
                        section: true,
                    },
                    end,
                ))),
                None => match self.ended(next) {
                    None => Ok(None),
                    Some(end) => Ok(Some((
                        Heading {
                            name,
                            section: false,
                        },
                        end,
                    ))),
                },
            },
        }
    }

    /// The header of a section or of a paragraph, which must stand here.
    #[tactic(auto, unfolding(crate::specs::Procedures::heading_unit))]
    fn heading_unit(&self, at: u32) -> Outcome<Heading>
        ensures { IfOk result (λ r. r ≡ spec.heading_unit (view_of self.now) at) }
    {
        match self.heading(at)? {
            Some(found) => Ok(Ok(found)),
            None => Ok(Err(self.fault(at))),
        }
    }

    /// One more sentence, which must stand here.
    #[tactic(auto, unfolding(crate::specs::Procedures::next_sentence))]
    fn next_sentence(&self, sentences: &Sentences, body: Body, at: u32) -> Outcome<Body>
        ensures { IfOk result (λ r. r ≡ spec.next_sentence (view_of self.now) (source_of sentences.now) body at) }
    {
        let Body {
            sentences: mut list,
            number,
        } = body;
        match sentences.sentence(at, number) {
            Ok((sentence, spot)) => {
                list.push(sentence)?;
                let body = Body {
                    sentences: list,
                    number: spot.number,
                };
                Ok(Ok((body, spot.at)))
            }
            Err(Stop::Memory) => Err(Memory),
            Err(Stop::Unread) => Ok(Err(self.fault(at))),
        }
    }

    /// Whether a sentence must stand here: the words are not at their end, and no name begins a header.
    #[tactic(auto, unfolding(crate::specs::Procedures::begins_sentence))]
    fn begins_sentence(&self, at: u32) -> bool
        ensures { result ≡ spec.begins_sentence (view_of self.now) at }
    {
        !self.parts.sees(Symbol::Name, at) && !self.parts.sees(Symbol::End, at)
    }

    /// The sentences read so far, and those from here on.
    #[tactic(auto, unfolding(crate::specs::Procedures::more_sentences))]
    fn more_sentences(&self, sentences: &Sentences, mut body: Body, mut at: u32) -> Outcome<Body>
        ensures { IfOk result (λ r. r ≡ spec.more_sentences (view_of self.now) (source_of sentences.now) body at) }
    {
        for _turn in 0..self.terms.len() {
            if !self.begins_sentence(at) {
                return Ok(Ok((body, at)));
            }
            match self.next_sentence(sentences, body, at)? {
                Err(refused) => return Ok(Err(refused)),
                Ok((more, next)) => {
                    body = more;
                    at = next;
                }
            }
        }
        Ok(Ok((body, at)))
    }

    /// The paragraph or section with its own sentences, of which the statements are numbered from `number` on.
    #[tactic(auto, unfolding(crate::specs::Procedures::with_body))]
    fn with_body(
        &self,
        sentences: &Sentences,
        chapters: Chapters,
        heading: Heading,
        begin: u32,
        at: u32,
    ) -> Outcome<Chapters>
        ensures { IfOk result (λ r. r ≡ spec.with_body (view_of self.now) (source_of sentences.now) chapters heading begin at) }
    {
        let Chapters {
            mut paragraphs,
            number,
        } = chapters;
        let empty = Body {
            sentences: List::new(self.parts.alloc),
            number,
        };
        match self.more_sentences(sentences, empty, at)? {
            Err(refused) => Ok(Err(refused)),
            Ok((body, next)) => {
                let Heading { name, section } = heading;
                let Body {
                    sentences: list,
                    number: after,
                } = body;
                paragraphs.push(Paragraph {
                    name,
                    section,
                    sentences: list,
                    at: begin,
                })?;
                Ok(Ok((
                    Chapters {
                        paragraphs,
                        number: after,
                    },
                    next,
                )))
            }
        }
    }

    /// One more paragraph or section, with its header.
    #[tactic(auto, unfolding(crate::specs::Procedures::next_paragraph))]
    fn next_paragraph(
        &self,
        sentences: &Sentences,
        chapters: Chapters,
        at: u32,
    ) -> Outcome<Chapters>
        ensures { IfOk result (λ r. r ≡ spec.next_paragraph (view_of self.now) (source_of sentences.now) chapters at) }
    {
        match self.heading_unit(at)? {
            Err(refused) => Ok(Err(refused)),
            Ok((heading, next)) => self.with_body(sentences, chapters, heading, at, next),
        }
    }

    /// The paragraphs and sections read so far, and those from here to the end of the words.
    #[tactic(auto, unfolding(crate::specs::Procedures::more_paragraphs))]
    fn more_paragraphs(
        &self,
        sentences: &Sentences,
        mut chapters: Chapters,
        mut at: u32,
    ) -> Outcome<Chapters>
        ensures { IfOk result (λ r. r ≡ spec.more_paragraphs (view_of self.now) (source_of sentences.now) chapters at) }
    {
        for _turn in 0..self.terms.len() {
            if self.parts.sees(Symbol::End, at) {
                return Ok(Ok((chapters, at)));
            }
            match self.next_paragraph(sentences, chapters, at)? {
                Err(refused) => return Ok(Err(refused)),
                Ok((more, next)) => {
                    chapters = more;
                    at = next;
                }
            }
        }
        Ok(Ok((chapters, at)))
    }

    /// The paragraph without a name that the sentences before the first header make.
    #[tactic(auto, unfolding(crate::specs::Procedures::unnamed))]
    fn unnamed(&self, sentences: &Sentences, chapters: Chapters, at: u32) -> Outcome<Chapters>
        ensures { IfOk result (λ r. r ≡ spec.unnamed (view_of self.now) (source_of sentences.now) chapters at) }
    {
        if self.begins_sentence(at) {
            let heading = Heading {
                name: List::new(self.parts.alloc),
                section: false,
            };
            self.with_body(sentences, chapters, heading, at, at)
        } else {
            Ok(Ok((chapters, at)))
        }
    }

    /// What the procedure division holds: at least one unit.
    #[tactic(auto, unfolding(crate::specs::Procedures::chapters))]
    fn chapters(&self, sentences: &Sentences, at: u32) -> Outcome<Chapters>
        ensures { IfOk result (λ r. r ≡ spec.chapters (view_of self.now) (source_of sentences.now) at) }
    {
        if self.parts.sees(Symbol::End, at) {
            return Ok(Err(self.fault(at)));
        }
        let empty = Chapters {
            paragraphs: List::new(self.parts.alloc),
            number: 0,
        };
        match self.unnamed(sentences, empty, at)? {
            Err(refused) => Ok(Err(refused)),
            Ok((first, next)) => self.more_paragraphs(sentences, first, next),
        }
    }

    /// The paragraphs, where the words end after them.
    #[tactic(auto, unfolding(crate::specs::Procedures::closed))]
    fn closed(
        &self,
        chapters: Chapters,
        end: u32,
    ) -> Result<Result<List<Paragraph>, Refused>, Memory>
        ensures { IfOk result (λ r. r ≡ spec.closed (view_of self.now) chapters end) }
    {
        let Chapters {
            paragraphs,
            number: _,
        } = chapters;
        if self.parts.sees(Symbol::End, end) {
            Ok(Ok(paragraphs))
        } else {
            Ok(Err(self.fault(end)))
        }
    }

    /// The procedure division, with which a program ends.
    #[tactic(auto, unfolding(crate::specs::Procedures::procedure))]
    pub fn procedure(
        &self,
        sentences: &Sentences,
        at: u32,
    ) -> Result<Result<List<Paragraph>, Refused>, Memory>
        ensures { IfOk result (λ r. r ≡ spec.procedure (view_of self.now) (source_of sentences.now) at) }
    {
        match self.required(self.headers(Term::Procedure, Term::Division, at), at)? {
            Err(refused) => Ok(Err(refused)),
            Ok(next) => match self.chapters(sentences, next)? {
                Err(refused) => Ok(Err(refused)),
                Ok((chapters, end)) => self.closed(chapters, end),
            },
        }
    }
}

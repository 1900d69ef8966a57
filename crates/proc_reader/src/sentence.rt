ghost use Rattle.std.specs.Prelude.{◌≡◌, ◌<◌, ◌^◌, length, Some, IfOk, IfErr};

use crate::keyword::Keyword;
use crate::nested::Listed;
use crate::simple::{Class, class_of};
use crate::spot::{Spot, Stop};
use crate::tree::appended;
use cobol_syntax::{Sentence, Statement};
use cond_reader::{Reader, Symbol};
use y2k_base::List;

/// The most levels that are open at once.
pub const LEVELS: u32 = 64;

/// The words of a program, to be read as sentences. Each method reads at a position, and moves nothing.
/// `keywords` says of each word what it is, and `program` is the number of the program in its portfolio.
#[derive(Drop)]
pub struct Sentences<'a> {
    pub parts: Reader<'a>,
    pub keywords: &'a [Keyword],
    pub program: u32,
    ghost known: { length keywords.now < 2 ^ 32 },
    ghost fits: { length parts.words.now < 2 ^ 32 },
    ghost fewer: { length parts.kinds.now < 2 ^ 32 },
}

impl<'a> Sentences<'a> {
    ghost use Rattle.cond_reader.specs.View.{text_of};
    ghost use Rattle.proc_reader.specs.Sentences as spec;
    ghost use Rattle.proc_reader.specs.View.{source_of};
    ghost use Rattle.proc_reader.specs.Reading.{IsUnread};

    /// Sentences of these words, of which the others say what each is.
    pub fn new(parts: Reader<'a>, keywords: &'a [Keyword], program: u32) -> Sentences<'a>
        requires known { length keywords.now < 2 ^ 32 }
        requires fits { length parts.words.now < 2 ^ 32 }
        requires fewer { length parts.kinds.now < 2 ^ 32 }
        ensures { source_of result ≡ record { text = text_of parts.entry; keywords = keywords.now; program = program } }
    {
        Sentences {
            parts,
            keywords,
            program,
        }
    }

    /// IF, EVALUATE or READ, where `level` levels may be opened inside it.
    #[cycle(statement)]
    #[tactic(auto, unfolding(crate::specs::Sentences::nested_statement))]
    fn nested_statement(&self, level: u32, spot: Spot) -> Listed
        ensures read { let t = source_of self.now in IfOk result (λ r. spec.nested_statement t level (spec.statements t level) spot ≡ Some r) }
        ensures unread { let t = source_of self.now in IfErr result (IsUnread (spec.nested_statement t level (spec.statements t level) spot)) }
    {
        if self.has(Keyword::If, spot.at) {
            let list = self.if_statement(level, spot)?;
            Ok(list)
        } else if self.has(Keyword::Evaluate, spot.at) {
            let list = self.evaluate_statement(level, spot)?;
            Ok(list)
        } else {
            let list = self.read_statement(level, spot)?;
            Ok(list)
        }
    }

    /// PERFORM, of statements that follow or of paragraphs.
    #[cycle(statement)]
    #[tactic(auto, using(crate::proofs::Levels::inside_below), unfolding(crate::specs::Sentences::perform_statement))]
    fn perform_statement(&self, level: u32, spot: Spot) -> Listed
        ensures read { let t = source_of self.now in IfOk result (λ r. spec.perform_statement t level (spec.inside t level) spot ≡ Some r) }
        ensures unread { let t = source_of self.now in IfErr result (IsUnread (spec.perform_statement t level (spec.inside t level) spot)) }
    {
        let next = self.after(Keyword::Perform, spot.at)?;
        if self.is_inline(level, next)? {
            if level > 0 {
                let list = self.inline_statement(level - 1, spot)?;
                Ok(list)
            } else {
                Err(Stop::Unread)
            }
        } else {
            let list = self.simple_statements(level, spot)?;
            Ok(list)
        }
    }

    /// The statements of one text statement, where `level` levels may be opened.
    #[cycle(statement)]
    #[tactic(auto, using(crate::proofs::Levels::inside_below), unfolding(crate::specs::Sentences::statement_at))]
    fn statement_at(&self, level: u32, spot: Spot) -> Listed
        ensures read { let t = source_of self.now in IfOk result (λ r. spec.statement_at t level (spec.inside t level) spot ≡ Some r) }
        ensures unread { let t = source_of self.now in IfErr result (IsUnread (spec.statement_at t level (spec.inside t level) spot)) }
    {
        match class_of(self.keyword(spot.at)) {
            Class::Simple => {
                let list = self.simple_statements(level, spot)?;
                Ok(list)
            }
            Class::Arithmetic => {
                let list = self.arithmetic_statements(level, spot)?;
                Ok(list)
            }
            Class::Nested => {
                if level > 0 {
                    let list = self.nested_statement(level - 1, spot)?;
                    Ok(list)
                } else {
                    Err(Stop::Unread)
                }
            }
            Class::Perform => {
                let list = self.perform_statement(level, spot)?;
                Ok(list)
            }
            Class::Inner => Err(Stop::Unread),
        }
    }

    /// The statements read so far, and those from here on.
    #[cycle(statement)]
    #[tactic(auto, unfolding(crate::specs::Sentences::more_statements))]
    fn more_statements(&self, level: u32, mut list: List<Statement>, mut spot: Spot) -> Listed
        ensures read { let t = source_of self.now in IfOk result (λ r. spec.more_statements t level (spec.inside t level) list spot ≡ Some r) }
        ensures unread { let t = source_of self.now in IfErr result (IsUnread (spec.more_statements t level (spec.inside t level) list spot)) }
    {
        for _turn in 0..self.parts.kinds.len() + 1 {
            if !self.begins(spot.at) {
                return Ok((list, spot));
            }
            let (more, next) = self.statement_at(level, spot)?;
            list = appended(list, more)?;
            spot = next;
        }
        Err(Stop::Unread)
    }

    /// One or more statements, where `level` levels may be opened.
    #[cycle(statement)]
    #[tactic(auto, unfolding(crate::specs::Sentences::statements, crate::specs::Sentences::statements_by))]
    pub fn statements(&self, level: u32, spot: Spot) -> Listed
        ensures read { IfOk result (λ r. spec.statements (source_of self.now) level spot ≡ Some r) }
        ensures unread { IfErr result (IsUnread (spec.statements (source_of self.now) level spot)) }
    {
        let (first, next) = self.statement_at(level, spot)?;
        let list = self.more_statements(level, first, next)?;
        Ok(list)
    }

    /// One or more statements and a period, where `level` levels may be opened.
    #[tactic(auto, unfolding(crate::specs::Sentences::sentence))]
    fn sentence_within(&self, level: u32, spot: Spot) -> Result<(Sentence, Spot), Stop>
        ensures read { IfOk result (λ r. spec.sentence (source_of self.now) level spot ≡ Some r) }
        ensures unread { IfErr result (IsUnread (spec.sentence (source_of self.now) level spot)) }
    {
        let (statements, last) = self.statements(level, spot)?;
        let end = self.after_symbol(Symbol::Period, last.at)?;
        let next = Spot {
            at: end,
            number: last.number,
        };
        Ok((Sentence { statements }, next))
    }

    /// The sentence that begins with the word at `at`, whose first statement has the number `number`; and where
    /// reading goes on after its period. At most 64 levels are open at once.
    pub fn sentence(&self, at: u32, number: u32) -> Result<(Sentence, Spot), Stop>
        ensures read { IfOk result (λ r. spec.sentence (source_of self.now) 64 (record { at = at; number = number }) ≡ Some r) }
        ensures unread { IfErr result (IsUnread (spec.sentence (source_of self.now) 64 (record { at = at; number = number }))) }
    {
        let read = self.sentence_within(LEVELS, Spot { at, number })?;
        Ok(read)
    }
}

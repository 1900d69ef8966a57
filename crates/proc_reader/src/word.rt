ghost use Rattle.std.specs.Prelude.{◌≡◌, ◌≢◌, ◌<◌, true, length, Some, IfOk, IfErr};

use crate::keyword::{Keyword, same_keyword};
use crate::sentence::Sentences;
use crate::spot::Stop;
use cobol_syntax::{Condition, Expr, Operand, Place};
use cond_reader::Symbol;
use y2k_base::Bytes;

impl<'a> Sentences<'a> {
    ghost use Rattle.cond_reader.specs.Places as places;
    ghost use Rattle.cond_reader.specs.Exprs as exprs;
    ghost use Rattle.cond_reader.specs.Conds as conds;
    ghost use Rattle.cond_reader.specs.declared.symbol.Symbol.TheVariants as Symbol;
    ghost use Rattle.proc_reader.specs.Source as spec;
    ghost use Rattle.proc_reader.specs.View.{source_of};
    ghost use Rattle.proc_reader.specs.Reading.{IsUnread};
    ghost use Rattle.proc_reader.specs.declared.keyword.Keyword.TheVariants as Keyword;

    /// What the word at a position is.
    #[tactic(auto, unfolding(crate::specs::Source::keyword))]
    pub fn keyword(&self, at: u32) -> Keyword
        ensures value { result ≡ spec.keyword (source_of self.now) at }
        ensures within { result ≢ Keyword.Unlisted → at < length self.now.keywords.now }
    {
        match self.keywords.get(at as usize) {
            Some(keyword) => *keyword,
            None => Keyword::Unlisted,
        }
    }

    /// Whether the word at a position is this one.
    pub fn has(&self, keyword: Keyword, at: u32) -> bool
        ensures value { result ≡ spec.has (source_of self.now) keyword at }
        ensures within { result ≡ true → keyword ≢ Keyword.Unlisted → at < length self.now.keywords.now }
    {
        same_keyword(self.keyword(at), keyword)
    }

    /// The position after this word, if it stands here.
    #[tactic(auto, unfolding(crate::specs::Source::skip))]
    pub fn skip(&self, keyword: Keyword, at: u32) -> u32
        requires { keyword ≢ Keyword.Unlisted }
        ensures { result ≡ spec.skip (source_of self.now) keyword at }
    {
        if self.has(keyword, at) { at + 1 } else { at }
    }

    /// The position after this word, which must stand here.
    #[tactic(auto, unfolding(crate::specs::Source::after))]
    pub fn after(&self, keyword: Keyword, at: u32) -> Result<u32, Stop>
        requires { keyword ≢ Keyword.Unlisted }
        ensures read { IfOk result (λ next. spec.after (source_of self.now) keyword at ≡ Some next) }
        ensures unread { IfErr result (IsUnread (spec.after (source_of self.now) keyword at)) }
    {
        if self.has(keyword, at) {
            Ok(at + 1)
        } else {
            Err(Stop::Unread)
        }
    }

    /// The position after a word of operands and conditions, or a mark, if it stands here.
    #[tactic(auto, unfolding(crate::specs::Source::skip_symbol))]
    pub fn skip_symbol(&self, symbol: Symbol, at: u32) -> u32
        requires { symbol ≢ Symbol.End }
        ensures { result ≡ spec.skip_symbol (source_of self.now) symbol at }
    {
        if self.parts.sees(symbol, at) {
            at + 1
        } else {
            at
        }
    }

    /// The position after a word of operands and conditions, or a mark, which must stand here.
    #[tactic(auto, unfolding(crate::specs::Source::after_symbol))]
    pub fn after_symbol(&self, symbol: Symbol, at: u32) -> Result<u32, Stop>
        requires { symbol ≢ Symbol.End }
        ensures read { IfOk result (λ next. spec.after_symbol (source_of self.now) symbol at ≡ Some next) }
        ensures unread { IfErr result (IsUnread (spec.after_symbol (source_of self.now) symbol at)) }
    {
        if self.parts.sees(symbol, at) {
            Ok(at + 1)
        } else {
            Err(Stop::Unread)
        }
    }

    /// A name, which must stand here.
    pub fn name(&self, at: u32) -> Result<(Bytes, u32), Stop>
        ensures read { IfOk result (λ r. places.name (source_of self.now).text at ≡ Some r) }
        ensures unread { IfErr result (IsUnread (places.name (source_of self.now).text at)) }
    {
        match self.parts.name(at)? {
            None => Err(Stop::Unread),
            Some(found) => Ok(found),
        }
    }

    /// An identifier, which must stand here.
    pub fn place(&self, level: u32, at: u32) -> Result<(Place, u32), Stop>
        ensures read { IfOk result (λ r. places.place (source_of self.now).text level at ≡ Some r) }
        ensures unread { IfErr result (IsUnread (places.place (source_of self.now).text level at)) }
    {
        match self.parts.place(level, at)? {
            None => Err(Stop::Unread),
            Some(found) => Ok(found),
        }
    }

    /// An operand, which must stand here.
    pub fn operand(&self, level: u32, at: u32) -> Result<(Operand, u32), Stop>
        ensures read { IfOk result (λ r. exprs.operand_at (source_of self.now).text level at ≡ Some r) }
        ensures unread { IfErr result (IsUnread (exprs.operand_at (source_of self.now).text level at)) }
    {
        match self.parts.operand(level, at)? {
            None => Err(Stop::Unread),
            Some(found) => Ok(found),
        }
    }

    /// An expression, which must stand here.
    pub fn expr(&self, level: u32, at: u32) -> Result<(Expr, u32), Stop>
        ensures read { IfOk result (λ r. exprs.expr (source_of self.now).text level at ≡ Some r) }
        ensures unread { IfErr result (IsUnread (exprs.expr (source_of self.now).text level at)) }
    {
        match self.parts.expr(level, at)? {
            None => Err(Stop::Unread),
            Some(found) => Ok(found),
        }
    }

    /// A condition, which must stand here.
    pub fn condition(&self, level: u32, at: u32) -> Result<(Condition, u32), Stop>
        ensures read { IfOk result (λ r. conds.condition_at (source_of self.now).text level at ≡ Some r) }
        ensures unread { IfErr result (IsUnread (conds.condition_at (source_of self.now).text level at)) }
    {
        match self.parts.condition(level, at)? {
            None => Err(Stop::Unread),
            Some(found) => Ok(found),
        }
    }
}

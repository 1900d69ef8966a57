ghost use Rattle.std.specs.Prelude.{◌≡◌, ◌∷◌, ◌++◌, true, MatchOption, IfOk};
ghost use Rattle.std.specs.Option.{option_copied};
ghost use Rattle.copy_origins.specs.Signs.{is};
ghost use Rattle.copy_origins.specs.Statement.{names_book};
ghost use Rattle.copy_origins.specs.Reads as spec;

use crate::pairs::{Order, Pair, pairs};
use crate::sign::{Sign, is};
use std::alloc::Global;
use y2k_base::{Bytes, List, Memory, Twin, Word};

/// Whether a word may name a book: a name that isn't reserved, or a literal.
#[tactic(auto, unfolding(crate::specs::Statement::names_book))]
fn names_book(word: &Word) -> bool
    ensures { result ≡ names_book word.now }
{
    is(Sign::Name, word) || is(Sign::Literal, word)
}

/// The name of the library, if one stands at the front, and the words after it; none where a word OF has no name.
fn library(words: &[Word]) -> Option<(Option<&Word>, &[Word])>
    ensures { MatchOption result (spec.library_at words.now ≡ None) (λ r. spec.library_at words.now ≡ Some (option_copied r.0, r.1.now)) }
{
    match words {
        [] => Some((None, words)),
        [of] => {
            if is(Sign::Of, of) {
                return None;
            }
            Some((None, words))
        }
        [of, name, more @ ..] => {
            if !is(Sign::Of, of) {
                return Some((None, words));
            }
            if is(Sign::Name, name) {
                return Some((Some(name), more));
            }
            None
        }
    }
}

/// The key of a book, by its name and its library.
fn key_of(alloc: Global, book: &[u8], library: Option<&Word>) -> Result<Bytes, Memory>
    ensures { IfOk result (λ key. key ≡ spec.key_by book.now (option_copied library.entry)) }
{
    let mut key = List::new(alloc);
    match library {
        None => {
            key.append(book)?;
            Ok(key)
        }
        Some(name) => {
            key.append(name.text.items())?;
            key.push(b'/')?;
            key.append(book)?;
            Ok(key)
        }
    }
}

/// The words after a period at the front.
fn ending(words: &[Word]) -> Option<&[Word]>
    ensures { MatchOption result (spec.ending_at words.now ≡ None) (λ r. spec.ending_at words.now ≡ Some r.now) }
{
    match words {
        [] => None,
        [first, rest @ ..] => {
            if is(Sign::Period, first) {
                return Some(rest);
            }
            None
        }
    }
}

/// The pairs after REPLACING up to the period, and the words after it.
fn given_pairs(alloc: Global, words: &[Word]) -> Result<Option<(List<Pair>, &[Word])>, Memory>
    ensures { IfOk result (λ r. MatchOption r (spec.HasNoPairs words.now) (λ p. spec.IsPairs words.now p.0 p.1.now)) }
{
    match pairs(alloc, words) {
        Err(fault) => Err(fault),
        Ok((list, rest)) => {
            if list.items().is_empty() {
                return Ok(None);
            }
            match ending(rest) {
                None => Ok(None),
                Some(more) => Ok(Some((list, more))),
            }
        }
    }
}

/// The pairs and the period that end a statement, and the words after it.
fn tail(alloc: Global, words: &[Word]) -> Result<Option<(List<Pair>, &[Word])>, Memory>
    ensures { IfOk result (λ r. MatchOption r (spec.HasNoTail words.now) (λ p. spec.IsTail words.now p.0 p.1.now)) }
{
    match words {
        [] => Ok(None),
        [first, more @ ..] => {
            if is(Sign::Replacing, first) {
                match given_pairs(alloc, more) {
                    Err(fault) => Err(fault),
                    Ok(given) => match given {
                        None => Ok(None),
                        Some((list, rest)) => Ok(Some((list, rest))),
                    },
                }
            } else {
                match ending(words) {
                    None => Ok(None),
                    Some(rest) => Ok(Some((List::new(alloc), rest))),
                }
            }
        }
    }
}

/// The statement that the word COPY begins, and the words after its period.
pub fn statement<'a>(
    alloc: Global,
    copy: &Word,
    words: &'a [Word],
) -> Result<Option<(Order, &'a [Word])>, Memory>
    requires { is Sign.Copy copy.now ≡ true }
    ensures { IfOk result (λ r. MatchOption r (spec.HasNoStatement (copy.now ∷ words.now)) (λ p. spec.IsOrder (copy.now ∷ words.now) p.0 p.1.now)) }
{
    match words {
        [] => Ok(None),
        [book, more @ ..] => {
            if !names_book(book) {
                return Ok(None);
            }
            match library(more) {
                None => Ok(None),
                Some((name, rest)) => match tail(alloc, rest) {
                    Err(fault) => Err(fault),
                    Ok(ended) => match ended {
                        None => Ok(None),
                        Some((pairs, end)) => {
                            let key = key_of(alloc, book.text.items(), name)?;
                            Ok(Some((Order { key, pairs }, end)))
                        }
                    },
                },
            }
        }
    }
}

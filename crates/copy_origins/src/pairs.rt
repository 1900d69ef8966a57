ghost use Rattle.std.specs.Prelude.{◌≡◌, MatchOption, IfOk};
ghost use Rattle.copy_origins.specs.Reads as spec;

use crate::sign::{Sign, is};
use std::alloc::Global;
use y2k_base::{Bytes, List, Memory, Twin, Word};

/// Words, and those that come in their place.
#[derive(Debug)]
pub struct Pair {
    pub old: List<Word>,
    pub new: List<Word>,
}

/// What a COPY statement asks for: the book with the key, and the pairs of REPLACING.
#[derive(Debug)]
pub struct Order {
    pub key: Bytes,
    pub pairs: List<Pair>,
}

impl Drop for Pair {
    fn drop(self) {
        let Pair {
            old: _old,
            new: _new,
        } = self;
    }
}

impl Drop for Order {
    fn drop(self) {
        let Order {
            key: _key,
            pairs: _pairs,
        } = self;
    }
}

/// The words before the first mark of pseudo-text, and those after it.
fn until(words: &[Word]) -> Option<(&[Word], &[Word])>
    ensures { MatchOption result (spec.until words.now ≡ None) (λ r. spec.until words.now ≡ Some (r.0.now, r.1.now)) }
{
    for i in 0..words.len() {
        if is(Sign::Double, &words[i]) {
            return Some((&words[..i], &words[i..][1..]));
        }
    }
    None
}

/// The words of a name, or of pseudo-text between its marks, and those after it.
fn side(words: &[Word]) -> Option<(&[Word], &[Word])>
    ensures { MatchOption result (spec.side_at words.now ≡ None) (λ r. spec.side_at words.now ≡ Some (r.0.now, r.1.now)) }
{
    match words {
        [] => None,
        [first, more @ ..] => {
            if is(Sign::Double, first) {
                return until(more);
            }
            if is(Sign::Name, first) {
                return Some((&words[..1], more));
            }
            None
        }
    }
}

/// The pair of `old` with what comes after BY, and the words after it.
fn after_old<'a>(old: &'a [Word], words: &'a [Word]) -> Option<(&'a [Word], &'a [Word], &'a [Word])>
    ensures { MatchOption result (spec.after_old old.now words.now ≡ None) (λ r. spec.after_old old.now words.now ≡ Some (r.0.now, r.1.now, r.2.now)) }
{
    let [_, ..] = old else {
        return None;
    };
    let [by, more @ ..] = words else {
        return None;
    };
    if !is(Sign::By, by) {
        return None;
    }
    match side(more) {
        None => None,
        Some((new, rest)) => Some((old, new, rest)),
    }
}

/// A pair at the front of the words: old, new, and the words after them.
pub fn pair_at(words: &[Word]) -> Option<(&[Word], &[Word], &[Word])>
    ensures { MatchOption result (spec.pair_at words.now ≡ None) (λ r. spec.pair_at words.now ≡ Some (r.0.now, r.1.now, r.2.now)) }
{
    match side(words) {
        None => None,
        Some((old, more)) => after_old(old, more),
    }
}

/// Words equal to these.
fn copied(alloc: Global, words: &[Word]) -> Result<List<Word>, Memory>
    ensures { IfOk result (λ copy. copy ≡ words.now) }
{
    let mut copy = List::new(alloc);
    for word in words {
        copy.push(word.twin(alloc)?)?;
    }
    Ok(copy)
}

fn pair_of(alloc: Global, old: &[Word], new: &[Word]) -> Result<Pair, Memory>
    ensures { IfOk result (λ pair. pair ≡ record { old = old.now; new = new.now }) }
{
    Ok(Pair {
        old: copied(alloc, old)?,
        new: copied(alloc, new)?,
    })
}

/// The pairs at the front of the words, and the words after them.
pub fn pairs(alloc: Global, words: &[Word]) -> Result<(List<Pair>, &[Word]), Memory>
    ensures { IfOk result (λ r. spec.IsRun words.now r.0 r.1.now) }
{
    let mut list = List::new(alloc);
    let mut rest = words;
    while let Some((old, new, more)) = pair_at(rest) {
        list.push(pair_of(alloc, old, new)?)?;
        rest = more;
    }
    Ok((list, rest))
}

ghost use Rattle.std.specs.Prelude.{◌≡◌, ◌++◌, drop, MatchOption, IfOk, OnOk};
ghost use Rattle.copy_origins.specs.Replacing as spec;

use crate::pairs::Pair;
use std::alloc::Global;
use y2k_base::{List, Memory, Twin, Word};

/// Whether kind and text are equal.
#[tactic(auto, unfolding(crate::specs::Replacing::same))]
fn same(a: &Word, b: &Word) -> bool
    ensures { result ≡ spec.same a.now b.now }
{
    a.kind == b.kind && a.text.items() == b.text.items()
}

/// Whether the words of `old` stand at the front.
fn begins(old: &[Word], words: &[Word]) -> bool
    ensures { result ≡ spec.begins old.now words.now }
{
    let mut wanted = old;
    let mut rest = words;
    while let [first, others @ ..] = wanted {
        let [word, more @ ..] = rest else {
            return false;
        };
        if !same(first, word) {
            return false;
        }
        wanted = others;
        rest = more;
    }
    true
}

/// The first pair whose old words stand at the front.
fn first_match<'a>(pairs: &'a [Pair], words: &[Word]) -> Option<&'a Pair>
    ensures { MatchOption result (spec.first_match pairs.now words.now ≡ None) (λ p. spec.first_match pairs.now words.now ≡ Some p.now) }
{
    let mut rest = pairs;
    while let [pair, more @ ..] = rest {
        if begins(pair.old.items(), words) {
            return Some(pair);
        }
        rest = more;
    }
    None
}

/// Adds words equal to these.
fn append(alloc: Global, words: &[Word], out: &mut List<Word>) -> Result<(), Memory>
    ensures { OnOk result (out.new ≡ out.old ++ words.now) }
{
    for word in words {
        out.push(word.twin(alloc)?)?;
    }
    Ok(())
}

/// Takes the first of the words, where so many are still covered, and gives how many after it are.
fn turn(
    alloc: Global,
    pairs: &[Pair],
    words: &[Word],
    covered: usize,
    out: &mut List<Word>,
) -> Result<usize, Memory>
    ensures { IfOk result (λ after. out.old ++ spec.replaced pairs.now covered words.now ≡ out.new ++ spec.replaced pairs.now after (drop 1 words.now)) }
{
    match words {
        [] => Ok(0),
        [word, ..] => {
            if covered > 0 {
                return Ok(covered - 1);
            }
            match first_match(pairs, words) {
                None => {
                    out.push(word.twin(alloc)?)?;
                    Ok(0)
                }
                Some(pair) => {
                    append(alloc, pair.new.items(), out)?;
                    Ok(pair.old.items().len().saturating_sub(1))
                }
            }
        }
    }
}

/// The book's words with the pairs, at the end of `out`.
pub fn replace(
    alloc: Global,
    pairs: &[Pair],
    words: &[Word],
    out: &mut List<Word>,
) -> Result<(), Memory>
    ensures { OnOk result (out.new ≡ out.old ++ spec.replaced pairs.now 0 words.now) }
{
    let mut covered = 0;
    for i in 0..words.len() {
        covered = turn(alloc, pairs, &words[i..], covered, out)?;
    }
    Ok(())
}

ghost use Rattle.std.specs.Prelude.{◌≡◌, ◌++◌, ◌≤◌, length, IfOk, OnOk, None, Some, MatchOption};
ghost use Rattle.std.specs.Option.{option_copied};
ghost use Rattle.y2k_base.specs.Edits.{word_of};
ghost use Rattle.source_edit.specs.Changes.{changed, replaced, with_replacement};
ghost use Rattle.source_edit.specs.Clashes as spec;

use crate::changes::{Changes, Replacements};
use crate::line::copy_of;
use plan_limits::{Kept, Limit, LimitKind};
use std::alloc::Global;
use y2k_base::{Bytes, Edit, List, Memory, Origin, Word};

/// Whether kind and text are equal.
#[tactic(auto, unfolding(crate::specs::Clashes::same_words))]
fn is_same(a: &Word, b: &Word) -> bool
    ensures { result ≡ spec.same_words a.now b.now }
{
    a.kind == b.kind && a.text.items() == b.text.items()
}

/// How many words of two lists are the same before the first two that differ, or before one of the lists ends.
pub fn same_count(first: &[Word], second: &[Word]) -> usize
    ensures { result ≡ spec.same_count first.now second.now }
{
    let mut left = first;
    let mut right = second;
    let mut count = 0usize;
    while let [a, more @ ..] = left {
        let [b, others @ ..] = right else {
            return count;
        };
        if !is_same(a, b) {
            return count;
        }
        count += 1;
        left = more;
        right = others;
    }
    count
}

/// Whether the words are the same, whatever their origins.
pub fn are_alike(first: &[Word], second: &[Word]) -> bool
    ensures { result ≡ spec.are_alike first.now second.now }
{
    let count = same_count(first, second);
    count == first.len() && count == second.len()
}

/// The text of the word at that index, empty where there is none.
pub fn text_at(alloc: Global, words: &[Word], index: usize) -> Result<Bytes, Memory>
    ensures { IfOk result (λ text. text ≡ spec.text_at words.now index) }
{
    match words.get(index) {
        Some(word) => copy_of(alloc, word.text.items()),
        None => Ok(List::new(alloc)),
    }
}

/// The clash of two words at an origin.
pub fn clash(at: Origin, first: Bytes, second: Bytes) -> Limit
    ensures { result ≡ spec.clash at first second }
{
    Limit {
        kind: LimitKind::CopyClash,
        at,
        kept: Kept::Words(first, second),
    }
}

/// The clash of the first words that differ.
pub fn first_difference(
    alloc: Global,
    at: Origin,
    first: &[Word],
    second: &[Word],
) -> Result<Limit, Memory>
    ensures { IfOk result (λ limit. limit ≡ spec.first_difference at first.now second.now) }
{
    let count = same_count(first, second);
    let left = text_at(alloc, first, count)?;
    let right = text_at(alloc, second, count)?;
    Ok(clash(at, left, right))
}

/// Adds the clash of an earlier edit of an origin and a later one, if their words differ.
fn add_clash(
    alloc: Global,
    at: Origin,
    earlier: &[Word],
    later: &[Word],
    clashes: &mut List<Limit>,
) -> Result<(), Memory>
    ensures { OnOk result (clashes.new ≡ clashes.old ++ spec.clash_of at earlier.now later.now) }
{
    if !are_alike(earlier, later) {
        clashes.push(first_difference(alloc, at, earlier, later)?)?;
    }
    Ok(())
}

/// The edits of a portfolio by origin and by position, and the clashes of edits of one origin.
#[derive(Drop)]
pub struct Gathering<'a> {
    pub changes: Changes<'a>,
    pub replacements: Replacements<'a>,
    pub clashes: List<Limit>,
}

/// Keeps the words of the edit where no earlier one is of its origin, or holds them against those of the first.
fn change<'a>(
    alloc: Global,
    edit: &'a Edit,
    changes: &mut Changes<'a>,
    clashes: &mut List<Limit>,
) -> Result<(), Memory>
    ensures changes { OnOk result (changed changes.new ≡ spec.with_edit (changed changes.old) edit.now) }
    ensures clashes { OnOk result (clashes.new ≡ clashes.old ++ spec.clash_with (changed changes.old) edit.now) }
{
    match changes.at(edit.at) {
        None => {
            changes.put(edit.at, edit.words.items())?;
            Ok(())
        }
        Some(earlier) => {
            add_clash(alloc, edit.at, earlier, edit.words.items(), clashes)?;
            Ok(())
        }
    }
}

/// Gathers edits. Each of several edits of one origin is held against the first.
pub fn gathering_of(alloc: Global, edits: &[Edit]) -> Result<Gathering, Memory>
    ensures changes { IfOk result (λ g. changed g.changes ≡ spec.changes_of edits.now) }
    ensures replacements { IfOk result (λ g. replaced g.replacements ≡ spec.replacements_of edits.now) }
    ensures clashes { IfOk result (λ g. g.clashes ≡ spec.edit_clashes edits.now) }
{
    let mut changes = Changes::new(alloc);
    let mut replacements = Replacements::new(alloc);
    let mut clashes = List::new(alloc);
    let mut rest = edits;
    while let [edit, more @ ..] = rest {
        replacements.put(edit.word(), edit.words.items())?;
        change(alloc, edit, &mut changes, &mut clashes)?;
        rest = more;
    }
    Ok(Gathering {
        changes,
        replacements,
        clashes,
    })
}

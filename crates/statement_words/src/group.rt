ghost use Rattle.std.specs.Prelude.{◌≡◌, ◌≤◌, ◌<◌, ◌++◌, ◌∷◌, [], length, map, option_map, IfSome, IfNone, OnOk};
ghost use Rattle.std.specs.List.{prefix_len};
ghost use Rattle.y2k_base.specs.Edits.{AreInOrder};
ghost use Rattle.statement_places.specs.Parts.{seen};
ghost use Rattle.statement_words.specs.Groups as spec;

use crate::edited::{EditedWords, add_edited};
use cobol_syntax::Place;
use statement_places::Part;
use std::alloc::Global;
use y2k_base::{List, Memory, Word};

/// A receiver, with its ROUNDED, in a text statement that begins at `at` and ends before `end`.
#[derive(Clone, Copy)]
struct Receiver<'a> {
    at: u32,
    end: u32,
    to: &'a Place,
    rounded: bool,
}

fn receiver_of<'a>(part: Part<'a>) -> Option<Receiver<'a>>
    ensures { option_map spec.received result ≡ spec.receives (seen part.entry) }
{
    match part {
        Part::Move {
            at,
            end,
            from: _,
            to,
        } => Some(Receiver {
            at,
            end,
            to,
            rounded: false,
        }),
        Part::Compute {
            at,
            end,
            to,
            rounded,
            value: _,
        } => Some(Receiver {
            at,
            end,
            to,
            rounded,
        }),
        Part::Accept {
            at,
            end,
            to,
            from: _,
        } => Some(Receiver {
            at,
            end,
            to,
            rounded: false,
        }),
        Part::Test { of: _ } => None,
    }
}

/// Whether the part is of the text statement that begins there.
fn begins_at(at: u32, part: Part) -> bool
    ensures { result ≡ spec.is_at at (spec.receives (seen part.entry)) }
{
    match receiver_of(part) {
        None => false,
        Some(receiver) => receiver.at == at,
    }
}

/// How many parts at the front are of the text statement that begins there.
fn count_at(at: u32, parts: &[Part]) -> usize
    ensures within { result ≤ length parts.now }
    ensures count { result ≡ prefix_len (λ part. spec.is_at at (spec.receives (seen part))) parts.now }
{
    let mut count = 0;
    let mut rest = parts;
    while let [part, more @ ..] = rest {
        if !begins_at(at, *part) {
            return count;
        }
        count += 1;
        rest = more;
    }
    count
}

/// How many of the parts behind one are of its text statement.
fn count_more(first: Part, more: &[Part]) -> usize
    ensures within { result ≤ length more.now }
    ensures count { result ≡ prefix_len (λ part. spec.is_with (seen first.entry) (seen part)) more.now }
{
    match receiver_of(first) {
        None => 0,
        Some(receiver) => count_at(receiver.at, more),
    }
}

/// Splits parts behind those of the first text statement: they have its first word. A condition is alone. `None` where no part
/// is left.
pub fn next_group<'a, 'b>(parts: &'b [Part<'a>]) -> Option<(&'b [Part<'a>], &'b [Part<'a>])>
    ensures none { IfNone result (parts.now ≡ []) }
    ensures parts { IfSome result (λ pair. parts.now ≡ pair.0.now ++ pair.1.now) }
    ensures less { IfSome result (λ pair. length pair.1.now < length parts.now) }
    ensures groups { IfSome result (λ pair. spec.groups (map seen parts.now) ≡ map seen pair.0.now ∷ spec.groups (map seen pair.1.now)) }
{
    match parts {
        [] => None,
        [first, more @ ..] => {
            let count = 1 + count_more(*first, more);
            Some(parts.split_at(count))
        }
    }
}

/// The position behind a receiver, and behind its ROUNDED.
pub fn receiver_end(to: &Place, rounded: bool) -> u32
    ensures { result ≡ spec.receiver_end to.now rounded }
{
    if rounded {
        to.end.saturating_add(1)
    } else {
        to.end
    }
}

/// The position behind the receiver of a part; 0 where it has none.
fn part_end(part: Part) -> u32
    ensures { result ≡ spec.end_of (spec.receives (seen part.entry)) }
{
    match receiver_of(part) {
        None => 0,
        Some(receiver) => receiver_end(receiver.to, receiver.rounded),
    }
}

/// The position behind the last receiver of the parts of a text statement; 0 where they have none.
pub fn group_end(group: &[Part]) -> u32
    ensures { result ≡ spec.group_end (map seen group.now) }
{
    let mut end = 0;
    let mut rest = group;
    while let [part, more @ ..] = rest {
        end = part_end(*part);
        rest = more;
    }
    end
}

/// Adds the words of the text statement of a part before its receiver, edited.
fn add_before(
    alloc: Global,
    into: &mut List<Word>,
    source: EditedWords,
    part: Part,
) -> Result<(), Memory>
    requires { AreInOrder source.edits.now }
    ensures { OnOk result (into.new ≡ into.old ++ spec.before source.entry.program source.entry.words.now source.entry.edits.now (spec.receives (seen part.entry))) }
{
    match receiver_of(part) {
        None => Ok(()),
        Some(receiver) => {
            add_edited(alloc, into, source, receiver.at, receiver.to.at)?;
            Ok(())
        }
    }
}

/// Adds the words of a text statement before its first receiver, edited.
pub fn add_head(
    alloc: Global,
    into: &mut List<Word>,
    source: EditedWords,
    group: &[Part],
) -> Result<(), Memory>
    requires { AreInOrder source.edits.now }
    ensures { OnOk result (into.new ≡ into.old ++ spec.head source.entry.program source.entry.words.now source.entry.edits.now (map seen group.now)) }
{
    match group {
        [] => Ok(()),
        [first, ..] => {
            add_before(alloc, into, source, *first)?;
            Ok(())
        }
    }
}

/// Adds the words of a receiver with its ROUNDED, edited.
pub fn add_receiver(
    alloc: Global,
    into: &mut List<Word>,
    source: EditedWords,
    to: &Place,
    rounded: bool,
) -> Result<(), Memory>
    requires { AreInOrder source.edits.now }
    ensures { OnOk result (into.new ≡ into.old ++ spec.receiver source.entry.program source.entry.words.now source.entry.edits.now to.now rounded) }
{
    add_edited(alloc, into, source, to.at, receiver_end(to, rounded))?;
    Ok(())
}

/// Adds the words of a text statement with the receiver of one of its parts alone, edited.
pub fn add_alone(
    alloc: Global,
    into: &mut List<Word>,
    source: EditedWords,
    group: &[Part],
    part: Part,
) -> Result<(), Memory>
    requires { AreInOrder source.edits.now }
    ensures { OnOk result (into.new ≡ into.old ++ spec.alone source.entry.program source.entry.words.now source.entry.edits.now (map seen group.now) (seen part.entry)) }
{
    match receiver_of(part) {
        None => Ok(()),
        Some(receiver) => {
            add_head(alloc, into, source, group)?;
            add_receiver(alloc, into, source, receiver.to, receiver.rounded)?;
            add_edited(alloc, into, source, group_end(group), receiver.end)?;
            Ok(())
        }
    }
}

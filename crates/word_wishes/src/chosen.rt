ghost use Rattle.std.specs.Prelude.{◌≡◌, ◌++◌, [], IfOk, OnOk};
ghost use Rattle.std.specs.List.{list_any};
ghost use Rattle.y2k_base.specs.Edits.{AreJoined};
ghost use Rattle.word_wishes.specs.Chosen as spec;
ghost use Rattle.word_wishes.specs.Walk as walk;

use cobol_syntax::Program;
use std::alloc::Global;
use y2k_base::{Edit, Edits, List, Memory, Twin, Word, WordKind, join_edits};

fn kind_number(kind: WordKind) -> u8
    ensures { result ≡ spec.kind_number kind }
{
    match kind {
        WordKind::Name => 0,
        WordKind::Number => 1,
        WordKind::Literal => 2,
        WordKind::Picture => 3,
        WordKind::Mark => 4,
    }
}

/// Whether kind and text are equal.
pub fn is_same(a: &Word, b: &Word) -> bool
    ensures { result ≡ spec.is_same a.now b.now }
{
    kind_number(a.kind) == kind_number(b.kind) && a.text.items() == b.text.items()
}

fn are_same(first: &[Word], second: &[Word]) -> bool
    ensures { result ≡ spec.are_same first.now second.now }
{
    let mut first_left = first;
    let mut second_left = second;
    while let [a, more @ ..] = first_left {
        match second_left {
            [] => return false,
            [b, others @ ..] => {
                if !is_same(a, b) {
                    return false;
                }
                first_left = more;
                second_left = others;
            }
        }
    }
    second_left.is_empty()
}

/// Whether one of the wishes is for these words.
fn is_wanted(wishes: &[Edit], words: &[Word]) -> bool
    ensures { result ≡ list_any (spec.wants words.now) wishes.now }
{
    let mut rest = wishes;
    while let [wish, more @ ..] = rest {
        if are_same(wish.words.items(), words) {
            return true;
        }
        rest = more;
    }
    false
}

/// The words of the program of that number.
fn words_of(programs: &[Program], number: u32) -> &[Word]
    ensures { result.now ≡ spec.words_of programs.now number }
{
    match programs.get(number as usize) {
        None => &[],
        Some(program) => program.words.items(),
    }
}

fn is_word(words: &[Word], word: &Word) -> bool
    ensures { result ≡ spec.is_word words.now word.now }
{
    match words {
        [] => false,
        [only] => is_same(only, word),
        [_, _, ..] => false,
    }
}

/// Whether the wish is for the word that stands there.
fn is_kept(programs: &[Program], wish: &Edit) -> bool
    ensures { result ≡ spec.is_kept programs.now wish.now }
{
    match words_of(programs, wish.program).get(wish.position as usize) {
        None => false,
        Some(old) => is_word(wish.words.items(), old),
    }
}

/// Whether wishes for different words of one place leave it as it is.
fn are_kept(programs: &[Program], wishes: &[Edit]) -> bool
    ensures { result ≡ spec.are_kept programs.now wishes.now }
{
    match wishes {
        [] => true,
        [wish] => is_kept(programs, wish),
        [_, _, ..] => false,
    }
}

/// The edit again.
fn twin_of(alloc: Global, edit: &Edit) -> Result<Edit, Memory>
    ensures { IfOk result (λ twin. twin ≡ edit.now) }
{
    Ok(Edit {
        program: edit.program,
        position: edit.position,
        at: edit.at,
        words: edit.words.twin(alloc)?,
    })
}

fn add_twins(alloc: Global, edits: &mut List<Edit>, wishes: &[Edit]) -> Result<(), Memory>
    ensures { OnOk result (edits.new ≡ edits.old ++ wishes.now) }
{
    let mut rest = wishes;
    while let [wish, more @ ..] = rest {
        edits.push(twin_of(alloc, wish)?)?;
        rest = more;
    }
    Ok(())
}

/// Adds wishes for different words of one place, unless they leave it as it is.
fn add_unless_kept(
    alloc: Global,
    edits: &mut List<Edit>,
    programs: &[Program],
    wishes: &[Edit],
) -> Result<(), Memory>
    ensures { OnOk result (edits.new ≡ edits.old ++ spec.unless_kept programs.now wishes.now) }
{
    if are_kept(programs, wishes) {
        Ok(())
    } else {
        add_twins(alloc, edits, wishes)?;
        Ok(())
    }
}

fn add_if_different(alloc: Global, seen: &mut List<Edit>, wish: &Edit) -> Result<(), Memory>
    ensures { OnOk result (seen.new ≡ spec.with_wish seen.old wish.now) }
{
    if is_wanted(seen.items(), wish.words.items()) {
        Ok(())
    } else {
        seen.push(twin_of(alloc, wish)?)?;
        Ok(())
    }
}

/// Whether the wishes are for another place.
fn are_elsewhere(wishes: &[Edit], wish: &Edit) -> bool
    ensures { result ≡ walk.are_elsewhere wishes.now wish.now }
{
    match wishes {
        [] => false,
        [first, ..] => !(wish.program == first.program && wish.position == first.position),
    }
}

/// What wishes that go by places come to, behind those for other words of one place.
fn edits_from(alloc: Global, programs: &[Program], wishes: &[Edit]) -> Result<List<Edit>, Memory>
    ensures { IfOk result (λ edits. edits ≡ walk.edits_from programs.now [] wishes.now) }
{
    let mut edits = List::new(alloc);
    let mut seen = List::new(alloc);
    let mut rest = wishes;
    while let [wish, more @ ..] = rest {
        if are_elsewhere(seen.items(), wish) {
            add_unless_kept(alloc, &mut edits, programs, seen.items())?;
            seen = List::new(alloc);
        }
        add_if_different(alloc, &mut seen, wish)?;
        rest = more;
    }
    add_unless_kept(alloc, &mut edits, programs, seen.items())?;
    Ok(edits)
}

/// The edits by program and position.
fn in_order(alloc: Global, list: List<Edit>) -> Result<List<Edit>, Memory>
    ensures { IfOk result (AreJoined list []) }
{
    let none = Edits {
        list: List::new(alloc),
    };
    let joined = join_edits(alloc, Edits { list }, none)?;
    Ok(joined.list)
}

/// The edits that wishes come to: at each place one for each different word that is wanted there, in the order of the wishes, or
/// none where all of them are for the word that stands there.
pub(crate) fn chosen_edits(
    alloc: Global,
    programs: &[Program],
    wishes: List<Edit>,
) -> Result<List<Edit>, Memory>
    ensures { IfOk result (spec.AreChosen programs.now wishes) }
{
    let ordered = in_order(alloc, wishes)?;
    let edits = edits_from(alloc, programs, ordered.items())?;
    let edits = in_order(alloc, edits)?;
    Ok(edits)
}

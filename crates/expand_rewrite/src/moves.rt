ghost use Rattle.std.specs.Prelude.{◌≡◌, ◌+◌, ◌++◌, map, MatchOption, Some, None, slice_get, IfOk, OnOk};
ghost use Rattle.std.specs.List.{list_any};
ghost use Rattle.y2k_base.specs.Edits.{AreInOrder};
ghost use Rattle.data_layout.specs.Index.{IsReady};
ghost use Rattle.statement_places.specs.Parts.{seen};
ghost use Rattle.expand_rewrite.specs.Old.{known};
ghost use Rattle.expand_rewrite.specs.Moves as spec;

use crate::old::OldProgram;
use cobol_syntax::{Operand, Place};
use date_uses::{Used, operand_used, place_used};
use literal_images::{Meeting, literal_image};
use statement_places::Part;
use statement_words::{add_edited, add_receiver, add_stretch, group_end};
use std::alloc::Global;
use word_wishes::{is_same, literal_at, wanted_word};
use y2k_base::{Edit, List, Memory, Twin, Word};

/// The word of a literal for a receiver.
fn word_for(
    alloc: Global,
    program: OldProgram,
    old: &Word,
    literal: &Used,
    to: &Place,
) -> Result<Word, Memory>
    requires { IsReady program.layout.now }
    ensures { IfOk result (λ word. word ≡ spec.word_for (known program.entry) old.now literal.now to.now) }
{
    let receiver = place_used(alloc, program.layout, to)?;
    let meeting = Meeting::Moved;
    let new = literal_image(alloc, program.index, meeting, literal, &receiver)?;
    let word = wanted_word(alloc, old, &new)?;
    Ok(word)
}

/// Adds the word of a literal for the receiver of a MOVE.
fn add_word_for(
    alloc: Global,
    wanted: &mut List<Word>,
    program: OldProgram,
    old: &Word,
    literal: &Used,
    part: Part,
) -> Result<(), Memory>
    requires { IsReady program.layout.now }
    ensures { OnOk result (wanted.new ≡ wanted.old ++ spec.word_if (known program.entry) old.now literal.now (seen part.entry)) }
{
    match part {
        Part::Move { to, .. } => {
            let word = word_for(alloc, program, old, literal, to)?;
            wanted.push(word)?;
            Ok(())
        }
        Part::Compute { .. } => Ok(()),
        Part::Accept { .. } => Ok(()),
        Part::Test { .. } => Ok(()),
    }
}

/// The words of a literal for the receivers of the parts of a MOVE.
fn words_for(
    alloc: Global,
    program: OldProgram,
    old: &Word,
    literal: &Used,
    group: &[Part],
) -> Result<List<Word>, Memory>
    requires { IsReady program.layout.now }
    ensures { IfOk result (λ words. words ≡ spec.words_for (known program.entry) old.now literal.now (map seen group.now)) }
{
    let mut wanted = List::new(alloc);
    let mut rest = group;
    while let [part, more @ ..] = rest {
        add_word_for(alloc, &mut wanted, program, old, literal, *part)?;
        rest = more;
    }
    Ok(wanted)
}

/// Whether one of the words differs from that word.
fn differ_from(word: &Word, words: &[Word]) -> bool
    ensures { result ≡ list_any (spec.differs word.now) words.now }
{
    let mut rest = words;
    while let [other, more @ ..] = rest {
        if !is_same(word, other) {
            return true;
        }
        rest = more;
    }
    false
}

fn differ(words: &[Word]) -> bool
    ensures { result ≡ spec.differ words.now }
{
    match words {
        [] => false,
        [word, more @ ..] => differ_from(word, more),
    }
}

fn position_behind(position: u32) -> Result<u32, Memory>
    ensures { IfOk result (λ next. next ≡ position + 1) }
{
    match position.checked_add(1) {
        None => Err(Memory),
        Some(next) => Ok(next),
    }
}

/// Adds MOVE, that word, TO and the receiver of a MOVE.
fn add_move(
    alloc: Global,
    into: &mut List<Word>,
    program: OldProgram,
    word: &Word,
    at: u32,
    to: &Place,
) -> Result<(), Memory>
    requires { AreInOrder program.source.edits.now }
    ensures { OnOk result (into.new ≡ into.old ++ spec.move (known program.entry) word.now at to.now) }
{
    let source = program.source;
    let literal = position_behind(at)?;
    let behind = position_behind(literal)?;
    let receivers = position_behind(behind)?;
    add_edited(alloc, into, source, at, literal)?;
    into.push(word.twin(alloc)?)?;
    add_edited(alloc, into, source, behind, receivers)?;
    add_receiver(alloc, into, source, to, false)?;
    Ok(())
}

fn add_part(
    alloc: Global,
    into: &mut List<Word>,
    program: OldProgram,
    word: &Word,
    part: Part,
) -> Result<(), Memory>
    requires { AreInOrder program.source.edits.now }
    ensures { OnOk result (into.new ≡ into.old ++ spec.move_if (known program.entry) word.now (seen part.entry)) }
{
    match part {
        Part::Move { at, to, .. } => {
            add_move(alloc, into, program, word, at, to)?;
            Ok(())
        }
        Part::Compute { .. } => Ok(()),
        Part::Accept { .. } => Ok(()),
        Part::Test { .. } => Ok(()),
    }
}

/// The MOVE statements of the parts of a MOVE, each with its own word for the literal.
fn moves_of(
    alloc: Global,
    program: OldProgram,
    group: &[Part],
    words: &[Word],
) -> Result<List<Word>, Memory>
    requires { AreInOrder program.source.edits.now }
    ensures { IfOk result (λ new. new ≡ spec.moves (known program.entry) (map seen group.now) words.now) }
{
    let mut new = List::new(alloc);
    let mut parts_left = group;
    let mut words_left = words;
    while let [part, more @ ..] = parts_left {
        match words_left {
            [] => return Ok(new),
            [word, others @ ..] => {
                add_part(alloc, &mut new, program, word, *part)?;
                parts_left = more;
                words_left = others;
            }
        }
    }
    Ok(new)
}

/// Adds the edits of a MOVE of a literal to receivers that want different words.
fn add_if_different(
    alloc: Global,
    edits: &mut List<Edit>,
    program: OldProgram,
    at: u32,
    old: &Word,
    literal: &Used,
    group: &[Part],
) -> Result<(), Memory>
    requires ready { IsReady program.layout.now }
    requires ordered { AreInOrder program.source.edits.now }
    ensures { OnOk result (edits.new ≡ edits.old ++ spec.moves_if (known program.entry) at (map seen group.now) (spec.words_for (known program.entry) old.now literal.now (map seen group.now))) }
{
    let words = words_for(alloc, program, old, literal, group)?;
    if differ(words.items()) {
        let new = moves_of(alloc, program, group, words.items())?;
        let end = group_end(group);
        let source = program.source;
        add_stretch(alloc, edits, source.program, source.words, at, end, new)?;
        Ok(())
    } else {
        Ok(())
    }
}

/// The word at a position.
fn word_at(words: &[Word], position: u32) -> Option<&Word>
    ensures { MatchOption result (slice_get words.now position ≡ None) (λ word. slice_get words.now position ≡ Some word.now) }
{
    words.get(position as usize)
}

fn add_literal_moves(
    alloc: Global,
    edits: &mut List<Edit>,
    program: OldProgram,
    at: u32,
    position: u32,
    literal: &Used,
    group: &[Part],
) -> Result<(), Memory>
    requires ready { IsReady program.layout.now }
    requires ordered { AreInOrder program.source.edits.now }
    ensures { OnOk result (edits.new ≡ edits.old ++ spec.moves_over (known program.entry) at literal.now (map seen group.now) (slice_get program.entry.source.words.now position)) }
{
    match word_at(program.source.words, position) {
        None => Ok(()),
        Some(old) => {
            add_if_different(alloc, edits, program, at, old, literal, group)?;
            Ok(())
        }
    }
}

/// Adds the edits of a MOVE to several receivers that begins there.
pub(crate) fn add_moves(
    alloc: Global,
    edits: &mut List<Edit>,
    program: OldProgram,
    at: u32,
    from: &Operand,
    group: &[Part],
) -> Result<(), Memory>
    requires ready { IsReady program.layout.now }
    requires ordered { AreInOrder program.source.edits.now }
    ensures { OnOk result (edits.new ≡ edits.old ++ spec.moves_edits (known program.entry) at from.now (map seen group.now)) }
{
    let literal = operand_used(alloc, program.layout, from)?;
    match literal_at(&literal) {
        None => Ok(()),
        Some(position) => {
            add_literal_moves(alloc, edits, program, at, position, &literal, group)?;
            Ok(())
        }
    }
}

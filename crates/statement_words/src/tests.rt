ghost use Rattle.std.specs.Prelude.{[], IfOk};
ghost use Rattle.y2k_base.specs.Edits.{AreInOrder, AreJoined};

use super::*;
use cobol_syntax::{Expr, Operand, Place};
use generated_areas::GeneratedArea;
use statement_places::Part;
use std::alloc::Global;
use std::test::Fail;
use y2k_base::{Bytes, Edit, Edits, FileId, List, Memory, Origin, Word, WordKind, join_edits};

fn origin(column: u32) -> Origin {
    Origin {
        file: FileId(1),
        line: 5,
        column,
    }
}

/// The words of a text, each in the column of its position.
fn program_words(alloc: Global, text: &str) -> Result<List<Word>, Memory> {
    let mut read = List::new(alloc);
    add_text(alloc, &mut read, text, origin(0))?;
    let mut words = List::new(alloc);
    let mut column = 0u32;
    for word in read.items() {
        add_word(
            alloc,
            &mut words,
            word.kind,
            word.text.items(),
            origin(column),
        )?;
        column = column.saturating_add(1);
    }
    Ok(words)
}

/// An edit of a word of program 2.
fn edit(alloc: Global, position: u32, text: &str) -> Result<Edit, Memory> {
    let mut words = List::new(alloc);
    add_text(alloc, &mut words, text, origin(position))?;
    Ok(Edit {
        program: 2,
        position,
        at: origin(position),
        words,
    })
}

/// The words, a blank between every two.
fn text_of(alloc: Global, words: &[Word]) -> Result<Bytes, Memory> {
    let mut text = List::new(alloc);
    for word in words {
        if !text.is_empty() {
            text.push(b' ')?;
        }
        text.append(word.text.items())?;
    }
    Ok(text)
}

fn place(alloc: Global, at: u32, end: u32) -> Place {
    Place {
        names: List::new(alloc),
        subs: List::new(alloc),
        cut: None,
        at,
        end,
    }
}

/// The edits by position.
fn in_order(alloc: Global, list: List<Edit>) -> Result<Edits, Memory>
    ensures { IfOk result (λ edits. AreJoined list [] edits.list) }
{
    let none = Edits {
        list: List::new(alloc),
    };
    let edits = join_edits(alloc, Edits { list }, none)?;
    Ok(edits)
}

fn is_word(word: &Word, text: &[u8], kind: WordKind) -> bool {
    word.text.items() == text && word.kind == kind && word.origin == origin(9)
}

fn are_words(words: &[Word], wanted: &[(&[u8], WordKind)]) -> bool {
    if words.len() != wanted.len() {
        return false;
    }
    for index in 0..words.len() {
        let (text, kind) = wanted[index];
        if !is_word(&words[index], text, kind) {
            return false;
        }
    }
    true
}

#[test]
fn words_are_digits_names_and_marks(rt: HostRuntime) -> Result<(), Fail> {
    let alloc = rt.alloc();
    let mut words = List::new(alloc);
    add_text(alloc, &mut words, "IF Y2K-DATE < 050000 5A ( .", origin(9))?;
    let wanted = [
        (b"IF" as &[u8], WordKind::Name),
        (b"Y2K-DATE", WordKind::Name),
        (b"<", WordKind::Mark),
        (b"050000", WordKind::Number),
        (b"5A", WordKind::Name),
        (b"(", WordKind::Mark),
        (b".", WordKind::Mark),
    ];
    assert!(rt; are_words(words.items(), &wanted));
    Ok(())
}

/// The text statements that each have the receiver of one of these parts.
fn alone(alloc: Global, source: EditedWords, group: &[Part]) -> Result<Bytes, Memory>
    requires { AreInOrder source.edits.now }
{
    let mut new = List::new(alloc);
    for index in 0..group.len() {
        add_alone(alloc, &mut new, source, group, group[index])?;
    }
    let text = text_of(alloc, new.items())?;
    Ok(text)
}

/// The same for the parts of the first text statement.
fn first_alone(alloc: Global, source: EditedWords, parts: &[Part]) -> Result<Bytes, Memory>
    requires { AreInOrder source.edits.now }
{
    match next_group(parts) {
        None => Ok(List::new(alloc)),
        Some((group, _)) => alone(alloc, source, group),
    }
}

/// Whether the first text statement has so many parts and ends there, and so many parts are behind it.
fn is_group(parts: &[Part], count: usize, end: u32, more: usize) -> bool {
    match next_group(parts) {
        None => false,
        Some((group, rest)) => {
            group.len() == count && group_end(group) == end && rest.len() == more
        }
    }
}

fn move_edits(alloc: Global) -> Result<List<Edit>, Memory> {
    let mut edits = List::new(alloc);
    edits.push(edit(alloc, 3, "A1 A2")?)?;
    edits.push(edit(alloc, 3, "Z")?)?;
    edits.push(edit(alloc, 8, "2")?)?;
    Ok(edits)
}

fn moved(alloc: Global, parts: &[Part]) -> Result<Bytes, Memory> {
    let words = program_words(alloc, "IF X MOVE A TO B C ( 1 ) .")?;
    let edits = in_order(alloc, move_edits(alloc)?)?;
    let source = EditedWords {
        program: 2,
        words: words.items(),
        edits: edits.list.items(),
    };
    let text = first_alone(alloc, source, parts)?;
    Ok(text)
}

fn move_part<'a>(at: u32, end: u32, from: &'a Operand, to: &'a Place) -> Part<'a> {
    Part::Move { at, end, from, to }
}

#[test]
fn receivers_stand_alone_with_their_edits(rt: HostRuntime) -> Result<(), Fail> {
    let alloc = rt.alloc();
    let from = Operand::Place(place(alloc, 3, 4));
    let first = place(alloc, 5, 6);
    let second = place(alloc, 6, 10);
    let parts = [
        move_part(2, 10, &from, &first),
        move_part(2, 10, &from, &second),
        move_part(11, 15, &from, &first),
    ];
    assert!(rt; is_group(&parts, 2, 10, 1));
    let text = moved(alloc, &parts)?;
    assert!(rt; text.items() == b"MOVE A1 A2 TO B MOVE A1 A2 TO C ( 2 )".as_slice());
    Ok(())
}

fn compute_part<'a>(to: &'a Place, rounded: bool, value: &'a Expr) -> Part<'a> {
    Part::Compute {
        at: 0,
        end: 7,
        to,
        rounded,
        value,
    }
}

fn computed(alloc: Global, parts: &[Part]) -> Result<Bytes, Memory> {
    let words = program_words(alloc, "COMPUTE A ROUNDED B = C END-COMPUTE")?;
    let edits = in_order(alloc, List::new(alloc))?;
    let source = EditedWords {
        program: 2,
        words: words.items(),
        edits: edits.list.items(),
    };
    let text = alone(alloc, source, parts)?;
    Ok(text)
}

#[test]
fn rounded_and_what_follows_the_receivers_stay(rt: HostRuntime) -> Result<(), Fail> {
    let alloc = rt.alloc();
    let first = place(alloc, 1, 2);
    let second = place(alloc, 3, 4);
    let value = Expr::One(Operand::Place(place(alloc, 5, 6)));
    let parts = [
        compute_part(&first, true, &value),
        compute_part(&second, false, &value),
    ];
    let text = computed(alloc, &parts)?;
    assert!(rt;
        text.items() == b"COMPUTE A ROUNDED = C END-COMPUTE COMPUTE B = C END-COMPUTE".as_slice()
    );
    Ok(())
}

/// Whether it is an edit of the word at that position of program 4, with these words.
fn is_edit(alloc: Global, edit: &Edit, position: u32, text: &str) -> Result<bool, Memory> {
    let got = text_of(alloc, edit.words.items())?;
    Ok(
        edit.program == 4
            && edit.position == position
            && edit.at == origin(position)
            && got.items() == text.as_bytes(),
    )
}

/// Whether the first word gets the new ones and the second none.
fn is_stretch(alloc: Global, edits: &[Edit]) -> Result<bool, Memory> {
    match edits {
        [first, second] => {
            let begins = is_edit(alloc, first, 1, "X Y")?;
            let ends = is_edit(alloc, second, 2, "")?;
            Ok(begins && ends)
        }
        _ => Ok(false),
    }
}

#[test]
fn a_stretch_has_its_new_words_at_its_first(rt: HostRuntime) -> Result<(), Fail> {
    let alloc = rt.alloc();
    let words = program_words(alloc, "A B C")?;
    let mut new = List::new(alloc);
    add_text(alloc, &mut new, "X Y", origin(1))?;
    let mut edits = List::new(alloc);
    add_stretch(alloc, &mut edits, 4, words.items(), 1, 5, new)?;
    assert!(rt; is_stretch(alloc, edits.items())?);
    Ok(())
}

/// The new words at PROCEDURE of a program.
fn with_areas(alloc: Global, text: &str, areas: &[GeneratedArea]) -> Result<Bytes, Memory> {
    let words = program_words(alloc, text)?;
    let mut edits = List::new(alloc);
    add_areas(alloc, &mut edits, 4, words.items(), areas)?;
    match edits.items() {
        [] => Ok(List::new(alloc)),
        [edit, ..] => text_of(alloc, edit.words.items()),
    }
}

#[test]
fn areas_stand_in_front_of_procedure(rt: HostRuntime) -> Result<(), Fail> {
    let alloc = rt.alloc();
    let areas = [
        GeneratedArea::Date,
        GeneratedArea::Short(2),
        GeneratedArea::Long(2),
    ];
    let with = with_areas(
        alloc,
        "WORKING-STORAGE SECTION . PROCEDURE DIVISION .",
        &areas,
    )?;
    assert!(rt;
        with.items()
            == b"01 Y2K-DATE PIC 9(6) . 01 Y2K-SHORT-2 PIC 99 . 01 Y2K-LONG-2 PIC 9(4) . PROCEDURE".as_slice()
    );
    let without = with_areas(alloc, "PROCEDURE DIVISION .", &[GeneratedArea::Short(3)])?;
    assert!(rt;
        without.items()
            == b"WORKING-STORAGE SECTION . 01 Y2K-SHORT-3 PIC 999 . PROCEDURE".as_slice()
    );
    let none = with_areas(alloc, "PROCEDURE DIVISION .", &[])?;
    assert!(rt; none.is_empty());
    Ok(())
}

ghost use Rattle.std.specs.Prelude.{◌≡◌, IfOk, length};

use super::*;
use std::alloc::Global;
use std::test::Fail;

fn place(line: u32, column: u32) -> Origin {
    Origin {
        file: FileId(0),
        line,
        column,
    }
}

/// An edit that puts one word of a byte in place of the word at that position.
fn edit(alloc: Global, program: u32, position: u32, byte: u8) -> Result<Edit, Fail> {
    let mut text = List::new(alloc);
    text.push(byte)?;
    let at = place(1, 1);
    let mut words = List::new(alloc);
    words.push(Word {
        text,
        kind: WordKind::Name,
        origin: at,
    })?;
    Ok(Edit {
        program,
        position,
        at,
        words,
    })
}

fn edits(alloc: Global, list: &[(u32, u32, u8)]) -> Result<Edits, Fail> {
    let mut edits = List::new(alloc);
    for (program, position, byte) in list {
        edits.push(edit(alloc, *program, *position, *byte)?)?;
    }
    Ok(Edits { list: edits })
}

/// Edits that are this one alone.
fn only(alloc: Global, edit: Edit) -> Result<Edits, Fail>
    ensures { IfOk result (λ edits. length edits.list ≡ 1) }
{
    let mut list = List::new(alloc);
    list.push(edit)?;
    Ok(Edits { list })
}

#[test]
fn joined_edits_are_the_second_ones_and_the_first_of_other_words(
    rt: HostRuntime,
) -> Result<(), Fail> {
    let alloc = rt.alloc();
    let first = edits(
        alloc,
        &[(0, 3, b'A'), (0, 7, b'B'), (0, 7, b'C'), (1, 2, b'D')],
    )?;
    let second = only(alloc, edit(alloc, 0, 7, b'E')?)?;
    let joined = join_edits(alloc, first, second)?;
    let mut letters = Vec::new(alloc);
    for edit in joined.list.items() {
        for word in edit.words.items() {
            letters.extend_from_slice(word.text.items())?;
        }
    }
    assert_eq!(rt; letters.as_slice(), b"AED".as_slice());
    Ok(())
}

#[test]
fn places_go_by_file_then_line_then_column(rt: HostRuntime) {
    assert!(rt; place(1, 9).before(place(2, 1)));
    assert!(rt; place(2, 1).before(place(2, 2)));
    assert!(rt; !place(2, 2).before(place(2, 2)));
    let other = Origin {
        file: FileId(1),
        line: 1,
        column: 1,
    };
    assert!(rt; place(9, 9).before(other));
}

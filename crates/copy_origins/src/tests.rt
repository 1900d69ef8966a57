use super::*;
use std::alloc::Global;
use std::test::Fail;
use y2k_base::{Bytes, FileId, List, Memory, Origin, Twin, Word, WordKind};

/// The kind of a word of these tests, by its first character. A tilde stands before a PICTURE word.
fn kind_of(first: u8) -> WordKind {
    match first {
        b'"' => WordKind::Literal,
        b'.' | b'=' | b'(' | b')' => WordKind::Mark,
        b'0'..=b'9' => WordKind::Number,
        b'~' => WordKind::Picture,
        _ => WordKind::Name,
    }
}

fn word(alloc: Global, spelled: &[u8], file: u32, column: u32) -> Result<Word, Memory> {
    let mut text = List::new(alloc);
    let mut kind = WordKind::Name;
    for i in 0..spelled.len() {
        let byte = spelled[i];
        if i == 0 {
            kind = kind_of(byte);
        }
        if byte != b'"' && byte != b'~' {
            text.push(byte)?;
        }
    }
    let origin = Origin {
        file: FileId(file),
        line: 1,
        column,
    };
    Ok(Word { text, kind, origin })
}

/// The words of a text, parted by blanks, with their numbers from 1 as columns.
fn words(alloc: Global, text: &[u8], file: u32) -> Result<List<Word>, Memory> {
    let mut list = List::new(alloc);
    let mut column = 1u32;
    for spelled in text.split(|byte| *byte == b' ') {
        list.push(word(alloc, spelled, file, column)?)?;
        column = column.saturating_add(1);
    }
    Ok(list)
}

fn book(alloc: Global, key: &[u8], text: &[u8], file: u32) -> Result<Book, Memory> {
    let mut bytes = List::new(alloc);
    bytes.append(key)?;
    Ok(Book {
        key: bytes,
        words: words(alloc, text, file)?,
    })
}

/// Books that aren't in the order of their keys.
fn books(alloc: Global) -> Result<Books, Memory> {
    let mut list = List::new(alloc);
    list.push(book(alloc, b"B", b"A . A B .", 1)?)?;
    list.push(book(alloc, b"L/B", b"IN L", 2)?)?;
    list.push(book(alloc, b"lower", b"\"A\" A ~A", 3)?)?;
    list.push(book(alloc, b"N", b"A COPY B .", 4)?)?;
    list.push(book(alloc, b"B", b"SECOND", 5)?)?;
    Ok(Books { list })
}

/// The texts of the words of an expansion, each after a blank.
fn expanded(alloc: Global, text: &[u8], books: &Books) -> Result<Bytes, CopyFault> {
    let source = words(alloc, text, 0)?;
    let expanded = expand(alloc, source.items(), books)?;
    let mut shown = List::new(alloc);
    for word in expanded.words.items() {
        shown.push(b' ')?;
        shown.append(word.text.items())?;
    }
    Ok(shown)
}

#[test]
fn statements_give_the_replaced_words_of_their_books(rt: HostRuntime) -> Result<(), Fail> {
    let alloc = rt.alloc();
    let books = books(alloc)?;
    for (text, wanted) in [
        (
            b"COPY B REPLACING == A == BY == X Y == .".as_slice(),
            b" X Y . X Y B .".as_slice(),
        ),
        (b"ONE COPY B . TWO", b" ONE A . A B . TWO"),
        (b"COPY B OF L .", b" IN L"),
        (b"COPY B IN L . COPY B .", b" IN L A . A B ."),
        (b"COPY \"lower\" REPLACING A BY Z .", b" A Z A"),
        (b"COPY B REPLACING == A . A == BY == == B BY A .", b" A ."),
        (b"COPY B REPLACING A BY B B BY C .", b" B . B C ."),
        (
            b"COPY B REPLACING == A . == BY Q == A . A == BY R .",
            b" Q A B .",
        ),
        (
            b"COPY B REPLACING == A == BY == COPY N . == .",
            b" COPY N . . COPY N . B .",
        ),
    ] {
        let shown = expanded(alloc, text, &books)?;
        assert_eq!(rt; shown.items(), wanted);
    }
    Ok(())
}

#[test]
fn books_in_order_are_found_too(rt: HostRuntime) -> Result<(), Fail> {
    let alloc = rt.alloc();
    let mut list = List::new(alloc);
    list.push(book(alloc, b"A", b"FIRST", 1)?)?;
    list.push(book(alloc, b"B", b"SECOND", 2)?)?;
    list.push(book(alloc, b"B", b"THIRD", 3)?)?;
    list.push(book(alloc, b"B/A", b"FOURTH", 4)?)?;
    let books = Books { list }.twin(alloc)?;
    let shown = expanded(alloc, b"COPY A . COPY B . COPY A OF B .", &books)?;
    assert_eq!(rt; shown.items(), b" FIRST SECOND FOURTH".as_slice());
    assert!(rt; expanded(alloc, b"COPY C .", &books).is_err());
    assert!(rt; expanded(alloc, b"COPY AA .", &books).is_err());
    Ok(())
}

fn at(column: u32) -> Origin {
    Origin {
        file: FileId(0),
        line: 1,
        column,
    }
}

#[test]
fn the_first_statement_at_fault_is_named_at_its_copy(rt: HostRuntime) -> Result<(), Fail> {
    let alloc = rt.alloc();
    let books = books(alloc)?;
    for (text, wanted) in [
        (b"COPY B".as_slice(), CopyFault::CopyShape(at(1))),
        (b"COPY Q .", CopyFault::CopyMissing(at(1))),
        (b"ONE COPY N .", CopyFault::NestedCopy(at(2))),
        (b"COPY B . COPY N . COPY B", CopyFault::NestedCopy(at(4))),
        (b"COPY MOVE .", CopyFault::CopyShape(at(1))),
        (b"COPY ZERO .", CopyFault::CopyShape(at(1))),
        (b"COPY B OF .", CopyFault::CopyShape(at(1))),
        (b"COPY B REPLACING .", CopyFault::CopyShape(at(1))),
        (
            b"COPY B REPLACING == == BY A .",
            CopyFault::CopyShape(at(1)),
        ),
        (b"COPY B REPLACING A BY 5 .", CopyFault::CopyShape(at(1))),
        (b"COPY B REPLACING A BY == B .", CopyFault::CopyShape(at(1))),
        (b"COPY B REPLACING A BY B C .", CopyFault::CopyShape(at(1))),
        (b"COPY N REPLACING A BY B", CopyFault::CopyShape(at(1))),
        (b"COPY", CopyFault::CopyShape(at(1))),
    ] {
        let fault = expanded(alloc, text, &books).err();
        assert_eq!(rt; fault, Some(wanted));
    }
    Ok(())
}

/// The files and columns of the words of an expansion.
fn origins(alloc: Global, source: &[Word], books: &Books) -> Result<List<(u32, u32)>, CopyFault> {
    let expanded = expand(alloc, source, books)?;
    let mut places = List::new(alloc);
    for word in expanded.words.items() {
        places.push((word.origin.file.0, word.origin.column))?;
    }
    Ok(places)
}

#[test]
fn replacements_have_their_origins_in_the_statement(rt: HostRuntime) -> Result<(), Fail> {
    let alloc = rt.alloc();
    let source = words(
        alloc,
        b"01 REC . COPY B REPLACING == PIC ~9(2) == BY == PIC ~9(6) == .",
        0,
    )?;
    let mut list = List::new(alloc);
    let text = b"05 T1 PIC ~9(2) . 05 T2 PIC ~9(2) .";
    list.push(book(alloc, b"B", text, 1)?)?;
    let places = origins(alloc, source.items(), &Books { list })?;
    let wanted = [
        (0u32, 1u32),
        (0, 2),
        (0, 3),
        (1, 1),
        (1, 2),
        (0, 13),
        (0, 14),
        (1, 5),
        (1, 6),
        (1, 7),
        (0, 13),
        (0, 14),
        (1, 10),
    ];
    assert_eq!(rt; places.items(), wanted.as_slice());
    Ok(())
}

/// `COPY B REPLACING` with so many pairs that match nothing, and then A BY X.
fn many_pairs(alloc: Global, count: u32) -> Result<List<Word>, Memory> {
    let mut list = words(alloc, b"COPY B REPLACING", 0)?;
    for _ in 0..count {
        list.push(word(alloc, b"P", 0, 9)?)?;
        list.push(word(alloc, b"BY", 0, 9)?)?;
        list.push(word(alloc, b"Q", 0, 9)?)?;
    }
    list.push(word(alloc, b"A", 0, 9)?)?;
    list.push(word(alloc, b"BY", 0, 9)?)?;
    list.push(word(alloc, b"X", 0, 7)?)?;
    list.push(word(alloc, b".", 0, 9)?)?;
    Ok(list)
}

#[test]
fn one_hundred_and_sixty_pairs_are_tried(rt: HostRuntime) -> Result<(), Fail> {
    let alloc = rt.alloc();
    let source = many_pairs(alloc, 159)?;
    let places = origins(alloc, source.items(), &books(alloc)?)?;
    let wanted = [(0u32, 7u32), (1, 2), (0, 7), (1, 4), (1, 5)];
    assert_eq!(rt; places.items(), wanted.as_slice());
    Ok(())
}

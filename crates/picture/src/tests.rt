ghost use Rattle.std.specs.Prelude.{◌≡◌, IfOk};

use super::*;
use std::alloc::Global;
use std::test::Fail;
use y2k_base::{Bytes, List, Memory, PicClass, Picture, Run};

/// What a string reads as: its class, or why it has none.
fn class(alloc: Global, text: &[u8]) -> Result<PicClass, PicFault> {
    match read_picture(alloc, text) {
        Ok(picture) => Ok(picture.class),
        Err(fault) => Err(fault),
    }
}

#[test]
fn strings_read_as_texts_numbers_and_edited_items(rt: HostRuntime) -> Result<(), Fail> {
    let alloc = rt.alloc();
    for (text, want) in [
        (b"X".as_slice(), PicClass::Text),
        (b"X(10)X", PicClass::Text),
        (b"X(4294967295)", PicClass::Text),
        (b"S9(5)V99", PicClass::Number),
        (b"SV9", PicClass::Number),
        (b"9V", PicClass::Number),
        (b"9(018)", PicClass::Number),
        (b"Z(5)9", PicClass::Edited),
        (b"Z,ZZ9.99-", PicClass::Edited),
        (b"99/99/99", PicClass::Edited),
        (b"9B09,9", PicClass::Edited),
    ] {
        assert_eq!(rt; class(alloc, text), Ok(want), "{text:?}");
    }
    Ok(())
}

#[test]
fn strings_without_a_reading_are_refused(rt: HostRuntime) -> Result<(), Fail> {
    let alloc = rt.alloc();
    for text in [
        b"".as_slice(),
        b"V",
        b"S",
        b"SX",
        b"9(0)",
        b"9()",
        b"9(",
        b"9(2",
        b"(2)9",
        b"ZZ",
        b",9",
        b"9Z",
        b"9.9.9",
        b"-9",
        b"9--",
        b"9V9V9",
        b"S(2)9",
        b"x",
        b"X(4294967296)",
        b"X(4294967295)X",
    ] {
        let want = Err(PicFault::PictureShape);
        assert_eq!(rt; class(alloc, text), want, "{text:?}");
    }
    Ok(())
}

#[test]
fn long_strings_come_before_their_shape_and_that_before_many_digits(
    rt: HostRuntime,
) -> Result<(), Fail> {
    let alloc = rt.alloc();
    for (text, want) in [
        (
            b"9999999999999999999999999999999".as_slice(),
            PicFault::PictureFull,
        ),
        (b"VVVVVVVVVVVVVVVVVVVVVVVVVVVVVVV", PicFault::PictureFull),
        (b"9(19)V9V", PicFault::PictureShape),
        (b"9(19)", PicFault::TooManyDigits),
        (b"Z(18)9", PicFault::TooManyDigits),
    ] {
        assert_eq!(rt; class(alloc, text), Err(want), "{text:?}");
    }
    Ok(())
}

/// The printed form of a picture string.
fn printed(alloc: Global, text: &[u8]) -> Result<Bytes, PicFault> {
    let picture = read_picture(alloc, text)?;
    print_picture(alloc, &picture)
}

#[test]
fn runs_of_more_than_three_are_printed_with_a_count(rt: HostRuntime) -> Result<(), Fail> {
    let alloc = rt.alloc();
    for (text, want) in [
        (b"9999".as_slice(), b"9(4)".as_slice()),
        (b"9(2)9", b"999"),
        (b"S9(3)V9(02)", b"S999V99"),
        (b"Z(5)9", b"Z(5)9"),
        (b"99/99/99", b"99/99/99"),
        (b"X(10)X", b"X(11)"),
    ] {
        let got = printed(alloc, text)?;
        assert_eq!(rt; got.items(), want);
    }
    Ok(())
}

fn picture(alloc: Global, class: PicClass, runs: &[Run]) -> Result<Picture, Memory>
    ensures { IfOk result (λ picture. picture.runs ≡ runs.now) }
{
    let mut list = List::new(alloc);
    list.append(runs)?;
    Ok(Picture { class, runs: list })
}

fn run(symbol: u8, count: u32) -> Run
    ensures { result ≡ record { symbol = symbol; count = count } }
{
    Run { symbol, count }
}

#[test]
fn pictures_that_no_string_reads_as_are_not_printed(rt: HostRuntime) -> Result<(), Fail> {
    let alloc = rt.alloc();
    let wrong_class = picture(alloc, PicClass::Text, &[run(b'9', 2)])?;
    let parted = picture(alloc, PicClass::Number, &[run(b'9', 2), run(b'9', 2)])?;
    let many = picture(alloc, PicClass::Number, &[run(b'9', 19)])?;
    assert_eq!(rt;
        print_picture(alloc, &wrong_class).err(),
        Some(PicFault::PictureShape)
    );
    assert_eq!(rt;
        print_picture(alloc, &parted).err(),
        Some(PicFault::PictureShape)
    );
    assert_eq!(rt;
        print_picture(alloc, &many).err(),
        Some(PicFault::TooManyDigits)
    );
    Ok(())
}

#[test]
fn two_digits_are_put_before_a_byte(rt: HostRuntime) -> Result<(), Fail> {
    let alloc = rt.alloc();
    let floating = picture(alloc, PicClass::Edited, &[run(b'Z', 5), run(b'9', 1)])?;
    let longer = insert_digits(alloc, &floating, 5)?;
    assert_eq!(rt;
        print_picture(alloc, &longer)?.items(),
        b"Z(5)999".as_slice()
    );
    assert_eq!(rt;
        insert_digits(alloc, &floating, 0).err(),
        Some(PicFault::PictureShape)
    );
    let full = picture(alloc, PicClass::Number, &[run(b'9', 18)])?;
    assert_eq!(rt;
        insert_digits(alloc, &full, 0).err(),
        Some(PicFault::TooManyDigits)
    );
    let date = picture(
        alloc,
        PicClass::Edited,
        &[
            run(b'9', 2),
            run(b'/', 1),
            run(b'9', 2),
            run(b'/', 1),
            run(b'9', 2),
        ],
    )?;
    let longer = insert_digits(alloc, &date, 0)?;
    assert_eq!(rt;
        print_picture(alloc, &longer)?.items(),
        b"9(4)/99/99".as_slice()
    );
    let decimal = picture(
        alloc,
        PicClass::Number,
        &[run(b'9', 2), run(b'V', 1), run(b'9', 2)],
    )?;
    let longer = insert_digits(alloc, &decimal, 2)?;
    assert_eq!(rt;
        print_picture(alloc, &longer)?.items(),
        b"99V9(4)".as_slice()
    );
    Ok(())
}

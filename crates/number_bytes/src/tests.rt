ghost use Rattle.std.specs.Prelude.{◌≡◌, length, IfSome};
ghost use Rattle.decimal_bytes.specs.Display.{display_length};
ghost use Rattle.number_bytes.specs.Held.{number_length};
ghost use Rattle.number_bytes.specs.Stored.{symbols};

use super::*;
use cobol_syntax::Usage;
use decimal_bytes::{NumForm, Scaled, SignPlace};
use std::test::Fail;
use y2k_base::Run;

fn form(digits: u8, scale: u8, signed: bool, sign: SignPlace) -> NumForm {
    NumForm {
        digits,
        scale,
        signed,
        sign,
    }
}

/// A signed form with its sign over the last digit.
fn signed(digits: u8, scale: u8) -> NumForm {
    form(digits, scale, true, SignPlace::Trailing)
}

fn unsigned(digits: u8) -> NumForm {
    form(digits, 0, false, SignPlace::Trailing)
}

/// How many bytes a number has.
fn length_of(usage: Usage, form: NumForm) -> usize
    ensures { result ≡ number_length usage form }
{
    let digits = usize::from(form.digits);
    match usage {
        Usage::Display => display_bytes(digits, form),
        Usage::Packed => digits / 2 + 1,
        Usage::Binary => match digits {
            0..=4 => 2,
            5..=9 => 4,
            _ => 8,
        },
    }
}

fn display_bytes(digits: usize, form: NumForm) -> usize
    requires { digits ≡ form.digits }
    ensures { result ≡ display_length form }
{
    match (form.signed, form.sign) {
        (true, SignPlace::TrailingSeparate | SignPlace::LeadingSeparate) => digits + 1,
        _ => digits,
    }
}

/// The number that bytes hold, without its scale; none also for bytes of another length.
fn held(bytes: &[u8], usage: Usage, form: NumForm) -> Option<i128> {
    if form.digits == 0 || form.digits > 18 || bytes.len() != length_of(usage, form) {
        return None;
    }
    match read_number(bytes, usage, form) {
        Ok(number) => Some(number.number),
        Err(_) => None,
    }
}

/// The bytes of a number that is stored, in a buffer of which the last ones may be left over.
fn stored(number: i128, usage: Usage, form: NumForm) -> [u8; 20] {
    let mut bytes = [b'.'; 20];
    let length = length_of(usage, form);
    if form.digits > 0 && form.digits <= 18 && length <= 20 {
        store_number(number, usage, form, &mut bytes[..length]);
    }
    bytes
}

#[test]
fn a_number_is_read_by_its_usage_and_sign_place(rt: HostRuntime) {
    let after = form(2, 0, true, SignPlace::TrailingSeparate);
    let before = form(2, 0, true, SignPlace::LeadingSeparate);
    let leading = form(2, 0, true, SignPlace::Leading);
    let rows: [(&[u8], Usage, NumForm, Option<i128>); 23] = [
        (b"0123", Usage::Display, unsigned(4), Some(123)),
        (b"01 3", Usage::Display, unsigned(4), None),
        (&[0x31, 0x72], Usage::Display, unsigned(2), None),
        (&[0x31, 0x72], Usage::Display, signed(2, 0), Some(-12)),
        (&[0x31, 0x32], Usage::Display, signed(2, 0), Some(12)),
        (&[0x30, 0x70], Usage::Display, signed(2, 0), Some(0)),
        (&[0x71, 0x32], Usage::Display, signed(2, 0), None),
        (&[0x71, 0x32], Usage::Display, leading, Some(-12)),
        (b"12-", Usage::Display, after, Some(-12)),
        (b"12 ", Usage::Display, after, None),
        (b"+12", Usage::Display, before, Some(12)),
        (
            b"999999999999999999",
            Usage::Display,
            unsigned(18),
            Some(999_999_999_999_999_999),
        ),
        (&[0x12, 0x3d], Usage::Packed, signed(3, 0), Some(-123)),
        (&[0x12, 0x3f], Usage::Packed, signed(3, 0), Some(123)),
        (&[0x12, 0x3e], Usage::Packed, signed(3, 0), None),
        (&[0x00, 0x0d], Usage::Packed, signed(3, 0), Some(0)),
        (&[0x01, 0x2d], Usage::Packed, unsigned(2), Some(-12)),
        (&[0x11, 0x2f], Usage::Packed, unsigned(2), None),
        (&[0x7f, 0xff], Usage::Binary, unsigned(4), Some(32_767)),
        (&[0xff, 0xfe], Usage::Binary, unsigned(4), Some(-2)),
        (&[0, 1, 0, 0], Usage::Binary, unsigned(5), Some(65_536)),
        (
            &[0x7f, 255, 255, 255, 255, 255, 255, 255],
            Usage::Binary,
            signed(18, 2),
            Some(9_223_372_036_854_775_807),
        ),
        (
            &[0x80, 0, 0, 0, 0, 0, 0, 0],
            Usage::Binary,
            signed(18, 2),
            Some(-9_223_372_036_854_775_808),
        ),
    ];
    for (bytes, usage, form, number) in rows {
        assert_eq!(rt; held(bytes, usage, form), number);
    }
}

#[test]
fn a_text_of_up_to_18_digits_is_an_unsigned_integer(rt: HostRuntime) {
    assert_eq!(rt;
        text_number(b"0042"),
        Ok(Scaled {
            number: 42,
            scale: 0
        })
    );
    assert!(rt; text_number(b"").is_err());
    assert!(rt; text_number(b"4 2").is_err());
    assert!(rt; text_number(b"-42").is_err());
    assert!(rt; text_number(b"999999999999999999").is_ok());
    assert!(rt; text_number(b"0000000000000000042").is_err());
}

#[test]
fn a_number_is_stored_without_its_high_digits(rt: HostRuntime) {
    let before = form(2, 0, true, SignPlace::LeadingSeparate);
    let leading = form(2, 0, true, SignPlace::Leading);
    let rows: [(i128, Usage, NumForm, &[u8]); 14] = [
        (100, Usage::Display, unsigned(2), b"00"),
        (-12, Usage::Display, unsigned(2), b"12"),
        (-12, Usage::Display, signed(2, 0), &[0x31, 0x72]),
        (-12, Usage::Display, leading, &[0x71, 0x32]),
        (-512, Usage::Display, before, b"-12"),
        (-500, Usage::Display, before, b"+00"),
        (-123, Usage::Packed, signed(3, 1), &[0x12, 0x3d]),
        (-123, Usage::Packed, unsigned(2), &[0x02, 0x3f]),
        (7, Usage::Packed, signed(2, 0), &[0x00, 0x7c]),
        (-1000, Usage::Packed, signed(3, 0), &[0x00, 0x0c]),
        (-2, Usage::Binary, signed(2, 0), &[0xff, 0xfe]),
        (-2, Usage::Binary, unsigned(4), &[0x00, 0x02]),
        (-100_002, Usage::Binary, signed(4, 0), &[0xff, 0xfe]),
        (i128::MIN, Usage::Display, signed(3, 0), &[0x37, 0x32, 0x78]),
    ];
    for (number, usage, form, bytes) in rows {
        assert_eq!(rt; &stored(number, usage, form)[..bytes.len()], bytes);
    }
}

#[test]
fn a_number_is_cut_or_filled_at_the_point(rt: HostRuntime) {
    let rows: [(i128, u8, u8, i128); 7] = [
        (125, 1, 3, 12_500),
        (-129, 2, 0, -1),
        (-99, 2, 0, 0),
        (129, 2, 1, 12),
        (7, 0, 18, 7_000_000_000_000_000_000),
        (7, 255, 0, 0),
        (
            9_999_999_999_999_999_999,
            0,
            18,
            9_999_999_999_999_999_999_000_000_000_000_000_000,
        ),
    ];
    for (number, from, to, moved) in rows {
        if to <= 18 && number > -1000 && number < 10_000_000_000_000_000_000 {
            let number = Scaled {
                number,
                scale: from,
            };
            assert_eq!(rt; at_point(number, to), moved);
        }
    }
}

/// How many places a picture has, if they are few.
fn places(picture: &[Run]) -> Option<usize>
    ensures { IfSome result (λ n. n ≡ length (symbols picture.now)) }
{
    let mut places = 0usize;
    for i in 0..picture.len() {
        let run = picture[i];
        places = places.checked_add(run.count as usize)?;
    }
    Some(places)
}

/// The bytes that a picture of up to twelve places shows of a number.
fn edited(number: i128, picture: &[Run], length: usize) -> [u8; 12] {
    let mut bytes = [b'?'; 12];
    if length <= 12 && places(picture) == Some(length) {
        store_edited(number, picture, &mut bytes[..length]);
    }
    bytes
}

const fn run(symbol: u8, count: u32) -> Run {
    Run { symbol, count }
}

#[test]
fn an_edited_item_shows_its_picture(rt: HostRuntime) {
    let date = [
        run(b'9', 2),
        run(b'/', 1),
        run(b'9', 2),
        run(b'/', 1),
        run(b'9', 2),
    ];
    let amount = [
        run(b'Z', 1),
        run(b',', 1),
        run(b'Z', 2),
        run(b'9', 1),
        run(b'.', 1),
        run(b'9', 2),
        run(b'-', 1),
    ];
    let spaced = [
        run(b'9', 1),
        run(b'B', 1),
        run(b'0', 1),
        run(b',', 1),
        run(b'9', 1),
        run(b'-', 1),
    ];
    let rows: [(i128, &[Run], &[u8]); 12] = [
        (580_702, &date, b"58/07/02"),
        (19_580_702, &date, b"58/07/02"),
        (0, &amount, b"    0.00 "),
        (-5, &amount, b"    0.05-"),
        (1_234, &amount, b"   12.34 "),
        (-123_456, &amount, b"1,234.56-"),
        (-9_123_456, &amount, b"1,234.56-"),
        (-1_000_000, &amount, b"    0.00 "),
        (100_000, &amount, b"1,000.00 "),
        (-12, &spaced, b"1 0,2-"),
        (-100, &spaced, b"0 0,0 "),
        (7, &spaced, b"0 0,7 "),
    ];
    for (number, picture, bytes) in rows {
        assert_eq!(rt; &edited(number, picture, bytes.len())[..bytes.len()], bytes);
    }
}

#[test]
fn digits_are_shown_without_point(rt: HostRuntime) -> Result<(), Fail> {
    let mut four = [0u8; 4];
    put_digits(-7, &mut four);
    assert_eq!(rt; four, *b"0007");
    put_digits(123_456, &mut four);
    assert_eq!(rt; four, *b"3456");
    assert_eq!(rt;
        shown_number(rt.alloc(), -15, 2)?.items(),
        b"-15".as_slice()
    );
    assert_eq!(rt;
        shown_number(rt.alloc(), 100_007, 4)?.items(),
        b"0007".as_slice()
    );
    assert_eq!(rt;
        shown_number(rt.alloc(), -100_000, 4)?.items(),
        b"-0000".as_slice()
    );
    Ok(())
}

#[test]
fn digits_or_a_number_are_numeric_and_letters_or_spaces_alphabetic(rt: HostRuntime) {
    assert!(rt; is_digits(b"0099"));
    assert!(rt; !is_digits(b"00 9"));
    assert!(rt; is_alphabetic(b"Az b"));
    assert!(rt; !is_alphabetic(b"A1"));
    let packed = signed(3, 0);
    if length_of(Usage::Packed, packed) == 2 {
        assert!(rt; is_numeric(&[0x31, 0x32], Usage::Packed, packed));
        assert!(rt; is_numeric(&[0x12, 0x3d], Usage::Packed, packed));
        assert!(rt; !is_numeric(&[0x12, 0x3e], Usage::Packed, packed));
    }
}

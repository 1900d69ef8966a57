ghost use Rattle.std.specs.Prelude.{◌≡◌};
ghost use Rattle.decimal_bytes.specs.Display.{display_length};
ghost use Rattle.number_bytes.specs.Held.{number_length};

use super::*;
use cobol_syntax::Usage;
use decimal_bytes::{NumForm, Scaled, SignPlace};
use std::alloc::Global;
use std::test::Fail;
use y2k_base::{Bytes, List, Memory, Run};

fn bytes_of(alloc: Global, text: &[u8]) -> Result<Bytes, Memory> {
    let mut bytes = List::new(alloc);
    bytes.append(text)?;
    Ok(bytes)
}

fn form(digits: u8, scale: u8, signed: bool) -> NumForm {
    NumForm {
        digits,
        scale,
        signed,
        sign: SignPlace::Trailing,
    }
}

/// How many bytes a number has.
fn length_of(usage: Usage, form: NumForm) -> usize
    ensures { result ≡ number_length usage form }
{
    let digits = usize::from(form.digits);
    match usage {
        Usage::Display => display_bytes(digits, form),
        Usage::Packed => digits / 2 + 1,
        Usage::Binary => match digits {
            0..=4 => 2,
            5..=9 => 4,
            _ => 8,
        },
    }
}

fn display_bytes(digits: usize, form: NumForm) -> usize
    requires { digits ≡ form.digits }
    ensures { result ≡ display_length form }
{
    match (form.signed, form.sign) {
        (true, SignPlace::TrailingSeparate | SignPlace::LeadingSeparate) => digits + 1,
        _ => digits,
    }
}

/// What a number gives; want of memory for bytes of another length.
fn number_sent(
    alloc: Global,
    bytes: &[u8],
    usage: Usage,
    form: NumForm,
    to: Receiver,
) -> Result<Sent, MoveFault> {
    if form.digits == 0 || form.digits > 18 || bytes.len() != length_of(usage, form) {
        return Err(MoveFault::Memory);
    }
    send_number(alloc, bytes, usage, form, to)
}

/// The bytes of a number that receives what is sent, in a buffer of which the last ones may be left over.
fn stored(sent: &Sent, usage: Usage, form: NumForm) -> [u8; 20] {
    let mut bytes = [b'.'; 20];
    let length = length_of(usage, form);
    if form.digits > 0 && form.digits <= 18 && form.scale <= 18 && length <= 20 {
        receive_number(sent, usage, form, &mut bytes[..length]);
    }
    bytes
}

/// The bytes of a `ZZ9.99-` that receives what is sent.
fn edited(sent: &Sent) -> [u8; 7] {
    let picture = [
        Run {
            symbol: b'Z',
            count: 2,
        },
        Run {
            symbol: b'9',
            count: 1,
        },
        Run {
            symbol: b'.',
            count: 1,
        },
        Run {
            symbol: b'9',
            count: 2,
        },
        Run {
            symbol: b'-',
            count: 1,
        },
    ];
    let mut bytes = [b'?'; 7];
    receive_edited(sent, 2, &picture, &mut bytes);
    bytes
}

fn is_bytes(sent: &Sent, bytes: &[u8]) -> bool {
    match sent {
        Sent::Bytes(given) => given.items() == bytes,
        Sent::Amount(_) => false,
        Sent::Fill(_) => false,
    }
}

fn is_amount(sent: &Sent, number: i128, scale: u8) -> bool {
    match sent {
        Sent::Bytes(_) => false,
        Sent::Amount(amount) => amount.number == Scaled { number, scale },
        Sent::Fill(_) => false,
    }
}

fn is_fill(sent: &Sent, byte: u8) -> bool {
    match sent {
        Sent::Bytes(_) => false,
        Sent::Amount(_) => false,
        Sent::Fill(fill) => *fill == byte,
    }
}

fn gives_bytes(answer: &Result<Sent, MoveFault>, bytes: &[u8]) -> bool {
    match answer {
        Ok(sent) => is_bytes(sent, bytes),
        Err(_) => false,
    }
}

fn gives_amount(answer: &Result<Sent, MoveFault>, number: i128, scale: u8) -> bool {
    match answer {
        Ok(sent) => is_amount(sent, number, scale),
        Err(_) => false,
    }
}

fn is_bad(answer: &Result<Sent, MoveFault>) -> bool {
    match answer {
        Ok(_) => false,
        Err(fault) => *fault == MoveFault::Data,
    }
}

#[test]
fn a_group_gives_its_bytes(rt: HostRuntime) {
    let rows: [&[u8]; 3] = [b"ab 1", b"", &[0x12, 0x3e]];
    for bytes in rows {
        assert!(rt; gives_bytes(&send_group(rt.alloc(), bytes), bytes));
    }
}

#[test]
fn a_text_gives_its_bytes_or_an_integer(rt: HostRuntime) {
    let alloc = rt.alloc();
    assert!(rt; gives_bytes(&send_text(alloc, b"a 1", Receiver::Text), b"a 1"));
    assert!(rt; gives_bytes(&send_text(alloc, b"a 1", Receiver::Group), b"a 1"));
    let numbers: [(&[u8], i128); 3] = [
        (b"0042", 42),
        (b"0", 0),
        (b"999999999999999999", 999_999_999_999_999_999),
    ];
    for (text, number) in numbers {
        assert!(rt; gives_amount(&send_text(alloc, text, Receiver::Aligned), number, 0));
    }
    let others: [&[u8]; 4] = [b"", b"4 2", b"-42", b"0000000000000000042"];
    for text in others {
        assert!(rt; is_bad(&send_text(alloc, text, Receiver::Aligned)));
    }
}

#[test]
fn a_number_gives_a_text_its_digits(rt: HostRuntime) {
    let rows: [(&[u8], Usage, NumForm, &[u8]); 7] = [
        (b"00 2", Usage::Display, form(4, 0, false), b"00 2"),
        (b"125", Usage::Display, form(3, 1, false), b"125"),
        (&[0x31, 0x72], Usage::Display, form(2, 0, true), b"12"),
        (&[0x12, 0x3d], Usage::Packed, form(3, 0, true), b"123"),
        (&[0x01, 0x2f], Usage::Packed, form(2, 0, false), b"12"),
        (&[0xff, 0xfe], Usage::Binary, form(4, 0, true), b"0002"),
        (&[0x7f, 0xff], Usage::Binary, form(4, 0, true), b"2767"),
    ];
    for (bytes, usage, form, text) in rows {
        let sent = number_sent(rt.alloc(), bytes, usage, form, Receiver::Text);
        assert!(rt; gives_bytes(&sent, text));
    }
}

#[test]
fn a_number_gives_a_group_its_bytes(rt: HostRuntime) {
    let rows: [(&[u8], Usage, NumForm); 3] = [
        (&[0x31, 0x72], Usage::Display, form(2, 0, true)),
        (&[0x12, 0x3e], Usage::Packed, form(3, 0, true)),
        (&[0xff, 0xfe], Usage::Binary, form(4, 0, true)),
    ];
    for (bytes, usage, form) in rows {
        let sent = number_sent(rt.alloc(), bytes, usage, form, Receiver::Group);
        assert!(rt; gives_bytes(&sent, bytes));
    }
}

#[test]
fn a_number_gives_a_number_its_value(rt: HostRuntime) {
    let alloc = rt.alloc();
    let rows: [(&[u8], Usage, NumForm, i128); 5] = [
        (b"0042", Usage::Display, form(4, 0, false), 42),
        (&[0x31, 0x72], Usage::Display, form(2, 1, true), -12),
        (&[0x12, 0x3d], Usage::Packed, form(3, 1, true), -123),
        (&[0x01, 0x2d], Usage::Packed, form(2, 0, false), -12),
        (&[0xff, 0xfe], Usage::Binary, form(4, 2, true), -2),
    ];
    for (bytes, usage, form, number) in rows {
        let sent = number_sent(alloc, bytes, usage, form, Receiver::Aligned);
        assert!(rt; gives_amount(&sent, number, form.scale));
    }
    let faults: [(&[u8], Usage, NumForm, Receiver); 4] = [
        (b"1 ", Usage::Display, form(2, 0, false), Receiver::Aligned),
        (b"1 ", Usage::Display, form(2, 0, true), Receiver::Text),
        (
            &[0x12, 0x3e],
            Usage::Packed,
            form(3, 0, true),
            Receiver::Aligned,
        ),
        (
            &[0x12, 0x3e],
            Usage::Packed,
            form(3, 0, true),
            Receiver::Text,
        ),
    ];
    for (bytes, usage, form, to) in faults {
        assert!(rt; is_bad(&number_sent(alloc, bytes, usage, form, to)));
    }
}

#[test]
fn a_literal_gives_its_digits_or_its_value(rt: HostRuntime) {
    let alloc = rt.alloc();
    let seven = Scaled {
        number: 7,
        scale: 0,
    };
    let minus = Scaled {
        number: -15,
        scale: 1,
    };
    assert!(rt; gives_bytes(&send_literal(alloc, seven, 3, Receiver::Text), b"007"));
    assert!(rt; gives_bytes(&send_literal(alloc, minus, 2, Receiver::Group), b"15"));
    assert!(rt; gives_amount(&send_literal(alloc, minus, 2, Receiver::Aligned), -15, 1));
}

#[test]
fn a_figure_fills_or_is_zero(rt: HostRuntime) {
    assert!(rt; is_fill(&send_figure(b' ', Receiver::Text), b' '));
    assert!(rt; is_fill(&send_figure(b'0', Receiver::Group), b'0'));
    assert!(rt; is_amount(&send_figure(b'0', Receiver::Aligned), 0, 0));
}

#[test]
fn a_text_is_cut_or_filled(rt: HostRuntime) -> Result<(), Fail> {
    let alloc = rt.alloc();
    let mut five = [b'?'; 5];
    let mut two = [b'?'; 2];
    copy_text(b"abc", &mut five);
    assert_eq!(rt; five, *b"abc  ");
    copy_text(b"abc", &mut two);
    assert_eq!(rt; two, *b"ab");
    fill(b'*', &mut two);
    assert_eq!(rt; two, *b"**");
    receive_text(&Sent::Bytes(bytes_of(alloc, b"xyz")?), &mut five);
    assert_eq!(rt; five, *b"xyz  ");
    receive_text(&Sent::Fill(b'0'), &mut five);
    assert_eq!(rt; five, *b"00000");
    let rows: [(&[u8], usize, &[u8]); 4] = [
        (b"abc", 5, b"abc  "),
        (b"abc", 2, b"ab"),
        (b"abc", 3, b"abc"),
        (b"abc", 0, b""),
    ];
    for (text, length, fitted) in rows {
        assert!(rt; fit_text(bytes_of(alloc, text)?, length)?.items() == fitted);
    }
    Ok(())
}

#[test]
fn bytes_that_are_sent_are_taken_out(rt: HostRuntime) -> Result<(), Fail> {
    match Sent::Bytes(bytes_of(rt.alloc(), b"ab")?).into_bytes() {
        Ok(bytes) => assert!(rt; bytes.items() == b"ab".as_slice()),
        Err(_) => assert!(rt; false),
    }
    match Sent::Fill(b'*').into_bytes() {
        Ok(_) => assert!(rt; false),
        Err(sent) => assert!(rt; is_fill(&sent, b'*')),
    }
    Ok(())
}

#[test]
fn a_number_receives_what_is_sent(rt: HostRuntime) -> Result<(), Fail> {
    let alloc = rt.alloc();
    let plus = match send_text(alloc, b"1234", Receiver::Aligned) {
        Ok(sent) => sent,
        Err(_) => Sent::Fill(b'?'),
    };
    let minus = match number_sent(
        alloc,
        &[0x12, 0x3d],
        Usage::Packed,
        form(3, 1, true),
        Receiver::Aligned,
    ) {
        Ok(sent) => sent,
        Err(_) => Sent::Fill(b'?'),
    };
    let bytes = Sent::Bytes(bytes_of(alloc, b"a")?);
    let rows: [(&Sent, Usage, NumForm, &[u8]); 9] = [
        (&plus, Usage::Display, form(2, 0, false), b"34"),
        (&plus, Usage::Display, form(5, 1, false), b"12340"),
        (&plus, Usage::Packed, form(4, 0, false), &[0x01, 0x23, 0x4f]),
        (&plus, Usage::Binary, form(4, 0, true), &[0x04, 0xd2]),
        (&minus, Usage::Display, form(2, 0, true), &[0x31, 0x72]),
        (&minus, Usage::Display, form(2, 0, false), b"12"),
        (&minus, Usage::Packed, form(3, 1, true), &[0x12, 0x3d]),
        (&bytes, Usage::Packed, form(3, 0, true), b"a "),
        (&bytes, Usage::Display, form(3, 0, true), b"a  "),
    ];
    for (sent, usage, form, held) in rows {
        assert_eq!(rt; &stored(sent, usage, form)[..held.len()], held);
    }
    assert_eq!(rt; edited(&plus), *b"234.00 ");
    assert_eq!(rt; edited(&minus), *b" 12.30-");
    assert_eq!(rt; edited(&bytes), *b"a      ");
    assert_eq!(rt; edited(&send_figure(b'0', Receiver::Aligned)), *b"  0.00 ");
    Ok(())
}

ghost use Rattle.std.specs.Prelude.{◌≡◌, true, false};

use super::*;

/// A signed form with two decimals.
fn signed(digits: u8, sign: SignPlace) -> NumForm
    ensures digits { result.digits ≡ digits }
    ensures signed { result.signed ≡ true }
    ensures sign { result.sign ≡ sign }
{
    NumForm {
        digits,
        scale: 2,
        signed: true,
        sign,
    }
}

/// An unsigned form of an integer.
fn unsigned(digits: u8) -> NumForm
    ensures digits { result.digits ≡ digits }
    ensures unsigned { result.signed ≡ false }
{
    NumForm {
        digits,
        scale: 0,
        signed: false,
        sign: SignPlace::Trailing,
    }
}

/// The number that was read, without its scale.
fn number(got: Result<Scaled, BadDigits>) -> Option<i128> {
    match got {
        Ok(scaled) => Some(scaled.number),
        Err(BadDigits) => None,
    }
}

#[test]
fn a_display_minus_stands_over_a_digit_or_beside_the_digits(rt: HostRuntime) {
    let trailing = signed(2, SignPlace::Trailing);
    let leading = signed(2, SignPlace::Leading);
    let after = signed(2, SignPlace::TrailingSeparate);
    let before = signed(2, SignPlace::LeadingSeparate);
    assert_eq!(rt;
        get_display(&[0x31, 0x32], trailing),
        Ok(Scaled {
            number: 12,
            scale: 2
        })
    );
    assert_eq!(rt; number(get_display(&[0x31, 0x72], trailing)), Some(-12));
    assert_eq!(rt; number(get_display(&[0x30, 0x70], trailing)), Some(0));
    assert_eq!(rt; number(get_display(&[0x71, 0x32], trailing)), None);
    assert_eq!(rt; number(get_display(&[0x71, 0x32], leading)), Some(-12));
    assert_eq!(rt; number(get_display(b"12-", after)), Some(-12));
    assert_eq!(rt; number(get_display(b"12+", after)), Some(12));
    assert_eq!(rt; number(get_display(b"12 ", after)), None);
    assert_eq!(rt; number(get_display(b"-12", before)), Some(-12));
}

#[test]
fn an_unsigned_display_number_has_plain_digits_alone(rt: HostRuntime) {
    assert_eq!(rt; number(get_display(b"0123", unsigned(4))), Some(123));
    assert_eq!(rt; number(get_display(b"01 3", unsigned(4))), None);
    assert_eq!(rt; number(get_display(&[0x31, 0x72], unsigned(2))), None);
    assert_eq!(rt;
        number(get_display(b"999999999999999999", unsigned(18))),
        Some(999_999_999_999_999_999)
    );
}

#[test]
fn a_packed_sign_is_the_last_half_byte(rt: HostRuntime) {
    let three = signed(3, SignPlace::Trailing);
    assert_eq!(rt; number(get_packed(&[0x12, 0x3d], three)), Some(-123));
    assert_eq!(rt; number(get_packed(&[0x12, 0x3c], three)), Some(123));
    assert_eq!(rt; number(get_packed(&[0x12, 0x3f], three)), Some(123));
    assert_eq!(rt; number(get_packed(&[0x12, 0x3e], three)), None);
    assert_eq!(rt; number(get_packed(&[0x1a, 0x3c], three)), None);
    assert_eq!(rt; number(get_packed(&[0x01, 0x2f], unsigned(2))), Some(12));
    assert_eq!(rt; number(get_packed(&[0x01, 0x2d], unsigned(2))), Some(-12));
    assert_eq!(rt; number(get_packed(&[0x11, 0x2f], unsigned(2))), None);
}

#[test]
fn binary_numbers_are_in_twos_complement(rt: HostRuntime) {
    assert_eq!(rt; get_binary(&[0x7f, 0xff], unsigned(4)).number, 32767);
    assert_eq!(rt; get_binary(&[0xff, 0xfe], unsigned(4)).number, -2);
    assert_eq!(rt; get_binary(&[0, 1, 0, 0], unsigned(5)).number, 65536);
    assert_eq!(rt; get_binary(&[0, 0, 0, 9], unsigned(9)).number, 9);
    assert_eq!(rt;
        get_binary(&[0, 0, 0, 0, 0, 0, 1, 0], unsigned(10)).number,
        256
    );
    assert_eq!(rt;
        get_binary(&[0x80, 0, 0, 0, 0, 0, 0, 0], unsigned(18)).number,
        -9223372036854775808
    );
}

#[test]
fn numbers_are_written_with_the_sign_of_their_form(rt: HostRuntime) {
    let trailing = signed(2, SignPlace::Trailing);
    let mut two = [0u8; 2];
    put_display(-12, trailing, &mut two);
    assert_eq!(rt; two, [0x31, 0x72]);
    put_display(-12, unsigned(2), &mut two);
    assert_eq!(rt; two, [0x31, 0x32]);
    put_packed(-123, signed(3, SignPlace::Trailing), &mut two);
    assert_eq!(rt; two, [0x12, 0x3d]);
    put_packed(12, trailing, &mut two);
    assert_eq!(rt; two, [0x01, 0x2c]);
    put_packed(-12, unsigned(2), &mut two);
    assert_eq!(rt; two, [0x01, 0x2f]);
    put_binary(-2, trailing, &mut two);
    assert_eq!(rt; two, [0xff, 0xfe]);
    put_binary(-2, unsigned(4), &mut two);
    assert_eq!(rt; two, [0x00, 0x02]);
    let mut three = [0u8; 3];
    put_display(-12, signed(2, SignPlace::LeadingSeparate), &mut three);
    assert_eq!(rt; three, *b"-12");
    put_display(0, signed(2, SignPlace::TrailingSeparate), &mut three);
    assert_eq!(rt; three, *b"00+");
}

#[test]
fn twins_are_equal(rt: HostRuntime) {
    let form = signed(2, SignPlace::Leading);
    let scaled = Scaled {
        number: -12,
        scale: 2,
    };
    assert_eq!(rt; y2k_base::Twin::twin(&form, rt.alloc()), Ok(form));
    assert_eq!(rt; y2k_base::Twin::twin(&form.sign, rt.alloc()), Ok(form.sign));
    assert_eq!(rt; y2k_base::Twin::twin(&scaled, rt.alloc()), Ok(scaled));
}

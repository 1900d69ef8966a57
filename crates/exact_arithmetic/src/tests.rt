ghost use Rattle.std.specs.Prelude.{◌≡◌};

use super::*;
use decimal_bytes::{NumForm, Scaled, SignPlace};
use std::cmp::Ordering;

const fn scaled(number: i128, scale: u8) -> Scaled {
    Scaled { number, scale }
}

fn form(digits: u8, scale: u8, signed: bool) -> NumForm {
    NumForm {
        digits,
        scale,
        signed,
        sign: SignPlace::Trailing,
    }
}

const WIDE: Result<Scaled, ArithmeticFault> = Err(ArithmeticFault::Wide);

const ZERO: Result<Scaled, ArithmeticFault> = Err(ArithmeticFault::Zero);

/// What an operator gives; `n` is the left operand with the other sign.
fn computed(operator: u8, left: Scaled, right: Scaled) -> Result<Scaled, ArithmeticFault> {
    match operator {
        b'+' => add(left, right),
        b'-' => subtract(left, right),
        b'*' => multiply(left, right),
        b'/' => divide(left, right),
        _ => negate(left),
    }
}

#[test]
fn arithmetic_is_exact_or_says_why_not(rt: HostRuntime) {
    let most = i128::MAX;
    let least = i128::MIN;
    let rows = [
        (b'+', scaled(15, 1), scaled(225, 2), Ok(scaled(375, 2))),
        (b'-', scaled(60, 0), scaled(5, 1), Ok(scaled(595, 1))),
        (b'*', scaled(-15, 1), scaled(25, 2), Ok(scaled(-375, 3))),
        (b'n', scaled(7, 3), scaled(0, 0), Ok(scaled(-7, 3))),
        (b'*', scaled(1, 20), scaled(1, 18), Ok(scaled(1, 38))),
        (b'*', scaled(0, 20), scaled(0, 19), WIDE),
        (b'+', scaled(most, 0), scaled(0, 0), Ok(scaled(most, 0))),
        (b'+', scaled(most, 0), scaled(1, 0), WIDE),
        (b'+', scaled(most, 0), scaled(0, 1), WIDE),
        (b'-', scaled(least, 0), scaled(1, 0), WIDE),
        (b'-', scaled(-1, 0), scaled(least, 0), Ok(scaled(most, 0))),
        (b'n', scaled(least, 0), scaled(0, 0), WIDE),
        (b'+', scaled(0, 0), scaled(1, 200), Ok(scaled(1, 200))),
        (b'+', scaled(2, 0), scaled(0, 38), WIDE),
        (b'/', scaled(least, 10), scaled(-1, 0), WIDE),
        (
            b'/',
            scaled(1, 0),
            scaled(3, 0),
            Ok(scaled(3_333_333_333, 10)),
        ),
        (
            b'/',
            scaled(-2, 0),
            scaled(3, 0),
            Ok(scaled(-6_666_666_666, 10)),
        ),
        (
            b'/',
            scaled(7, 0),
            scaled(-2, 1),
            Ok(scaled(-350_000_000_000, 10)),
        ),
        (
            b'/',
            scaled(123_456_789_012, 12),
            scaled(5, 0),
            Ok(scaled(246_913_578, 10)),
        ),
        (b'/', scaled(1, 0), scaled(0, 5), ZERO),
    ];
    for (operator, left, right, expected) in rows {
        assert_eq!(rt; computed(operator, left, right), expected);
    }
}

#[test]
fn a_result_is_cut_or_rounded_half_away_from_zero(rt: HostRuntime) {
    let rows = [
        (595, 1, true, 0, Ok(60)),
        (595, 1, false, 0, Ok(59)),
        (-595, 1, true, 0, Ok(-60)),
        (-594, 1, true, 0, Ok(-59)),
        (-599, 1, false, 0, Ok(-59)),
        (-4, 1, true, 0, Ok(0)),
        (5, 3, true, 2, Ok(1)),
        (12, 0, true, 2, Ok(1_200)),
        (7, 200, true, 0, Ok(0)),
        (i128::MAX, 0, false, 1, Err(ArithmeticFault::Wide)),
    ];
    for (number, from, rounded, to, kept) in rows {
        assert_eq!(rt; at_scale(scaled(number, from), rounded, to), kept);
    }
}

#[test]
fn more_integer_digits_than_a_receiver_has_are_too_big(rt: HostRuntime) {
    let rows = [
        (100, 2, true),
        (-99, 2, false),
        (-100, 2, true),
        (i128::MIN, 39, false),
    ];
    for (number, digits, expected) in rows {
        assert_eq!(rt; too_big(number, form(digits, 0, true)), expected);
    }
}

/// What a division gives a receiver of two digits and a REMAINDER: whether it is a size error, and the two numbers.
fn divided(
    dividend: i128,
    divisor: i128,
    rounded: bool,
    signed: bool,
    phrase: bool,
) -> Option<(bool, i128, i128)> {
    let receiver = form_of_two(signed);
    let rest = form(3, 0, false);
    let outcome = division_outcome(
        scaled(dividend, 0),
        scaled(divisor, 0),
        rounded,
        receiver,
        rest,
        phrase,
    );
    match by_phrase(phrase, outcome) {
        Ok(outcome) => Some((outcome.is_error, outcome.result, outcome.rest)),
        Err(_) => None,
    }
}

fn form_of_two(signed: bool) -> NumForm
    ensures { result.digits ≡ 2 }
{
    NumForm {
        digits: 2,
        scale: 0,
        signed,
        sign: SignPlace::Trailing,
    }
}

#[test]
fn a_division_tells_its_size_error_and_its_remainder(rt: HostRuntime) {
    let rows = [
        (-7, 2, false, false, false, Some((false, -3, -13))),
        (-7, 2, true, true, false, Some((false, -4, -1))),
        (700, 7, false, false, true, Some((true, 100, 0))),
        (700, 7, false, false, false, Some((true, 100, 700))),
        (1, 0, false, false, false, None),
        (1, 0, false, false, true, Some((true, 0, 0))),
    ];
    for (dividend, divisor, rounded, signed, phrase, expected) in rows {
        assert_eq!(rt;
            divided(dividend, divisor, rounded, signed, phrase),
            expected
        );
    }
}

#[test]
fn an_outcome_has_the_number_at_the_receivers_scale(rt: HostRuntime) {
    let rows = [
        (100, 0, true, 100),
        (994, 1, false, 99),
        (995, 1, true, 100),
    ];
    for (number, scale, is_error, kept) in rows {
        let outcome = simple_outcome(scaled(number, scale), true, form_of_two(false));
        assert_eq!(rt;
            outcome,
            Ok(Outcome {
                is_error,
                result: kept,
                rest: 0
            })
        );
    }
}

#[test]
fn numbers_are_compared_by_value(rt: HostRuntime) {
    let rows = [
        (150, 2, 15, Ok(Ordering::Equal)),
        (-21, 1, -21, Ok(Ordering::Equal)),
        (-22, 1, -21, Ok(Ordering::Less)),
        (i128::MAX, 0, 0, Err(ArithmeticFault::Wide)),
    ];
    for (number, scale, right, order) in rows {
        assert_eq!(rt; number_cmp(scaled(number, scale), scaled(right, 1)), order);
    }
}

#[test]
fn texts_are_compared_with_spaces_behind_them(rt: HostRuntime) {
    let rows: [(&[u8], &[u8], Ordering); 6] = [
        (b"AB", b"AB  ", Ordering::Equal),
        (b"AB ", b"AB", Ordering::Equal),
        (b"AB", b"AB!", Ordering::Less),
        (b"AB\x1f", b"AB", Ordering::Less),
        (b"B", b"AZ", Ordering::Greater),
        (b"", b"", Ordering::Equal),
    ];
    for (left, right, order) in rows {
        assert_eq!(rt; text_cmp(left, right), order);
    }
    assert_eq!(rt; cmp_repeated(b"000", b'0'), Ordering::Equal);
    assert_eq!(rt; cmp_repeated(b"001", b'0'), Ordering::Greater);
    assert_eq!(rt; repeated_cmp(0xff, b"zz"), Ordering::Greater);
    assert_eq!(rt; repeated_cmp(b' ', b" A"), Ordering::Less);
}

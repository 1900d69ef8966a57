ghost use Rattle.std.specs.Prelude.{◌≡◌, ◌+◌, ◌*◌, ◌-◌, ◌≤◌, ◌<◌, length, MatchOption, None, Some, true};
ghost use Rattle.run_command.specs.Words as spec;

use trial_run::Day;

/// The most digits of a bound.
const DIGITS_OF_A_BOUND: usize = 18;

/// The day that six digits, YYMMDD, stand for.
pub fn read_day(word: &str) -> Option<Day>
    ensures { result ≡ spec.day_of word.now }
{
    match two_digits(word.as_bytes()) {
        None => None,
        Some((yy, rest)) => month_after(yy, rest),
    }
}

fn month_after(yy: u8, rest: &[u8]) -> Option<Day>
    ensures { result ≡ spec.month_after yy (spec.two_digits rest.now) }
{
    match two_digits(rest) {
        None => None,
        Some((mm, rest)) => day_after(yy, mm, rest),
    }
}

fn day_after(yy: u8, mm: u8, rest: &[u8]) -> Option<Day>
    ensures { result ≡ spec.day_after yy mm (spec.two_digits rest.now) }
{
    match two_digits(rest) {
        None => None,
        Some((dd, rest)) => match rest {
            [] => date(yy, mm, dd),
            [_, ..] => None,
        },
    }
}

fn date(yy: u8, mm: u8, dd: u8) -> Option<Day>
    ensures { result ≡ spec.date yy mm dd }
{
    if is_date(yy, mm, dd) {
        Some(Day { yy, mm, dd })
    } else {
        None
    }
}

fn is_date(yy: u8, mm: u8, dd: u8) -> bool
    ensures { result ≡ spec.is_date yy mm dd }
{
    (1 <= mm && mm <= 12) && (1 <= dd && dd <= days_in(yy, mm))
}

/// How many days a month has.
fn days_in(yy: u8, mm: u8) -> u8
    ensures { result ≡ spec.days_in yy mm }
{
    if mm == 2 {
        if yy % 4 == 0 { 29 } else { 28 }
    } else if (mm == 4 || mm == 6) || (mm == 9 || mm == 11) {
        30
    } else {
        31
    }
}

/// The number of two digits, with what follows it.
fn two_digits(word: &[u8]) -> Option<(u8, &[u8])>
    ensures { MatchOption result (spec.two_digits word.now ≡ None) (λ r. spec.two_digits word.now ≡ Some (r.0, r.1.now)) }
{
    match word {
        [] => None,
        [_] => None,
        [tens, units, rest @ ..] => {
            if is_digit(*tens) && is_digit(*units) {
                Some((10 * (*tens - b'0') + (*units - b'0'), rest))
            } else {
                None
            }
        }
    }
}

fn is_digit(byte: u8) -> bool
    ensures { result ≡ spec.is_digit byte }
{
    48 <= byte && byte <= 57
}

/// The bound that 1 to 18 digits stand for.
pub fn read_bound(word: &str) -> Option<u64>
    ensures { result ≡ spec.bound_of word.now }
{
    let digits = word.as_bytes();
    if 1 <= digits.len() && digits.len() <= DIGITS_OF_A_BOUND {
        value_of(digits)
    } else {
        None
    }
}

/// The number that digits stand for.
fn value_of(digits: &[u8]) -> Option<u64>
    requires { length digits.now ≤ 18 }
    ensures { result ≡ spec.with_digits 0 digits.now }
{
    let mut value = 0u64;
    let mut done = 0u8;
    let mut rest = digits;
    while let [digit, more @ ..] = rest {
        if !is_digit(*digit) {
            return None;
        }
        value = 10 * value + u64::from(*digit - b'0');
        done += 1;
        rest = more;
    }
    Some(value)
}

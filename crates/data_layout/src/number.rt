ghost use Rattle.std.specs.Prelude.{◌≡◌, ◌+◌, ◌*◌, IfOk};
ghost use Rattle.data_layout.specs.Number as number;
ghost use Rattle.picture.specs.Inserting.{takes_byte};

use cobol_syntax::Usage;
use decimal_bytes::{NumForm, SignPlace};
use y2k_base::{Memory, Picture, Run};

/// The sum, if it fits.
pub(crate) fn sum(first: u128, second: u128) -> Result<u128, Memory>
    ensures { IfOk result (λ sum. sum ≡ first + second) }
{
    match first.checked_add(second) {
        Some(sum) => Ok(sum),
        None => Err(Memory),
    }
}

/// The product, if it fits.
pub(crate) fn product(first: u128, second: u128) -> Result<u128, Memory>
    ensures { IfOk result (λ product. product ≡ first * second) }
{
    match first.checked_mul(second) {
        Some(product) => Ok(product),
        None => Err(Memory),
    }
}

fn byte(number: u128) -> Result<u8, Memory>
    ensures { IfOk result (λ byte. byte ≡ number) }
{
    match u8::try_from(number) {
        Ok(byte) => Ok(byte),
        Err(_) => Err(Memory),
    }
}

fn run_digits(run: Run) -> u128
    ensures { result ≡ number.run_digits run }
{
    if run.symbol == b'9' || run.symbol == b'Z' {
        u128::from(run.count)
    } else {
        0
    }
}

fn run_bytes(run: Run) -> u128
    ensures { result ≡ number.run_bytes run }
{
    if run.symbol == b'S' || run.symbol == b'V' {
        0
    } else {
        u128::from(run.count)
    }
}

pub(crate) fn digits(runs: &[Run]) -> Result<u128, Memory>
    ensures { IfOk result (λ count. count ≡ number.digits runs.now) }
{
    let mut count = 0;
    let mut rest = runs;
    while let [run, more @ ..] = rest {
        count = sum(count, run_digits(*run))?;
        rest = more;
    }
    Ok(count)
}

fn is_point(symbol: u8) -> bool
    ensures { result ≡ number.is_point symbol }
{
    symbol == b'V' || symbol == b'.'
}

pub(crate) fn decimals(runs: &[Run]) -> Result<u128, Memory>
    ensures { IfOk result (λ count. count ≡ number.decimals runs.now) }
{
    let mut rest = runs;
    while let [run, more @ ..] = rest {
        if is_point(run.symbol) {
            let count = digits(more)?;
            return Ok(count);
        }
        rest = more;
    }
    Ok(0)
}

pub(crate) fn is_signed(runs: &[Run]) -> bool
    ensures { result ≡ number.is_signed runs.now }
{
    let mut rest = runs;
    while let [run, more @ ..] = rest {
        if run.symbol == b'S' || run.symbol == b'-' {
            return true;
        }
        rest = more;
    }
    false
}

fn symbol_bytes(runs: &[Run]) -> Result<u128, Memory>
    ensures { IfOk result (λ count. count ≡ number.symbol_bytes runs.now) }
{
    let mut count = 0;
    let mut rest = runs;
    while let [run, more @ ..] = rest {
        count = sum(count, run_bytes(*run))?;
        rest = more;
    }
    Ok(count)
}

fn is_separate(place: SignPlace) -> bool
    ensures { result ≡ number.is_separate place }
{
    match place {
        SignPlace::Trailing => false,
        SignPlace::Leading => false,
        SignPlace::TrailingSeparate => true,
        SignPlace::LeadingSeparate => true,
    }
}

fn binary_bytes(digits: u128) -> u128
    ensures { result ≡ number.binary_bytes digits }
{
    if digits <= 4 {
        2
    } else if digits <= 9 {
        4
    } else {
        8
    }
}

/// The bytes of an elementary item with these runs in its picture.
pub(crate) fn item_bytes(usage: Usage, place: SignPlace, runs: &[Run]) -> Result<u128, Memory>
    ensures { IfOk result (λ count. count ≡ number.item_bytes usage place runs.now) }
{
    match usage {
        Usage::Display => {
            let count = sum(symbol_bytes(runs)?, sign_bytes(place, runs))?;
            Ok(count)
        }
        Usage::Packed => {
            let count = digits(runs)?;
            Ok(count / 2 + 1)
        }
        Usage::Binary => {
            let count = digits(runs)?;
            Ok(binary_bytes(count))
        }
    }
}

fn sign_bytes(place: SignPlace, runs: &[Run]) -> u128
    ensures { result ≡ number.sign_bytes place runs.now }
{
    if is_separate(place) && is_signed(runs) {
        1
    } else {
        0
    }
}

pub(crate) fn runs_of(picture: &Option<Picture>) -> &[Run]
    ensures { result.now ≡ number.runs_of picture.now }
{
    match picture {
        Some(picture) => picture.runs.items(),
        None => &[],
    }
}

/// Digits, point and sign of an item.
pub(crate) fn form_of(picture: &Option<Picture>, place: SignPlace) -> Result<NumForm, Memory>
    ensures { IfOk result (λ form. form ≡ number.form_of picture.now place) }
{
    let runs = runs_of(picture);
    let digits = byte(digits(runs)?)?;
    let scale = byte(decimals(runs)?)?;
    Ok(NumForm {
        digits,
        scale,
        signed: is_signed(runs),
        sign: place,
    })
}

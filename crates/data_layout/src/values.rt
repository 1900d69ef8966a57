ghost use Rattle.std.specs.Prelude.{◌≡◌, ◌≢◌, ◌^◌, IfOk};
ghost use Rattle.data_layout.specs.Values as spec;

use crate::number::{decimals, digits, is_signed, product};
use decimal_bytes::Scaled;
use y2k_base::{Memory, Run};

/// 10 to that power, if it fits.
fn power(exponent: u128) -> Result<u128, Memory>
    ensures { IfOk result (λ power. power ≡ 10 ^ exponent) }
{
    let mut power = 1;
    for _turn in 0..exponent {
        power = product(power, 10)?;
    }
    Ok(power)
}

/// Whether `number` divided by 10 to the scale fits in so many digits, of which some follow the point.
fn fits(number: u128, scale: u128, places: u128, after: u128) -> Result<bool, Memory>
    ensures { IfOk result (λ fits. fits ≡ spec.fits number scale places after) }
{
    let bound = power(places)?;
    if scale <= after {
        let whole = product(number, power(after - scale)?)?;
        Ok(whole < bound)
    } else {
        let cut = power(scale - after)?;
        Ok(is_cut_within(number, cut, bound))
    }
}

fn is_cut_within(number: u128, cut: u128, bound: u128) -> bool
    requires { cut ≢ 0 }
    ensures { result ≡ spec.is_cut_within number cut bound }
{
    number % cut == 0 && number / cut < bound
}

/// Whether an item with these runs in its picture keeps the value.
pub(crate) fn keeps(runs: &[Run], value: Scaled) -> Result<bool, Memory>
    ensures { IfOk result (λ keeps. keeps ≡ spec.keeps runs.now value) }
{
    let fit = fits(
        value.number.unsigned_abs(),
        u128::from(value.scale),
        digits(runs)?,
        decimals(runs)?,
    )?;
    Ok(sign_kept(runs, value.number) && fit)
}

fn sign_kept(runs: &[Run], number: i128) -> bool
    ensures { result ≡ spec.sign_kept runs.now number }
{
    is_signed(runs) || !(number < 0)
}

ghost use Rattle.std.specs.Prelude.{◌≡◌, ◌≤◌, ◌&&◌, ◌||◌, false, pos};
ghost use Rattle.program_meaning.specs.Answer.{Gives, and_then};
ghost use Rattle.program_meaning.specs.Layout.{Layout};
ghost use Rattle.program_meaning.specs.Storage.{Storage};
ghost use Rattle.program_meaning.specs.Arithmetic as exact;
ghost use Rattle.number_bytes.specs.Held.{read_form, read_scaled};
ghost use Rattle.exact_arithmetic.specs.Answers.{scaled_answer, outcome_answer};

use crate::ArithmeticFault;
use crate::arithmetic::{divide, multiply, subtract};
use crate::result::{at_scale, too_big};
use decimal_bytes::{NumForm, Scaled};
use number_bytes::stored_value;

/// What was computed: whether it is a size error, and the numbers of the receiver and of the receiver of REMAINDER,
/// each at its receiver's scale.
#[derive(Clone, Copy, Debug, PartialEq, Eq)]
pub struct Outcome {
    pub is_error: bool,
    pub result: i128,
    pub rest: i128,
}

/// What the value of an expression gives a receiver.
pub fn simple_outcome(
    value: Scaled,
    rounded: bool,
    form: NumForm,
) -> Result<Outcome, ArithmeticFault>
    ensures { outcome_answer result ≡ and_then (exact.at_scale rounded form.scale (read_scaled value))
        (λ n. Gives (exact.outcome (exact.too_big (read_form form) n) n (pos 0))) }
{
    match at_scale(value, rounded, form.scale) {
        Ok(number) => Ok(Outcome {
            is_error: too_big(number, form),
            result: number,
            rest: 0,
        }),
        Err(fault) => Err(fault),
    }
}

/// What a division gives its receiver and the receiver of REMAINDER. `phrase` says that there is a size phrase of
/// either kind: then nothing more is computed after a quotient that is too large.
pub fn division_outcome(
    dividend: Scaled,
    divisor: Scaled,
    rounded: bool,
    form: NumForm,
    rest_form: NumForm,
    phrase: bool,
) -> Result<Outcome, ArithmeticFault>
    requires { form.digits ≤ 18 }
    ensures { (layout : Layout) (store : Storage) → outcome_answer result
        ≡ and_then (exact.divide (read_scaled dividend) (read_scaled divisor)) (λ q. and_then (exact.at_scale rounded form.scale q)
        (λ n. exact.rest_outcome layout store (read_form form) (read_form rest_form) phrase n (read_scaled dividend) (read_scaled divisor) q)) }
{
    match divide(dividend, divisor) {
        Ok(quotient) => match at_scale(quotient, rounded, form.scale) {
            Ok(result) => after_quotient(
                result, dividend, divisor, quotient, form, rest_form, phrase,
            ),
            Err(fault) => Err(fault),
        },
        Err(fault) => Err(fault),
    }
}

/// The outcome of a quotient, which is also there as the number of its receiver.
fn after_quotient(
    number: i128,
    dividend: Scaled,
    divisor: Scaled,
    quotient: Scaled,
    form: NumForm,
    rest_form: NumForm,
    phrase: bool,
) -> Result<Outcome, ArithmeticFault>
    requires { form.digits ≤ 18 }
    ensures { (layout : Layout) (store : Storage) → outcome_answer result
        ≡ exact.rest_outcome layout store (read_form form) (read_form rest_form) phrase number (read_scaled dividend) (read_scaled divisor) (read_scaled quotient) }
{
    let is_error = too_big(number, form);
    if both(is_error, phrase) {
        Ok(Outcome {
            is_error: true,
            result: number,
            rest: 0,
        })
    } else {
        let rest = remainder(form, dividend, divisor, quotient);
        rest_outcome(is_error, number, rest, rest_form)
    }
}

fn both(first: bool, second: bool) -> bool
    ensures { result ≡ (first && second) }
{
    first && second
}

/// The outcome of a result and a remainder.
fn rest_outcome(
    is_error: bool,
    number: i128,
    rest: Result<Scaled, ArithmeticFault>,
    form: NumForm,
) -> Result<Outcome, ArithmeticFault>
    ensures { outcome_answer result ≡ and_then (scaled_answer rest) (λ r. and_then (exact.at_scale false form.scale r)
        (λ m. Gives (exact.outcome (is_error || exact.too_big (read_form form) m) number m))) }
{
    match rest {
        Ok(rest) => match at_scale(rest, false, form.scale) {
            Ok(rest) => Ok(Outcome {
                is_error: is_error || too_big(rest, form),
                result: number,
                rest,
            }),
            Err(fault) => Err(fault),
        },
        Err(fault) => Err(fault),
    }
}

/// The dividend minus the divisor times the quotient that a receiver would store without ROUNDED: its high digits are
/// cut, and its sign is lost in an unsigned receiver.
pub fn remainder(
    form: NumForm,
    dividend: Scaled,
    divisor: Scaled,
    quotient: Scaled,
) -> Result<Scaled, ArithmeticFault>
    requires { form.digits ≤ 18 }
    ensures { (layout : Layout) (store : Storage) → scaled_answer result
        ≡ exact.remainder layout store (read_form form) (read_scaled dividend) (read_scaled divisor) (read_scaled quotient) }
{
    match at_scale(quotient, false, form.scale) {
        Ok(number) => {
            let stored = Scaled {
                number: stored_value(number, form),
                scale: form.scale,
            };
            match multiply(divisor, stored) {
                Ok(product) => subtract(dividend, product),
                Err(fault) => Err(fault),
            }
        }
        Err(fault) => Err(fault),
    }
}

/// With a size phrase a divisor of 0 is a size error.
pub fn by_phrase(
    phrase: bool,
    outcome: Result<Outcome, ArithmeticFault>,
) -> Result<Outcome, ArithmeticFault>
    ensures { (layout : Layout) (store : Storage) → outcome_answer result ≡ exact.by_phrase layout store phrase (outcome_answer outcome) }
{
    match outcome {
        Err(ArithmeticFault::Zero) if phrase => Ok(Outcome {
            is_error: true,
            result: 0,
            rest: 0,
        }),
        same => same,
    }
}

ghost use Rattle.std.specs.Prelude.{◌≡◌, ◌≤◌, IfOk, IfErr, OnErr};
ghost use Rattle.exact_arithmetic.specs.Answers.{read_outcome};
ghost use Rattle.number_bytes.specs.Held.{read_form};
ghost use Rattle.place_table.specs.Tables.{layout_of, IsStorageOf, Gave, Failed};
ghost use Rattle.place_table.specs.Views.{HasGrown};
ghost use Rattle.program_meaning.specs.Answer.{and_then};
ghost use Rattle.program_meaning.specs.Arithmetic as meant;
ghost use Rattle.storage_places.specs.Held.{held};
ghost use Rattle.tree_reading.specs.Reading.{read_place, read_expr, place_if};

use crate::chain::division_of;
use crate::faults::{by_phrase, outcome_or_fault};
use crate::values::value;
use crate::writing::write;
use cobol_syntax::{Expr, Place};
use decimal_bytes::NumForm;
use exact_arithmetic::{Outcome, division_outcome, simple_outcome};
use place_table::Places;
use std::alloc::Global;
use storage_places::{RunFault, Storage};

/// How a result is received. `phrase` says that there is a size phrase of either kind.
#[derive(Clone, Copy)]
struct Receiving {
    rounded: bool,
    form: NumForm,
    phrase: bool,
}

/// Computes an expression into a place, and the remainder of a division into another. `phrase` says that there is a
/// size phrase of either kind. Answers whether a size error came; with a phrase the receivers are then unchanged. After
/// a fault the storage is unchanged.
pub fn compute(
    alloc: Global,
    places: &mut Places<'_>,
    storage: &mut Storage,
    to: &Place,
    rounded: bool,
    expr: &Expr,
    rest: &Option<Place>,
    phrase: bool,
) -> Result<bool, RunFault>
    requires storage { IsStorageOf (layout_of places.old) storage.old }
    ensures ok { IfOk result (λ error. Gave (layout_of places.old)
        (λ l. meant.compute l (held storage.old) (read_place to.now) rounded (read_expr expr.now) (place_if rest.now) phrase) (error, held storage.new)) }
    ensures err { IfErr result (Failed (layout_of places.old)
        (λ l. meant.compute l (held storage.old) (read_place to.now) rounded (read_expr expr.now) (place_if rest.now) phrase)) }
    ensures stays { OnErr result (held storage.new ≡ held storage.old) }
    ensures storage { IsStorageOf (layout_of places.old) storage.new }
    ensures grown { HasGrown places.old places.new }
{
    let form = places.form(to)?;
    let how = Receiving {
        rounded,
        form,
        phrase,
    };
    let outcome = outcome(alloc, places, storage, how, expr, rest)?;
    let is_error = write(alloc, places, storage, phrase, to, rest, outcome)?;
    Ok(is_error)
}

/// What a statement gives its receivers; with a size phrase a divisor of 0 is a size error.
fn outcome(
    alloc: Global,
    places: &mut Places<'_>,
    storage: &Storage,
    how: Receiving,
    expr: &Expr,
    rest: &Option<Place>,
) -> Result<Outcome, RunFault>
    requires storage { IsStorageOf (layout_of places.old) storage.now }
    requires digits { how.form.digits ≤ 18 }
    ensures ok { IfOk result (λ x. Gave (layout_of places.old) (λ l. meant.by_phrase l (held storage.now) how.phrase
        (meant.computed l (held storage.now) how.rounded (read_form how.form) how.phrase (read_expr expr.now) (place_if rest.now))) (read_outcome x)) }
    ensures err { IfErr result (Failed (layout_of places.old) (λ l. meant.by_phrase l (held storage.now) how.phrase
        (meant.computed l (held storage.now) how.rounded (read_form how.form) how.phrase (read_expr expr.now) (place_if rest.now)))) }
    ensures grown { HasGrown places.old places.new }
{
    by_phrase(
        how.phrase,
        computed(alloc, places, storage, how, expr, rest),
    )
}

/// What an expression gives its receivers. With a REMAINDER it is a division.
fn computed(
    alloc: Global,
    places: &mut Places<'_>,
    storage: &Storage,
    how: Receiving,
    expr: &Expr,
    rest: &Option<Place>,
) -> Result<Outcome, RunFault>
    requires storage { IsStorageOf (layout_of places.old) storage.now }
    requires digits { how.form.digits ≤ 18 }
    ensures ok { IfOk result (λ x. Gave (layout_of places.old)
        (λ l. meant.computed l (held storage.now) how.rounded (read_form how.form) how.phrase (read_expr expr.now) (place_if rest.now)) (read_outcome x)) }
    ensures err { IfErr result (Failed (layout_of places.old)
        (λ l. meant.computed l (held storage.now) how.rounded (read_form how.form) how.phrase (read_expr expr.now) (place_if rest.now))) }
    ensures grown { HasGrown places.old places.new }
{
    match rest {
        None => simple(alloc, places, storage, how, expr),
        Some(place) => match division_of(expr) {
            Some((dividend, divisor)) => {
                divided(alloc, places, storage, how, dividend, divisor, place)
            }
            None => simple(alloc, places, storage, how, expr),
        },
    }
}

/// What an expression gives one receiver.
fn simple(
    alloc: Global,
    places: &mut Places<'_>,
    storage: &Storage,
    how: Receiving,
    expr: &Expr,
) -> Result<Outcome, RunFault>
    requires storage { IsStorageOf (layout_of places.old) storage.now }
    ensures ok { IfOk result (λ x. Gave (layout_of places.old)
        (λ l. meant.simple_outcome l (held storage.now) how.rounded (read_form how.form) (read_expr expr.now)) (read_outcome x)) }
    ensures err { IfErr result (Failed (layout_of places.old)
        (λ l. meant.simple_outcome l (held storage.now) how.rounded (read_form how.form) (read_expr expr.now))) }
    ensures grown { HasGrown places.old places.new }
{
    let number = value(alloc, places, storage, expr)?;
    let outcome = outcome_or_fault(simple_outcome(number, how.rounded, how.form))?;
    Ok(outcome)
}

/// What a division gives its receiver and that of REMAINDER.
fn divided(
    alloc: Global,
    places: &mut Places<'_>,
    storage: &Storage,
    how: Receiving,
    dividend: &Expr,
    divisor: &Expr,
    rest: &Place,
) -> Result<Outcome, RunFault>
    requires storage { IsStorageOf (layout_of places.old) storage.now }
    requires digits { how.form.digits ≤ 18 }
    ensures ok { IfOk result (λ x. Gave (layout_of places.old) (λ l. and_then (meant.receiver_form l (held storage.now) (read_place rest.now))
        (λ rest_form. meant.division_outcome l (held storage.now) how.rounded (read_form how.form) rest_form how.phrase (read_expr dividend.now) (read_expr divisor.now)))
        (read_outcome x)) }
    ensures err { IfErr result (Failed (layout_of places.old) (λ l. and_then (meant.receiver_form l (held storage.now) (read_place rest.now))
        (λ rest_form. meant.division_outcome l (held storage.now) how.rounded (read_form how.form) rest_form how.phrase (read_expr dividend.now) (read_expr divisor.now)))) }
    ensures grown { HasGrown places.old places.new }
{
    let rest_form = places.form(rest)?;
    let dividend = value(alloc, places, storage, dividend)?;
    let divisor = value(alloc, places, storage, divisor)?;
    let outcome = outcome_or_fault(division_outcome(
        dividend,
        divisor,
        how.rounded,
        how.form,
        rest_form,
        how.phrase,
    ))?;
    Ok(outcome)
}

ghost use Rattle.std.specs.Prelude.{◌≡◌, IfOk, IfErr};
ghost use Rattle.place_table.specs.Tables.{layout_of, IsStorageOf, Gave, Failed};
ghost use Rattle.place_table.specs.Views.{HasGrown};
ghost use Rattle.program_meaning.specs.Answer.{Gives, and_then};
ghost use Rattle.program_meaning.specs.Compare as meant;
ghost use Rattle.program_meaning.specs.Storage.{view, bytes_at};
ghost use Rattle.storage_places.specs.Held.{held};
ghost use Rattle.tree_reading.specs.Reading.{read_place, read_operand, read_expr};
ghost use Rattle.storage_tests.specs.Sides.{read_compared};

use crate::digits::Digits;
use crate::seen::{bytes_of, see};
use cobol_syntax::{Expr, Operand, Place};
use exact_arithmetic::{cmp_repeated, repeated_cmp, text_cmp};
use place_table::Places;
use std::cmp::Ordering;
use storage_places::{RunFault, Storage};

/// What a side gives to be compared: bytes, or a byte that is as long as the other side.
#[derive(Clone, Copy)]
pub(crate) enum Compared<'a> {
    Whole(&'a [u8]),
    Digits(Digits),
    Repeated(u8),
}

/// How two sides stand to each other, the shorter one filled with spaces.
pub(crate) fn bytes_cmp(left: &Compared<'_>, right: &Compared<'_>) -> Ordering
    ensures { result ≡ meant.bytes_cmp (read_compared left.now) (read_compared right.now) }
{
    match left {
        Compared::Whole(bytes) => cmp_whole(bytes, right),
        Compared::Digits(digits) => cmp_whole(digits.bytes(), right),
        Compared::Repeated(byte) => cmp_figure(*byte, right),
    }
}

pub(crate) fn cmp_whole(left: &[u8], right: &Compared<'_>) -> Ordering
    ensures { result ≡ meant.bytes_cmp (meant.Whole left.now) (read_compared right.now) }
{
    match right {
        Compared::Whole(bytes) => text_cmp(left, bytes),
        Compared::Digits(digits) => text_cmp(left, digits.bytes()),
        Compared::Repeated(byte) => cmp_repeated(left, *byte),
    }
}

fn cmp_figure(left: u8, right: &Compared<'_>) -> Ordering
    ensures { result ≡ meant.bytes_cmp (meant.Repeated left) (read_compared right.now) }
{
    match right {
        Compared::Whole(bytes) => repeated_cmp(left, bytes),
        Compared::Digits(digits) => repeated_cmp(left, digits.bytes()),
        Compared::Repeated(_) => Ordering::Equal,
    }
}

/// The bytes of a place.
pub(crate) fn place_bytes<'a>(
    places: &mut Places<'_>,
    storage: &'a Storage,
    place: &Place,
) -> Result<&'a [u8], RunFault>
    requires storage { IsStorageOf (layout_of places.old) storage.now }
    ensures ok { IfOk result (λ bytes. Gave (layout_of places.old)
        (λ l. and_then (view l (held storage.now) (read_place place.now)) (λ v. Gives (bytes_at l (held storage.now) v))) bytes.now) }
    ensures err { IfErr result (Failed (layout_of places.old) (λ l. view l (held storage.now) (read_place place.now))) }
    ensures grown { HasGrown places.old places.new }
{
    let view = see(places, storage, place)?;
    Ok(bytes_of(storage, view.span))
}

/// What an operand gives to be compared by its bytes.
pub(crate) fn operand_compared<'a>(
    places: &mut Places<'_>,
    storage: &'a Storage,
    operand: &'a Operand,
) -> Result<Compared<'a>, RunFault>
    requires storage { IsStorageOf (layout_of places.old) storage.now }
    ensures ok { IfOk result (λ x. Gave (layout_of places.old)
        (λ l. meant.operand_compared l (held storage.now) (read_operand operand.now)) (read_compared x)) }
    ensures err { IfErr result (Failed (layout_of places.old) (λ l. meant.operand_compared l (held storage.now) (read_operand operand.now))) }
    ensures grown { HasGrown places.old places.new }
{
    match operand {
        Operand::Place(place) => {
            let bytes = place_bytes(places, storage, place)?;
            Ok(Compared::Whole(bytes))
        }
        Operand::Number {
            value,
            digits,
            at: _,
        } => {
            let digits = Digits::of(value.number, *digits)?;
            Ok(Compared::Digits(digits))
        }
        Operand::Text { bytes, at: _ } => Ok(Compared::Whole(bytes.items())),
        Operand::Figure { byte, at: _ } => Ok(Compared::Repeated(*byte)),
    }
}

/// What an expression gives. One with an operator or a sign has no bytes.
pub(crate) fn expr_compared<'a>(
    places: &mut Places<'_>,
    storage: &'a Storage,
    expr: &'a Expr,
) -> Result<Compared<'a>, RunFault>
    requires storage { IsStorageOf (layout_of places.old) storage.now }
    ensures ok { IfOk result (λ x. Gave (layout_of places.old)
        (λ l. meant.compared l (held storage.now) (read_expr expr.now)) (read_compared x)) }
    ensures err { IfErr result (Failed (layout_of places.old) (λ l. meant.compared l (held storage.now) (read_expr expr.now))) }
    ensures grown { HasGrown places.old places.new }
{
    match expr {
        Expr::One(operand) => {
            let compared = operand_compared(places, storage, operand)?;
            Ok(compared)
        }
        Expr::Minus(_) => Err(RunFault::Data),
        Expr::Add(_, _) => Err(RunFault::Data),
        Expr::Sub(_, _) => Err(RunFault::Data),
        Expr::Mul(_, _) => Err(RunFault::Data),
        Expr::Div(_, _) => Err(RunFault::Data),
    }
}

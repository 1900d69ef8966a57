ghost use Rattle.std.specs.Prelude.{◌≡◌, IfOk, IfErr, Option};
ghost use Rattle.layout_reading.specs.Reading.{read_span};
ghost use Rattle.number_bytes.specs.Held.{read_scaled};
ghost use Rattle.place_table.specs.Tables.{layout_of, IsStorageOf, Gave, Failed};
ghost use Rattle.place_table.specs.Views.{HasGrown};
ghost use Rattle.program_meaning.specs.Answer.{Gives};
ghost use Rattle.program_meaning.specs.Arithmetic as meant;
ghost use Rattle.program_meaning.specs.Storage.{read};
ghost use Rattle.program_meaning.specs.Tree as tree;
ghost use Rattle.storage_places.specs.Held.{held, first, lengths, IsWithin};
ghost use Rattle.storage_places.specs.Meets.{Meets};
ghost use Rattle.storage_places.specs.Reached.{kind_with};
ghost use Rattle.storage_sums.specs.Chains.{operated};
ghost use Rattle.storage_sums.specs.Stores.{exact_in, NumberFits};
ghost use Rattle.tree_reading.specs.Reading.{read_operand, read_place, read_expr};
ghost use Rattle.y2k_base.specs.declared.picture.Picture.{Picture};

use crate::chain::{Chain, Term, chain_of};
use crate::faults::number_or_fault;
use cobol_syntax::{Expr, Operand, Place};
use decimal_bytes::Scaled;
use exact_arithmetic::{add, divide, multiply, negate, subtract};
use number_bytes::read_number;
use operand_kinds::Kind;
use place_table::Places;
use std::alloc::Global;
use storage_places::{RunFault, Storage};
use y2k_base::Span;

/// The number that an operand is. It takes no memory but for a place that is met for the first time.
pub fn operand_value(
    places: &mut Places<'_>,
    storage: &Storage,
    operand: &Operand,
) -> Result<Scaled, RunFault>
    requires storage { IsStorageOf (layout_of places.old) storage.now }
    ensures ok { IfOk result (λ x. Gave (layout_of places.old) (λ l. meant.operand_value l (held storage.now) (read_operand operand.now)) (read_scaled x)) }
    ensures err { IfErr result (Failed (layout_of places.old) (λ l. meant.operand_value l (held storage.now) (read_operand operand.now))) }
    ensures grown { HasGrown places.old places.new }
{
    match operand {
        Operand::Place(place) => {
            let number = place_value(places, storage, place)?;
            Ok(number)
        }
        Operand::Number {
            value,
            digits: _,
            at: _,
        } => Ok(*value),
        Operand::Text { bytes: _, at: _ } => Err(RunFault::Data),
        Operand::Figure { byte: _, at: _ } => Ok(Scaled {
            number: 0,
            scale: 0,
        }),
    }
}

/// The number that a place holds.
fn place_value(
    places: &mut Places<'_>,
    storage: &Storage,
    place: &Place,
) -> Result<Scaled, RunFault>
    requires storage { IsStorageOf (layout_of places.old) storage.now }
    ensures ok { IfOk result (λ x. Gave (layout_of places.old) (λ l. meant.operand_value l (held storage.now) (tree.At (read_place place.now))) (read_scaled x)) }
    ensures err { IfErr result (Failed (layout_of places.old) (λ l. meant.operand_value l (held storage.now) (tree.At (read_place place.now)))) }
    ensures grown { HasGrown places.old places.new }
{
    let view = places.view(storage, place)?;
    let number = number_at(storage, view.kind, view.span)?;
    Ok(number)
}

/// The number that the bytes of a span hold, which are taken as a kind.
fn number_at(storage: &Storage, kind: Kind, span: Span) -> Result<Scaled, RunFault>
    requires within { IsWithin (first storage.now) (lengths (held storage.now)) span }
    requires fits { NumberFits kind span.length }
    ensures ok { IfOk result (λ x. (picture : Option Picture) →
        exact_in (kind_with kind picture) (read (held storage.now) (read_span (first storage.now) span)) ≡ Gives (read_scaled x)) }
    ensures err { IfErr result (λ fault. (picture : Option Picture) →
        Meets (exact_in (kind_with kind picture) (read (held storage.now) (read_span (first storage.now) span))) fault) }
{
    match kind {
        Kind::Group => Err(RunFault::Data),
        Kind::Text => Err(RunFault::Data),
        Kind::Edited { form: _ } => Err(RunFault::Data),
        Kind::Number { usage, form } => match storage.bytes(span) {
            Some(bytes) => match read_number(bytes, usage, form) {
                Ok(number) => Ok(number),
                Err(_) => Err(RunFault::Data),
            },
            None => Err(RunFault::Data),
        },
    }
}

/// The value of an expression, its operands read from the left.
#[cycle(value)]
pub fn value(
    alloc: Global,
    places: &mut Places<'_>,
    storage: &Storage,
    expr: &Expr,
) -> Result<Scaled, RunFault>
    requires storage { IsStorageOf (layout_of places.old) storage.now }
    ensures ok { IfOk result (λ x. Gave (layout_of places.old) (λ l. meant.value l (held storage.now) (read_expr expr.now)) (read_scaled x)) }
    ensures err { IfErr result (Failed (layout_of places.old) (λ l. meant.value l (held storage.now) (read_expr expr.now))) }
    ensures grown { HasGrown places.old places.new }
{
    match chain_of(alloc, expr) {
        Ok(chain) => {
            let Chain { mut terms, first } = chain;
            let mut number = operand_value(places, storage, first)?;
            while let Some(term) = terms.pop() {
                number = operated(alloc, places, storage, term, number)?;
            }
            Ok(number)
        }
        Err(_) => Err(RunFault::Memory),
    }
}

/// What an operation makes of its first operand.
#[cycle(value)]
fn operated(
    alloc: Global,
    places: &mut Places<'_>,
    storage: &Storage,
    term: Term<'_>,
    first: Scaled,
) -> Result<Scaled, RunFault>
    requires storage { IsStorageOf (layout_of places.old) storage.now }
    ensures ok { IfOk result (λ x. Gave (layout_of places.old) (λ l. operated l (held storage.now) term.entry (Gives (read_scaled first))) (read_scaled x)) }
    ensures err { IfErr result (Failed (layout_of places.old) (λ l. operated l (held storage.now) term.entry (Gives (read_scaled first)))) }
    ensures grown { HasGrown places.old places.new }
{
    match term {
        Term::Minus => {
            let number = number_or_fault(negate(first))?;
            Ok(number)
        }
        Term::Add(right) => {
            let second = value(alloc, places, storage, right)?;
            let number = number_or_fault(add(first, second))?;
            Ok(number)
        }
        Term::Sub(right) => {
            let second = value(alloc, places, storage, right)?;
            let number = number_or_fault(subtract(first, second))?;
            Ok(number)
        }
        Term::Mul(right) => {
            let second = value(alloc, places, storage, right)?;
            let number = number_or_fault(multiply(first, second))?;
            Ok(number)
        }
        Term::Div(right) => {
            let second = value(alloc, places, storage, right)?;
            let number = number_or_fault(divide(first, second))?;
            Ok(number)
        }
    }
}

ghost use Rattle.std.specs.Prelude.{◌≡◌, IfOk, IfErr};
ghost use Rattle.place_table.specs.Tables.{layout_of};
ghost use Rattle.place_table.specs.Views.{HasGrown};
ghost use Rattle.program_meaning.specs.Compare as meant;
ghost use Rattle.storage_places.specs.declared.fault.RunFault.TheVariants.{Memory};
ghost use Rattle.tree_reading.specs.Reading.{read_operand, read_expr};
ghost use Rattle.storage_tests.specs.Sides as spec;
ghost use Rattle.storage_tests.specs.Sides.{read_side, IsSide};

use cobol_syntax::{Expr, Operand};
use operand_kinds::Kind;
use place_table::Places;
use storage_places::RunFault;

/// What a side of a relation is: a number, bytes, or a figurative constant, by the byte that it repeats.
#[derive(Clone, Copy)]
pub(crate) enum Side {
    Number,
    Bytes,
    Figure(u8),
}

/// What a place of a kind is in a relation.
pub(crate) fn kind_side(kind: Kind) -> Side
    ensures { result ≡ spec.kind_side kind }
{
    match kind {
        Kind::Group => Side::Bytes,
        Kind::Text => Side::Bytes,
        Kind::Edited { form: _ } => Side::Bytes,
        Kind::Number { usage: _, form: _ } => Side::Number,
    }
}

/// Whether two sides are compared as numbers. ZERO is a number where the other side is one.
pub(crate) fn both_numbers(left: Side, right: Side) -> bool
    ensures { result ≡ meant.both_numbers (read_side left) (read_side right) }
{
    match left {
        Side::Number => is_number_there(right),
        Side::Bytes => false,
        Side::Figure(byte) => is_zero_beside(byte, right),
    }
}

/// Whether a side is a number where the other side is one.
fn is_number_there(side: Side) -> bool
    ensures { result ≡ meant.both_numbers meant.IsNumber (read_side side) }
{
    match side {
        Side::Number => true,
        Side::Bytes => false,
        Side::Figure(byte) => byte == b'0',
    }
}

/// Whether a figurative constant and another side are numbers.
fn is_zero_beside(byte: u8, other: Side) -> bool
    ensures { result ≡ meant.both_numbers (meant.IsFigure byte) (read_side other) }
{
    match other {
        Side::Number => byte == b'0',
        Side::Bytes => false,
        Side::Figure(_) => false,
    }
}

/// What an operand is in a relation. Nothing of the storage is read.
pub(crate) fn operand_side(places: &mut Places<'_>, operand: &Operand) -> Result<Side, RunFault>
    ensures side { IfOk result (IsSide (layout_of places.old) (λ l store. meant.operand_side l store (read_operand operand.now))) }
    ensures memory { IfErr result (λ fault. fault ≡ Memory) }
    ensures grown { HasGrown places.old places.new }
{
    match operand {
        Operand::Place(place) => {
            let kind = places.kind(place)?;
            Ok(kind_side(kind))
        }
        Operand::Number {
            value: _,
            digits: _,
            at: _,
        } => Ok(Side::Number),
        Operand::Text { bytes: _, at: _ } => Ok(Side::Bytes),
        Operand::Figure { byte, at: _ } => Ok(Side::Figure(*byte)),
    }
}

/// What an expression is in a relation: with an operator or a sign it is a number.
pub(crate) fn expr_side(places: &mut Places<'_>, expr: &Expr) -> Result<Side, RunFault>
    ensures side { IfOk result (IsSide (layout_of places.old) (λ l store. meant.side l store (read_expr expr.now))) }
    ensures memory { IfErr result (λ fault. fault ≡ Memory) }
    ensures grown { HasGrown places.old places.new }
{
    match expr {
        Expr::One(operand) => {
            let side = operand_side(places, operand)?;
            Ok(side)
        }
        Expr::Minus(_) => Ok(Side::Number),
        Expr::Add(_, _) => Ok(Side::Number),
        Expr::Sub(_, _) => Ok(Side::Number),
        Expr::Mul(_, _) => Ok(Side::Number),
        Expr::Div(_, _) => Ok(Side::Number),
    }
}

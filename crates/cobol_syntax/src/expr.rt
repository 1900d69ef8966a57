ghost use Rattle.std.specs.Prelude.{◌≡◌, ◌≢◌, IfOk, IfErr, OnErr};
ghost use Rattle.cobol_syntax.specs.declared.place.Place.{Place};
ghost use Rattle.cobol_syntax.specs.declared.expr.Operand.{Operand};
ghost use Rattle.cobol_syntax.specs.declared.expr.Operand.TheVariants as operand;
ghost use Rattle.cobol_syntax.specs.declared.expr.Expr.TheVariants as expr;
ghost use Rattle.cobol_syntax.specs.Chains.{operation, operated};

use crate::place::Place;
use decimal_bytes::Scaled;
use sqlite_items::Boxed;
use std::alloc::Global;
use y2k_base::{Bytes, List, Memory, Twin};

/// What a statement takes a value from: an item, a numeric literal, a nonnumeric literal, or a figurative
/// constant, by the byte that it repeats.
pub enum Operand {
    Place(Place),
    /// `digits` counts the digits of the literal as written, leading zeros included.
    Number { value: Scaled, digits: u8, at: u32 },
    Text { bytes: Bytes, at: u32 },
    Figure { byte: u8, at: u32 },
}

/// An arithmetic expression.
pub enum Expr {
    One(Operand),
    Minus(Boxed<Expr>),
    Add(Boxed<Expr>, Boxed<Expr>),
    Sub(Boxed<Expr>, Boxed<Expr>),
    Mul(Boxed<Expr>, Boxed<Expr>),
    Div(Boxed<Expr>, Boxed<Expr>),
}

impl Operand {
    /// The identifier that the operand is.
    pub fn into_place(self) -> Result<Place, Operand>
        ensures place { IfOk result (λ place. self ≡ operand.Place place) }
        ensures same { IfErr result (λ same. same ≡ self) }
        ensures other { OnErr result ((place : Place) → self ≢ operand.Place place) }
    {
        match self {
            Operand::Place(place) => Ok(place),
            same => Err(same),
        }
    }
}

impl Expr {
    /// The operand that the expression is.
    pub fn into_operand(self) -> Result<Operand, Expr>
        ensures operand { IfOk result (λ one. self ≡ expr.One one) }
        ensures same { IfErr result (λ same. same ≡ self) }
        ensures other { OnErr result ((one : Operand) → self ≢ expr.One one) }
    {
        match self {
            Expr::One(operand) => Ok(operand),
            same => Err(same),
        }
    }
}

impl Drop for Operand {
    fn drop(self) {
        match self {
            Operand::Place(_place) => {}
            Operand::Number {
                value: _,
                digits: _,
                at: _,
            } => {}
            Operand::Text {
                bytes: _bytes,
                at: _,
            } => {}
            Operand::Figure { byte: _, at: _ } => {}
        }
    }
}

impl Drop for Expr {
    /// Goes down the first operands by a loop, since a sum can have as many terms as a program has words.
    fn drop(mut self) {
        loop {
            match self {
                Expr::One(_operand) => return,
                Expr::Minus(inner) => self = inner.into_inner(),
                Expr::Add(left, right) => {
                    drop(right.into_inner());
                    self = left.into_inner();
                }
                Expr::Sub(left, right) => {
                    drop(right.into_inner());
                    self = left.into_inner();
                }
                Expr::Mul(left, right) => {
                    drop(right.into_inner());
                    self = left.into_inner();
                }
                Expr::Div(left, right) => {
                    drop(right.into_inner());
                    self = left.into_inner();
                }
            }
        }
    }
}

impl Twin for Operand {
    fn twin(&self, alloc: Global) -> Result<Operand, Memory> {
        match self {
            Operand::Place(place) => Ok(Operand::Place(place.twin(alloc)?)),
            Operand::Number { value, digits, at } => Ok(Operand::Number {
                value: *value,
                digits: *digits,
                at: *at,
            }),
            Operand::Text { bytes, at } => Ok(Operand::Text {
                bytes: bytes.twin(alloc)?,
                at: *at,
            }),
            Operand::Figure { byte, at } => Ok(Operand::Figure {
                byte: *byte,
                at: *at,
            }),
        }
    }
}

/// An operator with its second operand.
enum Term {
    Add(Expr),
    Sub(Expr),
    Mul(Expr),
    Div(Expr),
}

impl Drop for Term {
    fn drop(self) {
        match self {
            Term::Add(_right) => {}
            Term::Sub(_right) => {}
            Term::Mul(_right) => {}
            Term::Div(_right) => {}
        }
    }
}

impl Term {
    /// The operation on a first operand.
    fn over(self, alloc: Global, first: Expr) -> Result<Expr, Memory>
        ensures { IfOk result (λ e. e ≡ operation self first) }
    {
        let first = Boxed::new(alloc, first)?;
        match self {
            Term::Add(right) => Ok(Expr::Add(first, Boxed::new(alloc, right)?)),
            Term::Sub(right) => Ok(Expr::Sub(first, Boxed::new(alloc, right)?)),
            Term::Mul(right) => Ok(Expr::Mul(first, Boxed::new(alloc, right)?)),
            Term::Div(right) => Ok(Expr::Div(first, Boxed::new(alloc, right)?)),
        }
    }
}

/// The expression of a first operand and what stands behind it, the last term first.
#[tactic(auto, using(crate::proofs::Chains::operated_last))]
fn operated(alloc: Global, terms: List<Term>, mut first: Expr) -> Result<Expr, Memory>
    ensures { IfOk result (λ e. e ≡ operated terms first) }
{
    let mut terms = terms.into_vec();
    while let Some(term) = terms.pop() {
        first = term.over(alloc, first)?;
    }
    Ok(first)
}

impl Twin for Expr {
    /// Goes down the first operands by a loop, too.
    #[cycle(expr_twin)]
    #[tactic(auto, using(crate::proofs::Chains::operated_last))]
    fn twin(&self, alloc: Global) -> Result<Expr, Memory> {
        let mut terms = List::new(alloc);
        let mut first = self;
        loop {
            match first {
                Expr::One(operand) => {
                    return operated(alloc, terms, Expr::One(operand.twin(alloc)?));
                }
                Expr::Minus(inner) => {
                    return operated(alloc, terms, Expr::Minus(twin_part(inner, alloc)?));
                }
                Expr::Add(left, right) => {
                    terms.push(Term::Add(right.get().twin(alloc)?))?;
                    first = left.get();
                }
                Expr::Sub(left, right) => {
                    terms.push(Term::Sub(right.get().twin(alloc)?))?;
                    first = left.get();
                }
                Expr::Mul(left, right) => {
                    terms.push(Term::Mul(right.get().twin(alloc)?))?;
                    first = left.get();
                }
                Expr::Div(left, right) => {
                    terms.push(Term::Div(right.get().twin(alloc)?))?;
                    first = left.get();
                }
            }
        }
    }
}

/// A part of an expression again.
#[cycle(expr_twin)]
fn twin_part(part: &Boxed<Expr>, alloc: Global) -> Result<Boxed<Expr>, Memory>
    ensures { IfOk result (λ copy. copy ≡ part.now) }
{
    Ok(Boxed::new(alloc, part.get().twin(alloc)?)?)
}

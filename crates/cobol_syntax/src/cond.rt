ghost use Rattle.std.specs.Prelude.{◌≡◌, ◌≢◌, IfOk, IfErr, OnErr};
ghost use Rattle.cobol_syntax.specs.declared.place.Place.{Place};
ghost use Rattle.cobol_syntax.specs.declared.expr.Expr.{Expr};
ghost use Rattle.cobol_syntax.specs.declared.cond.Rel.{Rel};
ghost use Rattle.cobol_syntax.specs.declared.cond.Condition.{Condition, out-Condition};
ghost use Rattle.cobol_syntax.specs.declared.cond.CondForm.TheVariants as condition;
ghost use Rattle.cobol_syntax.specs.Chains.{junction, joined};

use crate::expr::Expr;
use crate::place::Place;
use sqlite_items::Boxed;
use std::alloc::Global;
use y2k_base::{List, Memory, Twin};

/// A condition. `at` is the position of its first word in the program's words, and `end` is one past its
/// last.
#[cycle(condition)]
pub struct Condition {
    pub at: u32,
    pub end: u32,
    pub form: CondForm,
}

/// What a condition asks: a relation, a class, a sign (as -1, 0 or 1), a condition-name, or conditions put
/// together. What the operators of relations leave out is a `Not` over one of these three.
#[cycle(condition)]
pub enum CondForm {
    Relation { left: Expr, rel: Rel, right: Expr },
    Class { of: Place, numeric: bool },
    Sign { of: Expr, sign: i8 },
    Named(Place),
    Not(Boxed<Condition>),
    And(Boxed<Condition>, Boxed<Condition>),
    Or(Boxed<Condition>, Boxed<Condition>),
}

/// How the left side of a relation stands to its right side.
#[derive(Clone, Copy, Debug, PartialEq, Eq)]
pub enum Rel {
    Equal,
    Less,
    Greater,
}

impl Condition {
    /// What the condition asks.
    pub fn into_form(self) -> CondForm
        ensures { result ≡ (out-Condition self).form }
    {
        let Condition {
            at: _,
            end: _,
            form,
        } = self;
        form
    }
}

impl CondForm {
    /// The sides of a relation, and how it has the left one stand to the right one.
    pub fn into_relation(self) -> Result<(Expr, Rel, Expr), CondForm>
        ensures parts { IfOk result (λ parts. self ≡ condition.Relation (parts.0) (parts.1) (parts.2)) }
        ensures same { IfErr result (λ same. same ≡ self) }
        ensures other { OnErr result ((left : Expr) (rel : Rel) (right : Expr) → self ≢ condition.Relation left rel right) }
    {
        match self {
            CondForm::Relation { left, rel, right } => Ok((left, rel, right)),
            same => Err(same),
        }
    }

    /// The condition-name that is asked.
    pub fn into_named(self) -> Result<Place, CondForm>
        ensures place { IfOk result (λ place. self ≡ condition.Named place) }
        ensures same { IfErr result (λ same. same ≡ self) }
        ensures other { OnErr result ((place : Place) → self ≢ condition.Named place) }
    {
        match self {
            CondForm::Named(place) => Ok(place),
            same => Err(same),
        }
    }

    /// The condition under a NOT.
    pub fn into_not(self) -> Result<Condition, CondForm>
        ensures inner { IfOk result (λ inner. self ≡ condition.Not inner) }
        ensures same { IfErr result (λ same. same ≡ self) }
        ensures other { OnErr result ((inner : Condition) → self ≢ condition.Not inner) }
    {
        match self {
            CondForm::Not(inner) => Ok(inner.into_inner()),
            same => Err(same),
        }
    }

    /// The two conditions under an AND.
    pub fn into_and(self) -> Result<(Condition, Condition), CondForm>
        ensures parts { IfOk result (λ parts. self ≡ condition.And (parts.0) (parts.1)) }
        ensures same { IfErr result (λ same. same ≡ self) }
        ensures other { OnErr result ((left right : Condition) → self ≢ condition.And left right) }
    {
        match self {
            CondForm::And(left, right) => Ok((left.into_inner(), right.into_inner())),
            same => Err(same),
        }
    }

    /// The two conditions under an OR.
    pub fn into_or(self) -> Result<(Condition, Condition), CondForm>
        ensures parts { IfOk result (λ parts. self ≡ condition.Or (parts.0) (parts.1)) }
        ensures same { IfErr result (λ same. same ≡ self) }
        ensures other { OnErr result ((left right : Condition) → self ≢ condition.Or left right) }
    {
        match self {
            CondForm::Or(left, right) => Ok((left.into_inner(), right.into_inner())),
            same => Err(same),
        }
    }
}

impl Drop for Condition {
    #[cycle(condition_drop)]
    fn drop(self) {
        let Condition {
            at: _,
            end: _,
            form: _form,
        } = self;
    }
}

impl Drop for CondForm {
    /// Goes down the first operands by a loop, since a condition can have as many terms as a program has words.
    #[cycle(condition_drop)]
    fn drop(mut self) {
        loop {
            match self {
                CondForm::Relation {
                    left: _left,
                    rel: _,
                    right: _right,
                } => return,
                CondForm::Class {
                    of: _of,
                    numeric: _,
                } => return,
                CondForm::Sign { of: _of, sign: _ } => return,
                CondForm::Named(_place) => return,
                CondForm::Not(inner) => self = inner.into_inner().into_form(),
                CondForm::And(left, right) => {
                    drop(right.into_inner());
                    self = left.into_inner().into_form();
                }
                CondForm::Or(left, right) => {
                    drop(right.into_inner());
                    self = left.into_inner().into_form();
                }
            }
        }
    }
}

/// AND or OR with its second condition. `at` and `end` are those of the whole.
enum Joint {
    And { at: u32, end: u32, right: Condition },
    Or { at: u32, end: u32, right: Condition },
}

impl Drop for Joint {
    fn drop(self) {
        match self {
            Joint::And {
                at: _,
                end: _,
                right: _right,
            } => {}
            Joint::Or {
                at: _,
                end: _,
                right: _right,
            } => {}
        }
    }
}

impl Joint {
    /// The whole, with a first condition.
    fn over(self, alloc: Global, first: Condition) -> Result<Condition, Memory>
        ensures { IfOk result (λ c. c ≡ junction self first) }
    {
        let first = Boxed::new(alloc, first)?;
        match self {
            Joint::And { at, end, right } => {
                let form = CondForm::And(first, Boxed::new(alloc, right)?);
                Ok(Condition { at, end, form })
            }
            Joint::Or { at, end, right } => {
                let form = CondForm::Or(first, Boxed::new(alloc, right)?);
                Ok(Condition { at, end, form })
            }
        }
    }
}

/// The condition of a first one and what stands behind it, the last joint first.
#[tactic(auto, using(crate::proofs::Chains::joined_last))]
fn joined(alloc: Global, joints: List<Joint>, mut first: Condition) -> Result<Condition, Memory>
    ensures { IfOk result (λ c. c ≡ joined joints first) }
{
    let mut joints = joints.into_vec();
    while let Some(joint) = joints.pop() {
        first = joint.over(alloc, first)?;
    }
    Ok(first)
}

impl Twin for Condition {
    /// Goes down the first conditions by a loop, too.
    #[cycle(condition_twin)]
    #[tactic(auto, using(crate::proofs::Chains::joined_last))]
    fn twin(&self, alloc: Global) -> Result<Condition, Memory> {
        let mut joints = List::new(alloc);
        let mut first = self;
        loop {
            match &first.form {
                CondForm::And(left, right) => {
                    joints.push(Joint::And {
                        at: first.at,
                        end: first.end,
                        right: right.get().twin(alloc)?,
                    })?;
                    first = left.get();
                }
                CondForm::Or(left, right) => {
                    joints.push(Joint::Or {
                        at: first.at,
                        end: first.end,
                        right: right.get().twin(alloc)?,
                    })?;
                    first = left.get();
                }
                form => {
                    let inner = Condition {
                        at: first.at,
                        end: first.end,
                        form: form.twin(alloc)?,
                    };
                    return joined(alloc, joints, inner);
                }
            }
        }
    }
}

impl Twin for CondForm {
    #[cycle(condition_twin)]
    fn twin(&self, alloc: Global) -> Result<CondForm, Memory> {
        match self {
            CondForm::Relation { left, rel, right } => Ok(CondForm::Relation {
                left: left.twin(alloc)?,
                rel: *rel,
                right: right.twin(alloc)?,
            }),
            CondForm::Class { of, numeric } => Ok(CondForm::Class {
                of: of.twin(alloc)?,
                numeric: *numeric,
            }),
            CondForm::Sign { of, sign } => Ok(CondForm::Sign {
                of: of.twin(alloc)?,
                sign: *sign,
            }),
            CondForm::Named(place) => Ok(CondForm::Named(place.twin(alloc)?)),
            CondForm::Not(inner) => Ok(CondForm::Not(twin_part(inner, alloc)?)),
            CondForm::And(left, right) => Ok(CondForm::And(
                twin_part(left, alloc)?,
                twin_part(right, alloc)?,
            )),
            CondForm::Or(left, right) => Ok(CondForm::Or(
                twin_part(left, alloc)?,
                twin_part(right, alloc)?,
            )),
        }
    }
}

/// A part of a condition again.
#[cycle(condition_twin)]
fn twin_part(part: &Boxed<Condition>, alloc: Global) -> Result<Boxed<Condition>, Memory>
    ensures { IfOk result (λ copy. copy ≡ part.now) }
{
    Ok(Boxed::new(alloc, part.get().twin(alloc)?)?)
}

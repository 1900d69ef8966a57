ghost use Rattle.y2k_base.specs.Edits.{AreInOrder};
ghost use Rattle.std.specs.Prelude.{◌≡◌, ◌++◌, codes, slice_get, OnOk, Some, None, MatchOption};
ghost use Rattle.statement_rules.specs.Trees.{tree_of};
ghost use Rattle.statement_words.specs.NewWords.{text_words};
ghost use Rattle.window_rewrite.specs.Old.{old_of};
ghost use Rattle.window_rewrite.specs.Expressions as spec;

use crate::site::Site;
use cobol_syntax::{Expr, Operand, Place};
use statement_words::{add_edited, add_text};
use std::alloc::Global;
use y2k_base::{List, Memory, Origin, Twin, Word};

fn word_at(words: &[Word], position: u32) -> Option<&Word>
    ensures { MatchOption result (slice_get words.now position ≡ None) (λ word. slice_get words.now position ≡ Some word.now) }
{
    match words.get(position as usize) {
        None => None,
        Some(word) => Some(word),
    }
}

/// Adds the word at a position as it stands, if there is one.
fn add_old(
    alloc: Global,
    into: &mut List<Word>,
    words: &[Word],
    position: u32,
) -> Result<(), Memory>
    ensures { OnOk result (into.new ≡ into.old ++ spec.old_word words.now position) }
{
    match word_at(words, position) {
        None => Ok(()),
        Some(word) => {
            into.push(word.twin(alloc)?)?;
            Ok(())
        }
    }
}

/// Adds the words of a place, with its edits.
pub(crate) fn add_place(
    alloc: Global,
    into: &mut List<Word>,
    site: Site,
    place: &Place,
) -> Result<(), Memory>
    requires { AreInOrder site.source.edits.now }
    ensures { OnOk result (into.new ≡ into.old ++ spec.place_words (old_of site.entry) place.now) }
{
    add_edited(alloc, into, site.source, place.at, place.end)?;
    Ok(())
}

/// Adds the words of an operand: a literal is as it stands.
pub(crate) fn add_operand(
    alloc: Global,
    into: &mut List<Word>,
    site: Site,
    operand: &Operand,
) -> Result<(), Memory>
    requires { AreInOrder site.source.edits.now }
    ensures { OnOk result (into.new ≡ into.old ++ spec.operand_words (old_of site.entry) operand.now) }
{
    match operand {
        Operand::Place(place) => {
            add_place(alloc, into, site, place)?;
            Ok(())
        }
        Operand::Number {
            value: _,
            digits: _,
            at,
        } => {
            add_old(alloc, into, site.source.words, *at)?;
            Ok(())
        }
        Operand::Text { bytes: _, at } => {
            add_old(alloc, into, site.source.words, *at)?;
            Ok(())
        }
        Operand::Figure { byte: _, at } => {
            add_old(alloc, into, site.source.words, *at)?;
            Ok(())
        }
    }
}

/// Adds an opening parenthesis and the first operand of an operation.
#[cycle(add_expr)]
fn add_first(
    alloc: Global,
    into: &mut List<Word>,
    site: Site,
    at: Origin,
    first: &Expr,
) -> Result<(), Memory>
    requires { AreInOrder site.source.edits.now }
    ensures { OnOk result (into.new ≡ into.old ++ (text_words at (codes "(") ++ spec.tree_words (old_of site.entry) at (tree_of first.now))) }
{
    add_text(alloc, into, "(", at)?;
    add_expr(alloc, into, site, at, first)?;
    Ok(())
}

/// Adds the operator and the second operand of an operation, and a closing parenthesis.
#[cycle(add_expr)]
fn add_second(
    alloc: Global,
    into: &mut List<Word>,
    site: Site,
    at: Origin,
    operator: &str,
    second: &Expr,
) -> Result<(), Memory>
    requires { AreInOrder site.source.edits.now }
    ensures { OnOk result (into.new ≡ into.old ++ (text_words at operator.now ++ (spec.tree_words (old_of site.entry) at (tree_of second.now) ++ text_words at (codes ")")))) }
{
    add_text(alloc, into, operator, at)?;
    add_expr(alloc, into, site, at, second)?;
    add_text(alloc, into, ")", at)?;
    Ok(())
}

#[cycle(add_expr)]
fn add_minus(
    alloc: Global,
    into: &mut List<Word>,
    site: Site,
    at: Origin,
    inner: &Expr,
) -> Result<(), Memory>
    requires { AreInOrder site.source.edits.now }
    ensures { OnOk result (into.new ≡ into.old ++ spec.minus_words at (spec.tree_words (old_of site.entry) at (tree_of inner.now))) }
{
    add_text(alloc, into, "( -", at)?;
    add_expr(alloc, into, site, at, inner)?;
    add_text(alloc, into, ")", at)?;
    Ok(())
}

/// Adds the words of an expression, each operation of it in parentheses.
#[cycle(add_expr)]
pub(crate) fn add_expr(
    alloc: Global,
    into: &mut List<Word>,
    site: Site,
    at: Origin,
    expr: &Expr,
) -> Result<(), Memory>
    requires { AreInOrder site.source.edits.now }
    ensures { OnOk result (into.new ≡ into.old ++ spec.tree_words (old_of site.entry) at (tree_of expr.now)) }
{
    match expr {
        Expr::One(operand) => {
            add_operand(alloc, into, site, operand)?;
            Ok(())
        }
        Expr::Minus(inner) => {
            add_minus(alloc, into, site, at, inner.get())?;
            Ok(())
        }
        Expr::Add(left, right) => {
            add_first(alloc, into, site, at, left.get())?;
            add_second(alloc, into, site, at, "+", right.get())?;
            Ok(())
        }
        Expr::Sub(left, right) => {
            add_first(alloc, into, site, at, left.get())?;
            add_second(alloc, into, site, at, "-", right.get())?;
            Ok(())
        }
        Expr::Mul(left, right) => {
            add_first(alloc, into, site, at, left.get())?;
            add_second(alloc, into, site, at, "*", right.get())?;
            Ok(())
        }
        Expr::Div(left, right) => {
            add_first(alloc, into, site, at, left.get())?;
            add_second(alloc, into, site, at, "/", right.get())?;
            Ok(())
        }
    }
}

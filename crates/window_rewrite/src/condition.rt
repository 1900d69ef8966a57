ghost use Rattle.y2k_base.specs.Edits.{AreInOrder};
ghost use Rattle.std.specs.Prelude.{◌≡◌, ◌++◌, ◌<◌, ◌||◌, codes, true, false, IfOk, OnOk, IfSome, Some, None, MatchOption};
ghost use Rattle.cobol_syntax.specs.declared.cond.Condition.{size-Condition};
ghost use Rattle.data_layout.specs.Index.{IsReady};
ghost use Rattle.statement_rules.specs.Trees.{tree_of};
ghost use Rattle.statement_words.specs.NewWords.{text_words};
ghost use Rattle.window_rewrite.specs.Old.{old_of};
ghost use Rattle.window_rewrite.specs.Asked.{asked};
ghost use Rattle.window_rewrite.specs.Expressions.{place_words, tree_words};
ghost use Rattle.window_rewrite.specs.Conditions as spec;

use crate::expression::{add_expr, add_place};
use crate::order::is_windowed;
use crate::relation::add_relation;
use crate::site::Site;
use cobol_syntax::{CondForm, Condition, Expr, Place};
use statement_rules::origin_at;
use statement_words::{add_stretch, add_text};
use std::alloc::Global;
use y2k_base::{Edit, List, Memory, Origin, Word, WordKind};

/// Whether some relation of a condition is one of order of years that keep their two digits.
fn has_window(alloc: Global, site: Site, condition: &Condition) -> Result<bool, Memory>
    requires { IsReady site.layout.now }
    ensures { IfOk result (λ has. has ≡ spec.has_window (old_of site.entry) (asked condition.now)) }
{
    match &condition.form {
        CondForm::Relation { left, rel, right } => {
            let is = is_windowed(alloc, site, left, *rel, right)?;
            Ok(is)
        }
        CondForm::Class { of: _, numeric: _ } => Ok(false),
        CondForm::Sign { of: _, sign: _ } => Ok(false),
        CondForm::Named(_) => Ok(false),
        CondForm::Not(inner) => {
            let has = has_window(alloc, site, inner.get())?;
            Ok(has)
        }
        CondForm::And(left, right) => {
            let first = has_window(alloc, site, left.get())?;
            let second = has_window(alloc, site, right.get())?;
            Ok(first || second)
        }
        CondForm::Or(left, right) => {
            let first = has_window(alloc, site, left.get())?;
            let second = has_window(alloc, site, right.get())?;
            Ok(first || second)
        }
    }
}

fn class_form(numeric: bool) -> &'static str
    ensures { result.now ≡ spec.class_form numeric }
{
    if numeric { "NUMERIC" } else { "ALPHABETIC" }
}

fn add_class(
    alloc: Global,
    into: &mut List<Word>,
    site: Site,
    at: Origin,
    place: &Place,
    numeric: bool,
) -> Result<(), Memory>
    requires { AreInOrder site.source.edits.now }
    ensures { OnOk result (into.new ≡ into.old ++ (place_words (old_of site.entry) place.now ++ text_words at (spec.class_form numeric))) }
{
    add_place(alloc, into, site, place)?;
    add_text(alloc, into, class_form(numeric), at)?;
    Ok(())
}

fn add_sign_word(alloc: Global, into: &mut List<Word>, at: Origin, sign: i8) -> Result<(), Memory>
    ensures { OnOk result (into.new ≡ into.old ++ text_words at (spec.sign_form sign)) }
{
    if sign < 0 {
        add_text(alloc, into, "NEGATIVE", at)?;
        Ok(())
    } else if sign > 0 {
        add_text(alloc, into, "POSITIVE", at)?;
        Ok(())
    } else {
        add_text(alloc, into, "ZERO", at)?;
        Ok(())
    }
}

fn add_sign(
    alloc: Global,
    into: &mut List<Word>,
    site: Site,
    at: Origin,
    expr: &Expr,
    sign: i8,
) -> Result<(), Memory>
    requires { AreInOrder site.source.edits.now }
    ensures { OnOk result (into.new ≡ into.old ++ (tree_words (old_of site.entry) at (tree_of expr.now) ++ text_words at (spec.sign_form sign))) }
{
    add_expr(alloc, into, site, at, expr)?;
    add_sign_word(alloc, into, at, sign)?;
    Ok(())
}

/// Adds NOT and what it negates, in parentheses where it stands under a NOT.
#[cycle(add_condition)]
fn add_not(
    alloc: Global,
    into: &mut List<Word>,
    site: Site,
    at: Origin,
    under_not: bool,
    inner: &Condition,
) -> Result<(), Memory>
    requires ready { IsReady site.layout.now }
    requires ordered { AreInOrder site.source.edits.now }
    ensures { OnOk result (into.new ≡ into.old ++ spec.not_words at under_not (spec.condition_words (old_of site.entry) at true (asked inner.now))) }
{
    if under_not {
        add_text(alloc, into, "( NOT", at)?;
        add_condition(alloc, into, site, at, true, inner)?;
        add_text(alloc, into, ")", at)?;
        Ok(())
    } else {
        add_text(alloc, into, "NOT", at)?;
        add_condition(alloc, into, site, at, true, inner)?;
        Ok(())
    }
}

/// Adds an opening parenthesis and the first of two conditions.
#[cycle(add_condition)]
fn add_first(
    alloc: Global,
    into: &mut List<Word>,
    site: Site,
    at: Origin,
    first: &Condition,
) -> Result<(), Memory>
    requires ready { IsReady site.layout.now }
    requires ordered { AreInOrder site.source.edits.now }
    ensures { OnOk result (into.new ≡ into.old ++ (text_words at (codes "(") ++ spec.condition_words (old_of site.entry) at false (asked first.now))) }
{
    add_text(alloc, into, "(", at)?;
    add_condition(alloc, into, site, at, false, first)?;
    Ok(())
}

/// Adds AND or OR, the second of two conditions, and a closing parenthesis.
#[cycle(add_condition)]
fn add_second(
    alloc: Global,
    into: &mut List<Word>,
    site: Site,
    at: Origin,
    operator: &str,
    second: &Condition,
) -> Result<(), Memory>
    requires ready { IsReady site.layout.now }
    requires ordered { AreInOrder site.source.edits.now }
    ensures { OnOk result (into.new ≡ into.old ++ (text_words at operator.now ++ (spec.condition_words (old_of site.entry) at false (asked second.now) ++ text_words at (codes ")")))) }
{
    add_text(alloc, into, operator, at)?;
    add_condition(alloc, into, site, at, false, second)?;
    add_text(alloc, into, ")", at)?;
    Ok(())
}

/// Adds the words of a condition: without abbreviation, each AND and OR in parentheses, and the orders of years that keep
/// their two digits by their windows.
#[cycle(add_condition)]
fn add_condition(
    alloc: Global,
    into: &mut List<Word>,
    site: Site,
    at: Origin,
    under_not: bool,
    condition: &Condition,
) -> Result<(), Memory>
    requires ready { IsReady site.layout.now }
    requires ordered { AreInOrder site.source.edits.now }
    ensures { OnOk result (into.new ≡ into.old ++ spec.condition_words (old_of site.entry) at under_not (asked condition.now)) }
{
    match &condition.form {
        CondForm::Relation { left, rel, right } => {
            add_relation(alloc, into, site, at, left, *rel, right)?;
            Ok(())
        }
        CondForm::Class { of, numeric } => {
            add_class(alloc, into, site, at, of, *numeric)?;
            Ok(())
        }
        CondForm::Sign { of, sign } => {
            add_sign(alloc, into, site, at, of, *sign)?;
            Ok(())
        }
        CondForm::Named(place) => {
            add_place(alloc, into, site, place)?;
            Ok(())
        }
        CondForm::Not(inner) => {
            add_not(alloc, into, site, at, under_not, inner.get())?;
            Ok(())
        }
        CondForm::And(left, right) => {
            add_first(alloc, into, site, at, left.get())?;
            add_second(alloc, into, site, at, "AND", right.get())?;
            Ok(())
        }
        CondForm::Or(left, right) => {
            add_first(alloc, into, site, at, left.get())?;
            add_second(alloc, into, site, at, "OR", right.get())?;
            Ok(())
        }
    }
}

/// Adds the edits of a condition that is written by itself.
fn add_whole(
    alloc: Global,
    edits: &mut List<Edit>,
    site: Site,
    condition: &Condition,
) -> Result<(), Memory>
    requires ready { IsReady site.layout.now }
    requires ordered { AreInOrder site.source.edits.now }
    ensures { OnOk result (edits.new ≡ edits.old ++ spec.whole_edits (old_of site.entry) (asked condition.now)) }
{
    if has_window(alloc, site, condition)? {
        let source = site.source;
        let at = origin_at(source.words, condition.at);
        let mut new = List::new(alloc);
        add_condition(alloc, &mut new, site, at, false, condition)?;
        add_stretch(
            alloc,
            edits,
            source.program,
            source.words,
            condition.at,
            condition.end,
            new,
        )?;
        Ok(())
    } else {
        Ok(())
    }
}

fn is_when(words: &[Word], position: u32) -> bool
    ensures { result ≡ spec.is_when words.now position }
{
    match words.get(position as usize) {
        None => false,
        Some(word) => word.kind == WordKind::Name && word.text.items() == b"WHEN".as_slice(),
    }
}

/// Adds the edits of the condition of an IF or an UNTIL. Those of several WHENs before one body are each written by itself.
pub(crate) fn add_test(
    alloc: Global,
    edits: &mut List<Edit>,
    site: Site,
    test: &Condition,
) -> Result<(), Memory>
    requires ready { IsReady site.layout.now }
    requires ordered { AreInOrder site.source.edits.now }
    ensures { OnOk result (edits.new ≡ edits.old ++ spec.test_edits (old_of site.entry) (asked test.now)) }
{
    match &test.form {
        CondForm::Relation {
            left: _,
            rel: _,
            right: _,
        } => {
            add_whole(alloc, edits, site, test)?;
            Ok(())
        }
        CondForm::Class { of: _, numeric: _ } => Ok(()),
        CondForm::Sign { of: _, sign: _ } => Ok(()),
        CondForm::Named(_) => Ok(()),
        CondForm::Not(_) => {
            add_whole(alloc, edits, site, test)?;
            Ok(())
        }
        CondForm::And(_, _) => {
            add_whole(alloc, edits, site, test)?;
            Ok(())
        }
        CondForm::Or(left, right) => {
            if is_when(site.source.words, left.get().end) {
                add_test(alloc, edits, site, left.get())?;
                add_whole(alloc, edits, site, right.get())?;
                Ok(())
            } else {
                add_whole(alloc, edits, site, test)?;
                Ok(())
            }
        }
    }
}

ghost use Rattle.y2k_base.specs.Edits.{AreInOrder};
ghost use Rattle.std.specs.Prelude.{◌≡◌, ◌++◌, replicate, IfOk, OnOk};
ghost use Rattle.data_layout.specs.Index.{IsReady};
ghost use Rattle.statement_rules.specs.Trees.{tree_of};
ghost use Rattle.window_dates.specs.Operands.{field_of as used_field};
ghost use Rattle.window_rewrite.specs.Old.{old_of};
ghost use Rattle.window_rewrite.specs.Forms.{filled};
ghost use Rattle.window_rewrite.specs.Expressions.{tree_words};
ghost use Rattle.window_rewrite.specs.Relations as spec;

use crate::expression::{add_expr, add_operand};
use crate::form::{Slots, add_filled};
use crate::order::{order_pivot, pair_of};
use crate::site::Site;
use cobol_syntax::{Expr, Operand, Rel};
use date_uses::{Used, operand_used};
use literal_images::{Meeting, NewWord, literal_image};
use statement_words::add_word;
use std::alloc::Global;
use window_dates::{compares_values, field_of};
use y2k_base::{Bytes, List, Memory, Origin, Word, WordKind};

/// Adds the new word of a literal.
fn add_new(alloc: Global, into: &mut List<Word>, at: Origin, new: &NewWord) -> Result<(), Memory>
    ensures { OnOk result (into.new ≡ into.old ++ spec.new_word at new.now) }
{
    match new {
        NewWord::Number(text) => {
            add_word(alloc, into, WordKind::Number, text.items(), at)?;
            Ok(())
        }
        NewWord::Literal(text) => {
            add_word(alloc, into, WordKind::Literal, text.items(), at)?;
            Ok(())
        }
    }
}

/// An operand of a comparison, as it is written and as it is used.
struct Compared<'a> {
    operand: &'a Operand,
    used: Used,
}

impl<'a> Drop for Compared<'a> {
    fn drop(self) {
        let Compared {
            operand: _,
            used: _used,
        } = self;
    }
}

/// Adds the words of an operand that is compared with another: a literal has the word that it needs there.
fn add_compared(
    alloc: Global,
    into: &mut List<Word>,
    site: Site,
    at: Origin,
    first: &Compared,
    second: &Compared,
) -> Result<(), Memory>
    requires { AreInOrder site.source.edits.now }
    ensures { OnOk result (into.new ≡ into.old ++ spec.compared_words (old_of site.entry) at (spec.side first.now) (spec.side second.now)) }
{
    match literal_image(
        alloc,
        site.index,
        Meeting::Compared,
        &first.used,
        &second.used,
    )? {
        None => {
            add_operand(alloc, into, site, first.operand)?;
            Ok(())
        }
        Some(new) => {
            add_new(alloc, into, at, &new)?;
            Ok(())
        }
    }
}

fn compared_words(
    alloc: Global,
    site: Site,
    at: Origin,
    first: &Compared,
    second: &Compared,
) -> Result<List<Word>, Memory>
    requires { AreInOrder site.source.edits.now }
    ensures { IfOk result (λ words. words ≡ spec.compared_words (old_of site.entry) at (spec.side first.now) (spec.side second.now)) }
{
    let mut words = List::new(alloc);
    add_compared(alloc, &mut words, site, at, first, second)?;
    Ok(words)
}

fn expr_words(alloc: Global, site: Site, at: Origin, expr: &Expr) -> Result<List<Word>, Memory>
    requires { AreInOrder site.source.edits.now }
    ensures { IfOk result (λ words. words ≡ tree_words (old_of site.entry) at (tree_of expr.now)) }
{
    let mut words = List::new(alloc);
    add_expr(alloc, &mut words, site, at, expr)?;
    Ok(words)
}

/// The form of a relation as it is.
fn plain_form(rel: Rel) -> &'static str
    ensures { result.now ≡ spec.plain_form rel }
{
    match rel {
        Rel::Equal => "A = B",
        Rel::Less => "A < B",
        Rel::Greater => "A > B",
    }
}

/// The form of the order of two places by the hundred years that begin with the pivot.
fn two_places_form(rel: Rel) -> &'static str
    ensures { result.now ≡ spec.two_places_form rel }
{
    match rel {
        Rel::Equal => "A = B",
        Rel::Less => "( ( A < B AND ( A NOT < P OR B < P ) ) OR ( A NOT < P AND B < P ) )",
        Rel::Greater => "( ( A > B AND ( B NOT < P OR A < P ) ) OR ( B NOT < P AND A < P ) )",
    }
}

/// The form of the order of a place and a literal of those hundred years whose year is before 2000.
fn literal_form(rel: Rel) -> &'static str
    ensures { result.now ≡ spec.literal_form rel }
{
    match rel {
        Rel::Equal => "A = B",
        Rel::Less => "( A < B AND A NOT < P )",
        Rel::Greater => "( A > B OR A < P )",
    }
}

/// The form of an order by a window whose second operand is this one.
fn ordered_form(second: &Compared, rel: Rel) -> &'static str
    ensures { result.now ≡ spec.ordered_form (spec.side second.now) rel }
{
    if is_place(&second.used) {
        two_places_form(rel)
    } else {
        literal_form(rel)
    }
}

/// The digit of a number below ten.
fn digit(number: u8) -> u8
    ensures { result ≡ spec.digit number }
{
    b'0' + number % 10
}

/// The number without leading zeros; it is below 100.
fn push_number(text: &mut Bytes, number: u8) -> Result<(), Memory>
    ensures { OnOk result (text.new ≡ text.old ++ spec.short_number number) }
{
    if number >= 10 {
        text.push(digit(number / 10))?;
        text.push(digit(number))?;
        Ok(())
    } else {
        text.push(digit(number))?;
        Ok(())
    }
}

fn push_zeros(text: &mut Bytes, count: u8) -> Result<(), Memory>
    ensures { OnOk result (text.new ≡ text.old ++ replicate count 48) }
{
    let mut left = count;
    while left > 0 {
        text.push(b'0')?;
        left -= 1;
    }
    Ok(())
}

/// Adds the number whose first two of that many digits are those of the pivot, and whose others are zeros.
pub(crate) fn add_pivot_number(
    alloc: Global,
    into: &mut List<Word>,
    at: Origin,
    pivot: u8,
    digits: u8,
) -> Result<(), Memory>
    ensures { OnOk result (into.new ≡ into.old ++ spec.number_words at pivot digits) }
{
    let mut text = List::new(alloc);
    push_number(&mut text, pivot)?;
    push_zeros(&mut text, digits.saturating_sub(2))?;
    add_word(alloc, into, WordKind::Number, text.items(), at)?;
    Ok(())
}

/// Adds the two digits of the pivot as a literal.
fn add_pivot_text(alloc: Global, into: &mut List<Word>, at: Origin, pivot: u8) -> Result<(), Memory>
    ensures { OnOk result (into.new ≡ into.old ++ spec.text_pivot at pivot) }
{
    let mut text = List::new(alloc);
    text.push(digit(pivot / 10))?;
    text.push(digit(pivot))?;
    add_word(alloc, into, WordKind::Literal, text.items(), at)?;
    Ok(())
}

fn digits_in(used: &Used) -> u8
    ensures { result ≡ spec.digits_in (used_field used.now) }
{
    match field_of(used) {
        None => 2,
        Some(field) => field.digits,
    }
}

/// The word with which the operands of a comparison are compared: by value a number as long as the first one.
fn pivot_words(
    alloc: Global,
    at: Origin,
    pivot: u8,
    first: &Used,
    second: &Used,
) -> Result<List<Word>, Memory>
    ensures { IfOk result (λ words. words ≡ spec.pivot_words at pivot first.now second.now) }
{
    let mut words = List::new(alloc);
    if compares_values(first, second) {
        add_pivot_number(alloc, &mut words, at, pivot, digits_in(first))?;
        Ok(words)
    } else {
        add_pivot_text(alloc, &mut words, at, pivot)?;
        Ok(words)
    }
}

fn is_place(used: &Used) -> bool
    ensures { result ≡ spec.is_place used.now }
{
    match used {
        Used::Place(_) => true,
        Used::Number {
            value: _,
            digits: _,
            at: _,
        } => false,
        Used::Text { bytes: _, at: _ } => false,
        Used::Figure { byte: _, at: _ } => false,
    }
}

fn turned(rel: Rel) -> Rel
    ensures { result ≡ spec.turned rel }
{
    match rel {
        Rel::Equal => Rel::Equal,
        Rel::Less => Rel::Greater,
        Rel::Greater => Rel::Less,
    }
}

/// The words of the operands of a comparison; `p` has none.
fn pair_slots(
    alloc: Global,
    site: Site,
    at: Origin,
    first: &Compared,
    second: &Compared,
    p: List<Word>,
) -> Result<Slots, Memory>
    requires { AreInOrder site.source.edits.now }
    ensures { IfOk result (λ slots. slots ≡ spec.pair_slots (old_of site.entry) at (spec.side first.now) (spec.side second.now) p) }
{
    let a = compared_words(alloc, site, at, first, second)?;
    let b = compared_words(alloc, site, at, second, first)?;
    Ok(Slots {
        a,
        b,
        c: List::new(alloc),
        p,
    })
}

/// Adds an order by a window of a place and another operand.
fn add_ordered(
    alloc: Global,
    into: &mut List<Word>,
    site: Site,
    at: Origin,
    pivot: u8,
    first: &Compared,
    rel: Rel,
    second: &Compared,
) -> Result<(), Memory>
    requires { AreInOrder site.source.edits.now }
    ensures { OnOk result (into.new ≡ into.old ++ spec.ordered (old_of site.entry) at pivot (spec.side first.now) rel (spec.side second.now)) }
{
    let p = pivot_words(alloc, at, pivot, &first.used, &second.used)?;
    let slots = pair_slots(alloc, site, at, first, second, p)?;
    add_filled(alloc, into, at, ordered_form(second, rel), &slots)?;
    Ok(())
}

/// Adds an order by a window. A literal on the left is turned round.
fn add_windowed(
    alloc: Global,
    into: &mut List<Word>,
    site: Site,
    at: Origin,
    pivot: u8,
    left: &Compared,
    rel: Rel,
    right: &Compared,
) -> Result<(), Memory>
    requires { AreInOrder site.source.edits.now }
    ensures { OnOk result (into.new ≡ into.old ++ spec.windowed (old_of site.entry) at pivot (spec.side left.now) rel (spec.side right.now)) }
{
    if is_place(&left.used) {
        add_ordered(alloc, into, site, at, pivot, left, rel, right)?;
        Ok(())
    } else {
        add_ordered(alloc, into, site, at, pivot, right, turned(rel), left)?;
        Ok(())
    }
}

/// Adds a comparison of two operands.
fn add_comparison(
    alloc: Global,
    into: &mut List<Word>,
    site: Site,
    at: Origin,
    left: &Compared,
    rel: Rel,
    right: &Compared,
) -> Result<(), Memory>
    requires { AreInOrder site.source.edits.now }
    ensures { OnOk result (into.new ≡ into.old ++ spec.comparison (old_of site.entry) at (spec.side left.now) rel (spec.side right.now)) }
{
    match order_pivot(site.index, &left.used, rel, &right.used) {
        None => {
            let slots = pair_slots(alloc, site, at, left, right, List::new(alloc))?;
            add_filled(alloc, into, at, plain_form(rel), &slots)?;
            Ok(())
        }
        Some(pivot) => {
            add_windowed(alloc, into, site, at, pivot, left, rel, right)?;
            Ok(())
        }
    }
}

fn side_of<'a>(alloc: Global, site: Site, operand: &'a Operand) -> Result<Compared<'a>, Memory>
    requires { IsReady site.layout.now }
    ensures { IfOk result (λ x. spec.side x ≡ spec.side_of (old_of site.entry) operand.now) }
{
    let used = operand_used(alloc, site.layout, operand)?;
    Ok(Compared { operand, used })
}

fn add_pair(
    alloc: Global,
    into: &mut List<Word>,
    site: Site,
    at: Origin,
    left: &Operand,
    rel: Rel,
    right: &Operand,
) -> Result<(), Memory>
    requires ready { IsReady site.layout.now }
    requires ordered { AreInOrder site.source.edits.now }
    ensures { OnOk result (into.new ≡ into.old ++ spec.comparison (old_of site.entry) at (spec.side_of (old_of site.entry) left.now) rel (spec.side_of (old_of site.entry) right.now)) }
{
    let left = side_of(alloc, site, left)?;
    let right = side_of(alloc, site, right)?;
    add_comparison(alloc, into, site, at, &left, rel, &right)?;
    Ok(())
}

/// Adds a relation of expressions that aren't both operands.
fn add_computed(
    alloc: Global,
    into: &mut List<Word>,
    site: Site,
    at: Origin,
    left: &Expr,
    rel: Rel,
    right: &Expr,
) -> Result<(), Memory>
    requires { AreInOrder site.source.edits.now }
    ensures { OnOk result (into.new ≡ into.old ++ filled (spec.computed_slots (old_of site.entry) at (tree_of left.now) (tree_of right.now)) at (spec.plain_form rel)) }
{
    let slots = Slots {
        a: expr_words(alloc, site, at, left)?,
        b: expr_words(alloc, site, at, right)?,
        c: List::new(alloc),
        p: List::new(alloc),
    };
    add_filled(alloc, into, at, plain_form(rel), &slots)?;
    Ok(())
}

/// Adds the words of a relation.
pub(crate) fn add_relation(
    alloc: Global,
    into: &mut List<Word>,
    site: Site,
    at: Origin,
    left: &Expr,
    rel: Rel,
    right: &Expr,
) -> Result<(), Memory>
    requires ready { IsReady site.layout.now }
    requires ordered { AreInOrder site.source.edits.now }
    ensures { OnOk result (into.new ≡ into.old ++ spec.relation_words (old_of site.entry) at (tree_of left.now) rel (tree_of right.now)) }
{
    match pair_of(left, right) {
        None => {
            add_computed(alloc, into, site, at, left, rel, right)?;
            Ok(())
        }
        Some((one, other)) => {
            add_pair(alloc, into, site, at, one, rel, other)?;
            Ok(())
        }
    }
}

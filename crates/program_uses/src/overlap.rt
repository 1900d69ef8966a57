ghost use Rattle.std.specs.Prelude.{◌≡◌, ◌+◌, ◌*◌, ◌<◌, ◌≤◌, ℕ, Option, Some, IfSome, MatchOption, slice_get};
ghost use Rattle.data_layout.specs.Index.{IsReady};
ghost use Rattle.program_uses.specs.Overlap as spec;

use crate::beside::Beside;
use cobol_syntax::{Expr, Operand, Place, Sub};
use data_layout::{Found, Item, Layout, Step};

/// Bytes of an area, from a place on.
#[derive(Clone, Copy, Debug, PartialEq, Eq)]
pub struct Stretch {
    pub start: u32,
    pub length: u32,
}

impl Stretch {
    /// Whether so many bytes from a place on have one in common with these.
    fn meets(self, start: u32, length: u32) -> bool
        ensures { result ≡ spec.meet self start length }
    {
        u64::from(self.start) < u64::from(start) + u64::from(length)
            && u64::from(start) < u64::from(self.start) + u64::from(self.length)
    }
}

/// Where the occurrence of that number begins, which counts from 0.
fn occurrence_at(start: u32, number: u32, size: u32) -> Option<u32>
    ensures { result ≡ spec.small (start + number * size) }
{
    match number.checked_mul(size) {
        None => None,
        Some(offset) => start.checked_add(offset),
    }
}

/// How many occurrences a subscript leads past the first at most.
fn most_past(step: Step, sub: &Sub) -> u32
    ensures { result ≡ spec.most_past step sub.now }
{
    match sub {
        Sub::Number { value, at: _ } => value.saturating_sub(1),
        Sub::Name(_) => step.count.saturating_sub(1),
    }
}

/// How far behind the first occurrence the last one lies, if that has 32 bits.
fn reach(steps: &[Step], subs: &[Sub]) -> Option<u32>
    ensures { IfSome result (λ r. r ≡ spec.reach steps.now subs.now) }
{
    match steps {
        [] => Some(0),
        [step, tables @ ..] => match subs {
            [] => Some(0),
            [sub, more @ ..] => match reach(tables, more) {
                None => None,
                Some(rest) => occurrence_at(rest, most_past(*step, sub), step.size),
            },
        },
    }
}

/// The first occurrence of a table that may reach past the begin of the stretch.
fn first_near(stretch: Stretch, start: u32, size: u32, length: u32, reach: Option<u32>) -> u32
    ensures { MatchOption reach (result ≡ 0) (λ r. (k : ℕ) → k < result → start + k * size + r + length ≤ stretch.start) }
{
    match reach {
        None => 0,
        Some(reach) => {
            let room = stretch
                .start
                .saturating_sub(start)
                .saturating_sub(reach)
                .saturating_sub(length);
            match room.checked_div(size) {
                None => 0,
                Some(number) => number,
            }
        }
    }
}

/// How many of a table's occurrences may begin before the end of the stretch.
fn end_near(stretch: Stretch, start: u32, size: u32, count: u32) -> u32
    ensures within { result ≤ count }
    ensures past { (k : ℕ) → result ≤ k → k < count → stretch.start + stretch.length ≤ start + k * size }
{
    let end = u64::from(stretch.start) + u64::from(stretch.length);
    match end
        .saturating_sub(u64::from(start))
        .checked_div(u64::from(size))
    {
        None => count,
        Some(number) => {
            if number < u64::from(count) {
                number as u32 + 1
            } else {
                count
            }
        }
    }
}

/// Whether some occurrence that the subscripts can mean has a byte of the stretch.
#[cycle(some_meets)]
fn some_meets(
    stretch: Stretch,
    steps: &[Step],
    subs: &[Sub],
    start: Option<u32>,
    length: u32,
) -> bool
    ensures { result ≡ spec.holds_at (spec.some_occurrence (λ at. spec.meet stretch at length) steps.now subs.now) start }
{
    let Some(start) = start else {
        return false;
    };
    match steps {
        [] => match subs {
            [] => stretch.meets(start, length),
            [_, ..] => false,
        },
        [step, tables @ ..] => match subs {
            [] => false,
            [one, more @ ..] => match one {
                Sub::Number { value, at: _ } => {
                    let place = occurrence_at(start, value.saturating_sub(1), step.size);
                    some_meets(stretch, tables, more, place, length)
                }
                Sub::Name(_) => table_meets(stretch, *step, tables, more, start, length),
            },
        },
    }
}

/// The same of all occurrences of a table, of which only those are looked at that are near.
#[cycle(some_meets)]
fn table_meets(
    stretch: Stretch,
    step: Step,
    steps: &[Step],
    subs: &[Sub],
    start: u32,
    length: u32,
) -> bool
    ensures { result ≡ spec.some_below step.count (λ k. spec.holds_at (spec.some_occurrence (λ at. spec.meet stretch at length) steps.now subs.now) (spec.small (start + k * step.size))) }
{
    let first = first_near(stretch, start, step.size, length, reach(steps, subs));
    let end = end_near(stretch, start, step.size, step.count);
    for number in first..end {
        let place = occurrence_at(start, number, step.size);
        if some_meets(stretch, steps, subs, place, length) {
            return true;
        }
    }
    false
}

/// Whether some occurrence of an item that the subscripts can mean has a byte of some occurrence of another.
#[cycle(pair_meets)]
fn pair_meets(
    steps: &[Step],
    subs: &[Sub],
    start: Option<u32>,
    length: u32,
    other: &Item,
    others: &[Sub],
) -> bool
    ensures { result ≡ spec.holds_at (spec.some_occurrence (λ at. spec.occurrence_meets (spec.stretch length at) other.now others.now) steps.now subs.now) start }
{
    let Some(start) = start else {
        return false;
    };
    match steps {
        [] => match subs {
            [] => some_meets(
                Stretch { start, length },
                other.steps.items(),
                others,
                Some(other.span.offset),
                other.span.length,
            ),
            [_, ..] => false,
        },
        [step, tables @ ..] => match subs {
            [] => false,
            [one, more @ ..] => match one {
                Sub::Number { value, at: _ } => {
                    let place = occurrence_at(start, value.saturating_sub(1), step.size);
                    pair_meets(tables, more, place, length, other, others)
                }
                Sub::Name(_) => {
                    table_pair_meets(*step, tables, more, start, length, other, others)
                }
            },
        },
    }
}

/// The same of all occurrences of a table.
#[cycle(pair_meets)]
fn table_pair_meets(
    step: Step,
    steps: &[Step],
    subs: &[Sub],
    start: u32,
    length: u32,
    other: &Item,
    others: &[Sub],
) -> bool
    ensures { result ≡ spec.some_below step.count (λ k. spec.holds_at (spec.some_occurrence (λ at. spec.occurrence_meets (spec.stretch length at) other.now others.now) steps.now subs.now) (spec.small (start + k * step.size))) }
{
    for number in 0..step.count {
        let place = occurrence_at(start, number, step.size);
        if pair_meets(steps, subs, place, length, other, others) {
            return true;
        }
    }
    false
}

/// Whether two items have a byte in common, each with its subscripts.
fn items_meet(one: &Item, subs: &[Sub], other: &Item, others: &[Sub]) -> bool
    ensures { result ≡ spec.items_meet one.now subs.now other.now others.now }
{
    one.span.area == other.span.area
        && pair_meets(
            one.steps.items(),
            subs,
            Some(one.span.offset),
            one.span.length,
            other,
            others,
        )
}

/// Whether an item with its subscripts and an identifier have a byte in common.
fn item_meets(layout: &Layout, one: &Item, subs: &[Sub], other: &Place) -> bool
    requires { IsReady layout.now }
    ensures { result ≡ spec.both_meet (Some one.now) subs.now (spec.item_of layout.now other.now) other.now.subs }
{
    match layout.find(other.names.items()) {
        Found::Item(number) => match layout.items.items().get(number as usize) {
            Some(item) => items_meet(one, subs, item, other.subs.items()),
            None => false,
        },
        Found::Named(_) => false,
        Found::Unknown => false,
        Found::Twice => false,
    }
}

/// Whether two identifiers have a byte in common.
fn places_meet(layout: &Layout, one: &Place, other: &Place) -> bool
    requires { IsReady layout.now }
    ensures { result ≡ spec.places_meet layout.now one.now other.now }
{
    match layout.find(one.names.items()) {
        Found::Item(number) => match layout.items.items().get(number as usize) {
            Some(item) => item_meets(layout, item, one.subs.items(), other),
            None => false,
        },
        Found::Named(_) => false,
        Found::Unknown => false,
        Found::Twice => false,
    }
}

/// Whether an operand that is written apart from the receiver has a byte of it.
fn operand_meets(layout: &Layout, to: &Place, operand: &Operand) -> bool
    requires { IsReady layout.now }
    ensures { result ≡ spec.operand_meets layout.now operand.now to.now }
{
    match operand {
        Operand::Place(place) => place.at != to.at && places_meet(layout, to, place),
        Operand::Number { .. } => false,
        Operand::Text { .. } => false,
        Operand::Figure { .. } => false,
    }
}

/// Whether the receiver of arithmetic overlaps one of its operands.
fn meets(layout: &Layout, to: &Place, value: &Expr) -> bool
    requires { IsReady layout.now }
    ensures { result ≡ spec.meets layout.now value.now to.now }
{
    match value {
        Expr::One(operand) => operand_meets(layout, to, operand),
        Expr::Minus(inner) => meets(layout, to, inner.get()),
        Expr::Add(left, right) => meets(layout, to, left.get()) || meets(layout, to, right.get()),
        Expr::Sub(left, right) => meets(layout, to, left.get()) || meets(layout, to, right.get()),
        Expr::Mul(left, right) => meets(layout, to, left.get()) || meets(layout, to, right.get()),
        Expr::Div(left, right) => meets(layout, to, left.get()) || meets(layout, to, right.get()),
    }
}

/// Arithmetic as one of several statements of its text: its receiver overlaps none of its operands.
pub(crate) fn beside_apart(layout: &Layout, owner: u32, to: &Place, value: &Expr) -> Beside
    requires { IsReady layout.now }
    ensures { result ≡ spec.beside_apart layout.now owner to.now value.now }
{
    Beside {
        at: owner,
        right: !meets(layout, to, value),
    }
}

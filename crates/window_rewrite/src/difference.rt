ghost use Rattle.y2k_base.specs.Edits.{AreInOrder};
ghost use Rattle.std.specs.Prelude.{◌≡◌, ◌++◌, map, option_map, IfOk, OnOk, Some, None, MatchOption};
ghost use Rattle.data_layout.specs.Index.{IsReady};
ghost use Rattle.statement_rules.specs.Trees.{tree_of};
ghost use Rattle.statement_places.specs.Parts.{seen};
ghost use Rattle.window_dates.specs.Windows.{first_of};
ghost use Rattle.window_rewrite.specs.Old.{old_of};
ghost use Rattle.window_rewrite.specs.Differences as spec;

use crate::expression::add_operand;
use crate::form::{Slots, add_filled};
use crate::order::pair_of;
use crate::relation::add_pivot_number;
use crate::site::Site;
use cobol_syntax::{Expr, Operand, Place};
use date_uses::{Used, operand_used, place_used};
use statement_places::Part;
use statement_rules::origin_at;
use statement_words::{add_alone, add_receiver, add_stretch};
use std::alloc::Global;
use window_dates::{WindowedYear, window_part};
use y2k_base::{Edit, List, Memory, Origin, Word};
use year_index::YearIndex;

/// A difference of two operands with a year that keeps its two digits. `pivot` is that of the year, and `both` says that
/// what is subtracted is a year too.
#[derive(Clone, Copy)]
struct Difference<'a> {
    from: &'a Operand,
    less: &'a Operand,
    pivot: u8,
    both: bool,
}

fn first_of(year: Option<WindowedYear>, other: Option<WindowedYear>) -> Option<WindowedYear>
    ensures { result ≡ first_of year other }
{
    match year {
        None => other,
        Some(year) => Some(year),
    }
}

/// The year of a difference, that of its receiver first.
fn year_of(index: &YearIndex, to: &Used, from: &Used, less: &Used) -> Option<WindowedYear>
    ensures { result ≡ spec.year_of index.now to.now from.now less.now }
{
    let operand = first_of(window_part(index, from), window_part(index, less));
    first_of(window_part(index, to), operand)
}

fn difference_with<'a>(
    alloc: Global,
    site: Site,
    to: &Place,
    from: &'a Operand,
    less: &'a Operand,
) -> Result<Option<Difference<'a>>, Memory>
    requires { IsReady site.layout.now }
    ensures { IfOk result (λ d. option_map spec.years d ≡ spec.years_with (old_of site.entry) to.now from.now less.now) }
{
    let to = place_used(alloc, site.layout, to)?;
    let from_used = operand_used(alloc, site.layout, from)?;
    let less_used = operand_used(alloc, site.layout, less)?;
    match year_of(site.index, &to, &from_used, &less_used) {
        None => Ok(None),
        Some(year) => Ok(Some(Difference {
            from,
            less,
            pivot: year.pivot,
            both: window_part(site.index, &less_used).is_some(),
        })),
    }
}

/// The operands of a difference.
fn operands_of(value: &Expr) -> Option<(&Operand, &Operand)>
    ensures { MatchOption result (spec.operands_of (tree_of value.now) ≡ None) (λ two. spec.operands_of (tree_of value.now) ≡ Some (two.0.now, two.1.now)) }
{
    match value {
        Expr::One(_) => None,
        Expr::Minus(_) => None,
        Expr::Add(_, _) => None,
        Expr::Sub(left, right) => pair_of(left.get(), right.get()),
        Expr::Mul(_, _) => None,
        Expr::Div(_, _) => None,
    }
}

fn difference_in<'a>(
    alloc: Global,
    site: Site,
    to: &Place,
    value: &'a Expr,
) -> Result<Option<Difference<'a>>, Memory>
    requires { IsReady site.layout.now }
    ensures { IfOk result (λ d. option_map spec.years d ≡ spec.years_in (old_of site.entry) to.now (tree_of value.now)) }
{
    match operands_of(value) {
        None => Ok(None),
        Some((from, less)) => {
            let difference = difference_with(alloc, site, to, from, less)?;
            Ok(difference)
        }
    }
}

/// A computation of a text statement.
#[derive(Clone, Copy)]
struct Computed<'a> {
    to: &'a Place,
    rounded: bool,
    value: &'a Expr,
}

fn computed_in<'a>(part: Part<'a>) -> Option<Computed<'a>>
    ensures { option_map spec.computation result ≡ spec.computation_of (seen part.entry) }
{
    match part {
        Part::Move { .. } => None,
        Part::Compute {
            at: _,
            end: _,
            to,
            rounded,
            value,
        } => Some(Computed { to, rounded, value }),
        Part::Accept { .. } => None,
        Part::Test { .. } => None,
    }
}

fn is_windowed(alloc: Global, site: Site, part: Part) -> Result<bool, Memory>
    requires { IsReady site.layout.now }
    ensures { IfOk result (λ is. is ≡ spec.is_windowed (old_of site.entry) (seen part.entry)) }
{
    match computed_in(part) {
        None => Ok(false),
        Some(computed) => {
            let difference = difference_in(alloc, site, computed.to, computed.value)?;
            Ok(difference.is_some())
        }
    }
}

/// Whether one of the computations is a difference with a year that keeps its two digits.
fn has_windowed(alloc: Global, site: Site, group: &[Part]) -> Result<bool, Memory>
    requires { IsReady site.layout.now }
    ensures { IfOk result (λ has. has ≡ spec.has_windowed (old_of site.entry) (map seen group.now)) }
{
    let mut rest = group;
    while let [part, more @ ..] = rest {
        if is_windowed(alloc, site, *part)? {
            return Ok(true);
        }
        rest = more;
    }
    Ok(false)
}

fn slots_of(
    alloc: Global,
    site: Site,
    at: Origin,
    computed: Computed,
    difference: Difference,
) -> Result<Slots, Memory>
    requires { AreInOrder site.source.edits.now }
    ensures { IfOk result (λ slots. slots ≡ spec.slots_of (old_of site.entry) at (spec.computation computed.entry) (spec.years difference.entry)) }
{
    let mut slots = Slots {
        a: List::new(alloc),
        b: List::new(alloc),
        c: List::new(alloc),
        p: List::new(alloc),
    };
    add_operand(alloc, &mut slots.a, site, difference.less)?;
    add_operand(alloc, &mut slots.b, site, difference.from)?;
    add_receiver(
        alloc,
        &mut slots.c,
        site.source,
        computed.to,
        computed.rounded,
    )?;
    add_pivot_number(alloc, &mut slots.p, at, difference.pivot, 2)?;
    Ok(slots)
}

/// The form of a difference by the hundred years that begin with the pivot: of two years, or of a year and a number of years.
fn form_of(both: bool) -> &'static str
    ensures { result.now ≡ spec.form_of both }
{
    if both {
        "IF B < P AND A NOT < P COMPUTE C = B - A + 100 ELSE IF B NOT < P AND A < P COMPUTE C = B - A - 100 ELSE COMPUTE C = B - A END-IF END-IF"
    } else {
        "IF B < A COMPUTE C = B - A + 100 ELSE COMPUTE C = B - A END-IF"
    }
}

/// Adds a difference by the hundred years that begin with the pivot.
fn add_difference(
    alloc: Global,
    into: &mut List<Word>,
    site: Site,
    at: Origin,
    computed: Computed,
    difference: Difference,
) -> Result<(), Memory>
    requires { AreInOrder site.source.edits.now }
    ensures { OnOk result (into.new ≡ into.old ++ spec.difference_words (old_of site.entry) at (spec.computation computed.entry) (spec.years difference.entry)) }
{
    let slots = slots_of(alloc, site, at, computed, difference)?;
    add_filled(alloc, into, at, form_of(difference.both), &slots)?;
    Ok(())
}

/// Adds a computation, as it is where it is no difference with a year that keeps its two digits.
fn add_computed(
    alloc: Global,
    into: &mut List<Word>,
    site: Site,
    at: Origin,
    group: &[Part],
    part: Part,
    computed: Computed,
) -> Result<(), Memory>
    requires ready { IsReady site.layout.now }
    requires ordered { AreInOrder site.source.edits.now }
    ensures { OnOk result (into.new ≡ into.old ++ spec.computed_words (old_of site.entry) at (map seen group.now) (seen part.entry) (spec.computation computed.entry)) }
{
    match difference_in(alloc, site, computed.to, computed.value)? {
        None => {
            add_alone(alloc, into, site.source, group, part)?;
            Ok(())
        }
        Some(difference) => {
            add_difference(alloc, into, site, at, computed, difference)?;
            Ok(())
        }
    }
}

fn add_part(
    alloc: Global,
    into: &mut List<Word>,
    site: Site,
    at: Origin,
    group: &[Part],
    part: Part,
) -> Result<(), Memory>
    requires ready { IsReady site.layout.now }
    requires ordered { AreInOrder site.source.edits.now }
    ensures { OnOk result (into.new ≡ into.old ++ spec.part_words (old_of site.entry) at (map seen group.now) (seen part.entry)) }
{
    match computed_in(part) {
        None => Ok(()),
        Some(computed) => {
            add_computed(alloc, into, site, at, group, part, computed)?;
            Ok(())
        }
    }
}

/// Adds the computations of a text statement, one after the other.
fn add_parts(
    alloc: Global,
    into: &mut List<Word>,
    site: Site,
    at: Origin,
    group: &[Part],
) -> Result<(), Memory>
    requires ready { IsReady site.layout.now }
    requires ordered { AreInOrder site.source.edits.now }
    ensures { OnOk result (into.new ≡ into.old ++ spec.parts_words (old_of site.entry) at (map seen group.now) (map seen group.now)) }
{
    let mut rest = group;
    while let [part, more @ ..] = rest {
        add_part(alloc, into, site, at, group, *part)?;
        rest = more;
    }
    Ok(())
}

/// Adds the edits of the computations of a text statement from position `at` up to `end`, if one of them is a difference with
/// a year that keeps its two digits.
pub(crate) fn add_computations(
    alloc: Global,
    edits: &mut List<Edit>,
    site: Site,
    group: &[Part],
    at: u32,
    end: u32,
) -> Result<(), Memory>
    requires ready { IsReady site.layout.now }
    requires ordered { AreInOrder site.source.edits.now }
    ensures { OnOk result (edits.new ≡ edits.old ++ spec.computations_edits (old_of site.entry) (map seen group.now) at end) }
{
    if has_windowed(alloc, site, group)? {
        let source = site.source;
        let origin = origin_at(source.words, at);
        let mut new = List::new(alloc);
        add_parts(alloc, &mut new, site, origin, group)?;
        add_stretch(alloc, edits, source.program, source.words, at, end, new)?;
        Ok(())
    } else {
        Ok(())
    }
}

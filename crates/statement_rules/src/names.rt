ghost use Rattle.std.specs.Prelude.{◌≡◌, ◌++◌, IfOk, OnOk, MatchOption, Some, None};
ghost use Rattle.data_layout.specs.Index.{IsReady};
ghost use Rattle.statement_rules.specs.Names as spec;

use cobol_syntax::{Operand, Part, Place, Sub};
use data_layout::{Found, Item, Layout};
use date_views::{Side, add_plain_bytes, add_use, side_of, whole_side};
use std::alloc::Global;
use y2k_base::{Bytes, List, Memory, Origin};
use year_labels::{Rule, RuleInst};

/// The one item of a name.
pub(crate) fn item_named<'a>(layout: &'a Layout, names: &[Bytes]) -> Option<&'a Item>
    requires { IsReady layout.now }
    ensures { MatchOption result (spec.item_named layout.now names.now ≡ None) (λ item. spec.item_named layout.now names.now ≡ Some item.now) }
{
    match layout.find(names) {
        Found::Item(number) => layout.items.items().get(number as usize),
        Found::Named(_) => None,
        Found::Unknown => None,
        Found::Twice => None,
    }
}

/// Adds that a side, if it is one, is plain.
pub(crate) fn add_use_if(
    alloc: Global,
    rules: &mut List<RuleInst>,
    at: Origin,
    side: &Option<Side>,
) -> Result<(), Memory>
    ensures { OnOk result (rules.new ≡ rules.old ++ spec.use_if at side.now) }
{
    match side {
        None => Ok(()),
        Some(side) => {
            add_use(alloc, rules, Rule::Plain, at, side)?;
            Ok(())
        }
    }
}

/// Adds that the item of a name is plain.
fn add_name(
    alloc: Global,
    rules: &mut List<RuleInst>,
    layout: &Layout,
    at: Origin,
    names: &[Bytes],
) -> Result<(), Memory>
    requires { IsReady layout.now }
    ensures { OnOk result (rules.new ≡ rules.old ++ spec.item_use at (spec.item_named layout.now names.now)) }
{
    match item_named(layout, names) {
        None => Ok(()),
        Some(item) => {
            let side = whole_side(alloc, item)?;
            add_use_if(alloc, rules, at, &side)?;
            Ok(())
        }
    }
}

fn add_sub(
    alloc: Global,
    rules: &mut List<RuleInst>,
    layout: &Layout,
    at: Origin,
    sub: &Sub,
) -> Result<(), Memory>
    requires { IsReady layout.now }
    ensures { OnOk result (rules.new ≡ rules.old ++ spec.sub_rules layout.now at sub.now) }
{
    match sub {
        Sub::Number { value: _, at: _ } => Ok(()),
        Sub::Name(names) => {
            add_name(alloc, rules, layout, at, names.items())?;
            Ok(())
        }
    }
}

fn add_subs(
    alloc: Global,
    rules: &mut List<RuleInst>,
    layout: &Layout,
    at: Origin,
    subs: &[Sub],
) -> Result<(), Memory>
    requires { IsReady layout.now }
    ensures { OnOk result (rules.new ≡ rules.old ++ spec.subs_rules layout.now at subs.now) }
{
    let mut rest = subs;
    while let [sub, more @ ..] = rest {
        add_sub(alloc, rules, layout, at, sub)?;
        rest = more;
    }
    Ok(())
}

fn add_bound(
    alloc: Global,
    rules: &mut List<RuleInst>,
    layout: &Layout,
    at: Origin,
    bound: &Option<Sub>,
) -> Result<(), Memory>
    requires { IsReady layout.now }
    ensures { OnOk result (rules.new ≡ rules.old ++ spec.bound_rules layout.now at bound.now) }
{
    match bound {
        None => Ok(()),
        Some(bound) => {
            add_sub(alloc, rules, layout, at, bound)?;
            Ok(())
        }
    }
}

/// Whether a subscript, or a bound of a reference, is a data name.
pub fn is_name(bound: &Sub) -> bool
    ensures { result ≡ spec.is_name bound.now }
{
    match bound {
        Sub::Number { value: _, at: _ } => false,
        Sub::Name(_) => true,
    }
}

fn is_name_if(bound: &Option<Sub>) -> bool
    ensures { result ≡ spec.is_name_if bound.now }
{
    match bound {
        None => false,
        Some(bound) => is_name(bound),
    }
}

/// Adds that all bytes of the item of a name are plain.
fn add_item_bytes(
    alloc: Global,
    rules: &mut List<RuleInst>,
    layout: &Layout,
    at: Origin,
    names: &[Bytes],
) -> Result<(), Memory>
    requires { IsReady layout.now }
    ensures { OnOk result (rules.new ≡ rules.old ++ spec.item_bytes at (spec.item_named layout.now names.now)) }
{
    match item_named(layout, names) {
        None => Ok(()),
        Some(item) => {
            add_plain_bytes(alloc, rules, Rule::Plain, at, item.span)?;
            Ok(())
        }
    }
}

/// Adds that an item is plain of which a part is taken that may stand anywhere.
fn add_whole(
    alloc: Global,
    rules: &mut List<RuleInst>,
    layout: &Layout,
    at: Origin,
    names: &[Bytes],
    part: &Part,
) -> Result<(), Memory>
    requires { IsReady layout.now }
    ensures { OnOk result (rules.new ≡ rules.old ++ spec.whole_rules layout.now at names.now part.now) }
{
    if is_name(&part.start) || is_name_if(&part.length) {
        add_item_bytes(alloc, rules, layout, at, names)?;
        Ok(())
    } else {
        Ok(())
    }
}

fn add_part(
    alloc: Global,
    rules: &mut List<RuleInst>,
    layout: &Layout,
    at: Origin,
    names: &[Bytes],
    part: &Option<Part>,
) -> Result<(), Memory>
    requires { IsReady layout.now }
    ensures { OnOk result (rules.new ≡ rules.old ++ spec.part_rules layout.now at names.now part.now) }
{
    match part {
        None => Ok(()),
        Some(part) => {
            add_sub(alloc, rules, layout, at, &part.start)?;
            add_bound(alloc, rules, layout, at, &part.length)?;
            add_whole(alloc, rules, layout, at, names, part)?;
            Ok(())
        }
    }
}

/// Adds what the subscripts and the reference of a place give.
pub fn add_place(
    alloc: Global,
    rules: &mut List<RuleInst>,
    layout: &Layout,
    at: Origin,
    place: &Place,
) -> Result<(), Memory>
    requires { IsReady layout.now }
    ensures { OnOk result (rules.new ≡ rules.old ++ spec.place_rules layout.now at place.now) }
{
    add_subs(alloc, rules, layout, at, place.subs.items())?;
    add_part(alloc, rules, layout, at, place.names.items(), &place.cut)?;
    Ok(())
}

/// Adds what the subscripts and the reference of an operand give.
pub(crate) fn add_operand(
    alloc: Global,
    rules: &mut List<RuleInst>,
    layout: &Layout,
    at: Origin,
    operand: &Operand,
) -> Result<(), Memory>
    requires { IsReady layout.now }
    ensures { OnOk result (rules.new ≡ rules.old ++ spec.operand_rules layout.now at operand.now) }
{
    match operand {
        Operand::Place(place) => {
            add_place(alloc, rules, layout, at, place)?;
            Ok(())
        }
        Operand::Number {
            value: _,
            digits: _,
            at: _,
        } => Ok(()),
        Operand::Text { bytes: _, at: _ } => Ok(()),
        Operand::Figure { byte: _, at: _ } => Ok(()),
    }
}

/// The side that an operand is; a literal is none.
pub fn operand_side(
    alloc: Global,
    layout: &Layout,
    operand: &Operand,
) -> Result<Option<Side>, Memory>
    requires { IsReady layout.now }
    ensures { IfOk result (λ side. side ≡ spec.operand_side layout.now operand.now) }
{
    match operand {
        Operand::Place(place) => {
            let side = side_of(alloc, layout, place)?;
            Ok(side)
        }
        Operand::Number {
            value: _,
            digits: _,
            at: _,
        } => Ok(None),
        Operand::Text { bytes: _, at: _ } => Ok(None),
        Operand::Figure { byte: _, at: _ } => Ok(None),
    }
}

/// Adds what a place gives in a use that no year may have.
pub fn add_place_use(
    alloc: Global,
    rules: &mut List<RuleInst>,
    layout: &Layout,
    at: Origin,
    place: &Place,
) -> Result<(), Memory>
    requires { IsReady layout.now }
    ensures { OnOk result (rules.new ≡ rules.old ++ spec.place_use layout.now at place.now) }
{
    add_place(alloc, rules, layout, at, place)?;
    let side = side_of(alloc, layout, place)?;
    add_use_if(alloc, rules, at, &side)?;
    Ok(())
}

/// Adds what an operand gives in a use that no year may have.
pub(crate) fn add_operand_use(
    alloc: Global,
    rules: &mut List<RuleInst>,
    layout: &Layout,
    at: Origin,
    operand: &Operand,
) -> Result<(), Memory>
    requires { IsReady layout.now }
    ensures { OnOk result (rules.new ≡ rules.old ++ spec.operand_use layout.now at operand.now) }
{
    add_operand(alloc, rules, layout, at, operand)?;
    let side = operand_side(alloc, layout, operand)?;
    add_use_if(alloc, rules, at, &side)?;
    Ok(())
}

ghost use Rattle.std.specs.Prelude.{◌≡◌, ◌++◌, IfOk, OnOk, Some, slice_get};
ghost use Rattle.data_layout.specs.Index.{IsReady};
ghost use Rattle.statement_rules.specs.Trees.{tree_of};
ghost use Rattle.statement_rules.specs.Conditions as conditions;
ghost use Rattle.statement_rules.specs.Statements as spec;

use crate::conditions::{add_condition, add_value};
use crate::names::{
    add_operand, add_operand_use, add_place, add_place_use, item_named, operand_side,
};
use cobol_syntax::{Branch, Control, Expr, Form, Operand, Place, Register, Statement, Vary};
use data_layout::{Area, Layout};
use date_views::{Side, add_copy, add_move, add_register, add_sum, area_side, side_of};
use std::alloc::Global;
use y2k_base::{Bytes, FileId, List, Memory, Origin, Span, Twin, Word};
use year_labels::RuleInst;

/// Where the word of that number stands.
pub fn origin_at(words: &[Word], at: u32) -> Origin
    ensures { result ≡ spec.origin_at words.now at }
{
    match words.get(at as usize) {
        Some(word) => word.origin,
        None => Origin {
            file: FileId(0),
            line: 0,
            column: 0,
        },
    }
}

/// Adds the rules of a move, if both are sides.
pub fn add_move_if(
    alloc: Global,
    rules: &mut List<RuleInst>,
    at: Origin,
    from: &Option<Side>,
    to: &Option<Side>,
) -> Result<(), Memory>
    ensures { OnOk result (rules.new ≡ rules.old ++ spec.move_if at from.now to.now) }
{
    match from {
        None => Ok(()),
        Some(from) => {
            match to {
                None => Ok(()),
                Some(to) => {
                    add_move(alloc, rules, at, from, to)?;
                    Ok(())
                }
            }
        }
    }
}

/// Adds the rules of a copy of bytes, if both are sides.
pub fn add_copy_if(
    alloc: Global,
    rules: &mut List<RuleInst>,
    at: Origin,
    from: &Option<Side>,
    to: &Option<Side>,
) -> Result<(), Memory>
    ensures { OnOk result (rules.new ≡ rules.old ++ spec.copy_if at from.now to.now) }
{
    match from {
        None => Ok(()),
        Some(from) => {
            match to {
                None => Ok(()),
                Some(to) => {
                    add_copy(alloc, rules, at, from, to)?;
                    Ok(())
                }
            }
        }
    }
}

fn add_move_statement(
    alloc: Global,
    rules: &mut List<RuleInst>,
    layout: &Layout,
    at: Origin,
    from: &Operand,
    to: &Place,
) -> Result<(), Memory>
    requires { IsReady layout.now }
    ensures { OnOk result (rules.new ≡ rules.old ++ spec.move_statement layout.now at from.now to.now) }
{
    add_operand(alloc, rules, layout, at, from)?;
    add_place(alloc, rules, layout, at, to)?;
    let sender = operand_side(alloc, layout, from)?;
    let receiver = side_of(alloc, layout, to)?;
    add_move_if(alloc, rules, at, &sender, &receiver)?;
    Ok(())
}

/// Adds that the item of REMAINDER is plain.
fn add_rest(
    alloc: Global,
    rules: &mut List<RuleInst>,
    layout: &Layout,
    at: Origin,
    rest: &Option<Place>,
) -> Result<(), Memory>
    requires { IsReady layout.now }
    ensures { OnOk result (rules.new ≡ rules.old ++ spec.rest_rules layout.now at rest.now) }
{
    match rest {
        None => Ok(()),
        Some(place) => {
            add_place_use(alloc, rules, layout, at, place)?;
            Ok(())
        }
    }
}

fn add_compute(
    alloc: Global,
    rules: &mut List<RuleInst>,
    layout: &Layout,
    at: Origin,
    to: &Place,
    value: &Expr,
    rest: &Option<Place>,
) -> Result<(), Memory>
    requires { IsReady layout.now }
    ensures { OnOk result (rules.new ≡ rules.old ++ spec.compute_statement layout.now at to.now rest.now (conditions.value_rules layout.now at to.now (tree_of value.now))) }
{
    add_place(alloc, rules, layout, at, to)?;
    add_rest(alloc, rules, layout, at, rest)?;
    add_value(alloc, rules, layout, at, to, value)?;
    Ok(())
}

fn has_name(name: &[u8], own: &Option<Bytes>) -> bool
    ensures { result ≡ spec.has_name name.now own.now }
{
    match own {
        None => false,
        Some(own) => own.items() == name,
    }
}

fn is_area_of(name: &[u8], area: &Area) -> bool
    ensures { result ≡ spec.is_area_of name.now area.now }
{
    area.file && has_name(name, &area.name)
}

/// All bytes of an area.
pub fn area_span(area: &Area) -> Span
    ensures { result ≡ spec.area_span area.now }
{
    Span {
        area: area.id,
        offset: 0,
        length: area.length,
    }
}

/// The record area of a file.
pub fn file_side(alloc: Global, areas: &[Area], name: &[u8]) -> Result<Option<Side>, Memory>
    ensures { IfOk result (λ side. side ≡ spec.file_side areas.now name.now) }
{
    let mut rest = areas;
    while let [area, more @ ..] = rest {
        if is_area_of(name, area) {
            let side = area_side(alloc, area_span(area))?;
            return Ok(Some(side));
        }
        rest = more;
    }
    Ok(None)
}

/// The record that WRITE names, as a group.
pub fn record_side(alloc: Global, layout: &Layout, name: &Bytes) -> Result<Option<Side>, Memory>
    requires { IsReady layout.now }
    ensures { IfOk result (λ side. side ≡ spec.record_side layout.now name.now) }
{
    let mut names = List::new(alloc);
    names.push(name.twin(alloc)?)?;
    match item_named(layout, names.items()) {
        None => Ok(None),
        Some(item) => {
            let side = area_side(alloc, item.span)?;
            Ok(Some(side))
        }
    }
}

fn add_into(
    alloc: Global,
    rules: &mut List<RuleInst>,
    layout: &Layout,
    at: Origin,
    file: &Bytes,
    into: &Option<Place>,
) -> Result<(), Memory>
    requires { IsReady layout.now }
    ensures { OnOk result (rules.new ≡ rules.old ++ spec.into_rules layout.now at file.now into.now) }
{
    match into {
        None => Ok(()),
        Some(place) => {
            add_place(alloc, rules, layout, at, place)?;
            let record = file_side(alloc, layout.areas.items(), file.items())?;
            let receiver = side_of(alloc, layout, place)?;
            add_copy_if(alloc, rules, at, &record, &receiver)?;
            Ok(())
        }
    }
}

fn add_from(
    alloc: Global,
    rules: &mut List<RuleInst>,
    layout: &Layout,
    at: Origin,
    name: &Bytes,
    from: &Option<Operand>,
) -> Result<(), Memory>
    requires { IsReady layout.now }
    ensures { OnOk result (rules.new ≡ rules.old ++ spec.from_rules layout.now at name.now from.now) }
{
    match from {
        None => Ok(()),
        Some(operand) => {
            add_operand(alloc, rules, layout, at, operand)?;
            let sender = operand_side(alloc, layout, operand)?;
            let record = record_side(alloc, layout, name)?;
            add_copy_if(alloc, rules, at, &sender, &record)?;
            Ok(())
        }
    }
}

/// Adds that the count of ADVANCING is plain.
fn add_count(
    alloc: Global,
    rules: &mut List<RuleInst>,
    layout: &Layout,
    at: Origin,
    count: &Option<Operand>,
) -> Result<(), Memory>
    requires { IsReady layout.now }
    ensures { OnOk result (rules.new ≡ rules.old ++ spec.count_rules layout.now at count.now) }
{
    match count {
        None => Ok(()),
        Some(operand) => {
            add_operand_use(alloc, rules, layout, at, operand)?;
            Ok(())
        }
    }
}

fn add_accept(
    alloc: Global,
    rules: &mut List<RuleInst>,
    layout: &Layout,
    at: Origin,
    from: Register,
    to: &Place,
) -> Result<(), Memory>
    requires { IsReady layout.now }
    ensures { OnOk result (rules.new ≡ rules.old ++ spec.accept_statement layout.now at from to.now) }
{
    add_place(alloc, rules, layout, at, to)?;
    match side_of(alloc, layout, to)? {
        None => Ok(()),
        Some(side) => {
            add_register(alloc, rules, at, from, &side)?;
            Ok(())
        }
    }
}

fn add_operands(
    alloc: Global,
    rules: &mut List<RuleInst>,
    layout: &Layout,
    at: Origin,
    operands: &[Operand],
) -> Result<(), Memory>
    requires { IsReady layout.now }
    ensures { OnOk result (rules.new ≡ rules.old ++ spec.all_operands layout.now at operands.now) }
{
    let mut rest = operands;
    while let [operand, more @ ..] = rest {
        add_operand(alloc, rules, layout, at, operand)?;
        rest = more;
    }
    Ok(())
}

/// Adds the rules of VARYING, which moves FROM and adds BY.
fn add_varied(
    alloc: Global,
    rules: &mut List<RuleInst>,
    layout: &Layout,
    at: Origin,
    vary: &Vary,
) -> Result<(), Memory>
    requires { IsReady layout.now }
    ensures { OnOk result (rules.new ≡ rules.old ++ spec.varied layout.now at vary.now) }
{
    add_place(alloc, rules, layout, at, &vary.item)?;
    add_operand(alloc, rules, layout, at, &vary.from)?;
    add_operand(alloc, rules, layout, at, &vary.by)?;
    let item = side_of(alloc, layout, &vary.item)?;
    let from = operand_side(alloc, layout, &vary.from)?;
    let by = operand_side(alloc, layout, &vary.by)?;
    add_move_if(alloc, rules, at, &from, &item)?;
    add_sum(alloc, rules, at, &item, &by, &item)?;
    Ok(())
}

fn add_vary(
    alloc: Global,
    rules: &mut List<RuleInst>,
    layout: &Layout,
    at: Origin,
    vary: &Option<Vary>,
) -> Result<(), Memory>
    requires { IsReady layout.now }
    ensures { OnOk result (rules.new ≡ rules.old ++ spec.vary_rules layout.now at vary.now) }
{
    match vary {
        None => Ok(()),
        Some(vary) => {
            add_varied(alloc, rules, layout, at, vary)?;
            Ok(())
        }
    }
}

fn add_control(
    alloc: Global,
    rules: &mut List<RuleInst>,
    layout: &Layout,
    at: Origin,
    control: &Control,
) -> Result<(), Memory>
    requires { IsReady layout.now }
    ensures { OnOk result (rules.new ≡ rules.old ++ spec.control_rules layout.now at control.now) }
{
    match control {
        Control::Once => Ok(()),
        Control::Times(count) => {
            add_operand_use(alloc, rules, layout, at, count)?;
            Ok(())
        }
        Control::Until {
            after: _,
            test,
            vary,
        } => {
            add_condition(alloc, rules, layout, at, test)?;
            add_vary(alloc, rules, layout, at, vary)?;
            Ok(())
        }
    }
}

/// Adds the rules of a statement and of those in it.
#[cycle(statements)]
pub fn add_statement(
    alloc: Global,
    rules: &mut List<RuleInst>,
    layout: &Layout,
    words: &[Word],
    statement: &Statement,
) -> Result<(), Memory>
    requires { IsReady layout.now }
    ensures { OnOk result (rules.new ≡ rules.old ++ spec.statement_rules layout.now words.now statement.now) }
{
    let at = origin_at(words, statement.at);
    add_form(alloc, rules, layout, words, at, &statement.form)?;
    Ok(())
}

#[cycle(statements)]
fn add_form(
    alloc: Global,
    rules: &mut List<RuleInst>,
    layout: &Layout,
    words: &[Word],
    at: Origin,
    form: &Form,
) -> Result<(), Memory>
    requires { IsReady layout.now }
    ensures { OnOk result (rules.new ≡ rules.old ++ spec.form_rules layout.now words.now form.now at) }
{
    match form {
        Form::Move { from, to } => {
            add_move_statement(alloc, rules, layout, at, from, to)?;
            Ok(())
        }
        Form::Compute {
            to,
            rounded: _,
            value,
            rest,
            size,
        } => {
            add_compute(alloc, rules, layout, at, to, value, rest)?;
            add_branch(alloc, rules, layout, words, size)?;
            Ok(())
        }
        Form::If { test, yes, other } => {
            add_condition(alloc, rules, layout, at, test)?;
            add_statements(alloc, rules, layout, words, yes)?;
            add_statements(alloc, rules, layout, words, other)?;
            Ok(())
        }
        Form::NextSentence => Ok(()),
        Form::GoTo { name: _ } => Ok(()),
        Form::Stop => Ok(()),
        Form::Nothing => Ok(()),
        Form::Perform {
            range: _,
            body,
            control,
        } => {
            add_control(alloc, rules, layout, at, control)?;
            add_statements(alloc, rules, layout, words, body)?;
            Ok(())
        }
        Form::Open { mode: _, file: _ } => Ok(()),
        Form::Close { file: _ } => Ok(()),
        Form::Read { file, into, end } => {
            add_into(alloc, rules, layout, at, file, into)?;
            add_branch(alloc, rules, layout, words, end)?;
            Ok(())
        }
        Form::Write {
            name,
            from,
            advance,
        } => {
            add_from(alloc, rules, layout, at, name, from)?;
            add_count(alloc, rules, layout, at, advance)?;
            Ok(())
        }
        Form::Accept { to, from } => {
            add_accept(alloc, rules, layout, at, *from, to)?;
            Ok(())
        }
        Form::Show { operands } => {
            add_operands(alloc, rules, layout, at, operands.items())?;
            Ok(())
        }
    }
}

/// Adds the rules of statements.
#[cycle(statements)]
pub fn add_statements(
    alloc: Global,
    rules: &mut List<RuleInst>,
    layout: &Layout,
    words: &[Word],
    statements: &List<Statement>,
) -> Result<(), Memory>
    requires { IsReady layout.now }
    ensures { OnOk result (rules.new ≡ rules.old ++ spec.statements_rules layout.now words.now statements.now) }
{
    for statement in statements.items() {
        add_statement(alloc, rules, layout, words, statement)?;
    }
    Ok(())
}

#[cycle(statements)]
fn add_branch(
    alloc: Global,
    rules: &mut List<RuleInst>,
    layout: &Layout,
    words: &[Word],
    branch: &Option<Branch>,
) -> Result<(), Memory>
    requires { IsReady layout.now }
    ensures { OnOk result (rules.new ≡ rules.old ++ spec.branch_if layout.now words.now branch.now) }
{
    match branch {
        None => Ok(()),
        Some(branch) => {
            add_statements(alloc, rules, layout, words, &branch.yes)?;
            add_statements(alloc, rules, layout, words, &branch.no)?;
            Ok(())
        }
    }
}

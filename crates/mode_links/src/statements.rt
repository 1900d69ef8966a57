ghost use Rattle.std.specs.Prelude.{◌≡◌, ◌++◌, OnOk, Some};
ghost use Rattle.data_layout.specs.Index.{IsReady};
ghost use Rattle.mode_links.specs.Statements as spec;

use crate::bridges::bridge_between;
use crate::conditions::{add_condition, add_value};
use cobol_syntax::{Branch, Control, Form, Operand, Place, Statement, Sub, Vary};
use data_layout::Layout;
use date_views::{Side, add_sum, side_of};
use statement_rules::{add_copy_if, add_move_if, file_side, operand_side, origin_at, record_side};
use std::alloc::Global;
use y2k_base::{Bytes, List, Memory, Origin, Word};
use year_labels::{Labelling, RuleInst};

/// Adds the link of a move to a receiver with these subscripts, unless the move is bridged.
fn add_moved(
    alloc: Global,
    links: &mut List<RuleInst>,
    labelling: &Labelling,
    at: Origin,
    from: &Option<Side>,
    to: &Option<Side>,
    subs: &[Sub],
) -> Result<(), Memory>
    ensures { OnOk result (links.new ≡ links.old ++ spec.moved labelling.now at from.now to.now subs.now) }
{
    match bridge_between(labelling, from, to, subs)? {
        None => {
            add_move_if(alloc, links, at, from, to)?;
            Ok(())
        }
        Some(_) => Ok(()),
    }
}

fn add_move_statement(
    alloc: Global,
    links: &mut List<RuleInst>,
    labelling: &Labelling,
    layout: &Layout,
    at: Origin,
    from: &Operand,
    to: &Place,
) -> Result<(), Memory>
    requires { IsReady layout.now }
    ensures { OnOk result (links.new ≡ links.old ++ spec.move_links labelling.now layout.now at from.now to.now) }
{
    let sender = operand_side(alloc, layout, from)?;
    let receiver = side_of(alloc, layout, to)?;
    add_moved(
        alloc,
        links,
        labelling,
        at,
        &sender,
        &receiver,
        to.subs.items(),
    )?;
    Ok(())
}

fn add_into(
    alloc: Global,
    links: &mut List<RuleInst>,
    layout: &Layout,
    at: Origin,
    file: &Bytes,
    into: &Option<Place>,
) -> Result<(), Memory>
    requires { IsReady layout.now }
    ensures { OnOk result (links.new ≡ links.old ++ spec.into_links layout.now at file.now into.now) }
{
    match into {
        None => Ok(()),
        Some(place) => {
            let record = file_side(alloc, layout.areas.items(), file.items())?;
            let receiver = side_of(alloc, layout, place)?;
            add_copy_if(alloc, links, at, &record, &receiver)?;
            Ok(())
        }
    }
}

fn add_from(
    alloc: Global,
    links: &mut List<RuleInst>,
    layout: &Layout,
    at: Origin,
    name: &Bytes,
    from: &Option<Operand>,
) -> Result<(), Memory>
    requires { IsReady layout.now }
    ensures { OnOk result (links.new ≡ links.old ++ spec.from_links layout.now at name.now from.now) }
{
    match from {
        None => Ok(()),
        Some(operand) => {
            let sender = operand_side(alloc, layout, operand)?;
            let record = record_side(alloc, layout, name)?;
            add_copy_if(alloc, links, at, &sender, &record)?;
            Ok(())
        }
    }
}

/// Adds the links of VARYING, which moves FROM and adds BY.
fn add_varied(
    alloc: Global,
    links: &mut List<RuleInst>,
    layout: &Layout,
    at: Origin,
    vary: &Vary,
) -> Result<(), Memory>
    requires { IsReady layout.now }
    ensures { OnOk result (links.new ≡ links.old ++ spec.varied layout.now at vary.now) }
{
    let item = side_of(alloc, layout, &vary.item)?;
    let from = operand_side(alloc, layout, &vary.from)?;
    let by = operand_side(alloc, layout, &vary.by)?;
    add_move_if(alloc, links, at, &from, &item)?;
    add_sum(alloc, links, at, &item, &by, &item)?;
    Ok(())
}

fn add_vary(
    alloc: Global,
    links: &mut List<RuleInst>,
    layout: &Layout,
    at: Origin,
    vary: &Option<Vary>,
) -> Result<(), Memory>
    requires { IsReady layout.now }
    ensures { OnOk result (links.new ≡ links.old ++ spec.vary_links layout.now at vary.now) }
{
    match vary {
        None => Ok(()),
        Some(vary) => {
            add_varied(alloc, links, layout, at, vary)?;
            Ok(())
        }
    }
}

fn add_control(
    alloc: Global,
    links: &mut List<RuleInst>,
    layout: &Layout,
    at: Origin,
    control: &Control,
) -> Result<(), Memory>
    requires { IsReady layout.now }
    ensures { OnOk result (links.new ≡ links.old ++ spec.control_links layout.now at control.now) }
{
    match control {
        Control::Once => Ok(()),
        Control::Times(_) => Ok(()),
        Control::Until {
            after: _,
            test,
            vary,
        } => {
            add_condition(alloc, links, layout, at, test)?;
            add_vary(alloc, links, layout, at, vary)?;
            Ok(())
        }
    }
}

#[cycle(statements)]
fn add_statement(
    alloc: Global,
    links: &mut List<RuleInst>,
    labelling: &Labelling,
    layout: &Layout,
    words: &[Word],
    statement: &Statement,
) -> Result<(), Memory>
    requires { IsReady layout.now }
    ensures { OnOk result (links.new ≡ links.old ++ spec.statement_links labelling.now layout.now words.now statement.now) }
{
    let at = origin_at(words, statement.at);
    add_form(alloc, links, labelling, layout, words, at, &statement.form)?;
    Ok(())
}

#[cycle(statements)]
fn add_form(
    alloc: Global,
    links: &mut List<RuleInst>,
    labelling: &Labelling,
    layout: &Layout,
    words: &[Word],
    at: Origin,
    form: &Form,
) -> Result<(), Memory>
    requires { IsReady layout.now }
    ensures { OnOk result (links.new ≡ links.old ++ spec.form_links labelling.now layout.now words.now form.now at) }
{
    match form {
        Form::Move { from, to } => {
            add_move_statement(alloc, links, labelling, layout, at, from, to)?;
            Ok(())
        }
        Form::Compute {
            to,
            rounded: _,
            value,
            rest: _,
            size,
        } => {
            add_value(alloc, links, layout, at, to, value)?;
            add_branch(alloc, links, labelling, layout, words, size)?;
            Ok(())
        }
        Form::If { test, yes, other } => {
            add_condition(alloc, links, layout, at, test)?;
            add_statements(alloc, links, labelling, layout, words, yes)?;
            add_statements(alloc, links, labelling, layout, words, other)?;
            Ok(())
        }
        Form::NextSentence => Ok(()),
        Form::GoTo { name: _ } => Ok(()),
        Form::Stop => Ok(()),
        Form::Nothing => Ok(()),
        Form::Perform {
            range: _,
            body,
            control,
        } => {
            add_control(alloc, links, layout, at, control)?;
            add_statements(alloc, links, labelling, layout, words, body)?;
            Ok(())
        }
        Form::Open { mode: _, file: _ } => Ok(()),
        Form::Close { file: _ } => Ok(()),
        Form::Read { file, into, end } => {
            add_into(alloc, links, layout, at, file, into)?;
            add_branch(alloc, links, labelling, layout, words, end)?;
            Ok(())
        }
        Form::Write {
            name,
            from,
            advance: _,
        } => {
            add_from(alloc, links, layout, at, name, from)?;
            Ok(())
        }
        Form::Accept { to: _, from: _ } => Ok(()),
        Form::Show { operands: _ } => Ok(()),
    }
}

/// Adds the links of statements, and of those in them.
#[cycle(statements)]
pub(crate) fn add_statements(
    alloc: Global,
    links: &mut List<RuleInst>,
    labelling: &Labelling,
    layout: &Layout,
    words: &[Word],
    statements: &List<Statement>,
) -> Result<(), Memory>
    requires { IsReady layout.now }
    ensures { OnOk result (links.new ≡ links.old ++ spec.statements_links labelling.now layout.now words.now statements.now) }
{
    for statement in statements.items() {
        add_statement(alloc, links, labelling, layout, words, statement)?;
    }
    Ok(())
}

#[cycle(statements)]
fn add_branch(
    alloc: Global,
    links: &mut List<RuleInst>,
    labelling: &Labelling,
    layout: &Layout,
    words: &[Word],
    branch: &Option<Branch>,
) -> Result<(), Memory>
    requires { IsReady layout.now }
    ensures { OnOk result (links.new ≡ links.old ++ spec.branch_if labelling.now layout.now words.now branch.now) }
{
    match branch {
        None => Ok(()),
        Some(branch) => {
            add_statements(alloc, links, labelling, layout, words, &branch.yes)?;
            add_statements(alloc, links, labelling, layout, words, &branch.no)?;
            Ok(())
        }
    }
}

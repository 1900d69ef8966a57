ghost use Rattle.std.specs.Prelude.{◌≡◌, ◌++◌, IfOk, OnOk};
ghost use Rattle.data_layout.specs.Index.{IsReady};
ghost use Rattle.statement_rules.specs.Trees.{tree_of};
ghost use Rattle.date_uses.specs.Statements as spec;

use crate::conditions::{add_condition, add_mentions, add_value};
use crate::places::{
    Spot, add_mention, add_mention_if, add_operand_mention, add_operand_mention_if, add_use,
    area_used, operand_used, place_used, record_used, spot_of,
};
use crate::uses::{DateUse, MoveKind, UseForm};
use cobol_syntax::{Branch, Control, Expr, Form, Operand, Place, Register, Statement, Vary};
use data_layout::Layout;
use mode_links::bridge_of;
use statement_rules::file_side;
use std::alloc::Global;
use y2k_base::{Bytes, List, Memory, Word};
use year_labels::Labelling;

fn add_move(
    alloc: Global,
    uses: &mut List<DateUse>,
    labelling: &Labelling,
    layout: &Layout,
    spot: Spot,
    from: &Operand,
    to: &Place,
) -> Result<(), Memory>
    requires { IsReady layout.now }
    ensures { OnOk result (uses.new ≡ uses.old ++ spec.move_uses labelling.now layout.now spot from.now to.now) }
{
    let form = UseForm::Move {
        kind: MoveKind::Statement,
        from: operand_used(alloc, layout, from)?,
        to: place_used(alloc, layout, to)?,
        bridge: bridge_of(alloc, layout, labelling, from, to)?,
    };
    add_use(uses, spot, form)?;
    add_operand_mention(alloc, uses, layout, spot, from)?;
    add_mention(alloc, uses, layout, spot, to)?;
    Ok(())
}

/// Adds the move of a record area to the item of INTO.
fn add_into(
    alloc: Global,
    uses: &mut List<DateUse>,
    layout: &Layout,
    spot: Spot,
    file: &Bytes,
    into: &Option<Place>,
) -> Result<(), Memory>
    requires { IsReady layout.now }
    ensures { OnOk result (uses.new ≡ uses.old ++ spec.into_uses layout.now spot file.now into.now) }
{
    match into {
        None => Ok(()),
        Some(place) => {
            let area = file_side(alloc, layout.areas.items(), file.items())?;
            let form = UseForm::Move {
                kind: MoveKind::Into,
                from: area_used(spot, area),
                to: place_used(alloc, layout, place)?,
                bridge: None,
            };
            add_use(uses, spot, form)?;
            add_mention(alloc, uses, layout, spot, place)?;
            Ok(())
        }
    }
}

/// Adds the move of FROM to a record.
fn add_from(
    alloc: Global,
    uses: &mut List<DateUse>,
    layout: &Layout,
    spot: Spot,
    name: &Bytes,
    from: &Option<Operand>,
) -> Result<(), Memory>
    requires { IsReady layout.now }
    ensures { OnOk result (uses.new ≡ uses.old ++ spec.from_uses layout.now spot name.now from.now) }
{
    match from {
        None => Ok(()),
        Some(operand) => {
            let form = UseForm::Move {
                kind: MoveKind::From,
                from: operand_used(alloc, layout, operand)?,
                to: record_used(alloc, layout, spot, name)?,
                bridge: None,
            };
            add_use(uses, spot, form)?;
            add_operand_mention(alloc, uses, layout, spot, operand)?;
            Ok(())
        }
    }
}

fn add_accept(
    alloc: Global,
    uses: &mut List<DateUse>,
    layout: &Layout,
    spot: Spot,
    to: &Place,
    from: Register,
) -> Result<(), Memory>
    requires { IsReady layout.now }
    ensures { OnOk result (uses.new ≡ uses.old ++ spec.accept_uses layout.now spot to.now from) }
{
    let receiver = place_used(alloc, layout, to)?;
    let form = UseForm::Accept { to: receiver, from };
    add_use(uses, spot, form)?;
    add_mention(alloc, uses, layout, spot, to)?;
    Ok(())
}

/// Adds the places of a computation; `rest` is the item of REMAINDER.
fn add_computed(
    alloc: Global,
    uses: &mut List<DateUse>,
    layout: &Layout,
    spot: Spot,
    to: &Place,
    rest: &Option<Place>,
    value: &Expr,
) -> Result<(), Memory>
    requires { IsReady layout.now }
    ensures { OnOk result (uses.new ≡ uses.old ++ spec.compute_mentions layout.now spot to.now rest.now (tree_of value.now)) }
{
    add_mention(alloc, uses, layout, spot, to)?;
    add_mention_if(alloc, uses, layout, spot, rest)?;
    add_mentions(alloc, uses, layout, spot, value)?;
    Ok(())
}

/// The move of FROM to the item of VARYING.
fn varying_move(alloc: Global, layout: &Layout, vary: &Vary) -> Result<UseForm, Memory>
    requires { IsReady layout.now }
    ensures { IfOk result (λ form. form ≡ spec.varying_move layout.now vary.now) }
{
    Ok(UseForm::Move {
        kind: MoveKind::Varying,
        from: operand_used(alloc, layout, &vary.from)?,
        to: place_used(alloc, layout, &vary.item)?,
        bridge: None,
    })
}

/// The sum by which the item of VARYING gets its next value.
fn varying_sum(alloc: Global, layout: &Layout, vary: &Vary) -> Result<UseForm, Memory>
    requires { IsReady layout.now }
    ensures { IfOk result (λ form. form ≡ spec.varying_sum layout.now vary.now) }
{
    Ok(UseForm::Sum {
        to: place_used(alloc, layout, &vary.item)?,
        left: place_used(alloc, layout, &vary.item)?,
        right: operand_used(alloc, layout, &vary.by)?,
        size: false,
    })
}

fn add_varied(
    alloc: Global,
    uses: &mut List<DateUse>,
    layout: &Layout,
    spot: Spot,
    vary: &Vary,
) -> Result<(), Memory>
    requires { IsReady layout.now }
    ensures { OnOk result (uses.new ≡ uses.old ++ spec.varied layout.now spot vary.now) }
{
    let moved = varying_move(alloc, layout, vary)?;
    add_use(uses, spot, moved)?;
    let sum = varying_sum(alloc, layout, vary)?;
    add_use(uses, spot, sum)?;
    add_mention(alloc, uses, layout, spot, &vary.item)?;
    add_operand_mention(alloc, uses, layout, spot, &vary.from)?;
    add_operand_mention(alloc, uses, layout, spot, &vary.by)?;
    Ok(())
}

fn add_vary(
    alloc: Global,
    uses: &mut List<DateUse>,
    layout: &Layout,
    spot: Spot,
    vary: &Option<Vary>,
) -> Result<(), Memory>
    requires { IsReady layout.now }
    ensures { OnOk result (uses.new ≡ uses.old ++ spec.vary_uses layout.now spot vary.now) }
{
    match vary {
        None => Ok(()),
        Some(vary) => {
            add_varied(alloc, uses, layout, spot, vary)?;
            Ok(())
        }
    }
}

fn add_control(
    alloc: Global,
    uses: &mut List<DateUse>,
    layout: &Layout,
    spot: Spot,
    control: &Control,
) -> Result<(), Memory>
    requires { IsReady layout.now }
    ensures { OnOk result (uses.new ≡ uses.old ++ spec.control_uses layout.now spot control.now) }
{
    match control {
        Control::Once => Ok(()),
        Control::Times(count) => {
            add_operand_mention(alloc, uses, layout, spot, count)?;
            Ok(())
        }
        Control::Until {
            after: _,
            test,
            vary,
        } => {
            add_condition(alloc, uses, layout, spot, test)?;
            add_vary(alloc, uses, layout, spot, vary)?;
            Ok(())
        }
    }
}

fn add_operands(
    alloc: Global,
    uses: &mut List<DateUse>,
    layout: &Layout,
    spot: Spot,
    operands: &[Operand],
) -> Result<(), Memory>
    requires { IsReady layout.now }
    ensures { OnOk result (uses.new ≡ uses.old ++ spec.operands_mentions layout.now spot operands.now) }
{
    let mut rest = operands;
    while let [operand, more @ ..] = rest {
        add_operand_mention(alloc, uses, layout, spot, operand)?;
        rest = more;
    }
    Ok(())
}

#[cycle(statements)]
fn add_statement(
    alloc: Global,
    uses: &mut List<DateUse>,
    labelling: &Labelling,
    layout: &Layout,
    program: u32,
    words: &[Word],
    statement: &Statement,
) -> Result<(), Memory>
    requires { IsReady layout.now }
    ensures { OnOk result (uses.new ≡ uses.old ++ spec.statement_uses labelling.now layout.now program words.now statement.now) }
{
    let spot = spot_of(program, words, statement.at);
    add_form(alloc, uses, labelling, layout, words, spot, &statement.form)?;
    Ok(())
}

#[cycle(statements)]
fn add_form(
    alloc: Global,
    uses: &mut List<DateUse>,
    labelling: &Labelling,
    layout: &Layout,
    words: &[Word],
    spot: Spot,
    form: &Form,
) -> Result<(), Memory>
    requires { IsReady layout.now }
    ensures { OnOk result (uses.new ≡ uses.old ++ spec.form_uses labelling.now layout.now spot.program words.now form.now spot) }
{
    match form {
        Form::Move { from, to } => {
            add_move(alloc, uses, labelling, layout, spot, from, to)?;
            Ok(())
        }
        Form::Compute {
            to,
            rounded: _,
            value,
            rest,
            size,
        } => {
            add_value(alloc, uses, layout, spot, to, size.is_some(), value)?;
            add_computed(alloc, uses, layout, spot, to, rest, value)?;
            add_branch(alloc, uses, labelling, layout, spot.program, words, size)?;
            Ok(())
        }
        Form::If { test, yes, other } => {
            add_condition(alloc, uses, layout, spot, test)?;
            add_statements(alloc, uses, labelling, layout, spot.program, words, yes)?;
            add_statements(alloc, uses, labelling, layout, spot.program, words, other)?;
            Ok(())
        }
        Form::NextSentence => Ok(()),
        Form::GoTo { name: _ } => Ok(()),
        Form::Stop => Ok(()),
        Form::Nothing => Ok(()),
        Form::Perform {
            range: _,
            body,
            control,
        } => {
            add_control(alloc, uses, layout, spot, control)?;
            add_statements(alloc, uses, labelling, layout, spot.program, words, body)?;
            Ok(())
        }
        Form::Open { mode: _, file: _ } => Ok(()),
        Form::Close { file: _ } => Ok(()),
        Form::Read { file, into, end } => {
            add_into(alloc, uses, layout, spot, file, into)?;
            add_branch(alloc, uses, labelling, layout, spot.program, words, end)?;
            Ok(())
        }
        Form::Write {
            name,
            from,
            advance,
        } => {
            add_from(alloc, uses, layout, spot, name, from)?;
            add_operand_mention_if(alloc, uses, layout, spot, advance)?;
            Ok(())
        }
        Form::Accept { to, from } => {
            add_accept(alloc, uses, layout, spot, to, *from)?;
            Ok(())
        }
        Form::Show { operands } => {
            add_operands(alloc, uses, layout, spot, operands.items())?;
            Ok(())
        }
    }
}

/// Adds the uses of statements, and of those in them.
#[cycle(statements)]
pub(crate) fn add_statements(
    alloc: Global,
    uses: &mut List<DateUse>,
    labelling: &Labelling,
    layout: &Layout,
    program: u32,
    words: &[Word],
    statements: &List<Statement>,
) -> Result<(), Memory>
    requires { IsReady layout.now }
    ensures { OnOk result (uses.new ≡ uses.old ++ spec.statements_uses labelling.now layout.now program words.now statements.now) }
{
    for statement in statements.items() {
        add_statement(alloc, uses, labelling, layout, program, words, statement)?;
    }
    Ok(())
}

#[cycle(statements)]
fn add_branch(
    alloc: Global,
    uses: &mut List<DateUse>,
    labelling: &Labelling,
    layout: &Layout,
    program: u32,
    words: &[Word],
    branch: &Option<Branch>,
) -> Result<(), Memory>
    requires { IsReady layout.now }
    ensures { OnOk result (uses.new ≡ uses.old ++ spec.branch_if labelling.now layout.now program words.now branch.now) }
{
    match branch {
        None => Ok(()),
        Some(branch) => {
            add_statements(alloc, uses, labelling, layout, program, words, &branch.yes)?;
            add_statements(alloc, uses, labelling, layout, program, words, &branch.no)?;
            Ok(())
        }
    }
}

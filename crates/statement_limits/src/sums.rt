ghost use Rattle.std.specs.Prelude.{◌≡◌, ◌++◌, ◌||◌, not, IfOk, OnOk, slice_get, MatchOption, Some, None};
ghost use Rattle.date_views.specs.Sums as sums;
ghost use Rattle.statement_limits.specs.Roles as roles;
ghost use Rattle.statement_limits.specs.Sums as spec;

use crate::places::either;
use crate::roles::{is_plain, is_year};
use cobol_syntax::Usage;
use date_uses::Used;
use date_views::{Field, Side};
use decimal_bytes::NumForm;
use operand_kinds::Kind;
use plan_limits::{Limit, LimitKind, add_word_limit};
use std::alloc::Global;
use y2k_base::{List, Memory, Origin, Word};
use year_labels::Labelling;

fn may_show_years(usage: Usage, form: NumForm) -> bool
    ensures { result ≡ sums.may_show_years usage form }
{
    match usage {
        Usage::Display => !form.signed,
        Usage::Packed => true,
        Usage::Binary => false,
    }
}

/// Whether it takes part in a sum as it is: an integer of two digits, unsigned DISPLAY or packed.
fn takes_part(kind: Kind) -> bool
    ensures { result ≡ sums.takes_part kind }
{
    match kind {
        Kind::Group => false,
        Kind::Text => false,
        Kind::Edited { form: _ } => false,
        Kind::Number { usage, form } => {
            (form.digits == 2 && form.scale == 0) && may_show_years(usage, form)
        }
    }
}

fn is_year_field(labelling: &Labelling, field: &Field) -> Result<bool, Memory>
    ensures { IfOk result (λ is. is ≡ roles.is_year labelling.now (sums.field_part field.now)) }
{
    if takes_part(field.kind) {
        let is = is_year(labelling, &field.view)?;
        Ok(is)
    } else {
        Ok(false)
    }
}

fn is_decided(labelling: &Labelling, field: &Field) -> Result<bool, Memory>
    ensures { IfOk result (λ is. is ≡ (roles.is_year labelling.now field.now.view || roles.is_plain labelling.now field.now.view)) }
{
    let year = is_year(labelling, &field.view)?;
    let plain = is_plain(labelling, &field.view)?;
    Ok(either(year, plain))
}

fn is_undecided_field(labelling: &Labelling, field: &Field) -> Result<bool, Memory>
    ensures { IfOk result (λ is. is ≡ not (roles.is_year labelling.now (sums.field_part field.now) || roles.is_plain labelling.now (sums.field_part field.now))) }
{
    if takes_part(field.kind) {
        let decided = is_decided(labelling, field)?;
        Ok(!decided)
    } else {
        Ok(false)
    }
}

/// Whether an operand is a year, as it takes part.
fn is_year_side(labelling: &Labelling, side: &Option<Side>) -> Result<bool, Memory>
    ensures { IfOk result (λ is. is ≡ spec.is_year_operand labelling.now side.now) }
{
    match side {
        None => Ok(false),
        Some(Side::Known(field)) => {
            let is = is_year_field(labelling, field)?;
            Ok(is)
        }
        Some(Side::Moving { most: _ }) => Ok(false),
    }
}

/// Whether an operand is neither a year nor plain, as it takes part.
fn is_undecided(labelling: &Labelling, side: &Option<Side>) -> Result<bool, Memory>
    ensures { IfOk result (λ is. is ≡ spec.is_undecided labelling.now side.now) }
{
    match side {
        None => Ok(false),
        Some(Side::Known(field)) => {
            let is = is_undecided_field(labelling, field)?;
            Ok(is)
        }
        Some(Side::Moving { most: _ }) => Ok(false),
    }
}

fn is_year_operand(labelling: &Labelling, used: &Used) -> Result<bool, Memory>
    ensures { IfOk result (λ is. is ≡ spec.is_year_operand labelling.now (spec.operand_side used.now)) }
{
    match used {
        Used::Place(place) => {
            let is = is_year_side(labelling, &place.side)?;
            Ok(is)
        }
        Used::Number {
            value: _,
            digits: _,
            at: _,
        } => Ok(false),
        Used::Text { bytes: _, at: _ } => Ok(false),
        Used::Figure { byte: _, at: _ } => Ok(false),
    }
}

fn has_year(labelling: &Labelling, to: &Used, left: &Used, right: &Used) -> Result<bool, Memory>
    ensures { IfOk result (λ has. has ≡ spec.has_year labelling.now to.now left.now right.now) }
{
    let first = is_year_operand(labelling, to)?;
    let second = is_year_operand(labelling, left)?;
    let third = is_year_operand(labelling, right)?;
    Ok(either(first, either(second, third)))
}

fn word_at<'a>(words: &'a [Word], position: u32) -> Option<&'a Word>
    ensures { MatchOption result (slice_get words.now position ≡ None) (λ word. slice_get words.now position ≡ Some word.now) }
{
    words.get(position as usize)
}

fn add_named(
    alloc: Global,
    limits: &mut List<Limit>,
    words: &[Word],
    at: Origin,
    position: u32,
) -> Result<(), Memory>
    ensures { OnOk result (limits.new ≡ limits.old ++ spec.named at (slice_get words.now position)) }
{
    match word_at(words, position) {
        None => Ok(()),
        Some(word) => {
            add_word_limit(alloc, limits, LimitKind::Undecided, at, word.text.items())?;
            Ok(())
        }
    }
}

fn add_operand_limits(
    alloc: Global,
    limits: &mut List<Limit>,
    labelling: &Labelling,
    words: &[Word],
    at: Origin,
    used: &Used,
) -> Result<(), Memory>
    ensures { OnOk result (limits.new ≡ limits.old ++ spec.operand_limits labelling.now words.now at used.now) }
{
    match used {
        Used::Place(place) => {
            if is_undecided(labelling, &place.side)? {
                add_named(alloc, limits, words, at, place.at)?;
                Ok(())
            } else {
                Ok(())
            }
        }
        Used::Number {
            value: _,
            digits: _,
            at: _,
        } => Ok(()),
        Used::Text { bytes: _, at: _ } => Ok(()),
        Used::Figure { byte: _, at: _ } => Ok(()),
    }
}

fn add_all_operands(
    alloc: Global,
    limits: &mut List<Limit>,
    labelling: &Labelling,
    words: &[Word],
    at: Origin,
    to: &Used,
    left: &Used,
    right: &Used,
) -> Result<(), Memory>
    ensures { OnOk result (limits.new ≡ limits.old ++ spec.all_operands labelling.now words.now at to.now left.now right.now) }
{
    add_operand_limits(alloc, limits, labelling, words, at, to)?;
    add_operand_limits(alloc, limits, labelling, words, at, left)?;
    add_operand_limits(alloc, limits, labelling, words, at, right)?;
    Ok(())
}

/// Adds the operands of a sum or a difference that are neither a year nor plain, where another one is a year.
pub(crate) fn add_sum_limits(
    alloc: Global,
    limits: &mut List<Limit>,
    labelling: &Labelling,
    words: &[Word],
    at: Origin,
    to: &Used,
    left: &Used,
    right: &Used,
) -> Result<(), Memory>
    ensures { OnOk result (limits.new ≡ limits.old ++ spec.sum_limits labelling.now words.now at to.now left.now right.now) }
{
    if has_year(labelling, to, left, right)? {
        add_all_operands(alloc, limits, labelling, words, at, to, left, right)?;
        Ok(())
    } else {
        Ok(())
    }
}

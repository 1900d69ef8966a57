ghost use Rattle.std.specs.Prelude.{◌≡◌, ◌++◌, OnOk};
ghost use Rattle.statement_limits.specs.Cuts as spec;

use crate::places::place_in;
use date_uses::Used;
use date_views::Side;
use plan_limits::{Limit, LimitKind, add_place_limit};
use window_modes::YearMode;
use y2k_base::{List, Memory, Origin, Span};
use year_index::YearIndex;

fn add_split(limits: &mut List<Limit>, at: Origin, mode: Option<YearMode>) -> Result<(), Memory>
    ensures { OnOk result (limits.new ≡ limits.old ++ spec.split at mode) }
{
    match mode {
        None => Ok(()),
        Some(mode) => {
            add_place_limit(limits, LimitKind::SplitYear, at, mode.year.place)?;
            Ok(())
        }
    }
}

fn add_split_span(
    limits: &mut List<Limit>,
    index: &YearIndex,
    at: Origin,
    span: Span,
) -> Result<(), Memory>
    ensures { OnOk result (limits.new ≡ limits.old ++ spec.split_span index.now at span) }
{
    let first = place_in(span, 0)?;
    let behind = place_in(span, span.length)?;
    add_split(limits, at, index.year_across(first))?;
    add_split(limits, at, index.year_across(behind))?;
    Ok(())
}

fn add_split_side(
    limits: &mut List<Limit>,
    index: &YearIndex,
    at: Origin,
    side: &Option<Side>,
) -> Result<(), Memory>
    ensures { OnOk result (limits.new ≡ limits.old ++ spec.split_side index.now at side.now) }
{
    match side {
        None => Ok(()),
        Some(Side::Known(field)) => {
            add_split_span(limits, index, at, field.span)?;
            Ok(())
        }
        Some(Side::Moving { most: _ }) => Ok(()),
    }
}

/// Adds the years that a place parts, if it is a reference whose bounds are numbers.
pub(crate) fn add_split_limits(
    limits: &mut List<Limit>,
    index: &YearIndex,
    at: Origin,
    used: &Used,
) -> Result<(), Memory>
    ensures { OnOk result (limits.new ≡ limits.old ++ spec.split_limits index.now at used.now) }
{
    match used {
        Used::Place(place) => {
            if place.cut {
                add_split_side(limits, index, at, &place.side)?;
                Ok(())
            } else {
                Ok(())
            }
        }
        Used::Number {
            value: _,
            digits: _,
            at: _,
        } => Ok(()),
        Used::Text { bytes: _, at: _ } => Ok(()),
        Used::Figure { byte: _, at: _ } => Ok(()),
    }
}

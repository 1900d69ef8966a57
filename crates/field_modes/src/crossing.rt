ghost use Rattle.std.specs.Prelude.{◌≡◌, map, IfOk};
ghost use Rattle.data_layout.specs.Index.{IsReady};
ghost use Rattle.statement_places.specs.Parts.{seen};
ghost use Rattle.field_modes.specs.Crossings as spec;

use cobol_syntax::{Operand, Place};
use convert_plan::Plan;
use data_layout::Layout;
use date_uses::operand_used;
use generated_areas::{is_unlike, is_windowed, used_digits};
use mode_links::{Bridge, bridge_of};
use statement_places::Part;
use std::alloc::Global;
use window_modes::YearMode;
use y2k_base::Memory;
use year_index::YearIndex;
use year_pairs::Year;

/// A bridged move between a year in a window and one with its century: the integer digits of its sender, the pivot of the
/// window, and whether the sender has the window.
#[derive(Clone, Copy, Debug, PartialEq, Eq)]
pub(crate) struct Crossing {
    pub(crate) digits: u8,
    pub(crate) pivot: u8,
    pub(crate) windowed: bool,
}

fn pivot_in(mode: Option<YearMode>) -> u8 {
    match mode {
        None => 0,
        Some(mode) => mode.pivot.unwrap_or(0),
    }
}

/// The pivot of a year; 0 where it is in no window.
fn pivot_of(index: &YearIndex, year: Year) -> u8 {
    pivot_in(index.year_at(year.place))
}

fn crossing_by(index: &YearIndex, digits: u8, bridge: Bridge) -> Crossing {
    if is_windowed(index, bridge.sent) {
        Crossing {
            digits,
            pivot: pivot_of(index, bridge.sent),
            windowed: true,
        }
    } else {
        Crossing {
            digits,
            pivot: pivot_of(index, bridge.received),
            windowed: false,
        }
    }
}

fn crossing_over(index: &YearIndex, digits: u8, bridge: Option<Bridge>) -> Option<Crossing> {
    match bridge {
        None => None,
        Some(bridge) => {
            if is_unlike(index, bridge) {
                Some(crossing_by(index, digits, bridge))
            } else {
                None
            }
        }
    }
}

/// How a MOVE crosses, if it does.
fn move_crossing(
    alloc: Global,
    plan: &Plan,
    layout: &Layout,
    from: &Operand,
    to: &Place,
) -> Result<Option<Crossing>, Memory>
    requires { IsReady layout.now }
{
    let bridge = bridge_of(alloc, layout, plan.labelling(), from, to)?;
    let used = operand_used(alloc, layout, from)?;
    Ok(crossing_over(plan.index(), used_digits(&used), bridge))
}

/// How a part crosses, if it is a MOVE that does.
pub(crate) fn part_crossing(
    alloc: Global,
    plan: &Plan,
    layout: &Layout,
    part: Part,
) -> Result<Option<Crossing>, Memory>
    requires { IsReady layout.now }
{
    match part {
        Part::Move { from, to, .. } => {
            let crossing = move_crossing(alloc, plan, layout, from, to)?;
            Ok(crossing)
        }
        Part::Compute { .. } => Ok(None),
        Part::Accept { .. } => Ok(None),
        Part::Test { of: _ } => Ok(None),
    }
}

fn crosses(alloc: Global, plan: &Plan, layout: &Layout, part: Part) -> Result<bool, Memory>
    requires { IsReady layout.now }
{
    let crossing = part_crossing(alloc, plan, layout, part)?;
    Ok(crossing.is_some())
}

/// Whether one of the parts crosses.
pub(crate) fn any_crosses(
    alloc: Global,
    plan: &Plan,
    layout: &Layout,
    parts: &[Part],
) -> Result<bool, Memory>
    requires { IsReady layout.now }
{
    let mut rest = parts;
    while let [part, more @ ..] = rest {
        if crosses(alloc, plan, layout, *part)? {
            return Ok(true);
        }
        rest = more;
    }
    Ok(false)
}

ghost use Rattle.std.specs.Prelude.{◌≡◌, ◌++◌, OnOk};
ghost use Rattle.generated_areas.specs.Bridged as spec;

use date_uses::{UseForm, Used};
use date_views::Side;
use mode_links::Bridge;
use std::alloc::Global;
use window_modes::YearMode;
use y2k_base::{List, Memory};
use year_index::YearIndex;
use year_pairs::Year;

/// A bridged move whose two years have unlike modes: the integer digits of its sender, and whether the sender is windowed.
#[derive(Clone, Copy, Debug, PartialEq, Eq)]
pub(crate) struct BridgedMove {
    pub(crate) digits: u8,
    pub(crate) windowed: bool,
}

fn has_pivot(mode: Option<YearMode>) -> bool
    ensures { result ≡ spec.has_pivot mode }
{
    match mode {
        None => false,
        Some(mode) => mode.pivot.is_some(),
    }
}

/// Whether the year stays in a window.
pub fn is_windowed(index: &YearIndex, year: Year) -> bool
    ensures { result ≡ spec.is_windowed index.now year }
{
    has_pivot(index.year_at(year.place))
}

/// Whether one of the two years is windowed, and the other gets its century.
pub fn is_unlike(index: &YearIndex, bridge: Bridge) -> bool
    ensures { result ≡ spec.is_unlike index.now bridge }
{
    if is_windowed(index, bridge.sent) {
        !is_windowed(index, bridge.received)
    } else {
        is_windowed(index, bridge.received)
    }
}

fn side_digits(side: &Option<Side>) -> u8
    ensures { result ≡ spec.side_digits side.now }
{
    match side {
        None => 0,
        Some(Side::Known(field)) => field.digits,
        Some(Side::Moving { most: _ }) => 0,
    }
}

/// The integer digits of a sender.
pub fn used_digits(from: &Used) -> u8
    ensures { result ≡ spec.used_digits from.now }
{
    match from {
        Used::Place(place) => side_digits(&place.side),
        Used::Number { .. } => 0,
        Used::Text { .. } => 0,
        Used::Figure { .. } => 0,
    }
}

fn add_bridged_over(
    moves: &mut List<BridgedMove>,
    index: &YearIndex,
    from: &Used,
    bridge: Option<Bridge>,
) -> Result<(), Memory>
    ensures { OnOk result (moves.new ≡ moves.old ++ spec.bridged_over index.now from.now bridge) }
{
    match bridge {
        None => Ok(()),
        Some(bridge) => {
            if is_unlike(index, bridge) {
                moves.push(BridgedMove {
                    digits: used_digits(from),
                    windowed: is_windowed(index, bridge.sent),
                })?;
                Ok(())
            } else {
                Ok(())
            }
        }
    }
}

/// Adds the use where it is such a move.
pub(crate) fn add_bridged(
    moves: &mut List<BridgedMove>,
    index: &YearIndex,
    form: &UseForm,
) -> Result<(), Memory>
    ensures { OnOk result (moves.new ≡ moves.old ++ spec.bridged_in index.now form.now) }
{
    match form {
        UseForm::Move {
            kind: _,
            from,
            to: _,
            bridge,
        } => {
            add_bridged_over(moves, index, from, *bridge)?;
            Ok(())
        }
        UseForm::Accept { .. } => Ok(()),
        UseForm::Compare { .. } => Ok(()),
        UseForm::Class { .. } => Ok(()),
        UseForm::Sum { .. } => Ok(()),
        UseForm::Difference { .. } => Ok(()),
        UseForm::Value { .. } => Ok(()),
        UseForm::Range { .. } => Ok(()),
        UseForm::Mention { .. } => Ok(()),
    }
}

ghost use Rattle.std.specs.Prelude.{◌≡◌, ◌++◌, ◌∷◌, [], IfOk, OnOk};
ghost use Rattle.data_layout.specs.Index.{IsReady};
ghost use Rattle.date_uses.specs.Places as spec;

use crate::uses::{DateUse, UseForm, Used, UsedPlace};
use cobol_syntax::{Operand, Place};
use data_layout::{Found, Item, Layout};
use date_views::{Side, side_of, whole_side};
use statement_rules::{origin_at, record_side};
use std::alloc::Global;
use y2k_base::{Bytes, List, Memory, Origin, Twin, Word};

/// Where uses stand: a word by its position in the words of a program, and its place in the texts.
#[derive(Clone, Copy, Debug, PartialEq, Eq)]
pub(crate) struct Spot {
    pub program: u32,
    pub word: u32,
    pub at: Origin,
}

pub(crate) fn spot_of(program: u32, words: &[Word], word: u32) -> Spot
    ensures { result ≡ spec.spot_of program words.now word }
{
    Spot {
        program,
        word,
        at: origin_at(words, word),
    }
}

pub(crate) fn add_use(uses: &mut List<DateUse>, spot: Spot, form: UseForm) -> Result<(), Memory>
    ensures { OnOk result (uses.new ≡ uses.old ++ spec.use_at spot form ∷ []) }
{
    uses.push(DateUse {
        program: spot.program,
        at: spot.at,
        form,
    })?;
    Ok(())
}

fn number_found(found: Found) -> Option<u32>
    ensures { result ≡ spec.number_found found }
{
    match found {
        Found::Item(number) => Some(number),
        Found::Named(_) => None,
        Found::Unknown => None,
        Found::Twice => None,
    }
}

/// A place as it is written, as uses have it. The layout is that of its program.
pub fn place_used(alloc: Global, layout: &Layout, place: &Place) -> Result<Used, Memory>
    requires { IsReady layout.now }
    ensures { IfOk result (λ used. used ≡ spec.place_used layout.now place.now) }
{
    let side = side_of(alloc, layout, place)?;
    Ok(Used::Place(UsedPlace {
        side,
        item: number_found(layout.find(place.names.items())),
        cut: place.cut.is_some(),
        at: place.at,
    }))
}

/// An operand as it is written, as uses have it. The layout is that of its program.
pub fn operand_used(alloc: Global, layout: &Layout, operand: &Operand) -> Result<Used, Memory>
    requires { IsReady layout.now }
    ensures { IfOk result (λ used. used ≡ spec.operand_used layout.now operand.now) }
{
    match operand {
        Operand::Place(place) => {
            let used = place_used(alloc, layout, place)?;
            Ok(used)
        }
        Operand::Number { value, digits, at } => Ok(Used::Number {
            value: *value,
            digits: *digits,
            at: *at,
        }),
        Operand::Text { bytes, at } => Ok(Used::Text {
            bytes: bytes.twin(alloc)?,
            at: *at,
        }),
        Operand::Figure { byte, at } => Ok(Used::Figure {
            byte: *byte,
            at: *at,
        }),
    }
}

pub(crate) fn operand_used_if(
    alloc: Global,
    layout: &Layout,
    operand: &Option<Operand>,
) -> Result<Option<Used>, Memory>
    requires { IsReady layout.now }
    ensures { IfOk result (λ used. used ≡ spec.operand_used_if layout.now operand.now) }
{
    match operand {
        None => Ok(None),
        Some(operand) => {
            let used = operand_used(alloc, layout, operand)?;
            Ok(Some(used))
        }
    }
}

/// A whole item, at its entry.
pub(crate) fn item_used(alloc: Global, number: u32, item: &Item) -> Result<Used, Memory>
    ensures { IfOk result (λ used. used ≡ spec.item_used number item.now) }
{
    let side = whole_side(alloc, item)?;
    Ok(Used::Place(UsedPlace {
        side,
        item: Some(number),
        cut: false,
        at: item.entry_at,
    }))
}

/// A record area.
pub(crate) fn area_used(spot: Spot, side: Option<Side>) -> Used
    ensures { result ≡ spec.area_used spot side }
{
    Used::Place(UsedPlace {
        side,
        item: None,
        cut: false,
        at: spot.word,
    })
}

/// The record that WRITE names, as a group.
pub(crate) fn record_used(
    alloc: Global,
    layout: &Layout,
    spot: Spot,
    name: &Bytes,
) -> Result<Used, Memory>
    requires { IsReady layout.now }
    ensures { IfOk result (λ used. used ≡ spec.record_used layout.now spot name.now) }
{
    let side = record_side(alloc, layout, name)?;
    let mut names = List::new(alloc);
    names.push(name.twin(alloc)?)?;
    Ok(Used::Place(UsedPlace {
        side,
        item: number_found(layout.find(names.items())),
        cut: false,
        at: spot.word,
    }))
}

pub(crate) fn add_mention(
    alloc: Global,
    uses: &mut List<DateUse>,
    layout: &Layout,
    spot: Spot,
    place: &Place,
) -> Result<(), Memory>
    requires { IsReady layout.now }
    ensures { OnOk result (uses.new ≡ uses.old ++ spec.mention layout.now spot place.now) }
{
    let of = place_used(alloc, layout, place)?;
    add_use(uses, spot, UseForm::Mention { of })?;
    Ok(())
}

pub(crate) fn add_mention_if(
    alloc: Global,
    uses: &mut List<DateUse>,
    layout: &Layout,
    spot: Spot,
    place: &Option<Place>,
) -> Result<(), Memory>
    requires { IsReady layout.now }
    ensures { OnOk result (uses.new ≡ uses.old ++ spec.mention_if layout.now spot place.now) }
{
    match place {
        None => Ok(()),
        Some(place) => {
            add_mention(alloc, uses, layout, spot, place)?;
            Ok(())
        }
    }
}

/// Adds the place that an operand is; a literal is none.
pub(crate) fn add_operand_mention(
    alloc: Global,
    uses: &mut List<DateUse>,
    layout: &Layout,
    spot: Spot,
    operand: &Operand,
) -> Result<(), Memory>
    requires { IsReady layout.now }
    ensures { OnOk result (uses.new ≡ uses.old ++ spec.operand_mention layout.now spot operand.now) }
{
    match operand {
        Operand::Place(place) => {
            add_mention(alloc, uses, layout, spot, place)?;
            Ok(())
        }
        Operand::Number {
            value: _,
            digits: _,
            at: _,
        } => Ok(()),
        Operand::Text { bytes: _, at: _ } => Ok(()),
        Operand::Figure { byte: _, at: _ } => Ok(()),
    }
}

pub(crate) fn add_operand_mention_if(
    alloc: Global,
    uses: &mut List<DateUse>,
    layout: &Layout,
    spot: Spot,
    operand: &Option<Operand>,
) -> Result<(), Memory>
    requires { IsReady layout.now }
    ensures { OnOk result (uses.new ≡ uses.old ++ spec.operand_mention_if layout.now spot operand.now) }
{
    match operand {
        None => Ok(()),
        Some(operand) => {
            add_operand_mention(alloc, uses, layout, spot, operand)?;
            Ok(())
        }
    }
}

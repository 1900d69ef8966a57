ghost use Rattle.std.specs.Prelude.{◌≡◌, ◌+◌, IfOk, slice_get, nat_le};
ghost use Rattle.data_layout.specs.Index.{IsReady};
ghost use Rattle.date_views.specs.Views as views;
ghost use Rattle.date_views.specs.Sides as spec;
ghost use Rattle.operand_kinds.specs.declared.reach.Reach.TheVariants as reaches;

use crate::view::{digits_of, is_placed, runs_of, view_of};
use cobol_syntax::Place;
use data_layout::{Item, Layout};
use operand_kinds::{Kind, Reach, Seen, kind_of_item, see};
use std::alloc::Global;
use y2k_base::{List, Memory, Run, Span};
use year_labels::View;

/// An item, or a part of it whose bounds are written as numbers. Of a table it is the first occurrence.
#[derive(Debug)]
pub struct Field {
    pub kind: Kind,
    /// Its bytes.
    pub span: Span,
    /// How many integer digits it has as a number; a group has none.
    pub digits: u8,
    /// Which byte holds which of its digits.
    pub view: View,
}

/// A side of a move, a comparison or a sum. `Moving` is a reference whose start or length a data name gives: a text
/// of at most so many bytes that may stand anywhere in its item.
#[derive(Debug)]
pub enum Side {
    Known(Field),
    Moving { most: u32 },
}

impl Drop for Field {
    fn drop(self) {
        let Field {
            kind: _,
            span: _,
            digits: _,
            view: _view,
        } = self;
    }
}

impl Drop for Side {
    fn drop(self) {
        match self {
            Side::Known(_field) => {}
            Side::Moving { most: _ } => {}
        }
    }
}

impl Side {
    /// What it is; a reference is a text.
    pub fn kind(&self) -> Kind
        ensures { result ≡ spec.kind_of self.now }
    {
        match self {
            Side::Known(field) => field.kind,
            Side::Moving { most: _ } => Kind::Text,
        }
    }
}

/// The side that a place is, or `None` where its name doesn't mean one item or its part leaves the item.
pub fn side_of(alloc: Global, layout: &Layout, place: &Place) -> Result<Option<Side>, Memory>
    requires { IsReady layout.now }
    ensures { IfOk result (λ side. side ≡ spec.side_of layout.now place.now) }
{
    match see(layout, place) {
        None => Ok(None),
        Some(seen) => {
            let side = side_seen(alloc, layout, seen)?;
            Ok(side)
        }
    }
}

fn side_seen(alloc: Global, layout: &Layout, seen: Seen) -> Result<Option<Side>, Memory>
    ensures { IfOk result (λ side. side ≡ spec.side_in seen.kind seen.reach (slice_get layout.now.items seen.item)) }
{
    match layout.items.items().get(seen.item as usize) {
        None => Ok(None),
        Some(item) => {
            let side = side_at(alloc, seen.kind, item, seen.reach)?;
            Ok(side)
        }
    }
}

fn side_at(alloc: Global, kind: Kind, item: &Item, reach: Reach) -> Result<Option<Side>, Memory>
    ensures { IfOk result (λ side. side ≡ spec.side_at kind (views.runs_of item.now.picture) item.now.span reach) }
{
    match reach {
        Reach::Fixed { start, length } => {
            let runs = runs_of(&item.picture);
            let side = side_within(alloc, kind, runs, item.span, start, length)?;
            Ok(side)
        }
        Reach::Moving { length } => Ok(Some(Side::Moving { most: length })),
        Reach::Open { most } => Ok(Some(Side::Moving { most })),
    }
}

fn side_within(
    alloc: Global,
    kind: Kind,
    runs: &[Run],
    span: Span,
    start: u32,
    length: u32,
) -> Result<Option<Side>, Memory>
    ensures { IfOk result (λ side. side ≡ spec.side_at kind runs.now span (reaches.Fixed start length)) }
{
    if !is_placed(span) || !reaches_within(start, length, span.length) {
        return Ok(None);
    }
    match span.offset.checked_add(start) {
        None => Err(Memory),
        Some(offset) => {
            let part = Span {
                area: span.area,
                offset,
                length,
            };
            let field = field_of(alloc, kind, runs, part)?;
            Ok(Some(Side::Known(field)))
        }
    }
}

fn reaches_within(start: u32, length: u32, bytes: u32) -> bool
    ensures { result ≡ nat_le (start + length) bytes }
{
    u64::from(start) + u64::from(length) <= u64::from(bytes)
}

/// These bytes as something of that kind.
fn field_of(alloc: Global, kind: Kind, runs: &[Run], span: Span) -> Result<Field, Memory>
    ensures { IfOk result (λ field. field ≡ spec.field_of kind runs.now span) }
{
    let view = view_of(alloc, kind, runs, span)?;
    Ok(Field {
        kind,
        span,
        digits: digits_of(kind, span.length),
        view,
    })
}

/// A whole item in its first occurrence, or `None` where its bytes leave what 32 bits can address.
pub fn whole_side(alloc: Global, item: &Item) -> Result<Option<Side>, Memory>
    ensures { IfOk result (λ side. side ≡ spec.whole_side item.now) }
{
    let reach = Reach::Fixed {
        start: 0,
        length: item.span.length,
    };
    let side = side_at(alloc, kind_of_item(item), item, reach)?;
    Ok(side)
}

/// A record area, which READ and WRITE move as a group.
pub fn area_side(alloc: Global, span: Span) -> Result<Side, Memory>
    ensures { IfOk result (λ side. side ≡ spec.area_side span) }
{
    let field = field_of(alloc, Kind::Group, &[], span)?;
    Ok(Side::Known(field))
}

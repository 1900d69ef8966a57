ghost use Rattle.std.specs.Prelude.{◌≡◌, slice_get};
ghost use Rattle.data_layout.specs.Index.{IsReady};
ghost use Rattle.program_uses.specs.Names.{known};
ghost use Rattle.program_uses.specs.Simple as spec;

use crate::names::NameMap;
use cobol_syntax::{Operand, Place};
use data_layout::{Area, Found, Layout};
use operand_uses::{
    NameKind, UseFault, name_fault, operand_if_fault, place_if_fault, shape_fault, sooner, sort_of,
};
use std::slice::from_ref;
use y2k_base::{AreaId, Bytes};

/// What is wrong in a READ.
pub(crate) fn read_fault(
    layout: &Layout,
    files: &NameMap,
    owner: u32,
    file: &Bytes,
    into: &Option<Place>,
) -> Option<UseFault>
    requires { IsReady layout.now }
    ensures { result ≡ spec.read_fault layout.now (known files.now) owner file.now into.now }
{
    sooner(
        place_if_fault(layout, owner, into),
        name_fault(owner, files.wrong(file)),
    )
}

fn first_area(areas: &[Area]) -> u32
    ensures { result ≡ spec.first_area (slice_get areas.now 0) }
{
    match areas {
        [] => 0,
        [area, ..] => area.id.0,
    }
}

/// Whether the area is that of a file.
fn is_in_file(layout: &Layout, id: AreaId) -> bool
    ensures { result ≡ spec.is_in_file layout.now id }
{
    let areas = layout.areas.items();
    let index = id.0.saturating_sub(first_area(areas));
    match areas.get(index as usize) {
        Some(area) => area.file,
        None => false,
    }
}

/// Whether the item of that number is a record: an 01 of a file.
fn is_record(layout: &Layout, number: u32) -> bool
    ensures { result ≡ spec.is_record layout.now (slice_get layout.now.items number) }
{
    match layout.items.items().get(number as usize) {
        Some(item) => item.level == 1 && is_in_file(layout, item.span.area),
        None => false,
    }
}

fn wrong_record(layout: &Layout, found: Found) -> Option<NameKind>
    ensures { result ≡ spec.wrong_record layout.now found }
{
    match found {
        Found::Item(number) => {
            if is_record(layout, number) {
                None
            } else {
                Some(NameKind::Unknown)
            }
        }
        Found::Named(_) => Some(NameKind::Unknown),
        Found::Unknown => Some(NameKind::Unknown),
        Found::Twice => Some(NameKind::Twice),
    }
}

fn advances_right(layout: &Layout, count: &Option<Operand>) -> bool
    requires { IsReady layout.now }
    ensures { result ≡ spec.advances_right layout.now count.now }
{
    match count {
        None => true,
        Some(count) => sort_of(layout, count).counts(),
    }
}

/// What is wrong in a WRITE.
pub(crate) fn write_fault(
    layout: &Layout,
    owner: u32,
    name: &Bytes,
    from: &Option<Operand>,
    advance: &Option<Operand>,
) -> Option<UseFault>
    requires { IsReady layout.now }
    ensures { result ≡ spec.write_fault layout.now owner name.now from.now advance.now }
{
    let sender = operand_if_fault(layout, owner, from);
    let count = operand_if_fault(layout, owner, advance);
    let wrong = wrong_record(layout, layout.find(from_ref(name)));
    let shape = shape_fault(owner, advances_right(layout, advance));
    sooner(
        sender,
        sooner(count, sooner(name_fault(owner, wrong), shape)),
    )
}

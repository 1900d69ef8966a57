ghost use Rattle.std.specs.Prelude.{◌≡◌, IfOk, Some, map, slice_get};
ghost use Rattle.std.specs.Char.{to_ascii_uppercase};
ghost use Rattle.std.specs.List.{AllByRecursion};
ghost use Rattle.data_layout.specs.Index.{IsReady};
ghost use Rattle.name_tables.specs.Table.{held};
ghost use Rattle.window_items.specs.Items as spec;

use crate::name::{capitals, parted};
use data_layout::{ItemRef, Layout};
use item_seeds::named_item;
use name_tables::NameTable;
use std::alloc::Global;
use y2k_base::Memory;

/// The item that a window item means, by the numbers of programs and their layouts.
pub(crate) fn item_of(
    alloc: Global,
    numbers: &NameTable<'_, u32>,
    layouts: &[Layout],
    text: &[u8],
) -> Result<Option<ItemRef>, Memory>
    requires { AllByRecursion IsReady layouts.now }
    ensures { IfOk result (λ item. item ≡ spec.meant_by (held numbers.now) layouts.now text.now) }
{
    match parted(text) {
        Some((program, item)) => {
            let found = item_in(alloc, numbers, layouts, program, item)?;
            Ok(found)
        }
        None => Ok(None),
    }
}

fn item_in(
    alloc: Global,
    numbers: &NameTable<'_, u32>,
    layouts: &[Layout],
    program: &[u8],
    item: &[u8],
) -> Result<Option<ItemRef>, Memory>
    requires { AllByRecursion IsReady layouts.now }
    ensures { IfOk result (λ found. found ≡ spec.ref_at layouts.now (held numbers.now (map to_ascii_uppercase program.now)) item.now) }
{
    let name = capitals(alloc, program)?;
    match numbers.get(name.items()) {
        Some(number) => {
            let found = item_at(alloc, layouts, number, item)?;
            Ok(found)
        }
        None => Ok(None),
    }
}

fn item_at(
    alloc: Global,
    layouts: &[Layout],
    number: u32,
    item: &[u8],
) -> Result<Option<ItemRef>, Memory>
    requires { AllByRecursion IsReady layouts.now }
    ensures { IfOk result (λ found. found ≡ spec.ref_in number (slice_get layouts.now number) item.now) }
{
    match layouts.get(number as usize) {
        Some(layout) => {
            let found = item_of_layout(alloc, layout, number, item)?;
            Ok(found)
        }
        None => Ok(None),
    }
}

fn item_of_layout(
    alloc: Global,
    layout: &Layout,
    program: u32,
    item: &[u8],
) -> Result<Option<ItemRef>, Memory>
    requires { IsReady layout.now }
    ensures { IfOk result (λ found. found ≡ spec.ref_in program (Some layout.now) item.now) }
{
    match named_item(alloc, layout, item)? {
        Some(item) => Ok(Some(ItemRef { program, item })),
        None => Ok(None),
    }
}

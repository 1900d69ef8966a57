ghost use Rattle.std.specs.Prelude.{◌≡◌, IfOk, IfErr, OnOk};
ghost use Rattle.std.specs.List.{AllByRecursion, flat_map};
ghost use Rattle.data_layout.specs.Index.{IsReady};
ghost use Rattle.name_tables.specs.Table.{held};
ghost use Rattle.window_items.specs.Items.{meant_by};
ghost use Rattle.window_items.specs.Windows as spec;

use crate::fault::WindowFault;
use crate::item::item_of;
use crate::name::numbers_of;
use crate::window::{Window, Windows};
use data_layout::{ItemRef, Layout, Portfolio};
use name_tables::NameTable;
use portfolio::{Manifest, WindowGroup};
use std::alloc::Global;
use y2k_base::{Bytes, List, Twin};

/// The windows that a manifest's groups are, or the first of their items, in the manifest's order, that means no item of
/// the portfolio. A window item is the PROGRAM-ID of a program, a point, and an item of it as `named_item` reads it.
pub fn windows_of(
    alloc: Global,
    manifest: &Manifest,
    portfolio: &Portfolio,
) -> Result<Windows, WindowFault>
    requires { AllByRecursion IsReady portfolio.now.layouts }
    ensures windows { IfOk result (spec.AreWindowsOf portfolio.now manifest.now) }
    ensures fault { IfErr result (spec.HasWindowFault portfolio.now manifest.now) }
{
    match numbers_of(alloc, portfolio.programs.items()) {
        Ok(numbers) => {
            let layouts = portfolio.layouts.items();
            match groups_of(alloc, manifest.window.items(), &numbers, layouts) {
                Ok(groups) => Ok(Windows {
                    day: manifest.pivot,
                    groups,
                }),
                Err(fault) => Err(fault),
            }
        }
        Err(_) => Err(WindowFault::Memory),
    }
}

fn groups_of(
    alloc: Global,
    groups: &[WindowGroup],
    numbers: &NameTable<'_, u32>,
    layouts: &[Layout],
) -> Result<List<Window>, WindowFault>
    requires { AllByRecursion IsReady layouts.now }
    ensures windows { IfOk result (spec.AreWindows (meant_by (held numbers.now) layouts.now) groups.now) }
    ensures fault { IfErr result (spec.IsFirstUnknown (meant_by (held numbers.now) layouts.now) (flat_map spec.items_of groups.now)) }
{
    let mut windows = List::new(alloc);
    let mut rest = groups;
    while let [group, more @ ..] = rest {
        match add_window(alloc, group, numbers, layouts, &mut windows) {
            Ok(()) => rest = more,
            Err(fault) => return Err(fault),
        }
    }
    Ok(windows)
}

/// Adds the window that a group is.
fn add_window(
    alloc: Global,
    group: &WindowGroup,
    numbers: &NameTable<'_, u32>,
    layouts: &[Layout],
    windows: &mut List<Window>,
) -> Result<(), WindowFault>
    requires { AllByRecursion IsReady layouts.now }
    ensures added { OnOk result (spec.IsAdded (meant_by (held numbers.now) layouts.now) group.now windows.old windows.new) }
    ensures fault { IfErr result (spec.IsFirstUnknown (meant_by (held numbers.now) layouts.now) group.now.items) }
{
    match window_of(alloc, group, numbers, layouts) {
        Ok(window) => {
            windows.push(window)?;
            Ok(())
        }
        Err(fault) => Err(fault),
    }
}

fn window_of(
    alloc: Global,
    group: &WindowGroup,
    numbers: &NameTable<'_, u32>,
    layouts: &[Layout],
) -> Result<Window, WindowFault>
    requires { AllByRecursion IsReady layouts.now }
    ensures window { IfOk result (spec.IsWindow (meant_by (held numbers.now) layouts.now) group.now) }
    ensures fault { IfErr result (spec.IsFirstUnknown (meant_by (held numbers.now) layouts.now) group.now.items) }
{
    match items_of(alloc, group.items.items(), numbers, layouts) {
        Ok(items) => Ok(Window {
            pivot: group.pivot,
            items,
        }),
        Err(fault) => Err(fault),
    }
}

fn items_of(
    alloc: Global,
    texts: &[Bytes],
    numbers: &NameTable<'_, u32>,
    layouts: &[Layout],
) -> Result<List<ItemRef>, WindowFault>
    requires { AllByRecursion IsReady layouts.now }
    ensures items { IfOk result (spec.AreItems (meant_by (held numbers.now) layouts.now) texts.now) }
    ensures fault { IfErr result (spec.IsFirstUnknown (meant_by (held numbers.now) layouts.now) texts.now) }
{
    let mut items = List::new(alloc);
    let mut rest = texts;
    while let [text, more @ ..] = rest {
        match item_of(alloc, numbers, layouts, text.items()) {
            Ok(Some(item)) => items.push(item)?,
            Ok(None) => return Err(unknown(alloc, text)),
            Err(_) => return Err(WindowFault::Memory),
        }
        rest = more;
    }
    Ok(items)
}

/// The fault of a text without a meaning; where there is no memory for the text, want of memory.
fn unknown(alloc: Global, text: &Bytes) -> WindowFault
    ensures { spec.IsUnknownAs text.now result }
{
    match text.twin(alloc) {
        Ok(text) => WindowFault::Unknown(text),
        Err(_) => WindowFault::Memory,
    }
}

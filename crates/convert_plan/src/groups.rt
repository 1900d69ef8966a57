ghost use Rattle.std.specs.Prelude.{◌≡◌, ◌++◌, map, IfOk, OnOk};
ghost use Rattle.std.specs.List.{flat_map};
ghost use Rattle.convert_plan.specs.Groups as spec;

use data_layout::{ItemRef, Layout};
use std::alloc::Global;
use window_items::Window;
use window_modes::WindowGroup;
use y2k_base::{List, Memory, Span};

/// The window groups by the bytes of their items.
pub(crate) fn groups_of(
    alloc: Global,
    layouts: &[Layout],
    windows: &[Window],
) -> Result<List<WindowGroup>, Memory>
    ensures { IfOk result (λ groups. groups ≡ spec.groups_of layouts.now windows.now) }
{
    let mut groups = List::new(alloc);
    let mut rest = windows;
    while let [window, more @ ..] = rest {
        let group = group_of(alloc, layouts, window)?;
        groups.push(group)?;
        rest = more;
    }
    Ok(groups)
}

fn group_of(alloc: Global, layouts: &[Layout], window: &Window) -> Result<WindowGroup, Memory>
    ensures { IfOk result (λ group. group ≡ spec.group_of layouts.now window.now) }
{
    let spans = spans_of(alloc, layouts, window.items.items())?;
    Ok(WindowGroup {
        pivot: window.pivot,
        spans,
    })
}

fn spans_of(alloc: Global, layouts: &[Layout], items: &[ItemRef]) -> Result<List<Span>, Memory>
    ensures { IfOk result (λ spans. spans ≡ flat_map (spec.span_of layouts.now) items.now) }
{
    let mut spans = List::new(alloc);
    let mut rest = items;
    while let [item, more @ ..] = rest {
        add_span(&mut spans, layouts, *item)?;
        rest = more;
    }
    Ok(spans)
}

fn add_span(spans: &mut List<Span>, layouts: &[Layout], item: ItemRef) -> Result<(), Memory>
    ensures { OnOk result (spans.new ≡ spans.old ++ spec.span_of layouts.now item) }
{
    match layouts.get(item.program as usize) {
        Some(layout) => match layout.items.items().get(item.item as usize) {
            Some(found) => spans.push(found.span),
            None => Ok(()),
        },
        None => Ok(()),
    }
}

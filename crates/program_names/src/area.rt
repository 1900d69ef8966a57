ghost use Rattle.std.specs.Prelude.{◌≡◌, ◌≤◌, ◌+◌, IfOk};
ghost use Rattle.std.specs.List.{find};
ghost use Rattle.program_names.specs.Areas as spec;
ghost use Rattle.program_names.specs.Repeats.{Tells};

use crate::origin::refusal;
use cobol_syntax::Program;
use data_layout::{Area, Item, Layout};
use program_reader::{ReadFault, RefusedKind};

/// The most bytes that all storage areas of a portfolio have together. This project's choice.
pub const MOST_BYTES: u64 = 4_000_000;

/// How many bytes the areas of a program have with those of the programs before it. The first area with which
/// they pass the bound is refused, at the entry of the first item that fills it.
pub fn check_areas(program: &Program, layout: &Layout, before: u64) -> Result<u64, ReadFault>
    requires { before ≤ 4000000 }
    ensures sum { IfOk result (λ sum. sum ≡ before + spec.bytes_of layout.now.areas) }
    ensures most { IfOk result (λ sum. sum ≤ 4000000) }
    ensures fault { Tells result (spec.area_faults before program.now layout.now) }
{
    let mut sum = before;
    let mut rest = layout.areas.items();
    while let [area, more @ ..] = rest {
        sum = added(sum, area.length);
        if MOST_BYTES < sum {
            return Err(full(program, layout, area));
        }
        rest = more;
    }
    Ok(sum)
}

fn added(sum: u64, length: u32) -> u64
    requires { sum ≤ 4000000 }
    ensures { result ≡ sum + length }
{
    sum + u64::from(length)
}

fn full(program: &Program, layout: &Layout, area: &Area) -> ReadFault
    ensures { result ≡ ReadFault.Refused (spec.full program.now layout.now area.now) }
{
    let at = entry_at(layout.items.items(), area);
    refusal(RefusedKind::AreaFull, program.words.items(), at)
}

/// Whether the item lies in no other and has all bytes of the area.
fn fills(area: &Area, item: &Item) -> bool
    ensures { result ≡ spec.fills area.now item.now }
{
    item.parent.is_none() && (item.span.area.0 == area.id.0 && item.span.length == area.length)
}

/// The position of the entry of the first item that fills the area.
fn entry_at(items: &[Item], area: &Area) -> usize
    ensures { result ≡ spec.entry_at (find (spec.fills area.now) items.now) }
{
    let mut rest = items;
    while let [item, more @ ..] = rest {
        if fills(area, item) {
            return item.entry_at as usize;
        }
        rest = more;
    }
    0
}

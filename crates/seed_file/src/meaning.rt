ghost use Rattle.std.specs.Prelude.{◌≡◌, Some, None, IfOk, IfSome, IfNone};
ghost use Rattle.std.specs.List.{AllByRecursion};
ghost use Rattle.data_layout.specs.Index.{IsReady};
ghost use Rattle.seed_file.specs.Seeds as spec;

use crate::row::{Saying, SeedRow};
use cobol_syntax::Program;
use data_layout::{Item, Layout, Portfolio};
use item_seeds::{named_item, plain_seeds, year_seeds};
use std::alloc::Global;
use y2k_base::{List, Memory};
use year_labels::Seed;

/// The seeds of the row of that number, if its item is known and can have them.
pub(crate) fn seeds_of(
    alloc: Global,
    portfolio: &Portfolio,
    number: u32,
    row: &SeedRow,
) -> Result<Option<List<Seed>>, Memory>
    requires { AllByRecursion IsReady portfolio.now.layouts }
    ensures { IfOk result (λ seeds. seeds ≡ spec.seeds_of portfolio.now number row.now) }
{
    match layout_of(
        portfolio.programs.items(),
        portfolio.layouts.items(),
        row.program.items(),
    ) {
        Some(layout) => seeds_in(alloc, layout, number, row),
        None => Ok(None),
    }
}

/// The layout of the program of that name.
fn layout_of<'a>(programs: &[Program], layouts: &'a [Layout], name: &[u8]) -> Option<&'a Layout>
    requires { AllByRecursion IsReady layouts.now }
    ensures some { IfSome result (λ layout. spec.layout_of programs.now layouts.now name.now ≡ Some layout.now) }
    ensures ready { IfSome result (λ layout. IsReady layout.now) }
    ensures none { IfNone result (spec.layout_of programs.now layouts.now name.now ≡ None) }
{
    let mut rest = programs;
    let mut others = layouts;
    while let [program, more @ ..] = rest {
        match others {
            [] => return None,
            [layout, less @ ..] => {
                if program.id.items() == name {
                    return Some(layout);
                }
                others = less;
            }
        }
        rest = more;
    }
    None
}

fn seeds_in(
    alloc: Global,
    layout: &Layout,
    number: u32,
    row: &SeedRow,
) -> Result<Option<List<Seed>>, Memory>
    requires { IsReady layout.now }
    ensures { IfOk result (λ seeds. seeds ≡ spec.seeds_by (spec.item_in (Some layout.now) row.now.item) row.now.saying number) }
{
    match named_item(alloc, layout, row.item.items())? {
        Some(item) => seeds_at(alloc, layout, item, number, row.saying),
        None => Ok(None),
    }
}

fn seeds_at(
    alloc: Global,
    layout: &Layout,
    item: u32,
    number: u32,
    saying: Saying,
) -> Result<Option<List<Seed>>, Memory>
    ensures { IfOk result (λ seeds. seeds ≡ spec.seeds_by (spec.item_at layout.now (Some item)) saying number) }
{
    match layout.items.items().get(item as usize) {
        Some(item) => seeds_said(alloc, item, number, saying),
        None => Ok(None),
    }
}

fn seeds_said(
    alloc: Global,
    item: &Item,
    number: u32,
    saying: Saying,
) -> Result<Option<List<Seed>>, Memory>
    ensures { IfOk result (λ seeds. seeds ≡ spec.seeds_said saying item.now number) }
{
    match saying {
        Saying::Year(digit) => year_seeds(alloc, item, digit, number),
        Saying::Plain => plain_seeds(alloc, item, number),
    }
}

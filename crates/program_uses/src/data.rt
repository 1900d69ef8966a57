ghost use Rattle.std.specs.Prelude.{◌≡◌, None, true, slice_get};
ghost use Rattle.data_layout.specs.Index.{IsReady};
ghost use Rattle.program_uses.specs.Names.{known};
ghost use Rattle.program_uses.specs.Data as spec;

use crate::names::NameMap;
use cobol_syntax::{FileEntry, Operand, Place, Range, Select};
use data_layout::{CondItem, Layout};
use operand_kinds::kind_of_item;
use operand_uses::{
    NameKind, Sort, Trouble, UseFault, compares_right, is_status, place_name_fault, place_right,
    shape_fault, sooner, sort_of, sort_of_place,
};

/// The fault of a SELECT without an FD, or of an FD without a SELECT.
fn file_fault(owner: u32, wrong: Option<NameKind>) -> Option<UseFault>
    ensures { result ≡ spec.file_fault owner wrong }
{
    match wrong {
        None => None,
        Some(NameKind::Unknown) => Some(UseFault {
            owner,
            trouble: Trouble::File,
        }),
        Some(NameKind::Twice) => None,
    }
}

/// What is wrong with the item of FILE STATUS.
fn status_fault(layout: &Layout, owner: u32, status: &Option<Place>) -> Option<UseFault>
    requires { IsReady layout.now }
    ensures { result ≡ spec.status_fault layout.now owner status.now }
{
    match status {
        None => None,
        Some(place) => {
            let right = is_status(sort_of_place(layout, place)) && place_right(layout, place);
            sooner(
                shape_fault(owner, right),
                place_name_fault(layout, place.at, place),
            )
        }
    }
}

/// The first fault in SELECT entries.
pub(crate) fn selects_fault(
    layout: &Layout,
    files: &NameMap,
    selects: &[Select],
) -> Option<UseFault>
    requires { IsReady layout.now }
    ensures { result ≡ spec.selects_fault layout.now (known files.now) None selects.now }
{
    let mut fault = None;
    for select in selects {
        let status = status_fault(layout, select.at, &select.status);
        let file = file_fault(select.at, files.wrong(&select.name));
        fault = sooner(fault, sooner(status, file));
    }
    fault
}

/// The first FD without a SELECT.
pub(crate) fn files_fault(
    layout: &Layout,
    selects: &NameMap,
    files: &[FileEntry],
) -> Option<UseFault>
    ensures { result ≡ spec.files_fault layout.now (known selects.now) None files.now }
{
    let mut fault = None;
    for file in files {
        fault = sooner(fault, file_fault(file.at, selects.wrong(&file.name)));
    }
    fault
}

fn high_right(layout: &Layout, item: Sort, high: &Option<Operand>) -> bool
    requires { IsReady layout.now }
    ensures { result ≡ spec.high_right layout.now item high.now }
{
    match high {
        None => true,
        Some(high) => compares_right(item, sort_of(layout, high)),
    }
}

/// Whether the values of a condition-name may be compared with its item.
fn ranges_right(layout: &Layout, item: Sort, ranges: &[Range]) -> bool
    requires { IsReady layout.now }
    ensures { result ≡ spec.ranges_right layout.now item true ranges.now }
{
    let mut right = true;
    for range in ranges {
        let low = compares_right(item, sort_of(layout, &range.low));
        let high = high_right(layout, item, &range.high);
        right = right && (low && high);
    }
    right
}

fn sort_of_item(layout: &Layout, number: u32) -> Sort
    ensures { result ≡ spec.sort_of_item layout.now (slice_get layout.now.items number) }
{
    match layout.items.items().get(number as usize) {
        None => Sort::Unclear,
        Some(item) => Sort::Item {
            kind: kind_of_item(item),
            length: Some(item.span.length),
        },
    }
}

/// The first fault in the values of condition-names.
pub(crate) fn conds_fault(layout: &Layout, conds: &[CondItem]) -> Option<UseFault>
    requires { IsReady layout.now }
    ensures { result ≡ spec.conds_fault layout.now None conds.now }
{
    let mut fault = None;
    for cond in conds {
        let item = sort_of_item(layout, cond.item);
        let right = ranges_right(layout, item, cond.ranges.items());
        fault = sooner(fault, shape_fault(cond.entry_at, right));
    }
    fault
}

ghost use Rattle.std.specs.Prelude.{◌≡◌, ◌<◌, OnOk, length, slice_index};
ghost use Rattle.window_modes.specs.Work.{AreMarked, Marks, HasClass, HasClassIn, AreNumbered, hit};

use crate::index::{YearByte, bytes_in};
use crate::modes::WindowGroup;
use std::alloc::Global;
use std::collections::BTreeSet;
use y2k_base::{Memory, Span};

/// What groups say of a class of linked years: the pivot of the first that has one of them, and whether one has that has
/// another pivot.
#[derive(Clone, Copy, Debug, PartialEq, Eq)]
pub(crate) struct Mark {
    pub pivot: Option<u8>,
    pub clash: bool,
}

impl Mark {
    /// The mark when one more group with this pivot has the class.
    fn hit(self, pivot: u8) -> Mark
        ensures { result ≡ hit self pivot }
    {
        match self.pivot {
            None => Mark {
                pivot: Some(pivot),
                clash: self.clash,
            },
            Some(first) => Mark {
                pivot: Some(first),
                clash: self.clash || first != pivot,
            },
        }
    }
}

/// Marks the classes of the years of the groups' items.
pub(crate) fn mark_groups(
    alloc: Global,
    bytes: &BTreeSet<YearByte>,
    names: &[usize],
    groups: &[WindowGroup],
    marks: &mut [Mark],
) -> Result<(), Memory>
    requires numbered { AreNumbered bytes.now.keys names.now (length marks.old) }
    ensures { OnOk result (AreMarked bytes.now.keys names.now groups.now marks.old marks.new) }
{
    for group in groups {
        mark_group(alloc, bytes, names, group, marks)?;
    }
    Ok(())
}

fn mark_group(
    alloc: Global,
    bytes: &BTreeSet<YearByte>,
    names: &[usize],
    group: &WindowGroup,
    marks: &mut [Mark],
) -> Result<(), Memory>
    requires numbered { AreNumbered bytes.now.keys names.now (length marks.old) }
    ensures { OnOk result (Marks (HasClass bytes.now.keys names.now group.now) group.now.pivot marks.old marks.new) }
{
    let spans = group.spans.items();
    for i in 0..spans.len() {
        let span = spans[i];
        mark_span(alloc, bytes, names, span, group.pivot, marks)?;
    }
    Ok(())
}

/// Marks the classes of the years that have a byte in the span.
fn mark_span(
    alloc: Global,
    bytes: &BTreeSet<YearByte>,
    names: &[usize],
    span: Span,
    pivot: u8,
    marks: &mut [Mark],
) -> Result<(), Memory>
    requires numbered { AreNumbered bytes.now.keys names.now (length marks.old) }
    ensures { OnOk result (Marks (HasClassIn bytes.now.keys names.now span) pivot marks.old marks.new) }
{
    let found = bytes_in(alloc, bytes, span)?;
    for i in 0..found.len() {
        let byte = found[i];
        mark_class(class_of(names, byte.year), pivot, marks);
    }
    Ok(())
}

fn class_of(names: &[usize], year: usize) -> usize
    requires { year < length names.now }
    ensures { result ≡ slice_index names.now year }
{
    names[year]
}

fn mark_class(class: usize, pivot: u8, marks: &mut [Mark])
    requires { class < length marks.old }
    ensures { Marks (λ c. c ≡ class) pivot marks.old marks.new }
{
    marks[class] = marks[class].hit(pivot);
}

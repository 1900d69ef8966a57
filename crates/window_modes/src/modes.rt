ghost use Rattle.std.specs.Prelude.{◌≡◌, ◌<◌, IfOk, All, length};
ghost use Rattle.year_labels.specs.Forms.{IsFit};
ghost use Rattle.window_modes.specs.Modes.{AreInAreas, AreModesOf};
ghost use Rattle.window_modes.specs.Work.{IsIndexOf, AreClassesOf, AreMarkedModes, AreWithin, AreOfMarks};

use crate::index::{YearByte, index_years};
use crate::links::join_links;
use crate::marks::{Mark, mark_groups};
use disjoint_sets::DisjointSets;
use std::alloc::Global;
use std::collections::BTreeSet;
use y2k_base::{List, Memory, Span};
use year_labels::RuleForm;
use year_pairs::Year;

/// A group of window items, as their bytes: the years in them, and those linked to them, are of the hundred years that
/// begin with 1900 and the pivot, from 1 to 99.
#[derive(Debug)]
pub struct WindowGroup {
    pub pivot: u8,
    pub spans: List<Span>,
}

impl Drop for WindowGroup {
    fn drop(self) {
        let WindowGroup {
            pivot: _,
            spans: _spans,
        } = self;
    }
}

/// The mode of a year. One with a pivot is windowed, by the first group whose set has it; any other gets its century. The
/// year clashes where another group's set has it whose pivot is unlike.
#[derive(Clone, Copy, Debug, PartialEq, Eq)]
pub struct YearMode {
    pub year: Year,
    pub pivot: Option<u8>,
    pub clash: bool,
}

/// The modes of the years, in their order, where these rules link years. It looks at each rule and each byte of a year
/// that a rule or a group speaks of once.
pub fn window_modes(
    alloc: Global,
    years: &[Year],
    links: &[RuleForm],
    groups: &[WindowGroup],
) -> Result<List<YearMode>, Memory>
    requires placed { AreInAreas years.now }
    requires fit { All IsFit links.now }
    ensures { IfOk result (AreModesOf years.now links.now groups.now) }
{
    let bytes = index_years(alloc, years)?;
    let classes = classes_of(alloc, years, &bytes, links)?;
    let modes = marked_modes(alloc, years, &bytes, classes.items(), groups)?;
    Ok(modes)
}

/// The classes of linked years: for each year the number of one of its class.
fn classes_of(
    alloc: Global,
    years: &[Year],
    bytes: &BTreeSet<YearByte>,
    links: &[RuleForm],
) -> Result<List<usize>, Memory>
    requires fit { All IsFit links.now }
    requires indexed { IsIndexOf years.now bytes.now.keys }
    ensures { IfOk result (AreClassesOf years.now links.now) }
{
    let mut sets = DisjointSets::new(alloc, years.len())?;
    join_links(alloc, years, bytes, links, &mut sets)?;
    let names = sets.names(alloc)?;
    Ok(names)
}

/// The modes that the groups give to the years by their classes.
fn marked_modes(
    alloc: Global,
    years: &[Year],
    bytes: &BTreeSet<YearByte>,
    classes: &[usize],
    groups: &[WindowGroup],
) -> Result<List<YearMode>, Memory>
    requires indexed { IsIndexOf years.now bytes.now.keys }
    requires within { AreWithin classes.now (length years.now) }
    ensures { IfOk result (AreMarkedModes years.now bytes.now.keys classes.now groups.now) }
{
    let none = Mark {
        pivot: None,
        clash: false,
    };
    let mut marks = vec![in alloc; none; years.len()]?;
    mark_groups(alloc, bytes, classes, groups, &mut marks)?;
    let modes = modes_of(alloc, years, classes, &marks)?;
    Ok(modes)
}

/// Each year with the mark of its class.
fn modes_of(
    alloc: Global,
    years: &[Year],
    classes: &[usize],
    marks: &[Mark],
) -> Result<List<YearMode>, Memory>
    requires long { length marks.now ≡ length years.now }
    requires within { AreWithin classes.now (length years.now) }
    ensures { IfOk result (λ modes. AreOfMarks years.now classes.now marks.now (length years.now) modes) }
{
    let mut modes = List::new(alloc);
    for number in 0..years.len() {
        let year = years[number];
        let mark = marks[classes[number]];
        modes.push(YearMode {
            year,
            pivot: mark.pivot,
            clash: mark.clash,
        })?;
    }
    Ok(modes)
}

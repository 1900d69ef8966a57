ghost use Rattle.std.specs.Prelude.{◌≡◌, ◌++◌, ◌<◌, IsTrue, IfOk, OnOk};
ghost use Rattle.data_layout.specs.Faults as entries;
ghost use Rattle.entry_limits.specs.Covering as spec;

use cobol_syntax::Program;
use data_layout::{Item, Layout, Step};
use std::alloc::Global;
use y2k_base::{AreaId, BytePlace, FileId, List, Memory, Origin, Span, Twin, Word};

/// An entry, with the first occurrence of its item and each OCCURS round it.
pub(crate) struct PlacedEntry {
    pub span: Span,
    pub steps: List<Step>,
    pub at: Origin,
}

impl Drop for PlacedEntry {
    fn drop(self) {
        let PlacedEntry {
            span: _,
            steps: _steps,
            at: _,
        } = self;
    }
}

/// The entries of an area.
pub(crate) struct AreaEntries {
    area: AreaId,
    entries: List<PlacedEntry>,
}

impl Drop for AreaEntries {
    fn drop(self) {
        let AreaEntries {
            area: _,
            entries: _entries,
        } = self;
    }
}

/// Where the word of that number stands.
pub(crate) fn origin_at(words: &[Word], at: u32) -> Origin
    ensures { result ≡ entries.origin_at words.now at }
{
    match words.get(at as usize) {
        Some(word) => word.origin,
        None => Origin {
            file: FileId(0),
            line: 0,
            column: 0,
        },
    }
}

fn is_in_table(step: Step, behind: u32) -> bool
    ensures table { result ≡ spec.is_in_table step behind }
    ensures sized { IsTrue result → 0 < step.size }
{
    step.size > 0 && behind / step.size < step.count
}

/// Whether a byte so far behind the first of an item of so many bytes is one of an occurrence.
fn is_in_occurrence(steps: &[Step], bytes: u32, behind: u32) -> bool
    ensures { result ≡ spec.is_in_occurrence steps.now bytes behind }
{
    let mut left = behind;
    let mut rest = steps;
    while let [step, more @ ..] = rest {
        if !is_in_table(*step, left) {
            return false;
        }
        left %= step.size;
        rest = more;
    }
    left < bytes
}

fn covers(place: BytePlace, entry: &PlacedEntry) -> bool
    ensures { result ≡ spec.covers place entry.now }
{
    entry.span.area.0 == place.area.0
        && (entry.span.offset <= place.offset
            && is_in_occurrence(
                entry.steps.items(),
                entry.span.length,
                place.offset - entry.span.offset,
            ))
}

fn stands_before(a: Origin, b: Origin) -> bool
    ensures { result ≡ spec.stands_before a b }
{
    if a.file.0 == b.file.0 {
        if a.line == b.line {
            a.column < b.column
        } else {
            a.line < b.line
        }
    } else {
        a.file.0 < b.file.0
    }
}

fn earlier(found: Option<Origin>, at: Origin) -> Origin
    ensures { result ≡ spec.earlier found at }
{
    match found {
        None => at,
        Some(first) => { if stands_before(at, first) { at } else { first } }
    }
}

/// The first in the texts of the entries that cover a byte.
fn first_covering(entries: &[PlacedEntry], place: BytePlace) -> Option<Origin>
    ensures { result ≡ spec.first_covering entries.now place }
{
    let mut found = None;
    let mut rest = entries;
    while let [entry, more @ ..] = rest {
        if covers(place, entry) {
            found = Some(earlier(found, entry.at));
        }
        rest = more;
    }
    found
}

fn add_entry(
    alloc: Global,
    entries: &mut List<PlacedEntry>,
    area: AreaId,
    at: Origin,
    item: &Item,
) -> Result<(), Memory>
    ensures { OnOk result (entries.new ≡ entries.old ++ spec.entry_in area at item.now) }
{
    if item.span.area.0 == area.0 {
        let steps = item.steps.twin(alloc)?;
        entries.push(PlacedEntry {
            span: item.span,
            steps,
            at,
        })?;
        Ok(())
    } else {
        Ok(())
    }
}

fn add_entries(
    alloc: Global,
    entries: &mut List<PlacedEntry>,
    area: AreaId,
    words: &[Word],
    items: &[Item],
) -> Result<(), Memory>
    ensures { OnOk result (entries.new ≡ entries.old ++ spec.entries_among area words.now items.now) }
{
    let mut rest = items;
    while let [item, more @ ..] = rest {
        add_entry(alloc, entries, area, origin_at(words, item.entry_at), item)?;
        rest = more;
    }
    Ok(())
}

fn entries_of(
    alloc: Global,
    area: AreaId,
    programs: &[Program],
    layouts: &[Layout],
) -> Result<List<PlacedEntry>, Memory>
    ensures { IfOk result (λ entries. entries ≡ spec.entries_of area programs.now layouts.now) }
{
    let mut entries = List::new(alloc);
    add_entries_of(alloc, &mut entries, area, programs, layouts)?;
    Ok(entries)
}

fn add_entries_of(
    alloc: Global,
    entries: &mut List<PlacedEntry>,
    area: AreaId,
    programs: &[Program],
    layouts: &[Layout],
) -> Result<(), Memory>
    ensures { OnOk result (entries.new ≡ entries.old ++ spec.entries_of area programs.now layouts.now) }
{
    let mut programs_left = programs;
    let mut layouts_left = layouts;
    while let [program, more @ ..] = programs_left {
        match layouts_left {
            [] => return Ok(()),
            [layout, others @ ..] => {
                let words = program.words.items();
                add_entries(alloc, entries, area, words, layout.items.items())?;
                programs_left = more;
                layouts_left = others;
            }
        }
    }
    Ok(())
}

impl AreaEntries {
    /// The entries of the area.
    pub fn of(
        alloc: Global,
        area: AreaId,
        programs: &[Program],
        layouts: &[Layout],
    ) -> Result<AreaEntries, Memory>
        ensures entries { IfOk result (spec.AreEntries programs.now layouts.now) }
        ensures area { IfOk result (λ near. near.area ≡ area) }
    {
        let entries = entries_of(alloc, area, programs, layouts)?;
        Ok(AreaEntries { area, entries })
    }

    /// The entries of the area, which may be those that are at hand.
    pub fn moved(
        self,
        alloc: Global,
        area: AreaId,
        programs: &[Program],
        layouts: &[Layout],
    ) -> Result<AreaEntries, Memory>
        requires { spec.AreEntries programs.now layouts.now self }
        ensures entries { IfOk result (spec.AreEntries programs.now layouts.now) }
        ensures area { IfOk result (λ near. near.area ≡ area) }
    {
        if self.area == area {
            return Ok(self);
        }
        let near = AreaEntries::of(alloc, area, programs, layouts)?;
        Ok(near)
    }

    /// The first in the texts of those that cover the byte.
    pub fn first(&self, place: BytePlace) -> Option<Origin>
        ensures { result ≡ spec.first_covering self.now.entries place }
    {
        first_covering(self.entries.items(), place)
    }
}

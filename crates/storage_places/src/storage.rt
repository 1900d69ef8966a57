ghost use Rattle.std.specs.Prelude.{◌≡◌, ◌+◌, ◌-◌, ◌≤◌, ◌<◌, [], slice_index_or, length, map, replicate, IfOk, IfSome, IfNone};
ghost use Rattle.byte_lists.specs.Part as spec;
ghost use Rattle.byte_lists.specs.Part.{with_part};
ghost use Rattle.program_meaning.specs.Storage.{read, write};
ghost use Rattle.layout_reading.specs.Reading.{read_span, read_area, first_area};
ghost use Rattle.storage_places.specs.Fits.{area_lengths};
ghost use Rattle.storage_places.specs.Held.{held, first, lengths, IsWithin};

use data_layout::{Area, Layout};
use std::alloc::Global;
use y2k_base::{AreaId, Memory, Span};

/// The bytes of all areas of a running program.
pub struct Storage {
    first: AreaId,
    areas: Vec<Vec<u8>>,
}

impl Drop for Storage {
    fn drop(self) {
        let Storage {
            first: _,
            areas: _areas,
        } = self;
    }
}

impl Storage {
    /// The areas of a layout, filled with spaces.
    pub fn spaces(alloc: Global, layout: &Layout) -> Result<Storage, Memory>
        ensures held { IfOk result (λ storage. held storage ≡ map (λ n. replicate n 32) (map read_area layout.now.areas)) }
        ensures first { IfOk result (λ storage. first storage ≡ first_area layout.now.areas) }
        ensures lengths { IfOk result (λ storage. lengths (held storage) ≡ area_lengths layout.now) }
    {
        let areas = blank_areas(alloc, layout.areas.items())?;
        Ok(Storage {
            first: first_id(layout.areas.items()),
            areas,
        })
    }

    /// The bytes of a span; `None` where it leaves the areas of the program.
    pub fn bytes(&self, span: Span) -> Option<&[u8]>
        ensures bytes { IfSome result (λ bytes. bytes.now ≡ read (held self.now) (read_span (first self.now) span)) }
        ensures within { IfSome result (λ bytes. IsWithin (first self.now) (lengths (held self.now)) span) }
        ensures length { IfSome result (λ bytes. length bytes.now ≡ span.length) }
        ensures none { IfNone result (IsWithin (first self.now) (lengths (held self.now)) span → ⊥) }
    {
        match self.area(span.area) {
            Some(area) => part_of(area, span.offset as usize, span.length as usize),
            None => None,
        }
    }

    /// The bytes of an area of the program.
    fn area(&self, id: AreaId) -> Option<&[u8]>
        ensures bytes { IfSome result (λ bytes. bytes.now ≡ slice_index_or (held self.now) (id.0 - first self.now) []) }
        ensures after { IfSome result (λ bytes. first self.now ≤ id.0) }
        ensures before { IfSome result (λ bytes. id.0 - first self.now < length (held self.now)) }
        ensures none { IfNone result (first self.now ≤ id.0 → id.0 - first self.now < length (held self.now) → ⊥) }
    {
        if id.0 < self.first.0 {
            return None;
        }
        match self.areas.get((id.0 - self.first.0) as usize) {
            Some(area) => Some(area.as_slice()),
            None => None,
        }
    }

    /// Sets the bytes of a span; all else stays.
    pub fn set(&mut self, span: Span, bytes: &[u8])
        requires within { IsWithin (first self.old) (lengths (held self.old)) span }
        requires length { length bytes.now ≡ span.length }
        ensures held { held self.new ≡ write (held self.old) (read_span (first self.old) span) bytes.now }
        ensures first { first self.new ≡ first self.old }
        ensures lengths { lengths (held self.new) ≡ lengths (held self.old) }
    {
        let area = &mut self.areas[(span.area.0 - self.first.0) as usize];
        set_part(area.as_mut_slice(), span.offset as usize, bytes);
    }
}

fn first_id(areas: &[Area]) -> AreaId
    ensures { result.0 ≡ first_area areas.now }
{
    match areas {
        [] => AreaId(0),
        [area, ..] => area.id,
    }
}

fn blank_areas(alloc: Global, areas: &[Area]) -> Result<Vec<Vec<u8>>, Memory>
    ensures { IfOk result (λ blank. map (λ area. area.items) blank.items ≡ map (λ n. replicate n 32) (map read_area areas.now)) }
{
    let mut blank = Vec::with_capacity(alloc, areas.len())?;
    for i in 0..areas.len() {
        let spaces = vec![in alloc; b' '; areas[i].length as usize]?;
        blank.push(spaces)?;
    }
    Ok(blank)
}

fn part_of(bytes: &[u8], start: usize, count: usize) -> Option<&[u8]>
    ensures part { IfSome result (λ part. part.now ≡ spec.part bytes.now start count) }
    ensures within { IfSome result (λ part. start + count ≤ length bytes.now) }
    ensures length { IfSome result (λ part. length part.now ≡ count) }
    ensures none { IfNone result (start + count ≤ length bytes.now → ⊥) }
{
    if start > bytes.len() || bytes.len() - start < count {
        return None;
    }
    Some(&bytes[start..start + count])
}

fn set_part(into: &mut [u8], start: usize, bytes: &[u8])
    requires room { start + length bytes.now ≤ length into.old }
    ensures part { into.new ≡ with_part into.old start bytes.now }
    ensures length { length into.new ≡ length into.old }
{
    into[start..start + bytes.len()].copy_from_slice(bytes);
}

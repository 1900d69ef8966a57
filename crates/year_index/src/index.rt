ghost use Rattle.std.specs.Prelude.{◌≡◌, ◌≤◌, ◌-◌, true, false, length, take, drop};
ghost use Rattle.std.specs.List.Sorted.{IsPartitionPoint};
ghost use Rattle.year_index.specs.Years as spec;

use std::alloc::Global;
use std::marker::Model;
use window_modes::YearMode;
use y2k_base::{AreaId, BytePlace, List, Span};

/// The years in their modes, in order of places. Contracts see it as that list. Each year is found by a binary search.
#[derive(Drop)]
pub struct YearIndex {
    modes: List<YearMode>,
}

impl Model for YearIndex {
    ghost use Rattle.std.specs.Prelude.{List};
    ghost use Rattle.window_modes.specs.declared.modes.YearMode.{YearMode};

    ghost Value = { List YearMode };

    ghost view = { λ index. index.modes };

    ghost use Rattle.year_index.specs.Years.{ArePlaced};

    ghost invariant = { λ index. ArePlaced index.modes };
}

/// The first byte behind a year.
fn end_of(mode: YearMode) -> u64
    ensures { result ≡ spec.end_of mode }
{
    u64::from(mode.year.place.offset) + u64::from(mode.year.kind.width())
}

/// Whether the year ends by that offset of the area, or lies in an area before it.
fn ends_by(area: AreaId, offset: u64, mode: YearMode) -> bool
    ensures { result ≡ spec.ends_by area.0 offset mode }
{
    mode.year.place.area.0 < area.0 || mode.year.place.area.0 == area.0 && end_of(mode) <= offset
}

/// Whether the year begins before that offset of the area, or lies in an area before it.
fn begins_before(area: AreaId, offset: u64, mode: YearMode) -> bool
    ensures { result ≡ spec.begins_before area.0 offset mode }
{
    mode.year.place.area.0 < area.0
        || mode.year.place.area.0 == area.0 && u64::from(mode.year.place.offset) < offset
}

/// Whether the byte is one of the year.
fn covers(place: BytePlace, mode: YearMode) -> bool
    ensures { result ≡ spec.covers place mode }
{
    mode.year.place.area.0 == place.area.0
        && mode.year.place.offset <= place.offset
        && u64::from(place.offset) < end_of(mode)
}

/// Whether the year begins before the byte and goes on with it.
fn goes_across(place: BytePlace, mode: YearMode) -> bool
    ensures { result ≡ spec.goes_across place mode }
{
    mode.year.place.area.0 == place.area.0
        && mode.year.place.offset < place.offset
        && u64::from(place.offset) < end_of(mode)
}

impl YearIndex {
    /// The index of years that stand in order of places, in areas of at most 65,535 bytes. It takes no memory.
    pub fn new(modes: List<YearMode>) -> YearIndex
        requires { spec.ArePlaced modes }
        ensures { result ≡ modes }
    {
        YearIndex { modes }
    }

    /// All the years, in order of places.
    pub fn modes(&self) -> &[YearMode]
        ensures { result.now ≡ self.now }
    {
        self.modes.items()
    }

    /// How many years end by that offset of the area, or lie in areas before it.
    fn ended_by(&self, area: AreaId, offset: u64) -> usize
        ensures within { result ≤ length self.now }
        ensures point { IsPartitionPoint (λ mode. spec.ends_by area.0 offset mode ≡ true) (λ mode. spec.ends_by area.0 offset mode ≡ false) self.now result }
    {
        self.modes
            .items()
            .partition_point(|mode| ends_by(area, offset, *mode))
    }

    /// How many years begin before that offset of the area, or lie in areas before it.
    fn begun_before(&self, area: AreaId, offset: u64) -> usize
        ensures within { result ≤ length self.now }
        ensures point { IsPartitionPoint (λ mode. spec.begins_before area.0 offset mode ≡ true) (λ mode. spec.begins_before area.0 offset mode ≡ false) self.now result }
    {
        self.modes
            .items()
            .partition_point(|mode| begins_before(area, offset, *mode))
    }

    /// The year that has the byte.
    pub fn year_at(&self, place: BytePlace) -> Option<YearMode>
        ensures { result ≡ spec.year_at self.now place }
    {
        let modes = self.modes.items();
        let count = self.ended_by(place.area, u64::from(place.offset));
        if count < modes.len() && covers(place, modes[count]) {
            Some(modes[count])
        } else {
            None
        }
    }

    /// The year that begins before the byte and goes on with it, so that nothing can begin or end in front of the byte.
    pub fn year_across(&self, place: BytePlace) -> Option<YearMode>
        ensures { result ≡ spec.year_across self.now place }
    {
        let modes = self.modes.items();
        let count = self.ended_by(place.area, u64::from(place.offset));
        if count < modes.len() && goes_across(place, modes[count]) {
            Some(modes[count])
        } else {
            None
        }
    }

    /// The years that have a byte in the span.
    pub fn years_in(&self, span: Span) -> &[YearMode]
        ensures { result.now ≡ spec.years_in self.now span }
    {
        let start = u64::from(span.offset);
        let first = self.ended_by(span.area, start);
        let last = self.begun_before(span.area, start + u64::from(span.length));
        self.part(first, last)
    }

    /// The years from that index on, up to the other.
    fn part(&self, first: usize, last: usize) -> &[YearMode]
        requires order { first ≤ last }
        requires within { last ≤ length self.now }
        ensures { result.now ≡ take (last - first) (drop first self.now) }
    {
        &self.modes.items()[first..last]
    }
}

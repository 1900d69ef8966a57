ghost use Rattle.std.specs.Prelude.{◌≡◌, ◌+◌, ◌-◌, ◌<◌, ◌≤◌, ℕ, IfOk, IfNone, IfSome, IsTrue, ◌↔◌, MatchOption, Contains, filter, length, slice_index_or, take, drop};
ghost use Rattle.year_image.specs.Piece.{width, grown_size};
ghost use Rattle.year_image.specs.Offset.{image_offset};
ghost use Rattle.file_convert.specs.declared.cut.Cut.{Cut as AnyCut};
ghost use Rattle.file_convert.specs.Cuts.{piece_of, pieces, IsInOrder};
ghost use Rattle.plan_images.specs.Edges.{Covers, GoesAcross, IsEdge, IsLast, IsSound, begins_between, growth, growths, sums_from};

use file_convert::{Cut, CutKind, Cuts};
use std::alloc::Global;
use y2k_base::{List, Memory};

/// The cuts of an area, and for each number of first ones how many bytes their images are longer.
pub(crate) struct Table {
    pub cuts: Cuts,
    pub sums: List<u32>,
}

impl Drop for Table {
    fn drop(self) {
        let Table {
            cuts: _cuts,
            sums: _sums,
        } = self;
    }
}

/// How many bytes a cut has.
fn width_of(cut: Cut) -> u32
    ensures { result ≡ width (piece_of cut) }
{
    match cut.kind {
        CutKind::Pair => 2,
        CutKind::Packed { digits, unit: _ } => u32::from(digits) / 2 + 1,
    }
}

/// How many bytes its image is longer.
fn growth_of(cut: Cut) -> u32
    ensures { result ≡ growth cut }
{
    match cut.pivot {
        Some(_) => 0,
        None => match cut.kind {
            CutKind::Pair => 2,
            CutKind::Packed { digits: _, unit: _ } => 1,
        },
    }
}

fn ends_behind(cut: Cut, offset: u32) -> bool
    ensures { IsTrue result ↔ (offset < cut.offset + width (piece_of cut)) }
{
    u64::from(offset) < u64::from(cut.offset) + u64::from(width_of(cut))
}

/// For each number of first cuts, how many bytes their images are longer.
fn sums_of(alloc: Global, cuts: &Cuts) -> Result<List<u32>, Memory>
    requires { IsInOrder cuts.now }
    ensures { IfOk result (λ sums. sums ≡ sums_from 0 cuts.now.list) }
{
    let list = cuts.list.items();
    let mut sums = List::new(alloc);
    let mut sum = 0;
    sums.push(sum)?;
    for i in 0..list.len() {
        sum += growth_of(list[i]);
        sums.push(sum)?;
    }
    Ok(sums)
}

impl Table {
    /// The table of these cuts.
    pub fn new(alloc: Global, cuts: Cuts) -> Result<Table, Memory>
        requires { IsInOrder cuts }
        ensures cuts { IfOk result (λ table. table.cuts ≡ cuts) }
        ensures sound { IfOk result IsSound }
    {
        let sums = sums_of(alloc, &cuts)?;
        Ok(Table { cuts, sums })
    }

    /// How many cuts begin before that offset.
    fn begun_before(&self, offset: u32) -> usize
        requires { IsSound self.now }
        ensures within { result ≤ length self.now.cuts.list }
        ensures before { (i : ℕ) (d : AnyCut) → i < result → (slice_index_or self.now.cuts.list i d).offset < offset }
        ensures after { (i : ℕ) (d : AnyCut) → result ≤ i → i < length self.now.cuts.list → offset ≤ (slice_index_or self.now.cuts.list i d).offset }
    {
        self.cuts
            .list
            .items()
            .partition_point(|cut| cut.offset < offset)
    }

    /// How many bytes the images of so many first cuts are longer.
    fn sum_of(&self, count: usize) -> u32
        requires sound { IsSound self.now }
        requires within { count ≤ length self.now.cuts.list }
        ensures sum { result ≡ growths (take count self.now.cuts.list) }
        ensures low { result ≤ self.now.cuts.length }
        ensures small { self.now.cuts.length ≤ 65535 }
    {
        self.sums.items()[count]
    }

    /// The last of so many first cuts.
    fn last_of(&self, count: usize) -> Option<Cut>
        requires { count ≤ length self.now.cuts.list }
        ensures { MatchOption result (count ≡ 0) (IsLast self.now.cuts.list count) }
    {
        if count == 0 {
            None
        } else {
            Some(self.cuts.list.items()[count - 1])
        }
    }

    /// The last of so many first cuts, if it ends behind that offset.
    fn cut_over(&self, count: usize, offset: u32) -> Option<Cut>
        requires { count ≤ length self.now.cuts.list }
        ensures found { IfSome result (λ cut. IsLast self.now.cuts.list count cut × (offset < cut.offset + width (piece_of cut))) }
        ensures none { IfNone result ((cut : AnyCut) → IsLast self.now.cuts.list count cut → cut.offset + width (piece_of cut) ≤ offset) }
    {
        match self.last_of(count) {
            Some(cut) => {
                if ends_behind(cut, offset) {
                    Some(cut)
                } else {
                    None
                }
            }
            None => None,
        }
    }

    /// How long the image of a record is.
    pub fn image_length(&self) -> u32
        requires { IsSound self.now }
        ensures { result ≡ grown_size (pieces self.now.cuts) }
    {
        let all = self.cuts.list.len();
        let sum = self.sum_of(all);
        self.cuts.length + sum
    }

    /// Where the byte at that offset stands in the image: for the first byte of a year, behind what is put in.
    pub fn offset_after(&self, offset: u32) -> u32
        requires sound { IsSound self.now }
        requires within { offset < self.now.cuts.length }
        ensures { result ≡ image_offset (pieces self.now.cuts) offset }
    {
        let count = self.begun_before(offset + 1);
        let sum = self.sum_of(count);
        offset + sum
    }

    /// The year that has the byte at that offset.
    pub fn year_at(&self, offset: u32) -> Option<Cut>
        requires sound { IsSound self.now }
        requires within { offset < self.now.cuts.length }
        ensures found { IfSome result (λ cut. Contains self.now.cuts.list cut × Covers cut offset) }
        ensures none { IfNone result ((cut : AnyCut) → Contains self.now.cuts.list cut → Covers cut offset → ⊥) }
    {
        let count = self.begun_before(offset + 1);
        self.cut_over(count, offset)
    }

    /// The year that begins before that byte and goes on with it.
    pub fn year_across(&self, offset: u32) -> Option<Cut>
        requires { IsSound self.now }
        ensures found { IfSome result (λ cut. Contains self.now.cuts.list cut × GoesAcross cut offset) }
        ensures none { IfNone result ((cut : AnyCut) → Contains self.now.cuts.list cut → GoesAcross cut offset → ⊥) }
    {
        let count = self.begun_before(offset);
        self.cut_over(count, offset)
    }

    /// The years that begin from the one offset on, before the other.
    pub fn years_between(&self, start: u32, end: u32) -> &[Cut]
        requires sound { IsSound self.now }
        requires order { start ≤ end }
        ensures { result.now ≡ filter (begins_between start end) self.now.cuts.list }
    {
        let first = self.begun_before(start);
        let last = self.begun_before(end);
        self.part(first, last)
    }

    /// The cuts from that index on, up to the other.
    fn part(&self, first: usize, last: usize) -> &[Cut]
        requires order { first ≤ last }
        requires within { last ≤ length self.now.cuts.list }
        ensures { result.now ≡ take (last - first) (drop first self.now.cuts.list) }
    {
        &self.cuts.list.items()[first..last]
    }

    /// How many bytes what stands before that offset has in the image, unless the offset lies inside a year.
    pub fn edge_after(&self, offset: u32) -> Option<u32>
        requires sound { IsSound self.now }
        requires within { offset ≤ self.now.cuts.length }
        ensures edge { IfSome result (IsEdge (pieces self.now.cuts) offset) }
        ensures none { IfNone result ((grown : ℕ) → IsEdge (pieces self.now.cuts) offset grown → ⊥) }
    {
        let count = self.begun_before(offset);
        let sum = self.sum_of(count);
        match self.cut_over(count, offset) {
            Some(_) => None,
            None => Some(offset + sum),
        }
    }
}

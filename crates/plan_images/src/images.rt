ghost use Rattle.std.specs.Prelude.{◌≡◌, ◌+◌, ◌<◌, ◌≤◌, IfOk, IfNone, IfSome, Contains, filter, length};
ghost use Rattle.year_image.specs.Piece.{grown_size};
ghost use Rattle.year_image.specs.Offset.{image_offset};
ghost use Rattle.file_convert.specs.declared.cut.Cut.{Cut as AnyCut};
ghost use Rattle.file_convert.specs.Cuts.{pieces, IsInOrder};
ghost use Rattle.plan_images.specs.Edges.{Covers, GoesAcross, IsBetween, IsMoved, IsSound, begins_between};
ghost use Rattle.plan_images.specs.Tables.{AreFit, AreImagesOf, AreLabelled, cuts_at};

use crate::build::{cuts_of_areas, tables_of};
use crate::table::Table;
use file_convert::{Cut, Cuts};
use std::alloc::Global;
use std::marker::Model;
use window_modes::YearMode;
use y2k_base::{AreaId, BytePlace, Memory, Span};

/// How the areas of a portfolio grow: for each, by its number, the table of its cuts.
#[derive(Drop)]
pub struct Images {
    tables: Vec<Table>,
}

impl Model for Images {
    ghost use Rattle.std.specs.Prelude.{List, All};
    ghost use Rattle.file_convert.specs.declared.cut.Cuts.{Cuts};

    ghost Value = { List Cuts };

    ghost use Rattle.plan_images.specs.Edges.{IsSound, cuts_of};

    ghost view = { λ images. cuts_of images.tables.items };

    ghost invariant = { λ images. All IsSound images.tables.items };
}

/// The images of areas of these lengths, by their numbers, with these years. It looks at each year once.
pub fn images_of(alloc: Global, lengths: &[u32], modes: &[YearMode]) -> Result<Images, Memory>
    requires { AreFit lengths.now modes.now }
    ensures tables { IfOk result (AreImagesOf lengths.now modes.now) }
    ensures labelled { IfOk result (AreLabelled modes.now) }
{
    let cuts = cuts_of_areas(alloc, lengths, modes)?;
    let tables = tables_of(alloc, cuts)?;
    Ok(Images { tables })
}

impl Images {
    /// How many areas there are.
    pub fn count(&self) -> usize
        ensures { result ≡ length self.now }
    {
        self.tables.len()
    }

    fn table(&self, area: AreaId) -> &Table
        requires { area.0 < length self.now }
        ensures cuts { result.now.cuts ≡ cuts_at self.now area }
        ensures sound { IsSound result.now }
    {
        &self.tables[area.0 as usize]
    }

    /// The cuts of an area.
    pub fn cuts(&self, area: AreaId) -> &Cuts
        requires { area.0 < length self.now }
        ensures cuts { result.now ≡ cuts_at self.now area }
        ensures ordered { IsInOrder result.now }
    {
        &self.table(area).cuts
    }

    /// How many bytes the image of an area has.
    pub fn image_length(&self, area: AreaId) -> u32
        requires { area.0 < length self.now }
        ensures { result ≡ grown_size (pieces (cuts_at self.now area)) }
    {
        self.table(area).image_length()
    }

    /// At which offset of the image of its area a byte stands: the last of its image bytes, where what is put in belongs to
    /// the tens byte of a pair and to the first byte of a packed number.
    pub fn offset_after(&self, place: BytePlace) -> u32
        requires area { place.area.0 < length self.now }
        requires within { place.offset < (cuts_at self.now place.area).length }
        ensures { result ≡ image_offset (pieces (cuts_at self.now place.area)) place.offset }
    {
        self.table(place.area).offset_after(place.offset)
    }

    /// The year that has the byte, with its pivot if it is windowed.
    pub fn year_at(&self, place: BytePlace) -> Option<Cut>
        requires area { place.area.0 < length self.now }
        requires within { place.offset < (cuts_at self.now place.area).length }
        ensures found { IfSome result (λ cut. Contains (cuts_at self.now place.area).list cut × Covers cut place.offset) }
        ensures none { IfNone result ((cut : AnyCut) → Contains (cuts_at self.now place.area).list cut → Covers cut place.offset → ⊥) }
    {
        self.table(place.area).year_at(place.offset)
    }

    /// The year that begins before the byte and goes on with it, so that nothing can begin or end there.
    pub fn year_across(&self, place: BytePlace) -> Option<Cut>
        requires { place.area.0 < length self.now }
        ensures found { IfSome result (λ cut. Contains (cuts_at self.now place.area).list cut × GoesAcross cut place.offset) }
        ensures none { IfNone result ((cut : AnyCut) → Contains (cuts_at self.now place.area).list cut → GoesAcross cut place.offset → ⊥) }
    {
        self.table(place.area).year_across(place.offset)
    }

    /// The years that begin in a span.
    pub fn years_in(&self, span: Span) -> &[Cut]
        requires area { span.area.0 < length self.now }
        requires within { span.offset + span.length ≤ (cuts_at self.now span.area).length }
        ensures { result.now ≡ filter (begins_between span.offset (span.offset + span.length)) (cuts_at self.now span.area).list }
    {
        let table = self.table(span.area);
        table.years_between(span.offset, span.offset + span.length)
    }

    /// Where a span stands in the image of its area; `None` exactly where it begins or ends inside a year.
    pub fn span_after(&self, span: Span) -> Option<Span>
        requires area { span.area.0 < length self.now }
        requires within { span.offset + span.length ≤ (cuts_at self.now span.area).length }
        ensures moved { IfSome result (IsMoved (pieces (cuts_at self.now span.area)) span) }
        ensures none { IfNone result (IsBetween (pieces (cuts_at self.now span.area)) span → ⊥) }
    {
        let table = self.table(span.area);
        match table.edge_after(span.offset) {
            Some(first) => match table.edge_after(span.offset + span.length) {
                Some(last) => Some(Span {
                    area: span.area,
                    offset: first,
                    length: last - first,
                }),
                None => None,
            },
            None => None,
        }
    }
}

ghost use Rattle.std.specs.Prelude.{◌≡◌, ◌<◌, length, map};
ghost use Rattle.std.specs.Option.{option_map};
ghost use Rattle.plan_images.specs.Tables.{cuts_at};
ghost use Rattle.convert_plan.specs.Calls as spec;

use file_convert::Cuts;
use generated_areas::GeneratedArea;
use plan_images::Images;
use y2k_base::{AreaId, BytePlace, List};
use year_index::YearIndex;
use year_labels::Labelling;

/// How a year is kept: in two digits and a window of a hundred years, or with its century.
#[derive(Clone, Copy, Debug, PartialEq, Eq)]
pub enum PairMode {
    Windowed,
    Expanded,
}

/// The plan of a portfolio against whose conversion nothing stands.
pub struct Plan<'a> {
    pub(crate) labelling: &'a Labelling,
    pub(crate) day: u8,
    pub(crate) index: YearIndex,
    pub(crate) images: Images,
    /// The record area of each file.
    pub(crate) files: List<Option<AreaId>>,
    /// The areas that each program gets besides its own.
    pub(crate) needed: List<List<GeneratedArea>>,
    /// The number of each area after conversion.
    pub(crate) numbers: List<u32>,
}

impl<'a> Drop for Plan<'a> {
    fn drop(self) {
        let Plan {
            labelling: _,
            day: _,
            index: _index,
            images: _images,
            files: _files,
            needed: _needed,
            numbers: _numbers,
        } = self;
    }
}

impl<'a> Plan<'a> {
    /// The years in their modes, in order of places.
    pub fn index(&self) -> &YearIndex
        ensures { result.now ≡ self.now.index }
    {
        &self.index
    }

    /// How the areas grow.
    pub fn images(&self) -> &Images
        ensures { result.now ≡ self.now.images }
    {
        &self.images
    }

    /// The labelling that the plan was made for.
    pub fn labelling(&self) -> &Labelling
        ensures { result.now ≡ self.now.labelling.now }
    {
        self.labelling
    }

    /// The manifest's pivot, below which no run's day may have its year.
    pub fn day(&self) -> u8
        ensures { result ≡ self.now.day }
    {
        self.day
    }

    /// The areas that each program gets besides its own, by the numbers of programs.
    pub fn needed(&self) -> &[List<GeneratedArea>]
        ensures { result.now ≡ self.now.needed }
    {
        self.needed.items()
    }

    /// The mode of the year that has the byte; `None` where no year has it.
    pub fn mode(&self, place: BytePlace) -> Option<PairMode>
        ensures { result ≡ spec.mode_at self.now.index place }
    {
        match self.index.year_at(place) {
            Some(year) => match year.pivot {
                Some(_) => Some(PairMode::Windowed),
                None => Some(PairMode::Expanded),
            },
            None => None,
        }
    }

    /// The pivot of the windowed year that has the byte; `None` where no windowed year has it.
    pub fn pivot(&self, place: BytePlace) -> Option<u8>
        ensures { result ≡ spec.pivot_at self.now.index place }
    {
        match self.index.year_at(place) {
            Some(year) => year.pivot,
            None => None,
        }
    }

    /// Where a byte stands after conversion: the last of its image bytes, where what is put in belongs to the tens byte of a
    /// pair and to the first byte of a packed number.
    pub fn map(&self, place: BytePlace) -> BytePlace
        requires area { place.area.0 < length self.now.images }
        requires within { place.offset < (cuts_at self.now.images place.area).length }
        ensures { result ≡ spec.place_after self.now.numbers self.now.images place }
    {
        BytePlace {
            area: AreaId(number_at(self.numbers.items(), place.area)),
            offset: self.images.offset_after(place),
        }
    }

    /// The years of the records of a file, by its number in the portfolio; `None` where there is no such file.
    pub fn cuts(&self, file: u32) -> Option<&Cuts>
        ensures { option_map (λ cuts. cuts.now) result ≡ spec.cuts_of self.now.files self.now.images file }
    {
        match self.files.items().get(file as usize) {
            Some(Some(area)) => cuts_if(&self.images, *area),
            Some(None) => None,
            None => None,
        }
    }
}

fn number_at(numbers: &[u32], area: AreaId) -> u32
    ensures { result ≡ spec.number_at numbers.now area }
{
    match numbers.get(area.0 as usize) {
        Some(number) => *number,
        None => 0,
    }
}

fn cuts_if(images: &Images, area: AreaId) -> Option<&Cuts>
    ensures { option_map (λ cuts. cuts.now) result ≡ spec.cuts_in images.now area }
{
    if (area.0 as usize) < images.count() {
        Some(images.cuts(area))
    } else {
        None
    }
}

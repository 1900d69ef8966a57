ghost use Rattle.std.specs.Prelude.{◌≡◌, ◌≢◌, IfOk};
ghost use Rattle.layout_reading.specs.Names.{unnamed};
ghost use Rattle.data_layout.specs.Index.{IsReady};
ghost use Rattle.layout_reading.specs.Numbered.{AreNumbered};
ghost use Rattle.layout_reading.specs.Reading.{first_area};
ghost use Rattle.trial_run.specs.Plans.{IsPlan, IsSpanOf};

use crate::day::Day;
use cobol_syntax::Program;
use data_layout::{Area, FileUse, Found, Layout};
use program_channels::{Channel, Channels};
use run_control::Labels;
use std::alloc::Global;
use std::slice::from_ref;
use storage_places::layout_fits;
use y2k_base::{Bytes, Memory, Span};

/// What stays the same while a program runs: its text and its layout, with its paragraphs and files to be found by
/// their names, and the day.
pub(crate) struct Plan<'a> {
    pub(crate) alloc: Global,
    pub(crate) files: &'a [FileUse],
    pub(crate) program: &'a Program,
    pub(crate) layout: &'a Layout,
    pub(crate) labels: Labels<'a>,
    pub(crate) channels: Channels<'a>,
    pub(crate) day: Day,
}

impl Drop for Plan<'_> {
    fn drop(self) {
        let Plan {
            alloc: _,
            files: _,
            program: _,
            layout: _,
            labels: _labels,
            channels: _channels,
            day: _,
        } = self;
    }
}

impl<'a> Plan<'a> {
    /// A program of a portfolio with these files. A layout that doesn't fit is want of memory; a sound portfolio has
    /// none.
    pub(crate) fn of(
        alloc: Global,
        files: &'a [FileUse],
        program: &'a Program,
        layout: &'a Layout,
        day: Day,
    ) -> Result<Plan<'a>, Memory>
        requires ready { IsReady layout.now }
        requires numbered { AreNumbered (first_area layout.now.areas) layout.now.areas }
        ensures plan { IfOk result IsPlan }
        ensures files { IfOk result (λ plan. plan.files.now ≡ files.now) }
        ensures program { IfOk result (λ plan. plan.program.now ≡ program.now) }
        ensures layout { IfOk result (λ plan. plan.layout.now ≡ layout.now) }
        ensures day { IfOk result (λ plan. plan.day ≡ day) }
    {
        if !layout_fits(layout) {
            return Err(Memory);
        }
        let labels = Labels::of(alloc, program.paragraphs.items())?;
        let channels = Channels::of(alloc, files, program, layout)?;
        Ok(Plan {
            alloc,
            files,
            program,
            layout,
            labels,
            channels,
            day,
        })
    }
}

impl<'a> Plan<'a> {
    ghost use Rattle.std.specs.Prelude.{IfSome, option_map};
    ghost use Rattle.layout_reading.specs.Reading.{read_span};
    ghost use Rattle.program_channels.specs.Channel.{read_channel};
    ghost use Rattle.program_channels.specs.Channels.{HasRecord};
    ghost use Rattle.program_meaning.specs.Step.{channel_of, channel_at};
    ghost use Rattle.storage_places.specs.Fits.{area_lengths};
    ghost use Rattle.storage_places.specs.Held.{IsWithin};
    ghost use Rattle.trial_run.specs.Calls.{IsRecord};
    ghost use Rattle.trial_run.specs.Plans.{program_of};

    /// The file of that name.
    pub(crate) fn file(&self, name: &[u8]) -> Option<Channel<'a>>
        requires { IsPlan self.now }
        ensures found { option_map read_channel result ≡ channel_of name.now (program_of self.now).channels }
        ensures record { IfSome result (HasRecord self.now.layout.now) }
    {
        self.channels.find(name)
    }

    /// The file whose records have that span.
    pub(crate) fn file_at(&self, span: Span) -> Option<Channel<'a>>
        requires { IsPlan self.now }
        ensures found { option_map read_channel result ≡ channel_at (read_span (first_area self.now.layout.now.areas) span).area (program_of self.now).channels }
        ensures record { IfSome result (HasRecord self.now.layout.now) }
    {
        let first = first_number(self.layout.areas.items());
        self.channels.at_area(span.area.0.saturating_sub(first))
    }

    /// Where the record of that name stands. A name that means no item, or several, is want of memory; a sound
    /// portfolio has none.
    pub(crate) fn record(&self, name: &Bytes) -> Result<Span, Memory>
        requires { IsPlan self.now }
        ensures record { IfOk result (IsRecord self.now name.now) }
        ensures within { IfOk result (IsWithin (first_area self.now.layout.now.areas) (area_lengths self.now.layout.now)) }
    {
        is_word(name);
        match self.layout.find(from_ref(name)) {
            Found::Item(number) => {
                let span = self.item_span(number)?;
                Ok(span)
            }
            Found::Named(_) => Err(Memory),
            Found::Unknown => Err(Memory),
            Found::Twice => Err(Memory),
        }
    }

    fn item_span(&self, number: u32) -> Result<Span, Memory>
        requires { IsPlan self.now }
        ensures span { IfOk result (IsSpanOf self.now.layout.now number) }
        ensures within { IfOk result (IsWithin (first_area self.now.layout.now.areas) (area_lengths self.now.layout.now)) }
    {
        match self.layout.items.items().get(number as usize) {
            Some(item) => Ok(item.span),
            None => Err(Memory),
        }
    }
}

fn first_number(areas: &[Area]) -> u32
    ensures { result ≡ first_area areas.now }
{
    match areas {
        [] => 0,
        [area, ..] => area.id.0,
    }
}

/// A name is bytes, so it isn't that of FILLER.
fn is_word(name: &Bytes)
    ensures { name.now ≢ unnamed }
{
    is_text(name.items());
}

fn is_text(name: &[u8])
    ensures { name.now ≢ unnamed }
{
    let _bytes = name;
}

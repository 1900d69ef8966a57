ghost use Rattle.std.specs.Prelude.{◌≡◌, ◌+◌, IfOk, slice_index_or, map};
ghost use Rattle.tree_reading.specs.Reading.{place_if};
ghost use Rattle.layout_reading.specs.Reading.{first_area, read_area};
ghost use Rattle.program_channels.specs.Channel.{read_channel, status_of, IsWhole};

use cobol_syntax::{Place, Select};
use data_layout::{Area, Layout};
use y2k_base::{AreaId, Memory, Span};

/// A file of a program. A file without an FD, or whose external name isn't one of the portfolio's, has the number after
/// the last one; a sound portfolio has none.
#[derive(Clone, Copy)]
pub struct Channel<'a> {
    /// Its name in the program.
    pub name: &'a [u8],
    /// Its number among the external files.
    pub file: u32,
    /// The number of its record area among the areas of the program.
    pub area: u32,
    /// All bytes of that area.
    pub span: Span,
    /// The item of its FILE STATUS.
    pub status: Option<&'a Place>,
}

/// The file of a SELECT. A number past 32 bits is want of memory.
pub(crate) fn channel_of<'a>(
    select: &'a Select,
    file: u32,
    area: u32,
    layout: &Layout,
) -> Result<Channel<'a>, Memory>
    ensures read { IfOk result (λ channel. read_channel channel ≡
        record { name = select.now.name; file = file; area = area; status = place_if select.now.status }) }
    ensures whole { IfOk result (IsWhole layout.now.areas) }
{
    let span = span_of(layout.areas.items(), area)?;
    Ok(Channel {
        name: select.name.items(),
        file,
        area,
        span,
        status: status_of(&select.status),
    })
}

fn status_of(status: &Option<Place>) -> Option<&Place>
    ensures { status_of result ≡ place_if status.now }
{
    match status {
        Some(place) => Some(place),
        None => None,
    }
}

/// All bytes of an area.
fn span_of(areas: &[Area], area: u32) -> Result<Span, Memory>
    ensures number { IfOk result (λ span. span.area.0 ≡ first_area areas.now + area) }
    ensures start { IfOk result (λ span. span.offset ≡ 0) }
    ensures length { IfOk result (λ span. span.length ≡ slice_index_or (map read_area areas.now) area 0) }
{
    match first_number(areas).checked_add(area) {
        Some(number) => Ok(Span {
            area: AreaId(number),
            offset: 0,
            length: length_of(areas, area),
        }),
        None => Err(Memory),
    }
}

fn first_number(areas: &[Area]) -> u32
    ensures { result ≡ first_area areas.now }
{
    match areas {
        [] => 0,
        [area, ..] => area.id.0,
    }
}

fn length_of(areas: &[Area], area: u32) -> u32
    ensures { result ≡ slice_index_or (map read_area areas.now) area 0 }
{
    match areas.get(area as usize) {
        Some(area) => area.length,
        None => 0,
    }
}

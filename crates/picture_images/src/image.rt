ghost use Rattle.std.specs.Prelude.{◌≡◌, IfOk};
ghost use Rattle.picture_images.specs.Images as spec;

use crate::grown::{display_image, packed_image};
use cobol_syntax::Usage;
use data_layout::Item;
use std::alloc::Global;
use y2k_base::{BytePlace, List, Memory, Picture, Run, Span, Twin};
use year_index::YearIndex;

fn start_of(span: Span) -> BytePlace
    ensures { result ≡ spec.start_of span }
{
    BytePlace {
        area: span.area,
        offset: span.offset,
    }
}

fn runs_of(alloc: Global, runs: &[Run]) -> Result<List<Run>, Memory>
    ensures { IfOk result (λ copy. copy ≡ runs.now) }
{
    let mut copy = List::new(alloc);
    copy.append(runs)?;
    Ok(copy)
}

/// The runs of an item with these bytes.
fn runs_image(
    alloc: Global,
    usage: Usage,
    picture: &Picture,
    index: &YearIndex,
    span: Span,
) -> Result<List<Run>, Memory>
    ensures { IfOk result (λ image. image ≡ spec.runs_image usage picture.now.class index.now span picture.now.runs) }
{
    let runs = picture.runs.items();
    match usage {
        Usage::Display => display_image(alloc, picture.class, index, start_of(span), runs),
        Usage::Packed => packed_image(alloc, index, span, runs),
        Usage::Binary => runs_of(alloc, runs),
    }
}

fn image_of(
    alloc: Global,
    item: &Item,
    picture: &Picture,
    index: &YearIndex,
) -> Result<Picture, Memory>
    ensures { IfOk result (λ image. image ≡ spec.image_of index.now item.now picture.now) }
{
    let runs = runs_image(alloc, item.usage, picture, index, item.span)?;
    Ok(Picture {
        class: picture.class,
        runs,
    })
}

/// The PICTURE of an item after conversion, where the years are those of the index. A group has none. It may have more digits
/// or characters than a picture string can say.
pub fn picture_image(
    alloc: Global,
    item: &Item,
    index: &YearIndex,
) -> Result<Option<Picture>, Memory>
    ensures { IfOk result (λ image. image ≡ spec.picture_image index.now item.now) }
{
    match &item.picture {
        None => Ok(None),
        Some(picture) => {
            let image = image_of(alloc, item, picture, index)?;
            Ok(Some(image))
        }
    }
}

ghost use Rattle.std.specs.Prelude.{◌≡◌, ◌++◌, OnOk};
ghost use Rattle.entry_limits.specs.Pictures as spec;

use data_layout::Item;
use picture_images::{count_digits, picture_image, print_runs};
use plan_limits::{Limit, LimitKind, add_number_limit};
use std::alloc::Global;
use y2k_base::{List, Memory, Origin, Picture, Run};
use year_index::YearIndex;

const MOST_DIGITS: u64 = 18;

const MOST_CHARACTERS: u64 = 30;

fn add_above(
    limits: &mut List<Limit>,
    kind: LimitKind,
    at: Origin,
    most: u64,
    number: u64,
) -> Result<(), Memory>
    ensures { OnOk result (limits.new ≡ limits.old ++ spec.limit_above kind at most number) }
{
    if most < number {
        add_number_limit(limits, kind, at, number)?;
        Ok(())
    } else {
        Ok(())
    }
}

fn add_runs(alloc: Global, limits: &mut List<Limit>, at: Origin, runs: &[Run]) -> Result<(), Memory>
    ensures { OnOk result (limits.new ≡ limits.old ++ spec.runs_limits at runs.now) }
{
    let digits = count_digits(runs)?;
    let text = print_runs(alloc, runs)?;
    let characters = text.len() as u64;
    add_above(limits, LimitKind::TooManyDigits, at, MOST_DIGITS, digits)?;
    add_above(
        limits,
        LimitKind::PictureFull,
        at,
        MOST_CHARACTERS,
        characters,
    )?;
    Ok(())
}

fn add_image(
    alloc: Global,
    limits: &mut List<Limit>,
    at: Origin,
    image: &Option<Picture>,
) -> Result<(), Memory>
    ensures { OnOk result (limits.new ≡ limits.old ++ spec.image_limits at image.now) }
{
    match image {
        None => Ok(()),
        Some(image) => {
            add_runs(alloc, limits, at, image.runs.items())?;
            Ok(())
        }
    }
}

/// Adds what stands against the new PICTURE of an item.
pub(crate) fn add_picture(
    alloc: Global,
    limits: &mut List<Limit>,
    index: &YearIndex,
    at: Origin,
    item: &Item,
) -> Result<(), Memory>
    ensures { OnOk result (limits.new ≡ limits.old ++ spec.picture_limits index.now at item.now) }
{
    let image = picture_image(alloc, item, index)?;
    add_image(alloc, limits, at, &image)?;
    Ok(())
}

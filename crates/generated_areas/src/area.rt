ghost use Rattle.std.specs.Prelude.{◌≡◌, ◌++◌, IfOk, codes, decimal};
ghost use Rattle.generated_areas.specs.Areas as spec;

use std::alloc::Global;
use y2k_base::{Bytes, List, Memory};

/// An area that a program gets besides its own, an unsigned number in DISPLAY usage: the date of ACCEPT FROM DATE and the
/// same with its century, the same of FROM DAY, and for a bridged move of so many digits its value without and with a
/// century.
#[derive(Clone, Copy, Debug, PartialEq, Eq)]
pub enum GeneratedArea {
    Date,
    FullDate,
    Day,
    FullDay,
    Short(u8),
    Long(u8),
}

impl GeneratedArea {
    /// How many digits it has. It has as many bytes.
    pub fn digits(self) -> u32
        ensures { result ≡ spec.area_digits self }
    {
        match self {
            GeneratedArea::Date => 6,
            GeneratedArea::FullDate => 8,
            GeneratedArea::Day => 5,
            GeneratedArea::FullDay => 7,
            GeneratedArea::Short(digits) => u32::from(digits),
            GeneratedArea::Long(digits) => u32::from(digits) + 2,
        }
    }

    /// Its name.
    pub fn name(self, alloc: Global) -> Result<Bytes, Memory>
        ensures { IfOk result (λ name. name ≡ spec.area_name self) }
    {
        match self {
            GeneratedArea::Date => text_of(alloc, "Y2K-DATE"),
            GeneratedArea::FullDate => text_of(alloc, "Y2K-FULL-DATE"),
            GeneratedArea::Day => text_of(alloc, "Y2K-DAY"),
            GeneratedArea::FullDay => text_of(alloc, "Y2K-FULL-DAY"),
            GeneratedArea::Short(digits) => short_name(alloc, digits),
            GeneratedArea::Long(digits) => long_name(alloc, digits),
        }
    }
}

fn text_of(alloc: Global, text: &str) -> Result<Bytes, Memory>
    ensures { IfOk result (λ name. name ≡ text.now) }
{
    let mut name = List::new(alloc);
    name.append(text.as_bytes())?;
    Ok(name)
}

fn short_name(alloc: Global, digits: u8) -> Result<Bytes, Memory>
    ensures { IfOk result (λ name. name ≡ codes "Y2K-SHORT-" ++ decimal digits) }
{
    let text = format!(in alloc; "Y2K-SHORT-{digits}")?;
    let mut name = List::new(alloc);
    name.append(text.as_bytes())?;
    Ok(name)
}

fn long_name(alloc: Global, digits: u8) -> Result<Bytes, Memory>
    ensures { IfOk result (λ name. name ≡ codes "Y2K-LONG-" ++ decimal digits) }
{
    let text = format!(in alloc; "Y2K-LONG-{digits}")?;
    let mut name = List::new(alloc);
    name.append(text.as_bytes())?;
    Ok(name)
}

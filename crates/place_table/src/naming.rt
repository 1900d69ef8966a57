ghost use Rattle.std.specs.Prelude.{IfOk, IfSome};
ghost use Rattle.layout_reading.specs.Reading.{first_area};
ghost use Rattle.storage_places.specs.Fits.{Fits, area_lengths};
ghost use Rattle.place_table.specs.declared.known.Meaning.TheVariants as meanings;
ghost use Rattle.place_table.specs.Known.{IsSound, IsMeant};

use cobol_syntax::Place;
use data_layout::Layout;
use std::alloc::Global;
use storage_places::{Access, resolve_named};
use y2k_base::Memory;

/// The number of the condition-name that a place means, and its item; `None` where it means none, or several.
pub(crate) fn resolve_name(
    alloc: Global,
    layout: &Layout,
    place: &Place,
) -> Result<Option<(u32, Access)>, Memory>
    requires sound { IsSound layout.now }
    ensures meant { IfOk result (λ name. IfSome name (λ n. IsMeant layout.now place.now (meanings.Name n.0) n.1)) }
    ensures fits { IfOk result (λ name. IfSome name (λ n. Fits (first_area layout.now.areas) (area_lengths layout.now) n.1)) }
{
    match resolve_named(alloc, layout, place)? {
        Some(named) => {
            let name = named.name;
            Ok(Some((name, named.into_access())))
        }
        None => Ok(None),
    }
}

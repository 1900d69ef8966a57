ghost use Rattle.std.specs.Prelude.{◌≡◌, IfOk};
ghost use Rattle.data_layout.specs.Tree.{within, forest, GoesOn};
ghost use Rattle.data_layout.specs.Sizes as sizes;

use crate::number::{item_bytes, product, sum};
use crate::tree::{NAMED, first_within, rank};
use cobol_syntax::Entry;
use y2k_base::Memory;

/// How often an item with this OCCURS stands.
pub(crate) fn times(occurs: Option<u32>) -> u128
    ensures { result ≡ sizes.times occurs }
{
    match occurs {
        Some(count) => u128::from(count),
        None => 1,
    }
}

/// The bytes of one occurrence of an item, where those of its parts are so many.
pub(crate) fn once(entry: &Entry, of_parts: u128) -> Result<u128, Memory>
    ensures { IfOk result (λ bytes. bytes ≡ sizes.once entry.now.picture entry.now of_parts) }
{
    match &entry.picture {
        Some(picture) => {
            let bytes = item_bytes(entry.usage, entry.sign, picture.runs.items())?;
            Ok(bytes)
        }
        None => Ok(of_parts),
    }
}

/// The bytes of all occurrences.
pub(crate) fn bytes_of(entry: &Entry, of_parts: u128) -> Result<u128, Memory>
    ensures { IfOk result (λ bytes. bytes ≡ sizes.bytes_of entry.now of_parts) }
{
    let one = once(entry, of_parts)?;
    let bytes = product(one, times(entry.occurs))?;
    Ok(bytes)
}

/// What an entry adds to the bytes of its group.
pub(crate) fn adds(entry: &Entry, of_parts: u128) -> Result<u128, Memory>
    ensures { IfOk result (λ bytes. bytes ≡ sizes.adds entry.now of_parts) }
{
    if entry.level == NAMED || entry.redefines.is_some() {
        Ok(0)
    } else {
        let bytes = bytes_of(entry, of_parts)?;
        Ok(bytes)
    }
}

/// The bytes of the entries that lie within the rank, and the entries after them.
pub(crate) fn measure(entries: &[Entry], around: u8) -> Result<(u128, &[Entry]), Memory>
    ensures bytes { IfOk result (λ m. m.0 ≡ sizes.total (within around (forest entries.now))) }
    ensures rest { IfOk result (λ m. GoesOn around entries.now m.1.now) }
{
    let mut bytes = 0;
    let mut rest = entries;
    while let Some((entry, inner)) = first_within(rest, around) {
        let (of_parts, after) = measure(inner, rank(entry.level))?;
        bytes = sum(bytes, adds(entry, of_parts)?)?;
        rest = after;
    }
    Ok((bytes, rest))
}

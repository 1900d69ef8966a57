ghost use Rattle.std.specs.Prelude.{◌≡◌, IfOk, IfSome, IfNone, None, Some, map};
ghost use Rattle.std.specs.Char.{to_ascii_uppercase};
ghost use Rattle.name_tables.specs.Table.{held};
ghost use Rattle.window_items.specs.Items as spec;

use cobol_syntax::Program;
use name_tables::NameTable;
use std::alloc::Global;
use y2k_base::{Bytes, List, Memory};

/// The text before and after its first point.
pub(crate) fn parted(text: &[u8]) -> Option<(&[u8], &[u8])>
    ensures some { IfSome result (λ parts. spec.parted text.now ≡ Some (parts.0.now, parts.1.now)) }
    ensures none { IfNone result (spec.parted text.now ≡ None) }
{
    for i in 0..text.len() {
        if text[i] == b'.' {
            return Some((&text[..i], &text[i..][1..]));
        }
    }
    None
}

pub(crate) fn capitals(alloc: Global, text: &[u8]) -> Result<Bytes, Memory>
    ensures { IfOk result (λ capitals. capitals ≡ map to_ascii_uppercase text.now) }
{
    let mut capitals = List::new(alloc);
    let mut rest = text;
    while let [byte, more @ ..] = rest {
        capitals.push(byte.to_ascii_uppercase())?;
        rest = more;
    }
    Ok(capitals)
}

/// The numbers of programs by their names; of several with one name the first. A number past 32 bits is want of memory.
pub(crate) fn numbers_of(alloc: Global, programs: &[Program]) -> Result<NameTable<'_, u32>, Memory>
    ensures { IfOk result (λ table. held table ≡ spec.numbers_from 0 programs.now) }
{
    let mut table = NameTable::new(alloc);
    let mut i = programs.len();
    while i > 0 {
        i -= 1;
        match u32::try_from(i) {
            Ok(number) => table.put(programs[i].id.items(), number)?,
            Err(_) => return Err(Memory),
        }
    }
    Ok(table)
}

ghost use Rattle.std.specs.Prelude.{◌≡◌, ◌++◌, IfOk, string_bytes};
ghost use Rattle.written_names.specs.Clashes.{under};

use std::alloc::Global;
use std::str;
use y2k_base::{Bytes, List, Memory};

/// A name in the folder that a form writes, as the shelf takes it. A name that is no text is want of memory: the names of
/// a manifest are text.
pub fn name_under(alloc: Global, out: &str, name: &[u8]) -> Result<String, Memory>
    ensures { IfOk result (λ whole. string_bytes whole ≡ under out.now name.now) }
{
    match str::from_utf8(name) {
        Ok(name) => {
            let whole = format!(in alloc; "{out}/{name}")?;
            Ok(whole)
        }
        Err(_) => Err(Memory),
    }
}

/// A name that is relative to a folder, which is empty or ends in `/`, as the shelf takes it. A name that is no text is want
/// of memory.
pub fn name_in(alloc: Global, folder: &str, name: &[u8]) -> Result<String, Memory>
    ensures { IfOk result (λ whole. string_bytes whole ≡ folder.now ++ name.now) }
{
    match str::from_utf8(name) {
        Ok(name) => {
            let whole = format!(in alloc; "{folder}{name}")?;
            Ok(whole)
        }
        Err(_) => Err(Memory),
    }
}

/// A name after its folder.
pub(crate) fn joined(alloc: Global, folder: &[u8], name: &[u8]) -> Result<Bytes, Memory>
    ensures { IfOk result (λ whole. whole ≡ folder.now ++ name.now) }
{
    let mut whole = List::new(alloc);
    whole.append(folder)?;
    whole.append(name)?;
    Ok(whole)
}

/// A name in the folder that a form writes, as bytes.
pub(crate) fn bytes_under(alloc: Global, out: &[u8], name: &[u8]) -> Result<Bytes, Memory>
    ensures { IfOk result (λ whole. whole ≡ under out.now name.now) }
{
    let mut whole = List::new(alloc);
    whole.append(out)?;
    whole.append(b"/")?;
    whole.append(name)?;
    Ok(whole)
}

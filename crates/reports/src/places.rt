ghost use Rattle.std.specs.Prelude.{◌≡◌, ◌++◌, codes, decimal, IfOk, OnOk, string_bytes, slice_get};
ghost use Rattle.reports.specs.Places as spec;

use std::alloc::{AllocError, Global};
use y2k_base::{Bytes, Memory, Origin, Text};

/// Adds FILE:LINE:COLUMN.
pub(crate) fn push_place(
    alloc: Global,
    at: &mut Bytes,
    texts: &[Text],
    origin: Origin,
) -> Result<(), Memory>
    ensures { OnOk result (at.new ≡ at.old ++ spec.place_text texts.now origin) }
{
    at.append(text_name(texts, origin))?;
    let rest = after_file(alloc, origin)?;
    at.append(rest.as_bytes())
}

fn text_name(texts: &[Text], origin: Origin) -> &[u8]
    ensures { result.now ≡ spec.text_name (slice_get texts.now origin.file.0) }
{
    match texts.get(origin.file.0 as usize) {
        Some(text) => text.name.items(),
        None => &[],
    }
}

fn after_file(alloc: Global, origin: Origin) -> Result<String, AllocError>
    ensures { IfOk result (λ text. string_bytes text ≡ codes ":" ++ (decimal origin.line ++ (codes ":" ++ decimal origin.column))) }
{
    let Origin { line, column, .. } = origin;
    format!(in alloc; ":{line}:{column}")
}

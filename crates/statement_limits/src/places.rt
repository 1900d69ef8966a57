ghost use Rattle.std.specs.Prelude.{◌≡◌, ◌+◌, ◌||◌, IfOk};
ghost use Rattle.year_labels.specs.Facts as facts;

use y2k_base::{BytePlace, Memory, Span};

/// Byte `index` of a span, or the byte behind it. A byte that 32 bits can't address is want of memory.
pub(crate) fn place_in(span: Span, index: u32) -> Result<BytePlace, Memory>
    ensures { IfOk result (λ place. place ≡ facts.place_in span index) }
{
    match span.offset.checked_add(index) {
        None => Err(Memory),
        Some(offset) => Ok(BytePlace {
            area: span.area,
            offset,
        }),
    }
}

pub(crate) fn next_index(index: u32) -> Result<u32, Memory>
    ensures { IfOk result (λ next. next ≡ index + 1) }
{
    match index.checked_add(1) {
        None => Err(Memory),
        Some(next) => Ok(next),
    }
}

pub(crate) fn either(first: bool, second: bool) -> bool
    ensures { result ≡ (first || second) }
{
    first || second
}

ghost use Rattle.std.specs.Prelude.{◌≡◌, ◌+◌, ◌-◌, ◌*◌, ◌^◌, ◌<◌, ◌∷◌, length, map};
ghost use Rattle.layout_reading.specs.Reading.{read_step};
ghost use Rattle.program_meaning.specs.Start.{occurrences};
ghost use Rattle.storage_places.specs.Fits.{farthest, last_span};
ghost use Rattle.storage_places.specs.Held.{held, first, lengths, IsWithin};
ghost use Rattle.storage_start.specs.Writes.{writes};

use data_layout::Step;
use storage_places::Storage;
use y2k_base::Span;

/// Sets the bytes of each occurrence of an item. The span is the first of them.
#[cycle(occurrence)]
pub(crate) fn set_each(storage: &mut Storage, span: Span, steps: &[Step], bytes: &[u8])
    requires first_occurrence { IsWithin (first storage.old) (lengths (held storage.old)) span }
    requires last_occurrence { IsWithin (first storage.old) (lengths (held storage.old)) (last_span span steps.now) }
    requires short { span.offset + farthest steps.now + span.length < 2 ^ 32 }
    requires length { length bytes.now ≡ span.length }
    ensures held { held storage.new ≡ writes (span.area.0 - first storage.old) span.length (held storage.old)
        (occurrences (map read_step steps.now) span.offset) bytes.now }
    ensures first { first storage.new ≡ first storage.old }
    ensures lengths { lengths (held storage.new) ≡ lengths (held storage.old) }
{
    match steps {
        [] => storage.set(span, bytes),
        [step, more @ ..] => set_elements(storage, span, *step, more, bytes),
    }
}

/// Sets the bytes of each occurrence in each element.
#[cycle(occurrence)]
fn set_elements(storage: &mut Storage, span: Span, step: Step, more: &[Step], bytes: &[u8])
    requires first_occurrence { IsWithin (first storage.old) (lengths (held storage.old)) span }
    requires last_occurrence { IsWithin (first storage.old) (lengths (held storage.old)) (last_span span (step ∷ more.now)) }
    requires short { span.offset + farthest (step ∷ more.now) + span.length < 2 ^ 32 }
    requires length { length bytes.now ≡ span.length }
    ensures held { held storage.new ≡ writes (span.area.0 - first storage.old) span.length (held storage.old)
        (occurrences (map read_step (step ∷ more.now)) span.offset) bytes.now }
    ensures first { first storage.new ≡ first storage.old }
    ensures lengths { lengths (held storage.new) ≡ lengths (held storage.old) }
{
    for k in 0..step.count {
        set_each(storage, element(span, step.size, k), more, bytes);
    }
}

/// The first occurrence in the element of this number.
fn element(span: Span, size: u32, k: u32) -> Span
    requires { span.offset + k * size < 2 ^ 32 }
    ensures { result ≡ record { area = span.area; offset = span.offset + k * size; length = span.length } }
{
    Span {
        area: span.area,
        offset: span.offset + k * size,
        length: span.length,
    }
}

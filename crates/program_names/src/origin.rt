ghost use Rattle.std.specs.Prelude.{◌≡◌};
ghost use Rattle.data_layout.specs.Faults.{origin_at};
ghost use Rattle.program_names.specs.Repeats as spec;

use program_reader::{ReadFault, Refused, RefusedKind};
use y2k_base::{FileId, Origin, Word};

fn origin_at(words: &[Word], at: usize) -> Origin
    ensures { result ≡ origin_at words.now at }
{
    match words.get(at) {
        Some(word) => word.origin,
        None => Origin {
            file: FileId(0),
            line: 0,
            column: 0,
        },
    }
}

/// The refusal of this kind at the word of that position.
pub(crate) fn refusal(kind: RefusedKind, words: &[Word], at: usize) -> ReadFault
    ensures { result ≡ ReadFault.Refused (spec.refusal kind words.now at) }
{
    ReadFault::Refused(Refused {
        kind,
        at: origin_at(words, at),
    })
}

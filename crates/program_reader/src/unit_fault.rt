ghost use Rattle.std.specs.Prelude.{◌≡◌};
ghost use Rattle.program_reader.specs.UnitFaults as spec;

use crate::fault::{Refused, RefusedKind};
use crate::text::Units;
use cond_reader::UnitFault;
use y2k_base::Origin;

/// The refusal for a fault of a unit. Want of memory, which is none, would name the last word.
fn refused_of(fault: UnitFault, last: Origin) -> Refused
    ensures { result ≡ spec.refused_of last fault }
{
    match fault {
        UnitFault::UnitShape(at) => Refused {
            kind: RefusedKind::UnitShape,
            at,
        },
        UnitFault::NestDeep(at) => Refused {
            kind: RefusedKind::NestDeep,
            at,
        },
        UnitFault::Memory => Refused {
            kind: RefusedKind::UnitShape,
            at: last,
        },
    }
}

impl<'a> Units<'a> {
    ghost use Rattle.program_reader.specs.View.{view_of};

    /// The place of the last word; line 1, column 1 where there is none.
    #[tactic(auto, unfolding(crate::specs::UnitFaults::last_place))]
    fn last_place(&self) -> Origin
        ensures { result ≡ spec.last_place (view_of self.now) }
    {
        let count = self.parts.words.len();
        if count == 0 {
            Origin {
                file: self.file,
                line: 1,
                column: 1,
            }
        } else {
            self.parts.words[count - 1].origin
        }
    }

    /// Why no unit that may stand at a position is read there. Past the last word a unit is missing.
    #[tactic(auto, unfolding(crate::specs::UnitFaults::fault))]
    pub fn fault(&self, at: u32) -> Refused
        ensures { result ≡ spec.fault (view_of self.now) at }
    {
        let last = self.last_place();
        if (at as usize) < self.parts.words.len() {
            refused_of(self.parts.unit_fault(at), last)
        } else {
            Refused {
                kind: RefusedKind::UnitShape,
                at: last,
            }
        }
    }
}

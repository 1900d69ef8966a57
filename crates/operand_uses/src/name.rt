ghost use Rattle.std.specs.Prelude.{◌≡◌};
ghost use Rattle.operand_uses.specs.Order as order;
ghost use Rattle.operand_uses.specs.Places as spec;

use crate::fault::{NameKind, Trouble, UseFault};
use data_layout::Found;

/// The fault of the name of a file, a record or a paragraph.
pub fn name_fault(owner: u32, wrong: Option<NameKind>) -> Option<UseFault>
    ensures { result ≡ order.name_fault owner wrong }
{
    match wrong {
        None => None,
        Some(kind) => Some(UseFault {
            owner,
            trouble: Trouble::Name(kind),
        }),
    }
}

/// The fault of an identifier.
pub fn fault_at(owner: u32, at: u32, wrong: Option<NameKind>) -> Option<UseFault>
    ensures { result ≡ order.fault_at owner at wrong }
{
    match wrong {
        None => None,
        Some(kind) => Some(UseFault {
            owner,
            trouble: Trouble::Place { at, kind },
        }),
    }
}

/// What is wrong with a name that is to mean an item.
pub fn wrong_item(found: Found) -> Option<NameKind>
    ensures { result ≡ spec.wrong_item found }
{
    match found {
        Found::Item(_) => None,
        Found::Named(_) => Some(NameKind::Unknown),
        Found::Unknown => Some(NameKind::Unknown),
        Found::Twice => Some(NameKind::Twice),
    }
}

/// What is wrong with a name that is to mean a condition-name.
pub fn wrong_cond(found: Found) -> Option<NameKind>
    ensures { result ≡ spec.wrong_cond found }
{
    match found {
        Found::Item(_) => Some(NameKind::Unknown),
        Found::Named(_) => None,
        Found::Unknown => Some(NameKind::Unknown),
        Found::Twice => Some(NameKind::Twice),
    }
}

/// What is wrong with one of two names: that one is unknown comes before that one is there twice.
pub fn worse(first: Option<NameKind>, second: Option<NameKind>) -> Option<NameKind>
    ensures { result ≡ spec.worse first second }
{
    match first {
        None => second,
        Some(NameKind::Unknown) => first,
        Some(NameKind::Twice) => match second {
            None => first,
            Some(_) => second,
        },
    }
}

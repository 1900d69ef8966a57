ghost use Rattle.std.specs.Prelude.{◌≡◌, ◌∷◌, ◌++◌, [], OnOk};
ghost use Rattle.plan_limits.specs.Limits as spec;

use std::alloc::Global;
use y2k_base::{BytePlace, Bytes, List, Memory, Origin};

/// What a limit is, in the order in which limits are looked for. `LowLiteral` is no limit of a plan.
#[derive(Clone, Copy, Debug, PartialEq, Eq, PartialOrd, Ord)]
pub enum LimitKind {
    SplitYear,
    ShapeMix,
    Undecided,
    TooManyDigits,
    PictureFull,
    BadYearLiteral,
    LiteralFull,
    PackedOrder,
    AreaFull,
    NameTaken,
    WindowShape,
    LiteralOutsideWindow,
    RangeAcrossPivot,
    SizeErrorInWindow,
    MixedCompare,
    PivotClash,
    CopyClash,
    LowLiteral,
}

/// What shows a limit.
#[derive(Debug)]
pub enum Kept {
    Place(BytePlace),
    Number(u64),
    Word(Bytes),
    Words(Bytes, Bytes),
}

impl Drop for Kept {
    fn drop(self) {
        match self {
            Kept::Place(_) => {}
            Kept::Number(_) => {}
            Kept::Word(_word) => {}
            Kept::Words(_first, _second) => {}
        }
    }
}

/// Something that stands against a conversion, and where.
#[derive(Debug)]
pub struct Limit {
    pub kind: LimitKind,
    pub at: Origin,
    pub kept: Kept,
}

impl Drop for Limit {
    fn drop(self) {
        let Limit {
            kind: _,
            at: _,
            kept: _kept,
        } = self;
    }
}

/// Adds a limit that a place shows.
pub fn add_place_limit(
    limits: &mut List<Limit>,
    kind: LimitKind,
    at: Origin,
    place: BytePlace,
) -> Result<(), Memory>
    ensures { OnOk result (limits.new ≡ limits.old ++ spec.place_limit kind at place ∷ []) }
{
    limits.push(Limit {
        kind,
        at,
        kept: Kept::Place(place),
    })
}

/// Adds a limit that a number shows.
pub fn add_number_limit(
    limits: &mut List<Limit>,
    kind: LimitKind,
    at: Origin,
    number: u64,
) -> Result<(), Memory>
    ensures { OnOk result (limits.new ≡ limits.old ++ spec.number_limit kind at number ∷ []) }
{
    limits.push(Limit {
        kind,
        at,
        kept: Kept::Number(number),
    })
}

/// Adds a limit that a word shows.
pub fn add_word_limit(
    alloc: Global,
    limits: &mut List<Limit>,
    kind: LimitKind,
    at: Origin,
    word: &[u8],
) -> Result<(), Memory>
    ensures { OnOk result (limits.new ≡ limits.old ++ spec.word_limit kind at word.now ∷ []) }
{
    let mut text = List::new(alloc);
    text.append(word)?;
    limits.push(Limit {
        kind,
        at,
        kept: Kept::Word(text),
    })
}

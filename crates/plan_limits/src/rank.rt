ghost use Rattle.std.specs.Prelude.{◌≡◌, ◌==◌};
ghost use Rattle.std.specs.Ordering.{nat_cmp};
ghost use Rattle.std.specs.Cmp.Lexicographic.{slice_cmp};
ghost use Rattle.plan_limits.specs.First as spec;
ghost use Rattle.plan_limits.specs.declared.limit.Kept.TheVariants as kept;
ghost use Rattle.plan_limits.specs.declared.limit.LimitKind.TheVariants as kinds;

use crate::limit::{Kept, Limit, LimitKind};
use std::cmp::Ordering;
use y2k_base::{BytePlace, Bytes};

impl LimitKind {
    /// The number of the kind in the order in which limits are looked for.
    pub(crate) fn number(self) -> u8
        ensures { result ≡ spec.kind_number self }
    {
        match self {
            LimitKind::SplitYear => 0,
            LimitKind::ShapeMix => 1,
            LimitKind::Undecided => 2,
            LimitKind::TooManyDigits => 3,
            LimitKind::PictureFull => 4,
            LimitKind::BadYearLiteral => 5,
            LimitKind::LiteralFull => 6,
            LimitKind::PackedOrder => 7,
            LimitKind::AreaFull => 8,
            LimitKind::NameTaken => 9,
            LimitKind::WindowShape => 10,
            LimitKind::LiteralOutsideWindow => 11,
            LimitKind::RangeAcrossPivot => 12,
            LimitKind::SizeErrorInWindow => 13,
            LimitKind::MixedCompare => 14,
            LimitKind::PivotClash => 15,
            LimitKind::CopyClash => 16,
            LimitKind::LowLiteral => 17,
        }
    }
}

impl Kept {
    /// Which of two comes first: places by area and offset, numbers, words by their bytes.
    fn compare(&self, other: &Kept) -> Ordering
        ensures { result ≡ slice_cmp nat_cmp (spec.kept_rank self.now) (spec.kept_rank other.now) }
    {
        match self {
            Kept::Place(place) => compare_place(*place, other),
            Kept::Number(number) => compare_number(*number, other),
            Kept::Word(word) => compare_word(word, other),
            Kept::Words(first, second) => compare_words(first, second, other),
        }
    }
}

#[tactic(auto, using(crate::proofs::Ranks::tied_last))]
fn compare_place(place: BytePlace, other: &Kept) -> Ordering
    ensures { result ≡ slice_cmp nat_cmp (spec.kept_rank (kept.Place place)) (spec.kept_rank other.now) }
{
    match other {
        Kept::Place(second) => {
            let areas = place.area.0.cmp(&second.area.0);
            areas.then(place.offset.cmp(&second.offset))
        }
        Kept::Number(_) => Ordering::Less,
        Kept::Word(_) => Ordering::Less,
        Kept::Words(_, _) => Ordering::Less,
    }
}

#[tactic(auto, using(crate::proofs::Ranks::tied_last))]
fn compare_number(number: u64, other: &Kept) -> Ordering
    ensures { result ≡ slice_cmp nat_cmp (spec.kept_rank (kept.Number number)) (spec.kept_rank other.now) }
{
    match other {
        Kept::Place(_) => Ordering::Greater,
        Kept::Number(second) => number.cmp(second),
        Kept::Word(_) => Ordering::Less,
        Kept::Words(_, _) => Ordering::Less,
    }
}

fn compare_word(word: &Bytes, other: &Kept) -> Ordering
    ensures { result ≡ slice_cmp nat_cmp (spec.kept_rank (kept.Word word.now)) (spec.kept_rank other.now) }
{
    match other {
        Kept::Place(_) => Ordering::Greater,
        Kept::Number(_) => Ordering::Greater,
        Kept::Word(second) => word.items().cmp(second.items()),
        Kept::Words(_, _) => Ordering::Less,
    }
}

#[tactic(auto, using(crate::proofs::Ranks::ended_cmp))]
fn compare_words(first: &Bytes, second: &Bytes, other: &Kept) -> Ordering
    ensures { result ≡ slice_cmp nat_cmp (spec.kept_rank (kept.Words first.now second.now)) (spec.kept_rank other.now) }
{
    match other {
        Kept::Place(_) => Ordering::Greater,
        Kept::Number(_) => Ordering::Greater,
        Kept::Word(_) => Ordering::Greater,
        Kept::Words(one, two) => {
            let firsts = first.items().cmp(one.items());
            firsts.then(second.items().cmp(two.items()))
        }
    }
}

impl Limit {
    /// Whether the limit is a sum of which nothing tells whether it is one of years.
    fn is_undecided(&self) -> bool
        ensures { result ≡ (spec.kind_number self.now.kind == spec.kind_number kinds.Undecided) }
    {
        self.kind.number() == LimitKind::Undecided.number()
    }

    /// Which of two limits comes first by what is kept. Undecided sums tie.
    #[tactic(auto, using(crate::proofs::Ranks::none_first, crate::proofs::Ranks::none_last))]
    pub(crate) fn compare_shown(&self, other: &Limit) -> Ordering
        ensures { result ≡ slice_cmp nat_cmp (spec.shown_rank self.now.kind self.now.kept) (spec.shown_rank other.now.kind other.now.kept) }
    {
        if self.is_undecided() {
            if other.is_undecided() {
                Ordering::Equal
            } else {
                Ordering::Less
            }
        } else {
            if other.is_undecided() {
                Ordering::Greater
            } else {
                self.kept.compare(&other.kept)
            }
        }
    }
}

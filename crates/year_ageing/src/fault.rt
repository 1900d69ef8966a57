/// What is wrong with a cut.
#[derive(Clone, Copy, PartialEq, Eq, Debug)]
pub enum AgeKind {
    /// It is not tame.
    Untame,
    /// It is not the image of a tame one.
    NotImage,
    /// It is well formed, and its year would leave 0 to 99, or its window.
    YearRange,
}

/// The first cut at fault of a record: what is wrong, and the offset in the record where the cut begins.
#[derive(Clone, Copy, PartialEq, Eq, Debug)]
pub struct AgeFault {
    pub kind: AgeKind,
    pub offset: u32,
}

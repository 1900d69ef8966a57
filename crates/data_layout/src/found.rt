ghost use Rattle.std.specs.Prelude.{◌≡◌};
ghost use Rattle.data_layout.specs.Find as spec;

/// What a data name means: an item or a condition-name by its number, nothing, or more than one thing.
#[derive(Clone, Copy, Debug, PartialEq, Eq)]
pub enum Found {
    Item(u32),
    Named(u32),
    Unknown,
    Twice,
}

impl Found {
    pub(crate) fn with(self, other: Found) -> Found
        ensures { result ≡ spec.with self other }
    {
        match self {
            Found::Unknown => other,
            Found::Item(_) => self.unless(other),
            Found::Named(_) => self.unless(other),
            Found::Twice => Found::Twice,
        }
    }

    /// This, unless there is another.
    fn unless(self, other: Found) -> Found
        ensures { result ≡ spec.unless self other }
    {
        match other {
            Found::Unknown => self,
            Found::Item(_) => Found::Twice,
            Found::Named(_) => Found::Twice,
            Found::Twice => Found::Twice,
        }
    }
}

ghost use Rattle.std.specs.Prelude.{◌≡◌, ◌↔◌, IsTrue};

use y2k_base::BytePlace;

/// What a byte has to do with years. `Tens` and `Units` are the bytes of the two digits of a year, and
/// `Plain` is a byte that no year digit may stand in. `Packed` is a byte of a packed number: of how many
/// digits the number is, at which power of ten the units digit of its year stands, and which byte of the
/// number this is, from 0.
#[derive(Clone, Copy, Debug, PartialEq, Eq, PartialOrd, Ord)]
pub enum Label {
    Tens,
    Units,
    Plain,
    Packed { digits: u8, unit: u8, byte: u8 },
}

/// That a byte bears a label. A byte may bear several.
#[derive(Clone, Copy, Debug, PartialEq, Eq, PartialOrd, Ord)]
pub struct Fact {
    pub place: BytePlace,
    pub label: Label,
}

/// A fact that the user gives, and the row of the seed file that it stands in, from 1.
#[derive(Clone, Copy, Debug, PartialEq, Eq)]
pub struct Seed {
    pub fact: Fact,
    pub row: u32,
}

/// What a digit of a number is: the tens or the units digit of a year of two digits, or no digit of a year.
#[derive(Clone, Copy, Debug, PartialEq, Eq)]
pub enum Role {
    Tens,
    Units,
    Plain,
}

/// Whether the labels contradict each other on one byte. Any two labels that differ do.
pub fn unlike(first: Label, second: Label) -> bool
    ensures { IsTrue result ↔ (first ≡ second → ⊥) }
{
    first != second
}

ghost use Rattle.std.specs.Prelude.{◌≡◌, ℕ, List, Option};
ghost use Rattle.data_layout.specs.declared.portfolio.Portfolio.{Portfolio};
ghost use Rattle.seed_file.specs.Seeds.{HasSeedFault};
ghost use Rattle.shelf.specs.Contents.{Files};
ghost use Rattle.text_load.specs.Texts.{HasLoadFault};
ghost use Rattle.seed_load.specs.Shelved as spec;

use seed_file::SeedFault;
use text_load::LoadFault;

/// Why there are no seeds, in the order in which the reasons are looked for. The file is the one that the manifest
/// names.
#[derive(Clone, Copy, Debug, PartialEq, Eq)]
pub enum SeedRefusal {
    /// The shelf has no such file.
    Missing,
    /// With it the bytes of the manifest, the texts and the seeds pass their bound.
    TooLarge,
    /// The row of that number is none, or the first isn't the header.
    RowShape(u32),
    /// The row of that number names no item that can have its seeds.
    SeedUnknown(u32),
    /// The shelf failed.
    Shelf,
    /// There was no memory left.
    Memory,
}

pub(crate) fn unloaded(fault: LoadFault) -> SeedRefusal
    ensures cause { (name : List ℕ) → (used : ℕ) → (told : Option Files) → (p : Portfolio) → HasLoadFault name used told fault → spec.IsRefusedAt name used told p result }
    ensures shelf { result ≡ SeedRefusal.Shelf → fault ≡ LoadFault.Shelf }
{
    match fault {
        LoadFault::Missing => SeedRefusal::Missing,
        LoadFault::TooLarge => SeedRefusal::TooLarge,
        LoadFault::Shelf => SeedRefusal::Shelf,
        LoadFault::Memory => SeedRefusal::Memory,
    }
}

pub(crate) fn unread(fault: SeedFault) -> SeedRefusal
    ensures cause { (bytes : List ℕ) → (p : Portfolio) → HasSeedFault p bytes fault → spec.IsRefusedText p bytes result }
    ensures inside { result ≡ SeedRefusal.Shelf → ⊥ }
{
    match fault {
        SeedFault::RowShape(row) => SeedRefusal::RowShape(row),
        SeedFault::SeedUnknown(row) => SeedRefusal::SeedUnknown(row),
        SeedFault::Memory => SeedRefusal::Memory,
    }
}

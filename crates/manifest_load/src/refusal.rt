ghost use Rattle.std.specs.Prelude.{◌≡◌, ℕ, List, Option};
ghost use Rattle.shelf.specs.Contents.{Files};
ghost use Rattle.text_load.specs.Texts.{HasLoadFault};
ghost use Rattle.manifest_load.specs.Documents.{HasManifestRefusal, IsAs};

use portfolio::{ManifestFault, ManifestKind};
use std::alloc::Global;
use text_load::LoadFault;
use y2k_base::{Bytes, Twin};

/// Why there is no manifest, in the order in which the reasons are looked for.
pub enum ManifestRefusal {
    /// The shelf has no file of that name.
    Missing,
    /// The file alone passes the bound on the bytes of a portfolio's texts.
    TooLarge,
    /// The file is no TOML document, or not text at all.
    NotToml,
    /// A key is at fault; of `NameTwice` the key is the name.
    At { kind: ManifestKind, key: Bytes },
    /// The shelf failed.
    Shelf,
    /// There was no memory left.
    Memory,
}

impl Drop for ManifestRefusal {
    fn drop(self) {
        match self {
            ManifestRefusal::Missing => {}
            ManifestRefusal::TooLarge => {}
            ManifestRefusal::NotToml => {}
            ManifestRefusal::At { kind: _, key: _key } => {}
            ManifestRefusal::Shelf => {}
            ManifestRefusal::Memory => {}
        }
    }
}

pub(crate) fn unloaded(fault: LoadFault) -> ManifestRefusal
    ensures cause { (name : List ℕ) → (told : Option Files) → HasLoadFault name 0 told fault → HasManifestRefusal name told result }
    ensures shelf { result ≡ ManifestRefusal.Shelf → fault ≡ LoadFault.Shelf }
{
    match fault {
        LoadFault::Missing => ManifestRefusal::Missing,
        LoadFault::TooLarge => ManifestRefusal::TooLarge,
        LoadFault::Shelf => ManifestRefusal::Shelf,
        LoadFault::Memory => ManifestRefusal::Memory,
    }
}

/// The refusal that a fault is; where there is no memory for its key, want of memory.
pub(crate) fn refused(alloc: Global, fault: &ManifestFault) -> ManifestRefusal
    ensures { IsAs fault.now result }
{
    match fault {
        ManifestFault::At { kind, key } => match key.twin(alloc) {
            Ok(key) => ManifestRefusal::At { kind: *kind, key },
            Err(_) => ManifestRefusal::Memory,
        },
        ManifestFault::Memory => ManifestRefusal::Memory,
    }
}

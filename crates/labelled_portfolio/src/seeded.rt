ghost use Rattle.std.specs.Prelude.{◌≡◌, ◌≤◌, IfOk, IfErr};
ghost use Rattle.std.specs.List.{AllByRecursion};
ghost use Rattle.data_layout.specs.Index.{IsReady};
ghost use Rattle.gathered.specs.Sound.{IsSound};
ghost use Rattle.labelled_portfolio.specs.Labelled.{HasRefusal, HasSeedCause, RoseBy};
ghost use Rattle.labelled_portfolio.specs.Seeded as spec;

use crate::refusal::Refusal;
use gathered::{Gathered, gather};
use manifest_load::Opened;
use seed_load::{bytes_of, load_seeds};
use shelf::Shelf;
use std::alloc::Global;
use y2k_base::List;
use year_labels::Seed;

/// A portfolio with its texts and its seeds, in the order of their rows.
pub struct Seeded {
    pub gathered: Gathered,
    pub seeds: List<Seed>,
}

impl Drop for Seeded {
    fn drop(self) {
        let Seeded {
            gathered: _gathered,
            seeds: _seeds,
        } = self;
    }
}

/// The portfolio of a manifest with its seeds, or the first refusal: that of `gather`, and then that of the seed file,
/// whose bytes count with those of the manifest and the texts.
pub fn seed_portfolio<S: Shelf>(
    alloc: Global,
    opened: &Opened,
    shelf: &mut S,
) -> Result<Seeded, Refusal>
    ensures seeded { IfOk result (spec.IsSeeded (S.told shelf.old) opened.now) }
    ensures sound { IfOk result (λ s. IsSound s.gathered.portfolio) }
    ensures ready { IfOk result (λ s. AllByRecursion IsReady s.gathered.portfolio.layouts) }
    ensures refusal { IfErr result (HasRefusal (S.told shelf.old) opened.now) }
    ensures rose { IfErr result (λ refusal. RoseBy refusal (S.faults shelf.old) (S.faults shelf.new)) }
    ensures later { S.faults shelf.old ≤ S.faults shelf.new }
    ensures same { S.told shelf.new ≡ S.told shelf.old }
{
    let folder = opened.folder.as_str();
    match gather(alloc, &opened.manifest, folder, opened.length, shelf) {
        Ok(gathered) => match seeded_of(alloc, opened, gathered, shelf) {
            Ok(seeded) => Ok(seeded),
            Err(refusal) => Err(refusal),
        },
        Err(fault) => Err(Refusal::Portfolio(fault)),
    }
}

/// A portfolio with the seeds of the manifest's seed file.
fn seeded_of<S: Shelf>(
    alloc: Global,
    opened: &Opened,
    gathered: Gathered,
    shelf: &mut S,
) -> Result<Seeded, Refusal>
    requires { AllByRecursion IsReady gathered.portfolio.layouts }
    ensures gathered { IfOk result (λ s. s.gathered ≡ gathered) }
    ensures seeds { IfOk result (λ s. spec.AreSeedsFor (S.told shelf.old) opened.now gathered.texts.list gathered.portfolio s.seeds) }
    ensures refusal { IfErr result (HasSeedCause (S.told shelf.old) opened.now gathered) }
    ensures rose { IfErr result (λ refusal. RoseBy refusal (S.faults shelf.old) (S.faults shelf.new)) }
    ensures later { S.faults shelf.old ≤ S.faults shelf.new }
    ensures same { S.told shelf.new ≡ S.told shelf.old }
{
    match bytes_of(opened.length, gathered.texts.list.items()) {
        Ok(used) => match seeds_for(alloc, opened, used, &gathered, shelf) {
            Ok(seeds) => Ok(Seeded { gathered, seeds }),
            Err(refusal) => Err(refusal),
        },
        Err(_) => Err(Refusal::Memory),
    }
}

/// The seeds of the manifest's seed file, where the manifest and the texts have so many bytes.
fn seeds_for<S: Shelf>(
    alloc: Global,
    opened: &Opened,
    used: u64,
    gathered: &Gathered,
    shelf: &mut S,
) -> Result<List<Seed>, Refusal>
    requires ready { AllByRecursion IsReady gathered.now.portfolio.layouts }
    requires sum { used ≡ spec.bytes_before opened.now gathered.now.texts.list }
    ensures seeds { IfOk result (spec.AreSeedsFor (S.told shelf.old) opened.now gathered.now.texts.list gathered.now.portfolio) }
    ensures refusal { IfErr result (HasSeedCause (S.told shelf.old) opened.now gathered.now) }
    ensures rose { IfErr result (λ refusal. RoseBy refusal (S.faults shelf.old) (S.faults shelf.new)) }
    ensures later { S.faults shelf.old ≤ S.faults shelf.new }
    ensures same { S.told shelf.new ≡ S.told shelf.old }
{
    let folder = opened.folder.as_str();
    let name = &opened.manifest.seeds;
    match load_seeds(alloc, name, folder, used, &gathered.portfolio, shelf) {
        Ok(seeds) => Ok(seeds),
        Err(refusal) => Err(Refusal::Seeds(refusal)),
    }
}

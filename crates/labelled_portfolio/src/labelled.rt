ghost use Rattle.std.specs.Prelude.{◌≡◌, ◌≤◌, IfOk, IfErr};
ghost use Rattle.std.specs.List.{AllByRecursion};
ghost use Rattle.data_layout.specs.Index.{IsReady};
ghost use Rattle.gathered.specs.Sound.{IsSound};
ghost use Rattle.labelled_portfolio.specs.Labelled as spec;

use crate::labels::{Labels, labels_of};
use crate::refusal::Refusal;
use crate::seeded::{Seeded, seed_portfolio};
use manifest_load::Opened;
use shelf::Shelf;
use std::alloc::Global;
use window_items::{Windows, windows_of};

/// A portfolio with its seeds, its windows and its labels.
pub struct Labelled {
    pub seeded: Seeded,
    pub windows: Windows,
    pub labels: Labels,
}

impl Drop for Labelled {
    fn drop(self) {
        let Labelled {
            seeded: _seeded,
            windows: _windows,
            labels: _labels,
        } = self;
    }
}

/// The labelled portfolio of a manifest, or the first refusal: the texts, the seed file, and then the window items. What
/// a command refuses between the manifest and its texts, it looks at before this call.
pub fn label_portfolio<S: Shelf>(
    alloc: Global,
    opened: &Opened,
    shelf: &mut S,
) -> Result<Labelled, Refusal>
    ensures labelled { IfOk result (spec.IsLabelled (S.told shelf.old) opened.now) }
    ensures sound { IfOk result (λ l. IsSound l.seeded.gathered.portfolio) }
    ensures ready { IfOk result (λ l. AllByRecursion IsReady l.seeded.gathered.portfolio.layouts) }
    ensures refusal { IfErr result (spec.HasRefusal (S.told shelf.old) opened.now) }
    ensures rose { IfErr result (λ refusal. spec.RoseBy refusal (S.faults shelf.old) (S.faults shelf.new)) }
    ensures later { S.faults shelf.old ≤ S.faults shelf.new }
    ensures same { S.told shelf.new ≡ S.told shelf.old }
{
    match seed_portfolio(alloc, opened, shelf) {
        Ok(seeded) => match labelled_of(alloc, opened, seeded) {
            Ok(labelled) => Ok(labelled),
            Err(refusal) => Err(refusal),
        },
        Err(refusal) => Err(refusal),
    }
}

/// The windows and the labels of a portfolio with its seeds.
fn labelled_of(alloc: Global, opened: &Opened, seeded: Seeded) -> Result<Labelled, Refusal>
    requires { AllByRecursion IsReady seeded.gathered.portfolio.layouts }
    ensures labelled { IfOk result (spec.IsLabelledFrom opened.now seeded) }
    ensures refusal { IfErr result (spec.HasWindowCause opened.now seeded) }
{
    match windows_of(alloc, &opened.manifest, &seeded.gathered.portfolio) {
        Ok(windows) => {
            match labels_of(alloc, &seeded.gathered.portfolio, seeded.seeds.items()) {
                Ok(labels) => Ok(Labelled {
                    seeded,
                    windows,
                    labels,
                }),
                Err(_) => Err(Refusal::Memory),
            }
        }
        Err(fault) => Err(Refusal::Windows(fault)),
    }
}

ghost use Rattle.std.specs.Prelude.{◌≡◌, ◌≤◌, ◌+◌, ◌++◌, IfOk, IfErr, IsErrOf, string_bytes};
ghost use Rattle.std.specs.List.{AllByRecursion};
ghost use Rattle.data_layout.specs.Index.{IsReady};
ghost use Rattle.seed_file.specs.Seeds.{IsSeedFile};
ghost use Rattle.shelf.specs.Causes.{Rose};
ghost use Rattle.seed_load.specs.Shelved as spec;

use crate::refusal::{SeedRefusal, unloaded, unread};
use data_layout::Portfolio;
use seed_file::read_seeds;
use shelf::Shelf;
use std::alloc::Global;
use std::str;
use text_load::load;
use y2k_base::{Bytes, List, Memory, Text};
use year_labels::Seed;

/// `used` and the bytes of texts together. A sum past 64 bits is want of memory.
pub fn bytes_of(used: u64, texts: &[Text]) -> Result<u64, Memory>
    ensures { IfOk result (λ sum. sum ≡ used + spec.bytes_of texts.now) }
{
    let mut sum = used;
    let mut rest = texts;
    while let [text, more @ ..] = rest {
        match sum.checked_add(text.bytes.len() as u64) {
            Some(next) => sum = next,
            None => return Err(Memory),
        }
        rest = more;
    }
    Ok(sum)
}

/// The seeds of the file of that name in the folder, which is empty or ends in `/`; no seeds where there is no name. With
/// `used` bytes of other texts the file must keep to the bound. A name that is no text is want of memory.
pub fn load_seeds<S: Shelf>(
    alloc: Global,
    name: &Option<Bytes>,
    folder: &str,
    used: u64,
    portfolio: &Portfolio,
    shelf: &mut S,
) -> Result<List<Seed>, SeedRefusal>
    requires { AllByRecursion IsReady portfolio.now.layouts }
    ensures seeds { IfOk result (spec.AreSeeds folder.now used (S.told shelf.old) portfolio.now name.now) }
    ensures refusal { IfErr result (spec.HasSeedRefusal folder.now used (S.told shelf.old) portfolio.now name.now) }
    ensures failed { IsErrOf result SeedRefusal.Shelf → Rose (S.faults shelf.old) (S.faults shelf.new) }
    ensures later { S.faults shelf.old ≤ S.faults shelf.new }
    ensures same { S.told shelf.new ≡ S.told shelf.old }
{
    match name {
        Some(name) => match seeds_in(alloc, name.items(), folder, used, portfolio, shelf) {
            Ok(seeds) => Ok(seeds),
            Err(refusal) => Err(refusal),
        },
        None => Ok(List::new(alloc)),
    }
}

fn seeds_in<S: Shelf>(
    alloc: Global,
    name: &[u8],
    folder: &str,
    used: u64,
    portfolio: &Portfolio,
    shelf: &mut S,
) -> Result<List<Seed>, SeedRefusal>
    requires { AllByRecursion IsReady portfolio.now.layouts }
    ensures seeds { IfOk result (spec.AreSeedsAt (folder.now ++ name.now) used (S.told shelf.old) portfolio.now) }
    ensures refusal { IfErr result (spec.IsRefusedAt (folder.now ++ name.now) used (S.told shelf.old) portfolio.now) }
    ensures failed { IsErrOf result SeedRefusal.Shelf → Rose (S.faults shelf.old) (S.faults shelf.new) }
    ensures later { S.faults shelf.old ≤ S.faults shelf.new }
    ensures same { S.told shelf.new ≡ S.told shelf.old }
{
    match shelf_name(alloc, folder, name) {
        Ok(name) => match seeds_at(alloc, name.as_str(), used, portfolio, shelf) {
            Ok(seeds) => Ok(seeds),
            Err(refusal) => Err(refusal),
        },
        Err(_) => Err(SeedRefusal::Memory),
    }
}

/// The name of a file on the shelf.
fn shelf_name(alloc: Global, folder: &str, name: &[u8]) -> Result<String, Memory>
    ensures { IfOk result (λ whole. string_bytes whole ≡ folder.now ++ name.now) }
{
    match str::from_utf8(name) {
        Ok(name) => {
            let whole = format!(in alloc; "{folder}{name}")?;
            Ok(whole)
        }
        Err(_) => Err(Memory),
    }
}

/// The seeds of the file of that name on the shelf.
fn seeds_at<S: Shelf>(
    alloc: Global,
    name: &str,
    used: u64,
    portfolio: &Portfolio,
    shelf: &mut S,
) -> Result<List<Seed>, SeedRefusal>
    requires { AllByRecursion IsReady portfolio.now.layouts }
    ensures seeds { IfOk result (spec.AreSeedsAt name.now used (S.told shelf.old) portfolio.now) }
    ensures refusal { IfErr result (spec.IsRefusedAt name.now used (S.told shelf.old) portfolio.now) }
    ensures failed { IsErrOf result SeedRefusal.Shelf → Rose (S.faults shelf.old) (S.faults shelf.new) }
    ensures later { S.faults shelf.old ≤ S.faults shelf.new }
    ensures same { S.told shelf.new ≡ S.told shelf.old }
{
    match load(alloc, name, used, shelf) {
        Ok(bytes) => match seeds_of(alloc, bytes.items(), portfolio) {
            Ok(seeds) => Ok(seeds),
            Err(refusal) => Err(refusal),
        },
        Err(fault) => Err(unloaded(fault)),
    }
}

fn seeds_of(alloc: Global, bytes: &[u8], portfolio: &Portfolio) -> Result<List<Seed>, SeedRefusal>
    requires { AllByRecursion IsReady portfolio.now.layouts }
    ensures seeds { IfOk result (IsSeedFile portfolio.now bytes.now) }
    ensures refusal { IfErr result (spec.IsRefusedText portfolio.now bytes.now) }
    ensures inside { IfErr result (λ refusal. refusal ≡ SeedRefusal.Shelf → ⊥) }
{
    match read_seeds(alloc, bytes, portfolio) {
        Ok(seeds) => Ok(seeds),
        Err(fault) => Err(unread(fault)),
    }
}

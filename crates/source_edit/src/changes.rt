ghost use Rattle.std.specs.Prelude.{◌≡◌, None, Some, MatchOption, OnOk};
ghost use Rattle.source_edit.specs.Changes as spec;

use std::alloc::Global;
use std::collections::BTreeMap;
use y2k_base::{Memory, Origin, Word, WordPlace};

/// The words that are to stand in place of words of texts, by the places of these in the texts.
#[derive(Drop)]
pub struct Changes<'a> {
    index: BTreeMap<Origin, &'a [Word]>,
}

/// The words that are to stand in place of words of expanded programs, by their positions.
#[derive(Drop)]
pub struct Replacements<'a> {
    index: BTreeMap<WordPlace, &'a [Word]>,
}

impl<'a> Changes<'a> {
    /// No changes. It takes no memory.
    pub fn new(alloc: Global) -> Changes<'a>
        ensures { spec.changed result ≡ spec.nothing }
    {
        Changes {
            index: BTreeMap::new(alloc),
        }
    }

    /// The words that are to stand in place of the word at that origin, if it is edited.
    pub fn at(&self, origin: Origin) -> Option<&'a [Word]>
        ensures { MatchOption result (spec.changed self.now origin ≡ None) (λ words. spec.changed self.now origin ≡ Some words.now) }
    {
        match self.index.get(&origin) {
            Some(words) => Some(*words),
            None => None,
        }
    }

    /// Lets these words stand in place of the word at that origin.
    pub fn put(&mut self, origin: Origin, words: &'a [Word]) -> Result<(), Memory>
        ensures { OnOk result (spec.changed self.new ≡ spec.with_change (spec.changed self.old) origin words.now) }
    {
        self.index.insert(origin, words)?;
        Ok(())
    }
}

impl<'a> Replacements<'a> {
    /// No replacements. It takes no memory.
    pub fn new(alloc: Global) -> Replacements<'a>
        ensures { spec.replaced result ≡ spec.none_replaced }
    {
        Replacements {
            index: BTreeMap::new(alloc),
        }
    }

    /// The words that are to stand in place of the word at that position, if it is edited.
    pub fn at(&self, place: WordPlace) -> Option<&'a [Word]>
        ensures { MatchOption result (spec.replaced self.now place ≡ None) (λ words. spec.replaced self.now place ≡ Some words.now) }
    {
        match self.index.get(&place) {
            Some(words) => Some(*words),
            None => None,
        }
    }

    /// Lets these words stand in place of the word at that position.
    pub fn put(&mut self, place: WordPlace, words: &'a [Word]) -> Result<(), Memory>
        ensures { OnOk result (spec.replaced self.new ≡ spec.with_replacement (spec.replaced self.old) place words.now) }
    {
        self.index.insert(place, words)?;
        Ok(())
    }
}

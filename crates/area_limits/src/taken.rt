ghost use Rattle.std.specs.Prelude.{◌≡◌, ◌++◌, OnOk};
ghost use Rattle.area_limits.specs.Taken as spec;

use crate::extents::is_name;
use generated_areas::GeneratedArea;
use plan_limits::{Limit, LimitKind, add_word_limit};
use std::alloc::Global;
use y2k_base::{List, Memory, Word};

/// Whether the word begins as the names of generated areas do.
fn is_taken(word: &Word) -> bool
    ensures { result ≡ spec.is_taken word.now }
{
    is_name(word.kind) && word.text.items().starts_with("Y2K-".as_bytes())
}

fn add_word(alloc: Global, limits: &mut List<Limit>, word: &Word) -> Result<(), Memory>
    ensures { OnOk result (limits.new ≡ limits.old ++ spec.word_limits word.now) }
{
    if is_taken(word) {
        let text = word.text.items();
        add_word_limit(alloc, limits, LimitKind::NameTaken, word.origin, text)?;
        Ok(())
    } else {
        Ok(())
    }
}

fn add_words(alloc: Global, limits: &mut List<Limit>, words: &[Word]) -> Result<(), Memory>
    ensures { OnOk result (limits.new ≡ limits.old ++ spec.words_limits words.now) }
{
    let mut rest = words;
    while let [word, more @ ..] = rest {
        add_word(alloc, limits, word)?;
        rest = more;
    }
    Ok(())
}

/// Adds the limits of the names of a program that needs these areas.
pub(crate) fn add_taken(
    alloc: Global,
    limits: &mut List<Limit>,
    words: &[Word],
    areas: &[GeneratedArea],
) -> Result<(), Memory>
    ensures { OnOk result (limits.new ≡ limits.old ++ spec.taken_limits words.now areas.now) }
{
    match areas {
        [] => Ok(()),
        [_, ..] => {
            add_words(alloc, limits, words)?;
            Ok(())
        }
    }
}
